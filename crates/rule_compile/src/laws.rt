// Laws about definitions.
ghost use Rattle.rule_compile.specs.Patterns.{AreTrue, Patterns};

/// There are answers about texts that are true, so what is said of all true answers is said of some.
pub fn some_patterns_are_true()
    ensures { (ps : Patterns) × AreTrue ps }
{
    // called for their clauses, which the proof cites
    refex::sound_texts_are_patterns();
    refex::spells_one_pattern();
}
