// What holds of the definitions themselves.
ghost use Rattle.std.specs.Prelude.{List};
ghost use Rattle.git_object.specs.Content.{Content};
ghost use Rattle.ref_store.specs.declared.command.Command as ref_command;
ghost use Rattle.rule_compile.specs.Patterns.{Patterns};
ghost use Rattle.rule_compile.specs.declared.rule.Rule as flat_rule;
ghost use Rattle.access_check.specs.Users.{Asked};
ghost use Rattle.update_check.specs.Laws.{DenialsAreVerdicts, ExactlyWhereLet, OneIsSaid};

/// The laws of what the rules say; a call does nothing.
pub fn hold_laws()
    ensures exactly { (patterns : Patterns) (rules : List flat_rule.Rule) (a : Asked) (objects : List Content) (change : ref_command.Command) → ExactlyWhereLet patterns rules a objects change }
    ensures denials { (patterns : Patterns) (rules : List flat_rule.Rule) (a : Asked) (objects : List Content) (change : ref_command.Command) → DenialsAreVerdicts patterns rules a objects change }
    ensures one { (patterns : Patterns) (rules : List flat_rule.Rule) (a : Asked) (objects : List Content) (change : ref_command.Command) → OneIsSaid patterns rules a objects change }
{
    // called for its clause that two lists of changed paths are one, which the proof cites
    vref::hold_laws();
}
