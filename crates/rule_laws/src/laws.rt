// What holds of the rules that a conf comes to.
ghost use Rattle.rule_laws.specs.Laws.{BlocksHaveOneScope, DroppedAreWarned, LinesGiveOptions, LinesGiveRules, LinesNeverGoBack, NumbersHaveNoGap, OptionsAreOfLines, PlainAreOnce, PlainAreWorded, RulesAreOfLines, RulesComeInOrder, ScopesComeFromLines, SubconfsStayInside};

/// Tells what holds of the rules that a conf comes to. It does nothing, and is called for its clauses.
pub fn hold_laws()
    ensures inside { SubconfsStayInside }
    ensures rules { RulesAreOfLines }
    ensures lines { LinesGiveRules }
    ensures options { OptionsAreOfLines }
    ensures given { LinesGiveOptions }
    ensures spliced { ScopesComeFromLines }
    ensures scope { BlocksHaveOneScope }
    ensures numbers { NumbersHaveNoGap }
    ensures order { RulesComeInOrder }
    ensures back { LinesNeverGoBack }
    ensures plain { PlainAreWorded }
    ensures once { PlainAreOnce }
    ensures warnings { DroppedAreWarned }
{}
