// What holds of the definitions themselves.
ghost use Rattle.access_check.specs.Laws.{OnlyDeclaredRolesCover, OnlyRulesForItDecide, VerdictsNameTheirRules};

/// The laws of verdicts and of roles; a call does nothing.
pub fn hold_laws()
    ensures some { OnlyRulesForItDecide }
    ensures named { VerdictsNameTheirRules }
    ensures declared { OnlyDeclaredRolesCover }
{}
