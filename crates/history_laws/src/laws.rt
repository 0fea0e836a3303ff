// What holds of every legal log.
ghost use Rattle.history_laws.specs.Laws.{AtomicOtherNamesTheFirst, DeniedIsNotLet, DeniedNowIsNotLet, ManyPathsIsNotLet, ManyPathsNowIsNotLet, OpenedIsLet, PastTheRulesIsLet, RefusedIsNotLet};
ghost use Rattle.history_laws.specs.Named.{AllAreNamed};
ghost use Rattle.history_laws.specs.Refusals.{RefusalsAreSo};

use rule_compile::some_patterns_are_true;

/// Tells what was let and what wasn't along a legal log. It does nothing, and is called for its clauses.
pub fn hold_laws()
    ensures opened { OpenedIsLet }
    ensures refused { RefusedIsNotLet }
    ensures denied { DeniedIsNotLet }
    ensures many { ManyPathsIsNotLet }
    ensures denied_now { DeniedNowIsNotLet }
    ensures many_now { ManyPathsNowIsNotLet }
    ensures past { PastTheRulesIsLet }
    ensures others { RefusalsAreSo }
    ensures atomic { AtomicOtherNamesTheFirst }
    ensures named { AllAreNamed }
{
    // called for its clause that some answers about patterns are true, which the proof cites
    some_patterns_are_true();
    // called for its clauses on what is said of a change
    update_check::hold_laws();
    // called for its clause on the plain names of a conf
    rule_laws::hold_laws();
}
