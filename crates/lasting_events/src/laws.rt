// What holds of the entries that last.
ghost use Rattle.lasting_events.specs.Laws.{BeginningLasts, FirstStay, LastingGrows, LastingIsEnough, OthersChangeNothing};

use rule_compile::some_patterns_are_true;

/// The laws of the entries that last; a call does nothing.
pub fn hold_laws()
    ensures enough { LastingIsEnough }
    ensures beginning { BeginningLasts }
    ensures grows { LastingGrows }
    ensures first { FirstStay }
    ensures others { OthersChangeNothing }
{
    // called for its clause that some answers about patterns are true, which the proof cites
    some_patterns_are_true();
    // called for its clause that only these events change the state
    history_laws::hold_state_laws();
}
