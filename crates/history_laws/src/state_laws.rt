// What holds of the state along a legal log.
ghost use Rattle.history_laws.specs.StateLaws.{DoneBringsItsPack, DoneConfIsInForce, DoneWasAdvertised, MadeIsOfTheConf, NewWasMade, ObjectsAreFew, OneLog, OnlyTheseChange, OthersStay, PastIsLetByItsFacts, PlainAreThere, PushesAreForWriting, RefsAreNamed, RolesChangeAlone, SomeAnswerIsDue, SomeOutcomesAreDue};

use rule_compile::some_patterns_are_true;

/// Tells what changes the state along a legal log, and what doesn't. It does nothing, and is called for its
/// clauses.
pub fn hold_state_laws()
    ensures conf { DoneConfIsInForce }
    ensures only { OnlyTheseChange }
    ensures apart { OthersStay }
    ensures pack { DoneBringsItsPack }
    ensures roles { RolesChangeAlone }
    ensures writing { PushesAreForWriting }
    ensures advertised { DoneWasAdvertised }
    ensures new { NewWasMade }
    ensures made { MadeIsOfTheConf }
    ensures plain { PlainAreThere }
    ensures facts { PastIsLetByItsFacts }
    ensures refs { RefsAreNamed }
    ensures few { ObjectsAreFew }
    ensures one { OneLog }
    ensures some { SomeAnswerIsDue }
    ensures outcomes { SomeOutcomesAreDue }
{
    // called for its clause that some answers about patterns are true, which the proof cites
    some_patterns_are_true();
    // called for its clauses that there is one answer, that some rules are in force, and on what an answer to
    // a change of roles tells
    hub_history::hold_laws();
    // called for its clause that the setup's conf comes to rules
    setup_conf::hold_laws();
    // called for its clause on what is said of a change
    update_check::hold_laws();
}
