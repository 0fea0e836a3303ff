// What holds of the rules along a log, and of the ends of sessions.
ghost use Rattle.session_core.specs.Protocol.{SureByHalt};
ghost use Rattle.session_core.specs.Recorded.{LegalLogsAreRecorded};
ghost use Rattle.session_core.specs.Rulebook.{LegalLogsHaveRulebooks, RulebooksAgree};

use interaction_tree::turns_hold;
use rule_compile::some_patterns_are_true;

/// The laws of rulebooks, and one of ends; a call does nothing.
pub fn hold_laws()
    ensures there { LegalLogsHaveRulebooks }
    ensures agree { RulebooksAgree }
    ensures recorded { LegalLogsAreRecorded }
    ensures sure { SureByHalt }
{
    // called for its clauses that the conf in force comes to rules, and to one list of them
    hub_history::hold_laws();
    // called for its clause that some answers about patterns are true
    some_patterns_are_true();
    // called for its clause that every log has answers
    turns_hold::<(), ()>();
}
