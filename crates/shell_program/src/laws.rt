// Laws of runs of the program.
ghost use Rattle.shell_program.specs.Laws.{LoadsAgree, ScriptsAgree};

use interaction_tree::turns_hold;
use script_frames::scripts_differ;

/// Two runs of one script come to the same, and two of `load`; a call does nothing.
pub fn hold_laws()
    ensures scripts { ScriptsAgree }
    ensures loads { LoadsAgree }
{
    // called for its clauses that there is one answer to each request, and that it is due at its place
    hub_history::hold_laws();
    // called for its clause that every log has answers
    turns_hold::<(), ()>();
    // called for its clause that every legal log has a rulebook
    session_core::hold_laws();
    // called for its clause that an input is a script in one way
    scripts_differ();
    // called for its clause that some answers about patterns are true
    rule_compile::some_patterns_are_true();
}
