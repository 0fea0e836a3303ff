// What holds of files of journals.
ghost use Rattle.journal_laws.specs.Laws.{BodiesTellTheLog, FoundIsBeginning, LastingAreFound, LastingAreNotRefused, OwnIsNotRefused};

use rule_compile::some_patterns_are_true;

/// Tells what is found in a file that a crash may have left of a journal. It does nothing, and is called for
/// its clauses.
pub fn hold_laws()
    ensures bodies { BodiesTellTheLog }
    ensures found { FoundIsBeginning }
    ensures own { OwnIsNotRefused }
    ensures lasting { LastingAreFound }
    ensures lasting_own { LastingAreNotRefused }
{
    // called for its clause that some answers about patterns are true, which the proof cites
    some_patterns_are_true();
    // called for its clause that legal logs in which the same was asked are one
    history_laws::hold_state_laws();
    // called for its clause that a body is that of one caller and one request
    event_record::hold_laws();
    // called for its clauses that a file has one reading, and is bad at no offset where it holds records
    record_file::hold_laws();
    // called for its clauses that the entries that last are a legal log, and lead to the same state
    lasting_events::hold_laws();
}
