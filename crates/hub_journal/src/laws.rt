// What holds of journals.
ghost use Rattle.std.specs.Prelude.{Bool};
ghost use Rattle.hub_journal.specs.Journal.{GoesOn, JournalView};

/// The laws of journals; a call does nothing.
pub fn hold_laws()
    // No calls go on from a journal to itself.
    ensures stays { (modeled : Bool) (j : JournalView) → GoesOn modeled j j }
    ensures composes { (modeled : Bool) (a b c : JournalView) → GoesOn modeled a b → GoesOn modeled b c → GoesOn modeled a c }
{}
