// What holds of the definitions themselves.
ghost use Rattle.access_report.specs.Laws.{EachIsAnswered, EachIsAskedOnce};

/// The laws of questions; a call does nothing.
pub fn hold_laws()
    ensures once { EachIsAskedOnce }
    ensures answered { EachIsAnswered }
{}
