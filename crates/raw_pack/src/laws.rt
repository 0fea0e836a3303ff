// What holds of the format itself.
ghost use Rattle.raw_pack.specs.Laws.{PackLaws};

/// The laws of the format; a call does nothing.
pub fn hold_laws()
    ensures { PackLaws }
{}
