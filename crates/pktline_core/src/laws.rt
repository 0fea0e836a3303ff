// What holds of the format itself.
ghost use Rattle.pktline_core.specs.Laws.{PacketLaws};

/// The laws of the format; a call does nothing.
pub fn hold_laws()
    ensures { PacketLaws }
{}
