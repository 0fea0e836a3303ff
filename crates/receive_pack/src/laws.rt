// Laws of a push, as an interaction.
ghost use Rattle.receive_pack.specs.Laws.{PushesAreOrdered};

/// A push is in order; a call does nothing.
pub fn hold_laws()
    ensures ordered { PushesAreOrdered }
{}
