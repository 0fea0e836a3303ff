// What holds of hubs whose events are stored.
ghost use Rattle.std.specs.Prelude.{Bool};
ghost use Rattle.stored_hub.specs.Stored.{GoesOnStored, StoredView};

/// The laws of such hubs; a call does nothing.
pub fn hold_laws()
    // No calls go on from a hub to itself.
    ensures stays { (modeled : Bool) (j : StoredView) → GoesOnStored modeled j j }
    ensures composes { (modeled : Bool) (a b c : StoredView) → GoesOnStored modeled a b → GoesOnStored modeled b c → GoesOnStored modeled a c }
{}
