// A hub as the lock keeps it.
ghost use Rattle.std.specs.Prelude.{◌≡◌};
ghost use Rattle.shared_hub.specs.Kept.{caller_of, listed};

use crate::event_hub::EventHub;
use hub::{Entry, UserName};
use std::marker::Model;
use std::snapshot::Snapshot;
use turn_lock::Kept;

/// An item of the lock's list.
#[derive(Drop)]
pub enum KeptEntry<H> {
    /// The name from whose setup the log is legal, and the hub as it was shared. It is the first item, and no
    /// other.
    First(UserName, Snapshot<H>),
    Logged(Entry),
}

/// A hub under a lock, which goes on from the one that was shared.
#[derive(Drop)]
pub struct KeptHub<H: EventHub> {
    first: Snapshot<H>,
    pub(crate) hub: H,
}

impl<H: EventHub> Model for KeptHub<H> {
    ghost use Rattle.shared_hub.specs.Kept.{KeptState};

    ghost Value = { KeptState H };

    ghost view = { λ k. record { first = k.first.value; hub = k.hub } };

    ghost invariant = { λ k. H.goes_on k.first.value k.hub };
}

impl<H: EventHub> KeptHub<H> {
    pub fn new(hub: H) -> KeptHub<H>
        ensures { result ≡ record { first = hub; hub = hub } }
    {
        KeptHub {
            first: Snapshot::of(&hub),
            hub,
        }
    }

    pub fn into_hub(self) -> H
        ensures hub { result ≡ self.hub }
        ensures goes { H.goes_on self.first result }
    {
        let KeptHub { first: _, hub } = self;
        hub
    }
}

impl<H: EventHub> Kept for KeptHub<H> {
    type Entry = KeptEntry<H>;

    ghost entries = { λ kept. listed kept.first (H.view kept.hub) };

    ghost caller = { caller_of };
}
