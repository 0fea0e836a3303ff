// What a push stands on in its turn.
ghost use Rattle.std.specs.Prelude.{◌≡◌, ◌++◌, IfOk, List};
ghost use Rattle.git_object.specs.Content.{Content};
ghost use Rattle.ref_store.specs.Store.{TellsOfComparing};
ghost use Rattle.ancestry.specs.Closures.{AreClosures};
ghost use Rattle.ancestry.specs.Known.{AreKnown};
ghost use Rattle.push_settling.specs.Basis.{AreLeft, StandsOn};
ghost use Rattle.push_settling.specs.Running.{IsReadyFor};

use ancestry::{Closures, Known};
use base_types::NoMemory;
use git_object::ObjectList;
use hub_state::{HostedRepo, PreparedPack};
use ref_store::Compared;
use std::alloc::Global;

/// Whether the objects of a push's repository are still the same.
#[derive(Clone, Copy, Debug, PartialEq, Eq)]
pub enum Standing {
    /// They are those of the opening.
    Unmoved,
    /// Others came behind them.
    Moved,
}

/// What was found out of a push before its turn, and whether its repository's objects are still the same.
#[derive(Drop)]
pub struct Basis {
    pub prepared: PreparedPack,
    pub standing: Standing,
}

impl Basis {
    // The pack beside the repository: as it was compared when the push was judged, where that still stands
    // and is at hand.
    pub(crate) fn compared(&mut self, now: &HostedRepo, pack: &ObjectList) -> Compared
        requires stands { StandsOn now.now.objects self.old }
        requires behind { self.old.prepared.objects ≡ self.old.prepared.before ++ pack.now }
        ensures told { TellsOfComparing now.now.objects pack.now result }
        ensures ready { IsReadyFor now.now.objects result }
        ensures same { self.new ≡ self.old }
    {
        match self.standing {
            Standing::Unmoved => match self.prepared.take_fresh() {
                Some(fresh) => Compared::Fresh(fresh),
                None => now.repo().compare(pack),
            },
            Standing::Moved => now.repo().compare(pack),
        }
    }

    // What some objects lead to, of those that the push leaves, of which there are so many.
    pub(crate) fn closures_with(
        &self,
        alloc: Global,
        now: &HostedRepo,
        count: usize,
    ) -> Result<Closures, NoMemory>
        requires { StandsOn now.now.objects self.now }
        ensures { (left : List Content) → AreLeft now.now.objects self.now left → IfOk result (AreClosures left) }
    {
        let closures = now.closures().with(alloc, self.prepared.closures(), count)?;
        match self.standing {
            Standing::Unmoved => closures.with(alloc, self.prepared.grown_closures(), count),
            Standing::Moved => Ok(closures),
        }
    }

    // What is known of the objects that the push leaves: as it was joined when the push was judged, and where
    // objects came since what is known now with what was found out then beside it. Nothing is joined here.
    pub(crate) fn known_with(self, alloc: Global, now: &HostedRepo) -> Result<Known, NoMemory>
        ensures { (left : List Content) → AreLeft now.now.objects self left → IfOk result (AreKnown left) }
    {
        let Basis { prepared, standing } = self;
        match standing {
            Standing::Unmoved => prepared.into_known().grown(alloc),
            Standing::Moved => now.known().grown_with(alloc, prepared.findings()),
        }
    }
}
