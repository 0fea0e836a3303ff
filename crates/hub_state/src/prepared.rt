// What is found out of a push's pack before its turn.
ghost use Rattle.std.specs.Prelude.{◌≡◌};
ghost use Rattle.ancestry.specs.Closures.{AreClosures};
ghost use Rattle.ancestry.specs.Known.{AreFound, AreKnown};
ghost use Rattle.hub_state.specs.Prepared.{AreGrownClosures, IsPrepared};

use ancestry::{Closures, Findings, Known};
use ref_store::{FreshObjects, Lens, Repo};
use std::marker::Model;

/// A pack beside the repository as it was at an opening: what it adds, with the segments that there are then
/// where a command may be done; what walks found out; what is known, with that where it is kept; what the old
/// values of its refs lead to; and where the pack is most of the repository what the new ones do.
#[derive(Drop)]
pub struct PreparedPack {
    repo: Repo,
    lens: Lens,
    findings: Findings,
    known: Known,
    closures: Closures,
    grown_closures: Closures,
    // Nothing once it is taken.
    fresh: Option<FreshObjects>,
}

impl Model for PreparedPack {
    ghost use Rattle.ancestry.specs.Closures.{AreClosures};
    ghost use Rattle.ancestry.specs.Known.{AreFound, AreKnown};
    ghost use Rattle.hub_state.specs.Prepared.{AreGrownClosures, IsPrepared, PackView};

    ghost Value = { PackView };

    ghost view = { λ p. record { before = p.repo.objects; objects = p.lens } };

    ghost invariant = { λ p. AreFound p.lens p.findings × AreKnown p.lens p.known × AreClosures p.repo.objects p.closures × AreGrownClosures p.repo.objects p.lens p.grown_closures × IsPrepared p.repo.objects p.lens p.fresh };
}

impl PreparedPack {
    pub fn new(
        repo: Repo,
        lens: Lens,
        findings: Findings,
        known: Known,
        closures: Closures,
        grown_closures: Closures,
        fresh: Option<FreshObjects>,
    ) -> PreparedPack
        requires found { AreFound lens findings }
        requires known { AreKnown lens known }
        requires closures { AreClosures repo.objects closures }
        requires grown_closures { AreGrownClosures repo.objects lens grown_closures }
        requires fresh { IsPrepared repo.objects lens fresh }
        ensures { result ≡ record { before = repo.objects; objects = lens } }
    {
        PreparedPack {
            repo,
            lens,
            findings,
            known,
            closures,
            grown_closures,
            fresh,
        }
    }

    /// What the pack adds to the repository as it was, where that was found out. It is taken once.
    pub fn take_fresh(&mut self) -> Option<FreshObjects>
        ensures fresh { IsPrepared self.old.before self.old.objects result }
        ensures same { self.new ≡ self.old }
    {
        self.fresh.take()
    }

    /// The repository as it was, with the pack's objects behind its own.
    pub fn lens(&self) -> &Lens
        ensures { result.now ≡ self.now.objects }
    {
        &self.lens
    }

    /// What walks found out.
    pub fn findings(&self) -> &Findings
        ensures { AreFound self.now.objects result.now }
    {
        &self.findings
    }

    /// What the old values of its refs lead to.
    pub fn closures(&self) -> &Closures
        ensures { AreClosures self.now.before result.now }
    {
        &self.closures
    }

    /// What new values of its refs lead to, once the pack's objects are added.
    pub fn grown_closures(&self) -> &Closures
        ensures { AreGrownClosures self.now.before self.now.objects result.now }
    {
        &self.grown_closures
    }

    /// What is known of the objects, the pack's among them.
    pub fn into_known(self) -> Known
        ensures { AreKnown self.objects result }
    {
        let PreparedPack {
            repo: _,
            lens: _,
            findings: _,
            known,
            closures: _,
            grown_closures: _,
            fresh: _,
        } = self;
        known
    }
}
