// A repository as the hub hosts it.
ghost use Rattle.std.specs.Prelude.{◌≡◌, [], IfOk};
ghost use Rattle.std.specs.FinMap as map;
ghost use Rattle.hub_history.specs.State.{store_of, wild_of};

use ancestry::{Closures, Known};
use base_types::NoMemory;
use ref_store::Repo;
use std::alloc::{AllocError, Global};
use std::marker::Model;
use std::sync::Arc;
use wild_perms::Wild;

/// A repository with its creator and its roles. The hub and its openings share it.
#[derive(Drop)]
pub struct HostedRepo {
    shared: Arc<Hosted>,
}

#[derive(Drop)]
struct Hosted {
    repo: Repo,
    wild: Arc<Wild>,
    // What earlier pushes found out about the objects, which contracts don't see.
    known: Known,
    // What some objects lead to, which they don't see either.
    closures: Closures,
}

impl Model for HostedRepo {
    ghost use Rattle.std.specs.Arc.{arc_value};
    ghost use Rattle.ancestry.specs.Closures.{AreClosures};
    ghost use Rattle.ancestry.specs.Known.{AreKnown};
    ghost use Rattle.hub_history.specs.State.{Repository};
    ghost use Rattle.hub_state.specs.Codes.{coded_repository};

    ghost Value = { Repository };

    ghost coded = { coded_repository };

    ghost invariant = { λ h. AreKnown (arc_value h.shared).repo.objects (arc_value h.shared).known × AreClosures (arc_value h.shared).repo.objects (arc_value h.shared).closures };

    ghost view = { λ h. record { objects = (arc_value h.shared).repo.objects; refs = (arc_value h.shared).repo.refs; creator = (arc_value (arc_value h.shared).wild).creator; roles = (arc_value (arc_value h.shared).wild).roles } };
}

impl HostedRepo {
    ghost use Rattle.std.specs.Arc.{arc_value};
    ghost use Rattle.ancestry.specs.Closures.{AreClosures};
    ghost use Rattle.ancestry.specs.Known.{AreKnown};

    /// A new repository, with this creator and these roles.
    pub fn empty(alloc: Global, wild: Wild) -> Result<HostedRepo, NoMemory>
        ensures { IfOk result (λ h. h ≡ record { objects = []; refs = map.empty; creator = wild.creator; roles = wild.roles }) }
    {
        let wild = Arc::new(alloc, wild)?;
        HostedRepo::knowing(
            alloc,
            Repo::empty(alloc)?,
            wild,
            Known::nothing(alloc),
            Closures::none(alloc),
        )
    }

    fn knowing(
        alloc: Global,
        repo: Repo,
        wild: Arc<Wild>,
        known: Known,
        closures: Closures,
    ) -> Result<HostedRepo, NoMemory>
        requires known { AreKnown repo.objects known }
        requires closures { AreClosures repo.objects closures }
        ensures { IfOk result (λ h. h ≡ record { objects = repo.objects; refs = repo.refs; creator = (arc_value wild).creator; roles = (arc_value wild).roles }) }
    {
        let hosted = Hosted {
            repo,
            wild,
            known,
            closures,
        };
        Ok(HostedRepo {
            shared: Arc::new(alloc, hosted)?,
        })
    }

    pub fn repo(&self) -> &Repo
        ensures { result.now ≡ store_of self.now }
    {
        &self.shared.repo
    }

    /// The creator and the roles.
    pub fn wild(&self) -> &Wild
        ensures { result.now ≡ wild_of self.now }
    {
        &self.shared.wild
    }

    /// What earlier pushes found out about the objects.
    pub fn known(&self) -> &Known
        ensures { AreKnown self.now.objects result.now }
    {
        &self.shared.known
    }

    /// What some objects lead to.
    pub fn closures(&self) -> &Closures
        ensures { AreClosures self.now.objects result.now }
    {
        &self.shared.closures
    }

    /// The same creator and roles, with other objects and refs, and with what is known of those objects.
    pub fn with_repo(
        &self,
        alloc: Global,
        repo: Repo,
        known: Known,
        closures: Closures,
    ) -> Result<HostedRepo, NoMemory>
        requires known { AreKnown repo.objects known }
        requires closures { AreClosures repo.objects closures }
        ensures { IfOk result (λ h. h ≡ record { objects = repo.objects; refs = repo.refs; creator = self.now.creator; roles = self.now.roles }) }
    {
        let wild = Arc::try_clone(&self.shared.wild)?;
        HostedRepo::knowing(alloc, repo, wild, known, closures)
    }

    /// The same objects and refs, with another creator and other roles. The objects are shared, and so are
    /// the refs.
    pub fn with_wild(&self, alloc: Global, wild: Wild) -> Result<HostedRepo, NoMemory>
        ensures { IfOk result (λ h. h ≡ record { objects = self.now.objects; refs = self.now.refs; creator = wild.creator; roles = wild.roles }) }
    {
        let repo = self.shared.repo.copy()?;
        let known = self.shared.known.clone()?;
        let closures = self.shared.closures.clone()?;
        let wild = Arc::new(alloc, wild)?;
        HostedRepo::knowing(alloc, repo, wild, known, closures)
    }
}

impl Clone for HostedRepo {
    ghost is_clone = { λ hosted copy. copy ≡ hosted };

    fn clone(&self) -> Result<HostedRepo, AllocError> {
        let shared = Arc::try_clone(&self.shared)?;
        Ok(HostedRepo { shared })
    }
}
