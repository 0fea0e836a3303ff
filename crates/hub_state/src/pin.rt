// What an opening pins.
ghost use Rattle.std.specs.Prelude.{◌≡◌};
ghost use Rattle.rule_compile.specs.Patterns.{AreTrue, Patterns};
ghost use Rattle.hub_history.specs.Conf.{AreInForce};
ghost use Rattle.hub_history.specs.Push.{HasWholeRefs};
ghost use Rattle.hub_history.specs.State.{store_of, wild_of};

use crate::conf::ConfInForce;
use crate::hosted::HostedRepo;
use access_check::Want;
use ancestry::{Closures, Known};
use conf_lex::{RepoName, UserName};
use ref_store::Repo;
use rule_compile::Policy;
use std::marker::Model;
use wild_perms::Wild;

/// What held at an opening that was granted: who opened which repository to do what, the conf, and the
/// repository.
#[derive(Drop)]
pub struct Pin {
    place: u64,
    user: UserName,
    name: RepoName,
    want: Want,
    conf: ConfInForce,
    hosted: HostedRepo,
}

impl Model for Pin {
    ghost use Rattle.hub_history.specs.Opening.{Opening};
    ghost use Rattle.hub_history.specs.Push.{HasWholeRefs};
    ghost use Rattle.hub_state.specs.Codes.{coded_opening};

    ghost Value = { Opening };

    ghost coded = { coded_opening };

    ghost invariant = { λ p. HasWholeRefs p.hosted };

    ghost view = { λ p. record { place = p.place; pinned = record { user = p.user; repo = p.name; want = p.want; conf = p.conf; repository = p.hosted } } };
}

impl Pin {
    ghost use Rattle.ancestry.specs.Closures.{AreClosures};
    ghost use Rattle.ancestry.specs.Known.{AreKnown};

    pub fn new(
        place: u64,
        user: UserName,
        name: RepoName,
        want: Want,
        conf: ConfInForce,
        hosted: HostedRepo,
    ) -> Pin
        requires { HasWholeRefs hosted }
        ensures { result ≡ record { place = place; pinned = record { user = user; repo = name; want = want; conf = conf; repository = hosted } } }
    {
        Pin {
            place,
            user,
            name,
            want,
            conf,
            hosted,
        }
    }

    /// The opening's place in the log, from 0.
    pub fn place(&self) -> u64
        ensures { result ≡ self.now.place }
    {
        self.place
    }

    pub fn user(&self) -> &UserName
        ensures { result.now ≡ self.now.pinned.user }
    {
        &self.user
    }

    pub fn repo_name(&self) -> &RepoName
        ensures { result.now ≡ self.now.pinned.repo }
    {
        &self.name
    }

    /// The repository as it was; what its refs' values lead to is all there.
    pub fn repo(&self) -> &Repo
        ensures repo { result.now ≡ store_of self.now.pinned.repository }
        ensures whole { HasWholeRefs self.now.pinned.repository }
    {
        self.hosted.repo()
    }

    /// The repository's creator and roles as they were.
    pub fn wild(&self) -> &Wild
        ensures { result.now ≡ wild_of self.now.pinned.repository }
    {
        self.hosted.wild()
    }

    /// What was known of the repository's objects.
    pub fn known(&self) -> &Known
        ensures { AreKnown self.now.pinned.repository.objects result.now }
    {
        self.hosted.known()
    }

    /// What some of its objects lead to.
    pub fn closures(&self) -> &Closures
        ensures { AreClosures self.now.pinned.repository.objects result.now }
    {
        self.hosted.closures()
    }

    pub fn conf(&self) -> &ConfInForce
        ensures { result.now ≡ self.now.pinned.conf }
    {
        &self.conf
    }

    /// The rules that were in force.
    pub fn policy(&self) -> &Policy
        ensures { (ps : Patterns) → AreTrue ps → AreInForce ps self.now.pinned.conf result.now }
    {
        self.conf.policy()
    }
}
