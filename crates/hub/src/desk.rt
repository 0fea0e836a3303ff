// A hub as one caller has it.
ghost use Rattle.std.specs.Prelude.{◌≡◌, ◌≤◌, length};
ghost use Rattle.access_check.specs.declared.verdicts.Want.TheVariants as want;
ghost use Rattle.hub_history.specs.History.{HasShortRole, Stands};
ghost use Rattle.git_object.specs.Object.{FitOnePack};
ghost use Rattle.hub_history.specs.Push.{AreWithinLimits};
ghost use Rattle.push_judging.specs.Judged.{IsJudgement};
ghost use Rattle.hub.specs.Desk.{DeskView, Enters, IsSound, KeepsPins, Looks, Permits, Pushes};

use crate::answer::{Entered, Looked, Permitted, Pushed};
use crate::hub::Hub;
use access_check::Want;
use conf_lex::{RepoName, UserName};
use git_object::ObjectList;
use hub_history::PermChange;
use hub_state::{Pin, PushRequest};
use push_judging::Judged;
use ref_store::CommandList;
use std::alloc::Global;

/// One caller of a hub, of which there may be others.
pub trait Desk {
    /// The admin from whose setup the log is legal, the caller's number, the log as far as the caller has
    /// seen it, from where on entries with the number are its own, and whether it is the only caller.
    ghost view: { Self → DeskView };

    /// A desk as its calls leave it is one of the same hub.
    ghost goes_on: { Self → Self → Type 0 };

    /// Opens a repository for a user.
    fn enter(&mut self, alloc: Global, user: &UserName, repo: &RepoName, want: Want) -> Entered
        ensures answers { Enters (view self.old) (view self.new) user.now repo.now want result }
        ensures keeps { KeepsPins (view self.old) (view self.new) }
        ensures goes { goes_on self.old self.new };

    /// Settles a push that has been judged.
    fn push(
        &mut self,
        alloc: Global,
        pin: Pin,
        pack: ObjectList,
        commands: CommandList,
        atomic: bool,
        judged: Judged,
    ) -> Pushed
        requires stands { Stands pin (view self.old).admin (view self.old).seen }
        requires write { pin.pinned.want ≡ want.Write }
        requires within { AreWithinLimits commands }
        requires fit { FitOnePack pack }
        requires judged { IsJudgement pin.pinned pack commands judged }
        ensures answers { Pushes (view self.old) (view self.new) pin pack commands atomic result }
        ensures keeps { KeepsPins (view self.old) (view self.new) }
        ensures goes { goes_on self.old self.new };

    /// Changes the roles of a repository, or lists them, for its creator.
    fn permit(
        &mut self,
        alloc: Global,
        user: &UserName,
        repo: &RepoName,
        change: PermChange,
    ) -> Permitted
        requires short { HasShortRole change }
        ensures answers { Permits (view self.old) (view self.new) user.now repo.now change result }
        ensures keeps { KeepsPins (view self.old) (view self.new) }
        ensures goes { goes_on self.old self.new };

    /// Lists what a user may see.
    fn look(&mut self, alloc: Global, user: &UserName) -> Looked
        ensures answers { Looks (view self.old) (view self.new) user.now result }
        ensures keeps { KeepsPins (view self.old) (view self.new) }
        ensures goes { goes_on self.old self.new };

    /// Tells that the admin is a user's name, and that what the caller has seen is legal. It does nothing,
    /// and is called for its clause.
    fn sound(&self)
        ensures { IsSound (view self.now) };

    ghost stays: { (desk : Self) → goes_on desk desk };

    ghost composes: { (a b c : Self) → goes_on a b → goes_on b c → goes_on a c };
}

/// The only caller of a hub, whose number is 0.
#[derive(Drop)]
pub struct LoneDesk {
    hub: Hub,
    start: usize,
    ghost within: { start ≤ length hub.log },
}

impl LoneDesk {
    ghost use Rattle.std.specs.Prelude.{◌≡◌, [], length};
    ghost use Rattle.hub.specs.Desk.{known, known_alone, mine};
    ghost use Rattle.hub.specs.LoneDesk.{desk_of};

    /// The desk's own entries are those that it will make.
    pub fn new(hub: Hub) -> LoneDesk
        ensures desk { desk_of result ≡ known_alone (length hub.log) hub }
        ensures none { mine (desk_of result) ≡ [] }
    {
        let start = hub.log().len();
        LoneDesk { hub, start }
    }

    pub fn into_hub(self) -> Hub
        ensures { result ≡ known (desk_of self) }
    {
        let LoneDesk { hub, start: _ } = self;
        hub
    }
}

impl Desk for LoneDesk {
    ghost use Rattle.std.specs.Prelude.{refl};
    ghost use Rattle.std.proofs.Common.{◌∙◌};
    ghost use Rattle.hub.specs.LoneDesk.{GoesOn, desk_of};

    ghost view = { desk_of };

    ghost goes_on = { GoesOn };

    fn enter(&mut self, alloc: Global, user: &UserName, repo: &RepoName, want: Want) -> Entered {
        self.hub.enter(alloc, 0, user, repo, want)
    }

    fn push(
        &mut self,
        alloc: Global,
        pin: Pin,
        pack: ObjectList,
        commands: CommandList,
        atomic: bool,
        judged: Judged,
    ) -> Pushed {
        let request = PushRequest {
            pack,
            commands,
            atomic,
        };
        self.hub.settle(alloc, 0, pin, request, judged)
    }

    fn permit(
        &mut self,
        alloc: Global,
        user: &UserName,
        repo: &RepoName,
        change: PermChange,
    ) -> Permitted {
        self.hub.permit(alloc, 0, user, repo, change)
    }

    fn look(&mut self, alloc: Global, user: &UserName) -> Looked {
        self.hub.look(alloc, 0, user)
    }

    fn sound(&self) {
        // called for their clauses that the log is legal and that the admin is a user's name
        let _log = self.hub.log();
        let _name = self.hub.conf().admin().bytes();
    }

    ghost stays = { λ desk. (refl, refl) };

    ghost composes = { λ a b c one more. (more.0 ∙ one.0, more.1 ∙ one.1) };
}
