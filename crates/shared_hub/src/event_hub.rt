// A hub as a lock over it has it.
ghost use Rattle.std.specs.Prelude.{◌≡◌, Bool, IsTrue, false, true};
ghost use Rattle.conf_lex.specs.Names.{is_user_name};
ghost use Rattle.access_check.specs.declared.verdicts.Want.TheVariants as want;
ghost use Rattle.git_object.specs.Object.{FitOnePack};
ghost use Rattle.hub_history.specs.History.{HasShortRole, IsLegal, Stands};
ghost use Rattle.hub_history.specs.Push.{AreWithinLimits};
ghost use Rattle.hub_history.specs.Roles.{kept_of};
ghost use Rattle.push_judging.specs.Judged.{IsJudgement};
ghost use Rattle.hub.specs.Answer.{AnswersChange, AnswersLook, AnswersOpening, AnswersPush, kept, looked, opened, permitted, settled};
ghost use Rattle.hub.specs.Hub.{HubView, Logs};

use base_types::NoMemory;
use hub::{
    Entered, Hub, Judged, Looked, PermChange, Permitted, Pin, PushRequest, Pushed, RepoName,
    UserName, Want,
};
use std::alloc::Global;
use wild_perms::Wild;

/// A hub that makes events for callers with numbers: what a lock over it asks of it.
pub trait EventHub {
    /// The admin from whose setup the log is legal, and the log as callers know it.
    ghost view: { Self → HubView };

    /// A hub as its calls leave it goes on from the one that it was.
    ghost goes_on: { Self → Self → Type 0 };

    /// Whether hubs of this type may stop.
    ghost may_stop: { Bool };

    /// Opens a repository for a user.
    fn enter(
        &mut self,
        alloc: Global,
        caller: u64,
        user: &UserName,
        repo: &RepoName,
        want: Want,
    ) -> Entered
        ensures logs { Logs (view self.old) (view self.new) caller (opened user.now repo.now want (kept result)) }
        ensures answers { AnswersOpening (view self.old) (view self.new) user.now repo.now want result }
        ensures legal { IsLegal (view self.new).admin (view self.new).log }
        ensures goes { goes_on self.old self.new };

    /// The creator and the roles by which a push is to be judged again before it is settled, if it is.
    fn wild_to_judge(
        &self,
        alloc: Global,
        pin: &Pin,
        judged: &Judged,
    ) -> Result<Option<Wild>, NoMemory>
        requires { Stands pin.now (view self.now).admin (view self.now).log };

    /// Settles a push that has been judged.
    fn settle(
        &mut self,
        alloc: Global,
        caller: u64,
        pin: Pin,
        request: PushRequest,
        judged: Judged,
    ) -> Pushed
        requires stands { Stands pin (view self.old).admin (view self.old).log }
        requires write { pin.pinned.want ≡ want.Write }
        requires within { AreWithinLimits request.commands }
        requires fit { FitOnePack request.pack }
        requires judged { IsJudgement pin.pinned request.pack request.commands judged }
        ensures logs { Logs (view self.old) (view self.new) caller (settled pin request.pack request.commands request.atomic result) }
        ensures answers { AnswersPush (view self.old) pin result }
        ensures legal { IsLegal (view self.new).admin (view self.new).log }
        ensures goes { goes_on self.old self.new };

    /// Changes the roles of a repository, or lists them, for its creator.
    fn permit(
        &mut self,
        alloc: Global,
        caller: u64,
        user: &UserName,
        repo: &RepoName,
        change: PermChange,
    ) -> Permitted
        requires short { HasShortRole change }
        ensures logs { Logs (view self.old) (view self.new) caller (permitted user.now repo.now change (kept_of result)) }
        ensures answers { AnswersChange (view self.old) repo.now result }
        ensures legal { IsLegal (view self.new).admin (view self.new).log }
        ensures goes { goes_on self.old self.new };

    /// Lists what a user may see.
    fn look(&mut self, alloc: Global, caller: u64, user: &UserName) -> Looked
        ensures logs { Logs (view self.old) (view self.new) caller (looked user.now result) }
        ensures answers { AnswersLook (view self.old) user.now result }
        ensures legal { IsLegal (view self.new).admin (view self.new).log }
        ensures goes { goes_on self.old self.new };

    /// Whether it has stopped: no call makes an event any more.
    fn has_stopped(&self) -> bool
        ensures { IsTrue result → IsTrue may_stop };

    /// Tells that the admin is a user's name, and that the log is legal. It does nothing, and is called for
    /// its clauses.
    fn sound(&self)
        ensures named { is_user_name (view self.now).admin ≡ true }
        ensures legal { IsLegal (view self.now).admin (view self.now).log };

    ghost stays: { (hub : Self) → goes_on hub hub };

    ghost composes: { (a b c : Self) → goes_on a b → goes_on b c → goes_on a c };
}

impl EventHub for Hub {
    ghost use Rattle.std.specs.Prelude.{refl};
    ghost use Rattle.std.proofs.Common.{◌∙◌};

    ghost view = { λ hub. hub };

    ghost goes_on = { λ old new. new.admin ≡ old.admin };

    ghost may_stop = { false };

    fn enter(
        &mut self,
        alloc: Global,
        caller: u64,
        user: &UserName,
        repo: &RepoName,
        want: Want,
    ) -> Entered {
        self.enter(alloc, caller, user, repo, want)
    }

    fn wild_to_judge(
        &self,
        alloc: Global,
        pin: &Pin,
        judged: &Judged,
    ) -> Result<Option<Wild>, NoMemory> {
        self.wild_to_judge(alloc, pin, judged)
    }

    fn settle(
        &mut self,
        alloc: Global,
        caller: u64,
        pin: Pin,
        request: PushRequest,
        judged: Judged,
    ) -> Pushed {
        self.settle(alloc, caller, pin, request, judged)
    }

    fn permit(
        &mut self,
        alloc: Global,
        caller: u64,
        user: &UserName,
        repo: &RepoName,
        change: PermChange,
    ) -> Permitted {
        self.permit(alloc, caller, user, repo, change)
    }

    fn look(&mut self, alloc: Global, caller: u64, user: &UserName) -> Looked {
        self.look(alloc, caller, user)
    }

    fn has_stopped(&self) -> bool {
        false
    }

    fn sound(&self) {
        // called for their clauses that the log is legal and that the admin is a user's name
        let _log = self.log();
        let _name = self.conf().admin().bytes();
    }

    ghost stays = { λ hub. refl };

    ghost composes = { λ a b c one more. more ∙ one };
}
