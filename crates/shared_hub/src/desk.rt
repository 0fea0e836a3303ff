// A pass of a shared hub as a desk.
ghost use Rattle.std.specs.Prelude.{◌≡◌, IsTrue};
ghost use Rattle.turn_lock.specs.Lock.{IsSamePass};
ghost use Rattle.access_check.specs.declared.verdicts.Want.TheVariants as want;
ghost use Rattle.hub_history.specs.History.{Stands};
ghost use Rattle.git_object.specs.Object.{FitOnePack};
ghost use Rattle.hub_history.specs.Push.{AreWithinLimits};
ghost use Rattle.push_judging.specs.Judged.{IsJudgement};
ghost use Rattle.hub.specs.Desk.{Enters, IsSound, KeepsPins, Looks, Permits, Pushes};
ghost use Rattle.shared_hub.specs.Desk.{EndsTurn, desk_of};
ghost use Rattle.shared_hub.specs.Shared.{IsHubPass};

use crate::event_hub::EventHub;
use crate::shared::{SharedHub, SharedPass};
use crate::steps::{AskStopped, Asked, Enter, Look, Permit, Push, PushTurn};
use git_object::{ObjectList, share};
use hub::{
    Desk, Entered, Judged, Looked, PermChange, Permitted, Pin, PushRequest, Pushed, RepoName,
    UserName, Want,
};
use ref_store::CommandList;
use std::alloc::Global;
use std::marker::Model;
use std::sync::Wait;

/// A caller of a shared hub. Contracts see it as its pass.
///
/// Each of the four calls waits for the turn, and gives it back before it returns.
#[derive(Drop)]
pub struct SharedDesk<'a, R: Wait, H: EventHub> {
    rt: &'a R,
    hub: &'a SharedHub<H>,
    pass: SharedPass<H>,
}

impl<'a, R: Wait, H: EventHub> Model for SharedDesk<'a, R, H> {
    ghost use Rattle.std.specs.Prelude.{◌≡◌};
    ghost use Rattle.turn_lock.specs.Lock.{PassState};
    ghost use Rattle.shared_hub.specs.declared.kept.KeptEntry.{KeptEntry};
    ghost use Rattle.shared_hub.specs.Shared.{IsHubPass};

    ghost Value = { PassState (KeptEntry H) };

    ghost view = { λ d. d.pass };

    ghost invariant = { λ d. (d.pass.lock ≡ d.hub.now) × IsHubPass d.pass };
}

impl<'a, R: Wait, H: EventHub> SharedDesk<'a, R, H> {
    pub fn new(rt: &'a R, hub: &'a SharedHub<H>, pass: SharedPass<H>) -> SharedDesk<'a, R, H>
        requires of_hub { pass.lock ≡ hub.now }
        requires hub { IsHubPass pass }
        ensures { result ≡ pass }
    {
        SharedDesk { rt, hub, pass }
    }

    pub fn into_pass(self) -> SharedPass<H>
        ensures pass { result ≡ self.entry }
        ensures hub { IsHubPass result }
    {
        let SharedDesk {
            rt: _,
            hub: _,
            pass,
        } = self;
        pass
    }

    /// Whether the hub has stopped: then no call of a desk makes an entry any more. It takes the turn once.
    pub fn has_stopped(&mut self) -> bool
        ensures may { IsTrue result → IsTrue H.may_stop }
        ensures same { self.new ≡ self.old }
    {
        let mut step = AskStopped {
            caller: self.pass.caller(),
        };
        let hub = self.hub;
        hub.lock.with_turn(self.rt, &mut self.pass, &mut step)
    }
}

impl<'a, R: Wait, H: EventHub> SharedDesk<'a, R, H> {
    // One turn of a push. Where it ends without an entry the pass is as it was.
    fn push_in_turn(&mut self, alloc: Global, asked: Asked) -> PushTurn
        requires stands { Stands asked.pin (desk_of self.old).admin (desk_of self.old).seen }
        requires write { asked.pin.pinned.want ≡ want.Write }
        requires within { AreWithinLimits asked.request.commands }
        requires fit { FitOnePack asked.request.pack }
        requires judged { IsJudgement asked.pin.pinned asked.request.pack asked.request.commands asked.judged }
        ensures turn { EndsTurn self.old self.new asked result }
        ensures goes { IsSamePass self.old self.new }
    {
        let mut step = Push::new(alloc, self.pass.caller(), &self.pass, asked);
        let hub = self.hub;
        let Some(turn) = hub.lock.with_turn(self.rt, &mut self.pass, &mut step) else {
            unreachable!()
        };
        turn
    }
}

impl<'a, R: Wait, H: EventHub> Desk for SharedDesk<'a, R, H> {
    ghost use Rattle.std.specs.Prelude.{refl};
    ghost use Rattle.std.proofs.Common.{◌∙◌};

    ghost view = { desk_of };

    ghost goes_on = { λ old new. IsSamePass old new };

    fn enter(&mut self, alloc: Global, user: &UserName, repo: &RepoName, want: Want) -> Entered {
        let mut step = Enter {
            alloc,
            caller: self.pass.caller(),
            user,
            repo,
            want,
        };
        let hub = self.hub;
        hub.lock.with_turn(self.rt, &mut self.pass, &mut step)
    }

    fn push(
        &mut self,
        alloc: Global,
        pin: Pin,
        pack: ObjectList,
        commands: CommandList,
        atomic: bool,
        judged: Judged,
    ) -> Pushed {
        // Held until the turn is over: so the objects of a push that isn't done are freed behind it.
        let _objects = share(&pack);
        let request = PushRequest {
            pack,
            commands,
            atomic,
        };
        let mut asked = Asked {
            pin,
            request,
            judged,
        };
        let rt = self.rt;
        for _ in rt.forever() {
            let (mut back, wild) = match self.push_in_turn(alloc, asked) {
                PushTurn::Settled(pushed) => return pushed,
                PushTurn::Again(back, wild) => (back, wild),
            };
            if back.judge_again(alloc, wild).is_err() {
                return Pushed::NoMemory(back.pin);
            }
            asked = back;
        }
        unreachable!()
    }

    fn permit(
        &mut self,
        alloc: Global,
        user: &UserName,
        repo: &RepoName,
        change: PermChange,
    ) -> Permitted {
        let mut step = Permit {
            alloc,
            caller: self.pass.caller(),
            user,
            repo,
            change: Some(change),
        };
        let hub = self.hub;
        let Some(permitted) = hub.lock.with_turn(self.rt, &mut self.pass, &mut step) else {
            unreachable!()
        };
        permitted
    }

    fn look(&mut self, alloc: Global, user: &UserName) -> Looked {
        let mut step = Look {
            alloc,
            caller: self.pass.caller(),
            user,
        };
        let hub = self.hub;
        hub.lock.with_turn(self.rt, &mut self.pass, &mut step)
    }

    fn sound(&self) {
        // the pass is read so that the proof has what every pass of a desk keeps
        let _caller = self.pass.caller();
    }

    ghost stays = { λ desk. record { lock = refl; caller = refl; passes = refl; at_new = refl; numbers = refl } };

    ghost composes = { λ a b c one more. record {
      lock = more.lock ∙ one.lock;
      caller = more.caller ∙ one.caller;
      passes = more.passes ∙ one.passes;
      at_new = more.at_new ∙ one.at_new;
      numbers = more.numbers ∙ one.numbers;
    } };
}
