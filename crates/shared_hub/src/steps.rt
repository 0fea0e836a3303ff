// What each call of a desk does while it has the turn.
ghost use Rattle.std.specs.Prelude.{◌≡◌, IsTrue, []};
ghost use Rattle.std.specs.Option.{ForSome};
ghost use Rattle.hub_history.specs.History.{HasShortRole};
ghost use Rattle.turn_lock.specs.Lock.{seen};
ghost use Rattle.shared_hub.specs.Steps.{RunsChange, RunsLook, RunsOnce, RunsOpening, RunsPushTurn};
ghost use Rattle.push_judging.specs.Judged.{IsJudgement};

use crate::event_hub::EventHub;
use crate::kept::KeptHub;
use crate::shared::SharedPass;
use base_types::NoMemory;
use hub::{
    Entered, Judged, Looked, PermChange, Permitted, Pin, PushRequest, Pushed, RepoName, UserName,
    Want,
};
use std::alloc::Global;
use std::marker::Model;
use std::snapshot::Snapshot;
use turn_lock::Step;
use wild_perms::Wild;

/// An opening.
#[derive(Drop)]
pub struct Enter<'a> {
    pub alloc: Global,
    pub caller: u64,
    pub user: &'a UserName,
    pub repo: &'a RepoName,
    pub want: Want,
}

impl<H: EventHub> Step<KeptHub<H>> for Enter<'_> {
    type Answer = Entered;

    ghost knows = { λ _. [] };

    ghost caller = { λ s. s.caller };

    ghost relates = { λ s before after answer. RunsOpening s.caller s.user.now s.repo.now s.want before after answer };

    fn run(&mut self, held: &mut KeptHub<H>) -> Entered {
        held.hub
            .enter(self.alloc, self.caller, self.user, self.repo, self.want)
    }
}

/// What is pushed, and how it was judged.
#[derive(Drop)]
pub struct Asked {
    pub pin: Pin,
    pub request: PushRequest,
    pub judged: Judged,
}

impl Asked {
    /// Judges the push again, by this creator and these roles, before it takes the turn once more.
    pub fn judge_again(&mut self, alloc: Global, wild: Wild) -> Result<(), NoMemory>
        requires { IsJudgement self.old.pin.pinned self.old.request.pack self.old.request.commands self.old.judged }
        ensures same { self.new ≡ record self.old { judged = self.new.judged } }
        ensures judged { IsJudgement self.old.pin.pinned self.old.request.pack self.old.request.commands self.new.judged }
    {
        self.judged
            .judge_again(alloc, &self.pin, &self.request, wild)
    }
}

/// How a push's turn ended.
#[derive(Drop)]
pub enum PushTurn {
    Settled(Pushed),
    /// Nothing was done: the push is to be judged by this creator and these roles first.
    Again(Asked, Wild),
}

/// A push, which has something to push until it is run, and what its caller had seen before.
#[derive(Drop)]
pub struct Push<H: EventHub> {
    alloc: Global,
    caller: u64,
    known: Snapshot<SharedPass<H>>,
    asked: Option<Asked>,
}

impl<H: EventHub> Model for Push<H> {
    ghost use Rattle.turn_lock.specs.Lock.{seen};
    ghost use Rattle.std.specs.Coded.{codes};
    ghost use Rattle.shared_hub.specs.contracts.steps.Asked as request;
    ghost use Rattle.shared_hub.specs.Steps.{MayPushAny, PushState};

    ghost Value = { PushState H };

    ghost coded = { Prim.hlevel (codes, request.the_row.coded) };

    ghost view = { λ s. record { caller = s.caller; known = seen s.known.value; asked = s.asked } };

    ghost invariant = { λ s. MayPushAny (seen s.known.value) s.asked };
}

impl<H: EventHub> Push<H> {
    ghost use Rattle.std.specs.Prelude.{◌≡◌, Some};
    ghost use Rattle.shared_hub.specs.Steps.{MayPush};

    pub fn new(alloc: Global, caller: u64, pass: &SharedPass<H>, asked: Asked) -> Push<H>
        requires { MayPush (seen pass.now) asked }
        ensures { result ≡ record { caller = caller; known = seen pass.now; asked = Some asked } }
    {
        Push {
            alloc,
            caller,
            known: Snapshot::of(pass),
            asked: Some(asked),
        }
    }
}

impl<H: EventHub> Step<KeptHub<H>> for Push<H> {
    type Answer = Option<PushTurn>;

    ghost knows = { λ s. s.known };

    ghost caller = { λ s. s.caller };

    ghost relates = { λ s before after answer. RunsOnce (RunsPushTurn s.caller) s.asked before after answer };

    fn run(&mut self, held: &mut KeptHub<H>) -> Option<PushTurn> {
        let Some(asked) = self.asked.take() else {
            return None;
        };
        if let Ok(Some(wild)) = held
            .hub
            .wild_to_judge(self.alloc, &asked.pin, &asked.judged)
        {
            return Some(PushTurn::Again(asked, wild));
        }
        let Asked {
            pin,
            request,
            judged,
        } = asked;
        let pushed = held
            .hub
            .settle(self.alloc, self.caller, pin, request, judged);
        Some(PushTurn::Settled(pushed))
    }
}

/// A change or a listing of roles, which has something to ask until it is run.
#[derive(Drop)]
pub struct Permit<'a> {
    pub alloc: Global,
    pub caller: u64,
    pub user: &'a UserName,
    pub repo: &'a RepoName,
    pub change: Option<PermChange>,
    ghost short: { ForSome change (λ asked. HasShortRole asked) },
}

impl<H: EventHub> Step<KeptHub<H>> for Permit<'_> {
    type Answer = Option<Permitted>;

    ghost knows = { λ _. [] };

    ghost caller = { λ s. s.caller };

    ghost relates = { λ s before after answer. RunsOnce (RunsChange s.caller s.user.now s.repo.now) s.change before after answer };

    fn run(&mut self, held: &mut KeptHub<H>) -> Option<Permitted> {
        let Some(change) = self.change.take() else {
            return None;
        };
        Some(
            held.hub
                .permit(self.alloc, self.caller, self.user, self.repo, change),
        )
    }
}

/// A listing.
#[derive(Drop)]
pub struct Look<'a> {
    pub alloc: Global,
    pub caller: u64,
    pub user: &'a UserName,
}

impl<H: EventHub> Step<KeptHub<H>> for Look<'_> {
    type Answer = Looked;

    ghost knows = { λ _. [] };

    ghost caller = { λ s. s.caller };

    ghost relates = { λ s before after answer. RunsLook s.caller s.user.now before after answer };

    fn run(&mut self, held: &mut KeptHub<H>) -> Looked {
        held.hub.look(self.alloc, self.caller, self.user)
    }
}

/// A look at whether the hub has stopped.
#[derive(Drop)]
pub struct AskStopped {
    pub caller: u64,
}

impl<H: EventHub> Step<KeptHub<H>> for AskStopped {
    type Answer = bool;

    ghost knows = { λ _. [] };

    ghost caller = { λ s. s.caller };

    ghost relates = { λ _ before after answer. (after ≡ before) × (IsTrue answer → IsTrue H.may_stop) };

    fn run(&mut self, held: &mut KeptHub<H>) -> bool {
        held.hub.has_stopped()
    }
}
