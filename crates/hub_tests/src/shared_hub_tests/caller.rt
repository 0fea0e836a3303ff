// A caller of a shared hub, and what it asks.
ghost use Rattle.std.specs.Prelude.{◌≡◌, IfOk, IfSome};
ghost use Rattle.turn_lock.specs.Lock.{IsSamePass};
ghost use Rattle.access_check.specs.declared.verdicts.Want.TheVariants as want;
ghost use Rattle.hub_history.specs.History.{Stands};
ghost use Rattle.hub_history.specs.Push.{AreWithinLimits};
ghost use Rattle.shared_hub.specs.Shared.{IsHubPass};

use crate::shared_hub_tests::objects::pack_of;
use base_types::Text;
use git_object::{ObjectId, ObjectList, fit_one_pack};
use hub::{
    Desk, Entered, Outcome, OutcomeList, PermChange, Pin, Pushed, RepoName, UserName, Want, judge,
};
use ref_store::{Command, CommandList};
use shared_hub::{EventHub, NoMemory, SharedDesk, SharedHub, SharedPass};
use std::alloc::Global;
use std::marker::Model;
use std::process::Abort;
use std::sync::Wait;

// ---- what a caller asks

// A user, a repository, a ref, and what is pushed to it: a conf, or an empty commit with a letter.
pub type Asks = (&'static str, &'static str, &'static str, &'static str, u8);

#[derive(Drop)]
pub struct Job {
    user: UserName,
    repo: RepoName,
    name: Text,
    pack: ObjectList,
    pub new: ObjectId,
}

fn user_of(rt: &impl Abort, alloc: Global, name: &str) -> UserName {
    let name = UserName::parse(alloc, name.as_bytes()).expect(rt, "memory for a name");
    name.expect(rt, "a user's name")
}

fn repo_of(rt: &impl Abort, alloc: Global, name: &str) -> RepoName {
    let name = RepoName::parse(alloc, name.as_bytes()).expect(rt, "memory for a name");
    name.expect(rt, "a repository's name")
}

pub fn job_of(rt: &impl Abort, alloc: Global, asks: &Asks) -> Job {
    let (user, repo, name, text, letter) = *asks;
    let (pack, new) = pack_of(rt, alloc, text, letter);
    Job {
        user: user_of(rt, alloc, user),
        repo: repo_of(rt, alloc, repo),
        name: Text::of(alloc, name.as_bytes()).expect(rt, "memory for a name"),
        pack,
        new,
    }
}

// A command that makes the ref, or deletes it where the opening has it.
fn commands_of(alloc: Global, pin: &Pin, job: &Job) -> Result<CommandList, NoMemory>
    ensures { IfOk result AreWithinLimits }
{
    let name = job.name.clone()?;
    if name.bytes().len() > 1024 {
        return Err(NoMemory);
    }
    let old = pin.repo().value(&name);
    let new = if old == ObjectId::zero() {
        job.new
    } else {
        ObjectId::zero()
    };
    let mut commands = CommandList::new(alloc);
    commands.push(Command { old, new, name })?;
    Ok(commands)
}

// ---- calls of a desk

// An opening for writing, if it is granted.
fn open<D: Desk>(alloc: Global, desk: &mut D, job: &Job) -> Option<Pin>
    ensures write { IfSome result (λ pin. pin.pinned.want ≡ want.Write) }
    ensures stands { IfSome result (λ pin. Stands pin (D.view desk.new).admin (D.view desk.new).seen) }
    ensures goes { D.goes_on desk.old desk.new }
{
    match desk.enter(alloc, &job.user, &job.repo, Want::Write) {
        Entered::Granted(pin) => Some(pin),
        _ => None,
    }
}

fn push<D: Desk>(alloc: Global, desk: &mut D, pin: Pin, job: &Job) -> Result<OutcomeList, NoMemory>
    requires write { pin.pinned.want ≡ want.Write }
    requires stands { Stands pin (D.view desk.old).admin (D.view desk.old).seen }
    ensures goes { D.goes_on desk.old desk.new }
{
    let commands = commands_of(alloc, &pin, job)?;
    let pack = job.pack.clone()?;
    let judged = judge(alloc, &pin, &pack, &commands, false)?;
    if !fit_one_pack(&pack) {
        return Err(NoMemory);
    }
    match desk.push(alloc, pin, pack, commands, false, judged) {
        Pushed::Settled { outcomes, .. } => Ok(outcomes),
        Pushed::NoMemory(_) => Err(NoMemory),
    }
}

// The number of a lone outcome, and the value that a stale command met.
pub type FirstOutcome = (u8, ObjectId);

fn told(outcomes: &Result<OutcomeList, NoMemory>) -> FirstOutcome {
    let Ok(outcomes) = outcomes else {
        return (0, ObjectId::zero());
    };
    match outcomes.get(0) {
        Some(Outcome::Stale(id)) => (11, *id),
        Some(outcome) => (outcome.number(), ObjectId::zero()),
        None => (0, ObjectId::zero()),
    }
}

// ---- a caller

/// What a caller does on its thread, in one go.
#[derive(Clone, Copy, Drop)]
pub enum Act {
    Rest,
    Open,
    /// A push of the last opening, if it was granted and none was pushed since.
    Push,
    /// So many openings with a push of each, and then a listing of roles and one of repositories.
    Work(u64),
}

/// A caller at its desk. Contracts see it as its pass.
#[derive(Drop)]
pub struct Caller<'a, R: Wait, H: EventHub> {
    desk: SharedDesk<'a, R, H>,
    job: &'a Job,
    pin: Option<Pin>,
    told: FirstOutcome,
}

impl<'a, R: Wait, H: EventHub> Model for Caller<'a, R, H> {
    ghost use Rattle.std.specs.Prelude.{◌≡◌, IfSome};
    ghost use Rattle.turn_lock.specs.Lock.{PassState};
    ghost use Rattle.access_check.specs.declared.verdicts.Want.TheVariants as want;
    ghost use Rattle.hub_history.specs.History.{Stands};
    ghost use Rattle.shared_hub.specs.Desk.{desk_of};
    ghost use Rattle.shared_hub.specs.declared.kept.KeptEntry.{KeptEntry};

    ghost Value = { PassState (KeptEntry H) };

    ghost view = { λ c. c.desk };

    ghost invariant = { λ c. IfSome c.pin (λ pin. (pin.pinned.want ≡ want.Write) × Stands pin (desk_of c.desk).admin (desk_of c.desk).seen) };
}

impl<'a, R: Wait, H: EventHub> Caller<'a, R, H> {
    pub fn new(
        rt: &'a R,
        hub: &'a SharedHub<H>,
        pass: SharedPass<H>,
        job: &'a Job,
    ) -> Caller<'a, R, H>
        requires of_hub { pass.lock ≡ hub.now }
        requires hub { IsHubPass pass }
        ensures { result ≡ pass }
    {
        Caller {
            desk: SharedDesk::new(rt, hub, pass),
            job,
            pin: None,
            told: (0, ObjectId::zero()),
        }
    }

    /// Its pass, and what its last push was told.
    pub fn into_parts(self) -> (SharedPass<H>, FirstOutcome)
        ensures pass { result.0 ≡ self.entry }
        ensures hub { IsHubPass result.0 }
    {
        let Caller {
            desk,
            job: _,
            pin: _,
            told,
        } = self;
        (desk.into_pass(), told)
    }

    pub fn act(self, alloc: Global, act: Act) -> Caller<'a, R, H>
        ensures { IsSamePass self.entry result }
    {
        let mut caller = self;
        match act {
            Act::Rest => {}
            Act::Open => caller.open(alloc),
            Act::Push => caller.push(alloc),
            Act::Work(rounds) => caller.work(alloc, rounds),
        }
        caller
    }

    fn open(&mut self, alloc: Global)
        ensures { IsSamePass self.old self.new }
    {
        self.pin = open(alloc, &mut self.desk, self.job);
    }

    fn push(&mut self, alloc: Global)
        ensures { IsSamePass self.old self.new }
    {
        if let Some(pin) = self.pin.take() {
            self.told = told(&push(alloc, &mut self.desk, pin, self.job));
        }
    }

    fn work(&mut self, alloc: Global, rounds: u64)
        ensures { IsSamePass self.old self.new }
    {
        for _ in 0..rounds {
            self.open(alloc);
            self.push(alloc);
        }
        self.pin = None;
        let job = self.job;
        let _roles = self
            .desk
            .permit(alloc, &job.user, &job.repo, PermChange::List);
        let _lines = self.desk.look(alloc, &job.user);
    }
}
