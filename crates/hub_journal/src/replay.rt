// A hub made again of what was asked of it.
ghost use Rattle.std.specs.Prelude.{◌≡◌, ◌+◌, [], ℕ, false, Some, IfOk, IfErr, OnOk, length};
ghost use Rattle.std.specs.BTreeMap as btree;
ghost use Rattle.std.specs.Ordering.{nat_cmp};
ghost use Rattle.access_check.specs.declared.verdicts.Want.TheVariants as want;
ghost use Rattle.git_object.specs.Object.{FitOnePack};
ghost use Rattle.hub_history.specs.History.{HasShortRole, IsLegal, Stands};
ghost use Rattle.hub_history.specs.Opening.{Opening};
ghost use Rattle.hub_history.specs.Push.{AreWithinLimits};
ghost use Rattle.hub_history.specs.Requests.{Enter, Push, Permit, Look};
ghost use Rattle.event_record.specs.Asked.{asked};
ghost use Rattle.event_record.specs.Bodies.{IsStorable, AreStorable};
ghost use Rattle.hub_journal.specs.Replay.{ArePins, IsAwaited, IsForeseen, IsImpossible, Keeps, KeepsAwaited, LeavesPins, Replays, last_push, writing_only};

use crate::NoMemory;
use crate::pins::copy_pin;
use conf_lex::{RepoName, UserName};
use event_record::{CallerRequest, Request};
use git_object::ObjectList;
use hub::{Entered, Hub, Looked, PermChange, Pin, PushRequest, Pushed, Want, judge};
use ref_store::CommandList;
use std::alloc::Global;
use std::collections::BTreeMap;
use std::marker::Model;
use wild_perms::PermsAnswer;

/// Why a request wasn't replayed.
#[derive(Clone, Copy, Debug, PartialEq, Eq)]
pub enum ReplayFault {
    /// A push after no opening for writing that was granted, or one without commands.
    Impossible,
    NoMemory,
}

impl From<NoMemory> for ReplayFault {
    ghost use Rattle.hub_journal.specs.declared.replay.ReplayFault.TheVariants as fault;

    ghost from_gives = { λ _ e. e ≡ fault.NoMemory };

    fn from(_error: NoMemory) -> ReplayFault {
        ReplayFault::NoMemory
    }
}

/// A hub that is made again, one request after the other. Contracts see the hub, and after which openings a
/// push is awaited.
///
/// Of openings for writing it keeps the pins of those alone after which a push is to come, each until that
/// push. So it holds no state of a repository that nothing asks for any more.
#[derive(Drop)]
pub struct Replay {
    hub: Hub,
    pins: BTreeMap<u64, Pin>,
    last_pushes: BTreeMap<u64, u64>,
}

impl Model for Replay {
    ghost use Rattle.std.specs.Ordering.{nat_cmp};
    ghost use Rattle.std.specs.BTreeMap as btree;
    ghost use Rattle.hub_journal.specs.Replay.{ArePins, ReplayView, last_push};

    ghost Value = { ReplayView };

    ghost view = { λ r. record { hub = r.hub; last_pushes = r.last_pushes.entries } };

    ghost invariant = { λ r. ArePins (last_push r.last_pushes.entries) r.hub (λ place. btree.get nat_cmp r.pins place) };
}

impl Replay {
    /// A new hub, of which nothing was asked. Of openings at which a push is to come, the map has the place
    /// of the last such push.
    pub fn start(
        alloc: Global,
        admin: &UserName,
        last_pushes: BTreeMap<u64, u64>,
    ) -> Result<Replay, NoMemory>
        ensures hub { IfOk result (λ replay. replay.hub ≡ record { admin = admin.now; log = [] }) }
        ensures last_pushes { IfOk result (λ replay. replay.last_pushes ≡ last_pushes.entries) }
    {
        Ok(Replay {
            hub: Hub::start(alloc, admin)?,
            pins: BTreeMap::new(alloc),
            last_pushes,
        })
    }

    /// The hub. It keeps no pin.
    pub fn into_hub(self) -> Hub
        ensures { result ≡ self.hub }
    {
        let Replay {
            hub,
            pins: _,
            last_pushes: _,
        } = self;
        hub
    }

    /// Asks of the hub what was asked once. It costs what the hub's call does, and for a push what `judge`
    /// does.
    pub fn next(self, alloc: Global, request: CallerRequest) -> Result<Replay, ReplayFault>
        requires storable { IsStorable request.caller (asked request.request) }
        ensures replays { IfOk result (λ replay. Replays self.hub replay.hub request.caller (asked request.request)) }
        ensures last_pushes { IfOk result (λ replay. replay.last_pushes ≡ self.last_pushes) }
        ensures legal { IfOk result (λ replay. IsLegal replay.hub.admin replay.hub.log) }
        ensures possible { OnOk result (IsImpossible self.hub (asked request.request) → ⊥) }
        ensures impossible { IfErr result (λ fault. fault ≡ ReplayFault.Impossible → IsForeseen self (asked request.request) → IsImpossible self.hub (asked request.request)) }
    {
        let CallerRequest { caller, request } = request;
        match request {
            Request::Enter { user, repo, want } => self.enter(alloc, caller, &user, &repo, want),
            Request::Push {
                place,
                pack,
                commands,
                atomic,
            } => self.push(alloc, caller, place, pack, commands, atomic),
            Request::Permit { user, repo, change } => {
                self.permit(alloc, caller, &user, &repo, change)
            }
            Request::Look { user } => self.look(alloc, caller, &user),
        }
    }

    fn enter(
        self,
        alloc: Global,
        caller: u64,
        user: &UserName,
        repo: &RepoName,
        want: Want,
    ) -> Result<Replay, ReplayFault>
        ensures replays { IfOk result (λ replay. Replays self.hub replay.hub caller (Enter user.now repo.now want)) }
        ensures last_pushes { IfOk result (λ replay. replay.last_pushes ≡ self.last_pushes) }
        ensures legal { IfOk result (λ replay. IsLegal replay.hub.admin replay.hub.log) }
        ensures fault { IfErr result (λ fault. fault ≡ ReplayFault.NoMemory) }
    {
        let Replay {
            mut hub,
            mut pins,
            last_pushes,
        } = self;
        let kept = ask_enter(alloc, &mut hub, caller, user, repo, want)?;
        let Some(pin) = awaited_only(&last_pushes, hub.log().len() as u64, kept) else {
            return Ok(Replay {
                hub,
                pins,
                last_pushes,
            });
        };
        let Ok(_) = pins.insert(pin.place(), pin) else {
            return Err(ReplayFault::NoMemory);
        };
        Ok(Replay {
            hub,
            pins,
            last_pushes,
        })
    }

    fn push(
        self,
        alloc: Global,
        caller: u64,
        place: u64,
        pack: ObjectList,
        commands: CommandList,
        atomic: bool,
    ) -> Result<Replay, ReplayFault>
        requires commands { AreStorable commands }
        requires fit { FitOnePack pack }
        ensures replays { IfOk result (λ replay. Replays self.hub replay.hub caller (Push place pack commands atomic)) }
        ensures last_pushes { IfOk result (λ replay. replay.last_pushes ≡ self.last_pushes) }
        ensures legal { IfOk result (λ replay. IsLegal replay.hub.admin replay.hub.log) }
        ensures possible { OnOk result (IsImpossible self.hub (Push place pack commands atomic) → ⊥) }
        ensures impossible { IfErr result (λ fault. fault ≡ ReplayFault.Impossible → IsForeseen self (Push place pack commands atomic) → IsImpossible self.hub (Push place pack commands atomic)) }
    {
        let Replay {
            mut hub,
            mut pins,
            last_pushes,
        } = self;
        if commands.is_empty() {
            return Err(ReplayFault::Impossible);
        }
        let goes_on = is_awaited(&last_pushes, hub.log().len() as u64 + 1, place);
        let Some(pin) = take_pin(alloc, &mut pins, place, goes_on)? else {
            return Err(ReplayFault::Impossible);
        };
        let Ok(()) = ask_push(alloc, &mut hub, caller, pin, pack, commands, atomic) else {
            return Err(ReplayFault::NoMemory);
        };
        Ok(Replay {
            hub,
            pins,
            last_pushes,
        })
    }

    fn permit(
        self,
        alloc: Global,
        caller: u64,
        user: &UserName,
        repo: &RepoName,
        change: PermChange,
    ) -> Result<Replay, ReplayFault>
        requires { HasShortRole change }
        ensures replays { IfOk result (λ replay. Replays self.hub replay.hub caller (Permit user.now repo.now change)) }
        ensures last_pushes { IfOk result (λ replay. replay.last_pushes ≡ self.last_pushes) }
        ensures legal { IfOk result (λ replay. IsLegal replay.hub.admin replay.hub.log) }
        ensures fault { IfErr result (λ fault. fault ≡ ReplayFault.NoMemory) }
    {
        let Replay {
            mut hub,
            pins,
            last_pushes,
        } = self;
        ask_permit(alloc, &mut hub, caller, user, repo, change)?;
        Ok(Replay {
            hub,
            pins,
            last_pushes,
        })
    }

    fn look(self, alloc: Global, caller: u64, user: &UserName) -> Result<Replay, ReplayFault>
        ensures replays { IfOk result (λ replay. Replays self.hub replay.hub caller (Look user.now)) }
        ensures last_pushes { IfOk result (λ replay. replay.last_pushes ≡ self.last_pushes) }
        ensures legal { IfOk result (λ replay. IsLegal replay.hub.admin replay.hub.log) }
        ensures fault { IfErr result (λ fault. fault ≡ ReplayFault.NoMemory) }
    {
        let Replay {
            mut hub,
            pins,
            last_pushes,
        } = self;
        ask_look(alloc, &mut hub, caller, user)?;
        Ok(Replay {
            hub,
            pins,
            last_pushes,
        })
    }
}

// Whether a push at this place of the log or a later one is after the opening.
fn is_awaited(last_pushes: &BTreeMap<u64, u64>, from: u64, opening: u64) -> bool
    ensures { result ≡ false → IsAwaited (last_push last_pushes.now.entries) from opening → ⊥ }
{
    match last_pushes.get(&opening) {
        Some(last) => from <= *last,
        None => false,
    }
}

// The pin of an opening, where a push at this place of the log or a later one is after it.
fn awaited_only(last_pushes: &BTreeMap<u64, u64>, from: u64, kept: Option<Pin>) -> Option<Pin>
    ensures { KeepsAwaited (last_push last_pushes.now.entries) from kept result }
{
    let pin = kept?;
    if is_awaited(last_pushes, from, pin.place()) {
        return Some(pin);
    }
    None
}

// The pin of an opening: the one that is kept, or a copy of it where a push is to come after this one.
fn take_pin(
    alloc: Global,
    pins: &mut BTreeMap<u64, Pin>,
    place: u64,
    goes_on: bool,
) -> Result<Option<Pin>, NoMemory>
    requires { (pin : Opening) → btree.get nat_cmp pins.old place ≡ Some pin → pin.pinned.want ≡ want.Write }
    ensures found { IfOk result (λ pin. pin ≡ btree.get nat_cmp pins.old place) }
    ensures left { OnOk result (LeavesPins goes_on place (λ q. btree.get nat_cmp pins.old q) (λ q. btree.get nat_cmp pins.new q)) }
{
    if !goes_on {
        return Ok(pins.remove(&place));
    }
    let Some(kept) = pins.get(&place) else {
        return Ok(None);
    };
    Ok(Some(copy_pin(alloc, kept)?))
}

// An opening. Its pin is kept where it is for writing.
fn ask_enter(
    alloc: Global,
    hub: &mut Hub,
    caller: u64,
    user: &UserName,
    repo: &RepoName,
    want: Want,
) -> Result<Option<Pin>, NoMemory>
    ensures replays { OnOk result (Replays hub.old hub.new caller (Enter user.now repo.now want)) }
    ensures keeps { IfOk result (Keeps hub.old hub.new) }
    ensures legal { IsLegal hub.new.admin hub.new.log }
{
    match hub.enter(alloc, caller, user, repo, want) {
        Entered::Granted(pin) => Ok(for_writing(pin, want)),
        Entered::Created(pin) => Ok(for_writing(pin, want)),
        Entered::Denied(_, _) => Ok(None),
        Entered::NoRepo => Ok(None),
        Entered::NoMemory => Err(NoMemory),
    }
}

fn for_writing(pin: Pin, want: Want) -> Option<Pin>
    ensures { result ≡ writing_only pin want }
{
    match want {
        Want::Write => Some(pin),
        Want::Read => None,
    }
}

// A push after the opening of this pin.
fn ask_push(
    alloc: Global,
    hub: &mut Hub,
    caller: u64,
    pin: Pin,
    pack: ObjectList,
    commands: CommandList,
    atomic: bool,
) -> Result<(), NoMemory>
    requires stands { Stands pin hub.old.admin hub.old.log }
    requires write { pin.pinned.want ≡ want.Write }
    requires within { AreWithinLimits commands }
    requires fit { FitOnePack pack }
    ensures replays { OnOk result (Replays hub.old hub.new caller (Push pin.place pack commands atomic)) }
    ensures legal { IsLegal hub.new.admin hub.new.log }
{
    // called for its clause that the log is legal
    let _log = hub.log();
    let judged = judge(alloc, &pin, &pack, &commands, atomic)?;
    let request = PushRequest {
        pack,
        commands,
        atomic,
    };
    match hub.settle(alloc, caller, pin, request, judged) {
        Pushed::Settled { .. } => Ok(()),
        Pushed::NoMemory(_) => Err(NoMemory),
    }
}

fn ask_permit(
    alloc: Global,
    hub: &mut Hub,
    caller: u64,
    user: &UserName,
    repo: &RepoName,
    change: PermChange,
) -> Result<(), NoMemory>
    requires { HasShortRole change }
    ensures replays { OnOk result (Replays hub.old hub.new caller (Permit user.now repo.now change)) }
    ensures legal { IsLegal hub.new.admin hub.new.log }
{
    match hub.permit(alloc, caller, user, repo, change) {
        PermsAnswer::NoMemory => Err(NoMemory),
        _ => Ok(()),
    }
}

fn ask_look(alloc: Global, hub: &mut Hub, caller: u64, user: &UserName) -> Result<(), NoMemory>
    ensures replays { OnOk result (Replays hub.old hub.new caller (Look user.now)) }
    ensures legal { IsLegal hub.new.admin hub.new.log }
{
    match hub.look(alloc, caller, user) {
        Looked::Lines(_) => Ok(()),
        Looked::NoMemory => Err(NoMemory),
    }
}
