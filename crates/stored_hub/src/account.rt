// What the file of a hub holds of its log, and which openings wait to come into it.
ghost use Rattle.std.specs.Prelude.{◌≡◌, ◌<◌, ◌++◌, ◌∷◌, [], length, IfOk, OnOk, true, false};
ghost use Rattle.std.specs.List.{slice_get};
ghost use Rattle.std.specs.Vec.{vec_capacity, vec_len};
ghost use Rattle.git_object.specs.Object.{FitOnePack};
ghost use Rattle.access_check.specs.declared.verdicts.Want.TheVariants as want;
ghost use Rattle.hub_history.specs.History.{HasShortRole};
ghost use Rattle.hub_history.specs.Push.{AreWithinLimits};
ghost use Rattle.hub_history.specs.Requests.{Enter, Permit, Push};
ghost use Rattle.event_record.specs.Bodies.{body_of, IsStorable};
ghost use Rattle.record_file.specs.Files.{EndsAtGate};
ghost use Rattle.stored_hub.specs.Stored.{AccountsFor, IsSameAccount, bodies_waiting, lasts_in, opening_waits, waits_in};

use crate::NoMemory;
use conf_lex::{RepoName, UserName};
use event_record::{write_enter, write_permit, write_push};
use hub::{EntryList, PermChange, Pin, PushRequest, Want};
use hub_history::{EnterKept, Event};
use hub_journal::copy_pin;
use lasting_events::lasts;
use record_file::{Disk, RecordBuilder, RecordGroup, RecordWriter};
use std::alloc::Global;

// How many openings wait at most, so that no call copies more of them than these.
const MAX_WAITING: usize = 64;

/// A granted opening for writing whose record waits for that of the next change.
#[derive(Drop)]
pub struct Queued {
    pub caller: u64,
    pub user: UserName,
    pub repo: RepoName,
}

/// What the file holds of the log.
#[derive(Drop)]
pub struct FileAccount {
    /// For how many events of the log those that last are in the file.
    pub written: u64,
    /// The places in the log, behind the events that the file had at first, of those answered events that
    /// last: a record names an opening by its place in the file.
    pub places: Vec<u64>,
    /// The openings behind the written events, in order.
    pub queue: Vec<Queued>,
}

impl Queued {
    pub(crate) fn of(caller: u64, user: &UserName, repo: &RepoName) -> Result<Queued, NoMemory>
        ensures { IfOk result (λ q. q ≡ record { caller = caller; user = user.now; repo = repo.now }) }
    {
        let user = user.clone()?;
        let repo = repo.clone()?;
        Ok(Queued { caller, user, repo })
    }
}

// Adds the records of those that wait to a group that is being built.
fn add_waiting(builder: &mut RecordBuilder, queue: &[Queued]) -> Result<(), NoMemory>
    requires { builder.old.body ≡ [] }
    ensures { OnOk result (builder.new ≡ record { bodies = builder.old.bodies ++ bodies_waiting queue.now; body = [] }) }
{
    for queued in queue {
        write_enter(
            builder,
            queued.caller,
            &queued.user,
            &queued.repo,
            Want::Write,
        )?;
        builder.next_record()?;
    }
    Ok(())
}

// The records of those that wait, as the first ones of a group.
fn waiting_records(alloc: Global, queue: &[Queued]) -> Result<RecordBuilder, NoMemory>
    ensures { IfOk result (λ builder. builder ≡ record { bodies = bodies_waiting queue.now; body = [] }) }
{
    let mut builder = RecordBuilder::new(alloc)?;
    add_waiting(&mut builder, queue)?;
    Ok(builder)
}

// What an opening takes that may be stored: its record behind those that wait, what waits where it does, and
// room to note it.
pub(crate) fn ready_enter(
    alloc: Global,
    account: &mut FileAccount,
    caller: u64,
    user: &UserName,
    repo: &RepoName,
    want: Want,
) -> Result<(RecordGroup, Queued), NoMemory>
    ensures same { IsSameAccount account.old account.new }
    ensures room { OnOk result (vec_len account.new.places < vec_capacity account.new.places) }
    ensures room_queue { OnOk result (vec_len account.new.queue < vec_capacity account.new.queue) }
    ensures body { IfOk result (λ ready. ready.0 ≡ bodies_waiting account.old.queue.items ++ body_of caller (Enter user.now repo.now want) ∷ []) }
    ensures storable { IfOk result (λ ready. IsStorable caller (Enter user.now repo.now want)) }
    ensures queued { IfOk result (λ ready. ready.1 ≡ record { caller = caller; user = user.now; repo = repo.now }) }
{
    let mut builder = waiting_records(alloc, account.queue.as_slice())?;
    write_enter(&mut builder, caller, user, repo, want)?;
    let group = builder.finish()?;
    let queued = Queued::of(caller, user, repo)?;
    account.places.reserve(1)?;
    account.queue.reserve(1)?;
    Ok((group, queued))
}

// What storing a push takes: its record behind those that wait, its pin once more, for the case that it can't
// be stored, and room to note it.
pub(crate) fn ready_push(
    alloc: Global,
    account: &mut FileAccount,
    caller: u64,
    place: u64,
    pin: &Pin,
    request: &PushRequest,
) -> Result<(RecordGroup, Pin), NoMemory>
    requires write { pin.now.pinned.want ≡ want.Write }
    requires within { AreWithinLimits request.now.commands }
    requires fit { FitOnePack request.now.pack }
    ensures same { IsSameAccount account.old account.new }
    ensures room { OnOk result (vec_len account.new.places < vec_capacity account.new.places) }
    ensures body { IfOk result (λ ready. ready.0 ≡ bodies_waiting account.old.queue.items ++ body_of caller (Push place request.now.pack request.now.commands request.now.atomic) ∷ []) }
    ensures storable { IfOk result (λ ready. IsStorable caller (Push place request.now.pack request.now.commands request.now.atomic)) }
    ensures same_pin { IfOk result (λ ready. ready.1 ≡ pin.now) }
{
    let PushRequest {
        pack,
        commands,
        atomic,
    } = request;
    let mut builder = waiting_records(alloc, account.queue.as_slice())?;
    write_push(&mut builder, caller, place, pack, commands, *atomic)?;
    let group = builder.finish()?;
    account.places.reserve(1)?;
    let same_pin = copy_pin(alloc, pin)?;
    Ok((group, same_pin))
}

// What storing a change of roles takes: its record behind those that wait, and room to note it.
pub(crate) fn ready_permit(
    alloc: Global,
    account: &mut FileAccount,
    caller: u64,
    user: &UserName,
    repo: &RepoName,
    change: &PermChange,
) -> Result<RecordGroup, NoMemory>
    requires { HasShortRole change.now }
    ensures same { IsSameAccount account.old account.new }
    ensures room { OnOk result (vec_len account.new.places < vec_capacity account.new.places) }
    ensures body { IfOk result (λ group. group ≡ bodies_waiting account.old.queue.items ++ body_of caller (Permit user.now repo.now change.now) ∷ []) }
    ensures storable { IfOk result (λ group. IsStorable caller (Permit user.now repo.now change.now)) }
{
    let mut builder = waiting_records(alloc, account.queue.as_slice())?;
    write_permit(&mut builder, caller, user, repo, change)?;
    let group = builder.finish()?;
    account.places.reserve(1)?;
    Ok(group)
}

// Whether the entry at a place of a log lasts, if there is one.
pub(crate) fn lasts_at(log: &EntryList, place: u64) -> bool
    ensures { result ≡ lasts_in (slice_get log.now place) }
{
    match log.get(place as usize) {
        Some(entry) => lasts(&entry.event),
        None => false,
    }
}

// Whether the entry at a place of a log is a granted opening for writing, if there is one.
fn waits_at(log: &EntryList, place: u64) -> bool
    ensures { result ≡ waits_in (slice_get log.now place) }
{
    let Some(entry) = log.get(place as usize) else {
        return false;
    };
    match &entry.event {
        Event::Entered { want, answer, .. } => opening_waits(*answer, *want),
        Event::Pushed { .. } => false,
        Event::Permitted { .. } => false,
        Event::Looked { .. } => false,
    }
}

fn opening_waits(answer: EnterKept, want: Want) -> bool
    ensures { result ≡ opening_waits answer want }
{
    match answer {
        EnterKept::Granted => matches!(want, Want::Write),
        EnterKept::Created => false,
        EnterKept::Denied(_) => false,
        EnterKept::NoRepo => false,
    }
}

// Lets the event that the log has got wait, where it is a granted opening for writing and not too many wait:
// whether it does, and so is answered without a call of the disk.
pub(crate) fn put_off(
    stored: &mut u64,
    account: &mut FileAccount,
    log: &EntryList,
    queued: Queued,
) -> bool
    requires room { vec_len account.old.places < vec_capacity account.old.places }
    requires room_queue { vec_len account.old.queue < vec_capacity account.old.queue }
    ensures waits { result ≡ true → waits_in (slice_get log.now stored.old) ≡ true }
    ensures yes { result ≡ true → (stored.new ≡ length log.now) × (account.new.written ≡ account.old.written) × (account.new.places.items ≡ account.old.places.items ++ stored.old ∷ []) × (account.new.queue.items ≡ account.old.queue.items ++ queued ∷ []) }
    ensures no { result ≡ false → (stored.new ≡ stored.old) × (account.new ≡ account.old) }
{
    if account.queue.len() >= MAX_WAITING {
        return false;
    }
    if !waits_at(log, *stored) {
        return false;
    }
    let place = *stored;
    account.places.push_reserved(place);
    account.queue.push_reserved(queued);
    *stored = log.len() as u64;
    true
}

// Accounts for the event that the log has got, if it got one: stores its record, where it lasts, with those
// that wait, and notes its place. Tells whether the call may be answered.
pub(crate) fn store_event<Y: Disk>(
    disk: &mut Y,
    writer: &mut RecordWriter,
    stored: &mut u64,
    account: &mut FileAccount,
    group: &RecordGroup,
    is_lasting: bool,
    count: u64,
) -> bool
    requires unbroken { writer.old.broken ≡ false }
    requires at_gate { EndsAtGate writer.old (Y.state disk.old).size }
    requires room { vec_len account.old.places < vec_capacity account.old.places }
    ensures accounts { AccountsFor Y.is_modeled group.now count is_lasting (record { stored = stored.old; writer = writer.old; disk = Y.state disk.old }) (record { stored = stored.new; writer = writer.new; disk = Y.state disk.new }) account.old.written account.new.written account.old.places.items account.new.places.items account.old.queue.items account.new.queue.items }
    ensures answers { result ≡ true → writer.new.broken ≡ false }
    ensures stops { result ≡ false → writer.new.broken ≡ true }
{
    if !is_lasting {
        *stored = count;
        return true;
    }
    writer.append(disk, group);
    if writer.is_broken() {
        return false;
    }
    account.places.push_reserved(*stored);
    account.queue.clear();
    account.written = count;
    *stored = count;
    true
}
