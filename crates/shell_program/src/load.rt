// `load`: the sessions of a generated installation, one after the other, and a line that counts what they
// came to.
ghost use Rattle.std.specs.Prelude.{◌≡◌, ◌⊎◌, ◌++◌, ◌+◌, ◌-◌, ◌^◌, ◌<◌, ◌≤◌, IfErr, IfOk, OnErr, OnOk, decimal, min};
ghost use Rattle.std.specs.Io.KnownBytes.{Appends};
ghost use Rattle.hub.specs.Hub.{state_of};
ghost use Rattle.hub_history.specs.History.{IsLegal};
ghost use Rattle.shell_program.specs.Load.{EndsLoad, load_line, loader, value_behind};
ghost use Rattle.shell_program.specs.RunningLoads.{HasLoaded, LacksInput, ServesInput, StopsLoading};
ghost use Rattle.shell_program.specs.RunningScripts.{TellsOutput};
ghost use Rattle.shell_program.specs.Serve.{StopsPrinting, new_hub};
ghost use Rattle.shell_program.specs.Status.{status_number};
ghost use Rattle.shell_program.specs.declared.status.Status.{Status};
ghost use Rattle.installation.specs.Sessions.{visit_input};

use crate::lone::Ended;
use crate::script::{MOST_MOVED, ScriptFault, word, write_text};
use crate::status::{Status, status_of};
use crate::tally::{Tally, count_entries};
use base_types::{NoMemory, Text};
use conf_lex::UserName;
use git_object::ObjectId;
use git_session::session;
use hub::{EntryList, Hub, LoneDesk};
use installation::{First, Visit, first_input, next_visit, repo_name, visit_input};
use itoa::Buffer;
use pktline_core::{MemoryLink, Sink};
use session_core::{OpenGate, PacketBuffer};
use std::alloc::Global;

// A new hub of the admin who loads.
fn new_hub(alloc: Global) -> Result<Hub, NoMemory>
    ensures { IfOk result (λ hub. hub ≡ new_hub loader) }
{
    let Some(admin) = UserName::parse(alloc, b"admin")? else {
        unreachable!()
    };
    Hub::start(alloc, &admin)
}

// Serves a session with this input, over memory.
fn serve_input(
    alloc: Global,
    hub: Hub,
    input: Vec<u8>,
    buffer: &mut PacketBuffer,
) -> (Hub, Result<(), NoMemory>)
    ensures ok { OnOk result.1 (ServesInput hub result.0 input.items) }
    ensures lacks { OnErr result.1 (LacksInput hub result.0 input.items) }
{
    let mut desk = LoneDesk::new(hub);
    let mut link = MemoryLink::new(input, MOST_MOVED, Vec::new(alloc), Vec::new(alloc));
    let end = session(alloc, &mut link, &mut desk, &mut OpenGate, buffer);
    match word(end) {
        Some(_) => (desk.into_hub(), Ok(())),
        None => (desk.into_hub(), Err(NoMemory)),
    }
}

// The value that a visit's ref has.
fn value_at(alloc: Global, hub: &Hub, visit: &Visit) -> Result<ObjectId, NoMemory>
    requires { hub.now.admin ≡ loader }
    ensures { IfOk result (λ old. old ≡ value_behind hub.now.log visit.now) }
{
    let name = repo_name(alloc, visit.repo)?;
    let ref_name = Text::of(alloc, visit.ref_name())?;
    match hub.repo(&name) {
        Some(repo) => Ok(repo.value(&ref_name)),
        None => Ok(ObjectId::zero()),
    }
}

// What a visit's session reads.
fn input_of(alloc: Global, hub: &Hub, number: u32, visit: &Visit) -> Result<Vec<u8>, NoMemory>
    requires { hub.now.admin ≡ loader }
    ensures { IfOk result (λ input. input.items ≡ visit_input number visit.now (value_behind hub.now.log visit.now)) }
{
    let old = value_at(alloc, hub, visit)?;
    visit_input(alloc, number, visit, old)
}

// Runs all sessions.
fn load_all(alloc: Global, hub: Hub, count: u32, start: u32) -> (Hub, Result<(), NoMemory>)
    requires new { hub ≡ new_hub loader }
    requires some { 0 < count }
    requires few { count ≤ 5000 }
    ensures ok { OnOk result.1 (HasLoaded count start count result.0) }
    ensures lacks { OnErr result.1 (StopsLoading count start result.0) }
{
    let Ok(first) = first_input(alloc, count, start) else {
        return (hub, Err(NoMemory));
    };
    let First { input, mut draws } = first;
    let mut buffer = PacketBuffer::new();
    let (mut hub, served) = serve_input(alloc, hub, input, &mut buffer);
    if served.is_err() {
        return (hub, Err(NoMemory));
    }
    for number in 0..count {
        let visit = next_visit(count, &mut draws);
        let Ok(input) = input_of(alloc, &hub, number, &visit) else {
            return (hub, Err(NoMemory));
        };
        let (after, served) = serve_input(alloc, hub, input, &mut buffer);
        hub = after;
        if served.is_err() {
            return (hub, Err(NoMemory));
        }
    }
    (hub, Ok(()))
}

// Adds words and a number.
fn add_count(text: &mut Vec<u8>, words: &[u8], count: u64) -> Result<(), NoMemory>
    ensures { OnOk result (text.new.items ≡ text.old.items ++ (words.now ++ decimal count)) }
{
    text.extend_from_slice(words)?;
    text.extend_from_slice(Buffer::new().format(count).as_bytes())?;
    Ok(())
}

// The line behind so many visits, once all sessions were run.
#[tactic(auto, unfolding(crate::specs::Load::load_line))]
fn line_text(alloc: Global, count: u32, start: u32, hub: &Hub) -> Result<Vec<u8>, NoMemory>
    requires few { count ≤ 5000 }
    requires admin { hub.now.admin ≡ loader }
    ensures { IfOk result (λ text. text.items ≡ load_line count start hub.now.log) }
{
    let Tally {
        done,
        denied,
        refused,
    } = count_entries(hub.log().as_slice());
    let mut text = Vec::new(alloc);
    add_count(&mut text, b"load ", u64::from(count))?;
    add_count(&mut text, b" ", u64::from(start))?;
    add_count(&mut text, b": sessions ", u64::from(count) + 1)?;
    add_count(&mut text, b", done ", done)?;
    add_count(&mut text, b", denied ", denied)?;
    add_count(&mut text, b", refused ", refused)?;
    add_count(&mut text, b", refs ", hub.ref_count())?;
    text.extend_from_slice(b"\n")?;
    Ok(text)
}

// Prints the line.
fn print_loaded<O: Sink>(
    alloc: Global,
    output: &mut O,
    count: u32,
    start: u32,
    hub: &Hub,
) -> Result<(), ScriptFault>
    requires few { count ≤ 5000 }
    requires admin { hub.now.admin ≡ loader }
    ensures ok { OnOk result (Appends ((O.state output.old).written) ((O.state output.new).written) (load_line count start hub.now.log)) }
    ensures err { IfErr result (StopsPrinting (O.state output.old) (O.state output.new) (load_line count start hub.now.log)) }
    ensures tells { TellsOutput (O.state output.old) (O.state output.new) result }
{
    let Ok(text) = line_text(alloc, count, start, hub) else {
        return Err(ScriptFault::NoMemory);
    };
    write_text(output, &text)
}

// The log of a hub, which is legal.
fn legal_log(hub: Hub) -> EntryList
    ensures log { result ≡ hub.log }
    ensures legal { IsLegal hub.admin hub.log }
{
    // called for its clause that the log is legal
    let _log = hub.log();
    hub.into_log()
}

/// Runs the sessions of a generated installation of so many repositories at a new hub, and prints one line.
/// It costs what the sessions cost: the first compiles a conf of so many repositories, the others push one
/// commit each.
pub fn run_load<O: Sink>(alloc: Global, count: u32, start: u32, output: &mut O) -> Ended
    requires some { 0 < count }
    requires few { count ≤ 5000 }
    ensures ends { (status : Status) × (result.status ≡ status_number status) × EndsLoad count start (O.state output.old) (O.state output.new) result.log status }
    ensures tells { (result.status ≡ 3) ⊎ ((O.state output.new).write_faults ≡ (O.state output.old).write_faults) }
    ensures legal { IsLegal loader result.log }
{
    let Ok(hub) = new_hub(alloc) else {
        return Ended::without_log(alloc, Status::NoMemory);
    };
    let (hub, loaded) = load_all(alloc, hub, count, start);
    if loaded.is_err() {
        return Ended {
            status: Status::NoMemory.number(),
            log: legal_log(hub),
        };
    }
    let status = status_of(print_loaded(alloc, output, count, start, &hub));
    Ended {
        status: status.number(),
        log: legal_log(hub),
    }
}
