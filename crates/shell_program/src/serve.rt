// `serve` and `http`: workers at their posts, and what is printed behind them.
ghost use Rattle.std.specs.Prelude.{◌≡◌, ◌⊎◌, ◌*◌, ◌^◌, ◌<◌, ℕ, All, IfErr, IfNone, IfOk, IfSome, OnOk, false, length, slice_index_or};
ghost use Rattle.session_workers.specs.Passes.{IsIdle};
ghost use Rattle.session_workers.specs.ServesAll.{ServesAll};
ghost use Rattle.shell_program.specs.Protocols.{meaning_of};
ghost use Rattle.shell_program.specs.declared.protocols.ServerProtocol.{ServerProtocol};
ghost use Rattle.shell_program.specs.Serve.{ADoorFailed, EndsServe, StopsPrinting, served_line};
ghost use Rattle.shell_program.specs.RunningScripts.{TellsOutput};
ghost use Rattle.shell_program.specs.Status.{status_number};
ghost use Rattle.shell_program.specs.declared.status.Status.{Status};
ghost use Rattle.hub_history.specs.History.{IsLegal};
ghost use Rattle.base_types.specs.Counts.{HasRisen};
ghost use Rattle.std.specs.Io.KnownBytes.{Appends};

use crate::lone::Ended;
use crate::protocols::ServerProtocol;
use crate::script::{ScriptFault, write_text};
use crate::status::{Status, served_status};
use base_types::NoMemory;
use conf_lex::UserName;
use edge_links::Door;
use hub::Hub;
use itoa::Buffer;
use pktline_core::{Link, Sink};
use session_core::Gate;
use session_workers::{Post, ServedAll, serve_all};
use std::alloc::Global;
use std::sync::Wait;
use std::thread::Threads;

#[tactic(auto, unfolding(crate::specs::Serve::served_line))]
fn line_text(alloc: Global, sessions: u64, events: usize) -> Result<Vec<u8>, NoMemory>
    ensures { IfOk result (λ text. text.items ≡ served_line sessions events) }
{
    let mut digits = Buffer::new();
    let mut text = Vec::new(alloc);
    text.extend_from_slice(b"served ")?;
    text.extend_from_slice(digits.format(sessions).as_bytes())?;
    text.extend_from_slice(b" sessions, ")?;
    text.extend_from_slice(digits.format(events).as_bytes())?;
    text.extend_from_slice(b" events\n")?;
    Ok(text)
}

/// Prints the line behind so many sessions and entries.
pub fn print_served<O: Sink>(
    alloc: Global,
    output: &mut O,
    sessions: u64,
    events: usize,
) -> Result<(), ScriptFault>
    ensures ok { OnOk result (Appends ((O.state output.old).written) ((O.state output.new).written) (served_line sessions events)) }
    ensures err { IfErr result (StopsPrinting (O.state output.old) (O.state output.new) (served_line sessions events)) }
    ensures tells { TellsOutput (O.state output.old) (O.state output.new) result }
{
    let Ok(text) = line_text(alloc, sessions, events) else {
        return Err(ScriptFault::NoMemory);
    };
    write_text(output, &text)
}

// Lets a post serve by this protocol.
fn set_protocol<D, G>(post: &mut Post<D, G, Hub, ServerProtocol>, protocol: ServerProtocol)
    ensures door { post.new.door ≡ post.old.door }
    ensures protocol { post.new.protocol ≡ protocol }
{
    post.protocol = protocol;
}

// Lets each of the posts serve by this protocol.
fn set_protocols<D, G>(posts: &mut [Post<D, G, Hub, ServerProtocol>], protocol: ServerProtocol)
    ensures doors { (k : ℕ) (d : _) → (slice_index_or posts.new k d).door ≡ (slice_index_or posts.old k d).door }
    ensures protocols { (k : ℕ) (d : _) → k < length posts.old → (slice_index_or posts.new k d).protocol ≡ protocol }
{
    for place in 0..posts.len() {
        set_protocol(&mut posts[place], protocol);
    }
}

// Serves the posts by this protocol, whatever was theirs.
fn serve_by<L: Link + Send, D: Door<L> + Send, G: Gate + Send, R: Threads + Wait + Sync>(
    rt: &R,
    alloc: Global,
    hub: Hub,
    posts: &mut [Post<D, G, Hub, ServerProtocol>],
    protocol: ServerProtocol,
    each: u64,
) -> ServedAll<Hub>
    requires few { length posts.old < 2 ^ 32 }
    requires fits { length posts.old * each < 2 ^ 64 }
    ensures served { IfSome result.hub (λ after. ServesAll (λ (p : ServerProtocol). meaning_of protocol) L.state D.state false hub after posts.old posts.new each result.sessions result.door_failed result.no_memory) }
    ensures unasked { IfNone result.hub ((k : ℕ) (d : _) → (slice_index_or posts.new k d).door ≡ (slice_index_or posts.old k d).door) }
    ensures idle { All (λ post. IsIdle post) posts.new }
{
    set_protocols(posts, protocol);
    serve_all::<L, D, G, R, Hub, ServerProtocol>(rt, alloc, hub, posts, each)
}

/// Serves the posts by this protocol at a new hub of this admin, each with a worker that serves so many links,
/// and prints how many sessions there were and how many entries the log has.
pub fn run_serve<
    O: Sink,
    L: Link + Send,
    D: Door<L> + Send,
    G: Gate + Send,
    R: Threads + Wait + Sync,
>(
    rt: &R,
    alloc: Global,
    output: &mut O,
    posts: &mut [Post<D, G, Hub, ServerProtocol>],
    protocol: ServerProtocol,
    admin: &UserName,
    each: u64,
) -> Ended
    requires few { length posts.old < 2 ^ 32 }
    requires fits { length posts.old * each < 2 ^ 64 }
    ensures ends { (status : Status) × (result.status ≡ status_number status) × EndsServe (meaning_of protocol) L.state D.state admin.now each posts.old posts.new (O.state output.old) (O.state output.new) result.log status }
    ensures tells { (result.status ≡ 3) ⊎ ((O.state output.new).write_faults ≡ (O.state output.old).write_faults) }
    ensures sure { (ADoorFailed D.state posts.old posts.new → ⊥) → (HasRisen (O.state output.old).write_faults (O.state output.new).write_faults → ⊥) → (result.status ≡ 0) ⊎ (result.status ≡ 4) }
    ensures legal { IsLegal admin.now result.log }
    ensures idle { All (λ post. IsIdle post) posts.old → All (λ post. IsIdle post) posts.new }
{
    let Ok(hub) = Hub::start(alloc, admin) else {
        return Ended::without_log(alloc, Status::NoMemory);
    };
    let ServedAll {
        hub,
        sessions,
        door_failed,
        no_memory,
    } = serve_by::<L, D, G, R>(rt, alloc, hub, posts, protocol, each);
    let Some(hub) = hub else {
        return Ended::without_log(alloc, Status::NoMemory);
    };
    let log = hub.into_log();
    let printed = print_served(alloc, output, sessions, log.len());
    Ended {
        status: served_status(printed, door_failed, no_memory).number(),
        log,
    }
}
