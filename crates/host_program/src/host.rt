// `host`: workers at the hub of a journal on a disk, and what is printed behind them.
ghost use Rattle.std.specs.Prelude.{◌≡◌, ◌⊎◌, ◌*◌, ◌^◌, ◌<◌, [], All, IsTrue, Some, false, length, option_map};
ghost use Rattle.hub_journal.specs.Events.{bodies_in, head_for};
ghost use Rattle.record_file.specs.Files.{EndsAtGate, IsDurable};
ghost use Rattle.session_workers.specs.Passes.{IsIdle};
ghost use Rattle.shell_program.specs.Keep.{EndsUnopened};
ghost use Rattle.shell_program.specs.Status.{status_number};
ghost use Rattle.shell_program.specs.declared.status.Status.{Status};
ghost use Rattle.host_program.specs.Host.{EndsHost, Hosts, SharesNone, host_status};

use conf_lex::UserName;
use edge_links::Door;
use hub::EntryList;
use hub_journal::{OpenFault, Recovered, recover};
use pktline_core::{Link, Sink};
use record_file::Disk;
use session_core::Gate;
use session_workers::{Post, ServedAll, serve_all};
use shell_program::{
    ScriptFault, ServerProtocol, Status, end_unopened, print_served, served_status,
};
use std::alloc::Global;
use std::sync::Wait;
use std::thread::Threads;
use stored_hub::{StoredHub, StoredParts};

/// How a run of `host` ended.
#[derive(Drop)]
pub struct HostEnded<Y> {
    /// The status with which the program ends.
    pub status: u8,
    /// The events that were answered, and at most one more, which wasn't.
    pub log: EntryList,
    /// How many events of the log were answered. Each of them that changed something is stored for certain.
    pub stored: u64,
    /// None where there was no memory to share the hub.
    pub disk: Option<Y>,
}

// How the end is told: a fault of the disk comes before all others.
fn host_status(
    is_broken: bool,
    printed: Result<(), ScriptFault>,
    door_failed: bool,
    no_memory: bool,
) -> Status
    ensures { result ≡ host_status is_broken printed door_failed no_memory }
{
    if is_broken {
        return Status::DiskFault;
    }
    served_status(printed, door_failed, no_memory)
}

// Serves the posts at the hub of an open journal.
fn serve_open<
    O: Sink,
    L: Link + Send,
    D: Door<L> + Send,
    G: Gate + Send,
    R: Threads + Wait + Sync,
    Y: Disk + Send + Drop,
>(
    rt: &R,
    alloc: Global,
    output: &mut O,
    posts: &mut [Post<D, G, StoredHub<Y>, ServerProtocol>],
    each: u64,
    disk: Y,
    recovered: Recovered,
) -> HostEnded<Y>
    requires few { length posts.old < 2 ^ 32 }
    requires fits { length posts.old * each < 2 ^ 64 }
    requires unbroken { recovered.writer.broken ≡ false }
    requires at_gate { EndsAtGate recovered.writer (Y.state disk).size }
    requires durable { IsTrue Y.is_modeled → IsDurable (head_for recovered.hub.admin) (bodies_in recovered.hub.log) recovered.writer.end (Y.state disk).file }
    ensures ends { (status : Status) × (result.status ≡ status_number status)
        × (SharesNone L.state D.state recovered.hub.admin each posts.old posts.new (record { modeled = Y.is_modeled; disk = Y.state disk; disk' = option_map Y.state result.disk; sink = O.state output.old; sink' = O.state output.new; log = result.log; stored = result.stored; status = status })
        ⊎ Hosts L.state D.state recovered.hub.admin each posts.old posts.new (record { modeled = Y.is_modeled; disk = Y.state disk; disk' = option_map Y.state result.disk; sink = O.state output.old; sink' = O.state output.new; log = result.log; stored = result.stored; status = status }) (Y.state disk) recovered.hub.log) }
    ensures idle { All (λ post. IsIdle post) posts.old → All (λ post. IsIdle post) posts.new }
{
    let (hub, writer) = recovered.into_parts();
    let hub = StoredHub::new(alloc, disk, hub, writer);
    let ServedAll {
        hub,
        sessions,
        door_failed,
        no_memory,
    } = serve_all::<L, D, G, R, StoredHub<Y>, ServerProtocol>(rt, alloc, hub, posts, each);
    let Some(hub) = hub else {
        return HostEnded {
            status: Status::NoMemory.number(),
            log: EntryList::new(alloc),
            stored: 0,
            disk: None,
        };
    };
    let StoredParts {
        log,
        stored,
        disk,
        is_broken,
    } = hub.into_parts();
    let printed = print_served(alloc, output, sessions, stored as usize);
    HostEnded {
        status: host_status(is_broken, printed, door_failed, no_memory).number(),
        log,
        stored,
        disk: Some(disk),
    }
}

// Ends where the journal wasn't opened.
fn end_refused<O: Sink, Y: Disk>(
    alloc: Global,
    output: &mut O,
    disk: Y,
    fault: OpenFault,
) -> HostEnded<Y>
    ensures ends { (status : Status) × (result.status ≡ status_number status) × EndsUnopened fault (O.state output.old) (O.state output.new) status }
    ensures disk { result.disk ≡ Some disk }
    ensures log { (result.log ≡ []) × (result.stored ≡ 0) }
{
    let status = end_unopened(alloc, output, fault);
    HostEnded {
        status: status.number(),
        log: EntryList::new(alloc),
        stored: 0,
        disk: Some(disk),
    }
}

/// Serves the posts at the hub of this admin's journal, which is made where the disk's file is empty, each by
/// its protocol and with a worker that serves so many links, and prints how many sessions there were and how many events the
/// log has. An opening that made its repository, a push of which a command is done, and a change of roles that
/// is done are stored before they are answered; granted openings for writing with the next of those. All
/// other events change nothing, and aren't stored. A file that is no journal of this admin's hub is refused,
/// and no door is asked.
///
/// Where a call of the disk fails, each worker ends behind the session in which it is or its next one, which
/// is answered as one for which there is no memory.
pub fn host_main<
    O: Sink,
    L: Link + Send,
    D: Door<L> + Send,
    G: Gate + Send,
    R: Threads + Wait + Sync,
    Y: Disk + Send + Drop,
>(
    rt: &R,
    alloc: Global,
    admin: &UserName,
    output: &mut O,
    posts: &mut [Post<D, G, StoredHub<Y>, ServerProtocol>],
    each: u64,
    disk: Y,
) -> HostEnded<Y>
    requires few { length posts.old < 2 ^ 32 }
    requires fits { length posts.old * each < 2 ^ 64 }
    ensures ends { (status : Status) × (result.status ≡ status_number status)
        × EndsHost L.state D.state admin.now each posts.old posts.new (record { modeled = Y.is_modeled; disk = Y.state disk; disk' = option_map Y.state result.disk; sink = O.state output.old; sink' = O.state output.new; log = result.log; stored = result.stored; status = status }) }
    ensures idle { All (λ post. IsIdle post) posts.old → All (λ post. IsIdle post) posts.new }
{
    let mut disk = disk;
    match recover(alloc, &mut disk, admin) {
        Ok(recovered) => serve_open(rt, alloc, output, posts, each, disk, recovered),
        Err(fault) => end_refused(alloc, output, disk, fault),
    }
}
