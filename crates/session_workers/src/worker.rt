// One worker.
ghost use Rattle.std.specs.Prelude.{◌≡◌, ◌&&◌, ◌||◌, [], IsTrue, length};
ghost use Rattle.turn_lock.specs.Lock.{IsSamePass};
ghost use Rattle.shared_hub.specs.Kept.{admin_in};
ghost use Rattle.shared_hub.specs.Shared.{IsHubPass, log_at_new, log_seen};
ghost use Rattle.session_workers.specs.Visits.{HasWorked, ServesNext};

use edge_links::{Door, Next};
use hub::Desk;
use pktline_core::Link;
use session_core::{Gate, PacketBuffer, Protocol};
use shared_hub::{EventHub, SharedDesk, SharedHub, SharedPass};
use std::alloc::Global;
use std::sync::Wait;

/// How one turn at a door went.
#[derive(Clone, Copy, Debug)]
pub enum NextServed<E> {
    /// A link was served, with this end, and given back.
    Served(E),
    Closed,
    Failed,
}

/// What a worker did.
#[derive(Clone, Copy, Debug)]
pub struct Tally {
    pub sessions: u64,
    pub door_failed: bool,
    /// Whether memory ran out in a session. One that the stopped hub ended so doesn't count.
    pub no_memory: bool,
    /// Whether the last session was ended by the hub, which has stopped.
    pub stopped: bool,
}

impl Tally {
    /// Nothing was done as yet.
    pub const NONE: Tally = Tally {
        sessions: 0,
        door_failed: false,
        no_memory: false,
        stopped: false,
    };
}

// Serves the next link of a door, if there is one, and gives it back.
fn serve_next<L: Link, K: Desk, D: Door<L>, G: Gate, P: Protocol>(
    alloc: Global,
    door: &mut D,
    gate: &mut G,
    desk: &mut K,
    protocol: P,
    buffer: &mut PacketBuffer,
) -> NextServed<P::End>
    ensures next { ServesNext (P.meaning protocol) L.state (D.state door.old) (D.state door.new) (K.view desk.old) (K.view desk.new) result }
    ensures goes { K.goes_on desk.old desk.new }
{
    match door.next() {
        Next::Link(mut link) => {
            let end = protocol.serve(alloc, &mut link, desk, gate, buffer);
            door.done(link);
            NextServed::Served(end)
        }
        Next::Closed => NextServed::Closed,
        Next::Failed => NextServed::Failed,
    }
}

// Whether memory ran out, in a session with this end or before.
fn lacks<P: Protocol>(protocol: P, before: bool, end: P::End) -> bool
    ensures { result ≡ before || (P.meaning protocol).lacks end }
{
    before || protocol.is_out_of_memory(end)
}

// Whether the hub has stopped, and so has ended a session with this end, as it would each further one.
fn has_stopped_by<R: Wait, H: EventHub, P: Protocol>(
    protocol: P,
    desk: &mut SharedDesk<'_, R, H>,
    end: P::End,
) -> bool
    ensures may { IsTrue result → IsTrue (H.may_stop && (P.meaning protocol).lacks end) }
    ensures same { desk.new ≡ desk.old }
{
    protocol.is_out_of_memory(end) && desk.has_stopped()
}

/// Serves the links of a door until so many are served, the door is closed or it failed, or the hub has
/// stopped.
pub fn work<'a, L: Link, D: Door<L>, G: Gate, R: Wait, H: EventHub, P: Protocol>(
    rt: &'a R,
    alloc: Global,
    hub: &'a SharedHub<H>,
    pass: SharedPass<H>,
    protocol: P,
    door: &mut D,
    gate: &mut G,
    each: u64,
) -> (SharedPass<H>, Tally)
    requires of_hub { pass.lock ≡ hub.now }
    requires hub { IsHubPass pass }
    requires fresh { pass.since ≡ [] }
    ensures same_pass { IsSamePass pass result.0 }
    ensures hub { IsHubPass result.0 }
    ensures worked { HasWorked (P.meaning protocol) L.state H.may_stop (admin_in pass.at_new) pass.caller (length (log_at_new pass)) (log_seen result.0) each (D.state door.old) (D.state door.new) result.1 }
{
    let mut desk = SharedDesk::new(rt, hub, pass);
    let mut buffer = PacketBuffer::new();
    let mut tally = Tally::NONE;
    for sessions in 0..each {
        tally.sessions = sessions;
        match serve_next(alloc, door, gate, &mut desk, protocol, &mut buffer) {
            NextServed::Served(end) => {
                if has_stopped_by(protocol, &mut desk, end) {
                    tally.stopped = true;
                    tally.sessions = sessions + 1;
                    return (desk.into_pass(), tally);
                }
                tally.no_memory = lacks(protocol, tally.no_memory, end);
            }
            NextServed::Closed => return (desk.into_pass(), tally),
            NextServed::Failed => {
                tally.door_failed = true;
                return (desk.into_pass(), tally);
            }
        }
    }
    tally.sessions = each;
    (desk.into_pass(), tally)
}
