// What a client wants, up to the flush that ends it.
ghost use Rattle.std.specs.Prelude.{◌≡◌, ◌∷◌, [], OnOk};
ghost use Rattle.pktline_core.specs.Reading.{packet_of};
ghost use Rattle.session_core.specs.End.{TellsEnd, TellsLink};
ghost use Rattle.session_core.specs.Packets.{or_malformed};
ghost use Rattle.session_core.specs.Parts.{EndsLink, RunsLink, RunsLinkAt};
ghost use Rattle.session_core.specs.Readers.{IsReady};
ghost use Rattle.upload_pack.specs.Lines.{first_want, want};
ghost use Rattle.upload_pack.specs.Wants.{taking_want, taking_wants, too_many_wants, want_in};

use crate::lines::{first_want, want};
use base_types::ItemList;
use git_object::ObjectId;
use pktline_core::{Link, Pkt, PktReader};
use session_core::{SessionEnd, end_by, malformed, refuse, without_feed};
use std::alloc::Global;

/// Ids in the order in which they came.
pub type IdList = ItemList<ObjectId>;

/// How many wants there are at most.
const MOST_WANTS: u32 = 10_000;

// One more.
const TOO_MANY_WANTS: u64 = MOST_WANTS as u64 + 1;

/// The first want, in the line at this offset.
pub fn first_want_in<L: Link>(
    link: &mut L,
    offset: u64,
    line: &[u8],
) -> Result<ObjectId, SessionEnd>
    ensures runs { RunsLink (L.state link.old) (L.state link.new) (or_malformed offset (first_want line.now)) result }
    ensures tells { TellsLink (L.state link.old) (L.state link.new) result }
    ensures same { OnOk result (L.state link.new ≡ L.state link.old) }
{
    match first_want(line) {
        Some(id) => Ok(id),
        None => Err(malformed(link, offset)),
    }
}

// A later want, in the line at this offset.
fn want_in_line<L: Link>(link: &mut L, offset: u64, line: &[u8]) -> Result<ObjectId, SessionEnd>
    ensures runs { RunsLink (L.state link.old) (L.state link.new) (or_malformed offset (want line.now)) result }
    ensures tells { TellsLink (L.state link.old) (L.state link.new) result }
    ensures same { OnOk result (L.state link.new ≡ L.state link.old) }
{
    match want(line) {
        Some(id) => Ok(id),
        None => Err(malformed(link, offset)),
    }
}

// A later want, in the packet at this offset, or none at the flush that ends them.
fn want_in<L: Link>(
    link: &mut L,
    offset: u64,
    packet: Pkt<'_>,
) -> Result<Option<ObjectId>, SessionEnd>
    ensures runs { RunsLink (L.state link.old) (L.state link.new) (want_in offset (packet_of packet.entry)) result }
    ensures tells { TellsLink (L.state link.old) (L.state link.new) result }
    ensures same { OnOk result (L.state link.new ≡ L.state link.old) }
{
    match packet {
        Pkt::Line(line) => match want_in_line(link, offset, without_feed(line)) {
            Ok(id) => Ok(Some(id)),
            Err(end) => Err(end),
        },
        Pkt::Flush => Ok(None),
    }
}

// One want more, or none at the flush that ends them.
fn take_want<L: Link>(link: &mut L, reader: &mut PktReader) -> Result<Option<ObjectId>, SessionEnd>
    requires ready { IsReady reader.old (L.state link.old) }
    ensures runs { RunsLinkAt (L.state link.old) (L.state link.new) (taking_want reader.old.offset) result reader.new.offset }
    ensures tells { TellsLink (L.state link.old) (L.state link.new) result }
    ensures ready { OnOk result (IsReady reader.new (L.state link.new)) }
{
    let offset = reader.offset();
    match reader.next(link) {
        Ok(packet) => want_in(link, offset, packet),
        Err(fault) => Err(end_by(link, offset, fault)),
    }
}

// Behind the last want that there may be another came.
fn refuse_more_wants<L: Link>(link: &mut L) -> SessionEnd
    ensures runs { EndsLink {A = Unit {0}} (L.state link.old) (L.state link.new) too_many_wants result }
    ensures tells { TellsEnd (L.state link.old) (L.state link.new) result }
{
    refuse(link, b"ERR too long", SessionEnd::TooLong(TOO_MANY_WANTS))
}

/// The wants from the first on, and the flush behind them.
pub fn take_wants<L: Link>(
    alloc: Global,
    link: &mut L,
    reader: &mut PktReader,
    first: ObjectId,
) -> Result<IdList, SessionEnd>
    requires ready { IsReady reader.old (L.state link.old) }
    ensures runs { RunsLinkAt (L.state link.old) (L.state link.new) (taking_wants 9999 (first ∷ []) reader.old.offset) result reader.new.offset }
    ensures tells { TellsLink (L.state link.old) (L.state link.new) result }
    ensures ready { OnOk result (IsReady reader.new (L.state link.new)) }
{
    let mut wants = IdList::new(alloc);
    wants.push(first)?;
    for _ in 1..MOST_WANTS {
        let Some(id) = take_want(link, reader)? else {
            return Ok(wants);
        };
        wants.push(id)?;
    }
    match take_want(link, reader)? {
        None => Ok(wants),
        Some(_) => Err(refuse_more_wants(link)),
    }
}
