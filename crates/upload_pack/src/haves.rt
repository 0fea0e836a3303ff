// What a client has, and what is replied to that, up to `done`.
ghost use Rattle.std.specs.Prelude.{◌≡◌, ◌≤◌, [], length, IfOk, OnOk};
ghost use Rattle.pktline_core.specs.Links.{KeepsReading};
ghost use Rattle.pktline_core.specs.Reading.{packet_of};
ghost use Rattle.ref_store.specs.Objects.{has_object};
ghost use Rattle.interaction_tree.specs.Interaction.{write};
ghost use Rattle.session_core.specs.End.{TellsEnd, TellsLink};
ghost use Rattle.session_core.specs.Packets.{packet};
ghost use Rattle.session_core.specs.Parts.{EndsLink, RunsLink, RunsLinkAt};
ghost use Rattle.session_core.specs.Readers.{IsReady};
ghost use Rattle.upload_pack.specs.Haves.{ack, common_after, ending_haves, inquiry_in, inquiry_in_line, no_acknowledgement, reply, taking_haves, taking_inquiry, too_many_haves};

use crate::lines::{have, is_done};
use crate::wants::IdList;
use git_object::ObjectId;
use pktline_core::{Link, Pkt, PktReader};
use ref_store::Repo;
use session_core::{SessionEnd, end_by, malformed, refuse, say, without_feed};
use std::alloc::{AllocError, Global};

/// How many haves and flushes there are at most.
const MOST_INQUIRIES: u32 = 100_000;

// One more.
const TOO_MANY_INQUIRIES: u64 = MOST_INQUIRIES as u64 + 1;

/// What a client asks about what is common.
#[derive(Clone, Copy, Debug, PartialEq, Eq)]
pub enum Inquiry {
    /// The client has this object; does the server?
    Have(ObjectId),
    /// Is anything common so far?
    Flush,
}

// A have, or none at `done`, in the line at this offset.
fn inquiry_in_line<L: Link>(
    link: &mut L,
    offset: u64,
    line: &[u8],
) -> Result<Option<Inquiry>, SessionEnd>
    ensures runs { RunsLink (L.state link.old) (L.state link.new) (inquiry_in_line offset line.now) result }
    ensures tells { TellsLink (L.state link.old) (L.state link.new) result }
    ensures same { OnOk result (L.state link.new ≡ L.state link.old) }
{
    if is_done(line) {
        return Ok(None);
    }
    match have(line) {
        Some(id) => Ok(Some(Inquiry::Have(id))),
        None => Err(malformed(link, offset)),
    }
}

fn inquiry_in<L: Link>(
    link: &mut L,
    offset: u64,
    packet: Pkt<'_>,
) -> Result<Option<Inquiry>, SessionEnd>
    ensures runs { RunsLink (L.state link.old) (L.state link.new) (inquiry_in offset (packet_of packet.entry)) result }
    ensures tells { TellsLink (L.state link.old) (L.state link.new) result }
    ensures same { OnOk result (L.state link.new ≡ L.state link.old) }
{
    match packet {
        Pkt::Line(line) => inquiry_in_line(link, offset, without_feed(line)),
        Pkt::Flush => Ok(Some(Inquiry::Flush)),
    }
}

// A have or a flush, or none at `done`.
fn take_inquiry<L: Link>(
    link: &mut L,
    reader: &mut PktReader,
) -> Result<Option<Inquiry>, SessionEnd>
    requires ready { IsReady reader.old (L.state link.old) }
    ensures runs { RunsLinkAt (L.state link.old) (L.state link.new) (taking_inquiry reader.old.offset) result reader.new.offset }
    ensures tells { TellsLink (L.state link.old) (L.state link.new) result }
    ensures ready { OnOk result (IsReady reader.new (L.state link.new)) }
{
    let offset = reader.offset();
    match reader.next(link) {
        Ok(packet) => inquiry_in(link, offset, packet),
        Err(fault) => Err(end_by(link, offset, fault)),
    }
}

// Says that nothing is common, while it is so.
fn say_none_common<L: Link>(link: &mut L, common: &[ObjectId]) -> Result<(), SessionEnd>
    ensures runs { RunsLink (L.state link.old) (L.state link.new) (write (no_acknowledgement common.now)) result }
    ensures tells { TellsLink (L.state link.old) (L.state link.new) result }
    ensures reading { KeepsReading (L.state link.old) (L.state link.new) }
{
    if common.is_empty() {
        return say(link, b"NAK\n");
    }
    Ok(())
}

// Acknowledges a common object.
fn acknowledge<L: Link>(alloc: Global, link: &mut L, id: ObjectId) -> Result<(), SessionEnd>
    ensures runs { RunsLink (L.state link.old) (L.state link.new) (write (packet (ack id))) result }
    ensures tells { TellsLink (L.state link.old) (L.state link.new) result }
    ensures reading { KeepsReading (L.state link.old) (L.state link.new) }
{
    let line = ack_line(alloc, id)?;
    say(link, &line)
}

fn ack_line(alloc: Global, id: ObjectId) -> Result<Vec<u8>, AllocError>
    ensures text { IfOk result (λ v. v.items ≡ ack id) }
    ensures size { IfOk result (λ v. length v.items ≤ 100) }
{
    let mut text = Vec::from_slice(alloc, b"ACK ")?;
    text.extend_from_slice(&id.hex())?;
    text.extend_from_slice(b"\n")?;
    Ok(text)
}

// Whether the repository has the object.
fn is_there(repo: &Repo, id: ObjectId) -> bool
    ensures { result ≡ has_object repo.now.objects id }
{
    repo.place(id, repo.count()).is_some()
}

// Replies to a have: it is common where its object is there, and the first that is common is acknowledged.
fn answer_have<L: Link>(
    alloc: Global,
    link: &mut L,
    repo: &Repo,
    common: &mut IdList,
    id: ObjectId,
) -> Result<(), SessionEnd>
    ensures runs { RunsLink (L.state link.old) (L.state link.new) (write (reply repo.now.objects common.old (Inquiry.Have id))) result }
    ensures common { OnOk result (common.new ≡ common_after repo.now.objects common.old (Inquiry.Have id)) }
    ensures tells { TellsLink (L.state link.old) (L.state link.new) result }
    ensures reading { KeepsReading (L.state link.old) (L.state link.new) }
{
    if !is_there(repo, id) {
        return Ok(());
    }
    let is_first = common.is_empty();
    common.push(id)?;
    if is_first {
        return acknowledge(alloc, link, id);
    }
    Ok(())
}

fn answer<L: Link>(
    alloc: Global,
    link: &mut L,
    repo: &Repo,
    common: &mut IdList,
    inquiry: Inquiry,
) -> Result<(), SessionEnd>
    ensures runs { RunsLink (L.state link.old) (L.state link.new) (write (reply repo.now.objects common.old inquiry)) result }
    ensures common { OnOk result (common.new ≡ common_after repo.now.objects common.old inquiry) }
    ensures tells { TellsLink (L.state link.old) (L.state link.new) result }
    ensures reading { KeepsReading (L.state link.old) (L.state link.new) }
{
    match inquiry {
        Inquiry::Have(id) => answer_have(alloc, link, repo, common, id),
        Inquiry::Flush => say_none_common(link, common.as_slice()),
    }
}

// What is common, behind `done`.
fn end_haves<L: Link>(link: &mut L, common: IdList) -> Result<IdList, SessionEnd>
    ensures runs { RunsLink (L.state link.old) (L.state link.new) (ending_haves common) result }
    ensures tells { TellsLink (L.state link.old) (L.state link.new) result }
{
    say_none_common(link, common.as_slice())?;
    Ok(common)
}

// Behind the last have or flush that there may be another came.
fn refuse_more_haves<L: Link>(link: &mut L) -> SessionEnd
    ensures runs { EndsLink {A = Unit {0}} (L.state link.old) (L.state link.new) too_many_haves result }
    ensures tells { TellsEnd (L.state link.old) (L.state link.new) result }
{
    refuse(
        link,
        b"ERR too long",
        SessionEnd::TooLong(TOO_MANY_INQUIRIES),
    )
}

/// Replies to what the client has, up to `done`, and gives what is common.
pub fn take_haves<L: Link>(
    alloc: Global,
    link: &mut L,
    reader: &mut PktReader,
    repo: &Repo,
) -> Result<IdList, SessionEnd>
    requires ready { IsReady reader.old (L.state link.old) }
    ensures runs { RunsLink (L.state link.old) (L.state link.new) (taking_haves repo.now.objects 100000 [] reader.old.offset) result }
    ensures tells { TellsLink (L.state link.old) (L.state link.new) result }
{
    let mut common = IdList::new(alloc);
    for _ in 0..MOST_INQUIRIES {
        let Some(inquiry) = take_inquiry(link, reader)? else {
            return end_haves(link, common);
        };
        answer(alloc, link, repo, &mut common, inquiry)?;
    }
    match take_inquiry(link, reader)? {
        None => end_haves(link, common),
        Some(_) => Err(refuse_more_haves(link)),
    }
}
