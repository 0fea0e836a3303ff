// What follows an opening for reading.
ghost use Rattle.std.specs.Prelude.{◌≡◌, ◌≤◌, [], length, IfOk};
ghost use Rattle.ancestry.specs.Closures.{AreClosures};
ghost use Rattle.pktline_core.specs.Links.{KeepsReading};
ghost use Rattle.hub_history.specs.State.{store_of};
ghost use Rattle.interaction_tree.specs.Endings.{TakesTurn};
ghost use Rattle.interaction_tree.specs.Interaction.{write};
ghost use Rattle.session_core.specs.End.{TellsLink, halt_of};
ghost use Rattle.session_core.specs.Opening.{StandsSomewhere};
ghost use Rattle.session_core.specs.Parts.{RunsLink, end_of, ending_so};
ghost use Rattle.session_core.specs.Readers.{IsReady};
ghost use Rattle.upload_pack.specs.Advertising.{advertisement};
ghost use Rattle.upload_pack.specs.Wants.{not_our_ref};
ghost use Rattle.upload_pack.specs.Uploading.{fetched_end, fetching, refusing_want, serving, uploading, wanting};

use crate::advertising::{advertise, not_ours};
use crate::haves::take_haves;
use crate::sending::send_pack;
use crate::wants::{IdList, first_want_in, take_wants};
use ancestry::{Closures, Known};
use git_object::ObjectId;
use hub::Pin;
use hub_history::hold_laws;
use pktline_core::{Link, Pkt, PktReader};
use ref_store::Repo;
use session_core::{SessionEnd, end_by, say, without_feed};
use std::alloc::{AllocError, Global};

/// How a fetch that met no fault ends.
#[derive(Clone, Copy, Debug, PartialEq, Eq)]
pub enum FetchEnd {
    /// A flush stood in place of wants, or the pack was written.
    Served,
    /// This is the first want that wasn't advertised.
    NotOurRef(ObjectId),
}

/// What follows an opening for reading: the advertisement, and a fetch or none.
pub fn upload<L: Link>(
    alloc: Global,
    link: &mut L,
    reader: &mut PktReader,
    pin: &Pin,
) -> Result<FetchEnd, SessionEnd>
    requires ready { IsReady reader.old (L.state link.old) }
    requires stands { StandsSomewhere pin.now }
    ensures runs { RunsLink (L.state link.old) (L.state link.new) (uploading pin.now reader.old.offset) result }
    ensures turn { TakesTurn (L.state link.old) (L.state link.new) [] (ending_so fetched_end (uploading pin.now reader.old.offset)) (halt_of (end_of fetched_end result)) }
    ensures tells { TellsLink (L.state link.old) (L.state link.new) result }
{
    upload_both(alloc, link, reader, pin)
}

// The two parts.
fn upload_both<L: Link>(
    alloc: Global,
    link: &mut L,
    reader: &mut PktReader,
    pin: &Pin,
) -> Result<FetchEnd, SessionEnd>
    requires ready { IsReady reader.old (L.state link.old) }
    requires stands { StandsSomewhere pin.now }
    ensures runs { RunsLink (L.state link.old) (L.state link.new) (uploading pin.now reader.old.offset) result }
    ensures tells { TellsLink (L.state link.old) (L.state link.new) result }
{
    advertise_upload(alloc, link, pin)?;
    upload_wants(alloc, link, reader, pin)
}

/// The first part: what may be wanted of the repository as it was at the opening.
pub fn advertise_upload<L: Link>(alloc: Global, link: &mut L, pin: &Pin) -> Result<(), SessionEnd>
    requires stands { StandsSomewhere pin.now }
    ensures runs { RunsLink (L.state link.old) (L.state link.new) (write (advertisement (store_of pin.now.pinned.repository))) result }
    ensures tells { TellsLink (L.state link.old) (L.state link.new) result }
    ensures reading { KeepsReading (L.state link.old) (L.state link.new) }
{
    // called for its clause that the names of refs stay short
    hold_laws();
    advertise(alloc, link, pin.repo())
}

/// The second part: what is wanted, what the client has, and the pack.
pub fn upload_wants<L: Link>(
    alloc: Global,
    link: &mut L,
    reader: &mut PktReader,
    pin: &Pin,
) -> Result<FetchEnd, SessionEnd>
    requires ready { IsReady reader.old (L.state link.old) }
    ensures runs { RunsLink (L.state link.old) (L.state link.new) (wanting (store_of pin.now.pinned.repository) reader.old.offset) result }
    ensures tells { TellsLink (L.state link.old) (L.state link.new) result }
{
    fetch_from(alloc, link, reader, pin.repo(), pin.closures(), pin.known())
}

fn fetch_from<L: Link>(
    alloc: Global,
    link: &mut L,
    reader: &mut PktReader,
    repo: &Repo,
    closures: &Closures,
    known: &Known,
) -> Result<FetchEnd, SessionEnd>
    requires closures { AreClosures repo.now.objects closures.now }
    requires ready { IsReady reader.old (L.state link.old) }
    ensures runs { RunsLink (L.state link.old) (L.state link.new) (wanting repo.now reader.old.offset) result }
    ensures tells { TellsLink (L.state link.old) (L.state link.new) result }
{
    let offset = reader.offset();
    match reader.next(link) {
        Ok(Pkt::Flush) => Ok(FetchEnd::Served),
        Ok(Pkt::Line(line)) => {
            let first = first_want_in(link, offset, without_feed(line))?;
            fetch(alloc, link, reader, repo, closures, known, first)
        }
        Err(fault) => Err(end_by(link, offset, fault)),
    }
}

// The wants from the first on, and what follows them.
fn fetch<L: Link>(
    alloc: Global,
    link: &mut L,
    reader: &mut PktReader,
    repo: &Repo,
    closures: &Closures,
    known: &Known,
    first: ObjectId,
) -> Result<FetchEnd, SessionEnd>
    requires closures { AreClosures repo.now.objects closures.now }
    requires ready { IsReady reader.old (L.state link.old) }
    ensures runs { RunsLink (L.state link.old) (L.state link.new) (fetching repo.now first reader.old.offset) result }
    ensures tells { TellsLink (L.state link.old) (L.state link.new) result }
{
    let wants = take_wants(alloc, link, reader, first)?;
    match not_ours(alloc, repo, wants.as_slice())? {
        None => serve(alloc, link, reader, repo, closures, known, &wants),
        Some(id) => refuse_want(alloc, link, id),
    }
}

// A last packet: this id isn't one of the advertisement.
fn refuse_want<L: Link>(alloc: Global, link: &mut L, id: ObjectId) -> Result<FetchEnd, SessionEnd>
    ensures runs { RunsLink (L.state link.old) (L.state link.new) (refusing_want id) result }
    ensures tells { TellsLink (L.state link.old) (L.state link.new) result }
{
    let text = not_our_ref(alloc, id)?;
    say(link, &text)?;
    Ok(FetchEnd::NotOurRef(id))
}

fn not_our_ref(alloc: Global, id: ObjectId) -> Result<Vec<u8>, AllocError>
    ensures text { IfOk result (λ v. v.items ≡ not_our_ref id) }
    ensures size { IfOk result (λ v. length v.items ≤ 100) }
{
    let mut text = Vec::from_slice(alloc, b"ERR upload-pack: not our ref ")?;
    text.extend_from_slice(&id.hex())?;
    Ok(text)
}

// What the client has, and the pack.
fn serve<L: Link>(
    alloc: Global,
    link: &mut L,
    reader: &mut PktReader,
    repo: &Repo,
    closures: &Closures,
    known: &Known,
    wants: &IdList,
) -> Result<FetchEnd, SessionEnd>
    requires closures { AreClosures repo.now.objects closures.now }
    requires ready { IsReady reader.old (L.state link.old) }
    ensures runs { RunsLink (L.state link.old) (L.state link.new) (serving repo.now wants.now reader.old.offset) result }
    ensures tells { TellsLink (L.state link.old) (L.state link.new) result }
{
    let common = take_haves(alloc, link, reader, repo)?;
    send_pack(
        alloc,
        link,
        repo,
        closures,
        known,
        wants.as_slice(),
        common.as_slice(),
    )?;
    Ok(FetchEnd::Served)
}
