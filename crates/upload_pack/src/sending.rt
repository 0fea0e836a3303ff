// What a fetch is sent.
ghost use Rattle.std.specs.Prelude.{◌≡◌, ◌<◌, length, All, IfOk};
ghost use Rattle.ancestry.specs.Closures.{AreClosures};
ghost use Rattle.pktline_core.specs.Links.{KeepsReading};
ghost use Rattle.interaction_tree.specs.Interaction.{write};
ghost use Rattle.raw_pack.specs.Writing.{objects_at};
ghost use Rattle.session_core.specs.End.{TellsLink};
ghost use Rattle.session_core.specs.Parts.{RunsLink};
ghost use Rattle.upload_pack.specs.Sending.{pack_bytes, sent};

use ancestry::{Closures, Known, reach};
use base_types::NoMemory;
use git_object::ObjectId;
use pktline_core::Link;
use raw_pack::write_pack;
use ref_store::Repo;
use session_core::SessionEnd;
use std::alloc::Global;

/// Writes the pack of the objects that the wants reach and the haves don't, in store order. It copies no
/// body.
pub fn send_pack<L: Link>(
    alloc: Global,
    link: &mut L,
    repo: &Repo,
    closures: &Closures,
    known: &Known,
    wants: &[ObjectId],
    haves: &[ObjectId],
) -> Result<(), SessionEnd>
    requires { AreClosures repo.now.objects closures.now }
    ensures runs { RunsLink (L.state link.old) (L.state link.new) (write (pack_bytes repo.now.objects wants.now haves.now)) result }
    ensures tells { TellsLink (L.state link.old) (L.state link.new) result }
{
    let places = places_sent(alloc, repo, closures, known, wants, haves)?;
    write_pack(link, repo, &places)?;
    Ok(())
}

// The places of those objects.
fn places_sent(
    alloc: Global,
    repo: &Repo,
    closures: &Closures,
    known: &Known,
    wants: &[ObjectId],
    haves: &[ObjectId],
) -> Result<Vec<u32>, NoMemory>
    requires { AreClosures repo.now.objects closures.now }
    ensures objects { IfOk result (λ places. objects_at repo.now.objects places.items ≡ sent repo.now.objects wants.now haves.now) }
    ensures within { IfOk result (λ places. All (λ place. place < length repo.now.objects) places.items) }
    ensures few { IfOk result (λ places. length places.items < 4294967296) }
{
    reach(alloc, repo, repo.count(), closures, known, wants, haves)
}
