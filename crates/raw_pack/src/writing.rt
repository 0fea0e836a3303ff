// A pack, written to a sink.
ghost use Rattle.std.specs.Prelude.{◌≡◌, ◌<◌, ◌≤◌, ◌++◌, length, codes, flat_map, All, OnOk};
ghost use Rattle.std.specs.Int.{w32, to_be_bytes};
ghost use Rattle.pktline_core.specs.Links.{IsLater, KeepsReading, TellsWriting, Writes};
ghost use Rattle.git_object.specs.Object.{IsPackable};
ghost use Rattle.raw_pack.specs.Grammar.{ArePackable, kind_bits, spelled_entry, spelled_head, spelled_pack};
ghost use Rattle.raw_pack.specs.Writing.{WritesHashed, objects_at};

use git_object::{Kind, MAX_BODY, Object};
use pktline_core::{Sink, WriteFault, write_all};
use ref_store::Repo;
use sha1::Sha1;

/// Writes the pack of a repository's objects at these places, in this order. It takes no memory itself, and
/// copies no body: each goes to the sink as it is. Where a write fails, a proper beginning of the pack was
/// written.
pub fn write_pack<S: Sink>(sink: &mut S, repo: &Repo, places: &[u32]) -> Result<(), WriteFault>
    requires within { All (λ place. place < length repo.now.objects) places.now }
    requires few { length places.now < 4294967296 }
    ensures writes { Writes (S.state sink.old) (S.state sink.new) (spelled_pack (objects_at repo.now.objects places.now)) result }
    ensures packable { OnOk result (ArePackable (objects_at repo.now.objects places.now)) }
    ensures tells { TellsWriting (S.state sink.old) (S.state sink.new) result }
    ensures reading { KeepsReading (S.state sink.old) (S.state sink.new) }
    ensures later { IsLater (S.state sink.old) (S.state sink.new) }
{
    let mut hasher = Sha1::new();
    write_header(sink, &mut hasher, places.len() as u32)?;
    write_entries(sink, &mut hasher, repo, places)?;
    write_all(sink, &hasher.finalize())
}

// `PACK`, the version 2, and the number of entries.
fn write_header<S: Sink>(sink: &mut S, hasher: &mut Sha1, count: u32) -> Result<(), WriteFault>
    ensures writes { WritesHashed (S.state sink.old) (S.state sink.new) hasher.old hasher.new (codes "PACK" ++ to_be_bytes w32 2 ++ to_be_bytes w32 count) result }
    ensures tells { TellsWriting (S.state sink.old) (S.state sink.new) result }
    ensures reading { KeepsReading (S.state sink.old) (S.state sink.new) }
    ensures later { IsLater (S.state sink.old) (S.state sink.new) }
{
    let [a, b, c, d] = count.to_be_bytes();
    let header = [b'P', b'A', b'C', b'K', 0, 0, 0, 2, a, b, c, d];
    write_hashed(sink, hasher, &header)
}

// The entries of the objects at these places.
fn write_entries<S: Sink>(
    sink: &mut S,
    hasher: &mut Sha1,
    repo: &Repo,
    places: &[u32],
) -> Result<(), WriteFault>
    requires within { All (λ place. place < length repo.now.objects) places.now }
    ensures writes { WritesHashed (S.state sink.old) (S.state sink.new) hasher.old hasher.new (flat_map spelled_entry (objects_at repo.now.objects places.now)) result }
    ensures packable { OnOk result (All IsPackable (objects_at repo.now.objects places.now)) }
    ensures tells { TellsWriting (S.state sink.old) (S.state sink.new) result }
    ensures reading { KeepsReading (S.state sink.old) (S.state sink.new) }
    ensures later { IsLater (S.state sink.old) (S.state sink.new) }
{
    for place in places {
        let Some(object) = repo.nth(*place as usize) else {
            unreachable!()
        };
        write_entry(sink, hasher, object)?;
    }
    Ok(())
}

// A head, and the body as it is.
fn write_entry<S: Sink>(sink: &mut S, hasher: &mut Sha1, object: &Object) -> Result<(), WriteFault>
    ensures writes { WritesHashed (S.state sink.old) (S.state sink.new) hasher.old hasher.new (spelled_entry object.now) result }
    ensures packable { IsPackable object.now }
    ensures tells { TellsWriting (S.state sink.old) (S.state sink.new) result }
    ensures reading { KeepsReading (S.state sink.old) (S.state sink.new) }
    ensures later { IsLater (S.state sink.old) (S.state sink.new) }
{
    let body = object.body();
    write_head(sink, hasher, object.kind(), body.len() as u32)?;
    write_hashed(sink, hasher, body)
}

// The head of an entry: four bits of the size in its first byte, and seven more in each byte behind it.
#[tactic(auto, unfolding(crate::specs::Grammar::spelled_head))]
fn write_head<S: Sink>(
    sink: &mut S,
    hasher: &mut Sha1,
    kind: Kind,
    size: u32,
) -> Result<(), WriteFault>
    requires { size ≤ MAX_BODY }
    ensures writes { WritesHashed (S.state sink.old) (S.state sink.new) hasher.old hasher.new (spelled_head kind size) result }
    ensures tells { TellsWriting (S.state sink.old) (S.state sink.new) result }
    ensures reading { KeepsReading (S.state sink.old) (S.state sink.new) }
    ensures later { IsLater (S.state sink.old) (S.state sink.new) }
{
    let first = 16 * bits_of(kind) + (size % 16) as u8;
    if size < 16 {
        return write_hashed(sink, hasher, &[first]);
    }
    let second = (size / 16 % 128) as u8;
    if size < 2048 {
        return write_hashed(sink, hasher, &[128 + first, second]);
    }
    let third = (size / 2048 % 128) as u8;
    if size < 262_144 {
        return write_hashed(sink, hasher, &[128 + first, 128 + second, third]);
    }
    let fourth = (size / 262_144) as u8;
    write_hashed(
        sink,
        hasher,
        &[128 + first, 128 + second, 128 + third, fourth],
    )
}

// The number that names a kind in a head.
fn bits_of(kind: Kind) -> u8
    ensures { result ≡ kind_bits kind }
{
    match kind {
        Kind::Commit => 1,
        Kind::Tree => 2,
        Kind::Blob => 3,
        Kind::Tag => 4,
    }
}

// Writes bytes that the trailer covers.
fn write_hashed<S: Sink>(sink: &mut S, hasher: &mut Sha1, bytes: &[u8]) -> Result<(), WriteFault>
    ensures writes { WritesHashed (S.state sink.old) (S.state sink.new) hasher.old hasher.new bytes.now result }
    ensures tells { TellsWriting (S.state sink.old) (S.state sink.new) result }
    ensures reading { KeepsReading (S.state sink.old) (S.state sink.new) }
    ensures later { IsLater (S.state sink.old) (S.state sink.new) }
{
    hasher.update(bytes);
    write_all(sink, bytes)
}
