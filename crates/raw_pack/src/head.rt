// The header of a pack, and the heads of its entries.
ghost use Rattle.std.specs.Prelude.{◌≡◌, ◌≤◌, ◌<◌, IfOk};
ghost use Rattle.pktline_core.specs.Links.{IsLater, KeepsWriting};
ghost use Rattle.raw_pack.specs.Packs.{entry_count, entry_head, header, is_too_large, kind_of_bits, more_size, signature, version};
ghost use Rattle.raw_pack.specs.Heads.{IsTaken};
ghost use Rattle.raw_pack.specs.Reading.{Reads, TellsFault};

use crate::fault::PackFault;
use crate::input::{take_byte, take_bytes, take_word};
use git_object::{Kind, MAX_BODY, MAX_PACKED, MAX_PACKED_BYTES};
use pktline_core::Source;
use sha1::Sha1;

/// What the head of an entry says.
#[derive(Clone, Copy, Debug, PartialEq, Eq)]
pub struct Head {
    pub kind: Kind,
    /// How many bytes the body has.
    pub size: u64,
}

/// How many entries a pack has at most.
pub const MAX_ENTRIES: u32 = MAX_PACKED as u32;

/// How many bytes all bodies of a pack have at most.
pub const MAX_SUM: u64 = MAX_PACKED_BYTES as u64;

/// `PACK`, the version 2, and the number of entries, which is the result.
pub fn read_header<S: Source>(source: &mut S, hasher: &mut Sha1) -> Result<u32, PackFault>
    ensures reads { Reads header (S.state source.old) (S.state source.new) hasher.old hasher.new result }
    ensures few { IfOk result (λ count. count ≤ MAX_ENTRIES) }
    ensures tells { TellsFault (S.state source.old) (S.state source.new) result }
    ensures writing { KeepsWriting (S.state source.old) (S.state source.new) }
    ensures later { IsLater (S.state source.old) (S.state source.new) }
{
    read_signature(source, hasher)?;
    read_version(source, hasher)?;
    read_count(source, hasher)
}

fn read_signature<S: Source>(source: &mut S, hasher: &mut Sha1) -> Result<(), PackFault>
    ensures reads { Reads signature (S.state source.old) (S.state source.new) hasher.old hasher.new result }
    ensures tells { TellsFault (S.state source.old) (S.state source.new) result }
    ensures writing { KeepsWriting (S.state source.old) (S.state source.new) }
    ensures later { IsLater (S.state source.old) (S.state source.new) }
{
    let mut four = [0; 4];
    take_bytes(source, hasher, &mut four, 0)?;
    if four.as_slice() == b"PACK".as_slice() {
        return Ok(());
    }
    Err(PackFault::NotAPack)
}

fn read_version<S: Source>(source: &mut S, hasher: &mut Sha1) -> Result<(), PackFault>
    ensures reads { Reads version (S.state source.old) (S.state source.new) hasher.old hasher.new result }
    ensures tells { TellsFault (S.state source.old) (S.state source.new) result }
    ensures writing { KeepsWriting (S.state source.old) (S.state source.new) }
    ensures later { IsLater (S.state source.old) (S.state source.new) }
{
    let number = take_word(source, hasher)?;
    if number == 2 {
        return Ok(());
    }
    Err(PackFault::Version(number))
}

fn read_count<S: Source>(source: &mut S, hasher: &mut Sha1) -> Result<u32, PackFault>
    ensures reads { Reads entry_count (S.state source.old) (S.state source.new) hasher.old hasher.new result }
    ensures few { IfOk result (λ count. count ≤ MAX_ENTRIES) }
    ensures tells { TellsFault (S.state source.old) (S.state source.new) result }
    ensures writing { KeepsWriting (S.state source.old) (S.state source.new) }
    ensures later { IsLater (S.state source.old) (S.state source.new) }
{
    let number = take_word(source, hasher)?;
    if number > MAX_ENTRIES {
        return Err(PackFault::TooMany(number));
    }
    Ok(number)
}

/// The head of an entry, where the bodies before have so many bytes together.
pub fn read_entry_head<S: Source>(
    source: &mut S,
    hasher: &mut Sha1,
    entry: u32,
    sum: u64,
) -> Result<Head, PackFault>
    requires { sum ≤ MAX_SUM }
    ensures reads { Reads (entry_head entry sum) (S.state source.old) (S.state source.new) hasher.old hasher.new result }
    ensures small { IfOk result (IsTaken sum) }
    ensures tells { TellsFault (S.state source.old) (S.state source.new) result }
    ensures writing { KeepsWriting (S.state source.old) (S.state source.new) }
    ensures later { IsLater (S.state source.old) (S.state source.new) }
{
    let first = take_byte(source, hasher, entry)?;
    let bits = first / 16 % 8;
    let Some(kind) = kind_of(bits) else {
        if bits > 5 {
            return Err(PackFault::Delta(entry));
        }
        return Err(PackFault::BadHead(entry));
    };
    let low = u64::from(first % 16);
    if first > 127 {
        return read_more_size(source, hasher, entry, sum, kind, low);
    }
    if too_large(sum, low) {
        return Err(PackFault::TooLarge(entry));
    }
    Ok(Head { kind, size: low })
}

fn kind_of(bits: u8) -> Option<Kind>
    ensures { result ≡ kind_of_bits bits }
{
    match bits {
        1 => Some(Kind::Commit),
        2 => Some(Kind::Tree),
        3 => Some(Kind::Blob),
        4 => Some(Kind::Tag),
        _ => None,
    }
}

fn too_large(sum: u64, size: u64) -> bool
    requires { sum ≤ MAX_SUM }
    ensures { result ≡ is_too_large sum size }
{
    if size > MAX_BODY as u64 {
        return true;
    }
    sum + size > MAX_SUM
}

// The bytes of a head behind its first, whose lowest bits of the size are these.
fn read_more_size<S: Source>(
    source: &mut S,
    hasher: &mut Sha1,
    entry: u32,
    sum: u64,
    kind: Kind,
    low: u64,
) -> Result<Head, PackFault>
    requires sum { sum ≤ MAX_SUM }
    requires low { low < 16 }
    ensures reads { Reads (more_size 4 entry sum kind low 16) (S.state source.old) (S.state source.new) hasher.old hasher.new result }
    ensures small { IfOk result (IsTaken sum) }
    ensures tells { TellsFault (S.state source.old) (S.state source.new) result }
    ensures writing { KeepsWriting (S.state source.old) (S.state source.new) }
    ensures later { IsLater (S.state source.old) (S.state source.new) }
{
    let mut size = low;
    let mut unit = 16;
    let mut left = 4u8;
    while left > 0 {
        let next = take_byte(source, hasher, entry)?;
        if next == 0 {
            return Err(PackFault::BadHead(entry));
        }
        size += unit * u64::from(next % 128);
        if next < 128 {
            if too_large(sum, size) {
                return Err(PackFault::TooLarge(entry));
            }
            return Ok(Head { kind, size });
        }
        unit *= 128;
        left -= 1;
    }
    Err(PackFault::TooLarge(entry))
}
