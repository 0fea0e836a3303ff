// Bytes of a source, hashed as they come.
ghost use Rattle.std.specs.Prelude.{length};
ghost use Rattle.pktline_core.specs.Links.{IsLater, KeepsWriting};
ghost use Rattle.raw_pack.specs.Formats.{bytes};
ghost use Rattle.raw_pack.specs.Packs.{byte, word};
ghost use Rattle.raw_pack.specs.Reading.{Reads, TellsFault, filled};

use crate::fault::PackFault;
use pktline_core::{Source, TakeFault, take_all};
use sha1::Sha1;

/// Fills the room. An input that ends before is cut inside this entry.
pub fn take_bytes<S: Source>(
    source: &mut S,
    hasher: &mut Sha1,
    room: &mut [u8],
    entry: u32,
) -> Result<(), PackFault>
    ensures reads { Reads (bytes (length room.old) (PackFault.Truncated entry)) (S.state source.old) (S.state source.new) hasher.old hasher.new (filled room.new result) }
    ensures tells { TellsFault (S.state source.old) (S.state source.new) result }
    ensures writing { KeepsWriting (S.state source.old) (S.state source.new) }
    ensures later { IsLater (S.state source.old) (S.state source.new) }
{
    match take_all(source, room) {
        Ok(()) => {
            hasher.update(room);
            Ok(())
        }
        Err(TakeFault::Ended) => Err(PackFault::Truncated(entry)),
        Err(TakeFault::Failed) => Err(PackFault::ReadFault),
    }
}

/// One byte.
pub fn take_byte<S: Source>(source: &mut S, hasher: &mut Sha1, entry: u32) -> Result<u8, PackFault>
    ensures reads { Reads (byte entry) (S.state source.old) (S.state source.new) hasher.old hasher.new result }
    ensures tells { TellsFault (S.state source.old) (S.state source.new) result }
    ensures writing { KeepsWriting (S.state source.old) (S.state source.new) }
    ensures later { IsLater (S.state source.old) (S.state source.new) }
{
    let mut room = [0; 1];
    take_bytes(source, hasher, &mut room, entry)?;
    Ok(room[0])
}

/// Four bytes of the header as a number, the highest first.
pub fn take_word<S: Source>(source: &mut S, hasher: &mut Sha1) -> Result<u32, PackFault>
    ensures reads { Reads word (S.state source.old) (S.state source.new) hasher.old hasher.new result }
    ensures tells { TellsFault (S.state source.old) (S.state source.new) result }
    ensures writing { KeepsWriting (S.state source.old) (S.state source.new) }
    ensures later { IsLater (S.state source.old) (S.state source.new) }
{
    let mut room = [0; 4];
    take_bytes(source, hasher, &mut room, 0)?;
    Ok(u32::from_be_bytes(room))
}
