// A link to a client, as contracts see it in both directions.
ghost use Rattle.std.specs.Prelude.{◌≡◌, ◌^◌, ◌<◌, ◌≤◌, Some, length, true};
ghost use Rattle.std.specs.Option.{is_some};
ghost use Rattle.pktline_core.specs.Faults.{take_text, write_text};
ghost use Rattle.pktline_core.specs.LinkState.{LinkState};
ghost use Rattle.pktline_core.specs.Links.{Takes, Puts, TellsTake, TellsPut, TakesAll, TellsReading, Writes, TellsWriting, IsLater, KeepsReading, KeepsWriting};

use std::error::Error;
use std::fmt;

/// What one call of `take` did.
#[derive(Clone, Copy, Debug, PartialEq, Eq)]
pub enum Taken {
    /// So many bytes were put into the front of the room.
    Got(usize),
    /// Nothing is left, and nothing will come.
    End,
    Failed,
}

/// What one call of `put` did.
#[derive(Clone, Copy, Debug, PartialEq, Eq)]
pub enum Put {
    /// So many bytes of the front of the piece were written.
    Took(usize),
    Failed,
    NoMemory,
}

/// One end of a connection. Its state is one record for both directions, so that a call that reads can say
/// what it keeps of what was written, and a call that writes what it keeps of what is left.
pub trait Endpoint {
    ghost state: { Self → LinkState };

    /// Where it goes on telling, it tells.
    ghost telling: { (one : Self) → (state one).tells ≡ true → is_some ((state one).left) ≡ true };
}

/// Bytes that come in.
pub trait Source: Endpoint {
    /// Puts the next bytes into the front of the room. The rest of the room may be overwritten.
    fn take(&mut self, room: &mut [u8]) -> Taken
        requires { 0 < length room.old }
        ensures taken { Takes (Self.state self.old) (Self.state self.new) room.new result }
        ensures tells { TellsTake (Self.state self.old) (Self.state self.new) result }
        ensures writing { KeepsWriting (Self.state self.old) (Self.state self.new) }
        ensures later { IsLater (Self.state self.old) (Self.state self.new) };

    /// A source gives fewer bytes than this in all; a loop over it is measured by what it may still give.
    ghost given_below: { (source : Self) → (Self.state source).given < 2 ^ 63 };
}

/// Bytes that go out.
pub trait Sink: Endpoint {
    /// Writes the front of the piece.
    fn put(&mut self, piece: &[u8]) -> Put
        requires { 0 < length piece.now }
        ensures put { Puts (Self.state self.old) (Self.state self.new) piece.now result }
        ensures tells { TellsPut (Self.state self.old) (Self.state self.new) result }
        ensures reading { KeepsReading (Self.state self.old) (Self.state self.new) }
        ensures later { IsLater (Self.state self.old) (Self.state self.new) };
}

/// A connection to a client: bytes both ways.
pub trait Link: Source + Sink {}

/// Why a room wasn't filled. Fewer bytes than it has were taken.
#[derive(Clone, Copy, Debug, PartialEq, Eq)]
pub enum TakeFault {
    /// The source is at its end.
    Ended = 1,
    /// The source failed.
    Failed = 2,
}

impl fmt::Display for TakeFault {
    ghost output = { λ fault. Some (take_text fault) };

    fn fmt<W: fmt::Write>(&self, f: &mut fmt::Formatter<W>) -> fmt::Result {
        match self {
            TakeFault::Ended => write!(f, "the input ended"),
            TakeFault::Failed => write!(f, "read failed"),
        }
    }
}

impl Error for TakeFault {}

/// Fills the room with the next bytes, in as many calls of `take` as the source wants.
pub fn take_all<S: Source>(source: &mut S, room: &mut [u8]) -> Result<(), TakeFault>
    ensures takes { TakesAll (S.state source.old) (S.state source.new) room.new result }
    ensures tells { TellsReading (S.state source.old) (S.state source.new) result }
    ensures writing { KeepsWriting (S.state source.old) (S.state source.new) }
    ensures later { IsLater (S.state source.old) (S.state source.new) }
{
    let mut filled = 0;
    while filled < room.len() {
        match source.take(room.split_at_mut(filled).1) {
            Taken::Got(count) => filled += count,
            Taken::End => return Err(TakeFault::Ended),
            Taken::Failed => return Err(TakeFault::Failed),
        }
    }
    Ok(())
}

/// Why bytes were not written. A proper beginning of them was.
#[derive(Clone, Copy, Debug, PartialEq, Eq)]
pub enum WriteFault {
    /// The sink failed.
    Failed = 1,
    /// A sink over memory wanted memory.
    NoMemory = 2,
}

impl fmt::Display for WriteFault {
    ghost output = { λ fault. Some (write_text fault) };

    fn fmt<W: fmt::Write>(&self, f: &mut fmt::Formatter<W>) -> fmt::Result {
        match self {
            WriteFault::Failed => write!(f, "write failed"),
            WriteFault::NoMemory => write!(f, "out of memory"),
        }
    }
}

impl Error for WriteFault {}

/// Writes these bytes, in as many calls of `put` as the sink wants.
pub fn write_all<S: Sink>(sink: &mut S, bytes: &[u8]) -> Result<(), WriteFault>
    ensures writes { Writes (S.state sink.old) (S.state sink.new) bytes.now result }
    ensures tells { TellsWriting (S.state sink.old) (S.state sink.new) result }
    ensures reading { KeepsReading (S.state sink.old) (S.state sink.new) }
    ensures later { IsLater (S.state sink.old) (S.state sink.new) }
{
    let mut rest = bytes;
    while !rest.is_empty() {
        match sink.put(rest) {
            Put::Took(count) => rest = rest.split_at(count).1,
            Put::Failed => return Err(WriteFault::Failed),
            Put::NoMemory => return Err(WriteFault::NoMemory),
        }
    }
    Ok(())
}
