// Packets, written to a sink.
ghost use Rattle.std.specs.Prelude.{◌≡◌, ◌≤◌, ◌<◌, ◌+◌, ◌++◌, length};
ghost use Rattle.pktline_core.specs.Links.{Writes, TellsWriting, IsLater, KeepsReading};
ghost use Rattle.pktline_core.specs.Packets.{hex_digit, four_digits, spelling, Line, Flush};

use crate::links::{Sink, WriteFault, write_all};
use crate::packets::MAX_PAYLOAD;
use arrayvec::ArrayVec;

// Lines of up to so many bytes go out in one call of `put`, since over a socket a second one may wait until
// the first is acknowledged.
const SHORT_LINE: usize = 1024;

/// Writes a line with this payload. It takes no memory itself. A line of at most 1,024 bytes is put together
/// on the stack, and of a longer one the payload goes out as it lies.
pub fn write_pkt<S: Sink>(sink: &mut S, payload: &[u8]) -> Result<(), WriteFault>
    requires { length payload.now ≤ MAX_PAYLOAD }
    ensures writes { Writes (S.state sink.old) (S.state sink.new) (spelling (Line payload.now)) result }
    ensures tells { TellsWriting (S.state sink.old) (S.state sink.new) result }
    ensures reading { KeepsReading (S.state sink.old) (S.state sink.new) }
    ensures later { IsLater (S.state sink.old) (S.state sink.new) }
{
    let digits = length_digits(payload.len() as u16 + 4);
    if payload.len() <= SHORT_LINE - 4 {
        return write_together(sink, &digits, payload);
    }
    write_all(sink, &digits)?;
    write_all(sink, payload)
}

// Writes some bytes and others behind them, together at most a short line.
fn write_together<S: Sink>(sink: &mut S, front: &[u8], rest: &[u8]) -> Result<(), WriteFault>
    requires { length front.now + length rest.now ≤ SHORT_LINE }
    ensures writes { Writes (S.state sink.old) (S.state sink.new) (front.now ++ rest.now) result }
    ensures tells { TellsWriting (S.state sink.old) (S.state sink.new) result }
    ensures reading { KeepsReading (S.state sink.old) (S.state sink.new) }
    ensures later { IsLater (S.state sink.old) (S.state sink.new) }
{
    let mut line = ArrayVec::<u8, SHORT_LINE>::new();
    let Ok(()) = line.try_extend_from_slice(front) else {
        unreachable!()
    };
    let Ok(()) = line.try_extend_from_slice(rest) else {
        unreachable!()
    };
    write_all(sink, line.as_slice())
}

/// Writes a flush, `0000`.
pub fn write_flush<S: Sink>(sink: &mut S) -> Result<(), WriteFault>
    ensures writes { Writes (S.state sink.old) (S.state sink.new) (spelling Flush) result }
    ensures tells { TellsWriting (S.state sink.old) (S.state sink.new) result }
    ensures reading { KeepsReading (S.state sink.old) (S.state sink.new) }
    ensures later { IsLater (S.state sink.old) (S.state sink.new) }
{
    write_all(sink, b"0000")
}

fn length_digits(length: u16) -> [u8; 4]
    ensures { result ≡ four_digits length }
{
    [
        digit(length / 4096 % 16),
        digit(length / 256 % 16),
        digit(length / 16 % 16),
        digit(length % 16),
    ]
}

fn digit(value: u16) -> u8
    requires { value < 16 }
    ensures { result ≡ hex_digit value }
{
    if value < 10 {
        b'0' + value as u8
    } else {
        b'a' - 10 + value as u8
    }
}
