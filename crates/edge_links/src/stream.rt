// A stream of bytes in both directions.
ghost use Rattle.std.specs.Prelude.{Bool, IsTrue, false};
ghost use Rattle.std.specs.Io.{ReadsAtMost, WritesAtMost};
ghost use Rattle.edge_links.specs.Streams.{StreamState, Receives, Transmits, Flushes, untold_stream};

use std::io;
use std::io::{Read, Write};
use std::net::{Shutdown, TcpStream};
use std::time::Duration;

/// One handle of a stream of bytes in both directions.
pub trait Stream {
    /// Whether streams of this type tell their bytes and errors.
    ghost is_told: { Bool };

    ghost state: { Self → StreamState };

    /// Puts the next bytes into the front of the room. 0 bytes are the end. It waits for a byte, and fails
    /// where none came for as long as the stream waits.
    fn receive(&mut self, room: &mut [u8]) -> io::Result<usize>
        ensures bound { ReadsAtMost result room.new }
        ensures received { IsTrue is_told → Receives (state self.old) (state self.new) room.new result };

    /// Sends the front of the piece. It waits for room, and fails where there was none for as long as the
    /// stream waits.
    fn transmit(&mut self, piece: &[u8]) -> io::Result<usize>
        ensures bound { WritesAtMost result piece.now }
        ensures transmitted { IsTrue is_told → Transmits (state self.old) (state self.new) piece.now result };

    /// Sends what the stream itself gathered, if it gathers.
    fn flush(&mut self) -> io::Result<()>
        ensures flushed { IsTrue is_told → Flushes (state self.old) (state self.new) result };

    /// Says to the other end that nothing more will come.
    fn end_sending(&self) -> io::Result<()>;

    /// Sets for how long `receive` waits.
    fn limit_receiving(&self, silence: Duration) -> io::Result<()>;
}

impl Stream for TcpStream {
    ghost is_told = { false };

    ghost state = { λ _. untold_stream };

    fn receive(&mut self, room: &mut [u8]) -> io::Result<usize> {
        self.read(room)
    }

    fn transmit(&mut self, piece: &[u8]) -> io::Result<usize> {
        self.write(piece)
    }

    fn flush(&mut self) -> io::Result<()> {
        Write::flush(self)
    }

    fn end_sending(&self) -> io::Result<()> {
        self.shutdown(Shutdown::Write)
    }

    fn limit_receiving(&self, silence: Duration) -> io::Result<()> {
        self.set_read_timeout(Some(silence))
    }
}
