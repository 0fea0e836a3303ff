// A stream, read and written without regard to signals.
ghost use Rattle.std.specs.Prelude.{IsTrue};
ghost use Rattle.std.specs.Io.{ReadsAtMost, WritesAtMost};
ghost use Rattle.std.specs.Io.KnownBytes.{Keeps, ReadConsumes, WriteAppends};
ghost use Rattle.edge_links.specs.Streams.{Receives, Transmits, Flushes, told};

use crate::stream::Stream;
use std::io;
use std::io::{ErrorKind, Read, Write};

// How often in a row a signal may interrupt a read or a write.
const MOST_SIGNALS: u32 = 1024;

// A stream whose reads and writes are made again where a signal came between, and nowhere else. A call that
// has a time limit is interrupted whenever the process is stopped and goes on.
#[derive(Drop)]
pub(crate) struct Connection<S> {
    pub(crate) stream: S,
}

impl<S: Stream> Read for Connection<S> {
    ghost remaining = { λ c. told S.is_told (S.state c.stream).left };

    fn read(&mut self, buf: &mut [u8]) -> io::Result<usize>
        ensures bound { ReadsAtMost result buf.new }
        ensures bytes { ReadConsumes (told S.is_told (S.state self.old.stream).left) (told S.is_told (S.state self.new.stream).left) result buf.new }
        ensures received { IsTrue S.is_told → Receives (S.state self.old.stream) (S.state self.new.stream) buf.new result }
    {
        for _ in 0..MOST_SIGNALS {
            match self.stream.receive(buf) {
                Err(error) if error.kind() == ErrorKind::Interrupted => {}
                answer => return answer,
            }
        }
        self.stream.receive(buf)
    }
}

impl<S: Stream> Write for Connection<S> {
    ghost contents = { λ c. told S.is_told (S.state c.stream).sent };

    fn write(&mut self, buf: &[u8]) -> io::Result<usize>
        ensures bound { WritesAtMost result buf.now }
        ensures bytes { WriteAppends (told S.is_told (S.state self.old.stream).sent) (told S.is_told (S.state self.new.stream).sent) result buf.now }
        ensures transmitted { IsTrue S.is_told → Transmits (S.state self.old.stream) (S.state self.new.stream) buf.now result }
    {
        for _ in 0..MOST_SIGNALS {
            match self.stream.transmit(buf) {
                Err(error) if error.kind() == ErrorKind::Interrupted => {}
                answer => return answer,
            }
        }
        self.stream.transmit(buf)
    }

    fn flush(&mut self) -> io::Result<()>
        ensures bytes { Keeps (told S.is_told (S.state self.old.stream).sent) (told S.is_told (S.state self.new.stream).sent) }
        ensures flushed { IsTrue S.is_told → Flushes (S.state self.old.stream) (S.state self.new.stream) result }
    {
        self.stream.flush()
    }
}
