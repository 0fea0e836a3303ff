// A stream as a link.
ghost use Rattle.std.specs.Prelude.{◌≡◌, ◌<◌, ◌||◌, [], IfOk, IsTrue, length, not};
ghost use Rattle.std.specs.Option.{is_some};
ghost use Rattle.std.proofs.Common.{ap};
ghost use Rattle.pktline_core.specs.Links.{Takes, Puts, IsLater, KeepsReading, KeepsWriting};
ghost use Rattle.edge_links.specs.Standard.{faults_after_take, faults_after_put};
ghost use Rattle.edge_links.specs.Sockets.{SendsFirst, gathered, is_broken, is_failed_put, socket_state};
ghost use Rattle.edge_links.specs.Streams.{told};
ghost use Rattle.std.specs.Io.Buffered.{writer_contents};

use crate::connection::Connection;
use crate::standard::{StdSink, StdSource};
use crate::stream::Stream;
use pktline_core::{Endpoint, Link, Put, Sink, Source, Taken};
use std::alloc::Global;
use std::io;
use std::io::{BufRead, BufReader, BufWriter, Read, Write};
use std::snapshot::Snapshot;
use std::time::Duration;

// How many bytes are read ahead, and how many are gathered before they are sent: room for a packet of the
// greatest length, so that its length and its payload go out together.
const BUFFER: usize = 65_536;

// For how many seconds a client may send nothing once its session is over.
const CLOSING_SILENCE: u64 = 2;

// How often is read on once a session is over. A read takes at most `BUFFER` bytes, so 16 MiB are read on at
// most.
const MOST_READS_ON: u32 = 256;

/// A stream as a link. It tells of the bytes what its stream tells.
///
/// What is put is gathered, and goes out together: before the connection is read again, once 64 KiB are full,
/// and at `close`. So `Took` says that the link has the bytes, as the system's own buffer would have them.
/// Where they can't be sent, the call that had to send them has failed, be it a `put` or a `take`, and so
/// does each call from then on. A `take` tells this by its own count, since it leaves the count of failed
/// writes as it is.
#[derive(Drop)]
pub struct StreamLink<S: Stream + Drop> {
    source: StdSource<BufReader<Connection<S>>>,
    sink: StdSink<BufWriter<Connection<S>>>,
    broken: bool,
}

/// How a link was closed.
#[derive(Drop)]
pub struct Closing<S: Stream + Drop> {
    /// Whether all that was put was sent.
    pub sent: bool,
    /// The link behind the last try to send it, for contracts alone.
    pub link: Snapshot<StreamLink<S>>,
}

impl<S: Stream + Drop> StreamLink<S> {
    /// A link over two handles of a stream, of which one is read and one written. An error says that there is
    /// no memory for the two buffers.
    pub fn over(alloc: Global, reading: S, writing: S) -> io::Result<StreamLink<S>>
        ensures state { IfOk result (λ link. ⟦<StreamLink<S> as Endpoint>⟧.state link ≡ socket_state (told S.is_told (S.state reading).left) 0 0 (told S.is_told (S.state writing).sent) 0) }
        ensures gathered { IfOk result (λ link. gathered link ≡ []) }
    {
        let input = BufReader::with_capacity(alloc, BUFFER, Connection { stream: reading })?;
        let output = BufWriter::with_capacity(alloc, BUFFER, Connection { stream: writing })?;
        Ok(StreamLink {
            source: StdSource::new(input),
            sink: StdSink { output, faults: 0 },
            broken: false,
        })
    }

    // Sends what is gathered, and says whether it is sent.
    fn send(&mut self) -> bool
        ensures reading { self.new.source ≡ self.old.source }
        ensures faults { self.new.sink.faults ≡ self.old.sink.faults }
        ensures written { writer_contents ⟦<Connection<S> as Write>⟧.contents self.new.sink.output ≡ writer_contents ⟦<Connection<S> as Write>⟧.contents self.old.sink.output }
        ensures sent { IsTrue result → gathered self.new ≡ [] }
        ensures broken { result ≡ not self.new.broken }
        ensures stays { IsTrue self.old.broken → IsTrue self.new.broken }
    {
        if self.broken {
            return false;
        }
        self.broken = self.sink.output.flush().is_err();
        !self.broken
    }

    // Says that nothing more will come, and reads on for a while what the client still sends. Where a read
    // has failed nothing is read on.
    fn read_on(&mut self) {
        let stream = &self.sink.output.get_ref().stream;
        let silence = Duration::from_secs(CLOSING_SILENCE);
        if stream.end_sending().is_err()
            || self.source.faults > 0
            || stream.limit_receiving(silence).is_err()
        {
            return;
        }
        for _ in 0..MOST_READS_ON {
            let count = match self.source.input.fill_buf() {
                Ok(bytes) => bytes.len(),
                Err(_) => return,
            };
            if count == 0 {
                return;
            }
            self.source.input.consume(count);
        }
    }

    /// Ends the connection: sends what is gathered, says that nothing more will come, and reads on for a
    /// while what the client still sends. If unread bytes were left, the system would reset the connection,
    /// and the client might never see the last reply. It returns once the client has closed its side, was
    /// silent for two seconds, or has sent as much as is read on. Where a read has failed nothing is read on,
    /// and where bytes couldn't be sent, now or before, the connection is closed at once.
    pub fn close(mut self) -> Closing<S>
        ensures same { ⟦<StreamLink<S> as Endpoint>⟧.state result.link.value ≡ ⟦<StreamLink<S> as Endpoint>⟧.state self }
        ensures sent { IsTrue result.sent → gathered result.link.value ≡ [] }
        ensures broken { result.sent ≡ not (is_broken result.link.value) }
    {
        let sent = self.send();
        let link = Snapshot::of(&self);
        if sent {
            self.read_on();
        }
        // without a further try to send them, which would wait again
        let _ = self.sink.output.into_parts();
        Closing { sent, link }
    }
}

impl<S: Stream + Drop> Endpoint for StreamLink<S> {
    ghost state = { λ l. socket_state (⟦<BufReader<Connection<S>> as Read>⟧.remaining l.source.input) l.source.given l.source.faults (⟦<BufWriter<Connection<S>> as Write>⟧.contents l.sink.output) l.sink.faults };

    ghost telling = { λ l tells. ap (λ b. b || is_some (⟦<BufReader<Connection<S>> as Read>⟧.remaining l.source.input)) tells };
}

impl<S: Stream + Drop> Source for StreamLink<S> {
    fn take(&mut self, room: &mut [u8]) -> Taken
        requires { 0 < length room.old }
        ensures taken { Takes (⟦<StreamLink<S> as Endpoint>⟧.state self.old) (⟦<StreamLink<S> as Endpoint>⟧.state self.new) room.new result }
        ensures writing { KeepsWriting (⟦<StreamLink<S> as Endpoint>⟧.state self.old) (⟦<StreamLink<S> as Endpoint>⟧.state self.new) }
        ensures later { IsLater (⟦<StreamLink<S> as Endpoint>⟧.state self.old) (⟦<StreamLink<S> as Endpoint>⟧.state self.new) }
        ensures faults { (⟦<StreamLink<S> as Endpoint>⟧.state self.new).read_faults ≡ faults_after_take (⟦<StreamLink<S> as Endpoint>⟧.state self.old).read_faults result }
        ensures sent { SendsFirst self.new result }
        ensures stays { IsTrue (is_broken self.old) → IsTrue (is_broken self.new) }
    {
        if !self.send() {
            return self.source.fail();
        }
        self.source.take(room)
    }

    ghost given_below = { λ l. l.source.given_below };
}

impl<S: Stream + Drop> Sink for StreamLink<S> {
    fn put(&mut self, piece: &[u8]) -> Put
        requires { 0 < length piece.now }
        ensures put { Puts (⟦<StreamLink<S> as Endpoint>⟧.state self.old) (⟦<StreamLink<S> as Endpoint>⟧.state self.new) piece.now result }
        ensures reading { KeepsReading (⟦<StreamLink<S> as Endpoint>⟧.state self.old) (⟦<StreamLink<S> as Endpoint>⟧.state self.new) }
        ensures later { IsLater (⟦<StreamLink<S> as Endpoint>⟧.state self.old) (⟦<StreamLink<S> as Endpoint>⟧.state self.new) }
        ensures faults { (⟦<StreamLink<S> as Endpoint>⟧.state self.new).write_faults ≡ faults_after_put (⟦<StreamLink<S> as Endpoint>⟧.state self.old).write_faults result }
        ensures broken { is_broken self.new ≡ is_failed_put result }
        ensures stays { IsTrue (is_broken self.old) → IsTrue (is_broken self.new) }
    {
        if self.broken {
            return self.sink.fail();
        }
        let answer = self.sink.put(piece);
        self.broken = answer == Put::Failed;
        answer
    }
}

impl<S: Stream + Drop> Link for StreamLink<S> {}
