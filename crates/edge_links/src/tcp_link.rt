// A TCP connection as a link.
ghost use Rattle.std.specs.Prelude.{◌≡◌, ◌<◌, IfOk, IsTrue, None, [], length, not};
ghost use Rattle.pktline_core.specs.Links.{Takes, Puts, IsLater, KeepsReading, KeepsWriting};
ghost use Rattle.edge_links.specs.Standard.{faults_after_take, faults_after_put};
ghost use Rattle.edge_links.specs.Sockets.{SendsFirst, gathered, is_broken, is_failed_put, socket_state};

use crate::stream_link::{Closing, StreamLink};
use pktline_core::{Endpoint, Link, Put, Sink, Source, Taken};
use std::alloc::Global;
use std::io;
use std::net::TcpStream;
use std::time::Duration;

// For how many seconds a client may send nothing that is waited for, or take nothing that is sent. Then the
// read or the write has failed.
const SESSION_SILENCE: u64 = 60;

/// A TCP connection as a link, which is a `StreamLink`. It tells nothing of the bytes.
///
/// Where a client sends nothing, or takes nothing, for a minute, the read or the write has failed.
#[derive(Drop)]
pub struct TcpLink {
    stream: StreamLink<TcpStream>,
}

impl TcpLink {
    /// A link over a connection. An error is the system's, which gave no second handle of it or refused an
    /// option, or says that there is no memory for the two buffers. The connection is then closed.
    pub fn new(alloc: Global, stream: TcpStream) -> io::Result<TcpLink>
        ensures { IfOk result (λ link. ⟦<TcpLink as Endpoint>⟧.state link ≡ socket_state None 0 0 None 0) }
    {
        stream.set_nodelay(true)?;
        let silence = Some(Duration::from_secs(SESSION_SILENCE));
        stream.set_read_timeout(silence)?;
        stream.set_write_timeout(silence)?;
        let reading = stream.try_clone()?;
        let stream = StreamLink::over(alloc, reading, stream)?;
        Ok(TcpLink { stream })
    }

    /// Ends the connection, as `StreamLink::close` does.
    pub fn close(self) -> Closing<TcpStream>
        ensures same { ⟦<StreamLink<TcpStream> as Endpoint>⟧.state result.link.value ≡ ⟦<TcpLink as Endpoint>⟧.state self }
        ensures sent { IsTrue result.sent → gathered result.link.value ≡ [] }
        ensures broken { result.sent ≡ not (is_broken result.link.value) }
    {
        self.stream.close()
    }
}

impl Endpoint for TcpLink {
    ghost state = { λ l. ⟦<StreamLink<TcpStream> as Endpoint>⟧.state l.stream };

    ghost telling = { λ l tells. ⟦<StreamLink<TcpStream> as Endpoint>⟧.telling l.stream tells };
}

impl Source for TcpLink {
    fn take(&mut self, room: &mut [u8]) -> Taken
        requires { 0 < length room.old }
        ensures taken { Takes (⟦<TcpLink as Endpoint>⟧.state self.old) (⟦<TcpLink as Endpoint>⟧.state self.new) room.new result }
        ensures writing { KeepsWriting (⟦<TcpLink as Endpoint>⟧.state self.old) (⟦<TcpLink as Endpoint>⟧.state self.new) }
        ensures later { IsLater (⟦<TcpLink as Endpoint>⟧.state self.old) (⟦<TcpLink as Endpoint>⟧.state self.new) }
        ensures faults { (⟦<TcpLink as Endpoint>⟧.state self.new).read_faults ≡ faults_after_take (⟦<TcpLink as Endpoint>⟧.state self.old).read_faults result }
        ensures sent { SendsFirst self.new.stream result }
        ensures stays { IsTrue (is_broken self.old.stream) → IsTrue (is_broken self.new.stream) }
    {
        self.stream.take(room)
    }

    ghost given_below = { λ l. l.stream.source.given_below };
}

impl Sink for TcpLink {
    fn put(&mut self, piece: &[u8]) -> Put
        requires { 0 < length piece.now }
        ensures put { Puts (⟦<TcpLink as Endpoint>⟧.state self.old) (⟦<TcpLink as Endpoint>⟧.state self.new) piece.now result }
        ensures reading { KeepsReading (⟦<TcpLink as Endpoint>⟧.state self.old) (⟦<TcpLink as Endpoint>⟧.state self.new) }
        ensures later { IsLater (⟦<TcpLink as Endpoint>⟧.state self.old) (⟦<TcpLink as Endpoint>⟧.state self.new) }
        ensures faults { (⟦<TcpLink as Endpoint>⟧.state self.new).write_faults ≡ faults_after_put (⟦<TcpLink as Endpoint>⟧.state self.old).write_faults result }
        ensures broken { is_broken self.new.stream ≡ is_failed_put result }
        ensures stays { IsTrue (is_broken self.old.stream) → IsTrue (is_broken self.new.stream) }
    {
        self.stream.put(piece)
    }
}

impl Link for TcpLink {}
