// What a post serves: sessions, or requests.
ghost use Rattle.std.specs.Prelude.{◌≡◌};
ghost use Rattle.shell_program.specs.Protocols.{meaning_of, protocol_of};

use git_session::GitSessions;
use hub::Desk;
use pktline_core::Link;
use session_core::{Gate, PacketBuffer, Protocol, SessionEnd};
use shell_words::Transport;
use smart_http::{HttpEnd, HttpRequests};
use std::alloc::Global;

/// What is served over each link of a post.
#[derive(Clone, Copy, Debug, PartialEq, Eq)]
pub enum ServerProtocol {
    /// One session of Git's own protocol.
    Git,
    /// One request of smart HTTP. Gates aren't called.
    Http,
}

/// How serving a link ended.
#[derive(Clone, Copy, Debug, PartialEq, Eq)]
pub enum ServerEnd {
    Git(SessionEnd),
    Http(HttpEnd),
}

impl ServerProtocol {
    /// The protocol of a transport.
    pub(crate) fn of(transport: Transport) -> ServerProtocol
        ensures { result ≡ protocol_of transport }
    {
        match transport {
            Transport::Git => ServerProtocol::Git,
            Transport::Http => ServerProtocol::Http,
        }
    }
}

impl Protocol for ServerProtocol {
    type End = ServerEnd;

    ghost meaning = { meaning_of };

    fn is_out_of_memory(self, end: ServerEnd) -> bool {
        match end {
            ServerEnd::Git(end) => GitSessions.is_out_of_memory(end),
            ServerEnd::Http(end) => HttpRequests.is_out_of_memory(end),
        }
    }

    fn serve<L: Link, K: Desk, G: Gate>(
        self,
        alloc: Global,
        link: &mut L,
        desk: &mut K,
        gate: &mut G,
        buffer: &mut PacketBuffer,
    ) -> ServerEnd {
        match self {
            ServerProtocol::Git => {
                let end = GitSessions.serve(alloc, link, desk, gate, buffer);
                ServerEnd::Git(end)
            }
            ServerProtocol::Http => {
                let end = HttpRequests.serve(alloc, link, desk, gate, buffer);
                ServerEnd::Http(end)
            }
        }
    }
}
