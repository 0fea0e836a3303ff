// Sessions, as a protocol.
ghost use Rattle.git_session.specs.Protocol.{is_lack, sessions};

use crate::serving::session;
use hub::Desk;
use pktline_core::Link;
use session_core::{Gate, PacketBuffer, Protocol, SessionEnd};
use std::alloc::Global;

/// Serves each link by one session.
#[derive(Clone, Copy, Debug)]
pub struct GitSessions;

impl Protocol for GitSessions {
    type End = SessionEnd;

    ghost meaning = { λ protocol. sessions };

    fn is_out_of_memory(self, end: SessionEnd) -> bool {
        matches!(end, SessionEnd::NoMemory)
    }

    fn serve<L: Link, K: Desk, G: Gate>(
        self,
        alloc: Global,
        link: &mut L,
        desk: &mut K,
        gate: &mut G,
        buffer: &mut PacketBuffer,
    ) -> SessionEnd {
        session(alloc, link, desk, gate, buffer)
    }
}
