// Requests, as a protocol.
ghost use Rattle.smart_http.specs.Protocol.{is_lack, requests};

use crate::end::HttpEnd;
use crate::serving::serve_http;
use hub::Desk;
use pktline_core::Link;
use session_core::{Gate, PacketBuffer, Protocol, SessionEnd};
use std::alloc::Global;

/// Serves each link by one request. The gates aren't called.
#[derive(Clone, Copy, Debug)]
pub struct HttpRequests;

impl Protocol for HttpRequests {
    type End = HttpEnd;

    ghost meaning = { λ protocol. requests };

    fn is_out_of_memory(self, end: HttpEnd) -> bool {
        matches!(
            end,
            HttpEnd::NoMemory
                | HttpEnd::Received(SessionEnd::NoMemory)
                | HttpEnd::Uploaded(SessionEnd::NoMemory)
        )
    }

    fn serve<L: Link, K: Desk, G: Gate>(
        self,
        alloc: Global,
        link: &mut L,
        desk: &mut K,
        _gate: &mut G,
        buffer: &mut PacketBuffer,
    ) -> HttpEnd {
        serve_http(alloc, link, desk, buffer)
    }
}
