// Packets of the format pkt-line.
ghost use Rattle.std.specs.Prelude.{◌≡◌, Some};
ghost use Rattle.pktline_core.specs.Faults.{fault_of_take, packet_text};

use crate::links::TakeFault;
use std::error::Error;
use std::fmt;

/// The most bytes that a packet's payload has: 65,520 less the four of its length.
pub const MAX_PAYLOAD: usize = 65_516;

/// A packet.
#[derive(Clone, Copy, Debug, PartialEq, Eq)]
pub enum Pkt<'a> {
    /// A line with this payload, which may be empty and may end with a line feed.
    Line(&'a [u8]),
    Flush,
}

/// Why no packet was read.
#[derive(Clone, Copy, Debug, PartialEq, Eq)]
pub enum PktFault {
    /// The input ended before the packet's last byte, or before its first.
    Truncated = 1,
    /// The first four bytes aren't four hex digits, or their number is 1, 2, 3 or above 65,520.
    BadLength = 2,
    /// The source failed.
    ReadFault = 3,
}

impl fmt::Display for PktFault {
    ghost output = { λ fault. Some (packet_text fault) };

    fn fmt<W: fmt::Write>(&self, f: &mut fmt::Formatter<W>) -> fmt::Result {
        match self {
            PktFault::Truncated => write!(f, "packet cut off"),
            PktFault::BadLength => write!(f, "bad packet length"),
            PktFault::ReadFault => write!(f, "read failed"),
        }
    }
}

impl Error for PktFault {}

impl From<TakeFault> for PktFault {
    ghost from_gives = { λ fault packet_fault. packet_fault ≡ fault_of_take fault };

    fn from(fault: TakeFault) -> PktFault {
        match fault {
            TakeFault::Ended => PktFault::Truncated,
            TakeFault::Failed => PktFault::ReadFault,
        }
    }
}
