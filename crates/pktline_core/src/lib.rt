//! Links to a client, and the packets that travel on them.
//!
//! - `links`: what a link is, as two traits over one ghost record of its state, the causes of its faults, and
//!   the loops over its calls;
//! - `memory_link`: a link over memory, which fails at the calls that are listed;
//! - `packets`: a packet and its faults, by the format pkt-line of Git's protocol;
//! - `reading`: packets read from any source, into one buffer;
//! - `writing`: packets written to any sink;
//! - `laws`: what holds of the format itself.
#![tactic(auto)]

mod laws;
mod links;
mod memory_link;
mod packets;
mod reading;
mod writing;

pub use base_types::NoMemory;
pub use laws::hold_laws;
pub use links::{
    Endpoint, Link, Put, Sink, Source, TakeFault, Taken, WriteFault, take_all, write_all,
};
pub use memory_link::MemoryLink;
pub use packets::{MAX_PAYLOAD, Pkt, PktFault};
pub use reading::PktReader;
pub use writing::{write_flush, write_pkt};
