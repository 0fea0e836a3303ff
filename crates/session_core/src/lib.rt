//! What every session has: its first packet, its opening, its packets and its ends.
//!
//! - `end`: how a session ends;
//! - `lines`: what a line of a client begins and ends with;
//! - `packets`: packets that are written, refusals, and faults of packets that are read;
//! - `first_packet`, `asking`: what the first packet asks for;
//! - `denials`: the texts of denials;
//! - `opening`: an opening;
//! - `gate`: what stands between an opening and what follows;
//! - `buffer`: what packets are read into;
//! - `protocol`: what a worker serves over a link;
//! - `laws`: what holds of the rules by which a session is told its denials.
//!
//! The rules are in `docs/SESSIONS.md`.
#![tactic(auto)]

mod asking;
mod buffer;
mod denials;
mod end;
mod first_packet;
mod gate;
mod laws;
mod lines;
mod opening;
mod packets;
mod protocol;

pub use asking::ask;
pub use buffer::PacketBuffer;
pub use denials::{fitting, push_denial, shown};
pub use end::SessionEnd;
pub use first_packet::{Asked, FirstLine, Service, first_line};
pub use gate::{Gate, OpenGate};
pub use laws::hold_laws;
pub use lines::without_feed;
pub use opening::enter;
pub use packets::{end_by, malformed, refuse, say, say_flush};
pub use protocol::Protocol;
