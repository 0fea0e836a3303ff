//! A session whole: from its first packet to its end.
//!
//! - `perms`: changes and listings of roles;
//! - `info`: what there is to see;
//! - `serving`: a session, by what its first packet asks for;
//! - `protocol`: sessions, as what a worker serves over its links.
//!
//! Pushes are of the crate `receive_pack`, fetches of `upload_pack`, and what they share of `session_core`.
//! The rules are in `docs/SESSIONS.md`.
#![tactic(auto)]

mod info;
mod perms;
mod protocol;
mod serving;

pub use protocol::GitSessions;
pub use serving::session;
