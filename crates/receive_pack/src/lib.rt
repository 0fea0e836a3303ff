//! `git-receive-pack`: what follows an opening for writing.
//!
//! - `changes`: what a line says that has a command, and what the client asks for;
//! - `text`, `reports`: the texts that are written, and the report of a push;
//! - `commands`: the commands of a push, up to the flush that ends them;
//! - `receiving`: the whole of it, and its two parts: the advertisement, and the push;
//! - `laws`: that it makes its entry before it writes.
//!
//! The rules are in `docs/SESSIONS.md`.
#![tactic(auto)]

mod changes;
mod commands;
mod laws;
mod receiving;
mod reports;
mod text;

pub use laws::hold_laws;
pub use receiving::{advertise_receive, receive, receive_commands};
pub use reports::ReportedPush;
pub use text::status_line;
