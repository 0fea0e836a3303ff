//! A hub whose events are kept in a file, from which it is made again.
//!
//! - `replay`: a hub made again of what was asked of it, one event after the other;
//! - `pins`: copies of pins, for pushes after one opening;
//! - `last_pushes`: after which openings a file has pushes;
//! - `open_fault`, `recovery`: the hub of a journal's file, from any file;
//! - `storing`, `journal`: a hub as a desk that stores each event before it returns.
//!
//! `docs/JOURNAL.md` has the form of the file, and what a crash leaves of it.
#![tactic(auto)]

mod journal;
mod last_pushes;
mod laws;
mod open_fault;
mod pins;
mod recovery;
mod replay;
mod storing;

pub use base_types::NoMemory;
pub use journal::JournalHub;
pub use laws::hold_laws;
pub use open_fault::OpenFault;
pub use pins::copy_pin;
pub use recovery::{Recovered, recover};
pub use replay::{Replay, ReplayFault};

#[cfg(test)]
mod tests;
