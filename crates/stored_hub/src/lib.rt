//! A hub of which each event that changes something is stored on a disk before it is answered, for callers
//! that share it.
//!
//! - `account`: what its file holds, and what waits to come into it;
//! - `stored`: the hub, its disk, and its making;
//! - `calls`: its calls;
//! - `laws`: what holds of such hubs.
//!
//! `docs/JOURNAL.md` has the form of the file, and what a crash leaves of it.
#![tactic(auto)]

mod account;
mod calls;
mod laws;
mod stored;

pub use base_types::NoMemory;
pub use laws::hold_laws;
pub use stored::{StoredHub, StoredParts};

#[cfg(test)]
mod tests;
