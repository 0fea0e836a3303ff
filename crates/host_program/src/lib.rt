//! What the server does: workers at the hub of a journal on a disk.
//!
//! - `words`: the words by which the program is called;
//! - `host`: the posts, served at the hub of a journal, and what is printed behind them.
//!
//! A journal is of `hub_journal`, a hub whose events are stored of `stored_hub`, workers of
//! `session_workers`, and what is printed of `shell_program`.
#![tactic(auto)]

mod host;
mod words;

pub use base_types::NoMemory;
pub use host::{HostEnded, host_main};
pub use words::{HostWords, MAX_WORKERS, ProgramWords, VERSION, read_words};

#[cfg(test)]
mod tests;
