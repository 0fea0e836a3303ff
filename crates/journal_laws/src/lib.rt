//! Laws of journals: what is found in a file that a crash may have left of one.
//!
//! - `laws`: two logs whose events have the same bodies are one; so what is made again is a beginning of the
//!   log that was, with every event that was stored for certain; and a journal's own file isn't refused.
//!
//! They are in plain words in `docs/JOURNAL.md`.
#![tactic(auto)]

mod laws;

pub use laws::hold_laws;
