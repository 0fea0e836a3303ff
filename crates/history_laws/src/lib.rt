//! Laws of legal logs: what is refused by the rules isn't let by them, what is opened is, and what changes
//! the state.
//!
//! `hub_history` has the laws that a command that is done was let be made. Those here are the other half:
//!
//! - of openings: one that was granted or created was let, and one that was refused wasn't;
//! - of commands: one that is denied, or has too many changed paths, wasn't let by the rules that tell it so,
//!   one that is past the rules was, and what any other refusal tells is so;
//! - of atomic pushes: which command the others are told of;
//! - of names: repositories, creators and who holds a role have names;
//! - of the state: which events change it, and what each of them changes; so a refusal leaves nothing but its
//!   entry.
//!
//! They are in plain words in `docs/HISTORY.md`.
#![tactic(auto)]

mod laws;
mod state_laws;

pub use laws::hold_laws;
pub use state_laws::hold_state_laws;
