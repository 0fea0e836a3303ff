//! The history of a hub: which events there are, what they change, and which logs are legal.
//!
//! - `entry`: the log;
//! - `outcome`: what the commands of a push are told;
//! - `laws`: laws of the definitions.
//!
//! The definitions are in plain words in `docs/HISTORY.md`.
#![tactic(auto)]

mod entry;
mod laws;
mod outcome;

pub use access_check::{Letter, Verdict, Want};
pub use base_types::NoMemory;
pub use conf_lex::{RepoName, UserName};
pub use entry::{
    EnterKept, Entry, EntryList, Event, LoggedCommands, LoggedPack, PermChange, PermsKept, RepoList,
};
pub use laws::hold_laws;
pub use outcome::{Outcome, OutcomeList};
