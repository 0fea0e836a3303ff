//! The lines of a conf in order, and the members of its groups.
//!
//! - `limits`, `conf_file`: what a conf may have, and its files;
//! - `placed`, `fault`: statements at their places, and why a conf is refused;
//! - `matching`, `files`: which files a pattern names;
//! - `lines`, `stack`, `splicing`: what is still to come, and `expand`;
//! - `distinct`, `groups`: lists without repeats, and members by group, scope and place.
//!
//! `laws` has what holds of the definitions. The rules are in plain words in `docs/CONF.md`.
#![tactic(auto)]

mod conf_file;
mod distinct;
mod fault;
mod files;
mod groups;
mod laws;
mod limits;
mod lines;
mod matching;
mod placed;
mod splicing;
mod stack;

pub use base_types::{NoMemory, Text};
pub use conf_file::{ConfFile, FileList, FileName, MAX_FILE_NAME};
pub use conf_lex::{LexFault, Statement, TextList};
pub use fault::{ConfFault, ConfKind};
pub use groups::{GroupLine, Groups, members, members_of, read_groups};
pub use laws::hold_laws;
pub use limits::{MAX_FILE_BYTES, MAX_FILES, MAX_LINES, MAX_SPLICED_BYTES};
pub use placed::{Placed, PlacedLine, PlacedList, Scope};
pub use splicing::expand;
