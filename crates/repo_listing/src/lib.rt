//! What a user may see: the repositories that the user may read, and the patterns of those that the user may
//! create.
//!
//! - `lines`: a line of a listing, and its text;
//! - `listing`: which lines a user gets;
//! - `creators`: whether a rule is for whoever creates a repository;
//! - `laws`: what holds of the definitions themselves.
//!
//! The rules are in plain words in `docs/ACCESS.md`.
#![tactic(auto)]

mod creators;
mod laws;
mod lines;
mod listing;

pub use base_types::{ItemList, NoMemory, Text};
pub use conf_lex::{RepoName, UserName};
pub use laws::hold_laws;
pub use lines::{LookLine, LookList, line_text};
pub use listing::{push_patterns, push_repo};
pub use rule_compile::Policy;
pub use wild_perms::Wild;
