//! Who created a repository, and who holds which role in it.
//!
//! - `role`: roles, and an entry of one for a user;
//! - `answer`: what a change or a listing of roles is answered;
//! - `wild`: a creator, and the roles that are given.
//!
//! The rules are in plain words in `docs/ACCESS.md`.
#![tactic(auto)]

mod answer;
mod role;
mod wild;

pub use answer::PermsAnswer;
pub use base_types::{ItemList, NoMemory, Text};
pub use conf_lex::UserName;
pub use role::{RoleEntry, RoleList};
pub use wild::Wild;
