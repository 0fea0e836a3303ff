//! What the rules say of a change of a ref: Gitolite's second check, after that of an opening.
//!
//! - `refusal`: why a change isn't let be made;
//! - `check`: the ref itself, the merge check, and changed paths, in this order;
//! - `laws`: laws of the definitions.
//!
//! The rules are in plain words in `docs/ACCESS.md`.
#![tactic(auto)]

mod check;
mod laws;
mod path_verdicts;
mod refusal;

pub use access_check::{Letter, Policy, RepoName, UserName, Verdict, Wild};
pub use ancestry::Facts;
pub use base_types::{NoMemory, Text};
pub use check::UpdateCheck;
pub use laws::hold_laws;
pub use ref_store::{Command, Lens};
pub use refusal::Refusal;
