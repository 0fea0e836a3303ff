//! The conf of a new hub, and the two rules that it comes to.
//!
//! - `setup`: its files, and its policy;
//! - `laws`: whoever the admin is, the files come to those rules.
#![tactic(auto)]

mod laws;
mod setup;

pub use base_types::NoMemory;
pub use conf_groups::FileList;
pub use conf_lex::UserName;
pub use laws::hold_laws;
pub use rule_compile::Policy;
pub use setup::{setup_files, setup_policy};
