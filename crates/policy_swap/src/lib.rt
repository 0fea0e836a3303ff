//! The conf that a commit has, and the rules that it comes to.
//!
//! - `conf`: the files of the conf at a commit;
//! - `compile`: the rules of those files;
//! - `rows`: what is below the folder `conf`;
//! - `trees`: the entries of trees;
//! - `found`: the files among it, by their names;
//! - `laws`: laws of the definitions.
//!
//! The rules are in plain words in `docs/CONF.md`.
#![tactic(auto)]

mod compile;
mod conf;
mod found;
mod laws;
mod rows;
mod trees;

pub use compile::compile_at;
pub use conf::conf_files;
pub use conf_groups::{ConfFault, ConfFile, ConfKind, FileList};
pub use git_object::ObjectId;
pub use laws::hold_laws;
pub use ref_store::Lens;
pub use rows::MAX_ROWS;
pub use rule_compile::{Policy, PolicyFault};
