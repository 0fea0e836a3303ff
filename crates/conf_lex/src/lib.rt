//! Lines of a conf file: what a line says, or why it says nothing.
//!
//! - `user_name`, `repo_name`: the names of users and of repositories, which keep their rule;
//! - `perm`: permissions and their texts;
//! - `fault`: why a line is refused;
//! - `statement`: what a line says;
//! - `repo_words`: what a word that names repositories is;
//! - `cleaning`: a line without its comment and its white space, and its words;
//! - `words`: which word may be where, and the place of the first bad one;
//! - `reading`: the table of statements, and `read_line`.
//!
//! `laws` has what holds of the definitions. The rules are in plain words in `docs/CONF.md`.
#![tactic(auto)]

mod cleaning;
mod fault;
mod laws;
mod names;
mod perm;
mod reading;
mod repo_name;
mod repo_words;
mod statement;
mod user_name;
mod words;

pub use base_types::{NoMemory, Text};
pub use cleaning::clean;
pub use fault::LexFault;
pub use laws::hold_laws;
pub use perm::Perm;
pub use reading::read_line;
pub use repo_name::{MAX_REPO_NAME, RepoName};
pub use repo_words::{RepoWordKind, kind_of, repo_word};
pub use statement::{Statement, TextList};
pub use user_name::{MAX_USER_NAME, UserName};
pub use words::MAX_WORD;
