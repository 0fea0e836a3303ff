//! What the program does: sessions from a script, from connections or generated, confs that are checked, and
//! who may do what by them.
//!
//! - `script`: sessions one after the other, and what is printed of them;
//! - `keep`: a script at the hub of a journal on a disk;
//! - `protocols`: what a post serves: sessions, or requests;
//! - `serve`: workers at their posts, and what is printed behind them;
//! - `check`: a conf, and what is printed of it;
//! - `access`: questions over one conf or two, and what is printed of them;
//! - `load`, `tally`: the sessions of a generated installation, and what they came to in numbers;
//! - `status`: how a run of the program ends;
//! - `words`, `posts`: the words by which it was called, and posts at a TCP listener;
//! - `lone`, `program`: the program run by one caller, and the program;
//! - `laws`: that two runs of one script come to the same, and two of `load`.
//!
//! A session is of the crate `git_session`, a request of `smart_http`, workers of `session_workers`, the frames of a script of
//! `script_frames`, the words of a command of `shell_words`, a journal of `hub_journal`, a generated
//! installation of `installation`, and the edges of `edge_links`.
#![tactic(auto)]

mod access;
mod check;
mod keep;
mod laws;
mod load;
mod lone;
mod posts;
mod program;
mod protocols;
mod script;
mod serve;
mod status;
mod tally;
mod words;

pub use keep::end_unopened;
pub use laws::hold_laws;
pub use lone::{Ended, lone_main};
pub use posts::{add_posts, unsent_at};
pub use program::shell_main;
pub use protocols::{ServerEnd, ServerProtocol};
pub use script::ScriptFault;
pub use serve::print_served;
pub use status::{Status, served_status};
pub use words::{behind_name, words_given};
