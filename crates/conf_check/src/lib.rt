//! What is printed of a conf that is checked: a line for each rule, or its first fault.
//!
//! - `lines`: the lines of rules, of warnings, and of the count;
//! - `report`: what is printed of a conf.
//!
//! The lines are in plain words in `docs/CHECK.md`.
#![tactic(auto)]

mod lines;
mod report;

pub use base_types::NoMemory;
pub use lines::flat_text;
pub use report::{Report, check_conf, conf_texts_agree};
