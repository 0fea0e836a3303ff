//! Judging a push by its opening, before its turn: what the opening, the pack and the commands alone decide.
//! And judging it by the rules just before it.
//!
//! - `rows`: what the command itself, its new value, the rules and the conf say of one command;
//! - `judging`: all commands of a push, by the opening;
//! - `later`: all commands of a push that was judged, by the rules just before it;
//! - `again`: the same outside of the push's turn, by what its repository had at an earlier try.
#![tactic(auto)]

mod again;
mod judging;
mod later;
mod rows;

pub use hub_state::{ConfInForce, NoMemory, Outcome, Pin, PreparedPack};
pub use judging::{CommandOutcomes, Judged, judge};
pub use rows::is_of_conf;
