//! Which events of a log last: those that changed something, and openings for writing that were granted.
//!
//! A journal that keeps these alone leads to the same state, with the same answers.
//!
//! - `lasting`: whether an event lasts;
//! - `places`: the place of an entry among those;
//! - `laws`: what holds of the log of those alone.
#![tactic(auto)]

mod lasting;
mod laws;
mod places;

pub use hub_history::{EntryList, Event};
pub use lasting::lasts;
pub use laws::hold_laws;
pub use places::place_among;
