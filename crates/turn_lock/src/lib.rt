//! A lock over one value, whose meaning is a list of entries that only grows.
//!
//! Each thread has a pass with a number. A step, made while its pass holds the turn, appends one entry with
//! that number or changes nothing, and a pass knows a beginning of the list in which all entries of its own
//! number stand.
//!
//! Read `kept` (what a held value and a step say of themselves), then `lock` (the calls), then `turn` (how
//! the turn is taken and given back), then `rule` (what holds between any two steps). `docs/LOCK.md` tells
//! the steps and the rule.
#![tactic(auto)]

mod kept;
mod lock;
mod rule;
mod turn;

pub use base_types::NoMemory;
pub use kept::{Kept, Step};
pub use lock::{Pass, TurnLock};
