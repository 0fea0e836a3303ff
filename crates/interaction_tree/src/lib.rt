//! A session's turn, as an interaction tree: definitions and their laws, below the crates of the protocols.
//! It speaks of packets, of raw packs and of the log's entries, and of no command.
//!
//! The parts of `specs/`, in the order in which they are read:
//! - `Wanted`, `Requests`: what is read, and what is asked of a hub and answered;
//! - `Interaction`: the tree, of which each command of a protocol is a value;
//! - `Turns`, `Alone`: what is due of it, by its input and its entries, or by what a hub answers that nobody
//!   else asks;
//! - `Traces`, `Runs`, `Steps`: what code did along it, and each call as a step;
//! - `Order`: that no entry is made between writing and the next reading;
//! - `Endings`, `Growth`: what a session keeps, by its four ends, and what it leaves of its desk;
//! - `Laws`: what holds of all of these, for every protocol.
#![tactic(auto)]

mod laws;

pub use laws::{composition_holds, ends_may_differ, steps_hold, turns_hold};
