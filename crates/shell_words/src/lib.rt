//! The words by which the program is called, read as a command.
//!
//! - `commands`: the commands and their values, and the reading of one;
//! - `matches`: the command line as `clap` is told of it, and the command that its matches are;
//! - `spelling`: whether words are a command, which takes no memory;
//! - `options`: options, each a flag and a value;
//! - `numbers`: numbers as words, and their limits.
//!
//! `laws` has what holds of the definitions.
#![tactic(auto)]

mod commands;
mod laws;
mod matches;
mod numbers;
mod options;
mod spelling;

pub use commands::{Asked, Transport, USAGE, WordsFault, read_words};
pub use laws::hold_laws;
