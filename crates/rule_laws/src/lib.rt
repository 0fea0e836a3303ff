//! What holds of the rules that a conf comes to, in the words of the conf itself: its lines, its blocks and
//! the words on them.
//!
//! - `laws`: a subconf sets access for its own repositories alone; each rule is of a rule line of a block,
//!   and each such line gives its rules, in the order of lines; the same of options; which words are dropped,
//!   and which plain names there are.
//!
//! `rule_compile` defines the rules by reading the lines one after another. The laws say what comes of it
//! without that reading, so that whoever wants to know what a subconf may do needn't follow it.
//!
//! The rules are in plain words in `docs/CONF.md`.
#![tactic(auto)]

mod laws;

pub use laws::hold_laws;
