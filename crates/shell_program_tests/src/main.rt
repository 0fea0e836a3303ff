//! Tests of `session_workers` and `shell_program`, by what is public there. They are one crate, since each
//! crate of tests proves anew how values of the types that it uses are dropped.
//!
//! It is a program, which does nothing, since `rt ci` takes minutes to begin and end a library that stands so
//! high.
#![tactic(auto)]

#[cfg(test)]
mod edge_tests;
#[cfg(test)]
mod lone_tests;
#[cfg(test)]
mod serve_tests;
#[cfg(test)]
mod session_workers_tests;

fn main(_rt: HostRuntime) {}
