//! Tests of `session_core`, `receive_pack`, `upload_pack`, `git_session` and `smart_http`, by what is public there. They
//! are one crate, since each crate of tests proves anew how values of the types that it uses are dropped.
//!
//! It is a program, which does nothing, since `rt ci` takes minutes to begin and end a library that stands so
//! high.
#![tactic(auto)]

#[cfg(test)]
mod fetch_tests;
#[cfg(test)]
mod git_session_tests;
#[cfg(test)]
mod http_tests;
#[cfg(test)]
mod push_tests;
#[cfg(test)]
mod receive_pack_tests;
#[cfg(test)]
mod session_core_tests;

fn main(_rt: HostRuntime) {}
