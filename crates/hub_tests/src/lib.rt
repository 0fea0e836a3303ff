//! Tests of `turn_lock`, `hub_history`, `hub_state`, `push_judging`, `hub` and `shared_hub`, by what is
//! public there. They are one crate, since each crate of tests proves anew how values of the types that it
//! uses are dropped.
#![tactic(auto)]

#[cfg(test)]
mod hub_history_tests;
#[cfg(test)]
mod hub_state_tests;
#[cfg(test)]
mod hub_tests;
#[cfg(test)]
mod push_judging_tests;
#[cfg(test)]
mod shared_hub_tests;
#[cfg(test)]
mod turn_lock_tests;
