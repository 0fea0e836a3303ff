//! Tests of `git_object`, `ref_store`, `ancestry` and `vref`, by what is public there. They are one crate,
//! since each crate of tests proves anew how values of the types that it uses are dropped.
#![tactic(auto)]

#[cfg(test)]
mod ancestry_tests;
#[cfg(test)]
mod closures_tests;
#[cfg(test)]
mod git_object_tests;
#[cfg(test)]
mod history_tests;
#[cfg(test)]
mod path_tests;
#[cfg(test)]
mod ref_store_tests;
#[cfg(test)]
mod vref_tests;
