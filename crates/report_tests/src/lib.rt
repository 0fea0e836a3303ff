//! Tests of `access_report`, by what is public there.
#![tactic(auto)]

#[cfg(test)]
mod access_report_tests;
