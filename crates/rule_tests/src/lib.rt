//! Tests of `refex`, `conf_lex`, `shell_words`, `conf_groups`, `wild_perms`, `rule_compile`, `conf_check`,
//! `setup_conf`, `policy_swap` and `update_check`, by what is public there. They are one crate, since each
//! crate of tests proves anew how values of the types that it uses are dropped.
#![tactic(auto)]

#[cfg(test)]
mod conf_check_tests;
#[cfg(test)]
mod conf_groups_tests;
#[cfg(test)]
mod conf_lex_tests;
#[cfg(test)]
mod limit_tests;
#[cfg(test)]
mod policy_swap_tests;
#[cfg(test)]
mod refex_tests;
#[cfg(test)]
mod rule_compile_tests;
#[cfg(test)]
mod setup_conf_tests;
#[cfg(test)]
mod shell_words_tests;
#[cfg(test)]
mod update_check_tests;
#[cfg(test)]
mod wild_perms_tests;
