//! Tests of `base_types`, `pktline_core`, `script_frames`, `edge_links`, `request_head`, `raw_pack` and
//! `installation`, by what is public there. They are one crate, since each crate of tests proves anew how
//! values of the types that it uses are dropped.
#![tactic(auto)]

#[cfg(test)]
mod base_types_tests;
#[cfg(test)]
mod edge_links_tests;
#[cfg(test)]
mod installation_tests;
#[cfg(test)]
mod pktline_core_tests;
#[cfg(test)]
mod raw_pack_tests;
#[cfg(test)]
mod request_head_tests;
#[cfg(test)]
mod script_frames_tests;
