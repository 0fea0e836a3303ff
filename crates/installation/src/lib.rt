//! A generated installation: a conf of up to 5,000 repositories, and sessions that push to them.
//!
//! - `draws`: numbers that are the same in each run;
//! - `conf`: the conf, and the names of users and repositories;
//! - `objects`: the trees and commits that are pushed;
//! - `sending`: what a client sends that pushes, packet by packet;
//! - `sessions`: the input of each session.
//!
//! What a session does with its input is for the crates above.
#![tactic(auto)]

mod conf;
mod draws;
mod objects;
mod sending;
mod sessions;

pub use base_types::NoMemory;
pub use conf::{conf_text, repo_name};
pub use draws::Draws;
pub use sessions::{First, Visit, first_input, next_visit, visit_input};
