//! What a hub keeps, and what an opening pins of it.
//!
//! - `hosted`: a repository as the hub hosts it;
//! - `conf`: the conf in force, with the rules that it comes to;
//! - `pin`: what held at an opening;
//! - `request`: what a push asks for;
//! - `prepared`: what is found out of a push's pack before its turn.
#![tactic(auto)]

mod conf;
mod hosted;
mod pin;
mod prepared;
mod request;

pub use base_types::NoMemory;
pub use conf::ConfInForce;
pub use hosted::HostedRepo;
pub use hub_history::{Outcome, OutcomeList, RepoName, UserName, Want};
pub use pin::Pin;
pub use prepared::PreparedPack;
pub use request::PushRequest;
