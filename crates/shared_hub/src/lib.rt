//! A hub that callers on several threads share.
//!
//! Each caller has a pass of the lock, and its desk: the calls of `hub::Desk`, each of which takes the turn
//! once.
//!
//! - `event_hub`: what a lock over a hub asks of it, and the plain hub, which gives it;
//! - `kept`: a hub as the lock keeps it, whose list is its admin and then its log;
//! - `shared`: the lock over a hub, and its passes;
//! - `steps`: what each call of a desk does while it has the turn;
//! - `desk`: a pass as a desk.
#![tactic(auto)]

mod desk;
mod event_hub;
mod kept;
mod shared;
mod steps;

pub use base_types::NoMemory;
pub use desk::SharedDesk;
pub use event_hub::EventHub;
pub use kept::{KeptEntry, KeptHub};
pub use shared::{SharedHub, SharedPass};
