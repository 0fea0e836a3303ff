//! Settling a push in its turn: the outcomes of its commands by what is there just before it, and the
//! repository that it leaves.
//!
//! - `basis`: what was found out of the push before, and whether its repository's objects are still the same;
//! - `settling`: the outcomes, and what is left.
#![tactic(auto)]

mod basis;
mod settling;

pub use basis::{Basis, Standing};
pub use hub_state::{HostedRepo, NoMemory, Outcome, OutcomeList, PreparedPack, PushRequest};
pub use settling::{Left, Settled, settle};
