//! An event of the hub as the body of a record, and back.
//!
//! - `request`: what was asked, and by which caller;
//! - `fields`, `packs`: numbers, texts, names, commands and objects at the front of bytes;
//! - `bodies`: reading a whole body;
//! - `fronts`: what its first bytes say;
//! - `writing`, `records`: building the record of an event;
//! - `laws`: what holds of the form of bodies.
//!
//! `docs/JOURNAL.md` has the form as a table.
#![tactic(auto)]

mod bodies;
mod body_fault;
mod fields;
mod fronts;
mod laws;
mod packs;
mod records;
mod request;
mod writing;

pub use base_types::NoMemory;
pub use bodies::read_body;
pub use body_fault::BodyFault;
pub use fronts::{PUSH_FRONT, push_place};
pub use laws::hold_laws;
pub use records::{
    enter_record, look_record, permit_record, push_record, write_enter, write_permit, write_push,
};
pub use request::{CallerRequest, Request};
