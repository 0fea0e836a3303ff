//! The head of an HTTP request that Git's smart protocol knows, and the response to one.
//!
//! - `head`: the bytes of a head, taken from a source;
//! - `fault`: why a request is refused;
//! - `target`: the targets that are served;
//! - `fields`: what a head's fields say, by their names;
//! - `request`: what a head asks for;
//! - `response`: the head of a response, and refusals;
//! - `laws`: what holds of the definitions;
//! - `limited`: a link whose input ends after so many bytes.
#![tactic(auto)]

mod fault;
mod fields;
mod head;
mod laws;
mod limited;
mod request;
mod response;
mod target;

pub use base_types::NoMemory;
pub use fault::HttpFault;
pub use head::{HeadFault, MAX_HEAD, read_head};
pub use laws::hold_laws;
pub use limited::{Limited, take_limited};
pub use request::{HttpRequest, MAX_FIELDS, read_request};
pub use response::{Media, refuse, write_response_head};
pub use target::{Form, Service, Target};
