//! `git-upload-pack`: what follows an opening for reading.
//!
//! - `advertising`: the refs as they were at the opening, what tags stand for, and the ids that may be
//!   wanted;
//! - `lines`: what a line of the client says;
//! - `wants`: what the client wants, up to the flush that ends it;
//! - `haves`: what it has, and what is replied to that, up to `done`;
//! - `sending`: the pack;
//! - `uploading`: the whole of it, and its two parts;
//! - `laws`: that a fetch is in order, and laws of what is sent.
//!
//! The rules are in `docs/SESSIONS.md`.
#![tactic(auto)]

mod advertising;
mod haves;
mod laws;
mod lines;
mod sending;
mod uploading;
mod wants;

pub use laws::hold_laws;
pub use uploading::{FetchEnd, advertise_upload, upload, upload_wants};
