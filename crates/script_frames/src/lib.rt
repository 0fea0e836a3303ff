//! The frames of a script: how one is spelled, and how the next is read from a source.
//!
//! A frame is a line with its word and a number, as `session N`, a body of N bytes, and a line feed. A script
//! is a list of frames of one word, one behind the other.
//!
//! - `frames`: the next frame of a source, or why there is none; and that an input is a script in one way.
//!
//! The format is in plain words in `docs/SCRIPTS.md`.
#![tactic(auto)]

mod frames;

pub use frames::{Frame, FrameFault, read_end, read_frame, scripts_differ};
