//! The input of a report over confs of several files: questions, and a frame for each file. What it comes to
//! is printed.
//!
//! - `confs`: the files of one conf, or of two, as frames give them;
//! - `input`: all frames;
//! - `report`: what is printed, and how it ends.
//!
//! Which verdicts there are is of `access_report`, and how a frame is spelled of `script_frames`.
#![tactic(auto)]

mod confs;
mod input;
mod report;

pub use confs::Confs;
pub use input::{InputFault, ReportInput};
pub use report::{ReportEnd, run_report};
