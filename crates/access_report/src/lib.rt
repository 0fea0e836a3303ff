//! Who may do what: questions, each with its verdict and the rule that decides, over the rules of one conf or
//! of two.
//!
//! - `lists`: what is asked: repositories, users and refs;
//! - `reading`: how that is read, line by line;
//! - `answers`: which questions these are, in which order, and what each is answered;
//! - `marks`: which rules decide a question;
//! - `text`: the lines that are printed;
//! - `report`: a report over one conf, and what changes from one conf to another;
//! - `access`: questions in lines, over one conf or two;
//! - `laws`: what holds of the definitions themselves.
//!
//! The rules are in plain words in `docs/REPORT.md`.
#![tactic(auto)]

mod access;
mod answers;
mod laws;
mod lists;
mod marks;
mod reading;
mod report;
mod text;

pub use access::{Printed, print_access};
pub use access_check::{Letter, Policy, Verdict};
pub use answers::{About, Question, questions};
pub use base_types::NoMemory;
pub use conf_groups::{ConfFile, FileList};
pub use conf_lex::{RepoName, UserName};
pub use laws::hold_laws;
pub use lists::{AskedRepo, Questions};
pub use reading::{AskFault, read_questions};
pub use ref_store::RefName;
pub use report::{ReportFault, write_change, write_report};
pub use wild_perms::Wild;
