//! The hub: openings, pushes, changes of roles and listings, the log of their answers, and the state that the
//! log leads to.
//!
//! - `table`: repositories by their names;
//! - `since`: since when the conf in force and each repository's creator and roles are what they are;
//! - `answer`: what the calls answer;
//! - `hub`: the hub, which keeps that its log is legal and that what it stores is the log's replay;
//! - `openings`, `pushes`, `roles`, `looks`: its calls;
//! - `names`: that users and repositories have names, as legal logs ask;
//! - `desk`: a hub as one caller has it.
#![tactic(auto)]

mod answer;
mod desk;
mod hub;
mod looks;
mod names;
mod openings;
mod pushes;
mod roles;
mod since;
mod table;

pub use answer::{Entered, Looked, Permitted, Pushed};
pub use desk::{Desk, LoneDesk};
pub use hub::Hub;
pub use hub_history::{
    EnterKept, Entry, EntryList, Event, Letter, Outcome, OutcomeList, PermChange, PermsKept,
    RepoList, RepoName, UserName, Verdict, Want,
};
pub use hub_state::{ConfInForce, HostedRepo, NoMemory, Pin, PushRequest};
pub use push_judging::{Judged, judge};
