//! One request of Git's smart HTTP over a link and a desk.
//!
//! - `end`: how a request ends;
//! - `responses`: refusals, and the refs of a repository;
//! - `calls`: the rest of a session, as the body of a request;
//! - `serving`: a request;
//! - `protocol`: what a worker serves.
#![tactic(auto)]

mod calls;
mod end;
mod protocol;
mod responses;
mod serving;

pub use end::HttpEnd;
pub use protocol::HttpRequests;
pub use serving::serve_http;
