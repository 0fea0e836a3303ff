//! Workers: one for each post, over one hub that they share.
//!
//! - `post`: a post, and its worker, on a thread of its own where the system gives one;
//! - `worker`: links of a door, served one after the other;
//! - `hand`: passes of the hub, handed to the posts, and joined behind;
//! - `all`: all posts;
//! - `laws`: a law of what is served.
//!
//! A session is of the crate `git_session`, and a hub between threads of `shared_hub`. The rules are in
//! `docs/SERVE.md`.
#![tactic(auto)]

mod all;
mod hand;
mod laws;
mod post;
mod worker;

pub use all::{ServedAll, serve_all};
pub use laws::hold_laws;
pub use post::Post;
pub use shared_hub::EventHub;
