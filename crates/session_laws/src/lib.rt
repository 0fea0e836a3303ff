//! Laws of sessions: what a client sends that does everything right is served.
//!
//! - `laws`: a push, a fetch, a change or a listing of roles and a listing of repositories, each spelled as a
//!   client spells it, are read whole; the entries that they ask for are made, and the replies are written.
//!
//! They are in plain words in the README.
#![tactic(auto)]

mod laws;

pub use laws::hold_laws;
