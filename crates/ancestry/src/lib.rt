//! What can be reached from an object: walks along links.
//!
//! - `facts`: what a rule may ask of a change of a ref;
//! - `wholeness`: whether all that an id leads to is there and of the kind wanted;
//! - `verdict`: what is amiss first among all that some ids lead to;
//! - `table`, `layers`: values by name, and tables of them that walkers share;
//! - `known`: what walkers find out, and keep for later ones;
//! - `seen`: a plain walk, which keeps nothing;
//! - `walks`: walks among the same objects;
//! - `id_set`, `reached`: names, each once, and the one walk that goes along them;
//! - `generations`: along the parents of commits, down to a generation;
//! - `ancestors`: ancestors, and merges among them;
//! - `front`: the first objects of a repository;
//! - `runs`, `run_sets`: places in runs, and sets of them;
//! - `closures`: what some objects lead to, as places, which are kept;
//! - `closing`: how that is found;
//! - `sent`: what a fetch sends;
//! - `tags`: what a tag stands for;
//! - `laws`: laws of the definitions.
#![tactic(auto)]

mod ancestors;
mod closing;
mod closures;
mod facts;
mod front;
mod generations;
mod id_set;
mod known;
mod laws;
mod layers;
mod reached;
mod run_sets;
mod runs;
mod seen;
mod sent;
mod table;
mod tags;
mod verdict;
mod walks;
mod wholeness;

pub use ancestors::{Advance, advance_between, brings_merge, is_ancestor, is_near};
pub use base_types::NoMemory;
pub use closures::{Closures, closures_of};
pub use facts::{Change, Facts};
pub use known::{Findings, Known};
pub use laws::hold_laws;
pub use sent::reach;
pub use tags::peel;
pub use verdict::Verdict;
pub use walks::Walks;
pub use wholeness::{Wholeness, whole};
