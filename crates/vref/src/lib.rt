//! What a rule may ask of a change of a ref: its facts, and the paths that it changes.
//!
//! - `facts`: the facts of a change, by the commits on both sides, and of many changes;
//! - `advances`: how commits follow others, many pairs at once;
//! - `order`: commits in an order in which parents come before their children;
//! - `history`: the links between them, and the merges;
//! - `marks`: which of them are ancestors of which;
//! - `bits`: words of bits;
//! - `paths`: the paths that a change changes;
//! - `root`: the tree that an id stands for;
//! - `path_list`: paths that share their fronts, in order;
//! - `path_table`: the table that they are in;
//! - `walk`: the walk over two trees at once;
//! - `comparisons`: what was found out of pairs of trees;
//! - `bases`: trees from which others differ in a few names;
//! - `through`: where two trees differ, by where each differs from a third;
//! - `differences`: the entries in which two trees differ;
//! - `laws`: laws of the definitions.
#![tactic(auto)]

mod advances;
mod bases;
mod bits;
mod comparisons;
mod differences;
mod facts;
mod history;
mod laws;
mod marks;
mod order;
mod path_list;
mod path_table;
mod paths;
mod root;
mod through;
mod walk;

pub use ancestry::{Change, Facts};
pub use base_types::NoMemory;
pub use facts::{facts_of, facts_of_all};
pub use laws::hold_laws;
pub use path_list::PathList;
pub use paths::{Paths, changed_paths};
pub use root::root_of;
pub use walk::{MAX_PATH, MAX_ROWS};
