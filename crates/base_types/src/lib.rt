//! The types that every crate of the server speaks of.
//!
//! - `no_memory`: the one answer to a want of memory;
//! - `text`: bytes that a value owns, compared and hashed as bytes;
//! - `item_list`: the one list, of which the lists of objects, commands, outcomes and entries are names;
//! - `name_map`: a finite map from names to values, in the byte order of the names.
//!
//! Beside them stand two definitions without code of their own: that a count of faults has risen
//! (`specs/Counts.antt`), and what stands at the front of an input (`specs/Fronts.antt`).
#![tactic(auto)]

mod item_list;
mod name_map;
mod no_memory;
mod text;

pub use item_list::ItemList;
pub use name_map::NameMap;
pub use no_memory::NoMemory;
pub use text::Text;
