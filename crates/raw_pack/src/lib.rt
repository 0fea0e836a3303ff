//! Raw packs: the objects that a push sends and a fetch gets, uncompressed.
//!
//! - `fault`: why a pack wasn't read;
//! - `input`: bytes of a source, hashed as they come;
//! - `head`: the header of a pack and the heads of its entries;
//! - `reading`: entries, the trailer, and a whole pack as a list of objects;
//! - `entry`, `reader`: a pack entry by entry, each lent;
//! - `writing`: the pack of a repository's objects, written to a sink;
//! - `laws`: what holds of the format itself.
//!
//! `specs/Formats.antt` and `specs/Packs.antt` say what stands at the front of an input, `specs/Grammar.antt`
//! which bytes the pack of a list of objects has; `docs/PACKS.md` tells the rules.
#![tactic(auto)]

mod entry;
mod fault;
mod head;
mod input;
mod laws;
mod reader;
mod reading;
mod writing;

pub use base_types::NoMemory;
pub use entry::PackEntry;
pub use fault::PackFault;
pub use laws::hold_laws;
pub use reader::PackReader;
pub use reading::read_pack;
pub use writing::write_pack;
