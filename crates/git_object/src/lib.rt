//! Git's objects: their names, the forms of their bodies, and what they link to.
//!
//! - `object_id`: names, as bytes and as text;
//! - `kind`: the four kinds and their words;
//! - `reader`: how the front of some bytes is read;
//! - `commit`, `tree`, `tag`: the forms of bodies, and what stands in them;
//! - `fault`: why bytes are no body of a kind;
//! - `object`: an object, whose body is of its kind's form, and lists of objects;
//! - `links`: the objects that an object names;
//! - `packing`: what one pack may bring;
//! - `spelling`: laws that the forms as they are read are the forms written out.
#![tactic(auto)]

mod commit;
mod fault;
mod kind;
mod links;
mod object;
mod object_id;
mod packing;
mod reader;
mod spelling;
mod tag;
mod tree;

pub use base_types::NoMemory;
pub use commit::Parents;
pub use fault::ObjFault;
pub use kind::Kind;
pub use links::Links;
pub use object::{MAX_BODY, Object, ObjectList, share};
pub use object_id::{ObjectId, hex_id};
pub use packing::{MAX_PACKED, MAX_PACKED_BYTES, fit_one_pack};
pub use reader::{literal, up_to};
pub use spelling::{commits_are_as_written, tags_are_as_written, trees_are_as_written};
pub use tree::{TreeEntries, TreeEntry};
