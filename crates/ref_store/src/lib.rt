//! What a repository stores: objects, found by their names, and refs.
//!
//! - `ref_name`: the names that a ref may have;
//! - `command`: what a push asks for;
//! - `ref_map`: refs in the byte order of their names;
//! - `shared_refs`: refs that several repositories share;
//! - `odds`: which ref can't stand beside a name;
//! - `salt`: how the names in an index are hashed;
//! - `object_table`: objects in order, found by their names;
//! - `segments`: the objects of a repository in shared segments;
//! - `lens`: the objects of a repository with those of a pack;
//! - `lacking`, `fresh`: what a pack holds that a repository lacks;
//! - `repo`: a repository.
#![tactic(auto)]

mod command;
mod fresh;
mod lacking;
mod lens;
mod object_table;
mod odds;
mod ref_map;
mod ref_name;
mod repo;
mod salt;
mod segments;
mod shared_refs;

pub use base_types::{ItemList, NoMemory, Text};
pub use command::{Command, CommandList};
pub use fresh::FreshObjects;
pub use lens::Lens;
pub use ref_name::{MAX_NAME, RefName};
pub use repo::{Added, Applied, Compared, Repo};
pub use salt::Salt;
