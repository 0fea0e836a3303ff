// The paths that a change changes.
ghost use Rattle.std.specs.Prelude.{◌≡◌, ◌↔◌, IsTrue};
ghost use Rattle.vref.specs.Paths.{TellsOfPaths, TellsOfTrees};

use crate::path_list::PathList;
use crate::root::root_of;
use crate::walk::{Stop, walk_trees};
use base_types::NoMemory;
use git_object::ObjectId;
use ref_store::Lens;
use std::alloc::Global;

/// What is returned of two trees.
#[derive(Drop)]
pub enum Paths<'a> {
    /// The changed paths, in the order of their bytes.
    Listed(PathList<'a>),
    /// They differ at more than 200,000 paths, or at one of more than 4,096 bytes.
    TooMany,
    /// Comes only of two trees, and not where both sides are one.
    NoMemory,
}

/// The paths that a change from one id to another changes: those at which the trees differ for which the two
/// stand.
///
/// Equal folders aren't entered, and two trees that come at many paths are compared once. Where there are too
/// many it stops at the first row beyond.
pub fn changed_paths<'a>(alloc: Global, lens: &'a Lens, old: ObjectId, new: ObjectId) -> Paths<'a>
    ensures { TellsOfPaths lens.now old new result }
{
    paths_between(alloc, lens, root_of(lens, old), root_of(lens, new))
}

// The paths at which two trees differ; without an id a side is the empty tree.
fn paths_between<'a>(
    alloc: Global,
    lens: &'a Lens,
    old: Option<ObjectId>,
    new: Option<ObjectId>,
) -> Paths<'a>
    ensures { TellsOfTrees lens.now old new result }
{
    if are_one(old, new) {
        return Paths::Listed(PathList::new(alloc));
    }
    let walked = match walk_trees(alloc, lens, old, new) {
        Ok(walked) => walked,
        Err(Stop::TooMuch) => return Paths::TooMany,
        Err(Stop::NoMemory) => return Paths::NoMemory,
    };
    match PathList::of_walk(alloc, walked) {
        Ok(paths) => Paths::Listed(paths),
        Err(NoMemory) => Paths::NoMemory,
    }
}

// Whether two sides are one tree.
fn are_one(old: Option<ObjectId>, new: Option<ObjectId>) -> bool
    ensures { IsTrue result ↔ (old ≡ new) }
{
    old == new
}
