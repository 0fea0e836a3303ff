// Whether all that an id leads to is there, and of the kind wanted.
ghost use Rattle.ancestry.specs.Wholeness.{TellsOfWholeness};

use crate::walks::Walks;
use git_object::{Kind, ObjectId};
use ref_store::Lens;
use std::alloc::Global;

/// What came of a walk along all links from an id.
#[derive(Clone, Copy, Debug, PartialEq, Eq)]
pub enum Wholeness {
    /// All that is met is there, and of the kind wanted.
    Whole,
    /// There is no object of this name; it is the least such id that is met.
    Missing(ObjectId),
    /// The object of this name isn't of the kind that is wanted of it; it is the least such id that is met.
    WrongKind(ObjectId),
    NoMemory,
}

/// Whether all that an id leads to is there and of the kind wanted; of the id itself this kind is wanted, or
/// any.
pub fn whole(alloc: Global, lens: &Lens, id: ObjectId, kind: Option<Kind>) -> Wholeness
    ensures { TellsOfWholeness lens.now id kind result }
{
    let mut walks = Walks::new(alloc, lens);
    walks.whole(id, kind)
}
