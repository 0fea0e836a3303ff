// An entry that is lent.
use git_object::Kind;

/// An object of a pack, lent until the next one is read.
#[derive(Clone, Copy, Debug, PartialEq, Eq)]
pub struct PackEntry<'a> {
    pub kind: Kind,
    pub body: &'a [u8],
}
