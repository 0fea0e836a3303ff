// What a rule may ask of a change of a ref.

/// What happens to a ref: it is created where its old value is zero, deleted where its new value is zero, and
/// else updated.
#[derive(Clone, Copy, Debug, PartialEq, Eq)]
pub enum Change {
    Create,
    Delete,
    Update,
}

/// What a rule may ask of a change of a ref.
#[derive(Clone, Copy, Debug, PartialEq, Eq)]
pub struct Facts {
    pub change: Change,
    /// The ref's name is below `refs/tags/`.
    pub tag: bool,
    /// Each of the old and the new value that isn't zero is a commit.
    pub commits: bool,
    /// It is an update between two commits, of which the old is an ancestor of the new.
    pub forward: bool,
    /// It is an update between two commits, and some commit with two or more parents is an ancestor of the
    /// new and not of the old.
    pub merge: bool,
}
