// Outcomes of commands.
ghost use Rattle.std.specs.Prelude.{◌≡◌};
ghost use Rattle.hub_history.specs.Push.{is_done, outcome_number};

use access_check::{Letter, Verdict};
use base_types::{ItemList, Text};
use git_object::ObjectId;
use ref_store::RefName;
use rule_compile::PolicyFault;
use std::alloc::AllocError;

/// What became of a command.
#[derive(Drop)]
pub enum Outcome {
    /// The ref has moved.
    Done,
    /// The ref's name isn't one that a ref may have.
    BadName,
    /// Another command of the push is for the same ref.
    Twice,
    /// The old value and the new one are the same.
    NoChange,
    /// The ref's value at the opening, which isn't the command's old value.
    NotAdvertised(ObjectId),
    /// The new value leads to this name, which no object has. Of several it is the least.
    Missing(ObjectId),
    /// The new value leads to this object, which isn't of the kind that is wanted of it there. Of several it
    /// is the least.
    WrongKind(ObjectId),
    /// The rules at the opening don't let the change be made. The name is the ref's, or that of the virtual
    /// ref that was asked.
    Denied {
        verdict: Verdict,
        letter: Letter,
        name: Text,
    },
    /// A rule at the opening asks for changed paths, and there are too many.
    ManyPaths,
    /// The conf at the new value has this fault.
    ConfRefused(PolicyFault),
    /// The rules just before the push don't let the change be made. The name is as in `Denied`.
    DeniedNow {
        verdict: Verdict,
        letter: Letter,
        name: Text,
    },
    /// A rule just before the push asks for changed paths, and there are too many.
    ManyPathsNow,
    /// The ref's value just before, which isn't the command's old value.
    Stale(ObjectId),
    /// A create, and this ref is a directory of its ref or stands below it. Of several it is the least.
    DirFile(RefName),
    /// The push is atomic, and the command of this place, counted from 0, is the first that was refused.
    AtomicOther(u32),
    /// The pack holds another object of this name.
    Collided(ObjectId),
    /// With the pack the repository would have this many objects.
    Full(u64),
}

/// The outcomes of a push, in the order of its commands.
pub type OutcomeList = ItemList<Outcome>;

impl Clone for Outcome {
    ghost is_clone = { λ outcome copy. copy ≡ outcome };

    fn clone(&self) -> Result<Outcome, AllocError> {
        Ok(match self {
            Outcome::Done => Outcome::Done,
            Outcome::BadName => Outcome::BadName,
            Outcome::Twice => Outcome::Twice,
            Outcome::NoChange => Outcome::NoChange,
            Outcome::NotAdvertised(id) => Outcome::NotAdvertised(*id),
            Outcome::Missing(id) => Outcome::Missing(*id),
            Outcome::WrongKind(id) => Outcome::WrongKind(*id),
            Outcome::Denied {
                verdict,
                letter,
                name,
            } => Outcome::Denied {
                verdict: *verdict,
                letter: *letter,
                name: name.clone()?,
            },
            Outcome::ManyPaths => Outcome::ManyPaths,
            Outcome::ConfRefused(fault) => Outcome::ConfRefused(fault.clone()?),
            Outcome::DeniedNow {
                verdict,
                letter,
                name,
            } => Outcome::DeniedNow {
                verdict: *verdict,
                letter: *letter,
                name: name.clone()?,
            },
            Outcome::ManyPathsNow => Outcome::ManyPathsNow,
            Outcome::Stale(id) => Outcome::Stale(*id),
            Outcome::DirFile(name) => Outcome::DirFile(name.clone()?),
            Outcome::AtomicOther(first) => Outcome::AtomicOther(*first),
            Outcome::Collided(id) => Outcome::Collided(*id),
            Outcome::Full(count) => Outcome::Full(*count),
        })
    }
}

impl Outcome {
    pub fn is_done(&self) -> bool
        ensures { result ≡ is_done self.now }
    {
        matches!(self, Outcome::Done)
    }

    /// The number by which the outcome is known, whatever it holds. A variant with a field can't bear it
    /// itself.
    pub fn number(&self) -> u8
        ensures { result ≡ outcome_number self.now }
    {
        match self {
            Outcome::Done => 1,
            Outcome::BadName => 2,
            Outcome::Twice => 3,
            Outcome::NoChange => 4,
            Outcome::NotAdvertised(_) => 5,
            Outcome::Missing(_) => 6,
            Outcome::WrongKind(_) => 7,
            Outcome::Denied { .. } => 8,
            Outcome::ManyPaths => 9,
            Outcome::ConfRefused(_) => 10,
            Outcome::Stale(_) => 11,
            Outcome::DirFile(_) => 12,
            Outcome::AtomicOther(_) => 13,
            Outcome::Collided(_) => 14,
            Outcome::DeniedNow { .. } => 15,
            Outcome::ManyPathsNow => 16,
            Outcome::Full(_) => 17,
        }
    }
}
