// Why a text is no pattern, and which name a pattern has a hole for.
ghost use Rattle.std.specs.Prelude.{◌≡◌};

use std::alloc::{AllocError, AllocFailed};
use std::error::Error;
use std::fmt;

/// The name that a pattern may leave open, at the first place where it is spelled.
#[derive(Clone, Copy, Debug, PartialEq, Eq)]
pub enum Hole {
    /// None: the pattern has no hole.
    Nothing,
    /// `/USER/` stands for a slash, the name and a slash.
    User,
    /// `CREATOR` stands for the name.
    Creator,
}

/// Why a text is no pattern. A place counts bytes of the text from 0.
#[derive(Clone, Copy, Debug, PartialEq, Eq)]
pub enum RefexFault {
    /// The text breaks the grammar at this place.
    Syntax(u64),
    /// The pattern has this many positions, which is more than `MAX_POSITIONS`. 65,535 stands for more as
    /// well.
    TooManyPositions(u16),
    /// Perl knows the form at this place, and this language doesn't.
    Unsupported(u64),
    /// Out of memory.
    NoMemory,
}

/// What breaks the grammar at a place, or isn't part of this language.
#[derive(Clone, Copy, Debug, PartialEq, Eq)]
pub enum Offence {
    Syntax(u64),
    Unsupported(u64),
}

impl fmt::Display for RefexFault {
    ghost use Rattle.std.specs.Prelude.{Some};
    ghost use Rattle.refex.specs.Faults.{fault_text};

    ghost output = { λ fault. Some (fault_text fault) };

    fn fmt<W: fmt::Write>(&self, f: &mut fmt::Formatter<W>) -> fmt::Result {
        match self {
            RefexFault::Syntax(at) => write!(f, "bad pattern at {at}"),
            RefexFault::TooManyPositions(count) => write!(f, "pattern has {count} positions"),
            RefexFault::Unsupported(at) => write!(f, "pattern not supported at {at}"),
            RefexFault::NoMemory => write!(f, "out of memory"),
        }
    }
}

impl Error for RefexFault {}

impl From<AllocError> for RefexFault {
    ghost use Rattle.refex.specs.declared.faults.RefexFault.TheVariants.{NoMemory};

    ghost from_gives = { λ _ e. e ≡ NoMemory };

    fn from(_: AllocError) -> Self {
        RefexFault::NoMemory
    }
}

impl<T: Drop> From<AllocFailed<T>> for RefexFault {
    ghost use Rattle.refex.specs.declared.faults.RefexFault.TheVariants.{NoMemory};

    ghost from_gives = { λ _ e. e ≡ NoMemory };

    fn from(_: AllocFailed<T>) -> Self {
        RefexFault::NoMemory
    }
}
