// Why a line is refused.
ghost use Rattle.std.specs.Prelude.{◌≡◌, Some};
ghost use Rattle.conf_lex.specs.declared.fault.LexFault.TheVariants.{NoMemory};
ghost use Rattle.conf_lex.specs.Faults.{fault_text};

use base_types::NoMemory;
use std::alloc::AllocError;
use std::error::Error;
use std::fmt;

/// Why a line is no statement. A place is an offset in the cleaned line.
#[derive(Clone, Copy, Debug, PartialEq, Eq)]
pub enum LexFault {
    NotAStatement,
    BadPermission,
    /// The place of the first word that may not be where it is, or the line's length where a user is missing.
    BadWord(u64),
    NoMemory,
}

impl fmt::Display for LexFault {
    ghost output = { λ fault. Some (fault_text fault) };

    fn fmt<W: fmt::Write>(&self, f: &mut fmt::Formatter<W>) -> fmt::Result {
        match self {
            LexFault::NotAStatement => write!(f, "not a statement"),
            LexFault::BadPermission => write!(f, "bad permission"),
            LexFault::BadWord(at) => write!(f, "bad word at {at}"),
            LexFault::NoMemory => write!(f, "out of memory"),
        }
    }
}

impl Error for LexFault {}

impl From<NoMemory> for LexFault {
    ghost from_gives = { λ _ fault. fault ≡ NoMemory };

    fn from(_: NoMemory) -> LexFault {
        LexFault::NoMemory
    }
}

impl From<AllocError> for LexFault {
    ghost from_gives = { λ _ fault. fault ≡ NoMemory };

    fn from(_: AllocError) -> LexFault {
        LexFault::NoMemory
    }
}
