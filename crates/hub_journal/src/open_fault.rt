// Why a journal wasn't opened.
ghost use Rattle.std.specs.Prelude.{◌≡◌, Some};
ghost use Rattle.hub_journal.specs.Faults.{fault_text};
ghost use Rattle.hub_journal.specs.declared.open_fault.OpenFault.TheVariants as fault;

use crate::NoMemory;
use std::error::Error;
use std::fmt;

/// Why a journal wasn't opened.
#[derive(Clone, Copy, Debug, PartialEq, Eq)]
pub enum OpenFault {
    /// The file isn't empty and doesn't begin with a journal's head and one byte behind it.
    NotAJournal,
    /// It is the journal of another admin's hub.
    OtherAdmin,
    /// At this offset a record isn't whole, is no event's, or is of one that can't be asked of the hub.
    BadRecord(u64),
    /// A call of the disk failed.
    DiskFault,
    NoMemory,
}

impl fmt::Display for OpenFault {
    ghost output = { λ fault. Some (fault_text fault) };

    fn fmt<W: fmt::Write>(&self, f: &mut fmt::Formatter<W>) -> fmt::Result {
        match self {
            OpenFault::NotAJournal => write!(f, "not a journal"),
            OpenFault::OtherAdmin => write!(f, "other admin"),
            OpenFault::BadRecord(offset) => write!(f, "bad record at {offset}"),
            OpenFault::DiskFault => write!(f, "disk failed"),
            OpenFault::NoMemory => write!(f, "out of memory"),
        }
    }
}

impl Error for OpenFault {}

impl From<NoMemory> for OpenFault {
    ghost from_gives = { λ _ e. e ≡ fault.NoMemory };

    fn from(_error: NoMemory) -> OpenFault {
        OpenFault::NoMemory
    }
}
