// Why a file wasn't opened.
ghost use Rattle.std.specs.Prelude.{◌≡◌, Some};
ghost use Rattle.record_file.specs.Faults.{fault_text};
ghost use Rattle.record_file.specs.declared.open_fault.OpenFault.TheVariants as fault;

use crate::{DiskFault, NoMemory};
use std::error::Error;
use std::fmt;

/// Why a file wasn't opened.
#[derive(Clone, Copy, Debug, PartialEq, Eq)]
pub enum OpenFault {
    /// The file isn't empty and doesn't begin with a head and one byte behind it.
    NotARecordFile,
    /// The head has another name.
    NameDiffers,
    /// The gate at this offset isn't zero, and no whole record with a byte behind it follows.
    BadRecord(u64),
    /// A call of the disk failed.
    DiskFault,
    NoMemory,
}

impl fmt::Display for OpenFault {
    ghost output = { λ fault. Some (fault_text fault) };

    fn fmt<W: fmt::Write>(&self, f: &mut fmt::Formatter<W>) -> fmt::Result {
        match self {
            OpenFault::NotARecordFile => write!(f, "not a record file"),
            OpenFault::NameDiffers => write!(f, "name differs"),
            OpenFault::BadRecord(offset) => write!(f, "bad record at {offset}"),
            OpenFault::DiskFault => write!(f, "disk failed"),
            OpenFault::NoMemory => write!(f, "out of memory"),
        }
    }
}

impl Error for OpenFault {}

impl From<DiskFault> for OpenFault {
    ghost from_gives = { λ _ e. e ≡ fault.DiskFault };

    fn from(_fault: DiskFault) -> OpenFault {
        OpenFault::DiskFault
    }
}

impl From<NoMemory> for OpenFault {
    ghost from_gives = { λ _ e. e ≡ fault.NoMemory };

    fn from(_error: NoMemory) -> OpenFault {
        OpenFault::NoMemory
    }
}
