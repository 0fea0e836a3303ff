// Why bytes are no body of a kind.
ghost use Rattle.std.specs.Prelude.{◌≡◌, Some};
ghost use Rattle.git_object.specs.Faults.{fault_text};

use base_types::NoMemory;
use std::alloc::{AllocError, AllocFailed};
use std::error::Error;
use std::fmt;

/// Why bytes are no body of a kind. The number is where the first line or entry that breaks the form begins,
/// counted in bytes from the body's first.
#[derive(Clone, Copy, Debug, PartialEq, Eq)]
pub enum ObjFault {
    BadCommit(u32),
    BadTree(u32),
    BadTag(u32),
    NoMemory,
}

impl fmt::Display for ObjFault {
    ghost output = { λ fault. Some (fault_text fault) };

    fn fmt<W: fmt::Write>(&self, f: &mut fmt::Formatter<W>) -> fmt::Result {
        match self {
            ObjFault::BadCommit(at) => write!(f, "bad commit at byte {at}"),
            ObjFault::BadTree(at) => write!(f, "bad tree at byte {at}"),
            ObjFault::BadTag(at) => write!(f, "bad tag at byte {at}"),
            ObjFault::NoMemory => write!(f, "out of memory"),
        }
    }
}

impl Error for ObjFault {}

impl From<NoMemory> for ObjFault {
    ghost use Rattle.git_object.specs.declared.fault.ObjFault.TheVariants as fault;

    ghost from_gives = { λ _ e. e ≡ fault.NoMemory };

    fn from(_error: NoMemory) -> ObjFault {
        ObjFault::NoMemory
    }
}

impl From<AllocError> for ObjFault {
    ghost use Rattle.git_object.specs.declared.fault.ObjFault.TheVariants as fault;

    ghost from_gives = { λ _ e. e ≡ fault.NoMemory };

    fn from(_error: AllocError) -> ObjFault {
        ObjFault::NoMemory
    }
}

impl<T: Drop> From<AllocFailed<T>> for ObjFault {
    ghost use Rattle.git_object.specs.declared.fault.ObjFault.TheVariants as fault;

    ghost from_gives = { λ _ e. e ≡ fault.NoMemory };

    fn from(_error: AllocFailed<T>) -> ObjFault {
        ObjFault::NoMemory
    }
}
