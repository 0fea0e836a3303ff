// Why a pack wasn't read.
ghost use Rattle.std.specs.Prelude.{◌≡◌, Some};
ghost use Rattle.raw_pack.specs.Faults.{fault_text};

use base_types::NoMemory;
use std::alloc::{AllocError, AllocFailed};
use std::error::Error;
use std::fmt;

/// Why a pack wasn't read. Entries count from 0.
#[derive(Clone, Copy, Debug, PartialEq, Eq)]
pub enum PackFault {
    /// The first four bytes aren't `PACK`.
    NotAPack,
    /// Another version than 2.
    Version(u32),
    /// An entry is a delta.
    Delta(u32),
    /// An entry's head has no kind, or isn't the shortest spelling.
    BadHead(u32),
    /// An entry's body isn't of the form of its kind.
    BadObject(u32),
    /// The input ended in this entry; in the trailer, this is the count; in the first twelve bytes, 0.
    Truncated(u32),
    /// The trailer isn't the SHA-1 of all before it.
    TrailerDiffers { read: [u8; 20], computed: [u8; 20] },
    /// An entry's body, or all bodies up to it, are too large.
    TooLarge(u32),
    /// The count is above 100,000.
    TooMany(u32),
    /// The source failed.
    ReadFault,
    NoMemory,
}

impl fmt::Display for PackFault {
    ghost output = { λ fault. Some (fault_text fault) };

    fn fmt<W: fmt::Write>(&self, f: &mut fmt::Formatter<W>) -> fmt::Result {
        match self {
            PackFault::NotAPack => write!(f, "not a pack"),
            PackFault::Version(number) => write!(f, "version {number}"),
            PackFault::Delta(entry) => write!(f, "delta at entry {entry}"),
            PackFault::BadHead(entry) => write!(f, "bad head at entry {entry}"),
            PackFault::BadObject(entry) => write!(f, "bad object at entry {entry}"),
            PackFault::Truncated(entry) => write!(f, "truncated at entry {entry}"),
            PackFault::TrailerDiffers { .. } => write!(f, "trailer differs"),
            PackFault::TooLarge(entry) => write!(f, "too large at entry {entry}"),
            PackFault::TooMany(_) => write!(f, "too many entries"),
            PackFault::ReadFault => write!(f, "read failed"),
            PackFault::NoMemory => write!(f, "out of memory"),
        }
    }
}

impl Error for PackFault {}

impl From<NoMemory> for PackFault {
    ghost use Rattle.raw_pack.specs.declared.fault.PackFault.TheVariants as fault;

    ghost from_gives = { λ _ e. e ≡ fault.NoMemory };

    fn from(_error: NoMemory) -> PackFault {
        PackFault::NoMemory
    }
}

impl From<AllocError> for PackFault {
    ghost use Rattle.raw_pack.specs.declared.fault.PackFault.TheVariants as fault;

    ghost from_gives = { λ _ e. e ≡ fault.NoMemory };

    fn from(_error: AllocError) -> PackFault {
        PackFault::NoMemory
    }
}

impl<T: Drop> From<AllocFailed<T>> for PackFault {
    ghost use Rattle.raw_pack.specs.declared.fault.PackFault.TheVariants as fault;

    ghost from_gives = { λ _ e. e ≡ fault.NoMemory };

    fn from(_error: AllocFailed<T>) -> PackFault {
        PackFault::NoMemory
    }
}
