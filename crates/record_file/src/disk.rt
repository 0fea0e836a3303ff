// A disk with one file, as contracts see it.
ghost use Rattle.std.specs.Prelude.{◌≡◌, ◌+◌, ◌^◌, ◌<◌, ◌≤◌, max, length, take, drop, Bool, IsTrue, IfOk, OnOk, Some, codes};
ghost use Rattle.record_file.specs.Crashes.{MayLeave};
ghost use Rattle.record_file.specs.Disks.{DiskState, Counts, Writes, Cuts, Syncs};

use std::error::Error;
use std::fmt;

/// A call of a disk has failed.
#[derive(Clone, Copy, Debug, PartialEq, Eq)]
pub struct DiskFault;

impl fmt::Display for DiskFault {
    ghost output = { λ _. Some (codes "disk failed") };

    fn fmt<W: fmt::Write>(&self, f: &mut fmt::Formatter<W>) -> fmt::Result {
        write!(f, "disk failed")
    }
}

impl Error for DiskFault {}

/// A disk with one file. A disk in memory tells what the file holds and what a crash may leave of it; a real
/// one tells its length and its failed calls alone.
pub trait Disk {
    /// Whether disks of this type tell the file.
    ghost is_modeled: { Bool };

    ghost state: { Self → DiskState };

    /// The length of the file.
    fn len(&mut self) -> Result<u64, DiskFault>
        ensures length { IfOk result (λ n. n ≡ (state self.old).size) }
        ensures size { (state self.new).size ≡ (state self.old).size }
        ensures counts { Counts result (state self.old) (state self.new) }
        ensures file { IsTrue is_modeled → (state self.new).file ≡ (state self.old).file };

    /// Fills the room with the bytes at a place.
    fn read(&mut self, at: u64, room: &mut [u8]) -> Result<(), DiskFault>
        requires { at + length room.old ≤ (state self.old).size }
        ensures read { OnOk result (IsTrue is_modeled → room.new ≡ take (length room.old) (drop at (state self.old).file.content)) }
        ensures size { (state self.new).size ≡ (state self.old).size }
        ensures counts { Counts result (state self.old) (state self.new) }
        ensures file { IsTrue is_modeled → (state self.new).file ≡ (state self.old).file };

    /// Writes over what is there, and past the end. A length that would reach 2^63 is a fault.
    fn write_at(&mut self, at: u64, piece: &[u8]) -> Result<(), DiskFault>
        requires { at ≤ (state self.old).size }
        ensures size { OnOk result ((state self.new).size ≡ max (state self.old).size (at + length piece.now)) }
        ensures counts { Counts result (state self.old) (state self.new) }
        ensures file { IsTrue is_modeled → Writes at piece.now result (state self.old).file (state self.new).file };

    /// Cuts the file to a length.
    fn cut(&mut self, len: u64) -> Result<(), DiskFault>
        requires { len ≤ (state self.old).size }
        ensures size { OnOk result ((state self.new).size ≡ len) }
        ensures counts { Counts result (state self.old) (state self.new) }
        ensures file { IsTrue is_modeled → Cuts len result (state self.old).file (state self.new).file };

    /// After it nothing is pending: a crash leaves what a read gives.
    fn sync(&mut self) -> Result<(), DiskFault>
        ensures size { (state self.new).size ≡ (state self.old).size }
        ensures counts { Counts result (state self.old) (state self.new) }
        ensures file { IsTrue is_modeled → Syncs result (state self.old).file (state self.new).file };

    ghost size_below: { (disk : Self) → (state disk).size < 2 ^ 63 };

    ghost size_told: { (disk : Self) → IsTrue is_modeled → length (state disk).file.content ≡ (state disk).size };

    /// What a read gives is one of the files that a crash may leave.
    ghost content_may_stay: { (disk : Self) → IsTrue is_modeled → MayLeave (state disk).file.pending (state disk).file.content };
}
