// Appending to a file of records.
ghost use Rattle.std.specs.Prelude.{◌≡◌, ◌⊎◌, ◌≤◌, ◌+◌, ◌++◌, List, ℕ, length, IsTrue, true, false, OnOk};
ghost use Rattle.base_types.specs.Counts.{HasRisen};
ghost use Rattle.record_file.specs.Crashes.{LeavesOnly};
ghost use Rattle.record_file.specs.Disks.{Counts};
ghost use Rattle.record_file.specs.Records.{HoldsAllOrNone, group_bytes};
ghost use Rattle.record_file.specs.Files.{EndsAtGate, IsDurable};

use crate::{Disk, DiskFault, RecordGroup};
use std::marker::Model;

/// Appends records to a file that was opened: it knows where the file ends. The disk is passed to each call.
#[derive(Drop)]
pub struct RecordWriter {
    end: u64,
    broken: bool,
}

impl Model for RecordWriter {
    ghost use Rattle.record_file.specs.Files.{WriterState};

    ghost Value = { WriterState };

    ghost view = { λ w. record { end = w.end; broken = w.broken } };
}

impl RecordWriter {
    // A writer behind a zero gate at this offset.
    pub(crate) fn at(end: u64) -> RecordWriter
        ensures { result ≡ record { end = end; broken = false } }
    {
        RecordWriter { end, broken: false }
    }

    /// Whether a call of the disk has failed in an append. Then the file has to be opened again.
    pub fn is_broken(&self) -> bool
        ensures { result ≡ self.now.broken }
    {
        self.broken
    }

    /// Appends a group of records as one. It takes no memory and makes four calls of the disk; once broken,
    /// none.
    pub fn append<D: Disk>(&mut self, disk: &mut D, group: &RecordGroup)
        requires { EndsAtGate self.old (D.state disk.old).size }
        ensures at_gate { EndsAtGate self.new (D.state disk.new).size }
        ensures end { self.new.broken ≡ false → self.new.end ≡ self.old.end + length (group_bytes group.now) }
        ensures fault { self.new.broken ≡ true → (self.old.broken ≡ true) ⊎ HasRisen (D.state disk.old).disk_faults (D.state disk.new).disk_faults }
        ensures no_fault { self.new.broken ≡ false → (D.state disk.new).disk_faults ≡ (D.state disk.old).disk_faults }
        ensures counted { (D.state disk.old).disk_faults ≤ (D.state disk.new).disk_faults }
        ensures stays_broken { self.old.broken ≡ true → (self.new ≡ self.old) × (disk.new ≡ disk.old) }
        ensures stored { IsTrue D.is_modeled → self.new.broken ≡ false → (head : List ℕ) (bodies : List (List ℕ))
            → IsDurable head bodies self.old.end (D.state disk.old).file
            → IsDurable head (bodies ++ group.now) self.new.end (D.state disk.new).file }
        ensures any_moment { IsTrue D.is_modeled → self.old.broken ≡ false → (head : List ℕ) (bodies : List (List ℕ))
            → IsDurable head bodies self.old.end (D.state disk.old).file
            → LeavesOnly (HoldsAllOrNone head bodies group.now) (D.state disk.old).file (D.state disk.new).file }
    {
        if self.broken {
            return;
        }
        match store(disk, self.end, group) {
            Ok(()) => self.end += group.written().len() as u64,
            Err(DiskFault) => self.broken = true,
        }
    }
}

// Stores a group behind the zero gate, and opens the gate once the group is on the disk.
fn store<D: Disk>(disk: &mut D, end: u64, group: &RecordGroup) -> Result<(), DiskFault>
    requires { (D.state disk.old).size ≡ end + 1 }
    ensures size { OnOk result ((D.state disk.new).size ≡ end + length (group_bytes group.now) + 1) }
    ensures counts { Counts result (D.state disk.old) (D.state disk.new) }
    ensures stored { OnOk result (IsTrue D.is_modeled → (head : List ℕ) (bodies : List (List ℕ))
        → IsDurable head bodies end (D.state disk.old).file
        → IsDurable head (bodies ++ group.now) (end + length (group_bytes group.now)) (D.state disk.new).file) }
    ensures any_moment { IsTrue D.is_modeled → (head : List ℕ) (bodies : List (List ℕ))
        → IsDurable head bodies end (D.state disk.old).file
        → LeavesOnly (HoldsAllOrNone head bodies group.now) (D.state disk.old).file (D.state disk.new).file }
{
    disk.write_at(end + 1, group.written())?;
    disk.sync()?;
    disk.write_at(end, &[1])?;
    disk.sync()?;
    Ok(())
}
