//! A file of records that survives a crash at any moment. It knows nothing of Git.
//!
//! - `disk`: what a disk with one file is, as a trait whose ghost members say what a crash may leave;
//! - `record_group`: records as they are written, and how they are built in one buffer;
//! - `writer`: appending a group of records to a file that is open;
//! - `reading`, `reader`: what a file's bytes say, and reading them record after record;
//! - `opening`: reading a file whole, from any file;
//! - `laws`: what holds of the form of the file itself;
//! - `overwriting`, `pending_data`, `history`, `memory_disk`: a disk over memory, which can be stopped after
//!   any call.
//!
//! The disk's model and the file's form are in plain words in `docs/JOURNAL.md`.
#![tactic(auto)]

ghost use Rattle.record_file.specs.Files.{EndsAtGate};
ghost use Rattle.record_file.specs.MemoryDisks.{state_of};
ghost use Rattle.record_file.specs.MemoryViews.{memory_of};

mod disk;
mod history;
mod laws;
mod memory_disk;
mod open_fault;
mod opening;
mod overwriting;
mod pending_data;
mod reader;
mod reading;
mod record_group;
mod stored_record;
mod writer;

pub use base_types::NoMemory;
pub use disk::{Disk, DiskFault};
pub use laws::hold_laws;
pub use memory_disk::MemoryDisk;
pub use open_fault::OpenFault;
pub use reader::RecordReader;
pub use record_group::{RecordBuilder, RecordGroup};
pub use stored_record::StoredRecord;
pub use writer::RecordWriter;

#[cfg(test)]
mod tests {
    use super::*;
    use std::alloc::Global;
    use std::test::Fail;

    const MAGIC: [u8; 4] = [70, 73, 76, 69];

    const NAME: [u8; 2] = [109, 101];

    fn append_twice(
        alloc: Global,
        disk: &mut MemoryDisk,
        mut writer: RecordWriter,
    ) -> Result<(), NoMemory>
        requires { EndsAtGate writer (state_of (memory_of disk.old)).size }
    {
        let first = RecordGroup::of(alloc, &[5, 6])?;
        writer.append(disk, &first);
        let mut builder = RecordBuilder::new(alloc)?;
        builder.push(7)?;
        builder.next_record()?;
        let second = builder.finish()?;
        writer.append(disk, &second);
        Ok(())
    }

    // Two appends on an empty disk: a record, and a group of two. The disk fails at these calls. Opening
    // makes five calls.
    fn two_appends(alloc: Global, failing: Vec<u64>) -> Result<MemoryDisk, NoMemory> {
        let mut disk = MemoryDisk::new(alloc, Vec::new(alloc), 64, failing)?;
        match RecordWriter::open(alloc, &mut disk, &MAGIC, &NAME) {
            Ok((writer, _records)) => append_twice(alloc, &mut disk, writer)?,
            Err(_fault) => {}
        }
        Ok(disk)
    }

    // How many records opening finds, or its fault.
    fn found(alloc: Global, disk: &mut MemoryDisk) -> Result<usize, OpenFault> {
        match RecordWriter::open(alloc, disk, &MAGIC, &NAME) {
            Ok((_, records)) => Ok(records.len()),
            Err(fault) => Err(fault),
        }
    }

    #[test]
    fn stopped_after_each_call(rt: HostRuntime) -> Result<(), Fail> {
        let alloc = rt.alloc();
        let disk = two_appends(alloc, Vec::new(alloc))?;
        for (calls, least, most) in [
            (5, 0, 0),
            (6, 0, 0),
            (7, 0, 0),
            (8, 0, 1),
            (9, 1, 1),
            (10, 1, 1),
            (11, 1, 1),
            (12, 1, 3),
            (13, 3, 3),
            (64, 3, 3),
        ] {
            for filler in [0, 255] {
                let mut left = disk.stopped(calls, filler)?;
                let count = found(alloc, &mut left).unwrap_or(9);
                assert!(rt; least <= count && count <= most);
            }
        }
        Ok(())
    }

    #[test]
    fn each_fault_of_opening(rt: HostRuntime) -> Result<(), Fail> {
        let alloc = rt.alloc();
        for (bytes, answer) in [
            (
                [70, 73, 0, 0, 0, 0, 0, 0, 0],
                Err(OpenFault::NotARecordFile),
            ),
            (
                [70, 73, 76, 69, 2, 109, 105, 0, 0],
                Err(OpenFault::NameDiffers),
            ),
            (
                [70, 73, 76, 69, 2, 109, 101, 1, 0],
                Err(OpenFault::BadRecord(7)),
            ),
            ([70, 73, 76, 69, 2, 109, 101, 0, 9], Ok(0)),
        ] {
            let mut disk = MemoryDisk::new(alloc, bytes.to_vec(alloc)?, 9, Vec::new(alloc))?;
            assert!(rt; found(alloc, &mut disk) == answer);
        }
        Ok(())
    }

    #[test]
    fn a_call_fails(rt: HostRuntime) -> Result<(), Fail> {
        let alloc = rt.alloc();
        for (number, count) in [
            (0, 0),
            (2, 0),
            (4, 0),
            (5, 0),
            (7, 0),
            (8, 1),
            (9, 1),
            (11, 1),
            (12, 3),
        ] {
            let disk = two_appends(alloc, vec![in alloc; number]?)?;
            let mut left = disk.stopped(64, 255)?;
            assert!(rt; found(alloc, &mut left) == Ok(count));
        }
        Ok(())
    }
}
