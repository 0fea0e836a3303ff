// Opening a file of records.
ghost use Rattle.std.specs.Prelude.{◌≡◌, ◌<◌, [], List, ℕ, length, IsTrue, false, IfOk, IfErr};
ghost use Rattle.record_file.specs.Crashes.{Leaves, LeavesOnly};
ghost use Rattle.record_file.specs.Records.{head_of, Holds, HoldsAllOrNone};
ghost use Rattle.record_file.specs.Reading.{IsRefused, IsBadRecord, IsReadTo, IsClosedAt, IsAtGate};
ghost use Rattle.record_file.specs.Opening.{ReportsFaults, IsStarted, IsTooShort, AreRecordsOf, bodies_of, with_offsets};
ghost use Rattle.record_file.specs.Files.{EndsAtGate, IsDurable};

use crate::{Disk, OpenFault, RecordReader, RecordWriter, StoredRecord};
use base_types::ItemList;
use std::alloc::Global;

impl RecordWriter {
    /// Opens a file that a crash may have left: reads all its records, and cuts off what follows its first
    /// zero gate. An empty file is made one of no records. It may be stopped at any moment and begun again.
    pub fn open<D: Disk>(
        alloc: Global,
        disk: &mut D,
        magic: &[u8],
        name: &[u8],
    ) -> Result<(RecordWriter, ItemList<StoredRecord>), OpenFault>
        requires { length name.now < 256 }
        ensures faults { ReportsFaults result (D.state disk.old) (D.state disk.new) }
        ensures unbroken { IfOk result (λ opened. opened.0.broken ≡ false) }
        ensures at_gate { IfOk result (λ opened. EndsAtGate opened.0 (D.state disk.new).size) }
        ensures offsets { IfOk result (λ opened. opened.1 ≡ with_offsets (length (head_of magic.now name.now)) (bodies_of opened.1)) }
        ensures found { IfOk result (λ opened. IsTrue D.is_modeled → AreRecordsOf (head_of magic.now name.now) opened.1 (D.state disk.old).file.content) }
        ensures durable { IfOk result (λ opened. IsTrue D.is_modeled → IsDurable (head_of magic.now name.now) (bodies_of opened.1) opened.0.end (D.state disk.new).file) }
        ensures refused { IfErr result (λ fault. IsTrue D.is_modeled → IsRefused magic.now name.now (D.state disk.old).file.content fault) }
        ensures any_moment { IsTrue D.is_modeled → (bodies : List (List ℕ))
            → Leaves (Holds (head_of magic.now name.now) bodies) (D.state disk.old).file.pending
            → LeavesOnly (Holds (head_of magic.now name.now) bodies) (D.state disk.old).file (D.state disk.new).file }
        ensures any_moment_group { IsTrue D.is_modeled → (bodies more : List (List ℕ))
            → Leaves (HoldsAllOrNone (head_of magic.now name.now) bodies more) (D.state disk.old).file.pending
            → LeavesOnly (HoldsAllOrNone (head_of magic.now name.now) bodies more) (D.state disk.old).file (D.state disk.new).file }
    {
        let mut reader = match RecordReader::start(alloc, disk, magic, name) {
            Ok(reader) => reader,
            Err(fault) => return Err(fault),
        };
        let records = match read_all(alloc, disk, &mut reader) {
            Ok(records) => records,
            Err(fault) => return Err(fault),
        };
        match reader.finish(disk) {
            Ok(writer) => Ok((writer, records)),
            Err(fault) => Err(OpenFault::from(fault)),
        }
    }
}

// All records from the reader's gate on.
fn read_all<D: Disk>(
    alloc: Global,
    disk: &mut D,
    reader: &mut RecordReader,
) -> Result<ItemList<StoredRecord>, OpenFault>
    requires { IsAtGate reader.old (D.state disk.old).size }
    ensures faults { ReportsFaults result (D.state disk.old) (D.state disk.new) }
    ensures at_gate { IsAtGate reader.new (D.state disk.new).size }
    ensures file { IsTrue D.is_modeled → (D.state disk.new).file ≡ (D.state disk.old).file }
    ensures offsets { IfOk result (λ records. records ≡ with_offsets reader.old.offset (bodies_of records)) }
    ensures read { IfOk result (λ records. IsTrue D.is_modeled → (head : List ℕ) → IsReadTo head [] (D.state disk.old).file.content reader.old.offset → IsReadTo head (bodies_of records) (D.state disk.old).file.content reader.new.offset) }
    ensures closed { IfOk result (λ records. IsTrue D.is_modeled → IsClosedAt (D.state disk.old).file.content reader.new.offset) }
    ensures refused { IfErr result (λ fault. IsTrue D.is_modeled → (head : List ℕ) → IsReadTo head [] (D.state disk.old).file.content reader.old.offset → IsBadRecord head (D.state disk.old).file.content fault) }
{
    let mut records = ItemList::new(alloc);
    loop {
        let next = match reader.next_record(disk, Vec::new(alloc)) {
            Ok(next) => next,
            Err(fault) => return Err(fault),
        };
        let Some(record) = next else {
            return Ok(records);
        };
        records.push(record)?;
    }
}
