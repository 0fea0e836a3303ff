// After which openings the file of a journal has pushes.
ghost use Rattle.std.specs.Prelude.{◌≡◌, ◌<◌, ◌^◌, [], ℕ, List, IsTrue, IfOk, IfErr, OnOk};
ghost use Rattle.ref_store.specs.Refs.{Name};
ghost use Rattle.record_file.specs.Reading.{IsAtGate, IsReadTo};
ghost use Rattle.event_record.specs.Fronts.{place_at};
ghost use Rattle.hub_journal.specs.LastPushes.{FindsFront, MovesOn, TellsPushes, noted};
ghost use Rattle.hub_journal.specs.Recovery.{IsNoJournal, ReportsFaults};
ghost use Rattle.hub_journal.specs.Replay.{last_push};

use crate::{NoMemory, OpenFault};
use event_record::{PUSH_FRONT, push_place};
use record_file::{Disk, RecordReader, StoredRecord};
use std::alloc::Global;
use std::collections::BTreeMap;

// For each opening after which there is a push among the records from the reader's gate on, the place in the
// log of the last one. It reads the front of each record, up to what is no record.
pub(crate) fn find_last_pushes<Y: Disk>(
    alloc: Global,
    disk: &mut Y,
    reader: RecordReader,
) -> Result<BTreeMap<u64, u64>, OpenFault>
    requires { IsAtGate reader (Y.state disk.old).size }
    ensures faults { ReportsFaults result (Y.state disk.old) (Y.state disk.new) }
    ensures size { (Y.state disk.new).size ≡ (Y.state disk.old).size }
    ensures file { IsTrue Y.is_modeled → (Y.state disk.new).file ≡ (Y.state disk.old).file }
    ensures found { IfOk result (λ last_pushes. IsTrue Y.is_modeled → (head : List ℕ) → IsReadTo head [] (Y.state disk.old).file.content reader.offset → TellsPushes head (Y.state disk.old).file.content (last_push last_pushes.entries)) }
    ensures refused { IfErr result (λ fault. IsTrue Y.is_modeled → (admin : Name) (file : List ℕ) → IsNoJournal admin file fault) }
{
    let mut reader = reader;
    let mut last_pushes = BTreeMap::new(alloc);
    let mut place = 0;
    loop {
        let front = match next_front(alloc, disk, &mut reader) {
            Ok(front) => front,
            Err(fault) => return Err(fault),
        };
        let Some(front) = front else {
            return Ok(last_pushes);
        };
        note_push(&mut last_pushes, front.body.bytes(), place)?;
        place += 1;
    }
}

// The front of the next record, or `None` where there is no whole one.
fn next_front<Y: Disk>(
    alloc: Global,
    disk: &mut Y,
    reader: &mut RecordReader,
) -> Result<Option<StoredRecord>, OpenFault>
    requires { IsAtGate reader.old (Y.state disk.old).size }
    ensures faults { ReportsFaults result (Y.state disk.old) (Y.state disk.new) }
    ensures at_gate { IsAtGate reader.new (Y.state disk.new).size }
    ensures size { reader.new.size ≡ reader.old.size }
    ensures file { IsTrue Y.is_modeled → (Y.state disk.new).file ≡ (Y.state disk.old).file }
    ensures moves { IfOk result (λ front. MovesOn front reader.old reader.new) }
    ensures reads { IfOk result (λ front. IsTrue Y.is_modeled → FindsFront (Y.state disk.old).file.content reader.old.offset reader.new.offset front) }
    ensures refused { IfErr result (λ fault. IsTrue Y.is_modeled → (admin : Name) (file : List ℕ) → IsNoJournal admin file fault) }
{
    match reader.next_front(alloc, disk, PUSH_FRONT) {
        Ok(front) => Ok(front),
        Err(record_file::OpenFault::BadRecord(_)) => Ok(None),
        Err(record_file::OpenFault::NotARecordFile) => Err(OpenFault::NotAJournal),
        Err(record_file::OpenFault::NameDiffers) => Err(OpenFault::OtherAdmin),
        Err(record_file::OpenFault::DiskFault) => Err(OpenFault::DiskFault),
        Err(record_file::OpenFault::NoMemory) => Err(OpenFault::NoMemory),
    }
}

// Notes that the record of which this is the front, at this place of the log, is the last push so far after
// its opening.
fn note_push(last_pushes: &mut BTreeMap<u64, u64>, front: &[u8], place: u64) -> Result<(), NoMemory>
    ensures { OnOk result ((q : ℕ) → last_push last_pushes.new.entries q ≡ noted (place_at front.now) place (last_push last_pushes.old.entries) q) }
{
    let Some(opening) = push_place(front) else {
        return Ok(());
    };
    let Ok(_) = last_pushes.insert(opening, place) else {
        return Err(NoMemory);
    };
    Ok(())
}
