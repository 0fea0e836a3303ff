// The hub of a journal's file.
ghost use Rattle.std.specs.Prelude.{◌≡◌, ◌++◌, ◌∷◌, [], ℕ, List, false, IsTrue, IfOk, IfErr, OnOk};
ghost use Rattle.hub_history.specs.History.{IsLegal};
ghost use Rattle.record_file.specs.Crashes.{Leaves, LeavesOnly};
ghost use Rattle.record_file.specs.Files.{EndsAtGate, IsDurable};
ghost use Rattle.record_file.specs.Reading.{IsAtGate, IsClosedAt, IsReadTo};
ghost use Rattle.record_file.specs.Records.{Holds, HoldsAllOrNone};
ghost use Rattle.hub_journal.specs.Events.{AreStorableEntries, bodies_in, head_for};
ghost use Rattle.hub_journal.specs.LastPushes.{TellsPushes};
ghost use Rattle.hub_journal.specs.Replay.{last_push};
ghost use Rattle.hub_journal.specs.Recovery.{AreEventsOf, IsNoJournal, RefusesEvents, RefusesRecord, ReportsFaults, journal_fault};

use crate::last_pushes::find_last_pushes;
use crate::{OpenFault, Replay, ReplayFault};
use conf_lex::UserName;
use event_record::{BodyFault, read_body};
use hub::Hub;
use record_file::{Disk, RecordReader, RecordWriter, StoredRecord};
use std::alloc::Global;

// The first bytes of a journal.
const MAGIC: &[u8] = b"GITOLOG1";

/// The hub that a journal's file leads to, and where the file ends.
#[derive(Drop)]
pub struct Recovered {
    pub(crate) hub: Hub,
    pub(crate) writer: RecordWriter,
}

impl Recovered {
    /// The hub, and the writer of its file, as a journal takes them.
    pub fn into_parts(self) -> (Hub, RecordWriter)
        ensures hub { result.0 ≡ self.hub }
        ensures writer { result.1 ≡ self.writer }
    {
        let Recovered { hub, writer } = self;
        (hub, writer)
    }

    /// The hub, where nothing more is to be stored.
    pub fn into_hub(self) -> Hub
        ensures { result ≡ self.hub }
    {
        let Recovered { hub, writer: _ } = self;
        hub
    }
}

/// Makes the hub of an admin's journal again, from any file that a crash may have left. An empty file is made
/// a journal without events. What follows the last record is cut off.
///
/// It reads the front of each record first, to know after which openings there are pushes, and then one
/// record after the other: beside the hub one record is in memory, and a pin of each opening whose last push
/// is still to come. It may be stopped at any moment and begun again.
pub fn recover<Y: Disk>(
    alloc: Global,
    disk: &mut Y,
    admin: &UserName,
) -> Result<Recovered, OpenFault>
    ensures faults { ReportsFaults result (Y.state disk.old) (Y.state disk.new) }
    ensures admin { IfOk result (λ r. r.hub.admin ≡ admin.now) }
    ensures legal { IfOk result (λ r. IsLegal r.hub.admin r.hub.log) }
    ensures unbroken { IfOk result (λ r. r.writer.broken ≡ false) }
    ensures at_gate { IfOk result (λ r. EndsAtGate r.writer (Y.state disk.new).size) }
    ensures found { IfOk result (λ r. IsTrue Y.is_modeled → AreEventsOf admin.now r.hub.log (Y.state disk.old).file.content) }
    ensures storable { IfOk result (λ r. AreStorableEntries r.hub.log) }
    ensures durable { IfOk result (λ r. IsTrue Y.is_modeled → IsDurable (head_for r.hub.admin) (bodies_in r.hub.log) r.writer.end (Y.state disk.new).file) }
    ensures refused { IfErr result (λ fault. IsTrue Y.is_modeled → IsNoJournal admin.now (Y.state disk.old).file.content fault) }
    ensures any_moment { IsTrue Y.is_modeled → (bodies : List (List ℕ))
        → Leaves (Holds (head_for admin.now) bodies) (Y.state disk.old).file.pending
        → LeavesOnly (Holds (head_for admin.now) bodies) (Y.state disk.old).file (Y.state disk.new).file }
    ensures any_moment_group { IsTrue Y.is_modeled → (bodies more : List (List ℕ))
        → Leaves (HoldsAllOrNone (head_for admin.now) bodies more) (Y.state disk.old).file.pending
        → LeavesOnly (HoldsAllOrNone (head_for admin.now) bodies more) (Y.state disk.old).file (Y.state disk.new).file }
{
    let name = admin.bytes();
    let mut reader = match RecordReader::start(alloc, disk, MAGIC, name) {
        Ok(reader) => reader,
        Err(fault) => return Err(fault_of(fault)),
    };
    let last_pushes = match find_last_pushes(alloc, disk, reader) {
        Ok(last_pushes) => last_pushes,
        Err(fault) => return Err(fault),
    };
    let replay = Replay::start(alloc, admin, last_pushes)?;
    let hub = match replay_all(alloc, disk, &mut reader, replay) {
        Ok(hub) => hub,
        Err(fault) => return Err(fault),
    };
    match reader.finish(disk) {
        Ok(writer) => Ok(Recovered { hub, writer }),
        Err(_fault) => Err(OpenFault::DiskFault),
    }
}

// The fault of a file of records, as one of a journal.
pub(crate) fn fault_of(fault: record_file::OpenFault) -> OpenFault
    ensures { result ≡ journal_fault fault }
{
    match fault {
        record_file::OpenFault::NotARecordFile => OpenFault::NotAJournal,
        record_file::OpenFault::NameDiffers => OpenFault::OtherAdmin,
        record_file::OpenFault::BadRecord(offset) => OpenFault::BadRecord(offset),
        record_file::OpenFault::DiskFault => OpenFault::DiskFault,
        record_file::OpenFault::NoMemory => OpenFault::NoMemory,
    }
}

// The hub of all records, from the reader's gate on.
fn replay_all<Y: Disk>(
    alloc: Global,
    disk: &mut Y,
    reader: &mut RecordReader,
    replay: Replay,
) -> Result<Hub, OpenFault>
    requires at_gate { IsAtGate reader.old (Y.state disk.old).size }
    requires new { replay.hub.log ≡ [] }
    ensures faults { ReportsFaults result (Y.state disk.old) (Y.state disk.new) }
    ensures at_gate { IsAtGate reader.new (Y.state disk.new).size }
    ensures file { IsTrue Y.is_modeled → (Y.state disk.new).file ≡ (Y.state disk.old).file }
    ensures admin { IfOk result (λ hub. hub.admin ≡ replay.hub.admin) }
    ensures legal { IfOk result (λ hub. IsLegal hub.admin hub.log) }
    ensures storable { IfOk result (λ hub. AreStorableEntries hub.log) }
    ensures read { IfOk result (λ hub. IsTrue Y.is_modeled → (head : List ℕ) → IsReadTo head [] (Y.state disk.old).file.content reader.old.offset → IsReadTo head (bodies_in hub.log) (Y.state disk.old).file.content reader.new.offset) }
    ensures closed { OnOk result (IsTrue Y.is_modeled → IsClosedAt (Y.state disk.old).file.content reader.new.offset) }
    ensures refused { IfErr result (λ fault. IsTrue Y.is_modeled → IsReadTo (head_for replay.hub.admin) [] (Y.state disk.old).file.content reader.old.offset
        → TellsPushes (head_for replay.hub.admin) (Y.state disk.old).file.content (last_push replay.last_pushes) → RefusesEvents replay.hub.admin (Y.state disk.old).file.content fault) }
{
    let mut replay = replay;
    // Openings and pushes mostly take turns, so each record is read where the one before the last was: a
    // buffer keeps its length, and has no new bytes to fill.
    let mut buffer = Vec::new(alloc);
    let mut other = Vec::new(alloc);
    loop {
        let next = match reader.next_record(disk, buffer) {
            Ok(next) => next,
            Err(fault) => return Err(fault_of(fault)),
        };
        let Some(record) = next else {
            let hub = replay.into_hub();
            // called for its clause that the log is legal
            let _log = hub.log();
            return Ok(hub);
        };
        replay = match replay_record(alloc, replay, &record) {
            Ok(replay) => replay,
            Err(fault) => return Err(fault),
        };
        buffer = other;
        other = record.body.into_bytes();
    }
}

fn replay_record(alloc: Global, replay: Replay, stored: &StoredRecord) -> Result<Replay, OpenFault>
    ensures admin { IfOk result (λ after. after.hub.admin ≡ replay.hub.admin) }
    ensures last_pushes { IfOk result (λ after. after.last_pushes ≡ replay.last_pushes) }
    ensures legal { IfOk result (λ after. IsLegal after.hub.admin after.hub.log) }
    ensures event { IfOk result (λ after. bodies_in after.hub.log ≡ bodies_in replay.hub.log ++ stored.now.body ∷ []) }
    ensures storable { IfOk result (λ after. AreStorableEntries replay.hub.log → AreStorableEntries after.hub.log) }
    ensures refused { IfErr result (λ fault. RefusesRecord replay stored.now fault) }
{
    // called for its clause that the front of a push's body says after which opening it is, which the proof
    // cites
    event_record::hold_laws();
    let request = match read_body(alloc, stored.body.bytes()) {
        Ok(request) => request,
        Err(BodyFault::BadBody) => return Err(OpenFault::BadRecord(stored.offset)),
        Err(BodyFault::NoMemory) => return Err(OpenFault::NoMemory),
    };
    match replay.next(alloc, request) {
        Ok(replay) => Ok(replay),
        Err(ReplayFault::Impossible) => Err(OpenFault::BadRecord(stored.offset)),
        Err(ReplayFault::NoMemory) => Err(OpenFault::NoMemory),
    }
}
