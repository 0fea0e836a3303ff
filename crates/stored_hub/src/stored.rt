// A hub, and the disk on which those of its events are stored that last.
ghost use Rattle.std.specs.Prelude.{◌≡◌, drop, length, take, false};
ghost use Rattle.std.proofs.Props.{props};
ghost use Rattle.record_file.specs.Files.{EndsAtGate};
ghost use Rattle.hub_journal.specs.Events.{bodies_in};
ghost use Rattle.lasting_events.specs.Lasting.{lasting_behind, lasting_places};
ghost use Rattle.stored_hub.specs.Stored.{HasStored, bodies_waiting};

use crate::account::FileAccount;
use hub::{EntryList, Hub};
use record_file::{Disk, RecordWriter};
use std::alloc::Global;

/// A hub of which each event that changed something is stored on a disk before it is answered: an opening that
/// made its repository, a push of which a command is done, and a change of roles that is done. A granted
/// opening for writing, which a push may name, is stored with the next of those, or once 64 of them wait. No
/// other event is stored, nor makes a call of the disk.
///
/// Each call that may store takes the memory for it first. Where a call of the disk fails, the event is not
/// answered, and the hub has stopped: each further call answers that there is no memory, makes no event and
/// no call of the disk.
#[derive(Drop)]
pub struct StoredHub<Y: Disk> {
    pub(crate) disk: Y,
    // behind the answered events it has at most one more, at which a call of the disk failed
    pub(crate) hub: Hub,
    pub(crate) writer: RecordWriter,
    // how many events the file had at first
    pub(crate) start: u64,
    // how many events are answered
    pub(crate) stored: u64,
    pub(crate) account: FileAccount,
    ghost sound: { HasStored (record { hub = hub; start = start; written = account.written; store = record { stored = stored; writer = writer; disk = Y.state disk } }) } by { Prim.hlevel props },
    ghost listed: { account.places.items ≡ lasting_places start (take stored hub.log) },
    ghost waiting: { bodies_waiting account.queue.items ≡ bodies_in (lasting_behind start (take account.written hub.log) (drop account.written (take stored hub.log))) },
}

/// What a hub leaves.
#[derive(Drop)]
pub struct StoredParts<Y> {
    /// The events that were answered, and at most one more, which wasn't.
    pub log: EntryList,
    /// How many events of the log were answered. Each of them that changed something is stored for certain.
    pub stored: u64,
    pub disk: Y,
    /// Whether a call of the disk has failed.
    pub is_broken: bool,
}

impl<Y: Disk> StoredHub<Y> {
    /// The hub that was recovered from this disk, and the writer of its file.
    pub fn new(alloc: Global, disk: Y, hub: Hub, writer: RecordWriter) -> StoredHub<Y>
        requires unbroken { writer.broken ≡ false }
        requires at_gate { EndsAtGate writer (Y.state disk).size }
        ensures hub { result.hub ≡ hub }
        ensures start { result.start ≡ length hub.log }
        ensures written { result.account.written ≡ length hub.log }
        ensures stored { result.stored ≡ length hub.log }
        ensures writer { result.writer ≡ writer }
        ensures disk { result.disk ≡ disk }
    {
        let start = hub.log().len() as u64;
        StoredHub {
            disk,
            hub,
            writer,
            start,
            stored: start,
            account: FileAccount {
                written: start,
                places: Vec::new(alloc),
                queue: Vec::new(alloc),
            },
        }
    }

    /// The log, and the disk.
    pub fn into_parts(self) -> StoredParts<Y>
        ensures log { result.log ≡ self.hub.log }
        ensures stored { result.stored ≡ self.stored }
        ensures disk { result.disk ≡ self.disk }
        ensures broken { result.is_broken ≡ self.writer.broken }
        ensures sound { HasStored (record { hub = self.hub; start = self.start; written = self.account.written; store = record { stored = result.stored; writer = self.writer; disk = Y.state result.disk } }) }
    {
        let StoredHub {
            disk,
            hub,
            writer,
            start: _,
            stored,
            account: _,
        } = self;
        StoredParts {
            log: hub.into_log(),
            stored,
            disk,
            is_broken: writer.is_broken(),
        }
    }
}
