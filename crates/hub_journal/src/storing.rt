// Storing one event.
ghost use Rattle.record_file.specs.Files.{EndsAtGate};
ghost use Rattle.hub_journal.specs.Journal.{Stores};

use record_file::{Disk, RecordGroup, RecordWriter};

// Stores the record of an event, after which so many events are stored unless the disk failed.
pub(crate) fn store<Y: Disk>(
    disk: &mut Y,
    writer: &mut RecordWriter,
    stored: &mut u64,
    group: &RecordGroup,
    count: u64,
)
    requires { EndsAtGate writer.old (Y.state disk.old).size }
    ensures { Stores Y.is_modeled group.now count (record { stored = stored.old; writer = writer.old; disk = Y.state disk.old }) (record { stored = stored.new; writer = writer.new; disk = Y.state disk.new }) }
{
    writer.append(disk, group);
    if !writer.is_broken() {
        *stored = count;
    }
}
