// A hub as a desk that stores each event.
ghost use Rattle.std.specs.Prelude.{◌≡◌, length, false};
ghost use Rattle.record_file.specs.Files.{EndsAtGate};
ghost use Rattle.hub_journal.specs.Journal.{IsSound};

use crate::storing::store;
use conf_lex::{RepoName, UserName};
use event_record::{enter_record, look_record, permit_record, push_record};
use git_object::ObjectList;
use hub::{
    Desk, Entered, Hub, Judged, Looked, PermChange, Permitted, Pin, PushRequest, Pushed, Want,
};
use record_file::{Disk, RecordWriter};
use ref_store::CommandList;
use std::alloc::Global;
use wild_perms::PermsAnswer;

/// The only caller of a hub, whose number is 0, which stores each event on a disk before it returns.
///
/// Each call takes the memory of its record first, so that without memory nothing has changed. Once a call of
/// the disk has failed, the journal is broken: it goes on answering, makes no call of the disk, and stores
/// nothing.
#[derive(Drop)]
pub struct JournalHub<'a, Y: Disk> {
    disk: &'a mut Y,
    hub: &'a mut Hub,
    start: usize,
    writer: RecordWriter,
    stored: u64,
    ghost sound: { IsSound (record { hub = hub.now; start = start; store = record { stored = stored; writer = writer; disk = Y.state disk.now } }) },
}

impl<'a, Y: Disk> JournalHub<'a, Y> {
    /// A journal over the hub that was recovered from its disk, and the writer of its file.
    pub fn new(disk: &'a mut Y, hub: &'a mut Hub, writer: RecordWriter) -> JournalHub<'a, Y>
        requires unbroken { writer.broken ≡ false }
        requires at_gate { EndsAtGate writer (Y.state disk.old).size }
        ensures hub { result.hub.now ≡ hub.old }
        ensures start { result.start ≡ length hub.old.log }
        ensures stored { result.stored ≡ length hub.old.log }
        ensures writer { result.writer ≡ writer }
        ensures disk { Y.state result.disk.now ≡ Y.state disk.old }
        ensures same { result.disk.ghost_name ≡ disk.entry.ghost_name }
        ensures same_hub { result.hub.ghost_name ≡ hub.entry.ghost_name }
    {
        let start = hub.log().len();
        JournalHub {
            disk,
            hub,
            start,
            writer,
            stored: start as u64,
        }
    }

    /// Whether a call of the disk has failed.
    pub fn is_broken(&self) -> bool
        ensures { result ≡ self.now.writer.broken }
    {
        self.writer.is_broken()
    }

    /// How many events are stored for certain.
    pub fn stored(&self) -> u64
        ensures stored { result ≡ self.now.stored }
        ensures whole { self.now.writer.broken ≡ false → result ≡ length self.now.hub.now.log }
    {
        self.stored
    }

    pub fn hub(&self) -> &Hub
        ensures { result.now ≡ self.now.hub.now }
    {
        &*self.hub
    }
}

impl<'a, Y: Disk> Desk for JournalHub<'a, Y> {
    ghost use Rattle.hub.specs.Desk.{known_alone};
    ghost use Rattle.std.specs.Prelude.{refl};
    ghost use Rattle.std.proofs.Common.{◌∙◌};
    ghost use Rattle.hub_journal.specs.Journal.{Continues};

    ghost view = { λ j. known_alone j.start j.hub.now };

    ghost goes_on = { λ old new. (new.disk.ghost_name ≡ old.disk.ghost_name) × (new.hub.ghost_name ≡ old.hub.ghost_name) × Continues Y.is_modeled (record { hub = old.hub.now; start = old.start; store = record { stored = old.stored; writer = old.writer; disk = Y.state old.disk.now } }) (record { hub = new.hub.now; start = new.start; store = record { stored = new.stored; writer = new.writer; disk = Y.state new.disk.now } }) };

    fn enter(&mut self, alloc: Global, user: &UserName, repo: &RepoName, want: Want) -> Entered {
        let Ok(group) = enter_record(alloc, 0, user, repo, want) else {
            return Entered::NoMemory;
        };
        let before = self.hub.log().len();
        let answer = self.hub.enter(alloc, 0, user, repo, want);
        let count = self.hub.log().len();
        if before == count {
            return answer;
        }
        store(
            self.disk,
            &mut self.writer,
            &mut self.stored,
            &group,
            count as u64,
        );
        answer
    }

    fn push(
        &mut self,
        alloc: Global,
        pin: Pin,
        pack: ObjectList,
        commands: CommandList,
        atomic: bool,
        judged: Judged,
    ) -> Pushed {
        let Ok(group) = push_record(alloc, 0, pin.place(), &pack, &commands, atomic) else {
            return Pushed::NoMemory(pin);
        };
        let request = PushRequest {
            pack,
            commands,
            atomic,
        };
        let before = self.hub.log().len();
        let answer = self.hub.settle(alloc, 0, pin, request, judged);
        let count = self.hub.log().len();
        if before == count {
            return answer;
        }
        store(
            self.disk,
            &mut self.writer,
            &mut self.stored,
            &group,
            count as u64,
        );
        answer
    }

    fn permit(
        &mut self,
        alloc: Global,
        user: &UserName,
        repo: &RepoName,
        change: PermChange,
    ) -> Permitted {
        let Ok(group) = permit_record(alloc, 0, user, repo, &change) else {
            return PermsAnswer::NoMemory;
        };
        let before = self.hub.log().len();
        let answer = self.hub.permit(alloc, 0, user, repo, change);
        let count = self.hub.log().len();
        if before == count {
            return answer;
        }
        store(
            self.disk,
            &mut self.writer,
            &mut self.stored,
            &group,
            count as u64,
        );
        answer
    }

    fn look(&mut self, alloc: Global, user: &UserName) -> Looked {
        let Ok(group) = look_record(alloc, 0, user) else {
            return Looked::NoMemory;
        };
        let before = self.hub.log().len();
        let answer = self.hub.look(alloc, 0, user);
        let count = self.hub.log().len();
        if before == count {
            return answer;
        }
        store(
            self.disk,
            &mut self.writer,
            &mut self.stored,
            &group,
            count as u64,
        );
        answer
    }

    fn sound(&self) {
        // called for their clauses that the log is legal and that the admin is a user's name
        let _log = self.hub.log();
        let _name = self.hub.conf().admin().bytes();
    }

    ghost stays = { λ desk. (refl, refl, λ first on. on) };

    ghost composes = { λ a b c one more. (more.0 ∙ one.0, more.1 ∙ one.1, λ first on. more.2 first (one.2 first on)) };
}
