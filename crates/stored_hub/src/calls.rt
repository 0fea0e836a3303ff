// The calls of a hub of which the events that last are stored.
use crate::NoMemory;
use crate::account::{lasts_at, put_off, ready_enter, ready_permit, ready_push, store_event};
use crate::stored::StoredHub;
use conf_lex::{RepoName, UserName};
use hub::{Entered, Judged, Looked, PermChange, Permitted, Pin, PushRequest, Pushed, Want};
use lasting_events::place_among;
use record_file::Disk;
use shared_hub::EventHub;
use std::alloc::Global;
use wild_perms::{PermsAnswer, Wild};

impl<Y: Disk> EventHub for StoredHub<Y> {
    ghost use Rattle.std.specs.Prelude.{true};
    ghost use Rattle.stored_hub.specs.Stored.{ContinuesStored, answered};

    ghost view = { λ h. answered (record { hub = h.hub; start = h.start; written = h.account.written; store = record { stored = h.stored; writer = h.writer; disk = Y.state h.disk } }) };

    ghost goes_on = { λ old new. ContinuesStored Y.is_modeled (record { hub = old.hub; start = old.start; written = old.account.written; store = record { stored = old.stored; writer = old.writer; disk = Y.state old.disk } }) (record { hub = new.hub; start = new.start; written = new.account.written; store = record { stored = new.stored; writer = new.writer; disk = Y.state new.disk } }) };

    ghost may_stop = { true };

    fn enter(
        &mut self,
        alloc: Global,
        caller: u64,
        user: &UserName,
        repo: &RepoName,
        want: Want,
    ) -> Entered {
        // called for its clause that the log is legal
        let _log = self.hub.log();
        if self.writer.is_broken() {
            return Entered::NoMemory;
        }
        let account = &mut self.account;
        let Ok((group, queued)) = ready_enter(alloc, account, caller, user, repo, want) else {
            return Entered::NoMemory;
        };
        let answer = self.hub.enter(alloc, caller, user, repo, want);
        let after = self.hub.log();
        if put_off(&mut self.stored, &mut self.account, after, queued) {
            return answer;
        }
        let is_lasting = lasts_at(after, self.stored);
        let count = after.len() as u64;
        let is_stored = store_event(
            &mut self.disk,
            &mut self.writer,
            &mut self.stored,
            &mut self.account,
            &group,
            is_lasting,
            count,
        );
        if !is_stored {
            return Entered::NoMemory;
        }
        answer
    }

    fn wild_to_judge(
        &self,
        alloc: Global,
        pin: &Pin,
        judged: &Judged,
    ) -> Result<Option<Wild>, NoMemory> {
        if self.writer.is_broken() {
            return Ok(None);
        }
        self.hub.wild_to_judge(alloc, pin, judged)
    }

    fn settle(
        &mut self,
        alloc: Global,
        caller: u64,
        pin: Pin,
        request: PushRequest,
        judged: Judged,
    ) -> Pushed {
        // its clause that the log is legal is needed where nothing is done, too
        let log = self.hub.log();
        if self.writer.is_broken() {
            return Pushed::NoMemory(pin);
        }
        let place = place_among(self.start, self.account.places.as_slice(), log, pin.place());
        let account = &mut self.account;
        let Ok((group, same_pin)) = ready_push(alloc, account, caller, place, &pin, &request) else {
            return Pushed::NoMemory(pin);
        };
        let answer = self.hub.settle(alloc, caller, pin, request, judged);
        let after = self.hub.log();
        let is_lasting = lasts_at(after, self.stored);
        let count = after.len() as u64;
        let is_stored = store_event(
            &mut self.disk,
            &mut self.writer,
            &mut self.stored,
            &mut self.account,
            &group,
            is_lasting,
            count,
        );
        if !is_stored {
            return Pushed::NoMemory(same_pin);
        }
        answer
    }

    fn permit(
        &mut self,
        alloc: Global,
        caller: u64,
        user: &UserName,
        repo: &RepoName,
        change: PermChange,
    ) -> Permitted {
        // called for its clause that the log is legal
        let _log = self.hub.log();
        if self.writer.is_broken() {
            return PermsAnswer::NoMemory;
        }
        if let PermChange::List = change {
            // called for its clause that a listing isn't answered as a change that is done
            hub_history::hold_laws();
            let answer = self.hub.permit(alloc, caller, user, repo, PermChange::List);
            self.stored = self.hub.log().len() as u64;
            return answer;
        }
        let account = &mut self.account;
        let Ok(group) = ready_permit(alloc, account, caller, user, repo, &change) else {
            return PermsAnswer::NoMemory;
        };
        let answer = self.hub.permit(alloc, caller, user, repo, change);
        let after = self.hub.log();
        let is_lasting = lasts_at(after, self.stored);
        let count = after.len() as u64;
        let is_stored = store_event(
            &mut self.disk,
            &mut self.writer,
            &mut self.stored,
            &mut self.account,
            &group,
            is_lasting,
            count,
        );
        if !is_stored {
            return PermsAnswer::NoMemory;
        }
        answer
    }

    fn look(&mut self, alloc: Global, caller: u64, user: &UserName) -> Looked {
        // called for its clause that the log is legal
        let _log = self.hub.log();
        if self.writer.is_broken() {
            return Looked::NoMemory;
        }
        let answer = self.hub.look(alloc, caller, user);
        self.stored = self.hub.log().len() as u64;
        answer
    }

    fn has_stopped(&self) -> bool {
        self.writer.is_broken()
    }

    fn sound(&self) {
        // called for their clauses that the log is legal and that the admin is a user's name
        let _log = self.hub.log();
        let _name = self.hub.conf().admin().bytes();
    }

    ghost stays = { λ hub first on. on };

    ghost composes = { λ a b c one more first on. more first (one first on) };
}
