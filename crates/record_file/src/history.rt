// The calls of a disk over memory, one after the other.
ghost use Rattle.std.specs.Prelude.{◌≡◌, ◌+◌, ◌++◌, ◌∷◌, ◌<◌, ◌≤◌, ◌^◌, [], length, take, IfOk, OnOk};
ghost use Rattle.record_file.specs.Crashes.{MayLeave};
ghost use Rattle.record_file.specs.MemoryDisks.{Write, changed, file_after};
ghost use Rattle.record_file.specs.CallViews.{change_of, IsKept};

use crate::NoMemory;
use crate::overwriting::put;
use crate::pending_data::PendingData;
use std::alloc::Global;
use std::marker::Model;

// What a call did. The bytes of a write are in a buffer of all written bytes.
#[derive(Clone, Copy, Drop)]
pub(crate) enum Call {
    Nothing,
    Write {
        at: usize,
        from: usize,
        count: usize,
    },
    Cut(usize),
    Sync,
}

// The calls, with room for more that was taken at first.
#[derive(Drop)]
pub(crate) struct History {
    initial: Vec<u8>,
    calls: Vec<Call>,
    written: Vec<u8>,
    room: usize,
}

impl Model for History {
    ghost use Rattle.std.specs.Prelude.{◌≤◌, length, vec_capacity, vec_len};
    ghost use Rattle.std.specs.List.{All};
    ghost use Rattle.record_file.specs.MemoryDisks.{HistoryState};

    ghost Value = { HistoryState };

    ghost use Rattle.record_file.specs.CallViews.{changes_of, IsKept};

    ghost view = { λ h. record { initial = h.initial.items; changes = changes_of h.written.items h.calls.items; written = vec_len h.written; room = h.room } };

    ghost invariant = { λ h. (h.room ≤ vec_capacity h.calls) × (h.room ≤ vec_capacity h.written) × (vec_len h.calls ≤ h.room) × (vec_len h.written ≤ h.room) × All (IsKept (length h.written.items)) h.calls.items };
}

impl History {
    // No calls so far.
    pub fn new(alloc: Global, initial: &[u8], room: usize) -> Result<History, NoMemory>
        ensures { IfOk result (λ history. history ≡ record { initial = initial.now; changes = []; written = 0; room = room }) }
    {
        let initial = initial.to_vec(alloc)?;
        let calls = Vec::with_capacity(alloc, room)?;
        let written = Vec::with_capacity(alloc, room)?;
        Ok(History {
            initial,
            calls,
            written,
            room,
        })
    }

    pub fn room(&self) -> usize
        ensures { result ≡ self.now.room }
    {
        self.room
    }

    // How many calls there were.
    pub fn count(&self) -> usize
        ensures { result ≡ length self.now.changes }
    {
        self.calls.len()
    }

    // How many bytes were written.
    pub fn written(&self) -> usize
        ensures { result ≡ self.now.written }
    {
        self.written.len()
    }

    // One call more, which wrote nothing.
    pub fn keep(&mut self, call: Call)
        requires room { length self.old.changes < self.old.room }
        requires kept { IsKept 0 call }
        ensures { self.new ≡ record { initial = self.old.initial; changes = self.old.changes ++ change_of [] call ∷ []; written = self.old.written; room = self.old.room } }
    {
        let Ok(()) = self.calls.push(call) else {
            unreachable!()
        };
    }

    // One write more.
    pub fn keep_write(&mut self, at: usize, piece: &[u8])
        requires room { length self.old.changes < self.old.room }
        requires bytes { self.old.written + length piece.now ≤ self.old.room }
        requires below { at + length piece.now < 2 ^ 63 }
        ensures { self.new ≡ record { initial = self.old.initial; changes = self.old.changes ++ Write at piece.now ∷ []; written = self.old.written + length piece.now; room = self.old.room } }
    {
        let from = self.written.len();
        let Ok(()) = self.written.extend_from_slice(piece) else {
            unreachable!()
        };
        let count = piece.len();
        let Ok(()) = self.calls.push(Call::Write { at, from, count }) else {
            unreachable!()
        };
    }
}

impl History {
    // What was pending after so many calls.
    pub fn pending_after(&self, alloc: Global, most: usize) -> Result<PendingData, NoMemory>
        ensures { IfOk result (λ pending. pending ≡ (file_after self.now.initial (take most self.now.changes)).pending) }
    {
        let count = most.min(self.calls.len());
        let calls = self.calls.split_at(count).0;
        let mut content = self.initial.to_vec(alloc)?;
        let mut pending = PendingData::settle(alloc, &self.initial)?;
        for call in calls {
            replay(alloc, call, &self.written, &mut content, &mut pending)?;
        }
        Ok(pending)
    }
}

// Makes a call again.
fn replay(
    alloc: Global,
    call: &Call,
    written: &[u8],
    content: &mut Vec<u8>,
    pending: &mut PendingData,
) -> Result<(), NoMemory>
    requires { IsKept (length written.now) call.now }
    ensures content { OnOk result (content.new.items ≡ (changed (record { content = content.old.items; pending = pending.old; past = [] }) (change_of written.now call.now)).content) }
    ensures pending { OnOk result (pending.new ≡ (changed (record { content = content.old.items; pending = pending.old; past = [] }) (change_of written.now call.now)).pending) }
{
    match *call {
        Call::Nothing => Ok(()),
        Call::Write { at, from, count } => {
            let piece = written.split_at(from).1.split_at(count).0;
            put(content, at, piece)?;
            pending.ask_write(at, count)?;
            Ok(())
        }
        Call::Cut(size) => {
            content.truncate(size);
            pending.ask_cut(size);
            Ok(())
        }
        Call::Sync => {
            *pending = PendingData::settle(alloc, content)?;
            Ok(())
        }
    }
}
