// A disk over memory.
ghost use Rattle.std.specs.Prelude.{◌≡◌, ◌<◌, ◌≤◌, ◌+◌, ◌^◌, ◌∷◌, [], length, take, drop, max, if◌then◌else◌, is_err, true, false, refl, vec_len, vec_capacity, IfOk, OnOk, IsTrue};
ghost use Rattle.base_types.specs.Counts.{HasRisen};
ghost use Rattle.record_file.specs.Crashes.{MayLeave, settled};
ghost use Rattle.record_file.specs.Disks.{Counts, Writes, Cuts, Syncs, AsksWrite, AsksCut, overwritten};
ghost use Rattle.record_file.specs.MemoryDisks.{Nothing, Write, Cut, Sync, new_memory, state_of, file_of, file_after, refuses, refuses_write, after_fault, after_change};

use crate::history::{Call, History};
use crate::overwriting::put_within;
use crate::{Disk, DiskFault, NoMemory};
use std::alloc::Global;

// The length of a file stays below this.
const MOST: u64 = 1 << 63;

/// A disk over memory, for tests and for programs that keep nothing. It keeps what each call did, so that it
/// can be stopped after any.
#[derive(Drop)]
pub struct MemoryDisk {
    alloc: Global,
    history: History,
    content: Vec<u8>,
    failing: Vec<u64>,
    disk_faults: u64,
    ghost content_is: { content.items ≡ (file_after history.initial history.changes).content },
    ghost may_stay: { MayLeave (file_after history.initial history.changes).pending (file_after history.initial history.changes).content },
    ghost long: { vec_len content ≤ length history.initial + history.written },
    ghost room: { length history.initial + history.room ≤ vec_capacity content },
    ghost below: { length history.initial + history.room < 2 ^ 63 },
    ghost bytes: { history.written ≤ history.room },
    ghost calls: { length history.changes ≤ history.room },
}

impl MemoryDisk {
    ghost use Rattle.record_file.specs.MemoryViews.{memory_of};

    /// A disk with these bytes, of which nothing is pending. It takes the memory for `room` calls and `room`
    /// written bytes; no call takes more. It fails at the calls whose numbers, from 0, are listed, after the
    /// first `room` calls, and at a write with which more than `room` bytes were written.
    pub fn new(
        alloc: Global,
        bytes: Vec<u8>,
        room: u64,
        failing: Vec<u64>,
    ) -> Result<MemoryDisk, NoMemory>
        ensures { IfOk result (λ disk. memory_of disk ≡ new_memory bytes.items room failing.items) }
    {
        if room >= MOST || bytes.len() as u64 >= MOST - room {
            return Err(NoMemory);
        }
        let history = History::new(alloc, &bytes, room as usize)?;
        let mut content = bytes;
        content.reserve(room as usize)?;
        Ok(MemoryDisk {
            alloc,
            history,
            content,
            failing,
            disk_faults: 0,
        })
    }

    /// The file's bytes.
    pub fn content(&self) -> &[u8]
        ensures { result.now ≡ (file_of (memory_of self.now)).content }
    {
        &self.content
    }

    /// A disk as a crash after so many calls may leave it: `filler` is in every byte that isn't fixed, and
    /// the file is as long as can be. It has the same room, and no listed call.
    pub fn stopped(&self, calls: u64, filler: u8) -> Result<MemoryDisk, NoMemory>
        ensures left { IfOk result (λ disk. MayLeave (file_after (memory_of self.now).history.initial (take calls (memory_of self.now).history.changes)).pending (file_of (memory_of disk)).content) }
        ensures fresh { IfOk result (λ disk. memory_of disk ≡ new_memory (file_of (memory_of disk)).content (memory_of self.now).history.room []) }
    {
        let pending = self.history.pending_after(self.alloc, calls as usize)?;
        let image = pending.image(self.alloc, filler)?;
        MemoryDisk::new(
            self.alloc,
            image,
            self.history.room() as u64,
            Vec::new(self.alloc),
        )
    }

    // Whether the next call fails, whatever it is.
    fn refuses(&self) -> bool
        ensures { result ≡ refuses (memory_of self.now) }
    {
        let number = self.history.count();
        self.failing.contains(&(number as u64)) || self.history.room() <= number
    }

    // Whether a write of so many bytes fails.
    fn refuses_write(&self, at: u64, count: usize) -> bool
        ensures { result ≡ refuses_write (memory_of self.now) at count }
    {
        if self.refuses() {
            return true;
        }
        let room = self.history.room() - self.history.written();
        room < count || at >= MOST || count as u64 >= MOST - at
    }

    // A call that fails. It counts where there is room for it.
    fn fail(&mut self)
        ensures after { memory_of self.new ≡ after_fault (memory_of self.old) }
        ensures file { file_of (memory_of self.new) ≡ file_of (memory_of self.old) }
        ensures rises { HasRisen (memory_of self.old).disk_faults (memory_of self.new).disk_faults × ((memory_of self.old).disk_faults ≤ (memory_of self.new).disk_faults) }
    {
        self.disk_faults = self.disk_faults.saturating_add(1);
        if self.history.count() >= self.history.room() {
            return;
        }
        self.history.keep(Call::Nothing);
    }

    // A call that changes nothing.
    fn look(&mut self)
        requires { refuses (memory_of self.old) ≡ false }
        ensures after { memory_of self.new ≡ after_change (memory_of self.old) Nothing 0 }
        ensures file { file_of (memory_of self.new) ≡ file_of (memory_of self.old) }
        ensures faults { (memory_of self.new).disk_faults ≡ (memory_of self.old).disk_faults }
    {
        self.history.keep(Call::Nothing);
    }

    fn write(&mut self, at: usize, piece: &[u8])
        requires there { at ≤ length (file_of (memory_of self.old)).content }
        requires unrefused { refuses_write (memory_of self.old) at (length piece.now) ≡ false }
        ensures after { memory_of self.new ≡ after_change (memory_of self.old) (Write at piece.now) (length piece.now) }
        ensures content { (file_of (memory_of self.new)).content ≡ overwritten (file_of (memory_of self.old)).content at piece.now }
        ensures size { length (file_of (memory_of self.new)).content ≡ max (length (file_of (memory_of self.old)).content) (at + length piece.now) }
        ensures asks { AsksWrite at (length piece.now) (file_of (memory_of self.old)) (file_of (memory_of self.new)) }
        ensures faults { (memory_of self.new).disk_faults ≡ (memory_of self.old).disk_faults }
    {
        self.history.keep_write(at, piece);
        put_within(&mut self.content, at, piece);
    }

    fn shorten(&mut self, len: usize)
        requires there { len ≤ length (file_of (memory_of self.old)).content }
        requires unrefused { refuses (memory_of self.old) ≡ false }
        ensures after { memory_of self.new ≡ after_change (memory_of self.old) (Cut len) 0 }
        ensures content { (file_of (memory_of self.new)).content ≡ take len (file_of (memory_of self.old)).content }
        ensures size { length (file_of (memory_of self.new)).content ≡ len }
        ensures asks { AsksCut len (file_of (memory_of self.old)) (file_of (memory_of self.new)) }
        ensures faults { (memory_of self.new).disk_faults ≡ (memory_of self.old).disk_faults }
    {
        self.history.keep(Call::Cut(len));
        self.content.truncate(len);
    }

    fn settle(&mut self)
        requires { refuses (memory_of self.old) ≡ false }
        ensures after { memory_of self.new ≡ after_change (memory_of self.old) Sync 0 }
        ensures file { file_of (memory_of self.new) ≡ record { content = (file_of (memory_of self.old)).content; pending = settled (file_of (memory_of self.old)).content; past = (file_of (memory_of self.old)).pending ∷ (file_of (memory_of self.old)).past } }
        ensures size { length (file_of (memory_of self.new)).content ≡ length (file_of (memory_of self.old)).content }
        ensures faults { (memory_of self.new).disk_faults ≡ (memory_of self.old).disk_faults }
    {
        self.history.keep(Call::Sync);
    }
}

impl Disk for MemoryDisk {
    ghost use Rattle.record_file.specs.MemoryViews.{memory_of};

    ghost is_modeled = { true };

    ghost state = { λ m. state_of (memory_of m) };

    fn len(&mut self) -> Result<u64, DiskFault>
        ensures length { IfOk result (λ n. n ≡ (state_of (memory_of self.old)).size) }
        ensures size { (state_of (memory_of self.new)).size ≡ (state_of (memory_of self.old)).size }
        ensures counts { Counts result (state_of (memory_of self.old)) (state_of (memory_of self.new)) }
        ensures file { IsTrue true → (state_of (memory_of self.new)).file ≡ (state_of (memory_of self.old)).file }
        ensures answer { is_err result ≡ refuses (memory_of self.old) }
        ensures after { memory_of self.new ≡ (if is_err result then after_fault (memory_of self.old) else after_change (memory_of self.old) Nothing 0) }
    {
        if self.refuses() {
            self.fail();
            return Err(DiskFault);
        }
        self.look();
        Ok(self.content.len() as u64)
    }

    fn read(&mut self, at: u64, room: &mut [u8]) -> Result<(), DiskFault>
        requires { at + length room.old ≤ (state_of (memory_of self.old)).size }
        ensures read { OnOk result (IsTrue true → room.new ≡ take (length room.old) (drop at (state_of (memory_of self.old)).file.content)) }
        ensures size { (state_of (memory_of self.new)).size ≡ (state_of (memory_of self.old)).size }
        ensures counts { Counts result (state_of (memory_of self.old)) (state_of (memory_of self.new)) }
        ensures file { IsTrue true → (state_of (memory_of self.new)).file ≡ (state_of (memory_of self.old)).file }
        ensures answer { is_err result ≡ refuses (memory_of self.old) }
        ensures after { memory_of self.new ≡ (if is_err result then after_fault (memory_of self.old) else after_change (memory_of self.old) Nothing 0) }
    {
        if self.refuses() {
            self.fail();
            return Err(DiskFault);
        }
        self.look();
        let behind = self.content.split_at(at as usize).1;
        room.copy_from_slice(behind.split_at(room.len()).0);
        Ok(())
    }

    fn write_at(&mut self, at: u64, piece: &[u8]) -> Result<(), DiskFault>
        requires { at ≤ (state_of (memory_of self.old)).size }
        ensures size { OnOk result ((state_of (memory_of self.new)).size ≡ max (state_of (memory_of self.old)).size (at + length piece.now)) }
        ensures counts { Counts result (state_of (memory_of self.old)) (state_of (memory_of self.new)) }
        ensures file { IsTrue true → Writes at piece.now result (state_of (memory_of self.old)).file (state_of (memory_of self.new)).file }
        ensures answer { is_err result ≡ refuses_write (memory_of self.old) at (length piece.now) }
        ensures after { memory_of self.new ≡ (if is_err result then after_fault (memory_of self.old) else after_change (memory_of self.old) (Write at piece.now) (length piece.now)) }
    {
        if self.refuses_write(at, piece.len()) {
            self.fail();
            return Err(DiskFault);
        }
        self.write(at as usize, piece);
        Ok(())
    }

    fn cut(&mut self, len: u64) -> Result<(), DiskFault>
        requires { len ≤ (state_of (memory_of self.old)).size }
        ensures size { OnOk result ((state_of (memory_of self.new)).size ≡ len) }
        ensures counts { Counts result (state_of (memory_of self.old)) (state_of (memory_of self.new)) }
        ensures file { IsTrue true → Cuts len result (state_of (memory_of self.old)).file (state_of (memory_of self.new)).file }
        ensures answer { is_err result ≡ refuses (memory_of self.old) }
        ensures after { memory_of self.new ≡ (if is_err result then after_fault (memory_of self.old) else after_change (memory_of self.old) (Cut len) 0) }
    {
        if self.refuses() {
            self.fail();
            return Err(DiskFault);
        }
        self.shorten(len as usize);
        Ok(())
    }

    fn sync(&mut self) -> Result<(), DiskFault>
        ensures size { (state_of (memory_of self.new)).size ≡ (state_of (memory_of self.old)).size }
        ensures counts { Counts result (state_of (memory_of self.old)) (state_of (memory_of self.new)) }
        ensures file { IsTrue true → Syncs result (state_of (memory_of self.old)).file (state_of (memory_of self.new)).file }
        ensures answer { is_err result ≡ refuses (memory_of self.old) }
        ensures after { memory_of self.new ≡ (if is_err result then after_fault (memory_of self.old) else after_change (memory_of self.old) Sync 0) }
    {
        if self.refuses() {
            self.fail();
            return Err(DiskFault);
        }
        self.settle();
        Ok(())
    }

    ghost use Rattle.std.proofs.Common.{arith, ap, length};

    ghost size_below = { λ m. Prim.omega (arith, ap length m.content_is, m.content.ok.0, m.long, m.bytes, m.below) };

    ghost size_told = { λ m told. refl };

    ghost content_may_stay = { λ m told. m.may_stay };
}
