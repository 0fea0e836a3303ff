// Reading a file of records, record after record.
ghost use Rattle.std.specs.Prelude.{◌≡◌, ◌+◌, ◌-◌, ◌++◌, ◌∷◌, ◌<◌, ◌≤◌, [], List, ℕ, length, take, drop, IsTrue, false, IfOk, OnOk, IfErr, Err};
ghost use Rattle.record_file.specs.Crashes.{Leaves, LeavesOnly, settled};
ghost use Rattle.record_file.specs.Disks.{Counts};
ghost use Rattle.record_file.specs.Records.{head_of, Holds, HoldsAllOrNone};
ghost use Rattle.record_file.specs.Reading.{IsRefused, IsReadTo, IsClosedAt, IsAtGate, ReadsFront, ReadsNext, Moves, MovesBehind};
ghost use Rattle.record_file.specs.Opening.{ReportsFaults, ChecksHead, IsStarted, IsTooShort};
ghost use Rattle.record_file.specs.Files.{IsDurable};
ghost use Rattle.record_file.specs.Gates.{IsGateOf, IsWithin};

use crate::reading::{Gate, bytes_fit, gate_of, last_gate, split_head};
use crate::{Disk, DiskFault, OpenFault, RecordWriter, StoredRecord};
use base_types::Text;
use std::alloc::Global;
use std::marker::Model;

/// Reads a file that a crash may have left, record after record. The disk is passed to each call, and its
/// file stays as it is until `finish`. A copy reads the same file again.
#[derive(Clone, Copy)]
pub struct RecordReader {
    offset: u64,
    size: u64,
}

impl Model for RecordReader {
    ghost use Rattle.record_file.specs.Reading.{ReaderState};

    ghost Value = { ReaderState };

    ghost view = { λ r. record { offset = r.offset; size = r.size } };

    ghost inverse = { λ r. record { offset = r.offset; size = r.size } };
}

impl RecordReader {
    /// Begins to read a file whose head has these magic bytes and this name. It syncs first, so that nothing
    /// is pending. An empty file is made one of no records.
    pub fn start<D: Disk>(
        alloc: Global,
        disk: &mut D,
        magic: &[u8],
        name: &[u8],
    ) -> Result<RecordReader, OpenFault>
        requires { length name.now < 256 }
        ensures faults { ReportsFaults result (D.state disk.old) (D.state disk.new) }
        ensures at_gate { IfOk result (λ reader. IsAtGate reader (D.state disk.new).size) }
        ensures offset { IfOk result (λ reader. reader.offset ≡ length (head_of magic.now name.now)) }
        ensures started { OnOk result (IsTrue D.is_modeled → IsStarted (head_of magic.now name.now) (D.state disk.new).file) }
        ensures same { OnOk result (IsTrue D.is_modeled → 0 < length (D.state disk.old).file.content → (D.state disk.new).file.content ≡ (D.state disk.old).file.content) }
        ensures begun { OnOk result (IsTrue D.is_modeled → length (D.state disk.old).file.content ≡ 0 → (D.state disk.new).file.content ≡ head_of magic.now name.now ++ 0 ∷ []) }
        ensures refused { IfErr result (λ fault. IsTrue D.is_modeled → ChecksHead magic.now name.now (D.state disk.old).file.content (Err fault)) }
        ensures any_moment { IsTrue D.is_modeled → (bodies : List (List ℕ))
            → Leaves (Holds (head_of magic.now name.now) bodies) (D.state disk.old).file.pending
            → LeavesOnly (Holds (head_of magic.now name.now) bodies) (D.state disk.old).file (D.state disk.new).file }
        ensures any_moment_group { IsTrue D.is_modeled → (bodies more : List (List ℕ))
            → Leaves (HoldsAllOrNone (head_of magic.now name.now) bodies more) (D.state disk.old).file.pending
            → LeavesOnly (HoldsAllOrNone (head_of magic.now name.now) bodies more) (D.state disk.old).file (D.state disk.new).file }
        ensures any_moment_short { IsTrue D.is_modeled
            → Leaves (IsTooShort (head_of magic.now name.now)) (D.state disk.old).file.pending
            → LeavesOnly (IsTooShort (head_of magic.now name.now)) (D.state disk.old).file (D.state disk.new).file }
    {
        disk.sync()?;
        match start_synced(alloc, disk, magic, name) {
            Ok(reader) => Ok(reader),
            Err(fault) => Err(fault),
        }
    }

    /// The next record, or `None` at the zero gate. Its body takes the place of whatever the buffer has, so
    /// that a caller who hands in that of the last record needs no other.
    pub fn next_record<D: Disk>(
        &mut self,
        disk: &mut D,
        buffer: Vec<u8>,
    ) -> Result<Option<StoredRecord>, OpenFault>
        requires { IsAtGate self.old (D.state disk.old).size }
        ensures faults { ReportsFaults result (D.state disk.old) (D.state disk.new) }
        ensures at_gate { IsAtGate self.new (D.state disk.new).size }
        ensures file { IsTrue D.is_modeled → (D.state disk.new).file ≡ (D.state disk.old).file }
        ensures moves { Moves result self.old self.new }
        ensures reads { IsTrue D.is_modeled → ReadsNext (D.state disk.old).file.content self.old.offset self.new.offset result }
    {
        self.next_within(disk, buffer, usize::MAX)
    }

    /// The front of the next record, at most so many bytes of its body, or `None` at the zero gate. The
    /// reader is behind the whole record then, of which no more was read.
    pub fn next_front<D: Disk>(
        &mut self,
        alloc: Global,
        disk: &mut D,
        most: usize,
    ) -> Result<Option<StoredRecord>, OpenFault>
        requires { IsAtGate self.old (D.state disk.old).size }
        ensures faults { ReportsFaults result (D.state disk.old) (D.state disk.new) }
        ensures at_gate { IsAtGate self.new (D.state disk.new).size }
        ensures file { IsTrue D.is_modeled → (D.state disk.new).file ≡ (D.state disk.old).file }
        ensures moves { MovesBehind most result self.old self.new }
        ensures reads { IsTrue D.is_modeled → ReadsFront most (D.state disk.old).file.content self.old.offset self.new.offset result }
    {
        self.next_within(disk, Vec::new(alloc), most)
    }

    fn next_within<D: Disk>(
        &mut self,
        disk: &mut D,
        buffer: Vec<u8>,
        most: usize,
    ) -> Result<Option<StoredRecord>, OpenFault>
        requires { IsAtGate self.old (D.state disk.old).size }
        ensures faults { ReportsFaults result (D.state disk.old) (D.state disk.new) }
        ensures at_gate { IsAtGate self.new (D.state disk.new).size }
        ensures file { IsTrue D.is_modeled → (D.state disk.new).file ≡ (D.state disk.old).file }
        ensures moves { MovesBehind most result self.old self.new }
        ensures reads { IsTrue D.is_modeled → ReadsFront most (D.state disk.old).file.content self.old.offset self.new.offset result }
    {
        match read_gate(disk, self.offset, self.size)? {
            Gate::Closed => Ok(None),
            Gate::Bad => Err(OpenFault::BadRecord(self.offset)),
            Gate::Record(size) => {
                let count = (size as usize).min(most);
                let front = match read_bytes(disk, self.offset + 9, count, buffer) {
                    Ok(front) => front,
                    Err(fault) => return Err(fault),
                };
                let record = StoredRecord {
                    offset: self.offset,
                    body: Text::from(front),
                };
                self.offset += 9 + size;
                Ok(Some(record))
            }
        }
    }

    /// Cuts off what follows the zero gate, where anything does. It is called once `next_record` has answered
    /// `None`.
    pub fn finish<D: Disk>(self, disk: &mut D) -> Result<RecordWriter, DiskFault>
        requires { IsAtGate self (D.state disk.old).size }
        ensures counts { Counts result (D.state disk.old) (D.state disk.new) }
        ensures writer { IfOk result (λ writer. writer ≡ record { end = self.offset; broken = false }) }
        ensures size { OnOk result ((D.state disk.new).size ≡ self.offset + 1) }
        ensures durable { OnOk result (IsTrue D.is_modeled → (head : List ℕ) (bodies : List (List ℕ))
            → IsReadTo head bodies (D.state disk.old).file.content self.offset → IsClosedAt (D.state disk.old).file.content self.offset
            → (D.state disk.old).file.pending ≡ settled (D.state disk.old).file.content
            → IsDurable head bodies self.offset (D.state disk.new).file) }
        ensures any_moment { IsTrue D.is_modeled → (head : List ℕ) (bodies : List (List ℕ))
            → IsReadTo head bodies (D.state disk.old).file.content self.offset → IsClosedAt (D.state disk.old).file.content self.offset
            → (D.state disk.old).file.pending ≡ settled (D.state disk.old).file.content
            → LeavesOnly (Holds head bodies) (D.state disk.old).file (D.state disk.new).file }
    {
        if self.offset + 1 == self.size {
            return Ok(RecordWriter::at(self.offset));
        }
        disk.cut(self.offset + 1)?;
        disk.sync()?;
        Ok(RecordWriter::at(self.offset))
    }
}

// So many bytes of the file, from an offset on, in place of what the buffer has.
fn read_bytes<D: Disk>(
    disk: &mut D,
    offset: u64,
    count: usize,
    buffer: Vec<u8>,
) -> Result<Vec<u8>, OpenFault>
    requires { offset + count ≤ (D.state disk.old).size }
    ensures faults { ReportsFaults result (D.state disk.old) (D.state disk.new) }
    ensures size { (D.state disk.new).size ≡ (D.state disk.old).size }
    ensures file { IsTrue D.is_modeled → (D.state disk.new).file ≡ (D.state disk.old).file }
    ensures long { IfOk result (λ bytes. length bytes.items ≡ count) }
    ensures bytes { IfOk result (λ bytes. IsTrue D.is_modeled → bytes.items ≡ take count (drop offset (D.state disk.old).file.content)) }
    ensures refused { IfErr result (λ fault. (magic name file : List ℕ) → IsRefused magic name file fault) }
    ensures only { IfErr result (λ fault. (file : List ℕ) (offset next : ℕ) → ReadsNext file offset next (Err fault)) }
    ensures head { IfErr result (λ fault. (magic name file : List ℕ) → ChecksHead magic name file (Err fault)) }
{
    let mut bytes = buffer;
    let Ok(()) = bytes.resize(count, 0) else {
        return Err(OpenFault::NoMemory);
    };
    disk.read(offset, &mut bytes)?;
    Ok(bytes)
}

// Reads the gate at an offset, and the length behind it.
fn read_gate<D: Disk>(disk: &mut D, offset: u64, size: u64) -> Result<Gate, DiskFault>
    requires size { size ≡ (D.state disk.old).size }
    requires within { offset < size }
    ensures counts { Counts result (D.state disk.old) (D.state disk.new) }
    ensures size { (D.state disk.new).size ≡ (D.state disk.old).size }
    ensures file { IsTrue D.is_modeled → (D.state disk.new).file ≡ (D.state disk.old).file }
    ensures within { IfOk result (λ gate. IsWithin gate (size - offset)) }
    ensures gate { IfOk result (λ gate. IsTrue D.is_modeled → IsGateOf (drop offset (D.state disk.old).file.content) gate) }
{
    if size - offset < 9 {
        let mut gate = [0; 1];
        disk.read(offset, &mut gate)?;
        return Ok(last_gate(&gate));
    }
    let mut bytes = [0; 9];
    disk.read(offset, &mut bytes)?;
    Ok(gate_of(&bytes, size - offset - 9))
}

// Begins to read a file of which nothing is pending.
fn start_synced<D: Disk>(
    alloc: Global,
    disk: &mut D,
    magic: &[u8],
    name: &[u8],
) -> Result<RecordReader, OpenFault>
    requires { length name.now < 256 }
    ensures faults { ReportsFaults result (D.state disk.old) (D.state disk.new) }
    ensures at_gate { IfOk result (λ reader. IsAtGate reader (D.state disk.new).size) }
    ensures offset { IfOk result (λ reader. reader.offset ≡ length (head_of magic.now name.now)) }
    ensures started { OnOk result (IsTrue D.is_modeled → (D.state disk.old).file.pending ≡ settled (D.state disk.old).file.content → IsStarted (head_of magic.now name.now) (D.state disk.new).file) }
    ensures same { IsTrue D.is_modeled → 0 < length (D.state disk.old).file.content → (D.state disk.new).file ≡ (D.state disk.old).file }
    ensures begun { OnOk result (IsTrue D.is_modeled → length (D.state disk.old).file.content ≡ 0 → (D.state disk.new).file.content ≡ head_of magic.now name.now ++ 0 ∷ []) }
    ensures refused { IfErr result (λ fault. IsTrue D.is_modeled → ChecksHead magic.now name.now (D.state disk.old).file.content (Err fault)) }
    ensures any_moment_short { IsTrue D.is_modeled → (D.state disk.old).file.pending ≡ settled (D.state disk.old).file.content
        → IsTooShort (head_of magic.now name.now) (D.state disk.old).file.content
        → LeavesOnly (IsTooShort (head_of magic.now name.now)) (D.state disk.old).file (D.state disk.new).file }
{
    let size = disk.len()?;
    if size == 0 {
        return match begin(alloc, disk, magic, name) {
            Ok(offset) => Ok(RecordReader {
                offset,
                size: offset + 1,
            }),
            Err(fault) => Err(fault),
        };
    }
    match check_head(alloc, disk, size, magic, name) {
        Ok(offset) => Ok(RecordReader { offset, size }),
        Err(fault) => Err(fault),
    }
}

// The length of the head, of a file that isn't empty.
fn check_head<D: Disk>(
    alloc: Global,
    disk: &mut D,
    size: u64,
    magic: &[u8],
    name: &[u8],
) -> Result<u64, OpenFault>
    requires size { size ≡ (D.state disk.old).size }
    requires some { 0 < size }
    ensures faults { ReportsFaults result (D.state disk.old) (D.state disk.new) }
    ensures size { (D.state disk.new).size ≡ (D.state disk.old).size }
    ensures file { IsTrue D.is_modeled → (D.state disk.new).file ≡ (D.state disk.old).file }
    ensures within { IfOk result (λ offset. offset < size) }
    ensures offset { IfOk result (λ offset. offset ≡ length (head_of magic.now name.now)) }
    ensures head { IsTrue D.is_modeled → ChecksHead magic.now name.now (D.state disk.old).file.content result }
{
    // The longest head has 256 bytes behind the magic bytes, and one byte follows it.
    let count = (magic.len() as u64).saturating_add(257).min(size);
    let bytes = match read_bytes(disk, 0, count as usize, Vec::new(alloc)) {
        Ok(bytes) => bytes,
        Err(fault) => return Err(fault),
    };
    // The proof cites the clause that bytes are below 256.
    bytes_fit(&bytes);
    match split_head(&bytes, magic, name) {
        Ok(rest) => Ok(count - rest.len() as u64),
        Err(fault) => Err(fault),
    }
}

// The bytes of a file without records.
fn empty_file(alloc: Global, magic: &[u8], name: &[u8]) -> Result<Vec<u8>, OpenFault>
    requires { length name.now < 256 }
    ensures bytes { IfOk result (λ bytes. bytes.items ≡ head_of magic.now name.now ++ 0 ∷ []) }
    ensures fault { IfErr result (λ fault. fault ≡ OpenFault.NoMemory) }
{
    let mut bytes = Vec::new(alloc);
    let Ok(()) = bytes.extend_from_slice(magic) else {
        return Err(OpenFault::NoMemory);
    };
    let Ok(()) = bytes.push(name.len() as u8) else {
        return Err(OpenFault::NoMemory);
    };
    let Ok(()) = bytes.extend_from_slice(name) else {
        return Err(OpenFault::NoMemory);
    };
    let Ok(()) = bytes.push(0) else {
        return Err(OpenFault::NoMemory);
    };
    Ok(bytes)
}

// Makes a file without records of an empty one. A crash in it may leave any bytes, no more than these.
fn begin<D: Disk>(alloc: Global, disk: &mut D, magic: &[u8], name: &[u8]) -> Result<u64, OpenFault>
    requires name { length name.now < 256 }
    requires empty { (D.state disk.old).size ≡ 0 }
    ensures faults { ReportsFaults result (D.state disk.old) (D.state disk.new) }
    ensures size { IfOk result (λ offset. (D.state disk.new).size ≡ offset + 1) }
    ensures offset { IfOk result (λ offset. offset ≡ length (head_of magic.now name.now)) }
    ensures started { OnOk result (IsTrue D.is_modeled → IsStarted (head_of magic.now name.now) (D.state disk.new).file) }
    ensures begun { OnOk result (IsTrue D.is_modeled → (D.state disk.new).file.content ≡ head_of magic.now name.now ++ 0 ∷ []) }
    ensures refused { IfErr result (λ fault. IsTrue D.is_modeled → ChecksHead magic.now name.now (D.state disk.old).file.content (Err fault)) }
    ensures any_moment_short { IsTrue D.is_modeled → (D.state disk.old).file.pending ≡ settled (D.state disk.old).file.content
        → LeavesOnly (IsTooShort (head_of magic.now name.now)) (D.state disk.old).file (D.state disk.new).file }
{
    let bytes = empty_file(alloc, magic, name)?;
    disk.write_at(0, &bytes)?;
    disk.sync()?;
    Ok(bytes.len() as u64 - 1)
}
