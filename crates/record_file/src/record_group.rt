// A group of records as it is written behind a zero gate.
ghost use Rattle.std.specs.Prelude.{◌≡◌, ◌+◌, ◌<◌, ◌^◌, ◌++◌, ◌∷◌, [], length, drop, IfOk, OnOk, OnErr};
ghost use Rattle.record_file.specs.Records.{open_records, group_bytes, IsGroup};
ghost use Rattle.record_file.specs.Groups.{bodies_in, IsBuilt};

use crate::NoMemory;
use crate::overwriting::overwrite;
use std::alloc::Global;
use std::marker::Model;

// A record's beginning: an open gate, and eight bytes for the length of its body.
const LEAD: [u8; 9] = [1, 0, 0, 0, 0, 0, 0, 0, 0];

/// Records that are stored at once: after a crash the file has all of them or none. There is at least one.
/// Contracts see their bodies.
#[derive(Drop)]
pub struct RecordGroup {
    bytes: Vec<u8>,
    sizes: Vec<usize>,
}

impl Model for RecordGroup {
    ghost use Rattle.std.specs.Prelude.{List, ℕ};

    ghost Value = { List (List ℕ) };

    ghost use Rattle.record_file.specs.Groups.{bodies_in, IsFinished};

    ghost view = { λ g. bodies_in g.sizes.items g.bytes.items };

    ghost invariant = { λ g. IsFinished g.bytes.items (bodies_in g.sizes.items g.bytes.items) };
}

impl RecordGroup {
    /// A group of one record, whose body is copied.
    pub fn of(alloc: Global, body: &[u8]) -> Result<RecordGroup, NoMemory>
        ensures { IfOk result (λ group. group ≡ body.now ∷ []) }
    {
        let mut builder = RecordBuilder::new(alloc)?;
        builder.extend_from_slice(body)?;
        builder.finish()
    }

    // What is written behind the zero gate.
    pub(crate) fn written(&self) -> &[u8]
        ensures bytes { result.now ≡ group_bytes self.now }
        ensures group { IsGroup self.now }
    {
        self.bytes.split_at(1).1
    }
}

/// A group whose last record is being built, in one buffer: an encoder pushes bytes into the record's body.
#[derive(Drop)]
pub struct RecordBuilder {
    bytes: Vec<u8>,
    sizes: Vec<usize>,
    start: usize,
}

impl Model for RecordBuilder {
    ghost use Rattle.std.specs.Prelude.{◌+◌, drop};
    ghost use Rattle.record_file.specs.Groups.{BuilderState, bodies_in, IsBuilt};

    ghost Value = { BuilderState };

    ghost view = { λ b. record { bodies = bodies_in b.sizes.items b.bytes.items; body = drop (b.start + 9) b.bytes.items } };

    ghost invariant = { λ b. IsBuilt b.bytes.items b.sizes.items b.start };
}

impl RecordBuilder {
    /// Begins the first record, whose body is empty so far.
    pub fn new(alloc: Global) -> Result<RecordBuilder, NoMemory>
        ensures { IfOk result (λ builder. builder ≡ record { bodies = []; body = [] }) }
    {
        let mut bytes = Vec::new(alloc);
        bytes.extend_from_slice(&LEAD)?;
        Ok(RecordBuilder {
            bytes,
            sizes: Vec::new(alloc),
            start: 0,
        })
    }

    /// Adds a byte to the record's body.
    pub fn push(&mut self, byte: u8) -> Result<(), NoMemory>
        ensures ok { OnOk result (self.new ≡ record { bodies = self.old.bodies; body = self.old.body ++ byte ∷ [] }) }
        ensures err { OnErr result (self.new ≡ self.old) }
    {
        self.extend_from_slice(&[byte])
    }

    /// Adds bytes to the record's body.
    pub fn extend_from_slice(&mut self, piece: &[u8]) -> Result<(), NoMemory>
        ensures ok { OnOk result (self.new ≡ record { bodies = self.old.bodies; body = self.old.body ++ piece.now }) }
        ensures err { OnErr result (self.new ≡ self.old) }
    {
        self.bytes.extend_from_slice(piece)?;
        Ok(())
    }

    /// Ends the record, and begins the next one of the group.
    pub fn next_record(&mut self) -> Result<(), NoMemory>
        ensures ok { OnOk result (self.new ≡ record { bodies = self.old.bodies ++ self.old.body ∷ []; body = [] }) }
        ensures err { OnErr result (self.new ≡ self.old) }
    {
        close(&mut self.bytes, &mut self.sizes, self.start, &LEAD)?;
        self.start = self.bytes.len() - 9;
        Ok(())
    }

    /// Ends the record and the group. The bodies aren't copied.
    pub fn finish(self) -> Result<RecordGroup, NoMemory>
        ensures { IfOk result (λ group. group ≡ self.bodies ++ self.body ∷ []) }
    {
        let RecordBuilder {
            mut bytes,
            mut sizes,
            start,
        } = self;
        close(&mut bytes, &mut sizes, start, &[0])?;
        Ok(RecordGroup { bytes, sizes })
    }
}

// Writes the length of the last record's body in front of it, and what follows behind it.
fn close(
    bytes: &mut Vec<u8>,
    sizes: &mut Vec<usize>,
    start: usize,
    next: &[u8],
) -> Result<(), NoMemory>
    requires { IsBuilt bytes.old.items sizes.old.items start }
    ensures ok { OnOk result (bytes.new.items ≡ open_records (bodies_in sizes.old.items bytes.old.items ++ drop (start + 9) bytes.old.items ∷ []) ++ next.now) }
    ensures fits { OnOk result (length (drop (start + 9) bytes.old.items) < 2 ^ 64) }
    ensures sizes { OnOk result (sizes.new.items ≡ sizes.old.items ++ length (drop (start + 9) bytes.old.items) ∷ []) }
    ensures err { OnErr result (bytes.new.items ≡ bytes.old.items) }
    ensures sizes_err { OnErr result (sizes.new.items ≡ sizes.old.items) }
{
    bytes.reserve(next.len())?;
    sizes.reserve(1)?;
    let size = bytes.len() - (start + 9);
    overwrite(bytes, start + 1, &(size as u64).to_be_bytes());
    let Ok(()) = bytes.extend_from_slice(next) else {
        unreachable!()
    };
    let Ok(()) = sizes.push(size) else {
        unreachable!()
    };
    Ok(())
}
