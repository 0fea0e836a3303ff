// A link over memory.
ghost use Rattle.std.specs.Prelude.{◌≡◌, ◌<◌, ◌≤◌, ◌^◌, length};
ghost use Rattle.std.proofs.Common.{arith, refl};
ghost use Rattle.pktline_core.specs.Links.{Takes, Puts, TellsTake, TellsPut, IsLater, KeepsReading, KeepsWriting};
ghost use Rattle.pktline_core.specs.MemoryLinks.{new_memory, memory_state, take_answer, after_take, IsPutAnswer, after_put};

use crate::links::{Endpoint, Link, Put, Sink, Source, Taken};

/// A link over memory, for tests and for sessions whose bytes are at hand.
#[derive(Drop)]
pub struct MemoryLink {
    input: Vec<u8>,
    at: usize,
    output: Vec<u8>,
    most: usize,
    takes: u64,
    puts: u64,
    failing_takes: Vec<u64>,
    failing_puts: Vec<u64>,
    read_faults: u64,
    write_faults: u64,
    ghost moves: { 1 ≤ most },
    ghost within: { at ≤ length input.items },
    ghost below: { length input.items < 2 ^ 63 },
}

impl MemoryLink {
    ghost use Rattle.pktline_core.specs.MemoryViews.{memory_of};

    /// A link whose input is these bytes. It moves at most so many of them in a call, and fails at the calls
    /// of `take` and of `put` whose numbers, from 0, are listed. It takes no memory but for what is written.
    pub fn new(
        input: Vec<u8>,
        most: usize,
        failing_takes: Vec<u64>,
        failing_puts: Vec<u64>,
    ) -> MemoryLink
        requires { 1 ≤ most }
        ensures { memory_of result ≡ new_memory input.items most failing_takes.items failing_puts.items }
    {
        let output = Vec::new(*input.allocator());
        MemoryLink {
            input,
            at: 0,
            output,
            most,
            takes: 0,
            puts: 0,
            failing_takes,
            failing_puts,
            read_faults: 0,
            write_faults: 0,
        }
    }

    /// What was written so far.
    pub fn written(&self) -> &[u8]
        ensures { result.now ≡ (memory_of self.now).written }
    {
        &self.output
    }

    /// What is left of the input.
    pub fn left(&self) -> &[u8]
        ensures { result.now ≡ (memory_of self.now).left }
    {
        self.input.split_at(self.at).1
    }
}

impl Endpoint for MemoryLink {
    ghost use Rattle.pktline_core.specs.MemoryViews.{memory_of};

    ghost state = { λ m. memory_state (memory_of m) };

    ghost telling = { λ m tells. refl };
}

impl Source for MemoryLink {
    ghost use Rattle.pktline_core.specs.MemoryViews.{memory_of};

    fn take(&mut self, room: &mut [u8]) -> Taken
        requires { 0 < length room.old }
        ensures taken { Takes (memory_state (memory_of self.old)) (memory_state (memory_of self.new)) room.new result }
        ensures tells { TellsTake (memory_state (memory_of self.old)) (memory_state (memory_of self.new)) result }
        ensures writing { KeepsWriting (memory_state (memory_of self.old)) (memory_state (memory_of self.new)) }
        ensures later { IsLater (memory_state (memory_of self.old)) (memory_state (memory_of self.new)) }
        ensures answer { result ≡ take_answer (memory_of self.old) (length room.old) }
        ensures after { memory_of self.new ≡ after_take (memory_of self.old) result }
    {
        let call = self.takes;
        self.takes = self.takes.saturating_add(1);
        if self.failing_takes.contains(&call) {
            self.read_faults = self.read_faults.saturating_add(1);
            return Taken::Failed;
        }
        let left = self.input.split_at(self.at).1;
        if left.is_empty() {
            return Taken::End;
        }
        let count = left.len().min(room.len()).min(self.most);
        room.split_at_mut(count)
            .0
            .copy_from_slice(left.split_at(count).0);
        self.at += count;
        Taken::Got(count)
    }

    ghost given_below = { λ m. omega (arith, m.within, m.below) };
}

impl Sink for MemoryLink {
    ghost use Rattle.pktline_core.specs.MemoryViews.{memory_of};

    fn put(&mut self, piece: &[u8]) -> Put
        requires { 0 < length piece.now }
        ensures put { Puts (memory_state (memory_of self.old)) (memory_state (memory_of self.new)) piece.now result }
        ensures tells { TellsPut (memory_state (memory_of self.old)) (memory_state (memory_of self.new)) result }
        ensures reading { KeepsReading (memory_state (memory_of self.old)) (memory_state (memory_of self.new)) }
        ensures later { IsLater (memory_state (memory_of self.old)) (memory_state (memory_of self.new)) }
        ensures answer { IsPutAnswer (memory_of self.old) piece.now result }
        ensures after { memory_of self.new ≡ after_put (memory_of self.old) piece.now result }
    {
        let call = self.puts;
        self.puts = self.puts.saturating_add(1);
        if self.failing_puts.contains(&call) {
            self.write_faults = self.write_faults.saturating_add(1);
            return Put::Failed;
        }
        let count = piece.len().min(self.most);
        match self.output.extend_from_slice(piece.split_at(count).0) {
            Ok(()) => Put::Took(count),
            Err(_) => Put::NoMemory,
        }
    }
}

impl Link for MemoryLink {}
