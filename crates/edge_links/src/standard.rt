// The standard input and the standard output, as the two halves of a link.
ghost use Rattle.std.specs.Prelude.{◌≡◌, ◌<◌, ◌≤◌, ◌^◌, ◌||◌, length};
ghost use Rattle.std.specs.Option.{is_some};
ghost use Rattle.std.proofs.Common.{ap};
ghost use Rattle.base_types.specs.Counts.{one_more};
ghost use Rattle.pktline_core.specs.Links.{Takes, Puts, IsLater, KeepsReading, KeepsWriting};
ghost use Rattle.edge_links.specs.Standard.{reader_state, writer_state, faults_after_take, faults_after_put};

use pktline_core::{Endpoint, Put, Sink, Source, Taken};
use std::io::{Read, Stdin, Stdout, Write};

// A source gives fewer bytes than 2^63 in all.
const MOST_GIVEN: u64 = (1 << 63) - 1;

/// The standard input, or another reader in its place. It tells of the bytes what its reader tells, which of
/// the standard input is nothing.
///
/// A read of 0 bytes is the end, and each error is a fault. So is each call after 2^63 - 1 bytes.
#[derive(Drop)]
pub struct StdSource<R = Stdin> {
    pub(crate) input: R,
    pub(crate) given: u64,
    pub(crate) faults: u64,
    ghost given_below: { given < 2 ^ 63 },
}

impl<R: Read> StdSource<R> {
    /// A source of what the reader has left. It takes no memory.
    pub fn new(input: R) -> StdSource<R>
        ensures { ⟦<StdSource<R> as Endpoint>⟧.state result ≡ reader_state (R.remaining input) 0 0 }
    {
        StdSource {
            input,
            given: 0,
            faults: 0,
        }
    }

    // Counts a fault, and tells it.
    pub(crate) fn fail(&mut self) -> Taken
        ensures answer { result ≡ Taken.Failed }
        ensures faults { self.new.faults ≡ one_more self.old.faults }
        ensures rises { self.old.faults ≤ self.new.faults }
        ensures given { self.new.given ≡ self.old.given }
        ensures input { self.new.input ≡ self.old.input }
    {
        self.faults = self.faults.saturating_add(1);
        Taken::Failed
    }
}

impl<R: Read> Endpoint for StdSource<R> {
    ghost state = { λ s. reader_state (R.remaining s.input) s.given s.faults };

    ghost telling = { λ s tells. ap (λ b. b || is_some (R.remaining s.input)) tells };
}

impl<R: Read> Source for StdSource<R> {
    fn take(&mut self, room: &mut [u8]) -> Taken
        requires { 0 < length room.old }
        ensures taken { Takes (⟦<StdSource<R> as Endpoint>⟧.state self.old) (⟦<StdSource<R> as Endpoint>⟧.state self.new) room.new result }
        ensures writing { KeepsWriting (⟦<StdSource<R> as Endpoint>⟧.state self.old) (⟦<StdSource<R> as Endpoint>⟧.state self.new) }
        ensures later { IsLater (⟦<StdSource<R> as Endpoint>⟧.state self.old) (⟦<StdSource<R> as Endpoint>⟧.state self.new) }
        ensures faults { (⟦<StdSource<R> as Endpoint>⟧.state self.new).read_faults ≡ faults_after_take (⟦<StdSource<R> as Endpoint>⟧.state self.old).read_faults result }
    {
        let most = (MOST_GIVEN - self.given) as usize;
        if most == 0 {
            return self.fail();
        }
        let within = most.min(room.len());
        match self.input.read(room.split_at_mut(within).0) {
            Ok(0) => Taken::End,
            Ok(count) => {
                self.given += count as u64;
                Taken::Got(count)
            }
            Err(_) => self.fail(),
        }
    }

    ghost given_below = { λ s. s.given_below };
}

/// The standard output, or another writer in its place. It tells of the bytes what its writer tells, which of
/// the standard output is nothing.
///
/// Each call of `put` is one write to the system, so that nothing has to be flushed. An error is a fault, and
/// so is a write that takes 0 bytes.
#[derive(Drop)]
pub struct StdSink<W = Stdout> {
    pub(crate) output: W,
    pub(crate) faults: u64,
}

impl<W: Write> StdSink<W> {
    /// A sink over a writer that keeps nothing back, since none is flushed. It takes no memory.
    pub fn new(output: W) -> StdSink<W>
        ensures { ⟦<StdSink<W> as Endpoint>⟧.state result ≡ writer_state (W.contents output) 0 }
    {
        StdSink { output, faults: 0 }
    }

    // Counts a fault, and tells it.
    pub(crate) fn fail(&mut self) -> Put
        ensures answer { result ≡ Put.Failed }
        ensures faults { self.new.faults ≡ one_more self.old.faults }
        ensures rises { self.old.faults ≤ self.new.faults }
        ensures output { self.new.output ≡ self.old.output }
    {
        self.faults = self.faults.saturating_add(1);
        Put::Failed
    }
}

impl<W: Write> Endpoint for StdSink<W> {
    ghost state = { λ s. writer_state (W.contents s.output) s.faults };

    ghost telling = { λ s tells. tells };
}

impl<W: Write> Sink for StdSink<W> {
    fn put(&mut self, piece: &[u8]) -> Put
        requires { 0 < length piece.now }
        ensures put { Puts (⟦<StdSink<W> as Endpoint>⟧.state self.old) (⟦<StdSink<W> as Endpoint>⟧.state self.new) piece.now result }
        ensures reading { KeepsReading (⟦<StdSink<W> as Endpoint>⟧.state self.old) (⟦<StdSink<W> as Endpoint>⟧.state self.new) }
        ensures later { IsLater (⟦<StdSink<W> as Endpoint>⟧.state self.old) (⟦<StdSink<W> as Endpoint>⟧.state self.new) }
        ensures faults { (⟦<StdSink<W> as Endpoint>⟧.state self.new).write_faults ≡ faults_after_put (⟦<StdSink<W> as Endpoint>⟧.state self.old).write_faults result }
    {
        match self.output.write(piece) {
            Ok(count) if 0 < count => Put::Took(count),
            _ => self.fail(),
        }
    }
}
