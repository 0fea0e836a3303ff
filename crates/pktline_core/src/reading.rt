// Packets, read from a source.
ghost use Rattle.std.specs.Prelude.{◌≡◌, ◌+◌, ◌≤◌, ◌<◌, length, take, false, List, ℕ, IfOk, IfSome, OnOk, Some};
ghost use Rattle.std.specs.Borrow.{sem};
ghost use Rattle.std.specs.Io.BufRead.{Rests};
ghost use Rattle.pktline_core.specs.Links.{IsLater, KeepsWriting};
ghost use Rattle.pktline_core.specs.Packets.{digit_value, number_of};
ghost use Rattle.pktline_core.specs.Reading.{answer_of, ReadsPacket, AnswersLeft, MovesReader, TellsFault};
ghost use Rattle.pktline_core.specs.Heads.{ReadsHead, head_answer, IsWithin};
ghost use Rattle.pktline_core.specs.contracts.reading.PktReader.{the_row};

use crate::NoMemory;
use crate::links::{Source, TakeFault, take_all};
use crate::packets::{MAX_PAYLOAD, Pkt, PktFault};
use std::alloc::Global;
use std::marker::Model;

/// A reader of packets, which keeps the payload of the last one. It has room for the longest payload from the
/// start, and clears of it what payloads use.
#[derive(Drop)]
pub struct PktReader {
    buffer: Vec<u8>,
    offset: u64,
    failed: bool,
}

impl Model for PktReader {
    ghost use Rattle.std.specs.Prelude.{◌≤◌, length};
    ghost use Rattle.std.specs.Vec.{vec_capacity};
    ghost use Rattle.pktline_core.specs.Reading.{ReaderState};

    ghost Value = { ReaderState };

    ghost view = { λ r. record { offset = r.offset; failed = r.failed; buffer = r.buffer.items } };

    ghost invariant = { λ r. (length r.buffer.items ≤ 65516) × (65516 ≤ vec_capacity r.buffer) };
}

impl PktReader {
    /// A reader at the beginning of its input. It takes its buffer of 65,516 bytes here, and no memory later.
    pub fn new(alloc: Global) -> Result<PktReader, NoMemory>
        ensures offset { IfOk result (λ r. r.offset ≡ 0) }
        ensures failed { IfOk result (λ r. r.failed ≡ false) }
    {
        Ok(PktReader {
            buffer: Vec::with_capacity(alloc, MAX_PAYLOAD)?,
            offset: 0,
            failed: false,
        })
    }

    /// Stands at the beginning of another input, with the buffer that it has.
    pub fn restart(&mut self)
        ensures offset { self.new.offset ≡ 0 }
        ensures failed { self.new.failed ≡ false }
    {
        self.offset = 0;
        self.failed = false;
    }

    /// The number of bytes that whole packets took: the place of the packet that comes next, or of the one
    /// that broke.
    pub fn offset(&self) -> u64
        ensures { result ≡ self.now.offset }
    {
        self.offset
    }

    /// The next packet, whose payload is lent until the next call. It is copied once, into the reader's
    /// buffer.
    pub fn next<S: Source>(&mut self, source: &mut S) -> Result<Pkt<'_>, PktFault>
        requires ready { self.old.failed ≡ false }
        requires behind { self.old.offset ≤ (S.state source.old).given }
        ensures reads { ReadsPacket (S.state source.old) (S.state source.new) (answer_of result) }
        ensures told { AnswersLeft ((S.state source.old).left) ((S.state source.new).left) (answer_of result) }
        ensures* moves { sem 𝓛 (Rests the_row self.entry (λ new. MovesReader self.old new (S.state source.old) (S.state source.new) (answer_of result))) }
        ensures progress { OnOk result ((S.state source.old).given + 4 ≤ (S.state source.new).given) }
        ensures tells { TellsFault (S.state source.old) (S.state source.new) result }
        ensures writing { KeepsWriting (S.state source.old) (S.state source.new) }
        ensures later { IsLater (S.state source.old) (S.state source.new) }
    {
        match self.advance(source) {
            Ok(Head::Line(size)) => Ok(Pkt::Line(self.payload(size))),
            Ok(Head::Flush) => Ok(Pkt::Flush),
            Err(fault) => Err(fault),
        }
    }

    // Reads a packet and moves behind it; a line's payload then lies at the front of the buffer.
    fn advance<S: Source>(&mut self, source: &mut S) -> Result<Head, PktFault>
        requires ready { self.old.failed ≡ false }
        requires behind { self.old.offset ≤ (S.state source.old).given }
        ensures size { IfOk result (IsWithin (length self.new.buffer)) }
        ensures reads { ReadsPacket (S.state source.old) (S.state source.new) (head_answer self.new.buffer result) }
        ensures told { AnswersLeft ((S.state source.old).left) ((S.state source.new).left) (head_answer self.new.buffer result) }
        ensures moves { MovesReader self.old self.new (S.state source.old) (S.state source.new) (head_answer self.new.buffer result) }
        ensures progress { OnOk result ((S.state source.old).given + 4 ≤ (S.state source.new).given) }
        ensures tells { TellsFault (S.state source.old) (S.state source.new) result }
        ensures writing { KeepsWriting (S.state source.old) (S.state source.new) }
        ensures later { IsLater (S.state source.old) (S.state source.new) }
    {
        let head = match read_head(source) {
            Ok(head) => head,
            Err(fault) => {
                self.failed = true;
                return Err(fault);
            }
        };
        match head {
            Head::Line(size) => {
                self.lengthen(size);
                if let Err(fault) = take_all(source, self.buffer.split_at_mut(size).0) {
                    self.failed = true;
                    return Err(fault.into());
                }
                self.offset += 4 + size as u64;
                Ok(Head::Line(size))
            }
            Head::Flush => {
                self.offset += 4;
                Ok(Head::Flush)
            }
        }
    }

    // Makes the buffer as long as a payload, where it is shorter. It has room for any payload, so this takes
    // no memory, and a byte is cleared once.
    fn lengthen(&mut self, size: usize)
        requires { size ≤ 65516 }
        ensures within { size ≤ length self.new.buffer }
        ensures offset { self.new.offset ≡ self.old.offset }
        ensures failed { self.new.failed ≡ self.old.failed }
    {
        if self.buffer.len() >= size {
            return;
        }
        let Ok(()) = self.buffer.resize(size, 0) else {
            unreachable!()
        };
    }

    fn payload(&self, size: usize) -> &[u8]
        requires { size ≤ length self.now.buffer }
        ensures { result.now ≡ take size self.now.buffer }
    {
        self.buffer.split_at(size).0
    }
}

// What four digits say.
// The most that the length of a packet says: its own four digits and the payload.
const MAX_LENGTH: u32 = 65_520;

#[derive(Clone, Copy)]
enum Head {
    // A payload of so many bytes follows.
    Line(usize),
    Flush,
}

fn read_head<S: Source>(source: &mut S) -> Result<Head, PktFault>
    ensures reads { ReadsHead (S.state source.old) (S.state source.new) result }
    ensures tells { TellsFault (S.state source.old) (S.state source.new) result }
    ensures writing { KeepsWriting (S.state source.old) (S.state source.new) }
    ensures later { IsLater (S.state source.old) (S.state source.new) }
{
    let mut digits = [0; 4];
    take_all(source, &mut digits)?;
    match number(&digits) {
        Some(0) => Ok(Head::Flush),
        Some(size @ 4..=MAX_LENGTH) => Ok(Head::Line(size as usize - 4)),
        _ => Err(PktFault::BadLength),
    }
}

fn number(digits: &[u8; 4]) -> Option<u32>
    ensures { result ≡ number_of digits.now }
{
    let [a, b, c, d] = digits;
    let high = 16 * value_of(*a)? + value_of(*b)?;
    let low = 16 * value_of(*c)? + value_of(*d)?;
    Some(256 * high + low)
}

fn value_of(digit: u8) -> Option<u32>
    ensures value { result ≡ digit_value digit }
    ensures below { IfSome result (λ value. value < 16) }
{
    match digit {
        b'0'..=b'9' => Some(u32::from(digit - b'0')),
        b'a'..=b'f' => Some(u32::from(digit - b'a' + 10)),
        b'A'..=b'F' => Some(u32::from(digit - b'A' + 10)),
        _ => None,
    }
}
