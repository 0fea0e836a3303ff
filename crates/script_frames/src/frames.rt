// Frames of a script.
ghost use Rattle.std.specs.Prelude.{◌≡◌, decimal, IfOk, IfErr, IfSome, IfNone, Some};
ghost use Rattle.pktline_core.specs.Links.{IsLater};
ghost use Rattle.script_frames.specs.Faults.{fault_text};
ghost use Rattle.script_frames.specs.Frames.{IsWord, OneScript};
ghost use Rattle.script_frames.specs.ReadingFrames.{HasNoSize, IsNoNumber, IsSizeIn, StopsAtByte, StopsInBody, StopsInFrame, StopsInLine, TakesBody, TakesByte, TakesEnd, TakesFrame, TakesLine, TellsRead};

use arrayvec::ArrayVec;
use itoa::Buffer;
use pktline_core::{Source, TakeFault, Taken, take_all};
use std::alloc::{AllocError, Global};
use std::error::Error;
use std::{fmt, str};

/// Why no frame was read.
#[derive(Clone, Copy, Debug, PartialEq, Eq)]
pub enum FrameFault {
    /// The input leaves the form of a frame, or ends inside one.
    Bad,
    /// A read of the source failed.
    ReadFault,
    /// The frame's body found no memory.
    NoMemory,
}

impl fmt::Display for FrameFault {
    ghost output = { λ fault. Some (fault_text fault) };

    fn fmt<W: fmt::Write>(&self, f: &mut fmt::Formatter<W>) -> fmt::Result {
        match self {
            FrameFault::Bad => write!(f, "bad frame"),
            FrameFault::ReadFault => write!(f, "read failed"),
            FrameFault::NoMemory => write!(f, "out of memory"),
        }
    }
}

impl Error for FrameFault {}

impl From<AllocError> for FrameFault {
    ghost use Rattle.script_frames.specs.declared.frames.FrameFault.TheVariants as fault;

    ghost from_gives = { λ _ e. e ≡ fault.NoMemory };

    fn from(_error: AllocError) -> FrameFault {
        FrameFault::NoMemory
    }
}

/// A frame, and how many bytes it takes in the script.
#[derive(Drop)]
pub struct Frame {
    /// The bytes between the two line feeds: at most 300,000,000.
    pub body: Vec<u8>,
    /// In bytes: the first line, the body, and a line feed behind each of them.
    pub taken: u64,
}

// How many bytes the body of a frame has at most.
const LARGEST_BODY: u32 = 300_000_000;

// How many bytes the first line of a frame has at most: a word of seven bytes, a space and nine digits.
const LONGEST_LINE: usize = 17;

// Room for a body is made for so many bytes more than have come.
const CHUNK: usize = 65_536;

fn take_byte<S: Source>(source: &mut S) -> Result<Option<u8>, FrameFault>
    ensures ok { IfOk result (TakesByte (S.state source.old) (S.state source.new)) }
    ensures err { IfErr result (StopsAtByte (S.state source.old) (S.state source.new)) }
    ensures tells { TellsRead (S.state source.old) (S.state source.new) result }
    ensures later { IsLater (S.state source.old) (S.state source.new) }
{
    let mut room = [0];
    match source.take(&mut room) {
        Taken::Got(_) => Ok(Some(room[0])),
        Taken::End => Ok(None),
        Taken::Failed => Err(FrameFault::ReadFault),
    }
}

// The first line of a frame, or `None` at the end of the input. It lies on the stack.
fn read_line<S: Source>(source: &mut S) -> Result<Option<ArrayVec<u8, LONGEST_LINE>>, FrameFault>
    ensures some { IfOk result (λ found. IfSome found (λ line. TakesLine (S.state source.old) (S.state source.new) (Some line.items))) }
    ensures none { IfOk result (λ found. IfNone found (TakesLine (S.state source.old) (S.state source.new) None)) }
    ensures err { IfErr result (StopsInLine (S.state source.old) (S.state source.new)) }
    ensures tells { TellsRead (S.state source.old) (S.state source.new) result }
    ensures later { IsLater (S.state source.old) (S.state source.new) }
{
    let mut line = ArrayVec::new();
    loop {
        let Some(byte) = take_byte(source)? else {
            if line.is_empty() {
                return Ok(None);
            }
            return Err(FrameFault::Bad);
        };
        if byte == b'\n' {
            return Ok(Some(line));
        }
        let Ok(()) = line.try_push(byte) else {
            return Err(FrameFault::Bad);
        };
    }
}

// The number whose decimal digits these are, in its one spelling: as it is printed.
fn number_in(digits: &[u8]) -> Option<u32>
    ensures some { IfSome result (λ n. digits.now ≡ decimal n) }
    ensures none { IfNone result (IsNoNumber digits.now) }
{
    let Ok(text) = str::from_utf8(digits) else {
        return None;
    };
    let Ok(number) = text.parse::<u32>() else {
        return None;
    };
    if Buffer::new().format(number) != text {
        return None;
    }
    Some(number)
}

// How many bytes the body has that this first line announces.
fn size_in(word: &[u8], line: &[u8]) -> Option<u32>
    requires { IsWord word.now }
    ensures some { IfSome result (IsSizeIn word.now line.now) }
    ensures none { IfNone result (HasNoSize word.now line.now) }
{
    let Some(digits) = line.strip_prefix(word) else {
        return None;
    };
    let Some(size) = number_in(digits) else {
        return None;
    };
    if size > LARGEST_BODY {
        return None;
    }
    Some(size)
}

// A body of so many bytes. Its room grows as they come.
fn read_body<S: Source>(alloc: Global, source: &mut S, size: usize) -> Result<Vec<u8>, FrameFault>
    ensures ok { IfOk result (λ body. TakesBody (S.state source.old) (S.state source.new) size body.items) }
    ensures err { IfErr result (StopsInBody (S.state source.old) (S.state source.new) size) }
    ensures tells { TellsRead (S.state source.old) (S.state source.new) result }
    ensures later { IsLater (S.state source.old) (S.state source.new) }
{
    let mut body = Vec::new(alloc);
    while body.len() < size {
        let filled = body.len();
        let wanted = CHUNK.min(size - filled);
        body.resize(filled + wanted, 0)?;
        match take_all(source, body.split_at_mut(filled).1) {
            Ok(()) => {}
            Err(TakeFault::Ended) => return Err(FrameFault::Bad),
            Err(TakeFault::Failed) => return Err(FrameFault::ReadFault),
        }
    }
    Ok(body)
}

/// The frame of a word, which has its space, that stands at the front of the source, or `None` at the end of
/// the input. No byte behind the frame's last line feed is taken, and the memory that is taken grows with the
/// bytes that come.
pub fn read_frame<S: Source>(
    alloc: Global,
    word: &[u8],
    source: &mut S,
) -> Result<Option<Frame>, FrameFault>
    requires { IsWord word.now }
    ensures some { IfOk result (λ found. IfSome found (λ frame. TakesFrame word.now (S.state source.old) (S.state source.new) frame.taken frame.body.items)) }
    ensures none { IfOk result (λ found. IfNone found (TakesLine (S.state source.old) (S.state source.new) None)) }
    ensures err { IfErr result (StopsInFrame word.now (S.state source.old) (S.state source.new)) }
    ensures tells { TellsRead (S.state source.old) (S.state source.new) result }
    ensures later { IsLater (S.state source.old) (S.state source.new) }
{
    let Some(line) = read_line(source)? else {
        return Ok(None);
    };
    let Some(size) = size_in(word, line.as_slice()) else {
        return Err(FrameFault::Bad);
    };
    let body = read_body(alloc, source, size as usize)?;
    match take_byte(source)? {
        Some(b'\n') => {
            let taken = line.len() as u64 + 1 + u64::from(size) + 1;
            Ok(Some(Frame { body, taken }))
        }
        Some(_) => Err(FrameFault::Bad),
        None => Err(FrameFault::Bad),
    }
}

/// Whether a source is at its end. Where it isn't, one byte is taken.
pub fn read_end<S: Source>(source: &mut S) -> Result<bool, FrameFault>
    ensures ok { IfOk result (TakesEnd (S.state source.old) (S.state source.new)) }
    ensures err { IfErr result (StopsAtByte (S.state source.old) (S.state source.new)) }
    ensures tells { TellsRead (S.state source.old) (S.state source.new) result }
    ensures later { IsLater (S.state source.old) (S.state source.new) }
{
    Ok(take_byte(source)?.is_none())
}

/// An input is a script in one way; a call does nothing.
pub fn scripts_differ()
    ensures { OneScript }
{}
