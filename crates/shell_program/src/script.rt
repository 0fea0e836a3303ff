// A script: sessions one after the other on one desk, and what is printed of them.
ghost use Rattle.std.specs.Prelude.{◌≡◌, Bool, IfOk, IfErr, IfSome, IfNone, IsTrue, OnOk, Some, false};
ghost use Rattle.std.specs.Io.KnownBytes.{Appends};
ghost use Rattle.pktline_core.specs.Links.{IsLater};
ghost use Rattle.interaction_tree.specs.Traces.{Ended, Failed, Failure};
ghost use Rattle.session_core.specs.End.{halt_of};
ghost use Rattle.shell_program.specs.Faults.{script_fault_text};
ghost use Rattle.shell_program.specs.Script.{end_word, fault_text, reply_text};
ghost use Rattle.shell_program.specs.RunningScripts.{AdvancesOne, FindsEnd, RunsScript, Serves, StopsAdvancing, StopsScript, StopsSession, StopsWriting, TellsBroken, TellsInput, TellsOutput};

use base_types::NoMemory;
use git_session::session;
use hub::{Desk, LoneDesk};
use itoa::Buffer;
use pktline_core::{MemoryLink, Sink, Source, WriteFault, write_all};
use script_frames::{FrameFault, read_frame};
use session_core::{OpenGate, PacketBuffer, SessionEnd};
use std::alloc::Global;
use std::error::Error;
use std::fmt;

/// Why a script ended before its input did.
#[derive(Clone, Copy, Debug, PartialEq, Eq)]
pub enum ScriptFault {
    /// A frame leaves its form, or the input ends inside it.
    BadScript,
    /// A read of the input failed.
    InputFault,
    /// A write of the output failed.
    OutputFault,
    /// What the desk answered in a session may not be kept.
    DiskFault,
    NoMemory,
}

impl fmt::Display for ScriptFault {
    ghost output = { λ fault. Some (script_fault_text fault) };

    fn fmt<W: fmt::Write>(&self, f: &mut fmt::Formatter<W>) -> fmt::Result {
        match self {
            ScriptFault::BadScript => write!(f, "bad script"),
            ScriptFault::InputFault => write!(f, "read failed"),
            ScriptFault::OutputFault => write!(f, "write failed"),
            ScriptFault::DiskFault => write!(f, "disk failed"),
            ScriptFault::NoMemory => write!(f, "out of memory"),
        }
    }
}

impl Error for ScriptFault {}

/// A desk at which a script runs. It may have lost the disk on which its log is kept.
pub trait ScriptDesk: Desk {
    ghost is_broken: { Self → Bool };

    /// Whether what it answered may not be kept.
    fn is_broken(&self) -> bool
        ensures { result ≡ is_broken self.now };
}

impl ScriptDesk for LoneDesk {
    ghost is_broken = { λ _. false };

    fn is_broken(&self) -> bool {
        false
    }
}

impl From<NoMemory> for ScriptFault {
    ghost use Rattle.shell_program.specs.declared.script.ScriptFault.TheVariants as fault;

    ghost from_gives = { λ _ e. e ≡ fault.NoMemory };

    fn from(_error: NoMemory) -> ScriptFault {
        ScriptFault::NoMemory
    }
}

// What is printed of a session has room for so many bytes beside its reply: the words and numbers before it,
// and the line feed behind it.
const ROOM_BESIDE: usize = 64;

// The word of a script's frames, and its space.
const SESSION: &[u8] = b"session ";

// How many bytes a call on a session's link moves at most.
pub(crate) const MOST_MOVED: usize = 65_536;

// The word for an end that a session comes to by itself. Over a link that can't fail only want of memory is
// another.
pub(crate) fn word(end: SessionEnd) -> Option<&'static str>
    ensures some { IfSome result (λ word. (word.now ≡ end_word end) × (halt_of end ≡ Ended end)) }
    ensures none { IfNone result ((failure : Failure) × (halt_of end ≡ Failed failure)) }
{
    match end {
        SessionEnd::Served => Some("served"),
        SessionEnd::Denied => Some("denied"),
        SessionEnd::NoRepo => Some("no-repo"),
        SessionEnd::BadCommand => Some("bad-command"),
        SessionEnd::BadUser => Some("bad-user"),
        SessionEnd::Malformed(_) => Some("malformed"),
        SessionEnd::TooLong(_) => Some("too-long"),
        SessionEnd::Truncated => Some("truncated"),
        SessionEnd::BadPack(_) => Some("bad-pack"),
        SessionEnd::NotOurRef(_) => Some("not-our-ref"),
        SessionEnd::ReadFault => None,
        SessionEnd::WriteFault => None,
        SessionEnd::NoMemory => None,
    }
}

#[tactic(auto, unfolding(crate::specs::Script::reply_text))]
fn reply_text(alloc: Global, number: u64, word: &str, reply: &[u8]) -> Result<Vec<u8>, NoMemory>
    ensures { IfOk result (λ text. text.items ≡ reply_text number word.now reply.now) }
{
    let mut digits = Buffer::new();
    let mut text = Vec::with_capacity(alloc, reply.len() + ROOM_BESIDE)?;
    text.extend_from_slice(b"session ")?;
    text.extend_from_slice(digits.format(number).as_bytes())?;
    text.extend_from_slice(b" ")?;
    text.extend_from_slice(word.as_bytes())?;
    text.extend_from_slice(b" ")?;
    text.extend_from_slice(digits.format(reply.len()).as_bytes())?;
    text.extend_from_slice(b"\n")?;
    text.extend_from_slice(reply)?;
    text.extend_from_slice(b"\n")?;
    Ok(text)
}

#[tactic(auto, unfolding(crate::specs::Script::fault_text))]
pub(crate) fn fault_text(alloc: Global, offset: u64) -> Result<Vec<u8>, NoMemory>
    ensures { IfOk result (λ text. text.items ≡ fault_text offset) }
{
    let mut text = Vec::new(alloc);
    text.extend_from_slice(b"bad script at ")?;
    text.extend_from_slice(Buffer::new().format(offset).as_bytes())?;
    text.extend_from_slice(b"\n")?;
    Ok(text)
}

/// Writes a text whole, or says why not.
pub fn write_text<O: Sink>(output: &mut O, text: &[u8]) -> Result<(), ScriptFault>
    ensures ok { OnOk result (Appends ((O.state output.old).written) ((O.state output.new).written) text.now) }
    ensures err { IfErr result (StopsWriting (O.state output.old) (O.state output.new) text.now) }
    ensures tells { TellsOutput (O.state output.old) (O.state output.new) result }
    ensures later { IsLater (O.state output.old) (O.state output.new) }
{
    match write_all(output, text) {
        Ok(()) => Ok(()),
        Err(WriteFault::Failed) => Err(ScriptFault::OutputFault),
        Err(WriteFault::NoMemory) => Err(ScriptFault::NoMemory),
    }
}

// Serves one session, whose input is at hand, and gives what is printed of it.
fn serve<K: ScriptDesk>(
    alloc: Global,
    number: u64,
    body: Vec<u8>,
    desk: &mut K,
    buffer: &mut PacketBuffer,
) -> Result<Vec<u8>, ScriptFault>
    requires { IsTrue (K.view desk.old).alone }
    ensures ok { IfOk result (λ text. Serves (K.view desk.old) (K.view desk.new) number body.items text.items) }
    ensures err { IfErr result (StopsSession (K.view desk.old) (K.view desk.new) number body.items) }
    ensures tells { TellsBroken (K.is_broken desk.new) result }
    ensures admin { (K.view desk.new).admin ≡ (K.view desk.old).admin }
    ensures goes { K.goes_on desk.old desk.new }
{
    let mut link = MemoryLink::new(body, MOST_MOVED, Vec::new(alloc), Vec::new(alloc));
    let end = session(alloc, &mut link, desk, &mut OpenGate, buffer);
    let Some(word) = word(end) else {
        return Err(ScriptFault::NoMemory);
    };
    if desk.is_broken() {
        return Err(ScriptFault::DiskFault);
    }
    match reply_text(alloc, number, word, link.written()) {
        Ok(text) => Ok(text),
        Err(NoMemory) => Err(ScriptFault::NoMemory),
    }
}

// Reads the next frame, serves its session and prints that, and gives how many bytes the frame takes; or
// `None` at the end of the input. A bad frame is printed with its offset.
fn advance<I: Source, O: Sink, K: ScriptDesk>(
    alloc: Global,
    number: u64,
    offset: u64,
    input: &mut I,
    output: &mut O,
    desk: &mut K,
    buffer: &mut PacketBuffer,
) -> Result<Option<u64>, ScriptFault>
    requires alone { IsTrue (K.view desk.old).alone }
    requires unbroken { K.is_broken desk.old ≡ false }
    ensures some { IfOk result (λ found. IfSome found (AdvancesOne (I.state input.old) (I.state input.new) (O.state output.old) (O.state output.new) (K.view desk.old) (K.view desk.new) number)) }
    ensures none { IfOk result (λ found. IfNone found (FindsEnd (I.state input.old) (I.state input.new) (O.state output.old) (O.state output.new) (K.view desk.old) (K.view desk.new))) }
    ensures err { IfErr result (StopsAdvancing (I.state input.old) (I.state input.new) (O.state output.old) (O.state output.new) (K.view desk.old) (K.view desk.new) number offset) }
    ensures tells_input { TellsInput (I.state input.old) (I.state input.new) result }
    ensures tells_output { TellsOutput (O.state output.old) (O.state output.new) result }
    ensures tells_broken { TellsBroken (K.is_broken desk.new) result }
    ensures input { IsLater (I.state input.old) (I.state input.new) }
    ensures output { IsLater (O.state output.old) (O.state output.new) }
    ensures admin { (K.view desk.new).admin ≡ (K.view desk.old).admin }
    ensures goes { K.goes_on desk.old desk.new }
{
    match read_frame(alloc, SESSION, input) {
        Ok(Some(frame)) => {
            let text = serve(alloc, number, frame.body, desk, buffer)?;
            write_text(output, &text)?;
            Ok(Some(frame.taken))
        }
        Ok(None) => Ok(None),
        Err(FrameFault::Bad) => {
            let text = fault_text(alloc, offset)?;
            write_text(output, &text)?;
            Err(ScriptFault::BadScript)
        }
        Err(FrameFault::ReadFault) => Err(ScriptFault::InputFault),
        Err(FrameFault::NoMemory) => Err(ScriptFault::NoMemory),
    }
}

/// Runs a script at the only desk of a hub: reads the frames of the input one after the other, and prints of
/// each session as soon as it is served. A session in which the desk broke is the last, and isn't printed.
pub fn run_script<I: Source, O: Sink, K: ScriptDesk>(
    alloc: Global,
    input: &mut I,
    output: &mut O,
    desk: &mut K,
) -> Result<(), ScriptFault>
    requires alone { IsTrue (K.view desk.old).alone }
    requires unbroken { K.is_broken desk.old ≡ false }
    ensures ok { OnOk result (RunsScript (I.state input.old) (I.state input.new) (O.state output.old) (O.state output.new) ((K.view desk.old).admin) ((K.view desk.old).seen) ((K.view desk.new).seen) false) }
    ensures err { IfErr result (StopsScript (I.state input.old) (I.state input.new) (O.state output.old) (O.state output.new) ((K.view desk.old).admin) ((K.view desk.old).seen) ((K.view desk.new).seen)) }
    ensures tells_input { TellsInput (I.state input.old) (I.state input.new) result }
    ensures tells_output { TellsOutput (O.state output.old) (O.state output.new) result }
    ensures tells_broken { TellsBroken (K.is_broken desk.new) result }
    ensures admin { (K.view desk.new).admin ≡ (K.view desk.old).admin }
    ensures goes { K.goes_on desk.old desk.new }
{
    let mut buffer = PacketBuffer::new();
    let mut number = 1;
    let mut offset = 0;
    while let Some(taken) = advance(alloc, number, offset, input, output, desk, &mut buffer)? {
        number += 1;
        offset += taken;
    }
    Ok(())
}
