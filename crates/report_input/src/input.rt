// All frames of an input.
ghost use Rattle.std.specs.Prelude.{◌≡◌, ◌<◌, ◌^◌, IfErr, IfNone, IfOk, IfSome};
ghost use Rattle.pktline_core.specs.Links.{IsLater};
ghost use Rattle.script_frames.specs.ReadingFrames.{TakesFrame, TakesLine};
ghost use Rattle.report_input.specs.Input.{AddsFile, ReadsInput, StopsAtAsk, StopsAtFile, StopsInFiles, StopsInput, TakesFiles, TellsInput, ask_word, input_fault};

use crate::confs::Confs;
use base_types::NoMemory;
use pktline_core::Source;
use script_frames::{Frame, FrameFault, read_frame};
use std::alloc::Global;

// The words of the frames, each with its space.
const ASK: &[u8] = b"ask ";

const FILE: &[u8] = b"file ";

/// Questions, and the confs that they are asked of.
#[derive(Drop)]
pub struct ReportInput {
    pub ask: Vec<u8>,
    pub confs: Confs,
}

/// Why an input isn't read as that.
#[derive(Clone, Copy, Debug, PartialEq, Eq)]
pub enum InputFault {
    /// No frame that is wanted stands at this offset.
    Bad(u64),
    Failed,
    NoMemory,
}

impl From<NoMemory> for InputFault {
    ghost use Rattle.report_input.specs.declared.input.InputFault.TheVariants as fault;

    ghost from_gives = { λ _ e. e ≡ fault.NoMemory };

    fn from(_error: NoMemory) -> InputFault {
        InputFault::NoMemory
    }
}

fn input_fault(fault: FrameFault, offset: u64) -> InputFault
    ensures { result ≡ input_fault fault offset }
{
    match fault {
        FrameFault::Bad => InputFault::Bad(offset),
        FrameFault::ReadFault => InputFault::Failed,
        FrameFault::NoMemory => InputFault::NoMemory,
    }
}

// The frame of questions, with which the input has to begin.
fn read_ask<S: Source>(alloc: Global, source: &mut S) -> Result<Frame, InputFault>
    ensures ok { IfOk result (λ frame. TakesFrame ask_word (S.state source.old) (S.state source.new) frame.taken frame.body.items) }
    ensures err { IfErr result (StopsAtAsk (S.state source.old) (S.state source.new)) }
    ensures tells { TellsInput (S.state source.old) (S.state source.new) result }
    ensures later { IsLater (S.state source.old) (S.state source.new) }
{
    match read_frame(alloc, ASK, source) {
        Ok(Some(frame)) => Ok(frame),
        Ok(None) => Err(InputFault::Bad(0)),
        Err(fault) => Err(input_fault(fault, 0)),
    }
}

// Adds the file of the next frame, and gives how many bytes the frame takes; or `None` at the end of the
// input.
fn add_file<S: Source>(
    alloc: Global,
    confs: &mut Confs,
    offset: u64,
    source: &mut S,
) -> Result<Option<u64>, InputFault>
    ensures some { IfOk result (λ found. IfSome found (AddsFile confs.old confs.new (S.state source.old) (S.state source.new))) }
    ensures none { IfOk result (λ found. IfNone found (TakesLine (S.state source.old) (S.state source.new) None × (confs.new ≡ confs.old))) }
    ensures err { IfErr result (StopsAtFile confs.old (S.state source.old) (S.state source.new) offset) }
    ensures tells { TellsInput (S.state source.old) (S.state source.new) result }
    ensures later { IsLater (S.state source.old) (S.state source.new) }
{
    match read_frame(alloc, FILE, source) {
        Ok(Some(frame)) => {
            if !confs.add(alloc, &frame.body)? {
                return Err(InputFault::Bad(offset));
            }
            Ok(Some(frame.taken))
        }
        Ok(None) => Ok(None),
        Err(fault) => Err(input_fault(fault, offset)),
    }
}

// The files of all frames up to the end of the input.
fn read_files<S: Source>(alloc: Global, offset: u64, source: &mut S) -> Result<Confs, InputFault>
    requires { offset < 2 ^ 63 }
    ensures ok { IfOk result (TakesFiles (S.state source.old) (S.state source.new)) }
    ensures err { IfErr result (StopsInFiles (S.state source.old) (S.state source.new) offset) }
    ensures tells { TellsInput (S.state source.old) (S.state source.new) result }
    ensures later { IsLater (S.state source.old) (S.state source.new) }
{
    let mut confs = Confs::new(alloc);
    let mut place = offset;
    while let Some(taken) = add_file(alloc, &mut confs, place, source)? {
        place += taken;
    }
    Ok(confs)
}

/// All frames.
pub(crate) fn read_input<S: Source>(
    alloc: Global,
    source: &mut S,
) -> Result<ReportInput, InputFault>
    ensures ok { IfOk result (λ input. ReadsInput (S.state source.old) (S.state source.new) input.ask.items input.confs) }
    ensures err { IfErr result (StopsInput (S.state source.old) (S.state source.new)) }
    ensures tells { TellsInput (S.state source.old) (S.state source.new) result }
{
    let ask = read_ask(alloc, source)?;
    let confs = read_files(alloc, ask.taken, source)?;
    Ok(ReportInput {
        ask: ask.body,
        confs,
    })
}
