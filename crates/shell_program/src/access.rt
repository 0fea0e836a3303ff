// The command `access`: questions and confs are read, and what they come to is printed.
ghost use Rattle.std.specs.Prelude.{◌≡◌, ◌⊎◌, ◌<◌, ◌≤◌, ◌^◌, length, vec_items, IfErr, IfNone, IfOk, IfSome, None, OnOk};
ghost use Rattle.std.specs.Option.{option_map};
ghost use Rattle.pktline_core.specs.Links.{IsLater};
ghost use Rattle.rule_compile.specs.Patterns.{AreTrue, Patterns};
ghost use Rattle.conf_check.specs.Report.{only_file};
ghost use Rattle.script_frames.specs.Frames.{IsWord, largest_body};
ghost use Rattle.script_frames.specs.ReadingFrames.{TakesByte, TakesFrame};
ghost use Rattle.access_report.specs.Access.{Prints, access};
ghost use Rattle.access_report.specs.Writing.{TellsWrites};
ghost use Rattle.shell_program.specs.Lone.{TellsStatus};
ghost use Rattle.shell_program.specs.Access.{EndsAccess, ReadsInput, StopsAtEnd, StopsAtFrame, StopsAtOther, StopsInput, TakesLast, TellsBad, TellsInput, access_status, input_fault};
ghost use Rattle.shell_program.specs.Status.{status_number};

use crate::script::{fault_text, write_text};
use crate::status::{Status, status_of};
use access_report::{ConfFile, FileList, Printed, ReportFault, print_access};
use base_types::{NoMemory, Text};
use pktline_core::{Sink, Source};
use rule_compile::some_patterns_are_true;
use script_frames::{Frame, FrameFault, read_end, read_frame};
use std::alloc::Global;

// The words of the frames, each with its space.
const ASK: &[u8] = b"ask ";

const CONF: &[u8] = b"conf ";

/// Questions, and the conf, or the two confs, that they are asked of.
#[derive(Drop)]
pub struct AccessInput {
    ask: Vec<u8>,
    conf: Vec<u8>,
    other: Option<Vec<u8>>,
}

/// Why an input isn't read as that.
#[derive(Clone, Copy, Debug, PartialEq, Eq)]
pub enum InputFault {
    /// No frame that is wanted stands at this offset.
    Bad(u64),
    Failed,
    NoMemory,
}

// A frame that has to be there, and where the next would begin.
fn read_wanted<S: Source>(
    alloc: Global,
    word: &[u8],
    offset: u64,
    source: &mut S,
) -> Result<Frame, InputFault>
    requires { IsWord word.now }
    ensures ok { IfOk result (λ frame. TakesFrame word.now (S.state source.old) (S.state source.new) frame.taken frame.body.items) }
    ensures err { IfErr result (StopsAtFrame word.now (S.state source.old) (S.state source.new) offset) }
    ensures tells { TellsInput (S.state source.old) (S.state source.new) result }
    ensures later { IsLater (S.state source.old) (S.state source.new) }
{
    match read_frame(alloc, word, source) {
        Ok(Some(frame)) => Ok(frame),
        Ok(None) => Err(InputFault::Bad(offset)),
        Err(fault) => Err(input_fault(fault, offset)),
    }
}

fn input_fault(fault: FrameFault, offset: u64) -> InputFault
    ensures { result ≡ input_fault fault offset }
{
    match fault {
        FrameFault::Bad => InputFault::Bad(offset),
        FrameFault::ReadFault => InputFault::Failed,
        FrameFault::NoMemory => InputFault::NoMemory,
    }
}

// The second conf, unless the input is at its end; behind it the input has to end.
fn read_other<S: Source>(
    alloc: Global,
    offset: u64,
    source: &mut S,
) -> Result<Option<Vec<u8>>, InputFault>
    requires { offset < 2 ^ 63 }
    ensures some { IfOk result (λ found. IfSome found (λ conf. TakesLast (S.state source.old) (S.state source.new) conf.items)) }
    ensures none { IfOk result (λ found. IfNone found (TakesByte (S.state source.old) (S.state source.new) None)) }
    ensures err { IfErr result (StopsAtOther (S.state source.old) (S.state source.new) offset) }
    ensures tells { TellsInput (S.state source.old) (S.state source.new) result }
    ensures later { IsLater (S.state source.old) (S.state source.new) }
{
    match read_frame(alloc, CONF, source) {
        Ok(Some(frame)) => {
            expect_end(offset + frame.taken, source)?;
            Ok(Some(frame.body))
        }
        Ok(None) => Ok(None),
        Err(fault) => Err(input_fault(fault, offset)),
    }
}

fn expect_end<S: Source>(offset: u64, source: &mut S) -> Result<(), InputFault>
    ensures ok { OnOk result (TakesByte (S.state source.old) (S.state source.new) None) }
    ensures err { IfErr result (StopsAtEnd (S.state source.old) (S.state source.new) offset) }
    ensures tells { TellsInput (S.state source.old) (S.state source.new) result }
    ensures later { IsLater (S.state source.old) (S.state source.new) }
{
    match read_end(source) {
        Ok(true) => Ok(()),
        Ok(false) => Err(InputFault::Bad(offset)),
        Err(fault) => Err(input_fault(fault, offset)),
    }
}

// All frames.
fn read_input<S: Source>(alloc: Global, source: &mut S) -> Result<AccessInput, InputFault>
    ensures ok { IfOk result (λ input. ReadsInput (S.state source.old) (S.state source.new) input.ask.items input.conf.items (option_map vec_items input.other)) }
    ensures err { IfErr result (StopsInput (S.state source.old) (S.state source.new)) }
    ensures tells { TellsInput (S.state source.old) (S.state source.new) result }
{
    let ask = read_wanted(alloc, ASK, 0, source)?;
    let conf = read_wanted(alloc, CONF, ask.taken, source)?;
    let other = read_other(alloc, ask.taken + conf.taken, source)?;
    Ok(AccessInput {
        ask: ask.body,
        conf: conf.body,
        other,
    })
}

// The conf whose only file has these bytes.
fn only_file(alloc: Global, input: Vec<u8>) -> Result<FileList, NoMemory>
    ensures { IfOk result (λ files. files ≡ only_file input.items) }
{
    let mut files = FileList::new(alloc);
    files.push(ConfFile {
        name: Text::of(alloc, b"gitolite.conf")?,
        text: Text::from(input),
    })?;
    Ok(files)
}

// Prints what is due of the input.
fn print_due<O: Sink>(
    alloc: Global,
    input: AccessInput,
    output: &mut O,
) -> Result<Printed, ReportFault>
    requires { length input.ask.items ≤ largest_body }
    ensures prints { (ps : Patterns) → AreTrue ps → Prints (O.state output.old) (O.state output.new) (access ps input.ask.items (only_file input.conf.items) (option_map only_file (option_map vec_items input.other))) result }
    ensures tells { TellsWrites (O.state output.old) (O.state output.new) result }
{
    let AccessInput { ask, conf, other } = input;
    let conf = only_file(alloc, conf)?;
    let other = match other {
        Some(other) => Some(only_file(alloc, other)?),
        None => None,
    };
    print_access(alloc, output, &ask, &conf, other.as_ref())
}

fn print_bad<O: Sink>(alloc: Global, offset: u64, output: &mut O) -> Status
    ensures bad { TellsBad (O.state output.old) (O.state output.new) offset result }
    ensures tells { (status_number result ≡ 3) ⊎ ((O.state output.new).write_faults ≡ (O.state output.old).write_faults) }
{
    let Ok(text) = fault_text(alloc, offset) else {
        return Status::NoMemory;
    };
    match write_text(output, &text) {
        Ok(()) => Status::BadScript,
        Err(fault) => status_of(Err(fault)),
    }
}

fn access_status(printed: Result<Printed, ReportFault>) -> Status
    ensures { result ≡ access_status printed }
{
    match printed {
        Ok(Printed::Report) => Status::Done,
        Ok(Printed::BadQuestion) => Status::BadQuestion,
        Ok(Printed::ConfFault) => Status::ConfRefused,
        Err(ReportFault::WriteFault) => Status::OutputFault,
        Err(ReportFault::NoMemory) => Status::NoMemory,
    }
}

/// Reads questions and confs from the input to its end, and prints who may do what.
pub fn run_access<I: Source, O: Sink>(alloc: Global, input: &mut I, output: &mut O) -> Status
    ensures ends { EndsAccess (I.state input.old) (I.state input.new) (O.state output.old) (O.state output.new) result }
    ensures tells { TellsStatus (I.state input.old) (I.state input.new) (O.state output.old) (O.state output.new) (status_number result) }
{
    // called for its clause that there are answers to questions on patterns, so that the report says
    // something
    some_patterns_are_true();
    match read_input(alloc, input) {
        Ok(asked) => access_status(print_due(alloc, asked, output)),
        Err(InputFault::Bad(offset)) => print_bad(alloc, offset, output),
        Err(InputFault::Failed) => Status::InputFault,
        Err(InputFault::NoMemory) => Status::NoMemory,
    }
}
