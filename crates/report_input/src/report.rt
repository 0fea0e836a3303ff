// What is printed of an input, and how it ends.
ghost use Rattle.std.specs.Prelude.{◌≡◌, ◌≤◌, length, IfOk};
ghost use Rattle.rule_compile.specs.Patterns.{AreTrue, Patterns};
ghost use Rattle.script_frames.specs.Frames.{largest_body};
ghost use Rattle.access_report.specs.Access.{Prints};
ghost use Rattle.access_report.specs.Writing.{TellsWrites};
ghost use Rattle.report_input.specs.Ends.{EndsReport, TellsBad, TellsEnd, TellsOutput, due, end_number, fault_text, report_end};

use crate::input::{InputFault, ReportInput, read_input};
use access_report::{Printed, ReportFault, print_access};
use base_types::NoMemory;
use itoa::Buffer;
use pktline_core::{Sink, Source, WriteFault, write_all};
use rule_compile::some_patterns_are_true;
use std::alloc::Global;

/// How a run ends.
#[derive(Clone, Copy, Debug, PartialEq, Eq)]
pub enum ReportEnd {
    /// The report was printed.
    Done,
    /// A read of the input failed.
    InputFault,
    /// A write of the output failed.
    OutputFault,
    NoMemory,
    /// The fault of a conf was printed.
    ConfRefused,
    /// The place was printed at which the input is bad.
    BadScript,
    /// Why the questions can't be asked was printed.
    BadQuestion,
}

impl ReportEnd {
    /// The status with which the program ends.
    pub fn number(self) -> u8
        ensures { result ≡ end_number self }
    {
        match self {
            ReportEnd::Done => 0,
            ReportEnd::InputFault => 2,
            ReportEnd::OutputFault => 3,
            ReportEnd::NoMemory => 4,
            ReportEnd::ConfRefused => 6,
            ReportEnd::BadScript => 7,
            ReportEnd::BadQuestion => 10,
        }
    }
}

// Prints what is due of the input.
fn print_due<O: Sink>(
    alloc: Global,
    input: &ReportInput,
    output: &mut O,
) -> Result<Printed, ReportFault>
    requires { length input.now.ask.items ≤ largest_body }
    ensures prints { (ps : Patterns) → AreTrue ps → Prints (O.state output.old) (O.state output.new) (due ps input.now.ask.items input.now.confs) result }
    ensures tells { TellsWrites (O.state output.old) (O.state output.new) result }
{
    let confs = &input.confs;
    print_access(
        alloc,
        output,
        &input.ask,
        &confs.first,
        confs.second.as_ref(),
    )
}

// The line of a bad input.
#[tactic(auto, unfolding(crate::specs::Ends::fault_text))]
fn fault_text(alloc: Global, offset: u64) -> Result<Vec<u8>, NoMemory>
    ensures { IfOk result (λ text. text.items ≡ fault_text offset) }
{
    let mut text = Vec::new(alloc);
    text.extend_from_slice(b"bad script at ")?;
    text.extend_from_slice(Buffer::new().format(offset).as_bytes())?;
    text.extend_from_slice(b"\n")?;
    Ok(text)
}

fn print_bad<O: Sink>(alloc: Global, offset: u64, output: &mut O) -> ReportEnd
    ensures bad { TellsBad (O.state output.old) (O.state output.new) offset result }
    ensures tells { TellsOutput (O.state output.old) (O.state output.new) result }
{
    let Ok(text) = fault_text(alloc, offset) else {
        return ReportEnd::NoMemory;
    };
    match write_all(output, &text) {
        Ok(()) => ReportEnd::BadScript,
        Err(WriteFault::Failed) => ReportEnd::OutputFault,
        Err(WriteFault::NoMemory) => ReportEnd::NoMemory,
    }
}

fn report_end(printed: Result<Printed, ReportFault>) -> ReportEnd
    ensures { result ≡ report_end printed }
{
    match printed {
        Ok(Printed::Report) => ReportEnd::Done,
        Ok(Printed::BadQuestion) => ReportEnd::BadQuestion,
        Ok(Printed::ConfFault) => ReportEnd::ConfRefused,
        Err(ReportFault::WriteFault) => ReportEnd::OutputFault,
        Err(ReportFault::NoMemory) => ReportEnd::NoMemory,
    }
}

/// Reads questions and the files of one conf, or of two, from the input to its end, and prints who may do
/// what.
pub fn run_report<I: Source, O: Sink>(alloc: Global, input: &mut I, output: &mut O) -> ReportEnd
    ensures ends { EndsReport (I.state input.old) (I.state input.new) (O.state output.old) (O.state output.new) result }
    ensures tells { TellsEnd (I.state input.old) (I.state input.new) (O.state output.old) (O.state output.new) result }
{
    // called for its clause that there are answers to questions on patterns, so that the report says
    // something
    some_patterns_are_true();
    match read_input(alloc, input) {
        Ok(asked) => report_end(print_due(alloc, &asked, output)),
        Err(InputFault::Bad(offset)) => print_bad(alloc, offset, output),
        Err(InputFault::Failed) => ReportEnd::InputFault,
        Err(InputFault::NoMemory) => ReportEnd::NoMemory,
    }
}
