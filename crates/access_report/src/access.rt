// Questions in lines, over one conf or two.
ghost use Rattle.std.specs.Prelude.{◌≡◌, ◌≤◌, length, IfOk};
ghost use Rattle.std.specs.Option.{option_copied};
ghost use Rattle.pktline_core.specs.Links.{IsLater};
ghost use Rattle.rule_compile.specs.Patterns.{AreTrue, Patterns};
ghost use Rattle.access_report.specs.Access.{Prints, access, conf_fault, due_by, due_of_fault, due_over, due_over_two, is_out_of_memory, question_fault};
ghost use Rattle.access_report.specs.Writing.{TellsWrites};
ghost use Rattle.rule_compile.specs.Flat.{flat};
ghost use Rattle.access_report.specs.Report.{change_report, report};
ghost use Rattle.access_report.specs.declared.access.Printed.TheVariants.{Report};

use crate::lists::Questions;
use crate::reading::{AskFault, read_questions};
use crate::report::{ReportFault, print_text, write_change, write_report};
use base_types::NoMemory;
use conf_groups::{ConfFault, ConfKind, FileList};
use pktline_core::Sink;
use rule_compile::{Policy, PolicyFault};
use std::alloc::Global;

/// What was printed.
#[derive(Clone, Copy, Debug, PartialEq, Eq)]
pub enum Printed {
    /// The report.
    Report,
    /// Why the questions can't be asked.
    BadQuestion,
    /// The first fault of a conf.
    ConfFault,
}

/// Reads questions and compiles a conf, or two, and prints a report, or the first fault: that of the
/// questions, then that of the first conf.
pub fn print_access<O: Sink>(
    alloc: Global,
    sink: &mut O,
    ask: &[u8],
    conf: &FileList,
    other: Option<&FileList>,
) -> Result<Printed, ReportFault>
    requires { length ask.now ≤ 300000000 }
    ensures prints { (ps : Patterns) → AreTrue ps → Prints (O.state sink.old) (O.state sink.new) (access ps ask.now conf.now (option_copied other.entry)) result }
    ensures tells { TellsWrites (O.state sink.old) (O.state sink.new) result }
    ensures later { IsLater (O.state sink.old) (O.state sink.new) }
{
    match read_questions(alloc, ask) {
        Ok(asked) => print_by_conf(alloc, sink, &asked, conf, other),
        Err(AskFault::NoMemory) => Err(ReportFault::NoMemory),
        Err(fault) => {
            let text = question_fault(alloc, fault)?;
            print_text(sink, &text)?;
            Ok(Printed::BadQuestion)
        }
    }
}

// The text of a fault of questions, and a line feed.
fn question_fault(alloc: Global, fault: AskFault) -> Result<Vec<u8>, NoMemory>
    ensures { IfOk result (λ text. text.items ≡ question_fault fault) }
{
    let mut text = format!(in alloc; "{fault}")?.into_bytes();
    text.push(b'\n')?;
    Ok(text)
}

fn print_by_conf<O: Sink>(
    alloc: Global,
    sink: &mut O,
    asked: &Questions,
    conf: &FileList,
    other: Option<&FileList>,
) -> Result<Printed, ReportFault>
    ensures prints { (ps : Patterns) → AreTrue ps → Prints (O.state sink.old) (O.state sink.new) (due_by ps asked.now (flat ps conf.now) (option_copied other.entry)) result }
    ensures tells { TellsWrites (O.state sink.old) (O.state sink.new) result }
    ensures later { IsLater (O.state sink.old) (O.state sink.new) }
{
    match compile(alloc, conf)? {
        Ok(policy) => print_by_policy(alloc, sink, asked, &policy, other),
        Err(fault) => print_fault(alloc, sink, &fault),
    }
}

fn print_by_policy<O: Sink>(
    alloc: Global,
    sink: &mut O,
    asked: &Questions,
    policy: &Policy,
    other: Option<&FileList>,
) -> Result<Printed, ReportFault>
    ensures prints { (ps : Patterns) → AreTrue ps → Prints (O.state sink.old) (O.state sink.new) (due_over ps asked.now policy.now (option_copied other.entry)) result }
    ensures tells { TellsWrites (O.state sink.old) (O.state sink.new) result }
    ensures later { IsLater (O.state sink.old) (O.state sink.new) }
{
    match other {
        Some(other) => print_by_other(alloc, sink, asked, policy, other),
        None => print_report(alloc, sink, asked, policy),
    }
}

fn print_by_other<O: Sink>(
    alloc: Global,
    sink: &mut O,
    asked: &Questions,
    policy: &Policy,
    other: &FileList,
) -> Result<Printed, ReportFault>
    ensures prints { (ps : Patterns) → AreTrue ps → Prints (O.state sink.old) (O.state sink.new) (due_over_two ps asked.now policy.now (flat ps other.now)) result }
    ensures tells { TellsWrites (O.state sink.old) (O.state sink.new) result }
    ensures later { IsLater (O.state sink.old) (O.state sink.new) }
{
    match compile(alloc, other)? {
        Ok(new) => print_change(alloc, sink, asked, policy, &new),
        Err(fault) => print_fault(alloc, sink, &fault),
    }
}

fn print_report<O: Sink>(
    alloc: Global,
    sink: &mut O,
    asked: &Questions,
    policy: &Policy,
) -> Result<Printed, ReportFault>
    ensures prints { (ps : Patterns) → AreTrue ps → Prints (O.state sink.old) (O.state sink.new) (record { what = Report; text = report ps policy.now asked.now }) result }
    ensures tells { TellsWrites (O.state sink.old) (O.state sink.new) result }
    ensures later { IsLater (O.state sink.old) (O.state sink.new) }
{
    match write_report(alloc, sink, policy, asked) {
        Ok(()) => Ok(Printed::Report),
        Err(fault) => Err(fault),
    }
}

fn print_change<O: Sink>(
    alloc: Global,
    sink: &mut O,
    asked: &Questions,
    old: &Policy,
    new: &Policy,
) -> Result<Printed, ReportFault>
    ensures prints { (ps : Patterns) → AreTrue ps → Prints (O.state sink.old) (O.state sink.new) (record { what = Report; text = change_report ps old.now new.now asked.now }) result }
    ensures tells { TellsWrites (O.state sink.old) (O.state sink.new) result }
    ensures later { IsLater (O.state sink.old) (O.state sink.new) }
{
    match write_change(alloc, sink, old, new, asked) {
        Ok(()) => Ok(Printed::Report),
        Err(fault) => Err(fault),
    }
}

// The rules of a conf, or its first fault.
fn compile(alloc: Global, files: &FileList) -> Result<Result<Policy, PolicyFault>, NoMemory>
    ensures { IfOk result (λ comes_to. (ps : Patterns) → AreTrue ps → flat ps files.now ≡ comes_to) }
{
    match Policy::compile(alloc, files) {
        Ok(policy) => Ok(Ok(policy)),
        Err(fault) if is_out_of_memory(&fault) => Err(NoMemory),
        Err(fault) => Ok(Err(fault)),
    }
}

// Out of memory is no fault of a conf.
fn is_out_of_memory(fault: &PolicyFault) -> bool
    ensures { result ≡ is_out_of_memory fault.now }
{
    match fault {
        PolicyFault::Splicing(ConfFault { kind, .. }) => matches!(kind, ConfKind::NoMemory),
        PolicyFault::Rules(_) => false,
    }
}

fn print_fault<O: Sink>(
    alloc: Global,
    sink: &mut O,
    fault: &PolicyFault,
) -> Result<Printed, ReportFault>
    ensures prints { Prints (O.state sink.old) (O.state sink.new) (due_of_fault fault.now) result }
    ensures tells { TellsWrites (O.state sink.old) (O.state sink.new) result }
    ensures later { IsLater (O.state sink.old) (O.state sink.new) }
{
    let text = conf_fault(alloc, fault)?;
    print_text(sink, &text)?;
    Ok(Printed::ConfFault)
}

// The text of a fault of a conf, and a line feed.
fn conf_fault(alloc: Global, fault: &PolicyFault) -> Result<Vec<u8>, NoMemory>
    ensures { IfOk result (λ text. text.items ≡ conf_fault fault.now) }
{
    let mut text = fault.text(alloc)?.into_bytes();
    text.push(b'\n')?;
    Ok(text)
}
