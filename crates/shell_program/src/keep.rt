// `keep`: a script at the hub of a journal on a disk.
ghost use Rattle.std.specs.Prelude.{◌≡◌, ◌⊎◌, ◌++◌, ◌∷◌, [], IfOk, IsTrue, Some, false};
ghost use Rattle.hub_history.specs.History.{IsLegal};
ghost use Rattle.hub_journal.specs.Events.{bodies_in, head_for};
ghost use Rattle.record_file.specs.Files.{EndsAtGate, IsDurable};
ghost use Rattle.shell_program.specs.Keep.{EndsKeep, EndsUnopened, RunsOpen, TellsRefusal, refusal_line};
ghost use Rattle.shell_program.specs.Lone.{TellsStatus};
ghost use Rattle.shell_program.specs.Status.{status_number};
ghost use Rattle.shell_program.specs.declared.status.Status.{Status};

use crate::lone::Ended;
use crate::script::{ScriptDesk, run_script, write_text};
use crate::status::{Status, status_of};
use base_types::NoMemory;
use conf_lex::UserName;
use hub::Desk;
use hub_journal::{JournalHub, OpenFault, Recovered, recover};
use pktline_core::{Sink, Source};
use record_file::Disk;
use std::alloc::Global;

impl<'a, Y: Disk> ScriptDesk for JournalHub<'a, Y> {
    ghost is_broken = { λ journal. journal.writer.broken };

    fn is_broken(&self) -> bool {
        self.is_broken()
    }
}

#[tactic(auto, unfolding(crate::specs::Keep::refusal_line))]
fn refusal_text(alloc: Global, fault: OpenFault) -> Result<Vec<u8>, NoMemory>
    ensures { IfOk result (λ text. text.items ≡ refusal_line fault) }
{
    let mut text = Vec::new(alloc);
    text.extend_from_slice(format!(in alloc; "{fault}")?.as_bytes())?;
    text.extend_from_slice(b"\n")?;
    Ok(text)
}

// Prints why the file was refused.
fn print_refusal<O: Sink>(alloc: Global, output: &mut O, fault: OpenFault) -> Status
    ensures ends { TellsRefusal (refusal_line fault) (O.state output.old) (O.state output.new) result }
    ensures tells { (status_number result ≡ 3) ⊎ ((O.state output.new).write_faults ≡ (O.state output.old).write_faults) }
{
    let Ok(text) = refusal_text(alloc, fault) else {
        return Status::NoMemory;
    };
    match write_text(output, &text) {
        Ok(()) => Status::BadJournal,
        Err(fault) => status_of(Err(fault)),
    }
}

/// Ends where the journal wasn't opened: a file that is refused is named so in the output.
pub fn end_unopened<O: Sink>(alloc: Global, output: &mut O, fault: OpenFault) -> Status
    ensures ends { EndsUnopened fault (O.state output.old) (O.state output.new) result }
    ensures tells { (status_number result ≡ 3) ⊎ ((O.state output.new).write_faults ≡ (O.state output.old).write_faults) }
{
    match fault {
        OpenFault::NotAJournal => print_refusal(alloc, output, fault),
        OpenFault::OtherAdmin => print_refusal(alloc, output, fault),
        OpenFault::BadRecord(_) => print_refusal(alloc, output, fault),
        OpenFault::DiskFault => Status::DiskFault,
        OpenFault::NoMemory => Status::NoMemory,
    }
}

// Runs a script at the hub of an open journal.
fn run_open<I: Source, O: Sink, Y: Disk>(
    alloc: Global,
    input: &mut I,
    output: &mut O,
    disk: &mut Y,
    recovered: Recovered,
) -> Ended
    requires unbroken { recovered.writer.broken ≡ false }
    requires at_gate { EndsAtGate recovered.writer (Y.state disk.old).size }
    requires durable { IsTrue Y.is_modeled → IsDurable (head_for recovered.hub.admin) (bodies_in recovered.hub.log) recovered.writer.end (Y.state disk.old).file }
    ensures runs { (status : Status) × (result.status ≡ status_number status) × RunsOpen recovered.hub.admin recovered.hub.log (record { modeled = Y.is_modeled; old = Y.state disk.old; new = Y.state disk.new }) (I.state input.old) (I.state input.new) (O.state output.old) (O.state output.new) result.log status }
    ensures tells { TellsStatus (I.state input.old) (I.state input.new) (O.state output.old) (O.state output.new) result.status }
    ensures legal { IsLegal recovered.hub.admin result.log }
{
    // called for its clause that a journal goes on from itself
    hub_journal::hold_laws();
    let (mut hub, writer) = recovered.into_parts();
    let mut desk = JournalHub::new(disk, &mut hub, writer);
    let status = status_of(run_script(alloc, input, output, &mut desk));
    // called for its clause that the log is legal
    desk.sound();
    Ended {
        status: status.number(),
        log: hub.into_log(),
    }
}

/// Runs a script at the hub of this admin's journal, which is made where the disk's file is empty. Each event
/// is stored before it is answered. A file that is no journal of this admin's hub is refused, and nothing is
/// read of the input.
pub fn run_keep<I: Source, O: Sink, Y: Disk>(
    alloc: Global,
    admin: &UserName,
    input: &mut I,
    output: &mut O,
    disk: &mut Y,
) -> Ended
    ensures ends { (status : Status) × (result.status ≡ status_number status) × EndsKeep admin.now (record { modeled = Y.is_modeled; old = Y.state disk.old; new = Y.state disk.new }) (I.state input.old) (I.state input.new) (O.state output.old) (O.state output.new) result.log status }
    ensures tells { TellsStatus (I.state input.old) (I.state input.new) (O.state output.old) (O.state output.new) result.status }
    ensures legal { IsLegal admin.now result.log }
{
    match recover(alloc, disk, admin) {
        Ok(recovered) => run_open(alloc, input, output, disk, recovered),
        Err(fault) => {
            let status = end_unopened(alloc, output, fault);
            Ended::without_log(alloc, status)
        }
    }
}
