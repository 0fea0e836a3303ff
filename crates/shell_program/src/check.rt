// The command `check`: a conf is read, and what it comes to is printed.
ghost use Rattle.std.specs.Prelude.{◌≡◌, IfOk, IfErr};
ghost use Rattle.shell_program.specs.Lone.{TellsStatus};
ghost use Rattle.shell_program.specs.Check.{EndsCheck, ReadsAll, StopsReading, TellsReadAll, conf_status, read_status};
ghost use Rattle.shell_program.specs.Status.{status_number};

use crate::script::write_text;
use crate::status::{Status, status_of};
use conf_check::check_conf;
use pktline_core::{Sink, Source, Taken};
use std::alloc::{AllocError, AllocFailed, Global};

/// Why an input was not read to its end.
#[derive(Clone, Copy, Debug, PartialEq, Eq)]
pub enum ReadAllFault {
    Failed,
    NoMemory,
}

impl From<AllocError> for ReadAllFault {
    ghost use Rattle.shell_program.specs.declared.check.ReadAllFault.TheVariants as fault;

    ghost from_gives = { λ _ e. e ≡ fault.NoMemory };

    fn from(_error: AllocError) -> ReadAllFault {
        ReadAllFault::NoMemory
    }
}

impl<T: Drop> From<AllocFailed<T>> for ReadAllFault {
    ghost use Rattle.shell_program.specs.declared.check.ReadAllFault.TheVariants as fault;

    ghost from_gives = { λ _ e. e ≡ fault.NoMemory };

    fn from(_error: AllocFailed<T>) -> ReadAllFault {
        ReadAllFault::NoMemory
    }
}

// How many bytes a call reads at most.
const CHUNK: usize = 65_536;

// All bytes of a source. The memory that is taken grows with them.
fn read_all<S: Source>(alloc: Global, source: &mut S) -> Result<Vec<u8>, ReadAllFault>
    ensures ok { IfOk result (λ input. ReadsAll (S.state source.old) (S.state source.new) input.items) }
    ensures err { IfErr result (StopsReading (S.state source.old) (S.state source.new)) }
    ensures tells { TellsReadAll (S.state source.old) (S.state source.new) result }
{
    let mut room = vec![in alloc; 0; CHUNK]?;
    let mut input = Vec::new(alloc);
    loop {
        match source.take(&mut room) {
            Taken::Got(count) => input.extend_from_slice(room.split_at(count).0)?,
            Taken::End => return Ok(input),
            Taken::Failed => return Err(ReadAllFault::Failed),
        }
    }
}

// How an unfinished reading is told.
fn read_status(fault: ReadAllFault) -> Status
    ensures { result ≡ read_status fault }
{
    match fault {
        ReadAllFault::Failed => Status::InputFault,
        ReadAllFault::NoMemory => Status::NoMemory,
    }
}

// How a conf that was printed whole is told.
fn conf_status(has_rules: bool) -> Status
    ensures { result ≡ conf_status has_rules }
{
    if has_rules {
        return Status::Done;
    }
    Status::ConfRefused
}

/// Reads a conf from the input to its end, and prints its rules, or its fault. What is printed is made whole
/// before its first byte is written.
pub fn run_check<I: Source, O: Sink>(alloc: Global, input: &mut I, output: &mut O) -> Status
    ensures ends { EndsCheck (I.state input.old) (I.state input.new) (O.state output.old) (O.state output.new) result }
    ensures tells { TellsStatus (I.state input.old) (I.state input.new) (O.state output.old) (O.state output.new) (status_number result) }
{
    let conf = match read_all(alloc, input) {
        Ok(conf) => conf,
        Err(fault) => return read_status(fault),
    };
    let Ok(report) = check_conf(alloc, conf) else {
        return Status::NoMemory;
    };
    match write_text(output, &report.text) {
        Ok(()) => conf_status(report.has_rules),
        Err(fault) => status_of(Err(fault)),
    }
}
