// The program, run by one caller.
ghost use Rattle.std.specs.Prelude.{◌≡◌, ◌⊎◌, [], IfOk, IsTrue, map, string_bytes};
ghost use Rattle.hub.specs.LoneDesk.{desk_of};
ghost use Rattle.shell_words.specs.Commands.{IsWithinLimits};
ghost use Rattle.shell_words.specs.Commands.{asked};
ghost use Rattle.shell_program.specs.Command.{built, command};
ghost use Rattle.shell_program.specs.Access.{EndsAccess};
ghost use Rattle.shell_program.specs.Check.{EndsCheck};
ghost use Rattle.shell_program.specs.RunningScripts.{EndsScript};
ghost use Rattle.shell_program.specs.Lone.{RefusesSurely, EndsRun, EndsSurely, EndsUnread, EndsUsage, IsLegalRun, IsRecordedRun, TellsStatus, new_desk};
ghost use Rattle.shell_program.specs.Status.{status_number};
ghost use Rattle.shell_program.specs.declared.status.Status.{Status};
ghost use Rattle.hub_history.specs.History.{IsLegal};

use crate::access::run_access;
use crate::check::run_check;
use crate::keep::run_keep;
use crate::load::run_load;
use crate::script::{run_script, write_text};
use crate::status::{Status, status_of};
use base_types::NoMemory;
use conf_lex::UserName;
use hub::{Desk, EntryList, Hub, LoneDesk};
use pktline_core::{Sink, Source};
use record_file::Disk;
use shell_words::{Asked, USAGE, WordsFault, read_words};
use std::alloc::Global;

/// The status of a run, and the log that it led to.
#[derive(Drop)]
pub struct Ended {
    pub status: u8,
    pub log: EntryList,
}

impl Ended {
    /// An end without a log.
    pub fn without_log(alloc: Global, status: Status) -> Ended
        ensures status { result.status ≡ status_number status }
        ensures log { result.log ≡ [] }
    {
        Ended {
            status: status.number(),
            log: EntryList::new(alloc),
        }
    }
}

// The only desk of a new hub.
fn new_desk(alloc: Global, admin: &UserName) -> Result<LoneDesk, NoMemory>
    ensures { IfOk result (λ desk. desk_of desk ≡ new_desk admin.now) }
{
    Ok(LoneDesk::new(Hub::start(alloc, admin)?))
}

// Prints the usage, since the words are refused.
fn print_usage<O: Sink>(output: &mut O) -> Status
    ensures ends { EndsUsage (O.state output.old) (O.state output.new) result }
    ensures tells { (status_number result ≡ 3) ⊎ ((O.state output.new).write_faults ≡ (O.state output.old).write_faults) }
    ensures lacks { status_number result ≡ 4 → IsTrue (O.state output.old).may_lack }
{
    match write_text(output, USAGE.as_bytes()) {
        Ok(()) => Status::Usage,
        Err(fault) => status_of(Err(fault)),
    }
}

/// Refuses the words: prints the usage.
pub fn refuse<O: Sink>(alloc: Global, output: &mut O) -> Ended
    ensures ends { (why : Status) × (result.status ≡ status_number why) × EndsUsage (O.state output.old) (O.state output.new) why }
    ensures tells { (result.status ≡ 3) ⊎ ((O.state output.new).write_faults ≡ (O.state output.old).write_faults) }
    ensures lacks { result.status ≡ 4 → IsTrue (O.state output.old).may_lack }
    ensures log { result.log ≡ [] }
{
    let status = print_usage(output);
    Ended::without_log(alloc, status)
}

/// Ends where the words aren't read as a command: prints the usage, or nothing for want of memory.
pub fn unread<O: Sink>(alloc: Global, fault: WordsFault, output: &mut O) -> Ended
    ensures ends { EndsUnread fault (O.state output.old) (O.state output.new) result.status }
    ensures tells { (result.status ≡ 3) ⊎ ((O.state output.new).write_faults ≡ (O.state output.old).write_faults) }
    ensures lacks { fault ≡ WordsFault.Usage → result.status ≡ 4 → IsTrue (O.state output.old).may_lack }
    ensures log { result.log ≡ [] }
{
    match fault {
        WordsFault::Usage => refuse(alloc, output),
        WordsFault::NoMemory => Ended::without_log(alloc, Status::NoMemory),
    }
}

/// Checks a conf.
pub fn check_alone<I: Source, O: Sink>(alloc: Global, input: &mut I, output: &mut O) -> Ended
    ensures ends { (status : Status) × (result.status ≡ status_number status) × EndsCheck (I.state input.old) (I.state input.new) (O.state output.old) (O.state output.new) status }
    ensures tells { TellsStatus (I.state input.old) (I.state input.new) (O.state output.old) (O.state output.new) result.status }
    ensures log { result.log ≡ [] }
{
    let status = run_check(alloc, input, output);
    Ended::without_log(alloc, status)
}

/// Asks who may do what.
pub fn ask_alone<I: Source, O: Sink>(alloc: Global, input: &mut I, output: &mut O) -> Ended
    ensures ends { (status : Status) × (result.status ≡ status_number status) × EndsAccess (I.state input.old) (I.state input.new) (O.state output.old) (O.state output.new) status }
    ensures tells { TellsStatus (I.state input.old) (I.state input.new) (O.state output.old) (O.state output.new) result.status }
    ensures log { result.log ≡ [] }
{
    let status = run_access(alloc, input, output);
    Ended::without_log(alloc, status)
}

/// Runs a script at a new hub of this admin.
pub fn run_alone<I: Source, O: Sink>(
    alloc: Global,
    admin: &UserName,
    input: &mut I,
    output: &mut O,
) -> Ended
    ensures ends { (status : Status) × (result.status ≡ status_number status) × EndsScript admin.now [] (I.state input.old) (I.state input.new) (O.state output.old) (O.state output.new) result.log status }
    ensures tells { TellsStatus (I.state input.old) (I.state input.new) (O.state output.old) (O.state output.new) result.status }
    ensures legal { IsLegal admin.now result.log }
{
    let Ok(mut desk) = new_desk(alloc, admin) else {
        return Ended::without_log(alloc, Status::NoMemory);
    };
    let status = status_of(run_script(alloc, input, output, &mut desk));
    // called for its clause that the log is legal
    desk.sound();
    Ended {
        status: status.number(),
        log: desk.into_hub().into_log(),
    }
}

// Does what is asked with one caller.
fn run_asked<I: Source, O: Sink, Y: Disk>(
    alloc: Global,
    asked: Asked,
    input: &mut I,
    output: &mut O,
    disk: &mut Y,
) -> Ended
    requires { IsWithinLimits asked }
    ensures ends { EndsRun (built 0 asked) (record { modeled = Y.is_modeled; old = Y.state disk.old; new = Y.state disk.new }) (I.state input.old) (I.state input.new) (O.state output.old) (O.state output.new) result.status result.log }
    ensures tells { TellsStatus (I.state input.old) (I.state input.new) (O.state output.old) (O.state output.new) result.status }
    ensures sure { EndsSurely (built 0 asked) (record { modeled = Y.is_modeled; old = Y.state disk.old; new = Y.state disk.new }) (I.state input.old) (I.state input.new) (O.state output.old) (O.state output.new) result.status }
    ensures legal { IsLegalRun (built 0 asked) result.log }
{
    match asked {
        Asked::Check => check_alone(alloc, input, output),
        Asked::Script { admin } => run_alone(alloc, &admin, input, output),
        Asked::Serve { .. } => refuse(alloc, output),
        Asked::Load { count, start } => run_load(alloc, count, start, output),
        Asked::Keep { admin } => run_keep(alloc, &admin, input, output, disk),
        Asked::Access => ask_alone(alloc, input, output),
    }
}

/// Runs the program as the words ask, with one caller: prints the usage, checks a conf, asks who may do what,
/// or runs at a new hub a script or the sessions of a generated installation, or a script at the hub of a
/// journal on the disk. No other command uses the disk. `serve` and `http` are refused, since they want posts.
pub fn lone_main<I: Source, O: Sink, Y: Disk>(
    alloc: Global,
    words: &[String],
    input: &mut I,
    output: &mut O,
    disk: &mut Y,
) -> Ended
    ensures ends { EndsRun (command 0 (map string_bytes words.now)) (record { modeled = Y.is_modeled; old = Y.state disk.old; new = Y.state disk.new }) (I.state input.old) (I.state input.new) (O.state output.old) (O.state output.new) result.status result.log }
    ensures tells { TellsStatus (I.state input.old) (I.state input.new) (O.state output.old) (O.state output.new) result.status }
    ensures sure { EndsSurely (command 0 (map string_bytes words.now)) (record { modeled = Y.is_modeled; old = Y.state disk.old; new = Y.state disk.new }) (I.state input.old) (I.state input.new) (O.state output.old) (O.state output.new) result.status }
    ensures legal { IsLegalRun (command 0 (map string_bytes words.now)) result.log }
    ensures refuses { RefusesSurely (asked (map string_bytes words.now)) (O.state output.old) result.status }
    ensures recorded { IsRecordedRun (command 0 (map string_bytes words.now)) result.log }
{
    // called for their clauses that every legal log records something, and that an admin has a user's name
    session_core::hold_laws();
    shell_words::hold_laws();
    match read_words(alloc, words) {
        Ok(asked) => run_asked(alloc, asked, input, output, disk),
        Err(fault) => unread(alloc, fault, output),
    }
}
