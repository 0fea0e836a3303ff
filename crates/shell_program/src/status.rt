// How a run of the program ends.
ghost use Rattle.std.specs.Prelude.{◌≡◌};
ghost use Rattle.shell_program.specs.Status.{served_status, status_number, status_of};

use crate::script::ScriptFault;

/// How a run of the program ends.
#[derive(Clone, Copy, Debug, PartialEq, Eq)]
pub enum Status {
    Done = 0,
    /// The words are refused.
    Usage = 1,
    /// A read of the input failed.
    InputFault = 2,
    /// A write of the output failed.
    OutputFault = 3,
    NoMemory = 4,
    /// A door failed.
    DoorFault = 5,
    /// The conf that is checked has no rules: it has a fault.
    ConfRefused = 6,
    /// A frame of the script leaves its form, or the input ends inside it.
    BadScript = 7,
    /// A call of the disk failed.
    DiskFault = 8,
    /// The file is no journal, or that of another admin, or has a bad record.
    BadJournal = 9,
    /// A question is bad, or there are too many.
    BadQuestion = 10,
}

impl Status {
    /// The number with which the program ends.
    pub fn number(self) -> u8
        ensures { result ≡ status_number self }
    {
        self as u8
    }
}

/// How a script's end is told.
pub fn status_of(end: Result<(), ScriptFault>) -> Status
    ensures { result ≡ status_of end }
{
    match end {
        Ok(()) => Status::Done,
        Err(ScriptFault::BadScript) => Status::BadScript,
        Err(ScriptFault::InputFault) => Status::InputFault,
        Err(ScriptFault::OutputFault) => Status::OutputFault,
        Err(ScriptFault::DiskFault) => Status::DiskFault,
        Err(ScriptFault::NoMemory) => Status::NoMemory,
    }
}

/// How the end of `serve` is told, once its line was printed or not, by whether a door failed and whether
/// memory lacked.
pub fn served_status(printed: Result<(), ScriptFault>, door_failed: bool, no_memory: bool) -> Status
    ensures { result ≡ served_status printed door_failed no_memory }
{
    match printed {
        Err(fault) => status_of(Err(fault)),
        Ok(()) => {
            if door_failed {
                return Status::DoorFault;
            }
            if no_memory {
                return Status::NoMemory;
            }
            Status::Done
        }
    }
}
