// The command that the words of a command line are.
ghost use Rattle.std.specs.Prelude.{◌≡◌, IfOk, Some, map, string_bytes};
ghost use Rattle.shell_words.specs.Commands.{IsWithinLimits, Reads, asked, fault_text};

use crate::matches::{command_in, matches_of};
use crate::spelling::is_command;
use conf_lex::UserName;
use std::alloc::Global;
use std::error::Error;
use std::fmt;

/// What is printed where the words are no command.
pub const USAGE: &str =
    "usage: gitolite_shell script --admin NAME | serve --admin NAME --workers K --sessions N | http --admin NAME --workers K --sessions N | check | load N START | keep --admin NAME | access\n";

/// What is served over each connection.
#[derive(Clone, Copy, Debug, PartialEq, Eq)]
pub enum Transport {
    /// A session of Git's own protocol, in packets: `serve`.
    Git,
    /// A request of smart HTTP: `http`.
    Http,
}

/// A command, with its values.
#[derive(Drop)]
pub enum Asked {
    /// `script --admin NAME`.
    Script {
        admin: UserName,
    },
    /// `serve --admin NAME --workers K --sessions N`, or `http` with the same options; 1 to 8 workers, and 1
    /// to 1,000,000 sessions or requests for each.
    Serve {
        transport: Transport,
        admin: UserName,
        workers: u8,
        sessions: u64,
    },
    /// `check`.
    Check,
    /// `load N START`, with a count from 1 to 5,000.
    Load {
        count: u32,
        start: u32,
    },
    /// `keep --admin NAME`.
    Keep {
        admin: UserName,
    },
    /// `access`.
    Access,
}

/// Why words are not read as a command.
#[derive(Clone, Copy, Debug, PartialEq, Eq)]
pub enum WordsFault {
    /// They are none.
    Usage = 1,
    /// They are one, and memory ran out.
    NoMemory = 2,
}

impl fmt::Display for WordsFault {
    ghost output = { λ fault. Some (fault_text fault) };

    fn fmt<W: fmt::Write>(&self, f: &mut fmt::Formatter<W>) -> fmt::Result {
        match self {
            WordsFault::Usage => write!(f, "the words are no command"),
            WordsFault::NoMemory => write!(f, "out of memory"),
        }
    }
}

impl Error for WordsFault {}

/// Reads the words by which the program was called, without its name, as a command. An option is written `--x
/// VALUE` or `--x=VALUE`, the options of a command come in any order, each once, and a number has no sign and
/// no leading zero. `--help` and `--version` are no commands.
pub fn read_words(alloc: Global, words: &[String]) -> Result<Asked, WordsFault>
    ensures reads { Reads (asked (map string_bytes words.now)) result }
    ensures limits { IfOk result IsWithinLimits }
{
    // asked before any memory is taken, so that words that are no command are refused without it too
    if !is_command(words) {
        return Err(WordsFault::Usage);
    }
    let Ok(matches) = matches_of(alloc, words) else {
        return Err(WordsFault::NoMemory);
    };
    command_in(alloc, &matches)
}
