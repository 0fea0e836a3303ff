// The program.
ghost use Rattle.std.specs.Prelude.{length, map, string_bytes};
ghost use Rattle.shell_words.specs.Commands.{IsWithinLimits, asked};
ghost use Rattle.shell_program.specs.Command.{built, command};
ghost use Rattle.shell_program.specs.Lone.{IsLegalRun, IsRecordedRun, RefusesSurely, TellsStatus};
ghost use Rattle.shell_program.specs.Shell.{EndsShell, EndsShellSurely};

use crate::keep::run_keep;
use crate::load::run_load;
use crate::lone::{Ended, ask_alone, check_alone, refuse, run_alone, unread};
use crate::protocols::ServerProtocol;
use crate::serve::run_serve;
use edge_links::Door;
use hub::Hub;
use pktline_core::{Link, Sink, Source};
use record_file::Disk;
use session_core::Gate;
use session_workers::Post;
use shell_words::{Asked, read_words};
use std::alloc::Global;
use std::sync::Wait;
use std::thread::Threads;

// Does what is asked.
fn run_asked<
    I: Source,
    O: Sink,
    L: Link + Send,
    D: Door<L> + Send,
    G: Gate + Send,
    R: Threads + Wait + Sync,
    Y: Disk,
>(
    rt: &R,
    alloc: Global,
    asked: Asked,
    input: &mut I,
    output: &mut O,
    posts: &mut [Post<D, G, Hub, ServerProtocol>],
    disk: &mut Y,
) -> Ended
    requires limits { IsWithinLimits asked }
    ensures ends { EndsShell L.state D.state posts.old posts.new (built (length posts.old) asked) (record { modeled = Y.is_modeled; old = Y.state disk.old; new = Y.state disk.new }) (I.state input.old) (I.state input.new) (O.state output.old) (O.state output.new) result.status result.log }
    ensures tells { TellsStatus (I.state input.old) (I.state input.new) (O.state output.old) (O.state output.new) result.status }
    ensures sure { EndsShellSurely L.state D.state posts.old posts.new (built (length posts.old) asked) (record { modeled = Y.is_modeled; old = Y.state disk.old; new = Y.state disk.new }) (I.state input.old) (I.state input.new) (O.state output.old) (O.state output.new) result.status }
    ensures legal { IsLegalRun (built (length posts.old) asked) result.log }
{
    match asked {
        Asked::Check => check_alone(alloc, input, output),
        Asked::Script { admin } => run_alone(alloc, &admin, input, output),
        Asked::Serve {
            transport,
            admin,
            workers,
            sessions,
        } => {
            let workers = workers as usize;
            if posts.len() < workers {
                return refuse(alloc, output);
            }
            let (used, _) = posts.split_at_mut(workers);
            let protocol = ServerProtocol::of(transport);
            run_serve(rt, alloc, output, used, protocol, &admin, sessions)
        }
        Asked::Load { count, start } => run_load(alloc, count, start, output),
        Asked::Keep { admin } => run_keep(alloc, &admin, input, output, disk),
        Asked::Access => ask_alone(alloc, input, output),
    }
}

/// Runs the program as the words ask. `serve` takes its sessions, and `http` its requests, through the first
/// posts, as many as there are workers; it is refused where there are fewer. What those posts served before
/// doesn't count, and stays changed. `keep` keeps its log in a journal on the disk; no other
/// command uses the disk.
pub fn shell_main<
    I: Source,
    O: Sink,
    L: Link + Send,
    D: Door<L> + Send,
    G: Gate + Send,
    R: Threads + Wait + Sync,
    Y: Disk,
>(
    rt: &R,
    alloc: Global,
    words: &[String],
    input: &mut I,
    output: &mut O,
    posts: &mut [Post<D, G, Hub, ServerProtocol>],
    disk: &mut Y,
) -> Ended
    ensures ends { EndsShell L.state D.state posts.old posts.new (command (length posts.old) (map string_bytes words.now)) (record { modeled = Y.is_modeled; old = Y.state disk.old; new = Y.state disk.new }) (I.state input.old) (I.state input.new) (O.state output.old) (O.state output.new) result.status result.log }
    ensures tells { TellsStatus (I.state input.old) (I.state input.new) (O.state output.old) (O.state output.new) result.status }
    ensures sure { EndsShellSurely L.state D.state posts.old posts.new (command (length posts.old) (map string_bytes words.now)) (record { modeled = Y.is_modeled; old = Y.state disk.old; new = Y.state disk.new }) (I.state input.old) (I.state input.new) (O.state output.old) (O.state output.new) result.status }
    ensures legal { IsLegalRun (command (length posts.old) (map string_bytes words.now)) result.log }
    ensures refuses { RefusesSurely (asked (map string_bytes words.now)) (O.state output.old) result.status }
    ensures recorded { IsRecordedRun (command (length posts.old) (map string_bytes words.now)) result.log }
{
    // called for their clauses that every legal log records something, and that an admin has a user's name
    session_core::hold_laws();
    shell_words::hold_laws();
    match read_words(alloc, words) {
        Ok(asked) => run_asked(rt, alloc, asked, input, output, posts, disk),
        Err(fault) => unread(alloc, fault, output),
    }
}
