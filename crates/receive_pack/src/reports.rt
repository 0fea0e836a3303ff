// What is reported of a push, and of a pack that is refused.
ghost use Rattle.std.specs.Prelude.{◌≡◌, map};
ghost use Rattle.std.specs.List.{flat_map};
ghost use Rattle.pktline_core.specs.Links.{KeepsReading};
ghost use Rattle.interaction_tree.specs.Interaction.{write};
ghost use Rattle.session_core.specs.End.{TellsEnd, TellsLink};
ghost use Rattle.session_core.specs.Packets.{packet};
ghost use Rattle.session_core.specs.Parts.{EndsLink, RunsLink};
ghost use Rattle.receive_pack.specs.Changes.{HasShortName, HaveShortNames};
ghost use Rattle.receive_pack.specs.Receiving.{refusing_pack, reported};
ghost use Rattle.receive_pack.specs.Texts.{bad_report, report, status_lines, status_text, unpack_text, unpacker_error};

use crate::changes::Capabilities;
use crate::text::{error_line, status_line, unpack_line};
use access_check::Policy;
use conf_lex::{RepoName, UserName};
use hub::{Outcome, OutcomeList};
use pktline_core::Link;
use raw_pack::PackFault;
use ref_store::{Command, CommandList};
use session_core::{SessionEnd, say, say_flush};
use std::alloc::Global;

/// A push, as its report names it.
#[derive(Drop)]
pub struct ReportedPush {
    pub user: UserName,
    pub repo: RepoName,
    pub commands: CommandList,
}

/// The report of a push, where the client asked for one, by the rules that were in force at its opening and
/// by those just before it.
pub fn write_report<L: Link>(
    alloc: Global,
    link: &mut L,
    capabilities: Capabilities,
    policy: &Policy,
    later: &Policy,
    push: &ReportedPush,
    outcomes: &OutcomeList,
) -> Result<(), SessionEnd>
    requires short { HaveShortNames push.now.commands }
    ensures runs { RunsLink (L.state link.old) (L.state link.new) (write (reported capabilities (report policy.now.rules later.now.rules push.now outcomes.now))) result }
    ensures tells { TellsLink (L.state link.old) (L.state link.new) result }
{
    if capabilities.report_status {
        return report(alloc, link, policy, later, push, outcomes);
    }
    Ok(())
}

fn report<L: Link>(
    alloc: Global,
    link: &mut L,
    policy: &Policy,
    later: &Policy,
    push: &ReportedPush,
    outcomes: &OutcomeList,
) -> Result<(), SessionEnd>
    requires short { HaveShortNames push.now.commands }
    ensures runs { RunsLink (L.state link.old) (L.state link.new) (write (report policy.now.rules later.now.rules push.now outcomes.now)) result }
    ensures tells { TellsLink (L.state link.old) (L.state link.new) result }
{
    say(link, b"unpack ok\n")?;
    report_all(alloc, link, policy, later, push, outcomes)?;
    say_flush(link)
}

// A line for each command.
fn report_all<L: Link>(
    alloc: Global,
    link: &mut L,
    policy: &Policy,
    later: &Policy,
    push: &ReportedPush,
    outcomes: &OutcomeList,
) -> Result<(), SessionEnd>
    requires short { HaveShortNames push.now.commands }
    ensures runs { RunsLink (L.state link.old) (L.state link.new) (write (flat_map packet (status_lines policy.now.rules later.now.rules push.now push.now.commands outcomes.now))) result }
    ensures tells { TellsLink (L.state link.old) (L.state link.new) result }
{
    let mut told = outcomes.as_slice().iter();
    for command in push.commands.as_slice() {
        let Some(outcome) = told.next() else {
            return Ok(());
        };
        report_one(alloc, link, policy, later, push, command, outcome)?;
    }
    Ok(())
}

fn report_one<L: Link>(
    alloc: Global,
    link: &mut L,
    policy: &Policy,
    later: &Policy,
    push: &ReportedPush,
    command: &Command,
    outcome: &Outcome,
) -> Result<(), SessionEnd>
    requires short { HaveShortNames push.now.commands }
    requires one { HasShortName command.now }
    ensures runs { RunsLink (L.state link.old) (L.state link.new) (write (packet (status_text policy.now.rules later.now.rules push.now command.now.name outcome.now))) result }
    ensures tells { TellsLink (L.state link.old) (L.state link.new) result }
{
    let line = status_line(alloc, policy, later, push, command, outcome)?;
    say(link, &line)
}

/// Reports that the pack isn't taken, where the client asked for a report, and says how the session ends.
pub fn refuse_pack<L: Link>(
    alloc: Global,
    link: &mut L,
    capabilities: Capabilities,
    commands: &CommandList,
    fault: PackFault,
) -> SessionEnd
    requires short { HaveShortNames commands.now }
    ensures runs { EndsLink (L.state link.old) (L.state link.new) (refusing_pack capabilities commands.now fault) result }
    ensures tells { TellsEnd (L.state link.old) (L.state link.new) result }
    ensures reading { KeepsReading (L.state link.old) (L.state link.new) }
{
    match tell_fault(alloc, link, capabilities, commands, fault) {
        Ok(()) => SessionEnd::BadPack(fault),
        Err(end) => end,
    }
}

fn tell_fault<L: Link>(
    alloc: Global,
    link: &mut L,
    capabilities: Capabilities,
    commands: &CommandList,
    fault: PackFault,
) -> Result<(), SessionEnd>
    requires short { HaveShortNames commands.now }
    ensures runs { RunsLink (L.state link.old) (L.state link.new) (write (reported capabilities (bad_report commands.now fault))) result }
    ensures tells { TellsLink (L.state link.old) (L.state link.new) result }
    ensures reading { KeepsReading (L.state link.old) (L.state link.new) }
{
    if capabilities.report_status {
        return report_fault(alloc, link, commands, fault);
    }
    Ok(())
}

fn report_fault<L: Link>(
    alloc: Global,
    link: &mut L,
    commands: &CommandList,
    fault: PackFault,
) -> Result<(), SessionEnd>
    requires short { HaveShortNames commands.now }
    ensures runs { RunsLink (L.state link.old) (L.state link.new) (write (bad_report commands.now fault)) result }
    ensures tells { TellsLink (L.state link.old) (L.state link.new) result }
    ensures reading { KeepsReading (L.state link.old) (L.state link.new) }
{
    say_fault(alloc, link, fault)?;
    report_errors(alloc, link, commands)?;
    say_flush(link)
}

fn say_fault<L: Link>(alloc: Global, link: &mut L, fault: PackFault) -> Result<(), SessionEnd>
    ensures runs { RunsLink (L.state link.old) (L.state link.new) (write (packet (unpack_text fault))) result }
    ensures tells { TellsLink (L.state link.old) (L.state link.new) result }
    ensures reading { KeepsReading (L.state link.old) (L.state link.new) }
{
    let line = unpack_line(alloc, fault)?;
    say(link, &line)
}

// A line for each command, whose pack isn't taken.
fn report_errors<L: Link>(
    alloc: Global,
    link: &mut L,
    commands: &CommandList,
) -> Result<(), SessionEnd>
    requires short { HaveShortNames commands.now }
    ensures runs { RunsLink (L.state link.old) (L.state link.new) (write (flat_map packet (map unpacker_error commands.now))) result }
    ensures tells { TellsLink (L.state link.old) (L.state link.new) result }
    ensures reading { KeepsReading (L.state link.old) (L.state link.new) }
{
    for command in commands.as_slice() {
        report_error(alloc, link, command)?;
    }
    Ok(())
}

fn report_error<L: Link>(alloc: Global, link: &mut L, command: &Command) -> Result<(), SessionEnd>
    requires short { HasShortName command.now }
    ensures runs { RunsLink (L.state link.old) (L.state link.new) (write (packet (unpacker_error command.now))) result }
    ensures tells { TellsLink (L.state link.old) (L.state link.new) result }
    ensures reading { KeepsReading (L.state link.old) (L.state link.new) }
{
    let line = error_line(alloc, command)?;
    say(link, &line)
}
