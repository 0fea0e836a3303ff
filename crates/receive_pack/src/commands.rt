// The commands of a push, up to the flush that ends them.
ghost use Rattle.std.specs.Prelude.{◌≡◌, IfOk, IfSome, OnOk};
ghost use Rattle.pktline_core.specs.Reading.{packet_of};
ghost use Rattle.hub.specs.Desk.{DeskView};
ghost use Rattle.hub_history.specs.Push.{AreWithinLimits};
ghost use Rattle.interaction_tree.specs.Runs.{Runs};
ghost use Rattle.session_core.specs.End.{TellsLink, outcome_of};
ghost use Rattle.session_core.specs.Packets.{or_malformed};
ghost use Rattle.session_core.specs.Parts.{RunsLink, RunsLinkAt};
ghost use Rattle.session_core.specs.Readers.{IsReady};
ghost use Rattle.receive_pack.specs.Changes.{HasShortName, change, first_command};
ghost use Rattle.receive_pack.specs.Receiving.{further_in, no_commands, no_more, taking_commands, taking_further};

use crate::changes::{change, first_command};
use pktline_core::{Link, Pkt, PktReader};
use ref_store::{Command, CommandList};
use session_core::{SessionEnd, end_by, malformed, refuse, without_feed};
use std::alloc::Global;

/// How many commands a push has at most.
const MOST_COMMANDS: u32 = 10_000;

// One more.
const TOO_MANY_COMMANDS: u64 = MOST_COMMANDS as u64 + 1;

/// The first command of a push, in the line at this offset.
pub fn first_in<L: Link>(
    alloc: Global,
    link: &mut L,
    offset: u64,
    line: &[u8],
) -> Result<Command, SessionEnd>
    ensures runs { RunsLink (L.state link.old) (L.state link.new) (or_malformed offset (first_command line.now)) result }
    ensures tells { TellsLink (L.state link.old) (L.state link.new) result }
    ensures same { OnOk result (L.state link.new ≡ L.state link.old) }
    ensures short { IfOk result HasShortName }
{
    match first_command(alloc, line) {
        Ok(Some(command)) => Ok(command),
        Ok(None) => Err(malformed(link, offset)),
        Err(_) => Err(SessionEnd::NoMemory),
    }
}

// A command behind the first, in the line at this offset.
fn change_in<L: Link>(
    alloc: Global,
    link: &mut L,
    offset: u64,
    line: &[u8],
) -> Result<Command, SessionEnd>
    ensures runs { RunsLink (L.state link.old) (L.state link.new) (or_malformed offset (change line.now)) result }
    ensures tells { TellsLink (L.state link.old) (L.state link.new) result }
    ensures same { OnOk result (L.state link.new ≡ L.state link.old) }
    ensures short { IfOk result HasShortName }
{
    match change(alloc, line) {
        Ok(Some(command)) => Ok(command),
        Ok(None) => Err(malformed(link, offset)),
        Err(_) => Err(SessionEnd::NoMemory),
    }
}

// A command behind the first, in the packet at this offset, or none at the flush that ends them.
fn further_in<L: Link>(
    alloc: Global,
    link: &mut L,
    offset: u64,
    packet: Pkt<'_>,
) -> Result<Option<Command>, SessionEnd>
    ensures runs { RunsLink (L.state link.old) (L.state link.new) (further_in offset (packet_of packet.entry)) result }
    ensures tells { TellsLink (L.state link.old) (L.state link.new) result }
    ensures same { OnOk result (L.state link.new ≡ L.state link.old) }
    ensures short { IfOk result (λ o. IfSome o HasShortName) }
{
    match packet {
        Pkt::Line(line) => match change_in(alloc, link, offset, without_feed(line)) {
            Ok(command) => Ok(Some(command)),
            Err(end) => Err(end),
        },
        Pkt::Flush => Ok(None),
    }
}

// One command more, or none at the flush that ends them.
fn take_further<L: Link>(
    alloc: Global,
    link: &mut L,
    reader: &mut PktReader,
) -> Result<Option<Command>, SessionEnd>
    requires ready { IsReady reader.old (L.state link.old) }
    ensures runs { RunsLinkAt (L.state link.old) (L.state link.new) (taking_further reader.old.offset) result reader.new.offset }
    ensures tells { TellsLink (L.state link.old) (L.state link.new) result }
    ensures ready { OnOk result (IsReady reader.new (L.state link.new)) }
    ensures short { IfOk result (λ o. IfSome o HasShortName) }
{
    let offset = reader.offset();
    match reader.next(link) {
        Ok(packet) => further_in(alloc, link, offset, packet),
        Err(fault) => Err(end_by(link, offset, fault)),
    }
}

// Behind the last command that there may be none is left.
fn no_more<L: Link>(link: &mut L, next: &Option<Command>) -> Result<(), SessionEnd>
    ensures runs { (desk : DeskView) → Runs (L.state link.old) (L.state link.new) desk desk (no_more next.now) (outcome_of (no_commands result)) }
    ensures tells { TellsLink (L.state link.old) (L.state link.new) result }
{
    match next {
        None => Ok(()),
        Some(_) => Err(refuse(
            link,
            b"ERR too long",
            SessionEnd::TooLong(TOO_MANY_COMMANDS),
        )),
    }
}

/// The commands of a push from its first on, and the flush behind them.
pub fn take_commands<L: Link>(
    alloc: Global,
    link: &mut L,
    reader: &mut PktReader,
    first: Command,
) -> Result<CommandList, SessionEnd>
    requires ready { IsReady reader.old (L.state link.old) }
    requires short { HasShortName first }
    ensures runs { RunsLink (L.state link.old) (L.state link.new) (taking_commands first reader.old.offset) result }
    ensures tells { TellsLink (L.state link.old) (L.state link.new) result }
    ensures within { IfOk result AreWithinLimits }
{
    let mut commands = CommandList::new(alloc);
    let Ok(()) = commands.push(first) else {
        return Err(SessionEnd::NoMemory);
    };
    for _ in 1..MOST_COMMANDS {
        let Some(command) = take_further(alloc, link, reader)? else {
            return Ok(commands);
        };
        let Ok(()) = commands.push(command) else {
            return Err(SessionEnd::NoMemory);
        };
    }
    let next = take_further(alloc, link, reader)?;
    no_more(link, &next)?;
    Ok(commands)
}
