// What follows an opening.
ghost use Rattle.std.specs.Prelude.{◌≡◌, ◌≤◌, ◌++◌, [], length, codes, IfOk, if◌then◌else◌};
ghost use Rattle.pktline_core.specs.Links.{KeepsReading};
ghost use Rattle.pktline_core.specs.Packets.{spelling, Flush};
ghost use Rattle.ref_store.specs.Refs.{zero_id};
ghost use Rattle.hub_history.specs.State.{HasShortNames};
ghost use Rattle.hub_history.specs.History.{Stands};
ghost use Rattle.git_object.specs.Object.{FitOnePack};
ghost use Rattle.hub_history.specs.Push.{AreWithinLimits};
ghost use Rattle.interaction_tree.specs.Interaction.{write};
ghost use Rattle.interaction_tree.specs.Endings.{TakesTurn};
ghost use Rattle.interaction_tree.specs.Growth.{own_since};
ghost use Rattle.session_core.specs.End.{TellsLink, halt_of, outcome_of};
ghost use Rattle.session_core.specs.Gate.{LetsIn};
ghost use Rattle.session_core.specs.Opening.{StandsSomewhere};
ghost use Rattle.session_core.specs.Packets.{packet};
ghost use Rattle.session_core.specs.Parts.{RunsLink, end_of, ending_so};
ghost use Rattle.session_core.specs.Readers.{IsReady};
ghost use Rattle.session_core.specs.Rulebook.{ByRulebook, RunsByRulebook};
ghost use Rattle.receive_pack.specs.Changes.{HasShortName, HaveShortNames};
ghost use Rattle.receive_pack.specs.Texts.{advertisement, first_line, more_line};
ghost use Rattle.receive_pack.specs.Receiving.{commanding, pushing, reading_pack, pushed_end, receiving, reported_push, taking_pack, taking_push};

use crate::changes::{Capabilities, all_delete, first_capabilities};
use crate::commands::{first_in, take_commands};
use crate::reports::{ReportedPush, refuse_pack, write_report};
use crate::text::ref_line;
use git_object::{ObjectId, ObjectList};
use hub::{Desk, NoMemory, Pin, Pushed, Want, judge};
use hub_history::hold_laws;
use pktline_core::{Link, Pkt, PktReader};
use raw_pack::{PackFault, read_pack};
use ref_store::{Command, CommandList, Repo};
use session_core::{SessionEnd, end_by, say, say_flush, without_feed};
use std::alloc::Global;

// The objects of the pack behind these commands, of which there are none where each deletes its ref.
#[tactic(auto, unfolding(crate::specs::Receiving::taking_pack))]
fn take_pack<L: Link>(
    alloc: Global,
    link: &mut L,
    capabilities: Capabilities,
    commands: &CommandList,
) -> Result<ObjectList, SessionEnd>
    requires short { HaveShortNames commands.now }
    ensures runs { RunsLink (L.state link.old) (L.state link.new) (taking_pack capabilities commands.now) result }
    ensures fit { IfOk result FitOnePack }
    ensures tells { TellsLink (L.state link.old) (L.state link.new) result }
{
    if all_delete(commands) {
        return Ok(ObjectList::new(alloc));
    }
    take_whole_pack(alloc, link, capabilities, commands)
}

fn take_whole_pack<L: Link>(
    alloc: Global,
    link: &mut L,
    capabilities: Capabilities,
    commands: &CommandList,
) -> Result<ObjectList, SessionEnd>
    requires short { HaveShortNames commands.now }
    ensures runs { RunsLink (L.state link.old) (L.state link.new) (reading_pack capabilities commands.now) result }
    ensures fit { IfOk result FitOnePack }
    ensures tells { TellsLink (L.state link.old) (L.state link.new) result }
{
    match read_pack(alloc, link) {
        Ok(objects) => Ok(objects),
        Err(fault) => match fault {
            PackFault::ReadFault => Err(SessionEnd::ReadFault),
            PackFault::NoMemory => Err(SessionEnd::NoMemory),
            _ => Err(refuse_pack(alloc, link, capabilities, commands, fault)),
        },
    }
}

// A push, and its report.
fn push<L: Link, K: Desk>(
    alloc: Global,
    link: &mut L,
    desk: &mut K,
    pin: Pin,
    capabilities: Capabilities,
    commands: CommandList,
    pack: ObjectList,
) -> Result<(), SessionEnd>
    requires stands { Stands pin (K.view desk.old).admin (K.view desk.old).seen }
    requires write { pin.pinned.want ≡ Want.Write }
    requires within { AreWithinLimits commands }
    requires fit { FitOnePack pack }
    ensures runs { RunsByRulebook (L.state link.old) (L.state link.new) (K.view desk.old) (K.view desk.new) (λ book. pushing book pin capabilities commands pack) (outcome_of result) }
    ensures tells { TellsLink (L.state link.old) (L.state link.new) result }
    ensures goes { K.goes_on desk.old desk.new }
    ensures lets_in { LetsIn (K.view desk.old) (K.view desk.new) [] }
{
    // called for its clauses on what a pin is of, and that there is one list of rules in force
    hold_laws();
    let Ok(conf) = pin.conf().clone() else {
        return Err(SessionEnd::NoMemory);
    };
    let Ok(told) = reported_push(alloc, &pin, &commands) else {
        return Err(SessionEnd::NoMemory);
    };
    let Ok(judged) = judge(alloc, &pin, &pack, &commands, capabilities.atomic) else {
        return Err(SessionEnd::NoMemory);
    };
    match desk.push(alloc, pin, pack, commands, capabilities.atomic, judged) {
        Pushed::Settled {
            outcomes,
            made: _,
            conf: later,
        } => write_report(
            alloc,
            link,
            capabilities,
            conf.policy(),
            later.policy(),
            &told,
            &outcomes,
        ),
        Pushed::NoMemory(_) => Err(SessionEnd::NoMemory),
    }
}

// What the report names, since the push itself goes into the log.
fn reported_push(alloc: Global, pin: &Pin, commands: &CommandList) -> Result<ReportedPush, NoMemory>
    ensures { IfOk result (λ push. push ≡ reported_push pin.now commands.now) }
{
    Ok(ReportedPush {
        user: pin.user().clone()?,
        repo: pin.repo_name().clone()?,
        commands: copy_of(alloc, commands)?,
    })
}

fn copy_of(alloc: Global, commands: &CommandList) -> Result<CommandList, NoMemory>
    ensures { IfOk result (λ l. l ≡ commands.now) }
{
    let mut copy = CommandList::new(alloc);
    for command in commands.as_slice() {
        copy.push(Command {
            old: command.old,
            new: command.new,
            name: command.name.clone()?,
        })?;
    }
    Ok(copy)
}

// The commands behind the first, the pack, and the push.
fn take_push<L: Link, K: Desk>(
    alloc: Global,
    link: &mut L,
    desk: &mut K,
    reader: &mut PktReader,
    pin: Pin,
    capabilities: Capabilities,
    first: Command,
) -> Result<(), SessionEnd>
    requires ready { IsReady reader.old (L.state link.old) }
    requires stands { Stands pin (K.view desk.old).admin (K.view desk.old).seen }
    requires write { pin.pinned.want ≡ Want.Write }
    requires short { HasShortName first }
    ensures runs { RunsByRulebook (L.state link.old) (L.state link.new) (K.view desk.old) (K.view desk.new) (λ book. taking_push book pin capabilities first reader.old.offset) (outcome_of result) }
    ensures tells { TellsLink (L.state link.old) (L.state link.new) result }
    ensures goes { K.goes_on desk.old desk.new }
    ensures lets_in { LetsIn (K.view desk.old) (K.view desk.new) [] }
{
    let commands = take_commands(alloc, link, reader, first)?;
    let pack = take_pack(alloc, link, capabilities, &commands)?;
    push(alloc, link, desk, pin, capabilities, commands, pack)
}

/// The second part: the commands, the pack and the push, with its report.
pub fn receive_commands<L: Link, K: Desk>(
    alloc: Global,
    link: &mut L,
    desk: &mut K,
    reader: &mut PktReader,
    pin: Pin,
) -> Result<(), SessionEnd>
    requires ready { IsReady reader.old (L.state link.old) }
    requires stands { Stands pin (K.view desk.old).admin (K.view desk.old).seen }
    requires write { pin.pinned.want ≡ Want.Write }
    ensures runs { RunsByRulebook (L.state link.old) (L.state link.new) (K.view desk.old) (K.view desk.new) (λ book. commanding book pin reader.old.offset) (outcome_of result) }
    ensures tells { TellsLink (L.state link.old) (L.state link.new) result }
    ensures goes { K.goes_on desk.old desk.new }
    ensures lets_in { LetsIn (K.view desk.old) (K.view desk.new) [] }
{
    let offset = reader.offset();
    match reader.next(link) {
        Ok(Pkt::Flush) => Ok(()),
        Ok(Pkt::Line(line)) => {
            let line = without_feed(line);
            let capabilities = first_capabilities(line);
            let first = first_in(alloc, link, offset, line)?;
            take_push(alloc, link, desk, reader, pin, capabilities, first)
        }
        Err(fault) => Err(end_by(link, offset, fault)),
    }
}

/// What follows an opening for writing: the advertisement, and a push or none.
pub fn receive<L: Link, K: Desk>(
    alloc: Global,
    link: &mut L,
    desk: &mut K,
    reader: &mut PktReader,
    pin: Pin,
) -> Result<(), SessionEnd>
    requires ready { IsReady reader.old (L.state link.old) }
    requires stands { Stands pin (K.view desk.old).admin (K.view desk.old).seen }
    requires write { pin.pinned.want ≡ Want.Write }
    ensures runs { RunsByRulebook (L.state link.old) (L.state link.new) (K.view desk.old) (K.view desk.new) (λ book. receiving book pin reader.old.offset) (outcome_of result) }
    ensures turn { ByRulebook (K.view desk.old).admin (K.view desk.new).seen (λ book. TakesTurn (L.state link.old) (L.state link.new) (own_since (K.view desk.old) (K.view desk.new)) (ending_so pushed_end (receiving book pin reader.old.offset)) (halt_of (end_of pushed_end result))) }
    ensures tells { TellsLink (L.state link.old) (L.state link.new) result }
    ensures goes { K.goes_on desk.old desk.new }
    ensures lets_in { LetsIn (K.view desk.old) (K.view desk.new) [] }
{
    // called for its clause that what was seen is legal
    desk.sound();
    receive_both(alloc, link, desk, reader, pin)
}

// The two parts.
fn receive_both<L: Link, K: Desk>(
    alloc: Global,
    link: &mut L,
    desk: &mut K,
    reader: &mut PktReader,
    pin: Pin,
) -> Result<(), SessionEnd>
    requires ready { IsReady reader.old (L.state link.old) }
    requires stands { Stands pin (K.view desk.old).admin (K.view desk.old).seen }
    requires write { pin.pinned.want ≡ Want.Write }
    requires somewhere { StandsSomewhere pin }
    ensures runs { RunsByRulebook (L.state link.old) (L.state link.new) (K.view desk.old) (K.view desk.new) (λ book. receiving book pin reader.old.offset) (outcome_of result) }
    ensures tells { TellsLink (L.state link.old) (L.state link.new) result }
    ensures goes { K.goes_on desk.old desk.new }
    ensures lets_in { LetsIn (K.view desk.old) (K.view desk.new) [] }
{
    advertise_receive(alloc, link, &pin)?;
    receive_commands(alloc, link, desk, reader, pin)
}

/// The first part: the refs of the repository as it was at the opening, in the byte order of their names.
pub fn advertise_receive<L: Link>(alloc: Global, link: &mut L, pin: &Pin) -> Result<(), SessionEnd>
    requires stands { StandsSomewhere pin.now }
    ensures runs { RunsLink (L.state link.old) (L.state link.new) (write (advertisement pin.now.pinned.repository.refs)) result }
    ensures tells { TellsLink (L.state link.old) (L.state link.new) result }
    ensures reading { KeepsReading (L.state link.old) (L.state link.new) }
{
    // called for its clause that the names of refs stay short
    hold_laws();
    advertise(alloc, link, pin.repo())
}

fn advertise<L: Link>(alloc: Global, link: &mut L, repo: &Repo) -> Result<(), SessionEnd>
    requires names { HasShortNames repo.now.refs }
    ensures runs { RunsLink (L.state link.old) (L.state link.new) (write (advertisement repo.now.refs)) result }
    ensures tells { TellsLink (L.state link.old) (L.state link.new) result }
    ensures reading { KeepsReading (L.state link.old) (L.state link.new) }
{
    let mut first = true;
    for (name, id) in repo.refs() {
        advertise_ref(alloc, link, name.bytes(), *id, first)?;
        first = false;
    }
    end_advertisement(alloc, link, first)
}

// The line of a ref.
fn advertise_ref<L: Link>(
    alloc: Global,
    link: &mut L,
    name: &[u8],
    id: ObjectId,
    first: bool,
) -> Result<(), SessionEnd>
    requires short { length name.now ≤ 1024 }
    ensures runs { RunsLink (L.state link.old) (L.state link.new) (write (packet (if first then first_line (name.now, id) else more_line (name.now, id)))) result }
    ensures tells { TellsLink (L.state link.old) (L.state link.new) result }
    ensures reading { KeepsReading (L.state link.old) (L.state link.new) }
{
    let line = ref_line(alloc, name, id, first)?;
    say(link, &line)
}

// The line that bears the capabilities where there is no ref, and the flush.
fn end_advertisement<L: Link>(alloc: Global, link: &mut L, none: bool) -> Result<(), SessionEnd>
    ensures runs { RunsLink (L.state link.old) (L.state link.new) (write ((if none then packet (first_line (codes "capabilities^{}", zero_id)) else []) ++ spelling Flush)) result }
    ensures tells { TellsLink (L.state link.old) (L.state link.new) result }
    ensures reading { KeepsReading (L.state link.old) (L.state link.new) }
{
    if none {
        advertise_ref(alloc, link, b"capabilities^{}", ObjectId::zero(), true)?;
        return say_flush(link);
    }
    say_flush(link)
}
