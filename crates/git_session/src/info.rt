// A listing of what there is to see.
ghost use Rattle.std.specs.Prelude.{◌≡◌, ◌≤◌, [], length, map, IfOk};
ghost use Rattle.std.specs.List.{flat_map};
ghost use Rattle.interaction_tree.specs.Interaction.{write};
ghost use Rattle.session_core.specs.End.{TellsLink, outcome_of};
ghost use Rattle.session_core.specs.Gate.{LetsIn};
ghost use Rattle.session_core.specs.Packets.{packet};
ghost use Rattle.session_core.specs.Parts.{RunsLink};
ghost use Rattle.session_core.specs.Rulebook.{RunsByRulebook};
ghost use Rattle.git_session.specs.Info.{hello, info_reply, look_line, looking};

use conf_lex::UserName;
use hub::{Desk, Looked};
use hub_history::hold_laws;
use pktline_core::Link;
use repo_listing::{LookLine, LookList, line_text};
use session_core::{SessionEnd, fitting, say, say_flush};
use std::alloc::{AllocError, Global};

fn hello_text(alloc: Global, user: &UserName) -> Result<Vec<u8>, AllocError>
    ensures text { IfOk result (λ v. v.items ≡ hello user.now) }
    ensures size { IfOk result (λ v. length v.items ≤ 65516) }
{
    let mut text = Vec::from_slice(alloc, b"hello ")?;
    text.extend_from_slice(fitting(user.bytes()))?;
    text.extend_from_slice(b"\n")?;
    Ok(text)
}

fn say_hello<L: Link>(alloc: Global, link: &mut L, user: &UserName) -> Result<(), SessionEnd>
    ensures runs { RunsLink (L.state link.old) (L.state link.new) (write (packet (hello user.now))) result }
    ensures tells { TellsLink (L.state link.old) (L.state link.new) result }
{
    let text = hello_text(alloc, user)?;
    say(link, &text)
}

fn say_line<L: Link>(alloc: Global, link: &mut L, line: &LookLine) -> Result<(), SessionEnd>
    ensures runs { RunsLink (L.state link.old) (L.state link.new) (write (packet (look_line line.now))) result }
    ensures tells { TellsLink (L.state link.old) (L.state link.new) result }
{
    let text = line_text(alloc, line)?;
    say(link, fitting(text.bytes()))
}

fn say_lines<L: Link>(alloc: Global, link: &mut L, lines: &LookList) -> Result<(), SessionEnd>
    ensures runs { RunsLink (L.state link.old) (L.state link.new) (write (flat_map packet (map look_line lines.now))) result }
    ensures tells { TellsLink (L.state link.old) (L.state link.new) result }
{
    for line in lines.as_slice() {
        say_line(alloc, link, line)?;
    }
    Ok(())
}

// The greeting, a packet for each line, and a flush.
fn tell_lines<L: Link>(
    alloc: Global,
    link: &mut L,
    user: &UserName,
    lines: &LookList,
) -> Result<(), SessionEnd>
    ensures runs { RunsLink (L.state link.old) (L.state link.new) (write (info_reply user.now lines.now)) result }
    ensures tells { TellsLink (L.state link.old) (L.state link.new) result }
{
    say_hello(alloc, link, user)?;
    say_lines(alloc, link, lines)?;
    say_flush(link)
}

/// Lists what a user may see: the repositories, and the patterns by which the user may create some.
pub fn look<L: Link, K: Desk>(
    alloc: Global,
    link: &mut L,
    desk: &mut K,
    user: &UserName,
) -> Result<(), SessionEnd>
    ensures runs { RunsByRulebook (L.state link.old) (L.state link.new) (K.view desk.old) (K.view desk.new) (λ book. looking book ((K.view desk.old).admin) user.now) (outcome_of result) }
    ensures tells { TellsLink (L.state link.old) (L.state link.new) result }
    ensures goes { K.goes_on desk.old desk.new }
    ensures lets_in { LetsIn (K.view desk.old) (K.view desk.new) [] }
{
    // called for its clause that there is one list of rules in force
    hold_laws();
    match desk.look(alloc, user) {
        Looked::Lines(lines) => tell_lines(alloc, link, user, &lines),
        Looked::NoMemory => Err(SessionEnd::NoMemory),
    }
}
