// Changes and listings of roles.
ghost use Rattle.std.specs.Prelude.{◌≡◌, ◌≤◌, ◌++◌, [], ◌∷◌, length, map, IfOk};
ghost use Rattle.std.specs.List.{flat_map};
ghost use Rattle.pktline_core.specs.Packets.{spelling, Flush};
ghost use Rattle.hub_history.specs.History.{HasShortRole};
ghost use Rattle.interaction_tree.specs.Interaction.{write};
ghost use Rattle.interaction_tree.specs.Runs.{Runs};
ghost use Rattle.session_core.specs.End.{TellsLink, outcome_of};
ghost use Rattle.session_core.specs.Gate.{LetsIn};
ghost use Rattle.session_core.specs.Packets.{packet};
ghost use Rattle.session_core.specs.Parts.{RunsLink};
ghost use Rattle.git_session.specs.Perms.{permitting, role_line};

use conf_lex::{RepoName, UserName};
use hub::{Desk, PermChange, Permitted};
use pktline_core::Link;
use session_core::{SessionEnd, say, say_flush, shown};
use std::alloc::{AllocError, Global};
use wild_perms::{RoleEntry, RoleList};

// A packet of a line, and a flush.
fn write_line<L: Link>(link: &mut L, line: &[u8]) -> Result<(), SessionEnd>
    requires { length line.now ≤ 65516 }
    ensures runs { RunsLink (L.state link.old) (L.state link.new) (write (flat_map packet (line.now ∷ []) ++ spelling Flush)) result }
    ensures tells { TellsLink (L.state link.old) (L.state link.new) result }
{
    say(link, line)?;
    say_flush(link)
}

fn role_text(alloc: Global, entry: &RoleEntry) -> Result<Vec<u8>, AllocError>
    ensures text { IfOk result (λ v. v.items ≡ role_line entry.now) }
    ensures size { IfOk result (λ v. length v.items ≤ 65516) }
{
    let mut text = Vec::from_slice(alloc, shown(entry.role.bytes()))?;
    text.extend_from_slice(b" ")?;
    text.extend_from_slice(shown(entry.user.bytes()))?;
    text.extend_from_slice(b"\n")?;
    Ok(text)
}

fn say_role<L: Link>(alloc: Global, link: &mut L, entry: &RoleEntry) -> Result<(), SessionEnd>
    ensures runs { RunsLink (L.state link.old) (L.state link.new) (write (packet (role_line entry.now))) result }
    ensures tells { TellsLink (L.state link.old) (L.state link.new) result }
{
    let text = role_text(alloc, entry)?;
    say(link, &text)
}

fn say_roles<L: Link>(alloc: Global, link: &mut L, roles: &RoleList) -> Result<(), SessionEnd>
    ensures runs { RunsLink (L.state link.old) (L.state link.new) (write (flat_map packet (map role_line roles.now))) result }
    ensures tells { TellsLink (L.state link.old) (L.state link.new) result }
{
    for entry in roles.as_slice() {
        say_role(alloc, link, entry)?;
    }
    Ok(())
}

// A packet for each role, and a flush.
fn tell_roles<L: Link>(alloc: Global, link: &mut L, roles: &RoleList) -> Result<(), SessionEnd>
    ensures runs { RunsLink (L.state link.old) (L.state link.new) (write (flat_map packet (map role_line roles.now) ++ spelling Flush)) result }
    ensures tells { TellsLink (L.state link.old) (L.state link.new) result }
{
    say_roles(alloc, link, roles)?;
    say_flush(link)
}

/// Changes the roles of a repository for a user, or lists them, and tells the answer.
pub fn permit<L: Link, K: Desk>(
    alloc: Global,
    link: &mut L,
    desk: &mut K,
    user: &UserName,
    repo: &RepoName,
    change: PermChange,
) -> Result<(), SessionEnd>
    requires short { HasShortRole change }
    ensures runs { Runs (L.state link.old) (L.state link.new) (K.view desk.old) (K.view desk.new) (permitting ((K.view desk.old).admin) user.now repo.now change) (outcome_of result) }
    ensures tells { TellsLink (L.state link.old) (L.state link.new) result }
    ensures goes { K.goes_on desk.old desk.new }
    ensures lets_in { LetsIn (K.view desk.old) (K.view desk.new) [] }
{
    match desk.permit(alloc, user, repo, change) {
        Permitted::Changed => write_line(link, b"perms: changed\n"),
        Permitted::AlreadySo => write_line(link, b"perms: already so\n"),
        Permitted::NotWild => write_line(link, b"perms: not a wild repository of yours\n"),
        Permitted::NotCreator => write_line(link, b"perms: not a wild repository of yours\n"),
        Permitted::NoSuchRole => write_line(link, b"perms: no such role\n"),
        Permitted::Listed(roles) => tell_roles(alloc, link, &roles),
        Permitted::NoMemory => Err(SessionEnd::NoMemory),
    }
}
