// What a command is told that no session of one client is told. `gitolite_shell` has whole pushes.
ghost use Rattle.std.specs.Prelude.{IfOk};
ghost use Rattle.receive_pack.specs.Changes.{HaveShortNames};

use access_check::Policy;
use base_types::Text;
use conf_lex::{RepoName, UserName};
use git_object::ObjectId;
use hub::Outcome;
use receive_pack::{ReportedPush, status_line};
use ref_store::{Command, CommandList};
use setup_conf::setup_policy;
use std::alloc::Global;
use std::test::Fail;

const ONES: ObjectId = ObjectId { bytes: [0x11; 20] };

static LINES: [&str; 5] = [
    "ng refs/heads/a stale, it is 1111111111111111111111111111111111111111\n",
    "ng refs/heads/a name collision 1111111111111111111111111111111111111111\n",
    "ng refs/heads/a repository would have 4294967296 objects\n",
    "ng refs/heads/a too many paths\n",
    "ng refs/heads/a too many paths (rules at push)\n",
];

// The outcome of which a line tells.
fn outcome_at(place: usize) -> Outcome {
    match place {
        0 => Outcome::Stale(ONES),
        1 => Outcome::Collided(ONES),
        2 => Outcome::Full(4_294_967_296),
        3 => Outcome::ManyPaths,
        _ => Outcome::ManyPathsNow,
    }
}

fn user_of(alloc: Global, name: &str) -> Result<UserName, Fail> {
    Ok(UserName::parse(alloc, name.as_bytes())?.ok_or("a user")?)
}

fn repo_of(alloc: Global, name: &str) -> Result<RepoName, Fail> {
    Ok(RepoName::parse(alloc, name.as_bytes())?.ok_or("a repository")?)
}

// A create of a branch.
fn create(alloc: Global, name: &str) -> Result<CommandList, Fail>
    ensures { IfOk result HaveShortNames }
{
    let name = Text::of(alloc, name.as_bytes())?;
    if name.bytes().len() > 1024 {
        return Err(Fail::from("a short name"));
    }
    let old = ObjectId::zero();
    let mut commands = CommandList::new(alloc);
    commands.push(Command {
        old,
        new: ONES,
        name,
    })?;
    Ok(commands)
}

fn push_of(alloc: Global, commands: CommandList) -> Result<ReportedPush, Fail>
    requires { HaveShortNames commands }
    ensures { IfOk result (λ push. HaveShortNames push.commands) }
{
    let user = user_of(alloc, "cal")?;
    let repo = repo_of(alloc, "site")?;
    Ok(ReportedPush {
        user,
        repo,
        commands,
    })
}

fn is_told(
    alloc: Global,
    policy: &Policy,
    push: &ReportedPush,
    command: &Command,
    place: usize,
    line: &str,
) -> Result<bool, Fail>
    requires { HaveShortNames push.now.commands }
{
    let text = status_line(alloc, policy, policy, push, command, &outcome_at(place))?;
    Ok(text.as_slice() == line.as_bytes())
}

// The first line that isn't told.
fn told_otherwise(
    alloc: Global,
    policy: &Policy,
    push: &ReportedPush,
) -> Result<Option<usize>, Fail>
    requires { HaveShortNames push.now.commands }
{
    let command = push.commands.get(0).ok_or("a command")?;
    for place in 0..LINES.len() {
        if !is_told(alloc, policy, push, command, place, LINES[place])? {
            return Ok(Some(place));
        }
    }
    Ok(None)
}

fn found_otherwise(alloc: Global) -> Result<Option<usize>, Fail> {
    let policy = setup_policy(alloc, &user_of(alloc, "cal")?)?;
    let push = push_of(alloc, create(alloc, "refs/heads/a")?)?;
    told_otherwise(alloc, &policy, &push)
}

#[test]
fn a_command_is_told_why_it_is_not_done(rt: HostRuntime) -> Result<(), Fail> {
    assert_eq!(rt; found_otherwise(rt.alloc())?, None);
    Ok(())
}
