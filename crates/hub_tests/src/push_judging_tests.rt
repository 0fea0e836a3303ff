//! Pushes to the conf's repository, judged by an opening of a new hub.

use access_check::Want;
use base_types::Text;
use conf_lex::{RepoName, UserName};
use git_object::{Kind, Object, ObjectId, ObjectList};
use hub_state::HostedRepo;
use push_judging::{ConfInForce, Judged, Pin, judge};
use ref_store::{Command, CommandList};
use std::alloc::Global;
use std::test::Fail;
use wild_perms::Wild;

// Who pushes which text as the conf, what the command for the conf's branch is told, where 0 is nothing, and
// how many rules it would put in force.
static ROWS: [(&str, &str, u8, usize); 4] = [
    ("ann", "repo x\n    RW+ = ann\n    R = bob\n", 0, 2),
    ("ann", "repo x\n    RX = ann\n", 10, 0),
    ("bob", "repo x\n    RW+ = ann\n", 8, 0),
    ("ann", "", 0, 0),
];

fn put(alloc: Global, pack: &mut ObjectList, kind: Kind, body: &[u8]) -> Result<ObjectId, Fail> {
    if body.len() > 16_777_216 {
        return Err(Fail::from("a short body"));
    }
    let object = Object::parse(alloc, kind, body)?;
    let name = object.name();
    pack.push(object)?;
    Ok(name)
}

fn put_tree(
    alloc: Global,
    pack: &mut ObjectList,
    entry: &[u8],
    id: ObjectId,
) -> Result<ObjectId, Fail> {
    let mut body = entry.to_vec(alloc)?;
    body.push(0)?;
    body.extend_from_slice(&id.bytes)?;
    put(alloc, pack, Kind::Tree, &body)
}

fn put_commit(alloc: Global, pack: &mut ObjectList, tree: ObjectId) -> Result<ObjectId, Fail> {
    let mut body = b"tree ".to_vec(alloc)?;
    body.extend_from_slice(&tree.hex())?;
    body.extend_from_slice(b"\nauthor a <a> 0 +0000\ncommitter a <a> 0 +0000\n\nx\n")?;
    put(alloc, pack, Kind::Commit, &body)
}

// A commit with this conf.
fn put_conf(alloc: Global, pack: &mut ObjectList, text: &str) -> Result<ObjectId, Fail> {
    let file = put(alloc, pack, Kind::Blob, text.as_bytes())?;
    let folder = put_tree(alloc, pack, b"100644 gitolite.conf", file)?;
    let root = put_tree(alloc, pack, b"40000 conf", folder)?;
    put_commit(alloc, pack, root)
}

fn create(alloc: Global, new: ObjectId) -> Result<CommandList, Fail> {
    let mut commands = CommandList::new(alloc);
    commands.push(Command {
        old: ObjectId::zero(),
        new,
        name: Text::of(alloc, b"refs/heads/master")?,
    })?;
    Ok(commands)
}

fn pin(alloc: Global, user: &str) -> Result<Pin, Fail> {
    let admin = UserName::parse(alloc, b"ann")?.ok_or("a user's name")?;
    let user = UserName::parse(alloc, user.as_bytes())?.ok_or("a user's name")?;
    let name = RepoName::parse(alloc, b"gitolite-admin")?.ok_or("a repository's name")?;
    let conf = ConfInForce::setup(alloc, &admin)?;
    let hosted = HostedRepo::empty(alloc, Wild::plain(alloc))?;
    Ok(Pin::new(0, user, name, Want::Write, conf, hosted))
}

fn number_in(judged: &Judged) -> u8 {
    match judged.outcomes().first() {
        Some(Some(outcome)) => outcome.number(),
        _ => 0,
    }
}

fn rules_in(judged: Judged) -> usize {
    let (mut told, _) = judged.into_parts();
    match told.confs.pop() {
        Some(Some(conf)) => conf.policy().rules().len(),
        _ => 0,
    }
}

fn told(alloc: Global, pin: &Pin, text: &str) -> Result<(u8, usize), Fail> {
    let mut pack = ObjectList::new(alloc);
    let new = put_conf(alloc, &mut pack, text)?;
    let judged = judge(alloc, pin, &pack, &create(alloc, new)?, false)?;
    Ok((number_in(&judged), rules_in(judged)))
}

#[test]
fn a_conf_is_judged_with_its_push(rt: HostRuntime) -> Result<(), Fail> {
    for (user, text, number, rules) in &ROWS {
        let pin = pin(rt.alloc(), user)?;
        assert_eq!(rt; told(rt.alloc(), &pin, text)?, (*number, *rules));
    }
    Ok(())
}
