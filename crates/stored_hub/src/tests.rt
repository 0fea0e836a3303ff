ghost use Rattle.std.specs.Prelude.{◌≡◌, IfSome};
ghost use Rattle.access_check.specs.declared.verdicts.Want.TheVariants as want;
ghost use Rattle.hub_history.specs.History.{Stands};
ghost use Rattle.hub_history.specs.Push.{AreWithinLimits};

use super::*;
use base_types::Text;
use conf_lex::{RepoName, UserName};
use git_object::{Kind, MAX_BODY, Object, ObjectId, ObjectList, fit_one_pack};
use hub::{Entered, Looked, PermChange, Pin, PushRequest, Pushed, Want, judge};
use hub_journal::recover;
use record_file::MemoryDisk;
use ref_store::{Command, CommandList};
use shared_hub::EventHub;
use std::alloc::Global;
use std::process::Abort;
use wild_perms::PermsAnswer;

const COMMIT: &[u8] =
    b"tree 4b825dc642cb6eb9a060e54bf8d69288fbee4904\nauthor Carol <carol@example.com> 1700000000 +0000\ncommitter Carol <carol@example.com> 1700000000 +0000\n\nfirst\n";

// What came of three events that aren't stored, and two openings with a push each, of which the second is
// refused.
#[derive(Drop)]
struct Outcome {
    answered: usize,
    stopped: bool,
    stored: u64,
    logged: usize,
    found: usize,
}

fn user_name(rt: &impl Abort, alloc: Global, name: &str) -> UserName {
    let name = UserName::parse(alloc, name.as_bytes()).expect(rt, "memory for a name");
    name.expect(rt, "a user's name")
}

fn testing(rt: &impl Abort, alloc: Global) -> RepoName {
    let name = RepoName::parse(alloc, b"testing").expect(rt, "memory for a name");
    name.expect(rt, "a repository's name")
}

fn object_of(rt: &impl Abort, alloc: Global, kind: Kind, body: &[u8]) -> Object {
    assert!(rt; body.len() <= MAX_BODY);
    Object::parse(alloc, kind, body).expect(rt, "an object")
}

// The create of the master branch.
fn create_of(rt: &impl Abort, alloc: Global, new: ObjectId) -> CommandList
    ensures { AreWithinLimits result }
{
    let old = ObjectId::zero();
    let name = Text::of(alloc, b"refs/heads/master").expect(rt, "memory for a name");
    let mut commands = CommandList::new(alloc);
    let command = Command { old, new, name };
    commands.push(command).expect(rt, "memory for a command");
    commands
}

// The pin of an opening for writing, if it is answered.
fn pin<H: EventHub>(rt: &impl Abort, alloc: Global, hub: &mut H) -> Option<Pin>
    ensures write { IfSome result (λ pin. pin.pinned.want ≡ want.Write) }
    ensures stands { IfSome result (λ pin. Stands pin (H.view hub.new).admin (H.view hub.new).log) }
{
    let user = user_name(rt, alloc, "alice");
    match hub.enter(alloc, 3, &user, &testing(rt, alloc), Want::Write) {
        Entered::Granted(pin) => Some(pin),
        _ => None,
    }
}

// Whether an opening, and behind it a push that creates the master branch at a commit of an empty tree, are
// answered.
fn push<H: EventHub>(rt: &impl Abort, alloc: Global, hub: &mut H) -> (bool, bool) {
    let Some(pin) = pin(rt, alloc, hub) else {
        return (false, false);
    };
    let commit = object_of(rt, alloc, Kind::Commit, COMMIT);
    let commands = create_of(rt, alloc, commit.name());
    let mut pack = ObjectList::new(alloc);
    pack.push(commit).expect(rt, "memory for a pack");
    let tree = object_of(rt, alloc, Kind::Tree, &[]);
    pack.push(tree).expect(rt, "memory for a pack");
    assert!(rt; fit_one_pack(&pack));
    let judged = judge(alloc, &pin, &pack, &commands, false);
    let judged = judged.expect(rt, "memory for what is judged");
    let wild = hub.wild_to_judge(alloc, &pin, &judged);
    assert!(rt; wild.expect(rt, "memory for roles").is_none());
    let request = PushRequest {
        pack,
        commands,
        atomic: false,
    };
    match hub.settle(alloc, 3, pin, request, judged) {
        Pushed::Settled { .. } => (true, true),
        Pushed::NoMemory(_) => (true, false),
    }
}

// How many are answered of a listing of roles, one of repositories and an opening for reading.
fn ask<H: EventHub>(rt: &impl Abort, alloc: Global, hub: &mut H) -> usize {
    let user = user_name(rt, alloc, "alice");
    let roles = hub.permit(alloc, 4, &user, &testing(rt, alloc), PermChange::List);
    let lines = hub.look(alloc, 5, &user);
    let opened = hub.enter(alloc, 6, &user, &testing(rt, alloc), Want::Read);
    !matches!(roles, PermsAnswer::NoMemory) as usize
        + matches!(lines, Looked::Lines(_)) as usize
        + matches!(opened, Entered::Granted(_)) as usize
}

// All calls at a hub over a new disk, which fails at these of its calls.
fn run_calls(rt: &impl Abort, alloc: Global, failing: Vec<u64>) -> Outcome {
    let admin = user_name(rt, alloc, "admin");
    let disk = MemoryDisk::new(alloc, Vec::new(alloc), 1000, failing);
    let mut disk = disk.expect(rt, "memory for a disk");
    let (hub, writer) = match recover(alloc, &mut disk, &admin) {
        Ok(recovered) => recovered.into_parts(),
        Err(_) => panic!(rt; "no journal"),
    };
    let mut hub = StoredHub::new(alloc, disk, hub, writer);
    let asked = ask(rt, alloc, &mut hub);
    let (entered, pushed) = push(rt, alloc, &mut hub);
    let (again, refused) = push(rt, alloc, &mut hub);
    let stopped = hub.has_stopped();
    let StoredParts {
        log,
        stored,
        disk,
        is_broken,
    } = hub.into_parts();
    assert!(rt; stopped == is_broken);
    let left = disk.stopped(64, 255);
    let mut left = left.expect(rt, "memory for a disk");
    let found = match recover(alloc, &mut left, &admin) {
        Ok(recovered) => recovered.into_hub().log().len(),
        Err(_) => panic!(rt; "no journal"),
    };
    let written = entered as usize + pushed as usize + again as usize + refused as usize;
    Outcome {
        answered: asked.saturating_add(written),
        stopped,
        stored,
        logged: log.len(),
        found,
    }
}

// Opening makes six calls of the disk, and a push that is done four, which store its opening too. No call is
// made for the others, so a disk that would fail at the next one isn't asked.
#[test]
fn what_changes_is_stored(rt: HostRuntime) {
    let alloc = rt.alloc();
    let failing = vec![in alloc; 10].expect(&rt, "memory for a number");
    let outcome = run_calls(&rt, alloc, failing);
    assert!(rt; outcome.answered == 7 && !outcome.stopped);
    assert!(rt; outcome.stored == 7 && outcome.logged == 7 && outcome.found == 2);
}

// The call that fails, and how many events are found: those of the push and its opening, or none.
#[test]
fn a_call_fails(rt: HostRuntime) {
    let alloc = rt.alloc();
    for (number, found) in [(6, 0), (7, 0), (8, 0), (9, 2)] {
        let failing = vec![in alloc; number].expect(&rt, "memory for a number");
        let outcome = run_calls(&rt, alloc, failing);
        assert!(rt; outcome.stopped && outcome.answered == 4);
        assert!(rt; outcome.stored == 4 && outcome.logged == 5 && outcome.found == found);
    }
}

// Where 64 openings wait, the next one is stored with them.
#[test]
fn many_openings(rt: HostRuntime) {
    let alloc = rt.alloc();
    let admin = user_name(&rt, alloc, "admin");
    let disk = MemoryDisk::new(alloc, Vec::new(alloc), 10_000, Vec::new(alloc));
    let mut disk = disk.expect(&rt, "memory for a disk");
    let (hub, writer) = match recover(alloc, &mut disk, &admin) {
        Ok(recovered) => recovered.into_parts(),
        Err(_) => panic!(rt; "no journal"),
    };
    let mut hub = StoredHub::new(alloc, disk, hub, writer);
    for _ in 0..66 {
        assert!(rt; pin(&rt, alloc, &mut hub).is_some());
    }
    let StoredParts { stored, disk, .. } = hub.into_parts();
    let left = disk.stopped(64, 255);
    let mut left = left.expect(&rt, "memory for a disk");
    let found = match recover(alloc, &mut left, &admin) {
        Ok(recovered) => recovered.into_hub().log().len(),
        Err(_) => panic!(rt; "no journal"),
    };
    assert!(rt; stored == 66 && found == 65);
}
