ghost use Rattle.std.specs.Prelude.{◌≡◌, ◌<◌, ◌≤◌, length};
ghost use Rattle.access_check.specs.declared.verdicts.Want.TheVariants as want;
ghost use Rattle.hub_history.specs.History.{Stands};
ghost use Rattle.hub_history.specs.Push.{AreWithinLimits};

use super::*;
use base_types::Text;
use conf_lex::{RepoName, UserName};
use git_object::{Kind, MAX_BODY, Object, ObjectId, ObjectList, fit_one_pack};
use hub::{Desk, Entered, Looked, PermChange, Pin, Pushed, Want, judge};
use record_file::MemoryDisk;
use ref_store::{Command, CommandList};
use std::alloc::Global;
use std::process::Abort;
use wild_perms::PermsAnswer;

const COMMIT: &[u8] =
    b"tree 4b825dc642cb6eb9a060e54bf8d69288fbee4904\nauthor Carol <carol@example.com> 1700000000 +0000\ncommitter Carol <carol@example.com> 1700000000 +0000\n\nfirst\n";

// The lengths of the head, of the record of the opening, and of the whole file with the push.
const HEAD: u64 = 14;

const OPENED: u64 = 49;

const PUSHED: usize = 310;

fn user_name(rt: &impl Abort, alloc: Global, name: &str) -> UserName {
    let name = UserName::parse(alloc, name.as_bytes()).expect(rt, "memory for a name");
    name.expect(rt, "a user's name")
}

fn testing(rt: &impl Abort, alloc: Global) -> RepoName {
    let name = RepoName::parse(alloc, b"testing").expect(rt, "memory for a name");
    name.expect(rt, "a repository's name")
}

fn object_of(rt: &impl Abort, alloc: Global, kind: Kind, body: &[u8]) -> Object {
    assert!(rt; body.len() <= MAX_BODY);
    Object::parse(alloc, kind, body).expect(rt, "an object")
}

// The create of the master branch.
fn create_of(rt: &impl Abort, alloc: Global, new: ObjectId) -> CommandList
    ensures { AreWithinLimits result }
{
    let old = ObjectId::zero();
    let name = Text::of(alloc, b"refs/heads/master").expect(rt, "memory for a name");
    let mut commands = CommandList::new(alloc);
    let command = Command { old, new, name };
    commands.push(command).expect(rt, "memory for a command");
    commands
}

// The pin of an opening for writing, which is granted.
fn pin<D: Desk>(rt: &impl Abort, alloc: Global, desk: &mut D) -> Pin
    ensures write { result.pinned.want ≡ want.Write }
    ensures stands { Stands result (D.view desk.new).admin (D.view desk.new).seen }
{
    let user = user_name(rt, alloc, "alice");
    match desk.enter(alloc, &user, &testing(rt, alloc), Want::Write) {
        Entered::Granted(pin) => pin,
        _ => panic!(rt; "no pin"),
    }
}

// An opening, and a push that creates the master branch at a commit of an empty tree.
fn push<D: Desk>(rt: &impl Abort, alloc: Global, desk: &mut D) {
    let pin = pin(rt, alloc, desk);
    let commit = object_of(rt, alloc, Kind::Commit, COMMIT);
    let commands = create_of(rt, alloc, commit.name());
    let mut pack = ObjectList::new(alloc);
    pack.push(commit).expect(rt, "memory for a pack");
    let tree = object_of(rt, alloc, Kind::Tree, &[]);
    pack.push(tree).expect(rt, "memory for a pack");
    assert!(rt; fit_one_pack(&pack));
    let judged = judge(alloc, &pin, &pack, &commands, false);
    let judged = judged.expect(rt, "memory for what is judged");
    match desk.push(alloc, pin, pack, commands, false, judged) {
        Pushed::Settled { .. } => {}
        Pushed::NoMemory(_) => panic!(rt; "out of memory"),
    }
}

// A disk on which an opening and a push were stored, which fails at these calls, and how many events are
// stored for certain.
fn stored(rt: &impl Abort, alloc: Global, failing: Vec<u64>) -> (MemoryDisk, u64) {
    let admin = user_name(rt, alloc, "admin");
    let disk = MemoryDisk::new(alloc, Vec::new(alloc), 1000, failing);
    let mut disk = disk.expect(rt, "memory for a disk");
    let count = match recover(alloc, &mut disk, &admin) {
        Ok(recovered) => {
            let (mut hub, writer) = recovered.into_parts();
            let mut journal = JournalHub::new(&mut disk, &mut hub, writer);
            push(rt, alloc, &mut journal);
            assert!(rt; journal.hub().log().len() == 2);
            journal.stored()
        }
        Err(_) => 9,
    };
    (disk, count)
}

// How many events are found on a disk, or why none.
fn found(
    rt: &impl Abort,
    alloc: Global,
    disk: &mut MemoryDisk,
    admin: &str,
) -> Result<usize, OpenFault> {
    match recover(alloc, disk, &user_name(rt, alloc, admin)) {
        Ok(recovered) => Ok(recovered.into_hub().log().len()),
        Err(fault) => Err(fault),
    }
}

#[test]
fn a_push_is_stored(rt: HostRuntime) {
    let alloc = rt.alloc();
    let (mut disk, count) = stored(&rt, alloc, Vec::new(alloc));
    assert!(rt; count == 2);
    assert!(rt; disk.content().len() == PUSHED);
    assert!(rt; found(&rt, alloc, &mut disk, "admin") == Ok(2));
    assert!(rt; found(&rt, alloc, &mut disk, "root") == Err(OpenFault::OtherAdmin));
}

// An opening that is denied, a listing of roles and a look are events too.
#[test]
fn each_event_is_stored(rt: HostRuntime) {
    let alloc = rt.alloc();
    let admin = user_name(&rt, alloc, "admin");
    let disk = MemoryDisk::new(alloc, Vec::new(alloc), 1000, Vec::new(alloc));
    let mut disk = disk.expect(&rt, "memory for a disk");
    let Ok(recovered) = recover(alloc, &mut disk, &admin) else {
        panic!(rt; "not recovered");
    };
    let (mut hub, writer) = recovered.into_parts();
    let mut journal = JournalHub::new(&mut disk, &mut hub, writer);
    let bob = user_name(&rt, alloc, "bob");
    let repo = RepoName::parse(alloc, b"gitolite-admin").expect(&rt, "memory for a name");
    let repo = repo.expect(&rt, "a repository's name");
    let entered = journal.enter(alloc, &bob, &repo, Want::Write);
    assert!(rt; matches!(entered, Entered::Denied(_, _)) && journal.stored() == 1);
    let permitted = journal.permit(alloc, &bob, &testing(&rt, alloc), PermChange::List);
    assert!(rt; matches!(permitted, PermsAnswer::NotWild) && journal.stored() == 2);
    let looked = journal.look(alloc, &bob);
    assert!(rt; matches!(looked, Looked::Lines(_)) && journal.stored() == 3);
    assert!(rt; !journal.is_broken());
    assert!(rt; found(&rt, alloc, &mut disk, "admin") == Ok(3));
}

// Opening makes six calls, and each event four.
#[test]
fn stopped_after_each_call(rt: HostRuntime) {
    let alloc = rt.alloc();
    let (disk, _) = stored(&rt, alloc, Vec::new(alloc));
    for (calls, least, most) in [
        (6, 0, 0),
        (7, 0, 0),
        (8, 0, 0),
        (9, 0, 1),
        (10, 1, 1),
        (11, 1, 1),
        (12, 1, 1),
        (13, 1, 2),
        (14, 2, 2),
        (64, 2, 2),
    ] {
        for filler in [0, 255] {
            let left = disk.stopped(calls, filler);
            let mut left = left.expect(&rt, "memory for a disk");
            let count = found(&rt, alloc, &mut left, "admin").unwrap_or(9);
            assert!(rt; least <= count && count <= most);
        }
    }
}

// The call that fails, how many events are stored for certain, and how many are found.
#[test]
fn a_call_fails(rt: HostRuntime) {
    let alloc = rt.alloc();
    for (number, certain, count) in [(6, 0, 0), (9, 0, 1), (10, 1, 1), (13, 1, 2)] {
        let failing = vec![in alloc; number];
        let failing = failing.expect(&rt, "memory for a number");
        let (disk, stored) = stored(&rt, alloc, failing);
        assert!(rt; stored == certain);
        let left = disk.stopped(64, 255);
        let mut left = left.expect(&rt, "memory for a disk");
        assert!(rt; found(&rt, alloc, &mut left, "admin") == Ok(count));
    }
}

// A journal of so many of the bytes.
fn cut_to(rt: &impl Abort, alloc: Global, bytes: &[u8], size: usize) -> Result<usize, OpenFault> {
    let bytes = bytes.get(..size).expect(rt, "enough bytes");
    let bytes = bytes.to_vec(alloc).expect(rt, "memory for bytes");
    let disk = MemoryDisk::new(alloc, bytes, 100, Vec::new(alloc));
    found(
        rt,
        alloc,
        &mut disk.expect(rt, "memory for a disk"),
        "admin",
    )
}

// A journal whose last write was made in part: its gate is zero, and what follows ends after so many bytes.
fn torn(
    rt: &impl Abort,
    alloc: Global,
    bytes: &[u8],
    gate: usize,
    behind: usize,
    size: usize,
) -> Result<usize, OpenFault> {
    let front = bytes.get(..gate).expect(rt, "a gate");
    let mut left = front.to_vec(alloc).expect(rt, "memory for bytes");
    left.push(0).expect(rt, "memory for a byte");
    let written = bytes.get(behind..size).expect(rt, "a write");
    left.extend_from_slice(written)
        .expect(rt, "memory for bytes");
    cut_to(rt, alloc, &left, left.len())
}

// Each length of each event's first write: the gate, what is behind it, the end of the write, and the events
// before it.
#[test]
fn a_torn_write_is_no_event(rt: HostRuntime) {
    let alloc = rt.alloc();
    let (disk, _) = stored(&rt, alloc, Vec::new(alloc));
    let bytes = disk.content();
    for (gate, behind, end, count) in [(14, 15, 50, 0), (49, 50, PUSHED, 1)] {
        for size in behind..=end {
            assert!(rt; torn(&rt, alloc, bytes, gate, behind, size) == Ok(count));
        }
    }
}

#[test]
fn each_fault_of_opening(rt: HostRuntime) {
    let alloc = rt.alloc();
    let (disk, _) = stored(&rt, alloc, Vec::new(alloc));
    let bytes = disk.content();
    assert!(rt; cut_to(&rt, alloc, bytes, 8) == Err(OpenFault::NotAJournal));
    assert!(rt; cut_to(&rt, alloc, bytes, PUSHED - 1) == Err(OpenFault::BadRecord(OPENED)));
    // a record without a body, and the push alone, which is after no opening
    let empty = b"GITOLOG1\x05admin\x01\0\0\0\0\0\0\0\0\0";
    assert!(rt; cut_to(&rt, alloc, empty, 24) == Err(OpenFault::BadRecord(HEAD)));
    // of a bad body and a record behind it that isn't whole, the first is told
    let both = b"GITOLOG1\x05admin\x01\0\0\0\0\0\0\0\0\x01";
    assert!(rt; cut_to(&rt, alloc, both, 24) == Err(OpenFault::BadRecord(HEAD)));
    let mut alone = bytes
        .get(..14)
        .expect(&rt, "a head")
        .to_vec(alloc)
        .expect(&rt, "memory");
    let push = bytes.get(49..).expect(&rt, "a push");
    alone.extend_from_slice(push).expect(&rt, "memory");
    assert!(rt; cut_to(&rt, alloc, &alone, alone.len()) == Err(OpenFault::BadRecord(HEAD)));
    let failing = vec![in alloc; 0].expect(&rt, "memory for a number");
    let disk = MemoryDisk::new(alloc, Vec::new(alloc), 9, failing);
    let mut disk = disk.expect(&rt, "memory for a disk");
    assert!(rt; found(&rt, alloc, &mut disk, "admin") == Err(OpenFault::DiskFault));
}
