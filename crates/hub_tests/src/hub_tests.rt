//! A hub over its only desk: pushes that overtake each other. `gitolite_shell` has whole sessions, and
//! `shared_hub_tests` confs that are put in force between an opening and its push.
ghost use Rattle.std.specs.Prelude.{◌≡◌, ◌<◌, ◌≤◌, length};
ghost use Rattle.std.specs.List.{AllByRecursion};
ghost use Rattle.ref_store.specs.declared.command.Command.{Command};
ghost use Rattle.access_check.specs.declared.verdicts.Want.TheVariants as want;
ghost use Rattle.hub_history.specs.History.{Stands};
ghost use Rattle.hub_history.specs.Push.{AreWithinLimits};
ghost use Rattle.hub.specs.Desk.{KeepsPins};

use base_types::Text;
use git_object::{Kind, MAX_BODY, Object, ObjectId, ObjectList, fit_one_pack};
use hub::{
    Desk, Entered, Hub, LoneDesk, Outcome, OutcomeList, Pin, Pushed, RepoName, UserName, Want,
    judge,
};
use ref_store::{Command, CommandList};
use std::alloc::Global;
use std::process::Abort;

fn user_name(rt: &impl Abort, alloc: Global, name: &str) -> UserName {
    let name = UserName::parse(alloc, name.as_bytes()).expect(rt, "memory for a name");
    name.expect(rt, "a user's name")
}

fn repo_name(rt: &impl Abort, alloc: Global, name: &str) -> RepoName {
    let name = RepoName::parse(alloc, name.as_bytes()).expect(rt, "memory for a name");
    name.expect(rt, "a repository's name")
}

fn new_desk(rt: &impl Abort, alloc: Global) -> LoneDesk {
    let hub = Hub::start(alloc, &user_name(rt, alloc, "ann"));
    LoneDesk::new(hub.expect(rt, "memory for a hub"))
}

// The pin of an opening for writing, which is granted.
fn pin<D: Desk>(
    rt: &impl Abort,
    alloc: Global,
    desk: &mut D,
    user: &UserName,
    repo: &RepoName,
) -> Pin
    ensures write { result.pinned.want ≡ want.Write }
    ensures stands { Stands result (D.view desk.new).admin (D.view desk.new).seen }
    ensures keeps { KeepsPins (D.view desk.old) (D.view desk.new) }
{
    match desk.enter(alloc, user, repo, Want::Write) {
        Entered::Granted(pin) => pin,
        _ => panic!(rt; "no pin"),
    }
}

// A push that is judged by its pin.
fn push<D: Desk>(
    rt: &impl Abort,
    alloc: Global,
    desk: &mut D,
    pin: Pin,
    pack: ObjectList,
    commands: CommandList,
    atomic: bool,
) -> OutcomeList
    requires write { pin.pinned.want ≡ want.Write }
    requires stands { Stands pin (D.view desk.old).admin (D.view desk.old).seen }
    requires within { AreWithinLimits commands }
    ensures keeps { KeepsPins (D.view desk.old) (D.view desk.new) }
{
    assert!(rt; fit_one_pack(&pack));
    let judged = judge(alloc, &pin, &pack, &commands, atomic);
    let judged = judged.expect(rt, "memory for what is judged");
    match desk.push(alloc, pin, pack, commands, atomic, judged) {
        Pushed::Settled { outcomes, .. } => outcomes,
        Pushed::NoMemory(_) => panic!(rt; "out of memory"),
    }
}

fn blob_of(rt: &impl Abort, alloc: Global, body: &[u8]) -> Object {
    assert!(rt; body.len() <= MAX_BODY);
    Object::parse(alloc, Kind::Blob, body).expect(rt, "a blob")
}

fn pack_of(rt: &impl Abort, alloc: Global, object: Object) -> ObjectList {
    let mut pack = ObjectList::new(alloc);
    pack.push(object).expect(rt, "memory for a pack");
    pack
}

// The create of a tag whose name is a letter.
fn create_of(rt: &impl Abort, alloc: Global, letter: u8, new: ObjectId) -> Command
    ensures { length result.name ≤ 1024 }
{
    let mut name = b"refs/tags/".to_vec(alloc).expect(rt, "memory for a name");
    name.push(letter).expect(rt, "memory for a name");
    let old = ObjectId::zero();
    let name = Text::from(name);
    Command { old, new, name }
}

// A create for each letter, of the tag of that name.
fn creates(rt: &impl Abort, alloc: Global, letters: &[u8], new: ObjectId) -> CommandList
    requires some { 0 < length letters.now }
    requires few { length letters.now ≤ 10000 }
    ensures { AreWithinLimits result }
{
    let mut list = CommandList::new(alloc);
    for letter in letters {
        let create = create_of(rt, alloc, *letter, new);
        list.push(create).expect(rt, "memory for a command");
    }
    list
}

// A push of a blob of this body, of which these are the tags.
fn tag<D: Desk>(
    rt: &impl Abort,
    alloc: Global,
    desk: &mut D,
    pin: Pin,
    body: &[u8],
    letters: &[u8],
    atomic: bool,
) -> OutcomeList
    requires write { pin.pinned.want ≡ want.Write }
    requires stands { Stands pin (D.view desk.old).admin (D.view desk.old).seen }
    requires some { 0 < length letters.now }
    requires few { length letters.now ≤ 10000 }
    ensures keeps { KeepsPins (D.view desk.old) (D.view desk.new) }
{
    let blob = blob_of(rt, alloc, body);
    let commands = creates(rt, alloc, letters, blob.name());
    let pack = pack_of(rt, alloc, blob);
    push(rt, alloc, desk, pin, pack, commands, atomic)
}

// What a stale command is told: the value that its ref has.
fn stale_at(outcomes: &OutcomeList, place: usize) -> Option<ObjectId> {
    match outcomes.get(place) {
        Some(Outcome::Stale(value)) => Some(*value),
        _ => None,
    }
}

// The command that another of its atomic push names.
fn first_at(outcomes: &OutcomeList, place: usize) -> Option<u32> {
    match outcomes.get(place) {
        Some(Outcome::AtomicOther(first)) => Some(*first),
        _ => None,
    }
}

fn number_at(outcomes: &OutcomeList, place: usize) -> u8 {
    match outcomes.get(place) {
        Some(outcome) => outcome.number(),
        None => 0,
    }
}

// Whether three outcomes have these numbers.
fn are(outcomes: &OutcomeList, first: u8, second: u8, third: u8) -> bool {
    number_at(outcomes, 0) == first
        && number_at(outcomes, 1) == second
        && number_at(outcomes, 2) == third
}

// Whether the stale command is told the other's blob, and where the push is atomic the others are told of it.
fn tells(two: &OutcomeList, there: ObjectId, atomic: bool) -> bool {
    let first = if atomic { Some(1) } else { None };
    stale_at(two, 1) == Some(there) && first_at(two, 0) == first && first_at(two, 2) == first
}

// Of two pushes, both opened before the first was settled, the second is told these numbers: it is stale at
// the ref that the first has made.
fn check_overtaken<D: Desk>(
    rt: &impl Abort,
    alloc: Global,
    desk: &mut D,
    user: &UserName,
    repo: &RepoName,
    atomic: bool,
    number: u8,
) {
    let first = pin(rt, alloc, desk, user, repo);
    let second = pin(rt, alloc, desk, user, repo);
    let one = tag(rt, alloc, desk, first, b"1", b"b", false);
    let two = tag(rt, alloc, desk, second, b"2", b"abc", atomic);
    assert!(rt; are(&one, 1, 0, 0));
    assert!(rt; are(&two, number, 11, number));
    assert!(rt; tells(&two, blob_of(rt, alloc, b"1").name(), atomic));
}

// How many objects a repository has, how many refs there are, and how many entries.
fn counts(rt: &impl Abort, hub: &Hub, repo: &RepoName) -> (usize, u64, usize) {
    let repo = hub.repo(repo).expect(rt, "the repository");
    (repo.count(), hub.ref_count(), hub.log().len())
}

fn check_left(rt: &impl Abort, alloc: Global, atomic: bool, number: u8, due: (usize, u64, usize)) {
    let user = user_name(rt, alloc, "bob");
    let repo = repo_name(rt, alloc, "testing");
    let mut desk = new_desk(rt, alloc);
    check_overtaken(rt, alloc, &mut desk, &user, &repo, atomic, number);
    assert_eq!(rt; counts(rt, &desk.into_hub(), &repo), due);
}

#[test]
fn a_push_is_settled_by_what_is_there_then(rt: HostRuntime) {
    check_left(&rt, rt.alloc(), false, 1, (2, 3, 4));
    check_left(&rt, rt.alloc(), true, 13, (1, 1, 4));
}
