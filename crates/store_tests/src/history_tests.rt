// What commits bring, and what a fetch sends.
ghost use Rattle.std.specs.Prelude.{◌≡◌};
ghost use Rattle.ancestry.specs.Known.{AreFound, AreKnown};

use crate::ancestry_tests::{absent, lens_of, put, put_commit, put_tag, put_tree, repo_of};
use ancestry::{
    Advance, Closures, Findings, Known, Walks, advance_between, brings_merge, is_ancestor, peel,
    reach,
};
use git_object::{Kind, ObjectId, ObjectList};
use ref_store::{Lens, Repo};
use std::alloc::Global;
use std::process::Abort;

// An old and a new object, whether the one is an ancestor of the other, and whether the other brings a merge.
type AdvanceRow = (usize, usize, bool, bool);

fn id_at(rt: &impl Abort, ids: &[ObjectId], number: usize) -> ObjectId {
    *ids.get(number).expect(rt, "an object's number")
}

// Two roots; a diamond over the first, crossed; an octopus. The older half stands in the repository, and the
// others in the pack. Objects are numbered: the first tree, the commits, and an id without an object.
const ONE: usize = 0;

const ROOT: usize = 1;

const OTHER_ROOT: usize = 2;

const LEFT: usize = 3;

const RIGHT: usize = 4;

const DIAMOND: usize = 5;

const CROSSED: usize = 6;

const BEHIND: usize = 7;

const OCTOPUS: usize = 8;

const ABSENT: usize = 9;

static ADVANCES: [AdvanceRow; 15] = [
    (ROOT, LEFT, true, false),
    (LEFT, LEFT, true, false),
    (RIGHT, LEFT, false, false),
    (BEHIND, LEFT, false, false),
    (LEFT, DIAMOND, true, true),
    (ROOT, BEHIND, true, true),
    (DIAMOND, BEHIND, true, false),
    (DIAMOND, DIAMOND, true, false),
    (CROSSED, DIAMOND, false, true),
    (OTHER_ROOT, DIAMOND, false, true),
    (DIAMOND, OCTOPUS, true, true),
    (OCTOPUS, DIAMOND, false, false),
    (ABSENT, LEFT, false, false),
    (LEFT, ABSENT, false, false),
    (ONE, LEFT, false, false),
];

fn put_sides(
    rt: &impl Abort,
    alloc: Global,
    stored: &mut ObjectList,
    one: ObjectId,
    two: ObjectId,
) -> [ObjectId; 4] {
    let root = put_commit(rt, alloc, stored, one, &[]);
    let other_root = put_commit(rt, alloc, stored, two, &[]);
    let left = put_commit(rt, alloc, stored, one, &[root]);
    let right = put_commit(rt, alloc, stored, two, &[root]);
    [root, other_root, left, right]
}

fn put_merges(
    rt: &impl Abort,
    alloc: Global,
    pack: &mut ObjectList,
    one: ObjectId,
    two: ObjectId,
    sides: [ObjectId; 4],
) -> [ObjectId; 4] {
    let [_, other_root, left, right] = sides;
    let diamond = put_commit(rt, alloc, pack, one, &[left, right]);
    let crossed = put_commit(rt, alloc, pack, two, &[left, right]);
    let behind = put_commit(rt, alloc, pack, one, &[diamond]);
    let octopus = put_commit(rt, alloc, pack, one, &[diamond, other_root, right]);
    [diamond, crossed, behind, octopus]
}

// The objects by their numbers.
fn put_history(
    rt: &impl Abort,
    alloc: Global,
    stored: &mut ObjectList,
    pack: &mut ObjectList,
) -> [ObjectId; 10] {
    let blob = put(rt, alloc, stored, Kind::Blob, b"x");
    let one = put_tree(rt, alloc, stored, &[]);
    let two = put_tree(rt, alloc, stored, &[("100644 a", blob)]);
    let sides = put_sides(rt, alloc, stored, one, two);
    let [root, other_root, left, right] = sides;
    let [diamond, crossed, behind, octopus] = put_merges(rt, alloc, pack, one, two, sides);
    [
        one,
        root,
        other_root,
        left,
        right,
        diamond,
        crossed,
        behind,
        octopus,
        absent(7),
    ]
}

// Whether just this is told of an old and a new object, at once and by its halves.
fn ask_all(walks: &mut Walks<'_>, ids: &[ObjectId])
    ensures { walks.new ≡ walks.old }
{
    for id in ids {
        let _told = walks.whole(*id, None);
    }
}

// What one walker finds out of all of these.
fn found_of(rt: &impl Abort, alloc: Global, lens: &Lens, ids: &[ObjectId]) -> Findings
    ensures { AreFound lens.now result }
{
    let mut walks = Walks::new(alloc, lens);
    ask_all(&mut walks, ids);
    walks.into_findings().expect(rt, "memory for findings")
}

fn known_of(rt: &impl Abort, alloc: Global, lens: &Lens, ids: &[ObjectId]) -> Known
    ensures { AreKnown lens.now result }
{
    let findings = found_of(rt, alloc, lens, ids);
    let nothing = Known::nothing(alloc);
    nothing
        .with(alloc, &findings)
        .expect(rt, "memory for what is known")
}

fn check_advance(
    rt: &impl Abort,
    alloc: Global,
    lens: &Lens,
    known: &Known,
    ids: &[ObjectId],
    row: &AdvanceRow,
)
    requires { AreKnown lens.now known.now }
{
    let (old, new) = (id_at(rt, ids, row.0), id_at(rt, ids, row.1));
    let due = Advance {
        forward: row.2,
        merge: row.3,
    };
    let told = advance_between(alloc, lens, known, old, new);
    assert!(rt; told == Ok(due), "from {} to {}", row.0, row.1);
    assert!(rt; is_ancestor(alloc, lens, known, old, new) == Ok(row.2));
    assert!(rt; brings_merge(alloc, lens, known, old, new) == Ok(row.3));
}

#[test]
fn what_a_commit_brings(rt: HostRuntime) {
    let alloc = rt.alloc();
    let mut stored = ObjectList::new(alloc);
    let mut pack = ObjectList::new(alloc);
    let ids = put_history(&rt, alloc, &mut stored, &mut pack);
    let lens = lens_of(&rt, alloc, &stored, &pack);
    let nothing = Known::nothing(alloc);
    let known = known_of(&rt, alloc, &lens, &ids);
    for row in &ADVANCES {
        check_advance(&rt, alloc, &lens, &nothing, &ids, row);
        check_advance(&rt, alloc, &lens, &known, &ids, row);
    }
}

// The numbers of what is stored for a fetch, which are their places, and of an id without an object.
const OLD_TREE: usize = 1;

const OLD: usize = 2;

const FILE: usize = 3;

const FILES: usize = 4;

const NEW: usize = 5;

const TAGGED: usize = 6;

const LACKS_TREE: usize = 7;

const NOWHERE: usize = 8;

const ALL: usize = usize::MAX;

// How many objects there are, what is wanted, what is there, and the places of what is sent.
type SentRow = (usize, &'static [usize], &'static [usize], &'static [u32]);

static SENT: [SentRow; 15] = [
    (ALL, &[NEW], &[], &[0, 1, 2, 3, 4, 5]),
    (ALL, &[NEW], &[OLD], &[3, 4, 5]),
    (ALL, &[TAGGED], &[OLD], &[3, 4, 5, 6]),
    (ALL, &[TAGGED], &[NEW], &[6]),
    (ALL, &[OLD], &[TAGGED], &[]),
    (ALL, &[OLD, NEW], &[NOWHERE], &[0, 1, 2, 3, 4, 5]),
    (ALL, &[LACKS_TREE], &[NEW], &[7]),
    (ALL, &[NEW], &[LACKS_TREE], &[]),
    (ALL, &[FILES], &[OLD_TREE], &[3, 4]),
    (ALL, &[FILE], &[], &[3]),
    (ALL, &[NOWHERE], &[], &[]),
    (ALL, &[], &[OLD], &[]),
    (3, &[OLD], &[], &[0, 1, 2]),
    (2, &[OLD], &[], &[]),
    (5, &[FILES], &[NEW], &[0, 3, 4]),
];

fn ids_at(rt: &impl Abort, alloc: Global, ids: &[ObjectId], numbers: &[usize]) -> Vec<ObjectId> {
    let mut out = Vec::new(alloc);
    for number in numbers {
        out.push(id_at(rt, ids, *number))
            .expect(rt, "memory for ids");
    }
    out
}

fn check_sent(rt: &impl Abort, alloc: Global, repo: &Repo, ids: &[ObjectId], row: &SentRow) {
    let wants = ids_at(rt, alloc, ids, row.1);
    let haves = ids_at(rt, alloc, ids, row.2);
    let none = Closures::none(alloc);
    let nothing = Known::nothing(alloc);
    let sent = reach(alloc, repo, row.0, &none, &nothing, &wants, &haves);
    let sent = sent.expect(rt, "memory for what is sent");
    assert!(rt; sent.as_slice() == row.3, "{:?} for {:?}", row.1, row.2);
}

fn put_old(rt: &impl Abort, alloc: Global, stored: &mut ObjectList) -> [ObjectId; 3] {
    let old_file = put(rt, alloc, stored, Kind::Blob, b"x");
    let old_tree = put_tree(rt, alloc, stored, &[("100644 a", old_file)]);
    let old = put_commit(rt, alloc, stored, old_tree, &[]);
    [old_file, old_tree, old]
}

fn put_new(
    rt: &impl Abort,
    alloc: Global,
    stored: &mut ObjectList,
    old_file: ObjectId,
    old: ObjectId,
) -> [ObjectId; 5] {
    let file = put(rt, alloc, stored, Kind::Blob, b"y");
    let files = [("100644 a", old_file), ("100644 b", file)];
    let files = put_tree(rt, alloc, stored, &files);
    let new = put_commit(rt, alloc, stored, files, &[old]);
    let tagged = put_tag(rt, alloc, stored, new, Kind::Commit);
    let lacks_tree = put_commit(rt, alloc, stored, absent(7), &[new]);
    [file, files, new, tagged, lacks_tree]
}

// The ids of what is stored, by their numbers.
fn put_stored(rt: &impl Abort, alloc: Global, stored: &mut ObjectList) -> [ObjectId; 9] {
    let [old_file, old_tree, old] = put_old(rt, alloc, stored);
    let [file, files, new, tagged, lacks_tree] = put_new(rt, alloc, stored, old_file, old);
    [
        old_file,
        old_tree,
        old,
        file,
        files,
        new,
        tagged,
        lacks_tree,
        absent(9),
    ]
}

fn check_peel(rt: &impl Abort, alloc: Global, repo: &Repo, ids: &[ObjectId]) {
    let mut pack = ObjectList::new(alloc);
    let tag_of_tag = put_tag(rt, alloc, &mut pack, id_at(rt, ids, TAGGED), Kind::Tag);
    let lens = Lens::new(alloc, repo, &pack).expect(rt, "memory for a lens");
    assert!(rt; peel(&lens, tag_of_tag) == id_at(rt, ids, NEW));
    assert!(rt; peel(&lens, id_at(rt, ids, FILES)) == id_at(rt, ids, FILES));
    assert!(rt; peel(&lens, absent(9)) == absent(9));
}

#[test]
fn what_a_fetch_sends(rt: HostRuntime) {
    let mut stored = ObjectList::new(rt.alloc());
    let ids = put_stored(&rt, rt.alloc(), &mut stored);
    let repo = repo_of(&rt, rt.alloc(), &stored);
    for row in &SENT {
        check_sent(&rt, rt.alloc(), &repo, &ids, row);
    }
    check_peel(&rt, rt.alloc(), &repo, &ids);
}
