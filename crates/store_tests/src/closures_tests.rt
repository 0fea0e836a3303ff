// What a fetch sends where closures of some objects are kept: the same, whichever these are.
ghost use Rattle.std.specs.Prelude.{IfOk};
ghost use Rattle.ancestry.specs.Closures.{AreClosures};

use crate::ancestry_tests::{absent, put, put_commit, put_tag, put_tree, repo_of};
use ancestry::{Closures, Known, NoMemory, Walks, closures_of, reach};
use git_object::{Kind, ObjectId, ObjectList};
use ref_store::{Lens, Repo};
use std::alloc::Global;
use std::process::Abort;

// The objects by their places: a file that is changed and put back; a topic, which is merged; a file of the
// older history that a merge has again, and a folder that a later commit has again; a tag of the oldest
// commit, and one of a folder; a commit without its folder.
const FIRST: usize = 2;

const SECOND: usize = 5;

const REVERT: usize = 6;

const TOPIC: usize = 9;

const MERGE: usize = 11;

const OLD_TAG: usize = 12;

const FOLDER_TAG: usize = 13;

const BROKEN: usize = 14;

const LATER: usize = 15;

const NOWHERE: usize = 16;

// What is wanted, what is there, and the places of what is sent.
type SentRow = (&'static [usize], &'static [usize], &'static [u32]);

static SENT: [SentRow; 20] = [
    (&[REVERT], &[SECOND], &[6]),
    (&[REVERT], &[FIRST], &[3, 4, 5, 6]),
    (&[MERGE], &[REVERT], &[7, 8, 9, 10, 11]),
    (&[MERGE], &[TOPIC], &[3, 4, 5, 6, 10, 11]),
    (&[MERGE], &[TOPIC, REVERT], &[10, 11]),
    (&[LATER], &[MERGE], &[15]),
    (&[LATER], &[TOPIC], &[3, 4, 5, 6, 10, 11, 15]),
    (&[LATER], &[SECOND], &[6, 7, 8, 9, 10, 11, 15]),
    (&[OLD_TAG], &[LATER], &[12]),
    (&[LATER], &[OLD_TAG], &[3, 4, 5, 6, 7, 8, 9, 10, 11, 15]),
    (&[FOLDER_TAG], &[FIRST], &[3, 4, 13]),
    (&[FOLDER_TAG], &[SECOND], &[13]),
    (&[REVERT], &[FOLDER_TAG], &[0, 1, 2, 5, 6]),
    (&[BROKEN], &[SECOND], &[14]),
    (&[SECOND], &[BROKEN], &[]),
    (&[LATER], &[BROKEN, NOWHERE], &[6, 7, 8, 9, 10, 11, 15]),
    (
        &[MERGE, BROKEN],
        &[],
        &[0, 1, 2, 3, 4, 5, 6, 7, 8, 9, 10, 11, 14],
    ),
    (&[LATER], &[], &[0, 1, 2, 3, 4, 5, 6, 7, 8, 9, 10, 11, 15]),
    (&[TOPIC], &[LATER], &[]),
    (&[NOWHERE, SECOND], &[NOWHERE], &[0, 1, 2, 3, 4, 5]),
];

// Of which objects the closures are kept.
static KEPT: [&'static [usize]; 9] = [
    &[],
    &[FIRST],
    &[SECOND],
    &[REVERT, TOPIC],
    &[MERGE],
    &[LATER],
    &[OLD_TAG, FOLDER_TAG],
    &[BROKEN, NOWHERE],
    &[FIRST, FIRST, SECOND, REVERT, TOPIC, MERGE],
];

fn put_beginning(rt: &impl Abort, alloc: Global, stored: &mut ObjectList) -> [ObjectId; 7] {
    let a = put(rt, alloc, stored, Kind::Blob, b"a");
    let first_tree = put_tree(rt, alloc, stored, &[("100644 a", a)]);
    let first = put_commit(rt, alloc, stored, first_tree, &[]);
    let b = put(rt, alloc, stored, Kind::Blob, b"b");
    let second_tree = put_tree(rt, alloc, stored, &[("100644 a", b)]);
    let second = put_commit(rt, alloc, stored, second_tree, &[first]);
    let revert = put_commit(rt, alloc, stored, first_tree, &[second]);
    [a, first_tree, first, b, second_tree, second, revert]
}

fn put_merge(
    rt: &impl Abort,
    alloc: Global,
    stored: &mut ObjectList,
    old: &[ObjectId; 7],
) -> [ObjectId; 5] {
    let [a, _, first, b, _, _, revert] = *old;
    let d = put(rt, alloc, stored, Kind::Blob, b"d");
    let entries = [("100644 a", a), ("100644 d", d)];
    let topic_tree = put_tree(rt, alloc, stored, &entries);
    let topic = put_commit(rt, alloc, stored, topic_tree, &[first]);
    let entries = [("100644 a", a), ("100644 d", d), ("100644 e", b)];
    let merge_tree = put_tree(rt, alloc, stored, &entries);
    let merge = put_commit(rt, alloc, stored, merge_tree, &[revert, topic]);
    [d, topic_tree, topic, merge_tree, merge]
}

// The ids of what is stored, by their places, and one without an object.
fn put_all(rt: &impl Abort, alloc: Global, stored: &mut ObjectList) -> [ObjectId; 17] {
    let old = put_beginning(rt, alloc, stored);
    let [a, first_tree, first, b, second_tree, second, revert] = old;
    let [d, topic_tree, topic, merge_tree, merge] = put_merge(rt, alloc, stored, &old);
    let old_tag = put_tag(rt, alloc, stored, first, Kind::Commit);
    let folder_tag = put_tag(rt, alloc, stored, second_tree, Kind::Tree);
    let broken = put_commit(rt, alloc, stored, absent(7), &[second]);
    let later = put_commit(rt, alloc, stored, second_tree, &[merge]);
    [
        a,
        first_tree,
        first,
        b,
        second_tree,
        second,
        revert,
        d,
        topic_tree,
        topic,
        merge_tree,
        merge,
        old_tag,
        folder_tag,
        broken,
        later,
        absent(9),
    ]
}

fn ids_at(rt: &impl Abort, alloc: Global, ids: &[ObjectId], places: &[usize]) -> Vec<ObjectId> {
    let mut out = Vec::new(alloc);
    for place in places {
        let id = *ids.get(*place).expect(rt, "an object's place");
        out.push(id).expect(rt, "memory for ids");
    }
    out
}

// Closures that were made later beside those that were made earlier.
fn both_of(
    alloc: Global,
    repo: &Repo,
    earlier: &Closures,
    later: &Closures,
) -> Result<Closures, NoMemory>
    requires earlier { AreClosures repo.now.objects earlier.now }
    requires later { AreClosures repo.now.objects later.now }
    ensures { IfOk result (AreClosures repo.now.objects) }
{
    earlier.with(alloc, later, repo.count())
}

fn kept_of(rt: &impl Abort, alloc: Global, repo: &Repo, ids: &[ObjectId]) -> Closures
    ensures { AreClosures repo.now.objects result }
{
    let none = Closures::none(alloc);
    let (some, rest) = ids.split_at(ids.len() / 2);
    let earlier = closures_of(alloc, repo, &none, some).expect(rt, "memory for closures");
    let later = closures_of(alloc, repo, &earlier, rest).expect(rt, "memory for closures");
    both_of(alloc, repo, &earlier, &later).expect(rt, "memory for closures")
}

// What a walker finds out of all that is stored.
fn known_of(rt: &impl Abort, alloc: Global, repo: &Repo, ids: &[ObjectId]) -> Known {
    let lens = Lens::new(alloc, repo, &ObjectList::new(alloc)).expect(rt, "memory for a lens");
    let mut walks = Walks::new(alloc, &lens);
    for id in ids {
        let _told = walks.whole(*id, None);
    }
    let findings = walks.into_findings().expect(rt, "memory for findings");
    let nothing = Known::nothing(alloc);
    nothing
        .with(alloc, &findings)
        .expect(rt, "memory for what is known")
}

fn check_sent(
    rt: &impl Abort,
    alloc: Global,
    repo: &Repo,
    kept: &Closures,
    known: &Known,
    ids: &[ObjectId],
    row: &SentRow,
)
    requires { AreClosures repo.now.objects kept.now }
{
    let wants = ids_at(rt, alloc, ids, row.0);
    let haves = ids_at(rt, alloc, ids, row.1);
    let sent = reach(alloc, repo, repo.count(), kept, known, &wants, &haves);
    let sent = sent.expect(rt, "memory for what is sent");
    assert!(rt; sent.as_slice() == row.2, "{:?} for {:?}", row.0, row.1);
}

#[test]
fn kept_closures_change_nothing(rt: HostRuntime) {
    let alloc = rt.alloc();
    let mut stored = ObjectList::new(alloc);
    let ids = put_all(&rt, alloc, &mut stored);
    let repo = repo_of(&rt, alloc, &stored);
    let nothing = Known::nothing(alloc);
    let known = known_of(&rt, alloc, &repo, &ids);
    for places in &KEPT {
        let tips = ids_at(&rt, alloc, &ids, places);
        let kept = kept_of(&rt, alloc, &repo, &tips);
        for row in &SENT {
            check_sent(&rt, alloc, &repo, &kept, &known, &ids, row);
            check_sent(&rt, alloc, &repo, &kept, &nothing, &ids, row);
        }
    }
}
