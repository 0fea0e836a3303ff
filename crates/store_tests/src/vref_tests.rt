use ancestry::Known;
use base_types::Text;
use git_object::{Kind, MAX_BODY, Object, ObjectId, ObjectList};
use ref_store::{Command, Lens, Repo};
use std::alloc::Global;
use std::process::Abort;
use vref::{Change, Facts, facts_of, facts_of_all};

pub(crate) fn put(
    rt: &impl Abort,
    alloc: Global,
    objects: &mut ObjectList,
    kind: Kind,
    body: &[u8],
) -> ObjectId {
    assert!(rt; body.len() <= MAX_BODY);
    let object = Object::parse(alloc, kind, body).expect(rt, "a body of its form");
    let name = object.name();
    objects.push(object).expect(rt, "memory for an object");
    name
}

pub(crate) fn add(rt: &impl Abort, body: &mut Vec<u8>, bytes: &[u8]) {
    body.extend_from_slice(bytes)
        .expect(rt, "memory for a body");
}

fn add_line(rt: &impl Abort, body: &mut Vec<u8>, word: &[u8], id: ObjectId) {
    add(rt, body, word);
    add(rt, body, &id.hex());
    add(rt, body, b"\n");
}

pub(crate) fn put_commit(
    rt: &impl Abort,
    alloc: Global,
    objects: &mut ObjectList,
    tree: ObjectId,
    parents: &[ObjectId],
) -> ObjectId {
    let mut body = Vec::new(alloc);
    add_line(rt, &mut body, b"tree ", tree);
    for parent in parents {
        add_line(rt, &mut body, b"parent ", *parent);
    }
    put(rt, alloc, objects, Kind::Commit, &body)
}

// The objects of a pack alone.
pub(crate) fn lens_of(rt: &impl Abort, alloc: Global, pack: &ObjectList) -> Lens {
    let repo = Repo::empty(alloc).expect(rt, "memory for a repository");
    Lens::new(alloc, &repo, pack).expect(rt, "memory for a lens")
}

fn facts(change: Change, tag: bool, commits: bool, forward: bool, merge: bool) -> Facts {
    Facts {
        change,
        tag,
        commits,
        forward,
        merge,
    }
}

// A ref with its old and new value, and the facts.
type Row = (&'static str, ObjectId, ObjectId, Facts);

fn is_told(alloc: Global, lens: &Lens, row: Row) -> bool {
    let (name, old, new, facts) = row;
    let known = Known::nothing(alloc);
    facts_of(alloc, lens, &known, name.as_bytes(), old, new) == Ok(facts)
}

fn check_each(rt: &impl Abort, alloc: Global, lens: &Lens, rows: &[Row]) {
    for i in 0..rows.len() {
        assert!(rt; is_told(alloc, lens, rows[i]), "row {i}");
    }
}

fn command_of(rt: &impl Abort, alloc: Global, row: Row) -> Command {
    let (name, old, new, _) = row;
    let name = Text::of(alloc, name.as_bytes()).expect(rt, "memory for a name");
    Command { old, new, name }
}

// The rows, so many times over, as changes of one push.
fn changes_of(rt: &impl Abort, alloc: Global, rows: &[Row], times: usize) -> Vec<Command> {
    let mut changes = Vec::new(alloc);
    for _ in 0..times {
        for row in rows {
            let pushed = changes.push(command_of(rt, alloc, *row));
            assert!(rt; pushed.is_ok());
        }
    }
    changes
}

// Whether the facts at a place are those of its row, where the rows come many times over.
fn is_fact_of_row(told: &[Facts], rows: &[Row], place: usize) -> bool {
    if rows.is_empty() {
        return false;
    }
    match (told.get(place), rows.get(place % rows.len())) {
        (Some(facts), Some(row)) => *facts == row.3,
        _ => false,
    }
}

// The facts of all changes at once, so many times the rows.
fn check_all(rt: &impl Abort, alloc: Global, lens: &Lens, rows: &[Row], times: usize) {
    let changes = changes_of(rt, alloc, rows, times);
    let known = Known::nothing(alloc);
    let told = facts_of_all(alloc, lens, &known, &changes).expect(rt, "memory for facts");
    assert_eq!(rt; told.len(), changes.len());
    for place in 0..told.len() {
        assert!(rt;
            is_fact_of_row(&told, rows, place),
            "place {place} of {times} times"
        );
    }
}

// The facts one by one; and of a few changes, which each walk by themselves, of one portion that goes by one
// order, and of several.
fn check_facts(rt: &impl Abort, alloc: Global, lens: &Lens, rows: &[Row]) {
    check_each(rt, alloc, lens, rows);
    let few = rows.split_at(rows.len().min(5)).0;
    check_all(rt, alloc, lens, few, 1);
    check_all(rt, alloc, lens, rows, 1);
    check_all(rt, alloc, lens, rows, 20);
}

// A ref, numbers of its old and its new object, and the facts.
type NumberedRow = (&'static str, usize, usize, Change, bool, bool, bool, bool);

const HEAD: &str = "refs/heads/a";

// Objects are numbered: 0 is zero, 1 has no object, 2 is a blob, 3 a tree, 4 a root, 5 a root at the side,
// whose tree is the blob, 6 comes behind 4, and 7 merges 6 and 5. The facts are whether it is a tag, between
// commits, forward, and brings a merge.
static FACTS: [NumberedRow; 15] = [
    (HEAD, 0, 6, Change::Create, false, true, false, false),
    (HEAD, 6, 0, Change::Delete, false, true, false, false),
    (HEAD, 4, 6, Change::Update, false, true, true, false),
    (HEAD, 6, 4, Change::Update, false, true, false, false),
    (HEAD, 6, 7, Change::Update, false, true, true, true),
    (HEAD, 5, 7, Change::Update, false, true, true, true),
    (HEAD, 7, 6, Change::Update, false, true, false, false),
    (HEAD, 7, 7, Change::Update, false, true, true, false),
    (HEAD, 6, 2, Change::Update, false, false, false, false),
    (HEAD, 0, 2, Change::Create, false, false, false, false),
    (HEAD, 1, 6, Change::Update, false, false, false, false),
    (HEAD, 0, 0, Change::Create, false, true, false, false),
    ("refs/tags/v", 4, 6, Change::Update, true, true, true, false),
    (
        "refs/tags/v",
        0,
        7,
        Change::Create,
        true,
        true,
        false,
        false,
    ),
    ("refs/tagsv", 4, 6, Change::Update, false, true, true, false),
];

// The ids of the objects, by their numbers.
fn put_numbered(rt: &impl Abort, alloc: Global, pack: &mut ObjectList) -> [ObjectId; 8] {
    let blob = put(rt, alloc, pack, Kind::Blob, b"x");
    let tree = put(rt, alloc, pack, Kind::Tree, b"");
    let root = put_commit(rt, alloc, pack, tree, &[]);
    let side = put_commit(rt, alloc, pack, blob, &[]);
    let next = put_commit(rt, alloc, pack, tree, &[root]);
    let merge = put_commit(rt, alloc, pack, tree, &[next, side]);
    let absent = ObjectId { bytes: [7; 20] };
    [
        ObjectId::zero(),
        absent,
        blob,
        tree,
        root,
        side,
        next,
        merge,
    ]
}

fn row_of(rt: &impl Abort, ids: &[ObjectId], row: &NumberedRow) -> Row {
    let (name, old, new, change, tag, commits, forward, merge) = *row;
    let old = *ids.get(old).expect(rt, "an object's number");
    let new = *ids.get(new).expect(rt, "an object's number");
    (name, old, new, facts(change, tag, commits, forward, merge))
}

fn rows_of(rt: &impl Abort, alloc: Global, ids: &[ObjectId]) -> Vec<Row> {
    let mut rows = Vec::new(alloc);
    for row in &FACTS {
        let pushed = rows.push(row_of(rt, ids, row));
        assert!(rt; pushed.is_ok());
    }
    rows
}

#[test]
fn facts_of_changes(rt: HostRuntime) {
    let mut pack = ObjectList::new(rt.alloc());
    let ids = put_numbered(&rt, rt.alloc(), &mut pack);
    let rows = rows_of(&rt, rt.alloc(), &ids);
    let lens = lens_of(&rt, rt.alloc(), &pack);
    check_facts(&rt, rt.alloc(), &lens, &rows);
}

// The commit at a place of a chain: each eighth merges the one before with one at its side.
fn put_next(
    rt: &impl Abort,
    alloc: Global,
    objects: &mut ObjectList,
    tree: ObjectId,
    last: ObjectId,
    place: usize,
) -> ObjectId {
    let side = put_commit(rt, alloc, objects, last, &[]);
    match place % 8 {
        7 => put_commit(rt, alloc, objects, tree, &[last, side]),
        _ => put_commit(rt, alloc, objects, tree, &[last]),
    }
}

// A chain of commits, of which each eighth is a merge with a commit at its side.
fn put_chain(
    rt: &impl Abort,
    alloc: Global,
    objects: &mut ObjectList,
    long: usize,
) -> Vec<ObjectId> {
    let tree = put(rt, alloc, objects, Kind::Tree, b"");
    let mut last = put_commit(rt, alloc, objects, tree, &[]);
    let mut chain = Vec::new(alloc);
    chain.push(last).expect(rt, "memory for a chain");
    for place in 1..long {
        last = put_next(rt, alloc, objects, tree, last, place);
        chain.push(last).expect(rt, "memory for a chain");
    }
    chain
}

// Changes between commits of a chain here and there, with their facts: a merge is brought where one of the
// places 7, 15, .. lies behind the old place and not behind the new one.
fn changes_along(rt: &impl Abort, alloc: Global, chain: &[ObjectId]) -> Vec<Row> {
    let mut rows = Vec::new(alloc);
    assert!(rt; chain.len() <= 1000);
    for k in 0..chain.len() {
        let to = k * 37 % chain.len();
        let merge = (k + 1) / 8 < (to + 1) / 8;
        let row = facts(Change::Update, false, true, k <= to, merge);
        let pushed = rows.push(("refs/heads/a", chain[k], chain[to], row));
        assert!(rt; pushed.is_ok());
    }
    rows
}

#[test]
fn facts_along_a_chain(rt: HostRuntime) {
    let mut pack = ObjectList::new(rt.alloc());
    let chain = put_chain(&rt, rt.alloc(), &mut pack, 100);
    let rows = changes_along(&rt, rt.alloc(), &chain);
    let lens = lens_of(&rt, rt.alloc(), &pack);
    check_facts(&rt, rt.alloc(), &lens, &rows);
}
