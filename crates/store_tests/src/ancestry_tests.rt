ghost use Rattle.ancestry.specs.Known.{AreFound, AreKnown};

use ancestry::{Findings, Known, Verdict, Walks, Wholeness, whole};
use git_object::{Kind, MAX_BODY, Object, ObjectId, ObjectList};
use ref_store::{Added, Lens, Repo};
use std::alloc::Global;
use std::process::Abort;

fn object(rt: &impl Abort, alloc: Global, kind: Kind, body: &[u8]) -> Object {
    assert!(rt; body.len() <= MAX_BODY);
    Object::parse(alloc, kind, body).expect(rt, "a body of its form")
}

// Puts an object into a list, and gives its name.
pub(crate) fn put(
    rt: &impl Abort,
    alloc: Global,
    objects: &mut ObjectList,
    kind: Kind,
    body: &[u8],
) -> ObjectId {
    let object = object(rt, alloc, kind, body);
    let name = object.name();
    objects.push(object).expect(rt, "memory for an object");
    name
}

fn add(rt: &impl Abort, body: &mut Vec<u8>, bytes: &[u8]) {
    body.extend_from_slice(bytes)
        .expect(rt, "memory for a body");
}

// A tree of entries, each a mode and a name beside an id.
fn tree_body(rt: &impl Abort, alloc: Global, entries: &[(&str, ObjectId)]) -> Vec<u8> {
    let mut body = Vec::new(alloc);
    for (entry, id) in entries {
        add(rt, &mut body, entry.as_bytes());
        add(rt, &mut body, b"\0");
        add(rt, &mut body, &id.bytes);
    }
    body
}

pub(crate) fn put_tree(
    rt: &impl Abort,
    alloc: Global,
    objects: &mut ObjectList,
    entries: &[(&str, ObjectId)],
) -> ObjectId {
    let body = tree_body(rt, alloc, entries);
    put(rt, alloc, objects, Kind::Tree, &body)
}

fn add_line(rt: &impl Abort, body: &mut Vec<u8>, word: &[u8], value: &[u8]) {
    add(rt, body, word);
    add(rt, body, b" ");
    add(rt, body, value);
    add(rt, body, b"\n");
}

fn commit_body(rt: &impl Abort, alloc: Global, tree: ObjectId, parents: &[ObjectId]) -> Vec<u8> {
    let mut body = Vec::new(alloc);
    add_line(rt, &mut body, b"tree", &tree.hex());
    for parent in parents {
        add_line(rt, &mut body, b"parent", &parent.hex());
    }
    body
}

pub(crate) fn put_commit(
    rt: &impl Abort,
    alloc: Global,
    objects: &mut ObjectList,
    tree: ObjectId,
    parents: &[ObjectId],
) -> ObjectId {
    let body = commit_body(rt, alloc, tree, parents);
    put(rt, alloc, objects, Kind::Commit, &body)
}

pub(crate) fn put_tag(
    rt: &impl Abort,
    alloc: Global,
    objects: &mut ObjectList,
    target: ObjectId,
    kind: Kind,
) -> ObjectId {
    let mut body = Vec::new(alloc);
    add_line(rt, &mut body, b"object", &target.hex());
    add_line(rt, &mut body, b"type", kind.word());
    put(rt, alloc, objects, Kind::Tag, &body)
}

// A name that no object has.
pub(crate) fn absent(byte: u8) -> ObjectId {
    ObjectId { bytes: [byte; 20] }
}

pub(crate) fn repo_of(rt: &impl Abort, alloc: Global, objects: &ObjectList) -> Repo {
    let mut repo = Repo::empty(alloc).expect(rt, "memory for a repository");
    let added = repo.add_objects(objects);
    assert!(rt; added == Added::Added);
    repo
}

// What is stored, with what a pack brings.
pub(crate) fn lens_of(
    rt: &impl Abort,
    alloc: Global,
    stored: &ObjectList,
    pack: &ObjectList,
) -> Lens {
    let repo = repo_of(rt, alloc, stored);
    Lens::new(alloc, &repo, pack).expect(rt, "memory for a lens")
}

// The objects of a pack alone.
pub(crate) fn lens_alone(rt: &impl Abort, alloc: Global, pack: &ObjectList) -> Lens {
    let repo = Repo::empty(alloc).expect(rt, "memory for a repository");
    Lens::new(alloc, &repo, pack).expect(rt, "memory for a lens")
}

// An id, the kind that is wanted, and what is told.
type Row = (ObjectId, Option<Kind>, Wholeness);

fn is_told_once(walks: &mut Walks<'_>, row: Row) -> bool {
    let (id, kind, told) = row;
    walks.whole(id, kind) == told
}

fn is_told_alone(alloc: Global, lens: &Lens, row: Row) -> bool {
    let (id, kind, told) = row;
    whole(alloc, lens, id, kind) == told
}

// Whether what a row says is told: twice by one walker, and by a walker of its own.
fn is_told(alloc: Global, lens: &Lens, walks: &mut Walks<'_>, row: Row) -> bool {
    is_told_once(walks, row) && is_told_once(walks, row) && is_told_alone(alloc, lens, row)
}

// The first row of the table of which something else is told.
fn first_not_told(
    alloc: Global,
    lens: &Lens,
    walks: &mut Walks<'_>,
    rows: &[Row],
) -> Option<usize> {
    for i in 0..rows.len() {
        if !is_told(alloc, lens, walks, rows[i]) {
            return Some(i);
        }
    }
    None
}

fn told_otherwise(alloc: Global, lens: &Lens, rows: &[Row]) -> Option<usize> {
    let mut walks = Walks::new(alloc, lens);
    first_not_told(alloc, lens, &mut walks, rows)
}

fn check_told(rt: &impl Abort, alloc: Global, lens: &Lens, rows: &[Row]) {
    assert_eq!(rt; told_otherwise(alloc, lens, rows), None);
}

// What is found out from an id that is whole.
fn found_from(rt: &impl Abort, alloc: Global, lens: &Lens, known: ObjectId) -> Findings
    ensures { AreFound lens.now result }
{
    let mut earlier = Walks::new(alloc, lens);
    let told = earlier.whole(known, None);
    assert!(rt; told == Wholeness::Whole);
    earlier.into_findings().expect(rt, "memory for findings")
}

fn known_from(rt: &impl Abort, alloc: Global, lens: &Lens, known: ObjectId) -> Known
    ensures { AreKnown lens.now result }
{
    let findings = found_from(rt, alloc, lens, known);
    let nothing = Known::nothing(alloc);
    nothing
        .with(alloc, &findings)
        .expect(rt, "memory for what is known")
}

fn first_not_told_once(walks: &mut Walks<'_>, rows: &[Row]) -> Option<usize> {
    for i in 0..rows.len() {
        if !is_told_once(walks, rows[i]) {
            return Some(i);
        }
    }
    None
}

// The first row of the table of which a walker tells something else that knows what others found out.
fn told_otherwise_knowing(alloc: Global, lens: &Lens, known: Known, rows: &[Row]) -> Option<usize>
    requires { AreKnown lens.now known }
{
    let mut walks = Walks::knowing(alloc, lens, known);
    first_not_told_once(&mut walks, rows)
}

// The same of a walker that knows what another found out from an id.
fn check_told_knowing(rt: &impl Abort, alloc: Global, lens: &Lens, known: ObjectId, rows: &[Row]) {
    let known = known_from(rt, alloc, lens, known);
    assert_eq!(rt; told_otherwise_knowing(alloc, lens, known, rows), None);
}

fn add_name(rt: &impl Abort, names: &mut Vec<ObjectId>, name: ObjectId) {
    names.push(name).expect(rt, "memory for a name");
}

// Puts a commit with one parent, and adds its name.
fn put_next(
    rt: &impl Abort,
    alloc: Global,
    objects: &mut ObjectList,
    names: &mut Vec<ObjectId>,
    tree: ObjectId,
    parent: ObjectId,
) -> ObjectId {
    let name = put_commit(rt, alloc, objects, tree, &[parent]);
    add_name(rt, names, name);
    name
}

// The names of a first commit with a tree of its own and of commits onto it, each the parent of the next.
fn chain(
    rt: &impl Abort,
    alloc: Global,
    objects: &mut ObjectList,
    first_tree: ObjectId,
    tree: ObjectId,
) -> Vec<ObjectId> {
    let mut names = Vec::new(alloc);
    let mut last = put_commit(rt, alloc, objects, first_tree, &[]);
    add_name(rt, &mut names, last);
    for _ in 1..200 {
        last = put_next(rt, alloc, objects, &mut names, tree, last);
    }
    names
}

// Some of what is met stands in the repository, and some in the pack.
fn check_missing(rt: &impl Abort, alloc: Global, stored: &mut ObjectList, pack: &mut ObjectList) {
    let blob = put(rt, alloc, stored, Kind::Blob, b"x");
    let files = put_tree(rt, alloc, stored, &[("100664 a", blob)]);
    let submodule = put_tree(rt, alloc, stored, &[("160000 a", absent(7))]);
    let first = put_commit(rt, alloc, pack, files, &[]);
    let lacks_two = [("100644 a", absent(9)), ("100644 b", absent(5))];
    let lacks_two = put_tree(rt, alloc, pack, &lacks_two);
    let second = put_commit(rt, alloc, stored, lacks_two, &[first]);
    let rows = [
        (first, Some(Kind::Commit), Wholeness::Whole),
        (first, None, Wholeness::Whole),
        (lacks_two, Some(Kind::Tree), Wholeness::Missing(absent(5))),
        (second, Some(Kind::Commit), Wholeness::Missing(absent(5))),
        (second, Some(Kind::Tree), Wholeness::Missing(absent(5))),
        (submodule, Some(Kind::Tree), Wholeness::Whole),
        (absent(3), None, Wholeness::Missing(absent(3))),
    ];
    let lens = lens_of(rt, alloc, stored, pack);
    check_told(rt, alloc, &lens, &rows);
}

#[test]
fn what_is_missing(rt: HostRuntime) {
    let mut stored = ObjectList::new(rt.alloc());
    let mut pack = ObjectList::new(rt.alloc());
    check_missing(&rt, rt.alloc(), &mut stored, &mut pack);
}

fn check_wrong_kinds(
    rt: &impl Abort,
    alloc: Global,
    stored: &mut ObjectList,
    pack: &mut ObjectList,
) {
    let blob = put(rt, alloc, stored, Kind::Blob, b"x");
    let files = put_tree(rt, alloc, stored, &[("100644 a", blob)]);
    let blob_as_tree = put_tree(rt, alloc, stored, &[("40000 a", blob)]);
    let tree_as_blob = put_tree(rt, alloc, pack, &[("100644 a", files)]);
    // a tree of both under wrong kinds, one with a wrong kind and a missing name, and a tag of a wrong kind
    let both = [("100644 a", files), ("40000 b", blob)];
    let both = put_tree(rt, alloc, stored, &both);
    let lacks_one = [("40000 a", blob), ("100644 b", absent(7))];
    let lacks_one = put_tree(rt, alloc, pack, &lacks_one);
    let tag_of_tree = put_tag(rt, alloc, pack, files, Kind::Commit);
    let least = if blob < files { blob } else { files };
    let rows = [
        (files, Some(Kind::Commit), Wholeness::WrongKind(files)),
        (blob_as_tree, None, Wholeness::WrongKind(blob)),
        (tree_as_blob, None, Wholeness::WrongKind(files)),
        (both, None, Wholeness::WrongKind(least)),
        (lacks_one, None, Wholeness::Missing(absent(7))),
        (tag_of_tree, Some(Kind::Tag), Wholeness::WrongKind(files)),
    ];
    let lens = lens_of(rt, alloc, stored, pack);
    check_told(rt, alloc, &lens, &rows);
}

#[test]
fn what_is_of_a_wrong_kind(rt: HostRuntime) {
    let mut stored = ObjectList::new(rt.alloc());
    let mut pack = ObjectList::new(rt.alloc());
    check_wrong_kinds(&rt, rt.alloc(), &mut stored, &mut pack);
}

fn check_failed_walk(rt: &impl Abort, alloc: Global, pack: &mut ObjectList) {
    let blob = put(rt, alloc, pack, Kind::Blob, b"x");
    let wrong = put_tree(rt, alloc, pack, &[("40000 a", blob)]);
    let lacks = put_tree(rt, alloc, pack, &[("100644 a", absent(5))]);
    let inner = [("40000 a", wrong), ("40000 b", lacks)];
    let inner = put_tree(rt, alloc, pack, &inner);
    let outer = [("40000 a", inner), ("100644 b", absent(3))];
    let outer = put_tree(rt, alloc, pack, &outer);
    let rows = [
        (outer, None, Wholeness::Missing(absent(3))),
        (inner, None, Wholeness::Missing(absent(5))),
        (wrong, None, Wholeness::WrongKind(blob)),
        (blob, Some(Kind::Blob), Wholeness::Whole),
    ];
    let lens = lens_alone(rt, alloc, pack);
    check_told(rt, alloc, &lens, &rows);
}

#[test]
fn what_lies_behind_a_failed_walk(rt: HostRuntime) {
    let mut pack = ObjectList::new(rt.alloc());
    check_failed_walk(&rt, rt.alloc(), &mut pack);
}

// The last of a thousand tags, of which the first is one of a blob, and each other one of that before.
fn put_tags(rt: &impl Abort, alloc: Global, pack: &mut ObjectList) -> ObjectId {
    let mut target = put(rt, alloc, pack, Kind::Blob, b"");
    let mut kind = Kind::Blob;
    for _ in 0..1000 {
        target = put_tag(rt, alloc, pack, target, kind);
        kind = Kind::Tag;
    }
    target
}

#[test]
fn tags_of_tags_a_thousand_deep(rt: HostRuntime) {
    let mut pack = ObjectList::new(rt.alloc());
    let last = put_tags(&rt, rt.alloc(), &mut pack);
    let rows = [
        (last, Some(Kind::Tag), Wholeness::Whole),
        (last, Some(Kind::Commit), Wholeness::WrongKind(last)),
    ];
    let lens = lens_alone(&rt, rt.alloc(), &pack);
    check_told(&rt, rt.alloc(), &lens, &rows);
}

// Asks a walker for each commit of a chain that is whole.
fn ask_for_whole(rt: &impl Abort, walks: &mut Walks<'_>, names: &[ObjectId]) {
    for name in names {
        let row = (*name, Some(Kind::Commit), Wholeness::Whole);
        assert!(rt; is_told_once(walks, row));
    }
}

// Asks it for each commit of one that lacks a tree. The last is asked for first, and so fails for what lies
// behind all others.
fn ask_for_lacking(rt: &impl Abort, walks: &mut Walks<'_>, names: &[ObjectId]) {
    for name in names.iter().rev() {
        let row = (*name, Some(Kind::Commit), Wholeness::Missing(absent(7)));
        assert!(rt; is_told_once(walks, row));
    }
}

fn check_chains(
    rt: &impl Abort,
    alloc: Global,
    lens: &Lens,
    whole: &[ObjectId],
    lacks_tree: &[ObjectId],
    empty: ObjectId,
) {
    let mut walks = Walks::new(alloc, lens);
    ask_for_whole(rt, &mut walks, whole);
    ask_for_lacking(rt, &mut walks, lacks_tree);
    assert!(rt; walks.whole(empty, Some(Kind::Tree)) == Wholeness::Whole);
}

#[test]
fn each_commit_of_a_chain_is_asked_for(rt: HostRuntime) {
    let mut pack = ObjectList::new(rt.alloc());
    let empty = put_tree(&rt, rt.alloc(), &mut pack, &[]);
    let whole = chain(&rt, rt.alloc(), &mut pack, empty, empty);
    let lacks_tree = chain(&rt, rt.alloc(), &mut pack, absent(7), empty);
    let lens = lens_alone(&rt, rt.alloc(), &pack);
    check_chains(&rt, rt.alloc(), &lens, &whole, &lacks_tree, empty);
}

// The last two commits of a chain.
fn put_known_chain(
    rt: &impl Abort,
    alloc: Global,
    stored: &mut ObjectList,
    empty: ObjectId,
) -> [ObjectId; 2] {
    let mut last = put_commit(rt, alloc, stored, empty, &[]);
    let mut known = last;
    for _ in 1..200 {
        known = last;
        last = put_commit(rt, alloc, stored, empty, &[last]);
    }
    [known, last]
}

#[test]
fn a_push_onto_a_known_chain(rt: HostRuntime) {
    let alloc = rt.alloc();
    let mut stored = ObjectList::new(alloc);
    let mut pack = ObjectList::new(alloc);
    let empty = put_tree(&rt, alloc, &mut stored, &[]);
    let [known, last] = put_known_chain(&rt, alloc, &mut stored, empty);
    let onto = put_commit(&rt, alloc, &mut pack, empty, &[last]);
    let lacks_tree = put_commit(&rt, alloc, &mut pack, absent(7), &[last]);
    let commit_as_tree = put_commit(&rt, alloc, &mut pack, known, &[last]);
    let rows = [
        (onto, Some(Kind::Commit), Wholeness::Whole),
        (lacks_tree, None, Wholeness::Missing(absent(7))),
        (commit_as_tree, None, Wholeness::WrongKind(known)),
        (known, Some(Kind::Commit), Wholeness::Whole),
        (known, Some(Kind::Tag), Wholeness::WrongKind(known)),
        (onto, None, Wholeness::Whole),
    ];
    let lens = lens_of(&rt, alloc, &stored, &pack);
    check_told_knowing(&rt, alloc, &lens, known, &rows);
}

fn check_links(rt: &impl Abort, alloc: Global, stored: &mut ObjectList, pack: &mut ObjectList) {
    let blob = put(rt, alloc, stored, Kind::Blob, b"x");
    let known = put_tree(rt, alloc, stored, &[("100644 a", blob)]);
    let as_tree = put_tree(rt, alloc, pack, &[("40000 a", known)]);
    let as_blob = put_tree(rt, alloc, pack, &[("100644 a", known)]);
    let rows = [
        (as_blob, None, Wholeness::WrongKind(known)),
        (as_tree, None, Wholeness::Whole),
        (as_blob, None, Wholeness::WrongKind(known)),
        (known, Some(Kind::Blob), Wholeness::WrongKind(known)),
    ];
    let lens = lens_of(rt, alloc, stored, pack);
    check_told_knowing(rt, alloc, &lens, known, &rows);
}

#[test]
fn links_to_a_known_tree(rt: HostRuntime) {
    let mut stored = ObjectList::new(rt.alloc());
    let mut pack = ObjectList::new(rt.alloc());
    check_links(&rt, rt.alloc(), &mut stored, &mut pack);
}

// Whether what is told of all that an id leads to is settled, and is this.
fn is_settled(walks: &Walks<'_>, id: ObjectId, verdict: Verdict) -> bool {
    walks.settled(id) == Some(verdict)
}

fn check_settled(rt: &impl Abort, walks: &Walks<'_>, names: &[ObjectId], empty: ObjectId) {
    for name in names {
        assert!(rt; is_settled(walks, *name, Verdict::Missing(absent(7))));
    }
    assert!(rt; is_settled(walks, empty, Verdict::Whole));
}

fn check_settled_by(
    rt: &impl Abort,
    alloc: Global,
    lens: &Lens,
    last: ObjectId,
    names: &[ObjectId],
    empty: ObjectId,
) {
    let mut walks = Walks::new(alloc, lens);
    assert!(rt; walks.whole(last, None) == Wholeness::Missing(absent(5)));
    check_settled(rt, &walks, names, empty);
}

#[test]
fn all_that_a_settled_id_leads_to_is_settled(rt: HostRuntime) {
    let mut pack = ObjectList::new(rt.alloc());
    let empty = put_tree(&rt, rt.alloc(), &mut pack, &[]);
    let names = chain(&rt, rt.alloc(), &mut pack, absent(7), empty);
    let parent = names.last().copied().unwrap_or(empty);
    let last = put_commit(&rt, rt.alloc(), &mut pack, absent(5), &[parent]);
    let lens = lens_alone(&rt, rt.alloc(), &pack);
    check_settled_by(&rt, rt.alloc(), &lens, last, &names, empty);
}

// ---- what many walkers found out, put beside one another as pushes do that cross

fn known_beside(rt: &impl Abort, alloc: Global, lens: &Lens, known: &Known, id: ObjectId) -> Known
    requires { AreKnown lens.now known.now }
    ensures { AreKnown lens.now result }
{
    let findings = found_from(rt, alloc, lens, id);
    known
        .grown_with(alloc, &findings)
        .expect(rt, "memory for what is known")
}

fn all_beside(rt: &impl Abort, alloc: Global, lens: &Lens, ids: &[ObjectId]) -> Known
    ensures { AreKnown lens.now result }
{
    let mut known = Known::nothing(alloc);
    for id in ids {
        known = known_beside(rt, alloc, lens, &known, *id);
    }
    known
}

// Whether all is known to be whole that these ids lead to, once what walkers from each of them found out is
// put together.
fn check_known(rt: &impl Abort, alloc: Global, lens: &Lens, ids: &[ObjectId]) {
    let known = all_beside(rt, alloc, lens, ids);
    let walks = Walks::knowing(alloc, lens, known);
    for id in ids {
        assert!(rt; is_settled(&walks, *id, Verdict::Whole));
    }
}

// There are 200 of them, so that they are joined a few times.
#[test]
fn what_many_found_out_stays_known(rt: HostRuntime) {
    let mut pack = ObjectList::new(rt.alloc());
    let empty = put_tree(&rt, rt.alloc(), &mut pack, &[]);
    let names = chain(&rt, rt.alloc(), &mut pack, empty, empty);
    let lens = lens_alone(&rt, rt.alloc(), &pack);
    check_known(&rt, rt.alloc(), &lens, &names);
}
