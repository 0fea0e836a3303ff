//! Names, refs and objects, with what was worked out by hand.

use git_object::{Kind, MAX_BODY, Object, ObjectId, ObjectList};
use ref_store::{Added, Applied, Lens, RefName, Repo};
use std::alloc::Global;
use std::process::Abort;

// Names that keep the rule.
static NAMES: [&str; 8] = [
    "refs/heads/main",
    "refs/a/b/c",
    "refs/heads/a.b",
    "refs/heads/a.lockb",
    "refs/heads/a.b.c",
    "refs/heads/a@b{",
    "refs/heads/@",
    "refs/heads/\u{e9}",
];

// Texts that break one clause of it each.
static NO_NAMES: [&str; 20] = [
    "refs/heads",
    "heads/main/a",
    "refs/heads/",
    "refs//main",
    "refs/heads/.a",
    "refs/heads/a.lock",
    "refs/heads/a.lock/b",
    "refs/heads/a b",
    "refs/heads/a\u{7f}",
    "refs/heads/a\u{1f}",
    "refs/heads/a~",
    "refs/heads/a^",
    "refs/heads/a:b",
    "refs/heads/a?",
    "refs/heads/a*",
    "refs/heads/a[",
    "refs/heads/a\\b",
    "refs/heads/a..b",
    "refs/heads/a@{b",
    "refs/heads/a.",
];

fn ref_name(alloc: Global, text: &[u8]) -> Option<RefName> {
    match RefName::parse(alloc, text) {
        Ok(name) => name,
        Err(_) => None,
    }
}

fn is_name(alloc: Global, text: &[u8]) -> bool {
    match RefName::parse(alloc, text) {
        Ok(Some(name)) => name.bytes() == text,
        _ => false,
    }
}

fn is_no_name(alloc: Global, text: &[u8]) -> bool {
    match RefName::parse(alloc, text) {
        Ok(name) => name.is_none(),
        Err(_) => false,
    }
}

#[test]
fn names_that_keep_the_rule(rt: HostRuntime) {
    for text in &NAMES {
        assert!(rt; is_name(rt.alloc(), text.as_bytes()), "{text}");
    }
}

#[test]
fn names_that_break_one_clause_each(rt: HostRuntime) {
    for text in &NO_NAMES {
        assert!(rt; is_no_name(rt.alloc(), text.as_bytes()), "{text}");
    }
}

// Puts a text of so many bytes behind what there is.
fn add_letters(text: &mut Vec<u8>, count: usize) -> bool {
    for _ in 0..count {
        if text.push(b'a').is_err() {
            return false;
        }
    }
    true
}

#[test]
fn a_ref_name_has_1024_bytes_at_most(rt: HostRuntime) {
    let mut text = Vec::new(rt.alloc());
    assert!(rt; text.extend_from_slice(b"refs/heads/").is_ok());
    assert!(rt; add_letters(&mut text, 1013));
    assert!(rt; is_name(rt.alloc(), &text));
    assert!(rt; add_letters(&mut text, 1));
    assert!(rt; is_no_name(rt.alloc(), &text));
}

// Two names, and which one the second can't be created beside, which is empty where it can.
static BESIDE: [(&str, &str, &str); 8] = [
    ("refs/heads/a", "refs/heads/a/b", "refs/heads/a"),
    ("refs/heads/a/b", "refs/heads/a", "refs/heads/a/b"),
    ("refs/heads/a", "refs/heads/ab", ""),
    ("refs/heads/a-b", "refs/heads/a", ""),
    ("refs/heads/a/b/c/d", "refs/heads/a", "refs/heads/a/b/c/d"),
    (
        "refs/heads/aaaaaaaaaaaaaaaaaaaaaaaaaaaaaaaaaaaaaaaaaaaaaaaaaaaaaaaaaaaaaaaa",
        "refs/heads/aaaaaaaaaaaaaaaaaaaaaaaaaaaaaaaaaaaaaaaaaaaaaaaaaaaaaaaaaaaaaaaa/b",
        "refs/heads/aaaaaaaaaaaaaaaaaaaaaaaaaaaaaaaaaaaaaaaaaaaaaaaaaaaaaaaaaaaaaaaa",
    ),
    (
        "refs/heads/aaaaaaaaaaaaaaaaaaaaaaaaaaaaaaaaaaaaaaaaaaaaaaaaaaaaaaaaaaaaaaaabbbbbbbbbbbbbbbbbbbbbbbbbbbbbbbbbbbbbbbbbbbbbbbbbbbbbbbbbbbbbbbb/b",
        "refs/heads/aaaaaaaaaaaaaaaaaaaaaaaaaaaaaaaaaaaaaaaaaaaaaaaaaaaaaaaaaaaaaaaabbbbbbbbbbbbbbbbbbbbbbbbbbbbbbbbbbbbbbbbbbbbbbbbbbbbbbbbbbbbbbbb",
        "refs/heads/aaaaaaaaaaaaaaaaaaaaaaaaaaaaaaaaaaaaaaaaaaaaaaaaaaaaaaaaaaaaaaaabbbbbbbbbbbbbbbbbbbbbbbbbbbbbbbbbbbbbbbbbbbbbbbbbbbbbbbbbbbbbbbb/b",
    ),
    (
        "refs/heads/aaaaaaaaaaaaaaaaaaaaaaaaaaaaaaaaaaaaaaaaaaaaaaaaaaaaaaaaaaaaaaaa/b",
        "refs/heads/aaaaaaaaaaaaaaaaaaaaaaaaaaaaaaaaaaaaaaaaaaaaaaaaaaaaaaaaaaaaaaaa/c",
        "",
    ),
];

fn create(repo: &mut Repo, alloc: Global, name: &str) -> Option<Applied> {
    let id = ObjectId { bytes: [7; 20] };
    match ref_name(alloc, name.as_bytes()) {
        Some(name) => Some(repo.apply(&name, ObjectId::zero(), id)),
        None => None,
    }
}

fn is_created(repo: &mut Repo, alloc: Global, name: &str) -> bool {
    match create(repo, alloc, name) {
        Some(Applied::Moved) => true,
        _ => false,
    }
}

// Whether a name is created, or can't be since there is this one.
fn is_created_or_beside(repo: &mut Repo, alloc: Global, name: &str, due: &str) -> bool {
    match create(repo, alloc, name) {
        Some(Applied::Moved) => due.is_empty(),
        Some(Applied::DirFile(other)) => other.bytes() == due.as_bytes(),
        _ => false,
    }
}

fn is_beside(alloc: Global, first: &str, second: &str, due: &str) -> bool {
    match Repo::empty(alloc) {
        Ok(mut repo) => {
            is_created(&mut repo, alloc, first)
                && is_created_or_beside(&mut repo, alloc, second, due)
        }
        Err(_) => false,
    }
}

#[test]
fn a_ref_cannot_stand_beside_its_directory(rt: HostRuntime) {
    for (first, second, due) in &BESIDE {
        assert!(rt;
            is_beside(rt.alloc(), first, second, due),
            "{first} {second}"
        );
    }
}

fn blob(alloc: Global, body: &str) -> Option<Object> {
    if body.len() > MAX_BODY {
        return None;
    }
    match Object::parse(alloc, Kind::Blob, body.as_bytes()) {
        Ok(blob) => Some(blob),
        Err(_) => None,
    }
}

fn push_blob(list: &mut ObjectList, alloc: Global, body: &str) -> bool {
    match blob(alloc, body) {
        Some(blob) => list.push(blob).is_ok(),
        None => false,
    }
}

fn push_blobs(list: &mut ObjectList, alloc: Global, bodies: &[&str]) -> bool {
    for body in bodies {
        if !push_blob(list, alloc, body) {
            return false;
        }
    }
    true
}

fn add(repo: &mut Repo, alloc: Global, bodies: &[&str]) -> bool {
    let mut list = ObjectList::new(alloc);
    push_blobs(&mut list, alloc, bodies) && repo.add_objects(&list) == Added::Added
}

// Adds the objects one after another.
fn add_singly(repo: &mut Repo, alloc: Global, bodies: &[&str]) -> bool {
    for body in bodies {
        if !add(repo, alloc, &[body]) {
            return false;
        }
    }
    true
}

// Whether an object is among the first so many, as is due.
fn has(repo: &Repo, alloc: Global, body: &str, first_k: usize, due: bool) -> bool {
    match blob(alloc, body) {
        Some(blob) => repo.object(blob.name(), first_k).is_some() == due,
        None => false,
    }
}

// What is added, and what then; how many objects there are, and whether `c` is among the first two and among
// the first three.
struct AddedRow {
    first: [&'static str; 3],
    then: [&'static str; 3],
    count: usize,
    early: bool,
    late: bool,
}

static ADDED: [AddedRow; 3] = [
    AddedRow {
        first: ["a", "b", "a"],
        then: ["b", "c", "c"],
        count: 3,
        early: false,
        late: true,
    },
    AddedRow {
        first: ["a", "c", "a"],
        then: ["b", "c", "b"],
        count: 3,
        early: true,
        late: true,
    },
    AddedRow {
        first: ["a", "b", "b"],
        then: ["b", "a", "b"],
        count: 2,
        early: false,
        late: false,
    },
];

fn adds_once(repo: &mut Repo, alloc: Global, row: &AddedRow) -> bool {
    add(repo, alloc, &row.first)
        && add(repo, alloc, &row.then)
        && repo.count() == row.count
        && has(repo, alloc, "c", 2, row.early)
        && has(repo, alloc, "c", 3, row.late)
}

fn is_added_once(alloc: Global, row: &AddedRow) -> bool {
    match Repo::empty(alloc) {
        Ok(mut repo) => adds_once(&mut repo, alloc, row),
        Err(_) => false,
    }
}

#[test]
fn objects_are_added_once(rt: HostRuntime) {
    for i in 0..ADDED.len() {
        assert!(rt; is_added_once(rt.alloc(), &ADDED[i]), "row {i}");
    }
}

// Whether a copy has two objects, while `c` is added to the repository.
fn copy_lacks_added(alloc: Global, repo: &mut Repo) -> bool {
    match repo.copy() {
        Ok(copy) => {
            add(repo, alloc, &["c"])
                && repo.count() == 3
                && copy.count() == 2
                && has(&copy, alloc, "c", 3, false)
        }
        Err(_) => false,
    }
}

fn copy_of_two_lacks_added(alloc: Global) -> bool {
    match Repo::empty(alloc) {
        Ok(mut repo) => add(&mut repo, alloc, &["a", "b"]) && copy_lacks_added(alloc, &mut repo),
        Err(_) => false,
    }
}

#[test]
fn copies_do_not_see_what_is_added(rt: HostRuntime) {
    assert!(rt; copy_of_two_lacks_added(rt.alloc()));
}

fn has_two_places(repo: &Repo) -> bool {
    repo.nth(1).is_some() && repo.nth(2).is_none() && repo.refs().count() == 0
}

fn places_of_two_end(alloc: Global) -> bool {
    match Repo::empty(alloc) {
        Ok(mut repo) => add(&mut repo, alloc, &["a", "b"]) && has_two_places(&repo),
        Err(_) => false,
    }
}

#[test]
fn places_end_at_the_count(rt: HostRuntime) {
    assert!(rt; places_of_two_end(rt.alloc()));
}

// What is added, how many objects there are then, and how many segments.
static SEGMENTS: [(&[&str], usize, usize); 9] = [
    (&["a"], 1, 1),
    (&["b"], 2, 1),
    (&["c"], 3, 2),
    (&["d"], 4, 1),
    (&["d", "a"], 4, 1),
    (&["e"], 5, 2),
    (&["f"], 6, 2),
    (&["g"], 7, 3),
    (&["h", "i"], 9, 1),
];

fn check_segments(rt: &impl Abort, alloc: Global, repo: &mut Repo) {
    for (bodies, count, segments) in &SEGMENTS {
        assert!(rt; add(repo, alloc, bodies));
        assert_eq!(rt; repo.count(), *count);
        assert_eq!(rt; repo.segments(), *segments, "of {count}");
    }
}

// Whether there was memory for an empty repository, with which the rows are checked.
fn check_segments_from_none(rt: &impl Abort, alloc: Global) -> bool {
    match Repo::empty(alloc) {
        Ok(mut repo) => {
            check_segments(rt, alloc, &mut repo);
            true
        }
        Err(_) => false,
    }
}

#[test]
fn segments_are_joined_while_the_one_before_has_fewer_than_twice_as_many(rt: HostRuntime) {
    assert!(rt; check_segments_from_none(&rt, rt.alloc()));
}

// Objects, of which each is added singly.
static BODIES: [&str; 7] = ["a", "b", "c", "d", "e", "f", "g"];

// Whether an object is at a place, and is found from just behind it on.
fn is_at(repo: &Repo, id: ObjectId, body: &[u8], at: usize) -> bool {
    match (repo.nth(at), repo.object(id, at.saturating_add(1))) {
        (Some(object), Some(found)) => {
            object.name() == id && found.body() == body && repo.object(id, at).is_none()
        }
        _ => false,
    }
}

fn is_body_at(repo: &Repo, alloc: Global, body: &str, at: usize) -> bool {
    match blob(alloc, body) {
        Some(blob) => is_at(repo, blob.name(), body.as_bytes(), at),
        None => false,
    }
}

// Whether the objects are the first so many, in order.
fn holds(repo: &Repo, alloc: Global, count: usize) -> bool {
    for (at, body) in BODIES.iter().enumerate() {
        if at < count && !is_body_at(repo, alloc, body, at) {
            return false;
        }
    }
    repo.count() == count && repo.nth(count).is_none()
}

fn push_copy(copies: &mut Vec<Repo>, repo: &Repo) -> bool {
    match repo.copy() {
        Ok(copy) => copies.push(copy).is_ok(),
        Err(_) => false,
    }
}

// A copy before each of the objects is added, and one behind them.
fn push_copies(alloc: Global, repo: &mut Repo, copies: &mut Vec<Repo>) -> bool {
    for body in &BODIES {
        if !push_copy(copies, repo) || !add(repo, alloc, &[body]) {
            return false;
        }
    }
    push_copy(copies, repo)
}

fn make_copies(alloc: Global, copies: &mut Vec<Repo>) -> bool {
    match Repo::empty(alloc) {
        Ok(mut repo) => push_copies(alloc, &mut repo, copies),
        Err(_) => false,
    }
}

#[test]
fn copies_keep_what_they_had_while_segments_are_joined(rt: HostRuntime) {
    let mut copies = Vec::new(rt.alloc());
    assert!(rt; make_copies(rt.alloc(), &mut copies));
    assert_eq!(rt; copies.len(), 8);
    for (count, copy) in copies.iter().enumerate() {
        assert!(rt; holds(copy, rt.alloc(), count), "{count}");
    }
}

fn is_shown(lens: &Lens, id: ObjectId, body: &[u8]) -> bool {
    match lens.get(id) {
        Some(object) => object.body() == body,
        None => false,
    }
}

// Whether a lens has an object, as is due.
fn shows(lens: &Lens, alloc: Global, body: &str, due: bool) -> bool {
    match blob(alloc, body) {
        Some(blob) => is_shown(lens, blob.name(), body.as_bytes()) == due,
        None => false,
    }
}

// Objects, and whether the lens has them.
static SHOWN: [(&str, bool); 7] = [
    ("a", true),
    ("d", true),
    ("e", true),
    ("f", true),
    ("g", true),
    ("x", true),
    ("y", false),
];

fn check_lens(rt: &impl Abort, alloc: Global, lens: &Lens) {
    for (body, due) in &SHOWN {
        assert!(rt; shows(lens, alloc, body, *due), "{body}");
    }
}

fn check_lens_over(rt: &impl Abort, alloc: Global, repo: &Repo, pack: &ObjectList) -> bool {
    match Lens::new(alloc, repo, pack) {
        Ok(lens) => {
            check_lens(rt, alloc, &lens);
            true
        }
        Err(_) => false,
    }
}

fn check_lens_of_segments(rt: &impl Abort, alloc: Global, repo: &mut Repo) -> bool {
    let mut pack = ObjectList::new(alloc);
    add_singly(repo, alloc, &BODIES)
        && repo.segments() == 3
        && push_blob(&mut pack, alloc, "x")
        && check_lens_over(rt, alloc, repo, &pack)
}

fn check_lens_of_new_repo(rt: &impl Abort, alloc: Global) -> bool {
    match Repo::empty(alloc) {
        Ok(mut repo) => check_lens_of_segments(rt, alloc, &mut repo),
        Err(_) => false,
    }
}

#[test]
fn a_lens_reaches_older_segments(rt: HostRuntime) {
    assert!(rt; check_lens_of_new_repo(&rt, rt.alloc()));
}

fn check_first(rt: &impl Abort, alloc: Global, repo: &Repo, at: usize, body: &str) {
    for first_k in 0..9 {
        assert!(rt;
            has(repo, alloc, body, first_k, at < first_k),
            "{body} {first_k}"
        );
    }
}

fn check_all_first(rt: &impl Abort, alloc: Global, repo: &Repo) {
    for (at, body) in BODIES.iter().enumerate() {
        check_first(rt, alloc, repo, at, body);
    }
}

fn check_first_of_segments(rt: &impl Abort, alloc: Global) -> bool {
    match Repo::empty(alloc) {
        Ok(mut repo) => {
            assert!(rt; add_singly(&mut repo, alloc, &BODIES));
            check_all_first(rt, alloc, &repo);
            true
        }
        Err(_) => false,
    }
}

#[test]
fn the_first_so_many_may_end_inside_an_older_segment(rt: HostRuntime) {
    assert!(rt; check_first_of_segments(&rt, rt.alloc()));
}

const ZERO: u8 = 0;

const A: u8 = 1;

const B: u8 = 2;

// The value that is thought of, the new one, the value that is found where it is another, and how many refs
// there are then. Each byte is that of an id.
static MOVES: [(u8, u8, Option<u8>, usize); 5] = [
    (A, B, Some(ZERO), 0),
    (ZERO, A, None, 1),
    (ZERO, B, Some(A), 1),
    (A, B, None, 1),
    (B, ZERO, None, 0),
];

// The id whose bytes are all this one.
fn id_of(byte: u8) -> ObjectId {
    ObjectId { bytes: [byte; 20] }
}

// Whether a ref moves from one value to another, or is found to have a third.
fn is_moved(repo: &mut Repo, name: &RefName, old: u8, new: u8, stale: Option<u8>) -> bool {
    match (repo.apply(name, id_of(old), id_of(new)), stale) {
        (Applied::Moved, None) => true,
        (Applied::Stale(id), Some(byte)) => id == id_of(byte),
        _ => false,
    }
}

fn check_moves(rt: &impl Abort, repo: &mut Repo, name: &RefName) {
    for (old, new, stale, count) in &MOVES {
        assert!(rt; is_moved(repo, name, *old, *new, *stale), "{old} {new}");
        assert_eq!(rt; repo.ref_count(), *count);
    }
}

fn check_moves_of(rt: &impl Abort, alloc: Global, repo: &mut Repo) -> bool {
    match ref_name(alloc, b"refs/heads/a") {
        Some(name) => {
            check_moves(rt, repo, &name);
            true
        }
        None => false,
    }
}

fn check_moves_from_none(rt: &impl Abort, alloc: Global) -> bool {
    match Repo::empty(alloc) {
        Ok(mut repo) => check_moves_of(rt, alloc, &mut repo),
        Err(_) => false,
    }
}

#[test]
fn a_ref_moves_from_its_value_alone(rt: HostRuntime) {
    assert!(rt; check_moves_from_none(&rt, rt.alloc()));
}

fn equals_its_copy(name: &RefName) -> bool {
    match name.clone() {
        Ok(copy) => copy == *name,
        Err(_) => false,
    }
}

fn copy_equals(alloc: Global, text: &[u8]) -> bool {
    match ref_name(alloc, text) {
        Some(name) => equals_its_copy(&name),
        None => false,
    }
}

#[test]
fn a_copy_of_a_name_equals_it(rt: HostRuntime) {
    assert!(rt; copy_equals(rt.alloc(), b"refs/heads/a"));
}
