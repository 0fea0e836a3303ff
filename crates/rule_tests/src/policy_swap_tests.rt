//! Confs at ids of every kind, as no push brings them too. Confs with each kind of entry, and at their
//! limits, are pushed by `front/tests/conf_tree_tests.py`.

use git_object::{Kind, MAX_BODY, Object, ObjectList};
use policy_swap::{
    ConfFault, FileList, Lens, ObjectId, Policy, PolicyFault, compile_at, conf_files,
};
use ref_store::Repo;
use std::alloc::Global;
use std::process::Abort;

// A piece of an object's body: a text, and the number of an object whose id follows it, or 0.
type Part = (&'static str, usize);

// Objects are numbered: 0 is zero, 1 is an id without an object, and then come these.
static OBJECTS: [(Kind, &[Part]); 33] = [
    // 2 to 5: blobs
    (Kind::Blob, &[("one", 0)]),
    (Kind::Blob, &[("two", 0)]),
    (Kind::Blob, &[("repo wiki\n    RW = ann\n", 0)]),
    (Kind::Blob, &[("repo wiki\n    RX = ann\n", 0)]),
    // 6: the empty tree
    (Kind::Tree, &[]),
    // 7 to 10: a good main file, one with a fault at a line, one whose id names a tree, one whose id names
    // nothing
    (Kind::Tree, &[("100644 gitolite.conf\0", 4)]),
    (Kind::Tree, &[("100644 gitolite.conf\0", 5)]),
    (Kind::Tree, &[("100644 gitolite.conf\0", 6)]),
    (Kind::Tree, &[("100644 gitolite.conf\0", 1)]),
    // 11 to 13: folders, and the order around a slash
    (Kind::Tree, &[("100644 deep.conf\0", 3)]),
    (Kind::Tree, &[("100664 b\0", 2), ("40000 c\0", 11)]),
    (
        Kind::Tree,
        &[
            ("100644 a-b\0", 2),
            ("100755 a.b\0", 3),
            ("40000 a\0", 12),
            ("100644 a0\0", 2),
            ("100644 gitolite.conf\0", 4),
            ("120000 link\0", 2),
            ("160000 module\0", 2),
            ("40000 none\0", 1),
        ],
    ),
    // 14: one folder at two names, and a folder that names no tree
    (
        Kind::Tree,
        &[("40000 x\0", 12), ("40000 y\0", 12), ("40000 z\0", 2)],
    ),
    // 15 to 23: the roots of commits; in the last three `conf` is a file, a link, and a folder that names no
    // tree
    (Kind::Tree, &[("40000 conf\0", 7)]),
    (Kind::Tree, &[("40000 conf\0", 8)]),
    (Kind::Tree, &[("40000 conf\0", 9)]),
    (Kind::Tree, &[("40000 conf\0", 10)]),
    (Kind::Tree, &[("40000 conf\0", 13)]),
    (Kind::Tree, &[("40000 conf\0", 14)]),
    (Kind::Tree, &[("100644 conf\0", 7)]),
    (Kind::Tree, &[("120000 conf\0", 7)]),
    (Kind::Tree, &[("40000 conf\0", 2)]),
    // 24 to 32: commits of these
    (Kind::Commit, &[("tree ", 15), ("\n", 0)]),
    (Kind::Commit, &[("tree ", 16), ("\n", 0)]),
    (Kind::Commit, &[("tree ", 17), ("\n", 0)]),
    (Kind::Commit, &[("tree ", 18), ("\n", 0)]),
    (Kind::Commit, &[("tree ", 19), ("\n", 0)]),
    (Kind::Commit, &[("tree ", 20), ("\n", 0)]),
    (Kind::Commit, &[("tree ", 21), ("\n", 0)]),
    (Kind::Commit, &[("tree ", 22), ("\n", 0)]),
    (Kind::Commit, &[("tree ", 23), ("\n", 0)]),
    // 33 and 34: a commit of a tree that isn't there, and a tag
    (Kind::Commit, &[("tree ", 1), ("\n", 0)]),
    (Kind::Tag, &[("object ", 24), ("\ntype commit\ntag t\n", 0)]),
];

const ONLY_MAIN: &str = "gitolite.conf=repo wiki\n    RW = ann\n|";

const LACKS_MAIN: &str = "gitolite.conf line 0: no file gitolite.conf";

// The number of an id, and the files of the conf there: each name, `=`, its bytes, and `|`; or the fault.
static CONFS: [(usize, &str); 15] = [
    // a commit, a tag of it, and its tree
    (24, ONLY_MAIN),
    (34, ONLY_MAIN),
    (15, ONLY_MAIN),
    (25, "gitolite.conf=repo wiki\n    RX = ann\n|"),
    (
        28,
        "a-b=one|a.b=two|a/b=one|a/c/deep.conf=two|a0=one|gitolite.conf=repo wiki\n    RW = ann\n|",
    ),
    (26, LACKS_MAIN),
    (27, LACKS_MAIN),
    (29, LACKS_MAIN),
    (30, LACKS_MAIN),
    (31, LACKS_MAIN),
    (32, LACKS_MAIN),
    (33, LACKS_MAIN),
    // zero, an id without an object, and a blob
    (0, LACKS_MAIN),
    (1, LACKS_MAIN),
    (2, LACKS_MAIN),
];

// The number of an id, and how many rules its conf comes to, or the fault.
static POLICIES: [(usize, usize, &str); 4] = [
    (28, 1, ""),
    (25, 0, "gitolite.conf line 2: bad permission"),
    (29, 0, LACKS_MAIN),
    (1, 0, LACKS_MAIN),
];

// A tree names an object by the bytes of its id, and any other object by their digits.
fn add_id(body: &mut Vec<u8>, kind: Kind, id: ObjectId) -> bool {
    match kind {
        Kind::Tree => body.extend_from_slice(&id.bytes).is_ok(),
        _ => body.extend_from_slice(&id.hex()).is_ok(),
    }
}

fn add_named(body: &mut Vec<u8>, ids: &[ObjectId], kind: Kind, number: usize) -> bool {
    match ids.get(number) {
        Some(id) => number == 0 || add_id(body, kind, *id),
        None => false,
    }
}

fn add_part(body: &mut Vec<u8>, ids: &[ObjectId], kind: Kind, part: &Part) -> bool {
    body.extend_from_slice(part.0.as_bytes()).is_ok() && add_named(body, ids, kind, part.1)
}

fn add_parts(body: &mut Vec<u8>, ids: &[ObjectId], kind: Kind, parts: &[Part]) -> bool {
    for part in parts {
        if !add_part(body, ids, kind, part) {
            return false;
        }
    }
    true
}

fn put(
    alloc: Global,
    objects: &mut ObjectList,
    ids: &mut Vec<ObjectId>,
    kind: Kind,
    body: &[u8],
) -> bool {
    if body.len() > MAX_BODY {
        return false;
    }
    match Object::parse(alloc, kind, body) {
        Ok(object) => {
            let name = object.name();
            objects.push(object).is_ok() && ids.push(name).is_ok()
        }
        Err(_) => false,
    }
}

fn put_row(
    alloc: Global,
    objects: &mut ObjectList,
    ids: &mut Vec<ObjectId>,
    body: &mut Vec<u8>,
    row: &(Kind, &[Part]),
) -> bool {
    body.clear();
    add_parts(body, ids, row.0, row.1) && put(alloc, objects, ids, row.0, body)
}

// Puts the objects of the table, by what `body` has then, and their ids by their numbers.
fn put_rows(
    alloc: Global,
    objects: &mut ObjectList,
    ids: &mut Vec<ObjectId>,
    body: &mut Vec<u8>,
) -> bool {
    for row in &OBJECTS {
        if !put_row(alloc, objects, ids, body, row) {
            return false;
        }
    }
    true
}

fn put_objects(alloc: Global, objects: &mut ObjectList, ids: &mut Vec<ObjectId>) -> bool {
    let mut body = Vec::new(alloc);
    ids.push(ObjectId::zero()).is_ok()
        && ids.push(ObjectId { bytes: [7; 20] }).is_ok()
        && put_rows(alloc, objects, ids, &mut body)
}

// What follows a file in the text of a list; none where it isn't the next there.
fn behind<'a>(text: &'a [u8], name: &[u8], bytes: &[u8]) -> Option<&'a [u8]> {
    text.strip_prefix(name)?
        .strip_prefix(b"=".as_slice())?
        .strip_prefix(bytes)?
        .strip_prefix(b"|".as_slice())
}

fn are_files(files: &FileList, text: &[u8]) -> bool {
    let mut rest = text;
    for file in files.as_slice() {
        match behind(rest, file.name.bytes(), file.text.bytes()) {
            Some(next) => rest = next,
            None => return false,
        }
    }
    rest.is_empty()
}

fn is_fault(alloc: Global, fault: &ConfFault, due: &[u8]) -> bool {
    match fault.text(alloc) {
        Ok(text) => text.bytes() == due,
        Err(_) => false,
    }
}

fn is_conf(alloc: Global, lens: &Lens, id: ObjectId, due: &[u8]) -> bool {
    match conf_files(alloc, lens, id) {
        Ok(files) => are_files(&files, due),
        Err(fault) => is_fault(alloc, &fault, due),
    }
}

fn is_policy_fault(alloc: Global, fault: &PolicyFault, due: &[u8]) -> bool {
    match fault.text(alloc) {
        Ok(text) => text.bytes() == due,
        Err(_) => false,
    }
}

fn has_rules(policy: &Policy, rules: usize, fault: &[u8]) -> bool {
    fault.is_empty() && policy.rules().len() == rules
}

// Whether the conf comes to so many rules, where no fault is due.
fn is_policy(alloc: Global, lens: &Lens, id: ObjectId, rules: usize, fault: &[u8]) -> bool {
    match compile_at(alloc, lens, id) {
        Ok(policy) => has_rules(&policy, rules, fault),
        Err(found) => is_policy_fault(alloc, &found, fault),
    }
}

fn has_conf(alloc: Global, lens: &Lens, ids: &[ObjectId], row: &(usize, &str)) -> bool {
    match ids.get(row.0) {
        Some(id) => is_conf(alloc, lens, *id, row.1.as_bytes()),
        None => false,
    }
}

fn has_policy(alloc: Global, lens: &Lens, ids: &[ObjectId], row: &(usize, usize, &str)) -> bool {
    match ids.get(row.0) {
        Some(id) => is_policy(alloc, lens, *id, row.1, row.2.as_bytes()),
        None => false,
    }
}

fn check_confs(rt: &impl Abort, alloc: Global, lens: &Lens, ids: &[ObjectId]) {
    for row in &CONFS {
        assert!(rt; has_conf(alloc, lens, ids, row), "the conf at {}", row.0);
    }
}

fn check_policies(rt: &impl Abort, alloc: Global, lens: &Lens, ids: &[ObjectId]) {
    for row in &POLICIES {
        assert!(rt; has_policy(alloc, lens, ids, row), "the rules at {}", row.0);
    }
}

// Whether there was memory for a lens, with which all rows are checked.
fn check_objects(
    rt: &impl Abort,
    alloc: Global,
    repo: &Repo,
    objects: &ObjectList,
    ids: &[ObjectId],
) -> bool {
    match Lens::new(alloc, repo, objects) {
        Ok(lens) => {
            check_confs(rt, alloc, &lens, ids);
            check_policies(rt, alloc, &lens, ids);
            true
        }
        Err(_) => false,
    }
}

fn check_all(rt: &impl Abort, alloc: Global, objects: &ObjectList, ids: &[ObjectId]) -> bool {
    match Repo::empty(alloc) {
        Ok(repo) => check_objects(rt, alloc, &repo, objects, ids),
        Err(_) => false,
    }
}

// A conf has its files in byte order, and comes to its rules.
#[test]
fn confs_at_ids(rt: HostRuntime) {
    let mut objects = ObjectList::new(rt.alloc());
    let mut ids = Vec::new(rt.alloc());
    assert!(rt; put_objects(rt.alloc(), &mut objects, &mut ids));
    assert!(rt; check_all(&rt, rt.alloc(), &objects, &ids));
}
