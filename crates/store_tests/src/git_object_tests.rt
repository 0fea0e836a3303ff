// Values from outside: `git hash-object -t KIND --stdin`, of Git 2.39.5, for each name.
use git_object::{Kind, MAX_BODY, ObjFault, Object, ObjectId, ObjectList, fit_one_pack, share};
use std::alloc::Global;

const EMPTY_BLOB: &str = "e69de29bb2d1d6434b8b29ae775ad8c2e48c5391";

const EMPTY_TREE: &str = "4b825dc642cb6eb9a060e54bf8d69288fbee4904";

const HELLO: &str = "ce013625030ba8dba906f756967f9e9ca394464a";

// A kind and a body, the object's name and its links, and how many parents and entries of a tree it has.
type Row = (
    Kind,
    &'static [u8],
    &'static str,
    &'static [(&'static str, Kind)],
    usize,
    usize,
);

static OBJECTS: [Row; 6] = [
    (Kind::Blob, b"", EMPTY_BLOB, &[], 0, 0),
    (Kind::Tree, b"", EMPTY_TREE, &[], 0, 0),
    (Kind::Blob, b"hello\n", HELLO, &[], 0, 0),
    (
        Kind::Commit,
        b"tree 4b825dc642cb6eb9a060e54bf8d69288fbee4904\nparent ce013625030ba8dba906f756967f9e9ca394464a\nparent e69de29bb2d1d6434b8b29ae775ad8c2e48c5391\nauthor A <a@b> 0 +0000\ncommitter A <a@b> 0 +0000\n\nx\n",
        "51f4b452a3fb468b037c84e342a81db6eccbd6aa",
        &[
            (EMPTY_TREE, Kind::Tree),
            (HELLO, Kind::Commit),
            (EMPTY_BLOB, Kind::Commit),
        ],
        2,
        0,
    ),
    (
        Kind::Tag,
        b"object e69de29bb2d1d6434b8b29ae775ad8c2e48c5391\ntype blob\ntag v1\ntagger A <a@b> 0 +0000\n\nx\n",
        "c90654b964e9bf1ef1175b9cc8dd698be45005b2",
        &[(EMPTY_BLOB, Kind::Blob)],
        0,
        0,
    ),
    // Names that sort around the directory `a`: `a-b` and `a.b` before `a/`, `a0` behind it. The last is a
    // commit of another repository.
    (
        Kind::Tree,
        b"100644 a-b\0\xe6\x9d\xe2\x9b\xb2\xd1\xd6CK\x8b)\xaewZ\xd8\xc2\xe4\x8cS\x91100755 a.b\0\xe6\x9d\xe2\x9b\xb2\xd1\xd6CK\x8b)\xaewZ\xd8\xc2\xe4\x8cS\x9140000 a\0K\x82]\xc6B\xcbn\xb9\xa0`\xe5K\xf8\xd6\x92\x88\xfb\xeeI\x04120000 a0\0\xe6\x9d\xe2\x9b\xb2\xd1\xd6CK\x8b)\xaewZ\xd8\xc2\xe4\x8cS\x91160000 b\0\xe6\x9d\xe2\x9b\xb2\xd1\xd6CK\x8b)\xaewZ\xd8\xc2\xe4\x8cS\x91",
        "c54569eaac601bdfa63b8c1839ca02770900a860",
        &[
            (EMPTY_BLOB, Kind::Blob),
            (EMPTY_BLOB, Kind::Blob),
            (EMPTY_TREE, Kind::Tree),
            (EMPTY_BLOB, Kind::Blob),
        ],
        0,
        5,
    ),
];

// No body of a row is too long.
fn parse(alloc: Global, kind: Kind, body: &[u8]) -> Result<Object, ObjFault> {
    if body.len() > MAX_BODY {
        return Err(ObjFault::NoMemory);
    }
    Object::parse(alloc, kind, body)
}

fn is_id(id: ObjectId, name: &str) -> bool {
    id.hex().as_slice() == name.as_bytes()
}

fn are_links(object: &Object, due: &[(&str, Kind)]) -> bool {
    let mut left = due.iter();
    for (id, kind) in object.links() {
        match left.next() {
            Some((name, wanted)) if is_id(id, name) && kind == *wanted => {}
            _ => return false,
        }
    }
    left.next().is_none()
}

fn has_what_came(object: &Object, row: &Row) -> bool {
    object.kind() == row.0 && object.body() == row.1 && is_id(object.name(), row.2)
}

fn has_parts(object: &Object, row: &Row) -> bool {
    object.parents().count() == row.4
        && object.tree_entries().count() == row.5
        && object.tag_target().is_some() == (row.0 == Kind::Tag)
}

fn is_as_due(alloc: Global, row: &Row) -> bool {
    match parse(alloc, row.0, row.1) {
        Ok(object) => {
            has_what_came(&object, row) && are_links(&object, row.3) && has_parts(&object, row)
        }
        Err(_) => false,
    }
}

#[test]
fn objects_are_those_of_git(rt: HostRuntime) {
    for row in &OBJECTS {
        assert!(rt; is_as_due(rt.alloc(), row), "the object {}", row.2);
    }
}

static FAULTS: [(Kind, &[u8], ObjFault); 12] = [
    // no line feed
    (
        Kind::Commit,
        b"tree 4b825dc642cb6eb9a060e54bf8d69288fbee4904",
        ObjFault::BadCommit(0),
    ),
    // upper-case digits
    (
        Kind::Commit,
        b"tree 4B825DC642CB6EB9A060E54BF8D69288FBEE4904\n",
        ObjFault::BadCommit(0),
    ),
    // a second parent without an id
    (
        Kind::Commit,
        b"tree 4b825dc642cb6eb9a060e54bf8d69288fbee4904\nparent 4b825dc642cb6eb9a060e54bf8d69288fbee4904\nparent \n",
        ObjFault::BadCommit(94),
    ),
    // no kind
    (
        Kind::Tag,
        b"object 4b825dc642cb6eb9a060e54bf8d69288fbee4904\ntype leaf\n",
        ObjFault::BadTag(48),
    ),
    // a space too many
    (
        Kind::Tag,
        b"object 4b825dc642cb6eb9a060e54bf8d69288fbee4904 \ntype tree\n",
        ObjFault::BadTag(0),
    ),
    // falling
    (
        Kind::Tree,
        b"100644 b\000000000000000000000100644 a\000000000000000000000",
        ObjFault::BadTree(29),
    ),
    // the name of the first again, not beside it
    (
        Kind::Tree,
        b"100644 a\000000000000000000000100644 a-b\00000000000000000000040000 a\000000000000000000000",
        ObjFault::BadTree(60),
    ),
    // a directory sorts as if `/` followed
    (
        Kind::Tree,
        b"40000 a\000000000000000000000100644 a-b\000000000000000000000",
        ObjFault::BadTree(28),
    ),
    // a mode with a leading zero
    (
        Kind::Tree,
        b"040000 a\000000000000000000000",
        ObjFault::BadTree(0),
    ),
    // no name
    (
        Kind::Tree,
        b"100644 \000000000000000000000100644 b\000000000000000000000",
        ObjFault::BadTree(0),
    ),
    // a slash
    (
        Kind::Tree,
        b"100644 a\000000000000000000000100644 b/c\000000000000000000000",
        ObjFault::BadTree(29),
    ),
    // an id that is cut off
    (
        Kind::Tree,
        b"100644 a\000000000000000000000100644 b\00000000000000000000",
        ObjFault::BadTree(29),
    ),
];

fn is_refused(alloc: Global, kind: Kind, body: &[u8], fault: ObjFault) -> bool {
    match parse(alloc, kind, body) {
        Ok(_) => false,
        Err(found) => found == fault,
    }
}

#[test]
fn the_first_break_is_told(rt: HostRuntime) {
    for (kind, body, fault) in &FAULTS {
        assert!(rt; is_refused(rt.alloc(), *kind, body, *fault), "{fault}");
    }
}

// Texts that are no id.
static NO_IDS: [&str; 4] = [
    "",
    "e69de29bb2d1d6434b8b29ae775ad8c2e48c539",
    "E69DE29BB2D1D6434B8B29AE775AD8C2E48C5391",
    "e69de29bb2d1d6434b8b29ae775ad8c2e48c539g",
];

fn is_before(first: &str, second: &str) -> bool {
    match (
        ObjectId::from_hex(first.as_bytes()),
        ObjectId::from_hex(second.as_bytes()),
    ) {
        (Some(first), Some(second)) => first < second,
        _ => false,
    }
}

#[test]
fn ids_are_forty_lower_case_digits(rt: HostRuntime) {
    assert!(rt;
        ObjectId::from_hex(b"0000000000000000000000000000000000000000") == Some(ObjectId::zero())
    );
    for text in &NO_IDS {
        assert!(rt; ObjectId::from_hex(text.as_bytes()).is_none(), "{text}");
    }
    assert!(rt; is_before(EMPTY_TREE, HELLO) && is_before(HELLO, EMPTY_BLOB));
}

static KINDS: [(Kind, u8); 4] = [
    (Kind::Commit, 1),
    (Kind::Tree, 2),
    (Kind::Blob, 3),
    (Kind::Tag, 4),
];

#[test]
fn kinds_have_their_numbers(rt: HostRuntime) {
    for (kind, number) in &KINDS {
        assert!(rt; *kind as u8 == *number, "{number}");
        assert!(rt; Kind::from_word(kind.word()) == Some(*kind), "{number}");
    }
}

fn push_blob(list: &mut ObjectList, alloc: Global, body: &[u8]) -> bool {
    match parse(alloc, Kind::Blob, body) {
        Ok(object) => list.push(object).is_ok(),
        Err(_) => false,
    }
}

fn crosses_threads<T: Send + Sync + Drop>(_value: T) {}

// Whether the one object of a list is still in a copy when the list is gone.
fn is_shared(list: ObjectList, body: &[u8]) -> bool {
    let Ok(copy) = share(&list) else {
        return false;
    };
    crosses_threads(list);
    match copy.get(0) {
        Some(object) => copy.len() == 1 && object.body() == body,
        None => false,
    }
}

#[test]
fn a_list_is_kept_in_two_places(rt: HostRuntime) {
    let mut list = ObjectList::new(rt.alloc());
    assert!(rt; push_blob(&mut list, rt.alloc(), b"hello\n"));
    assert!(rt; is_shared(list, b"hello\n"));
}

// How many references to one blob a pack has, how many zero bytes that has, and whether it is within the
// limits.
static PACKS: [(usize, usize, bool); 5] = [
    (0, 0, true),
    (16, 16_777_216, true),
    (17, 16_777_215, false),
    (100_000, 0, true),
    (100_001, 0, false),
];

fn zeros(alloc: Global, size: usize) -> Result<Object, ObjFault> {
    if size > MAX_BODY {
        return Err(ObjFault::NoMemory);
    }
    Object::from_body(alloc, Kind::Blob, vec![in alloc; 0; size]?)
}

fn push_copy(list: &mut ObjectList, object: &Object) -> bool {
    match object.clone() {
        Ok(copy) => list.push(copy).is_ok(),
        Err(_) => false,
    }
}

fn push_copies(list: &mut ObjectList, object: &Object, count: usize) -> bool {
    for _ in 0..count {
        if !push_copy(list, object) {
            return false;
        }
    }
    true
}

fn fits(alloc: Global, count: usize, size: usize, due: bool) -> bool {
    let mut list = ObjectList::new(alloc);
    match zeros(alloc, size) {
        Ok(object) => push_copies(&mut list, &object, count) && fit_one_pack(&list) == due,
        Err(_) => false,
    }
}

#[test]
fn a_pack_has_limits(rt: HostRuntime) {
    for (count, size, fit) in &PACKS {
        assert!(rt;
            fits(rt.alloc(), *count, *size, *fit),
            "{count} of {size} bytes"
        );
    }
}
