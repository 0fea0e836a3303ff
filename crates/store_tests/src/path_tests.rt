//! Trees and the paths that are changed between them, which are those of `git diff-tree -r --name-only` in
//! the order of their bytes.

ghost use Rattle.std.specs.Prelude.{◌<◌, length};

use crate::vref_tests::{add, lens_of, put, put_commit};
use git_object::{Kind, ObjectId, ObjectList};
use std::alloc::Global;
use std::process::Abort;
use vref::{PathList, Paths, changed_paths};

// The entries of trees: the tree, a mode, a name, and what it names. Objects are numbered: 0 is zero, 1 and 2
// are blobs, then come the trees, of which 3 is empty, and then those of `put_others`.
static ENTRIES: [(usize, &str, &str, usize); 31] = [
    (4, "100644", "x", 1),
    (5, "100644", "x", 2),
    (6, "100755", "x", 1),
    (7, "120000", "x", 1),
    (8, "160000", "x", 1),
    (9, "40000", "x", 4),
    (10, "40000", "x", 5),
    // around a slash
    (11, "100644", "a-b", 1),
    (11, "100644", "a.b", 1),
    (11, "40000", "a", 4),
    (11, "100644", "a0", 1),
    (12, "100644", "a-b", 2),
    (12, "100644", "a.b", 2),
    (12, "40000", "a", 5),
    (12, "100644", "a0", 2),
    // a folder in a folder, beside a file
    (13, "40000", "d", 9),
    (13, "100644", "y", 1),
    (14, "40000", "d", 10),
    (14, "100644", "y", 1),
    (15, "40000", "d", 9),
    (15, "100755", "y", 1),
    // folders that name no tree, and a link and a submodule that name one
    (16, "40000", "x", 1),
    (17, "120000", "x", 4),
    (18, "160000", "x", 4),
    // two folders of one tree
    (19, "40000", "c", 4),
    (19, "40000", "d", 4),
    (20, "40000", "d", 5),
    // a file that becomes a folder, beside a name that comes between
    (21, "100644", "x", 1),
    (21, "100644", "x-y", 1),
    (22, "100644", "x-y", 2),
    (22, "40000", "x", 4),
];

// Two objects, and the changed paths, each with a line feed behind it.
static CHANGES: [(usize, usize, &str); 44] = [
    (3, 3, ""),
    (4, 4, ""),
    // a file is added, removed, changed; its mode is changed
    (3, 4, "x\n"),
    (4, 3, "x\n"),
    (4, 5, "x\n"),
    (4, 6, "x\n"),
    (6, 4, "x\n"),
    // a symlink, a submodule
    (3, 7, "x\n"),
    (4, 7, "x\n"),
    (7, 3, "x\n"),
    (3, 8, "x\n"),
    (8, 4, "x\n"),
    (7, 8, "x\n"),
    // a file becomes a folder, and back
    (4, 9, "x\nx/x\n"),
    (9, 4, "x\nx/x\n"),
    (8, 10, "x\nx/x\n"),
    // a folder is added, removed, and changed inside
    (3, 9, "x/x\n"),
    (9, 3, "x/x\n"),
    (9, 10, "x/x\n"),
    (3, 13, "d/x/x\ny\n"),
    (13, 14, "d/x/x\n"),
    (13, 15, "y\n"),
    (14, 15, "d/x/x\ny\n"),
    // the order around a slash
    (11, 12, "a-b\na.b\na/x\na0\n"),
    (12, 3, "a-b\na.b\na/x\na0\n"),
    (21, 22, "x\nx-y\nx/x\n"),
    (22, 21, "x\nx-y\nx/x\n"),
    // nothing below what names no tree, below a link, and below a submodule
    (3, 16, ""),
    (9, 16, "x/x\n"),
    (4, 16, "x\n"),
    (3, 17, "x\n"),
    (3, 18, "x\n"),
    (9, 18, "x\nx/x\n"),
    // one tree at two paths
    (3, 19, "c/x\nd/x\n"),
    (19, 20, "c/x\nd/x\n"),
    // zero, a blob and an id without an object stand for the empty tree
    (0, 0, ""),
    (0, 9, "x/x\n"),
    (9, 0, "x/x\n"),
    (1, 4, "x\n"),
    (26, 4, "x\n"),
    (27, 4, "x\n"),
    // a commit and a tag of a tag of it stand for its tree
    (23, 4, ""),
    (24, 5, "x\n"),
    (25, 4, ""),
];

const TREES_END: usize = 23;

fn add_entry(rt: &impl Abort, body: &mut Vec<u8>, mode: &str, name: &[u8], id: ObjectId) {
    add(rt, body, mode.as_bytes());
    add(rt, body, b" ");
    add(rt, body, name);
    add(rt, body, b"\0");
    add(rt, body, &id.bytes);
}

fn id_at(rt: &impl Abort, ids: &[ObjectId], number: usize) -> ObjectId {
    *ids.get(number).expect(rt, "an object's number")
}

// A tree of the table, by the objects before it.
fn put_tree(
    rt: &impl Abort,
    alloc: Global,
    objects: &mut ObjectList,
    tree: usize,
    ids: &[ObjectId],
) -> ObjectId {
    let mut body = Vec::new(alloc);
    for (of, mode, name, named) in &ENTRIES {
        if *of == tree {
            let id = id_at(rt, ids, *named);
            add_entry(rt, &mut body, mode, name.as_bytes(), id);
        }
    }
    put(rt, alloc, objects, Kind::Tree, &body)
}

fn put_tag(
    rt: &impl Abort,
    alloc: Global,
    objects: &mut ObjectList,
    target: ObjectId,
    kind: &str,
) -> ObjectId {
    let mut body = Vec::new(alloc);
    add(rt, &mut body, b"object ");
    add(rt, &mut body, &target.hex());
    add(rt, &mut body, b"\ntype ");
    add(rt, &mut body, kind.as_bytes());
    add(rt, &mut body, b"\ntag t\n");
    put(rt, alloc, objects, Kind::Tag, &body)
}

fn add_id(rt: &impl Abort, ids: &mut Vec<ObjectId>, id: ObjectId) {
    ids.push(id).expect(rt, "memory for an id");
}

fn put_trees(rt: &impl Abort, alloc: Global, objects: &mut ObjectList, ids: &mut Vec<ObjectId>) {
    for tree in ids.len()..TREES_END {
        let id = put_tree(rt, alloc, objects, tree, ids);
        add_id(rt, ids, id);
    }
}

// 23 is a commit of the tree 4, 24 a tag of it, 25 a tag of that tag, 26 a tag of a blob, and 27 an id
// without an object.
fn put_others(
    rt: &impl Abort,
    alloc: Global,
    objects: &mut ObjectList,
    tree: ObjectId,
    blob: ObjectId,
) -> [ObjectId; 5] {
    let commit = put_commit(rt, alloc, objects, tree, &[]);
    let tag = put_tag(rt, alloc, objects, commit, "commit");
    let tag_of_tag = put_tag(rt, alloc, objects, tag, "tag");
    let tag_of_blob = put_tag(rt, alloc, objects, blob, "blob");
    let absent = ObjectId { bytes: [7; 20] };
    [commit, tag, tag_of_tag, tag_of_blob, absent]
}

// The objects of the tables, by their numbers.
fn put_objects(rt: &impl Abort, alloc: Global, objects: &mut ObjectList) -> Vec<ObjectId> {
    let one = put(rt, alloc, objects, Kind::Blob, b"1");
    let two = put(rt, alloc, objects, Kind::Blob, b"2");
    let mut ids = Vec::new(alloc);
    for id in [ObjectId::zero(), one, two] {
        add_id(rt, &mut ids, id);
    }
    put_trees(rt, alloc, objects, &mut ids);
    let tree = id_at(rt, &ids, 4);
    for id in put_others(rt, alloc, objects, tree, one) {
        add_id(rt, &mut ids, id);
    }
    ids
}

fn print_path(rt: &impl Abort, alloc: Global, list: &PathList<'_>, place: usize, out: &mut Vec<u8>)
    requires { place < length list.now }
{
    let path = list.path(alloc, place).expect(rt, "memory for a path");
    add(rt, out, path.bytes());
    add(rt, out, b"\n");
}

fn print_list(rt: &impl Abort, alloc: Global, list: &PathList<'_>) -> Vec<u8> {
    let mut out = Vec::new(alloc);
    for place in 0..list.len() {
        print_path(rt, alloc, list, place, &mut out);
    }
    out
}

// Whether the changed paths are just these, each with a line feed behind it.
fn are_paths(rt: &impl Abort, alloc: Global, paths: &Paths<'_>, due: &[u8]) -> bool {
    match paths {
        Paths::Listed(list) => print_list(rt, alloc, list).as_slice() == due,
        Paths::TooMany | Paths::NoMemory => false,
    }
}

#[test]
fn changed_paths_come_in_byte_order(rt: HostRuntime) {
    let alloc = rt.alloc();
    let mut objects = ObjectList::new(alloc);
    let ids = put_objects(&rt, alloc, &mut objects);
    let lens = lens_of(&rt, alloc, &objects);
    for (old, new, due) in &CHANGES {
        let paths = changed_paths(alloc, &lens, id_at(&rt, &ids, *old), id_at(&rt, &ids, *new));
        assert!(rt;
            are_paths(&rt, alloc, &paths, due.as_bytes()),
            "from {old} to {new}"
        );
    }
}

// A tree that is compared with nothing. Files have names of four bytes, but where it is said.
#[derive(Clone, Copy)]
enum Shape {
    // a folder whose name has so many bytes, with one file, and a file beside it whose name has so many
    Long(usize, usize),
    // so many folders in one another, so many entries of each, all of one tree, and so many files of the last
    // one
    Nest(usize, usize, usize),
    // a folder with a name of 4,000 bytes, in which are 100 folders of one tree, of so many files
    BelowLong(usize),
}

// A tree, and how many changed paths there are; none where there are too many.
static COUNTS: [(Shape, Option<usize>); 13] = [
    // paths of 4,096 and of 4,097 bytes
    (Shape::Long(4091, 1), Some(2)),
    (Shape::Long(4092, 1), None),
    (Shape::Long(1, 4096), Some(2)),
    (Shape::Long(1, 4097), None),
    (Shape::Long(4091, 4096), Some(2)),
    (Shape::Long(5000, 1), None),
    // 131,070 and 262,142 rows
    (Shape::Nest(15, 2, 2), Some(65_536)),
    (Shape::Nest(16, 2, 2), None),
    // 200,000 and 200,001 rows
    (Shape::Nest(1, 100, 1999), Some(199_900)),
    (Shape::Nest(1, 409, 488), None),
    // paths of more than 4,096 bytes, before there are so many rows
    (Shape::Nest(2000, 2, 1), None),
    // 199,901 rows, and 200,001
    (Shape::BelowLong(1998), Some(199_800)),
    (Shape::BelowLong(1999), None),
];

// An entry whose name is a letter, so many times.
fn add_long_entry(
    rt: &impl Abort,
    alloc: Global,
    body: &mut Vec<u8>,
    mode: &str,
    name: (u8, usize),
    id: ObjectId,
) {
    let name = vec![in alloc; name.0; name.1].expect(rt, "memory for a name");
    add_entry(rt, body, mode, &name, id);
}

fn put_long(
    rt: &impl Abort,
    alloc: Global,
    objects: &mut ObjectList,
    folder: usize,
    file: usize,
) -> ObjectId {
    let blob = put(rt, alloc, objects, Kind::Blob, b"1");
    let below = put_wide(rt, alloc, objects, "100644", 1, blob);
    let mut body = Vec::new(alloc);
    add_long_entry(rt, alloc, &mut body, "40000", (b'a', folder), below);
    add_long_entry(rt, alloc, &mut body, "100644", (b'b', file), blob);
    put(rt, alloc, objects, Kind::Tree, &body)
}

// A tree of so many entries of one mode that name one object; their names are numbers.
fn put_wide(
    rt: &impl Abort,
    alloc: Global,
    objects: &mut ObjectList,
    mode: &str,
    count: usize,
    id: ObjectId,
) -> ObjectId {
    let mut body = Vec::new(alloc);
    for number in 1000..count.saturating_add(1000) {
        let name = format!(in alloc; "{number}").expect(rt, "memory for a name");
        add_entry(rt, &mut body, mode, name.as_bytes(), id);
    }
    put(rt, alloc, objects, Kind::Tree, &body)
}

fn put_nest(
    rt: &impl Abort,
    alloc: Global,
    objects: &mut ObjectList,
    deep: usize,
    wide: usize,
    files: usize,
) -> ObjectId {
    let blob = put(rt, alloc, objects, Kind::Blob, b"1");
    let mut tree = put_wide(rt, alloc, objects, "100644", files, blob);
    for _ in 0..deep {
        tree = put_wide(rt, alloc, objects, "40000", wide, tree);
    }
    tree
}

fn put_below_long(
    rt: &impl Abort,
    alloc: Global,
    objects: &mut ObjectList,
    files: usize,
) -> ObjectId {
    let below = put_nest(rt, alloc, objects, 1, 100, files);
    let mut body = Vec::new(alloc);
    add_long_entry(rt, alloc, &mut body, "40000", (b'a', 4000), below);
    put(rt, alloc, objects, Kind::Tree, &body)
}

fn put_shape(rt: &impl Abort, alloc: Global, objects: &mut ObjectList, shape: Shape) -> ObjectId {
    match shape {
        Shape::Long(folder, file) => put_long(rt, alloc, objects, folder, file),
        Shape::Nest(deep, wide, files) => put_nest(rt, alloc, objects, deep, wide, files),
        Shape::BelowLong(files) => put_below_long(rt, alloc, objects, files),
    }
}

// Whether so many paths are changed; or too many, where none is due.
fn is_count(paths: &Paths<'_>, due: Option<usize>) -> bool {
    match paths {
        Paths::Listed(list) => due == Some(list.len()),
        Paths::TooMany => due.is_none(),
        Paths::NoMemory => false,
    }
}

fn check_count(rt: &impl Abort, alloc: Global, shape: Shape, due: Option<usize>) {
    let mut objects = ObjectList::new(alloc);
    let tree = put_shape(rt, alloc, &mut objects, shape);
    let lens = lens_of(rt, alloc, &objects);
    let paths = changed_paths(alloc, &lens, ObjectId::zero(), tree);
    assert!(rt; is_count(&paths, due), "{due:?}");
}

#[test]
fn changed_paths_are_counted(rt: HostRuntime) {
    for (shape, due) in &COUNTS {
        check_count(&rt, rt.alloc(), *shape, *due);
    }
}

const FILES: usize = 40;

// Trees of 40 files each: which of the files name another blob, by bits. Some trees differ in one file, some
// in many.
static OTHERS: [u64; 12] = [
    0,
    0b1,
    0b10,
    0b100,
    0b11,
    0x80_0000_0000,
    0xff,
    0xff_ffff_ffff,
    0x7f_ffff_ffff,
    0x55_5555_5555,
    0xaa_aaaa_aaaa,
    0x100,
];

fn put_files(
    rt: &impl Abort,
    alloc: Global,
    objects: &mut ObjectList,
    blobs: (ObjectId, ObjectId),
    others: u64,
) -> ObjectId {
    let mut body = Vec::new(alloc);
    for number in 0..FILES {
        let name = format!(in alloc; "{:02}", number).expect(rt, "memory for a name");
        let id = if (others >> number) & 1 == 1 {
            blobs.1
        } else {
            blobs.0
        };
        add_entry(rt, &mut body, "100644", name.as_bytes(), id);
    }
    put(rt, alloc, objects, Kind::Tree, &body)
}

fn put_all_files(rt: &impl Abort, alloc: Global, objects: &mut ObjectList) -> Vec<ObjectId> {
    let one = put(rt, alloc, objects, Kind::Blob, b"1");
    let two = put(rt, alloc, objects, Kind::Blob, b"2");
    let mut trees = Vec::new(alloc);
    for others in &OTHERS {
        let tree = put_files(rt, alloc, objects, (one, two), *others);
        add_id(rt, &mut trees, tree);
    }
    trees
}

// A tree with a folder for each pair of trees, in which the first of the pair is, or the second.
fn put_pairs(
    rt: &impl Abort,
    alloc: Global,
    objects: &mut ObjectList,
    trees: &[ObjectId],
    is_first: bool,
) -> ObjectId {
    let mut body = Vec::new(alloc);
    for pair in 0..OTHERS.len() * OTHERS.len() {
        let tree = if is_first {
            pair / OTHERS.len()
        } else {
            pair % OTHERS.len()
        };
        let name = format!(in alloc; "{:03}", pair).expect(rt, "memory for a name");
        let id = id_at(rt, trees, tree);
        add_entry(rt, &mut body, "40000", name.as_bytes(), id);
    }
    put(rt, alloc, objects, Kind::Tree, &body)
}

// The paths at which the trees of a pair differ.
fn add_due_of_pair(rt: &impl Abort, alloc: Global, due: &mut Vec<u8>, pair: usize) {
    let one = OTHERS.get(pair / OTHERS.len()).copied().unwrap_or(0);
    let other = OTHERS.get(pair % OTHERS.len()).copied().unwrap_or(0);
    for number in 0..FILES {
        if (one >> number) & 1 != (other >> number) & 1 {
            let path = format!(in alloc; "{:03}/{:02}\n", pair, number);
            add(rt, due, path.expect(rt, "memory for a path").as_bytes());
        }
    }
}

fn due_of_pairs(rt: &impl Abort, alloc: Global) -> Vec<u8> {
    let mut due = Vec::new(alloc);
    for pair in 0..OTHERS.len() * OTHERS.len() {
        add_due_of_pair(rt, alloc, &mut due, pair);
    }
    due
}

// Twelve trees are each compared with each, many of them by others.
#[test]
fn trees_are_compared_by_others(rt: HostRuntime) {
    let alloc = rt.alloc();
    let mut objects = ObjectList::new(alloc);
    let trees = put_all_files(&rt, alloc, &mut objects);
    let old = put_pairs(&rt, alloc, &mut objects, &trees, true);
    let new = put_pairs(&rt, alloc, &mut objects, &trees, false);
    let lens = lens_of(&rt, alloc, &objects);
    let paths = changed_paths(alloc, &lens, old, new);
    let due = due_of_pairs(&rt, alloc);
    assert!(rt; are_paths(&rt, alloc, &paths, &due));
}
