// Packs for pushes.
use git_object::{Kind, MAX_BODY, Object, ObjectId, ObjectList};
use std::alloc::Global;
use std::process::Abort;

// An object whose body is these parts.
fn put(
    rt: &impl Abort,
    alloc: Global,
    pack: &mut ObjectList,
    kind: Kind,
    parts: &[&[u8]],
) -> ObjectId {
    let mut body = Vec::new(alloc);
    for part in parts {
        body.extend_from_slice(part).expect(rt, "memory for a body");
    }
    assert!(rt; body.len() <= MAX_BODY);
    let object = Object::parse(alloc, kind, &body).expect(rt, "a body of its form");
    let name = object.name();
    pack.push(object).expect(rt, "memory for an object");
    name
}

// A tree with this conf: the admin's own rule, and this behind it.
fn put_conf(rt: &impl Abort, alloc: Global, pack: &mut ObjectList, text: &str) -> ObjectId {
    let main = b"repo gitolite-admin\n    RW+ = ann\n".as_slice();
    let file = put(rt, alloc, pack, Kind::Blob, &[main, text.as_bytes()]);
    let entry = [b"100644 gitolite.conf\0".as_slice(), file.bytes.as_slice()];
    let folder = put(rt, alloc, pack, Kind::Tree, &entry);
    let entry = [b"40000 conf\0".as_slice(), folder.bytes.as_slice()];
    put(rt, alloc, pack, Kind::Tree, &entry)
}

fn put_tree(rt: &impl Abort, alloc: Global, pack: &mut ObjectList, text: &str) -> ObjectId {
    if text.is_empty() {
        return put(rt, alloc, pack, Kind::Tree, &[]);
    }
    put_conf(rt, alloc, pack, text)
}

/// A pack of a commit with this conf, or with no file where there is no text, and the commit's name.
pub fn pack_of(rt: &impl Abort, alloc: Global, text: &str, letter: u8) -> (ObjectList, ObjectId) {
    let mut pack = ObjectList::new(alloc);
    let tree = put_tree(rt, alloc, &mut pack, text);
    // without parents, and with the letter as its message
    let id = tree.hex();
    let message = [letter];
    let parts = [
        b"tree ".as_slice(),
        id.as_slice(),
        b"\nauthor a <a> 0 +0000\ncommitter a <a> 0 +0000\n\n".as_slice(),
        message.as_slice(),
    ];
    let commit = put(rt, alloc, &mut pack, Kind::Commit, &parts);
    (pack, commit)
}
