//! Changes of refs under small confs, with what the rules say of them worked out by hand.

use access_check::{Request, denial_text};
use ancestry::Known;
use conf_groups::{ConfFile, FileList};
use git_object::{Kind, MAX_BODY, Object, ObjectId, ObjectList};
use ref_store::Repo;
use std::alloc::Global;
use std::process::Abort;
use update_check::{
    Command, Lens, Policy, Refusal, RepoName, Text, UpdateCheck, UserName, Verdict, Wild, hold_laws,
};
use vref::facts_of;

// Objects are numbered: 0 is zero, 1 and 2 are these blobs, then come trees, commits, two commits of deep
// trees, and a tag.
static BLOBS: [&str; 2] = ["one", "two"];

// The entries of trees: the tree, a mode, a name, and what it names. Tree 3 is empty.
static ENTRIES: [(usize, &str, &str, usize); 13] = [
    (4, "100644", "Makefile", 1),
    (5, "100644", "Makefile", 2),
    (6, "100644", "a.c", 1),
    (7, "100644", "a.c", 2),
    (8, "100644", "Makefile", 1),
    (8, "100644", "Makefile.am", 1),
    (9, "100644", "Makefile", 1),
    (9, "40000", "src", 6),
    (10, "100644", "Makefile", 1),
    (10, "40000", "src", 7),
    (11, "100644", "Makefile", 2),
    (11, "120000", "src", 1),
    (11, "100644", "src-x", 1),
];

const TREES_END: usize = 12;

// The tree of each commit, and its parents, of which zero is none.
static COMMITS: [(usize, usize, usize); 9] = [
    (4, 0, 0),
    // children of it: `Makefile` changed, removed, `Makefile.am` added, `src/a.c` added, nothing changed
    (5, 12, 0),
    (3, 12, 0),
    (8, 12, 0),
    (9, 12, 0),
    (4, 12, 0),
    // `src/a.c` changed
    (10, 16, 0),
    // a merge, by which `src/a.c` comes in
    (9, 17, 16),
    // a link in place of the folder, a file beside it, and `Makefile` changed
    (11, 18, 0),
];

const BASE: usize = 12;

const CHANGED: usize = 13;

const REMOVED: usize = 14;

const ADDED_BESIDE: usize = 15;

const SOURCE: usize = 16;

const SAME: usize = 17;

const SOURCE_CHANGED: usize = 18;

const MERGE: usize = 19;

const LINKED: usize = 20;

// commits of trees that are 16 and 17 deep, each with two entries of the next, and a tag of the first commit
const DEEP: usize = 21;

const TOO_DEEP: usize = 22;

const TAG: usize = 23;

fn put(
    rt: &impl Abort,
    alloc: Global,
    objects: &mut ObjectList,
    kind: Kind,
    body: &[u8],
) -> ObjectId {
    assert!(rt; body.len() <= MAX_BODY);
    let object = Object::parse(alloc, kind, body).expect(rt, "a body of its form");
    let name = object.name();
    objects.push(object).expect(rt, "memory for an object");
    name
}

fn id_at(rt: &impl Abort, ids: &[ObjectId], number: usize) -> ObjectId {
    *ids.get(number).expect(rt, "an object of the tables")
}

fn add_id(rt: &impl Abort, ids: &mut Vec<ObjectId>, id: ObjectId) {
    ids.push(id).expect(rt, "memory for an id");
}

fn add(rt: &impl Abort, body: &mut Vec<u8>, bytes: &[u8]) {
    body.extend_from_slice(bytes)
        .expect(rt, "memory for a body");
}

fn add_entry(rt: &impl Abort, body: &mut Vec<u8>, mode: &str, name: &str, id: ObjectId) {
    add(rt, body, mode.as_bytes());
    add(rt, body, b" ");
    add(rt, body, name.as_bytes());
    add(rt, body, b"\0");
    add(rt, body, &id.bytes);
}

fn add_line(rt: &impl Abort, body: &mut Vec<u8>, word: &[u8], id: ObjectId) {
    add(rt, body, word);
    add(rt, body, &id.hex());
    add(rt, body, b"\n");
}

fn put_tree(
    rt: &impl Abort,
    alloc: Global,
    objects: &mut ObjectList,
    tree: usize,
    ids: &[ObjectId],
) -> ObjectId {
    let mut body = Vec::new(alloc);
    for (of, mode, name, named) in &ENTRIES {
        if *of == tree {
            let id = id_at(rt, ids, *named);
            add_entry(rt, &mut body, mode, name, id);
        }
    }
    put(rt, alloc, objects, Kind::Tree, &body)
}

fn put_commit(
    rt: &impl Abort,
    alloc: Global,
    objects: &mut ObjectList,
    tree: ObjectId,
    parents: [ObjectId; 2],
) -> ObjectId {
    let mut body = Vec::new(alloc);
    add_line(rt, &mut body, b"tree ", tree);
    for parent in parents {
        if parent != ObjectId::zero() {
            add_line(rt, &mut body, b"parent ", parent);
        }
    }
    put(rt, alloc, objects, Kind::Commit, &body)
}

// A tree with two entries of what is next.
fn put_twice(
    rt: &impl Abort,
    alloc: Global,
    objects: &mut ObjectList,
    mode: &str,
    next: ObjectId,
) -> ObjectId {
    let mut body = Vec::new(alloc);
    add_entry(rt, &mut body, mode, "a", next);
    add_entry(rt, &mut body, mode, "b", next);
    put(rt, alloc, objects, Kind::Tree, &body)
}

// A commit of a tree that is so deep: each tree has two entries of the next, the last of a blob.
fn put_deep(
    rt: &impl Abort,
    alloc: Global,
    objects: &mut ObjectList,
    blob: ObjectId,
    depth: usize,
) -> ObjectId {
    let mut next = blob;
    let mut mode = "100644";
    for _ in 0..depth {
        next = put_twice(rt, alloc, objects, mode, next);
        mode = "40000";
    }
    put_commit(rt, alloc, objects, next, [ObjectId::zero(); 2])
}

fn put_tag(rt: &impl Abort, alloc: Global, objects: &mut ObjectList, commit: ObjectId) -> ObjectId {
    let mut body = Vec::new(alloc);
    add_line(rt, &mut body, b"object ", commit);
    add(rt, &mut body, b"type commit\ntag t\n");
    put(rt, alloc, objects, Kind::Tag, &body)
}

fn put_blobs(rt: &impl Abort, alloc: Global, objects: &mut ObjectList, ids: &mut Vec<ObjectId>) {
    for text in &BLOBS {
        let id = put(rt, alloc, objects, Kind::Blob, text.as_bytes());
        add_id(rt, ids, id);
    }
}

fn put_trees(rt: &impl Abort, alloc: Global, objects: &mut ObjectList, ids: &mut Vec<ObjectId>) {
    for tree in ids.len()..TREES_END {
        let id = put_tree(rt, alloc, objects, tree, ids);
        add_id(rt, ids, id);
    }
}

fn put_commits(rt: &impl Abort, alloc: Global, objects: &mut ObjectList, ids: &mut Vec<ObjectId>) {
    for (tree, first, second) in &COMMITS {
        let parents = [id_at(rt, ids, *first), id_at(rt, ids, *second)];
        let tree = id_at(rt, ids, *tree);
        let id = put_commit(rt, alloc, objects, tree, parents);
        add_id(rt, ids, id);
    }
}

// The deep commits, and the tag.
fn put_others(rt: &impl Abort, alloc: Global, objects: &mut ObjectList, ids: &mut Vec<ObjectId>) {
    let blob = id_at(rt, ids, 1);
    for depth in [16, 17] {
        let id = put_deep(rt, alloc, objects, blob, depth);
        add_id(rt, ids, id);
    }
    let commit = id_at(rt, ids, BASE);
    let tag = put_tag(rt, alloc, objects, commit);
    add_id(rt, ids, tag);
}

// The objects of the tables, and their ids by their numbers.
fn put_objects(rt: &impl Abort, alloc: Global, objects: &mut ObjectList) -> Vec<ObjectId> {
    let mut ids = Vec::new(alloc);
    add_id(rt, &mut ids, ObjectId::zero());
    put_blobs(rt, alloc, objects, &mut ids);
    put_trees(rt, alloc, objects, &mut ids);
    put_commits(rt, alloc, objects, &mut ids);
    put_others(rt, alloc, objects, &mut ids);
    ids
}

fn lens_of(rt: &impl Abort, alloc: Global, objects: &ObjectList) -> Lens {
    let repo = Repo::empty(alloc).expect(rt, "memory for a repository");
    Lens::new(alloc, &repo, objects).expect(rt, "memory for a lens")
}

fn text_of(rt: &impl Abort, alloc: Global, text: &str) -> Text {
    Text::of(alloc, text.as_bytes()).expect(rt, "memory for a text")
}

fn user(rt: &impl Abort, alloc: Global, name: &str) -> UserName {
    let name = UserName::parse(alloc, name.as_bytes()).expect(rt, "memory for a name");
    name.expect(rt, "a user's name")
}

fn repo(rt: &impl Abort, alloc: Global, name: &str) -> RepoName {
    let name = RepoName::parse(alloc, name.as_bytes()).expect(rt, "memory for a name");
    name.expect(rt, "a repository's name")
}

// The text of a conf, with `;` for a line feed.
fn conf_text(rt: &impl Abort, alloc: Global, conf: &str) -> Vec<u8> {
    let mut text = Vec::new(alloc);
    for byte in conf.as_bytes() {
        let byte = if *byte == b';' { b'\n' } else { *byte };
        text.push(byte).expect(rt, "memory for a conf");
    }
    text
}

fn files_of(rt: &impl Abort, alloc: Global, conf: &str) -> FileList {
    let mut files = FileList::new(alloc);
    let name = text_of(rt, alloc, "gitolite.conf");
    let text = Text::from(conf_text(rt, alloc, conf));
    files
        .push(ConfFile { name, text })
        .expect(rt, "memory for a file");
    files
}

fn policy_of(rt: &impl Abort, alloc: Global, conf: &str) -> Policy {
    let files = files_of(rt, alloc, conf);
    let policy = Policy::compile(alloc, &files).ok();
    policy.expect(rt, "a conf without a fault")
}

// Who asks in which repository.
#[derive(Drop)]
struct Asked {
    asker: UserName,
    name: RepoName,
    wild: Wild,
}

// The repository is `t`, which has no creator; or `al/x`, which al made, where bob is a writer.
fn wild_of(rt: &impl Abort, alloc: Global, name: &str) -> Wild {
    if name == "t" {
        return Wild::plain(alloc);
    }
    let creator = user(rt, alloc, "al");
    let mut wild = Wild::born(alloc, user(rt, alloc, "al"));
    let _answer = wild.grant(&creator, b"WRITERS", &user(rt, alloc, "bob"), true);
    wild
}

fn asked_by(rt: &impl Abort, alloc: Global, asker: &str, name: &str) -> Asked {
    Asked {
        asker: user(rt, alloc, asker),
        name: repo(rt, alloc, name),
        wild: wild_of(rt, alloc, name),
    }
}

// Whether this is the text of a denial.
fn is_denied(
    alloc: Global,
    policy: &Policy,
    asked: &Asked,
    verdict: Verdict,
    request: &Request<'_>,
    due: &[u8],
) -> bool {
    match denial_text(
        alloc,
        request,
        &asked.name,
        &asked.asker,
        verdict.rule(policy),
    ) {
        Ok(text) => text.bytes() == due,
        Err(_) => false,
    }
}

// Whether this is told of a refusal.
fn is_told(
    alloc: Global,
    policy: &Policy,
    asked: &Asked,
    refusal: &Option<Refusal>,
    due: &str,
) -> bool {
    match refusal {
        Some(
            Refusal::Denied {
                verdict,
                letter,
                name,
            },
        ) => {
            let request = Request::Change(*letter, name.bytes());
            is_denied(alloc, policy, asked, *verdict, &request, due.as_bytes())
        }
        Some(Refusal::ManyPaths) => due == "too many paths",
        None => due.is_empty(),
    }
}

// Who changes which ref, from which object to which.
type Change = (&'static str, &'static str, usize, usize);

// The conf, the repository, the change, and the text of the refusal that is due, which is empty where there
// is none.
type Row = (&'static str, &'static str, Change, &'static str);

fn command_of(rt: &impl Abort, alloc: Global, ids: &[ObjectId], change: Change) -> Command {
    let (_, name, old, new) = change;
    Command {
        old: id_at(rt, ids, old),
        new: id_at(rt, ids, new),
        name: text_of(rt, alloc, name),
    }
}

// Why a change isn't let be made, if it isn't, asked twice of one check: what is said of paths is kept for
// the second time.
fn refusals_of(
    rt: &impl Abort,
    alloc: Global,
    lens: &Lens,
    policy: &Policy,
    asked: &Asked,
    change: &Command,
) -> (Option<Refusal>, Option<Refusal>) {
    let known = Known::nothing(alloc);
    let facts = facts_of(
        alloc,
        lens,
        &known,
        change.name.bytes(),
        change.old,
        change.new,
    );
    let facts = facts.expect(rt, "memory for facts");
    let mut check = UpdateCheck::new(alloc, policy, &asked.wild, &asked.name, &asked.asker, lens);
    let found = check.refusal(alloc, &facts, change);
    let found = found.expect(rt, "memory for a refusal");
    let again = check.refusal(alloc, &facts, change);
    (found, again.expect(rt, "memory for a refusal"))
}

// Whether a change comes to the text that is due.
fn is_answered(
    rt: &impl Abort,
    alloc: Global,
    lens: &Lens,
    policy: &Policy,
    asked: &Asked,
    change: &Command,
    due: &str,
) -> bool {
    let (found, again) = refusals_of(rt, alloc, lens, policy, asked, change);
    is_told(alloc, policy, asked, &found, due) && is_told(alloc, policy, asked, &again, due)
}

fn check_under(
    rt: &impl Abort,
    alloc: Global,
    lens: &Lens,
    ids: &[ObjectId],
    policy: &Policy,
    row: &Row,
) {
    let (conf, name, change, due) = *row;
    let asked = asked_by(rt, alloc, change.0, name);
    let change = command_of(rt, alloc, ids, change);
    let is_due = is_answered(rt, alloc, lens, policy, &asked, &change, due);
    assert!(rt; is_due, "{conf}: {due}");
}

fn check_row(rt: &impl Abort, alloc: Global, lens: &Lens, ids: &[ObjectId], row: &Row) {
    let policy = policy_of(rt, alloc, row.0);
    check_under(rt, alloc, lens, ids, &policy, row);
}

const FIRST: &str = "repo t;RW master$ = dev;- master = dev;RW+ = dev";

const CREATES: &str = "repo t;RWC = ann;RW = bob";

const DELETES: &str = "repo t;RW+ = ann;RWD = bob";

const MERGES: &str = "repo t;RW+M master = ann;RW = bob";

const PERSONAL: &str = "repo t;RW+ personal/USER/ = @all";

const ROLES: &str = "repo CREATOR/[a-z]+;RW+ = CREATOR;RW = WRITERS";

static REFS: [Row; 21] = [
    (FIRST, "t", ("dev", "refs/heads/master", 0, BASE), ""),
    (
        FIRST,
        "t",
        ("dev", "refs/heads/master2", 0, BASE),
        "W refs/heads/master2 t dev DENIED by refs/heads/master (gitolite.conf line 3)",
    ),
    (FIRST, "t", ("dev", "refs/heads/topic", 0, BASE), ""),
    (FIRST, "t", ("dev", "refs/heads/topic", CHANGED, BASE), ""),
    (
        FIRST,
        "t",
        ("dev", "refs/heads/master", CHANGED, BASE),
        "+ refs/heads/master t dev DENIED by refs/heads/master (gitolite.conf line 3)",
    ),
    (
        CREATES,
        "t",
        ("bob", "refs/heads/x", 0, BASE),
        "C refs/heads/x t bob DENIED by fallthru",
    ),
    (CREATES, "t", ("ann", "refs/heads/x", 0, BASE), ""),
    (CREATES, "t", ("bob", "refs/heads/x", BASE, CHANGED), ""),
    (
        CREATES,
        "t",
        ("zoe", "refs/heads/x", BASE, CHANGED),
        "W refs/heads/x t zoe DENIED by fallthru",
    ),
    (
        DELETES,
        "t",
        ("ann", "refs/heads/x", BASE, 0),
        "D refs/heads/x t ann DENIED by fallthru",
    ),
    (DELETES, "t", ("bob", "refs/heads/x", BASE, 0), ""),
    (DELETES, "t", ("ann", "refs/tags/v1", BASE, CHANGED), ""),
    (
        DELETES,
        "t",
        ("bob", "refs/tags/v1", BASE, CHANGED),
        "+ refs/tags/v1 t bob DENIED by fallthru",
    ),
    (
        DELETES,
        "t",
        ("bob", "refs/x/y", BASE, TAG),
        "+ refs/x/y t bob DENIED by fallthru",
    ),
    (
        MERGES,
        "t",
        ("bob", "refs/heads/topic", SAME, MERGE),
        "WM refs/heads/topic t bob DENIED by fallthru",
    ),
    (MERGES, "t", ("bob", "refs/heads/new", 0, MERGE), ""),
    (MERGES, "t", ("ann", "refs/heads/master", SAME, MERGE), ""),
    (
        PERSONAL,
        "t",
        ("cal", "refs/heads/personal/ann/x", 0, BASE),
        "W refs/heads/personal/ann/x t cal DENIED by fallthru",
    ),
    (
        PERSONAL,
        "t",
        ("cal", "refs/heads/personal/cal/x", 0, BASE),
        "",
    ),
    (ROLES, "al/x", ("bob", "refs/heads/x", BASE, CHANGED), ""),
    (
        ROLES,
        "al/x",
        ("bob", "refs/heads/x", CHANGED, BASE),
        "+ refs/heads/x al/x bob DENIED by fallthru",
    ),
];

const MAKEFILE: &str = "repo t;- VREF/NAME/Makefile = jo;RW+ = jo;RW+ = ann";

const ONLY_SOURCE: &str = "repo t;RW NAME/src/ = jo;- NAME/ = jo;RW = jo";

const ANY_PATH: &str = "repo t;- NAME/ = jo;RW+ = jo";

const LINK: &str = "repo t;- NAME/src$ = jo;RW+ = jo";

static PATHS: [Row; 17] = [
    (
        MAKEFILE,
        "t",
        ("jo", "refs/heads/x", BASE, CHANGED),
        "W VREF/NAME/Makefile t jo DENIED by VREF/NAME/Makefile (gitolite.conf line 2)",
    ),
    (
        MAKEFILE,
        "t",
        ("jo", "refs/heads/x", BASE, REMOVED),
        "W VREF/NAME/Makefile t jo DENIED by VREF/NAME/Makefile (gitolite.conf line 2)",
    ),
    (
        MAKEFILE,
        "t",
        ("jo", "refs/heads/x", BASE, ADDED_BESIDE),
        "W VREF/NAME/Makefile.am t jo DENIED by VREF/NAME/Makefile (gitolite.conf line 2)",
    ),
    (MAKEFILE, "t", ("jo", "refs/heads/x", BASE, SOURCE), ""),
    (MAKEFILE, "t", ("ann", "refs/heads/x", BASE, CHANGED), ""),
    // a create and a delete are compared with nothing
    (
        MAKEFILE,
        "t",
        ("jo", "refs/heads/x", 0, SOURCE),
        "W VREF/NAME/Makefile t jo DENIED by VREF/NAME/Makefile (gitolite.conf line 2)",
    ),
    (
        MAKEFILE,
        "t",
        ("jo", "refs/heads/x", SOURCE, 0),
        "+ VREF/NAME/Makefile t jo DENIED by VREF/NAME/Makefile (gitolite.conf line 2)",
    ),
    (MAKEFILE, "t", ("jo", "refs/heads/x", 0, REMOVED), ""),
    // a tag stands for its commit, which has the same tree
    (MAKEFILE, "t", ("jo", "refs/tags/v", SAME, TAG), ""),
    (
        ONLY_SOURCE,
        "t",
        ("jo", "refs/heads/x", SOURCE, SOURCE_CHANGED),
        "",
    ),
    (
        ONLY_SOURCE,
        "t",
        ("jo", "refs/heads/x", BASE, CHANGED),
        "W VREF/NAME/Makefile t jo DENIED by VREF/NAME/ (gitolite.conf line 3)",
    ),
    // the first path in byte order, and no folder
    (
        ANY_PATH,
        "t",
        ("jo", "refs/heads/x", CHANGED, SOURCE),
        "+ VREF/NAME/Makefile t jo DENIED by VREF/NAME/ (gitolite.conf line 2)",
    ),
    (
        ANY_PATH,
        "t",
        ("jo", "refs/heads/x", BASE, SOURCE),
        "W VREF/NAME/src/a.c t jo DENIED by VREF/NAME/ (gitolite.conf line 2)",
    ),
    (ANY_PATH, "t", ("jo", "refs/heads/x", BASE, SAME), ""),
    (LINK, "t", ("jo", "refs/heads/x", BASE, SOURCE), ""),
    (
        LINK,
        "t",
        ("jo", "refs/heads/x", SOURCE_CHANGED, LINKED),
        "W VREF/NAME/src t jo DENIED by VREF/NAME/src$ (gitolite.conf line 2)",
    ),
    // the ref comes first
    (
        ANY_PATH,
        "t",
        ("zoe", "refs/heads/x", BASE, SOURCE),
        "W refs/heads/x t zoe DENIED by fallthru",
    ),
];

const MERGE_CHECK: &str = "repo t;- VREF/MERGE-CHECK/master = bob;RW = bob";

const BOTH: &str = "repo t;- NAME/ = bob;- VREF/MERGE-CHECK/ = bob;RW = bob";

static MERGED: [Row; 6] = [
    (
        MERGE_CHECK,
        "t",
        ("bob", "refs/heads/master", SAME, MERGE),
        "W VREF/MERGE-CHECK/refs/heads/master t bob DENIED by VREF/MERGE-CHECK/refs/heads/master (gitolite.conf line 2)",
    ),
    (
        MERGE_CHECK,
        "t",
        ("bob", "refs/heads/topic", SAME, MERGE),
        "",
    ),
    (MERGE_CHECK, "t", ("bob", "refs/heads/master", 0, MERGE), ""),
    (
        MERGE_CHECK,
        "t",
        ("bob", "refs/heads/master", BASE, SOURCE),
        "",
    ),
    // the merge check comes before changed paths
    (
        BOTH,
        "t",
        ("bob", "refs/heads/x", SAME, MERGE),
        "W VREF/MERGE-CHECK/refs/heads/x t bob DENIED by VREF/MERGE-CHECK/refs/heads/ (gitolite.conf line 3)",
    ),
    (
        BOTH,
        "t",
        ("bob", "refs/heads/x", SAME, SOURCE),
        "+ refs/heads/x t bob DENIED by fallthru",
    ),
];

const NEVER: &str = "repo t;- VREF/NAME/x$ = bob;RW = bob";

static DEEP_ROWS: [Row; 4] = [
    (NEVER, "t", ("bob", "refs/heads/x", 0, DEEP), ""),
    (
        NEVER,
        "t",
        ("bob", "refs/heads/x", 0, TOO_DEEP),
        "too many paths",
    ),
    (
        NEVER,
        "t",
        ("ann", "refs/heads/x", 0, TOO_DEEP),
        "W refs/heads/x t ann DENIED by fallthru",
    ),
    // no rule asks for paths
    (CREATES, "t", ("ann", "refs/heads/x", 0, TOO_DEEP), ""),
];

fn check_rows(rt: &impl Abort, alloc: Global, rows: &[Row]) {
    let mut objects = ObjectList::new(alloc);
    let ids = put_objects(rt, alloc, &mut objects);
    let lens = lens_of(rt, alloc, &objects);
    for row in rows {
        check_row(rt, alloc, &lens, &ids, row);
    }
}

#[test]
fn changes_are_answered(rt: HostRuntime) {
    hold_laws();
    check_rows(&rt, rt.alloc(), &REFS);
    check_rows(&rt, rt.alloc(), &PATHS);
    check_rows(&rt, rt.alloc(), &MERGED);
}

// Apart from the others, since it goes over 400,000 rows.
#[test]
fn too_many_paths_are_refused(rt: HostRuntime) {
    check_rows(&rt, rt.alloc(), &DEEP_ROWS);
}
