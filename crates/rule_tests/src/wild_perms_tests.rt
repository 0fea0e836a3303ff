//! Roles that are given, taken and listed, whose answers were worked out by hand from the rules.

use std::alloc::Global;
use std::process::Abort;
use std::test::Fail;
use wild_perms::{PermsAnswer, RoleEntry, UserName, Wild};

// Who asks; what is asked, as in a session, and of which role and user (of a listing neither counts); the
// answer's number; and what is listed, each entry a role and a user with a space between and a comma behind.
type Row = (
    &'static str,
    &'static str,
    &'static str,
    &'static str,
    u8,
    &'static str,
);

// In a repository that alice created, one behind the other.
static OF_ALICE: [Row; 18] = [
    ("alice", "-l", "", "bob", 6, ""),
    ("alice", "+", "READERS", "bob", 1, ""),
    ("alice", "+", "READERS", "bob", 2, ""),
    ("alice", "+", "WRITERS", "bob", 1, ""),
    ("alice", "+", "READERS", "al", 1, ""),
    ("alice", "+", "READERS", "carol", 1, ""),
    ("alice", "+", "OWNERS", "bob", 5, ""),
    ("bob", "+", "OWNERS", "bob", 5, ""),
    ("bob", "+", "READERS", "carol", 4, ""),
    ("bob", "-", "READERS", "bob", 4, ""),
    ("bob", "-l", "", "bob", 4, ""),
    (
        "alice",
        "-l",
        "",
        "bob",
        6,
        "READERS al,READERS bob,READERS carol,WRITERS bob,",
    ),
    ("alice", "-", "READERS", "bob", 1, ""),
    ("alice", "-", "READERS", "bob", 2, ""),
    ("alice", "-", "READER", "al", 5, ""),
    ("alice", "+", "TESTERS", "bob", 1, ""),
    ("alice", "-", "TESTERS", "bob", 1, ""),
    (
        "alice",
        "-l",
        "",
        "bob",
        6,
        "READERS al,READERS carol,WRITERS bob,",
    ),
];

// In one that nobody created.
static OF_NOBODY: [Row; 4] = [
    ("alice", "+", "READERS", "bob", 3, ""),
    ("alice", "-", "WRITERS", "bob", 3, ""),
    ("alice", "+", "CREATOR", "bob", 5, ""),
    ("alice", "-l", "", "bob", 3, ""),
];

fn user(alloc: Global, name: &str) -> Option<UserName> {
    match UserName::parse(alloc, name.as_bytes()) {
        Ok(name) => name,
        Err(_) => None,
    }
}

// The roles that are declared for both repositories.
fn is_declared(role: &str) -> bool {
    role == "READERS" || role == "WRITERS" || role == "TESTERS"
}

fn ask(wild: &mut Wild, row: &Row, asker: &UserName, user: &UserName) -> PermsAnswer {
    let declared = is_declared(row.2);
    match row.1 {
        "+" => wild.grant(asker, row.2.as_bytes(), user, declared),
        "-" => wild.revoke(asker, row.2.as_bytes(), user, declared),
        _ => wild.list(asker),
    }
}

// What follows an entry in the text of a list; none where it isn't the next there.
fn behind<'a>(text: &'a [u8], entry: &RoleEntry) -> Option<&'a [u8]> {
    text.strip_prefix(entry.role.bytes())?
        .strip_prefix(b" ".as_slice())?
        .strip_prefix(entry.user.bytes())?
        .strip_prefix(b",".as_slice())
}

fn are_listed(roles: &[RoleEntry], text: &[u8]) -> bool {
    let mut rest = text;
    for entry in roles {
        match behind(rest, entry) {
            Some(next) => rest = next,
            None => return false,
        }
    }
    rest.is_empty()
}

// Whether just this is listed by an answer; others list nothing.
fn is_listed(answer: &PermsAnswer, text: &[u8]) -> bool {
    match answer {
        PermsAnswer::Listed(roles) => are_listed(roles.as_slice(), text),
        _ => text.is_empty(),
    }
}

fn is_due(answer: &PermsAnswer, row: &Row) -> bool {
    answer.number() == row.4 && is_listed(answer, row.5.as_bytes())
}

fn is_answered_to(alloc: Global, wild: &mut Wild, row: &Row, asker: &UserName) -> bool {
    match user(alloc, row.3) {
        Some(user) => is_due(&ask(wild, row, asker, &user), row),
        None => false,
    }
}

fn is_answered(alloc: Global, wild: &mut Wild, row: &Row) -> bool {
    match user(alloc, row.0) {
        Some(asker) => is_answered_to(alloc, wild, row, &asker),
        None => false,
    }
}

// What the rows of alice leave.
fn has_what_is_left(wild: &Wild, alice: &UserName, bob: &UserName) -> bool {
    wild.holds(b"WRITERS", bob) && !wild.holds(b"READERS", bob) && wild.creator() == Some(alice)
}

fn has_copy_of_it(wild: &Wild, alice: &UserName, bob: &UserName) -> bool {
    match wild.copy() {
        Ok(copy) => has_what_is_left(&copy, alice, bob),
        Err(_) => false,
    }
}

fn is_copied_of(alloc: Global, wild: &Wild, alice: &UserName) -> bool {
    match user(alloc, "bob") {
        Some(bob) => has_copy_of_it(wild, alice, &bob),
        None => false,
    }
}

fn is_copied(alloc: Global, wild: &Wild) -> bool {
    match user(alloc, "alice") {
        Some(alice) => is_copied_of(alloc, wild, &alice),
        None => false,
    }
}

fn check_rows(rt: &impl Abort, alloc: Global, wild: &mut Wild, rows: &[Row]) {
    for i in 0..rows.len() {
        assert!(rt; is_answered(alloc, wild, &rows[i]), "row {i}");
    }
}

#[test]
fn roles_of_a_repository(rt: HostRuntime) -> Result<(), Fail> {
    let alice = user(rt.alloc(), "alice").ok_or("a user's name")?;
    let mut wild = Wild::born(rt.alloc(), alice);
    check_rows(&rt, rt.alloc(), &mut wild, &OF_ALICE);
    assert!(rt; is_copied(rt.alloc(), &wild));
    Ok(())
}

fn is_reader(alloc: Global, wild: &Wild, name: &str) -> bool {
    match user(alloc, name) {
        Some(user) => wild.holds(b"READERS", &user),
        None => true,
    }
}

#[test]
fn nobody_created_it(rt: HostRuntime) {
    let mut wild = Wild::plain(rt.alloc());
    check_rows(&rt, rt.alloc(), &mut wild, &OF_NOBODY);
    assert!(rt; wild.creator().is_none());
    assert!(rt; !is_reader(rt.alloc(), &wild, "bob"));
}
