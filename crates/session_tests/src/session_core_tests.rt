// Rows of first packets and of denials, and the numbers of ends.
use access_check::{Request, Want};
use base_types::NoMemory;
use conf_lex::{RepoName, UserName};
use git_object::ObjectId;
use hub::PermChange;
use raw_pack::PackFault;
use session_core::{
    Asked, FirstLine, Service, SessionEnd, first_line, fitting, hold_laws, push_denial, shown,
    without_feed,
};
use std::alloc::Global;
use std::test::Fail;

fn add_words(text: &mut Vec<u8>, words: &[&[u8]]) -> Result<(), NoMemory> {
    for word in words {
        text.extend_from_slice(b" ")?;
        text.extend_from_slice(word)?;
    }
    Ok(())
}

// What is asked for, in words.
fn service_text(text: &mut Vec<u8>, service: &Service) -> Result<(), NoMemory> {
    match service {
        Service::Receive(repo) => add_words(text, &[b"receive".as_slice(), repo.bytes()]),
        Service::Upload(repo) => add_words(text, &[b"upload".as_slice(), repo.bytes()]),
        Service::Permit(repo, PermChange::List) => {
            add_words(text, &[b"list".as_slice(), repo.bytes()])
        }
        Service::Permit(repo, PermChange::Grant { role, user }) => add_words(
            text,
            &[
                b"grant".as_slice(),
                repo.bytes(),
                role.bytes(),
                user.bytes(),
            ],
        ),
        Service::Permit(repo, PermChange::Revoke { role, user }) => add_words(
            text,
            &[
                b"revoke".as_slice(),
                repo.bytes(),
                role.bytes(),
                user.bytes(),
            ],
        ),
        Service::Look => add_words(text, &[b"look".as_slice()]),
    }
}

// What a first line says, in words.
fn said(alloc: Global, line: &[u8]) -> Result<Vec<u8>, NoMemory> {
    let mut text = Vec::new(alloc);
    match first_line(alloc, line)? {
        FirstLine::Asks(Asked { user, service }) => {
            text.extend_from_slice(user.bytes())?;
            service_text(&mut text, &service)?;
        }
        FirstLine::BadCommand => text.extend_from_slice(b"bad command")?,
        FirstLine::BadUser => text.extend_from_slice(b"bad user")?,
    }
    Ok(text)
}

static LINES: [(&str, &str); 38] = [
    ("carol git-receive-pack 'testing'", "carol receive testing"),
    ("carol git-receive-pack testing", "carol receive testing"),
    (
        "carol git-receive-pack '/testing.git'",
        "carol receive testing",
    ),
    ("carol git-receive-pack /web/site", "carol receive web/site"),
    (
        "c.d-e_f@g+h git-receive-pack a.git",
        "c.d-e_f@g+h receive a",
    ),
    ("carol git-upload-pack 'testing'", "carol upload testing"),
    ("carol info", "carol look"),
    (
        "alice perms alice/x + READERS bob",
        "alice grant alice/x READERS bob",
    ),
    (
        "alice perms 'alice/x' - my-role_2 bob",
        "alice revoke alice/x my-role_2 bob",
    ),
    ("alice perms -l /alice/x.git", "alice list alice/x"),
    ("", "bad user"),
    (" info", "bad user"),
    ("carol!", "bad user"),
    ("carol! info", "bad user"),
    ("READERS info", "bad user"),
    ("'carol' info", "bad user"),
    ("carol", "bad command"),
    ("carol ", "bad command"),
    ("carol  info", "bad command"),
    ("carol info ", "bad command"),
    ("carol Info", "bad command"),
    ("carol git-fetch 'testing'", "bad command"),
    ("carol git-receive-pack", "bad command"),
    ("carol git-receive-pack ", "bad command"),
    ("carol git-receive-pack  testing", "bad command"),
    ("carol git-receive-pack 'testing", "bad command"),
    ("carol git-receive-pack testing'", "bad command"),
    ("carol git-receive-pack 'a'b'", "bad command"),
    ("carol git-receive-pack ''testing''", "bad command"),
    ("carol git-receive-pack //testing", "bad command"),
    ("carol git-receive-pack 'a..b'", "bad command"),
    ("carol git-receive-pack CREATOR/x", "bad command"),
    ("carol git-upload-pack 'a b'", "bad command"),
    ("alice perms alice/x * READERS bob", "bad command"),
    ("alice perms alice/x + bad! bob", "bad command"),
    ("alice perms alice/x +  bob", "bad command"),
    ("alice perms alice/x + READERS @staff", "bad command"),
    ("alice perms -l", "bad command"),
];

#[test]
fn each_first_line_says_so(rt: HostRuntime) -> Result<(), Fail> {
    for (line, due) in &LINES {
        let text = said(rt.alloc(), line.as_bytes())?;
        assert!(rt; text.as_slice() == due.as_bytes(), "{line}");
    }
    Ok(())
}

static FED: [(&str, &str); 4] = [("a\n", "a"), ("a\n\n", "a\n"), ("\n", ""), ("", "")];

#[test]
fn one_line_feed_is_no_part_of_a_line(rt: HostRuntime) -> Result<(), Fail> {
    for (line, due) in &FED {
        assert!(rt; without_feed(line.as_bytes()) == due.as_bytes());
    }
    Ok(())
}

static DENIALS: [(Want, &str); 2] = [
    (Want::Read, "R any site cal DENIED by fallthru"),
    (Want::Write, "W any site cal DENIED by fallthru"),
];

// What cal is told of an opening of `site`.
fn denial(alloc: Global, want: Want) -> Result<Vec<u8>, Fail> {
    let repo = RepoName::parse(alloc, b"site")?.ok_or("a repository")?;
    let user = UserName::parse(alloc, b"cal")?.ok_or("a user")?;
    let mut text = Vec::new(alloc);
    push_denial(alloc, &mut text, &Request::Open(want), &repo, &user, None)?;
    Ok(text)
}

#[test]
fn a_denial_has_letter_name_repository_and_user(rt: HostRuntime) -> Result<(), Fail> {
    for (want, due) in &DENIALS {
        assert!(rt; denial(rt.alloc(), *want)?.as_slice() == due.as_bytes());
    }
    Ok(())
}

#[test]
fn a_long_text_is_cut(rt: HostRuntime) -> Result<(), Fail> {
    let long = vec![in rt.alloc(); b'n'; 60_001]?;
    hold_laws();
    assert!(rt; shown(&long).len() == 8192 && fitting(&long).len() == 60_000);
    Ok(())
}

static ENDS: [(SessionEnd, u8); 13] = [
    (SessionEnd::Served, 1),
    (SessionEnd::Denied, 2),
    (SessionEnd::NoRepo, 3),
    (SessionEnd::BadCommand, 4),
    (SessionEnd::BadUser, 5),
    (SessionEnd::NotOurRef(ObjectId { bytes: [0; 20] }), 6),
    (SessionEnd::Malformed(36), 7),
    (SessionEnd::TooLong(10_001), 8),
    (SessionEnd::Truncated, 9),
    (SessionEnd::ReadFault, 10),
    (SessionEnd::WriteFault, 11),
    (SessionEnd::NoMemory, 12),
    (SessionEnd::BadPack(PackFault::NotAPack), 13),
];

#[test]
fn ends_have_their_numbers(rt: HostRuntime) -> Result<(), Fail> {
    for (end, number) in &ENDS {
        assert!(rt; (*end).number() == *number, "{number}");
    }
    Ok(())
}
