//! What is printed of questions and confs, worked out by hand from the rules in `docs/REPORT.md`.

use access_report::{
    AskFault, FileList, Printed, Question, Questions, print_access, questions, read_questions,
};
use conf_groups::ConfFile;
use pktline_core::MemoryLink;
use rule_compile::{Policy, Text};
use std::alloc::Global;
use std::process::Abort;

const CONF: &str =
    "repo site\n    RW+ a/ = ann\n    - b/ = @all\n    RW = ann bob\nrepo w/CREATOR/..*\n    RW+ = CREATOR\n    R = READERS\nrepo x/CREATOR/..*\n    R = @all\nrepo old\n    R = @all\n";

// Questions; a conf, and another where it isn't empty; what is printed, and what that is.
static ROWS: [(&str, &str, &str, &str, Printed); 14] = [
    ("", CONF, "", "idle\n", Printed::Report),
    (
        "repo site\nuser bob\nref refs/heads/a/x\n",
        CONF,
        "",
        "site bob any read R allowed by 4\nsite bob any write W allowed by 4\nsite bob refs/heads/a/x create W allowed by 4\nsite bob refs/heads/a/x forward W allowed by 4\nsite bob refs/heads/a/x rewind + fallthru\nsite bob refs/heads/a/x delete + fallthru\nidle 1 2 3\n",
        Printed::Report,
    ),
    // a pattern with the creator's name in its hole covers nothing that another created
    (
        "user ann\nrepo w/ann/x creator ann\nrole READERS bob\nuser bob\n",
        CONF,
        "",
        "w/ann/x ann any read R allowed by 5\nw/ann/x ann any write W allowed by 5\nw/ann/x bob any read R allowed by 6\nw/ann/x bob any write W fallthru\nidle\n",
        Printed::Report,
    ),
    (
        "user bob\nrepo w/ann/x\n",
        CONF,
        "",
        "w/ann/x bob any read R fallthru\nw/ann/x bob any write W fallthru\nidle\n",
        Printed::Report,
    ),
    // a tag is moved by rewinding alone
    (
        "user ann\nrepo old\nref refs/tags/v1\n",
        CONF,
        "repo old\n    RW+C = ann\n",
        "old ann any write was W fallthru now W allowed by 1\nold ann refs/tags/v1 create was W fallthru now C allowed by 1\nold ann refs/tags/v1 forward was + fallthru now + allowed by 1\nold ann refs/tags/v1 rewind was + fallthru now + allowed by 1\nold ann refs/tags/v1 delete was + fallthru now + allowed by 1\nchanged 5 of 6\n",
        Printed::Report,
    ),
    (
        "user a!\n",
        CONF,
        "",
        "bad question at line 1\n",
        Printed::BadQuestion,
    ),
    (
        "user ann\n\n",
        CONF,
        "",
        "bad question at line 2\n",
        Printed::BadQuestion,
    ),
    (
        "user ann\nuser bob",
        CONF,
        "",
        "bad question at line 2\n",
        Printed::BadQuestion,
    ),
    (
        "user ann\nuser ann\n",
        "x",
        "",
        "bad question at line 2\n",
        Printed::BadQuestion,
    ),
    (
        "repo a\nrepo a creator b\nrole X c\nrole X c\n",
        CONF,
        "",
        "bad question at line 4\n",
        Printed::BadQuestion,
    ),
    (
        "repo a creator b\nrepo a\nrole X c\n",
        CONF,
        "",
        "bad question at line 3\n",
        Printed::BadQuestion,
    ),
    (
        "repo a creator b\nref refs/heads/x y\n",
        CONF,
        "",
        "bad question at line 2\n",
        Printed::BadQuestion,
    ),
    (
        "user ann\n",
        "repo a\n    RW = @g\n",
        "x",
        "gitolite.conf line 2: unknown group @g\n",
        Printed::ConfFault,
    ),
    (
        "user ann\n",
        CONF,
        "x",
        "gitolite.conf line 1: not a statement\n",
        Printed::ConfFault,
    ),
];

fn only_file(rt: &impl Abort, alloc: Global, text: &str) -> FileList {
    let mut files = FileList::new(alloc);
    let name = Text::of(alloc, b"gitolite.conf").expect(rt, "a text");
    let text = Text::of(alloc, text.as_bytes()).expect(rt, "a text");
    files.push(ConfFile { name, text }).expect(rt, "a file");
    files
}

fn check_row(rt: &impl Abort, alloc: Global, row: &(&str, &str, &str, &str, Printed)) -> bool {
    let conf = only_file(rt, alloc, row.1);
    let other = only_file(rt, alloc, row.2);
    let second = if row.2.is_empty() { None } else { Some(&other) };
    let ask = row.0.as_bytes();
    if ask.len() > 300_000_000 {
        return false;
    }
    let mut sink = MemoryLink::new(Vec::new(alloc), 7, Vec::new(alloc), Vec::new(alloc));
    let printed = print_access(alloc, &mut sink, ask, &conf, second);
    printed == Ok(row.4) && sink.written() == row.3.as_bytes()
}

#[test]
fn reports(rt: HostRuntime) {
    for i in 0..ROWS.len() {
        assert!(rt; check_row(&rt, rt.alloc(), &ROWS[i]), "row {i}");
    }
}

fn asked(rt: &impl Abort, alloc: Global) -> Questions {
    let text = b"repo site\nrepo old\nuser ann\nuser bob\nuser carol\nref refs/heads/x\n";
    read_questions(alloc, text).expect(rt, "questions")
}

// Whether the places of a question are these.
fn stands_at(question: Option<Question>, repo: u32, user: u32) -> bool {
    match question {
        Some(question) => question.repo == repo && question.user == user,
        None => false,
    }
}

#[test]
fn places(rt: HostRuntime) {
    let asked = asked(&rt, rt.alloc());
    let files = only_file(&rt, rt.alloc(), CONF);
    let Ok(policy) = Policy::compile(rt.alloc(), &files) else {
        assert!(rt; false);
        return;
    };
    assert!(rt; asked.count() == 36);
    for at in 0..36u64 {
        let repo = (at / 18) as u32;
        let user = (at / 6 % 3) as u32;
        assert!(rt;
            stands_at(questions(&policy, &asked, at), repo, user),
            "place {at}"
        );
    }
    assert!(rt; questions(&policy, &asked, 36).is_none());
}

#[test]
fn limits(rt: HostRuntime) {
    let mut text = Vec::new(rt.alloc());
    for i in 0..1001u32 {
        text.extend_from_slice(b"user u").expect(&rt, "memory");
        text.extend_from_slice(
            format!(in rt.alloc(); "{i}\n")
                .expect(&rt, "memory")
                .as_bytes(),
        )
        .expect(&rt, "memory");
    }
    if text.len() > 300_000_000 {
        assert!(rt; false);
        return;
    }
    match read_questions(rt.alloc(), &text) {
        Ok(_) => assert!(rt; false),
        Err(fault) => assert!(rt; fault == AskFault::TooMany),
    }
}
