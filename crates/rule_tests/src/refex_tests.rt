// Patterns and texts whose answers were worked out by hand from the definition.

ghost use Rattle.std.specs.Prelude.{◌≤◌, length};

use refex::{Hole, MAX_NAME, Refex, RefexFault};
use std::alloc::{AllocError, Global};
use std::process::Abort;

/// What a pattern says of a text.
#[derive(Clone, Copy, Debug, PartialEq, Eq)]
enum Answer {
    Whole,
    Starts,
    No,
}

use Answer::{No, Starts, Whole};

struct Row {
    pattern: &'static str,
    hole: Hole,
    name: &'static str,
    texts: &'static [(&'static str, Answer)],
}

// Sequences and branches, some of them empty.
static SEQUENCES: [Row; 9] = [
    Row {
        pattern: "abc",
        hole: Hole::Nothing,
        name: "",
        texts: &[("abc", Whole), ("abcd", Starts), ("xabc", No)],
    },
    Row {
        pattern: "",
        hole: Hole::Nothing,
        name: "",
        texts: &[("", Whole), ("a", Starts), ("ab", Starts)],
    },
    Row {
        pattern: "a|b",
        hole: Hole::Nothing,
        name: "",
        texts: &[("b", Whole), ("ab", Starts), ("c", No)],
    },
    Row {
        pattern: "a|",
        hole: Hole::Nothing,
        name: "",
        texts: &[("a", Whole), ("", Whole), ("b", Starts)],
    },
    Row {
        pattern: "|a$",
        hole: Hole::Nothing,
        name: "",
        texts: &[("", Whole), ("a", Whole), ("b", Starts)],
    },
    Row {
        pattern: "(|a)b",
        hole: Hole::Nothing,
        name: "",
        texts: &[("b", Whole), ("ab", Whole), ("aab", No)],
    },
    Row {
        pattern: "(a|b|)c",
        hole: Hole::Nothing,
        name: "",
        texts: &[("c", Whole), ("ac", Whole), ("abc", No)],
    },
    Row {
        pattern: "ab|cd$",
        hole: Hole::Nothing,
        name: "",
        texts: &[("abx", Starts), ("cd", Whole), ("cdx", No)],
    },
    Row {
        pattern: "()",
        hole: Hole::Nothing,
        name: "",
        texts: &[("", Whole), ("a", Starts), ("(", Starts)],
    },
];

// Repetitions.
static REPETITIONS: [Row; 9] = [
    Row {
        pattern: "(?:ab)+",
        hole: Hole::Nothing,
        name: "",
        texts: &[("abab", Whole), ("aba", Starts), ("ba", No)],
    },
    Row {
        pattern: "(ab)*$",
        hole: Hole::Nothing,
        name: "",
        texts: &[("", Whole), ("abab", Whole), ("aba", No)],
    },
    Row {
        pattern: "a*",
        hole: Hole::Nothing,
        name: "",
        texts: &[("", Whole), ("aa", Whole), ("ba", Starts)],
    },
    Row {
        pattern: "a+",
        hole: Hole::Nothing,
        name: "",
        texts: &[("a", Whole), ("", No), ("aab", Starts)],
    },
    Row {
        pattern: "a?b",
        hole: Hole::Nothing,
        name: "",
        texts: &[("b", Whole), ("ab", Whole), ("aab", No)],
    },
    Row {
        pattern: "x{0,2}$",
        hole: Hole::Nothing,
        name: "",
        texts: &[("", Whole), ("xx", Whole), ("xxx", No)],
    },
    Row {
        pattern: "x{0,2}$",
        hole: Hole::Nothing,
        name: "",
        texts: &[("x", Whole), ("xy", No), ("y", No)],
    },
    Row {
        pattern: "x{2}",
        hole: Hole::Nothing,
        name: "",
        texts: &[("x", No), ("xx", Whole), ("xxx", Starts)],
    },
    Row {
        pattern: "x{2,}$",
        hole: Hole::Nothing,
        name: "",
        texts: &[("x", No), ("xx", Whole), ("xxxx", Whole)],
    },
];

// Counts, and what follows them.
static COUNTS: [Row; 7] = [
    Row {
        pattern: "x{0}y",
        hole: Hole::Nothing,
        name: "",
        texts: &[("y", Whole), ("xy", No), ("yx", Starts)],
    },
    Row {
        pattern: "(ab){1,2}$",
        hole: Hole::Nothing,
        name: "",
        texts: &[("ab", Whole), ("abab", Whole), ("ababab", No)],
    },
    Row {
        pattern: "(ab){0,}c",
        hole: Hole::Nothing,
        name: "",
        texts: &[("c", Whole), ("ababc", Whole), ("abac", No)],
    },
    Row {
        pattern: "(a+)+$",
        hole: Hole::Nothing,
        name: "",
        texts: &[("aaaa", Whole), ("aab", No), ("", No)],
    },
    Row {
        pattern: ".",
        hole: Hole::Nothing,
        name: "",
        texts: &[("x", Whole), ("\n", No), ("", No)],
    },
    Row {
        pattern: "..$",
        hole: Hole::Nothing,
        name: "",
        texts: &[("ab", Whole), ("a", No), ("abc", No)],
    },
    Row {
        pattern: "a]b}",
        hole: Hole::Nothing,
        name: "",
        texts: &[("a]b}", Whole), ("a", No), ("a]b", No)],
    },
];

// The end mark and the beginning.
static MARKS: [Row; 9] = [
    Row {
        pattern: "a$?",
        hole: Hole::Nothing,
        name: "",
        texts: &[("a", Whole), ("ab", Starts), ("b", No)],
    },
    Row {
        pattern: "refs/.*",
        hole: Hole::Nothing,
        name: "",
        texts: &[("refs/", Whole), ("refs/heads/a", Whole), ("ref", No)],
    },
    Row {
        pattern: "master$",
        hole: Hole::Nothing,
        name: "",
        texts: &[("master", Whole), ("master2", No), ("mast", No)],
    },
    Row {
        pattern: "a$b",
        hole: Hole::Nothing,
        name: "",
        texts: &[("a", No), ("ab", No), ("a$b", No)],
    },
    Row {
        pattern: "a$$",
        hole: Hole::Nothing,
        name: "",
        texts: &[("a", No), ("aa", No), ("", No)],
    },
    Row {
        pattern: "$",
        hole: Hole::Nothing,
        name: "",
        texts: &[("", Whole), ("a", No), ("$", No)],
    },
    Row {
        pattern: "a$|b",
        hole: Hole::Nothing,
        name: "",
        texts: &[("a", Whole), ("ab", No), ("bc", Starts)],
    },
    Row {
        pattern: "^a",
        hole: Hole::Nothing,
        name: "",
        texts: &[("a", Whole), ("ba", No), ("ab", Starts)],
    },
    Row {
        pattern: "^",
        hole: Hole::Nothing,
        name: "",
        texts: &[("", Whole), ("a", Starts), ("^", Starts)],
    },
];

// Classes.
static CLASSES: [Row; 10] = [
    Row {
        pattern: "[:a]",
        hole: Hole::Nothing,
        name: "",
        texts: &[(":", Whole), ("a", Whole), ("[", No)],
    },
    Row {
        pattern: "[abc]",
        hole: Hole::Nothing,
        name: "",
        texts: &[("b", Whole), ("d", No), ("ca", Starts)],
    },
    Row {
        pattern: "[^abc]",
        hole: Hole::Nothing,
        name: "",
        texts: &[("d", Whole), ("a", No), ("", No)],
    },
    Row {
        pattern: "[a-c]+$",
        hole: Hole::Nothing,
        name: "",
        texts: &[("abc", Whole), ("c", Whole), ("d", No)],
    },
    Row {
        pattern: "[]a]",
        hole: Hole::Nothing,
        name: "",
        texts: &[("]", Whole), ("a", Whole), ("b", No)],
    },
    Row {
        pattern: "[^]a]",
        hole: Hole::Nothing,
        name: "",
        texts: &[("b", Whole), ("]", No), ("a", No)],
    },
    Row {
        pattern: "[-a]",
        hole: Hole::Nothing,
        name: "",
        texts: &[("-", Whole), ("a", Whole), ("b", No)],
    },
    Row {
        pattern: "[a-]",
        hole: Hole::Nothing,
        name: "",
        texts: &[("-", Whole), ("a", Whole), ("b", No)],
    },
    Row {
        pattern: "[--a]",
        hole: Hole::Nothing,
        name: "",
        texts: &[("-", Whole), ("a", Whole), (",", No)],
    },
    Row {
        pattern: "[+--]",
        hole: Hole::Nothing,
        name: "",
        texts: &[("+", Whole), (",", Whole), (".", No)],
    },
];

// Escapes.
static ESCAPES: [Row; 6] = [
    Row {
        pattern: "[!-\\]]",
        hole: Hole::Nothing,
        name: "",
        texts: &[("]", Whole), ("A", Whole), ("^", No)],
    },
    Row {
        pattern: "\\d\\w\\s",
        hole: Hole::Nothing,
        name: "",
        texts: &[("1_ ", Whole), ("1a", No), ("x_ ", No)],
    },
    Row {
        pattern: "\\D\\W\\S",
        hole: Hole::Nothing,
        name: "",
        texts: &[("a-b", Whole), ("1-b", No), ("aab", No)],
    },
    Row {
        pattern: "[\\d_]+$",
        hole: Hole::Nothing,
        name: "",
        texts: &[("12_", Whole), ("a", No), ("1a", No)],
    },
    Row {
        pattern: "[\\D]",
        hole: Hole::Nothing,
        name: "",
        texts: &[("a", Whole), ("1", No), ("", No)],
    },
    Row {
        pattern: "\\.\\*",
        hole: Hole::Nothing,
        name: "",
        texts: &[(".*", Whole), ("aa", No), (".*x", Starts)],
    },
];

// The hole.
static HOLES: [Row; 5] = [
    Row {
        pattern: "a/USER/",
        hole: Hole::User,
        name: "cal",
        texts: &[("a/cal/x", Starts), ("a/calvin/x", No), ("a/cal/", Whole)],
    },
    Row {
        pattern: "a/USER/",
        hole: Hole::Nothing,
        name: "cal",
        texts: &[("a/cal/", No), ("a/USER/", Whole), ("a/USER/x", Starts)],
    },
    Row {
        pattern: "/USER//USER/",
        hole: Hole::User,
        name: "a",
        texts: &[("/a//USER/", Whole), ("/a//a/", No), ("/a/", No)],
    },
    Row {
        pattern: "a\\/USER/",
        hole: Hole::User,
        name: "n",
        texts: &[("a/USER/", Whole), ("a/n/", No), ("a", No)],
    },
    Row {
        pattern: "CREATOR/[a-z]+",
        hole: Hole::Creator,
        name: "al",
        texts: &[("al/x", Whole), ("bob/x", No), ("al/", No)],
    },
];

// The hole at its first place alone, repeated, and in a class.
static MORE_HOLES: [Row; 5] = [
    Row {
        pattern: "CREATORCREATOR",
        hole: Hole::Creator,
        name: "a",
        texts: &[("aCREATOR", Whole), ("aa", No), ("CREATORCREATOR", No)],
    },
    Row {
        pattern: "(CREATOR-)*x",
        hole: Hole::Creator,
        name: "ab",
        texts: &[("ab-ab-x", Whole), ("ab-x", Whole), ("a-x", No)],
    },
    Row {
        pattern: "[CREATOR]x",
        hole: Hole::Creator,
        name: "ab",
        texts: &[("Cx", Whole), ("abx", No), ("x", No)],
    },
    Row {
        pattern: "CREATOR",
        hole: Hole::Creator,
        name: "z",
        texts: &[("z", Whole), ("zz", Starts), ("", No)],
    },
    // Several parts of the name are live at once.
    Row {
        pattern: "a*CREATOR$",
        hole: Hole::Creator,
        name: "aaab",
        texts: &[("aaab", Whole), ("aaaaaab", Whole), ("aab", No)],
    },
];

// Long patterns and names.
static LONG_NAMES: [Row; 2] = [
    Row {
        pattern: "CREATOR$",
        hole: Hole::Creator,
        name: "qqqqqqqqqqqqqqqqqqqqqqqqqqqqqqqqqqqqqqqqqqqqqqqqqqqqqqqqqqqqqqqq",
        texts: &[
            (
                "qqqqqqqqqqqqqqqqqqqqqqqqqqqqqqqqqqqqqqqqqqqqqqqqqqqqqqqqqqqqqqqq",
                Whole,
            ),
            (
                "qqqqqqqqqqqqqqqqqqqqqqqqqqqqqqqqqqqqqqqqqqqqqqqqqqqqqqqqqqqqqqq",
                No,
            ),
            (
                "qqqqqqqqqqqqqqqqqqqqqqqqqqqqqqqqqqqqqqqqqqqqqqqqqqqqqqqqqqqqqqqqq",
                No,
            ),
        ],
    },
    Row {
        pattern: "refs/heads/personal/USER/",
        hole: Hole::User,
        name: "cal",
        texts: &[
            ("refs/heads/personal/cal/x", Starts),
            ("refs/heads/personal/calvin/x", No),
            ("refs/heads/personal/cal/", Whole),
        ],
    },
];

static REFUSED_GROUPS: [(&str, Hole, RefexFault); 12] = [
    ("(a", Hole::Nothing, RefexFault::Syntax(0)),
    ("a)", Hole::Nothing, RefexFault::Syntax(1)),
    ("([a", Hole::Nothing, RefexFault::Syntax(0)),
    ("(a*?", Hole::Nothing, RefexFault::Syntax(0)),
    ("(?a)", Hole::Nothing, RefexFault::Unsupported(0)),
    ("(?=a", Hole::Nothing, RefexFault::Unsupported(0)),
    ("((?a)", Hole::Nothing, RefexFault::Syntax(0)),
    ("(a)(b(c)", Hole::Nothing, RefexFault::Syntax(3)),
    ("(a{)", Hole::Nothing, RefexFault::Syntax(2)),
    ("(^a)", Hole::Nothing, RefexFault::Unsupported(1)),
    ("a^", Hole::Nothing, RefexFault::Unsupported(1)),
    ("^^", Hole::Nothing, RefexFault::Unsupported(1)),
];

static REFUSED_REPETITIONS: [(&str, Hole, RefexFault); 10] = [
    ("a*?", Hole::Nothing, RefexFault::Unsupported(2)),
    ("a*+", Hole::Nothing, RefexFault::Unsupported(2)),
    ("a{2}?", Hole::Nothing, RefexFault::Unsupported(4)),
    ("a**", Hole::Nothing, RefexFault::Syntax(2)),
    ("a*{2}", Hole::Nothing, RefexFault::Syntax(2)),
    ("*a", Hole::Nothing, RefexFault::Syntax(0)),
    ("a|+", Hole::Nothing, RefexFault::Syntax(2)),
    ("(*a)", Hole::Nothing, RefexFault::Syntax(1)),
    ("^*", Hole::Nothing, RefexFault::Syntax(1)),
    ("CREATOR*?", Hole::Creator, RefexFault::Unsupported(8)),
];

static REFUSED_COUNTS: [(&str, Hole, RefexFault); 9] = [
    ("a{", Hole::Nothing, RefexFault::Syntax(1)),
    ("a{,3}", Hole::Nothing, RefexFault::Syntax(1)),
    ("a{01}", Hole::Nothing, RefexFault::Syntax(1)),
    ("a{128}", Hole::Nothing, RefexFault::Syntax(1)),
    ("a{3,2}", Hole::Nothing, RefexFault::Syntax(1)),
    ("a{1,2", Hole::Nothing, RefexFault::Syntax(1)),
    ("a{1000}", Hole::Nothing, RefexFault::Syntax(1)),
    ("a\\", Hole::Nothing, RefexFault::Syntax(1)),
    ("\\b", Hole::Nothing, RefexFault::Unsupported(0)),
];

static REFUSED_CLASSES: [(&str, Hole, RefexFault); 16] = [
    ("[a", Hole::Nothing, RefexFault::Syntax(0)),
    ("[a\\", Hole::Nothing, RefexFault::Syntax(0)),
    ("[]", Hole::Nothing, RefexFault::Syntax(0)),
    ("a[^]", Hole::Nothing, RefexFault::Syntax(1)),
    ("[[:alpha:]]", Hole::Nothing, RefexFault::Unsupported(1)),
    ("[a-b-c]", Hole::Nothing, RefexFault::Syntax(4)),
    ("[\\d-z]", Hole::Nothing, RefexFault::Syntax(1)),
    ("[\\d-\\q]", Hole::Nothing, RefexFault::Syntax(1)),
    ("[a-\\q]", Hole::Nothing, RefexFault::Unsupported(3)),
    ("[a-\\d]", Hole::Nothing, RefexFault::Syntax(1)),
    ("x[b-a]", Hole::Nothing, RefexFault::Syntax(2)),
    ("[a--]", Hole::Nothing, RefexFault::Syntax(1)),
    ("[x\\q]", Hole::Nothing, RefexFault::Unsupported(2)),
    ("refs/heads/v[0-9", Hole::User, RefexFault::Syntax(12)),
    ("([a)", Hole::Nothing, RefexFault::Syntax(0)),
    ("[a-[:]", Hole::Nothing, RefexFault::Unsupported(3)),
];

static TOO_LARGE: [(&str, Hole, RefexFault); 4] = [
    (
        "refs/heads/a{117}",
        Hole::Nothing,
        RefexFault::TooManyPositions(128),
    ),
    (
        "refs/heads/personal/USER/a{43}",
        Hole::User,
        RefexFault::TooManyPositions(128),
    ),
    (
        "((a{127}){127}){127}",
        Hole::Nothing,
        RefexFault::TooManyPositions(65535),
    ),
    (
        "CREATOR{2}",
        Hole::Creator,
        RefexFault::TooManyPositions(128),
    ),
];

fn answer_of(refex: &Refex, text: &str, name: &str) -> Answer
    requires { length name.now ≤ MAX_NAME }
{
    let starts = refex.starts(text.as_bytes(), name.as_bytes());
    if refex.whole(text.as_bytes(), name.as_bytes()) && starts {
        Whole
    } else if starts {
        Starts
    } else {
        No
    }
}

/// The first text of the row whose answer isn't the expected one.
fn wrong_text(refex: &Refex, row: &Row) -> Option<usize> {
    if row.name.len() > MAX_NAME {
        return Some(0);
    }
    for (i, (text, expected)) in row.texts.iter().enumerate() {
        if answer_of(refex, text, row.name) != *expected {
            return Some(i);
        }
    }
    None
}

fn wrong_text_of(alloc: Global, row: &Row) -> Option<usize> {
    match Refex::parse(alloc, row.pattern.as_bytes(), row.hole) {
        Ok(refex) => wrong_text(&refex, row),
        Err(_) => Some(row.texts.len()),
    }
}

fn check_rows(rt: &impl Abort, alloc: Global, rows: &[Row]) {
    for row in rows {
        assert_eq!(rt; wrong_text_of(alloc, row), None, "of {}", row.pattern);
    }
}

fn is_refused(alloc: Global, text: &str, hole: Hole, fault: RefexFault) -> bool {
    match Refex::parse(alloc, text.as_bytes(), hole) {
        Ok(_) => false,
        Err(found) => found == fault,
    }
}

fn check_refusals(rt: &impl Abort, alloc: Global, rows: &[(&str, Hole, RefexFault)]) {
    for (text, hole, fault) in rows {
        assert!(rt; is_refused(alloc, text, *hole, *fault), "of {text}");
    }
}

#[test]
fn matches_texts(rt: HostRuntime) {
    check_rows(&rt, rt.alloc(), &SEQUENCES);
    check_rows(&rt, rt.alloc(), &REPETITIONS);
    check_rows(&rt, rt.alloc(), &COUNTS);
    check_rows(&rt, rt.alloc(), &MARKS);
    check_rows(&rt, rt.alloc(), &CLASSES);
    check_rows(&rt, rt.alloc(), &ESCAPES);
    check_rows(&rt, rt.alloc(), &HOLES);
    check_rows(&rt, rt.alloc(), &MORE_HOLES);
    check_rows(&rt, rt.alloc(), &LONG_NAMES);
}

#[test]
fn refuses_texts(rt: HostRuntime) {
    check_refusals(&rt, rt.alloc(), &REFUSED_GROUPS);
    check_refusals(&rt, rt.alloc(), &REFUSED_REPETITIONS);
    check_refusals(&rt, rt.alloc(), &REFUSED_COUNTS);
    check_refusals(&rt, rt.alloc(), &REFUSED_CLASSES);
    check_refusals(&rt, rt.alloc(), &TOO_LARGE);
}

// The largest patterns, and whether a pattern has its hole.
static HOLED: [(&str, Hole, bool); 8] = [
    ("refs/heads/a{116}", Hole::User, false),
    ("refs/heads/personal/USER/a{42}", Hole::User, true),
    ("(((){127}){127}){127}", Hole::Nothing, false),
    ("CREATOR{1}a{63}", Hole::Creator, true),
    ("CREATOR{0}", Hole::Creator, true),
    ("[CREATOR]x", Hole::Creator, false),
    ("x/USER/", Hole::User, true),
    ("xUSER/", Hole::User, false),
];

fn is_holed(alloc: Global, text: &str, hole: Hole, due: bool) -> bool {
    match Refex::parse(alloc, text.as_bytes(), hole) {
        Ok(refex) => refex.has_hole() == due,
        Err(_) => false,
    }
}

#[test]
fn reads_the_largest_and_knows_its_hole(rt: HostRuntime) {
    for (text, hole, due) in &HOLED {
        assert!(rt; is_holed(rt.alloc(), text, *hole, *due), "of {text}");
    }
}

// 500 groups, each inside the one before.
fn nested(alloc: Global) -> Result<Vec<u8>, AllocError> {
    let mut text = Vec::new(alloc);
    for place in 0..1000 {
        text.push(if place < 500 { b'(' } else { b')' })?;
    }
    Ok(text)
}

fn is_for_nothing_alone(alloc: Global, text: &[u8]) -> bool {
    match Refex::parse(alloc, text, Hole::Nothing) {
        Ok(refex) => refex.whole(b"", b"") && !refex.whole(b"a", b""),
        Err(_) => false,
    }
}

fn nested_is_for_nothing_alone(alloc: Global) -> bool {
    match nested(alloc) {
        Ok(text) => is_for_nothing_alone(alloc, &text),
        Err(_) => false,
    }
}

#[test]
fn groups_nest_up_to_half_the_longest_text(rt: HostRuntime) {
    assert!(rt; nested_is_for_nothing_alone(rt.alloc()));
}

static FAULTS: [(RefexFault, &str); 4] = [
    (RefexFault::Syntax(0), "bad pattern at 0"),
    (
        RefexFault::TooManyPositions(65535),
        "pattern has 65535 positions",
    ),
    (RefexFault::Unsupported(12), "pattern not supported at 12"),
    (RefexFault::NoMemory, "out of memory"),
];

fn is_text_of(alloc: Global, text: &str, fault: RefexFault) -> bool {
    match fault.to_string(alloc) {
        Ok(found) => found.as_str() == text,
        Err(_) => false,
    }
}

#[test]
fn faults_have_their_texts(rt: HostRuntime) {
    for (fault, text) in &FAULTS {
        assert!(rt; is_text_of(rt.alloc(), text, *fault), "of {text}");
    }
}

/// The caller of the README.
fn may_push(alloc: Global, ref_name: &[u8], user: &[u8]) -> Result<bool, RefexFault>
    requires { length user.now ≤ MAX_NAME }
{
    let refex = Refex::parse(alloc, b"refs/heads/personal/USER/", Hole::User)?;
    Ok(refex.starts(ref_name, user))
}

#[test]
fn users_push_to_branches_of_their_own(rt: HostRuntime) {
    let own = may_push(rt.alloc(), b"refs/heads/personal/cal/x", b"cal");
    let other = may_push(rt.alloc(), b"refs/heads/personal/calvin/x", b"cal");
    assert!(rt; own == Ok(true) && other == Ok(false));
}

fn crosses_threads<T: Send + Sync + Drop>(_value: T) {}

fn is_sent(alloc: Global) -> bool {
    match Refex::parse(alloc, b"a", Hole::Nothing) {
        Ok(refex) => {
            crosses_threads(refex);
            true
        }
        Err(_) => false,
    }
}

#[test]
fn a_pattern_may_be_shared(rt: HostRuntime) {
    assert!(rt; is_sent(rt.alloc()));
}

#[test]
fn laws_hold() {
    refex::spells_one_pattern();
    refex::patterns_have_no_offence();
    refex::sound_texts_are_patterns();
    refex::offences_are_leftmost();
    refex::counts_are_read();
    refex::classes_are_read();
    refex::patterns_are_read();
}
