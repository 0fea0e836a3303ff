//! Lines, names and permissions whose answers were worked out by hand from the rules.

use conf_lex::{
    LexFault, Perm, RepoName, RepoWordKind, Statement, TextList, UserName, clean, hold_laws,
    kind_of, read_line, repo_word,
};
use std::alloc::{AllocError, Global};
use std::cmp::Ordering;
use std::hash::{DefaultHasher, Hash, Hasher};
use std::process::Abort;

// Lines that say something, and a short form of what they say.
static STATEMENTS: [(&str, &str); 34] = [
    ("", "blank"),
    (" \t\r", "blank"),
    ("# RW = ann", "blank"),
    ("repo a b", "repo a b"),
    ("  repo\t@web\r", "repo @web"),
    (
        "repo @all wiki.git u/CREATOR/..*",
        "repo @all wiki.git u/CREATOR/..*",
    ),
    ("repo a # b", "repo a"),
    ("repo \"a # b\" # c", "repo \"a # b\""),
    ("repo \"a # b", "repo \"a # b"),
    ("include a", "include a"),
    ("include \"f*.conf\"", "include f*.conf"),
    ("include 'f'", "include f"),
    ("include \"f'", "include \"f'"),
    ("include \"", "include \""),
    ("include \"\"", "include "),
    ("include =", "include ="),
    ("include ''f''", "include 'f'"),
    ("subconf \"sub/*.conf\"", "subconf sub/*.conf"),
    ("@g = a b", "group @g: a b"),
    ("@g=a @h", "group @g: a @h"),
    ("@g =", "group @g:"),
    ("@repo = include #", "group @repo: include"),
    ("option deny-rules = 1", "option deny-rules: 1"),
    ("option x=y=z", "option x: y=z"),
    ("option = = =", "option =: ="),
    ("config a.b = c d", "no effect"),
    ("desc = \"a # b\"", "no effect"),
    ("owner =", "no effect"),
    ("category x = ", "no effect"),
    ("RW+CDM = ann", "rule RW+CDM: = ann"),
    ("RWDC = ann", "rule RWCD: = ann"),
    (
        "  -   master$ refs/tags/  =\t@interns # no \r",
        "rule -: master$ refs/tags/ = @interns",
    ),
    ("R a = READERS", "rule R: a = READERS"),
    (
        "C = CREATOR WRITERS @all bob@example.com",
        "rule C: = CREATOR WRITERS @all bob@example.com",
    ),
];

// Lines that are refused, and why.
static REFUSALS: [(&str, &str); 35] = [
    ("hello", "not a statement"),
    ("repo", "not a statement"),
    ("repo a = b", "bad word at 7"),
    ("repo = a =", "bad word at 5"),
    ("include", "not a statement"),
    ("include \"a\" b", "not a statement"),
    ("include \"a b\"", "not a statement"),
    ("include a = b", "bad permission"),
    ("subconf a b", "not a statement"),
    ("@all = a", "bad word at 0"),
    ("@ = @all", "bad word at 0"),
    ("@g = a = b", "bad word at 7"),
    ("@g = a @all =", "bad word at 7"),
    ("@g a = b", "bad permission"),
    ("@g a", "not a statement"),
    ("option x = a b", "bad permission"),
    ("option x = \"a b\"", "bad permission"),
    ("option x =", "bad permission"),
    ("desc x", "not a statement"),
    ("RWCDC = ann", "bad permission"),
    ("RW+CDMM = ann", "bad permission"),
    ("RWM+ = ann", "bad permission"),
    ("r = ann", "bad permission"),
    ("= ann", "bad permission"),
    ("X @all = carol!", "bad permission"),
    ("RW = ", "bad word at 4"),
    ("  RW x\ty=  # ann", "bad word at 8"),
    ("RW @all x = u =", "bad word at 3"),
    ("RW x @all = carol!", "bad word at 5"),
    ("RW @alle = carol!", "bad word at 11"),
    ("RW = ann carol! bob!", "bad word at 9"),
    ("  RW\t =   ann \r  @ # c", "bad word at 9"),
    ("RW = =", "bad word at 5"),
    ("R a=b = READERS", "bad word at 8"),
    ("RW = -ann", "bad word at 5"),
];

// Lines, and what they are when they are clean.
static CLEANED: [(&str, &str); 15] = [
    ("", ""),
    (" \t\r ", ""),
    ("#", ""),
    ("a", "a"),
    ("  a \t b\r", "a b"),
    ("a=b=c", "a = b=c"),
    ("a = b", "a = b"),
    ("=", "="),
    ("a #b", "a"),
    ("a \"# b\" # c", "a \"# b\""),
    ("a \"b  # c", "a \"b # c"),
    ("a '# b'", "a '"),
    ("\"=\"", "\" = \""),
    ("desc=\"a \t # b\" = c#d", "desc = \"a # b\" = c"),
    ("#\" = a", ""),
];

// Texts, whether they name a user, and whether they name a repository.
static NAMES: [(&str, bool, bool); 23] = [
    ("ann", true, true),
    ("", false, false),
    ("a.b-c_d@e+f", true, true),
    ("a/b", false, true),
    ("-a", false, false),
    (".a", false, false),
    ("A9", true, true),
    ("9", true, true),
    ("carol!", false, false),
    ("a b", false, false),
    ("\u{e9}", false, false),
    ("CREATOR", false, false),
    ("READERS", false, true),
    ("WRITERS", false, true),
    ("READERSX", true, true),
    ("xCREATORy", true, false),
    ("a..b", true, false),
    ("a/.b", false, false),
    ("a//b", false, false),
    ("a/", false, false),
    ("a.git", true, false),
    ("a.git/b", false, true),
    ("ab.gitx", true, true),
];

// Words for repositories, what they stand for, and what kind of word that is.
static REPO_WORDS: [(&str, &str, RepoWordKind); 11] = [
    ("a.git", "a", RepoWordKind::Plain),
    ("a", "a", RepoWordKind::Plain),
    ("a.git.git", "a.git.git", RepoWordKind::Pattern),
    (".git", ".git", RepoWordKind::Pattern),
    ("x/.git", "x/.git", RepoWordKind::Pattern),
    ("@web", "@web", RepoWordKind::Group),
    ("@all", "@all", RepoWordKind::Group),
    ("@g.git", "@g.git", RepoWordKind::Group),
    ("@CREATOR/x", "@CREATOR/x", RepoWordKind::Pattern),
    ("CREATOR.git", "CREATOR.git", RepoWordKind::Pattern),
    ("a*", "a*", RepoWordKind::Pattern),
];

// Words, and the texts of the permissions that they are; nothing for those that are none.
static PERMISSIONS: [(&str, &str); 41] = [
    ("-", "-"),
    ("R", "R"),
    ("C", "C"),
    ("RW", "RW"),
    ("RWM", "RWM"),
    ("RWD", "RWD"),
    ("RWDM", "RWDM"),
    ("RWC", "RWC"),
    ("RWCM", "RWCM"),
    ("RWCD", "RWCD"),
    ("RWDC", "RWCD"),
    ("RWCDM", "RWCDM"),
    ("RWDCM", "RWCDM"),
    ("RW+", "RW+"),
    ("RW+M", "RW+M"),
    ("RW+D", "RW+D"),
    ("RW+DM", "RW+DM"),
    ("RW+C", "RW+C"),
    ("RW+CM", "RW+CM"),
    ("RW+CD", "RW+CD"),
    ("RW+DC", "RW+CD"),
    ("RW+CDM", "RW+CDM"),
    ("RW+DCM", "RW+CDM"),
    ("", ""),
    ("W", ""),
    ("r", ""),
    ("RR", ""),
    ("R+", ""),
    ("CD", ""),
    ("DC", ""),
    ("RDC", ""),
    ("RW++", ""),
    ("RWC+", ""),
    ("RWMC", ""),
    ("RWCDC", ""),
    ("RWDCD", ""),
    ("RWDD", ""),
    ("RWDMC", ""),
    ("RWMDC", ""),
    ("RWDCMM", ""),
    ("RW+CDM ", ""),
];

// What is left of a text from which parts are taken, one behind the other; none where a part isn't next in
// it.
#[derive(Clone, Copy)]
struct Rest<'a> {
    left: Option<&'a [u8]>,
}

impl<'a> Rest<'a> {
    fn take(&mut self, part: &[u8]) {
        self.left = match self.left {
            Some(left) => left.strip_prefix(part),
            None => None,
        };
    }

    fn take_words(&mut self, words: &TextList) {
        for word in words.as_slice() {
            self.take(b" ");
            self.take(word.bytes());
        }
    }

    // A word, and a text behind a space.
    fn take_named(&mut self, word: &[u8], name: &[u8]) {
        self.take(word);
        self.take(b" ");
        self.take(name);
    }

    // The short form of a statement.
    fn take_statement(&mut self, statement: &Statement) {
        match statement {
            Statement::Blank => self.take(b"blank"),
            Statement::NoEffect => self.take(b"no effect"),
            Statement::Repo { words } => {
                self.take(b"repo");
                self.take_words(words);
            }
            Statement::Include { pattern } => self.take_named(b"include", pattern.bytes()),
            Statement::Subconf { pattern } => self.take_named(b"subconf", pattern.bytes()),
            Statement::Group { name, members } => {
                self.take_named(b"group", name.bytes());
                self.take(b":");
                self.take_words(members);
            }
            Statement::Opt { key, value } => {
                self.take_named(b"option", key.bytes());
                self.take_named(b":", value.bytes());
            }
            Statement::Rule {
                perm,
                refexes,
                users,
            } => {
                self.take_named(b"rule", perm.text());
                self.take(b":");
                self.take_words(refexes);
                self.take(b" =");
                self.take_words(users);
            }
        }
    }

    fn is_empty(&self) -> bool {
        match self.left {
            Some(left) => left.is_empty(),
            None => false,
        }
    }
}

fn is_short_form(text: &[u8], statement: &Statement) -> bool {
    let mut rest = Rest { left: Some(text) };
    rest.take_statement(statement);
    rest.is_empty()
}

fn is_text_of(alloc: Global, text: &[u8], fault: LexFault) -> bool {
    match format!(in alloc; "{fault}") {
        Ok(found) => found.as_bytes() == text,
        Err(_) => false,
    }
}

// Whether the text is a short form of what a line says, or the text of its fault.
fn is_said(alloc: Global, text: &[u8], line: &[u8]) -> bool {
    match read_line(alloc, line) {
        Ok(statement) => is_short_form(text, &statement),
        Err(fault) => is_text_of(alloc, text, fault),
    }
}

fn is_cleaned(alloc: Global, cleaned: &[u8], line: &[u8]) -> bool {
    match clean(alloc, line) {
        Ok(text) => text.bytes() == cleaned,
        Err(_) => false,
    }
}

fn check_lines(rt: &impl Abort, alloc: Global, rows: &[(&str, &str)]) {
    for (line, says) in rows {
        assert!(rt; is_said(alloc, says.as_bytes(), line.as_bytes()), "{line}");
    }
}

#[test]
fn lines_say_what_their_words_are(rt: HostRuntime) {
    check_lines(&rt, rt.alloc(), &STATEMENTS);
}

#[test]
fn lines_are_refused_at_the_first_bad_word(rt: HostRuntime) {
    check_lines(&rt, rt.alloc(), &REFUSALS);
}

// Whether the line is cleaned to that, and that to itself.
fn stays_clean(alloc: Global, cleaned: &[u8], line: &[u8]) -> bool {
    is_cleaned(alloc, cleaned, line) && is_cleaned(alloc, cleaned, cleaned)
}

#[test]
fn lines_are_cleaned(rt: HostRuntime) {
    for (line, cleaned) in &CLEANED {
        assert!(rt;
            stays_clean(rt.alloc(), cleaned.as_bytes(), line.as_bytes()),
            "{line}"
        );
    }
}

// A text, and so many letters `a` behind it.
fn with_letters(alloc: Global, front: &str, count: usize) -> Result<Vec<u8>, AllocError> {
    let mut out = front.as_bytes().to_vec(alloc)?;
    for _ in 0..count {
        out.push(b'a')?;
    }
    Ok(out)
}

// The beginning of a line, how many letters follow it, and the text of its fault; without one the line says
// itself.
static LONG_WORDS: [(&str, usize, &str); 5] = [
    ("repo ", 1024, ""),
    ("repo ", 1025, "bad word at 5"),
    ("X @all = ", 1025, "bad word at 9"),
    ("", 1025, "bad word at 0"),
    ("desc = ", 1025, "bad word at 7"),
];

fn long_line_is_said(alloc: Global, front: &str, count: usize, fault: &str) -> bool {
    match with_letters(alloc, front, count) {
        Ok(line) if fault.is_empty() => is_said(alloc, &line, &line),
        Ok(line) => is_said(alloc, fault.as_bytes(), &line),
        Err(_) => false,
    }
}

// A word of 1,024 bytes is good, and one of 1,025 is reported before every other fault.
#[test]
fn a_word_may_have_1024_bytes(rt: HostRuntime) {
    for (front, count, fault) in &LONG_WORDS {
        assert!(rt;
            long_line_is_said(rt.alloc(), front, *count, fault),
            "{front} with {count} letters"
        );
    }
}

// Whether a text is read as a user's name where it is one.
fn user_is(alloc: Global, text: &[u8], is_name: bool) -> bool {
    match UserName::parse(alloc, text) {
        Ok(Some(name)) => is_name && name.bytes() == text,
        Ok(None) => !is_name,
        Err(_) => false,
    }
}

// The same of a repository's name.
fn repo_is(alloc: Global, text: &[u8], is_name: bool) -> bool {
    match RepoName::parse(alloc, text) {
        Ok(Some(name)) => is_name && name.bytes() == text,
        Ok(None) => !is_name,
        Err(_) => false,
    }
}

#[test]
fn names_keep_their_rule(rt: HostRuntime) {
    for (name, user, repo) in &NAMES {
        let (text, alloc) = (name.as_bytes(), rt.alloc());
        assert!(rt;
            user_is(alloc, text, *user) && repo_is(alloc, text, *repo),
            "{name}"
        );
    }
}

// How many letters a name has, whether it is a user's, and whether it is a repository's.
static LENGTHS: [(usize, bool, bool); 4] = [
    (64, true, true),
    (65, false, true),
    (200, false, true),
    (201, false, false),
];

fn letters_are_names(alloc: Global, count: usize, user: bool, repo: bool) -> bool {
    match with_letters(alloc, "", count) {
        Ok(name) => UserName::is_name(&name) == user && RepoName::is_name(&name) == repo,
        Err(_) => false,
    }
}

#[test]
fn names_have_a_length(rt: HostRuntime) {
    for (count, user, repo) in &LENGTHS {
        assert!(rt;
            letters_are_names(rt.alloc(), *count, *user, *repo),
            "{count} letters"
        );
    }
}

// Two names, and how the first stands to the second.
static ORDERED: [(&str, &str, Ordering); 4] = [
    ("Ann", "ann", Ordering::Less),
    ("ann", "bob", Ordering::Less),
    ("bob", "ann", Ordering::Greater),
    ("bob", "bob", Ordering::Equal),
];

fn hash_of<T: Hash>(value: &T) -> u64 {
    let mut hasher = DefaultHasher::new();
    value.hash(&mut hasher);
    hasher.finish()
}

// Whether two are ordered so, and are equal, and have one hash, where that says so.
fn are_ordered<T: Ord + Hash>(first: &T, second: &T, due: Ordering) -> bool {
    let is_equal = due == Ordering::Equal;
    first.cmp(second) == due
        && (first == second) == is_equal
        && (hash_of(first) == hash_of(second)) == is_equal
}

fn user_is_beside(alloc: Global, first: &UserName, second: &str, due: Ordering) -> bool {
    match UserName::parse(alloc, second.as_bytes()) {
        Ok(Some(second)) => are_ordered(first, &second, due),
        _ => false,
    }
}

fn repo_is_beside(alloc: Global, first: &RepoName, second: &str, due: Ordering) -> bool {
    match RepoName::parse(alloc, second.as_bytes()) {
        Ok(Some(second)) => are_ordered(first, &second, due),
        _ => false,
    }
}

fn users_are_ordered(alloc: Global, row: &(&str, &str, Ordering)) -> bool {
    match UserName::parse(alloc, row.0.as_bytes()) {
        Ok(Some(first)) => user_is_beside(alloc, &first, row.1, row.2),
        _ => false,
    }
}

fn repos_are_ordered(alloc: Global, row: &(&str, &str, Ordering)) -> bool {
    match RepoName::parse(alloc, row.0.as_bytes()) {
        Ok(Some(first)) => repo_is_beside(alloc, &first, row.1, row.2),
        _ => false,
    }
}

// By their bytes, so they may be keys of maps.
#[test]
fn names_are_ordered(rt: HostRuntime) {
    for row in &ORDERED {
        let alloc = rt.alloc();
        assert!(rt;
            users_are_ordered(alloc, row) && repos_are_ordered(alloc, row),
            "{}",
            row.0
        );
    }
}

fn has_equal_copy_of_user(user: &UserName) -> bool {
    match user.clone() {
        Ok(copy) => copy == *user,
        Err(_) => false,
    }
}

fn has_equal_copy_of_repo(repo: &RepoName) -> bool {
    match repo.clone() {
        Ok(copy) => copy == *repo,
        Err(_) => false,
    }
}

fn user_is_copied(alloc: Global, name: &[u8]) -> bool {
    match UserName::parse(alloc, name) {
        Ok(Some(user)) => has_equal_copy_of_user(&user),
        _ => false,
    }
}

fn repo_is_copied(alloc: Global, name: &[u8]) -> bool {
    match RepoName::parse(alloc, name) {
        Ok(Some(repo)) => has_equal_copy_of_repo(&repo),
        _ => false,
    }
}

#[test]
fn copies_of_names_are_equal(rt: HostRuntime) {
    assert!(rt; user_is_copied(rt.alloc(), b"bob") && repo_is_copied(rt.alloc(), b"bob"));
}

fn is_permission(word: &[u8], text: &[u8]) -> bool {
    match Perm::parse(word) {
        Some(perm) => perm.text() == text,
        None => text.is_empty(),
    }
}

#[test]
fn permissions_are_read_from_their_words(rt: HostRuntime) {
    for (word, text) in &PERMISSIONS {
        assert!(rt; is_permission(word.as_bytes(), text.as_bytes()), "{word}");
    }
}

// What `RW+D` lets.
const READ_WRITE_REWIND_DELETE: Perm = Perm {
    deny: false,
    lone_create: false,
    read: true,
    write: true,
    rewind: true,
    create: false,
    delete: true,
    merge: false,
};

#[test]
fn a_permission_has_its_letters(rt: HostRuntime) {
    assert!(rt; Perm::parse(b"RW+D") == Some(READ_WRITE_REWIND_DELETE));
    hold_laws();
}

fn is_repo_word(word: &[u8], name: &[u8], kind: RepoWordKind) -> bool {
    repo_word(word) == name && kind_of(name) == kind
}

#[test]
fn words_name_repositories(rt: HostRuntime) {
    for (word, name, kind) in &REPO_WORDS {
        assert!(rt;
            is_repo_word(word.as_bytes(), name.as_bytes(), *kind),
            "{word}"
        );
    }
}

#[test]
fn faults_have_their_texts(rt: HostRuntime) {
    assert!(rt; is_text_of(rt.alloc(), b"out of memory", LexFault::NoMemory));
}
