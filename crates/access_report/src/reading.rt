// How questions are read, line by line.
ghost use Rattle.std.specs.Prelude.{◌≡◌, ◌&&◌, ◌≤◌, IfOk, None, OnErr, OnOk, Some, codes, length};
ghost use Rattle.std.specs.List.{list_all, slice_split};
ghost use Rattle.access_report.specs.Lists.{QuestionLists};
ghost use Rattle.access_report.specs.Reading.{Reads, ReadsLines, SaysOf, SaysOfRole, pieces, all_repos, are_too_many_of, created_repo, fault_text, has_role, is_role_byte, is_role_word, lists_of, nothing, once, plain_repo, read, reading, ref_line, ref_named, repo_line, role_line, unless_too_many, user_line, with_line, with_repo, with_role};

use crate::lists::{AskedRepo, MOST_ASKED, MOST_QUESTIONS, Questions};
use base_types::{ItemList, NameMap, NoMemory, Text};
use conf_lex::{RepoName, UserName};
use git_object::{literal, up_to};
use ref_store::RefName;
use std::alloc::{AllocError, Global};
use std::error::Error;
use std::fmt;
use wild_perms::{PermsAnswer, Wild};

// How many bytes the name of a role has at most.
const MAX_ROLE_WORD: usize = 64;

/// Why a text isn't read as questions.
#[derive(Clone, Copy, Debug, PartialEq, Eq)]
pub enum AskFault {
    /// The line of this number, from 1, is the first that has none of the forms, or names what can't be one,
    /// or repeats an earlier line.
    BadLine(u32),
    /// There are more than 1,000 repositories, users or refs, or than 1,000,000 questions.
    TooMany,
    NoMemory,
}

impl fmt::Display for AskFault {
    ghost output = { λ fault. Some (fault_text fault) };

    fn fmt<W: fmt::Write>(&self, f: &mut fmt::Formatter<W>) -> fmt::Result {
        match self {
            AskFault::BadLine(number) => write!(f, "bad question at line {number}"),
            AskFault::TooMany => write!(f, "too many questions"),
            AskFault::NoMemory => write!(f, "out of memory"),
        }
    }
}

impl Error for AskFault {}

impl From<NoMemory> for AskFault {
    ghost use Rattle.access_report.specs.declared.reading.AskFault.TheVariants as fault;

    ghost from_gives = { λ _ e. e ≡ fault.NoMemory };

    fn from(_: NoMemory) -> AskFault {
        AskFault::NoMemory
    }
}

/// What the lines so far ask for.
#[derive(Drop)]
pub(crate) struct Reading {
    /// The repositories before the last one.
    repos: ItemList<AskedRepo>,
    last: Option<AskedRepo>,
    users: ItemList<UserName>,
    refs: ItemList<RefName>,
    /// The `repo`, `user` and `ref` lines.
    lines: NameMap<bool>,
}

impl Reading {
    fn new(alloc: Global) -> Reading
        ensures { result ≡ nothing }
    {
        Reading {
            repos: ItemList::new(alloc),
            last: None,
            users: ItemList::new(alloc),
            refs: ItemList::new(alloc),
            lines: NameMap::new(alloc),
        }
    }

    // Adds what a line asks for. Where that is bad it returns `false`.
    #[tactic(auto, unfolding(crate::specs::Reading::with_line))]
    fn read_line(&mut self, alloc: Global, line: &[u8]) -> Result<bool, NoMemory>
        ensures { IfOk result (SaysOf (with_line self.old line.now) self.new) }
    {
        if let Some(words) = literal(line, b"repo ") {
            return self.read_repo(alloc, line, words);
        }
        if let Some(words) = literal(line, b"role ") {
            return self.read_role(alloc, words);
        }
        if let Some(word) = literal(line, b"user ") {
            return self.read_user(alloc, line, word);
        }
        if let Some(word) = literal(line, b"ref ") {
            return self.read_ref(alloc, line, word);
        }
        Ok(false)
    }

    // Adds a line to the set of them, unless it is there.
    fn is_new(&mut self, alloc: Global, line: &[u8]) -> Result<bool, NoMemory>
        ensures { IfOk result (SaysOf (once self.old line.now self.old) self.new) }
    {
        let line = Text::of(alloc, line)?;
        if self.lines.get(&line).is_some() {
            return Ok(false);
        }
        self.lines.insert(line, true)?;
        Ok(true)
    }

    // A `repo` line.
    #[tactic(auto, unfolding(crate::specs::Reading::repo_line))]
    fn read_repo(&mut self, alloc: Global, line: &[u8], words: &[u8]) -> Result<bool, NoMemory>
        ensures { IfOk result (SaysOf (repo_line self.old line.now words.now) self.new) }
    {
        match up_to(words, b' ') {
            Some((name, rest)) => self.read_created(alloc, line, name, rest),
            None => self.read_plain(alloc, line, words),
        }
    }

    // `NAME`
    fn read_plain(&mut self, alloc: Global, line: &[u8], name: &[u8]) -> Result<bool, NoMemory>
        ensures { IfOk result (SaysOf (plain_repo self.old line.now name.now) self.new) }
    {
        let Some(name) = RepoName::parse(alloc, name)? else {
            return Ok(false);
        };
        let wild = Wild::plain(alloc);
        self.add_repo(alloc, line, AskedRepo { name, wild })
    }

    // `NAME creator USER`
    fn read_created(
        &mut self,
        alloc: Global,
        line: &[u8],
        name: &[u8],
        rest: &[u8],
    ) -> Result<bool, NoMemory>
        ensures { IfOk result (SaysOf (created_repo self.old line.now name.now rest.now) self.new) }
    {
        let Some(name) = RepoName::parse(alloc, name)? else {
            return Ok(false);
        };
        let Some(word) = literal(rest, b"creator ") else {
            return Ok(false);
        };
        let Some(creator) = UserName::parse(alloc, word)? else {
            return Ok(false);
        };
        let wild = Wild::born(alloc, creator);
        self.add_repo(alloc, line, AskedRepo { name, wild })
    }

    fn add_repo(&mut self, alloc: Global, line: &[u8], repo: AskedRepo) -> Result<bool, NoMemory>
        ensures { IfOk result (SaysOf (with_repo self.old line.now repo) self.new) }
    {
        if !self.is_new(alloc, line)? {
            return Ok(false);
        }
        self.end_repo()?;
        self.last = Some(repo);
        Ok(true)
    }

    // Puts the last repository to the others.
    fn end_repo(&mut self) -> Result<(), NoMemory>
        ensures { OnOk result (self.new ≡ record self.old { repos = all_repos self.old.repos self.old.last; last = None }) }
    {
        if let Some(repo) = self.last.take() {
            self.repos.push(repo)?;
        }
        Ok(())
    }

    // `ROLE USER`
    #[tactic(auto, unfolding(crate::specs::Reading::role_line))]
    fn read_role(&mut self, alloc: Global, words: &[u8]) -> Result<bool, NoMemory>
        ensures { IfOk result (SaysOf (role_line self.old words.now) self.new) }
    {
        let Some((role, user)) = up_to(words, b' ') else {
            return Ok(false);
        };
        if !is_role_word(role) {
            return Ok(false);
        }
        let Some(user) = UserName::parse(alloc, user)? else {
            return Ok(false);
        };
        let Some(repo) = self.last.as_mut() else {
            return Ok(false);
        };
        add_role(repo, role, &user)
    }

    // `NAME`
    fn read_user(&mut self, alloc: Global, line: &[u8], word: &[u8]) -> Result<bool, NoMemory>
        ensures { IfOk result (SaysOf (user_line self.old line.now word.now) self.new) }
    {
        let Some(name) = UserName::parse(alloc, word)? else {
            return Ok(false);
        };
        if !self.is_new(alloc, line)? {
            return Ok(false);
        }
        self.users.push(name)?;
        Ok(true)
    }

    // `REF`
    fn read_ref(&mut self, alloc: Global, line: &[u8], word: &[u8]) -> Result<bool, NoMemory>
        ensures { IfOk result (SaysOf (ref_line self.old line.now word.now) self.new) }
    {
        let Some(name) = ref_named(alloc, word)? else {
            return Ok(false);
        };
        if !self.is_new(alloc, line)? {
            return Ok(false);
        }
        self.refs.push(name)?;
        Ok(true)
    }

    // What the lines asked for, unless that is too much.
    fn end(mut self) -> Result<Questions, AskFault>
        ensures { Reads (unless_too_many (lists_of self)) result }
    {
        self.end_repo()?;
        let Reading {
            repos,
            users,
            refs,
            ..
        } = self;
        if are_too_many(repos.len(), users.len(), refs.len()) {
            return Err(AskFault::TooMany);
        }
        Ok(Questions::of(repos, users, refs))
    }
}

// The name of a ref, where the word is one.
#[tactic(auto, unfolding(crate::specs::Reading::ref_named))]
fn ref_named(alloc: Global, word: &[u8]) -> Result<Option<RefName>, NoMemory>
    ensures { IfOk result (λ name. name ≡ ref_named word.now) }
{
    RefName::parse(alloc, word)
}

fn is_role_byte(byte: u8) -> bool
    ensures { result ≡ is_role_byte byte }
{
    byte.is_ascii_alphanumeric() || byte == b'-' || byte == b'_'
}

// 1 to 64 letters, digits, `-` and `_`.
fn is_role_word(role: &[u8]) -> bool
    ensures { result ≡ is_role_word role.now }
{
    if role.is_empty() || role.len() > MAX_ROLE_WORD {
        return false;
    }
    all_role_bytes(role)
}

fn all_role_bytes(word: &[u8]) -> bool
    ensures { result ≡ list_all is_role_byte word.now }
{
    word.iter().all(|byte| is_role_byte(*byte))
}

// Gives a user a role, as the creator would. Where there is no creator, or the user holds it, it returns
// `false`.
fn add_role(repo: &mut AskedRepo, role: &[u8], user: &UserName) -> Result<bool, NoMemory>
    ensures { IfOk result (SaysOfRole (with_role repo.old role.now user.now) repo.new) }
{
    let Some(creator) = repo.wild.creator() else {
        return Ok(false);
    };
    let creator = creator.clone()?;
    match repo.wild.grant(&creator, role, user, true) {
        PermsAnswer::Changed => Ok(true),
        PermsAnswer::NoMemory => Err(NoMemory),
        _ => Ok(false),
    }
}

fn are_too_many(repos: usize, users: usize, refs: usize) -> bool
    ensures { result ≡ are_too_many_of repos users refs }
{
    if repos > MOST_ASKED || users > MOST_ASKED || refs > MOST_ASKED {
        return true;
    }
    repos as u64 * users as u64 * (2 + 4 * refs as u64) > MOST_QUESTIONS
}

/// Reads what is asked, in lines. It costs the text; that a role is new, the logarithm of the roles of its
/// repository, behind which its entry is put in place.
pub fn read_questions(alloc: Global, text: &[u8]) -> Result<Questions, AskFault>
    requires { length text.now ≤ 300000000 }
    ensures { Reads (read text.now) result }
{
    let mut so_far = Reading::new(alloc);
    read_lines(alloc, &mut so_far, text)?;
    so_far.end()
}

// Reads all lines.
fn read_lines(alloc: Global, so_far: &mut Reading, text: &[u8]) -> Result<(), AskFault>
    requires { length text.now ≤ 300000000 }
    ensures { ReadsLines (reading so_far.old 1 (pieces text.now)) so_far.new result }
{
    let mut rest = text;
    let mut number = 1;
    while let Some((line, behind)) = up_to(rest, b'\n') {
        if !so_far.read_line(alloc, line)? {
            return Err(AskFault::BadLine(number));
        }
        number += 1;
        rest = behind;
    }
    if rest.is_empty() {
        return Ok(());
    }
    Err(AskFault::BadLine(number))
}
