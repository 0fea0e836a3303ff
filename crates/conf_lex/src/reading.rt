// The table of statements.
ghost use Rattle.std.specs.Prelude.{◌≡◌, ◌∷◌, ◌++◌, ◌+◌, ◌==◌, ◌-◌, ◌^◌, ◌<◌, ◌≤◌, ◌&&◌, ℕ, List, codes, length, map, IfOk, IfSome, is_some, if◌then◌else◌};
ghost use Rattle.std.specs.Str.{bytes_eq};
ghost use Rattle.conf_lex.specs.declared.statement.Statement.TheVariants.{Opt};
ghost use Rattle.conf_lex.specs.declared.words.Use.TheVariants.{User};
ghost use Rattle.conf_lex.specs.Words.{begins_with_at, after_equals, before_equals, first_bad, has_equals, is_equals, place_after};
ghost use Rattle.conf_lex.specs.Permissions.{perm_of};
ghost use Rattle.conf_lex.specs.Statements.{IsDue, bad_in_rule, by_table, by_words, group_line, is_no_group, is_without_effect, nth, repo_line, rows_with_equals, rule_line, statement, unquoted};

use crate::cleaning::{before_comment, spaced, words};
use crate::words::{Use, first_bad, is_equals, place_after};
use crate::{LexFault, Perm, Statement, TextList};
use base_types::{NoMemory, Text};
use std::alloc::Global;

/// What the line says, by the table of `docs/CONF.md`, or its first fault. It costs the line's length, in
/// time and in room.
#[tactic(auto, using(crate::proofs::WordLemmas::words_of_cleaned, crate::proofs::PlaceLemmas::place_after_pieces))]
pub fn read_line(alloc: Global, line: &[u8]) -> Result<Statement, LexFault>
    ensures { IsDue result (statement line.now) }
{
    let spaced = spaced(alloc, before_comment(line))?;
    let words = words(alloc, spaced.as_slice())?;
    read_words(alloc, words.as_slice())
}

/// What a line of these words says.
fn read_words(alloc: Global, words: &[&[u8]]) -> Result<Statement, LexFault>
    requires { place_after (map (λ w. w.now) words.now) < 2 ^ 64 }
    ensures { IsDue result (by_words (map (λ w. w.now) words.now)) }
{
    if let Some(at) = first_bad(Use::Anything, 0, words) {
        return Err(LexFault::BadWord(at));
    }
    let Some((first, rest)) = words.split_first() else {
        return Ok(Statement::Blank);
    };
    by_first_word(alloc, first, rest)
}

/// The first row of the table that applies, by the first word and those after it.
fn by_first_word(alloc: Global, first: &[u8], rest: &[&[u8]]) -> Result<Statement, LexFault>
    requires { length first.now + 1 + place_after (map (λ w. w.now) rest.now) < 2 ^ 64 }
    ensures { IsDue result (by_table (first.now ∷ map (λ w. w.now) rest.now)) }
{
    if first == b"repo".as_slice() {
        return read_repo(alloc, rest);
    }
    if first == b"include".as_slice() && rest.len() == 1 {
        let pattern = Text::of(alloc, unquoted(rest[0]))?;
        return Ok(Statement::Include { pattern });
    }
    if first == b"subconf".as_slice() && rest.len() == 1 {
        let pattern = Text::of(alloc, unquoted(rest[0]))?;
        return Ok(Statement::Subconf { pattern });
    }
    if is_group_head(first, rest) {
        return read_group(alloc, first, rest.split_at(1).1);
    }
    if is_option(first, rest) {
        return read_option(alloc, rest);
    }
    read_with_equals(alloc, first, rest)
}

/// The rows that want an `=` word, whatever its place.
#[tactic(auto, using(crate::proofs::PlaceLemmas::place_after_around))]
fn read_with_equals(alloc: Global, first: &[u8], rest: &[&[u8]]) -> Result<Statement, LexFault>
    requires { length first.now + 1 + place_after (map (λ w. w.now) rest.now) < 2 ^ 64 }
    ensures { IsDue result (rows_with_equals first.now (map (λ w. w.now) rest.now)) }
{
    let Some((refexes, users)) = around_equals(rest) else {
        if is_equals(first) {
            return Err(LexFault::BadPermission);
        }
        return Err(LexFault::NotAStatement);
    };
    if is_without_effect(first) {
        return Ok(Statement::NoEffect);
    }
    read_rule(alloc, first, refexes, users)
}

/// `repo WORD ..`, by the words after the first.
fn read_repo(alloc: Global, words: &[&[u8]]) -> Result<Statement, LexFault>
    requires { 5 + place_after (map (λ w. w.now) words.now) < 2 ^ 64 }
    ensures { IsDue result (repo_line (map (λ w. w.now) words.now)) }
{
    if words.is_empty() {
        return Err(LexFault::NotAStatement);
    }
    if let Some(at) = first_bad(Use::Repository, 5, words) {
        return Err(LexFault::BadWord(at));
    }
    let words = texts(alloc, words)?;
    Ok(Statement::Repo { words })
}

/// `@NAME = MEMBER ..`, by the name and the members.
fn read_group(alloc: Global, name: &[u8], members: &[&[u8]]) -> Result<Statement, LexFault>
    requires { length name.now + 3 + place_after (map (λ w. w.now) members.now) < 2 ^ 64 }
    ensures { IsDue result (group_line name.now (map (λ w. w.now) members.now)) }
{
    if is_no_group(name) {
        return Err(LexFault::BadWord(0));
    }
    if let Some(at) = first_bad(Use::Member, name.len() as u64 + 3, members) {
        return Err(LexFault::BadWord(at));
    }
    let name = Text::of(alloc, name)?;
    let members = texts(alloc, members)?;
    Ok(Statement::Group { name, members })
}

/// `PERMISSION REFEX .. = USER ..`, by the words before and after the first `=`.
fn read_rule(
    alloc: Global,
    first: &[u8],
    refexes: &[&[u8]],
    users: &[&[u8]],
) -> Result<Statement, LexFault>
    requires { length first.now + 3 + place_after (map (λ w. w.now) refexes.now) + place_after (map (λ w. w.now) users.now) < 2 ^ 64 }
    ensures { IsDue result (rule_line first.now (map (λ w. w.now) refexes.now) (map (λ w. w.now) users.now) (perm_of first.now)) }
{
    let Some(perm) = Perm::parse(first) else {
        return Err(LexFault::BadPermission);
    };
    if let Some(at) = bad_in_rule(first, refexes, users) {
        return Err(LexFault::BadWord(at));
    }
    let refexes = texts(alloc, refexes)?;
    let users = texts(alloc, users)?;
    Ok(Statement::Rule {
        perm,
        refexes,
        users,
    })
}

/// The first bad word of a rule, a refex or a user; where there is no user, the line's end.
#[tactic(auto, using(crate::proofs::PlaceLemmas::rule_end, crate::proofs::PlaceLemmas::users_at))]
fn bad_in_rule(perm: &[u8], refexes: &[&[u8]], users: &[&[u8]]) -> Option<u64>
    requires { length perm.now + 3 + place_after (map (λ w. w.now) refexes.now) + place_after (map (λ w. w.now) users.now) < 2 ^ 64 }
    ensures { result ≡ bad_in_rule perm.now (map (λ w. w.now) refexes.now) (map (λ w. w.now) users.now) }
{
    let after_perm = perm.len() as u64 + 1;
    match first_bad(Use::Refex, after_perm, refexes) {
        Some(at) => Some(at),
        None => bad_user(after_perm + place_after(refexes) + 2, users),
    }
}

/// The first bad word of users that begin at this place; where there are none, the place before, which is the
/// line's length.
fn bad_user(start: u64, users: &[&[u8]]) -> Option<u64>
    requires positive { 0 < start }
    requires room { start + place_after (map (λ w. w.now) users.now) < 2 ^ 64 }
    ensures { result ≡ (if length users.now == 0 then Some (start - 1) else first_bad User start (map (λ w. w.now) users.now)) }
{
    if users.is_empty() {
        return Some(start - 1);
    }
    first_bad(Use::User, start, users)
}

/// The words as texts.
fn texts(alloc: Global, words: &[&[u8]]) -> Result<TextList, NoMemory>
    ensures { IfOk result (λ list. list ≡ map (λ w. w.now) words.now) }
{
    let mut list = TextList::new(alloc);
    for word in words {
        list.push(Text::of(alloc, word)?)?;
    }
    Ok(list)
}

/// The words before the first `=`, and those after it.
fn around_equals<'a, 'b>(words: &'a [&'b [u8]]) -> Option<(&'a [&'b [u8]], &'a [&'b [u8]])>
    ensures some { is_some result ≡ has_equals (map (λ w. w.now) words.now) }
    ensures before { IfSome result (λ p. map (λ w. w.now) p.0.now ≡ before_equals (map (λ w. w.now) words.now)) }
    ensures after { IfSome result (λ p. map (λ w. w.now) p.1.now ≡ after_equals (map (λ w. w.now) words.now)) }
{
    for (at, word) in words.iter().enumerate() {
        if is_equals(word) {
            return Some((&words[..at], words.split_at(at + 1).1));
        }
    }
    None
}

fn is_group_head(first: &[u8], rest: &[&[u8]]) -> bool
    ensures { result ≡ (begins_with_at first.now && is_equals (nth (map (λ w. w.now) rest.now) 0)) }
{
    match (first, rest) {
        ([b'@', ..], [second, ..]) => is_equals(second),
        _ => false,
    }
}

fn is_no_group(name: &[u8]) -> bool
    ensures { result ≡ is_no_group name.now }
{
    name == b"@".as_slice() || name == b"@all".as_slice()
}

/// `option KEY = VALUE`
fn is_option(first: &[u8], rest: &[&[u8]]) -> bool
    ensures { result ≡ (bytes_eq first.now (codes "option") && (length rest.now == 3) && is_equals (nth (map (λ w. w.now) rest.now) 1)) }
{
    first == b"option".as_slice() && rest.len() == 3 && is_equals(rest[1])
}

/// The option of these words, the key first and the value last.
fn read_option(alloc: Global, words: &[&[u8]]) -> Result<Statement, LexFault>
    requires { length words.now ≡ 3 }
    ensures { IsDue result (Ok (Opt (nth (map (λ w. w.now) words.now) 0) (nth (map (λ w. w.now) words.now) 2))) }
{
    let key = Text::of(alloc, words[0])?;
    let value = Text::of(alloc, words[2])?;
    Ok(Statement::Opt { key, value })
}

fn is_without_effect(word: &[u8]) -> bool
    ensures { result ≡ is_without_effect word.now }
{
    word == b"config".as_slice()
        || word == b"desc".as_slice()
        || word == b"owner".as_slice()
        || word == b"category".as_slice()
}

/// The word without a pair of double or of single quotes round it.
fn unquoted(word: &[u8]) -> &[u8]
    ensures { result.now ≡ unquoted word.now }
{
    match word.split_first() {
        Some((quote, rest)) if (*quote == b'"' || *quote == b'\'') && rest.ends_with(&[*quote]) =>
            rest.split_at(rest.len() - 1).0,
        _ => word,
    }
}
