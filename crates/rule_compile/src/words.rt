// What the words of a conf's lines stand for.
ghost use Rattle.std.specs.Prelude.{◌≡◌, ◌++◌, ◌<◌, length, IfOk};
ghost use Rattle.conf_lex.specs.Names.{occurs};
ghost use Rattle.rule_compile.specs.Words.{is_all, is_group, is_plain_pattern, is_repo_group, is_unknown_vref, merge_check, named, prefixed, refex_texts, repo_of, with_prefix};

use crate::RepoWord;
use base_types::{NoMemory, Text};
use bstr::ByteSlice;
use conf_lex::{RepoName, RepoWordKind, TextList, kind_of, repo_word};
use std::alloc::Global;

/// Whether it is `@all`.
pub(crate) fn is_all(word: &[u8]) -> bool
    ensures { result ≡ is_all word.now }
{
    word == b"@all".as_slice()
}

/// Whether a refex, a user or a member is a group, other than `@all`.
pub(crate) fn is_group(word: &[u8]) -> bool
    ensures { result ≡ is_group word.now }
{
    matches!(word, [b'@', ..]) && !is_all(word)
}

/// Whether a repository word is a group, other than `@all`.
pub(crate) fn is_repo_group(word: &[u8]) -> bool
    ensures { result ≡ is_repo_group word.now }
{
    match kind_of(repo_word(word)) {
        RepoWordKind::Group => !is_all(word),
        RepoWordKind::Plain | RepoWordKind::Pattern => false,
    }
}

/// Whether it is a pattern without `CREATOR`, and no group.
pub(crate) fn is_plain_pattern(word: &[u8]) -> bool
    ensures { result ≡ is_plain_pattern word.now }
{
    if RepoName::is_name(word) {
        return false;
    }
    !occurs(b"CREATOR", word)
}

/// Whether the part occurs in the text.
fn occurs(part: &[u8], text: &[u8]) -> bool
    requires { 0 < length part.now }
    ensures { result ≡ occurs part.now text.now }
{
    text.contains_str(part)
}

/// What a repository word that is no group stands for.
pub(crate) fn repo_of(alloc: Global, word: &[u8]) -> Result<RepoWord, NoMemory>
    ensures { IfOk result (λ r. r ≡ repo_of word.now) }
{
    if is_all(word) {
        return Ok(RepoWord::All);
    }
    name_or_pattern(alloc, repo_word(word))
}

#[tactic(auto, using(crate::proofs::WordLemmas::plain_word))]
fn name_or_pattern(alloc: Global, word: &[u8]) -> Result<RepoWord, NoMemory>
    ensures { IfOk result (λ r. r ≡ named word.now) }
{
    if !RepoName::is_name(word) {
        return Ok(RepoWord::Pattern(Text::of(alloc, word)?));
    }
    match RepoName::parse(alloc, word)? {
        Some(name) => Ok(RepoWord::Plain(name)),
        None => Ok(RepoWord::Pattern(Text::of(alloc, word)?)),
    }
}

fn joined(alloc: Global, first: &[u8], second: &[u8]) -> Result<Text, NoMemory>
    ensures { IfOk result (λ t. t ≡ first.now ++ second.now) }
{
    let mut text = first.to_vec(alloc)?;
    text.extend_from_slice(second)?;
    Ok(Text::from(text))
}

/// A tail after `VREF/MERGE-CHECK/` is the name of a ref.
fn merge_check(alloc: Global, word: &[u8]) -> Result<Text, NoMemory>
    ensures { IfOk result (λ t. t ≡ merge_check word.now) }
{
    if !word.starts_with(b"VREF/MERGE-CHECK/") {
        return Text::of(alloc, word);
    }
    let tail = word.split_at(17).1;
    if tail.starts_with(b"refs/") {
        return Text::of(alloc, word);
    }
    joined(alloc, b"VREF/MERGE-CHECK/refs/heads/", tail)
}

/// A refex with its prefix.
pub(crate) fn with_prefix(alloc: Global, word: &[u8]) -> Result<Text, NoMemory>
    ensures { IfOk result (λ t. t ≡ with_prefix word.now) }
{
    if word.starts_with(b"NAME/") {
        return joined(alloc, b"VREF/", word);
    }
    if word.starts_with(b"VREF/") {
        return merge_check(alloc, word);
    }
    if word.starts_with(b"refs/") {
        return Text::of(alloc, word);
    }
    joined(alloc, b"refs/heads/", word)
}

/// The refexes of a rule, each with its prefix.
pub(crate) fn refex_texts(alloc: Global, words: &[Text]) -> Result<TextList, NoMemory>
    ensures { IfOk result (λ texts. texts ≡ refex_texts words.now) }
{
    if words.is_empty() {
        let mut texts = TextList::new(alloc);
        texts.push(Text::of(alloc, b"refs/.*")?)?;
        return Ok(texts);
    }
    prefixed(alloc, words)
}

fn prefixed(alloc: Global, words: &[Text]) -> Result<TextList, NoMemory>
    ensures { IfOk result (λ texts. texts ≡ prefixed words.now) }
{
    let mut texts = TextList::new(alloc);
    for word in words {
        texts.push(with_prefix(alloc, word.bytes())?)?;
    }
    Ok(texts)
}

/// Whether a refex is of a virtual ref that is neither of `NAME` nor of `MERGE-CHECK`.
pub(crate) fn is_unknown_vref(text: &[u8]) -> bool
    ensures { result ≡ is_unknown_vref text.now }
{
    if !text.starts_with(b"VREF/") {
        return false;
    }
    let is_name = text == b"VREF/NAME".as_slice() || text.starts_with(b"VREF/NAME/");
    let is_merge_check = text == b"VREF/MERGE-CHECK".as_slice()
        || text.starts_with(b"VREF/MERGE-CHECK/");
    !(is_name || is_merge_check)
}
