// A line without its comment and its white space.
ghost use Rattle.std.specs.Prelude.{◌≡◌, ◌+◌, ◌^◌, ◌<◌, ◌++◌, ◌∷◌, IfOk, MatchOption, OnOk, false, length, map};
ghost use Rattle.conf_lex.specs.Cleaning.{before_comment, nonempty, cleaned, is_white, joined, pieces, spaced};

use base_types::{NoMemory, Text};
use bstr::ByteSlice;
use std::alloc::{AllocError, Global};

/// The line without its comment, with a space on either side of its first `=`, and with one space for each
/// run of white space between words. It costs the line's length, in time and in room.
pub fn clean(alloc: Global, line: &[u8]) -> Result<Text, NoMemory>
    ensures { IfOk result (λ text. text ≡ cleaned line.now) }
{
    let spaced = spaced(alloc, before_comment(line))?;
    let words = words(alloc, spaced.as_slice())?;
    Ok(Text::from(joined(alloc, words.as_slice())?))
}

/// The part before the comment, or the whole line where there is none.
pub(crate) fn before_comment(line: &[u8]) -> &[u8]
    ensures { result.now ≡ before_comment false line.now }
{
    let mut quoted = false;
    for (at, byte) in line.iter().enumerate() {
        if *byte == b'#' && !quoted {
            return &line[..at];
        }
        if *byte == b'"' {
            quoted = !quoted;
        }
    }
    line
}

/// A copy with a space on either side of the first `=`. It asks for room for four bytes more than the line
/// has: two for the spaces, and two so that every place in the copy, and the place after it, fits 64 bits.
pub(crate) fn spaced(alloc: Global, line: &[u8]) -> Result<Vec<u8>, AllocError>
    ensures spaced { IfOk result (λ copy. copy.items ≡ spaced line.now) }
    ensures room { IfOk result (λ copy. length copy.items + 2 < 2 ^ 64) }
{
    let Some(room) = line.len().checked_add(4) else {
        return Err(AllocError);
    };
    let mut copy = Vec::with_capacity(alloc, room)?;
    match around_equals(line) {
        None => copy.extend_from_slice(line)?,
        Some((before, after)) => {
            copy.extend_from_slice(before)?;
            copy.extend_from_slice(b" = ")?;
            copy.extend_from_slice(after)?;
        }
    }
    Ok(copy)
}

/// The parts before and after the first `=`.
fn around_equals(line: &[u8]) -> Option<(&[u8], &[u8])>
    ensures { MatchOption result (spaced line.now ≡ line.now) (λ p. spaced line.now ≡ p.0.now ++ (32 ∷ 61 ∷ 32 ∷ p.1.now)) }
{
    match line.find_byte(b'=') {
        None => None,
        Some(at) => Some((line.split_at(at).0, line.split_at(at + 1).1)),
    }
}

fn is_white(byte: u8) -> bool
    ensures { result ≡ is_white byte }
{
    matches!(byte, b' ' | b'\t' | b'\r')
}

/// The parts between white space, without empty ones.
pub(crate) fn words(alloc: Global, line: &[u8]) -> Result<Vec<&[u8]>, AllocError>
    ensures { IfOk result (λ words. map (λ w. w.now) words.items ≡ pieces is_white line.now) }
{
    let mut words = Vec::new(alloc);
    let mut start = 0;
    for (at, byte) in line.iter().enumerate() {
        if !is_white(*byte) {
            continue;
        }
        push_word(&mut words, &line[start..at])?;
        start = at + 1;
    }
    push_word(&mut words, line.split_at(start).1)?;
    Ok(words)
}

/// Adds the word, if it is one.
fn push_word<'a>(words: &mut Vec<&'a [u8]>, word: &'a [u8]) -> Result<(), AllocError>
    ensures { OnOk result (map (λ w. w.now) words.new.items ≡ map (λ w. w.now) words.old.items ++ nonempty word.now) }
{
    if !word.is_empty() {
        words.push(word)?;
    }
    Ok(())
}

/// The words with one space between each two.
fn joined(alloc: Global, words: &[&[u8]]) -> Result<Vec<u8>, AllocError>
    ensures { IfOk result (λ line. line.items ≡ joined (map (λ w. w.now) words.now)) }
{
    let mut line = Vec::new(alloc);
    let Some((first, others)) = words.split_first() else {
        return Ok(line);
    };
    line.extend_from_slice(first)?;
    for word in others {
        line.push(b' ')?;
        line.extend_from_slice(word)?;
    }
    Ok(line)
}
