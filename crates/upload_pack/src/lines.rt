// What a line of a client says that fetches.
ghost use Rattle.std.specs.Prelude.{◌≡◌};
ghost use Rattle.std.specs.Option.{option_map};
ghost use Rattle.upload_pack.specs.Lines.{are_words, first_want, have, id_behind, is_done, is_nothing, want};

use git_object::{ObjectId, hex_id, literal};

/// What the first want wants. Words behind a space have no effect.
pub fn first_want(line: &[u8]) -> Option<ObjectId>
    ensures { result ≡ first_want line.now }
{
    let (id, rest) = id_behind(line, b"want ")?;
    if are_words(rest) {
        return Some(id);
    }
    None
}

/// What a later want wants.
pub fn want(line: &[u8]) -> Option<ObjectId>
    ensures { result ≡ want line.now }
{
    let (id, rest) = id_behind(line, b"want ")?;
    if is_nothing(rest) {
        return Some(id);
    }
    None
}

/// What the client has.
pub fn have(line: &[u8]) -> Option<ObjectId>
    ensures { result ≡ have line.now }
{
    let (id, rest) = id_behind(line, b"have ")?;
    if is_nothing(rest) {
        return Some(id);
    }
    None
}

/// Whether the client has no more to say.
pub fn is_done(line: &[u8]) -> bool
    ensures { result ≡ is_done line.now }
{
    line == b"done".as_slice()
}

// The id of forty digits behind a word, and what follows it.
#[tactic(auto, unfolding(crate::specs::Lines::id_behind))]
fn id_behind<'a>(line: &'a [u8], word: &[u8]) -> Option<(ObjectId, &'a [u8])>
    ensures { option_map (λ r. (r.0, r.1.now)) result ≡ id_behind word.now line.now }
{
    let digits = literal(line, word)?;
    hex_id(digits)
}

fn is_nothing(text: &[u8]) -> bool
    ensures { result ≡ is_nothing text.now }
{
    text.is_empty()
}

// Whether a text is nothing, or a space and any words.
fn are_words(text: &[u8]) -> bool
    ensures { result ≡ are_words text.now }
{
    is_nothing(text) || literal(text, b" ").is_some()
}
