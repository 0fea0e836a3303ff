// Which word may be where.
ghost use Rattle.std.specs.Prelude.{◌≡◌, ◌+◌, ◌^◌, ◌<◌, ℕ, length, map};
ghost use Rattle.conf_lex.specs.Words.{first_bad, is_bad, is_equals, is_group_word, is_user_word, place_after};

use crate::UserName;
use crate::names::is_role;

/// How many bytes a word has at most.
pub const MAX_WORD: usize = 1024;

/// What a word of a line is for, by which it is good or bad.
#[derive(Clone, Copy)]
pub(crate) enum Use {
    /// Anything: it isn't too long.
    Anything,
    /// One of a block's repositories.
    Repository,
    /// A member of a group.
    Member,
    /// A pattern for refs.
    Refex,
    /// A user, or a word for users.
    User,
}

pub(crate) fn is_equals(word: &[u8]) -> bool
    ensures { result ≡ is_equals word.now }
{
    word == b"=".as_slice()
}

fn is_group_word(word: &[u8]) -> bool
    ensures { result ≡ is_group_word word.now }
{
    match word {
        [b'@', ..] => word.len() > 1,
        _ => false,
    }
}

fn is_user_word(word: &[u8]) -> bool
    ensures { result ≡ is_user_word word.now }
{
    UserName::is_name(word) || is_role(word) || is_group_word(word)
}

/// Whether a word may not be what it is for.
fn is_bad(purpose: Use, word: &[u8]) -> bool
    ensures { result ≡ is_bad purpose word.now }
{
    match purpose {
        Use::Anything => word.len() > MAX_WORD,
        Use::Repository => is_equals(word),
        Use::Member => is_equals(word) || word == b"@all".as_slice(),
        Use::Refex => word == b"@all".as_slice(),
        Use::User => !is_user_word(word),
    }
}

/// The place of the first bad word, where the first of the words has the place `start`.
pub(crate) fn first_bad(purpose: Use, start: u64, words: &[&[u8]]) -> Option<u64>
    requires { start + place_after (map (λ w. w.now) words.now) < 2 ^ 64 }
    ensures { result ≡ first_bad purpose start (map (λ w. w.now) words.now) }
{
    let mut at = start;
    for word in words {
        if is_bad(purpose, word) {
            return Some(at);
        }
        at += word.len() as u64 + 1;
    }
    None
}

/// The place of a word that follows these words.
pub(crate) fn place_after(words: &[&[u8]]) -> u64
    requires { place_after (map (λ w. w.now) words.now) < 2 ^ 64 }
    ensures { result ≡ place_after (map (λ w. w.now) words.now) }
{
    let mut sum = 0;
    for word in words {
        sum += word.len() as u64 + 1;
    }
    sum
}
