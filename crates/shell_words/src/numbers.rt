// Numbers as words.
ghost use Rattle.std.specs.Prelude.{◌≡◌, ◌≤◌, IfSome};
ghost use Rattle.shell_words.specs.Numbers.{number_in};

use itoa::Buffer;
use std::str;

/// The greatest number of workers.
pub(crate) const MAX_WORKERS: u64 = 8;

/// The greatest number of sessions for each worker.
pub(crate) const MAX_SESSIONS: u64 = 1_000_000;

/// The greatest number of repositories that are loaded.
pub(crate) const MAX_LOADED: u64 = 5_000;

/// The greatest number at which a load starts.
pub(crate) const LAST_START: u64 = 4_294_967_295;

/// The number whose decimal digits the word is, as it would be printed, where it is one from `least` to
/// `most`.
pub(crate) fn number_in(least: u64, most: u64, word: &[u8]) -> Option<u64>
    ensures value { result ≡ number_in least most word.now }
    ensures range { IfSome result (λ n. (least ≤ n) × (n ≤ most)) }
{
    let Ok(text) = str::from_utf8(word) else {
        return None;
    };
    let Ok(number) = text.parse::<u64>() else {
        return None;
    };
    if Buffer::new().format(number) != text {
        return None;
    }
    if number < least || number > most {
        return None;
    }
    Some(number)
}
