// Which words may be roles.
ghost use Rattle.std.specs.Prelude.{◌≡◌, codes, ℕ, false, true, IfNone, IfSome, List};
ghost use Rattle.std.specs.List.{list_all};
ghost use Rattle.std.specs.Str.{bytes_eq};
ghost use Rattle.rule_compile.specs.Roles.{begins_with_uppercase, is_common_role, is_role_byte, is_role_name, role_key};

use crate::MAX_ROLE_NAME;

/// Whether it is one of the two roles that every repository has.
pub(crate) fn is_common_role(word: &[u8]) -> bool
    ensures { result ≡ is_common_role word.now }
{
    word == b"READERS".as_slice() || word == b"WRITERS".as_slice()
}

/// Whether it is what a role's name may be.
pub(crate) fn is_role_name(word: &[u8]) -> bool
    ensures { result ≡ is_role_name word.now }
{
    if word.len() > MAX_ROLE_NAME {
        return false;
    }
    begins_with_uppercase(word) && all_role_bytes(word) && !is_creator_word(word)
}

/// The role that the key of an option declares, if it is such a key.
pub(crate) fn role_of(key: &[u8]) -> Option<&[u8]>
    ensures role { IfSome result (λ word. (key.now ≡ role_key word.now) × (is_role_name word.now ≡ true)) }
    ensures none { IfNone result ((word : List ℕ) → is_role_name word ≡ true → bytes_eq key.now (role_key word) ≡ false) }
{
    match key.strip_prefix(b"role.") {
        Some(word) if is_role_name(word) => Some(word),
        _ => None,
    }
}

fn begins_with_uppercase(word: &[u8]) -> bool
    ensures { result ≡ begins_with_uppercase word.now }
{
    match word {
        [first, ..] => first.is_ascii_uppercase(),
        [] => false,
    }
}

fn all_role_bytes(word: &[u8]) -> bool
    ensures { result ≡ list_all is_role_byte word.now }
{
    word.iter().all(|c| is_role_byte(*c))
}

fn is_creator_word(word: &[u8]) -> bool
    ensures { result ≡ bytes_eq word.now (codes "CREATOR") }
{
    word == b"CREATOR".as_slice()
}

fn is_role_byte(c: u8) -> bool
    ensures { result ≡ is_role_byte c }
{
    c.is_ascii_uppercase() || c.is_ascii_digit() || c == b'_'
}
