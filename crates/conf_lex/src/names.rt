// What the rules of both kinds of names have in common.
ghost use Rattle.std.specs.Prelude.{◌≡◌, ◌<◌, length};
ghost use Rattle.std.specs.List.{list_any, list_all};
ghost use Rattle.conf_lex.specs.Names.{begins_with_letter_or_digit, is_name_byte, is_piece, is_role, name_pieces, occurs};

use bstr::ByteSlice;

pub(crate) fn begins_with_letter_or_digit(name: &[u8]) -> bool
    ensures { result ≡ begins_with_letter_or_digit name.now }
{
    match name {
        [first, ..] => first.is_ascii_alphanumeric(),
        [] => false,
    }
}

pub(crate) fn is_name_byte(others: &[u8], c: u8) -> bool
    ensures { result ≡ is_name_byte others.now c }
{
    c.is_ascii_alphanumeric() || others.contains(&c)
}

pub(crate) fn all_name_bytes(others: &[u8], name: &[u8]) -> bool
    ensures { result ≡ list_all (is_name_byte others.now) name.now }
{
    name.iter().all(|c| is_name_byte(others, *c))
}

/// Whether it is one of the three words for users by what they are to a repository.
pub(crate) fn is_role(word: &[u8]) -> bool
    ensures { result ≡ is_role word.now }
{
    word == b"CREATOR".as_slice() || word == b"READERS".as_slice() || word == b"WRITERS".as_slice()
}

fn is_piece(piece: &[u8]) -> bool
    ensures { result ≡ is_piece piece.now }
{
    !piece.is_empty() && !piece.starts_with(b".")
}

pub(crate) fn all_pieces(name: &[u8]) -> bool
    ensures { result ≡ list_all is_piece (name_pieces name.now) }
{
    name.split(|c| *c == b'/').all(|piece| is_piece(piece))
}

/// Whether the part occurs in the text.
pub(crate) fn occurs(part: &[u8], text: &[u8]) -> bool
    requires { 0 < length part.now }
    ensures { result ≡ occurs part.now text.now }
{
    text.contains_str(part)
}
