// Names of refs.
ghost use Rattle.std.specs.Prelude.{◌≡◌, ◌==◌, ◌&&◌, ◌∷◌, [], codes, IfOk, if◌then◌else◌, length, nat_eq, nat_le, None, not, Some, true};
ghost use Rattle.std.specs.List.{ends_with, list_all, starts_with};
ghost use Rattle.std.proofs.Common.{rules};
ghost use Rattle.std.specs.Cmp.Rules.{comparing};
ghost use lib.Pointwise.{pointwise};
ghost use Rattle.ref_store.specs.RefName.{is_piece, is_ref_byte, is_ref_name, occurs, pieces};

use base_types::{NoMemory, Text};
use std::alloc::{AllocError, Global};
use std::marker::Model;

/// How many bytes a ref's name has at most.
pub const MAX_NAME: usize = 1024;

/// The name of a ref. It is compared as its bytes are.
#[derive(Drop)]
pub struct RefName {
    text: Text,
}

impl Model for RefName {
    ghost use Rattle.std.specs.Prelude.{List, ℕ, ◌≡◌, true};
    ghost use Rattle.ref_store.specs.RefName.{is_ref_name};

    ghost Value = { List ℕ };

    ghost view = { λ n. n.text };

    ghost invariant = { λ n. is_ref_name n.text ≡ true };
}

impl RefName {
    /// The name of these bytes, which are copied, or none where they break a rule.
    pub fn parse(alloc: Global, text: &[u8]) -> Result<Option<RefName>, NoMemory>
        ensures { IfOk result (λ r. r ≡ (if is_ref_name text.now then Some text.now else None)) }
    {
        if !RefName::is_name(text) {
            return Ok(None);
        }
        let text = Text::of(alloc, text)?;
        Ok(Some(RefName { text }))
    }

    /// Whether `parse` would give a name. It takes no memory.
    pub fn is_name(text: &[u8]) -> bool
        ensures { result ≡ is_ref_name text.now }
    {
        is_ref_name(text)
    }

    /// The name whose text is known to keep the rule, which isn't looked at again.
    pub fn known(text: Text) -> RefName
        requires { is_ref_name text ≡ true }
        ensures { result ≡ text }
    {
        RefName { text }
    }

    pub fn bytes(&self) -> &[u8]
        ensures bytes { result.now ≡ self.now }
        ensures rule { is_ref_name result.now ≡ true }
    {
        self.text.bytes()
    }

    pub(crate) fn text(&self) -> &Text
        ensures { result.now ≡ self.now }
    {
        &self.text
    }
}

impl Clone for RefName {
    ghost is_clone = { λ name copy. copy ≡ name };

    fn clone(&self) -> Result<RefName, AllocError> {
        Ok(RefName {
            text: self.text.clone()?,
        })
    }
}

impl PartialEq for RefName {
    ghost eq = { pointwise nat_eq };

    ghost laws = { Prim.search (comparing, rules) };

    fn eq(&self, other: &RefName) -> bool {
        self.bytes() == other.bytes()
    }
}

impl Eq for RefName {
    ghost laws = { Prim.search (comparing, rules) };
}

fn is_ref_name(text: &[u8]) -> bool
    ensures { result ≡ is_ref_name text.now }
{
    if text.len() > MAX_NAME || !text.starts_with(b"refs/") {
        return false;
    }
    if !has_three_pieces(text) || !all_pieces(text) || !all_ref_bytes(text) {
        return false;
    }
    !occurs(b'.', b'.', text) && !occurs(b'@', b'{', text) && !text.ends_with(b".")
}

fn all_ref_bytes(text: &[u8]) -> bool
    ensures { result ≡ list_all is_ref_byte text.now }
{
    text.iter().all(|c| is_ref_byte(*c))
}

fn is_ref_byte(c: u8) -> bool
    ensures { result ≡ is_ref_byte c }
{
    !matches!(
        c,
        0..=32 | 127 | b'~' | b'^' | b':' | b'?' | b'*' | b'[' | b'\\'
    )
}

// As many pieces as slashes, and one more. It looks no further than the second slash.
fn has_three_pieces(text: &[u8]) -> bool
    ensures { result ≡ nat_le 3 (length (pieces text.now)) }
{
    let mut one = false;
    for c in text {
        if *c == b'/' {
            if one {
                return true;
            }
            one = true;
        }
    }
    false
}

fn is_piece(piece: &[u8]) -> bool
    ensures { result ≡ is_piece piece.now }
{
    !piece.is_empty() && !piece.starts_with(b".") && !piece.ends_with(b".lock")
}

fn all_pieces(text: &[u8]) -> bool
    ensures { result ≡ list_all is_piece (pieces text.now) }
{
    if text.contains(&b'.') {
        return all_split_pieces(text);
    }
    // Without a dot a piece is only to have a byte.
    begins_well(text) && parts_well(text)
}

fn all_split_pieces(text: &[u8]) -> bool
    ensures { result ≡ list_all is_piece (pieces text.now) }
{
    text.split(|c| *c == b'/').all(|piece| is_piece(piece))
}

fn begins_well(text: &[u8]) -> bool
    ensures { result ≡ (not (length text.now == 0) && not (starts_with nat_eq text.now (codes "/"))) }
{
    !text.is_empty() && !text.starts_with(b"/")
}

fn parts_well(text: &[u8]) -> bool
    ensures { result ≡ (not (ends_with nat_eq text.now (codes "/")) && not (occurs (codes "//") text.now)) }
{
    !text.ends_with(b"/") && !occurs(b'/', b'/', text)
}

// Whether one byte stands before the other somewhere in the text. Most names don't have the first of them.
fn occurs(first: u8, second: u8, text: &[u8]) -> bool
    ensures { result ≡ occurs (first ∷ second ∷ []) text.now }
{
    text.contains(&first) && stands_before(first, second, text)
}

fn stands_before(first: u8, second: u8, text: &[u8]) -> bool
    ensures { result ≡ occurs (first ∷ second ∷ []) text.now }
{
    for i in 1..text.len() {
        if text[i - 1] == first && text[i] == second {
            return true;
        }
    }
    false
}
