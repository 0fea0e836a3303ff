// Names of objects.
ghost use Rattle.std.specs.Prelude.{◌≡◌, ◌<◌, ◌∷◌, [], IfSome, Some, length, replicate};
ghost use Rattle.std.proofs.Common.{rules};
ghost use Rattle.std.specs.Cmp.Rules.{hashing};
ghost use Rattle.std.specs.Option.{option_map};
ghost use Rattle.hex.specs.Hex.{encode_lower};
ghost use Rattle.std.specs.List.{list_all};
ghost use Rattle.git_object.specs.ObjectId.{id_from, hex_id, hex_of, id_line, id_of_hex, is_lower_digit};

use crate::reader::literal;
use hex::FromHex;
use std::hash::{Hash, Hasher};

/// The name of an object: the SHA-1 of its kind and its body. Names are ordered by their bytes.
#[derive(Clone, Copy, Debug, PartialEq, Eq, PartialOrd, Ord)]
pub struct ObjectId {
    pub bytes: [u8; 20],
}

/// A hasher is fed the twenty bytes at once.
impl Hash for ObjectId {
    ghost hash_input = { λ id. id.bytes ∷ [] };

    ghost respects_eq = { Prim.search (hashing, rules) };

    fn hash<H: Hasher>(&self, state: &mut H) {
        state.write(&self.bytes);
    }
}

impl ObjectId {
    /// The name that stands for no object.
    pub fn zero() -> ObjectId
        ensures { result.bytes ≡ replicate 20 0 }
    {
        ObjectId { bytes: [0; 20] }
    }

    /// The name that forty lower-case digits spell. Upper-case digits are refused, as anything else is.
    #[tactic(auto, unfolding(crate::specs::ObjectId::id_of_hex))]
    pub fn from_hex(text: &[u8]) -> Option<ObjectId>
        ensures { result ≡ id_of_hex text.now }
    {
        if !all_lower_digits(text) {
            return None;
        }
        match <[u8; 20] as FromHex>::from_hex(text) {
            Ok(bytes) => Some(ObjectId { bytes }),
            Err(_) => None,
        }
    }

    /// The forty lower-case digits of the name.
    pub fn hex(&self) -> [u8; 40]
        ensures text { result ≡ hex_of self.now }
        ensures read_back { id_of_hex result ≡ Some self.now }
    {
        digits_of(&self.bytes)
    }
}

// The forty digits of twenty bytes.
fn digits_of(bytes: &[u8]) -> [u8; 40]
    requires { length bytes.now ≡ 20 }
    ensures text { result ≡ encode_lower bytes.now }
    ensures read_back { id_of_hex result ≡ Some (id_from bytes.now) }
{
    let mut text = [0; 40];
    let _ = hex::encode_to_slice(bytes, &mut text);
    text
}

fn is_lower_digit(c: u8) -> bool
    ensures { result ≡ is_lower_digit c }
{
    matches!(c, b'0'..=b'9' | b'a'..=b'f')
}

fn all_lower_digits(text: &[u8]) -> bool
    ensures { result ≡ list_all is_lower_digit text.now }
{
    text.iter().all(|c| is_lower_digit(*c))
}

/// The id of forty lower-case hex digits at the front, and what follows them.
#[tactic(auto, unfolding(crate::specs::ObjectId::hex_id))]
pub fn hex_id(bytes: &[u8]) -> Option<(ObjectId, &[u8])>
    ensures id { option_map (λ r. (r.0, r.1.now)) result ≡ hex_id bytes.now }
    ensures shorter { IfSome result (λ r. length r.1.now < length bytes.now) }
{
    let (digits, rest) = bytes.split_at_checked(40)?;
    let id = ObjectId::from_hex(digits)?;
    Some((id, rest))
}

// The id of a line that begins with this word, and what follows the line.
#[tactic(auto, unfolding(crate::specs::ObjectId::id_line))]
pub(crate) fn id_line<'a>(bytes: &'a [u8], word: &[u8]) -> Option<(ObjectId, &'a [u8])>
    ensures line { option_map (λ r. (r.0, r.1.now)) result ≡ id_line word.now bytes.now }
    ensures shorter { IfSome result (λ r. length r.1.now < length bytes.now) }
{
    let digits = literal(bytes, word)?;
    let (id, end) = hex_id(digits)?;
    let rest = literal(end, b"\n")?;
    Some((id, rest))
}
