// Annotated tags.
ghost use Rattle.std.specs.Prelude.{◌≡◌, option_map};
ghost use Rattle.git_object.specs.Tag.{object_line, tag_break, target_of, type_line};

use crate::kind::Kind;
use crate::object_id::{ObjectId, id_line};
use crate::reader::{literal, up_to};

// How many bytes the line of the object has.
const OBJECT_LINE: u32 = 48;

fn object_line(body: &[u8]) -> Option<(ObjectId, &[u8])>
    ensures { option_map (λ r. (r.0, r.1.now)) result ≡ object_line body.now }
{
    id_line(body, b"object ")
}

#[tactic(auto, unfolding(crate::specs::Tag::type_line))]
fn type_line(bytes: &[u8]) -> Option<(Kind, &[u8])>
    ensures { option_map (λ r. (r.0, r.1.now)) result ≡ type_line bytes.now }
{
    let after = literal(bytes, b"type ")?;
    let (word, rest) = up_to(after, b'\n')?;
    let kind = Kind::from_word(word)?;
    Some((kind, rest))
}

// The object that a tag's body names, and its kind.
pub(crate) fn target_of(body: &[u8]) -> Option<(ObjectId, Kind)>
    ensures { result ≡ target_of body.now }
{
    let (id, rest) = object_line(body)?;
    let (kind, _) = type_line(rest)?;
    Some((id, kind))
}

// Where the first line that breaks the form begins.
pub(crate) fn tag_break(body: &[u8]) -> Option<u32>
    ensures { result ≡ tag_break body.now }
{
    let Some((_, rest)) = object_line(body) else {
        return Some(0);
    };
    match type_line(rest) {
        Some(_) => None,
        None => Some(OBJECT_LINE),
    }
}
