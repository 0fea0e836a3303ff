// Readers of what stands at the front of a body.
ghost use Rattle.std.specs.Prelude.{◌≡◌, ◌<◌, ◌≤◌, ◌==◌, IfSome, length, position};
ghost use Rattle.std.specs.Option.{option_copied, option_map};
ghost use Rattle.git_object.specs.Reader.{literal, up_to};

/// What follows this word at the front.
#[tactic(auto, unfolding(crate::specs::Reader::literal))]
pub fn literal<'a>(bytes: &'a [u8], word: &[u8]) -> Option<&'a [u8]>
    ensures after { option_copied result ≡ literal word.now bytes.now }
    ensures shorter { IfSome result (λ r. length r.now ≤ length bytes.now) }
{
    bytes.strip_prefix(word)
}

// The place of the first such byte.
fn first_place(bytes: &[u8], byte: u8) -> Option<usize>
    ensures value { result ≡ position (λ b. b == byte) bytes.now }
    ensures within { IfSome result (λ at. at < length bytes.now) }
{
    bytes.iter().position(|b| *b == byte)
}

/// The bytes before the first such byte, and those behind it.
#[tactic(auto, unfolding(crate::specs::Reader::up_to))]
pub fn up_to(bytes: &[u8], end: u8) -> Option<(&[u8], &[u8])>
    ensures { option_map (λ r. (r.0.now, r.1.now)) result ≡ up_to end bytes.now }
{
    let at = first_place(bytes, end)?;
    let (before, _) = bytes.split_at(at);
    let (_, behind) = bytes.split_at(at + 1);
    Some((before, behind))
}
