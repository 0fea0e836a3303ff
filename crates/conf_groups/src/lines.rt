// A file, cut into lines.
ghost use Rattle.std.specs.Prelude.{◌≡◌, ◌∷◌, ◌+◌, ◌≤◌, [], length, IfSome, MatchOption};
ghost use Rattle.conf_groups.specs.Lines.{lines_of};

/// The first line and what comes after its line feed, or nothing where no byte is left.
pub(crate) fn cut_line(bytes: &[u8]) -> Option<(&[u8], &[u8])>
    ensures cut { MatchOption result (lines_of bytes.now ≡ []) (λ c. lines_of bytes.now ≡ c.0.now ∷ lines_of c.1.now) }
    ensures shorter { IfSome result (λ c. length c.1.now + 1 ≤ length bytes.now) }
{
    for (at, byte) in bytes.iter().enumerate() {
        if *byte == b'\n' {
            return Some((&bytes[..at], bytes.split_at(at + 1).1));
        }
    }
    if bytes.is_empty() {
        return None;
    }
    Some((bytes, &[]))
}
