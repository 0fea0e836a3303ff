// What the first bytes of a body say.
ghost use Rattle.std.specs.Prelude.{◌≡◌, ℕ};
ghost use Rattle.event_record.specs.Fronts.{place_at};

/// How many bytes of a body say whether it is a push's, and after which opening.
pub const PUSH_FRONT: usize = 17;

/// The place of the opening that a push is after, of the first 17 bytes of its body or more, and nothing of
/// any other body.
pub fn push_place(front: &[u8]) -> Option<u64>
    ensures { result ≡ place_at front.now }
{
    if front.len() < PUSH_FRONT {
        return None;
    }
    let (before, rest) = front.split_at(9);
    if before[8] != 2 {
        return None;
    }
    let (place, _) = rest.split_at(8);
    Some(u64::from_be_bytes([
        place[0], place[1], place[2], place[3], place[4], place[5], place[6], place[7],
    ]))
}
