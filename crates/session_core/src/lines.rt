// What a line of a client ends with.
ghost use Rattle.std.specs.Prelude.{◌≡◌};
ghost use Rattle.session_core.specs.FirstPacket.{without_feed};

/// The payload without one line feed at its end.
#[tactic(auto, unfolding(crate::specs::FirstPacket::without_feed))]
pub fn without_feed(payload: &[u8]) -> &[u8]
    ensures { result.now ≡ without_feed payload.now }
{
    match payload.strip_suffix(b"\n") {
        Some(text) => text,
        None => payload,
    }
}
