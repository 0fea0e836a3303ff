// What stands between an opening and what follows.
ghost use Rattle.std.specs.Prelude.{[], ◌∷◌, List, None, Option};
ghost use Rattle.session_core.specs.Gate.{GateCall, IsCalled};

use pktline_core::Link;

/// A point at which a session may be held up, so that others come in between.
pub trait Gate {
    /// How the gate was called so far, where it tells that.
    ghost calls: { Self → Option (List GateCall) };

    /// Called behind an opening that was granted, before anything is written of it. The place is the
    /// opening's in the log.
    fn between<L: Link>(&mut self, place: u64, link: &L)
        ensures { IsCalled (calls self.old) (calls self.new) (record { place = place; written = (L.state link.now).written } ∷ []) };
}

/// A gate that holds nothing up.
#[derive(Clone, Copy, Debug)]
pub struct OpenGate;

impl Gate for OpenGate {
    ghost calls = { λ _. None };

    fn between<L: Link>(&mut self, _place: u64, _link: &L) {}
}
