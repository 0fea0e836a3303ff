// What holds of the form of bodies.
ghost use Rattle.std.specs.Prelude.{◌≡◌, ℕ, Bool, List, Some, take};
ghost use Rattle.git_object.specs.Content.{Content};
ghost use Rattle.ref_store.specs.declared.command.Command.{Command};
ghost use Rattle.hub_history.specs.Requests.{Push, Request};
ghost use Rattle.event_record.specs.Bodies.{body_of, IsStorable};
ghost use Rattle.event_record.specs.Fronts.{place_at};

/// The laws of bodies; a call does nothing.
pub fn hold_laws()
    // A body is that of one caller and one request.
    ensures one { (caller other : ℕ) (request another : Request) → IsStorable caller request → IsStorable other another → body_of caller request ≡ body_of other another → (caller ≡ other) × (request ≡ another) }
    // The first 17 bytes of a push's body say after which opening it is.
    ensures front { (caller place : ℕ) (pack : List Content) (commands : List Command) (atomic : Bool) → IsStorable caller (Push place pack commands atomic) → place_at (take 17 (body_of caller (Push place pack commands atomic))) ≡ Some place }
{}
