//! What a held value and a step say of themselves.
ghost use Rattle.std.specs.Prelude.{◌≡◌, ℕ, List};
ghost use mathlib.Core.List.{IsPrefix};
ghost use Rattle.turn_lock.specs.Lock.{AddsAtMostOne};

/// A value that stands for a list of entries, each made by a caller.
pub trait Kept {
    type Entry;

    /// The list, made from what the value stores.
    ghost entries: { Self → List Self.Entry };

    /// The number of the caller that made an entry.
    ghost caller: { Self.Entry → ℕ };
}

/// What is done to a held value in one turn.
pub trait Step<T: Kept> {
    type Answer;

    /// A list that the step knows: the held value's list begins with it.
    ghost knows: { Self → List T.Entry };

    /// The caller number that its entry bears.
    ghost caller: { Self → ℕ };

    /// How the list before a run, the list after it and the answer go together.
    ghost relates: { Self → List T.Entry → List T.Entry → Self.Answer → Type 0 };

    fn run(&mut self, held: &mut T) -> Self::Answer
        requires { IsPrefix (knows self.old) (T.entries held.old) }
        ensures adds { AddsAtMostOne T.entries T.caller (caller self.old) held.old held.new }
        ensures relates { relates self.old (T.entries held.old) (T.entries held.new) result }
        ensures again { (knows self.new ≡ knows self.old) × (caller self.new ≡ caller self.old) };
}
