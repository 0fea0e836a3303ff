// Position automata, after Glushkov: a state of the automaton is a place of a byte, a class or an end mark in
// the pattern, and no step goes without a letter. A set of states is a number with a bit for each, and a run
// keeps the set of those that may take the next letter.
ghost use Rattle.std.specs.Prelude.{◌≡◌, ℕ, ◌+◌, ◌<◌, ◌≤◌, ◌↔◌, ◌⊎◌, ◌^◌, IsTrue, length, slice_index, vec_len};
ghost use Rattle.refex.specs.Pattern.{Pattern, Starts, Whole};
ghost use Rattle.refex.specs.Means.{Means};
ghost use Rattle.refex.specs.Fragment.{IsPiece, HolesApart};
ghost use Rattle.refex.specs.Machine.{Has, MeetsHole, IsStep, IsClosed, IsEntry, letters, follows};
ghost use Rattle.refex.specs.declared.limits.TheConstants.{EXIT, LETTERS, MAX_POSITIONS};

use crate::limits::{END_MARK, EXIT, LETTERS, MAX_NAME, MAX_POSITIONS};
use crate::sets::{added, has, parts_after, union_of};
use crate::tables::{Piece, Tables};

/// A position automaton. A set of positions has a bit for each, and one for the exit.
#[derive(Drop)]
pub struct Machine {
    // where each byte and the end mark may be taken
    pub masks: Vec<u128>,
    // where each position goes on
    pub follow: Vec<u128>,
    pub first: u128,
    // the positions that stand for the name, and where they go on
    pub holes: u128,
    pub after: u128,
    ghost masks_len: { vec_len masks ≡ LETTERS },
    ghost follow_len: { vec_len follow ≡ MAX_POSITIONS },
    ghost holes_small: { holes < 2 ^ EXIT },
    ghost beyond: { (h : ℕ) → h < MAX_POSITIONS → Has holes h → slice_index follow.items h ≡ after },
}

/// A running match.
#[derive(Clone, Copy)]
struct State {
    // the live positions, from which the next letter may be taken, and perhaps the exit
    set: u128,
    // Bit k: since a hole was entered the last k bytes were the first k of the name. A name is known only
    // when a match is asked for, so a run walks along it beside the tables, and from its end it goes on
    // behind the hole.
    parts: u128,
}

impl State {
    /// Whether nothing can be taken any more, whatever follows.
    #[inline(always)]
    fn is_dead(self) -> bool
        ensures { IsTrue result ↔ ((self.set ≡ 0) × (self.parts ≡ 0)) }
    {
        self.set == 0 && self.parts == 0
    }
}

#[inline(always)]
fn meets(holes: u128, set: u128) -> bool
    requires { holes < 2 ^ EXIT }
    ensures { IsTrue result ↔ MeetsHole holes set }
{
    set & holes != 0
}

impl Machine {
    #[inline(always)]
    fn skips(&self, name: &[u8], set: u128) -> bool
        ensures { IsTrue result ↔ ((length name.now ≡ 0) × MeetsHole self.now.holes set) }
    {
        name.is_empty() && meets(self.holes, set)
    }

    fn start(&self, name: &[u8]) -> State
        ensures parts { result.parts ≡ 0 }
        ensures closed { IsClosed name.now self.now.holes self.now.after result.set result.parts }
        ensures set { IsEntry name.now self.now.holes self.now.after self.now.first result.set }
    {
        State {
            set: added(self.first, self.after, self.skips(name, self.first)),
            parts: 0,
        }
    }

    #[inline(always)]
    fn step(&self, name: &[u8], state: State, letter: u16) -> State
        requires name { length name.now ≤ MAX_NAME }
        requires letter { letter < LETTERS }
        ensures { IsStep (letters self.now.masks.items self.now.holes) (follows self.now.follow.items) name.now
            self.now.holes self.now.after state.set state.parts letter result.set result.parts }
    {
        let reached = union_of(&self.follow, state.set & self.masks[letter as usize]);
        let entered = added(state.parts, 1, meets(self.holes, state.set));
        let parts = parts_after(entered, name, letter);
        let left = added(reached, self.after, has(parts, name.len() as u8));
        State {
            set: added(left, self.after, self.skips(name, left)),
            parts,
        }
    }

    /// Whether some prefix of the text with its end mark is in the pattern's language.
    pub fn takes_front(&self, text: &[u8], name: &[u8]) -> bool
        requires { length name.now ≤ MAX_NAME }
        ensures { (p : Pattern) → Means self.now.masks.items self.now.follow.items self.now.first self.now.holes p
            → (IsTrue result ↔ Starts p name.now text.now) }
    {
        let mut state = self.start(name);
        for byte in text {
            if has(state.set, EXIT) {
                return true;
            }
            if state.is_dead() {
                return false;
            }
            state = self.step(name, state, *byte as u16);
        }
        if has(state.set, EXIT) {
            return true;
        }
        let last = self.step(name, state, END_MARK);
        has(last.set, EXIT)
    }

    /// Whether the text, with or without its end mark, is in the pattern's language.
    pub fn takes_text(&self, text: &[u8], name: &[u8]) -> bool
        requires { length name.now ≤ MAX_NAME }
        ensures { (p : Pattern) → Means self.now.masks.items self.now.follow.items self.now.first self.now.holes p
            → (IsTrue result ↔ Whole p name.now text.now) }
    {
        let mut state = self.start(name);
        for byte in text {
            if state.is_dead() {
                return false;
            }
            state = self.step(name, state, *byte as u16);
        }
        if has(state.set, EXIT) {
            return true;
        }
        let last = self.step(name, state, END_MARK);
        has(last.set, EXIT)
    }
}

/// The positions below n.
fn below(n: u32) -> u128
    requires { n ≤ MAX_POSITIONS }
    ensures small { result < 2 ^ EXIT }
    ensures has { (k : ℕ) → k < n → Has result k }
    ensures only { (k : ℕ) → Has result k → k < n }
{
    (1 << n) - 1
}

/// Where the one hole goes on.
fn after_hole(follow: &[u128], holes: u128) -> u128
    requires len { length follow.now ≡ MAX_POSITIONS }
    requires small { holes < 2 ^ EXIT }
    requires one { (h k : ℕ) → Has holes h → Has holes k → h ≡ k }
    ensures { (h : ℕ) → h < MAX_POSITIONS → Has holes h → slice_index follow.now h ≡ result }
{
    let mut after = 0;
    for h in 0..EXIT {
        if has(holes, h) {
            after = follow[h as usize];
        }
    }
    after
}

/// The machine of a whole pattern.
pub fn finish(tables: Tables, piece: Piece) -> Machine
    requires place { (piece.lo ≡ 0) × (piece.count ≤ MAX_POSITIONS) }
    requires apart { HolesApart tables.holes 0 piece.count }
    ensures { (p : Pattern) → IsPiece tables.masks.items tables.follow.items tables.holes piece.lo piece.count piece.first p
        → Means result.masks.items result.follow.items result.first result.holes p }
{
    let holes = tables.holes & below(piece.count);
    let after = after_hole(&tables.follow, holes);
    Machine {
        masks: tables.masks,
        follow: tables.follow,
        first: piece.first,
        holes,
        after,
    }
}
