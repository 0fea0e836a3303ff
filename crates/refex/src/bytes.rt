// Sets of bytes.
ghost use Rattle.std.specs.Prelude.{◌≡◌, ◌==◌, ◌||◌, ◌≤◌, Bool, false};
ghost use Rattle.refex.specs.ByteSet.{holds};
ghost use Rattle.refex.specs.Text.{range, either_of, every_other};

use crate::sets::with;

/// A set of bytes: those below 128, and the others, a bit for each.
#[derive(Clone, Copy)]
pub struct ByteSet {
    pub low: u128,
    pub high: u128,
}

impl ByteSet {
    pub fn empty() -> ByteSet
        ensures { holds result ≡ (λ _. false) }
    {
        ByteSet { low: 0, high: 0 }
    }

    /// The set with one byte more.
    fn with_byte(self, byte: u8) -> ByteSet
        ensures { holds result ≡ (λ c. (c == byte) || holds self c) }
    {
        if byte < 128 {
            ByteSet {
                low: with(self.low, byte),
                high: self.high,
            }
        } else {
            ByteSet {
                low: self.low,
                high: with(self.high, byte - 128),
            }
        }
    }

    /// The bytes from `first` to `last`, both included.
    pub fn range(first: u8, last: u8) -> ByteSet
        requires { first ≤ last }
        ensures { holds result ≡ range first last }
    {
        let mut set = ByteSet::empty();
        for c in first as u16..last as u16 + 1 {
            set = set.with_byte(c as u8);
        }
        set
    }

    pub fn or(self, other: ByteSet) -> ByteSet
        ensures { holds result ≡ either_of (holds self) (holds other) }
    {
        ByteSet {
            low: self.low | other.low,
            high: self.high | other.high,
        }
    }

    /// Every other byte.
    pub fn complement(self) -> ByteSet
        ensures { holds result ≡ every_other (holds self) }
    {
        ByteSet {
            low: !self.low,
            high: !self.high,
        }
    }
}
