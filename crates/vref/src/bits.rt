// Words of bits.
ghost use Rattle.std.specs.Prelude.{◌≡◌, ◌<◌, ◌↔◌, ◌⊎◌, IsTrue, ℕ};
ghost use Rattle.vref.specs.Marks.{Has};

/// How many bits a word has.
pub const BITS: usize = 64;

#[inline(always)]
pub fn has(word: u64, bit: usize) -> bool
    requires { bit < 64 }
    ensures { IsTrue result ↔ Has word bit }
{
    (word >> bit) & 1 == 1
}

/// The word with one more bit.
#[inline(always)]
pub fn with(word: u64, bit: usize) -> u64
    requires { bit < 64 }
    ensures same { Has result bit }
    ensures keeps { (k : ℕ) → Has word k → Has result k }
    ensures only { (k : ℕ) → Has result k → (k ≡ bit) ⊎ Has word k }
{
    word | 1 << bit
}

/// The bits of both words.
#[inline(always)]
pub fn joined(word: u64, other: u64) -> u64
    ensures left { (k : ℕ) → Has word k → Has result k }
    ensures right { (k : ℕ) → Has other k → Has result k }
    ensures only { (k : ℕ) → Has result k → Has word k ⊎ Has other k }
{
    word | other
}

/// The bits of the first word that the second lacks.
#[inline(always)]
pub fn without(word: u64, other: u64) -> u64
    ensures { (k : ℕ) → Has result k ↔ (Has word k × ¬ Has other k) }
{
    word & !other
}

/// Whether the second word has all bits of the first.
#[inline(always)]
pub fn is_within(word: u64, other: u64) -> bool
    ensures { IsTrue result → (k : ℕ) → Has word k → Has other k }
{
    word | other == other
}
