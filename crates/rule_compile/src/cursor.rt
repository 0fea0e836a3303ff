// Going through three lists of numbers at once.
ghost use Rattle.std.specs.Prelude.{◌≡◌, ◌+◌, ◌<◌, List, length, ℕ, IfSome};
ghost use Rattle.rule_compile.specs.WordIndex.{GoesOn, IsAt};
ghost use Rattle.rule_compile.specs.declared.rule.RepoWord.{RepoWord};
ghost use Rattle.rule_compile.specs.Numbers.{after, first_of, left_of, least_of};

/// What is left of three ascending lists of numbers: those of words that are the name, of `@all`, and of
/// patterns.
#[derive(Clone, Copy)]
pub(crate) struct Cursor<'a> {
    pub plain: &'a [u32],
    pub all: &'a [u32],
    pub patterns: &'a [u32],
}

impl Cursor<'_> {
    /// The least number that is left.
    pub(crate) fn next(&mut self) -> Option<u32>
        ensures goes { (words : List RepoWord) (name : List ℕ) (place : ℕ) → IsAt self.old words name place → GoesOn self.new words name place result }
        ensures nearer { IfSome result (λ n. left_of self.new < left_of self.old) }
    {
        match least(
            least(first(self.plain), first(self.all)),
            first(self.patterns),
        ) {
            Some(number) => {
                self.plain = after(self.plain, number);
                self.all = after(self.all, number);
                self.patterns = after(self.patterns, number);
                Some(number)
            }
            None => None,
        }
    }
}

fn first(numbers: &[u32]) -> Option<u32>
    ensures { result ≡ first_of numbers.now }
{
    numbers.first().copied()
}

/// The lesser of two numbers, where there are two.
fn least(one: Option<u32>, other: Option<u32>) -> Option<u32>
    ensures { result ≡ least_of one other }
{
    match (one, other) {
        (Some(one), Some(other)) if other < one => Some(other),
        (Some(one), _) => Some(one),
        (None, other) => other,
    }
}

/// The numbers without the first where that is this one.
fn after(numbers: &[u32], number: u32) -> &[u32]
    ensures { result.now ≡ after numbers.now number }
{
    match numbers {
        [first, rest @ ..] if *first == number => rest,
        _ => numbers,
    }
}
