// The first offence of a pattern's items.
ghost use Rattle.std.specs.Prelude.{◌≡◌, ℕ, ◌+◌, ◌<◌, ◌≤◌, ◌==◌, ◌^◌, length, map, drop};
ghost use Rattle.refex.specs.Items.{item_of, placed_of};
ghost use Rattle.refex.specs.Faults.{closes, closes_before, repetition_fault, fault_at, first_fault, last_after, depth_after, outermost_after};
ghost use Rattle.refex.specs.declared.items.Last.TheVariants.{Nothing};

use crate::faults::Offence;
use crate::items::{Item, Last, Token};

/// What comes before a token: in its branch, how many groups are open, and where the outermost of them
/// begins.
#[derive(Clone, Copy)]
struct Before {
    last: Last,
    depth: usize,
    outermost: u64,
}

/// What is wrong with a repetition.
fn repetition_fault(last: Last, suffix: bool, at: u64) -> Option<Offence>
    ensures { result ≡ repetition_fault last suffix at }
{
    match last {
        Last::Atom => None,
        Last::Nothing => Some(Offence::Syntax(at)),
        Last::Counted => {
            if suffix {
                Some(Offence::Unsupported(at))
            } else {
                Some(Offence::Syntax(at))
            }
        }
    }
}

fn last_after(item: Item) -> Last
    ensures { result ≡ last_after (item_of item) }
{
    match item {
        Item::Atom(_) | Item::Close => Last::Atom,
        Item::Repetition(_, _) => Last::Counted,
        Item::Open(_) | Item::Bar | Item::Bad(_) => Last::Nothing,
    }
}

fn depth_after(depth: usize, item: Item) -> usize
    requires { depth < 2 ^ 63 }
    ensures { result ≡ depth_after depth (item_of item) }
{
    match item {
        Item::Open(_) => depth + 1,
        Item::Close => depth.saturating_sub(1),
        _ => depth,
    }
}

impl Before {
    /// What is wrong at the token, whatever follows it.
    fn fault_at(self, token: Token) -> Option<Offence>
        ensures { result ≡ fault_at self.last self.depth (placed_of token) 1 }
    {
        match token.item {
            Item::Bad(fault) => Some(fault),
            Item::Open(true) => None,
            Item::Open(false) => Some(Offence::Unsupported(token.at)),
            Item::Close => {
                if self.depth == 0 {
                    Some(Offence::Syntax(token.at))
                } else {
                    None
                }
            }
            Item::Repetition(_, suffix) => repetition_fault(self.last, suffix, token.at),
            Item::Atom(_) => None,
            Item::Bar => None,
        }
    }

    fn outermost_after(self, token: Token) -> u64
        ensures { result ≡ outermost_after self.depth self.outermost (placed_of token) }
    {
        match token.item {
            Item::Open(_) if self.depth == 0 => token.at,
            _ => self.outermost,
        }
    }

    /// What comes before the next token.
    fn after(self, token: Token) -> Before
        requires { self.depth < 2 ^ 63 }
        ensures last { result.last ≡ last_after (item_of token.item) }
        ensures depth { result.depth ≡ depth_after self.depth (item_of token.item) }
        ensures outermost { result.outermost ≡ outermost_after self.depth self.outermost (placed_of token) }
    {
        Before {
            last: last_after(token.item),
            depth: depth_after(self.depth, token.item),
            outermost: self.outermost_after(token),
        }
    }
}

fn closes_before(item: Item, count: usize) -> usize
    requires { count < 2 ^ 63 }
    ensures value { result ≡ closes_before (item_of item) count }
    ensures bound { result ≤ count + 1 }
{
    match item {
        Item::Open(_) => count.saturating_sub(1),
        Item::Close => count + 1,
        _ => count,
    }
}

/// How many groups that were opened before the tokens are closed in them, from `from` on.
fn closes(tokens: &[Token], from: usize) -> usize
    requires { from ≤ length tokens.now }
    ensures { result ≡ closes (drop from (map placed_of tokens.now)) }
{
    let mut count = 0;
    let mut i = tokens.len();
    while i > from {
        i -= 1;
        count = closes_before(tokens[i].item, count);
    }
    count
}

/// The first offence of the tokens from the left.
pub fn first_fault(tokens: &[Token]) -> Option<Offence>
    ensures { result ≡ first_fault Nothing 0 (map placed_of tokens.now) }
{
    let mut before = Before {
        last: Last::Nothing,
        depth: 0,
        outermost: 0,
    };
    for (i, token) in tokens.iter().enumerate() {
        match before.fault_at(*token) {
            None => before = before.after(*token),
            Some(fault) => {
                if closes(tokens, i) < before.depth {
                    return Some(Offence::Syntax(before.outermost));
                }
                return Some(fault);
            }
        }
    }
    if before.depth > 0 {
        return Some(Offence::Syntax(before.outermost));
    }
    None
}
