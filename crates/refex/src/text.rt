// From a pattern's text to its items.
ghost use Rattle.std.specs.Prelude.{◌≡◌, ℕ, ◌+◌, ◌-◌, ◌<◌, ◌≤◌, ◌^◌, Bool, length, drop, map, nat_lt, ◌==◌, ◌&&◌, not, IfOk, IfSome, IfNone, OnOk, ◌++◌, true, false, Some, None, Ok, Err};
ghost use Rattle.std.specs.Option.{option_map};
ghost use Rattle.refex.specs.ByteSet.{holds};
ghost use Rattle.refex.specs.Items.{item_of, placed_of, member_of, on_ok};
ghost use Rattle.refex.specs.Text.{kind, escaped, member, span, bytes_of, is_dash, class_item, class_items, class_length, class, class_made, ranged, begins_with, digit, number, count, escape_item, count_item, open_item, item, is_at, hole_items, spelling, items_from, items, is_alphanumeric, is_digit, is_word, is_space};

use crate::bytes::ByteSet;
use crate::faults::{Hole, Offence};
use crate::items::{Atom, Bounds, Item, Token};
use crate::limits::MAX_REPEAT;
use std::alloc::{AllocError, Global};

/// A byte of a class, or a kind of bytes.
#[derive(Clone, Copy)]
pub enum Member {
    Byte(u8),
    Kind(ByteSet),
}

fn behind(bytes: &[u8], count: usize) -> &[u8]
    requires { count ≤ length bytes.now }
    ensures { result.now ≡ drop count bytes.now }
{
    bytes.split_at(count).1
}

fn begins_with(bytes: &[u8], byte: u8) -> bool
    ensures { result ≡ begins_with byte bytes.now }
{
    match bytes {
        [] => false,
        [first, ..] => *first == byte,
    }
}

fn is_alphanumeric(c: u8) -> bool
    ensures { result ≡ is_alphanumeric c }
{
    (b'0' <= c && c <= b'9') || (b'A' <= c && c <= b'Z') || (b'a' <= c && c <= b'z')
}

fn digits() -> ByteSet
    ensures { holds result ≡ is_digit }
{
    ByteSet::range(b'0', b'9')
}

fn word_bytes() -> ByteSet
    ensures { holds result ≡ is_word }
{
    let letters = ByteSet::range(b'A', b'Z').or(ByteSet::range(b'a', b'z'));
    ByteSet::range(b'0', b'9')
        .or(letters)
        .or(ByteSet::range(b'_', b'_'))
}

fn spaces() -> ByteSet
    ensures { holds result ≡ is_space }
{
    ByteSet::range(b'\t', b'\r').or(ByteSet::range(b' ', b' '))
}

#[tactic(auto, unfolding(crate::specs::Text::kind))]
fn kind(c: u8) -> Option<ByteSet>
    ensures { option_map holds result ≡ kind c }
{
    match c {
        b'd' => Some(digits()),
        b'w' => Some(word_bytes()),
        b's' => Some(spaces()),
        b'D' => Some(digits().complement()),
        b'W' => Some(word_bytes().complement()),
        b'S' => Some(spaces().complement()),
        _ => None,
    }
}

/// What a backslash at the place makes of the byte after it.
#[tactic(auto, unfolding(crate::specs::Text::escaped))]
fn escaped(at: u64, c: u8) -> Result<Member, Offence>
    ensures { on_ok member_of result ≡ escaped at c }
{
    if let Some(set) = kind(c) {
        return Ok(Member::Kind(set));
    }
    if is_alphanumeric(c) {
        return Err(Offence::Unsupported(at));
    }
    Ok(Member::Byte(c))
}

/// The byte or kind at the front of a class's items, and how many bytes it takes.
#[tactic(auto, unfolding(crate::specs::Text::member))]
fn member_at(at: u64, bytes: &[u8]) -> Result<(Member, usize), Offence>
    ensures value { on_ok (λ x. (member_of x.0, x.1)) result ≡ member at bytes.now }
    ensures taken { IfOk result (λ x. (1 ≤ x.1) × (x.1 ≤ length bytes.now)) }
{
    let [first, rest @ ..] = bytes else {
        return Err(Offence::Syntax(at));
    };
    if *first == b'\\' {
        let [c, ..] = rest else {
            return Err(Offence::Syntax(at));
        };
        return Ok((escaped(at, *c)?, 2));
    }
    if *first == b'[' && begins_with(rest, b':') {
        return Err(Offence::Unsupported(at));
    }
    Ok((Member::Byte(*first), 1))
}

fn bytes_of(member: Member) -> ByteSet
    ensures { holds result ≡ bytes_of (member_of member) }
{
    match member {
        Member::Byte(b) => ByteSet::range(b, b),
        Member::Kind(set) => set,
    }
}

/// A range; a kind ends none.
#[tactic(auto, unfolding(crate::specs::Text::span))]
fn span(at: u64, first: u8, last: Member) -> Result<ByteSet, Offence>
    ensures { on_ok holds result ≡ span at first (member_of last) }
{
    let Member::Byte(last) = last else {
        return Err(Offence::Syntax(at));
    };
    if first <= last {
        Ok(ByteSet::range(first, last))
    } else {
        Err(Offence::Syntax(at))
    }
}

/// Whether the bytes begin with a dash that isn't their last.
fn is_dash(bytes: &[u8]) -> bool
    ensures value { result ≡ is_dash bytes.now }
    ensures two { result ≡ true → 2 ≤ length bytes.now }
{
    match bytes {
        [dash, _, ..] => *dash == b'-',
        _ => false,
    }
}

/// The item of a class at the front, which began with the member.
#[tactic(auto, unfolding(crate::specs::Text::ranged, crate::specs::Text::range_from))]
fn ranged(at: u64, begins: Member, taken: usize, rest: &[u8]) -> Result<(ByteSet, usize), Offence>
    requires { at + taken + length rest.now < 2 ^ 63 }
    ensures value { on_ok (λ x. (holds x.0, x.1)) result ≡ ranged at (member_of begins) taken rest.now }
    ensures taken { IfOk result (λ x. (taken ≤ x.1) × (x.1 ≤ taken + length rest.now)) }
{
    if !is_dash(rest) {
        return Ok((bytes_of(begins), taken));
    }
    // A kind begins no range, whatever ends it: that is the first offence.
    let Member::Byte(first) = begins else {
        return Err(Offence::Syntax(at));
    };
    let (ends, more) = member_at(at + taken as u64 + 1, behind(rest, 1))?;
    let set = span(at, first, ends)?;
    Ok((set, taken + 1 + more))
}

/// The item of a class at the front: its bytes, and how many bytes it takes.
#[tactic(auto, unfolding(crate::specs::Text::class_item))]
fn class_item(at: u64, first: bool, bytes: &[u8]) -> Result<(ByteSet, usize), Offence>
    requires { at + length bytes.now < 2 ^ 63 }
    ensures value { on_ok (λ x. (holds x.0, x.1)) result ≡ class_item at first bytes.now }
    ensures taken { IfOk result (λ x. (1 ≤ x.1) × (x.1 ≤ length bytes.now)) }
{
    if !first && is_dash(bytes) {
        return Err(Offence::Syntax(at));
    }
    let (begins, taken) = member_at(at, bytes)?;
    ranged(at, begins, taken, behind(bytes, taken))
}

/// The bytes of all items of a class.
fn class_items(at: u64, bytes: &[u8]) -> Result<ByteSet, Offence>
    requires { at + length bytes.now < 2 ^ 63 }
    ensures { on_ok holds result ≡ class_items at true 0 bytes.now }
{
    let mut set = ByteSet::empty();
    let mut i = 0;
    while i < bytes.len() {
        match class_item(at + i as u64, i == 0, behind(bytes, i)) {
            Err(fault) => return Err(fault),
            Ok((more, taken)) => {
                set = set.or(more);
                i += taken;
            }
        }
    }
    Ok(set)
}

fn closes_class(byte: u8, first: bool, behind: bool) -> bool
    ensures { result ≡ ((byte == 93) && (not first && not behind)) }
{
    byte == b']' && !first && !behind
}

fn escapes(byte: u8, behind: bool) -> bool
    ensures { result ≡ ((byte == 92) && not behind) }
{
    byte == b'\\' && !behind
}

/// How many bytes stand before the `]` that closes a class.
fn class_length(bytes: &[u8]) -> Option<usize>
    ensures value { result ≡ class_length true false bytes.now }
    ensures bound { IfSome result (λ n. n < length bytes.now) }
{
    let mut behind = false;
    for (i, byte) in bytes.iter().enumerate() {
        if closes_class(*byte, i == 0, behind) {
            return Some(i);
        }
        behind = escapes(*byte, behind);
    }
    None
}

/// A class of which the first `skip` bytes are `[` or `[^`.
#[tactic(auto, unfolding(crate::specs::Text::class))]
fn class(at: u64, others: bool, skip: usize, bytes: &[u8]) -> (Item, usize)
    requires { (1 ≤ skip) × (skip ≤ length bytes.now) × (at + length bytes.now < 2 ^ 63) }
    ensures value { (item_of result.0, result.1) ≡ class at others skip bytes.now }
    ensures taken { (1 ≤ result.1) × (result.1 ≤ length bytes.now) }
{
    let inside = behind(bytes, skip);
    let Some(length) = class_length(inside) else {
        return (Item::Bad(Offence::Syntax(at)), bytes.len());
    };
    let found = class_items(at + skip as u64, inside.split_at(length).0);
    (class_made(others, found), skip + length + 1)
}

#[tactic(auto, unfolding(crate::specs::Text::class_made))]
fn class_made(others: bool, found: Result<ByteSet, Offence>) -> Item
    ensures { item_of result ≡ class_made others (on_ok holds found) }
{
    match found {
        Err(fault) => Item::Bad(fault),
        Ok(set) => Item::Atom(Atom::Bytes(if others { set.complement() } else { set })),
    }
}

fn digit(bytes: &[u8], i: usize) -> Option<u16>
    ensures value { result ≡ digit i bytes.now }
    ensures small { IfSome result (λ d. (d ≤ 9) × (i < length bytes.now)) }
{
    if i < bytes.len() && b'0' <= bytes[i] && bytes[i] <= b'9' {
        return Some((bytes[i] - b'0') as u16);
    }
    None
}

/// The number from 0 to 127 at the front, without a leading zero, and how many digits it has.
#[tactic(auto, unfolding(crate::specs::Text::number))]
fn number(bytes: &[u8]) -> Option<(u8, usize)>
    ensures value { result ≡ number bytes.now }
    ensures bound { IfSome result (λ n. (n.0 ≤ MAX_REPEAT) × (1 ≤ n.1) × (n.1 ≤ length bytes.now)) }
{
    let a = digit(bytes, 0)?;
    let Some(b) = digit(bytes, 1) else {
        return Some((a as u8, 1));
    };
    if a == 0 {
        return None;
    }
    let Some(c) = digit(bytes, 2) else {
        return Some(((a * 10 + b) as u8, 2));
    };
    let n = a * 100 + b * 10 + c;
    if n > MAX_REPEAT as u16 {
        return None;
    }
    Some((n as u8, 3))
}

/// The count behind a `{`, and how many bytes it takes.
#[tactic(auto, unfolding(crate::specs::Text::count))]
fn count(bytes: &[u8]) -> Option<(Bounds, usize)>
    ensures value { option_map (λ x. (x.0.least, x.0.most, x.1)) result ≡ count bytes.now }
    ensures taken { IfSome result (λ x. x.1 ≤ length bytes.now) }
{
    let (least, digits) = number(bytes)?;
    let rest = behind(bytes, digits);
    if begins_with(rest, b'}') {
        let most = Some(least);
        return Some((Bounds { least, most }, digits + 1));
    }
    if !begins_with(rest, b',') {
        return None;
    }
    let rest = behind(bytes, digits + 1);
    if begins_with(rest, b'}') {
        let most = None;
        return Some((Bounds { least, most }, digits + 2));
    }
    let (most, more) = number(rest)?;
    if least <= most && begins_with(behind(bytes, digits + 1 + more), b'}') {
        let most = Some(most);
        return Some((Bounds { least, most }, digits + 1 + more + 1));
    }
    None
}

/// An escape outside of a class.
#[tactic(auto, unfolding(crate::specs::Text::escape_item))]
fn escape_item(at: u64, rest: &[u8]) -> (Item, usize)
    ensures value { (item_of result.0, result.1) ≡ escape_item at rest.now }
    ensures taken { (1 ≤ result.1) × (result.1 ≤ 1 + length rest.now) }
{
    let [c, ..] = rest else {
        return (Item::Bad(Offence::Syntax(at)), 1);
    };
    match escaped(at, *c) {
        Ok(member) => (Item::Atom(Atom::Bytes(bytes_of(member))), 2),
        Err(fault) => (Item::Bad(fault), 2),
    }
}

/// A `{` and what is behind it.
#[tactic(auto, unfolding(crate::specs::Text::count_item))]
fn count_item(at: u64, rest: &[u8]) -> (Item, usize)
    ensures value { (item_of result.0, result.1) ≡ count_item at rest.now }
    ensures taken { (1 ≤ result.1) × (result.1 ≤ 1 + length rest.now) }
{
    match count(rest) {
        Some((bounds, taken)) => (Item::Repetition(bounds, false), taken + 1),
        None => (Item::Bad(Offence::Syntax(at)), 1),
    }
}

/// A `(` and what is behind it.
#[tactic(auto, unfolding(crate::specs::Text::open_item))]
fn open_item(rest: &[u8]) -> (Item, usize)
    ensures value { (item_of result.0, result.1) ≡ open_item rest.now }
    ensures taken { (1 ≤ result.1) × (result.1 ≤ 1 + length rest.now) }
{
    if !begins_with(rest, b'?') {
        return (Item::Open(true), 1);
    }
    if begins_with(behind(rest, 1), b':') {
        return (Item::Open(true), 3);
    }
    (Item::Open(false), 2)
}

fn any_number() -> Bounds
    ensures { (result.least ≡ 0) × (result.most ≡ None) }
{
    Bounds {
        least: 0,
        most: None,
    }
}

fn one_or_more() -> Bounds
    ensures { (result.least ≡ 1) × (result.most ≡ None) }
{
    Bounds {
        least: 1,
        most: None,
    }
}

fn one_at_most() -> Bounds
    ensures { (result.least ≡ 0) × (result.most ≡ Some 1) }
{
    Bounds {
        least: 0,
        most: Some(1),
    }
}

/// The item at the front, and how many bytes it takes.
#[tactic(auto, unfolding(crate::specs::Text::item))]
fn item(at: u64, bytes: &[u8]) -> (Item, usize)
    requires { (1 ≤ length bytes.now) × (at + length bytes.now < 2 ^ 63) }
    ensures value { (item_of result.0, result.1) ≡ item at bytes.now }
    ensures taken { (1 ≤ result.1) × (result.1 ≤ length bytes.now) }
{
    let [b, rest @ ..] = bytes else {
        return (Item::Bad(Offence::Syntax(at)), 1);
    };
    match *b {
        b'\\' => escape_item(at, rest),
        b'.' => (
            Item::Atom(Atom::Bytes(ByteSet::range(b'\n', b'\n').complement())),
            1,
        ),
        b'[' if begins_with(rest, b'^') => class(at, true, 2, bytes),
        b'[' => class(at, false, 1, bytes),
        b'$' => (Item::Atom(Atom::End), 1),
        b'(' => open_item(rest),
        b')' => (Item::Close, 1),
        b'|' => (Item::Bar, 1),
        b'*' => (Item::Repetition(any_number(), false), 1),
        b'+' => (Item::Repetition(one_or_more(), true), 1),
        b'?' => (Item::Repetition(one_at_most(), true), 1),
        b'{' => count_item(at, rest),
        b'^' => (Item::Bad(Offence::Unsupported(at)), 1),
        b => (Item::Atom(Atom::Bytes(ByteSet::range(b, b))), 1),
    }
}

fn is_at(hole: Hole, bytes: &[u8]) -> bool
    ensures value { result ≡ is_at hole bytes.now }
    ensures long { result ≡ true → (1 ≤ length (spelling hole)) × (length (spelling hole) ≤ length bytes.now) }
{
    match hole {
        Hole::Nothing => false,
        Hole::User => bytes.starts_with(b"/USER/"),
        Hole::Creator => bytes.starts_with(b"CREATOR"),
    }
}

fn push_hole(tokens: &mut Vec<Token>, hole: Hole, at: u64) -> Result<(), AllocError>
    requires { at < 2 ^ 63 }
    ensures { OnOk result (map placed_of tokens.new.items ≡ map placed_of tokens.old.items ++ hole_items hole at) }
{
    let slash = Item::Atom(Atom::Bytes(ByteSet::range(b'/', b'/')));
    match hole {
        Hole::Nothing => Ok(()),
        Hole::Creator => {
            tokens.push(Token {
                at,
                item: Item::Atom(Atom::Name),
            })?;
            Ok(())
        }
        Hole::User => {
            tokens.push(Token { at, item: slash })?;
            tokens.push(Token {
                at: at + 1,
                item: Item::Atom(Atom::Name),
            })?;
            tokens.push(Token {
                at: at + 5,
                item: slash,
            })?;
            Ok(())
        }
    }
}

fn spelled(hole: Hole) -> usize
    ensures { result ≡ length (spelling hole) }
{
    match hole {
        Hole::Nothing => 0,
        Hole::User => 6,
        Hole::Creator => 7,
    }
}

pub fn items(alloc: Global, text: &[u8], hole: Hole) -> Result<Vec<Token>, AllocError>
    requires { length text.now < 2 ^ 63 }
    ensures { IfOk result (λ tokens. map placed_of tokens.items ≡ items hole text.now) }
{
    let mut tokens = Vec::new(alloc);
    let mut hole = hole;
    let mut i = if begins_with(text, b'^') { 1 } else { 0 };
    while i < text.len() {
        let rest = behind(text, i);
        if is_at(hole, rest) {
            push_hole(&mut tokens, hole, i as u64)?;
            i += spelled(hole);
            hole = Hole::Nothing;
        } else {
            let (found, taken) = item(i as u64, rest);
            tokens.push(Token {
                at: i as u64,
                item: found,
            })?;
            i += taken;
        }
    }
    Ok(tokens)
}
