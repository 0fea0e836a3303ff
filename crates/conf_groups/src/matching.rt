// Whether a pattern names a file, in the time of the product of their lengths at most.
ghost use Rattle.std.specs.Prelude.{◌≡◌, ◌++◌, ◌∷◌, [], true, false, not, ◌==◌, ◌&&◌, ◌||◌, IfOk, OnOk, MatchOption};
ghost use Rattle.conf_groups.specs.Files.{fits};
ghost use Rattle.conf_groups.specs.Matching.{first_of, others, after_star, after_byte, after_one, after_all, ends};

use base_types::NoMemory;
use std::alloc::Global;
use std::mem;

/// The first place of a row, and the others. A place that the row hasn't got isn't reached.
fn split_row(row: &[bool]) -> (bool, &[bool])
    ensures first { result.0 ≡ first_of row.now }
    ensures others { result.1.now ≡ others row.now }
{
    match row {
        [] => (false, row),
        [first, rest @ ..] => (*first, rest),
    }
}

fn either(a: bool, b: bool) -> bool
    ensures { result ≡ (a || b) }
{
    a || b
}

/// Whether a `*` goes on over a byte.
fn goes_on(reached: bool, byte: u8) -> bool
    ensures { result ≡ (reached && not (byte == 47)) }
{
    reached && byte != b'/'
}

/// Writes the row after a `*`.
fn write_after_star(row: &[bool], name: &[u8], next: &mut Vec<bool>) -> Result<(), NoMemory>
    ensures { OnOk result (next.new.items ≡ after_star false row.now name.now) }
{
    next.clear();
    let mut left = row;
    let mut on = false;
    for byte in name {
        let (here, rest) = split_row(left);
        left = rest;
        let reached = either(here, on);
        next.push(reached)?;
        on = goes_on(reached, *byte);
    }
    let (here, _) = split_row(left);
    next.push(either(here, on))?;
    Ok(())
}

/// Writes the row after another byte of the pattern.
fn write_after_byte(
    wanted: u8,
    row: &[bool],
    name: &[u8],
    next: &mut Vec<bool>,
) -> Result<(), NoMemory>
    ensures { OnOk result (next.new.items ≡ false ∷ after_byte wanted row.now name.now) }
{
    next.clear();
    next.push(false)?;
    let mut left = row;
    for byte in name {
        let (here, rest) = split_row(left);
        left = rest;
        next.push(here && wanted == *byte)?;
    }
    Ok(())
}

/// Writes the row after a byte of the pattern.
fn write_after(wanted: u8, row: &[bool], name: &[u8], next: &mut Vec<bool>) -> Result<(), NoMemory>
    ensures { OnOk result (next.new.items ≡ after_one wanted row.now name.now) }
{
    if wanted == b'*' {
        return write_after_star(row, name, next);
    }
    write_after_byte(wanted, row, name, next)
}

/// Whether the last place of a row is reached.
fn is_end_reached(row: &[bool], name: &[u8]) -> bool
    ensures { result ≡ ends row.now name.now }
{
    let mut left = row;
    for byte in name {
        // Read for the proof alone, which then knows that the name goes on.
        let _byte = *byte;
        left = split_row(left).1;
    }
    split_row(left).0
}

/// The row after the whole pattern.
fn last_row(alloc: Global, pattern: &[u8], name: &[u8]) -> Result<Vec<bool>, NoMemory>
    ensures { IfOk result (λ row. row.items ≡ after_all pattern.now (true ∷ []) name.now) }
{
    let mut row = vec![in alloc; true]?;
    let mut next = Vec::new(alloc);
    for wanted in pattern {
        write_after(*wanted, row.as_slice(), name, &mut next)?;
        mem::swap(&mut row, &mut next);
    }
    Ok(row)
}

/// Whether a pattern fits a name, by a row of the name's length for each byte of the pattern.
#[tactic(auto, using(crate::proofs::MatchLemmas::ends_after_all))]
fn is_reached(alloc: Global, pattern: &[u8], name: &[u8]) -> Result<bool, NoMemory>
    ensures { IfOk result (λ b. b ≡ fits pattern.now name.now) }
{
    let row = last_row(alloc, pattern, name)?;
    Ok(is_end_reached(row.as_slice(), name))
}

/// What is left of both after the bytes before the pattern's first `*`, or nothing where they differ there.
fn skip_front<'p, 'n>(pattern: &'p [u8], name: &'n [u8]) -> Option<(&'p [u8], &'n [u8])>
    ensures { MatchOption result (fits pattern.now name.now ≡ false) (λ p. fits pattern.now name.now ≡ fits p.0.now p.1.now) }
{
    let mut left = pattern;
    let mut bytes = name;
    while let [wanted, more @ ..] = left {
        if *wanted == b'*' {
            return Some((left, bytes));
        }
        let [byte, rest @ ..] = bytes else {
            return None;
        };
        if *wanted != *byte {
            return None;
        }
        left = more;
        bytes = rest;
    }
    Some((left, bytes))
}

/// What is left of both before the bytes after the pattern's last `*`, or nothing where they differ there.
#[tactic(auto)]
fn skip_back<'p, 'n>(pattern: &'p [u8], name: &'n [u8]) -> Option<(&'p [u8], &'n [u8])>
    ensures { MatchOption result (fits pattern.now name.now ≡ false) (λ p. fits pattern.now name.now ≡ fits p.0.now p.1.now) }
{
    let mut left = pattern;
    let mut bytes = name;
    while let [more @ .., wanted] = left {
        if *wanted == b'*' {
            return Some((left, bytes));
        }
        let [rest @ .., byte] = bytes else {
            return None;
        };
        if *wanted != *byte {
            return None;
        }
        left = more;
        bytes = rest;
    }
    Some((left, bytes))
}

/// Whether a pattern fits a name. The bytes before the first `*` and after the last one are compared first.
pub(crate) fn is_fitting(alloc: Global, pattern: &[u8], name: &[u8]) -> Result<bool, NoMemory>
    ensures { IfOk result (λ b. b ≡ fits pattern.now name.now) }
{
    let Some((pattern, name)) = skip_front(pattern, name) else {
        return Ok(false);
    };
    let Some((pattern, name)) = skip_back(pattern, name) else {
        return Ok(false);
    };
    is_reached(alloc, pattern, name)
}
