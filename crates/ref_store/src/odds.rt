// Which ref can't stand beside a name.
ghost use Rattle.std.specs.Prelude.{◌≡◌, ◌+◌, ◌++◌, ◌∷◌, ◌<◌, ◌≤◌, [], drop, IfOk, length};
ghost use Rattle.ref_store.specs.Odds.{common, has_same_block, HasNoDirectory, TellsOfDirectory, TellsOfPlace};
ghost use Rattle.ref_store.specs.Refs.{HasRefsApart, TellsOfOdds};

use crate::ref_map::RefMap;
use base_types::{NoMemory, Text};
use std::alloc::Global;

const BLOCK: usize = 64;

/// The least ref that is a directory of the name or stands below it. Either is next to the name in the order
/// of names, so it costs a few look-ups.
pub fn at_odds(alloc: Global, refs: &RefMap, name: &Text) -> Result<Option<Text>, NoMemory>
    requires { HasRefsApart refs.now }
    ensures { IfOk result (λ r. TellsOfOdds refs.now name.now r) }
{
    match directory(alloc, refs, name)? {
        Some(dir) => Ok(Some(dir)),
        None => below(alloc, refs, name),
    }
}

// The ref that is a directory of the name. A directory of the name is a beginning of the greatest ref that
// isn't behind the name, but it is no directory of that ref where refs stand apart: so it ends just where the
// two names part.
fn directory(alloc: Global, refs: &RefMap, name: &Text) -> Result<Option<Text>, NoMemory>
    requires { HasRefsApart refs.now }
    ensures { IfOk result (λ r. TellsOfDirectory refs.now name.now r) }
{
    let Some(nearest) = refs.last_to(name) else {
        return Ok(None);
    };
    let name = name.bytes();
    let end = common_len(nearest.bytes(), name);
    if end >= name.len() {
        return Ok(None);
    }
    dir_at(alloc, refs, name, end)
}

// How many bytes two names have in common at the front. Blocks that are the same are passed over as a whole.
fn common_len(first: &[u8], second: &[u8]) -> usize
    ensures { result ≡ common first.now second.now }
{
    for i in common_blocks(first, second)..first.len() {
        if i >= second.len() {
            return i;
        }
        if first[i] != second[i] {
            return i;
        }
    }
    first.len()
}

// How many bytes lie in the blocks at the front that two names have in common.
fn common_blocks(first: &[u8], second: &[u8]) -> usize
    ensures within { result ≤ length first.now }
    ensures common { common first.now second.now ≡ result + common (drop result first.now) (drop result second.now) }
{
    let mut at = 0;
    while has_same_block(first, second, at) {
        at += BLOCK;
    }
    at
}

// Whether two names have the same block at this place.
fn has_same_block(first: &[u8], second: &[u8], at: usize) -> bool
    requires { at ≤ length first.now }
    ensures { result ≡ has_same_block first.now second.now at }
{
    let end = at.saturating_add(BLOCK);
    match (first.get(at..end), second.get(at..end)) {
        (Some(one), Some(two)) => one == two,
        _ => false,
    }
}

// The directory that ends at this place, if it is a ref.
fn dir_at(alloc: Global, refs: &RefMap, name: &[u8], i: usize) -> Result<Option<Text>, NoMemory>
    requires { i < length name.now }
    ensures { IfOk result (λ r. TellsOfPlace refs.now name.now i r) }
{
    if name[i] != b'/' {
        return Ok(None);
    }
    let dir = Text::of(alloc, name.split_at(i).0)?;
    match refs.get(&dir) {
        Some(_) => Ok(Some(dir)),
        None => Ok(None),
    }
}

fn below(alloc: Global, refs: &RefMap, name: &Text) -> Result<Option<Text>, NoMemory>
    requires { HasNoDirectory refs.now name.now }
    ensures { IfOk result (λ r. TellsOfOdds refs.now name.now r) }
{
    let front = with_slash(alloc, name.bytes())?;
    let Some(found) = refs.first_from(&front) else {
        return Ok(None);
    };
    if found.bytes().starts_with(front.bytes()) {
        return Ok(Some(found.clone()?));
    }
    Ok(None)
}

fn with_slash(alloc: Global, name: &[u8]) -> Result<Text, NoMemory>
    ensures { IfOk result (λ t. t ≡ name.now ++ 47 ∷ []) }
{
    let mut bytes = Vec::with_capacity(alloc, name.len() + 1)?;
    bytes.extend_from_slice(name)?;
    bytes.push(b'/')?;
    Ok(Text::from(bytes))
}
