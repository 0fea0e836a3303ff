// Which commits are ancestors of which: a word of bits for each commit.
ghost use Rattle.std.specs.Prelude.{◌≡◌, ◌+◌, ◌<◌, ◌≤◌, IfOk, IfSome, IsTrue, length};
ghost use Rattle.vref.specs.Marks.{AreTipsOf, AreWithin, HasSpread, IsClosed, MarksAncestors};

use crate::bits::{is_within, joined, with};
use crate::history::{Ids, place_of};
use base_types::NoMemory;
use git_object::ObjectId;
use std::alloc::Global;

/// Marks the ancestors of at most 64 tips: bit `k` of a commit's word says that it is an ancestor of the
/// `k`-th tip. Nothing where a tip isn't in the list, or where the links don't come in the order of the
/// commits. It goes along the links twice, whatever the number of the tips.
pub fn marks_of(
    alloc: Global,
    ids: &Ids,
    links: &[(usize, usize)],
    tips: &[ObjectId],
) -> Result<Option<Vec<u64>>, NoMemory>
    requires within { AreWithin (length ids.now.keys) links.now }
    requires few { length tips.now ≤ 64 }
    ensures marks { IfOk result (λ found. IfSome found (λ words. MarksAncestors ids.now.keys links.now tips.now words.items)) }
    ensures long { IfOk result (λ found. IfSome found (λ words. length words.items ≡ length ids.now.keys)) }
{
    let mut words = vec![in alloc; 0; ids.len()]?;
    if !mark(ids, links, tips, &mut words) {
        return Ok(None);
    }
    Ok(Some(words))
}

// Marks tips and their ancestors; not all if a tip isn't in the list or the links don't come in order.
fn mark(ids: &Ids, links: &[(usize, usize)], tips: &[ObjectId], words: &mut [u64]) -> bool
    requires within { AreWithin (length ids.now.keys) links.now }
    requires few { length tips.now ≤ 64 }
    requires blank { AreTipsOf 0 ids.now.keys tips.now words.old }
    requires long { length words.old ≡ length ids.now.keys }
    ensures marks { IsTrue result → MarksAncestors ids.now.keys links.now tips.now words.new }
    ensures long { length words.new ≡ length words.old }
{
    if !mark_tips(ids, tips, words) {
        return false;
    }
    spread(links, words);
    is_closed(links, words)
}

// Marks each tip with its own bit; not all if one isn't in the list.
fn mark_tips(ids: &Ids, tips: &[ObjectId], words: &mut [u64]) -> bool
    requires blank { AreTipsOf 0 ids.now.keys tips.now words.old }
    requires long { length words.old ≡ length ids.now.keys }
    requires few { length tips.now ≤ 64 }
    ensures tips { IsTrue result → AreTipsOf (length tips.now) ids.now.keys tips.now words.new }
    ensures long { length words.new ≡ length words.old }
{
    for k in 0..tips.len() {
        let Some(at) = place_of(ids, tips[k]) else {
            return false;
        };
        words[at] = with(words[at], k);
    }
    true
}

// Spreads bits along the links, the last one first.
fn spread(links: &[(usize, usize)], words: &mut [u64])
    requires { AreWithin (length words.old) links.now }
    ensures { HasSpread links.now words.old words.new }
{
    let mut left = links.len();
    while left > 0 {
        left -= 1;
        let (from, to) = links[left];
        words[to] = joined(words[to], words[from]);
    }
}

// Whether bits have spread along all links.
fn is_closed(links: &[(usize, usize)], words: &[u64]) -> bool
    requires { AreWithin (length words.now) links.now }
    ensures { IsTrue result → IsClosed links.now words.now }
{
    for k in 0..links.len() {
        let (from, to) = links[k];
        if !is_within(words[from], words[to]) {
            return false;
        }
    }
    true
}
