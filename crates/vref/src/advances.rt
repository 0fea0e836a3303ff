// How commits follow others, many pairs at once.
ghost use Rattle.std.specs.Prelude.{◌≡◌, ◌≤◌, ◌<◌, ◌↔◌, ℕ, IfOk, IfSome, IsTrue, length, map, Some};
ghost use Rattle.std.specs.List.{AllZip, Contains};
ghost use Rattle.ancestry.specs.Known.{AreKnown};
ghost use Rattle.vref.specs.Advances.{AreFresh, IsAdvance};
ghost use Rattle.vref.specs.History.{place};
ghost use Rattle.vref.specs.Marks.{IsMarked};

use crate::bits::{BITS, has, joined, without};
use crate::history::{Ids, links_of, merges_of, place_of};
use crate::marks::marks_of;
use crate::order::in_order;
use ancestry::{Advance, Known, advance_between, is_near};
use base_types::NoMemory;
use git_object::ObjectId;
use ref_store::Lens;
use std::alloc::Global;
use std::marker::Model;

/// A commit, and one that is to follow it.
pub type Pair = (ObjectId, ObjectId);

// Up to so many pairs each walk by itself: such a walk goes no further back than it must, and so many whole
// walks cost a few times what the order does.
const FEW: usize = 4;

// The same of pairs of which each walk is likely to be short. Where none is, as they may have many parents,
// so many whole walks are what it costs at most.
const FEW_NEAR: usize = 16;

/// How the second commit of each pair follows the first.
///
/// Of many pairs the whole histories are read once, put into an order, and gone along four times for each 64
/// pairs.
pub fn advances_between(
    alloc: Global,
    lens: &Lens,
    known: &Known,
    pairs: &[Pair],
) -> Result<Vec<Advance>, NoMemory>
    requires { AreKnown lens.now known.now }
    ensures { IfOk result (λ advances. AllZip (IsAdvance lens.now) pairs.now advances.items) }
{
    if are_few(lens, known, pairs) {
        return advances_by_walks(alloc, lens, known, pairs);
    }
    let Some(history) = History::of(alloc, lens, pairs)? else {
        return advances_by_walks(alloc, lens, known, pairs);
    };
    let mut advances = Vec::new(alloc);
    let mut rest = pairs;
    while !rest.is_empty() {
        let (portion, behind) = rest.split_at(rest.len().min(BITS));
        let told = history.advances_of_portion(alloc, known, portion)?;
        advances.extend_from_slice(&told)?;
        rest = behind;
    }
    Ok(advances)
}

// Whether walks of their own cost less than the order does, as far as can be told beforehand.
fn are_few(lens: &Lens, known: &Known, pairs: &[Pair]) -> bool {
    let count = count_of_different(pairs);
    count <= FEW || (count <= FEW_NEAR && are_near(lens, known, pairs))
}

// Whether the walk of each pair is likely to be short.
fn are_near(lens: &Lens, known: &Known, pairs: &[Pair]) -> bool {
    for (old, new) in pairs {
        if old != new && !is_near(lens, known, *old, *new) {
            return false;
        }
    }
    true
}

// How many pairs are of two different commits.
fn count_of_different(pairs: &[Pair]) -> usize {
    let mut count: usize = 0;
    for (old, new) in pairs {
        if old != new {
            count = count.saturating_add(1);
        }
    }
    count
}

// Each pair by a walk of its own.
fn advances_by_walks(
    alloc: Global,
    lens: &Lens,
    known: &Known,
    pairs: &[Pair],
) -> Result<Vec<Advance>, NoMemory>
    requires { AreKnown lens.now known.now }
    ensures { IfOk result (λ advances. AllZip (IsAdvance lens.now) pairs.now advances.items) }
{
    let mut advances = Vec::new(alloc);
    for pair in pairs {
        advances.push(advance_by_walk(alloc, lens, known, *pair)?)?;
    }
    Ok(advances)
}

/// How the second commit of a pair follows the first, by a walk if they differ.
pub fn advance_by_walk(
    alloc: Global,
    lens: &Lens,
    known: &Known,
    pair: Pair,
) -> Result<Advance, NoMemory>
    requires { AreKnown lens.now known.now }
    ensures { IfOk result (IsAdvance lens.now pair) }
{
    let (old, new) = pair;
    if old == new {
        return Ok(Advance {
            forward: true,
            merge: false,
        });
    }
    advance_between(alloc, lens, known, old, new)
}

/// The commits of some pairs and all their ancestors.
#[derive(Drop)]
struct History<'a> {
    lens: &'a Lens,
    ids: Ids,
    links: Vec<(usize, usize)>,
    merges: Vec<usize>,
}

impl<'a> Model for History<'a> {
    ghost use Rattle.std.specs.Prelude.{List};
    ghost use Rattle.git_object.specs.Content.{Content};
    ghost use Rattle.vref.specs.History.{AreLinks, AreMerges};

    ghost Value = { List Content };

    ghost view = { λ h. h.lens.now };

    ghost invariant = { λ h. AreLinks h.lens.now h.ids.keys h.links.items × AreMerges h.lens.now h.ids.keys h.merges.items };
}

impl<'a> History<'a> {
    ghost use Rattle.ancestry.specs.Known.{AreKnown};
    ghost use Rattle.vref.specs.Advances.{IsAdvance};

    // Nothing where a parent isn't found in the order, which is so of no history.
    fn of(alloc: Global, lens: &'a Lens, pairs: &[Pair]) -> Result<Option<History<'a>>, NoMemory>
        ensures { IfOk result (λ found. IfSome found (λ history. history ≡ lens.now)) }
    {
        let ids = in_order(alloc, lens, &commits_of(alloc, pairs)?)?;
        let Some(links) = links_of(alloc, lens, &ids)? else {
            return Ok(None);
        };
        let merges = merges_of(alloc, lens, &ids)?;
        Ok(Some(History {
            lens,
            ids,
            links,
            merges,
        }))
    }

    // At most 64 pairs at once. Where links lead in a circle each walks by itself.
    fn advances_of_portion(
        &self,
        alloc: Global,
        known: &Known,
        pairs: &[Pair],
    ) -> Result<Vec<Advance>, NoMemory>
        requires few { length pairs.now ≤ 64 }
        requires known { AreKnown self.now known.now }
        ensures { IfOk result (λ advances. AllZip (IsAdvance self.now) pairs.now advances.items) }
    {
        let olds = olds_of(alloc, pairs)?;
        let news = news_of(alloc, pairs)?;
        let Some(of_old) = marks_of(alloc, &self.ids, &self.links, &olds)? else {
            return advances_by_walks(alloc, self.lens, known, pairs);
        };
        let Some(of_new) = marks_of(alloc, &self.ids, &self.links, &news)? else {
            return advances_by_walks(alloc, self.lens, known, pairs);
        };
        let fresh = fresh_of(&self.merges, &of_old, &of_new);
        let mut advances = Vec::new(alloc);
        for k in 0..pairs.len() {
            let (old, _) = pairs[k];
            advances.push(Advance {
                forward: is_marked(&self.ids, &of_new, old, k),
                merge: has(fresh, k),
            })?;
        }
        Ok(advances)
    }
}

// Whether the word of a commit has a bit.
fn is_marked(ids: &Ids, words: &[u64], id: ObjectId, bit: usize) -> bool
    requires long { length words.now ≡ length ids.now.keys }
    requires small { bit < 64 }
    ensures { IsTrue result ↔ ((i : ℕ) × (place ids.now.keys id ≡ Some i) × IsMarked words.now i bit) }
{
    match place_of(ids, id) {
        Some(at) => has(words[at], bit),
        None => false,
    }
}

// The bits of those pairs of which some merge is marked for the new commit and not for the old one.
fn fresh_of(merges: &[usize], of_old: &[u64], of_new: &[u64]) -> u64
    requires within { (i : ℕ) → Contains merges.now i → i < length of_old.now }
    requires long { length of_new.now ≡ length of_old.now }
    ensures { AreFresh merges.now of_old.now of_new.now result }
{
    let mut fresh = 0;
    for at in merges {
        fresh = joined(fresh, without(of_new[*at], of_old[*at]));
    }
    fresh
}

// All commits of some pairs.
fn commits_of(alloc: Global, pairs: &[Pair]) -> Result<Vec<ObjectId>, NoMemory> {
    let mut commits = Vec::new(alloc);
    for (old, new) in pairs {
        commits.push(*old)?;
        commits.push(*new)?;
    }
    Ok(commits)
}

// The first of each pair.
fn olds_of(alloc: Global, pairs: &[Pair]) -> Result<Vec<ObjectId>, NoMemory>
    ensures { IfOk result (λ olds. olds.items ≡ map (λ pair. pair.0) pairs.now) }
{
    let mut olds = Vec::new(alloc);
    for (old, _) in pairs {
        olds.push(*old)?;
    }
    Ok(olds)
}

// The second of each pair.
fn news_of(alloc: Global, pairs: &[Pair]) -> Result<Vec<ObjectId>, NoMemory>
    ensures { IfOk result (λ news. news.items ≡ map (λ pair. pair.1) pairs.now) }
{
    let mut news = Vec::new(alloc);
    for (_, new) in pairs {
        news.push(*new)?;
    }
    Ok(news)
}
