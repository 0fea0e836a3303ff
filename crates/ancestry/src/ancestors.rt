// Along the parents of commits.
ghost use Rattle.std.specs.Prelude.{◌↔◌, ◌≤◌, ◌⊎◌, IfOk, IfSome, IsTrue, length};
ghost use Rattle.ancestry.specs.Ancestors.{BringsMerge, HasMerge, IsAncestor, parents_at};
ghost use Rattle.ancestry.specs.Generations.{HasLow, IsAtLeast};
ghost use Rattle.ancestry.specs.Known.{AreKnown};

use crate::generations::{ToParents, floor_of, has_low, high_among, line_above, past_above};
use crate::id_set::IdSet;
use crate::known::Known;
use crate::reached::reaches;
use base_types::NoMemory;
use git_object::ObjectId;
use ref_store::Lens;
use std::alloc::Global;

/// Whether the old commit is an ancestor of the new one, or the same. It walks back from the new commit as
/// far as the old one is away, and goes on from no commit that is known to be of a lower generation. Where
/// the generation of the old one isn't known, and it is no ancestor, that is all of the new one's history.
pub fn is_ancestor(
    alloc: Global,
    lens: &Lens,
    known: &Known,
    old: ObjectId,
    new: ObjectId,
) -> Result<bool, NoMemory>
    requires { AreKnown lens.now known.now }
    ensures { IfOk result (λ is. IsTrue is ↔ IsAncestor lens.now old new) }
{
    let nothing = IdSet::new(alloc, lens.salt());
    let steps = ToParents {
        lens,
        known,
        least: floor_of(known, old),
        past: &nothing,
    };
    reaches(alloc, lens.salt(), &steps, new, old)
}

/// Whether a commit with two parents or more is an ancestor of the new commit and not of the old one. It
/// costs what `advance_between` does.
pub fn brings_merge(
    alloc: Global,
    lens: &Lens,
    known: &Known,
    old: ObjectId,
    new: ObjectId,
) -> Result<bool, NoMemory>
    requires { AreKnown lens.now known.now }
    ensures { IfOk result (λ brings. IsTrue brings ↔ BringsMerge lens.now old new) }
{
    Ok(advance_between(alloc, lens, known, old, new)?.merge)
}

/// How a commit follows another.
#[derive(Clone, Copy, Debug, PartialEq, Eq)]
pub struct Advance {
    /// The old commit is an ancestor of the new one, or the same.
    pub forward: bool,
    /// A commit with two parents or more is an ancestor of the new commit and not of the old one.
    pub merge: bool,
}

// By so many generations the second walks go further down than the first, or by as many as the new commit is
// known to be above the old one. Each next walks go further down by twice as many as those before.
const FIRST_STEP: u64 = 16;

/// Whether the new commit's first few first parents come to one that is known to be of about the old one's
/// generation. Then `advance_between` walks along a few commits, unless they have many parents. Only costs
/// rest on it, and it costs a few look-ups.
pub fn is_near(lens: &Lens, known: &Known, old: ObjectId, new: ObjectId) -> bool {
    let Some(generation) = known.generation(old) else {
        return false;
    };
    let mut at = new;
    for _ in 0..FIRST_STEP {
        if let Some(other) = known.generation(at) {
            return other.abs_diff(generation) <= FIRST_STEP;
        }
        let Some(parent) = first_parent(lens, at) else {
            return false;
        };
        at = parent;
    }
    false
}

fn first_parent(lens: &Lens, id: ObjectId) -> Option<ObjectId> {
    match lens.get(id) {
        Some(object) => object.parents().next(),
        None => None,
    }
}

/// How the new commit follows the old one.
///
/// Where the generation of the old commit is known, a change that is forward costs what it adds: a walk goes
/// back from the new commit, but not on from the old one nor from lower generations. Any other change, as a
/// rewind, costs a few times what both histories have above the generation where the new one joins the old
/// one, or has ended: both commits are walked from, down to the generation of the old one, and then 16, 48,
/// 112 and more generations further, until that shows the answer.
///
/// Where the generation of the old commit isn't known, the walk from the new one is all of its history if it
/// doesn't meet the old one, and a merge costs all of the old one's history too.
pub fn advance_between(
    alloc: Global,
    lens: &Lens,
    known: &Known,
    old: ObjectId,
    new: ObjectId,
) -> Result<Advance, NoMemory>
    requires { AreKnown lens.now known.now }
    ensures forward { IfOk result (λ a. IsTrue a.forward ↔ IsAncestor lens.now old new) }
    ensures merge { IfOk result (λ a. IsTrue a.merge ↔ BringsMerge lens.now old new) }
{
    let Some(generation) = known.generation(old) else {
        return advance_by_all(alloc, lens, known, old, new);
    };
    let of_new = known.generation(new).unwrap_or(generation);
    let mut step = FIRST_STEP.max(of_new.saturating_sub(generation));
    let mut least = generation;
    let mut least_of_new = of_new.min(generation);
    while least > 0 {
        let told = advance_above(alloc, lens, known, least, least_of_new, old, new)?;
        if let Some(advance) = told {
            return Ok(advance);
        }
        least = least.saturating_sub(step);
        least_of_new = least_of_new.saturating_sub(step);
        step = step.saturating_mul(2);
    }
    advance_by_all(alloc, lens, known, old, new)
}

// The same, where walks from both commits down to some generations show it: no merge that isn't past is met,
// and nothing low behind which one may be; or one is met of a generation so high that it would be past if it
// were an ancestor of the old commit.
fn advance_above(
    alloc: Global,
    lens: &Lens,
    known: &Known,
    least: u64,
    least_of_new: u64,
    old: ObjectId,
    new: ObjectId,
) -> Result<Option<Advance>, NoMemory>
    requires known { AreKnown lens.now known.now }
    requires above { IsAtLeast lens.now least_of_new old }
    ensures forward { IfOk result (λ told. IfSome told (λ a. IsTrue a.forward ↔ IsAncestor lens.now old new)) }
    ensures merge { IfOk result (λ told. IfSome told (λ a. IsTrue a.merge ↔ BringsMerge lens.now old new)) }
{
    let past = past_above(alloc, lens, known, least, old)?;
    let line = line_above(alloc, lens, known, least_of_new, &past, new)?;
    let forward = line.contains(old);
    if !may_bring(lens, known, least_of_new, &past, &line) {
        return Ok(Some(Advance {
            forward,
            merge: false,
        }));
    }
    let high = high_among(alloc, lens, known, least, &line)?;
    if has_merge(lens, &high, &past) {
        return Ok(Some(Advance {
            forward,
            merge: true,
        }));
    }
    Ok(None)
}

// The same, whatever is known: not on from the old commit, and by all of its history where a merge is met.
fn advance_by_all(
    alloc: Global,
    lens: &Lens,
    known: &Known,
    old: ObjectId,
    new: ObjectId,
) -> Result<Advance, NoMemory>
    requires { AreKnown lens.now known.now }
    ensures forward { IfOk result (λ a. IsTrue a.forward ↔ IsAncestor lens.now old new) }
    ensures merge { IfOk result (λ a. IsTrue a.merge ↔ BringsMerge lens.now old new) }
{
    let mut itself = IdSet::new(alloc, lens.salt());
    itself.insert(old)?;
    let line = line_above(alloc, lens, known, 0, &itself, new)?;
    let forward = line.contains(old);
    if !has_merge(lens, &line, &itself) {
        return Ok(Advance {
            forward,
            merge: false,
        });
    }
    let past = past_above(alloc, lens, known, 0, old)?;
    Ok(Advance {
        forward,
        merge: has_merge(lens, &line, &past),
    })
}

// Whether a merge is met that isn't past, or something of a lower generation than the least, behind which one
// may be.
fn may_bring(lens: &Lens, known: &Known, least: u64, past: &IdSet, line: &IdSet) -> bool
    ensures { IsTrue result ↔ (HasMerge lens.now line.now past.now ⊎ HasLow known.now least line.now past.now) }
{
    has_merge(lens, line, past) || has_low(known, least, line, past)
}

// Whether a merge is among some commits and not among others.
fn has_merge(lens: &Lens, among: &IdSet, without: &IdSet) -> bool
    ensures { IsTrue result ↔ HasMerge lens.now among.now without.now }
{
    let mut next = 0;
    while let Some(id) = among.nth(next) {
        next += 1;
        if is_merge(lens, id) && !without.contains(id) {
            return true;
        }
    }
    false
}

// Whether a commit has two parents or more.
fn is_merge(lens: &Lens, id: ObjectId) -> bool
    ensures { IsTrue result ↔ (2 ≤ length (parents_at lens.now id)) }
{
    let Some(object) = lens.get(id) else {
        return false;
    };
    let mut parents = object.parents();
    if parents.next().is_none() {
        return false;
    }
    parents.next().is_some()
}
