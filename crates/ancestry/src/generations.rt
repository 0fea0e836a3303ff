// Walks along the parents of commits that end at a generation.
ghost use Rattle.std.specs.Prelude.{◌≡◌, ◌↔◌, ◌∷◌, [], IfOk, IsTrue, List, OnOk};
ghost use Rattle.std.specs.List.{Contains};
ghost use Rattle.git_object.specs.Content.{Content};
ghost use Rattle.git_object.specs.Object.{parents_of};
ghost use Rattle.git_object.specs.declared.object_id.ObjectId.{ObjectId};
ghost use Rattle.ancestry.specs.Generations.{AreHigh, ArePast, HasLow, IsFloor, IsHigh, is_low, parents_above};
ghost use Rattle.ancestry.specs.IdSet.{Adds};
ghost use Rattle.ancestry.specs.Known.{AreKnown};
ghost use Rattle.ancestry.specs.Reached.{IsReached};

use crate::id_set::IdSet;
use crate::known::Known;
use crate::reached::{Steps, reached};
use base_types::NoMemory;
use git_object::{Object, ObjectId};
use ref_store::Lens;
use std::alloc::Global;

/// From a commit to its parents, but nowhere from one that is known to be of a generation lower than the
/// least, nor from what is past.
#[derive(Clone, Copy)]
pub struct ToParents<'a> {
    pub lens: &'a Lens,
    pub known: &'a Known,
    pub least: u64,
    pub past: &'a IdSet,
}

impl<'a> Steps for ToParents<'a> {
    ghost next = { λ s id. parents_above s.lens.now s.known.now s.least s.past.now id };

    fn insert_next(&self, id: ObjectId, set: &mut IdSet) -> Result<(), NoMemory> {
        if is_low(self.known, self.least, id) {
            return Ok(());
        }
        if self.past.contains(id) {
            return Ok(());
        }
        let Some(object) = self.lens.get(id) else {
            return Ok(());
        };
        insert_parents(object, set)
    }
}

fn insert_parents(commit: &Object, set: &mut IdSet) -> Result<(), NoMemory>
    ensures { OnOk result (Adds set.old set.new (parents_of commit.now.kind commit.now.body)) }
{
    for parent in commit.parents() {
        set.insert(parent)?;
    }
    Ok(())
}

// Whether an object is known to be of a generation lower than the least.
fn is_low(known: &Known, least: u64, id: ObjectId) -> bool
    ensures { result ≡ is_low known.now least id }
{
    match known.generation(id) {
        Some(generation) => generation < least,
        None => false,
    }
}

/// A generation below which no commit leads to this one: its own, or zero where that isn't known.
pub fn floor_of(known: &Known, old: ObjectId) -> u64
    ensures { (objects : List Content) → AreKnown objects known.now → IsFloor objects known.now old result }
{
    match known.generation(old) {
        Some(generation) => generation,
        None => 0,
    }
}

/// Ancestors of the old commit, with all but those of generations lower than the least. It costs a few
/// look-ups for each.
pub fn past_above(
    alloc: Global,
    lens: &Lens,
    known: &Known,
    least: u64,
    old: ObjectId,
) -> Result<IdSet, NoMemory>
    requires { AreKnown lens.now known.now }
    ensures { IfOk result (λ past. ArePast lens.now old least past) }
{
    let nothing = IdSet::new(alloc, lens.salt());
    line_above(alloc, lens, known, least, &nothing, old)
}

/// What a walk from the new commit meets, that goes on neither from what is past nor from what is known to be
/// of a generation lower than the least.
pub fn line_above(
    alloc: Global,
    lens: &Lens,
    known: &Known,
    least: u64,
    past: &IdSet,
    new: ObjectId,
) -> Result<IdSet, NoMemory>
    ensures { IfOk result (λ line. (id : ObjectId) → Contains line id ↔ IsReached (parents_above lens.now known.now least past.now) (new ∷ []) id) }
{
    let steps = ToParents {
        lens,
        known,
        least,
        past,
    };
    reached(alloc, lens.salt(), &steps, &[new])
}

/// Whether something among these is of a generation lower than the least, and isn't past.
pub fn has_low(known: &Known, least: u64, among: &IdSet, past: &IdSet) -> bool
    ensures { IsTrue result ↔ HasLow known.now least among.now past.now }
{
    let mut next = 0;
    while let Some(id) = among.nth(next) {
        next += 1;
        if is_low(known, least, id) && !past.contains(id) {
            return true;
        }
    }
    false
}

/// Commits of a walk that are known to be of a generation no lower than the least, and such whose generation
/// isn't known, but behind which the walk came to one of those. It goes back through the walk, since a commit
/// mostly comes before its parents there.
pub fn high_among(
    alloc: Global,
    lens: &Lens,
    known: &Known,
    least: u64,
    line: &IdSet,
) -> Result<IdSet, NoMemory>
    requires { AreKnown lens.now known.now }
    ensures { IfOk result (AreHigh lens.now least line.now) }
{
    let mut high = IdSet::new(alloc, lens.salt());
    let mut left = line.len();
    while left > 0 {
        left -= 1;
        let Some(id) = line.nth(left) else {
            continue;
        };
        if !is_high(lens, known, least, &high, id) {
            continue;
        }
        high.insert(id)?;
    }
    Ok(high)
}

// Whether a commit is known to be of a generation no lower than the least, or has a parent among those that
// are high.
fn is_high(lens: &Lens, known: &Known, least: u64, high: &IdSet, id: ObjectId) -> bool
    requires known { AreKnown lens.now known.now }
    requires high { (other : ObjectId) → Contains high.now other → IsHigh lens.now least other }
    ensures { IsTrue result → IsHigh lens.now least id }
{
    if let Some(generation) = known.generation(id) {
        return least <= generation;
    }
    match lens.get(id) {
        Some(commit) => has_parent_among(commit, high),
        None => false,
    }
}

fn has_parent_among(commit: &Object, among: &IdSet) -> bool
    ensures { IsTrue result → ((parent : ObjectId) × Contains (parents_of commit.now.kind commit.now.body) parent × Contains among.now parent) }
{
    for parent in commit.parents() {
        if among.contains(parent) {
            return true;
        }
    }
    false
}
