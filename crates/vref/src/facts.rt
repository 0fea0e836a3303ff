// The facts of a change of a ref.
ghost use Rattle.std.specs.Prelude.{◌≡◌, ◌↔◌, ◌||◌, nat_eq, IfOk, IsTrue, codes, map};
ghost use Rattle.std.specs.List.{AllZip, starts_with};
ghost use Rattle.ancestry.specs.Ancestors.{BringsMerge, IsAncestor};
ghost use Rattle.ancestry.specs.Known.{AreKnown};
ghost use Rattle.vref.specs.Advances.{IsAdvance};
ghost use Rattle.vref.specs.Facts.{AreFacts, change_of, is_between_commits, is_commit, is_zero, pair_of};

use crate::advances::{Pair, advance_by_walk, advances_between};
use ancestry::{Advance, Change, Facts, Known};
use base_types::NoMemory;
use git_object::{Kind, ObjectId};
use ref_store::{Command, Lens};
use std::alloc::Global;

/// The facts of a change of a ref of this name. Of an update between two commits it costs what
/// `ancestry::advance_between` does; of any other change a few look-ups.
pub fn facts_of(
    alloc: Global,
    lens: &Lens,
    known: &Known,
    name: &[u8],
    old: ObjectId,
    new: ObjectId,
) -> Result<Facts, NoMemory>
    requires { AreKnown lens.now known.now }
    ensures { IfOk result (AreFacts lens.now name.now old new) }
{
    let advance = advance_by_walk(alloc, lens, known, pair_of(lens, old, new))?;
    Ok(facts_by(lens, name, old, new, advance))
}

/// The facts of each of these changes of refs, in order.
///
/// A few updates between commits walk as those of `facts_of` do. Of more the histories of all old and new
/// commits are read once, and then gone along four times for each 64 changes. Where links lead in a circle,
/// which no known history can, each update walks by itself.
pub fn facts_of_all(
    alloc: Global,
    lens: &Lens,
    known: &Known,
    changes: &[Command],
) -> Result<Vec<Facts>, NoMemory>
    requires { AreKnown lens.now known.now }
    ensures { IfOk result (λ facts. AllZip (λ change facts. AreFacts lens.now change.name change.old change.new facts) changes.now facts.items) }
{
    let pairs = pairs_of(alloc, lens, changes)?;
    let advances = advances_between(alloc, lens, known, &pairs)?;
    let mut all = Vec::new(alloc);
    for k in 0..changes.len() {
        let change = &changes[k];
        all.push(facts_by(
            lens,
            change.name.bytes(),
            change.old,
            change.new,
            advances[k],
        ))?;
    }
    Ok(all)
}

// What is asked of each change: how its new commit follows the old one.
fn pairs_of(alloc: Global, lens: &Lens, changes: &[Command]) -> Result<Vec<Pair>, NoMemory>
    ensures { IfOk result (λ pairs. pairs.items ≡ map (λ change. pair_of lens.now change.old change.new) changes.now) }
{
    let mut pairs = Vec::new(alloc);
    for change in changes {
        pairs.push(pair_of(lens, change.old, change.new))?;
    }
    Ok(pairs)
}

// The two commits of an update; any other change asks nothing, and gets a pair that costs nothing.
fn pair_of(lens: &Lens, old: ObjectId, new: ObjectId) -> Pair
    ensures { result ≡ pair_of lens.now old new }
{
    if is_between_commits(lens, old, new) {
        (old, new)
    } else {
        (ObjectId::zero(), ObjectId::zero())
    }
}

// The facts of a change, from how its new commit follows the old one.
fn facts_by(lens: &Lens, name: &[u8], old: ObjectId, new: ObjectId, advance: Advance) -> Facts
    requires { IsAdvance lens.now (pair_of lens.now old new) advance }
    ensures { AreFacts lens.now name.now old new result }
{
    let between = is_between_commits(lens, old, new);
    Facts {
        change: change_of(old, new),
        tag: name.starts_with(b"refs/tags/"),
        commits: is_absent_or_commit(lens, old) && is_absent_or_commit(lens, new),
        forward: between && advance.forward,
        merge: between && advance.merge,
    }
}

fn change_of(old: ObjectId, new: ObjectId) -> Change
    ensures { result ≡ change_of old new }
{
    if is_zero(old) {
        return Change::Create;
    }
    if is_zero(new) {
        return Change::Delete;
    }
    Change::Update
}

fn is_between_commits(lens: &Lens, old: ObjectId, new: ObjectId) -> bool
    ensures { result ≡ is_between_commits lens.now old new }
{
    !is_zero(old) && !is_zero(new) && is_commit(lens, old) && is_commit(lens, new)
}

fn is_absent_or_commit(lens: &Lens, id: ObjectId) -> bool
    ensures { result ≡ (is_zero id || is_commit lens.now id) }
{
    is_zero(id) || is_commit(lens, id)
}

fn is_commit(lens: &Lens, id: ObjectId) -> bool
    ensures { result ≡ is_commit lens.now id }
{
    match lens.get(id) {
        Some(object) => object.kind() == Kind::Commit,
        None => false,
    }
}

pub(crate) fn is_zero(id: ObjectId) -> bool
    ensures { result ≡ is_zero id }
{
    id == ObjectId::zero()
}
