// What the rules said of the changed paths of pairs of trees.
ghost use Rattle.std.specs.Prelude.{◌≡◌, IfOk, IfSome};
ghost use Rattle.update_check.specs.Check.{CheckView};
ghost use Rattle.update_check.specs.PathVerdicts.{AreRight, SaysOfTrees, base_number, letter_of, new_of, old_of};

use crate::refusal::Refusal;
use access_check::{Base, Letter};
use base_types::NoMemory;
use git_object::ObjectId;
use indexmap::IndexMap;
use ref_store::{Lens, Salt};
use std::alloc::Global;

/// A change of one tree to another, by a change of a ref that needs this letter, as the key of a table. Where
/// a side is the empty tree, which has no id, its name stands for nothing.
#[derive(Clone, Copy, PartialEq, Eq, Hash)]
pub struct TreeChange {
    old: ObjectId,
    new: ObjectId,
    has_old: bool,
    has_new: bool,
    base: u8,
    merge: bool,
}

impl TreeChange {
    /// Without an id a side is the empty tree.
    pub fn new(old: Option<ObjectId>, new: Option<ObjectId>, letter: Letter) -> TreeChange
        ensures old { old_of result ≡ old }
        ensures new { new_of result ≡ new }
        ensures letter { letter_of result ≡ letter }
    {
        TreeChange {
            old: old.unwrap_or(ObjectId::zero()),
            new: new.unwrap_or(ObjectId::zero()),
            has_old: old.is_some(),
            has_new: new.is_some(),
            base: base_number(letter.base),
            merge: letter.merge,
        }
    }
}

fn base_number(base: Base) -> u8
    ensures { result ≡ base_number base }
{
    match base {
        Base::Write => 0,
        Base::Rewind => 1,
        Base::Create => 2,
        Base::Delete => 3,
    }
}

/// What the rules said of the changed paths of each pair of trees that was asked of, by the letter, so that
/// commands that change the same trees are decided once. It holds a key and an answer for each.
#[derive(Drop)]
pub struct PathVerdicts {
    said: IndexMap<TreeChange, Option<Refusal>, Salt>,
}

impl PathVerdicts {
    pub fn new(alloc: Global, lens: &Lens) -> PathVerdicts
        ensures { (check : CheckView) → AreRight check result }
    {
        PathVerdicts {
            said: IndexMap::with_hasher(alloc, lens.salt()),
        }
    }

    /// A copy of what was said of a change, if it was asked of.
    pub fn get(&self, change: TreeChange) -> Result<Option<Option<Refusal>>, NoMemory>
        ensures { (check : CheckView) → AreRight check self.now → IfOk result (λ found. IfSome found (SaysOfTrees check change)) }
    {
        match self.said.get(&change) {
            Some(said) => Ok(Some(copy_of(said)?)),
            None => Ok(None),
        }
    }

    /// Keeps a copy of what was said of a change.
    pub fn keep(&mut self, change: TreeChange, said: &Option<Refusal>) -> Result<(), NoMemory>
        ensures { (check : CheckView) → AreRight check self.old → SaysOfTrees check change said.now → AreRight check self.new }
    {
        self.said.insert(change, copy_of(said)?)?;
        Ok(())
    }
}

fn copy_of(said: &Option<Refusal>) -> Result<Option<Refusal>, NoMemory>
    ensures { IfOk result (λ copy. copy ≡ said.now) }
{
    match said {
        Some(refusal) => Ok(Some(refusal.clone()?)),
        None => Ok(None),
    }
}
