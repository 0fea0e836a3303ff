// What was found out of pairs of trees.
ghost use Rattle.std.specs.Prelude.{◌≡◌, IfOk, IsSome, OnOk};
ghost use Rattle.std.specs.Map.{lookup};
ghost use Rattle.vref.specs.Comparisons.{AreDifferencesOf, IsSound, same_pair};

use crate::bases::Bases;
use crate::differences::{Difference, differences_between};
use base_types::NoMemory;
use git_object::ObjectId;
use indexmap::IndexMap;
use ref_store::{Lens, Salt};
use std::alloc::Global;

/// Two trees.
#[derive(Clone, Copy, PartialEq, Eq, Hash)]
pub struct TreePair {
    pub old: ObjectId,
    pub new: ObjectId,
}

/// Where the trees of each pair differ that was compared, so that two trees that come at many paths are
/// compared once; and bases, by which hundreds of trees that are much alike are each compared with each
/// without a pass for each pair. Of each it holds a few differences for each row that was met, and one list
/// more.
#[derive(Drop)]
pub struct Comparisons<'a> {
    pairs: IndexMap<TreePair, Vec<Difference<'a>>, Salt>,
    bases: Bases<'a>,
}

impl<'a> Comparisons<'a> {
    pub fn new(alloc: Global, lens: &Lens) -> Comparisons<'a>
        ensures { IsSound lens.now result }
    {
        Comparisons {
            pairs: IndexMap::with_hasher(alloc, lens.salt()),
            bases: Bases::new(alloc, lens.salt()),
        }
    }

    /// Compares two trees, unless they were compared before.
    pub fn compare_pair(
        &mut self,
        alloc: Global,
        lens: &'a Lens,
        pair: TreePair,
    ) -> Result<(), NoMemory>
        requires { IsSound lens.now self.old }
        ensures sound { IsSound lens.now self.new }
        ensures there { OnOk result (IsSome (lookup (same_pair pair) self.new.pairs.entries)) }
    {
        if self.pairs.contains_key(&pair) {
            return Ok(());
        }
        let list = self.find_differences(alloc, lens, pair)?;
        self.pairs.insert(pair, list)?;
        Ok(())
    }

    // Where two trees differ, by their base, or else by a pass over both.
    fn find_differences(
        &mut self,
        alloc: Global,
        lens: &'a Lens,
        pair: TreePair,
    ) -> Result<Vec<Difference<'a>>, NoMemory>
        requires { IsSound lens.now self.old }
        ensures sound { IsSound lens.now self.new }
        ensures list { IfOk result (λ list. AreDifferencesOf lens.now pair list.items) }
    {
        let found = self.bases.differences_by_base(alloc, pair.old, pair.new)?;
        if let Some(list) = found {
            return Ok(list);
        }
        let list = differences_between(alloc, lens.get(pair.old), lens.get(pair.new))?;
        self.bases.add(alloc, pair.old, pair.new, &list)?;
        Ok(list)
    }

    /// Where two trees differ that were compared.
    pub fn differences_of(&self, lens: &Lens, pair: TreePair) -> &[Difference<'a>]
        requires sound { IsSound lens.now self.now }
        requires there { IsSome (lookup (same_pair pair) self.now.pairs.entries) }
        ensures { AreDifferencesOf lens.now pair result.now }
    {
        let Some(list) = self.pairs.get(&pair) else {
            unreachable!()
        };
        list
    }
}
