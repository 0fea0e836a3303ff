// Trees that were compared, each with a base from which it differs in a few names.
ghost use Rattle.std.specs.Prelude.{◌≡◌, IfOk, IfSome, List};
ghost use Rattle.git_object.specs.Content.{Content};
ghost use Rattle.indexmap.specs.IndexMap.{hasher_of};
ghost use Rattle.vref.specs.Bases.{AreBased, DifferAt};

use crate::differences::Difference;
use crate::through::{differences_through, turned_differences};
use base_types::NoMemory;
use git_object::ObjectId;
use indexmap::IndexMap;
use ref_store::Salt;
use std::alloc::Global;

// Of two trees that differ in more names than these nothing is kept: where trees differ in more, there are
// few of them. A list that is kept is put together of two, so it may be twice as long and ten more.
const MAX_KEPT: usize = 1000;

/// Where a tree differs from its base.
#[derive(Drop)]
struct Placed<'a> {
    base: ObjectId,
    list: Vec<Difference<'a>>,
}

/// Trees that were compared, each with a base, of which there are few where the trees are much alike. Two
/// trees of one base are compared by where they differ from it, so hundreds of trees that are each compared
/// with each cost about as many passes as there are trees.
///
/// The lists together have at most twice as many differences as were found between trees, and ten more for
/// each tree.
#[derive(Drop)]
pub struct Bases<'a> {
    trees: IndexMap<ObjectId, Placed<'a>, Salt>,
    // To how many trees a tree was made the base. No proof needs it: of two trees that are brought to one
    // base it is the one of fewer that moves.
    counts: IndexMap<ObjectId, usize, Salt>,
}

impl<'a> Bases<'a> {
    pub fn new(alloc: Global, salt: Salt) -> Bases<'a>
        ensures based { (objects : List Content) → AreBased objects result }
        ensures salt { (hasher_of result.trees ≡ salt) × (hasher_of result.counts ≡ salt) }
    {
        Bases {
            trees: IndexMap::with_hasher(alloc, salt),
            counts: IndexMap::with_hasher(alloc, salt),
        }
    }

    /// Where two trees differ, if they have one base.
    pub fn differences_by_base(
        &self,
        alloc: Global,
        old: ObjectId,
        new: ObjectId,
    ) -> Result<Option<Vec<Difference<'a>>>, NoMemory>
        ensures { (objects : List Content) → AreBased objects self.now → IfOk result (λ found. IfSome found (λ list. DifferAt objects old new list.items)) }
    {
        let Some(one) = self.trees.get(&old) else {
            return Ok(None);
        };
        let Some(other) = self.trees.get(&new) else {
            return Ok(None);
        };
        if one.base != other.base {
            return Ok(None);
        }
        let back = turned_differences(alloc, &one.list)?;
        let list = differences_through(alloc, &back, &other.list)?;
        Ok(Some(list))
    }

    /// Brings two trees that were compared to one base.
    pub fn add(
        &mut self,
        alloc: Global,
        old: ObjectId,
        new: ObjectId,
        list: &[Difference<'a>],
    ) -> Result<(), NoMemory>
        ensures { (objects : List Content) → AreBased objects self.old → DifferAt objects old new list.now → AreBased objects self.new }
    {
        if list.len() > MAX_KEPT {
            return Ok(());
        }
        let back = turned_differences(alloc, list)?;
        if self.count_of(old) < self.count_of(new) {
            return self.join(alloc, new, old, &back, list);
        }
        self.join(alloc, old, new, list, &back)
    }

    // Brings the second of two trees to the base of the first, or the first to that of the second if the
    // second would differ in too many names.
    fn join(
        &mut self,
        alloc: Global,
        one: ObjectId,
        other: ObjectId,
        list: &[Difference<'a>],
        back: &[Difference<'a>],
    ) -> Result<(), NoMemory>
        ensures { (objects : List Content) → AreBased objects self.old → DifferAt objects one other list.now → DifferAt objects other one back.now → AreBased objects self.new }
    {
        self.add_base(alloc, one)?;
        if self.place_beside(alloc, one, other, list)? {
            return Ok(());
        }
        self.add_base(alloc, other)?;
        self.place_beside(alloc, other, one, back)?;
        Ok(())
    }

    // Makes a tree that has no base its own.
    fn add_base(&mut self, alloc: Global, id: ObjectId) -> Result<(), NoMemory>
        ensures { (objects : List Content) → AreBased objects self.old → AreBased objects self.new }
    {
        if self.trees.contains_key(&id) {
            return Ok(());
        }
        let placed = Placed {
            base: id,
            list: Vec::new(alloc),
        };
        self.trees.insert(id, placed)?;
        self.count_one_more(id)
    }

    // Brings the second of two trees to the base of the first, unless it would differ from it in too many
    // names.
    fn place_beside(
        &mut self,
        alloc: Global,
        one: ObjectId,
        other: ObjectId,
        list: &[Difference<'a>],
    ) -> Result<bool, NoMemory>
        ensures { (objects : List Content) → AreBased objects self.old → DifferAt objects one other list.now → AreBased objects self.new }
    {
        let Some(placed) = self.trees.get(&one) else {
            return Ok(false);
        };
        let base = placed.base;
        let through = differences_through(alloc, &placed.list, list)?;
        if is_too_long(through.len(), list.len()) {
            return Ok(false);
        }
        let placed = Placed {
            base,
            list: through,
        };
        self.trees.insert(other, placed)?;
        self.count_one_more(base)?;
        Ok(true)
    }

    // To how many trees the base of a tree was made their base.
    fn count_of(&self, id: ObjectId) -> usize {
        let Some(placed) = self.trees.get(&id) else {
            return 0;
        };
        self.counts.get(&placed.base).copied().unwrap_or(0)
    }

    fn count_one_more(&mut self, base: ObjectId) -> Result<(), NoMemory>
        ensures { (objects : List Content) → AreBased objects self.old → AreBased objects self.new }
    {
        let count = self.counts.get(&base).copied().unwrap_or(0);
        self.counts.insert(base, count.saturating_add(1))?;
        Ok(())
    }
}

// Whether a tree differs from its base in too many names for its list to be kept, where it was found to
// differ in so many from another.
fn is_too_long(kept: usize, found: usize) -> bool {
    kept.saturating_sub(10) > found.saturating_mul(2)
}
