// The entries of trees.
ghost use Rattle.std.specs.Prelude.{◌≡◌, IfOk, IsSome, OnOk, map};
ghost use Rattle.std.specs.Map.{lookup};
ghost use Rattle.std.specs.Option.{option_copied};
ghost use Rattle.git_object.specs.Tree.{entry_of};
ghost use Rattle.ref_store.specs.Objects.{first_named, same_id};
ghost use Rattle.vref.specs.Differences.{NamesOnce};
ghost use Rattle.vref.specs.Rows.{entries_in};
ghost use Rattle.policy_swap.specs.Trees.{AreEntries, AreRight};

use base_types::NoMemory;
use git_object::{Object, ObjectId, TreeEntry};
use indexmap::IndexMap;
use ref_store::{Lens, Salt};
use std::alloc::Global;

/// The entries of each tree that was read, so that a tree that is at many paths is read once: a name in it
/// may have millions of bytes. It holds no more entries than there are rows, but for those of one tree.
#[derive(Drop)]
pub struct Trees<'l> {
    lists: IndexMap<ObjectId, Vec<TreeEntry<'l>>, Salt>,
}

impl<'l> Trees<'l> {
    pub fn new(alloc: Global, lens: &Lens) -> Trees<'l>
        ensures { AreRight lens.now result }
    {
        Trees {
            lists: IndexMap::with_hasher(alloc, lens.salt()),
        }
    }

    /// Reads a tree, unless it was read before.
    pub fn read_tree(&mut self, alloc: Global, lens: &'l Lens, id: ObjectId) -> Result<(), NoMemory>
        requires { AreRight lens.now self.old }
        ensures right { AreRight lens.now self.new }
        ensures there { OnOk result (IsSome (lookup (same_id id) self.new.lists.entries)) }
    {
        if self.lists.contains_key(&id) {
            return Ok(());
        }
        let list = list_entries(alloc, lens.get(id))?;
        self.lists.insert(id, list)?;
        Ok(())
    }

    /// The entries of a tree that was read.
    pub fn entries_of(&self, lens: &Lens, id: ObjectId) -> &[TreeEntry<'l>]
        requires right { AreRight lens.now self.now }
        requires there { IsSome (lookup (same_id id) self.now.lists.entries) }
        ensures { AreEntries (first_named lens.now id) result.now }
    {
        let Some(list) = self.lists.get(&id) else {
            unreachable!()
        };
        list
    }
}

// The entries of a tree, in order; of another object none.
fn list_entries<'l>(
    alloc: Global,
    object: Option<&'l Object>,
) -> Result<Vec<TreeEntry<'l>>, NoMemory>
    ensures same { IfOk result (λ list. map entry_of list.items ≡ entries_in (option_copied object.entry)) }
    ensures once { OnOk result (NamesOnce (entries_in (option_copied object.entry))) }
{
    let mut list = Vec::new(alloc);
    let Some(tree) = object else {
        return Ok(list);
    };
    // `body` is called for its clause that the form has no fault, from which the proof has that each name
    // comes once.
    let _form = tree.body();
    for entry in tree.tree_entries() {
        list.push(entry)?;
    }
    Ok(list)
}
