// Commits in an order in which parents come before their children.
use base_types::NoMemory;
use git_object::ObjectId;
use indexmap::IndexSet;
use ref_store::{Lens, Salt};
use std::alloc::Global;

/// Lists some commits and all their ancestors, parents before their children. Where links lead in a circle
/// the order isn't one of its commits; no contract says that it is one, and who goes by it looks whether it
/// served. It reads each commit once.
///
/// A commit comes up twice: when it is entered, and again behind its parents, when it is listed.
pub fn in_order(
    alloc: Global,
    lens: &Lens,
    roots: &[ObjectId],
) -> Result<IndexSet<ObjectId, Salt>, NoMemory> {
    let mut listed = IndexSet::with_hasher(alloc, lens.salt());
    let mut entered = IndexSet::with_hasher(alloc, lens.salt());
    let mut work = roots.to_vec(alloc)?;
    while let Some(id) = work.pop() {
        if listed.contains(&id) {
            continue;
        }
        let is_new = entered.insert(id)?;
        // So many fit into memory, which bounds how often the work grows.
        let _entered = entered.len();
        if is_new {
            work.push(id)?;
            add_parents(lens, id, &listed, &mut work)?;
        } else {
            listed.insert(id)?;
        }
    }
    Ok(listed)
}

// Adds the parents that aren't listed to what is to be done.
fn add_parents(
    lens: &Lens,
    id: ObjectId,
    listed: &IndexSet<ObjectId, Salt>,
    work: &mut Vec<ObjectId>,
) -> Result<(), NoMemory> {
    let Some(object) = lens.get(id) else {
        return Ok(());
    };
    for parent in object.parents() {
        if !listed.contains(&parent) {
            work.push(parent)?;
        }
    }
    Ok(())
}
