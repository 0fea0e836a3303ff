// The links between commits in a list, and the merges among them.
ghost use Rattle.std.specs.Prelude.{◌≡◌, ◌+◌, ◌<◌, ◌≤◌, ◌↔◌, IfOk, IfSome, IsTrue, length, OnOk};
ghost use Rattle.git_object.specs.Object.{parents_of};
ghost use Rattle.ancestry.specs.Ancestors.{parents_at};
ghost use Rattle.vref.specs.History.{AddsParents, AreLinks, AreLinksOf, AreMerges, AreMergesOf, place};

use base_types::NoMemory;
use git_object::{Object, ObjectId};
use indexmap::IndexSet;
use ref_store::{Lens, Salt};
use std::alloc::Global;

/// Names of commits, each once.
pub type Ids = IndexSet<ObjectId, Salt>;

/// Where a name stands.
pub fn place_of(ids: &Ids, id: ObjectId) -> Option<usize>
    ensures place { result ≡ place ids.now.keys id }
    ensures within { IfSome result (λ at. at < length ids.now.keys) }
{
    ids.get_index_of(&id)
}

/// The links between commits, by their places, from child to parent; nothing where a parent isn't in the
/// list. They come in the order of the children.
pub fn links_of(
    alloc: Global,
    lens: &Lens,
    ids: &Ids,
) -> Result<Option<Vec<(usize, usize)>>, NoMemory>
    ensures { IfOk result (λ found. IfSome found (λ links. AreLinks lens.now ids.now.keys links.items)) }
{
    let mut links = Vec::new(alloc);
    for at in 0..ids.len() {
        if !add_links_of(lens, ids, at, &mut links)? {
            return Ok(None);
        }
    }
    Ok(Some(links))
}

// Adds the links of the commit at a place; not if a parent isn't in the list.
fn add_links_of(
    lens: &Lens,
    ids: &Ids,
    at: usize,
    links: &mut Vec<(usize, usize)>,
) -> Result<bool, NoMemory>
    requires { AreLinksOf at lens.now ids.now.keys links.old.items }
    ensures { IfOk result (λ all. IsTrue all → AreLinksOf (at + 1) lens.now ids.now.keys links.new.items) }
{
    let Some(id) = ids.get_index(at) else {
        return Ok(false);
    };
    let Some(object) = lens.get(*id) else {
        return Ok(true);
    };
    add_links_to_parents(object, ids, at, links)
}

// Adds links from a place to the parents of a commit; not all if one isn't in the list.
fn add_links_to_parents(
    commit: &Object,
    ids: &Ids,
    at: usize,
    links: &mut Vec<(usize, usize)>,
) -> Result<bool, NoMemory>
    ensures { IfOk result (λ all. IsTrue all → AddsParents ids.now.keys at (parents_of commit.now.kind commit.now.body) links.old.items links.new.items) }
{
    for parent in commit.parents() {
        let Some(to) = place_of(ids, parent) else {
            return Ok(false);
        };
        links.push((at, to))?;
    }
    Ok(true)
}

/// The places of the merges.
pub fn merges_of(alloc: Global, lens: &Lens, ids: &Ids) -> Result<Vec<usize>, NoMemory>
    ensures { IfOk result (λ merges. AreMerges lens.now ids.now.keys merges.items) }
{
    let mut merges = Vec::new(alloc);
    for at in 0..ids.len() {
        add_merge_at(lens, ids, at, &mut merges)?;
    }
    Ok(merges)
}

// Adds the place of the commit at a place, if it is a merge. The look-up gives the place itself, and its
// clause says that it is the only one.
fn add_merge_at(lens: &Lens, ids: &Ids, at: usize, merges: &mut Vec<usize>) -> Result<(), NoMemory>
    requires { AreMergesOf at lens.now ids.now.keys merges.old.items }
    ensures { OnOk result (AreMergesOf (at + 1) lens.now ids.now.keys merges.new.items) }
{
    let Some(id) = ids.get_index(at) else {
        return Ok(());
    };
    if !is_merge(lens, *id) {
        return Ok(());
    }
    let Some(place) = place_of(ids, *id) else {
        return Ok(());
    };
    merges.push(place)?;
    Ok(())
}

// Whether a commit has two parents or more.
fn is_merge(lens: &Lens, id: ObjectId) -> bool
    ensures { IsTrue result ↔ (2 ≤ length (parents_at lens.now id)) }
{
    let Some(object) = lens.get(id) else {
        return false;
    };
    let mut parents = object.parents();
    if parents.next().is_none() {
        return false;
    }
    parents.next().is_some()
}
