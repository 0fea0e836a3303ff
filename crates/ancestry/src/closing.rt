// All that some objects lead to, as places.
ghost use Rattle.std.specs.Prelude.{◌≡◌, ◌↔◌, ◌⊎◌, ◌<◌, filter, IfOk, IfSome, IsTrue, map, not, OnOk, Some, true, ℕ};
ghost use Rattle.std.specs.List.{All, Contains};
ghost use Rattle.git_object.specs.Object.{links_of};
ghost use Rattle.git_object.specs.declared.object_id.ObjectId.{ObjectId};
ghost use Rattle.ref_store.specs.Objects.{place_of};
ghost use Rattle.ancestry.specs.Closures.{AreClosed, AreClosures, Closes, IsClosure, IsThere, Joins, JoinsOne, is_held, linked_unheld};
ghost use Rattle.ancestry.specs.IdSet.{Adds};
ghost use Rattle.ancestry.specs.Runs.{is_in};
ghost use Rattle.ancestry.specs.Sent.{linked_at};

use crate::closures::Closures;
use crate::front::Front;
use crate::id_set::IdSet;
use crate::known::Known;
use crate::reached::{Steps, reached};
use crate::run_sets::{runs_of, union};
use crate::runs::Runs;
use base_types::NoMemory;
use git_object::{Kind, Object, ObjectId};
use ref_store::{Repo, Salt};
use std::alloc::Global;

// The least generation of commits whose closures are kept: from a commit below it none of them is reached.
// Only costs rest on it.
#[derive(Drop)]
struct Floor<'a> {
    known: Option<&'a Known>,
    least: u64,
}

impl<'a> Floor<'a> {
    fn none() -> Floor<'a> {
        Floor {
            known: None,
            least: 0,
        }
    }

    fn of(kept: &Closures, known: &'a Known) -> Floor<'a> {
        Floor {
            known: Some(known),
            least: kept.least_generation(known),
        }
    }

    // Whether this is a commit from which no closure is reached: it is below the floor, or not known to be
    // whole.
    fn hides(&self, id: ObjectId, kind: Kind) -> bool {
        let Some(known) = self.known else {
            return false;
        };
        if kind != Kind::Commit {
            return false;
        }
        match known.generation(id) {
            Some(generation) => generation < self.least,
            None => true,
        }
    }
}

// From an object to those that it links to and that the runs don't hold.
#[derive(Drop)]
pub struct ToUnheld<'a> {
    front: &'a Front<'a>,
    held: &'a Runs,
}

impl<'a> Steps for ToUnheld<'a> {
    ghost next = { λ s id. linked_unheld s.front.now s.held.now id };

    fn insert_next(&self, id: ObjectId, set: &mut IdSet) -> Result<(), NoMemory> {
        let Some(object) = self.front.object(id) else {
            return Ok(());
        };
        insert_unheld(self.front, self.held, object, set)
    }
}

fn insert_unheld(
    front: &Front<'_>,
    held: &Runs,
    object: &Object,
    set: &mut IdSet,
) -> Result<(), NoMemory>
    ensures { OnOk result (Adds set.old set.new (filter (λ to. not (is_held front.now held.now to)) (map (λ link. link.0) (links_of object.now.kind object.now.body)))) }
{
    for (to, _) in object.links() {
        if front.holds(held, to) {
            continue;
        }
        set.insert(to)?;
    }
    Ok(())
}

/// The runs, and with them the places of all that is reached from the roots. It costs what is reached, but
/// for what the runs have or is behind closures that are kept, and the runs.
pub fn closed(
    alloc: Global,
    salt: Salt,
    front: &Front<'_>,
    kept: &Closures,
    known: &Known,
    before: &Runs,
    roots: &[ObjectId],
) -> Result<Runs, NoMemory>
    requires kept { AreClosures front.now kept.now }
    requires closed { AreClosed front.now before.now }
    ensures { IfOk result (Closes front.now roots.now before.now) }
{
    let floor = Floor::of(kept, known);
    let (met, _) = with_kept(alloc, salt, front, kept, &floor, before, roots, usize::MAX)?;
    let steps = ToUnheld {
        front: &*front,
        held: &met,
    };
    let set = reached(alloc, salt, &steps, roots)?;
    with_walked(alloc, front, &met, &set)
}

/// The closure of an object; none where not all is there that it leads to, or where so many commits lie
/// before the next closures that are kept.
pub fn closure_of(
    alloc: Global,
    repo: &Repo,
    kept: &Closures,
    id: ObjectId,
    limit: usize,
) -> Result<Option<Runs>, NoMemory>
    requires { AreClosures repo.now.objects kept.now }
    ensures { IfOk result (λ found. IfSome found (IsClosure repo.now.objects id)) }
{
    let roots = [id];
    let salt = repo.salt();
    let front = Front::new(repo, repo.count());
    let none = Runs::none(alloc);
    let floor = Floor::none();
    let (met, entered) = with_kept(alloc, salt, &front, kept, &floor, &none, &roots, limit)?;
    if entered >= limit {
        return Ok(None);
    }
    let steps = ToUnheld {
        front: &front,
        held: &met,
    };
    let set = reached(alloc, salt, &steps, &roots)?;
    if !are_there(&front, &set) {
        return Ok(None);
    }
    let runs = with_walked(alloc, &front, &met, &set)?;
    Ok(Some(runs))
}

// The runs, and with them closures that are kept of what is reached from the roots: those met on a walk along
// parents and what tags name, which doesn't go on from what is met, nor below the floor. It ends where it has
// entered more than so many. And how many it entered.
fn with_kept(
    alloc: Global,
    salt: Salt,
    front: &Front<'_>,
    kept: &Closures,
    floor: &Floor<'_>,
    before: &Runs,
    roots: &[ObjectId],
    limit: usize,
) -> Result<(Runs, usize), NoMemory>
    ensures { IfOk result (λ met. Joins front.now kept.now roots.now before.now met.0) }
{
    let mut met = before.copy()?;
    if kept.is_empty() {
        return Ok((met, 0));
    }
    let mut set = IdSet::new(alloc, salt);
    set.insert_all(roots)?;
    let mut next = 0;
    while let Some(id) = set.nth(next) {
        if next >= limit {
            return Ok((met, next));
        }
        next += 1;
        enter(alloc, front, kept, floor, id, &mut met, &mut set)?;
    }
    Ok((met, next))
}

// Enters an object: its closure is joined to what is met, where one is kept; and else what it comes from is
// still to be entered, where it isn't met.
fn enter(
    alloc: Global,
    front: &Front<'_>,
    kept: &Closures,
    floor: &Floor<'_>,
    id: ObjectId,
    met: &mut Runs,
    set: &mut IdSet,
) -> Result<(), NoMemory>
    ensures met { OnOk result (JoinsOne kept.now id met.old met.new) }
    ensures set { OnOk result ((to : ObjectId) → Contains set.new to → Contains set.old to ⊎ Contains (linked_at front.now id) to) }
{
    let Some(object) = front.object(id) else {
        return Ok(());
    };
    if floor.hides(id, object.kind()) || front.holds(met, id) {
        return Ok(());
    }
    if let Some(runs) = kept.get(id) {
        *met = union(alloc, met, runs)?;
        return Ok(());
    }
    insert_commits(object, set)
}

// Inserts the commits and tags to which an object links.
fn insert_commits(object: &Object, set: &mut IdSet) -> Result<(), NoMemory>
    ensures { OnOk result ((to : ObjectId) → Contains set.new to → Contains set.old to ⊎ Contains (map (λ link. link.0) (links_of object.now.kind object.now.body)) to) }
{
    for (to, kind) in object.links() {
        if is_content(kind) {
            continue;
        }
        set.insert(to)?;
    }
    Ok(())
}

fn is_content(kind: Kind) -> bool {
    match kind {
        Kind::Tree | Kind::Blob => true,
        Kind::Commit | Kind::Tag => false,
    }
}

// The runs, and with them the places of these objects, where they are there.
fn with_walked(alloc: Global, front: &Front<'_>, met: &Runs, set: &IdSet) -> Result<Runs, NoMemory>
    ensures { IfOk result (λ all. (place : ℕ) → is_in all place ≡ true ↔ ((is_in met.now place ≡ true) ⊎ ((id : ObjectId) × Contains set.now id × (place_of front.now id ≡ Some place)))) }
{
    let mut places = places_of(alloc, front, set)?;
    places.sort_unstable();
    let walked = runs_of(alloc, &places)?;
    union(alloc, met, &walked)
}

// The places of these objects, where they are there.
fn places_of(alloc: Global, front: &Front<'_>, set: &IdSet) -> Result<Vec<u32>, NoMemory>
    ensures are { IfOk result (λ places. (place : ℕ) → Contains places.items place ↔ ((id : ObjectId) × Contains set.now id × (place_of front.now id ≡ Some place))) }
    ensures small { IfOk result (λ places. All (λ place. place < 4294967295) places.items) }
{
    let mut places = Vec::with_capacity(alloc, set.len())?;
    for at in 0..set.len() {
        let Some(id) = set.nth(at) else {
            return Ok(places);
        };
        let Some(place) = front.place(id) else {
            continue;
        };
        places.push(place)?;
    }
    Ok(places)
}

// Whether all of these objects are there.
fn are_there(front: &Front<'_>, set: &IdSet) -> bool
    ensures { IsTrue result → (id : ObjectId) → Contains set.now id → IsThere front.now id }
{
    for at in 0..set.len() {
        let Some(id) = set.nth(at) else {
            return false;
        };
        if front.place(id).is_none() {
            return false;
        }
    }
    true
}
