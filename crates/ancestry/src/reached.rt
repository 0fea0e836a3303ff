// The one walk: all that is reached from some objects, step by step.
ghost use Rattle.std.specs.Prelude.{◌≡◌, ◌↔◌, ◌∷◌, [], IfOk, IsTrue, OnOk, List};
ghost use Rattle.std.specs.List.{Contains};
ghost use Rattle.git_object.specs.declared.object_id.ObjectId.{ObjectId};
ghost use Rattle.ancestry.specs.IdSet.{Adds};
ghost use Rattle.ancestry.specs.Reached.{IsReached};

use crate::id_set::IdSet;
use base_types::NoMemory;
use git_object::ObjectId;
use ref_store::Salt;
use std::alloc::Global;

/// Where a walk goes on from an object.
pub trait Steps {
    ghost next: { Self → ObjectId → List ObjectId };

    /// Inserts the names to which one step leads from this one.
    fn insert_next(&self, id: ObjectId, set: &mut IdSet) -> Result<(), NoMemory>
        ensures { OnOk result (Adds set.old set.new (next self.now id)) };
}

/// All that is reached from some names, these too. It enters each once: the set is a list of work too, of
/// which those behind the next one were not entered yet.
pub fn reached<S: Steps>(
    alloc: Global,
    salt: Salt,
    steps: &S,
    roots: &[ObjectId],
) -> Result<IdSet, NoMemory>
    ensures { IfOk result (λ set. (id : ObjectId) → Contains set id ↔ IsReached (S.next steps.now) roots.now id) }
{
    let mut set = IdSet::new(alloc, salt);
    set.insert_all(roots)?;
    let mut next = 0;
    while let Some(id) = set.nth(next) {
        next += 1;
        steps.insert_next(id, &mut set)?;
    }
    Ok(set)
}

/// Whether a name is reached from another. The walk ends where it comes to the name, and enters nothing that
/// is further from the root than that.
pub fn reaches<S: Steps>(
    alloc: Global,
    salt: Salt,
    steps: &S,
    root: ObjectId,
    wanted: ObjectId,
) -> Result<bool, NoMemory>
    ensures { IfOk result (λ is. IsTrue is ↔ IsReached (S.next steps.now) (root ∷ []) wanted) }
{
    let mut set = IdSet::new(alloc, salt);
    set.insert(root)?;
    let mut next = 0;
    while let Some(id) = set.nth(next) {
        if is_same(id, wanted) {
            return Ok(true);
        }
        next += 1;
        steps.insert_next(id, &mut set)?;
    }
    Ok(false)
}

fn is_same(a: ObjectId, b: ObjectId) -> bool
    ensures { IsTrue result ↔ (a ≡ b) }
{
    a == b
}
