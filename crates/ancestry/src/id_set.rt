// Names, each once, in the order in which they came.
ghost use Rattle.std.specs.Prelude.{◌≡◌, ◌↔◌, ◌∷◌, ◌<◌, ◌^◌, [], IfSome, IsTrue, OnOk, slice_get, length};
ghost use Rattle.std.specs.List.{Contains};

use base_types::NoMemory;
use git_object::ObjectId;
use indexmap::IndexSet;
use ref_store::Salt;
use std::alloc::Global;
use std::marker::Model;

/// Names, each once, in the order in which they came.
#[derive(Drop)]
pub struct IdSet {
    ids: IndexSet<ObjectId, Salt>,
}

impl Model for IdSet {
    ghost use Rattle.std.specs.Prelude.{List};
    ghost use Rattle.git_object.specs.declared.object_id.ObjectId.{ObjectId};

    ghost Value = { List ObjectId };

    ghost view = { λ s. s.ids.keys };
}

impl IdSet {
    ghost use Rattle.ancestry.specs.IdSet.{Adds};

    pub fn new(alloc: Global, salt: Salt) -> IdSet
        ensures { result ≡ [] }
    {
        IdSet {
            ids: IndexSet::with_hasher(alloc, salt),
        }
    }

    pub fn len(&self) -> usize
        ensures len { result ≡ length self.now }
        ensures small { result < 2 ^ 63 }
    {
        self.ids.len()
    }

    /// The name at a place.
    pub fn nth(&self, at: usize) -> Option<ObjectId>
        ensures id { result ≡ slice_get self.now at }
        ensures within { IfSome result (λ _. at < length self.now) }
        ensures small { IfSome result (λ _. at < 2 ^ 63) }
    {
        if at >= self.ids.len() {
            return None;
        }
        match self.ids.get_index(at) {
            Some(id) => Some(*id),
            None => None,
        }
    }

    pub fn contains(&self, id: ObjectId) -> bool
        ensures { IsTrue result ↔ Contains self.now id }
    {
        self.ids.contains(&id)
    }

    pub fn insert(&mut self, id: ObjectId) -> Result<(), NoMemory>
        ensures { OnOk result (Adds self.old self.new (id ∷ [])) }
    {
        self.ids.insert(id)?;
        Ok(())
    }

    pub fn insert_all(&mut self, ids: &[ObjectId]) -> Result<(), NoMemory>
        ensures { OnOk result (Adds self.old self.new ids.now) }
    {
        for id in ids {
            self.insert(*id)?;
        }
        Ok(())
    }
}
