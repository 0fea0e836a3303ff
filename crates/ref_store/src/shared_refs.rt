// Refs that several repositories share.
ghost use Rattle.std.specs.Prelude.{◌≡◌, IfOk, OnErr, OnOk};
ghost use Rattle.std.specs.FinMap as map;

use crate::ref_map::RefMap;
use base_types::{NoMemory, Text};
use git_object::ObjectId;
use std::alloc::{AllocError, Global};
use std::marker::Model;
use std::sync::Arc;

/// Refs that clones share. The first change of a shared map copies it, which costs the number of the refs; a
/// change of one that nobody else has costs the logarithm of that number.
#[derive(Drop)]
pub struct SharedRefs {
    refs: Arc<RefMap>,
}

impl Model for SharedRefs {
    ghost use Rattle.std.specs.Arc.{arc_value};
    ghost use Rattle.std.specs.Coded.{coded_list, coded_ℕ};
    ghost use Rattle.std.specs.FinMap as map;
    ghost use Rattle.base_types.specs.Names.{ByName};
    ghost use Rattle.git_object.specs.declared.object_id.ObjectId.{ObjectId};
    ghost use Rattle.ref_store.specs.RefCodes.{coded_id};

    ghost Value = { ByName ObjectId };

    ghost coded = { map.code (coded_list coded_ℕ) coded_id };

    ghost view = { λ s. arc_value s.refs };
}

impl SharedRefs {
    pub fn new(alloc: Global) -> Result<SharedRefs, NoMemory>
        ensures { IfOk result (λ s. s ≡ map.empty) }
    {
        Ok(SharedRefs {
            refs: Arc::new(alloc, RefMap::new(alloc))?,
        })
    }

    pub fn refs(&self) -> &RefMap
        ensures { result.now ≡ self.now }
    {
        &self.refs
    }

    pub fn insert(&mut self, name: Text, id: ObjectId) -> Result<(), NoMemory>
        ensures ok { OnOk result (self.new ≡ map.insert self.old name id) }
        ensures err { OnErr result (self.new ≡ self.old) }
    {
        Arc::make_mut(&mut self.refs)?.insert(name, id)
    }

    pub fn remove(&mut self, name: &Text) -> Result<(), NoMemory>
        ensures ok { OnOk result (self.new ≡ map.remove self.old name.now) }
        ensures err { OnErr result (self.new ≡ self.old) }
    {
        Arc::make_mut(&mut self.refs)?.remove(name);
        Ok(())
    }
}

impl Clone for SharedRefs {
    ghost is_clone = { λ refs copy. copy ≡ refs };

    fn clone(&self) -> Result<SharedRefs, AllocError> {
        Ok(SharedRefs {
            refs: Arc::try_clone(&self.refs)?,
        })
    }
}
