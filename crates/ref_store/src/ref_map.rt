// Refs in the byte order of their names.
ghost use Rattle.std.specs.Prelude.{◌≡◌, IfOk, IfSome, None, OnErr, OnOk, Some};
ghost use Rattle.std.specs.FinMap as map;
ghost use Rattle.std.specs.Option.{option_copied, option_map};
ghost use Rattle.ref_store.specs.Refs.{IsGreatestTo, IsLeastFrom};

use base_types::{NoMemory, Text};
use git_object::ObjectId;
use std::alloc::{AllocError, Global};
use std::collections::BTreeMap;
use std::collections::btree_map::Iter;
use std::marker::Model;

/// Refs in the byte order of their names. Beside the map of `base_types` it finds the nearest names on both
/// sides of one.
#[derive(Drop)]
pub struct RefMap {
    entries: BTreeMap<Text, ObjectId>,
}

impl Model for RefMap {
    ghost use Rattle.std.specs.Coded.{coded_list, coded_ℕ};
    ghost use Rattle.std.specs.FinMap as map;
    ghost use Rattle.base_types.specs.Names.{ByName};
    ghost use Rattle.git_object.specs.declared.object_id.ObjectId.{ObjectId};
    ghost use Rattle.ref_store.specs.RefCodes.{coded_id};

    ghost Value = { ByName ObjectId };

    ghost coded = { map.code (coded_list coded_ℕ) coded_id };

    ghost view = { λ m. map.from_entries m.entries.entries };
}

impl RefMap {
    pub fn new(alloc: Global) -> RefMap
        ensures { result ≡ map.empty }
    {
        RefMap {
            entries: BTreeMap::new(alloc),
        }
    }

    pub fn get(&self, name: &Text) -> Option<&ObjectId>
        ensures { option_copied result ≡ map.get self.now name.now }
    {
        if self.last_before(name).is_some() {
            return None;
        }
        self.entries.get(name)
    }

    pub fn insert(&mut self, name: Text, id: ObjectId) -> Result<(), NoMemory>
        ensures ok { OnOk result (self.new ≡ map.insert self.old name id) }
        ensures err { OnErr result (self.new ≡ self.old) }
    {
        self.entries.insert(name, id)?;
        Ok(())
    }

    pub fn remove(&mut self, name: &Text)
        ensures { self.new ≡ map.remove self.old name.now }
    {
        self.entries.remove(name);
    }

    pub fn len(&self) -> usize
        ensures { result ≡ map.len self.now }
    {
        self.entries.len()
    }

    pub fn iter(&self) -> Iter<'_, Text, ObjectId>
        ensures { result ≡ map.entries self.now }
    {
        self.entries.iter()
    }

    /// The least name that is not before this one.
    pub fn first_from(&self, from: &Text) -> Option<&Text>
        ensures { IsLeastFrom self.now from.now (option_map (λ n. n.now) result) }
    {
        if self.last_before(from).is_some() {
            return None;
        }
        let mut names = self.entries.range(from..);
        match names.next() {
            Some((name, _)) => Some(name),
            None => None,
        }
    }

    /// The greatest name that is not behind this one.
    pub fn last_to(&self, to: &Text) -> Option<&Text>
        ensures { IsGreatestTo self.now to.now (option_map (λ n. n.now) result) }
    {
        if let Some(last) = self.last_before(to) {
            return Some(last);
        }
        let mut names = self.entries.range(..=to);
        match names.next_back() {
            Some((name, _)) => Some(name),
            None => None,
        }
    }

    // The last name of all, if this one is behind it. It costs one comparison, and saves a look-up where
    // names come in their order.
    fn last_before(&self, name: &Text) -> Option<&Text>
        ensures nearest { IfSome result (λ last. IsGreatestTo self.now name.now (Some last.now)) }
        ensures none_from { IfSome result (λ _. IsLeastFrom self.now name.now None) }
    {
        let (last, _) = self.entries.last_key_value()?;
        if last < name {
            return Some(last);
        }
        None
    }
}

impl Clone for RefMap {
    ghost is_clone = { λ refs copy. copy ≡ refs };

    fn clone(&self) -> Result<RefMap, AllocError> {
        let entries = self.entries.clone()?;
        // `len` is called for its clause that the names ascend, which the proof cites.
        let _ascend = (self.entries.len(), entries.len());
        Ok(RefMap { entries })
    }
}
