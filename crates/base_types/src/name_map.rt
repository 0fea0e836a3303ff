// A finite map by names.
ghost use Rattle.std.specs.Prelude.{◌≡◌, ◌==◌, OnOk, OnErr, None};
ghost use Rattle.std.specs.Option.{option_copied};
ghost use Rattle.std.specs.FinMap as map;

use crate::{NoMemory, Text};
use std::alloc::{AllocError, Global};
use std::collections::BTreeMap;
use std::collections::btree_map::Iter;
use std::marker::Model;

/// A finite map from names to values, in the byte order of the names.
///
/// A look-up takes as many comparisons of names as the logarithm of their number.
#[derive(Drop)]
pub struct NameMap<T> {
    entries: BTreeMap<Text, T>,
}

impl<T> Model for NameMap<T> {
    ghost use Rattle.std.specs.Coded.{coded_list, coded_ℕ};
    ghost use Rattle.std.specs.FinMap as map;
    ghost use Rattle.base_types.specs.Names.{ByName};

    ghost Value = { ByName T };

    ghost coded = { map.code (coded_list coded_ℕ) T.code };

    ghost view = { λ m. map.from_entries m.entries.entries };
}

impl<T: Drop> NameMap<T> {
    /// An empty map, which takes no memory before its first name.
    pub fn new(alloc: Global) -> NameMap<T>
        ensures { result ≡ map.empty }
    {
        NameMap {
            entries: BTreeMap::new(alloc),
        }
    }

    pub fn get(&self, name: &Text) -> Option<&T>
        ensures { option_copied result ≡ map.get self.now name.now }
    {
        self.entries.get(name)
    }

    /// Puts a value at a name, in place of the one that was there. Only a new name takes memory.
    pub fn insert(&mut self, name: Text, value: T) -> Result<(), NoMemory>
        ensures ok { OnOk result (self.new ≡ map.insert self.old name value) }
        ensures err { OnErr result (self.new ≡ self.old) }
        ensures new_name { OnErr result (map.get self.old name ≡ None) }
    {
        self.entries.insert(name, value)?;
        Ok(())
    }

    /// Takes a name and its value out.
    pub fn remove(&mut self, name: &Text) -> Option<T>
        ensures value { result ≡ map.get self.old name.now }
        ensures map { self.new ≡ map.remove self.old name.now }
    {
        self.entries.remove(name)
    }

    /// The names with their values, in the byte order of the names.
    pub fn iter(&self) -> Iter<'_, Text, T>
        ensures { result ≡ map.entries self.now }
    {
        self.entries.iter()
    }

    pub fn len(&self) -> usize
        ensures { result ≡ map.len self.now }
    {
        self.entries.len()
    }

    pub fn is_empty(&self) -> bool
        ensures { result ≡ (map.len self.now == 0) }
    {
        self.len() == 0
    }
}

/// A copy has the same names, and clones of their values. It costs their number.
impl<T: Clone> Clone for NameMap<T> {
    ghost use Rattle.std.specs.List.{AllZip};

    ghost is_clone = { λ m n. AllZip (λ e f. (f.0 ≡ e.0) × T.is_clone e.1 f.1) (map.entries m) (map.entries n) };

    fn clone(&self) -> Result<NameMap<T>, AllocError> {
        let entries = self.entries.clone()?;
        // A length tells that the names of its map ascend.
        let _ascend = (self.entries.len(), entries.len());
        Ok(NameMap { entries })
    }
}
