// Values by the names of the objects that they are of.
ghost use Rattle.std.specs.Prelude.{◌≡◌, ◌<◌, ◌^◌, [], IfOk, length, OnErr, OnOk};
ghost use Rattle.std.specs.Map.{lookup};
ghost use Rattle.ref_store.specs.Objects.{same_id};
ghost use Rattle.ancestry.specs.Tables.{IsOfTwo, Puts};

use base_types::NoMemory;
use git_object::ObjectId;
use indexmap::IndexMap;
use ref_store::Salt;
use std::alloc::Global;
use std::marker::Model;

/// A value for each of some objects, by their names.
#[derive(Drop)]
pub struct Table<V> {
    values: IndexMap<ObjectId, V, Salt>,
}

impl<V> Model for Table<V> {
    ghost use Rattle.ancestry.specs.Tables.{Entries};

    ghost Value = { Entries V };

    ghost view = { λ t. t.values.entries };
}

impl<V: Copy> Table<V> {
    pub fn new(alloc: Global, salt: Salt) -> Table<V>
        ensures { result ≡ [] }
    {
        Table {
            values: IndexMap::with_hasher(alloc, salt),
        }
    }

    pub fn len(&self) -> usize
        ensures len { result ≡ length self.now }
        ensures small { result < 2 ^ 63 }
    {
        self.values.len()
    }

    /// Where the hash of each name in the table begins.
    pub fn salt(&self) -> Salt {
        *self.values.hasher()
    }

    pub fn get(&self, id: ObjectId) -> Option<V>
        ensures { result ≡ lookup (same_id id) self.now }
    {
        self.values.get(&id).copied()
    }

    pub fn insert(&mut self, id: ObjectId, value: V) -> Result<(), NoMemory>
        ensures ok { OnOk result (Puts self.old self.new id value) }
        ensures err { OnErr result (self.new ≡ self.old) }
    {
        self.values.insert(id, value)?;
        Ok(())
    }

    /// The table with another's values put in. It costs the other's number.
    pub fn with_all(self, other: &Table<V>) -> Result<Table<V>, NoMemory>
        ensures { IfOk result (IsOfTwo self other.now) }
    {
        let mut table = self;
        for id in other.values.keys() {
            let Some(value) = other.get(*id) else {
                continue;
            };
            table.insert(*id, value)?;
        }
        Ok(table)
    }
}
