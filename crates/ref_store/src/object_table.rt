// Objects in order, found by their names.
ghost use Rattle.std.specs.Prelude.{◌≡◌, ◌++◌, ◌∷◌, ◌<◌, ◌^◌, [], IfOk, IfSome, length, OnErr, OnOk, slice_get, Some, take};
ghost use Rattle.std.specs.Option.{option_copied, option_map};
ghost use Rattle.ref_store.specs.Objects.{first_named, place_of};

use crate::salt::Salt;
use base_types::NoMemory;
use git_object::{Object, ObjectId};
use indexmap::IndexMap;
use std::alloc::Global;
use std::marker::Model;

/// Objects in order. Finding one by its name takes the same time however many there are, whoever chose the
/// names.
#[derive(Drop)]
pub struct ObjectTable {
    objects: Vec<Object>,
    places: IndexMap<ObjectId, usize, Salt>,
}

impl Model for ObjectTable {
    ghost use Rattle.std.specs.Prelude.{List};
    ghost use Rattle.git_object.specs.Content.{Content};
    ghost use Rattle.ref_store.specs.Table.{IsIndexOf};

    ghost Value = { List Content };

    ghost view = { λ t. t.objects.items };

    ghost invariant = { λ t. IsIndexOf t.places.entries t.objects.items };
}

impl ObjectTable {
    /// An empty table with room for so many objects.
    pub fn with_capacity(
        alloc: Global,
        salt: Salt,
        capacity: usize,
    ) -> Result<ObjectTable, NoMemory>
        ensures { IfOk result (λ t. t ≡ []) }
    {
        Ok(ObjectTable {
            objects: Vec::with_capacity(alloc, capacity)?,
            places: IndexMap::with_capacity_and_hasher(alloc, capacity, salt)?,
        })
    }

    /// A table of these objects, whose bodies are shared.
    pub fn of(alloc: Global, objects: &[Object]) -> Result<ObjectTable, NoMemory>
        ensures { IfOk result (λ t. t ≡ objects.now) }
    {
        let table = ObjectTable::with_capacity(alloc, Salt::of(objects), objects.len())?;
        table.followed_by(objects)
    }

    /// The table with these objects at its end, whose bodies are shared.
    pub fn followed_by(self, objects: &[Object]) -> Result<ObjectTable, NoMemory>
        ensures { IfOk result (λ t. t ≡ self ++ objects.now) }
    {
        let mut table = self;
        for object in objects {
            table.push(object.clone()?)?;
        }
        Ok(table)
    }

    pub fn salt(&self) -> Salt {
        *self.places.hasher()
    }

    pub fn objects(&self) -> &[Object]
        ensures { result.now ≡ self.now }
    {
        &self.objects
    }

    pub fn len(&self) -> usize
        ensures len { result ≡ length self.now }
        ensures small { result < 2 ^ 63 }
    {
        self.objects.len()
    }

    pub fn get(&self, at: usize) -> Option<&Object>
        ensures { option_copied result ≡ slice_get self.now at }
    {
        self.objects.get(at)
    }

    /// Where the name stands first, among the first so many objects.
    pub fn place(&self, id: ObjectId, among: usize) -> Option<usize>
        ensures { result ≡ place_of (take among self.now) id }
    {
        match self.places.get(&id) {
            Some(at) => { if *at < among { Some(*at) } else { None } }
            None => None,
        }
    }

    /// The object of the name that stands first, among the first so many.
    pub fn named(&self, id: ObjectId, among: usize) -> Option<&Object>
        ensures { option_copied result ≡ first_named (take among self.now) id }
    {
        match self.place(id, among) {
            Some(at) => self.get(at),
            None => None,
        }
    }

    /// The object of the name that stands first among the first so many, and its place.
    pub fn before(&self, id: ObjectId, among: usize) -> Option<(usize, &Object)>
        ensures place { option_map (λ p. p.0) result ≡ place_of (take among self.now) id }
        ensures object { IfSome result (λ p. slice_get self.now p.0 ≡ Some p.1.now) }
        ensures within { IfSome result (λ p. p.0 < length self.now) }
    {
        let Some(at) = self.place(id, among) else {
            return None;
        };
        match self.get(at) {
            Some(object) => Some((at, object)),
            None => None,
        }
    }

    /// The object of the name that stands first.
    pub fn first(&self, id: ObjectId) -> Option<&Object>
        ensures { option_copied result ≡ first_named self.now id }
    {
        self.named(id, self.objects.len())
    }

    /// Adds an object at the end. Its name is looked up once, and twice where it is there.
    pub fn push(&mut self, object: Object) -> Result<(), NoMemory>
        ensures ok { OnOk result (self.new ≡ self.old ++ object ∷ []) }
        ensures err { OnErr result (self.new ≡ self.old) }
    {
        let id = object.name();
        let at = self.objects.len();
        self.places.reserve(1)?;
        self.objects.push(object)?;
        let Ok(before) = self.places.insert(id, at) else {
            unreachable!()
        };
        let Some(first) = before else {
            return Ok(());
        };
        let Ok(_) = self.places.insert(id, first) else {
            unreachable!()
        };
        Ok(())
    }
}
