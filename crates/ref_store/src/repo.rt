// A repository.
ghost use Rattle.std.specs.Prelude.{◌≡◌, ◌+◌, ◌++◌, ◌↔◌, ◌≤◌, ◌^◌, [], IfOk, IfSome, IsTrue, length, None, OnErr, OnOk, slice_get, Some, take};
ghost use Rattle.std.specs.FinMap as map;
ghost use Rattle.std.specs.Option.{option_copied};
ghost use Rattle.ref_store.specs.Objects.{first_named, HasNamesOnce, place_of, same_id};
ghost use Rattle.ref_store.specs.Refs.{HasNoneAtOdds, moved, TellsOfOdds, value, zero_id};
ghost use Rattle.ref_store.specs.Segments.{all_of};
ghost use Rattle.ref_store.specs.Store.{IsUnprepared, left_by, moved_by, TellsOfAdding, TellsOfComparing, TellsOfMove};

use crate::fresh::FreshObjects;
use crate::lacking::{Lacking, find_lacking};
use crate::lens::Lens;
use crate::odds::at_odds;
use crate::ref_name::RefName;
use crate::salt::Salt;
use crate::segments::Segments;
use crate::shared_refs::SharedRefs;
use base_types::{NoMemory, Text};
use git_object::{Object, ObjectId, ObjectList};
use std::alloc::Global;
use std::collections::btree_map::Iter;
use std::marker::Model;

/// How many objects a repository has at most.
const MAX_OBJECTS: usize = 4_294_967_295;

/// Objects, in the order in which they came, and refs. Copies share both.
#[derive(Drop)]
pub struct Repo {
    alloc: Global,
    objects: Segments,
    refs: SharedRefs,
}

/// A pack beside a repository.
#[derive(Drop)]
pub enum Compared {
    /// No object differs from one of its name before it. These are the ones to add.
    Fresh(FreshObjects),
    /// An object of the pack differs from one of its name before it. Places count the repository's objects
    /// and then the pack's.
    Collision { id: ObjectId, kept: u64, given: u64 },
    /// There would be this many objects.
    Full(u64),
    NoMemory,
}

/// What came of adding a pack's objects.
#[derive(Clone, Copy, Debug, PartialEq, Eq)]
pub enum Added {
    Added,
    /// An object of the pack differs from one of its name before it. Places count the repository's objects
    /// and then the pack's.
    Collision { id: ObjectId, kept: u64, given: u64 },
    /// There would be this many objects.
    Full(u64),
    NoMemory,
}

/// What came of moving a ref.
#[derive(Drop)]
pub enum Applied {
    Moved,
    /// The ref has this value, and not the one that was thought of.
    Stale(ObjectId),
    /// A create, and this ref is a directory of the name or stands below it. Of several it is the least.
    DirFile(RefName),
    NoMemory,
}

impl Model for Repo {
    ghost use Rattle.ref_store.specs.Segments.{all_of};
    ghost use Rattle.ref_store.specs.Store.{IsSound, Store};
    ghost use Rattle.ref_store.specs.Codes.{coded_store};

    ghost Value = { Store };

    ghost coded = { coded_store };

    ghost view = { λ r. record { objects = all_of r.objects; refs = r.refs } };

    ghost invariant = { λ r. IsSound (record { objects = all_of r.objects; refs = r.refs }) };
}

impl Repo {
    /// A repository without objects and refs. It takes room for what its copies will share.
    pub fn empty(alloc: Global) -> Result<Repo, NoMemory>
        ensures objects { IfOk result (λ r. r.objects ≡ []) }
        ensures refs { IfOk result (λ r. r.refs ≡ map.empty) }
    {
        Ok(Repo {
            alloc,
            objects: Segments::new(alloc),
            refs: SharedRefs::new(alloc)?,
        })
    }

    /// A copy with the same objects and refs, which it shares. It costs the number of the segments, of which
    /// there are 32 at most.
    pub fn copy(&self) -> Result<Repo, NoMemory>
        ensures { IfOk result (λ r. r ≡ self.now) }
    {
        let refs = self.refs.clone()?;
        let objects = self.objects.copy()?;
        Ok(Repo {
            alloc: self.alloc,
            objects,
            refs,
        })
    }

    /// The refs with their values, in the byte order of their names.
    pub fn refs(&self) -> Iter<'_, Text, ObjectId>
        ensures { result ≡ map.entries self.now.refs }
    {
        self.refs.refs().iter()
    }

    /// A ref's value, zero where it is absent.
    pub fn value(&self, name: &Text) -> ObjectId
        ensures value { result ≡ value self.now.refs name.now }
        ensures absent { result ≡ zero_id → map.get self.now.refs name.now ≡ None }
    {
        match self.refs.refs().get(name) {
            Some(id) => *id,
            None => ObjectId::zero(),
        }
    }

    /// How many shared segments the objects lie in.
    pub fn segments(&self) -> usize
        ensures few { result ≤ 32 }
        ensures halving { 2 ^ result ≤ length self.now.objects + 1 }
        ensures none { result ≡ 0 → self.now.objects ≡ [] }
    {
        self.objects.number()
    }

    pub(crate) fn kept(&self) -> &Segments
        ensures { all_of result.now ≡ self.now.objects }
    {
        &self.objects
    }

    /// A salt of the names of all objects. It costs the number of the segments.
    pub fn salt(&self) -> Salt {
        self.objects.salt()
    }

    /// How many objects there are, of which no two have one name.
    pub fn count(&self) -> usize
        ensures count { result ≡ length self.now.objects }
        ensures few { result ≤ 4294967295 }
        ensures names { HasNamesOnce self.now.objects }
    {
        self.objects.len()
    }

    /// The object at a place, counted from 0 in the order in which they came.
    pub fn nth(&self, at: usize) -> Option<&Object>
        ensures { option_copied result ≡ slice_get self.now.objects at }
    {
        self.objects.get(at)
    }

    /// The object of this name, among the first so many.
    pub fn object(&self, id: ObjectId, first_k: usize) -> Option<&Object>
        ensures { option_copied result ≡ first_named (take first_k self.now.objects) id }
    {
        self.objects.named(id, first_k)
    }

    /// The place of the object of this name, among the first so many.
    pub fn place(&self, id: ObjectId, first_k: usize) -> Option<usize>
        ensures { result ≡ place_of (take first_k self.now.objects) id }
    {
        match self.objects.before(id, first_k) {
            Some((at, _)) => Some(at),
            None => None,
        }
    }

    /// How many refs there are.
    pub fn ref_count(&self) -> usize
        ensures { result ≡ map.len self.now.refs }
    {
        self.refs.refs().len()
    }

    /// Moves a ref from its old value to a new one; zero stands for no value. It costs a few look-ups, and
    /// where another repository shares the refs a copy of them.
    pub fn apply(&mut self, name: &RefName, old: ObjectId, new: ObjectId) -> Applied
        ensures told { TellsOfMove self.old.refs name.now old result }
        ensures repo { self.new ≡ moved_by self.old name.now new result }
    {
        let value = self.value(name.text());
        if !same_id(value, old) {
            return Applied::Stale(value);
        }
        match self.at_odds(name, old) {
            Ok(Some(other)) => return Applied::DirFile(other),
            Ok(None) => {}
            Err(NoMemory) => return Applied::NoMemory,
        }
        match self.put(name, new) {
            Ok(()) => Applied::Moved,
            Err(NoMemory) => Applied::NoMemory,
        }
    }

    // The least ref that can't stand beside a name, which has this value. All can stand beside a ref that is
    // there.
    fn at_odds(&self, name: &RefName, old: ObjectId) -> Result<Option<RefName>, NoMemory>
        requires { value self.now.refs name.now ≡ old }
        ensures odds { IfOk result (TellsOfOdds self.now.refs name.now) }
        ensures create { IfOk result (λ odds. IfSome odds (λ _. old ≡ zero_id)) }
    {
        let refs = self.refs.refs();
        if !same_id(old, ObjectId::zero()) {
            return Ok(None);
        }
        match at_odds(self.alloc, refs, name.text())? {
            Some(other) => Ok(Some(RefName::known(other))),
            None => Ok(None),
        }
    }

    // Gives a ref its value, or takes it away.
    fn put(&mut self, name: &RefName, new: ObjectId) -> Result<(), NoMemory>
        requires { HasNoneAtOdds self.old.refs name.now }
        ensures ok { OnOk result (self.new ≡ record self.old { refs = moved self.old.refs name.now new }) }
        ensures err { OnErr result (self.new ≡ self.old) }
    {
        if same_id(new, ObjectId::zero()) {
            self.refs.remove(name.text())?;
            return Ok(());
        }
        let _rule = name.bytes();
        let name = name.text().clone()?;
        self.refs.insert(name, new)?;
        Ok(())
    }

    /// Compares a pack with the objects that are there, and changes nothing. It costs a table of the pack,
    /// and what `compare_in` costs.
    pub fn compare(&self, pack: &ObjectList) -> Compared
        ensures told { TellsOfComparing self.now.objects pack.now result }
        ensures unprepared { IsUnprepared result }
    {
        match Lens::new(self.alloc, self, pack) {
            Ok(lens) => self.compare_in(&lens, pack),
            Err(NoMemory) => Compared::NoMemory,
        }
    }

    /// The same, in a lens that shows the objects that are there and the pack's. It costs a look-up in each
    /// segment for each object of the pack.
    pub fn compare_in(&self, lens: &Lens, pack: &ObjectList) -> Compared
        requires { lens.now ≡ self.now.objects ++ pack.now }
        ensures told { TellsOfComparing self.now.objects pack.now result }
        ensures unprepared { IsUnprepared result }
    {
        let fresh = match find_lacking(self.alloc, lens, &self.objects, pack.as_slice()) {
            Ok(Lacking::Fresh(fresh)) => fresh,
            Ok(Lacking::Differs { id, kept, given }) => {
                return Compared::Collision {
                    id,
                    kept: kept as u64,
                    given: given as u64,
                };
            }
            Err(NoMemory) => return Compared::NoMemory,
        };
        let count = self.objects.len() + fresh.len();
        if count > MAX_OBJECTS {
            return Compared::Full(count as u64);
        }
        Compared::Fresh(FreshObjects::unprepared(fresh))
    }

    /// Makes the segments that this repository has once fresh objects are added, so that `add` has only to
    /// put them in place where the objects are still the same. It costs what a join of segments costs, which
    /// may be all objects.
    pub fn prepare(&self, fresh: FreshObjects) -> Result<FreshObjects, NoMemory>
        requires room { length self.now.objects + length fresh.objects ≤ 4294967295 }
        ensures { IfOk result (λ f. f ≡ record { objects = fresh.objects; before = Some self.now.objects }) }
    {
        fresh.prepared_for(self.alloc, &self.objects)
    }

    /// Adds objects at the end. Whoever has a copy doesn't see them. Where they were prepared it costs
    /// nothing, and else what `prepare` costs.
    pub fn add(&mut self, fresh: FreshObjects) -> Result<(), NoMemory>
        requires names { HasNamesOnce (self.old.objects ++ fresh.objects) }
        requires few { length self.old.objects + length fresh.objects ≤ 4294967295 }
        requires prepared { IfSome fresh.before (λ before. before ≡ self.old.objects) }
        ensures ok { OnOk result (self.new ≡ record self.old { objects = self.old.objects ++ fresh.objects }) }
        ensures err { OnErr result (self.new ≡ self.old) }
    {
        let objects = fresh.grown(self.alloc, &self.objects)?;
        self.objects = objects;
        Ok(())
    }

    /// The repository as it is once fresh objects are added, which shares the segments that were prepared
    /// with them; none where none were.
    pub fn grown_by(&self, fresh: &FreshObjects) -> Result<Option<Repo>, NoMemory>
        requires names { HasNamesOnce (self.now.objects ++ fresh.now.objects) }
        requires prepared { IfSome fresh.now.before (λ before. before ≡ self.now.objects) }
        ensures { IfOk result (λ found. IfSome found (λ grown. grown ≡ record self.now { objects = self.now.objects ++ fresh.now.objects })) }
    {
        let Some(objects) = fresh.segments_for(&self.objects)? else {
            return Ok(None);
        };
        let refs = self.refs.clone()?;
        Ok(Some(Repo {
            alloc: self.alloc,
            objects,
            refs,
        }))
    }

    /// Adds the objects of a pack that are not there, as `compare` and `add` do. Whoever has a copy doesn't
    /// see them.
    pub fn add_objects(&mut self, pack: &ObjectList) -> Added
        ensures told { TellsOfAdding self.old.objects pack.now result }
        ensures repo { self.new ≡ left_by self.old pack.now result }
    {
        match self.compare(pack) {
            Compared::Fresh(fresh) => match self.add(fresh) {
                Ok(()) => Added::Added,
                Err(NoMemory) => Added::NoMemory,
            },
            Compared::Collision { id, kept, given } => Added::Collision { id, kept, given },
            Compared::Full(count) => Added::Full(count),
            Compared::NoMemory => Added::NoMemory,
        }
    }
}

fn same_id(a: ObjectId, b: ObjectId) -> bool
    ensures test { result ≡ same_id a b }
    ensures same { IsTrue result ↔ (a ≡ b) }
{
    a == b
}
