// The objects of a repository with those of a pack.
ghost use Rattle.std.specs.Prelude.{◌≡◌, ◌++◌, IfOk, IfSome, length, slice_get, Some, take};
ghost use Rattle.std.specs.Option.{option_copied, option_map};
ghost use Rattle.ref_store.specs.Objects.{first_named, place_of};
ghost use Rattle.ref_store.specs.Segments.{all_of};

use crate::object_table::ObjectTable;
use crate::repo::Repo;
use crate::salt::Salt;
use crate::segments::Segments;
use base_types::NoMemory;
use git_object::{Object, ObjectId, ObjectList};
use std::alloc::Global;
use std::marker::Model;

/// The objects of a repository, and behind them those of a pack that isn't added. It shares them, so it sees
/// nothing that comes later.
#[derive(Drop)]
pub struct Lens {
    kept: Segments,
    pack: ObjectTable,
    salt: Salt,
}

impl Model for Lens {
    ghost use Rattle.std.specs.Prelude.{List, ◌++◌};
    ghost use Rattle.git_object.specs.Content.{Content};
    ghost use Rattle.ref_store.specs.Segments.{all_of};

    ghost Value = { List Content };

    ghost view = { λ l. all_of l.kept ++ l.pack };
}

impl Lens {
    /// Holds handles of the pack's objects; their bodies are shared. It costs the pack, and the number of the
    /// segments.
    pub fn new(alloc: Global, repo: &Repo, pack: &ObjectList) -> Result<Lens, NoMemory>
        ensures { IfOk result (λ l. l ≡ repo.now.objects ++ pack.now) }
    {
        let kept = repo.kept().copy()?;
        let pack = ObjectTable::of(alloc, pack.as_slice())?;
        let salt = kept.salt().joined(pack.salt());
        Ok(Lens { kept, pack, salt })
    }

    /// A salt for tables of these objects' names. All of them go into it, so none is known before all are
    /// chosen.
    pub fn salt(&self) -> Salt {
        self.salt
    }

    /// How many objects there are.
    pub fn len(&self) -> usize
        ensures { result ≡ length self.now }
    {
        self.kept.len() + self.pack.len()
    }

    /// The object of the name that stands first: the repository's, if it has one.
    pub fn get(&self, id: ObjectId) -> Option<&Object>
        ensures { option_copied result ≡ first_named self.now id }
    {
        match self.kept.first(id) {
            Some(object) => Some(object),
            None => self.pack.first(id),
        }
    }

    // The object of the name that stands first among the first so many, and its place.
    pub(crate) fn before(&self, id: ObjectId, among: usize) -> Option<(usize, &Object)>
        ensures place { option_map (λ p. p.0) result ≡ place_of (take among self.now) id }
        ensures object { IfSome result (λ p. slice_get self.now p.0 ≡ Some p.1.now) }
    {
        if let Some((at, object)) = self.kept.before(id, among) {
            return Some((at, object));
        }
        let kept = self.kept.len();
        let _pack = self.pack.len();
        match self.pack.before(id, among.saturating_sub(kept)) {
            Some((at, object)) => Some((kept + at, object)),
            None => None,
        }
    }
}
