// The first objects of a repository.
ghost use Rattle.std.specs.Prelude.{◌≡◌, ◌<◌, IfSome, take};
ghost use Rattle.std.specs.Option.{option_copied};
ghost use Rattle.ref_store.specs.Objects.{first_named, place_of};
ghost use Rattle.ancestry.specs.Closures.{is_held};

use crate::runs::Runs;
use git_object::{Object, ObjectId};
use ref_store::Repo;
use std::marker::Model;

/// The first objects of a repository.
#[derive(Drop)]
pub struct Front<'a> {
    repo: &'a Repo,
    first_k: usize,
}

impl<'a> Model for Front<'a> {
    ghost use Rattle.std.specs.Prelude.{List, take};
    ghost use Rattle.git_object.specs.Content.{Content};

    ghost Value = { List Content };

    ghost view = { λ f. take f.first_k f.repo.now.objects };
}

impl<'a> Front<'a> {
    pub fn new(repo: &'a Repo, first_k: usize) -> Front<'a>
        ensures { result ≡ take first_k repo.now.objects }
    {
        Front { repo, first_k }
    }

    pub fn object(&self, id: ObjectId) -> Option<&Object>
        ensures { option_copied result ≡ first_named self.now id }
    {
        self.repo.object(id, self.first_k)
    }

    pub fn place(&self, id: ObjectId) -> Option<u32>
        ensures place { result ≡ place_of self.now id }
        ensures small { IfSome result (λ place. place < 4294967295) }
    {
        // `count` is called for its clause that there are so few.
        let _count = self.repo.count();
        match self.repo.place(id, self.first_k) {
            Some(at) => Some(at as u32),
            None => None,
        }
    }

    /// Whether the object of this name is there, and its place is in the runs.
    pub fn holds(&self, runs: &Runs, id: ObjectId) -> bool
        ensures { result ≡ is_held self.now runs.now id }
    {
        match self.place(id) {
            Some(place) => runs.contains(place),
            None => false,
        }
    }
}
