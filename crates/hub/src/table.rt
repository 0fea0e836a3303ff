// Repositories by their names, in a hashed table.
ghost use Rattle.std.specs.Prelude.{◌≡◌, ◌∷◌, ◌+◌, ◌<◌, ◌≤◌, [], IfOk, OnOk};
ghost use Rattle.std.specs.FinMap as map;
ghost use Rattle.std.specs.Option.{option_copied};
ghost use Rattle.std.specs.Vec.{vec_len};
ghost use Rattle.indexmap.specs.IndexMap.{spare};
ghost use Rattle.hub_history.specs.State.{placed_in};
ghost use Rattle.hub.specs.Names.{map_of};

use base_types::NoMemory;
use conf_lex::RepoName;
use hub_state::HostedRepo;
use indexmap::IndexMap;
use std::alloc::Global;

/// A repository and its name.
pub type Named = (RepoName, HostedRepo);

/// Repositories by their names. A look-up takes the same time however many there are.
#[derive(Drop)]
pub struct RepoTable {
    pub entries: IndexMap<RepoName, HostedRepo>,
}

impl RepoTable {
    pub fn new(alloc: Global) -> RepoTable
        ensures { map_of result.entries.entries ≡ map.empty }
    {
        RepoTable {
            entries: IndexMap::new(alloc),
        }
    }

    pub fn get(&self, name: &RepoName) -> Option<&HostedRepo>
        ensures { option_copied result ≡ map.get (map_of self.now.entries.entries) name.now }
    {
        self.entries.get(name)
    }

    /// Takes room for so many more.
    pub fn reserve(&mut self, more: usize) -> Result<(), NoMemory>
        ensures same { self.new.entries.entries ≡ self.old.entries.entries }
        ensures room { OnOk result (more ≤ spare self.new.entries) }
    {
        self.entries.reserve(more)?;
        Ok(())
    }

    /// Puts a repository in place, in room that is there.
    pub fn put(&mut self, name: RepoName, repository: HostedRepo)
        requires { 0 < spare self.old.entries }
        ensures map { map_of self.new.entries.entries ≡ map.insert (map_of self.old.entries.entries) name repository }
        ensures room { spare self.old.entries ≤ spare self.new.entries + 1 }
    {
        let Ok(_) = self.entries.insert(name, repository) else {
            unreachable!()
        };
    }

    /// Puts all of them in place, in room that is there, the last first; of two with one name the first
    /// counts.
    pub fn put_all(&mut self, mut changes: Vec<Named>)
        requires { vec_len changes ≤ spare self.old.entries }
        ensures { map_of self.new.entries.entries ≡ placed_in (map_of self.old.entries.entries) changes.items }
    {
        while let Some((name, repository)) = changes.pop() {
            self.put(name, repository);
        }
    }
}

/// This one repository under its name.
pub fn one(alloc: Global, name: &RepoName, repository: HostedRepo) -> Result<Vec<Named>, NoMemory>
    ensures { IfOk result (λ l. l.items ≡ (name.now, repository) ∷ []) }
{
    let mut changes = Vec::new(alloc);
    changes.push((name.clone()?, repository))?;
    Ok(changes)
}
