// Since which entry the conf in force, and each repository's creator and roles, are what they are.
ghost use Rattle.std.specs.Prelude.{◌≡◌, ◌<◌, OnErr, OnOk, nat_le};
ghost use Rattle.std.specs.FinMap as map;
ghost use Rattle.std.specs.Option.{option_copied};
ghost use Rattle.indexmap.specs.IndexMap.{spare};
ghost use Rattle.hub.specs.Names.{map_of};
ghost use Rattle.hub.specs.Since.{changed_wild, has_stayed, noted, since_of};

use base_types::NoMemory;
use conf_lex::RepoName;
use hub_history::{EnterKept, Event, PermsKept};
use indexmap::IndexMap;
use std::alloc::Global;
use std::marker::Model;

/// The place of the entry behind which the conf has been in force, and by its name that behind which a
/// repository has had its creator and its roles.
///
/// A repository whose creator and roles never changed isn't in the table. A look-up takes the same time
/// however many there are.
#[derive(Drop)]
pub struct Since {
    conf: u64,
    wilds: IndexMap<RepoName, u64>,
}

impl Model for Since {
    ghost use Rattle.hub.specs.Codes.{coded_since};
    ghost use Rattle.hub.specs.Names.{map_of};
    ghost use Rattle.hub.specs.Since.{SinceView};

    ghost Value = { SinceView };

    ghost coded = { coded_since };

    ghost view = { λ s. record { conf = s.conf; wilds = map_of s.wilds.entries } };
}

impl Since {
    pub fn start(alloc: Global) -> Since
        ensures { result ≡ record { conf = 0; wilds = map.empty } }
    {
        Since {
            conf: 0,
            wilds: IndexMap::new(alloc),
        }
    }

    /// Whether what was in force for a repository behind the entry at a place still is.
    pub fn has_stayed(&self, name: &RepoName, place: u64) -> bool
        ensures { result ≡ has_stayed self.now name.now place }
    {
        self.conf <= place && self.wild(name) <= place
    }

    /// Whether the conf that was in force behind the entry at a place still is.
    pub fn has_conf_stayed(&self, place: u64) -> bool
        ensures { result ≡ nat_le self.now.conf place }
    {
        self.conf <= place
    }

    fn wild(&self, name: &RepoName) -> u64
        ensures { result ≡ since_of self.now name.now }
    {
        match self.wilds.get(name) {
            Some(place) => *place,
            None => 0,
        }
    }

    /// Takes note of an event that is to be at this place.
    pub fn note(&mut self, event: &Event, puts_conf: bool, place: u64) -> Result<(), NoMemory>
        ensures ok { OnOk result (self.new ≡ noted self.old event.now puts_conf place) }
        ensures err { OnErr result (self.new ≡ self.old) }
    {
        if let Some(name) = changed_wild(event) {
            let name = name.clone()?;
            self.wilds.reserve(1)?;
            put(&mut self.wilds, name, place);
        }
        if puts_conf {
            self.conf = place;
        }
        Ok(())
    }
}

// Puts a repository's entry into the table, in room that is there.
fn put(wilds: &mut IndexMap<RepoName, u64>, name: RepoName, place: u64)
    requires { 0 < spare wilds.old }
    ensures { map_of wilds.new.entries ≡ map.insert (map_of wilds.old.entries) name place }
{
    let Ok(_) = wilds.insert(name, place) else {
        unreachable!()
    };
}

// The repository whose creator or roles an event changes, if it does.
fn changed_wild(event: &Event) -> Option<&RepoName>
    ensures { option_copied result ≡ changed_wild event.now }
{
    match event {
        Event::Entered {
            user: _,
            repo,
            want: _,
            answer: EnterKept::Created,
        } => Some(repo),
        Event::Permitted {
            user: _,
            repo,
            change: _,
            answer: PermsKept::Changed,
        } => Some(repo),
        _ => None,
    }
}
