// The hub.
ghost use Rattle.std.specs.Prelude.{◌≡◌, ◌+◌, ◌-◌, ◌^◌, ◌<◌, length, min, [], IfOk, IfSome, None, OnErr, OnOk, take, true};
ghost use Rattle.conf_lex.specs.Names.{is_repo_name};
ghost use Rattle.std.specs.BTreeMap.{IsOrdered};
ghost use Rattle.std.specs.Cmp.Lexicographic.{slice_cmp};
ghost use Rattle.std.specs.FinMap as map;
ghost use Rattle.std.specs.Ordering.{nat_cmp};
ghost use Rattle.std.specs.Option.{option_copied, option_map, unwrap_or};
ghost use Rattle.hub_history.specs.History.{IsLegal, history, replay, step};
ghost use Rattle.hub_history.specs.Laws.{IsDueBehind};
ghost use Rattle.hub_history.specs.Push.{HasWholeRefs};
ghost use Rattle.hub_history.specs.State.{empty_repository, in_force, placed_in, ref_count, repository_at, store_of};
ghost use Rattle.hub.specs.Hub.{logged, state_of, stored};
ghost use Rattle.hub.specs.Names.{map_of};

use crate::since::Since;
use crate::table::{Named, RepoTable};
use base_types::NoMemory;
use conf_lex::{RepoName, UserName};
use hub_history::{Entry, EntryList, Event};
use hub_state::{ConfInForce, HostedRepo};
use ref_store::Repo;
use rule_compile::some_patterns_are_true;
use std::alloc::Global;
use std::collections::BTreeMap;
use std::marker::Model;
use wild_perms::Wild;

/// The repositories and the conf in force, and the log that led to them.
#[derive(Drop)]
pub struct Hub {
    conf: ConfInForce,
    repositories: RepoTable,
    log: EntryList,
    since: Since,
}

impl Model for Hub {
    ghost use Rattle.std.specs.Prelude.{◌≡◌};
    ghost use Rattle.hub_history.specs.History.{IsLegal, replay};
    ghost use Rattle.hub.specs.Hub.{HubView, stored};
    ghost use Rattle.hub.specs.Names.{map_of};
    ghost use Rattle.hub.specs.Since.{IsSince};

    ghost Value = { HubView };

    ghost view = { λ h. record { admin = h.conf.admin; log = h.log } };

    ghost invariant = { λ h. IsLegal h.conf.admin h.log × (stored (map_of h.repositories.entries.entries) h.conf ≡ replay h.conf.admin h.log) × IsSince h.since h.conf.admin h.log };
}

impl Hub {
    /// A new hub, with an empty log: the repositories `gitolite-admin`, where the admin may do everything,
    /// and `testing`, where everybody may.
    pub fn start(alloc: Global, admin: &UserName) -> Result<Hub, NoMemory>
        ensures { IfOk result (λ h. h ≡ record { admin = admin.now; log = [] }) }
    {
        let conf = ConfInForce::setup(alloc, admin)?;
        let mut repositories = RepoTable::new(alloc);
        add_empty(alloc, &mut repositories, b"gitolite-admin")?;
        add_empty(alloc, &mut repositories, b"testing")?;
        Ok(Hub {
            conf,
            repositories,
            log: EntryList::new(alloc),
            since: Since::start(alloc),
        })
    }

    pub fn log(&self) -> &EntryList
        ensures log { result.now ≡ self.now.log }
        ensures legal { IsLegal self.now.admin self.now.log }
    {
        &self.log
    }

    pub fn into_log(self) -> EntryList
        ensures { result ≡ self.log }
    {
        let Hub {
            conf: _,
            repositories: _,
            log,
            since: _,
        } = self;
        log
    }

    /// The repository of a name, as it is now.
    pub fn repo(&self, name: &RepoName) -> Option<&Repo>
        ensures { option_copied result ≡ option_map store_of (map.get (state_of self.now).repositories name.now) }
    {
        match self.repositories.get(name) {
            Some(hosted) => Some(hosted.repo()),
            None => None,
        }
    }

    /// How many refs all repositories have together, or 2^64 - 1 where there are more. It costs the number of
    /// the repositories.
    pub fn ref_count(&self) -> u64
        ensures { result ≡ min (ref_count (state_of self.now)) (2 ^ 64 - 1) }
    {
        let mut count: u64 = 0;
        for (_, hosted) in self.repositories.entries.iter() {
            count = count.saturating_add(hosted.repo().ref_count() as u64);
        }
        count
    }

    /// The conf in force.
    pub fn conf(&self) -> &ConfInForce
        ensures conf { result.now ≡ (state_of self.now).conf }
        ensures admin { result.now.admin ≡ self.now.admin }
    {
        &self.conf
    }

    // The repository of a name, as the hub hosts it.
    pub(crate) fn hosted_at(&self, name: &RepoName) -> Option<&HostedRepo>
        ensures { option_copied result ≡ map.get (state_of self.now).repositories name.now }
    {
        self.repositories.get(name)
    }

    // A repository, or an empty one where there is none.
    pub(crate) fn hosted(&self, alloc: Global, name: &RepoName) -> Result<HostedRepo, NoMemory>
        ensures hosted { IfOk result (λ h. h ≡ repository_at (state_of self.now) name.now) }
        ensures whole { HasWholeRefs (repository_at (state_of self.now) name.now) }
    {
        // called for its clause that some answers about patterns are true, which the proof cites
        some_patterns_are_true();
        match self.repositories.get(name) {
            Some(hosted) => Ok(hosted.clone()?),
            None => HostedRepo::empty(alloc, Wild::plain(alloc)),
        }
    }

    // The repositories in the byte order of their names.
    pub(crate) fn in_order(&self, alloc: Global) -> Result<BTreeMap<RepoName, HostedRepo>, NoMemory>
        ensures ordered { IfOk result (IsOrdered (slice_cmp nat_cmp)) }
        ensures all { IfOk result (λ m. map.from_entries m.entries ≡ (state_of self.now).repositories) }
    {
        let mut sorted = BTreeMap::new(alloc);
        for (name, hosted) in self.repositories.entries.iter() {
            sorted.insert(name.clone()?, hosted.clone()?)?;
        }
        Ok(sorted)
    }

    // Whether what was in force for a repository behind the entry at a place still is. It costs a look-up.
    pub(crate) fn has_stayed(&self, name: &RepoName, place: u64) -> bool
        requires { place < length self.now.log }
        ensures { result ≡ true → in_force (replay self.now.admin (take (place + 1) self.now.log)) name.now ≡ in_force (state_of self.now) name.now }
    {
        self.since.has_stayed(name, place)
    }

    // Whether the conf that was in force behind the entry at a place still is.
    pub(crate) fn has_conf_stayed(&self, place: u64) -> bool
        requires { place < length self.now.log }
        ensures { result ≡ true → (replay self.now.admin (take (place + 1) self.now.log)).conf ≡ (state_of self.now).conf }
    {
        self.since.has_conf_stayed(place)
    }

    // Puts an event into the log, and what it changes in place. This is the one place where the hub changes.
    pub(crate) fn commit(
        &mut self,
        caller: u64,
        event: Event,
        repositories: Vec<Named>,
        conf: Option<ConfInForce>,
    ) -> Result<(), NoMemory>
        requires due { IsDueBehind self.old.admin self.old.log event }
        requires step { step (history self.old.admin self.old.log) event ≡ stored (placed_in (state_of self.old).repositories repositories.items) (unwrap_or conf (state_of self.old).conf) }
        requires admin { IfSome conf (λ conf. conf.admin ≡ self.old.admin) }
        ensures ok { OnOk result (self.new ≡ logged self.old caller event) }
        ensures err { OnErr result (self.new ≡ self.old) }
    {
        // called for its clause that some answers about patterns are true, which the proof cites
        some_patterns_are_true();
        let place = self.log.len() as u64;
        self.repositories.reserve(repositories.len())?;
        self.since.note(&event, conf.is_some(), place)?;
        self.log.push(Entry { caller, event })?;
        self.repositories.put_all(repositories);
        renew(&mut self.conf, conf);
        Ok(())
    }

    // Puts an event into the log that changes nothing else.
    pub(crate) fn note(&mut self, alloc: Global, caller: u64, event: Event) -> Result<(), NoMemory>
        requires due { IsDueBehind self.old.admin self.old.log event }
        requires step { step (history self.old.admin self.old.log) event ≡ state_of self.old }
        ensures ok { OnOk result (self.new ≡ logged self.old caller event) }
        ensures err { OnErr result (self.new ≡ self.old) }
    {
        self.commit(caller, event, Vec::new(alloc), None)
    }

    // Puts a repository in the place of its equal, of which less is known. Contracts see no change.
    pub(crate) fn learn(
        &mut self,
        name: &RepoName,
        same: Option<HostedRepo>,
    ) -> Result<(), NoMemory>
        requires { IfSome same (λ same. same ≡ repository_at (state_of self.old) name.now) }
        ensures { self.new ≡ self.old }
    {
        let Some(same) = same else {
            return Ok(());
        };
        let Some(_) = self.repositories.get(name) else {
            return Ok(());
        };
        let name = name.clone()?;
        self.repositories.reserve(1)?;
        self.repositories.put(name, same);
        Ok(())
    }
}

// Adds an empty repository without creator.
fn add_empty(alloc: Global, repositories: &mut RepoTable, name: &[u8]) -> Result<(), NoMemory>
    requires { is_repo_name name.now ≡ true }
    ensures { OnOk result (map_of repositories.new.entries.entries ≡ map.insert (map_of repositories.old.entries.entries) name.now (empty_repository None)) }
{
    let hosted = HostedRepo::empty(alloc, Wild::plain(alloc))?;
    let Some(name) = RepoName::parse(alloc, name)? else {
        unreachable!()
    };
    repositories.reserve(1)?;
    repositories.put(name, hosted);
    Ok(())
}

// Puts another conf in force, if there is one.
fn renew(conf: &mut ConfInForce, next: Option<ConfInForce>)
    ensures { conf.new ≡ unwrap_or next conf.old }
{
    if let Some(next) = next {
        *conf = next;
    }
}
