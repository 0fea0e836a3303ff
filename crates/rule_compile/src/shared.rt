// The members of groups, each group's once.
ghost use Rattle.std.specs.Prelude.{◌≡◌, ◌∷◌, IfOk, List};
ghost use Rattle.std.specs.FinMap as named;
ghost use Rattle.std.specs.Option.{option_copied};
ghost use Rattle.conf_groups.specs.declared.placed.Placed.{Placed};
ghost use Rattle.conf_groups.specs.declared.placed.Scope.TheVariants.{Main, Sub};
ghost use Rattle.rule_compile.specs.Shared.{AreShared, groups_in, shared_of};
ghost use Rattle.rule_compile.specs.Words.{members_of};

use crate::Members;
use crate::groups::Conf;
use crate::words::is_group;
use base_types::{NameMap, NoMemory, Text};
use conf_groups::{Placed, Scope};
use conf_lex::Statement;
use std::alloc::Global;

/// Members by all lines of a conf: by the group, as main lines see it, and by subconf and group.
#[derive(Drop)]
pub(crate) struct SharedMembers {
    pub main: NameMap<Members>,
    pub subs: NameMap<NameMap<Members>>,
}

impl SharedMembers {
    #[tactic(auto, using(crate::proofs::SharedLemmas::none_shared))]
    pub(crate) fn new(alloc: Global) -> SharedMembers
        ensures { (placed : List Placed) → AreShared result placed }
    {
        SharedMembers {
            main: NameMap::new(alloc),
            subs: NameMap::new(alloc),
        }
    }

    /// The members of a group, if they are there. A look-up costs the logarithm of the groups.
    pub(crate) fn get(&self, scope: &Scope, group: &Text) -> Option<&Members>
        ensures { option_copied result ≡ shared_of self.now scope.now group.now }
    {
        match scope {
            Scope::Main => self.main.get(group),
            Scope::Sub(name) => match self.subs.get(name) {
                Some(groups) => groups.get(group),
                None => None,
            },
        }
    }

    /// With what a statement of a conf asks for: the members of each group among the users of a rule, and of
    /// the group that tells what a subconf may set access for.
    pub(crate) fn with_placed(
        self,
        alloc: Global,
        conf: &Conf<'_>,
        placed: &Placed,
    ) -> Result<SharedMembers, NoMemory>
        requires { AreShared self conf.now.placed.now }
        ensures { IfOk result (λ shared. AreShared shared conf.now.placed.now) }
    {
        let Placed::Line(line) = placed else {
            return Ok(self);
        };
        let shared = self.with_scope(alloc, conf, &line.scope)?;
        match &line.statement {
            Statement::Rule { users, .. } => {
                shared.with_groups(alloc, conf, &line.scope, users.as_slice())
            }
            _ => Ok(shared),
        }
    }

    fn with_scope(
        self,
        alloc: Global,
        conf: &Conf<'_>,
        scope: &Scope,
    ) -> Result<SharedMembers, NoMemory>
        requires { AreShared self conf.now.placed.now }
        ensures { IfOk result (λ shared. AreShared shared conf.now.placed.now) }
    {
        match scope {
            Scope::Main => Ok(self),
            Scope::Sub(name) => {
                let group = group_of(alloc, name)?;
                self.with_group(alloc, conf, &Scope::Main, &group)
            }
        }
    }

    fn with_groups(
        self,
        alloc: Global,
        conf: &Conf<'_>,
        scope: &Scope,
        words: &[Text],
    ) -> Result<SharedMembers, NoMemory>
        requires { AreShared self conf.now.placed.now }
        ensures { IfOk result (λ shared. AreShared shared conf.now.placed.now) }
    {
        let mut shared = self;
        for word in words {
            if !is_group(word.bytes()) {
                continue;
            }
            shared = shared.with_group(alloc, conf, scope, word)?;
        }
        Ok(shared)
    }

    fn with_group(
        self,
        alloc: Global,
        conf: &Conf<'_>,
        scope: &Scope,
        group: &Text,
    ) -> Result<SharedMembers, NoMemory>
        requires { AreShared self conf.now.placed.now }
        ensures { IfOk result (λ shared. AreShared shared conf.now.placed.now) }
    {
        if self.get(scope, group).is_some() {
            return Ok(self);
        }
        let members = conf.read_members(alloc, scope, group)?;
        self.with_members(alloc, scope, group, members)
    }

    fn with_members(
        self,
        alloc: Global,
        scope: &Scope,
        group: &Text,
        members: Members,
    ) -> Result<SharedMembers, NoMemory>
        ensures { (placed : List Placed) → AreShared self placed → members ≡ members_of placed scope.now group.now → IfOk result (λ shared. AreShared shared placed) }
    {
        match scope {
            Scope::Main => self.with_main_members(group, members),
            Scope::Sub(name) => self.with_sub_members(alloc, name, group, members),
        }
    }

    fn with_main_members(self, group: &Text, members: Members) -> Result<SharedMembers, NoMemory>
        ensures { (placed : List Placed) → AreShared self placed → members ≡ members_of placed Main group.now → IfOk result (λ shared. AreShared shared placed) }
    {
        let SharedMembers { mut main, subs } = self;
        main.insert(group.clone()?, members)?;
        Ok(SharedMembers { main, subs })
    }

    fn with_sub_members(
        self,
        alloc: Global,
        name: &Text,
        group: &Text,
        members: Members,
    ) -> Result<SharedMembers, NoMemory>
        ensures { (placed : List Placed) → AreShared self placed → members ≡ members_of placed (Sub name.now) group.now → IfOk result (λ shared. AreShared shared placed) }
    {
        let SharedMembers { main, mut subs } = self;
        let mut groups = take_groups(alloc, &mut subs, name);
        groups.insert(group.clone()?, members)?;
        subs.insert(name.clone()?, groups)?;
        Ok(SharedMembers { main, subs })
    }
}

/// Takes out the groups of a subconf.
fn take_groups(alloc: Global, subs: &mut NameMap<NameMap<Members>>, name: &Text) -> NameMap<Members>
    ensures groups { result ≡ groups_in (named.get subs.old name.now) }
    ensures left { subs.new ≡ named.remove subs.old name.now }
{
    match subs.remove(name) {
        Some(groups) => groups,
        None => NameMap::new(alloc),
    }
}

/// The group that tells what a subconf may set access for.
pub(crate) fn group_of(alloc: Global, subconf: &Text) -> Result<Text, NoMemory>
    ensures { IfOk result (λ group. group ≡ 64 ∷ subconf.now) }
{
    let mut group = vec![in alloc; b'@']?;
    group.extend_from_slice(subconf.bytes())?;
    Ok(Text::from(group))
}
