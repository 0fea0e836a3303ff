// A creator, and the roles that are given.
ghost use Rattle.std.specs.Prelude.{◌≡◌, ◌↔◌, [], IfOk, IfSome, IsTrue, length, None, OnErr, OnOk, Some};
ghost use Rattle.std.specs.List.{Contains};
ghost use Rattle.std.specs.List.Sorted.{IsBinarySearchResult, IsSearchInRange};
ghost use Rattle.std.specs.Option.{option_copied};
ghost use Rattle.wild_perms.specs.Answers.{Grants, Lists, refusal, refused_by, Revokes};
ghost use Rattle.wild_perms.specs.Roles.{entry_cmp, IsRoleSet, with_entry};
ghost use Rattle.wild_perms.specs.Places.{IsGap};

use crate::answer::PermsAnswer;
use crate::role::{RoleEntry, RoleList};
use base_types::{NoMemory, Text};
use conf_lex::UserName;
use std::alloc::Global;
use std::marker::Model;

/// Who created a repository, if anybody did, and who holds which role in it.
#[derive(Drop)]
pub struct Wild {
    alloc: Global,
    creator: Option<UserName>,
    entries: Vec<RoleEntry>,
}

impl Model for Wild {
    ghost use Rattle.wild_perms.specs.Roles.{IsRoleSet, WildView};

    ghost Value = { WildView };

    ghost view = { λ w. record { creator = w.creator; roles = w.entries.items } };

    ghost invariant = { λ w. IsRoleSet w.entries.items };
}

impl Wild {
    /// A repository that nobody created.
    pub fn plain(alloc: Global) -> Wild
        ensures { result ≡ record { creator = None; roles = [] } }
    {
        Wild {
            alloc,
            creator: None,
            entries: Vec::new(alloc),
        }
    }

    /// A repository that a user created, in which nobody holds a role yet.
    pub fn born(alloc: Global, creator: UserName) -> Wild
        ensures { result ≡ record { creator = Some creator; roles = [] } }
    {
        Wild {
            alloc,
            creator: Some(creator),
            entries: Vec::new(alloc),
        }
    }

    pub fn creator(&self) -> Option<&UserName>
        ensures { option_copied result ≡ self.now.creator }
    {
        self.creator.as_ref()
    }

    /// Whether a user holds a role. It costs the logarithm of the number of the entries, and takes no memory.
    pub fn holds(&self, role: &[u8], user: &UserName) -> bool
        ensures { IsTrue result ↔ Contains self.now.roles (record { role = role.now; user = user.now }) }
    {
        self.search(role, user).is_ok()
    }

    // Where the entry of a role and a user stands, or where it would.
    fn search(&self, role: &[u8], user: &UserName) -> Result<usize, usize>
        ensures bound { IsSearchInRange result (length self.now.roles) }
        ensures position { IsBinarySearchResult (λ e. entry_cmp e (record { role = role.now; user = user.now })) self.now.roles result }
        ensures set { IsRoleSet self.now.roles }
    {
        self.entries
            .binary_search_by(|entry| entry.order(role, user))
    }

    /// Gives a user a role, where that is declared for the repository and the asker is the creator.
    pub fn grant(
        &mut self,
        asker: &UserName,
        role: &[u8],
        user: &UserName,
        declared: bool,
    ) -> PermsAnswer
        ensures { Grants self.old self.new asker.now (record { role = role.now; user = user.now }) declared result }
    {
        if let Some(refused) = self.refusal(asker, declared) {
            return refused;
        }
        match self.search(role, user) {
            Ok(_) => PermsAnswer::AlreadySo,
            Err(at) => match self.put(at, role, user) {
                Ok(()) => PermsAnswer::Changed,
                Err(NoMemory) => PermsAnswer::NoMemory,
            },
        }
    }

    /// Takes a role from a user, where that is declared for the repository and the asker is the creator. It
    /// takes no memory.
    pub fn revoke(
        &mut self,
        asker: &UserName,
        role: &[u8],
        user: &UserName,
        declared: bool,
    ) -> PermsAnswer
        ensures { Revokes self.old self.new asker.now (record { role = role.now; user = user.now }) declared result }
    {
        if let Some(refused) = self.refusal(asker, declared) {
            return refused;
        }
        match self.search(role, user) {
            Ok(at) => {
                let _taken = self.entries.remove(at);
                PermsAnswer::Changed
            }
            Err(_) => PermsAnswer::AlreadySo,
        }
    }

    /// All roles, where the asker is the creator.
    pub fn list(&self, asker: &UserName) -> PermsAnswer
        ensures { Lists self.now asker.now result }
    {
        if let Some(refused) = self.refused_by_creator(asker) {
            return refused;
        }
        match self.roles() {
            Ok(roles) => PermsAnswer::Listed(roles),
            Err(NoMemory) => PermsAnswer::NoMemory,
        }
    }

    /// A copy with the same creator and roles. It costs the roles.
    pub fn copy(&self) -> Result<Wild, NoMemory>
        ensures { IfOk result (λ w. w ≡ self.now) }
    {
        let creator = match &self.creator {
            Some(name) => Some(name.clone()?),
            None => None,
        };
        Ok(Wild {
            alloc: self.alloc,
            creator,
            entries: self.entries.clone()?,
        })
    }

    // The entries, as a list.
    fn roles(&self) -> Result<RoleList, NoMemory>
        ensures { IfOk result (λ roles. roles ≡ self.now.roles) }
    {
        let mut roles = RoleList::new(self.alloc);
        for entry in &self.entries {
            roles.push(entry.clone()?)?;
        }
        Ok(roles)
    }

    // What refuses a change of a role, if anything does.
    fn refusal(&self, asker: &UserName, declared: bool) -> Option<PermsAnswer>
        ensures { result ≡ refusal self.now asker.now declared }
    {
        if !declared {
            return Some(PermsAnswer::NoSuchRole);
        }
        self.refused_by_creator(asker)
    }

    // What refuses an asker, if anything does.
    fn refused_by_creator(&self, asker: &UserName) -> Option<PermsAnswer>
        ensures { result ≡ refused_by self.now.creator asker.now }
    {
        match &self.creator {
            None => Some(PermsAnswer::NotWild),
            Some(creator) if creator.bytes() == asker.bytes() => None,
            Some(_) => Some(PermsAnswer::NotCreator),
        }
    }

    // Puts an entry where it stands in the order.
    fn put(&mut self, at: usize, role: &[u8], user: &UserName) -> Result<(), NoMemory>
        requires { IsGap self.old.roles (record { role = role.now; user = user.now }) at }
        ensures ok { OnOk result (self.new ≡ record self.old { roles = with_entry self.old.roles (record { role = role.now; user = user.now }) }) }
        ensures err { OnErr result (self.new ≡ self.old) }
    {
        let role = Text::of(self.alloc, role)?;
        let user = user.clone()?;
        self.entries.insert(at, RoleEntry { role, user })?;
        Ok(())
    }
}
