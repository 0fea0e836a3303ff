// Changes and listings of roles.
ghost use Rattle.std.specs.Prelude.{◌≡◌, IfOk, OnErr};
ghost use Rattle.rule_compile.specs.Patterns.{AreTrue, Patterns};
ghost use Rattle.hub_history.specs.declared.entry.Event.TheVariants as event;
ghost use Rattle.hub_history.specs.History.{HasShortRole, IsLegal};
ghost use Rattle.hub_history.specs.Roles.{is_declared, kept_of};
ghost use Rattle.hub.specs.Answer.{AnswersChange, IsDueIn, permitted};
ghost use Rattle.hub.specs.Hub.{Logs};
ghost use Rattle.hub.specs.Asks.{Asks, put_of};

use crate::answer::Permitted;
use crate::hub::Hub;
use crate::names::{tell_change, tell_names};
use crate::table::{Named, one};
use base_types::NoMemory;
use conf_lex::{RepoName, UserName};
use hub_history::{Event, PermChange, PermsKept};
use hub_state::HostedRepo;
use rule_compile::Policy;
use std::alloc::Global;
use wild_perms::{PermsAnswer, Wild};

impl Hub {
    /// Changes the roles of a repository, or lists them, for its creator. A repository that isn't there has
    /// no creator.
    ///
    /// It costs the repository's roles, which are copied, and what `Policy::declares` costs by the conf in
    /// force.
    pub fn permit(
        &mut self,
        alloc: Global,
        caller: u64,
        user: &UserName,
        repo: &RepoName,
        change: PermChange,
    ) -> Permitted
        requires short { HasShortRole change }
        ensures logs { Logs self.old self.new caller (permitted user.now repo.now change (kept_of result)) }
        ensures due { IsDueIn self.old (permitted user.now repo.now change (kept_of result)) }
        ensures answers { AnswersChange self.old repo.now result }
        ensures legal { IsLegal self.new.admin self.new.log }
    {
        let answer = self.permitted(alloc, caller, user, repo, change);
        // called for its clause that the log is legal
        let _log = self.log();
        match answer {
            Ok(answer) => answer,
            Err(_) => PermsAnswer::NoMemory,
        }
    }

    fn permitted(
        &mut self,
        alloc: Global,
        caller: u64,
        user: &UserName,
        repo: &RepoName,
        change: PermChange,
    ) -> Result<PermsAnswer, NoMemory>
        requires short { HasShortRole change }
        ensures logs { IfOk result (λ answer. Logs self.old self.new caller (permitted user.now repo.now change (kept_of answer))) }
        ensures due { IfOk result (λ answer. IsDueIn self.old (permitted user.now repo.now change (kept_of answer))) }
        ensures answers { IfOk result (AnswersChange self.old repo.now) }
        ensures err { OnErr result (self.new ≡ self.old) }
    {
        tell_names(user, repo);
        tell_change(&change);
        let hosted = self.hosted(alloc, repo)?;
        let declared = is_declared(self.conf().policy(), repo, hosted.wild(), &change);
        let mut wild = hosted.wild().copy()?;
        let answer = ask(&mut wild, user, &change, declared);
        let Some(kept) = kept_of(&answer) else {
            return Err(NoMemory);
        };
        let changes = changes_of(alloc, repo, &hosted, wild, kept)?;
        let event = permission(user, repo, change, kept)?;
        self.commit(caller, event, changes, None)?;
        Ok(answer)
    }
}

// The event of a change of roles.
fn permission(
    user: &UserName,
    repo: &RepoName,
    change: PermChange,
    answer: PermsKept,
) -> Result<Event, NoMemory>
    ensures { IfOk result (λ e. e ≡ event.Permitted user.now repo.now change answer) }
{
    Ok(Event::Permitted {
        user: user.clone()?,
        repo: repo.clone()?,
        change,
        answer,
    })
}

// Whether rules declare the word that is asked for as a role for a repository with this creator.
fn is_declared(policy: &Policy, repo: &RepoName, wild: &Wild, change: &PermChange) -> bool
    ensures { (ps : Patterns) → AreTrue ps → result ≡ is_declared ps policy.now repo.now wild.now.creator change.now }
{
    match change {
        PermChange::Grant { role, user: _ } => policy.declares(role.bytes(), repo, wild.creator()),
        PermChange::Revoke { role, user: _ } => policy.declares(role.bytes(), repo, wild.creator()),
        PermChange::List => true,
    }
}

// Asks for a change of roles, where the word is declared as a role or not.
fn ask(wild: &mut Wild, asker: &UserName, change: &PermChange, declared: bool) -> PermsAnswer
    ensures { Asks wild.old wild.new asker.now declared change.now result }
{
    match change {
        PermChange::Grant { role, user } => wild.grant(asker, role.bytes(), user, declared),
        PermChange::Revoke { role, user } => wild.revoke(asker, role.bytes(), user, declared),
        PermChange::List => wild.list(asker),
    }
}

// What the log keeps of an answer; nothing where memory ran out.
fn kept_of(answer: &PermsAnswer) -> Option<PermsKept>
    ensures { result ≡ kept_of answer.now }
{
    match answer {
        PermsAnswer::Changed => Some(PermsKept::Changed),
        PermsAnswer::AlreadySo => Some(PermsKept::AlreadySo),
        PermsAnswer::NotWild => Some(PermsKept::NotWild),
        PermsAnswer::NotCreator => Some(PermsKept::NotCreator),
        PermsAnswer::NoSuchRole => Some(PermsKept::NoSuchRole),
        PermsAnswer::Listed(_) => Some(PermsKept::Listed),
        PermsAnswer::NoMemory => None,
    }
}

// What a change puts in place.
fn changes_of(
    alloc: Global,
    name: &RepoName,
    hosted: &HostedRepo,
    wild: Wild,
    kept: PermsKept,
) -> Result<Vec<Named>, NoMemory>
    ensures { IfOk result (λ l. l.items ≡ put_of name.now hosted.now wild kept) }
{
    if let PermsKept::Changed = kept {
        return one(alloc, name, hosted.with_wild(alloc, wild)?);
    }
    Ok(Vec::new(alloc))
}
