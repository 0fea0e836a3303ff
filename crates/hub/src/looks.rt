// Listings.
ghost use Rattle.std.specs.Prelude.{◌≡◌, ◌++◌, true, IfOk, OnErr, OnOk};
ghost use Rattle.std.specs.List.{flat_map};
ghost use Rattle.conf_lex.specs.Names.{is_user_name};
ghost use Rattle.rule_compile.specs.Flat.{Flat};
ghost use Rattle.rule_compile.specs.Patterns.{AreTrue, Patterns};
ghost use Rattle.hub_history.specs.declared.entry.Event.TheVariants as event;
ghost use Rattle.hub_history.specs.Conf.{AreInForce};
ghost use Rattle.hub_history.specs.History.{IsLegal};
ghost use Rattle.repo_listing.specs.Listing.{repo_lines};
ghost use Rattle.hub.specs.Answer.{AnswersLook, IsDueIn, lines_for, listed_repo, looked};
ghost use Rattle.hub.specs.Hub.{Logs, logged, state_of};

use crate::answer::Looked;
use crate::hub::Hub;
use crate::names::tell_user;
use base_types::NoMemory;
use conf_lex::{RepoName, UserName};
use hub_history::Event;
use hub_state::HostedRepo;
use repo_listing::{LookList, push_patterns, push_repo};
use rule_compile::Policy;
use std::alloc::Global;
use std::collections::BTreeMap;

impl Hub {
    /// Lists what a user may see: the repositories that are there, in the byte order of their names, and then
    /// the patterns by which the user may create some.
    ///
    /// It costs a decision for each repository, and puts their names in order.
    pub fn look(&mut self, alloc: Global, caller: u64, user: &UserName) -> Looked
        ensures logs { Logs self.old self.new caller (looked user.now result) }
        ensures due { IsDueIn self.old (looked user.now result) }
        ensures answers { AnswersLook self.old user.now result }
        ensures legal { IsLegal self.new.admin self.new.log }
    {
        tell_user(user);
        let answer = self.looked(alloc, caller, user);
        // called for its clause that the log is legal
        let _log = self.log();
        match answer {
            Ok(lines) => Looked::Lines(lines),
            Err(_) => Looked::NoMemory,
        }
    }

    fn looked(&mut self, alloc: Global, caller: u64, user: &UserName) -> Result<LookList, NoMemory>
        requires { is_user_name user.now ≡ true }
        ensures logs { IfOk result (λ lines. self.new ≡ logged self.old caller (event.Looked user.now)) }
        ensures lines { IfOk result (λ lines. (ps : Patterns) → AreTrue ps → (rules : Flat) × AreInForce ps (state_of self.old).conf rules × (lines ≡ lines_for ps rules (state_of self.old) user.now)) }
        ensures err { OnErr result (self.new ≡ self.old) }
    {
        let lines = self.lines(alloc, user)?;
        let event = Event::Looked {
            user: user.clone()?,
        };
        self.note(alloc, caller, event)?;
        Ok(lines)
    }

    fn lines(&self, alloc: Global, user: &UserName) -> Result<LookList, NoMemory>
        ensures { IfOk result (λ lines. (ps : Patterns) → AreTrue ps → (rules : Flat) × AreInForce ps (state_of self.now).conf rules × (lines ≡ lines_for ps rules (state_of self.now) user.now)) }
    {
        let policy = self.conf().policy();
        let repositories = self.in_order(alloc)?;
        let mut lines = LookList::new(alloc);
        push_repos(&mut lines, policy, &repositories, user)?;
        push_patterns(alloc, &mut lines, policy, user)?;
        Ok(lines)
    }
}

// Appends the lines of repositories.
fn push_repos(
    lines: &mut LookList,
    policy: &Policy,
    repositories: &BTreeMap<RepoName, HostedRepo>,
    user: &UserName,
) -> Result<(), NoMemory>
    ensures { (ps : Patterns) → AreTrue ps → OnOk result (lines.new ≡ lines.old ++ flat_map (λ e. repo_lines ps policy.now user.now (listed_repo e)) repositories.now.entries) }
{
    for (name, hosted) in repositories.iter() {
        push_repo(lines, policy, hosted.wild(), name, user)?;
    }
    Ok(())
}
