// Openings.
ghost use Rattle.std.specs.Prelude.{◌≡◌, IfOk, IfSome, length, None, OnErr, OnOk, Some};
ghost use Rattle.rule_compile.specs.Patterns.{AreTrue, Patterns};
ghost use Rattle.hub_history.specs.declared.entry.Event.TheVariants as event;
ghost use Rattle.hub_history.specs.History.{IsLegal};
ghost use Rattle.hub_history.specs.Laws.{IsDueBehind};
ghost use Rattle.hub_history.specs.Opening.{answer_by, by_creation, by_verdict};
ghost use Rattle.hub_history.specs.Push.{HasWholeRefs};
ghost use Rattle.hub_history.specs.declared.entry.EnterKept.TheVariants as kept_as;
ghost use Rattle.hub.specs.Answer.{AnswersOpening, IsDueIn, IsPinOf, kept, opened};
ghost use Rattle.hub.specs.Hub.{Logs, logged, state_of};

use crate::answer::Entered;
use crate::hub::Hub;
use crate::names::tell_names;
use crate::table::one;
use access_check::{Verdict, Want, first_stage, may_create, unborn_stage};
use base_types::NoMemory;
use conf_lex::{RepoName, UserName};
use hub_history::{EnterKept, Event};
use hub_state::{HostedRepo, Pin};
use rule_compile::Policy;
use std::alloc::Global;
use wild_perms::Wild;

impl Hub {
    /// Opens a repository for a user. With `Granted` and `Created` comes a pin, which keeps what holds at
    /// this entry; with `Denied` the conf in force.
    ///
    /// It costs the decisions over the opening. The pin shares the conf and the repository.
    pub fn enter(
        &mut self,
        alloc: Global,
        caller: u64,
        user: &UserName,
        repo: &RepoName,
        want: Want,
    ) -> Entered
        ensures logs { Logs self.old self.new caller (opened user.now repo.now want (kept result)) }
        ensures due { IsDueIn self.old (opened user.now repo.now want (kept result)) }
        ensures answers { AnswersOpening self.old self.new user.now repo.now want result }
        ensures legal { IsLegal self.new.admin self.new.log }
    {
        let answer = self.answer_to(user, repo, want);
        let entered = self.entered(alloc, caller, user, repo, want, answer);
        // called for its clause that the log is legal
        let _log = self.log();
        match entered {
            Ok(entered) => entered,
            Err(_) => Entered::NoMemory,
        }
    }

    fn entered(
        &mut self,
        alloc: Global,
        caller: u64,
        user: &UserName,
        repo: &RepoName,
        want: Want,
        answer: EnterKept,
    ) -> Result<Entered, NoMemory>
        requires { IsDueBehind self.old.admin self.old.log (event.Entered user.now repo.now want answer) }
        ensures logs { OnOk result (self.new ≡ logged self.old caller (event.Entered user.now repo.now want answer)) }
        ensures err { OnErr result (self.new ≡ self.old) }
        ensures kept { IfOk result (λ entered. kept entered ≡ Some answer) }
        ensures answers { IfOk result (AnswersOpening self.old self.new user.now repo.now want) }
    {
        match answer {
            EnterKept::Granted => {
                let pin = self.grant(alloc, caller, user, repo, want)?;
                Ok(Entered::Granted(pin))
            }
            EnterKept::Created => {
                let pin = self.create(alloc, caller, user, repo, want)?;
                Ok(Entered::Created(pin))
            }
            EnterKept::Denied(verdict) => {
                let conf = self.conf().clone()?;
                let event = opening(user, repo, want, answer)?;
                self.note(alloc, caller, event)?;
                Ok(Entered::Denied(verdict, conf))
            }
            EnterKept::NoRepo => {
                let event = opening(user, repo, want, answer)?;
                self.note(alloc, caller, event)?;
                Ok(Entered::NoRepo)
            }
        }
    }

    fn grant(
        &mut self,
        alloc: Global,
        caller: u64,
        user: &UserName,
        repo: &RepoName,
        want: Want,
    ) -> Result<Pin, NoMemory>
        requires { IsDueBehind self.old.admin self.old.log (event.Entered user.now repo.now want kept_as.Granted) }
        ensures logs { OnOk result (self.new ≡ logged self.old caller (event.Entered user.now repo.now want kept_as.Granted)) }
        ensures err { OnErr result (self.new ≡ self.old) }
        ensures pin { IfOk result (IsPinOf self.old self.new user.now repo.now want) }
    {
        let hosted = self.hosted(alloc, repo)?;
        let pin = self.pin(user, repo, want, hosted)?;
        let event = opening(user, repo, want, EnterKept::Granted)?;
        self.note(alloc, caller, event)?;
        Ok(pin)
    }

    fn create(
        &mut self,
        alloc: Global,
        caller: u64,
        user: &UserName,
        repo: &RepoName,
        want: Want,
    ) -> Result<Pin, NoMemory>
        requires { IsDueBehind self.old.admin self.old.log (event.Entered user.now repo.now want kept_as.Created) }
        ensures logs { OnOk result (self.new ≡ logged self.old caller (event.Entered user.now repo.now want kept_as.Created)) }
        ensures err { OnErr result (self.new ≡ self.old) }
        ensures pin { IfOk result (IsPinOf self.old self.new user.now repo.now want) }
    {
        let hosted = HostedRepo::empty(alloc, Wild::born(alloc, user.clone()?))?;
        let pin = self.pin(user, repo, want, hosted.clone()?)?;
        let event = opening(user, repo, want, EnterKept::Created)?;
        let made = one(alloc, repo, hosted)?;
        self.commit(caller, event, made, None)?;
        Ok(pin)
    }

    // The pin of the opening that will be the next entry.
    fn pin(
        &self,
        user: &UserName,
        repo: &RepoName,
        want: Want,
        hosted: HostedRepo,
    ) -> Result<Pin, NoMemory>
        requires { HasWholeRefs hosted }
        ensures { IfOk result (λ pin. pin ≡ record { place = length self.now.log; pinned = record { user = user.now; repo = repo.now; want = want; conf = (state_of self.now).conf; repository = hosted } }) }
    {
        let conf = self.conf().clone()?;
        let place = self.log().len() as u64;
        Ok(Pin::new(place, user.clone()?, repo.clone()?, want, conf, hosted))
    }

    fn answer_to(&self, user: &UserName, repo: &RepoName, want: Want) -> EnterKept
        ensures { IsDueBehind self.now.admin self.now.log (event.Entered user.now repo.now want result) }
    {
        tell_names(user, repo);
        let policy = self.conf().policy();
        match self.hosted_at(repo) {
            Some(hosted) => answer_there(policy, hosted, user, repo, want),
            None => answer_unborn(policy, user, repo, want),
        }
    }
}

// The event of an opening.
fn opening(
    user: &UserName,
    repo: &RepoName,
    want: Want,
    answer: EnterKept,
) -> Result<Event, NoMemory>
    ensures { IfOk result (λ e. e ≡ event.Entered user.now repo.now want answer) }
{
    Ok(Event::Entered {
        user: user.clone()?,
        repo: repo.clone()?,
        want,
        answer,
    })
}

// The answer where the repository is there.
fn answer_there(
    policy: &Policy,
    hosted: &HostedRepo,
    user: &UserName,
    repo: &RepoName,
    want: Want,
) -> EnterKept
    ensures { (ps : Patterns) → AreTrue ps → result ≡ answer_by ps policy.now (Some hosted.now) user.now repo.now want }
{
    let verdict = first_stage(policy, hosted.wild(), repo, user, want);
    by_verdict(verdict, EnterKept::Granted)
}

// The answer where it isn't.
fn answer_unborn(policy: &Policy, user: &UserName, repo: &RepoName, want: Want) -> EnterKept
    ensures { (ps : Patterns) → AreTrue ps → result ≡ answer_by ps policy.now None user.now repo.now want }
{
    let made = by_creation(may_create(policy, repo, user));
    by_verdict(unborn_stage(policy, repo, user, want), made)
}

fn by_verdict(verdict: Verdict, allowed: EnterKept) -> EnterKept
    ensures { result ≡ by_verdict verdict allowed }
{
    match verdict {
        Verdict::Allowed(_) => allowed,
        Verdict::DeniedBy(_) | Verdict::Fallthru => EnterKept::Denied(verdict),
    }
}

fn by_creation(verdict: Verdict) -> EnterKept
    ensures { result ≡ by_creation verdict }
{
    match verdict {
        Verdict::Allowed(_) => EnterKept::Created,
        Verdict::DeniedBy(_) | Verdict::Fallthru => EnterKept::NoRepo,
    }
}
