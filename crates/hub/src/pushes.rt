// Pushes.
ghost use Rattle.std.specs.Prelude.{◌≡◌, ◌++◌, ◌≤◌, ◌&&◌, filter, IfOk, IfSome, length, None, OnErr, OnOk, Option, true};
ghost use Rattle.hub_history.specs.declared.entry.Event.TheVariants as event;
ghost use Rattle.access_check.specs.declared.verdicts.Want.TheVariants as want;
ghost use Rattle.rule_compile.specs.Patterns.{AreTrue, Patterns};
ghost use Rattle.std.specs.Option.{unwrap_or};
ghost use Rattle.hub_history.specs.History.{IsLegal, Stands, history, made_empty, step};
ghost use Rattle.hub_history.specs.Laws.{IsDueBehind};
ghost use Rattle.hub_history.specs.Opening.{pinned_in_force};
ghost use Rattle.git_object.specs.Object.{FitOnePack};
ghost use Rattle.hub_history.specs.Push.{AreWithinLimits, JudgesAllAtPush, Makes, is_done, is_lacking, is_of_conf, repository_left, outcomes_in};
ghost use Rattle.hub_history.specs.State.{CommitAmong, in_force, placed_in, put_in_place, repository_at, wild_of};
ghost use Rattle.push_judging.specs.Again.{IsJudgedBy, TellsAgain};
ghost use Rattle.push_judging.specs.Judged.{AreTold, IsJudgement};
ghost use Rattle.push_settling.specs.Basis.{changed_to, same_in};
ghost use Rattle.push_settling.specs.declared.basis.Standing.TheVariants as standing;
ghost use Rattle.hub.specs.Answer.{AnswersPush, IsDueIn, settled};
ghost use Rattle.hub.specs.Hub.{Logs, logged, state_of, stored};
ghost use Rattle.hub.specs.Puts.{conf_by, conf_chosen};

use crate::answer::Pushed;
use crate::hub::Hub;
use crate::table::Named;
use base_types::NoMemory;
use conf_lex::RepoName;
use hub_history::{Event, LoggedCommands, LoggedPack, Outcome, OutcomeList, RepoList};
use hub_state::{ConfInForce, HostedRepo, Pin, PreparedPack, PushRequest};
use push_judging::{CommandOutcomes, Judged, is_of_conf};
use push_settling::{Basis, Left, Settled, Standing, settle};
use ref_store::{Command, Repo};
use rule_compile::some_patterns_are_true;
use std::alloc::Global;
use wild_perms::Wild;

// What a push is told, and the conf just before it.
#[derive(Drop)]
struct SettledPush {
    outcomes: OutcomeList,
    made: RepoList,
    conf: ConfInForce,
}

// What a push puts into the log and in place. Where no command is done, `same` is the repository as it is,
// with more known of it.
#[derive(Drop)]
struct Plan {
    outcomes: OutcomeList,
    made: RepoList,
    changes: Vec<Named>,
    conf: Option<ConfInForce>,
    same: Option<HostedRepo>,
}

impl Hub {
    /// Settles a push that has been judged, by what is in force now and by what is in the repository now.
    ///
    /// It costs the commands and, once a ref moves, the repository's refs; where objects came since the push
    /// was judged it compares the pack again. A conf that is put in force costs its plain repositories.
    /// Nothing is compiled. Only where the conf, or the repository's creator or roles, changed since the
    /// opening is anything decided by rules, which costs what `Judged::at_push` does.
    pub fn settle(
        &mut self,
        alloc: Global,
        caller: u64,
        pin: Pin,
        request: PushRequest,
        judged: Judged,
    ) -> Pushed
        requires stands { Stands pin self.old.admin self.old.log }
        requires write { pin.pinned.want ≡ want.Write }
        requires within { AreWithinLimits request.commands }
        requires fit { FitOnePack request.pack }
        requires judged { IsJudgement pin.pinned request.pack request.commands judged }
        ensures logs { Logs self.old self.new caller (settled pin request.pack request.commands request.atomic result) }
        ensures due { IsDueIn self.old (settled pin request.pack request.commands request.atomic result) }
        ensures answers { AnswersPush self.old pin result }
        ensures legal { IsLegal self.new.admin self.new.log }
    {
        // called for its clause that the log is legal
        let _log = self.log();
        match self.told(alloc, &pin, &request, judged) {
            Ok((told, prepared)) => self.settle_told(alloc, caller, pin, request, told, prepared),
            Err(_) => Pushed::NoMemory(pin),
        }
    }

    // Settles a push whose commands have been judged by what is in force now.
    fn settle_told(
        &mut self,
        alloc: Global,
        caller: u64,
        pin: Pin,
        request: PushRequest,
        told: CommandOutcomes,
        prepared: PreparedPack,
    ) -> Pushed
        requires stands { Stands pin self.old.admin self.old.log }
        requires write { pin.pinned.want ≡ want.Write }
        requires within { AreWithinLimits request.commands }
        requires fit { FitOnePack request.pack }
        requires told { AreTold (in_force (state_of self.old) pin.pinned.repo) pin.pinned request.pack request.commands told.outcomes.items told.confs.items }
        requires before { prepared.before ≡ pin.pinned.repository.objects }
        requires objects { prepared.objects ≡ pin.pinned.repository.objects ++ request.pack }
        ensures logs { Logs self.old self.new caller (settled pin request.pack request.commands request.atomic result) }
        ensures due { IsDueIn self.old (settled pin request.pack request.commands request.atomic result) }
        ensures answers { AnswersPush self.old pin result }
        ensures legal { IsLegal self.new.admin self.new.log }
    {
        let settled = self.settled(alloc, caller, &pin, request, told, prepared);
        // called for its clause that the log is legal
        let _log = self.log();
        match settled {
            Ok(
                SettledPush {
                    outcomes,
                    made,
                    conf,
                },
            ) => Pushed::Settled {
                outcomes,
                made,
                conf,
            },
            Err(_) => Pushed::NoMemory(pin),
        }
    }

    // What the commands are told by the opening and by what is in force now, and what was found out of the
    // pack.
    fn told(
        &self,
        alloc: Global,
        pin: &Pin,
        request: &PushRequest,
        mut judged: Judged,
    ) -> Result<(CommandOutcomes, PreparedPack), NoMemory>
        requires stands { Stands pin.now self.now.admin self.now.log }
        requires judged { IsJudgement pin.now.pinned request.now.pack request.now.commands judged }
        ensures told { IfOk result (λ t. AreTold (in_force (state_of self.now) pin.now.pinned.repo) pin.now.pinned request.now.pack request.now.commands t.0.outcomes.items t.0.confs.items) }
        ensures before { IfOk result (λ t. t.1.before ≡ pin.now.pinned.repository.objects) }
        ensures objects { IfOk result (λ t. t.1.objects ≡ pin.now.pinned.repository.objects ++ request.now.pack) }
    {
        if self.stands_as_opened(pin) {
            return Ok(judged.into_parts());
        }
        let hosted = self.hosted(alloc, pin.repo_name())?;
        if let Some(told) = self.told_again(pin, &mut judged, hosted.wild())? {
            let (_, prepared) = judged.into_parts();
            return Ok((told, prepared));
        }
        let told = judged.at_push(alloc, pin, request, self.conf(), hosted.wild())?;
        let (_, prepared) = judged.into_parts();
        Ok((told, prepared))
    }

    // What the commands are told, where the push was judged again by the creator and the roles that its
    // repository has now, and the conf is that of the opening.
    fn told_again(
        &self,
        pin: &Pin,
        judged: &mut Judged,
        wild: &Wild,
    ) -> Result<Option<CommandOutcomes>, NoMemory>
        requires stands { Stands pin.now self.now.admin self.now.log }
        ensures told { IfOk result (λ found. IfSome found (λ told. (pin.now.pinned.conf ≡ (state_of self.now).conf) × TellsAgain judged.old wild.now told)) }
        ensures before { judged.new.before ≡ judged.old.before }
        ensures objects { judged.new.objects ≡ judged.old.objects }
        ensures none { IfOk result (λ found. found ≡ None → judged.new ≡ judged.old) }
    {
        if !self.has_conf_of(pin) {
            return Ok(None);
        }
        judged.take_again(wild)
    }

    /// The creator and the roles by which a push is to be judged again before its turn, if it is: they
    /// changed since its opening, and again since it was last judged. Where the conf changed too it has to be
    /// judged in its turn. It costs a look-up and, where roles changed, the roles of the repository.
    pub fn wild_to_judge(
        &self,
        alloc: Global,
        pin: &Pin,
        judged: &Judged,
    ) -> Result<Option<Wild>, NoMemory>
        requires { Stands pin.now self.now.admin self.now.log }
        ensures now { IfOk result (λ found. IfSome found (λ wild. wild ≡ wild_of (repository_at (state_of self.now) pin.now.pinned.repo))) }
        ensures anew { IfOk result (λ found. IfSome found (λ wild. IsJudgedBy judged.now wild → wild.creator ≡ None)) }
    {
        if self.stands_as_opened(pin) || !self.has_conf_of(pin) {
            return Ok(None);
        }
        let hosted = self.hosted(alloc, pin.repo_name())?;
        if judged.is_judged_by(hosted.wild())? {
            return Ok(None);
        }
        Ok(Some(hosted.wild().copy()?))
    }

    // Whether the conf at an opening still is in force.
    fn has_conf_of(&self, pin: &Pin) -> bool
        requires { Stands pin.now self.now.admin self.now.log }
        ensures { result ≡ true → pin.now.pinned.conf ≡ (state_of self.now).conf }
    {
        self.has_conf_stayed(pin.place())
    }

    // Whether what was in force at an opening for its repository still is. It costs a look-up.
    fn stands_as_opened(&self, pin: &Pin) -> bool
        requires { Stands pin.now self.now.admin self.now.log }
        ensures { result ≡ true → pinned_in_force pin.now.pinned ≡ in_force (state_of self.now) pin.now.pinned.repo }
    {
        self.has_stayed(pin.repo_name(), pin.place())
    }

    fn settled(
        &mut self,
        alloc: Global,
        caller: u64,
        pin: &Pin,
        request: PushRequest,
        told: CommandOutcomes,
        prepared: PreparedPack,
    ) -> Result<SettledPush, NoMemory>
        requires stands { Stands pin.now self.old.admin self.old.log }
        requires write { pin.now.pinned.want ≡ want.Write }
        requires within { AreWithinLimits request.commands }
        requires fit { FitOnePack request.pack }
        requires told { AreTold (in_force (state_of self.old) pin.now.pinned.repo) pin.now.pinned request.pack request.commands told.outcomes.items told.confs.items }
        requires before { prepared.before ≡ pin.now.pinned.repository.objects }
        requires objects { prepared.objects ≡ pin.now.pinned.repository.objects ++ request.pack }
        ensures due { IfOk result (λ s. IsDueBehind self.old.admin self.old.log (event.Pushed pin.now.place request.pack request.commands request.atomic s.outcomes s.made)) }
        ensures logs { IfOk result (λ s. self.new ≡ logged self.old caller (event.Pushed pin.now.place request.pack request.commands request.atomic s.outcomes s.made)) }
        ensures conf { IfOk result (λ s. s.conf ≡ (state_of self.old).conf) }
        ensures err { OnErr result (self.new ≡ self.old) }
    {
        let before = self.conf().clone()?;
        let plan = self.plan(alloc, pin, &request, told, prepared)?;
        let Plan {
            outcomes,
            made,
            changes,
            conf,
            same,
        } = plan;
        self.learn(pin.repo_name(), same)?;
        let settled = SettledPush {
            outcomes: outcomes.clone()?,
            made: made.clone()?,
            conf: before,
        };
        let event = pushed(pin.place(), &request, outcomes, made);
        self.commit(caller, event, changes, conf)?;
        Ok(settled)
    }

    // What is due of a push.
    fn plan(
        &self,
        alloc: Global,
        pin: &Pin,
        request: &PushRequest,
        told: CommandOutcomes,
        prepared: PreparedPack,
    ) -> Result<Plan, NoMemory>
        requires stands { Stands pin.now self.now.admin self.now.log }
        requires write { pin.now.pinned.want ≡ want.Write }
        requires within { AreWithinLimits request.now.commands }
        requires fit { FitOnePack request.now.pack }
        requires told { AreTold (in_force (state_of self.now) pin.now.pinned.repo) pin.now.pinned request.now.pack request.now.commands told.outcomes.items told.confs.items }
        requires before { prepared.before ≡ pin.now.pinned.repository.objects }
        requires objects { prepared.objects ≡ pin.now.pinned.repository.objects ++ request.now.pack }
        ensures due { IfOk result (λ p. IsDueBehind self.now.admin self.now.log (event.Pushed pin.now.place request.now.pack request.now.commands request.now.atomic p.outcomes p.made)) }
        ensures step { IfOk result (λ p. step (history self.now.admin self.now.log) (event.Pushed pin.now.place request.now.pack request.now.commands request.now.atomic p.outcomes p.made) ≡ stored (placed_in (state_of self.now).repositories p.changes.items) (unwrap_or p.conf (state_of self.now).conf)) }
        ensures admin { IfOk result (λ p. IfSome p.conf (λ conf. conf.admin ≡ self.now.admin)) }
        ensures same { IfOk result (λ p. IfSome p.same (λ same. same ≡ repository_at (state_of self.now) pin.now.pinned.repo)) }
    {
        // called for its clause that some answers about patterns are true, which the proof cites
        some_patterns_are_true();
        let CommandOutcomes {
            outcomes: judged,
            confs,
        } = told;
        let Settled { outcomes, left } = self.settle_now(alloc, pin, request, &judged, prepared)?;
        let conf = conf_of(
            confs,
            pin.repo_name(),
            request.commands.as_slice(),
            outcomes.as_slice(),
        );
        let made = self.lacking(alloc, &conf)?;
        let (next, same) = next_and_same(left);
        let changes = changes_of(alloc, pin.repo_name(), next, &made)?;
        Ok(Plan {
            outcomes,
            made,
            changes,
            conf,
            same,
        })
    }

    // Settles a push by the repository as it is.
    fn settle_now(
        &self,
        alloc: Global,
        pin: &Pin,
        request: &PushRequest,
        judged: &[Option<Outcome>],
        prepared: PreparedPack,
    ) -> Result<Settled, NoMemory>
        requires stands { Stands pin.now self.now.admin self.now.log }
        requires few { length request.now.commands ≤ 10000 }
        requires judged { (ps : Patterns) → AreTrue ps → JudgesAllAtPush ps (in_force (state_of self.now) pin.now.pinned.repo) pin.now.pinned request.now.pack request.now.commands judged.now }
        requires before { prepared.before ≡ pin.now.pinned.repository.objects }
        requires objects { prepared.objects ≡ pin.now.pinned.repository.objects ++ request.now.pack }
        ensures outcomes { IfOk result (λ s. s.outcomes ≡ outcomes_in (repository_at (state_of self.now) pin.now.pinned.repo) request.now.pack request.now.commands request.now.atomic judged.now) }
        ensures next { IfOk result (λ s. changed_to s.left ≡ repository_left (repository_at (state_of self.now) pin.now.pinned.repo) request.now.pack request.now.commands s.outcomes) }
        ensures same { IfOk result (λ s. IfSome (same_in s.left) (λ same. same ≡ repository_at (state_of self.now) pin.now.pinned.repo)) }
    {
        // called for their clauses that the log is legal and that some answers about patterns are true, which
        // the proof cites
        let _log = self.log();
        some_patterns_are_true();
        let now = self.hosted(alloc, pin.repo_name())?;
        let standing = standing_of(pin.repo(), now.repo());
        let basis = Basis { prepared, standing };
        settle(alloc, &now, judged, basis, request)
    }

    // The plain repositories of a conf that aren't there.
    fn lacking(&self, alloc: Global, conf: &Option<ConfInForce>) -> Result<RepoList, NoMemory>
        ensures { IfOk result (λ made. (ps : Patterns) → AreTrue ps → (pushed : Option CommitAmong) → conf.now ≡ conf_by self.now.admin pushed → Makes ps (state_of self.now) pushed made) }
    {
        match conf {
            Some(conf) => self.lacking_of(alloc, conf.policy().plain_repos()),
            None => Ok(RepoList::new(alloc)),
        }
    }

    fn lacking_of(&self, alloc: Global, names: &[RepoName]) -> Result<RepoList, NoMemory>
        ensures { IfOk result (λ made. made ≡ filter (is_lacking (state_of self.now)) names.now) }
    {
        let mut made = RepoList::new(alloc);
        for name in names {
            if self.hosted_at(name).is_none() {
                made.push(name.clone()?)?;
            }
        }
        Ok(made)
    }
}

// The event of a push. It keeps neither objects nor commands.
fn pushed(place: u64, request: &PushRequest, outcomes: OutcomeList, made: RepoList) -> Event
    ensures { result ≡ event.Pushed place request.now.pack request.now.commands request.now.atomic outcomes made }
{
    Event::Pushed {
        place,
        pack: LoggedPack::of(&request.pack),
        commands: LoggedCommands::of(&request.commands),
        atomic: request.atomic,
        outcomes,
        made,
    }
}

// The repository that is put in place, if one is, and the one that stays, where more is known of it.
fn next_and_same(left: Left) -> (Option<HostedRepo>, Option<HostedRepo>)
    ensures next { result.0 ≡ changed_to left }
    ensures same { result.1 ≡ same_in left }
{
    match left {
        Left::Changed(next) => (Some(next), None),
        Left::Same(same) => (None, same),
    }
}

// How the objects stand to those of the opening. Objects only come, so where there are as many these are the
// same.
fn standing_of(pinned: &Repo, now: &Repo) -> Standing
    ensures { result ≡ standing.Unmoved → length pinned.now.objects ≡ length now.now.objects }
{
    if pinned.count() == now.count() {
        return Standing::Unmoved;
    }
    Standing::Moved
}

// The conf that a push puts in force: that of the first command for its branch that is done.
fn conf_of(
    mut confs: Vec<Option<ConfInForce>>,
    repo: &RepoName,
    commands: &[Command],
    outcomes: &[Outcome],
) -> Option<ConfInForce>
    requires alike { length confs.items ≡ length commands.now }
    requires told { length outcomes.now ≡ length commands.now }
    ensures { result ≡ conf_chosen repo.now commands.now outcomes.now confs.items }
{
    for k in 0..commands.len() {
        if puts_conf(repo, &commands[k], &outcomes[k]) {
            return confs.swap_remove(k);
        }
    }
    None
}

// Whether a command with this outcome puts a conf in force.
fn puts_conf(repo: &RepoName, command: &Command, outcome: &Outcome) -> bool
    ensures { result ≡ (is_of_conf repo.now command.now.name && is_done outcome.now) }
{
    is_of_conf(repo, command) && outcome.is_done()
}

// What a push puts in place: the repository that it leaves, and empty ones of these names.
fn changes_of(
    alloc: Global,
    name: &RepoName,
    next: Option<HostedRepo>,
    made: &RepoList,
) -> Result<Vec<Named>, NoMemory>
    ensures { IfOk result (λ l. l.items ≡ put_in_place name.now next ++ made_empty made.now) }
{
    let mut changes = Vec::new(alloc);
    if let Some(next) = next {
        changes.push((name.clone()?, next))?;
    }
    push_empty(alloc, &mut changes, made)?;
    Ok(changes)
}

fn push_empty(alloc: Global, changes: &mut Vec<Named>, made: &RepoList) -> Result<(), NoMemory>
    ensures { OnOk result (changes.new.items ≡ changes.old.items ++ made_empty made.now) }
{
    for name in made.as_slice() {
        let empty = HostedRepo::empty(alloc, Wild::plain(alloc))?;
        changes.push((name.clone()?, empty))?;
    }
    Ok(())
}
