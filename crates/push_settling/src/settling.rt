// The outcomes of a push by what is there just before it, and what it leaves of its repository.
ghost use Rattle.std.specs.Prelude.{◌≡◌, ◌+◌, ◌++◌, ◌<◌, ◌≤◌, ◌^◌, [], IfOk, IfSome, length, map, None, not, OnOk, Some, true};
ghost use Rattle.std.specs.List.{list_any, position};
ghost use Rattle.ref_store.specs.RefName.{is_ref_name};
ghost use Rattle.ref_store.specs.Objects.{HasNamesOnce, with_pack};
ghost use Rattle.ancestry.specs.Known.{Extends};
ghost use Rattle.hub_history.specs.Collision.{collision};
ghost use Rattle.hub_history.specs.Push.{beside, by_refs, in_order, is_done, repository_left, repository_left_with, outcomes_in, refs_after, refs_left, together};
ghost use Rattle.push_settling.specs.Basis.{AreLeft, StandsOn, changed_to, same_in};
ghost use Rattle.push_settling.specs.Running.{FitCommands, FitsCommand};
ghost use Rattle.push_settling.specs.declared.settling.Left.TheVariants as left;

use crate::basis::{Basis, Standing};
use base_types::NoMemory;
use git_object::ObjectList;
use hub_state::{HostedRepo, Outcome, OutcomeList, PreparedPack, PushRequest};
use ref_store::{Applied, Command, CommandList, Compared, FreshObjects, RefName, Repo};
use std::alloc::Global;

/// What a push leaves of its repository.
#[derive(Drop)]
pub enum Left {
    /// A command is done: this is put in its place.
    Changed(HostedRepo),
    /// None is: it stays, and this is the same with more known of it, where something was found out on the
    /// way that is right for it as it is.
    Same(Option<HostedRepo>),
}

/// The outcomes of a push, and what it leaves of its repository.
#[derive(Drop)]
pub struct Settled {
    pub outcomes: OutcomeList,
    pub left: Left,
}

/// Settles a push into a repository as it is just before. It costs the commands and, once a ref moves, the
/// repository's refs; and where objects came since the push was judged, it compares the pack again, and adds
/// what it lacks where a command is done.
///
/// Where no command is done no segment is built. What was found out on the way is kept where a command is
/// done, and where the push brings no objects and none came since it was judged. It was joined with what was
/// known then; where objects came since, it is put beside what is known now.
pub fn settle(
    alloc: Global,
    now: &HostedRepo,
    judged: &[Option<Outcome>],
    mut basis: Basis,
    request: &PushRequest,
) -> Result<Settled, NoMemory>
    requires alike { length judged.now ≡ length request.now.commands }
    requires few { length request.now.commands ≤ 10000 }
    requires fit { FitCommands request.now.commands judged.now }
    requires among { collision now.now.objects request.now.pack ≡ None → Extends basis.prepared.objects (with_pack now.now.objects request.now.pack) }
    requires behind { basis.prepared.objects ≡ basis.prepared.before ++ request.now.pack }
    requires stands { StandsOn now.now.objects basis }
    ensures outcomes { IfOk result (λ d. d.outcomes ≡ outcomes_in now.now request.now.pack request.now.commands request.now.atomic judged.now) }
    ensures next { IfOk result (λ d. changed_to d.left ≡ repository_left now.now request.now.pack request.now.commands d.outcomes) }
    ensures same { IfOk result (λ d. IfSome (same_in d.left) (λ same. same ≡ now.now)) }
{
    // `count` is called for its clause that no two objects have one name, which the proof cites.
    let _count = now.repo().count();
    let commands = &request.commands;
    match basis.compared(now, &request.pack) {
        Compared::Fresh(fresh) => settle_with(alloc, now, judged, basis, fresh, request),
        Compared::Collision { id, .. } => refuse_all(alloc, commands, &Outcome::Collided(id)),
        Compared::Full(count) => refuse_all(alloc, commands, &Outcome::Full(count)),
        Compared::NoMemory => Err(NoMemory),
    }
}

// Every command of a push has this outcome.
fn refuse_all(alloc: Global, commands: &CommandList, outcome: &Outcome) -> Result<Settled, NoMemory>
    ensures outcomes { IfOk result (λ d. d.outcomes ≡ map (λ c. outcome.now) commands.now) }
    ensures left { IfOk result (λ d. d.left ≡ left.Same None) }
{
    Ok(Settled {
        outcomes: alike(alloc, commands, outcome)?,
        left: Left::Same(None),
    })
}

// Settles a push whose pack has these fresh objects.
fn settle_with(
    alloc: Global,
    now: &HostedRepo,
    judged: &[Option<Outcome>],
    basis: Basis,
    fresh: FreshObjects,
    request: &PushRequest,
) -> Result<Settled, NoMemory>
    requires alike { length judged.now ≡ length request.now.commands }
    requires few { length request.now.commands ≤ 10000 }
    requires fit { FitCommands request.now.commands judged.now }
    requires names { HasNamesOnce (now.now.objects ++ fresh.objects) }
    requires room { length now.now.objects + length fresh.objects ≤ 4294967295 }
    requires ready { IfSome fresh.before (λ before. before ≡ now.now.objects) }
    requires behind { basis.prepared.objects ≡ basis.prepared.before ++ request.now.pack }
    requires stands { StandsOn now.now.objects basis }
    requires left { AreLeft now.now.objects basis (now.now.objects ++ fresh.objects) }
    ensures outcomes { IfOk result (λ d. d.outcomes ≡ together request.now.atomic (in_order now.now.refs request.now.commands judged.now)) }
    ensures next { IfOk result (λ d. changed_to d.left ≡ repository_left_with now.now (now.now.objects ++ fresh.objects) request.now.commands d.outcomes) }
    ensures same { IfOk result (λ d. IfSome (same_in d.left) (λ same. same ≡ now.now)) }
{
    let ran = run_all(alloc, now, judged, &request.commands, request.atomic)?;
    if any_done(&ran.outcomes) {
        return settle_done(alloc, now, ran.outcomes, ran.repo, fresh, basis);
    }
    settle_undone(alloc, now, ran.outcomes, basis, &request.pack)
}

// A push of which a command is done leaves this repository, with the fresh objects added.
fn settle_done(
    alloc: Global,
    now: &HostedRepo,
    outcomes: OutcomeList,
    repo: Repo,
    fresh: FreshObjects,
    basis: Basis,
) -> Result<Settled, NoMemory>
    requires objects { repo.objects ≡ now.now.objects }
    requires names { HasNamesOnce (now.now.objects ++ fresh.objects) }
    requires room { length now.now.objects + length fresh.objects ≤ 4294967295 }
    requires ready { IfSome fresh.before (λ before. before ≡ now.now.objects) }
    requires stands { StandsOn now.now.objects basis }
    requires left { AreLeft now.now.objects basis (now.now.objects ++ fresh.objects) }
    ensures outcomes { IfOk result (λ d. d.outcomes ≡ outcomes) }
    ensures next { IfOk result (λ d. changed_to d.left ≡ Some (record { objects = now.now.objects ++ fresh.objects; refs = repo.refs; creator = now.now.creator; roles = now.now.roles })) }
    ensures same { IfOk result (λ d. same_in d.left ≡ None) }
{
    let left = Left::Changed(land(alloc, now, repo, fresh, basis)?);
    Ok(Settled { outcomes, left })
}

// A push of which no command is done leaves the repository as it is.
fn settle_undone(
    alloc: Global,
    now: &HostedRepo,
    outcomes: OutcomeList,
    basis: Basis,
    pack: &ObjectList,
) -> Result<Settled, NoMemory>
    requires behind { basis.prepared.objects ≡ basis.prepared.before ++ pack.now }
    requires stands { StandsOn now.now.objects basis }
    ensures outcomes { IfOk result (λ d. d.outcomes ≡ outcomes) }
    ensures next { IfOk result (λ d. changed_to d.left ≡ None) }
    ensures same { IfOk result (λ d. IfSome (same_in d.left) (λ same. same ≡ now.now)) }
{
    let left = Left::Same(remember(alloc, now, basis, pack)?);
    Ok(Settled { outcomes, left })
}

// The outcomes of the commands of a push, and the repository with the refs that those leave which are done.
#[derive(Drop)]
struct Ran {
    outcomes: OutcomeList,
    repo: Repo,
}

fn run_all(
    alloc: Global,
    now: &HostedRepo,
    judged: &[Option<Outcome>],
    commands: &CommandList,
    atomic: bool,
) -> Result<Ran, NoMemory>
    requires alike { length judged.now ≡ length commands.now }
    requires few { length commands.now ≤ 10000 }
    requires fit { FitCommands commands.now judged.now }
    ensures outcomes { IfOk result (λ ran. ran.outcomes ≡ together atomic (in_order now.now.refs commands.now judged.now)) }
    ensures objects { IfOk result (λ ran. ran.repo.objects ≡ now.now.objects) }
    ensures refs { IfOk result (λ ran. ran.repo.refs ≡ refs_left now.now.refs commands.now (in_order now.now.refs commands.now judged.now)) }
{
    let mut repo = now.repo().copy()?;
    let ran = run(alloc, &mut repo, judged, commands.as_slice())?;
    let outcomes = together(alloc, atomic, ran)?;
    Ok(Ran { outcomes, repo })
}

// The repository as it is, with what a push found out that was judged by its objects alone: it brings none,
// and none came since.
fn remember(
    alloc: Global,
    now: &HostedRepo,
    basis: Basis,
    pack: &ObjectList,
) -> Result<Option<HostedRepo>, NoMemory>
    requires behind { basis.prepared.objects ≡ basis.prepared.before ++ pack.now }
    requires stands { StandsOn now.now.objects basis }
    ensures { IfOk result (λ same. IfSome same (λ same. same ≡ now.now)) }
{
    match basis.standing {
        Standing::Unmoved => with_known(alloc, now, basis.prepared, pack),
        Standing::Moved => Ok(None),
    }
}

// The same, where none came since.
fn with_known(
    alloc: Global,
    now: &HostedRepo,
    prepared: PreparedPack,
    pack: &ObjectList,
) -> Result<Option<HostedRepo>, NoMemory>
    requires behind { prepared.objects ≡ prepared.before ++ pack.now }
    requires same { prepared.before ≡ now.now.objects }
    ensures { IfOk result (λ same. IfSome same (λ same. same ≡ now.now)) }
{
    if !brings_none(pack) {
        return Ok(None);
    }
    let repo = now.repo().copy()?;
    let closures = now.closures().clone()?;
    Ok(Some(now.with_repo(alloc, repo, prepared.into_known(), closures)?))
}

fn brings_none(pack: &ObjectList) -> bool
    ensures { result ≡ true → pack.now ≡ [] }
{
    pack.is_empty()
}

// The commands in order, over the refs as the earlier ones left them.
fn run(
    alloc: Global,
    repo: &mut Repo,
    judged: &[Option<Outcome>],
    commands: &[Command],
) -> Result<OutcomeList, NoMemory>
    requires alike { length judged.now ≡ length commands.now }
    requires fit { FitCommands commands.now judged.now }
    ensures outcomes { IfOk result (λ os. os ≡ in_order repo.old.refs commands.now judged.now) }
    ensures repo { OnOk result (repo.new ≡ record { objects = repo.old.objects; refs = refs_left repo.old.refs commands.now (in_order repo.old.refs commands.now judged.now) }) }
{
    let mut list = OutcomeList::new(alloc);
    for i in 0..commands.len() {
        let outcome = run_one(alloc, repo, &commands[i], &judged[i])?;
        list.push(outcome)?;
    }
    Ok(list)
}

fn run_one(
    alloc: Global,
    repo: &mut Repo,
    command: &Command,
    judged: &Option<Outcome>,
) -> Result<Outcome, NoMemory>
    requires { FitsCommand command.now judged.now }
    ensures outcome { IfOk result (λ o. o ≡ by_refs repo.old.refs command.now judged.now) }
    ensures repo { OnOk result (repo.new ≡ record { objects = repo.old.objects; refs = refs_after repo.old.refs command.now (by_refs repo.old.refs command.now judged.now) }) }
{
    match judged {
        Some(outcome) => Ok(outcome.clone()?),
        None => move_one(alloc, repo, command),
    }
}

fn move_one(alloc: Global, repo: &mut Repo, command: &Command) -> Result<Outcome, NoMemory>
    requires { is_ref_name command.now.name ≡ true }
    ensures outcome { IfOk result (λ o. o ≡ by_refs repo.old.refs command.now None) }
    ensures repo { OnOk result (repo.new ≡ record { objects = repo.old.objects; refs = refs_after repo.old.refs command.now (by_refs repo.old.refs command.now None) }) }
{
    let name = RefName::known(command.name.clone()?);
    match repo.apply(&name, command.old, command.new) {
        Applied::Moved => Ok(Outcome::Done),
        Applied::Stale(value) => Ok(Outcome::Stale(value)),
        Applied::DirFile(other) => Ok(Outcome::DirFile(other)),
        Applied::NoMemory => Err(NoMemory),
    }
}

// In an atomic push that has a refusal, the other commands name the first.
fn together(alloc: Global, atomic: bool, outcomes: OutcomeList) -> Result<OutcomeList, NoMemory>
    requires { length outcomes < 2 ^ 32 }
    ensures { IfOk result (λ l. l ≡ together atomic outcomes) }
{
    if !atomic {
        return Ok(outcomes);
    }
    match first_refused(&outcomes) {
        Some(first) => beside_first(alloc, first as u32, &outcomes),
        None => Ok(outcomes),
    }
}

fn first_refused(outcomes: &OutcomeList) -> Option<usize>
    ensures first { result ≡ position (λ o. not (is_done o)) outcomes.now }
    ensures within { IfSome result (λ i. i < length outcomes.now) }
{
    outcomes.as_slice().iter().position(|o| !o.is_done())
}

fn beside_first(alloc: Global, first: u32, outcomes: &OutcomeList) -> Result<OutcomeList, NoMemory>
    ensures { IfOk result (λ l. l ≡ map (beside first) outcomes.now) }
{
    let mut list = OutcomeList::new(alloc);
    for outcome in outcomes.as_slice() {
        list.push(beside(first, outcome)?)?;
    }
    Ok(list)
}

fn beside(first: u32, outcome: &Outcome) -> Result<Outcome, NoMemory>
    ensures { IfOk result (λ o. o ≡ beside first outcome.now) }
{
    if outcome.is_done() {
        return Ok(Outcome::AtomicOther(first));
    }
    Ok(outcome.clone()?)
}

// One outcome for every command.
fn alike(alloc: Global, commands: &CommandList, outcome: &Outcome) -> Result<OutcomeList, NoMemory>
    ensures { IfOk result (λ os. os ≡ map (λ c. outcome.now) commands.now) }
{
    let mut list = OutcomeList::new(alloc);
    for _ in commands.as_slice() {
        list.push(outcome.clone()?)?;
    }
    Ok(list)
}

// The repository that is left where a command is done: with these refs, and with the fresh objects added.
fn land(
    alloc: Global,
    now: &HostedRepo,
    mut repo: Repo,
    fresh: FreshObjects,
    basis: Basis,
) -> Result<HostedRepo, NoMemory>
    requires objects { repo.objects ≡ now.now.objects }
    requires names { HasNamesOnce (now.now.objects ++ fresh.objects) }
    requires room { length now.now.objects + length fresh.objects ≤ 4294967295 }
    requires ready { IfSome fresh.before (λ before. before ≡ now.now.objects) }
    requires stands { StandsOn now.now.objects basis }
    requires left { AreLeft now.now.objects basis (now.now.objects ++ fresh.objects) }
    ensures { IfOk result (λ next. next ≡ record { objects = now.now.objects ++ fresh.objects; refs = repo.refs; creator = now.now.creator; roles = now.now.roles }) }
{
    repo.add(fresh)?;
    let closures = basis.closures_with(alloc, now, repo.count())?;
    let known = basis.known_with(alloc, now)?;
    now.with_repo(alloc, repo, known, closures)
}

fn any_done(outcomes: &OutcomeList) -> bool
    ensures { result ≡ list_any is_done outcomes.now }
{
    outcomes.as_slice().iter().any(|o| o.is_done())
}
