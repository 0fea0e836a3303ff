// All commands of a push.
ghost use Rattle.std.specs.Prelude.{◌≡◌, ◌++◌, IfOk, IsTrue, false};
ghost use Rattle.std.specs.FinMap as map;
ghost use Rattle.std.specs.Option.{option_map_or};
ghost use Rattle.ancestry.specs.Closures.{AreClosures};
ghost use Rattle.ancestry.specs.Known.{AreFound, AreKnown};
ghost use Rattle.ref_store.specs.Objects.{with_pack};
ghost use Rattle.ref_store.specs.Refs.{Name};
ghost use Rattle.rule_compile.specs.Patterns.{AreTrue, Patterns};
ghost use Rattle.vref.specs.Facts.{AreFacts};
ghost use Rattle.hub_history.specs.Opening.{pinned_in_force};
ghost use Rattle.hub_history.specs.Push.{JudgesAll, is_named_twice};
ghost use Rattle.hub_state.specs.Prepared.{IsPrepared};
ghost use Rattle.push_judging.specs.Counting.{Counts, TellsOfSeveral};
ghost use Rattle.push_judging.specs.Judged.{AreFactsOf, IsJudgement, conf_of, confs_of};
ghost use Rattle.push_judging.specs.Rows.{IsCheckOf, Tells};

use crate::rows::{JudgedCommand, by_command, by_conf, by_new_value, by_rules};
use ancestry::{Closures, Facts, Findings, Known, Walks, closures_of};
use base_types::{NameMap, NoMemory, Text};
use git_object::{ObjectId, ObjectList};
use hub_state::{ConfInForce, Outcome, Pin, PreparedPack};
use ref_store::{Command, CommandList, Compared, FreshObjects, Lens, Repo};
use std::alloc::Global;
use std::marker::Model;
use update_check::UpdateCheck;
use vref::facts_of_all;
use wild_perms::Wild;

// Of so many refs that a push moves what their values lead to is made.
const MANY: usize = 4;

// The branch that `HEAD` names.
const HEAD: &[u8] = b"refs/heads/master";

/// What each command of a push is told before the refs are asked, if anything, and the conf that each would
/// put in force, if it would.
#[derive(Drop)]
pub struct CommandOutcomes {
    pub outcomes: Vec<Option<Outcome>>,
    pub confs: Vec<Option<ConfInForce>>,
}

/// What each command of a push is told by its opening, the pack and the commands alone; the facts of each
/// change; and what was found out of the pack on the way.
#[derive(Drop)]
pub struct Judged {
    told: CommandOutcomes,
    facts: Vec<Facts>,
    pack: PreparedPack,
    pub(crate) again: Option<Again>,
}

/// What the commands of a push are told by the conf at its opening, and by this creator and these roles.
#[derive(Drop)]
pub struct Again {
    pub(crate) wild: Wild,
    pub(crate) told: CommandOutcomes,
}

impl Model for Judged {
    ghost use Rattle.push_judging.specs.Again.{view_of};
    ghost use Rattle.push_judging.specs.Judged.{Judgement};

    ghost Value = { Judgement };

    ghost view = { λ j. record { outcomes = j.told.outcomes.items; confs = j.told.confs.items; facts = j.facts.items; before = j.pack.before; objects = j.pack.objects; again = view_of j.again } };
}

impl Judged {
    pub fn outcomes(&self) -> &[Option<Outcome>]
        ensures { result.now ≡ self.now.outcomes }
    {
        &self.told.outcomes
    }

    // The confs, the facts, and the objects among which they were found.
    pub(crate) fn confs(&self) -> &[Option<ConfInForce>]
        ensures { result.now ≡ self.now.confs }
    {
        &self.told.confs
    }

    pub(crate) fn facts(&self) -> &[Facts]
        ensures { result.now ≡ self.now.facts }
    {
        &self.facts
    }

    pub(crate) fn lens(&self) -> &Lens
        ensures { result.now ≡ self.now.objects }
    {
        self.pack.lens()
    }

    /// The outcomes and the confs, and what was found out of the pack.
    pub fn into_parts(self) -> (CommandOutcomes, PreparedPack)
        ensures outcomes { result.0.outcomes.items ≡ self.outcomes }
        ensures confs { result.0.confs.items ≡ self.confs }
        ensures pack { result.1 ≡ record { before = self.before; objects = self.objects } }
    {
        let Judged {
            told,
            facts: _,
            pack,
            again: _,
        } = self;
        (told, pack)
    }
}

/// Judges each command of a push. The hub isn't looked at, so nothing needs to be held meanwhile.
///
/// It costs the pack, and the objects that new values lead to before they come to what an earlier push found
/// to be whole. Each of those objects is visited once, whatever the number of commands and whatever they are
/// told; only where links lead in a circle does each command walk by itself, along all that it meets. The
/// facts of all changes cost what `vref::facts_of_all` does, and what the rules say of one costs what
/// `UpdateCheck::refusal` does. A command for the conf's branch costs the conf at its new value.
///
/// Where a command may still be done, it also makes what will be put in place then: the segments with the
/// pack's objects, and a join of what was found out with what is known. A push that is refused makes neither,
/// unless it brings no objects, whose findings are kept. `atomic` tells that the commands are done together
/// or not at all; nothing that is told depends on it.
pub fn judge(
    alloc: Global,
    pin: &Pin,
    pack: &ObjectList,
    commands: &CommandList,
    atomic: bool,
) -> Result<Judged, NoMemory>
    ensures { IfOk result (IsJudgement pin.now.pinned pack.now commands.now) }
{
    let lens = Lens::new(alloc, pin.repo(), pack)?;
    let AllJudged {
        told,
        facts,
        findings,
    } = judge_all(alloc, pin, &lens, pack, commands.as_slice())?;
    let pending = is_pending(&told.outcomes, atomic);
    let pack = prepared_pack(
        alloc,
        pin,
        lens,
        pack,
        commands.as_slice(),
        &told.outcomes,
        findings,
        pending,
    )?;
    Ok(Judged {
        told,
        facts,
        pack,
        again: None,
    })
}

// What all commands are told, the facts of their changes, and what walks found out.
#[derive(Drop)]
struct AllJudged {
    told: CommandOutcomes,
    facts: Vec<Facts>,
    findings: Findings,
}

fn judge_all(
    alloc: Global,
    pin: &Pin,
    lens: &Lens,
    pack: &ObjectList,
    commands: &[Command],
) -> Result<AllJudged, NoMemory>
    requires { lens.now ≡ pin.now.pinned.repository.objects ++ pack.now }
    ensures outcomes { IfOk result (λ all. (ps : Patterns) → AreTrue ps → JudgesAll ps pin.now.pinned pack.now commands.now all.told.outcomes.items) }
    ensures confs { IfOk result (λ all. all.told.confs.items ≡ confs_of pin.now.pinned pack.now commands.now all.told.outcomes.items) }
    ensures facts { IfOk result (λ all. AreFactsOf lens.now commands.now all.facts.items) }
    ensures found { IfOk result (λ all. AreFound lens.now all.findings) }
{
    let names = names_of(alloc, commands)?;
    let known = known_with(alloc, pin, pack)?;
    let facts = facts_of_all(alloc, lens, &known, commands)?;
    let mut walks = Walks::knowing(alloc, lens, known);
    let told = judge_each(alloc, pin, lens, pack, commands, &names, &facts, &mut walks)?;
    let findings = walks.into_findings()?;
    Ok(AllJudged {
        told,
        facts,
        findings,
    })
}

fn judge_each(
    alloc: Global,
    pin: &Pin,
    lens: &Lens,
    pack: &ObjectList,
    commands: &[Command],
    names: &NameMap<bool>,
    all_facts: &[Facts],
    walks: &mut Walks<'_>,
) -> Result<CommandOutcomes, NoMemory>
    requires lens { lens.now ≡ pin.now.pinned.repository.objects ++ pack.now }
    requires names { TellsOfSeveral names.now commands.now }
    requires facts { AreFactsOf lens.now commands.now all_facts.now }
    requires walks { walks.old ≡ lens.now }
    ensures outcomes { IfOk result (λ each. (ps : Patterns) → AreTrue ps → JudgesAll ps pin.now.pinned pack.now commands.now each.outcomes.items) }
    ensures confs { IfOk result (λ each. each.confs.items ≡ confs_of pin.now.pinned pack.now commands.now each.outcomes.items) }
    ensures walks { walks.new ≡ walks.old }
{
    let mut check = UpdateCheck::new(
        alloc,
        pin.policy(),
        pin.wild(),
        pin.repo_name(),
        pin.user(),
        lens,
    );
    let mut outcomes = Vec::with_capacity(alloc, commands.len())?;
    let mut confs = Vec::with_capacity(alloc, commands.len())?;
    for k in 0..commands.len() {
        let command = &commands[k];
        let facts = &all_facts[k];
        let twice = is_named_twice(names, command);
        let JudgedCommand { outcome, conf } = judge_command(
            alloc, pin, lens, pack, &mut check, walks, facts, twice, command,
        )?;
        outcomes.push(outcome)?;
        confs.push(conf)?;
    }
    Ok(CommandOutcomes { outcomes, confs })
}

// What one command is told.
fn judge_command(
    alloc: Global,
    pin: &Pin,
    lens: &Lens,
    pack: &ObjectList,
    check: &mut UpdateCheck<'_>,
    walks: &mut Walks<'_>,
    facts: &Facts,
    twice: bool,
    command: &Command,
) -> Result<JudgedCommand, NoMemory>
    requires lens { lens.now ≡ pin.now.pinned.repository.objects ++ pack.now }
    requires walks { walks.old ≡ lens.now }
    requires check { IsCheckOf (pinned_in_force pin.now.pinned) pin.now.pinned check.old }
    requires among { check.old.objects ≡ lens.now }
    requires facts { AreFacts lens.now command.now.name command.now.old command.now.new facts.now }
    ensures said { IfOk result (λ told. (ps : Patterns) → AreTrue ps → Tells ps pin.now.pinned pack.now twice command.now told.outcome) }
    ensures conf { IfOk result (λ told. told.conf ≡ conf_of pin.now.pinned pack.now command.now told.outcome) }
    ensures walks { walks.new ≡ walks.old }
    ensures check { check.new ≡ check.old }
{
    if let Some(outcome) = by_command(pin, twice, command) {
        return Ok(JudgedCommand::refused(outcome));
    }
    if let Some(outcome) = by_new_value(walks, command)? {
        return Ok(JudgedCommand::refused(outcome));
    }
    if let Some(outcome) = by_rules(alloc, check, facts, command)? {
        return Ok(JudgedCommand::refused(outcome));
    }
    by_conf(alloc, pin, lens, pack, command)
}

// Whether a command of a push may still be done.
fn is_pending(outcomes: &[Option<Outcome>], atomic: bool) -> bool {
    if atomic {
        return outcomes.iter().all(|outcome| outcome.is_none());
    }
    outcomes.iter().any(|outcome| outcome.is_none())
}

// What was found out of a pack beside the repository of the opening.
fn prepared_pack(
    alloc: Global,
    pin: &Pin,
    lens: Lens,
    pack: &ObjectList,
    commands: &[Command],
    outcomes: &[Option<Outcome>],
    findings: Findings,
    pending: bool,
) -> Result<PreparedPack, NoMemory>
    requires lens { lens ≡ pin.now.pinned.repository.objects ++ pack.now }
    requires found { AreFound lens findings }
    ensures { IfOk result (λ p. p ≡ record { before = pin.now.pinned.repository.objects; objects = lens }) }
{
    let repo = pin.repo().copy()?;
    let closures = closures_of_tips(alloc, &repo, pin.closures(), commands, outcomes)?;
    let known = known_behind(alloc, pin, pack, &findings, pending)?;
    let fresh = fresh_in(&repo, &lens, pack, pending)?;
    let grown_closures = closures_of_import(alloc, &repo, &fresh, &lens, pack, commands, outcomes)?;
    Ok(PreparedPack::new(repo, lens, findings, known, closures, grown_closures, fresh))
}

// What the new values lead to of those refs that may still be moved, where a pack brings as many objects as
// there were: so a clone behind an import finds them, and all imports together cost what they bring.
fn closures_of_import(
    alloc: Global,
    repo: &Repo,
    fresh: &Option<FreshObjects>,
    lens: &Lens,
    pack: &ObjectList,
    commands: &[Command],
    outcomes: &[Option<Outcome>],
) -> Result<Closures, NoMemory>
    requires lens { lens.now ≡ repo.now.objects ++ pack.now }
    requires fresh { IsPrepared repo.now.objects lens.now fresh.now }
    ensures { IfOk result (AreClosures (with_pack repo.now.objects pack.now)) }
{
    let Some(fresh) = fresh else {
        return Ok(Closures::none(alloc));
    };
    let Some(grown) = repo.grown_by(fresh)? else {
        return Ok(Closures::none(alloc));
    };
    if grown.count() / 2 < repo.count() {
        return Ok(Closures::none(alloc));
    }
    let tips = new_values(alloc, commands, outcomes)?;
    closures_of(alloc, &grown, &Closures::none(alloc), &tips)
}

// The new values of at most so many refs that may still be moved.
fn new_values(
    alloc: Global,
    commands: &[Command],
    outcomes: &[Option<Outcome>],
) -> Result<Vec<ObjectId>, NoMemory> {
    let mut tips = Vec::new(alloc);
    for k in 0..commands.len().min(outcomes.len()) {
        if tips.len() < MANY && outcomes[k].is_none() {
            tips.push(commands[k].new)?;
        }
    }
    Ok(tips)
}

// What the values lead to of those refs that may still be moved, and of `HEAD`, on which topics build.
fn closures_of_tips(
    alloc: Global,
    repo: &Repo,
    kept: &Closures,
    commands: &[Command],
    outcomes: &[Option<Outcome>],
) -> Result<Closures, NoMemory>
    requires { AreClosures repo.now.objects kept.now }
    ensures { IfOk result (AreClosures repo.now.objects) }
{
    let tips = tips_of(alloc, repo, commands, outcomes)?;
    closures_of(alloc, repo, kept, &tips)
}

// These values; none where no command may be done.
fn tips_of(
    alloc: Global,
    repo: &Repo,
    commands: &[Command],
    outcomes: &[Option<Outcome>],
) -> Result<Vec<ObjectId>, NoMemory> {
    let mut tips = Vec::new(alloc);
    if !is_pending(outcomes, false) {
        return Ok(tips);
    }
    for k in 0..commands.len().min(outcomes.len()) {
        if tips.len() < MANY && outcomes[k].is_none() && is_moved_from(repo, &commands[k]) {
            tips.push(commands[k].old)?;
        }
    }
    let head = repo.value(&Text::of(alloc, HEAD)?);
    if head != ObjectId::zero() {
        tips.push(head)?;
    }
    Ok(tips)
}

// Whether a command moves a ref from the value that it has.
fn is_moved_from(repo: &Repo, command: &Command) -> bool {
    command.old != ObjectId::zero() && repo.value(&command.name) == command.old
}

// What a pack adds to a repository, with the segments that it has then where a command may be done.
fn fresh_in(
    repo: &Repo,
    lens: &Lens,
    pack: &ObjectList,
    pending: bool,
) -> Result<Option<FreshObjects>, NoMemory>
    requires { lens.now ≡ repo.now.objects ++ pack.now }
    ensures { IfOk result (IsPrepared repo.now.objects lens.now) }
{
    match repo.compare_in(lens, pack) {
        Compared::Fresh(fresh) => {
            if !pending {
                return Ok(Some(fresh));
            }
            Ok(Some(repo.prepare(fresh)?))
        }
        Compared::Collision { .. } | Compared::Full(_) => Ok(None),
        Compared::NoMemory => Err(NoMemory),
    }
}

// What is known of the opening's objects with those of a pack behind them.
fn known_with(alloc: Global, pin: &Pin, pack: &ObjectList) -> Result<Known, NoMemory>
    ensures { IfOk result (AreKnown (pin.now.pinned.repository.objects ++ pack.now)) }
{
    if pack.is_empty() {
        return Ok(pin.known().clone()?);
    }
    pin.known().grown(alloc)
}

// The same, with what walks found out, where it will be kept: a command may be done, or the push brings no
// objects.
fn known_behind(
    alloc: Global,
    pin: &Pin,
    pack: &ObjectList,
    findings: &Findings,
    pending: bool,
) -> Result<Known, NoMemory>
    requires { AreFound (pin.now.pinned.repository.objects ++ pack.now) findings.now }
    ensures { IfOk result (AreKnown (pin.now.pinned.repository.objects ++ pack.now)) }
{
    let known = known_with(alloc, pin, pack)?;
    if !pending && !pack.is_empty() {
        return Ok(known);
    }
    known.with(alloc, findings)
}

// The refs that several commands are for. Where each name is behind the one before, as git sends them, there
// are none.
fn names_of(alloc: Global, commands: &[Command]) -> Result<NameMap<bool>, NoMemory>
    ensures { IfOk result (λ names. TellsOfSeveral names commands.now) }
{
    if ascend(commands) {
        return Ok(NameMap::new(alloc));
    }
    counted_names(alloc, commands)
}

// Whether each name is behind the one before.
fn ascend(commands: &[Command]) -> bool
    ensures { IsTrue result → (name : Name) → is_named_twice commands.now name ≡ false }
{
    for k in 1..commands.len() {
        if commands[k - 1].name >= commands[k].name {
            return false;
        }
    }
    true
}

// The refs of the commands, each with whether there are several commands for it.
fn counted_names(alloc: Global, commands: &[Command]) -> Result<NameMap<bool>, NoMemory>
    ensures { IfOk result (λ names. Counts names commands.now) }
{
    let mut names = NameMap::new(alloc);
    for command in commands {
        let again = names.get(&command.name).is_some();
        names.insert(command.name.clone()?, again)?;
    }
    Ok(names)
}

fn is_named_twice(names: &NameMap<bool>, command: &Command) -> bool
    ensures { result ≡ option_map_or (λ twice. twice) (map.get names.now command.now.name) false }
{
    match names.get(&command.name) {
        Some(twice) => *twice,
        None => false,
    }
}
