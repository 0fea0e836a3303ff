// What is said of one command by the opening.
ghost use Rattle.std.specs.Prelude.{◌≡◌, ◌++◌, false, IfOk, None, Ok, OnOk, Some};
ghost use Rattle.ancestry.specs.Wholeness.{missing, wrong};
ghost use Rattle.rule_compile.specs.Patterns.{AreTrue, Patterns};
ghost use Rattle.vref.specs.Facts.{AreFacts};
ghost use Rattle.hub_history.specs.declared.outcome.Outcome.TheVariants as outcome;
ghost use Rattle.hub_history.specs.Conf.{ComesTo};
ghost use Rattle.hub_history.specs.Push.{ByConf, by_command, by_new_value, by_walk, is_of_conf, kind_at, outcome_now, outcome_of};
ghost use Rattle.push_judging.specs.Judged.{conf_at, conf_of};
ghost use Rattle.push_judging.specs.Rows.{SaysByRules, SaysNow, is_no_memory};

use ancestry::{Facts, Walks, Wholeness};
use base_types::NoMemory;
use conf_groups::ConfKind;
use conf_lex::RepoName;
use git_object::{Kind, ObjectId, ObjectList};
use hub_state::{ConfInForce, Outcome, Pin};
use policy_swap::compile_at;
use ref_store::{Command, Lens, RefName};
use rule_compile::{Policy, PolicyFault};
use std::alloc::Global;
use update_check::{Refusal, UpdateCheck};

const CONF_REPO: &[u8] = b"gitolite-admin";

const CONF_BRANCH: &[u8] = b"refs/heads/master";

/// What one command is told before the refs are asked, if anything, and the conf that it would put in force,
/// if it would.
#[derive(Drop)]
pub struct JudgedCommand {
    pub outcome: Option<Outcome>,
    pub conf: Option<ConfInForce>,
}

impl JudgedCommand {
    fn nothing() -> JudgedCommand
        ensures { result ≡ record { outcome = None; conf = None } }
    {
        JudgedCommand::free(None)
    }

    pub fn free(conf: Option<ConfInForce>) -> JudgedCommand
        ensures { result ≡ record { outcome = None; conf = conf } }
    {
        JudgedCommand {
            outcome: None,
            conf,
        }
    }

    pub fn refused(outcome: Outcome) -> JudgedCommand
        ensures { result ≡ record { outcome = Some outcome; conf = None } }
    {
        JudgedCommand {
            outcome: Some(outcome),
            conf: None,
        }
    }
}

/// What the command itself and the ref as it was say.
pub fn by_command(pin: &Pin, twice: bool, command: &Command) -> Option<Outcome>
    ensures { result ≡ by_command pin.now.pinned twice command.now }
{
    if !RefName::is_name(command.name.bytes()) {
        return Some(Outcome::BadName);
    }
    if twice {
        return Some(Outcome::Twice);
    }
    if command.old == command.new {
        return Some(Outcome::NoChange);
    }
    let value = pin.repo().value(&command.name);
    if value != command.old {
        return Some(Outcome::NotAdvertised(value));
    }
    None
}

/// What the new value leads to.
pub fn by_new_value(walks: &mut Walks<'_>, command: &Command) -> Result<Option<Outcome>, NoMemory>
    ensures outcome { IfOk result (λ o. o ≡ by_new_value walks.old command.now) }
    ensures walks { walks.new ≡ walks.old }
{
    if command.new == ObjectId::zero() {
        return Ok(None);
    }
    by_walk(walks, command.new, kind_at(command.name.bytes()))
}

fn kind_at(name: &[u8]) -> Option<Kind>
    ensures { result ≡ kind_at name.now }
{
    if name.starts_with(b"refs/heads/") {
        return Some(Kind::Commit);
    }
    None
}

fn by_walk(
    walks: &mut Walks<'_>,
    id: ObjectId,
    kind: Option<Kind>,
) -> Result<Option<Outcome>, NoMemory>
    ensures outcome { IfOk result (λ o. o ≡ by_walk (missing walks.old id kind) (wrong walks.old id kind)) }
    ensures walks { walks.new ≡ walks.old }
{
    match walks.whole(id, kind) {
        Wholeness::Whole => Ok(None),
        Wholeness::Missing(id) => Ok(Some(Outcome::Missing(id))),
        Wholeness::WrongKind(id) => Ok(Some(Outcome::WrongKind(id))),
        Wholeness::NoMemory => Err(NoMemory),
    }
}

/// What the rules say that were in force at the opening.
pub fn by_rules(
    alloc: Global,
    check: &mut UpdateCheck<'_>,
    facts: &Facts,
    command: &Command,
) -> Result<Option<Outcome>, NoMemory>
    requires { AreFacts check.old.objects command.now.name command.now.old command.now.new facts.now }
    ensures said { IfOk result (λ o. (ps : Patterns) → AreTrue ps → SaysByRules ps check.old check.old.objects command.now o) }
    ensures check { check.new ≡ check.old }
{
    Ok(outcome_of(check.refusal(alloc, facts, command)?))
}

fn outcome_of(refusal: Option<Refusal>) -> Option<Outcome>
    ensures { result ≡ outcome_of refusal }
{
    match refusal {
        Some(
            Refusal::Denied {
                verdict,
                letter,
                name,
            },
        ) => Some(Outcome::Denied {
            verdict,
            letter,
            name,
        }),
        Some(Refusal::ManyPaths) => Some(Outcome::ManyPaths),
        None => None,
    }
}

/// What the rules say that are in force just before the push.
pub fn by_rules_now(
    alloc: Global,
    check: &mut UpdateCheck<'_>,
    facts: &Facts,
    command: &Command,
) -> Result<Option<Outcome>, NoMemory>
    requires { AreFacts check.old.objects command.now.name command.now.old command.now.new facts.now }
    ensures said { IfOk result (λ o. (ps : Patterns) → AreTrue ps → SaysNow ps check.old check.old.objects command.now o) }
    ensures check { check.new ≡ check.old }
{
    Ok(outcome_now(check.refusal(alloc, facts, command)?))
}

fn outcome_now(refusal: Option<Refusal>) -> Option<Outcome>
    ensures { result ≡ outcome_now refusal }
{
    match refusal {
        Some(
            Refusal::Denied {
                verdict,
                letter,
                name,
            },
        ) => Some(Outcome::DeniedNow {
            verdict,
            letter,
            name,
        }),
        Some(Refusal::ManyPaths) => Some(Outcome::ManyPathsNow),
        None => None,
    }
}

/// What the conf at the new value says, where the command is for the conf's branch.
pub fn by_conf(
    alloc: Global,
    pin: &Pin,
    lens: &Lens,
    pack: &ObjectList,
    command: &Command,
) -> Result<JudgedCommand, NoMemory>
    requires { lens.now ≡ pin.now.pinned.repository.objects ++ pack.now }
    ensures said { IfOk result (λ told. (ps : Patterns) → AreTrue ps → ByConf ps pin.now.pinned lens.now command.now told.outcome) }
    ensures conf { IfOk result (λ told. told.conf ≡ conf_of pin.now.pinned pack.now command.now told.outcome) }
{
    if !is_of_conf(pin.repo_name(), command) {
        return Ok(JudgedCommand::nothing());
    }
    match compile_at(alloc, lens, command.new) {
        Ok(policy) => renewed(alloc, pin, pack, command, policy),
        Err(fault) => refused_by(fault),
    }
}

// A conf that compiles.
fn renewed(
    alloc: Global,
    pin: &Pin,
    pack: &ObjectList,
    command: &Command,
    policy: Policy,
) -> Result<JudgedCommand, NoMemory>
    requires { (ps : Patterns) → AreTrue ps → ComesTo ps (pin.now.pinned.repository.objects ++ pack.now) command.now.new (Ok policy) }
    ensures { IfOk result (λ told. told ≡ record { outcome = None; conf = Some (conf_at pin.now.pinned pack.now command.now) }) }
{
    let objects = Lens::new(alloc, pin.repo(), pack)?;
    let conf = pin.conf().renewed(alloc, objects, command.new, policy)?;
    Ok(JudgedCommand {
        outcome: None,
        conf: Some(conf),
    })
}

// A conf that has a fault, unless memory ran out.
fn refused_by(fault: PolicyFault) -> Result<JudgedCommand, NoMemory>
    ensures ok { IfOk result (λ told. told ≡ record { outcome = Some (outcome.ConfRefused fault); conf = None }) }
    ensures memory { OnOk result (is_no_memory fault ≡ false) }
{
    if is_no_memory(&fault) {
        return Err(NoMemory);
    }
    Ok(JudgedCommand::refused(Outcome::ConfRefused(fault)))
}

fn is_no_memory(fault: &PolicyFault) -> bool
    ensures { result ≡ is_no_memory fault.now }
{
    match fault {
        PolicyFault::Splicing(fault) => matches!(fault.kind, ConfKind::NoMemory),
        PolicyFault::Rules(_) => false,
    }
}

/// Whether a command is for the branch whose commits have the conf, in the conf's repository.
pub fn is_of_conf(repo: &RepoName, command: &Command) -> bool
    ensures { result ≡ is_of_conf repo.now command.now.name }
{
    CONF_REPO == repo.bytes() && CONF_BRANCH == command.name.bytes()
}
