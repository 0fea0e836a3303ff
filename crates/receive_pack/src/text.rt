// The texts that a push is told.
ghost use Rattle.std.specs.Prelude.{◌≡◌, ◌≤◌, ◌+◌, ◌++◌, length, codes, decimal, IfOk, OnOk, if◌then◌else◌};
ghost use Rattle.git_object.specs.ObjectId.{hex_of};
ghost use Rattle.access_check.specs.Verdicts.{rule_of};
ghost use Rattle.rule_compile.specs.Faults.{policy_text};
ghost use Rattle.session_core.specs.Denials.{change_text, denial, shown};
ghost use Rattle.receive_pack.specs.Changes.{HaveShortNames};
ghost use Rattle.raw_pack.specs.Faults.{fault_text};
ghost use Rattle.receive_pack.specs.Texts.{first_line, more_line, reason, ref_at, status_text, unpack_text, unpacker_error};

use crate::reports::ReportedPush;
use access_check::{Letter, Policy, Request};
use base_types::Text;
use git_object::ObjectId;
use hub::{Outcome, Verdict};
use itoa::Buffer;
use raw_pack::PackFault;
use ref_store::{Command, CommandList, RefName};
use rule_compile::PolicyFault;
use session_core::{push_denial, shown};
use std::alloc::{AllocError, Global};

// What the line of a ref in an advertisement has at most beside the ref's name: its value, and the
// capabilities.
const MOST_BESIDE: usize = 100;

// What most lines of a report have at most beside the ref's name.
const USUAL_REASON: usize = 80;

fn push_number(text: &mut Vec<u8>, number: u64) -> Result<(), AllocError>
    ensures text { OnOk result (text.new.items ≡ text.old.items ++ decimal number) }
    ensures size { OnOk result (length text.new.items ≤ length text.old.items + 40) }
{
    let mut digits = Buffer::new();
    text.extend_from_slice(digits.format(number).as_bytes())
}

fn push_id(text: &mut Vec<u8>, id: ObjectId) -> Result<(), AllocError>
    ensures text { OnOk result (text.new.items ≡ text.old.items ++ hex_of id) }
    ensures size { OnOk result (length text.new.items ≤ length text.old.items + 40) }
{
    text.extend_from_slice(&id.hex())
}

fn push_ref(text: &mut Vec<u8>, name: &RefName) -> Result<(), AllocError>
    ensures text { OnOk result (text.new.items ≡ text.old.items ++ name.now) }
    ensures size { OnOk result (length text.new.items ≤ length text.old.items + 1024) }
{
    text.extend_from_slice(name.bytes())
}

/// The line of a ref in an advertisement. The first line bears the capabilities.
pub fn ref_line(
    alloc: Global,
    name: &[u8],
    id: ObjectId,
    first: bool,
) -> Result<Vec<u8>, AllocError>
    ensures text { IfOk result (λ v. v.items ≡ (if first then first_line (name.now, id) else more_line (name.now, id))) }
    ensures size { IfOk result (λ v. length v.items ≤ length name.now + 100) }
{
    let mut text = Vec::with_capacity(alloc, name.len() + MOST_BESIDE)?;
    push_id(&mut text, id)?;
    text.extend_from_slice(b" ")?;
    text.extend_from_slice(name)?;
    if first {
        text.extend_from_slice(b"\0report-status delete-refs no-thin atomic\n")?;
        return Ok(text);
    }
    text.extend_from_slice(b"\n")?;
    Ok(text)
}

/// What is reported of a command of a push, by the rules that were in force at its opening and by those just
/// before it.
pub fn status_line(
    alloc: Global,
    policy: &Policy,
    later: &Policy,
    push: &ReportedPush,
    command: &Command,
    outcome: &Outcome,
) -> Result<Vec<u8>, AllocError>
    requires short { HaveShortNames push.now.commands }
    ensures text { IfOk result (λ v. v.items ≡ status_text policy.now.rules later.now.rules push.now command.now.name outcome.now) }
    ensures size { IfOk result (λ v. length v.items ≤ length command.now.name + 61000) }
{
    if outcome.is_done() {
        let mut text = status_front(alloc, b"ok ", &command.name)?;
        text.extend_from_slice(b"\n")?;
        return Ok(text);
    }
    let mut text = status_front(alloc, b"ng ", &command.name)?;
    text.extend_from_slice(b" ")?;
    push_reason(&mut text, alloc, policy, later, push, outcome)?;
    text.extend_from_slice(b"\n")?;
    Ok(text)
}

// What the line of a command in a report begins with. It has room for most of what follows.
fn status_front(alloc: Global, word: &[u8], name: &Text) -> Result<Vec<u8>, AllocError>
    ensures { IfOk result (λ v. v.items ≡ word.now ++ name.now) }
{
    let mut text = Vec::with_capacity(alloc, name.bytes().len() + USUAL_REASON)?;
    text.extend_from_slice(word)?;
    text.extend_from_slice(name.bytes())?;
    Ok(text)
}

// Why a command of a push isn't done.
fn push_reason(
    text: &mut Vec<u8>,
    alloc: Global,
    policy: &Policy,
    later: &Policy,
    push: &ReportedPush,
    outcome: &Outcome,
) -> Result<(), AllocError>
    requires short { HaveShortNames push.now.commands }
    ensures text { OnOk result (text.new.items ≡ text.old.items ++ reason policy.now.rules later.now.rules push.now outcome.now) }
    ensures size { OnOk result (length text.new.items ≤ length text.old.items + 60100) }
{
    match outcome {
        Outcome::Done => Ok(()),
        Outcome::BadName => text.extend_from_slice(b"bad ref name"),
        Outcome::Twice => text.extend_from_slice(b"named twice"),
        Outcome::NoChange => text.extend_from_slice(b"no change"),
        Outcome::NotAdvertised(id) => push_named(text, b"not advertised, it was ", *id),
        Outcome::Missing(id) => push_named(text, b"missing object ", *id),
        Outcome::WrongKind(id) => push_named(text, b"wrong kind of object ", *id),
        Outcome::Denied {
            verdict,
            letter,
            name,
        } => push_denied(text, alloc, policy, push, *verdict, *letter, name),
        Outcome::ManyPaths => text.extend_from_slice(b"too many paths"),
        Outcome::ConfRefused(fault) => push_conf_fault(text, alloc, fault),
        Outcome::DeniedNow {
            verdict,
            letter,
            name,
        } => push_denied_now(text, alloc, later, push, *verdict, *letter, name),
        Outcome::ManyPathsNow => text.extend_from_slice(b"too many paths (rules at push)"),
        Outcome::Stale(id) => push_named(text, b"stale, it is ", *id),
        Outcome::DirFile(other) => push_conflict(text, other),
        Outcome::AtomicOther(place) => push_other(text, &push.commands, *place),
        Outcome::Collided(id) => push_named(text, b"name collision ", *id),
        Outcome::Full(count) => push_count(text, *count),
    }
}

// Words, and an id behind them.
fn push_named(text: &mut Vec<u8>, words: &[u8], id: ObjectId) -> Result<(), AllocError>
    ensures text { OnOk result (text.new.items ≡ text.old.items ++ (words.now ++ hex_of id)) }
    ensures size { OnOk result (length text.new.items ≤ length text.old.items + length words.now + 40) }
{
    text.extend_from_slice(words)?;
    push_id(text, id)
}

fn push_denied(
    text: &mut Vec<u8>,
    alloc: Global,
    policy: &Policy,
    push: &ReportedPush,
    verdict: Verdict,
    letter: Letter,
    name: &Text,
) -> Result<(), AllocError>
    ensures text { OnOk result (text.new.items ≡ text.old.items ++ denial (change_text letter name.now) push.now.repo push.now.user (rule_of policy.now.rules verdict)) }
    ensures size { OnOk result (length text.new.items ≤ length text.old.items + 60000) }
{
    let request = Request::Change(letter, name.bytes());
    let rule = verdict.rule(policy);
    match push_denial(alloc, text, &request, &push.repo, &push.user, rule) {
        Ok(()) => Ok(()),
        Err(_) => Err(AllocError),
    }
}

fn push_denied_now(
    text: &mut Vec<u8>,
    alloc: Global,
    later: &Policy,
    push: &ReportedPush,
    verdict: Verdict,
    letter: Letter,
    name: &Text,
) -> Result<(), AllocError>
    ensures text { OnOk result (text.new.items ≡ text.old.items ++ (denial (change_text letter name.now) push.now.repo push.now.user (rule_of later.now.rules verdict) ++ codes " (rules at push)")) }
    ensures size { OnOk result (length text.new.items ≤ length text.old.items + 60100) }
{
    push_denied(text, alloc, later, push, verdict, letter, name)?;
    text.extend_from_slice(b" (rules at push)")
}

fn push_conf_fault(text: &mut Vec<u8>, alloc: Global, fault: &PolicyFault) -> Result<(), AllocError>
    ensures text { OnOk result (text.new.items ≡ text.old.items ++ (codes "conf refused: " ++ shown (policy_text fault.now))) }
    ensures size { OnOk result (length text.new.items ≤ length text.old.items + 9000) }
{
    let Ok(why) = fault.text(alloc) else {
        return Err(AllocError);
    };
    text.extend_from_slice(b"conf refused: ")?;
    text.extend_from_slice(shown(why.bytes()))?;
    Ok(())
}

fn push_conflict(text: &mut Vec<u8>, other: &RefName) -> Result<(), AllocError>
    ensures text { OnOk result (text.new.items ≡ text.old.items ++ (codes "conflicts with " ++ other.now)) }
    ensures size { OnOk result (length text.new.items ≤ length text.old.items + 1100) }
{
    text.extend_from_slice(b"conflicts with ")?;
    push_ref(text, other)
}

fn push_other(text: &mut Vec<u8>, commands: &CommandList, place: u32) -> Result<(), AllocError>
    requires short { HaveShortNames commands.now }
    ensures text { OnOk result (text.new.items ≡ text.old.items ++ (codes "atomic push refused with " ++ ref_at commands.now place)) }
    ensures size { OnOk result (length text.new.items ≤ length text.old.items + 1100) }
{
    text.extend_from_slice(b"atomic push refused with ")?;
    push_ref_at(text, commands, place)
}

fn push_count(text: &mut Vec<u8>, count: u64) -> Result<(), AllocError>
    ensures text { OnOk result (text.new.items ≡ text.old.items ++ (codes "repository would have " ++ decimal count ++ codes " objects")) }
    ensures size { OnOk result (length text.new.items ≤ length text.old.items + 100) }
{
    text.extend_from_slice(b"repository would have ")?;
    push_number(text, count)?;
    text.extend_from_slice(b" objects")
}

// The ref of the command of a place.
fn push_ref_at(text: &mut Vec<u8>, commands: &CommandList, place: u32) -> Result<(), AllocError>
    requires short { HaveShortNames commands.now }
    ensures text { OnOk result (text.new.items ≡ text.old.items ++ ref_at commands.now place) }
    ensures size { OnOk result (length text.new.items ≤ length text.old.items + 1024) }
{
    let Some(command) = commands.get(place as usize) else {
        return Ok(());
    };
    text.extend_from_slice(command.name.bytes())
}

/// What is reported of a pack that isn't taken.
pub fn unpack_line(alloc: Global, fault: PackFault) -> Result<Vec<u8>, AllocError>
    ensures text { IfOk result (λ v. v.items ≡ unpack_text fault) }
    ensures size { IfOk result (λ v. length v.items ≤ 100) }
{
    let mut text = Vec::from_slice(alloc, b"unpack ")?;
    push_fault(&mut text, fault)?;
    text.extend_from_slice(b"\n")?;
    Ok(text)
}

// Why a pack isn't taken.
fn push_fault(text: &mut Vec<u8>, fault: PackFault) -> Result<(), AllocError>
    ensures text { OnOk result (text.new.items ≡ text.old.items ++ fault_text fault) }
    ensures size { OnOk result (length text.new.items ≤ length text.old.items + 65) }
{
    match fault {
        PackFault::NotAPack => text.extend_from_slice(b"not a pack"),
        PackFault::Version(number) => push_numbered(text, b"version ", number),
        PackFault::Delta(entry) => push_numbered(text, b"delta at entry ", entry),
        PackFault::BadHead(entry) => push_numbered(text, b"bad head at entry ", entry),
        PackFault::BadObject(entry) => push_numbered(text, b"bad object at entry ", entry),
        PackFault::Truncated(entry) => push_numbered(text, b"truncated at entry ", entry),
        PackFault::TrailerDiffers { .. } => text.extend_from_slice(b"trailer differs"),
        PackFault::TooLarge(entry) => push_numbered(text, b"too large at entry ", entry),
        PackFault::TooMany(_) => text.extend_from_slice(b"too many entries"),
        PackFault::ReadFault => text.extend_from_slice(b"read failed"),
        PackFault::NoMemory => text.extend_from_slice(b"out of memory"),
    }
}

// Words, and a number behind them.
fn push_numbered(text: &mut Vec<u8>, words: &[u8], number: u32) -> Result<(), AllocError>
    ensures text { OnOk result (text.new.items ≡ text.old.items ++ (words.now ++ decimal number)) }
    ensures size { OnOk result (length text.new.items ≤ length text.old.items + length words.now + 40) }
{
    text.extend_from_slice(words)?;
    push_number(text, u64::from(number))
}

/// What is reported of the ref of a command whose pack isn't taken.
pub fn error_line(alloc: Global, command: &Command) -> Result<Vec<u8>, AllocError>
    ensures text { IfOk result (λ v. v.items ≡ unpacker_error command.now) }
    ensures size { IfOk result (λ v. length v.items ≤ length command.now.name + 100) }
{
    let mut text = Vec::from_slice(alloc, b"ng ")?;
    text.extend_from_slice(command.name.bytes())?;
    text.extend_from_slice(b" unpacker error\n")?;
    Ok(text)
}
