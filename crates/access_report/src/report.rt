// A report over one conf, and what changes from one conf to another.
ghost use Rattle.std.specs.Prelude.{◌≡◌, ◌++◌, [], ◌≤◌, length, IfErr, IfOk, List, OnOk, Some};
ghost use Rattle.std.specs.Io.KnownBytes.{Appends};
ghost use Rattle.std.specs.List.{flat_map, list_any};
ghost use Rattle.pktline_core.specs.Links.{IsLater};
ghost use Rattle.rule_compile.specs.Patterns.{AreTrue, Patterns};
ghost use Rattle.access_report.specs.Answers.{Remembers, all_questions, listed, question_at};
ghost use Rattle.access_check.specs.Questions.{Leads};
ghost use Rattle.access_report.specs.Marks.{AreDeciding};
ghost use Rattle.access_report.specs.Changes.{RememberBoth, changed_at};
ghost use Rattle.access_report.specs.Report.{all_changes, change_lines, changed, change_report, changed_count, covers_asked, differ, idle_line_of, idle_number, is_allowed, question_lines, report};
ghost use Rattle.access_report.specs.Text.{change_line, question_line};
ghost use Rattle.access_report.specs.declared.answers.Question as asked_question;
ghost use Rattle.access_report.specs.Writing.{HandsOn, StopsInside, TellsWrites, fault_text};

use crate::answers::{Memo, Question};
use crate::lists::{AskedRepo, Questions};
use crate::marks::Marks;
use crate::text::{push_change_line, push_question};
use access_check::{Policy, Verdict};
use base_types::NoMemory;
use itoa::Buffer;
use pktline_core::{Sink, WriteFault, write_all};
use rule_compile::Rule;
use std::alloc::{AllocError, Global};
use std::error::Error;
use std::fmt;

/// Why a report isn't written whole.
#[derive(Clone, Copy, Debug, PartialEq, Eq)]
pub enum ReportFault {
    /// A write of the sink failed.
    WriteFault = 1,
    NoMemory = 2,
}

impl fmt::Display for ReportFault {
    ghost output = { λ fault. Some (fault_text fault) };

    fn fmt<W: fmt::Write>(&self, f: &mut fmt::Formatter<W>) -> fmt::Result {
        match self {
            ReportFault::WriteFault => write!(f, "write failed"),
            ReportFault::NoMemory => write!(f, "out of memory"),
        }
    }
}

impl Error for ReportFault {}

impl From<NoMemory> for ReportFault {
    ghost use Rattle.access_report.specs.declared.report.ReportFault.TheVariants as fault;

    ghost from_gives = { λ _ e. e ≡ fault.NoMemory };

    fn from(_: NoMemory) -> ReportFault {
        ReportFault::NoMemory
    }
}

impl From<AllocError> for ReportFault {
    ghost use Rattle.access_report.specs.declared.report.ReportFault.TheVariants as fault;

    ghost from_gives = { λ _ e. e ≡ fault.NoMemory };

    fn from(_: AllocError) -> ReportFault {
        ReportFault::NoMemory
    }
}

// How many bytes are gathered before they are written.
const CHUNK: usize = 65_536;

/// Writes a text whole.
pub(crate) fn print_text<O: Sink>(sink: &mut O, text: &[u8]) -> Result<(), ReportFault>
    ensures ok { OnOk result (Appends (O.state sink.old).written (O.state sink.new).written text.now) }
    ensures err { IfErr result (StopsInside (O.state sink.old) (O.state sink.new) text.now) }
    ensures tells { TellsWrites (O.state sink.old) (O.state sink.new) result }
    ensures later { IsLater (O.state sink.old) (O.state sink.new) }
{
    match write_all(sink, text) {
        Ok(()) => Ok(()),
        Err(WriteFault::Failed) => Err(ReportFault::WriteFault),
        Err(WriteFault::NoMemory) => Err(ReportFault::NoMemory),
    }
}

// Writes what waits.
fn write_waiting<O: Sink>(sink: &mut O, waiting: &mut Vec<u8>) -> Result<(), ReportFault>
    ensures ok { OnOk result (Appends (O.state sink.old).written (O.state sink.new).written waiting.old.items) }
    ensures empty { OnOk result (waiting.new.items ≡ []) }
    ensures err { IfErr result (StopsInside (O.state sink.old) (O.state sink.new) waiting.old.items) }
    ensures tells { TellsWrites (O.state sink.old) (O.state sink.new) result }
    ensures later { IsLater (O.state sink.old) (O.state sink.new) }
{
    print_text(sink, waiting)?;
    waiting.clear();
    Ok(())
}

// Writes what waits once that is much.
fn write_if_much<O: Sink>(sink: &mut O, waiting: &mut Vec<u8>) -> Result<(), ReportFault>
    ensures ok { OnOk result (HandsOn (O.state sink.old) (O.state sink.new) [] waiting.new.items waiting.old.items) }
    ensures err { IfErr result (StopsInside (O.state sink.old) (O.state sink.new) waiting.old.items) }
    ensures tells { TellsWrites (O.state sink.old) (O.state sink.new) result }
    ensures later { IsLater (O.state sink.old) (O.state sink.new) }
{
    if waiting.len() < CHUNK {
        return Ok(());
    }
    write_waiting(sink, waiting)
}

// Prints the line of a question.
fn print_question<O: Sink>(
    sink: &mut O,
    waiting: &mut Vec<u8>,
    asked: &Questions,
    question: &Question,
) -> Result<(), ReportFault>
    ensures ok { OnOk result (HandsOn (O.state sink.old) (O.state sink.new) waiting.old.items waiting.new.items (question_line asked.now question.now)) }
    ensures err { IfErr result (StopsInside (O.state sink.old) (O.state sink.new) (waiting.old.items ++ question_line asked.now question.now)) }
    ensures tells { TellsWrites (O.state sink.old) (O.state sink.new) result }
    ensures later { IsLater (O.state sink.old) (O.state sink.new) }
{
    push_question(waiting, asked, question)?;
    write_if_much(sink, waiting)
}

// What is kept from one question to the next.
#[derive(Drop)]
pub(crate) struct Walk {
    memo: Memo,
    marks: Marks,
}

// Prints the line of the question at a place, and marks the rule that decides it.
fn print_at<O: Sink>(
    sink: &mut O,
    waiting: &mut Vec<u8>,
    policy: &Policy,
    asked: &Questions,
    walk: &mut Walk,
    at: u64,
) -> Result<(), ReportFault>
    requires { (ps : Patterns) → AreTrue ps → Remembers ps policy.now asked.now walk.old.memo }
    ensures ok { OnOk result ((ps : Patterns) → AreTrue ps → HandsOn (O.state sink.old) (O.state sink.new) waiting.old.items waiting.new.items (flat_map (question_line asked.now) (listed (question_at ps policy.now asked.now at)))) }
    ensures marks { (ps : Patterns) → AreTrue ps → (before : List asked_question.Question) → AreDeciding walk.old.marks.marks.items before → AreDeciding walk.new.marks.marks.items (before ++ listed (question_at ps policy.now asked.now at)) }
    ensures length { length walk.new.marks.marks.items ≡ length walk.old.marks.marks.items }
    ensures remembers { (ps : Patterns) → AreTrue ps → Remembers ps policy.now asked.now walk.new.memo }
    ensures err { IfErr result (λ fault. (ps : Patterns) → AreTrue ps → StopsInside (O.state sink.old) (O.state sink.new) (waiting.old.items ++ flat_map (question_line asked.now) (listed (question_at ps policy.now asked.now at))) fault) }
    ensures tells { TellsWrites (O.state sink.old) (O.state sink.new) result }
    ensures later { IsLater (O.state sink.old) (O.state sink.new) }
{
    let Some(question) = walk.memo.question(policy, asked, at) else {
        return Ok(());
    };
    walk.marks.mark(question.verdict);
    print_question(sink, waiting, asked, &question)
}

// Prints the lines of all questions, and marks the rules that decide one.
fn print_questions<O: Sink>(
    sink: &mut O,
    waiting: &mut Vec<u8>,
    policy: &Policy,
    asked: &Questions,
    walk: &mut Walk,
) -> Result<(), ReportFault>
    requires remembers { (ps : Patterns) → AreTrue ps → Remembers ps policy.now asked.now walk.old.memo }
    requires none { AreDeciding walk.old.marks.marks.items [] }
    ensures ok { OnOk result ((ps : Patterns) → AreTrue ps → HandsOn (O.state sink.old) (O.state sink.new) waiting.old.items waiting.new.items (question_lines ps policy.now asked.now)) }
    ensures marks { OnOk result ((ps : Patterns) → AreTrue ps → AreDeciding walk.new.marks.marks.items (all_questions ps policy.now asked.now)) }
    ensures length { length walk.new.marks.marks.items ≡ length walk.old.marks.marks.items }
    ensures err { IfErr result (λ fault. (ps : Patterns) → AreTrue ps → StopsInside (O.state sink.old) (O.state sink.new) (waiting.old.items ++ question_lines ps policy.now asked.now) fault) }
    ensures tells { TellsWrites (O.state sink.old) (O.state sink.new) result }
    ensures later { IsLater (O.state sink.old) (O.state sink.new) }
{
    for at in 0..asked.count() {
        print_at(sink, waiting, policy, asked, walk, at)?;
    }
    Ok(())
}

// Whether a rule covers a repository that is asked of.
fn covers_some(policy: &Policy, asked: &Questions, rule: &Rule) -> bool
    requires { Leads policy.now.rules rule.now }
    ensures { (ps : Patterns) → AreTrue ps → result ≡ list_any (covers_asked ps rule.now) asked.now.repos }
{
    let repos = asked.repos();
    for repo in repos {
        if covers_asked(policy, rule, repo) {
            return true;
        }
    }
    false
}

// Whether a rule covers a repository, for its creator.
#[tactic(auto, using(access_check::proofs::RuleLemmas::is_number))]
fn covers_asked(policy: &Policy, rule: &Rule, repo: &AskedRepo) -> bool
    requires { Leads policy.now.rules rule.now }
    ensures { (ps : Patterns) → AreTrue ps → result ≡ covers_asked ps rule.now repo.now }
{
    policy.covers_repo(rule.seq, &repo.name, repo.wild.creator())
}

// A space, and the number of a rule that is idle.
fn push_if_idle(
    text: &mut Vec<u8>,
    policy: &Policy,
    asked: &Questions,
    marks: &Marks,
    rule: &Rule,
) -> Result<(), NoMemory>
    requires { Leads policy.now.rules rule.now }
    ensures { OnOk result ((ps : Patterns) → AreTrue ps → (questions : List asked_question.Question) → AreDeciding marks.now.marks.items questions → length marks.now.marks.items ≡ length policy.now.rules → text.new.items ≡ text.old.items ++ idle_number ps asked.now questions rule.now) }
{
    if marks.has(rule.seq) || !covers_some(policy, asked, rule) {
        return Ok(());
    }
    text.extend_from_slice(b" ")?;
    text.extend_from_slice(Buffer::new().format(rule.seq).as_bytes())?;
    Ok(())
}

// The numbers of the rules that are idle.
fn push_idle(
    text: &mut Vec<u8>,
    policy: &Policy,
    asked: &Questions,
    marks: &Marks,
) -> Result<(), NoMemory>
    ensures { OnOk result ((ps : Patterns) → AreTrue ps → (questions : List asked_question.Question) → AreDeciding marks.now.marks.items questions → length marks.now.marks.items ≡ length policy.now.rules → text.new.items ≡ text.old.items ++ flat_map (idle_number ps asked.now questions) policy.now.rules) }
{
    let rules = policy.rules();
    for rule in rules {
        push_if_idle(text, policy, asked, marks, rule)?;
    }
    Ok(())
}

// Which rules are idle.
#[tactic(auto, unfolding(crate::specs::Report::idle_line_of))]
fn push_idle_line(
    text: &mut Vec<u8>,
    policy: &Policy,
    asked: &Questions,
    marks: &Marks,
) -> Result<(), NoMemory>
    ensures { OnOk result ((ps : Patterns) → AreTrue ps → (questions : List asked_question.Question) → AreDeciding marks.now.marks.items questions → length marks.now.marks.items ≡ length policy.now.rules → text.new.items ≡ text.old.items ++ idle_line_of ps policy.now asked.now questions) }
{
    text.extend_from_slice(b"idle")?;
    push_idle(text, policy, asked, marks)?;
    text.extend_from_slice(b"\n")?;
    Ok(())
}

// Prints which rules are idle.
fn print_idle<O: Sink>(
    sink: &mut O,
    waiting: &mut Vec<u8>,
    policy: &Policy,
    asked: &Questions,
    marks: &Marks,
) -> Result<(), ReportFault>
    requires { length marks.now.marks.items ≡ length policy.now.rules }
    ensures ok { OnOk result ((ps : Patterns) → AreTrue ps → (questions : List asked_question.Question) → AreDeciding marks.now.marks.items questions → Appends (O.state sink.old).written (O.state sink.new).written (waiting.old.items ++ idle_line_of ps policy.now asked.now questions)) }
    ensures err { IfErr result (λ fault. (ps : Patterns) → AreTrue ps → (questions : List asked_question.Question) → AreDeciding marks.now.marks.items questions → StopsInside (O.state sink.old) (O.state sink.new) (waiting.old.items ++ idle_line_of ps policy.now asked.now questions) fault) }
    ensures tells { TellsWrites (O.state sink.old) (O.state sink.new) result }
    ensures later { IsLater (O.state sink.old) (O.state sink.new) }
{
    push_idle_line(waiting, policy, asked, marks)?;
    write_waiting(sink, waiting)
}

/// Writes a report: a line for each question, in order, and the rules that cover a repository that is asked
/// of and decide no question. It takes a byte for each rule, and of what is printed gathers some 64 KiB, or
/// the last line.
pub fn write_report<O: Sink>(
    alloc: Global,
    sink: &mut O,
    policy: &Policy,
    asked: &Questions,
) -> Result<(), ReportFault>
    ensures ok { OnOk result ((ps : Patterns) → AreTrue ps → Appends (O.state sink.old).written (O.state sink.new).written (report ps policy.now asked.now)) }
    ensures err { IfErr result (λ fault. (ps : Patterns) → AreTrue ps → StopsInside (O.state sink.old) (O.state sink.new) (report ps policy.now asked.now) fault) }
    ensures tells { TellsWrites (O.state sink.old) (O.state sink.new) result }
    ensures later { IsLater (O.state sink.old) (O.state sink.new) }
{
    let memo = Memo::new();
    let marks = Marks::none(alloc, policy.rules().len())?;
    let mut walk = Walk { memo, marks };
    let mut waiting = Vec::new(alloc);
    print_questions(sink, &mut waiting, policy, asked, &mut walk)?;
    print_idle(sink, &mut waiting, policy, asked, &walk.marks)
}

// The rules of two confs.
#[derive(Clone, Copy)]
pub(crate) struct Confs<'a> {
    first: &'a Policy,
    second: &'a Policy,
}

// Whether a verdict is that it is allowed.
fn is_allowed(verdict: Verdict) -> bool
    ensures { result ≡ is_allowed verdict }
{
    match verdict {
        Verdict::Allowed(_) => true,
        Verdict::DeniedBy(_) => false,
        Verdict::Fallthru => false,
    }
}

// Whether just one of two is so.
fn differ(one: bool, other: bool) -> bool
    ensures { result ≡ differ one other }
{
    one != other
}

// Prints the line of a question that just one of two confs allows, and returns how many lines that is.
fn print_if_changed<O: Sink>(
    sink: &mut O,
    waiting: &mut Vec<u8>,
    asked: &Questions,
    old: &Question,
    new: &Question,
) -> Result<u64, ReportFault>
    ensures ok { IfOk result (λ lines. lines ≡ length (changed (Some old.now) (Some new.now))) }
    ensures one { IfOk result (λ lines. lines ≤ 1) }
    ensures hands { OnOk result (HandsOn (O.state sink.old) (O.state sink.new) waiting.old.items waiting.new.items (change_lines asked.now (changed (Some old.now) (Some new.now)))) }
    ensures err { IfErr result (StopsInside (O.state sink.old) (O.state sink.new) (waiting.old.items ++ change_lines asked.now (changed (Some old.now) (Some new.now)))) }
    ensures tells { TellsWrites (O.state sink.old) (O.state sink.new) result }
    ensures later { IsLater (O.state sink.old) (O.state sink.new) }
{
    let is_changed = differ(is_allowed(old.verdict), is_allowed(new.verdict));
    if !is_changed {
        return Ok(0);
    }
    push_change_line(waiting, asked, old, new)?;
    write_if_much(sink, waiting)?;
    Ok(1)
}

// What is remembered of two confs.
#[derive(Clone, Copy)]
pub(crate) struct Memos {
    first: Memo,
    second: Memo,
}

// Prints the line of the question at a place, where just one of two confs allows it, and returns how many
// lines that is.
fn print_change_at<O: Sink>(
    sink: &mut O,
    waiting: &mut Vec<u8>,
    confs: &Confs<'_>,
    asked: &Questions,
    memos: &mut Memos,
    at: u64,
) -> Result<u64, ReportFault>
    requires { (ps : Patterns) → AreTrue ps → RememberBoth ps confs.now asked.now memos.old }
    ensures count { IfOk result (λ lines. (ps : Patterns) → AreTrue ps → lines ≡ length (changed_at ps confs.now asked.now at)) }
    ensures one { IfOk result (λ lines. lines ≤ 1) }
    ensures ok { OnOk result ((ps : Patterns) → AreTrue ps → HandsOn (O.state sink.old) (O.state sink.new) waiting.old.items waiting.new.items (change_lines asked.now (changed_at ps confs.now asked.now at))) }
    ensures remember { (ps : Patterns) → AreTrue ps → RememberBoth ps confs.now asked.now memos.new }
    ensures err { IfErr result (λ fault. (ps : Patterns) → AreTrue ps → StopsInside (O.state sink.old) (O.state sink.new) (waiting.old.items ++ change_lines asked.now (changed_at ps confs.now asked.now at)) fault) }
    ensures tells { TellsWrites (O.state sink.old) (O.state sink.new) result }
    ensures later { IsLater (O.state sink.old) (O.state sink.new) }
{
    let Some(was) = memos.first.question(confs.first, asked, at) else {
        return Ok(0);
    };
    let Some(is) = memos.second.question(confs.second, asked, at) else {
        return Ok(0);
    };
    print_if_changed(sink, waiting, asked, &was, &is)
}

// Prints the lines of all questions that just one of two confs allows, and counts them.
fn print_changes<O: Sink>(
    sink: &mut O,
    waiting: &mut Vec<u8>,
    confs: &Confs<'_>,
    asked: &Questions,
) -> Result<u64, ReportFault>
    ensures count { IfOk result (λ changes. (ps : Patterns) → AreTrue ps → changes ≡ length (all_changes ps confs.now.first.now confs.now.second.now asked.now)) }
    ensures ok { OnOk result ((ps : Patterns) → AreTrue ps → HandsOn (O.state sink.old) (O.state sink.new) waiting.old.items waiting.new.items (change_lines asked.now (all_changes ps confs.now.first.now confs.now.second.now asked.now))) }
    ensures err { IfErr result (λ fault. (ps : Patterns) → AreTrue ps → StopsInside (O.state sink.old) (O.state sink.new) (waiting.old.items ++ change_lines asked.now (all_changes ps confs.now.first.now confs.now.second.now asked.now)) fault) }
    ensures tells { TellsWrites (O.state sink.old) (O.state sink.new) result }
    ensures later { IsLater (O.state sink.old) (O.state sink.new) }
{
    let mut changes = 0;
    let mut memos = Memos {
        first: Memo::new(),
        second: Memo::new(),
    };
    for at in 0..asked.count() {
        changes += print_change_at(sink, waiting, confs, asked, &mut memos, at)?;
    }
    Ok(changes)
}

// How many questions changed.
#[tactic(auto, unfolding(crate::specs::Report::changed_count))]
fn push_count(text: &mut Vec<u8>, changes: u64, all: u64) -> Result<(), NoMemory>
    ensures { OnOk result (text.new.items ≡ text.old.items ++ changed_count changes all) }
{
    let mut digits = Buffer::new();
    text.extend_from_slice(b"changed ")?;
    text.extend_from_slice(digits.format(changes).as_bytes())?;
    text.extend_from_slice(b" of ")?;
    text.extend_from_slice(digits.format(all).as_bytes())?;
    text.extend_from_slice(b"\n")?;
    Ok(())
}

// Prints how many questions changed.
fn print_count<O: Sink>(
    sink: &mut O,
    waiting: &mut Vec<u8>,
    changes: u64,
    all: u64,
) -> Result<(), ReportFault>
    ensures ok { OnOk result (Appends (O.state sink.old).written (O.state sink.new).written (waiting.old.items ++ changed_count changes all)) }
    ensures err { IfErr result (StopsInside (O.state sink.old) (O.state sink.new) (waiting.old.items ++ changed_count changes all)) }
    ensures tells { TellsWrites (O.state sink.old) (O.state sink.new) result }
    ensures later { IsLater (O.state sink.old) (O.state sink.new) }
{
    push_count(waiting, changes, all)?;
    write_waiting(sink, waiting)
}

/// Writes what changes from one conf to another: a line for each question that just one of them allows, in
/// order, and how many these are.
pub fn write_change<O: Sink>(
    alloc: Global,
    sink: &mut O,
    old: &Policy,
    new: &Policy,
    asked: &Questions,
) -> Result<(), ReportFault>
    ensures ok { OnOk result ((ps : Patterns) → AreTrue ps → Appends (O.state sink.old).written (O.state sink.new).written (change_report ps old.now new.now asked.now)) }
    ensures err { IfErr result (λ fault. (ps : Patterns) → AreTrue ps → StopsInside (O.state sink.old) (O.state sink.new) (change_report ps old.now new.now asked.now) fault) }
    ensures tells { TellsWrites (O.state sink.old) (O.state sink.new) result }
    ensures later { IsLater (O.state sink.old) (O.state sink.new) }
{
    let mut waiting = Vec::new(alloc);
    let changes = print_changes(
        sink,
        &mut waiting,
        &Confs {
            first: old,
            second: new,
        },
        asked,
    )?;
    print_count(sink, &mut waiting, changes, asked.count())
}
