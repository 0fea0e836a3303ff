// Answers on what a user may do.
use crate::listing::push_look;
use crate::names::Asker;
use crate::questions::{Deed, UserQuestion};
use crate::words::{push_line, push_number, push_word};
use access_check::{
    NoMemory, Policy, Request, Rule, Verdict, Vref, Wild, decide, denial_text, first_stage,
    holds_vref, may_create, unborn_stage,
};
use std::alloc::Global;

pub(crate) fn answer_on_user(
    alloc: Global,
    out: &mut Vec<u8>,
    policy: &Policy,
    wild: &Wild,
    asker: &Asker,
    question: &UserQuestion<'_>,
) -> Result<(), NoMemory> {
    match question {
        UserQuestion::Vref(which) => push_vref(out, policy, wild, asker, *which),
        UserQuestion::May(deed) => {
            let verdict = verdict_on(policy, wild, asker, deed);
            push_verdict(alloc, out, policy, verdict)
        }
        UserQuestion::Look => push_look(alloc, out, policy, wild, asker),
        UserQuestion::Denial(request) => push_denial(alloc, out, policy, wild, asker, request),
    }
}

// Whether a rule for the repository and the user has a refex of the virtual ref.
fn push_vref(
    out: &mut Vec<u8>,
    policy: &Policy,
    wild: &Wild,
    asker: &Asker,
    which: Vref,
) -> Result<(), NoMemory> {
    if holds_vref(policy, wild, &asker.repo, &asker.user, which) {
        return push_line(out, b"asked");
    }
    push_line(out, b"not asked")
}

// What the rules say of a deed.
fn verdict_on(policy: &Policy, wild: &Wild, asker: &Asker, deed: &Deed<'_>) -> Verdict {
    match deed {
        Deed::Request(request) => verdict_on_request(policy, wild, asker, request),
        Deed::Unborn(want) => unborn_stage(policy, &asker.repo, &asker.user, *want),
        Deed::Create => may_create(policy, &asker.repo, &asker.user),
    }
}

fn verdict_on_request(
    policy: &Policy,
    wild: &Wild,
    asker: &Asker,
    request: &Request<'_>,
) -> Verdict {
    match request {
        Request::Open(want) => first_stage(policy, wild, &asker.repo, &asker.user, *want),
        Request::Change(letter, name) => {
            decide(policy, wild, &asker.repo, &asker.user, *letter, name)
        }
    }
}

// What the rules say of a deed, with the rule's number, its file and its line.
fn push_verdict(
    alloc: Global,
    out: &mut Vec<u8>,
    policy: &Policy,
    verdict: Verdict,
) -> Result<(), NoMemory> {
    out.extend_from_slice(verdict_word(verdict))?;
    if let Some(rule) = verdict.rule(policy) {
        push_place(alloc, out, rule)?;
    }
    push_line(out, b"")
}

fn verdict_word(verdict: Verdict) -> &'static [u8] {
    match verdict {
        Verdict::Allowed(_) => b"allowed".as_slice(),
        Verdict::DeniedBy(_) => b"denied".as_slice(),
        Verdict::Fallthru => b"fallthru".as_slice(),
    }
}

fn push_place(alloc: Global, out: &mut Vec<u8>, rule: &Rule) -> Result<(), NoMemory> {
    push_number(alloc, out, rule.seq)?;
    push_word(out, rule.file.bytes())?;
    push_number(alloc, out, rule.line)
}

// The text that a user is shown of a denial.
fn push_denial(
    alloc: Global,
    out: &mut Vec<u8>,
    policy: &Policy,
    wild: &Wild,
    asker: &Asker,
    request: &Request<'_>,
) -> Result<(), NoMemory> {
    let verdict = verdict_on_request(policy, wild, asker, request);
    if matches!(verdict, Verdict::Allowed(_)) {
        return push_line(out, b"allowed");
    }
    let rule = verdict.rule(policy);
    let text = denial_text(alloc, request, &asker.repo, &asker.user, rule)?;
    push_line(out, text.bytes())
}
