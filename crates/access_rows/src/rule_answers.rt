// Answers on all rules together, and on those of a repository.
use crate::conf_answers::push_texts;
use crate::questions::{PolicyQuestion, RepoQuestion};
use crate::words::{push_line, push_number, push_word};
use access_check::{Flags, NoMemory, Policy, RepoName, Rule, UserName, Wild, flags_of, letter_of};
use conf_check::flat_text;
use rule_compile::UserWord;
use std::alloc::Global;

pub(crate) fn answer_on_policy(
    alloc: Global,
    out: &mut Vec<u8>,
    policy: &Policy,
    question: PolicyQuestion,
) -> Result<(), NoMemory> {
    match question {
        PolicyQuestion::Rules => push_rules(alloc, out, policy),
        PolicyQuestion::Groups => push_groups(alloc, out, policy),
        PolicyQuestion::Repos => push_repos(out, policy),
    }
}

pub(crate) fn answer_on_repo(
    alloc: Global,
    out: &mut Vec<u8>,
    policy: &Policy,
    wild: &Wild,
    repo: &RepoName,
    question: RepoQuestion<'_>,
) -> Result<(), NoMemory> {
    match question {
        RepoQuestion::Numbers => push_numbers(alloc, out, policy, repo),
        RepoQuestion::DenyRules => push_deny_rules(out, policy, repo, wild.creator()),
        RepoQuestion::Declares(role) => push_declares(out, policy, role, repo, wild.creator()),
        RepoQuestion::Flags => push_flags(out, flags_of(policy, wild, repo)),
        RepoQuestion::Letter(facts) => {
            push_line(out, letter_of(flags_of(policy, wild, repo), &facts).text())
        }
    }
}

// A line for each rule and each warning, and the count.
fn push_rules(alloc: Global, out: &mut Vec<u8>, policy: &Policy) -> Result<(), NoMemory> {
    let text = flat_text(alloc, policy)?;
    out.extend_from_slice(text.as_slice())?;
    Ok(())
}

// A line for each rule that is for a group of users: its number, the group, and its members.
fn push_groups(alloc: Global, out: &mut Vec<u8>, policy: &Policy) -> Result<(), NoMemory> {
    for rule in policy.rules() {
        push_group(alloc, out, rule)?;
    }
    Ok(())
}

fn push_group(alloc: Global, out: &mut Vec<u8>, rule: &Rule) -> Result<(), NoMemory> {
    let UserWord::Group(name, members) = &rule.user else {
        return Ok(());
    };
    out.extend_from_slice(b"rule")?;
    push_number(alloc, out, rule.seq)?;
    push_word(out, name.bytes())?;
    push_texts(out, members.as_slice())?;
    push_line(out, b"")
}

// The plain repositories, in one line.
fn push_repos(out: &mut Vec<u8>, policy: &Policy) -> Result<(), NoMemory> {
    out.extend_from_slice(b"repositories")?;
    for repo in policy.plain_repos() {
        push_word(out, repo.bytes())?;
    }
    push_line(out, b"")
}

// The numbers of the rules that may be for a repository, and those of each kind of word.
fn push_numbers(
    alloc: Global,
    out: &mut Vec<u8>,
    policy: &Policy,
    repo: &RepoName,
) -> Result<(), NoMemory> {
    push_rules_for(alloc, out, policy, repo)?;
    push_kind(alloc, out, b"of its name", policy.plain_numbers(repo))?;
    push_kind(alloc, out, b"of @all", policy.all_numbers())?;
    push_kind(alloc, out, b"of patterns", policy.pattern_numbers())
}

fn push_rules_for(
    alloc: Global,
    out: &mut Vec<u8>,
    policy: &Policy,
    repo: &RepoName,
) -> Result<(), NoMemory> {
    out.extend_from_slice(b"rules")?;
    for rule in policy.rules_for(repo) {
        push_number(alloc, out, rule.seq)?;
    }
    push_line(out, b"")
}

fn push_kind(
    alloc: Global,
    out: &mut Vec<u8>,
    what: &[u8],
    numbers: &[u32],
) -> Result<(), NoMemory> {
    out.extend_from_slice(what)?;
    for number in numbers {
        push_number(alloc, out, *number)?;
    }
    push_line(out, b"")
}

// Whether the option `deny-rules` is in force for a repository.
fn push_deny_rules(
    out: &mut Vec<u8>,
    policy: &Policy,
    repo: &RepoName,
    creator: Option<&UserName>,
) -> Result<(), NoMemory> {
    if policy.deny_rules(repo, creator) {
        return push_line(out, b"in force");
    }
    push_line(out, b"not in force")
}

fn push_declares(
    out: &mut Vec<u8>,
    policy: &Policy,
    role: &[u8],
    repo: &RepoName,
    creator: Option<&UserName>,
) -> Result<(), NoMemory> {
    if policy.declares(role, repo, creator) {
        return push_line(out, b"declared");
    }
    push_line(out, b"not declared")
}

// Which letters after `RW` are in force.
fn push_flags(out: &mut Vec<u8>, flags: Flags) -> Result<(), NoMemory> {
    out.extend_from_slice(b"letters")?;
    push_flag(out, flags.create, b"C")?;
    push_flag(out, flags.delete, b"D")?;
    push_flag(out, flags.merge, b"M")?;
    push_line(out, b"")
}

fn push_flag(out: &mut Vec<u8>, is_set: bool, letter: &[u8]) -> Result<(), NoMemory> {
    if is_set {
        push_word(out, letter)?;
    }
    Ok(())
}
