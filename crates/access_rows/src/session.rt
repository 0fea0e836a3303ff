// One line after another.
use crate::commands::{Command, command_of};
use crate::conf_answers::answer_on_conf;
use crate::listing::push_creatable;
use crate::names::{Asker, repo_of, user_of};
use crate::questions::{ConfQuestion, RuleQuestion, conf_question, rule_question};
use crate::rule_answers::{answer_on_policy, answer_on_repo};
use crate::state::{Outcome, State};
use crate::stop::Stop;
use crate::verdicts::answer_on_user;
use crate::words::{push_line, words_of};
use access_check::{NoMemory, Policy, Wild};
use std::alloc::Global;

/// Prints each line of the input, and behind it the answer, if it is a question.
pub(crate) fn answer_lines(alloc: Global, input: &[u8], out: &mut Vec<u8>) -> Result<(), Stop> {
    let mut state = State::new(alloc);
    answer_each(alloc, out, &mut state, input)
}

fn answer_each(
    alloc: Global,
    out: &mut Vec<u8>,
    state: &mut State,
    input: &[u8],
) -> Result<(), Stop> {
    for line in without_last_feed(input).split(|byte| *byte == b'\n') {
        push_line(out, line)?;
        answer_line(alloc, out, state, line)?;
    }
    Ok(())
}

fn without_last_feed(input: &[u8]) -> &[u8] {
    match input.split_last() {
        Some((b'\n', rest)) => rest,
        _ => input,
    }
}

fn answer_line(
    alloc: Global,
    out: &mut Vec<u8>,
    state: &mut State,
    line: &[u8],
) -> Result<(), Stop> {
    match line.split_first() {
        None | Some((b'#', _)) => Ok(()),
        Some((b'|', text)) => state.add_line(text),
        Some(_) => obey_or_answer(alloc, out, state, line),
    }
}

fn obey_or_answer(
    alloc: Global,
    out: &mut Vec<u8>,
    state: &mut State,
    line: &[u8],
) -> Result<(), Stop> {
    let words = words_of(alloc, line)?;
    match command_of(&words) {
        Some(command) => obey(alloc, state, command),
        None => answer(alloc, out, state, &words),
    }
}

fn obey(alloc: Global, state: &mut State, command: Command<'_>) -> Result<(), Stop> {
    match command {
        Command::Conf(name) => obey_conf(alloc, state, name),
        Command::File(name) => Ok(state.begin_file(alloc, name)?),
        Command::NoCreator => state.set_creator(alloc, None),
        Command::Creator(name) => obey_creator(alloc, state, name),
        Command::Role(role, name) => obey_role(alloc, state, role, name),
    }
}

fn obey_conf(alloc: Global, state: &mut State, name: &[u8]) -> Result<(), Stop> {
    state.clear(alloc);
    Ok(state.begin_file(alloc, name)?)
}

fn obey_creator(alloc: Global, state: &mut State, name: &[u8]) -> Result<(), Stop> {
    let name = user_of(alloc, name)?;
    state.set_creator(alloc, Some(name))
}

fn obey_role(alloc: Global, state: &mut State, role: &[u8], name: &[u8]) -> Result<(), Stop> {
    let name = user_of(alloc, name)?;
    state.give_role(role, &name)
}

// Prints the answer, with a mark before each of its lines.
fn answer(
    alloc: Global,
    out: &mut Vec<u8>,
    state: &mut State,
    words: &[&[u8]],
) -> Result<(), Stop> {
    let mut text = Vec::new(alloc);
    answer_unmarked(alloc, &mut text, state, words)?;
    push_marked(out, &text)?;
    Ok(())
}

fn push_marked(out: &mut Vec<u8>, text: &[u8]) -> Result<(), NoMemory> {
    if text.is_empty() {
        return Ok(());
    }
    for line in without_last_feed(text).split(|byte| *byte == b'\n') {
        out.extend_from_slice(b"= ")?;
        push_line(out, line)?;
    }
    Ok(())
}

fn answer_unmarked(
    alloc: Global,
    out: &mut Vec<u8>,
    state: &mut State,
    words: &[&[u8]],
) -> Result<(), Stop> {
    if let Some(question) = conf_question(words) {
        return answer_on_files(alloc, out, state, question);
    }
    let Some(question) = rule_question(words) else {
        return Err(Stop::NoForm);
    };
    state.compile(alloc)?;
    answer_on_outcome(alloc, out, state, question)
}

fn answer_on_files(
    alloc: Global,
    out: &mut Vec<u8>,
    state: &mut State,
    question: ConfQuestion<'_>,
) -> Result<(), Stop> {
    let files = state.files()?;
    answer_on_conf(alloc, out, files, question)
}

// Prints the answer, or the fault of a conf that has no rules.
fn answer_on_outcome(
    alloc: Global,
    out: &mut Vec<u8>,
    state: &State,
    question: RuleQuestion<'_>,
) -> Result<(), Stop> {
    match state.outcome() {
        Some(Outcome::Rules(policy)) => {
            answer_on_rules(alloc, out, policy, state.wild(), question)
        }
        Some(Outcome::Fault(text)) => Ok(push_line(out, text.bytes())?),
        None => Err(Stop::NoForm),
    }
}

fn answer_on_rules(
    alloc: Global,
    out: &mut Vec<u8>,
    policy: &Policy,
    wild: &Wild,
    question: RuleQuestion<'_>,
) -> Result<(), Stop> {
    match question {
        RuleQuestion::Policy(question) => answer_on_policy(alloc, out, policy, question)?,
        RuleQuestion::Repo(name, question) => {
            let repo = repo_of(alloc, name)?;
            answer_on_repo(alloc, out, policy, wild, &repo, question)?;
        }
        RuleQuestion::Creatable(name) => {
            let user = user_of(alloc, name)?;
            push_creatable(alloc, out, policy, &user)?;
        }
        RuleQuestion::User(who, question) => {
            let asker = Asker::of(alloc, who)?;
            answer_on_user(alloc, out, policy, wild, &asker, &question)?;
        }
    }
    Ok(())
}
