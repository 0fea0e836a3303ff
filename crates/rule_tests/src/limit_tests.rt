//! Confs that come to as much as a conf may, and to more.

use base_types::NoMemory;
use rule_compile::{ConfFile, FileList, Policy, PolicyFault, RuleFault, RuleKind, Text};
use std::alloc::Global;
use std::test::Fail;

// How many repositories, refexes and users one rule line has, and how many rules they come to, if not too
// many.
static LIMITS: [(u32, u32, u32, Option<usize>); 4] = [
    (100, 10, 100, Some(100_000)),
    (100, 10, 101, None),
    (1, 4_096, 1, Some(4_096)),
    (1, 4_097, 1, None),
];

fn add_words(alloc: Global, text: &mut Vec<u8>, letter: &str, count: u32) -> Result<(), NoMemory> {
    for number in 0..count {
        text.extend_from_slice(format!(in alloc; " {letter}{number}")?.as_bytes())?;
    }
    Ok(())
}

fn add_line(
    alloc: Global,
    text: &mut Vec<u8>,
    repos: u32,
    refexes: u32,
    users: u32,
) -> Result<(), NoMemory> {
    add_words(alloc, text, "r", repos)?;
    text.extend_from_slice(b"\nRW")?;
    add_words(alloc, text, "x", refexes)?;
    text.extend_from_slice(b" =")?;
    add_words(alloc, text, "u", users)
}

fn conf_text(alloc: Global, repos: u32, refexes: u32, users: u32) -> Result<Text, NoMemory> {
    let mut text = b"repo".to_vec(alloc)?;
    add_line(alloc, &mut text, repos, refexes, users)?;
    Ok(Text::from(text))
}

fn conf_of(alloc: Global, repos: u32, refexes: u32, users: u32) -> Result<FileList, NoMemory> {
    let mut files = FileList::new(alloc);
    let name = Text::of(alloc, b"gitolite.conf")?;
    let text = conf_text(alloc, repos, refexes, users)?;
    files.push(ConfFile { name, text })?;
    Ok(files)
}

// Whether there are too many rules.
fn is_too_many(fault: &PolicyFault) -> bool {
    match fault {
        PolicyFault::Rules(
            RuleFault {
                kind: RuleKind::TooManyRules,
                line: 2,
                ..
            },
        ) => true,
        _ => false,
    }
}

fn no_rules(fault: &PolicyFault) -> Result<Option<usize>, Fail> {
    if is_too_many(fault) {
        return Ok(None);
    }
    Err(Fail::from("another fault"))
}

fn rules_in(alloc: Global, files: &FileList) -> Result<Option<usize>, Fail> {
    match Policy::compile(alloc, files) {
        Ok(policy) => Ok(Some(policy.rules().len())),
        Err(fault) => no_rules(&fault),
    }
}

fn rules_of(alloc: Global, repos: u32, refexes: u32, users: u32) -> Result<Option<usize>, Fail> {
    let files = conf_of(alloc, repos, refexes, users)?;
    rules_in(alloc, &files)
}

#[test]
fn a_conf_has_so_many_rules_and_patterns(rt: HostRuntime) -> Result<(), Fail> {
    for (repos, refexes, users, due) in &LIMITS {
        let rules = rules_of(rt.alloc(), *repos, *refexes, *users)?;
        assert_eq!(rt; rules, *due);
    }
    Ok(())
}
