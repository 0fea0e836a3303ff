// The lines that a conf's rules and warnings are printed as.
ghost use Rattle.std.specs.Prelude.{◌≡◌, ◌++◌, IfOk, OnOk};
ghost use Rattle.std.specs.List.{flat_map};
ghost use Rattle.conf_check.specs.Lines.{count_line, flat_text, repo_text, rule_line, spaced, user_text, warning_line};

use base_types::NoMemory;
use itoa::Buffer;
use rule_compile::{Policy, RepoWord, Rule, UserWord, Warning};
use std::alloc::Global;

fn repo_text(word: &RepoWord) -> &[u8]
    ensures { result.now ≡ repo_text word.now }
{
    match word {
        RepoWord::Plain(name) => name.bytes(),
        RepoWord::All => b"@all".as_slice(),
        RepoWord::Pattern(text) => text.bytes(),
    }
}

fn user_text(word: &UserWord) -> &[u8]
    ensures { result.now ≡ user_text word.now }
{
    match word {
        UserWord::Name(name) => name.bytes(),
        UserWord::Group(name, _) => name.bytes(),
        UserWord::All => b"@all".as_slice(),
        UserWord::Creator => b"CREATOR".as_slice(),
        UserWord::Role(role) => role.bytes(),
    }
}

fn push_spaced(text: &mut Vec<u8>, word: &[u8]) -> Result<(), NoMemory>
    ensures { OnOk result (text.new.items ≡ text.old.items ++ spaced word.now) }
{
    text.extend_from_slice(word)?;
    text.extend_from_slice(b" ")?;
    Ok(())
}

#[tactic(auto, unfolding(crate::specs::Lines::rule_line))]
fn push_rule(text: &mut Vec<u8>, rule: &Rule) -> Result<(), NoMemory>
    ensures { OnOk result (text.new.items ≡ text.old.items ++ rule_line rule.now) }
{
    let mut digits = Buffer::new();
    push_spaced(text, digits.format(rule.seq).as_bytes())?;
    push_spaced(text, repo_text(&rule.repo))?;
    push_spaced(text, rule.perm.text())?;
    push_spaced(text, rule.refex.bytes())?;
    push_spaced(text, user_text(&rule.user))?;
    push_spaced(text, rule.file.bytes())?;
    text.extend_from_slice(digits.format(rule.line).as_bytes())?;
    text.extend_from_slice(b"\n")?;
    Ok(())
}

fn push_rules(text: &mut Vec<u8>, rules: &[Rule]) -> Result<(), NoMemory>
    ensures { OnOk result (text.new.items ≡ text.old.items ++ flat_map rule_line rules.now) }
{
    for rule in rules {
        push_rule(text, rule)?;
    }
    Ok(())
}

#[tactic(auto, unfolding(crate::specs::Lines::warning_line))]
fn push_warning(alloc: Global, text: &mut Vec<u8>, warning: &Warning) -> Result<(), NoMemory>
    ensures { OnOk result (text.new.items ≡ text.old.items ++ warning_line warning.now) }
{
    text.extend_from_slice(warning.text(alloc)?.bytes())?;
    text.extend_from_slice(b"\n")?;
    Ok(())
}

fn push_warnings(alloc: Global, text: &mut Vec<u8>, warnings: &[Warning]) -> Result<(), NoMemory>
    ensures { OnOk result (text.new.items ≡ text.old.items ++ flat_map warning_line warnings.now) }
{
    for warning in warnings {
        push_warning(alloc, text, warning)?;
    }
    Ok(())
}

#[tactic(auto, unfolding(crate::specs::Lines::count_line))]
fn push_counts(text: &mut Vec<u8>, rules: usize, repositories: usize) -> Result<(), NoMemory>
    ensures { OnOk result (text.new.items ≡ text.old.items ++ count_line rules repositories) }
{
    let mut digits = Buffer::new();
    text.extend_from_slice(b"ok ")?;
    text.extend_from_slice(digits.format(rules).as_bytes())?;
    text.extend_from_slice(b" rules, ")?;
    text.extend_from_slice(digits.format(repositories).as_bytes())?;
    text.extend_from_slice(b" repositories\n")?;
    Ok(())
}

/// The lines of a conf that has rules: one for each rule, one for each warning, and the count.
#[tactic(auto, unfolding(crate::specs::Lines::flat_text))]
pub fn flat_text(alloc: Global, policy: &Policy) -> Result<Vec<u8>, NoMemory>
    ensures { IfOk result (λ text. text.items ≡ flat_text policy.now) }
{
    let mut text = Vec::new(alloc);
    push_rules(&mut text, policy.rules())?;
    push_warnings(alloc, &mut text, policy.warnings().as_slice())?;
    push_counts(&mut text, policy.rules().len(), policy.plain_repos().len())?;
    Ok(text)
}
