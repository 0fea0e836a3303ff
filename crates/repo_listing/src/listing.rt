// Which lines a user gets.
ghost use Rattle.std.specs.Prelude.{◌≡◌, ◌++◌, ◌∷◌, [], OnErr, OnOk};
ghost use Rattle.rule_compile.specs.Patterns.{AreTrue, Patterns};
ghost use Rattle.repo_listing.specs.Listing.{AppendsSome, may, pattern_lines, patterns_by, repo_lines};
ghost use Rattle.repo_listing.specs.Steps.{Appends, patterns_at};

use crate::creators::covers_creator;
use crate::lines::{LookLine, LookList};
use access_check::{Verdict, Want, first_stage};
use base_types::{NameMap, NoMemory, Text};
use conf_lex::{RepoName, UserName};
use rule_compile::{Policy, RepoWord, Rule};
use std::alloc::Global;
use wild_perms::Wild;

/// Appends the line of a repository that is there, if the user may read it. It costs what `first_stage` does,
/// at most twice.
pub fn push_repo(
    list: &mut LookList,
    policy: &Policy,
    wild: &Wild,
    name: &RepoName,
    user: &UserName,
) -> Result<(), NoMemory>
    ensures ok { (ps : Patterns) → AreTrue ps → OnOk result (list.new ≡ list.old ++ repo_lines ps policy.now user.now (record { name = name.now; wild = wild.now })) }
    ensures err { OnErr result (list.new ≡ list.old) }
{
    if !may(policy, wild, name, user, Want::Read) {
        return Ok(());
    }
    let write = may(policy, wild, name, user, Want::Write);
    let name = name.clone()?;
    list.push(LookLine::Repo { name, write })
}

// Whether the user may read or write a repository as such.
fn may(policy: &Policy, wild: &Wild, name: &RepoName, user: &UserName, want: Want) -> bool
    ensures { (ps : Patterns) → AreTrue ps → result ≡ may ps policy.now user.now (record { name = name.now; wild = wild.now }) want }
{
    match first_stage(policy, wild, name, user, want) {
        Verdict::Allowed(_) => true,
        Verdict::DeniedBy(_) | Verdict::Fallthru => false,
    }
}

/// Appends a line for each pattern by which the user may create repositories, in the order of the first rule
/// of each.
///
/// It looks at the rules whose word is a pattern, and looks up the patterns of those that are for the user
/// among the ones that it appended. It copies each of these twice.
pub fn push_patterns(
    alloc: Global,
    list: &mut LookList,
    policy: &Policy,
    user: &UserName,
) -> Result<(), NoMemory>
    ensures ok { OnOk result (list.new ≡ list.old ++ pattern_lines policy.now.rules user.now) }
    ensures err { OnErr result (AppendsSome (pattern_lines policy.now.rules user.now) list.old list.new) }
{
    // called for its clause that each rule bears its number, which the proof cites
    let _rules = policy.rules();
    let mut seen = NameMap::new(alloc);
    for seq in policy.pattern_numbers() {
        push_numbered(list, &mut seen, policy, user, *seq)?;
    }
    Ok(())
}

// Appends the pattern of the rule of a number, as `push_pattern` does.
fn push_numbered(
    list: &mut LookList,
    seen: &mut NameMap<bool>,
    policy: &Policy,
    user: &UserName,
    seq: u32,
) -> Result<(), NoMemory>
    ensures ok { OnOk result (Appends (patterns_at policy.now.rules user.now seq) list.old seen.old list.new seen.new) }
    ensures err { OnErr result (list.new ≡ list.old) }
{
    match policy.rule(seq) {
        Some(rule) => push_pattern(list, seen, user, rule),
        None => Ok(()),
    }
}

// Appends the pattern of a rule, if the rule lets the user create, and the pattern wasn't appended before.
fn push_pattern(
    list: &mut LookList,
    seen: &mut NameMap<bool>,
    user: &UserName,
    rule: &Rule,
) -> Result<(), NoMemory>
    ensures ok { OnOk result (Appends (patterns_by user.now rule.now) list.old seen.old list.new seen.new) }
    ensures err { OnErr result (list.new ≡ list.old) }
{
    let RepoWord::Pattern(text) = &rule.repo else {
        return Ok(());
    };
    if !rule.perm.lone_create {
        return Ok(());
    }
    if !covers_creator(&rule.user, user) {
        return Ok(());
    }
    push_once(list, seen, text)
}

// Appends a pattern that wasn't appended before.
fn push_once(list: &mut LookList, seen: &mut NameMap<bool>, text: &Text) -> Result<(), NoMemory>
    ensures ok { OnOk result (Appends (text.now ∷ []) list.old seen.old list.new seen.new) }
    ensures err { OnErr result (list.new ≡ list.old) }
{
    if seen.get(text).is_some() {
        return Ok(());
    }
    seen.insert(text.clone()?, true)?;
    list.push(LookLine::Pattern(text.clone()?))
}
