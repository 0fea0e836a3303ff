// The first rule that decides over an opening, before a ref is known.
ghost use Rattle.std.specs.Prelude.{◌≡◌, if◌then◌else◌};
ghost use Rattle.rule_compile.specs.Patterns.{AreTrue, Patterns};
ghost use Rattle.access_check.specs.Questions.{Leads, asked_by};
ghost use Rattle.access_check.specs.Users.{asked};
ghost use Rattle.access_check.specs.Verdicts.{creates, creating_decides, creating_stage, first_stage, may_create, opening_decides, unborn_stage};

use crate::deciding::{candidates, covers};
use crate::users::Question;
use crate::verdicts::{opens, verdict_of};
use crate::{Verdict, Want};
use conf_lex::{RepoName, UserName};
use rule_compile::{Policy, RepoWord, Rule};
use wild_perms::Wild;

/// Which rule decides whether the user may read or write as such, before a ref is known.
pub fn first_stage(
    policy: &Policy,
    wild: &Wild,
    repo: &RepoName,
    user: &UserName,
    want: Want,
) -> Verdict
    ensures { (ps : Patterns) → AreTrue ps → result ≡ first_stage ps policy.now (asked ps policy.now wild.now repo.now user.now) want }
{
    verdict_on_opening(policy, &Question::of(policy, wild, repo, user), want)
}

/// The first stage of a repository that isn't there: the asker counts as its creator, and nobody holds a
/// role.
pub fn unborn_stage(policy: &Policy, repo: &RepoName, asker: &UserName, want: Want) -> Verdict
    ensures { (ps : Patterns) → AreTrue ps → result ≡ unborn_stage ps policy.now repo.now asker.now want }
{
    verdict_on_opening(policy, &Question::unborn(policy, repo, asker), want)
}

/// Which rule decides whether the asker may create a repository that isn't there.
pub fn may_create(policy: &Policy, repo: &RepoName, asker: &UserName) -> Verdict
    ensures { (ps : Patterns) → AreTrue ps → result ≡ may_create ps policy.now repo.now asker.now }
{
    verdict_on_creating(policy, &Question::unborn(policy, repo, asker))
}

fn verdict_on_opening(policy: &Policy, question: &Question<'_>, want: Want) -> Verdict
    ensures { (ps : Patterns) → AreTrue ps → result ≡ first_stage ps policy.now (asked_by ps question.now) want }
{
    let deny_counts = policy.deny_rules(question.repo, question.creator);
    for rule in candidates(policy, question.repo) {
        if opening_decides(policy, question, deny_counts, want, rule) {
            return verdict_of(rule);
        }
    }
    Verdict::Fallthru
}

fn verdict_on_creating(policy: &Policy, question: &Question<'_>) -> Verdict
    ensures { (ps : Patterns) → AreTrue ps → result ≡ creating_stage ps policy.now (asked_by ps question.now) }
{
    let deny_counts = policy.deny_rules(question.repo, question.creator);
    for rule in candidates(policy, question.repo) {
        if creating_decides(policy, question, deny_counts, rule) {
            return verdict_of(rule);
        }
    }
    Verdict::Fallthru
}

// Whether a rule decides over reading or writing as such.
fn opening_decides(
    policy: &Policy,
    question: &Question<'_>,
    deny_counts: bool,
    want: Want,
    rule: &Rule,
) -> bool
    requires { Leads policy.now.rules rule.now }
    ensures { (ps : Patterns) → AreTrue ps → result ≡ opening_decides ps (asked_by ps question.now) deny_counts want rule.now }
{
    counts(rule, deny_counts, opens(rule.perm, want)) && covers(policy, question, rule)
}

// Whether a rule decides over creating the repository.
fn creating_decides(
    policy: &Policy,
    question: &Question<'_>,
    deny_counts: bool,
    rule: &Rule,
) -> bool
    requires { Leads policy.now.rules rule.now }
    ensures { (ps : Patterns) → AreTrue ps → result ≡ creating_decides ps (asked_by ps question.now) deny_counts rule.now }
{
    counts(rule, deny_counts, creates(rule)) && covers(policy, question, rule)
}

// Whether a rule lets repositories be created.
fn creates(rule: &Rule) -> bool
    ensures { result ≡ creates rule.now }
{
    match &rule.repo {
        RepoWord::Pattern(_) => rule.perm.lone_create,
        RepoWord::Plain(_) | RepoWord::All => false,
    }
}

// Whether a rule counts that passes if it isn't `-`.
fn counts(rule: &Rule, deny_counts: bool, passes: bool) -> bool
    ensures { result ≡ (if rule.now.perm.deny then deny_counts else passes) }
{
    if rule.perm.deny {
        return deny_counts;
    }
    passes
}
