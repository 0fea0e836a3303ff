// The first rule that decides over a change of a ref.
ghost use Rattle.std.specs.Prelude.{◌≡◌, Option};
ghost use Rattle.rule_compile.specs.Covering.{rules_for};
ghost use Rattle.rule_compile.specs.Patterns.{AreTrue, Patterns};
ghost use Rattle.access_check.specs.Questions.{AllLead, Leads, asked_by};
ghost use Rattle.access_check.specs.Users.{asked};
ghost use Rattle.access_check.specs.Verdicts.{covers, decide, decides};

use crate::letters::grants;
use crate::users::Question;
use crate::verdicts::verdict_of;
use crate::{Letter, Verdict};
use conf_lex::{RepoName, UserName};
use rule_compile::{Policy, Rule, RulesFor};
use wild_perms::Wild;

/// Which rule decides over a change of a ref, or over a virtual ref, that needs this letter.
///
/// It looks at the rules of the repository's name, of `@all` and of patterns, up to the one that decides.
pub fn decide(
    policy: &Policy,
    wild: &Wild,
    repo: &RepoName,
    user: &UserName,
    letter: Letter,
    name: &[u8],
) -> Verdict
    ensures { (ps : Patterns) → AreTrue ps → result ≡ decide ps policy.now.rules (asked ps policy.now wild.now repo.now user.now) letter name.now }
{
    verdict_on_ref(
        policy,
        &Question::of(policy, wild, repo, user),
        letter,
        name,
    )
}

fn verdict_on_ref(policy: &Policy, question: &Question<'_>, letter: Letter, name: &[u8]) -> Verdict
    ensures { (ps : Patterns) → AreTrue ps → result ≡ decide ps policy.now.rules (asked_by ps question.now) letter name.now }
{
    for rule in candidates(policy, question.repo) {
        if decides(policy, question, letter, name, rule) {
            return verdict_of(rule);
        }
    }
    Verdict::Fallthru
}

/// The rules that may cover a repository. The number of each leads to it.
pub(crate) fn candidates<'a>(policy: &'a Policy, repo: &'a RepoName) -> RulesFor<'a>
    ensures rules { result ≡ rules_for policy.now.rules repo.now }
    ensures numbers { AllLead policy.now.rules result }
{
    // called for its clause that each rule bears its number, which the proof cites
    let _rules = policy.rules();
    policy.rules_for(repo)
}

/// Whether a rule is for the repository and the user.
pub(crate) fn covers(policy: &Policy, question: &Question<'_>, rule: &Rule) -> bool
    requires { Leads policy.now.rules rule.now }
    ensures { (ps : Patterns) → AreTrue ps → result ≡ covers ps (asked_by ps question.now) rule.now }
{
    if !question.covers_user(&rule.user) {
        return false;
    }
    policy.covers_repo(rule.seq, question.repo, question.creator)
}

// Whether a rule decides over a ref.
fn decides(
    policy: &Policy,
    question: &Question<'_>,
    letter: Letter,
    name: &[u8],
    rule: &Rule,
) -> bool
    requires { Leads policy.now.rules rule.now }
    ensures { (ps : Patterns) → AreTrue ps → result ≡ decides ps (asked_by ps question.now) letter name.now rule.now }
{
    if !rule.perm.deny && !grants(rule.perm, letter) {
        return false;
    }
    if !covers(policy, question, rule) {
        return false;
    }
    policy.matches(rule.seq, name, question.user.bytes())
}
