// What all rules of a repository say together.
ghost use Rattle.std.specs.Prelude.{◌≡◌, Option};
ghost use Rattle.std.specs.Option.{option_copied};
ghost use Rattle.rule_compile.specs.Patterns.{AreTrue, Patterns};
ghost use Rattle.access_check.specs.Letters.{flags_of};
ghost use Rattle.access_check.specs.Questions.{Leads, asked_by, with_rule};
ghost use Rattle.access_check.specs.Users.{asked};
ghost use Rattle.access_check.specs.Verdicts.{asks_vref, holds_vref, is_of_vref};

use crate::deciding::{candidates, covers};
use crate::users::Question;
use crate::{Flags, Vref};
use conf_lex::{RepoName, UserName};
use rule_compile::{Policy, Rule};
use wild_perms::Wild;

/// Which letters after `RW` are in force for a repository. It looks at all rules of the repository's name, of
/// `@all` and of patterns.
pub fn flags_of(policy: &Policy, wild: &Wild, repo: &RepoName) -> Flags
    ensures { (ps : Patterns) → AreTrue ps → result ≡ flags_of ps policy.now.rules repo.now wild.now.creator }
{
    let creator = wild.creator();
    let mut flags = Flags {
        create: false,
        delete: false,
        merge: false,
    };
    for rule in candidates(policy, repo) {
        flags = with_rule(flags, policy, repo, creator, rule);
    }
    flags
}

/// Whether a rule for the repository and the user has a refex of the virtual ref. Without one it need not be
/// asked.
pub fn holds_vref(
    policy: &Policy,
    wild: &Wild,
    repo: &RepoName,
    user: &UserName,
    which: Vref,
) -> bool
    ensures { (ps : Patterns) → AreTrue ps → result ≡ holds_vref ps policy.now.rules (asked ps policy.now wild.now repo.now user.now) which }
{
    some_rule_asks(policy, &Question::of(policy, wild, repo, user), which)
}

fn some_rule_asks(policy: &Policy, question: &Question<'_>, which: Vref) -> bool
    ensures { (ps : Patterns) → AreTrue ps → result ≡ holds_vref ps policy.now.rules (asked_by ps question.now) which }
{
    for rule in candidates(policy, question.repo) {
        if asks(policy, question, which, rule) {
            return true;
        }
    }
    false
}

// Whether a rule for the repository and the user asks for the virtual ref.
fn asks(policy: &Policy, question: &Question<'_>, which: Vref, rule: &Rule) -> bool
    requires { Leads policy.now.rules rule.now }
    ensures { (ps : Patterns) → AreTrue ps → result ≡ asks_vref ps (asked_by ps question.now) which rule.now }
{
    if !is_of_vref(which, rule.refex.bytes()) {
        return false;
    }
    covers(policy, question, rule)
}

// The letters in force with those of one more rule.
fn with_rule(
    flags: Flags,
    policy: &Policy,
    repo: &RepoName,
    creator: Option<&UserName>,
    rule: &Rule,
) -> Flags
    requires { Leads policy.now.rules rule.now }
    ensures { (ps : Patterns) → AreTrue ps → result ≡ with_rule ps repo.now (option_copied creator.entry) flags rule.now }
{
    if !policy.covers_repo(rule.seq, repo, creator) {
        return flags;
    }
    flags.with(rule.perm)
}

// Whether a refex is one of the virtual ref: it is its name, alone or with a tail.
fn is_of_vref(which: Vref, refex: &[u8]) -> bool
    ensures { result ≡ is_of_vref which refex.now }
{
    match which {
        Vref::Name => refex == b"VREF/NAME".as_slice() || refex.starts_with(b"VREF/NAME/"),
        Vref::MergeCheck => {
            refex == b"VREF/MERGE-CHECK".as_slice() || refex.starts_with(b"VREF/MERGE-CHECK/")
        }
    }
}
