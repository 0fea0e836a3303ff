// What a question is answered.
ghost use Rattle.std.specs.Prelude.{◌≡◌, Option};
ghost use Rattle.std.specs.Option.{option_copied};
ghost use Rattle.access_check.specs.Verdicts.{is_of_vref, opens, rule_of, verdict_of};

use conf_lex::Perm;
use rule_compile::{Policy, Rule};

/// What is asked of a repository before a ref is known.
#[derive(Clone, Copy, Debug, PartialEq, Eq)]
pub enum Want {
    Read,
    Write,
}

/// Which rule decides, by its number, and what it says.
#[derive(Clone, Copy, Debug, PartialEq, Eq)]
pub enum Verdict {
    Allowed(u32),
    DeniedBy(u32),
    /// No rule decides. A ref is denied then, and a virtual ref is allowed.
    Fallthru,
}

/// The two kinds of virtual refs.
#[derive(Clone, Copy, Debug, PartialEq, Eq)]
pub enum Vref {
    /// Each path that a change of a ref touches.
    Name,
    /// The ref itself, where its change brings a merge.
    MergeCheck,
}

impl Verdict {
    /// The rule that the verdict names, of the policy that it was made by.
    pub fn rule<'a>(&self, policy: &'a Policy) -> Option<&'a Rule>
        ensures { option_copied result ≡ rule_of policy.now.rules self.now }
    {
        match self {
            Verdict::Allowed(seq) | Verdict::DeniedBy(seq) => policy.rule(*seq),
            Verdict::Fallthru => None,
        }
    }
}

/// What a rule that decides says.
pub(crate) fn verdict_of(rule: &Rule) -> Verdict
    ensures { result ≡ verdict_of (Some rule.now) }
{
    if rule.perm.deny {
        return Verdict::DeniedBy(rule.seq);
    }
    Verdict::Allowed(rule.seq)
}

/// Whether a permission grants reading or writing as such.
pub(crate) fn opens(perm: Perm, want: Want) -> bool
    ensures { result ≡ opens perm want }
{
    match want {
        Want::Read => perm.read,
        Want::Write => perm.write,
    }
}
