// Names of repositories.
ghost use Rattle.std.specs.Prelude.{◌≡◌, IfOk, if◌then◌else◌, nat_eq, None, Some, true};
ghost use Rattle.std.proofs.Common.{rules};
ghost use Rattle.std.specs.Cmp.Rules.{comparing, hashing};
ghost use Rattle.std.specs.Cmp.{partial_order_from_own_ties};
ghost use Rattle.std.specs.Cmp.Lexicographic.{slice_cmp};
ghost use Rattle.std.specs.Ordering.{nat_cmp, as_partial_cmp};
ghost use Rattle.std.specs.Hash as fed;
ghost use lib.Pointwise.{pointwise};
ghost use Rattle.conf_lex.specs.Names.{is_repo_name};

use crate::names::{all_name_bytes, all_pieces, begins_with_letter_or_digit, occurs};
use base_types::{NoMemory, Text};
use std::alloc::{AllocError, Global};
use std::cmp::Ordering;
use std::hash::{Hash, Hasher};
use std::marker::Model;

/// How many bytes a repository's name has at most.
pub const MAX_REPO_NAME: usize = 200;

/// The name of a repository that is no pattern. It is compared, ordered and hashed as its bytes are.
#[derive(Drop)]
pub struct RepoName {
    text: Text,
}

impl Model for RepoName {
    ghost use Rattle.std.specs.Prelude.{List, ℕ, ◌≡◌, true};
    ghost use Rattle.conf_lex.specs.Names.{is_repo_name};

    ghost Value = { List ℕ };

    ghost view = { λ n. n.text };

    ghost invariant = { λ n. is_repo_name n.text ≡ true };
}

impl RepoName {
    /// The name of these bytes, which are copied, or none where they break a rule. It costs at most 200
    /// bytes.
    pub fn parse(alloc: Global, text: &[u8]) -> Result<Option<RepoName>, NoMemory>
        ensures { IfOk result (λ r. r ≡ (if is_repo_name text.now then Some text.now else None)) }
    {
        if !RepoName::is_name(text) {
            return Ok(None);
        }
        let text = Text::of(alloc, text)?;
        Ok(Some(RepoName { text }))
    }

    /// Whether `parse` would give a name. It takes no memory.
    pub fn is_name(text: &[u8]) -> bool
        ensures { result ≡ is_repo_name text.now }
    {
        if text.is_empty() || text.len() > MAX_REPO_NAME {
            return false;
        }
        if !begins_with_letter_or_digit(text)
            || !all_name_bytes(b"-._@/+", text)
            || !all_pieces(text)
        {
            return false;
        }
        !occurs(b"..", text) && !occurs(b"CREATOR", text) && !text.ends_with(b".git")
    }

    /// The bytes, which keep the rule.
    pub fn bytes(&self) -> &[u8]
        ensures bytes { result.now ≡ self.now }
        ensures rule { is_repo_name result.now ≡ true }
    {
        self.text.bytes()
    }
}

impl Clone for RepoName {
    ghost is_clone = { λ name copy. copy ≡ name };

    fn clone(&self) -> Result<RepoName, AllocError> {
        Ok(RepoName {
            text: self.text.clone()?,
        })
    }
}

impl PartialEq for RepoName {
    ghost eq = { pointwise nat_eq };

    ghost laws = { Prim.search (comparing, rules) };

    fn eq(&self, other: &RepoName) -> bool {
        self.bytes() == other.bytes()
    }
}

impl Eq for RepoName {
    ghost laws = { Prim.search (comparing, rules) };
}

impl Ord for RepoName {
    ghost cmp = { slice_cmp nat_cmp };

    ghost total = { Prim.search (comparing, rules) };

    ghost matches_partial_cmp = { Prim.search (comparing, rules) };

    ghost matches_eq = { Prim.search (comparing, rules) };

    fn cmp(&self, other: &RepoName) -> Ordering {
        self.bytes().cmp(other.bytes())
    }
}

impl PartialOrd for RepoName {
    ghost partial_cmp = { as_partial_cmp (slice_cmp nat_cmp) };

    ghost laws = { partial_order_from_own_ties (Prim.search (comparing, rules)) (Prim.search (comparing, rules)) };

    fn partial_cmp(&self, other: &RepoName) -> Option<Ordering> {
        Some(self.cmp(other))
    }
}

impl Hash for RepoName {
    ghost hash_input = { fed.slice fed.u8 };

    ghost respects_eq = { Prim.search (hashing, rules) };

    fn hash<H: Hasher>(&self, state: &mut H) {
        self.bytes().hash(state);
    }
}
