// Names of users.
ghost use Rattle.std.specs.Prelude.{◌≡◌, IfOk, if◌then◌else◌, nat_eq, None, Some, true};
ghost use Rattle.std.proofs.Common.{rules};
ghost use Rattle.std.specs.Cmp.Rules.{comparing, hashing};
ghost use Rattle.std.specs.Cmp.{partial_order_from_own_ties};
ghost use Rattle.std.specs.Cmp.Lexicographic.{slice_cmp};
ghost use Rattle.std.specs.Ordering.{nat_cmp, as_partial_cmp};
ghost use Rattle.std.specs.Hash as fed;
ghost use lib.Pointwise.{pointwise};
ghost use Rattle.conf_lex.specs.Names.{is_user_name};

use crate::names::{all_name_bytes, begins_with_letter_or_digit, is_role};
use base_types::{NoMemory, Text};
use std::alloc::{AllocError, Global};
use std::cmp::Ordering;
use std::hash::{Hash, Hasher};
use std::marker::Model;

/// How many bytes a user's name has at most.
pub const MAX_USER_NAME: usize = 64;

/// The name of a user. It is compared, ordered and hashed as its bytes are.
#[derive(Drop)]
pub struct UserName {
    text: Text,
}

impl Model for UserName {
    ghost use Rattle.std.specs.Prelude.{List, ℕ, ◌≡◌, true};
    ghost use Rattle.conf_lex.specs.Names.{is_user_name};

    ghost Value = { List ℕ };

    ghost view = { λ n. n.text };

    ghost invariant = { λ n. is_user_name n.text ≡ true };
}

impl UserName {
    /// The name of these bytes, which are copied, or none where they break a rule. It costs at most 64 bytes.
    pub fn parse(alloc: Global, text: &[u8]) -> Result<Option<UserName>, NoMemory>
        ensures { IfOk result (λ r. r ≡ (if is_user_name text.now then Some text.now else None)) }
    {
        if !UserName::is_name(text) {
            return Ok(None);
        }
        let text = Text::of(alloc, text)?;
        Ok(Some(UserName { text }))
    }

    /// Whether `parse` would give a name. It takes no memory.
    pub fn is_name(text: &[u8]) -> bool
        ensures { result ≡ is_user_name text.now }
    {
        if text.is_empty() || text.len() > MAX_USER_NAME {
            return false;
        }
        begins_with_letter_or_digit(text) && all_name_bytes(b"-._@+", text) && !is_role(text)
    }

    /// The bytes, which keep the rule.
    pub fn bytes(&self) -> &[u8]
        ensures bytes { result.now ≡ self.now }
        ensures rule { is_user_name result.now ≡ true }
    {
        self.text.bytes()
    }
}

impl Clone for UserName {
    ghost is_clone = { λ name copy. copy ≡ name };

    fn clone(&self) -> Result<UserName, AllocError> {
        Ok(UserName {
            text: self.text.clone()?,
        })
    }
}

impl PartialEq for UserName {
    ghost eq = { pointwise nat_eq };

    ghost laws = { Prim.search (comparing, rules) };

    fn eq(&self, other: &UserName) -> bool {
        self.bytes() == other.bytes()
    }
}

impl Eq for UserName {
    ghost laws = { Prim.search (comparing, rules) };
}

impl Ord for UserName {
    ghost cmp = { slice_cmp nat_cmp };

    ghost total = { Prim.search (comparing, rules) };

    ghost matches_partial_cmp = { Prim.search (comparing, rules) };

    ghost matches_eq = { Prim.search (comparing, rules) };

    fn cmp(&self, other: &UserName) -> Ordering {
        self.bytes().cmp(other.bytes())
    }
}

impl PartialOrd for UserName {
    ghost partial_cmp = { as_partial_cmp (slice_cmp nat_cmp) };

    ghost laws = { partial_order_from_own_ties (Prim.search (comparing, rules)) (Prim.search (comparing, rules)) };

    fn partial_cmp(&self, other: &UserName) -> Option<Ordering> {
        Some(self.cmp(other))
    }
}

impl Hash for UserName {
    ghost hash_input = { fed.slice fed.u8 };

    ghost respects_eq = { Prim.search (hashing, rules) };

    fn hash<H: Hasher>(&self, state: &mut H) {
        self.bytes().hash(state);
    }
}
