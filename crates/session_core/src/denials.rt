// The texts of denials.
ghost use Rattle.std.specs.Prelude.{◌≡◌, ◌≤◌, ◌+◌, ◌++◌, length, OnOk};
ghost use Rattle.std.specs.Option.{option_copied};
ghost use Rattle.access_check.specs.Denials.{request_text};
ghost use Rattle.session_core.specs.Denials.{denial, fitting, shown};

use access_check::{Request, Rule, denial_text};
use base_types::NoMemory;
use conf_lex::{RepoName, UserName};
use std::alloc::Global;

/// Of a name that is shown no more bytes than these.
const MOST_SHOWN: usize = 8192;

/// Of a text that a packet has to have room for no more bytes than these.
const MOST_FITTING: usize = 60_000;

/// A name as it is shown.
pub fn shown(name: &[u8]) -> &[u8]
    ensures value { result.now ≡ shown name.now }
    ensures size { length result.now ≤ 8192 }
{
    match name.split_at_checked(MOST_SHOWN) {
        Some((front, _)) => front,
        None => name,
    }
}

/// As much of a text as a packet has room for, beside a ref and a few words.
pub fn fitting(text: &[u8]) -> &[u8]
    ensures value { result.now ≡ fitting text.now }
    ensures size { length result.now ≤ 60000 }
{
    match text.split_at_checked(MOST_FITTING) {
        Some((front, _)) => front,
        None => text,
    }
}

/// Adds the text of a denial by a rule, or by the fallthrough.
#[tactic(auto, unfolding(crate::specs::Denials::denial))]
pub fn push_denial(
    alloc: Global,
    text: &mut Vec<u8>,
    request: &Request<'_>,
    repo: &RepoName,
    user: &UserName,
    rule: Option<&Rule>,
) -> Result<(), NoMemory>
    ensures text { OnOk result (text.new.items ≡ text.old.items ++ denial (request_text request.now) repo.now user.now (option_copied rule.entry)) }
    ensures size { OnOk result (length text.new.items ≤ length text.old.items + 60000) }
{
    let denial = denial_text(alloc, request, repo, user, rule)?;
    text.extend_from_slice(fitting(denial.bytes()))?;
    Ok(())
}
