// Reading the body of an event.
ghost use Rattle.std.specs.Prelude.{◌≡◌, List, ℕ, IfOk, IfErr};
ghost use Rattle.hub_history.specs.Requests as requests;
ghost use Rattle.event_record.specs.Reading.{Gives};
ghost use Rattle.event_record.specs.Asked.{asked, asked_by};
ghost use Rattle.event_record.specs.Bodies.{body_of, IsStorable};
ghost use Rattle.event_record.specs.BodyReading.{flag_at, want_of, enter_at, push_at, holder_at, change_at, permit_at, look_at, request_at, body_at};

use crate::fields::{repo_at, text_at, u64_at, user_at};
use crate::packs::{commands_at, pack_at};
use crate::{BodyFault, CallerRequest, Request};
use access_check::Want;
use base_types::Text;
use conf_lex::UserName;
use hub_history::PermChange;
use std::alloc::Global;

// How many bytes the text of a role has at most.
const MAX_ROLE: usize = 65_516;

#[tactic(auto, unfolding(crate::specs::BodyReading::flag_at))]
fn flag_at(bytes: &[u8]) -> Result<(bool, &[u8]), BodyFault>
    ensures { Gives (λ x. (x.0, x.1.now)) result (flag_at bytes.now) }
{
    match bytes {
        [0, rest @ ..] => Ok((false, rest)),
        [1, rest @ ..] => Ok((true, rest)),
        _ => Err(BodyFault::BadBody),
    }
}

fn want_of(flag: bool) -> Want
    ensures { result ≡ want_of flag }
{
    if flag { Want::Write } else { Want::Read }
}

#[tactic(auto, unfolding(crate::specs::BodyReading::enter_at))]
fn enter_at(alloc: Global, bytes: &[u8]) -> Result<(Request, &[u8]), BodyFault>
    ensures { Gives (λ x. (asked x.0, x.1.now)) result (enter_at bytes.now) }
{
    let (user, rest) = user_at(alloc, bytes)?;
    let (repo, rest) = repo_at(alloc, rest)?;
    let (flag, rest) = flag_at(rest)?;
    let want = want_of(flag);
    Ok((Request::Enter { user, repo, want }, rest))
}

#[tactic(auto, unfolding(crate::specs::BodyReading::push_at))]
fn push_at(alloc: Global, bytes: &[u8]) -> Result<(Request, &[u8]), BodyFault>
    ensures { Gives (λ x. (asked x.0, x.1.now)) result (push_at bytes.now) }
{
    let (place, rest) = u64_at(bytes)?;
    let (atomic, rest) = flag_at(rest)?;
    let (commands, rest) = commands_at(alloc, rest)?;
    let (pack, rest) = pack_at(alloc, rest)?;
    let request = Request::Push {
        place,
        pack,
        commands,
        atomic,
    };
    Ok((request, rest))
}

// A role, and the user who is to get it or to lose it.
#[tactic(auto, unfolding(crate::specs::BodyReading::holder_at))]
fn holder_at(alloc: Global, bytes: &[u8]) -> Result<((Text, UserName), &[u8]), BodyFault>
    ensures { Gives (λ x. ((x.0.0, x.0.1), x.1.now)) result (holder_at bytes.now) }
{
    let (role, rest) = text_at(MAX_ROLE, bytes)?;
    let (user, rest) = user_at(alloc, rest)?;
    let role = Text::of(alloc, role)?;
    Ok(((role, user), rest))
}

#[tactic(auto, unfolding(crate::specs::BodyReading::change_at))]
fn change_at(alloc: Global, bytes: &[u8]) -> Result<(PermChange, &[u8]), BodyFault>
    ensures { Gives (λ x. (x.0, x.1.now)) result (change_at bytes.now) }
{
    match bytes {
        [0, rest @ ..] => {
            let ((role, user), rest) = holder_at(alloc, rest)?;
            Ok((PermChange::Grant { role, user }, rest))
        }
        [1, rest @ ..] => {
            let ((role, user), rest) = holder_at(alloc, rest)?;
            Ok((PermChange::Revoke { role, user }, rest))
        }
        [2, rest @ ..] => Ok((PermChange::List, rest)),
        _ => Err(BodyFault::BadBody),
    }
}

#[tactic(auto, unfolding(crate::specs::BodyReading::permit_at))]
fn permit_at(alloc: Global, bytes: &[u8]) -> Result<(Request, &[u8]), BodyFault>
    ensures { Gives (λ x. (asked x.0, x.1.now)) result (permit_at bytes.now) }
{
    let (user, rest) = user_at(alloc, bytes)?;
    let (repo, rest) = repo_at(alloc, rest)?;
    let (change, rest) = change_at(alloc, rest)?;
    Ok((Request::Permit { user, repo, change }, rest))
}

#[tactic(auto, unfolding(crate::specs::BodyReading::look_at))]
fn look_at(alloc: Global, bytes: &[u8]) -> Result<(Request, &[u8]), BodyFault>
    ensures { Gives (λ x. (asked x.0, x.1.now)) result (look_at bytes.now) }
{
    let (user, rest) = user_at(alloc, bytes)?;
    Ok((Request::Look { user }, rest))
}

#[tactic(auto, unfolding(crate::specs::BodyReading::request_at))]
fn request_at(alloc: Global, bytes: &[u8]) -> Result<(Request, &[u8]), BodyFault>
    ensures { Gives (λ x. (asked x.0, x.1.now)) result (request_at bytes.now) }
{
    match bytes {
        [1, rest @ ..] => enter_at(alloc, rest),
        [2, rest @ ..] => push_at(alloc, rest),
        [3, rest @ ..] => permit_at(alloc, rest),
        [4, rest @ ..] => look_at(alloc, rest),
        _ => Err(BodyFault::BadBody),
    }
}

#[tactic(auto, unfolding(crate::specs::BodyReading::body_at))]
fn body_at(alloc: Global, bytes: &[u8]) -> Result<CallerRequest, BodyFault>
    ensures { Gives asked_by result (body_at bytes.now) }
{
    let (caller, rest) = u64_at(bytes)?;
    let (request, rest) = request_at(alloc, rest)?;
    if !rest.is_empty() {
        return Err(BodyFault::BadBody);
    }
    Ok(CallerRequest { caller, request })
}

/// Reads the body of a record as a request and its caller. The objects of a push are copied, and their names
/// computed.
pub fn read_body(alloc: Global, bytes: &[u8]) -> Result<CallerRequest, BodyFault>
    // What is read can be stored, and its body is these bytes.
    ensures found { IfOk result (λ r. IsStorable r.caller (asked r.request) × (bytes.now ≡ body_of r.caller (asked r.request))) }
    // Bytes that are refused are the body of nothing that can be stored.
    ensures bad { IfErr result (λ fault. fault ≡ BodyFault.BadBody → (caller : ℕ) (request : requests.Request) → IsStorable caller request → bytes.now ≡ body_of caller request → ⊥) }
{
    body_at(alloc, bytes)
}
