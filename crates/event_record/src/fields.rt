// Fields at the front of bytes, and what follows them.
ghost use Rattle.std.specs.Prelude.{◌≡◌, length};
ghost use Rattle.std.specs.Int.{w16, w32, w64};
ghost use Rattle.event_record.specs.Reading.{Gives, bytes_at, number_at, text_at, user_at, repo_at, id_at, kind_at};

use crate::BodyFault;
use conf_lex::{RepoName, UserName};
use git_object::{Kind, ObjectId};
use std::alloc::Global;

// So many bytes.
pub(crate) fn bytes_at(count: usize, bytes: &[u8]) -> Result<(&[u8], &[u8]), BodyFault>
    ensures { Gives (λ x. (x.0.now, x.1.now)) result (bytes_at count bytes.now) }
{
    if bytes.len() < count {
        return Err(BodyFault::BadBody);
    }
    let (front, rest) = bytes.split_at(count);
    Ok((front, rest))
}

pub(crate) fn u16_at(bytes: &[u8]) -> Result<(u16, &[u8]), BodyFault>
    ensures { Gives (λ x. (x.0, x.1.now)) result (number_at w16 bytes.now) }
{
    if bytes.len() < 2 {
        return Err(BodyFault::BadBody);
    }
    let (front, rest) = bytes.split_at(2);
    Ok((u16::from_be_bytes([front[0], front[1]]), rest))
}

pub(crate) fn u32_at(bytes: &[u8]) -> Result<(u32, &[u8]), BodyFault>
    ensures { Gives (λ x. (x.0, x.1.now)) result (number_at w32 bytes.now) }
{
    if bytes.len() < 4 {
        return Err(BodyFault::BadBody);
    }
    let (front, rest) = bytes.split_at(4);
    let number = u32::from_be_bytes([front[0], front[1], front[2], front[3]]);
    Ok((number, rest))
}

pub(crate) fn u64_at(bytes: &[u8]) -> Result<(u64, &[u8]), BodyFault>
    ensures { Gives (λ x. (x.0, x.1.now)) result (number_at w64 bytes.now) }
{
    if bytes.len() < 8 {
        return Err(BodyFault::BadBody);
    }
    let (front, rest) = bytes.split_at(8);
    let number = u64::from_be_bytes([
        front[0], front[1], front[2], front[3], front[4], front[5], front[6], front[7],
    ]);
    Ok((number, rest))
}

// A text of at most so many bytes.
#[tactic(auto, unfolding(crate::specs::Reading::text_at))]
pub(crate) fn text_at(most: usize, bytes: &[u8]) -> Result<(&[u8], &[u8]), BodyFault>
    ensures { Gives (λ x. (x.0.now, x.1.now)) result (text_at most bytes.now) }
{
    let (size, rest) = u16_at(bytes)?;
    let size = size as usize;
    if most < size {
        return Err(BodyFault::BadBody);
    }
    bytes_at(size, rest)
}

#[tactic(auto, unfolding(crate::specs::Reading::user_at))]
pub(crate) fn user_at(alloc: Global, bytes: &[u8]) -> Result<(UserName, &[u8]), BodyFault>
    ensures { Gives (λ x. (x.0, x.1.now)) result (user_at bytes.now) }
{
    let (text, rest) = text_at(65535, bytes)?;
    let Some(user) = UserName::parse(alloc, text)? else {
        return Err(BodyFault::BadBody);
    };
    Ok((user, rest))
}

#[tactic(auto, unfolding(crate::specs::Reading::repo_at))]
pub(crate) fn repo_at(alloc: Global, bytes: &[u8]) -> Result<(RepoName, &[u8]), BodyFault>
    ensures { Gives (λ x. (x.0, x.1.now)) result (repo_at bytes.now) }
{
    let (text, rest) = text_at(65535, bytes)?;
    let Some(repo) = RepoName::parse(alloc, text)? else {
        return Err(BodyFault::BadBody);
    };
    Ok((repo, rest))
}

#[tactic(auto, unfolding(crate::specs::Reading::id_at))]
pub(crate) fn id_at(bytes: &[u8]) -> Result<(ObjectId, &[u8]), BodyFault>
    ensures { Gives (λ x. (x.0, x.1.now)) result (id_at bytes.now) }
{
    if bytes.len() < 20 {
        return Err(BodyFault::BadBody);
    }
    let (front, rest) = bytes.split_at(20);
    let mut id = ObjectId::zero();
    id.bytes.copy_from_slice(front);
    Ok((id, rest))
}

#[tactic(auto, unfolding(crate::specs::Reading::kind_at))]
pub(crate) fn kind_at(bytes: &[u8]) -> Result<(Kind, &[u8]), BodyFault>
    ensures { Gives (λ x. (x.0, x.1.now)) result (kind_at bytes.now) }
{
    match bytes {
        [1, rest @ ..] => Ok((Kind::Commit, rest)),
        [2, rest @ ..] => Ok((Kind::Tree, rest)),
        [3, rest @ ..] => Ok((Kind::Blob, rest)),
        [4, rest @ ..] => Ok((Kind::Tag, rest)),
        _ => Err(BodyFault::BadBody),
    }
}
