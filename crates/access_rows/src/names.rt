// Names of users and repositories, which keep the rules for names.
use crate::questions::Who;
use crate::stop::Stop;
use access_check::{RepoName, UserName};
use std::alloc::Global;

/// Who asks, and of which repository.
#[derive(Drop)]
pub(crate) struct Asker {
    pub user: UserName,
    pub repo: RepoName,
}

pub(crate) fn user_of(alloc: Global, word: &[u8]) -> Result<UserName, Stop> {
    match UserName::parse(alloc, word)? {
        Some(name) => Ok(name),
        None => Err(Stop::NoForm),
    }
}

pub(crate) fn repo_of(alloc: Global, word: &[u8]) -> Result<RepoName, Stop> {
    match RepoName::parse(alloc, word)? {
        Some(name) => Ok(name),
        None => Err(Stop::NoForm),
    }
}

impl Asker {
    pub(crate) fn of(alloc: Global, who: Who<'_>) -> Result<Asker, Stop> {
        Ok(Asker {
            user: user_of(alloc, who.user)?,
            repo: repo_of(alloc, who.repo)?,
        })
    }
}
