// Rules, and the words in them.
ghost use Rattle.std.specs.Prelude.{◌≡◌};

use crate::Members;
use base_types::{ItemList, Text};
use conf_groups::{FileName, Scope};
use conf_lex::{Perm, RepoName, UserName};
use std::alloc::AllocError;

/// Which repositories a rule is for.
#[derive(Drop)]
pub enum RepoWord {
    /// The repository of this name.
    Plain(RepoName),
    /// Every repository.
    All,
    /// The repositories whose whole name the pattern matches. `CREATOR` in it stands for the creator's name.
    Pattern(Text),
}

impl Clone for RepoWord {
    ghost is_clone = { λ word copy. copy ≡ word };

    fn clone(&self) -> Result<RepoWord, AllocError> {
        match self {
            RepoWord::Plain(name) => Ok(RepoWord::Plain(name.clone()?)),
            RepoWord::All => Ok(RepoWord::All),
            RepoWord::Pattern(text) => Ok(RepoWord::Pattern(text.clone()?)),
        }
    }
}

/// Which users a rule is for.
#[derive(Drop)]
pub enum UserWord {
    /// The user of this name.
    Name(UserName),
    /// The members of a group, whose name begins with `@`. They are names of users, `CREATOR`, and roles.
    Group(Text, Members),
    /// Every user.
    All,
    /// Who created the repository.
    Creator,
    /// Who holds this role in the repository: `READERS` or `WRITERS`.
    Role(Text),
}

impl Clone for UserWord {
    ghost is_clone = { λ word copy. copy ≡ word };

    fn clone(&self) -> Result<UserWord, AllocError> {
        match self {
            UserWord::Name(name) => Ok(UserWord::Name(name.clone()?)),
            UserWord::Group(name, members) => Ok(UserWord::Group(name.clone()?, members.clone()?)),
            UserWord::All => Ok(UserWord::All),
            UserWord::Creator => Ok(UserWord::Creator),
            UserWord::Role(role) => Ok(UserWord::Role(role.clone()?)),
        }
    }
}

/// A rule, with its number, counted from 1, and with the line that it comes from.
#[derive(Drop)]
pub struct Rule {
    pub seq: u32,
    pub scope: Scope,
    pub repo: RepoWord,
    pub perm: Perm,
    pub refex: Text,
    pub user: UserWord,
    pub file: FileName,
    pub line: u32,
}

/// An option of the repositories of a block.
#[derive(Drop)]
pub struct OptionLine {
    pub repos: ItemList<RepoWord>,
    pub key: Text,
    pub value: Text,
}
