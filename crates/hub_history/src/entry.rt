// The log.
ghost use Rattle.std.specs.Prelude.{◌≡◌};

use crate::outcome::OutcomeList;
use access_check::{Verdict, Want};
use base_types::{ItemList, Text};
use conf_lex::{RepoName, UserName};
use git_object::ObjectList;
use ref_store::CommandList;
use std::marker::Model;
use std::snapshot::Snapshot;

/// What the log keeps of the answer to an opening.
#[derive(Clone, Copy, Debug, PartialEq, Eq)]
pub enum EnterKept {
    Granted,
    /// The repository wasn't there, and was made for the asker.
    Created,
    Denied(Verdict),
    /// The repository isn't there, and the asker may not make it.
    NoRepo,
}

/// What the log keeps of the answer to a change or a listing of roles.
#[derive(Clone, Copy, Debug, PartialEq, Eq)]
pub enum PermsKept {
    Changed,
    AlreadySo,
    NotWild,
    NotCreator,
    NoSuchRole,
    Listed,
}

/// A change of the roles of a repository, or a listing of them.
#[derive(Drop)]
pub enum PermChange {
    Grant { role: Text, user: UserName },
    Revoke { role: Text, user: UserName },
    List,
}

/// Names of repositories, in order.
pub type RepoList = ItemList<RepoName>;

/// The objects that a push brought, for contracts alone: a log keeps none. Those of a push that is done are
/// in its repository.
#[derive(Drop)]
pub struct LoggedPack {
    objects: Snapshot<ObjectList>,
}

impl Model for LoggedPack {
    ghost use Rattle.std.specs.Prelude.{List};
    ghost use Rattle.git_object.specs.Content.{Content};

    ghost Value = { List Content };

    ghost view = { λ p. p.objects.value };
}

impl LoggedPack {
    pub fn of(pack: &ObjectList) -> LoggedPack
        ensures { result ≡ pack.now }
    {
        LoggedPack {
            objects: Snapshot::of(pack),
        }
    }
}

/// The commands of a push, for contracts alone: a log keeps none.
#[derive(Drop)]
pub struct LoggedCommands {
    commands: Snapshot<CommandList>,
}

impl Model for LoggedCommands {
    ghost use Rattle.std.specs.Prelude.{List};
    ghost use Rattle.ref_store.specs.declared.command.Command.{Command};

    ghost Value = { List Command };

    ghost view = { λ c. c.commands.value };
}

impl LoggedCommands {
    pub fn of(commands: &CommandList) -> LoggedCommands
        ensures { result ≡ commands.now }
    {
        LoggedCommands {
            commands: Snapshot::of(commands),
        }
    }
}

/// What was asked, and what was answered.
#[derive(Drop)]
pub enum Event {
    Entered {
        user: UserName,
        repo: RepoName,
        want: Want,
        answer: EnterKept,
    },
    /// `place` is the place in the log, from 0, of the push's opening; `made` are the repositories that came
    /// with its conf.
    Pushed {
        place: u64,
        pack: LoggedPack,
        commands: LoggedCommands,
        atomic: bool,
        outcomes: OutcomeList,
        made: RepoList,
    },
    Permitted {
        user: UserName,
        repo: RepoName,
        change: PermChange,
        answer: PermsKept,
    },
    Looked {
        user: UserName,
    },
}

/// An event, and the number of the caller that brought it about.
#[derive(Drop)]
pub struct Entry {
    pub caller: u64,
    pub event: Event,
}

/// A log, from the oldest entry on.
pub type EntryList = ItemList<Entry>;
