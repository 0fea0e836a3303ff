// What was asked of a hub.
use access_check::Want;
use conf_lex::{RepoName, UserName};
use git_object::ObjectList;
use hub_history::PermChange;
use ref_store::CommandList;

/// What was asked of a hub: an event without its answer.
#[derive(Drop)]
pub enum Request {
    Enter {
        user: UserName,
        repo: RepoName,
        want: Want,
    },
    /// `place` is the place in the log, from 0, of the push's opening.
    Push {
        place: u64,
        pack: ObjectList,
        commands: CommandList,
        atomic: bool,
    },
    Permit {
        user: UserName,
        repo: RepoName,
        change: PermChange,
    },
    Look {
        user: UserName,
    },
}

/// A request, and the number of the caller that made it.
#[derive(Drop)]
pub struct CallerRequest {
    pub caller: u64,
    pub request: Request,
}
