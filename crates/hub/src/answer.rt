// What the hub's calls answer.
use access_check::Verdict;
use hub_history::{OutcomeList, RepoList};
use hub_state::{ConfInForce, Pin};
use repo_listing::LookList;
use wild_perms::PermsAnswer;

/// The answer to an opening.
#[derive(Drop)]
pub enum Entered {
    Granted(Pin),
    Created(Pin),
    /// With the conf in force, whose rule the verdict names.
    Denied(Verdict, ConfInForce),
    NoRepo,
    NoMemory,
}

/// The answer to a push. Without memory nothing has changed, and the pin comes back.
#[derive(Drop)]
pub enum Pushed {
    /// The outcomes of the commands, in their order; the repositories that came with the push's conf; and the
    /// conf that was in force just before the push, whose rules `DeniedNow` names.
    Settled {
        outcomes: OutcomeList,
        made: RepoList,
        conf: ConfInForce,
    },
    NoMemory(Pin),
}

/// The answer to a change or a listing of roles.
pub type Permitted = PermsAnswer;

/// The answer to a look: the lines for the user, or that memory ran out.
#[derive(Drop)]
pub enum Looked {
    Lines(LookList),
    NoMemory,
}
