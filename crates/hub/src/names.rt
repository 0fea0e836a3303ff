// That what a `UserName` and a `RepoName` hold is a name in the words of legal logs. These functions do
// nothing, and are called for their clauses.
ghost use Rattle.std.specs.Prelude.{◌≡◌, true};
ghost use Rattle.conf_lex.specs.Names.{is_user_name};
ghost use Rattle.hub_history.specs.History.{AreNames, IsOfUser};

use conf_lex::{RepoName, UserName};
use hub_history::PermChange;

// Tells that a user has a user's name.
pub(crate) fn tell_user(user: &UserName)
    ensures { is_user_name user.now ≡ true }
{
    let _rule = user.bytes();
}

// Tells so of who asks, and that what is asked for has a repository's name.
pub(crate) fn tell_names(user: &UserName, repo: &RepoName)
    ensures { AreNames user.now repo.now }
{
    tell_user(user);
    let _rule = repo.bytes();
}

// Tells so of who is to get or to lose a role, if anybody is.
pub(crate) fn tell_change(change: &PermChange)
    ensures { IsOfUser change.now }
{
    match change {
        PermChange::Grant { role: _, user } => tell_user(user),
        PermChange::Revoke { role: _, user } => tell_user(user),
        PermChange::List => {}
    }
}
