// What is asked: repositories, users and refs.
ghost use Rattle.std.specs.Prelude.{◌≡◌, ◌≤◌};
ghost use Rattle.access_report.specs.Lists.{IsWithinLimits, QuestionLists, count, per_user};

use base_types::ItemList;
use conf_lex::{RepoName, UserName};
use ref_store::RefName;
use std::marker::Model;
use wild_perms::Wild;

/// How many repositories, users and refs are asked for at most.
pub(crate) const MOST_ASKED: usize = 1_000;

/// How many questions there are at most.
pub(crate) const MOST_QUESTIONS: u64 = 1_000_000;

/// A repository, who created it, if anybody did, and who holds which role in it.
#[derive(Drop)]
pub struct AskedRepo {
    pub name: RepoName,
    pub wild: Wild,
}

/// Repositories, users and refs, in the order in which they were asked for: each question is of a repository
/// and a user, and most of a ref too.
#[derive(Drop)]
pub struct Questions {
    repos: ItemList<AskedRepo>,
    users: ItemList<UserName>,
    refs: ItemList<RefName>,
}

impl Model for Questions {
    ghost use Rattle.access_report.specs.Lists.{IsWithinLimits, QuestionLists};

    ghost Value = { QuestionLists };

    ghost view = { λ q. record { repos = q.repos; users = q.users; refs = q.refs } };

    ghost invariant = { λ q. IsWithinLimits (record { repos = q.repos; users = q.users; refs = q.refs }) };
}

impl Questions {
    // These lists, which keep the limits.
    pub(crate) fn of(
        repos: ItemList<AskedRepo>,
        users: ItemList<UserName>,
        refs: ItemList<RefName>,
    ) -> Questions
        requires { IsWithinLimits (record { repos = repos; users = users; refs = refs }) }
        ensures { result ≡ record { repos = repos; users = users; refs = refs } }
    {
        Questions { repos, users, refs }
    }

    pub fn repos(&self) -> &[AskedRepo]
        ensures { result.now ≡ self.now.repos }
    {
        self.repos.as_slice()
    }

    pub fn users(&self) -> &[UserName]
        ensures { result.now ≡ self.now.users }
    {
        self.users.as_slice()
    }

    pub fn refs(&self) -> &[RefName]
        ensures { result.now ≡ self.now.refs }
    {
        self.refs.as_slice()
    }

    /// How many questions there are of one repository and one user.
    pub(crate) fn per_user(&self) -> u64
        ensures count { result ≡ per_user self.now }
        ensures limits { IsWithinLimits self.now }
    {
        2 + 4 * self.refs.len() as u64
    }

    /// How many questions there are.
    pub fn count(&self) -> u64
        ensures count { result ≡ count self.now }
        ensures limit { result ≤ 1000000 }
    {
        self.repos.len() as u64 * self.users.len() as u64 * self.per_user()
    }
}
