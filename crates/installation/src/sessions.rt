// What the sessions of the generated installation send.
ghost use Rattle.std.specs.Prelude.{◌≡◌, ◌≤◌, ◌<◌, ◌+◌, ◌*◌, IfOk, length};
ghost use Rattle.installation.specs.Draws.{drawn, drawn_behind};
ghost use Rattle.installation.specs.Sessions.{first_input, pushing_conf, ref_of, sending_conf, visit_behind, visit_input};

use crate::conf::{USERS, conf_text, repo_bytes, user_name};
use crate::draws::Draws;
use crate::objects::{author_lines, commit_body, name_of, tree_body};
use crate::sending::{Change, Packed, pushing};
use base_types::NoMemory;
use git_object::{Kind, ObjectId};
use std::alloc::Global;

/// The first session's input, and the draws that it leaves.
#[derive(Drop)]
pub struct First {
    pub input: Vec<u8>,
    pub draws: Draws,
}

/// Who pushes to which ref of which repository.
#[derive(Clone, Copy, Debug)]
pub struct Visit {
    pub user: u32,
    pub repo: u32,
    /// The ref is `refs/heads/master`, or else `refs/heads/topic`.
    pub on_master: bool,
}

impl Visit {
    /// The ref's name.
    pub fn ref_name(&self) -> &'static [u8]
        ensures { result.now ≡ ref_of self.now.on_master }
    {
        if self.on_master {
            b"refs/heads/master"
        } else {
            b"refs/heads/topic"
        }
    }
}

// The push of a commit in `gitolite-admin`, and of what it leads to.
fn send_conf(
    alloc: Global,
    commit: &[u8],
    root: &[u8],
    folder: &[u8],
    text: &[u8],
) -> Result<Vec<u8>, NoMemory>
    requires short { length commit.now + length root.now + length folder.now ≤ 1000 }
    requires text { length text.now ≤ 2000000 }
    ensures { IfOk result (λ input. input.items ≡ sending_conf commit.now root.now folder.now text.now) }
{
    let change = Change {
        old: ObjectId::zero(),
        new: name_of(Kind::Commit, commit),
        name: b"refs/heads/master",
    };
    let contents = [
        Packed {
            kind: Kind::Commit,
            body: commit,
        },
        Packed {
            kind: Kind::Tree,
            body: root,
        },
        Packed {
            kind: Kind::Tree,
            body: folder,
        },
        Packed {
            kind: Kind::Blob,
            body: text,
        },
    ];
    pushing(alloc, b"admin", b"gitolite-admin", &change, &contents)
}

// The push of a conf, whose four objects go from the commit down.
#[tactic(auto, unfolding(crate::specs::Sessions::pushing_conf))]
fn push_conf(alloc: Global, text: &[u8]) -> Result<Vec<u8>, NoMemory>
    requires { length text.now ≤ 2000000 }
    ensures { IfOk result (λ input. input.items ≡ pushing_conf text.now) }
{
    let folder = tree_body(
        alloc,
        b"100644",
        b"gitolite.conf",
        name_of(Kind::Blob, text),
    )?;
    let root = tree_body(alloc, b"40000", b"conf", name_of(Kind::Tree, &folder))?;
    let commit = commit_body(alloc, name_of(Kind::Tree, &root), b"")?;
    send_conf(alloc, &commit, &root, &folder, text)
}

/// The first session, in which the admin pushes the conf of so many repositories.
#[tactic(auto, unfolding(crate::specs::Sessions::first_input))]
pub fn first_input(alloc: Global, count: u32, start: u32) -> Result<First, NoMemory>
    requires { count ≤ 5000 }
    ensures input { IfOk result (λ first. first.input.items ≡ first_input count start) }
    ensures draws { IfOk result (λ first. first.draws.last ≡ drawn start (2 * count)) }
{
    let mut draws = Draws::new(start);
    let text = conf_text(alloc, count, start, &mut draws)?;
    let input = push_conf(alloc, &text)?;
    Ok(First { input, draws })
}

/// The next visit, where there are so many repositories.
#[tactic(auto, unfolding(crate::specs::Sessions::visit_behind))]
pub fn next_visit(count: u32, draws: &mut Draws) -> Visit
    requires { 0 < count }
    ensures visit { result ≡ visit_behind count draws.old.last }
    ensures draws { draws.new.last ≡ drawn_behind (drawn_behind (drawn_behind draws.old.last)) }
{
    let user = draws.next() % USERS;
    let repo = draws.next() % count;
    let on_master = draws.next() % 2 == 0;
    Visit {
        user,
        repo,
        on_master,
    }
}

/// A visit's session: a push of a commit that nothing else names, by the session's number, from the ref's
/// value.
#[tactic(auto, unfolding(crate::specs::Sessions::visit_input))]
pub fn visit_input(
    alloc: Global,
    number: u32,
    visit: &Visit,
    old: ObjectId,
) -> Result<Vec<u8>, NoMemory>
    ensures { IfOk result (λ input. input.items ≡ visit_input number visit.now old) }
{
    let user = user_name(alloc, visit.user)?;
    let repo = repo_bytes(alloc, visit.repo)?;
    let lines = author_lines(alloc, number)?;
    let commit = commit_body(alloc, name_of(Kind::Tree, b""), &lines)?;
    let change = Change {
        old,
        new: name_of(Kind::Commit, &commit),
        name: visit.ref_name(),
    };
    let contents = [
        Packed {
            kind: Kind::Commit,
            body: &commit,
        },
        Packed {
            kind: Kind::Tree,
            body: b"",
        },
    ];
    pushing(alloc, &user, &repo, &change, &contents)
}
