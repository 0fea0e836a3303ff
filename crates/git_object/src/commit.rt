// Commits.
ghost use Rattle.std.specs.Prelude.{◌≡◌, ◌<◌, ◌≤◌, IfSome, length};
ghost use Rattle.git_object.specs.Commit.{commit_break, parent_ids, parent_line, tree_line};
ghost use Rattle.git_object.specs.Reader.{behind};
ghost use Rattle.std.specs.Option.{option_map};

use crate::object::MAX_BODY;
use crate::object_id::{ObjectId, id_line};
use crate::reader::literal;
use std::marker::Model;

/// The parents of a commit, in the order of their lines. A contract sees the ids that are left.
#[derive(Debug, Drop)]
pub struct Parents<'a> {
    lines: &'a [u8],
}

impl<'a> Model for Parents<'a> {
    ghost use Rattle.std.specs.Prelude.{List};
    ghost use Rattle.git_object.specs.declared.object_id.ObjectId.{ObjectId};
    ghost use Rattle.git_object.specs.Commit.{parent_line};
    ghost use Rattle.git_object.specs.Reader.{items};

    ghost Value = { List ObjectId };

    ghost view = { λ p. items parent_line p.lines.now };
}

impl<'a> Parents<'a> {
    ghost use Rattle.std.specs.Prelude.{[]};

    // No parents.
    pub(crate) fn none() -> Parents<'a>
        ensures { result ≡ [] }
    {
        Parents { lines: &[] }
    }

    // Those of a commit's body.
    pub(crate) fn of(body: &'a [u8]) -> Parents<'a>
        ensures parents { result ≡ parent_ids body.now }
        ensures few { length result ≤ length body.now }
    {
        match tree_line(body) {
            Some((_, lines)) => Parents { lines },
            None => Parents::none(),
        }
    }
}

impl<'a> Iterator for Parents<'a> {
    ghost use Rattle.std.specs.Iterator.{YieldsFirst, item_count};

    type Item = ObjectId;

    ghost next_gives = { YieldsFirst (λ left. left) };

    ghost remaining = { item_count (λ left. left) };

    fn next(&mut self) -> Option<ObjectId> {
        let (id, rest) = parent_line(self.lines)?;
        self.lines = rest;
        Some(id)
    }
}

// The tree that a commit's body names, and what follows its line.
pub(crate) fn tree_line(body: &[u8]) -> Option<(ObjectId, &[u8])>
    ensures line { option_map (λ r. (r.0, r.1.now)) result ≡ tree_line body.now }
    ensures shorter { IfSome result (λ r. length r.1.now < length body.now) }
{
    id_line(body, b"tree ")
}

fn parent_line(lines: &[u8]) -> Option<(ObjectId, &[u8])>
    ensures line { option_map (λ r. (r.0, r.1.now)) result ≡ parent_line lines.now }
    ensures shorter { IfSome result (λ r. length r.1.now < length lines.now) }
{
    id_line(lines, b"parent ")
}

// What follows the last of the parents' lines at the front.
fn behind_parents(lines: &[u8]) -> &[u8]
    ensures behind { result.now ≡ behind parent_line lines.now }
    ensures len { length result.now ≤ length lines.now }
{
    let mut rest = lines;
    while let Some((_, after)) = parent_line(rest) {
        rest = after;
    }
    rest
}

// Where the first line that breaks the form begins.
pub(crate) fn commit_break(body: &[u8]) -> Option<u32>
    requires { length body.now ≤ MAX_BODY }
    ensures { result ≡ commit_break body.now }
{
    let Some((_, lines)) = tree_line(body) else {
        return Some(0);
    };
    let rest = behind_parents(lines);
    match literal(rest, b"parent ") {
        Some(_) => Some((body.len() - rest.len()) as u32),
        None => None,
    }
}
