// The objects that an object names.
ghost use Rattle.std.specs.Prelude.{◌≡◌, ◌∷◌, [], option_to_list, MatchOption};
ghost use Rattle.std.specs.List.{filter_map};
ghost use Rattle.git_object.specs.Tree.{entry_of};
ghost use Rattle.git_object.specs.Object.{entry_link, links_of};
ghost use Rattle.git_object.specs.Tag.{target_of};
ghost use Rattle.git_object.specs.declared.kind.Kind.TheVariants.{Commit, Tree, Tag};

use crate::commit::{Parents, tree_line};
use crate::kind::Kind;
use crate::object_id::ObjectId;
use crate::tag::target_of;
use crate::tree::{TreeEntries, TreeEntry};
use std::marker::Model;

/// The objects that an object names, each with the kind that it wants. A contract sees those that are left.
#[derive(Debug, Drop)]
pub struct Links<'a> {
    first: Option<(ObjectId, Kind)>,
    parents: Parents<'a>,
    entries: TreeEntries<'a>,
}

impl<'a> Model for Links<'a> {
    ghost use Rattle.std.specs.Prelude.{List, ◌++◌, option_to_list};
    ghost use Rattle.std.specs.List.{filter_map};
    ghost use Rattle.git_object.specs.declared.object_id.ObjectId.{ObjectId};
    ghost use Rattle.git_object.specs.declared.kind.Kind.{Kind};
    ghost use Rattle.git_object.specs.Object.{commit_links, entry_link};

    ghost Value = { List (ObjectId × Kind) };

    ghost view = { λ l. option_to_list l.first ++ (commit_links l.parents ++ filter_map entry_link l.entries) };
}

impl<'a> Links<'a> {
    pub(crate) fn none() -> Links<'a>
        ensures { result ≡ [] }
    {
        Links {
            first: None,
            parents: Parents::none(),
            entries: TreeEntries::none(),
        }
    }

    pub(crate) fn of_commit(body: &'a [u8]) -> Links<'a>
        ensures { result ≡ links_of Commit body.now }
    {
        let Some((tree, _)) = tree_line(body) else {
            return Links::none();
        };
        Links {
            first: Some((tree, Kind::Tree)),
            parents: Parents::of(body),
            entries: TreeEntries::none(),
        }
    }

    pub(crate) fn of_tree(body: &'a [u8]) -> Links<'a>
        ensures { result ≡ links_of Tree body.now }
    {
        Links {
            first: None,
            parents: Parents::none(),
            entries: TreeEntries::of(body),
        }
    }

    pub(crate) fn of_tag(body: &'a [u8]) -> Links<'a>
        ensures { result ≡ links_of Tag body.now }
    {
        Links {
            first: target_of(body),
            parents: Parents::none(),
            entries: TreeEntries::none(),
        }
    }
}

impl<'a> Iterator for Links<'a> {
    ghost use Rattle.std.specs.Iterator.{YieldsFirst, item_count};

    type Item = (ObjectId, Kind);

    ghost next_gives = { YieldsFirst (λ left. left) };

    ghost remaining = { item_count (λ left. left) };

    fn next(&mut self) -> Option<(ObjectId, Kind)> {
        if let Some(first) = self.first.take() {
            return Some(first);
        }
        if let Some(parent) = self.parents.next() {
            return Some((parent, Kind::Commit));
        }
        next_entry_link(&mut self.entries)
    }
}

// The link of an entry.
fn entry_link(entry: &TreeEntry<'_>) -> Option<(ObjectId, Kind)>
    ensures { result ≡ entry_link (entry_of entry.now) }
{
    if entry.mode == b"160000".as_slice() {
        return None;
    }
    if entry.mode == b"40000".as_slice() {
        return Some((entry.id, Kind::Tree));
    }
    Some((entry.id, Kind::Blob))
}

// The link of the first entry that has one.
fn next_entry_link(entries: &mut TreeEntries<'_>) -> Option<(ObjectId, Kind)>
    ensures { MatchOption result
        ((filter_map entry_link entries.old ≡ []) × (filter_map entry_link entries.new ≡ []))
        (λ link. filter_map entry_link entries.old ≡ link ∷ filter_map entry_link entries.new) }
{
    while let Some(entry) = entries.next() {
        if let Some(link) = entry_link(&entry) {
            return Some(link);
        }
    }
    None
}
