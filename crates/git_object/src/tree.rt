// Trees.
ghost use Rattle.std.specs.Prelude.{◌≡◌, ◌==◌, ◌∷◌, [], if◌then◌else◌, ◌≤◌, List, length, IfOk};
ghost use Rattle.std.specs.Option.{option_map};
ghost use Rattle.std.specs.List.{list_any};
ghost use Rattle.git_object.specs.Tree.{Entry, entry_of, id_at, is_directory, is_entry_name, is_mode, may_follow, sort_key, sorts_below, tree_break, tree_entry};

use crate::object::MAX_BODY;
use crate::object_id::ObjectId;
use crate::reader::up_to;
use base_types::NoMemory;
use std::alloc::Global;
use std::marker::Model;

/// An entry of a tree: its mode in octal digits, its name, and the object there.
#[derive(Clone, Copy, Debug, PartialEq, Eq)]
pub struct TreeEntry<'a> {
    pub mode: &'a [u8],
    pub name: &'a [u8],
    pub id: ObjectId,
}

/// The entries of a tree, in order. A contract sees those that are left.
#[derive(Debug, Drop)]
pub struct TreeEntries<'a> {
    bytes: &'a [u8],
}

impl<'a> Model for TreeEntries<'a> {
    ghost use Rattle.std.specs.Prelude.{List};
    ghost use Rattle.git_object.specs.Tree.{Entry, tree_entry};
    ghost use Rattle.git_object.specs.Reader.{items};

    ghost Value = { List Entry };

    ghost view = { λ e. items tree_entry e.bytes.now };
}

impl<'a> TreeEntries<'a> {
    ghost use Rattle.std.specs.Prelude.{[]};
    ghost use Rattle.git_object.specs.Tree.{tree_entry};
    ghost use Rattle.git_object.specs.Reader.{items};

    // No entries.
    pub(crate) fn none() -> TreeEntries<'a>
        ensures { result ≡ [] }
    {
        TreeEntries { bytes: &[] }
    }

    // Those of a tree's body.
    pub(crate) fn of(body: &'a [u8]) -> TreeEntries<'a>
        ensures entries { result ≡ items tree_entry body.now }
        ensures few { length result ≤ length body.now }
    {
        TreeEntries { bytes: body }
    }
}

impl<'a> Iterator for TreeEntries<'a> {
    ghost use Rattle.std.specs.Iterator.{YieldsFirstBy, item_count};

    type Item = TreeEntry<'a>;

    ghost next_gives = { YieldsFirstBy entry_of (λ left. left) };

    ghost remaining = { item_count (λ left. left) };

    fn next(&mut self) -> Option<TreeEntry<'a>> {
        let (entry, rest) = tree_entry(self.bytes)?;
        self.bytes = rest;
        Some(entry)
    }
}

fn is_mode(mode: &[u8]) -> bool
    ensures { result ≡ is_mode mode.now }
{
    mode == b"40000".as_slice()
        || mode == b"100644".as_slice()
        || mode == b"100664".as_slice()
        || mode == b"100755".as_slice()
        || mode == b"120000".as_slice()
        || mode == b"160000".as_slice()
}

fn has_slash(name: &[u8]) -> bool
    ensures { result ≡ list_any (λ c. c == 47) name.now }
{
    name.iter().any(|c| *c == b'/')
}

fn is_entry_name(name: &[u8]) -> bool
    ensures { result ≡ is_entry_name name.now }
{
    !name.is_empty() && !has_slash(name)
}

fn id_at(bytes: &[u8]) -> Option<(ObjectId, &[u8])>
    ensures { option_map (λ r. (r.0, r.1.now)) result ≡ id_at bytes.now }
{
    let (id, rest) = bytes.split_first_chunk::<20>()?;
    Some((ObjectId { bytes: *id }, rest))
}

// The entry at the front, and what follows it.
#[tactic(auto, unfolding(crate::specs::Tree::tree_entry))]
fn tree_entry(bytes: &[u8]) -> Option<(TreeEntry<'_>, &[u8])>
    ensures { option_map (λ r. (entry_of r.0, r.1.now)) result ≡ tree_entry bytes.now }
{
    let (mode, after) = up_to(bytes, b' ')?;
    let (name, after) = up_to(after, 0)?;
    let (id, rest) = id_at(after)?;
    if is_mode(mode) && is_entry_name(name) {
        return Some((TreeEntry { mode, name, id }, rest));
    }
    None
}

fn is_directory(entry: &TreeEntry<'_>) -> bool
    ensures { result ≡ is_directory (entry_of entry.now) }
{
    entry.mode == b"40000".as_slice()
}

// What is put behind the name of a directory where names are compared.
fn slash(entry: &TreeEntry<'_>) -> &'static [u8]
    ensures { result.now ≡ (if is_directory (entry_of entry.now) then 47 ∷ [] else []) }
{
    if is_directory(entry) {
        return b"/";
    }
    b""
}

fn sorts_below(first: &TreeEntry<'_>, second: &TreeEntry<'_>) -> bool
    ensures { result ≡ sorts_below (entry_of first.now) (entry_of second.now) }
{
    let first_key = first.name.iter().chain(slash(first).iter());
    let second_key = second.name.iter().chain(slash(second).iter());
    first_key.cmp(second_key).is_lt()
}

// What the check of a tree keeps of the entries before: the nearest, and the names of the files, which
// ascend. Only a directory may sort above an entry of its own name, and that is a file.
#[derive(Drop)]
struct Before<'a> {
    nearest: Option<TreeEntry<'a>>,
    files: Vec<&'a [u8]>,
}

impl<'a> Before<'a> {
    ghost use Rattle.std.specs.Prelude.{List, [], ◌∷◌, true};
    ghost use Rattle.std.specs.List.{list_any};
    ghost use Rattle.std.specs.Option.{option_map_or};
    ghost use Rattle.std.specs.Str.{bytes_eq};
    ghost use Rattle.git_object.specs.Tree.{Entry};
    ghost use Rattle.git_object.specs.Before.{file_names, Keeps};

    fn new(alloc: Global) -> Before<'a>
        ensures { Keeps result [] }
    {
        Before {
            nearest: None,
            files: Vec::new(alloc),
        }
    }

    // Whether an entry sorts above the nearest of those before.
    fn rises(&self, entry: &TreeEntry<'_>) -> bool
        ensures { result ≡ option_map_or (λ nearest. sorts_below (entry_of nearest) (entry_of entry.now)) self.now.nearest true }
    {
        match &self.nearest {
            Some(nearest) => sorts_below(nearest, entry),
            None => true,
        }
    }

    // Whether a file before has this name.
    fn has_file(&self, name: &'a [u8]) -> bool
        ensures { (before : List Entry) → Keeps self.now before → result ≡ list_any (λ n. bytes_eq n name.now) (file_names before) }
    {
        self.files.binary_search(&name).is_ok()
    }

    // Whether an entry may stand behind those before. If so, it is kept as one of them.
    fn add(&mut self, entry: TreeEntry<'a>) -> Result<bool, NoMemory>
        ensures { (before : List Entry) → Keeps self.old before → IfOk result (λ may.
            (may ≡ may_follow before (entry_of entry.entry)) × (may ≡ true → Keeps self.new (entry_of entry.entry ∷ before))) }
    {
        if !self.rises(&entry) {
            return Ok(false);
        }
        if is_directory(&entry) {
            if self.has_file(entry.name) {
                return Ok(false);
            }
            self.nearest = Some(entry);
            return Ok(true);
        }
        self.files.push(entry.name)?;
        self.nearest = Some(entry);
        Ok(true)
    }
}

// Where the first entry that breaks the form begins.
pub(crate) fn tree_break(alloc: Global, body: &[u8]) -> Result<Option<u32>, NoMemory>
    requires { length body.now ≤ MAX_BODY }
    ensures { IfOk result (λ at. at ≡ tree_break body.now) }
{
    let mut before = Before::new(alloc);
    let mut rest = body;
    while !rest.is_empty() {
        let at = (body.len() - rest.len()) as u32;
        let Some((entry, after)) = tree_entry(rest) else {
            return Ok(Some(at));
        };
        let may_follow = before.add(entry)?;
        if !may_follow {
            return Ok(Some(at));
        }
        rest = after;
    }
    Ok(None)
}
