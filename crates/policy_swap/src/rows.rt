// What is below the folder `conf`.
ghost use Rattle.std.specs.Prelude.{◌≡◌, ◌<◌, ◌+◌, ◌++◌, ◌∷◌, [], List, ℕ, length, nat_lt, nat_le, IfOk, MatchResult, Some, None, Option, map};
ghost use Rattle.std.specs.Option.{option_copied};
ghost use Rattle.git_object.specs.Tree.{Entry, entry_of, is_directory};
ghost use Rattle.git_object.specs.declared.object_id.ObjectId.{ObjectId};
ghost use Rattle.vref.specs.Rows.{Name, entry_at, entry_named, object_at};
ghost use Rattle.vref.specs.Walk.{tree_at};
ghost use Rattle.conf_groups.specs.declared.conf_file.TheConstants.{MAX_FILE_NAME};
ghost use Rattle.policy_swap.specs.Conf.{file_of, is_conf_mode, text_in};
ghost use Rattle.policy_swap.specs.Rows.{Expands, Goes, IsFront, IsWalked, Stops, file_row, front_below, row_of};
ghost use Rattle.policy_swap.specs.Trees.{AreEntries, AreRight};

use crate::trees::Trees;
use base_types::{NoMemory, Text};
use conf_groups::MAX_FILE_NAME;
use git_object::{Kind, Object, ObjectId, TreeEntry};
use ref_store::Lens;
use std::alloc::{AllocError, AllocFailed, Global};
use std::marker::Model;

/// How many rows there may be below the folder `conf`: files, directories and all else.
pub const MAX_ROWS: usize = 10_000;

/// The bytes of a blob, where they lie.
#[derive(Drop)]
pub struct Body<'l> {
    bytes: &'l [u8],
}

impl<'l> Model for Body<'l> {
    ghost use Rattle.std.specs.Prelude.{List, ℕ};
    ghost use Rattle.std.specs.Coded.{coded_list, coded_ℕ};

    ghost Value = { List ℕ };

    ghost coded = { coded_list coded_ℕ };

    ghost view = { λ b. b.bytes.now };
}

impl<'l> Body<'l> {
    pub fn bytes(&self) -> &'l [u8]
        ensures { result.now ≡ self.now }
    {
        self.bytes
    }
}

/// A directory: its tree, and what comes before the names in it, where that leaves room for the name of a
/// file.
#[derive(Drop)]
pub struct Folder {
    front: Option<Text>,
    tree: Option<ObjectId>,
}

/// A file of the conf: its name below `conf/`, and its bytes.
#[derive(Drop)]
pub struct Found<'l> {
    pub path: Text,
    pub body: Body<'l>,
}

/// A row: what is at one path. The folder `conf` itself is the first.
#[derive(Drop)]
pub enum Row<'l> {
    Directory(Folder),
    File(Found<'l>),
    /// No file of the conf, and nothing is below it.
    Other,
}

/// Why a walk stops early.
#[derive(Clone, Copy)]
pub enum Stop {
    TooManyRows,
    NoMemory,
}

impl From<NoMemory> for Stop {
    ghost use Rattle.policy_swap.specs.declared.rows.Stop.TheVariants.{NoMemory};

    ghost from_gives = { λ _ stop. stop ≡ NoMemory };

    fn from(_error: NoMemory) -> Stop {
        Stop::NoMemory
    }
}

impl<T: Drop> From<AllocFailed<T>> for Stop {
    ghost use Rattle.policy_swap.specs.declared.rows.Stop.TheVariants.{NoMemory};

    ghost from_gives = { λ _ stop. stop ≡ NoMemory };

    fn from(_error: AllocFailed<T>) -> Stop {
        Stop::NoMemory
    }
}

/// What is below a tree, and the tree itself as the first row. Without an id it is the empty tree. It stops
/// at the first row that is too many.
pub fn walk_rows<'l>(
    alloc: Global,
    lens: &'l Lens,
    tree: Option<ObjectId>,
) -> Result<Vec<Row<'l>>, Stop>
    ensures { MatchResult result (λ rows. IsWalked lens.now tree rows.items) (Stops lens.now tree) }
{
    let mut rows = Vec::new(alloc);
    let front = Some(Text::of(alloc, b"")?);
    rows.push(Row::Directory(Folder { front, tree }))?;
    let mut trees = Trees::new(alloc, lens);
    let mut at = 0;
    while at < rows.len() {
        expand_row(alloc, lens, &mut trees, &mut rows, at)?;
        at += 1;
    }
    Ok(rows)
}

// Adds what is right below a row.
fn expand_row<'l>(
    alloc: Global,
    lens: &'l Lens,
    trees: &mut Trees<'l>,
    rows: &mut Vec<Row<'l>>,
    at: usize,
) -> Result<(), Stop>
    requires place { at < length rows.old.items }
    requires right { AreRight lens.now trees.old }
    ensures goes { (tree : Option ObjectId) → Goes lens.now tree rows.old.items at → MatchResult result (λ _. Goes lens.now tree rows.new.items (at + 1)) (Stops lens.now tree) }
    ensures right { AreRight lens.now trees.new }
{
    let Row::Directory(folder) = &rows[at] else {
        return Ok(());
    };
    let Some(id) = folder.tree else {
        return Ok(());
    };
    let front = copy_front(&folder.front)?;
    trees.read_tree(alloc, lens, id)?;
    add_entries(alloc, lens, rows, &front, trees.entries_of(lens, id))
}

// Adds a row for each entry of a tree.
fn add_entries<'l>(
    alloc: Global,
    lens: &'l Lens,
    rows: &mut Vec<Row<'l>>,
    front: &Option<Text>,
    list: &[TreeEntry<'l>],
) -> Result<(), Stop>
    ensures { (tree : Option ObjectId) (at : ℕ) (names : List Name) → IsFront names front.now
        → AreEntries (object_at lens.now (tree_at lens.now tree names)) list.now
        → Expands lens.now tree rows.old.items at names []
        → MatchResult result (λ _. Expands lens.now tree rows.new.items at names (map entry_of list.now)) (Stops lens.now tree) }
{
    for entry in list {
        add_row(alloc, lens, rows, front, entry)?;
    }
    Ok(())
}

// Adds the row of an entry.
fn add_row<'l>(
    alloc: Global,
    lens: &'l Lens,
    rows: &mut Vec<Row<'l>>,
    front: &Option<Text>,
    entry: &TreeEntry<'l>,
) -> Result<(), Stop>
    ensures { (tree : Option ObjectId) (at : ℕ) (names : List Name) (seen : List Entry) → IsFront names front.now
        → entry_named seen entry.now.name.now ≡ None
        → entry_at lens.now (tree_at lens.now tree names) entry.now.name.now ≡ Some (entry_of entry.now)
        → Expands lens.now tree rows.old.items at names seen
        → MatchResult result (λ _. Expands lens.now tree rows.new.items at names (seen ++ entry_of entry.now ∷ [])) (Stops lens.now tree) }
{
    let row = row_of(alloc, lens, front, entry)?;
    rows.push(row)?;
    if are_too_many(rows) {
        return Err(Stop::TooManyRows);
    }
    Ok(())
}

// Whether there are more rows than there may be below the first.
fn are_too_many(rows: &Vec<Row<'_>>) -> bool
    ensures { result ≡ nat_lt (MAX_ROWS + 1) (length rows.now.items) }
{
    rows.len() > MAX_ROWS + 1
}

fn copy_front(front: &Option<Text>) -> Result<Option<Text>, NoMemory>
    ensures { IfOk result (λ copy. copy ≡ front.now) }
{
    match front {
        Some(text) => Ok(Some(text.clone()?)),
        None => Ok(None),
    }
}

pub fn object_at<'l>(lens: &'l Lens, tree: Option<ObjectId>) -> Option<&'l Object>
    ensures { option_copied result ≡ object_at lens.now tree }
{
    match tree {
        Some(id) => lens.get(id),
        None => None,
    }
}

pub fn is_directory(entry: &TreeEntry<'_>) -> bool
    ensures { result ≡ is_directory (entry_of entry.now) }
{
    entry.mode == b"40000".as_slice()
}

fn is_conf_mode(mode: &[u8]) -> bool
    ensures { result ≡ is_conf_mode mode.now }
{
    mode == b"100644".as_slice() || mode == b"100755".as_slice() || mode == b"100664".as_slice()
}

// The row of an entry, by what comes before its name.
fn row_of<'l>(
    alloc: Global,
    lens: &'l Lens,
    front: &Option<Text>,
    entry: &TreeEntry<'l>,
) -> Result<Row<'l>, NoMemory>
    ensures { IfOk result (λ row. row ≡ row_of lens.now front.now (entry_of entry.now)) }
{
    if is_directory(entry) {
        let front = front_below(alloc, front, entry.name)?;
        let tree = Some(entry.id);
        return Ok(Row::Directory(Folder { front, tree }));
    }
    match front {
        Some(front) => file_row(alloc, lens, front.bytes(), entry),
        None => Ok(Row::Other),
    }
}

// What comes before the names in a directory of this name.
fn front_below(alloc: Global, front: &Option<Text>, name: &[u8]) -> Result<Option<Text>, NoMemory>
    ensures { IfOk result (λ below. below ≡ front_below front.now name.now) }
{
    let Some(front) = front else {
        return Ok(None);
    };
    // The length is looked at before the text is put together: a name may have millions of bytes.
    if !is_short(front.bytes(), name, 1) {
        return Ok(None);
    }
    let text = join_texts(alloc, front.bytes(), name, b"/")?;
    Ok(Some(text))
}

// The row of an entry that is no directory.
fn file_row<'l>(
    alloc: Global,
    lens: &'l Lens,
    front: &[u8],
    entry: &TreeEntry<'l>,
) -> Result<Row<'l>, NoMemory>
    ensures { IfOk result (λ row. row ≡ file_row (front.now ++ entry.now.name.now) (file_of lens.now (front.now ++ entry.now.name.now) (Some (entry_of entry.now)))) }
{
    let Some(body) = file_body(lens, front, entry) else {
        return Ok(Row::Other);
    };
    let path = join_texts(alloc, front, entry.name, b"")?;
    Ok(Row::File(Found { path, body }))
}

// The bytes of a file, if the entry is one.
fn file_body<'l>(lens: &'l Lens, front: &[u8], entry: &TreeEntry<'l>) -> Option<Body<'l>>
    ensures { result ≡ file_of lens.now (front.now ++ entry.now.name.now) (Some (entry_of entry.now)) }
{
    if !is_conf_mode(entry.mode) {
        return None;
    }
    if !is_short(front, entry.name, 0) {
        return None;
    }
    text_in(lens.get(entry.id))
}

fn text_in<'l>(object: Option<&'l Object>) -> Option<Body<'l>>
    ensures { result ≡ text_in (option_copied object.entry) }
{
    let Some(object) = object else {
        return None;
    };
    match object.kind() {
        Kind::Blob => Some(Body {
            bytes: object.body(),
        }),
        Kind::Commit | Kind::Tree | Kind::Tag => None,
    }
}

// Whether a front, a name and so many bytes more aren't too long for a file's name.
fn is_short(front: &[u8], name: &[u8], more: usize) -> bool
    requires { more < 2 }
    ensures { result ≡ nat_le (length front.now + length name.now + more) MAX_FILE_NAME }
{
    front.len() + name.len() + more <= MAX_FILE_NAME
}

fn join_texts(alloc: Global, front: &[u8], name: &[u8], back: &[u8]) -> Result<Text, NoMemory>
    ensures { IfOk result (λ text. text ≡ front.now ++ name.now ++ back.now) }
{
    let mut bytes = front.to_vec(alloc)?;
    bytes.extend_from_slice(name)?;
    bytes.extend_from_slice(back)?;
    Ok(Text::from(bytes))
}
