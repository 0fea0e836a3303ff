// The walk over two trees at once.
ghost use Rattle.std.specs.Prelude.{◌≡◌, ◌↔◌, ◌+◌, ◌<◌, ◌≤◌, ◌++◌, ◌∷◌, ◌||◌, [], List, length, map, nat_lt, reverse, slice_index_or, IsTrue, MatchResult, IfErr, IfOk, OnOk, Option, None, Some};
ghost use Rattle.std.specs.List.{All};
ghost use Rattle.std.specs.Option.{option_copied, option_map};
ghost use Rattle.git_object.specs.Tree.{entry_of};
ghost use Rattle.git_object.specs.Content.{Content};
ghost use Rattle.vref.specs.Rows.{object_at, tree_below};
ghost use Rattle.vref.specs.Paths.{is_file};
ghost use Rattle.vref.specs.PathTable.{IsWithin, paths_of};
ghost use Rattle.vref.specs.Walk.{AreShort, Differing, has_tree, IsDirectory, IsDirectoryOf, IsTooLong, IsWalking, items_from, key_cmp, key_of, next_of, row_of, SortsItems, Stops, tail_of};
ghost use Rattle.vref.specs.Comparisons.{IsSound};
ghost use Rattle.vref.specs.Differences.{new_entry, old_entry};

use crate::comparisons::{Comparisons, TreePair};
use crate::differences::{Difference, differences_between, is_directory};
use crate::path_table::Row;
use base_types::NoMemory;
use git_object::{Object, ObjectId, TreeEntry};
use ref_store::Lens;
use std::alloc::{AllocError, AllocFailed, Global};
use std::cmp::Ordering;

/// At how many paths two trees differ at most for which paths are listed.
pub const MAX_ROWS: usize = 200_000;

/// How many bytes such a path has at most.
pub const MAX_PATH: usize = 4096;

/// Why a walk stops early.
#[derive(Clone, Copy)]
pub enum Stop {
    /// The trees differ at more than `MAX_ROWS` paths, or at one of more than `MAX_PATH` bytes.
    TooMuch,
    NoMemory,
}

impl From<NoMemory> for Stop {
    ghost use Rattle.vref.specs.declared.walk.Stop.TheVariants.{NoMemory};

    ghost from_gives = { λ _ stop. stop ≡ NoMemory };

    fn from(_error: NoMemory) -> Stop {
        Stop::NoMemory
    }
}

impl From<AllocError> for Stop {
    ghost use Rattle.vref.specs.declared.walk.Stop.TheVariants.{NoMemory};

    ghost from_gives = { λ _ stop. stop ≡ NoMemory };

    fn from(_error: AllocError) -> Stop {
        Stop::NoMemory
    }
}

impl<T: Drop> From<AllocFailed<T>> for Stop {
    ghost use Rattle.vref.specs.declared.walk.Stop.TheVariants.{NoMemory};

    ghost from_gives = { λ _ stop. stop ≡ NoMemory };

    fn from(_error: AllocFailed<T>) -> Stop {
        Stop::NoMemory
    }
}

/// The rows of the paths at which two trees differ, and their places in the order of the bytes of their
/// paths.
#[derive(Drop)]
pub struct Walked<'a> {
    pub rows: Vec<Row<'a>>,
    pub order: Vec<usize>,
}

/// The paths at which two trees differ. Without an id a side is the empty tree.
pub fn walk_trees<'a>(
    alloc: Global,
    lens: &'a Lens,
    old: Option<ObjectId>,
    new: Option<ObjectId>,
) -> Result<Walked<'a>, Stop>
    ensures { MatchResult result (λ w. IsWalking lens.now old new w.rows.items w.order.items []) (Stops lens.now old new) }
{
    let mut walker = Walker {
        rows: Vec::new(alloc),
        order: Vec::new(alloc),
        work: Vec::new(alloc),
    };
    walker.work.push(Item {
        name: b"",
        task: Task::Enter(None),
    })?;
    let mut compared = Comparisons::new(alloc, lens);
    let root = Directory {
        place: None,
        old,
        new,
        front: 0,
    };
    while let Some(item) = walker.work.pop() {
        walker.run_task(alloc, lens, root, &mut compared, item.task)?;
    }
    let Walker {
        rows,
        order,
        work: _work,
    } = walker;
    Ok(Walked { rows, order })
}

/// A directory: the place of its row, or none for the root; its tree on either side; and how many bytes come
/// before the names in it.
#[derive(Clone, Copy)]
pub struct Directory {
    place: Option<usize>,
    old: Option<ObjectId>,
    new: Option<ObjectId>,
    front: usize,
}

/// What is to be done.
#[derive(Clone, Copy)]
pub enum Task {
    /// The row at this place is the next one.
    Put(usize),
    /// The trees of the directory at this place are compared.
    Enter(Option<usize>),
}

/// What is to be done, with the name of its row, by which it is sorted among what lies in the same directory.
#[derive(Clone, Copy)]
pub struct Item<'a> {
    name: &'a [u8],
    task: Task,
}

/// The rows that were found, the places of those that are in order, and what is left to do; the last of it
/// comes next.
#[derive(Drop)]
pub struct Walker<'a> {
    rows: Vec<Row<'a>>,
    order: Vec<usize>,
    work: Vec<Item<'a>>,
}

impl<'a> Walker<'a> {
    ghost use Rattle.vref.specs.Walk.{IsSpent};
    ghost use Rattle.vref.specs.declared.walk.Task.TheVariants.{Put, Enter};

    fn run_task(
        &mut self,
        alloc: Global,
        lens: &'a Lens,
        root: Directory,
        compared: &mut Comparisons<'a>,
        task: Task,
    ) -> Result<(), Stop>
        requires walking { IsWalking lens.now root.old root.new self.old.rows.items self.old.order.items (task ∷ next_of self.old.work.items) }
        requires root { root.place ≡ None }
        requires front { root.front ≡ 0 }
        requires sound { IsSound lens.now compared.old }
        ensures goes { MatchResult result (λ _. IsWalking lens.now root.old root.new self.new.rows.items self.new.order.items (next_of self.new.work.items)) (Stops lens.now root.old root.new) }
        ensures spent { OnOk result (IsSpent self.old self.new) }
        ensures sound { IsSound lens.now compared.new }
    {
        match task {
            Task::Put(place) => {
                self.order.push(place)?;
                Ok(())
            }
            Task::Enter(place) => {
                let at = directory_at(&self.rows, root, place);
                self.enter(alloc, lens, root, compared, at)
            }
        }
    }

    // Compares the two trees of a directory.
    fn enter(
        &mut self,
        alloc: Global,
        lens: &'a Lens,
        root: Directory,
        compared: &mut Comparisons<'a>,
        at: Directory,
    ) -> Result<(), Stop>
        requires walking { IsWalking lens.now root.old root.new self.old.rows.items self.old.order.items (Enter at.place ∷ next_of self.old.work.items) }
        requires at { IsDirectory lens.now root.old root.new (paths_of self.old.rows.items) at }
        requires sound { IsSound lens.now compared.old }
        ensures goes { MatchResult result (λ _. IsWalking lens.now root.old root.new self.new.rows.items self.new.order.items (next_of self.new.work.items)) (Stops lens.now root.old root.new) }
        ensures spent { OnOk result (IsSpent self.old self.new) }
        ensures sound { IsSound lens.now compared.new }
    {
        let (Some(old), Some(new)) = (at.old, at.new) else {
            let list = differences_between(
                alloc,
                object_at(lens, at.old),
                object_at(lens, at.new),
            )?;
            return self.add_all(alloc, lens, root, at, &list);
        };
        let pair = TreePair { old, new };
        compared.compare_pair(alloc, lens, pair)?;
        self.add_all(alloc, lens, root, at, compared.differences_of(lens, pair))
    }

    // Adds a row for each name of a directory at which its trees differ, and puts what is to be done of them
    // before what is left.
    fn add_all(
        &mut self,
        alloc: Global,
        lens: &Lens,
        root: Directory,
        at: Directory,
        list: &[Difference<'a>],
    ) -> Result<(), Stop>
        requires walking { IsWalking lens.now root.old root.new self.old.rows.items self.old.order.items (Enter at.place ∷ next_of self.old.work.items) }
        requires at { IsDirectory lens.now root.old root.new (paths_of self.old.rows.items) at }
        requires differing { Differing lens.now at list.now }
        ensures goes { MatchResult result (λ _. IsWalking lens.now root.old root.new self.new.rows.items self.new.order.items (next_of self.new.work.items)) (Stops lens.now root.old root.new) }
        ensures spent { OnOk result (IsSpent self.old self.new) }
    {
        let _objects = lens;
        // The rows are counted before they are made.
        if are_too_many(self.rows.len(), list.len()) {
            return Err(Stop::TooMuch);
        }
        let rows = rows_of(alloc, at, list)?;
        let items = items_of(alloc, self.rows.len(), &rows)?;
        let items = sort_items(items)?;
        self.rows.extend_from_slice(&rows)?;
        self.work.extend_from_slice(&items)?;
        Ok(())
    }
}

// Whether these are more rows together than there may be.
fn are_too_many(rows: usize, more: usize) -> bool
    requires { rows ≤ MAX_ROWS }
    ensures { IsTrue result ↔ (MAX_ROWS < rows + more) }
{
    more > MAX_ROWS - rows
}

// Whether a path of so many bytes and a name is longer than a path may be.
fn is_too_long(front: usize, name: &[u8]) -> bool
    requires { front ≤ MAX_PATH + 1 }
    ensures { result ≡ nat_lt MAX_PATH (front + length name.now) }
{
    front + name.len() > MAX_PATH
}

// The directory at a place.
fn directory_at(rows: &[Row<'_>], root: Directory, place: Option<usize>) -> Directory
    requires within { IsWithin (length rows.now) place }
    requires short { All (λ (r : Row). r.length ≤ MAX_PATH) rows.now }
    requires root { root.place ≡ None }
    ensures { IsDirectoryOf rows.now root place result }
{
    let Some(at) = place else {
        return root;
    };
    let row = &rows[at];
    Directory {
        place,
        old: row.old,
        new: row.new,
        front: row.length + 1,
    }
}

// The rows of the names of a directory. The lengths of their paths are looked at before any text is made.
fn rows_of<'a>(alloc: Global, at: Directory, list: &[Difference<'a>]) -> Result<Vec<Row<'a>>, Stop>
    requires { at.front ≤ MAX_PATH + 1 }
    ensures rows { IfOk result (λ rows. rows.items ≡ map (row_of at) list.now) }
    ensures short { OnOk result (AreShort at list.now) }
    ensures stops { IfErr result (IsTooLong at list.now) }
{
    let mut rows = Vec::new(alloc);
    for found in list {
        if is_too_long(at.front, found.name) {
            return Err(Stop::TooMuch);
        }
        rows.push(row_of(at, found))?;
    }
    Ok(rows)
}

fn row_of<'a>(at: Directory, found: &Difference<'a>) -> Row<'a>
    requires { at.front + length found.now.name.now ≤ MAX_PATH }
    ensures { result ≡ row_of at found.now }
{
    Row {
        parent: at.place,
        name: found.name,
        old: tree_below(found.old),
        new: tree_below(found.new),
        listed: is_file(found.old) || is_file(found.new),
        length: at.front + found.name.len(),
    }
}

// What is to be done of some rows, of which the first is at this place.
fn items_of<'a>(alloc: Global, first: usize, rows: &[Row<'a>]) -> Result<Vec<Item<'a>>, NoMemory>
    requires { first + length rows.now ≤ MAX_ROWS }
    ensures { IfOk result (λ items. items.items ≡ items_from first rows.now) }
{
    let mut items = Vec::new(alloc);
    let mut place = first;
    for row in rows {
        add_items(&mut items, place, row)?;
        place += 1;
    }
    Ok(items)
}

fn add_items<'a>(items: &mut Vec<Item<'a>>, place: usize, row: &Row<'a>) -> Result<(), NoMemory>
    ensures { OnOk result (items.new.items ≡ items.old.items ++ items_from place (row.now ∷ [])) }
{
    items.push(Item {
        name: row.name,
        task: Task::Put(place),
    })?;
    if has_tree(row) {
        items.push(Item {
            name: row.name,
            task: Task::Enter(Some(place)),
        })?;
        return Ok(());
    }
    Ok(())
}

fn has_tree(row: &Row<'_>) -> bool
    ensures { result ≡ has_tree row.now }
{
    row.old.is_some() || row.new.is_some()
}

// Sorts what is to be done in a directory; what comes next is the last.
//
// What lies below a name stands behind the names that go on with a byte below `/`: a slash is put behind the
// name where they are compared.
fn sort_items(items: Vec<Item<'_>>) -> Result<Vec<Item<'_>>, NoMemory>
    ensures { IfOk result (λ sorted. SortsItems items.entry.items (reverse sorted.items)) }
{
    let mut items = items;
    items.sort_by(|one, other| compare_items(one, other))?;
    items.reverse();
    Ok(items)
}

fn compare_items(one: &Item<'_>, other: &Item<'_>) -> Ordering
    ensures { result ≡ key_cmp one.now other.now }
{
    let one_key = one.name.iter().chain(tail_of(one.task).iter());
    let other_key = other.name.iter().chain(tail_of(other.task).iter());
    one_key.cmp(other_key)
}

// What is put behind the name of a row where what is to be done is sorted.
fn tail_of(task: Task) -> &'static [u8]
    ensures { result.now ≡ tail_of task }
{
    match task {
        Task::Put(_) => b"",
        Task::Enter(_) => b"/",
    }
}

fn object_at<'l>(lens: &'l Lens, tree: Option<ObjectId>) -> Option<&'l Object>
    ensures { option_copied result ≡ object_at lens.now tree }
{
    match tree {
        Some(id) => lens.get(id),
        None => None,
    }
}

fn tree_below(entry: Option<TreeEntry<'_>>) -> Option<ObjectId>
    ensures { result ≡ tree_below (option_map entry_of entry.entry) }
{
    let Some(entry) = entry else {
        return None;
    };
    if is_directory(&entry) {
        return Some(entry.id);
    }
    None
}

fn is_file(entry: Option<TreeEntry<'_>>) -> bool
    ensures { result ≡ is_file (option_map entry_of entry.entry) }
{
    match entry {
        Some(entry) => !is_directory(&entry),
        None => false,
    }
}
