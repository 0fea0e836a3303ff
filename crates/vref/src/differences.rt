// The entries in which two trees differ, by their names.
ghost use Rattle.std.specs.Prelude.{◌≡◌, ◌↔◌, List, [], IfOk, IsTrue, OnOk, map};
ghost use Rattle.std.specs.Option.{option_copied, option_map};
ghost use Rattle.git_object.specs.Tree.{Entry, entry_of, is_directory};
ghost use Rattle.vref.specs.Rows.{entries_in};
ghost use Rattle.vref.specs.Differences.{AreDifferences, AreParted, AreSifted, FindsBoth, Joins, NamesOnce, TellsOfStep};

use base_types::NoMemory;
use git_object::{Object, TreeEntry};
use std::alloc::Global;
use std::collections::BTreeMap;

/// A name at which two trees differ, with what is there on either side.
#[derive(Clone, Copy)]
pub struct Difference<'a> {
    pub name: &'a [u8],
    pub old: Option<TreeEntry<'a>>,
    pub new: Option<TreeEntry<'a>>,
}

/// The names at which two trees differ, each once, in the order of their bytes. Without an object a side is
/// the empty tree. Where the trees are alike it costs one pass over both; only what differs is sorted.
pub fn differences_between<'a>(
    alloc: Global,
    old: Option<&'a Object>,
    new: Option<&'a Object>,
) -> Result<Vec<Difference<'a>>, NoMemory>
    ensures { IfOk result (λ list. AreDifferences (entries_in (option_copied old.entry)) (entries_in (option_copied new.entry)) list.items) }
{
    let old = list_entries(alloc, old)?;
    let new = list_entries(alloc, new)?;
    let (olds, news) = part_entries(alloc, &old, &new)?;
    let list = differing_names(alloc, &olds, &news)?;
    Ok(list)
}

pub fn is_directory(entry: &TreeEntry<'_>) -> bool
    ensures { result ≡ is_directory (entry_of entry.now) }
{
    entry.mode == b"40000".as_slice()
}

// The entries of a tree, in order.
fn list_entries<'a>(alloc: Global, tree: Option<&'a Object>) -> Result<Vec<TreeEntry<'a>>, NoMemory>
    ensures same { IfOk result (λ list. map entry_of list.items ≡ entries_in (option_copied tree.entry)) }
    ensures once { OnOk result (NamesOnce (entries_in (option_copied tree.entry))) }
{
    let mut list = Vec::new(alloc);
    let Some(object) = tree else {
        return Ok(list);
    };
    // `body` is called for its clause that the form has no fault, from which the proof has that each name
    // comes once.
    let _form = object.body();
    for entry in object.tree_entries() {
        list.push(entry)?;
    }
    Ok(list)
}

// Takes out of two trees the entries that both have, in one pass.
fn part_entries<'a>(
    alloc: Global,
    old: &[TreeEntry<'a>],
    new: &[TreeEntry<'a>],
) -> Result<(Vec<TreeEntry<'a>>, Vec<TreeEntry<'a>>), NoMemory>
    requires old { NamesOnce (map entry_of old.now) }
    requires new { NamesOnce (map entry_of new.now) }
    ensures { IfOk result (λ kept. AreParted old.now new.now kept.0.items kept.1.items) }
{
    let mut olds = Vec::new(alloc);
    let mut news = Vec::new(alloc);
    let mut i = 0;
    let mut j = 0;
    loop {
        match next_step(old, i, new, j) {
            Step::Done => return Ok((olds, news)),
            Step::Both => {
                i += 1;
                j += 1;
            }
            Step::Old => {
                olds.push(old[i])?;
                i += 1;
            }
            Step::New => {
                news.push(new[j])?;
                j += 1;
            }
        }
    }
}

// Which of two sides the pass over both goes on in.
#[derive(Clone, Copy)]
enum Step {
    Done,
    Both,
    Old,
    New,
}

fn next_step(old: &[TreeEntry<'_>], i: usize, new: &[TreeEntry<'_>], j: usize) -> Step
    ensures { TellsOfStep old.now i new.now j result }
{
    if i >= old.len() {
        if j >= new.len() {
            return Step::Done;
        }
        return Step::New;
    }
    if j >= new.len() {
        return Step::Old;
    }
    if are_same(Some(old[i]), Some(new[j])) {
        return Step::Both;
    }
    if comes_first(&old[i], &new[j]) {
        return Step::Old;
    }
    Step::New
}

fn are_same(one: Option<TreeEntry<'_>>, other: Option<TreeEntry<'_>>) -> bool
    ensures { IsTrue result ↔ (option_map entry_of one.entry ≡ option_map entry_of other.entry) }
{
    one == other
}

// Whether an entry comes before another in the order of a tree. No proof needs it: the pass is right
// whichever side it goes on in, and by the order it meets what both sides have.
fn comes_first(one: &TreeEntry<'_>, other: &TreeEntry<'_>) -> bool {
    let shared = one.name.len().min(other.name.len());
    let (one_front, one_back) = one.name.split_at(shared);
    let (other_front, other_back) = other.name.split_at(shared);
    if one_front != other_front {
        return one_front < other_front;
    }
    byte_behind(one, one_back) < byte_behind(other, other_back)
}

// The first byte of what is left of an entry's name, behind which a directory has a slash.
fn byte_behind(entry: &TreeEntry<'_>, left: &[u8]) -> u8 {
    if let Some(byte) = left.first() {
        return *byte;
    }
    if is_directory(entry) {
        return b'/';
    }
    0
}

// What is under a name on either side.
#[derive(Clone, Copy)]
pub struct Sides<'a> {
    pub old: Option<TreeEntry<'a>>,
    pub new: Option<TreeEntry<'a>>,
}

// The names at which some entries differ, in order.
fn differing_names<'a>(
    alloc: Global,
    old: &[TreeEntry<'a>],
    new: &[TreeEntry<'a>],
) -> Result<Vec<Difference<'a>>, NoMemory>
    ensures { IfOk result (λ list. AreDifferences (map entry_of old.now) (map entry_of new.now) list.items) }
{
    let mut names = BTreeMap::new(alloc);
    add_old_entries(&mut names, old)?;
    add_new_entries(&mut names, new)?;
    let list = sift_names(alloc, names)?;
    Ok(list)
}

// Puts the entries of the old tree under their names; of two of one name the first.
fn add_old_entries<'a>(
    names: &mut BTreeMap<&'a [u8], Sides<'a>>,
    entries: &[TreeEntry<'a>],
) -> Result<(), NoMemory>
    requires { FindsBoth [] [] names.old }
    ensures { OnOk result (FindsBoth (map entry_of entries.now) [] names.new) }
{
    for entry in entries {
        if names.contains_key(&entry.name) {
            continue;
        }
        let sides = Sides {
            old: Some(*entry),
            new: None,
        };
        names.insert(entry.name, sides)?;
    }
    Ok(())
}

// Puts the entries of the new tree beside those of the old one; of two of one name the first.
fn add_new_entries<'a>(
    names: &mut BTreeMap<&'a [u8], Sides<'a>>,
    entries: &[TreeEntry<'a>],
) -> Result<(), NoMemory>
    ensures { (old : List Entry) → FindsBoth old [] names.old → OnOk result (FindsBoth old (map entry_of entries.now) names.new) }
{
    for entry in entries {
        let known = names.get(&entry.name).copied();
        let Some(sides) = join_entry(known, entry) else {
            continue;
        };
        names.insert(entry.name, sides)?;
    }
    Ok(())
}

// An entry of the new tree beside what is known of its name, unless one of the new tree is known.
fn join_entry<'a>(known: Option<Sides<'a>>, entry: &TreeEntry<'a>) -> Option<Sides<'a>>
    ensures { Joins known.entry entry.now result }
{
    let Some(sides) = known else {
        return Some(Sides {
            old: None,
            new: Some(*entry),
        });
    };
    if sides.new.is_some() {
        return None;
    }
    Some(Sides {
        old: sides.old,
        new: Some(*entry),
    })
}

/// The names whose sides differ.
pub fn sift_names<'a>(
    alloc: Global,
    names: BTreeMap<&'a [u8], Sides<'a>>,
) -> Result<Vec<Difference<'a>>, NoMemory>
    ensures { IfOk result (λ list. AreSifted names.entry.entries list.items) }
{
    let mut list = Vec::new(alloc);
    for (name, sides) in names {
        if are_same(sides.old, sides.new) {
            continue;
        }
        list.push(Difference {
            name,
            old: sides.old,
            new: sides.new,
        })?;
    }
    Ok(list)
}
