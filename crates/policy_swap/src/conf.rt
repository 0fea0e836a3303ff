// The files of the conf at a commit.
ghost use Rattle.std.specs.Prelude.{◌≡◌, Some};
ghost use Rattle.std.specs.Option.{option_copied, option_map};
ghost use Rattle.vref.specs.Rows.{entry_named, tree_below};
ghost use Rattle.git_object.specs.Object.{entries_of};
ghost use Rattle.git_object.specs.Tree.{entry_of};
ghost use Rattle.conf_groups.specs.declared.fault.ConfKind.TheVariants as kind;
ghost use Rattle.policy_swap.specs.Conf.{HasNoPlace, TellsOfConf, conf_name, conf_tree};
ghost use Rattle.policy_swap.specs.Found.{IsFault, TellsOfFiles};

use crate::found::{files_below, is_too_large, list_files};
use crate::rows::{Body, Stop, is_directory, object_at};
use base_types::{NameMap, NoMemory, Text};
use conf_groups::{ConfFault, ConfKind, FileList};
use git_object::{Object, ObjectId, TreeEntry};
use ref_store::Lens;
use std::alloc::Global;
use vref::root_of;

/// The files of the conf at a commit, in the byte order of their names, which are relative to the folder
/// `conf`.
///
/// It costs the rows below `conf`, and the bytes of the files, which are copied once it is known that they
/// aren't too many.
pub fn conf_files(alloc: Global, lens: &Lens, commit: ObjectId) -> Result<FileList, ConfFault>
    ensures { TellsOfConf lens.now (conf_tree lens.now commit) result }
{
    match files_below(alloc, lens, conf_tree(lens, commit)) {
        Ok(files) => conf_of(alloc, &files),
        Err(Stop::TooManyRows) => Err(fault_before_all(alloc, ConfKind::TooLong)),
        Err(Stop::NoMemory) => Err(no_memory(alloc)),
    }
}

// The tree of the folder `conf` at a commit.
fn conf_tree(lens: &Lens, commit: ObjectId) -> Option<ObjectId>
    ensures { result ≡ conf_tree lens.now commit }
{
    let entry = match object_at(lens, root_of(lens, commit)) {
        Some(root) => conf_entry(root),
        None => None,
    };
    match entry {
        Some(entry) => tree_of(&entry),
        None => None,
    }
}

// The entry `conf` of a tree.
fn conf_entry(root: &Object) -> Option<TreeEntry<'_>>
    ensures { option_map entry_of result ≡ entry_named (entries_of root.now.kind root.now.body) conf_name }
{
    for entry in root.tree_entries() {
        if entry.name == b"conf".as_slice() {
            return Some(entry);
        }
    }
    None
}

fn tree_of(entry: &TreeEntry<'_>) -> Option<ObjectId>
    ensures { result ≡ tree_below (Some (entry_of entry.now)) }
{
    if is_directory(entry) {
        return Some(entry.id);
    }
    None
}

// What is returned of the files that a conf has.
fn conf_of(alloc: Global, files: &NameMap<Body<'_>>) -> Result<FileList, ConfFault>
    ensures { TellsOfFiles files.now result }
{
    if is_too_large(files) {
        return Err(fault_before_all(alloc, ConfKind::TooLong));
    }
    let Ok(name) = Text::of(alloc, b"gitolite.conf") else {
        return Err(no_memory(alloc));
    };
    if files.get(&name).is_none() {
        return Err(fault_before_all(alloc, ConfKind::NoFile(name)));
    }
    match list_files(alloc, files) {
        Ok(list) => Ok(list),
        Err(NoMemory) => Err(no_memory(alloc)),
    }
}

fn fault_before_all(alloc: Global, kind: ConfKind) -> ConfFault
    ensures { IsFault kind result }
{
    match Text::of(alloc, b"gitolite.conf") {
        Ok(file) => ConfFault {
            kind,
            file,
            line: 0,
        },
        Err(_) => no_memory(alloc),
    }
}

fn no_memory(alloc: Global) -> ConfFault
    ensures kind { result.kind ≡ kind.NoMemory }
    ensures place { HasNoPlace result }
{
    ConfFault {
        kind: ConfKind::NoMemory,
        file: Text::from(Vec::new(alloc)),
        line: 0,
    }
}
