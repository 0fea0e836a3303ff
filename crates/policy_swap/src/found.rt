// The files of a conf by their names.
ghost use Rattle.std.specs.Prelude.{◌≡◌, ◌++◌, ◌∷◌, [], List, IfOk, MatchResult, OnOk, nat_lt};
ghost use Rattle.std.specs.FinMap as named;
ghost use Rattle.conf_groups.specs.Splicing.{is_too_large, total_bytes};
ghost use Rattle.conf_groups.specs.declared.limits.TheConstants.{MAX_FILE_BYTES};
ghost use Rattle.policy_swap.specs.Found.{AreGathered, FindsFiles, listed};
ghost use Rattle.policy_swap.specs.Rows.{Stops};
ghost use Rattle.policy_swap.specs.declared.rows.Row.{Row};

use crate::rows::{Body, Row, Stop, walk_rows};
use base_types::{NameMap, NoMemory, Text};
use conf_groups::{ConfFile, FileList, MAX_FILE_BYTES, MAX_FILES};
use git_object::ObjectId;
use ref_store::Lens;
use std::alloc::Global;

/// The files below a tree by their names. Their bytes aren't copied.
pub fn files_below<'l>(
    alloc: Global,
    lens: &'l Lens,
    tree: Option<ObjectId>,
) -> Result<NameMap<Body<'l>>, Stop>
    ensures { MatchResult result (λ files. FindsFiles lens.now tree files) (Stops lens.now tree) }
{
    let rows = match walk_rows(alloc, lens, tree) {
        Ok(rows) => rows,
        Err(stop) => return Err(stop),
    };
    match gather_files(alloc, rows) {
        Ok(files) => Ok(files),
        Err(NoMemory) => Err(Stop::NoMemory),
    }
}

// The files among rows.
fn gather_files<'l>(alloc: Global, rows: Vec<Row<'l>>) -> Result<NameMap<Body<'l>>, NoMemory>
    ensures { IfOk result (λ files. AreGathered rows.entry.items files) }
{
    let mut files = NameMap::new(alloc);
    for row in rows {
        add_file(&mut files, row)?;
    }
    Ok(files)
}

// Adds a row, if it is a file.
fn add_file<'l>(files: &mut NameMap<Body<'l>>, row: Row<'l>) -> Result<(), NoMemory>
    ensures { (rows : List Row) → AreGathered rows files.old → OnOk result (AreGathered (rows ++ row.entry ∷ []) files.new) }
{
    let Row::File(found) = row else {
        return Ok(());
    };
    files.insert(found.path, found.body)?;
    Ok(())
}

/// Whether these are more files than a conf may have, or too many bytes.
pub fn is_too_large(files: &NameMap<Body<'_>>) -> bool
    ensures { result ≡ is_too_large files.now }
{
    files.len() > MAX_FILES || has_too_many_bytes(files)
}

fn has_too_many_bytes(files: &NameMap<Body<'_>>) -> bool
    ensures { result ≡ nat_lt MAX_FILE_BYTES (total_bytes (named.values files.now)) }
{
    let mut left = MAX_FILE_BYTES;
    for (_, body) in files.iter() {
        let size = body.bytes().len();
        if left < size {
            return true;
        }
        left -= size;
    }
    false
}

/// The files in the byte order of their names, with copies of their bytes.
pub fn list_files(alloc: Global, files: &NameMap<Body<'_>>) -> Result<FileList, NoMemory>
    ensures { IfOk result (λ list. list ≡ listed (named.entries files.now)) }
{
    let mut list = FileList::new(alloc);
    for (name, body) in files.iter() {
        let name = name.clone()?;
        let text = Text::of(alloc, body.bytes())?;
        list.push(ConfFile { name, text })?;
    }
    Ok(list)
}
