// The files of a conf by name, and which of them a pattern names.
ghost use Rattle.std.specs.Prelude.{◌≡◌, ◌≤◌, OnOk, IfOk, MatchOption, None, Some, false, length, filter, nat_lt, if◌then◌else◌};
ghost use Rattle.std.specs.FinMap as named;
ghost use Rattle.conf_groups.specs.Files.{by_name, fits, has_star, is_missing, is_seen, last_part, named_by, scope_of};
ghost use Rattle.conf_groups.specs.Splicing.{is_too_large, total_bytes};
ghost use Rattle.conf_groups.specs.Indexes.{HaveTheirNames, bytes_of, files_at};
ghost use Rattle.conf_groups.specs.declared.limits.TheConstants.{MAX_FILE_BYTES};

use crate::matching::is_fitting;
use crate::{ConfFile, FileName, MAX_FILE_BYTES, MAX_FILE_NAME, MAX_FILES};
use base_types::{NameMap, NoMemory, Text};
use std::alloc::Global;
use std::marker::Model;

/// Adds a file, in place of one of the same name.
#[tactic(auto, using(crate::proofs::IndexLemmas::files_insert, crate::proofs::IndexLemmas::names_insert))]
fn add_file<'a>(index: &mut NameMap<&'a ConfFile>, file: &'a ConfFile) -> Result<(), NoMemory>
    ensures files { OnOk result (files_at index.new ≡ (if is_seen file.now then named.insert (files_at index.old) file.now.name file.now.text else files_at index.old)) }
    ensures names { OnOk result (HaveTheirNames index.old → HaveTheirNames index.new) }
{
    if file.name.bytes().len() > MAX_FILE_NAME {
        return Ok(());
    }
    index.insert(file.name.clone()?, file)?;
    Ok(())
}

/// The files of a list by name.
#[tactic(auto, using(crate::proofs::IndexLemmas::new_files, crate::proofs::IndexLemmas::new_names))]
pub(crate) fn index_files<'a>(
    alloc: Global,
    list: &'a [ConfFile],
) -> Result<NameMap<&'a ConfFile>, NoMemory>
    ensures files { IfOk result (λ index. files_at index ≡ by_name list.now) }
    ensures names { IfOk result (λ index. HaveTheirNames index) }
{
    let mut index = NameMap::new(alloc);
    let mut at = list.len();
    while at > 0 {
        at -= 1;
        add_file(&mut index, &list[at])?;
    }
    Ok(index)
}

/// The same files, lent once more.
#[tactic(auto, using(base_types::proofs::NameMaps::same_entries_of))]
pub(crate) fn copy_index<'a>(
    index: &NameMap<&'a ConfFile>,
) -> Result<NameMap<&'a ConfFile>, NoMemory>
    ensures { IfOk result (λ copy. copy ≡ index.now) }
{
    let copy = index.clone()?;
    Ok(copy)
}

/// Whether these are more files than a conf may have, or too many bytes.
#[tactic(auto, using(crate::proofs::IndexLemmas::len_files))]
pub(crate) fn is_too_large(index: &NameMap<&ConfFile>) -> bool
    ensures { result ≡ is_too_large (files_at index.now) }
{
    index.len() > MAX_FILES || has_too_many_bytes(index)
}

/// Whether files have more bytes together than a conf may have.
#[tactic(auto, using(crate::proofs::IndexLemmas::total_files))]
fn has_too_many_bytes(index: &NameMap<&ConfFile>) -> bool
    ensures { result ≡ nat_lt MAX_FILE_BYTES (total_bytes (named.values (files_at index.now))) }
{
    let mut left = MAX_FILE_BYTES;
    for (_, file) in index.iter() {
        let size = file.text.bytes().len();
        if left < size {
            return true;
        }
        left -= size;
    }
    false
}

/// Whether a pattern has a `*`.
fn is_starred(pattern: &[u8]) -> bool
    ensures { result ≡ has_star pattern.now }
{
    pattern.iter().any(|byte| *byte == b'*')
}

/// Whether no file has the name that a pattern without `*` is.
#[tactic(auto, using(crate::proofs::IndexLemmas::get_files))]
pub(crate) fn is_nowhere(index: &NameMap<&ConfFile>, pattern: &Text) -> bool
    ensures { result ≡ is_missing (files_at index.now) pattern.now }
{
    !is_starred(pattern.bytes()) && index.get(pattern).is_none()
}

/// The file of a name.
#[tactic(auto, using(crate::proofs::IndexLemmas::get_files, crate::proofs::IndexLemmas::name_found))]
pub(crate) fn find_file<'a>(index: &NameMap<&'a ConfFile>, name: &Text) -> Option<&'a ConfFile>
    requires { HaveTheirNames index.now }
    ensures { MatchOption result (named.get (files_at index.now) name.now ≡ None) (λ f. (named.get (files_at index.now) name.now ≡ Some f.now.text) × (f.now.name ≡ name.now)) }
{
    index.get(name).copied()
}

/// Files by name, none of which has more bytes than a conf may have.
#[derive(Drop)]
pub(crate) struct Files<'a> {
    index: NameMap<&'a ConfFile>,
}

impl<'a> Model for Files<'a> {
    ghost use Rattle.std.specs.Prelude.{List, ℕ};
    ghost use Rattle.std.specs.FinMap as named;
    ghost use Rattle.std.specs.Coded.{coded_list, coded_ℕ};
    ghost use Rattle.base_types.specs.Names.{ByName};
    ghost use Rattle.conf_groups.specs.Indexes.{AreSmall, HaveTheirNames, files_at};

    ghost Value = { ByName (List ℕ) };

    ghost coded = { named.code (coded_list coded_ℕ) (coded_list coded_ℕ) };

    ghost view = { λ f. files_at f.index };

    ghost invariant = { λ f. HaveTheirNames f.index × AreSmall f.index };
}

impl<'a> Files<'a> {
    #[tactic(auto, using(crate::proofs::IndexLemmas::small_enough))]
    pub(crate) fn new(index: NameMap<&'a ConfFile>) -> Files<'a>
        requires names { HaveTheirNames index }
        requires small { is_too_large (files_at index) ≡ false }
        ensures { result ≡ files_at index.entry }
    {
        Files { index }
    }

    /// The file of a name.
    #[tactic(auto, using(crate::proofs::IndexLemmas::get_files, crate::proofs::IndexLemmas::name_found, crate::proofs::IndexLemmas::small_found))]
    fn get(&self, name: &Text) -> Option<&'a ConfFile>
        ensures { MatchOption result (named.get self.now name.now ≡ None) (λ f. (named.get self.now name.now ≡ Some f.now.text) × (f.now.name ≡ name.now) × (length f.now.text ≤ MAX_FILE_BYTES)) }
    {
        self.index.get(name).copied()
    }

    /// Takes the file of a name out.
    #[tactic(auto, using(crate::proofs::IndexLemmas::files_remove, crate::proofs::IndexLemmas::names_remove, crate::proofs::IndexLemmas::small_remove))]
    pub(crate) fn take_out(&mut self, name: &Text) -> Option<&'a ConfFile>
        ensures file { MatchOption result (named.get self.old name.now ≡ None) (λ f. (named.get self.old name.now ≡ Some f.now.text) × (length f.now.text ≤ MAX_FILE_BYTES)) }
        ensures others { MatchOption result (self.new ≡ self.old) (λ f. self.new ≡ named.remove self.old name.now) }
    {
        let Some(file) = self.get(name) else {
            return None;
        };
        let _same = self.index.remove(name);
        Some(file)
    }

    /// The names of the files that a pattern fits, in byte order.
    #[tactic(auto, using(crate::proofs::IndexLemmas::fitting_names))]
    fn fitting(&self, alloc: Global, pattern: &[u8]) -> Result<Vec<&'a FileName>, NoMemory>
        ensures { IfOk result (λ names. bytes_of names.items ≡ filter (fits pattern.now) (named.keys self.now)) }
    {
        let mut names = Vec::new(alloc);
        for (_, file) in self.index.iter() {
            let file: &'a ConfFile = file;
            if is_fitting(alloc, pattern, file.name.bytes())? {
                names.push(&file.name)?;
            }
        }
        Ok(names)
    }

    /// The names of the files that a pattern names, in byte order.
    pub(crate) fn named_by(
        &self,
        alloc: Global,
        pattern: &Text,
    ) -> Result<Vec<&'a FileName>, NoMemory>
        ensures { IfOk result (λ names. bytes_of names.items ≡ named_by self.now pattern.now) }
    {
        if is_starred(pattern.bytes()) {
            return self.fitting(alloc, pattern.bytes());
        }
        let mut names = Vec::new(alloc);
        if let Some(file) = self.get(pattern) {
            names.push(&file.name)?;
        }
        Ok(names)
    }
}

/// The last part of a file's name.
fn base_name(name: &[u8]) -> &[u8]
    ensures { result.now ≡ last_part name.now name.now }
{
    let mut part = name;
    for (at, byte) in name.iter().enumerate() {
        if *byte == b'/' {
            part = name.split_at(at + 1).1;
        }
    }
    part
}

/// The scope of a file that `subconf` splices: its base name without `.conf` at the end.
pub(crate) fn scope_name(name: &[u8]) -> &[u8]
    ensures { result.now ≡ scope_of name.now }
{
    let part = base_name(name);
    if part.ends_with(b".conf") {
        return part.split_at(part.len() - 5).0;
    }
    part
}
