// The files of confs, one after the other.
ghost use Rattle.std.specs.Prelude.{◌≡◌, IfOk, OnOk};
ghost use Rattle.std.specs.Option.{option_map};
ghost use Rattle.report_input.specs.Confs.{SaysOf, file_in, no_files, with_body, with_first, with_second};

use base_types::{NoMemory, Text};
use conf_groups::{ConfFile, FileList};
use git_object::{literal, up_to};
use std::alloc::Global;

/// The files of the first conf, and those of the second where some file is said to be of it.
#[derive(Drop)]
pub struct Confs {
    pub first: FileList,
    pub second: Option<FileList>,
}

impl Confs {
    /// No files.
    pub(crate) fn new(alloc: Global) -> Confs
        ensures { result ≡ no_files }
    {
        Confs {
            first: FileList::new(alloc),
            second: None,
        }
    }

    /// Adds the file that the body of a frame gives. Where it gives none it returns `false`.
    #[tactic(auto, unfolding(crate::specs::Confs::with_body))]
    pub(crate) fn add(&mut self, alloc: Global, body: &[u8]) -> Result<bool, NoMemory>
        ensures { IfOk result (SaysOf (with_body self.old body.now) self.new) }
    {
        if let Some(rest) = literal(body, b"first ") {
            return self.add_first(alloc, rest);
        }
        if let Some(rest) = literal(body, b"second ") {
            return self.add_second(alloc, rest);
        }
        Ok(false)
    }

    fn add_first(&mut self, alloc: Global, rest: &[u8]) -> Result<bool, NoMemory>
        ensures { IfOk result (SaysOf (option_map (with_first self.old) (file_in rest.now)) self.new) }
    {
        let Some(file) = file_in(alloc, rest)? else {
            return Ok(false);
        };
        self.first.push(file)?;
        Ok(true)
    }

    fn add_second(&mut self, alloc: Global, rest: &[u8]) -> Result<bool, NoMemory>
        ensures { IfOk result (SaysOf (option_map (with_second self.old) (file_in rest.now)) self.new) }
    {
        let Some(file) = file_in(alloc, rest)? else {
            return Ok(false);
        };
        self.push_second(alloc, file)?;
        Ok(true)
    }

    fn push_second(&mut self, alloc: Global, file: ConfFile) -> Result<(), NoMemory>
        ensures { OnOk result (self.new ≡ with_second self.old file) }
    {
        match &mut self.second {
            Some(files) => files.push(file)?,
            None => {
                let mut files = FileList::new(alloc);
                files.push(file)?;
                self.second = Some(files);
            }
        }
        Ok(())
    }
}

// A name, a line feed, and a text.
fn file_in(alloc: Global, bytes: &[u8]) -> Result<Option<ConfFile>, NoMemory>
    ensures { IfOk result (λ found. found ≡ file_in bytes.now) }
{
    let Some((name, text)) = up_to(bytes, b'\n') else {
        return Ok(None);
    };
    let name = Text::of(alloc, name)?;
    let text = Text::of(alloc, text)?;
    Ok(Some(ConfFile { name, text }))
}
