// The conf that is asked of, and the roles in its repositories.
use crate::stop::Stop;
use access_check::{NoMemory, Policy, Text, UserName, Wild};
use conf_groups::{ConfFault, ConfFile, ConfKind, FileList};
use rule_compile::PolicyFault;
use std::alloc::Global;
use std::mem;
use wild_perms::PermsAnswer;

/// A file whose lines are being read.
#[derive(Drop)]
struct OpenFile {
    name: Text,
    text: Vec<u8>,
    /// Whether it has a line, which may be empty.
    begun: bool,
}

/// What a conf comes to.
#[derive(Drop)]
pub(crate) enum Outcome {
    Rules(Policy),
    /// The text of its first fault.
    Fault(Text),
}

/// The conf that was read, and who created its repositories and holds roles there.
#[derive(Drop)]
pub(crate) struct State {
    files: FileList,
    open: Option<OpenFile>,
    outcome: Option<Outcome>,
    creator: Option<UserName>,
    wild: Wild,
}

impl State {
    /// No conf, and repositories that nobody created.
    pub(crate) fn new(alloc: Global) -> State {
        State {
            files: FileList::new(alloc),
            open: None,
            outcome: None,
            creator: None,
            wild: Wild::plain(alloc),
        }
    }

    /// Forgets the files, the creator and the roles.
    pub(crate) fn clear(&mut self, alloc: Global) {
        self.clear_files(alloc);
        self.clear_roles(alloc);
    }

    fn clear_files(&mut self, alloc: Global) {
        let _open = self.open.take();
        let _files = mem::replace(&mut self.files, FileList::new(alloc));
    }

    fn clear_roles(&mut self, alloc: Global) {
        self.creator = None;
        self.wild = Wild::plain(alloc);
    }

    /// Another file of the conf, which is to be compiled anew.
    pub(crate) fn begin_file(&mut self, alloc: Global, name: &[u8]) -> Result<(), NoMemory> {
        self.end_file()?;
        self.outcome = None;
        self.open = Some(OpenFile {
            name: Text::of(alloc, name)?,
            text: Vec::new(alloc),
            begun: false,
        });
        Ok(())
    }

    /// Another line of the file.
    pub(crate) fn add_line(&mut self, line: &[u8]) -> Result<(), Stop> {
        let Some(file) = self.open.as_mut() else {
            return Err(Stop::NoForm);
        };
        if file.begun {
            file.text.extend_from_slice(b"\n")?;
        }
        file.begun = true;
        file.text.extend_from_slice(line)?;
        Ok(())
    }

    fn end_file(&mut self) -> Result<(), NoMemory> {
        let Some(file) = self.open.take() else {
            return Ok(());
        };
        let OpenFile { name, text, .. } = file;
        self.files.push(ConfFile {
            name,
            text: Text::from(text),
        })
    }

    /// The files of the conf.
    pub(crate) fn files(&mut self) -> Result<&FileList, NoMemory> {
        self.end_file()?;
        Ok(&self.files)
    }

    /// Compiles the conf, unless that was done.
    pub(crate) fn compile(&mut self, alloc: Global) -> Result<(), NoMemory> {
        self.end_file()?;
        if self.outcome.is_none() {
            self.outcome = Some(outcome_of(alloc, &self.files)?);
        }
        Ok(())
    }

    /// What the conf comes to, if it was compiled.
    pub(crate) fn outcome(&self) -> Option<&Outcome> {
        self.outcome.as_ref()
    }

    /// Who created the repositories and who holds roles there.
    pub(crate) fn wild(&self) -> &Wild {
        &self.wild
    }

    /// Repositories that this user created, or nobody.
    pub(crate) fn set_creator(
        &mut self,
        alloc: Global,
        creator: Option<UserName>,
    ) -> Result<(), Stop> {
        self.wild = match &creator {
            Some(name) => Wild::born(alloc, name.clone()?),
            None => Wild::plain(alloc),
        };
        self.creator = creator;
        Ok(())
    }

    /// Another user who holds a role. The creator gives it, as where it was declared; whether it still is the
    /// conf says.
    pub(crate) fn give_role(&mut self, role: &[u8], user: &UserName) -> Result<(), Stop> {
        let Some(creator) = &self.creator else {
            return Err(Stop::NoForm);
        };
        match self.wild.grant(creator, role, user, true) {
            PermsAnswer::Changed | PermsAnswer::AlreadySo => Ok(()),
            PermsAnswer::NoMemory => Err(Stop::OutOfMemory),
            _ => Err(Stop::NoForm),
        }
    }
}

fn outcome_of(alloc: Global, files: &FileList) -> Result<Outcome, NoMemory> {
    match Policy::compile(alloc, files) {
        Ok(policy) => Ok(Outcome::Rules(policy)),
        Err(fault) if is_out_of_memory(&fault) => Err(NoMemory),
        Err(fault) => Ok(Outcome::Fault(fault.text(alloc)?)),
    }
}

// Out of memory is no fault of a conf.
fn is_out_of_memory(fault: &PolicyFault) -> bool {
    match fault {
        PolicyFault::Splicing(ConfFault { kind, .. }) => matches!(kind, ConfKind::NoMemory),
        PolicyFault::Rules(_) => false,
    }
}
