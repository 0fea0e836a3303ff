// Why a conf is refused.
ghost use Rattle.std.specs.Prelude.{◌≡◌, IfOk, OnOk, ◌++◌};
ghost use Rattle.conf_groups.specs.Faults.{fault_text, kind_text};

use crate::FileName;
use base_types::{NoMemory, Text};
use conf_lex::LexFault;
use std::alloc::{AllocError, Global};

/// What is wrong with a conf.
#[derive(Drop)]
pub enum ConfKind {
    /// There is no file of this name.
    NoFile(FileName),
    /// The line is no statement. It never holds the fault of memory.
    Lex(LexFault),
    /// The line, or the whole conf, is beyond a limit.
    TooLong,
    /// A subconf has a `subconf` line.
    SubconfInSubconf,
    NoMemory,
}

/// What is wrong, and in which line of which file. Line 0 is before all lines. Out of memory has no file, and
/// line 0.
#[derive(Drop)]
pub struct ConfFault {
    pub kind: ConfKind,
    pub file: FileName,
    pub line: u32,
}

impl Clone for ConfKind {
    ghost is_clone = { λ kind copy. copy ≡ kind };

    fn clone(&self) -> Result<ConfKind, AllocError> {
        match self {
            ConfKind::NoFile(name) => Ok(ConfKind::NoFile(name.clone()?)),
            ConfKind::Lex(fault) => Ok(ConfKind::Lex(*fault)),
            ConfKind::TooLong => Ok(ConfKind::TooLong),
            ConfKind::SubconfInSubconf => Ok(ConfKind::SubconfInSubconf),
            ConfKind::NoMemory => Ok(ConfKind::NoMemory),
        }
    }
}

impl Clone for ConfFault {
    ghost is_clone = { λ fault copy. copy ≡ fault };

    fn clone(&self) -> Result<ConfFault, AllocError> {
        Ok(ConfFault {
            kind: self.kind.clone()?,
            file: self.file.clone()?,
            line: self.line,
        })
    }
}

impl ConfFault {
    /// The fault's text, as `gitolite.conf line 2: no file a.conf`. It has the bytes of names as they are.
    pub fn text(&self, alloc: Global) -> Result<Text, NoMemory>
        ensures { IfOk result (λ text. text ≡ fault_text self.now) }
    {
        let mut text = self.file.bytes().to_vec(alloc)?;
        text.extend_from_slice(b" line ")?;
        text.extend_from_slice(format!(in alloc; "{}", self.line)?.as_bytes())?;
        text.extend_from_slice(b": ")?;
        push_kind(alloc, &mut text, &self.kind)?;
        Ok(Text::from(text))
    }
}

fn push_kind(alloc: Global, text: &mut Vec<u8>, kind: &ConfKind) -> Result<(), NoMemory>
    ensures { OnOk result (text.new.items ≡ text.old.items ++ kind_text kind.now) }
{
    match kind {
        ConfKind::NoFile(name) => {
            text.extend_from_slice(b"no file ")?;
            text.extend_from_slice(name.bytes())?;
        }
        ConfKind::Lex(fault) => text.extend_from_slice(format!(in alloc; "{fault}")?.as_bytes())?,
        ConfKind::TooLong => text.extend_from_slice(b"too long")?,
        ConfKind::SubconfInSubconf => text.extend_from_slice(b"subconf in subconf")?,
        ConfKind::NoMemory => text.extend_from_slice(b"out of memory")?,
    }
    Ok(())
}
