// What a subconf may not set.
ghost use Rattle.std.specs.Prelude.{◌≡◌, IfOk};
ghost use Rattle.rule_compile.specs.Faults.{warning_text};

use crate::fault::place_text;
use base_types::{ItemList, NoMemory, Text};
use conf_groups::FileName;
use std::alloc::Global;

/// A repository word that was dropped, since it is beyond the scope of its subconf.
#[derive(Drop)]
pub struct Warning {
    pub scope: Text,
    pub word: Text,
    pub file: FileName,
    pub line: u32,
}

/// Warnings, in the order of lines.
pub type WarningList = ItemList<Warning>;

impl Warning {
    /// The warning's text, as `web.conf line 1: subconf web may not set access for core`.
    pub fn text(&self, alloc: Global) -> Result<Text, NoMemory>
        ensures { IfOk result (λ text. text ≡ warning_text self.now) }
    {
        let mut text = place_text(alloc, &self.file, self.line)?;
        text.extend_from_slice(b"subconf ")?;
        text.extend_from_slice(self.scope.bytes())?;
        text.extend_from_slice(b" may not set access for ")?;
        text.extend_from_slice(self.word.bytes())?;
        Ok(Text::from(text))
    }
}
