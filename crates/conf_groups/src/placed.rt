// Statements at their places.
ghost use Rattle.std.specs.Prelude.{◌≡◌, IfOk};
ghost use Rattle.conf_groups.specs.Stacks.{scope_at};

use crate::FileName;
use base_types::{ItemList, NoMemory, Text};
use conf_lex::Statement;
use std::alloc::{AllocError, Global};

/// Where a line is: in the main file and what it includes, or in a subconf of this name.
#[derive(Drop, PartialEq, Eq)]
pub enum Scope {
    Main,
    Sub(Text),
}

impl Clone for Scope {
    ghost is_clone = { λ scope copy. copy ≡ scope };

    fn clone(&self) -> Result<Scope, AllocError> {
        match self {
            Scope::Main => Ok(Scope::Main),
            Scope::Sub(name) => Ok(Scope::Sub(name.clone()?)),
        }
    }
}

/// A statement at its place: its scope, and its file with the number of its line, counted from 1.
#[derive(Drop)]
pub struct PlacedLine {
    pub scope: Scope,
    pub file: FileName,
    pub line: u32,
    pub statement: Statement,
}

/// What a conf is spliced to: statements, and the places where the current block ends.
#[derive(Drop)]
pub enum Placed {
    EndOfBlock,
    Line(PlacedLine),
}

/// Statements and ends of blocks, in order.
pub type PlacedList = ItemList<Placed>;

/// A scope whose name is lent.
#[derive(Clone, Copy)]
pub(crate) enum ScopeAt<'a> {
    Main,
    Sub(&'a [u8]),
}

impl ScopeAt<'_> {
    pub(crate) fn to_scope(self, alloc: Global) -> Result<Scope, NoMemory>
        ensures { IfOk result (λ s. s ≡ scope_at self.entry) }
    {
        match self {
            ScopeAt::Main => Ok(Scope::Main),
            ScopeAt::Sub(name) => Ok(Scope::Sub(Text::of(alloc, name)?)),
        }
    }
}
