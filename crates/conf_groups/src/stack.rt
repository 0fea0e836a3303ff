// The lines that are still to come.
ghost use Rattle.std.specs.Prelude.{◌≤◌, ◌+◌, ◌^◌, ◌<◌, length};

use crate::FileName;
use crate::files::Files;
use crate::placed::{PlacedList, ScopeAt};

/// The lines of a file from a number on.
#[derive(Clone, Copy)]
pub(crate) struct Rest<'a> {
    pub scope: ScopeAt<'a>,
    pub file: &'a FileName,
    pub line: u32,
    pub bytes: &'a [u8],
    ghost countable: { line + length bytes.now < 2 ^ 32 },
}

/// What is still to come: the end of a block, the lines of a file unless it was spliced before, or the rest
/// of a file.
#[derive(Clone, Copy)]
pub(crate) enum Coming<'a> {
    Boundary,
    Whole(ScopeAt<'a>, &'a FileName),
    Rest(Rest<'a>),
}

/// A line at its place. It is over where its file has more bytes than may still be spliced.
#[derive(Clone, Copy)]
pub(crate) struct LineAt<'a> {
    pub scope: ScopeAt<'a>,
    pub file: &'a FileName,
    pub number: u32,
    pub over: bool,
    pub text: &'a [u8],
}

/// What was placed so far, what may still be spliced, and a stack of what is to come: its last piece comes
/// first.
#[derive(Drop)]
pub(crate) struct Splicer<'a> {
    pub placed: PlacedList,
    pub unspliced: Files<'a>,
    pub bytes: usize,
    pub stack: Vec<Coming<'a>>,
}
