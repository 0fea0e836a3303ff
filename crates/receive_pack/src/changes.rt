// The commands of a push, line by line.
ghost use Rattle.std.specs.Prelude.{◌≡◌, ◌==◌, not, IfOk, IfSome};
ghost use Rattle.std.specs.List.{list_all};
ghost use Rattle.std.specs.Option.{option_map};
ghost use Rattle.receive_pack.specs.Changes.{all_delete, before_zero, behind_zero, capabilities, change, deletes, first_capabilities, first_command, has_word, HasShortName, is_ref_text, parts};

use base_types::{NoMemory, Text};
use git_object::{ObjectId, hex_id, literal, up_to};
use ref_store::{Command, CommandList, MAX_NAME};
use std::alloc::Global;

/// What the client asks for of what the server can do.
#[derive(Clone, Copy, Debug, PartialEq, Eq)]
pub struct Capabilities {
    /// The outcomes are to be told.
    pub report_status: bool,
    /// All commands are done, or none.
    pub atomic: bool,
}

// The values and the ref's text of a command.
#[derive(Clone, Copy)]
struct Parts<'a> {
    old: ObjectId,
    new: ObjectId,
    text: &'a [u8],
}

/// The command that a line has, if it has one. Its ref's name is then short.
#[tactic(auto, unfolding(crate::specs::Changes::change))]
pub fn change(alloc: Global, line: &[u8]) -> Result<Option<Command>, NoMemory>
    ensures command { IfOk result (λ o. o ≡ change line.now) }
    ensures short { IfOk result (λ o. IfSome o HasShortName) }
{
    let Some(parts) = parts_of(line) else {
        return Ok(None);
    };
    if !is_ref_text(parts.text) {
        return Ok(None);
    }
    Ok(Some(Command {
        old: parts.old,
        new: parts.new,
        name: Text::of(alloc, parts.text)?,
    }))
}

// Whether it has 1 to 1,024 bytes, none of them zero.
fn is_ref_text(text: &[u8]) -> bool
    ensures { result ≡ is_ref_text text.now }
{
    if text.is_empty() {
        return false;
    }
    if text.len() > MAX_NAME {
        return false;
    }
    has_no_zero(text)
}

fn has_no_zero(text: &[u8]) -> bool
    ensures { result ≡ list_all (λ b. not (b == 0)) text.now }
{
    !text.contains(&0)
}

#[tactic(auto, unfolding(crate::specs::Changes::parts))]
fn parts_of(line: &[u8]) -> Option<Parts<'_>>
    ensures { option_map (λ p. (p.old, p.new, p.text.now)) result ≡ parts line.now }
{
    let (old, behind) = hex_id(line)?;
    let digits = literal(behind, b" ")?;
    let (new, end) = hex_id(digits)?;
    let text = literal(end, b" ")?;
    Some(Parts { old, new, text })
}

/// The first command of a push, if its line has one. Its ref's name is then short.
pub fn first_command(alloc: Global, line: &[u8]) -> Result<Option<Command>, NoMemory>
    ensures command { IfOk result (λ o. o ≡ first_command line.now) }
    ensures short { IfOk result (λ o. IfSome o HasShortName) }
{
    change(alloc, before_zero(line))
}

/// What the client asks for behind the first command.
pub fn first_capabilities(line: &[u8]) -> Capabilities
    ensures { result ≡ first_capabilities line.now }
{
    capabilities_in(behind_zero(line))
}

fn before_zero(line: &[u8]) -> &[u8]
    ensures { result.now ≡ before_zero line.now }
{
    match up_to(line, 0) {
        Some((text, _)) => text,
        None => line,
    }
}

fn behind_zero(line: &[u8]) -> &[u8]
    ensures { result.now ≡ behind_zero line.now }
{
    match up_to(line, 0) {
        Some((_, words)) => words,
        None => b"".as_slice(),
    }
}

fn capabilities_in(text: &[u8]) -> Capabilities
    ensures { result ≡ capabilities text.now }
{
    Capabilities {
        report_status: has_word(b"report-status", text),
        atomic: has_word(b"atomic", text),
    }
}

// Whether a word is among those of a text.
fn has_word(word: &[u8], text: &[u8]) -> bool
    ensures { result ≡ has_word word.now text.now }
{
    text.split(|b| *b == b' ').any(|w| w == word)
}

/// Whether each command deletes its ref, so that no pack follows.
pub fn all_delete(commands: &CommandList) -> bool
    ensures { result ≡ all_delete commands.now }
{
    commands.as_slice().iter().all(|command| deletes(command))
}

fn deletes(command: &Command) -> bool
    ensures { result ≡ deletes command.now }
{
    command.new == ObjectId::zero()
}
