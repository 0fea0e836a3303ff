// A line of a listing, and its text.
ghost use Rattle.std.specs.Prelude.{◌≡◌, IfOk};
ghost use Rattle.repo_listing.specs.Lines.{line_text, rights_text, subject};

use base_types::{ItemList, NoMemory, Text};
use conf_lex::RepoName;
use std::alloc::Global;

/// A line of what a user may see.
#[derive(Drop)]
pub enum LookLine {
    /// A repository that the user may read, and whether the user may write it too.
    Repo { name: RepoName, write: bool },
    /// A pattern by which the user may create repositories.
    Pattern(Text),
}

/// The lines for a user: repositories, and then patterns.
pub type LookList = ItemList<LookLine>;

/// The text of a line, with its line feed: what the user may do, a tab, and the name or the pattern.
pub fn line_text(alloc: Global, line: &LookLine) -> Result<Text, NoMemory>
    ensures { IfOk result (λ text. text ≡ line_text line.now) }
{
    let mut text = rights_text(line).to_vec(alloc)?;
    text.extend_from_slice(subject(line))?;
    text.push(b'\n')?;
    Ok(Text::from(text))
}

// What the user may do, with the tab after it.
fn rights_text(line: &LookLine) -> &'static [u8]
    ensures { result.now ≡ rights_text line.now }
{
    match line {
        LookLine::Repo { write: true, .. } => b"R W\t".as_slice(),
        LookLine::Repo { write: false, .. } => b"R\t".as_slice(),
        LookLine::Pattern(_) => b"C\t".as_slice(),
    }
}

// The name or the pattern.
fn subject(line: &LookLine) -> &[u8]
    ensures { result.now ≡ subject line.now }
{
    match line {
        LookLine::Repo { name, .. } => name.bytes(),
        LookLine::Pattern(text) => text.bytes(),
    }
}
