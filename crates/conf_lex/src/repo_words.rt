// Words that name repositories.
ghost use Rattle.std.specs.Prelude.{◌≡◌};
ghost use Rattle.conf_lex.specs.Words.{begins_with_at};
ghost use Rattle.conf_lex.specs.RepoWords.{kind_of, repo_word};

use crate::RepoName;
use crate::names::occurs;

/// What a word that names repositories is.
#[derive(Clone, Copy, Debug, PartialEq, Eq)]
pub enum RepoWordKind {
    /// A group, `@all` too.
    Group,
    /// One repository.
    Plain,
    /// A pattern, which may be none that can be read.
    Pattern,
}

/// The word that this word stands for: `name.git` stands for `name`, where that is a plain name. It costs the
/// word's length and takes no memory.
pub fn repo_word(word: &[u8]) -> &[u8]
    ensures { result.now ≡ repo_word word.now }
{
    if !word.ends_with(b".git") {
        return word;
    }
    let name = word.split_at(word.len() - 4).0;
    if RepoName::is_name(name) { name } else { word }
}

/// What kind of word it is, once `repo_word` has dropped its ending. It costs the word's length and takes no
/// memory.
pub fn kind_of(word: &[u8]) -> RepoWordKind
    ensures { result ≡ kind_of word.now }
{
    if occurs(b"CREATOR", word) {
        return RepoWordKind::Pattern;
    }
    if begins_with_at(word) {
        return RepoWordKind::Group;
    }
    if RepoName::is_name(word) {
        return RepoWordKind::Plain;
    }
    RepoWordKind::Pattern
}

fn begins_with_at(word: &[u8]) -> bool
    ensures { result ≡ begins_with_at word.now }
{
    matches!(word, [b'@', ..])
}
