// Which words may cover a repository.
ghost use Rattle.std.specs.Prelude.{◌≡◌, ◌++◌, ◌∷◌, [], suc, ℕ, length, slice_get, IfOk, List, Option, Some};
ghost use Rattle.std.specs.Str.{bytes_eq};
ghost use Rattle.std.specs.Option.{option_copied};
ghost use Rattle.rule_compile.specs.Covering.{covers_repo};
ghost use Rattle.rule_compile.specs.Index.{numbers_at, pattern_text, with_number};
ghost use Rattle.rule_compile.specs.Patterns.{AreTrue, Patterns};
ghost use Rattle.rule_compile.specs.Sound.{IsSoundWord};
ghost use Rattle.rule_compile.specs.WordIndex.{Indexes, IsAt};
ghost use Rattle.rule_compile.specs.declared.rule.RepoWord.{RepoWord};
ghost use Rattle.rule_compile.specs.declared.rule.RepoWord.TheVariants as repo;

use crate::RepoWord;
use crate::cursor::Cursor;
use crate::known::KnownPattern;
use crate::patterns::PatternTable;
use crate::salt::Salt;
use base_types::{ItemList, NoMemory};
use conf_lex::{RepoName, UserName};
use std::alloc::Global;
use std::collections::HashMap;

/// A list of repository words, which are numbered from 1: the numbers of those that are a plain name, by that
/// name, of those that are `@all`, and of those that are patterns; and the pattern at each place where there
/// is one.
#[derive(Drop)]
pub(crate) struct WordIndex {
    pub plain: HashMap<RepoName, ItemList<u32>, Salt>,
    pub all: ItemList<u32>,
    pub pattern_numbers: ItemList<u32>,
    pub patterns: ItemList<Option<KnownPattern>>,
}

impl WordIndex {
    /// An empty index, whose names are hashed from this salt.
    pub(crate) fn new(alloc: Global, salt: Salt) -> WordIndex
        ensures { Indexes result [] }
    {
        WordIndex {
            plain: HashMap::with_hasher(alloc, salt),
            all: ItemList::new(alloc),
            pattern_numbers: ItemList::new(alloc),
            patterns: ItemList::new(alloc),
        }
    }

    // The number of the next word.
    fn next_number(&self) -> Result<u32, NoMemory>
        ensures { (words : List RepoWord) → Indexes self.now words → IfOk result (λ n. n ≡ suc (length words)) }
    {
        let Ok(count) = u32::try_from(self.patterns.len()) else {
            return Err(NoMemory);
        };
        match count.checked_add(1) {
            Some(number) => Ok(number),
            None => Err(NoMemory),
        }
    }

    /// With one word more, whose pattern is taken from the table.
    pub(crate) fn with_next(
        self,
        alloc: Global,
        patterns: &PatternTable,
        word: &RepoWord,
    ) -> Result<WordIndex, NoMemory>
        requires { IsSoundWord word.now }
        ensures { (words : List RepoWord) → Indexes self words → IfOk result (λ index. Indexes index (words ++ word.now ∷ [])) }
    {
        match word {
            RepoWord::Plain(name) => self.with_name(alloc, name),
            RepoWord::All => self.with_all(),
            RepoWord::Pattern(text) => self.with_pattern(patterns.known_pattern(alloc, text)?),
        }
    }

    fn with_name(self, alloc: Global, name: &RepoName) -> Result<WordIndex, NoMemory>
        ensures { (words : List RepoWord) → Indexes self words → IfOk result (λ index. Indexes index (words ++ repo.Plain name.now ∷ [])) }
    {
        let number = self.next_number()?;
        let mut index = self;
        index.plain = with_number_at(alloc, index.plain, name, number)?;
        index.patterns.push(None)?;
        Ok(index)
    }

    fn with_all(self) -> Result<WordIndex, NoMemory>
        ensures { (words : List RepoWord) → Indexes self words → IfOk result (λ index. Indexes index (words ++ repo.All ∷ [])) }
    {
        let number = self.next_number()?;
        let mut index = self;
        index.all.push(number)?;
        index.patterns.push(None)?;
        Ok(index)
    }

    fn with_pattern(self, pattern: KnownPattern) -> Result<WordIndex, NoMemory>
        ensures { (words : List RepoWord) → Indexes self words → IfOk result (λ index. Indexes index (words ++ repo.Pattern pattern ∷ [])) }
    {
        let number = self.next_number()?;
        let mut index = self;
        index.pattern_numbers.push(number)?;
        index.patterns.push(Some(pattern))?;
        Ok(index)
    }

    /// The numbers of the words that are this plain name. A look-up takes the same time however many names
    /// there are.
    pub(crate) fn numbers_of_name(&self, name: &RepoName) -> &[u32]
        ensures { result.now ≡ numbers_at self.now.plain name.now }
    {
        match self.plain.get(name) {
            Some(numbers) => numbers.as_slice(),
            None => &[],
        }
    }

    /// All words that may cover a repository, from the first on.
    pub(crate) fn cursor<'a>(&'a self, name: &RepoName) -> Cursor<'a>
        ensures { (words : List RepoWord) → Indexes self.now words → IsAt result words name.now 0 }
    {
        Cursor {
            plain: self.numbers_of_name(name),
            all: self.all.as_slice(),
            patterns: self.pattern_numbers.as_slice(),
        }
    }

    /// Whether the word at a place, counted from 0, covers a repository.
    pub(crate) fn covers_by(
        &self,
        place: usize,
        word: &RepoWord,
        repo: &RepoName,
        creator: Option<&UserName>,
    ) -> bool
        requires { slice_get self.now.patterns place ≡ Some (pattern_text word.now) }
        ensures { (ps : Patterns) → AreTrue ps → result ≡ covers_repo ps word.now repo.now (option_copied creator.entry) }
    {
        match word {
            RepoWord::Plain(name) => name.bytes() == repo.bytes(),
            RepoWord::All => true,
            RepoWord::Pattern(_) => match self.pattern(place) {
                Some(pattern) => pattern.covers(repo, creator),
                None => unreachable!(),
            },
        }
    }

    /// The pattern of the word at a place, counted from 0, where it is one.
    pub(crate) fn pattern(&self, place: usize) -> Option<&KnownPattern>
        ensures { (text : Option (List ℕ)) → slice_get self.now.patterns place ≡ Some text → option_copied result ≡ text }
    {
        match self.patterns.get(place) {
            Some(pattern) => pattern.as_ref(),
            None => None,
        }
    }
}

// A table with one number more at a name.
fn with_number_at(
    alloc: Global,
    table: HashMap<RepoName, ItemList<u32>, Salt>,
    name: &RepoName,
    number: u32,
) -> Result<HashMap<RepoName, ItemList<u32>, Salt>, NoMemory>
    ensures { IfOk result (λ more. (other : List ℕ) → numbers_at more other ≡ with_number (numbers_at table other) (bytes_eq name.now other) number) }
{
    let mut more = table;
    let mut numbers = more.remove(name).unwrap_or(ItemList::new(alloc));
    numbers.push(number)?;
    more.insert(name.clone()?, numbers)?;
    Ok(more)
}
