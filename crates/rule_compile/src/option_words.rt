// Where an option is in force.
ghost use Rattle.std.specs.Prelude.{◌≡◌, ◌++◌, ◌∷◌, [], false, true, map, suc, slice_get, IfOk, List, Some, ℕ};
ghost use Rattle.std.specs.Option.{option_copied};
ghost use Rattle.rule_compile.specs.Covering.{covers_repo, may_cover};
ghost use Rattle.rule_compile.specs.OptionWords.{IsOption};
ghost use Rattle.rule_compile.specs.Index.{OptionWord, option_word, last_on, set_by, words_of_line};
ghost use Rattle.rule_compile.specs.Patterns.{AreTrue, Patterns};
ghost use Rattle.rule_compile.specs.Sound.{AreSoundWords, IsSoundOption, IsSoundWord};

use crate::patterns::PatternTable;
use crate::salt::Salt;
use crate::word_index::WordIndex;
use crate::{OptionLine, RepoWord};
use base_types::{ItemList, NoMemory};
use conf_lex::{RepoName, UserName};
use std::alloc::Global;

/// The words of all lines that set an option, in order, and what each sets it to.
#[derive(Drop)]
pub(crate) struct OptionWords {
    pub index: WordIndex,
    pub on: ItemList<bool>,
}

impl OptionWords {
    pub(crate) fn new(alloc: Global, salt: Salt) -> OptionWords
        ensures { IsOption result [] }
    {
        OptionWords {
            index: WordIndex::new(alloc, salt),
            on: ItemList::new(alloc),
        }
    }

    /// With the words of a line that sets the option.
    pub(crate) fn with_line(
        self,
        alloc: Global,
        patterns: &PatternTable,
        line: &OptionLine,
    ) -> Result<OptionWords, NoMemory>
        requires { IsSoundOption line.now }
        ensures { (ds : List OptionWord) → IsOption self ds → IfOk result (λ kept. IsOption kept (ds ++ words_of_line line.now)) }
    {
        let on = line.value.bytes() == b"1".as_slice();
        self.with_words(alloc, patterns, line.repos.as_slice(), on)
    }

    fn with_words(
        self,
        alloc: Global,
        patterns: &PatternTable,
        words: &[RepoWord],
        on: bool,
    ) -> Result<OptionWords, NoMemory>
        requires { AreSoundWords words.now }
        ensures { (ds : List OptionWord) → IsOption self ds → IfOk result (λ kept. IsOption kept (ds ++ map (option_word on) words.now)) }
    {
        let mut kept = self;
        for word in words {
            kept = kept.with_word(alloc, patterns, word, on)?;
        }
        Ok(kept)
    }

    fn with_word(
        self,
        alloc: Global,
        patterns: &PatternTable,
        word: &RepoWord,
        on: bool,
    ) -> Result<OptionWords, NoMemory>
        requires { IsSoundWord word.now }
        ensures { (ds : List OptionWord) → IsOption self ds → IfOk result (λ kept. IsOption kept (ds ++ option_word on word.now ∷ [])) }
    {
        let OptionWords {
            index,
            on: mut values,
        } = self;
        let index = index.with_next(alloc, patterns, word)?;
        values.push(on)?;
        Ok(OptionWords { index, on: values })
    }

    /// Whether the last of the words that covers a repository sets the option to `1`. It looks at the words
    /// that are the repository's name, at `@all` and at patterns.
    pub(crate) fn is_in_force(&self, repo: &RepoName, creator: Option<&UserName>) -> bool
        ensures { (ps : Patterns) → AreTrue ps → (ds : List OptionWord) → IsOption self.now ds → result ≡ last_on ps repo.now (option_copied creator.entry) false ds }
    {
        let mut cursor = self.index.cursor(repo);
        let mut in_force = false;
        while let Some(number) = cursor.next() {
            in_force = self.set_by(number, repo, creator).unwrap_or(in_force);
        }
        in_force
    }

    // What the word of a number, one that may cover the repository, sets the option to, where it covers it.
    fn set_by(&self, number: u32, repo: &RepoName, creator: Option<&UserName>) -> Option<bool>
        ensures { (ps : Patterns) → AreTrue ps → (ds : List OptionWord) → IsOption self.now ds → (place : ℕ) → number ≡ suc place → (d : OptionWord) → slice_get ds place ≡ Some d → may_cover repo.now d.word ≡ true → result ≡ set_by ps repo.now (option_copied creator.entry) d }
    {
        let place = (number as usize).checked_sub(1)?;
        if !self.covers_at(place, repo, creator) {
            return None;
        }
        self.on.get(place).copied()
    }

    // Whether the word at a place, one that may cover the repository, does.
    fn covers_at(&self, place: usize, repo: &RepoName, creator: Option<&UserName>) -> bool
        ensures { (ps : Patterns) → AreTrue ps → (ds : List OptionWord) → IsOption self.now ds → (d : OptionWord) → slice_get ds place ≡ Some d → may_cover repo.now d.word ≡ true → result ≡ covers_repo ps d.word repo.now (option_copied creator.entry) }
    {
        match self.index.pattern(place) {
            Some(pattern) => pattern.covers(repo, creator),
            None => true,
        }
    }
}
