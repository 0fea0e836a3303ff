// Which words are declared as roles, and for which repositories.
ghost use Rattle.std.specs.Prelude.{◌≡◌, ◌++◌, ◌∷◌, ℕ, [], true, IfOk, List};
ghost use Rattle.std.specs.Option.{option_copied};
ghost use Rattle.rule_compile.specs.Index.{OptionWord};
ghost use Rattle.rule_compile.specs.OptionWords.{IsOption};
ghost use Rattle.rule_compile.specs.Patterns.{AreTrue, Patterns};
ghost use Rattle.rule_compile.specs.RoleOptions.{AreRoles, PutsAt};
ghost use Rattle.rule_compile.specs.Roles.{declares, is_role_name, role_key};
ghost use Rattle.rule_compile.specs.Sound.{IsSoundOption};
ghost use Rattle.rule_compile.specs.declared.rule.OptionLine as option_line;

use crate::OptionLine;
use crate::option_words::OptionWords;
use crate::patterns::PatternTable;
use crate::roles::{is_common_role, role_of};
use crate::salt::Salt;
use base_types::{NoMemory, Text};
use conf_lex::{RepoName, TextList, UserName};
use std::alloc::Global;
use std::collections::BTreeMap;

/// The roles' names that option lines mention, each once, and for each the words of the lines that set its
/// option.
#[derive(Drop)]
pub(crate) struct RoleOptions {
    pub salt: Salt,
    pub names: TextList,
    pub table: BTreeMap<Vec<u8>, OptionWords>,
}

impl RoleOptions {
    /// Of no lines. The names of repositories are hashed from this salt.
    pub(crate) fn new(alloc: Global, salt: Salt) -> RoleOptions
        ensures { AreRoles result [] }
    {
        RoleOptions {
            salt,
            names: TextList::new(alloc),
            table: BTreeMap::new(alloc),
        }
    }

    /// With one line more.
    pub(crate) fn with_line(
        self,
        alloc: Global,
        patterns: &PatternTable,
        line: &OptionLine,
    ) -> Result<RoleOptions, NoMemory>
        requires { IsSoundOption line.now }
        ensures { (lines : List option_line.OptionLine) → AreRoles self lines → IfOk result (λ roles. AreRoles roles (lines ++ line.now ∷ [])) }
    {
        match role_of(line.key.bytes()) {
            Some(word) => self.with_role(alloc, patterns, word, line),
            None => Ok(self),
        }
    }

    // With one line more, which sets the option of this role.
    fn with_role(
        self,
        alloc: Global,
        patterns: &PatternTable,
        word: &[u8],
        line: &OptionLine,
    ) -> Result<RoleOptions, NoMemory>
        requires sound { IsSoundOption line.now }
        requires key { line.now.key ≡ role_key word.now }
        requires role { is_role_name word.now ≡ true }
        ensures { (lines : List option_line.OptionLine) → AreRoles self lines → IfOk result (λ roles. AreRoles roles (lines ++ line.now ∷ [])) }
    {
        let mut roles = self;
        match roles.table.remove(word) {
            Some(kept) => roles.put(alloc, patterns, word, line, kept),
            None => {
                roles.names.push(Text::of(alloc, word)?)?;
                let kept = OptionWords::new(alloc, roles.salt);
                roles.put(alloc, patterns, word, line, kept)
            }
        }
    }

    // With what was kept of a word, and a line's words behind it.
    fn put(
        self,
        alloc: Global,
        patterns: &PatternTable,
        word: &[u8],
        line: &OptionLine,
        kept: OptionWords,
    ) -> Result<RoleOptions, NoMemory>
        requires { IsSoundOption line.now }
        ensures { (words : List OptionWord) → IsOption kept words → IfOk result (λ roles. PutsAt self roles word.now words line.now) }
    {
        let mut roles = self;
        let kept = kept.with_line(alloc, patterns, line)?;
        roles.table.insert(word.to_vec(alloc)?, kept)?;
        Ok(roles)
    }

    /// Whether a word is a role for a repository. A word that no line mentions costs a look-up; for one that
    /// lines do it looks at their words that are the repository's name, at `@all` and at patterns.
    pub(crate) fn declares(&self, word: &[u8], repo: &RepoName, creator: Option<&UserName>) -> bool
        ensures { (ps : Patterns) → AreTrue ps → (lines : List option_line.OptionLine) → AreRoles self.now lines → result ≡ declares ps lines word.now repo.now (option_copied creator.entry) }
    {
        if is_common_role(word) {
            return true;
        }
        match self.table.get(word) {
            Some(kept) => kept.is_in_force(repo, creator),
            None => false,
        }
    }
}
