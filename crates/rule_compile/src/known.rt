// Patterns that were read, with their texts.
ghost use Rattle.std.specs.Prelude.{◌≡◌, ◌≤◌, IfOk, length};
ghost use Rattle.std.specs.Option.{option_copied};
ghost use Rattle.refex.specs.Pattern.{Pattern};
ghost use Rattle.refex.specs.Program.{pattern_of};
ghost use Rattle.refex.specs.Refex.{IsRefex};
ghost use Rattle.refex.specs.declared.faults.Hole.{Hole};
ghost use Rattle.refex.specs.declared.limits.TheConstants.{MAX_NAME};
ghost use Rattle.rule_compile.specs.Covering.{pattern_covers};
ghost use Rattle.rule_compile.specs.Patterns.{AreTrue, Patterns};

use base_types::{NoMemory, Text};
use conf_lex::{RepoName, UserName};
use refex::Refex;
use std::alloc::{AllocError, Global};
use std::marker::Model;
use std::sync::Arc;

#[derive(Drop)]
struct Table {
    text: Text,
    refex: Refex,
}

/// A refex and its text. A clone shares both.
#[derive(Drop)]
pub(crate) struct KnownRefex {
    table: Arc<Table>,
}

impl Model for KnownRefex {
    ghost use Rattle.std.specs.Arc.{arc_value};
    ghost use Rattle.std.specs.Prelude.{List, ℕ};
    ghost use Rattle.refex.specs.Program.{pattern_of};
    ghost use Rattle.refex.specs.Refex.{IsRefex};
    ghost use Rattle.refex.specs.declared.faults.Hole.TheVariants.{User};

    ghost Value = { List ℕ };

    ghost view = { λ r. (arc_value r.table).text };

    ghost invariant = { λ r. IsRefex User (arc_value r.table).text (pattern_of (arc_value r.table).refex) };
}

impl KnownRefex {
    pub(crate) fn of(alloc: Global, text: Text, refex: Refex) -> Result<KnownRefex, NoMemory>
        requires { IsRefex Hole.User text (pattern_of refex) }
        ensures { IfOk result (λ r. r ≡ text) }
    {
        let table = Arc::new(alloc, Table { text, refex })?;
        Ok(KnownRefex { table })
    }

    /// Its text, which is a refex.
    pub(crate) fn text(&self) -> &Text
        ensures text { result.now ≡ self.now }
        ensures refex { (p : Pattern) × IsRefex Hole.User self.now p }
    {
        &self.table.text
    }

    /// Whether it matches the name of a ref from its start, the user's name being in its hole.
    pub(crate) fn starts(&self, name: &[u8], user: &[u8]) -> bool
        requires { length user.now ≤ MAX_NAME }
        ensures { (ps : Patterns) → AreTrue ps → result ≡ ps.starts self.now user.now name.now }
    {
        self.table.refex.starts(name, user)
    }
}

impl Clone for KnownRefex {
    ghost is_clone = { λ refex copy. copy ≡ refex };

    fn clone(&self) -> Result<KnownRefex, AllocError> {
        Ok(KnownRefex {
            table: Arc::try_clone(&self.table)?,
        })
    }
}

/// A pattern for names of repositories and its text. A clone shares both.
#[derive(Drop)]
pub(crate) struct KnownPattern {
    table: Arc<Table>,
}

impl Model for KnownPattern {
    ghost use Rattle.std.specs.Arc.{arc_value};
    ghost use Rattle.std.specs.Prelude.{List, ℕ};
    ghost use Rattle.refex.specs.Program.{pattern_of};
    ghost use Rattle.refex.specs.Refex.{IsRefex};
    ghost use Rattle.refex.specs.declared.faults.Hole.TheVariants.{Creator};

    ghost Value = { List ℕ };

    ghost view = { λ p. (arc_value p.table).text };

    ghost invariant = { λ p. IsRefex Creator (arc_value p.table).text (pattern_of (arc_value p.table).refex) };
}

impl KnownPattern {
    pub(crate) fn of(alloc: Global, text: Text, refex: Refex) -> Result<KnownPattern, NoMemory>
        requires { IsRefex Hole.Creator text (pattern_of refex) }
        ensures { IfOk result (λ p. p ≡ text) }
    {
        let table = Arc::new(alloc, Table { text, refex })?;
        Ok(KnownPattern { table })
    }

    /// Its text, which is a pattern for names of repositories.
    pub(crate) fn text(&self) -> &Text
        ensures text { result.now ≡ self.now }
        ensures pattern { (p : Pattern) × IsRefex Hole.Creator self.now p }
    {
        &self.table.text
    }

    /// Whether it takes the whole of a name, the creator's name being in its hole.
    fn takes(&self, name: &[u8], creator: &[u8]) -> bool
        requires { length creator.now ≤ MAX_NAME }
        ensures { (ps : Patterns) → AreTrue ps → result ≡ ps.takes self.now creator.now name.now }
    {
        self.table.refex.whole(name, creator)
    }

    /// Whether it has the hole for the creator's name.
    fn has_hole(&self) -> bool
        ensures { (ps : Patterns) → AreTrue ps → result ≡ ps.has_hole self.now }
    {
        self.table.refex.has_hole()
    }

    /// Whether it covers a repository. With a hole it covers none that nobody created.
    pub(crate) fn covers(&self, repo: &RepoName, creator: Option<&UserName>) -> bool
        ensures { (ps : Patterns) → AreTrue ps → result ≡ pattern_covers ps self.now repo.now (option_copied creator.entry) }
    {
        match creator {
            Some(creator) => self.takes(repo.bytes(), creator.bytes()),
            None => !self.has_hole() && self.takes(repo.bytes(), b""),
        }
    }
}

impl Clone for KnownPattern {
    ghost is_clone = { λ pattern copy. copy ≡ pattern };

    fn clone(&self) -> Result<KnownPattern, AllocError> {
        Ok(KnownPattern {
            table: Arc::try_clone(&self.table)?,
        })
    }
}
