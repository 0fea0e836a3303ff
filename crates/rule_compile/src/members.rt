// The members of a group.
ghost use Rattle.std.specs.Prelude.{◌≡◌, IfOk};
ghost use Rattle.conf_groups.specs.Groups.{holds};
ghost use Rattle.rule_compile.specs.Members.{AreMembers};

use base_types::{NoMemory, Text};
use conf_lex::TextList;
use std::alloc::{AllocError, Global};
use std::collections::BTreeSet;
use std::marker::Model;
use std::sync::Arc;

#[derive(Drop)]
struct Table {
    list: TextList,
    names: BTreeSet<Vec<u8>>,
}

/// The members of a group, in order of first mention. A clone shares them.
#[derive(Drop)]
pub struct Members {
    table: Arc<Table>,
}

impl Model for Members {
    ghost use Rattle.std.specs.Arc.{arc_value};
    ghost use Rattle.std.specs.Prelude.{List, ℕ};
    ghost use Rattle.rule_compile.specs.Members.{AreMembers};

    ghost Value = { List (List ℕ) };

    ghost view = { λ m. (arc_value m.table).list };

    ghost invariant = { λ m. AreMembers (arc_value m.table).names (arc_value m.table).list };
}

impl Members {
    /// The members of a list.
    pub fn of(alloc: Global, list: TextList) -> Result<Members, NoMemory>
        ensures { IfOk result (λ members. members ≡ list) }
    {
        let names = names_of(alloc, list.as_slice())?;
        let table = Arc::new(alloc, Table { list, names })?;
        Ok(Members { table })
    }

    /// The members in order.
    pub fn as_slice(&self) -> &[Text]
        ensures { result.now ≡ self.now }
    {
        self.table.list.as_slice()
    }

    /// Whether the word is a member. It costs the logarithm of the number of the members.
    pub fn contains(&self, word: &[u8]) -> bool
        ensures { result ≡ holds self.now word.now }
    {
        self.table.names.contains(word)
    }
}

/// The members, each once.
fn names_of(alloc: Global, list: &[Text]) -> Result<BTreeSet<Vec<u8>>, NoMemory>
    ensures { IfOk result (λ names. AreMembers names list.now) }
{
    let mut names = BTreeSet::new(alloc);
    for member in list {
        names.insert(member.bytes().to_vec(alloc)?)?;
    }
    Ok(names)
}

impl Clone for Members {
    ghost is_clone = { λ members copy. copy ≡ members };

    fn clone(&self) -> Result<Members, AllocError> {
        Ok(Members {
            table: Arc::try_clone(&self.table)?,
        })
    }
}
