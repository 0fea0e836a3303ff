// Names of repositories, each once.
ghost use Rattle.std.specs.Prelude.{◌≡◌, [], IfOk};
ghost use Rattle.conf_groups.specs.Groups.{with_item};

use base_types::{ItemList, NameMap, NoMemory, Text};
use conf_lex::RepoName;
use std::alloc::Global;
use std::marker::Model;

/// Names in order of first mention, each once.
#[derive(Drop)]
pub(crate) struct NameList {
    items: ItemList<RepoName>,
    names: NameMap<bool>,
}

impl Model for NameList {
    ghost use Rattle.std.specs.Prelude.{List, ℕ, ◌≡◌};
    ghost use Rattle.std.specs.FinMap as named;
    ghost use Rattle.conf_groups.specs.Groups.{holds};

    ghost Value = { List (List ℕ) };

    ghost view = { λ l. l.items };

    ghost invariant = { λ l. (word : List ℕ) → named.contains_key l.names word ≡ holds l.items word };
}

impl NameList {
    #[tactic(auto, using(conf_groups::proofs::DistinctLemmas::none_held))]
    pub(crate) fn new(alloc: Global) -> NameList
        ensures { result ≡ [] }
    {
        NameList {
            items: ItemList::new(alloc),
            names: NameMap::new(alloc),
        }
    }

    /// With one name more, unless it is there.
    #[tactic(auto, using(conf_groups::proofs::DistinctLemmas::held_with))]
    pub(crate) fn with(self, alloc: Global, name: &RepoName) -> Result<NameList, NoMemory>
        ensures { IfOk result (λ l. l ≡ with_item self name.now) }
    {
        let NameList {
            mut items,
            mut names,
        } = self;
        let text = Text::of(alloc, name.bytes())?;
        if names.get(&text).is_some() {
            return Ok(NameList { items, names });
        }
        names.insert(text, true)?;
        items.push(name.clone()?)?;
        Ok(NameList { items, names })
    }

    pub(crate) fn as_slice(&self) -> &[RepoName]
        ensures { result.now ≡ self.now }
    {
        self.items.as_slice()
    }
}
