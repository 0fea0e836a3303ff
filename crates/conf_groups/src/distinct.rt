// Lists without repeats.
ghost use Rattle.std.specs.Prelude.{◌≡◌, [], IfOk, is_some};
ghost use Rattle.conf_groups.specs.Groups.{with_item, with_items};

use base_types::{NameMap, NoMemory, Text};
use conf_lex::TextList;
use std::alloc::Global;
use std::marker::Model;

/// Texts in the order in which they came, each once.
///
/// To add one takes as many comparisons as the logarithm of their number.
#[derive(Drop)]
pub(crate) struct Distinct {
    items: TextList,
    names: NameMap<bool>,
}

impl Model for Distinct {
    ghost use Rattle.std.specs.Prelude.{List, ℕ, ◌≡◌, is_some};
    ghost use Rattle.std.specs.FinMap as named;
    ghost use Rattle.conf_groups.specs.Groups.{holds};

    ghost Value = { List (List ℕ) };

    ghost view = { λ d. d.items };

    ghost invariant = { λ d. (word : List ℕ) → named.contains_key d.names word ≡ holds d.items word };
}

impl Distinct {
    #[tactic(auto, using(crate::proofs::DistinctLemmas::none_held))]
    pub(crate) fn new(alloc: Global) -> Distinct
        ensures { result ≡ [] }
    {
        Distinct {
            items: TextList::new(alloc),
            names: NameMap::new(alloc),
        }
    }

    /// With one text more, unless it is there.
    #[tactic(auto, using(crate::proofs::DistinctLemmas::held_with))]
    pub(crate) fn with(self, item: &Text) -> Result<Distinct, NoMemory>
        ensures { IfOk result (λ d. d ≡ with_item self item.now) }
    {
        let Distinct {
            mut items,
            mut names,
        } = self;
        if names.get(item).is_some() {
            return Ok(Distinct { items, names });
        }
        names.insert(item.clone()?, true)?;
        items.push(item.clone()?)?;
        Ok(Distinct { items, names })
    }

    /// With more texts, without those that are there.
    pub(crate) fn with_all(self, more: &[Text]) -> Result<Distinct, NoMemory>
        ensures { IfOk result (λ d. d ≡ with_items self more.now) }
    {
        let mut all = self;
        for item in more {
            all = all.with(item)?;
        }
        Ok(all)
    }

    pub(crate) fn into_list(self) -> TextList
        ensures { result ≡ self }
    {
        let Distinct { items, .. } = self;
        items
    }
}
