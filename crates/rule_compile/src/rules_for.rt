// The rules that may cover a repository.
ghost use Rattle.std.specs.Prelude.{◌≡◌};
ghost use Rattle.rule_compile.specs.Covering.{rules_for};
ghost use Rattle.rule_compile.specs.Index.{AreNumbered, words_of_rules};
ghost use Rattle.rule_compile.specs.WordIndex.{Indexes};

use crate::Rule;
use crate::cursor::Cursor;
use crate::word_index::WordIndex;
use base_types::ItemList;
use conf_lex::RepoName;
use std::marker::Model;

/// The rules whose word is the name of a repository, `@all` or a pattern, in the order of their numbers. It
/// takes no memory, and looks at no other rules.
#[derive(Drop)]
pub struct RulesFor<'a> {
    rules: &'a ItemList<Rule>,
    name: &'a RepoName,
    cursor: Cursor<'a>,
    place: usize,
}

impl<'a> Model for RulesFor<'a> {
    ghost use Rattle.std.specs.Prelude.{List, drop};
    ghost use Rattle.rule_compile.specs.declared.rule.Rule as declared;
    ghost use Rattle.rule_compile.specs.Covering.{rules_for};
    ghost use Rattle.rule_compile.specs.Index.{AreNumbered, words_of_rules};
    ghost use Rattle.rule_compile.specs.WordIndex.{IsAt};

    ghost Value = { List declared.Rule };

    ghost view = { λ it. rules_for (drop it.place it.rules.now) it.name.now };

    ghost invariant = { λ it. AreNumbered it.rules.now × IsAt it.cursor (words_of_rules it.rules.now) it.name.now it.place };
}

impl<'a> RulesFor<'a> {
    pub(crate) fn new(
        rules: &'a ItemList<Rule>,
        index: &'a WordIndex,
        name: &'a RepoName,
    ) -> RulesFor<'a>
        requires { AreNumbered rules.now × Indexes index.now (words_of_rules rules.now) }
        ensures { result ≡ rules_for rules.now name.now }
    {
        RulesFor {
            rules,
            name,
            cursor: index.cursor(name),
            place: 0,
        }
    }
}

impl<'a> Iterator for RulesFor<'a> {
    ghost use Rattle.std.specs.Iterator.{YieldsFirstRef, item_count};

    type Item = &'a Rule;

    ghost next_gives = { YieldsFirstRef (λ left. left) };

    ghost remaining = { item_count (λ left. left) };

    fn next(&mut self) -> Option<&'a Rule> {
        match self.cursor.next() {
            Some(number) => {
                self.place = number as usize;
                match self.rules.get(self.place - 1) {
                    Some(rule) => Some(rule),
                    None => unreachable!(),
                }
            }
            None => None,
        }
    }
}
