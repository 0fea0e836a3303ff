// Members of groups, what words come to by them, and what a subconf may set access for.
ghost use Rattle.std.specs.Prelude.{◌≡◌, ◌++◌, ◌∷◌, length, IfOk, None};
ghost use Rattle.std.specs.List.{flat_map};
ghost use Rattle.conf_groups.specs.Tables.{groups_of};
ghost use Rattle.rule_compile.specs.Patterns.{AreTrue, Patterns};
ghost use Rattle.rule_compile.specs.Shared.{AreShared};
ghost use Rattle.rule_compile.specs.Words.{expanded, is_in, lets, may_set, members_at, members_of, other_user, refexes_in, single_user, some_lets, unknown_at, unknown_repo, user_of, users_of};

use crate::patterns::takes_name;
use crate::shared::{SharedMembers, group_of};
use crate::words::{is_all, is_group, is_plain_pattern, is_repo_group};
use crate::{Members, UserWord};
use base_types::{ItemList, NoMemory, Text};
use conf_groups::{Groups, PlacedList, Scope};
use conf_lex::{RepoName, TextList, UserName, repo_word};
use std::alloc::Global;

/// A conf that was spliced, and its groups.
#[derive(Clone, Copy)]
pub(crate) struct Conf<'a> {
    pub placed: &'a PlacedList,
    pub groups: &'a Groups,
    /// Members of some of the groups, by all lines.
    pub shared: &'a SharedMembers,
    ghost read: { groups.now ≡ groups_of placed.now },
    ghost kept: { AreShared shared.now placed.now },
}

impl Conf<'_> {
    /// The members of a group by the lines before a place.
    pub(crate) fn members_at(
        &self,
        alloc: Global,
        place: usize,
        scope: &Scope,
        group: &[u8],
    ) -> Result<TextList, NoMemory>
        ensures { IfOk result (λ members. members ≡ members_at self.now.placed.now place scope.now group.now) }
    {
        match conf_groups::members_of(alloc, self.groups, group, scope, place)? {
            Some(members) => Ok(members),
            None => Ok(TextList::new(alloc)),
        }
    }

    /// The members by all lines.
    fn members_of(&self, alloc: Global, scope: &Scope, group: &[u8]) -> Result<TextList, NoMemory>
        ensures { IfOk result (λ members. members ≡ members_of self.now.placed.now scope.now group.now) }
    {
        self.members_at(alloc, self.placed.len(), scope, group)
    }

    /// The members by all lines, read anew.
    pub(crate) fn read_members(
        &self,
        alloc: Global,
        scope: &Scope,
        group: &Text,
    ) -> Result<Members, NoMemory>
        ensures { IfOk result (λ members. members ≡ members_of self.now.placed.now scope.now group.now) }
    {
        Members::of(alloc, self.members_of(alloc, scope, group.bytes())?)
    }

    /// The members by all lines. Those that are kept are shared.
    fn members_by_all(
        &self,
        alloc: Global,
        scope: &Scope,
        group: &Text,
    ) -> Result<Members, NoMemory>
        ensures { IfOk result (λ members. members ≡ members_of self.now.placed.now scope.now group.now) }
    {
        match self.shared.get(scope, group) {
            Some(members) => Ok(members.clone()?),
            None => self.read_members(alloc, scope, group),
        }
    }

    /// The first group among the words that has no members before the place.
    pub(crate) fn unknown_at(
        &self,
        alloc: Global,
        place: usize,
        scope: &Scope,
        words: &[Text],
    ) -> Result<Option<Text>, NoMemory>
        ensures { IfOk result (λ word. word ≡ unknown_at self.now.placed.now place scope.now words.now) }
    {
        for word in words {
            if !is_group(word.bytes()) {
                continue;
            }
            if self
                .members_at(alloc, place, scope, word.bytes())?
                .is_empty()
            {
                return Ok(Some(word.clone()?));
            }
        }
        Ok(None)
    }

    /// The first group among user words that has no members.
    pub(crate) fn unknown_user(
        &self,
        alloc: Global,
        scope: &Scope,
        words: &[Text],
    ) -> Result<Option<Text>, NoMemory>
        ensures { IfOk result (λ word. word ≡ unknown_at self.now.placed.now (length self.now.placed.now) scope.now words.now) }
    {
        for word in words {
            if !is_group(word.bytes()) {
                continue;
            }
            if self
                .members_by_all(alloc, scope, word)?
                .as_slice()
                .is_empty()
            {
                return Ok(Some(word.clone()?));
            }
        }
        Ok(None)
    }

    /// The first repository word that is a group without members.
    pub(crate) fn unknown_repo(
        &self,
        alloc: Global,
        scope: &Scope,
        words: &[Text],
    ) -> Result<Option<Text>, NoMemory>
        ensures { IfOk result (λ word. word ≡ unknown_repo self.now.placed.now scope.now words.now) }
    {
        for word in words {
            if !is_repo_group(word.bytes()) {
                continue;
            }
            if self.members_of(alloc, scope, word.bytes())?.is_empty() {
                return Ok(Some(word.clone()?));
            }
        }
        Ok(None)
    }

    /// A repository word with its group written out.
    pub(crate) fn expanded(
        &self,
        alloc: Global,
        scope: &Scope,
        word: &Text,
    ) -> Result<TextList, NoMemory>
        ensures { IfOk result (λ texts. texts ≡ expanded self.now.placed.now scope.now word.now) }
    {
        if is_repo_group(word.bytes()) {
            return self.members_of(alloc, scope, word.bytes());
        }
        let mut texts = TextList::new(alloc);
        texts.push(word.clone()?)?;
        Ok(texts)
    }

    /// Refexes, with the members at the place for a group.
    pub(crate) fn refexes_in(
        &self,
        alloc: Global,
        place: usize,
        scope: &Scope,
        words: &[Text],
    ) -> Result<TextList, NoMemory>
        ensures { IfOk result (λ texts. texts ≡ refexes_in self.now.placed.now place scope.now words.now) }
    {
        let mut texts = TextList::new(alloc);
        for word in words {
            if is_group(word.bytes()) {
                texts = joined(
                    texts,
                    self.members_at(alloc, place, scope, word.bytes())?
                        .as_slice(),
                )?;
            } else {
                texts.push(word.clone()?)?;
            }
        }
        Ok(texts)
    }

    /// What a user word stands for.
    fn user_of(&self, alloc: Global, scope: &Scope, word: &Text) -> Result<UserWord, NoMemory>
        ensures { IfOk result (λ user. user ≡ user_of self.now.placed.now scope.now word.now) }
    {
        if is_all(word.bytes()) {
            return Ok(UserWord::All);
        }
        if let [b'@', ..] = word.bytes() {
            let members = self.members_by_all(alloc, scope, word)?;
            return Ok(UserWord::Group(word.clone()?, members));
        }
        single_user(alloc, word)
    }

    pub(crate) fn users_of(
        &self,
        alloc: Global,
        scope: &Scope,
        words: &[Text],
    ) -> Result<ItemList<UserWord>, NoMemory>
        ensures { IfOk result (λ users. users ≡ users_of self.now.placed.now scope.now words.now) }
    {
        let mut users = ItemList::new(alloc);
        for word in words {
            users.push(self.user_of(alloc, scope, word)?)?;
        }
        Ok(users)
    }

    /// Whether a line of the scope may set access for the word.
    pub(crate) fn may_set(
        &self,
        alloc: Global,
        scope: &Scope,
        word: &Text,
    ) -> Result<bool, NoMemory>
        ensures { (ps : Patterns) → AreTrue ps → IfOk result (λ may. may ≡ may_set ps self.now.placed.now scope.now word.now) }
    {
        match scope {
            Scope::Main => Ok(true),
            Scope::Sub(name) => self.is_in(alloc, name, word),
        }
    }

    fn is_in(&self, alloc: Global, name: &Text, word: &Text) -> Result<bool, NoMemory>
        ensures { (ps : Patterns) → AreTrue ps → IfOk result (λ may. may ≡ is_in ps self.now.placed.now name.now word.now) }
    {
        if is_all(word.bytes()) {
            return Ok(false);
        }
        let wanted = repo_word(word.bytes());
        if wanted == repo_word(name.bytes()) {
            return Ok(true);
        }
        let group = group_of(alloc, name)?;
        let members = self.members_by_all(alloc, &Scope::Main, &group)?;
        some_lets(alloc, wanted, members.as_slice())
    }
}

fn joined(texts: TextList, more: &[Text]) -> Result<TextList, NoMemory>
    ensures { IfOk result (λ all. all ≡ texts ++ more.now) }
{
    let mut all = texts;
    for text in more {
        all.push(text.clone()?)?;
    }
    Ok(all)
}

/// What a user word that is no group stands for.
#[tactic(auto, using(crate::proofs::WordLemmas::user_word))]
fn single_user(alloc: Global, word: &Text) -> Result<UserWord, NoMemory>
    ensures { IfOk result (λ user. user ≡ single_user word.now) }
{
    if !UserName::is_name(word.bytes()) {
        return other_user(word);
    }
    match UserName::parse(alloc, word.bytes())? {
        Some(name) => Ok(UserWord::Name(name)),
        None => other_user(word),
    }
}

/// What a user word that is neither a group nor a name stands for.
fn other_user(word: &Text) -> Result<UserWord, NoMemory>
    ensures { IfOk result (λ user. user ≡ other_user word.now) }
{
    if word.bytes() == b"CREATOR".as_slice() {
        return Ok(UserWord::Creator);
    }
    Ok(UserWord::Role(word.clone()?))
}

/// Whether a member lets a subconf set access for the word.
fn lets(alloc: Global, word: &[u8], member: &[u8]) -> Result<bool, NoMemory>
    ensures { (ps : Patterns) → AreTrue ps → IfOk result (λ may. may ≡ lets ps word.now member.now) }
{
    if word == member {
        return Ok(true);
    }
    if !RepoName::is_name(word) || !is_plain_pattern(member) {
        return Ok(false);
    }
    takes_name(alloc, member, word)
}

fn some_lets(alloc: Global, word: &[u8], members: &[Text]) -> Result<bool, NoMemory>
    ensures { (ps : Patterns) → AreTrue ps → IfOk result (λ may. may ≡ some_lets ps word.now members.now) }
{
    for member in members {
        if lets(alloc, word, repo_word(member.bytes()))? {
            return Ok(true);
        }
    }
    Ok(false)
}
