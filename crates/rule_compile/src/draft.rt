// What the lines of a conf come to, line by line.
ghost use Rattle.std.specs.Prelude.{◌≡◌, ◌∷◌, [], IfOk, None, Ok};
ghost use Rattle.conf_groups.specs.Groups.{with_item};
ghost use Rattle.rule_compile.specs.Answers.{Pushes, Steps, draft_of, state_of};
ghost use Rattle.rule_compile.specs.Flat.{closed, dropped, for_refexes, for_users, for_words, in_block, keeping, line_rules, nothing, opened, option_line, pushed, refexes_read, repo_line, rule_line, rules_pushed, scope_name, statement_step, unless_bad, unless_unknown, with_name, with_refex, with_refexes, with_text, with_texts, with_texts_of, with_words, within};
ghost use Rattle.rule_compile.specs.Patterns.{AreTrue, Patterns};
ghost use Rattle.rule_compile.specs.Words.{unknown_at};
ghost use Rattle.refex.specs.declared.faults.Hole.{Hole};

use crate::groups::Conf;
use crate::name_list::NameList;
use crate::patterns::PatternTable;
use crate::stop::Stop;
use crate::words::{is_unknown_vref, refex_texts, repo_of};
use crate::{MAX_PATTERNS, MAX_RULES, OptionLine, RepoWord, Rule, RuleKind, UserWord, Warning};
use base_types::{ItemList, NoMemory, Text};
use conf_groups::{PlacedLine, Scope};
use conf_lex::{Perm, RepoName, Statement};
use std::alloc::Global;

/// What the lines so far come to.
#[derive(Drop)]
pub(crate) struct Draft {
    pub block: Option<ItemList<RepoWord>>,
    pub rules: ItemList<Rule>,
    pub warnings: ItemList<Warning>,
    pub options: ItemList<OptionLine>,
    pub plain: NameList,
    pub patterns: PatternTable,
}

/// The words of a rule without its number and its line.
#[derive(Clone, Copy)]
pub(crate) struct Parts<'a> {
    pub repo: &'a RepoWord,
    pub refex: &'a Text,
    pub user: &'a UserWord,
}

impl Draft {
    pub(crate) fn new(alloc: Global) -> Draft
        ensures { state_of result ≡ nothing }
    {
        Draft {
            block: None,
            rules: ItemList::new(alloc),
            warnings: ItemList::new(alloc),
            options: ItemList::new(alloc),
            plain: NameList::new(alloc),
            patterns: PatternTable::new(alloc),
        }
    }

    /// Reads a line at its place.
    pub(crate) fn read_line(
        self,
        alloc: Global,
        conf: &Conf<'_>,
        place: usize,
        line: &PlacedLine,
    ) -> Result<Draft, Stop>
        ensures { (ps : Patterns) → AreTrue ps → Steps result (statement_step ps conf.now.placed.now place line.now line.now.statement (state_of self)) }
    {
        match &line.statement {
            Statement::Repo { words } => self.read_repo(alloc, conf, line, words.as_slice()),
            Statement::Rule {
                perm,
                refexes,
                users,
            } => self.read_rule(
                alloc,
                conf,
                place,
                line,
                *perm,
                refexes.as_slice(),
                users.as_slice(),
            ),
            Statement::Group { members, .. } => self.read_group(
                alloc,
                conf,
                place,
                line,
                members.as_slice(),
            ),
            Statement::Opt { key, value } => self.read_option(key, value),
            _ => Ok(self),
        }
    }

    /// Reads a group line, whose groups have members before it.
    fn read_group(
        self,
        alloc: Global,
        conf: &Conf<'_>,
        place: usize,
        line: &PlacedLine,
        members: &[Text],
    ) -> Result<Draft, Stop>
        ensures { Steps result (unless_unknown (unknown_at conf.now.placed.now place line.now.scope members.now) (Ok (state_of self))) }
    {
        match conf.unknown_at(alloc, place, &line.scope, members)? {
            Some(word) => Err(Stop::Refused(RuleKind::UnknownGroup(word))),
            None => Ok(self),
        }
    }

    /// Reads a `repo` line: a new block.
    fn read_repo(
        self,
        alloc: Global,
        conf: &Conf<'_>,
        line: &PlacedLine,
        words: &[Text],
    ) -> Result<Draft, Stop>
        ensures { (ps : Patterns) → AreTrue ps → Steps result (repo_line ps conf.now.placed.now line.now words.now (state_of self)) }
    {
        match conf.unknown_repo(alloc, &line.scope, words)? {
            Some(word) => Err(Stop::Refused(RuleKind::UnknownGroup(word))),
            None => {
                let draft = self.open_block(alloc).add_words(alloc, conf, line, words)?;
                draft.check_patterns()
            }
        }
    }

    fn open_block(self, alloc: Global) -> Draft
        ensures { state_of result ≡ opened (state_of self) }
    {
        let mut draft = self;
        draft.block = Some(ItemList::new(alloc));
        draft
    }

    /// Ends the current block.
    pub(crate) fn close_block(self) -> Draft
        ensures { state_of result ≡ closed (state_of self) }
    {
        let mut draft = self;
        draft.block = None;
        draft
    }

    /// Adds repository words, with their groups written out.
    fn add_words(
        self,
        alloc: Global,
        conf: &Conf<'_>,
        line: &PlacedLine,
        words: &[Text],
    ) -> Result<Draft, Stop>
        ensures { (ps : Patterns) → AreTrue ps → Steps result (with_words ps conf.now.placed.now line.now words.now (state_of self)) }
    {
        let mut draft = self;
        for word in words {
            let texts = conf.expanded(alloc, &line.scope, word)?;
            match draft.add_texts(alloc, conf, line, texts.as_slice()) {
                Ok(next) => draft = next,
                Err(stop) => return Err(stop),
            }
        }
        Ok(draft)
    }

    fn add_texts(
        self,
        alloc: Global,
        conf: &Conf<'_>,
        line: &PlacedLine,
        texts: &[Text],
    ) -> Result<Draft, Stop>
        ensures { (ps : Patterns) → AreTrue ps → Steps result (with_texts ps conf.now.placed.now line.now texts.now (state_of self)) }
    {
        let mut draft = self;
        for text in texts {
            draft = draft.add_text(alloc, conf, line, text)?;
        }
        Ok(draft)
    }

    /// Adds a repository word, unless a subconf may not set access for it.
    fn add_text(
        self,
        alloc: Global,
        conf: &Conf<'_>,
        line: &PlacedLine,
        text: &Text,
    ) -> Result<Draft, Stop>
        ensures { (ps : Patterns) → AreTrue ps → Steps result (with_text ps conf.now.placed.now line.now text.now (state_of self)) }
    {
        if conf.may_set(alloc, &line.scope, text)? {
            let word = repo_of(alloc, text.bytes())?;
            return self.keep(alloc, word);
        }
        self.warn(alloc, line, text)
    }

    /// Warns that a word is dropped.
    fn warn(self, alloc: Global, line: &PlacedLine, word: &Text) -> Result<Draft, Stop>
        ensures { Steps result (Ok (dropped line.now word.now (state_of self))) }
    {
        let mut draft = self;
        draft.warnings.push(Warning {
            scope: scope_name(alloc, &line.scope)?,
            word: word.clone()?,
            file: line.file.clone()?,
            line: line.line,
        })?;
        Ok(draft)
    }

    /// Adds a repository word to the current block, and its pattern or its name.
    fn keep(self, alloc: Global, word: RepoWord) -> Result<Draft, Stop>
        ensures { (ps : Patterns) → AreTrue ps → Steps result (keeping ps word (state_of self)) }
    {
        match word {
            RepoWord::Pattern(text) => {
                let draft = self.add_pattern(alloc, &text)?;
                draft.push_word(alloc, RepoWord::Pattern(text))
            }
            RepoWord::Plain(name) => {
                let draft = self.add_name(alloc, &name)?;
                draft.push_word(alloc, RepoWord::Plain(name))
            }
            RepoWord::All => self.push_word(alloc, RepoWord::All),
        }
    }

    fn add_pattern(self, alloc: Global, text: &Text) -> Result<Draft, Stop>
        ensures { (ps : Patterns) → AreTrue ps → Steps result (unless_bad text.now (ps.fault Hole.Creator text.now) (Ok (with_texts_of (state_of self) (with_item self.patterns text.now)))) }
    {
        let Draft {
            block,
            rules,
            warnings,
            options,
            plain,
            patterns,
        } = self;
        match patterns.with_repo(alloc, text) {
            Ok(patterns) => Ok(Draft {
                block,
                rules,
                warnings,
                options,
                plain,
                patterns,
            }),
            Err(stop) => Err(stop),
        }
    }

    fn add_name(self, alloc: Global, name: &RepoName) -> Result<Draft, NoMemory>
        ensures { IfOk result (λ d. state_of d ≡ with_name (state_of self) name.now) }
    {
        let Draft {
            block,
            rules,
            warnings,
            options,
            plain,
            patterns,
        } = self;
        Ok(Draft {
            block,
            rules,
            warnings,
            options,
            plain: plain.with(alloc, name)?,
            patterns,
        })
    }

    fn push_word(self, alloc: Global, word: RepoWord) -> Result<Draft, Stop>
        ensures { Steps result (Ok (in_block (state_of self) word)) }
    {
        let mut draft = self;
        let mut words = match draft.block.take() {
            Some(words) => words,
            None => ItemList::new(alloc),
        };
        words.push(word)?;
        draft.block = Some(words);
        Ok(draft)
    }

    /// Refuses too many patterns.
    fn check_patterns(self) -> Result<Draft, Stop>
        ensures { Steps result (within (state_of self)) }
    {
        if self.patterns.len() > MAX_PATTERNS {
            return Err(Stop::Refused(RuleKind::TooManyRules));
        }
        Ok(self)
    }

    /// Reads a rule line.
    fn read_rule(
        self,
        alloc: Global,
        conf: &Conf<'_>,
        place: usize,
        line: &PlacedLine,
        perm: Perm,
        refexes: &[Text],
        users: &[Text],
    ) -> Result<Draft, Stop>
        ensures { (ps : Patterns) → AreTrue ps → Steps result (rule_line ps conf.now.placed.now place line.now perm refexes.now users.now self.block (state_of self)) }
    {
        if self.block.is_none() {
            return Err(Stop::Refused(RuleKind::RuleBeforeRepo));
        }
        if let Some(word) = conf.unknown_at(alloc, place, &line.scope, refexes)? {
            return Err(Stop::Refused(RuleKind::UnknownGroup(word)));
        }
        if let Some(word) = conf.unknown_user(alloc, &line.scope, users)? {
            return Err(Stop::Refused(RuleKind::UnknownGroup(word)));
        }
        let refexes = conf.refexes_in(alloc, place, &line.scope, refexes)?;
        let texts = refex_texts(alloc, refexes.as_slice())?;
        let users = conf.users_of(alloc, &line.scope, users)?;
        self.push_line(alloc, line, perm, texts.as_slice(), users.as_slice())
    }

    /// Reads the refexes of a line, and adds its rules.
    fn push_line(
        self,
        alloc: Global,
        line: &PlacedLine,
        perm: Perm,
        refexes: &[Text],
        users: &[UserWord],
    ) -> Result<Draft, Stop>
        ensures { (ps : Patterns) → AreTrue ps → Steps result (line_rules ps line.now perm refexes.now users.now (state_of self)) }
    {
        match self.read_refexes(alloc, refexes) {
            Ok(draft) => draft.push_rules(line, perm, refexes, users),
            Err(stop) => Err(stop),
        }
    }

    /// Reads refexes, and refuses too many patterns.
    fn read_refexes(self, alloc: Global, texts: &[Text]) -> Result<Draft, Stop>
        ensures { (ps : Patterns) → AreTrue ps → Steps result (refexes_read ps texts.now (state_of self)) }
    {
        match self.add_refexes(alloc, texts) {
            Ok(draft) => draft.check_patterns(),
            Err(stop) => Err(stop),
        }
    }

    /// Reads refexes.
    fn add_refexes(self, alloc: Global, texts: &[Text]) -> Result<Draft, Stop>
        ensures { (ps : Patterns) → AreTrue ps → Steps result (with_refexes ps texts.now (state_of self)) }
    {
        let mut draft = self;
        for text in texts {
            draft = draft.add_refex(alloc, text)?;
        }
        Ok(draft)
    }

    fn add_refex(self, alloc: Global, text: &Text) -> Result<Draft, Stop>
        ensures { (ps : Patterns) → AreTrue ps → Steps result (with_refex ps text.now (state_of self)) }
    {
        if is_unknown_vref(text.bytes()) {
            return Err(Stop::Refused(RuleKind::UnknownVref(text.clone()?)));
        }
        let Draft {
            block,
            rules,
            warnings,
            options,
            plain,
            patterns,
        } = self;
        match patterns.with_refex(alloc, text) {
            Ok(patterns) => Ok(Draft {
                block,
                rules,
                warnings,
                options,
                plain,
                patterns,
            }),
            Err(stop) => Err(stop),
        }
    }

    /// Adds the rules of a line.
    fn push_rules(
        self,
        line: &PlacedLine,
        perm: Perm,
        refexes: &[Text],
        users: &[UserWord],
    ) -> Result<Draft, Stop>
        ensures { Steps result (rules_pushed line.now perm refexes.now users.now (state_of self)) }
    {
        let mut draft = self;
        let Some(words) = &draft.block else {
            return Ok(draft);
        };
        push_words(
            &mut draft.rules,
            line,
            perm,
            words.as_slice(),
            refexes,
            users,
        )?;
        Ok(draft)
    }

    /// Reads an option.
    fn read_option(self, key: &Text, value: &Text) -> Result<Draft, Stop>
        ensures { Steps result (option_line key.now value.now self.block (state_of self)) }
    {
        let mut draft = self;
        let Some(words) = &draft.block else {
            return Err(Stop::Refused(RuleKind::RuleBeforeRepo));
        };
        let repos = words.clone()?;
        draft.options.push(OptionLine {
            repos,
            key: key.clone()?,
            value: value.clone()?,
        })?;
        Ok(draft)
    }
}

/// The name of a scope.
fn scope_name(alloc: Global, scope: &Scope) -> Result<Text, NoMemory>
    ensures { IfOk result (λ name. name ≡ scope_name scope.now) }
{
    match scope {
        Scope::Main => Text::of(alloc, b""),
        Scope::Sub(name) => Ok(name.clone()?),
    }
}

/// Pushes a rule with the next number.
fn push_rule(
    rules: &mut ItemList<Rule>,
    line: &PlacedLine,
    perm: Perm,
    parts: Parts<'_>,
) -> Result<(), Stop>
    ensures { Pushes result rules.new (pushed line.now perm rules.old (draft_of parts.entry ∷ [])) }
{
    if rules.len() >= MAX_RULES {
        return Err(Stop::Refused(RuleKind::TooManyRules));
    }
    let rule = Rule {
        seq: rules.len() as u32 + 1,
        scope: line.scope.clone()?,
        repo: parts.repo.clone()?,
        perm,
        refex: parts.refex.clone()?,
        user: parts.user.clone()?,
        file: line.file.clone()?,
        line: line.line,
    };
    Ok(rules.push(rule)?)
}

fn push_users(
    rules: &mut ItemList<Rule>,
    line: &PlacedLine,
    perm: Perm,
    repo: &RepoWord,
    refex: &Text,
    users: &[UserWord],
) -> Result<(), Stop>
    ensures { Pushes result rules.new (pushed line.now perm rules.old (for_users repo.now refex.now users.now)) }
{
    for user in users {
        push_rule(rules, line, perm, Parts { repo, refex, user })?;
    }
    Ok(())
}

fn push_refexes(
    rules: &mut ItemList<Rule>,
    line: &PlacedLine,
    perm: Perm,
    repo: &RepoWord,
    refexes: &[Text],
    users: &[UserWord],
) -> Result<(), Stop>
    ensures { Pushes result rules.new (pushed line.now perm rules.old (for_refexes repo.now refexes.now users.now)) }
{
    for refex in refexes {
        push_users(rules, line, perm, repo, refex, users)?;
    }
    Ok(())
}

fn push_words(
    rules: &mut ItemList<Rule>,
    line: &PlacedLine,
    perm: Perm,
    words: &[RepoWord],
    refexes: &[Text],
    users: &[UserWord],
) -> Result<(), Stop>
    ensures { Pushes result rules.new (pushed line.now perm rules.old (for_words words.now refexes.now users.now)) }
{
    for repo in words {
        push_refexes(rules, line, perm, repo, refexes, users)?;
    }
    Ok(())
}
