// The rules in force.
ghost use Rattle.std.specs.Prelude.{◌≡◌, ◌++◌, ◌≤◌, ◌<◌, ℕ, [], length, codes, IfOk, List, Option, Some};
ghost use Rattle.std.specs.List.{AllByRecursion};
ghost use Rattle.std.specs.Option.{option_copied};
ghost use Rattle.conf_groups.specs.Groups.{holds};
ghost use Rattle.conf_groups.specs.Tables.{groups_of};
ghost use Rattle.refex.specs.declared.limits.TheConstants.{MAX_NAME};
ghost use Rattle.rule_compile.specs.Answers.{Gives, GivesDraft, IsNoMemory, PlacedSteps, StopsAt, flat_of, state_of};
ghost use Rattle.rule_compile.specs.Covering.{covers_repo, deny_rules, is_all_word, is_pattern_word, is_plain_word, numbers_of, rules_for};
ghost use Rattle.rule_compile.specs.OptionWords.{IsOption};
ghost use Rattle.rule_compile.specs.Flat.{IsNumber, compiled_all, flat, numbered, placed_step};
ghost use Rattle.rule_compile.specs.Index.{AreNumbered, OptionWord, option_words, option_words_of, refexes_of_rules, words_of_rules};
ghost use Rattle.rule_compile.specs.Patterns.{AreTrue, Patterns};
ghost use Rattle.rule_compile.specs.RoleOptions.{AreRoles};
ghost use Rattle.rule_compile.specs.Roles.{declares, is_mentioned};
ghost use Rattle.rule_compile.specs.Shared.{AreShared};
ghost use Rattle.rule_compile.specs.Sound.{IsSound, IsSoundOption, IsSoundRule};
ghost use Rattle.rule_compile.specs.WordIndex.{Indexes};
ghost use Rattle.rule_compile.specs.declared.rule.Rule as flat_rule;

use crate::draft::Draft;
use crate::groups::Conf;
use crate::known::KnownRefex;
use crate::laws::some_patterns_are_true;
use crate::name_list::NameList;
use crate::option_words::OptionWords;
use crate::patterns::PatternTable;
use crate::role_options::RoleOptions;
use crate::rules_for::RulesFor;
use crate::salt::Salt;
use crate::shared::SharedMembers;
use crate::stop::Stop;
use crate::word_index::WordIndex;
use crate::{OptionLine, PolicyFault, Rule, RuleFault, WarningList};
use base_types::{ItemList, NoMemory, Text};
use conf_groups::{
    ConfFault, ConfKind, FileList, Placed, PlacedLine, PlacedList, expand, read_groups,
};
use conf_lex::{RepoName, UserName};
use std::alloc::Global;
use std::marker::Model;

/// The rules that a conf comes to, with its warnings and options. It never changes, and threads may share it.
#[derive(Drop)]
pub struct Policy {
    rules: ItemList<Rule>,
    warnings: WarningList,
    options: ItemList<OptionLine>,
    plain: NameList,
    refexes: ItemList<KnownRefex>,
    index: WordIndex,
    deny: OptionWords,
    roles: RoleOptions,
}

impl Model for Policy {
    ghost use Rattle.std.specs.Prelude.{◌≡◌, codes, map};
    ghost use Rattle.rule_compile.specs.OptionWords.{IsOption};
    ghost use Rattle.rule_compile.specs.Flat.{Flat};
    ghost use Rattle.rule_compile.specs.Index.{AreNumbered, option_words, refexes_of_rules, words_of_rules};
    ghost use Rattle.rule_compile.specs.RoleOptions.{AreRoles};
    ghost use Rattle.rule_compile.specs.WordIndex.{Indexes};

    ghost Value = { Flat };

    ghost view = { λ p. record { rules = p.rules; warnings = p.warnings; options = p.options; plain = p.plain } };

    ghost invariant = { λ p. AreNumbered p.rules × (p.refexes ≡ refexes_of_rules p.rules) × Indexes p.index (words_of_rules p.rules) × IsOption p.deny (option_words (codes "deny-rules") p.options) × AreRoles p.roles p.options };
}

impl Policy {
    /// The rules of a conf, or its first fault. Each distinct text of a pattern is read once, and the members
    /// of a group of users once for each scope. It costs the lines and the rules, each of which owns copies
    /// of its texts.
    pub fn compile(alloc: Global, files: &FileList) -> Result<Policy, PolicyFault>
        ensures { (ps : Patterns) → AreTrue ps → Gives result (flat ps files.now) }
    {
        let placed = match expand(alloc, files) {
            Ok(placed) => placed,
            Err(fault) => return Err(PolicyFault::Splicing(fault)),
        };
        let draft = match compile_placed(alloc, &placed) {
            Ok(draft) => draft,
            Err(fault) => return Err(fault),
        };
        match Policy::of(alloc, draft) {
            Ok(policy) => Ok(policy),
            Err(_) => Err(no_memory(alloc)),
        }
    }

    // A policy of what the lines come to.
    fn of(alloc: Global, draft: Draft) -> Result<Policy, NoMemory>
        requires { IsSound (flat_of draft) }
        ensures { IfOk result (λ policy. policy ≡ flat_of draft) }
    {
        let Draft {
            rules,
            warnings,
            options,
            plain,
            patterns,
            ..
        } = draft;
        let refexes = refexes_of(alloc, &patterns, rules.as_slice())?;
        let salt = Salt::of(plain.as_slice());
        let index = index_of(alloc, salt, &patterns, rules.as_slice())?;
        let deny = deny_of(alloc, salt, &patterns, options.as_slice())?;
        let roles = roles_of(alloc, salt, &patterns, options.as_slice())?;
        Ok(Policy {
            rules,
            warnings,
            options,
            plain,
            refexes,
            index,
            deny,
            roles,
        })
    }

    /// All rules, in the order of their numbers, which count from 1.
    pub fn rules(&self) -> &[Rule]
        ensures rules { result.now ≡ self.now.rules }
        ensures numbered { AreNumbered self.now.rules }
    {
        self.rules.as_slice()
    }

    /// The rule of a number.
    pub fn rule(&self, seq: u32) -> Option<&Rule>
        ensures { option_copied result ≡ numbered self.now.rules seq }
    {
        if seq == 0 {
            return None;
        }
        self.rules.get(seq as usize - 1)
    }

    /// The plain repositories that the conf names, in order of first mention.
    pub fn plain_repos(&self) -> &[RepoName]
        ensures { result.now ≡ self.now.plain }
    {
        self.plain.as_slice()
    }

    /// Which words were dropped.
    pub fn warnings(&self) -> &WarningList
        ensures { result.now ≡ self.now.warnings }
    {
        &self.warnings
    }

    /// The rules whose word is the name of a repository, `@all` or a pattern, in the order of their numbers.
    /// No other rules cost anything.
    pub fn rules_for<'a>(&'a self, repo: &'a RepoName) -> RulesFor<'a>
        ensures { result ≡ rules_for self.now.rules repo.now }
    {
        RulesFor::new(&self.rules, &self.index, repo)
    }

    /// The numbers of the rules whose word is the name of a repository. A look-up takes the same time however
    /// many names there are.
    pub fn plain_numbers(&self, repo: &RepoName) -> &[u32]
        ensures { result.now ≡ numbers_of (is_plain_word repo.now) self.now.rules }
    {
        self.index.numbers_of_name(repo)
    }

    /// The numbers of the rules whose word is `@all`.
    pub fn all_numbers(&self) -> &[u32]
        ensures { result.now ≡ numbers_of is_all_word self.now.rules }
    {
        self.index.all.as_slice()
    }

    /// The numbers of the rules whose word is a pattern.
    pub fn pattern_numbers(&self) -> &[u32]
        ensures { result.now ≡ numbers_of is_pattern_word self.now.rules }
    {
        self.index.pattern_numbers.as_slice()
    }

    /// Whether a rule's refex matches the name of a ref from its start, with the user's name in its hole.
    pub fn matches(&self, seq: u32, name: &[u8], user: &[u8]) -> bool
        requires number { IsNumber self.now.rules seq }
        requires user { length user.now ≤ MAX_NAME }
        ensures { (ps : Patterns) → AreTrue ps → (rule : flat_rule.Rule) → numbered self.now.rules seq ≡ Some rule → result ≡ ps.starts rule.refex user.now name.now }
    {
        match self.refexes.get(seq as usize - 1) {
            Some(refex) => refex.starts(name, user),
            None => unreachable!(),
        }
    }

    /// Whether a rule is for a repository that this user created, or nobody. Before it is there, whoever asks
    /// counts as the creator.
    pub fn covers_repo(&self, seq: u32, repo: &RepoName, creator: Option<&UserName>) -> bool
        requires { IsNumber self.now.rules seq }
        ensures { (ps : Patterns) → AreTrue ps → (rule : flat_rule.Rule) → numbered self.now.rules seq ≡ Some rule → result ≡ covers_repo ps rule.repo repo.now (option_copied creator.entry) }
    {
        let place = seq as usize - 1;
        match self.rules.get(place) {
            Some(rule) => self.index.covers_by(place, &rule.repo, repo, creator),
            None => unreachable!(),
        }
    }

    /// Whether the option `deny-rules` is in force for a repository. It looks at the lines that set it for
    /// the repository's name, for `@all` and for patterns.
    pub fn deny_rules(&self, repo: &RepoName, creator: Option<&UserName>) -> bool
        ensures { (ps : Patterns) → AreTrue ps → result ≡ deny_rules ps self.now.options repo.now (option_copied creator.entry) }
    {
        self.deny.is_in_force(repo, creator)
    }

    /// Whether a word is a role for a repository. A word that no option line mentions costs a look-up; for
    /// one that lines do it looks at those that set its option for the repository's name, for `@all` and for
    /// patterns.
    pub fn declares(&self, role: &[u8], repo: &RepoName, creator: Option<&UserName>) -> bool
        ensures { (ps : Patterns) → AreTrue ps → result ≡ declares ps self.now.options role.now repo.now (option_copied creator.entry) }
    {
        self.roles.declares(role, repo, creator)
    }

    /// The names of roles that option lines mention, each once. Beside the two that every repository has, no
    /// other word is a role anywhere.
    pub fn mentioned_roles(&self) -> &[Text]
        ensures { (word : List ℕ) → holds result.now word ≡ is_mentioned self.now.options word }
    {
        self.roles.names.as_slice()
    }
}

// The refexes of the rules, in order.
fn refexes_of(
    alloc: Global,
    patterns: &PatternTable,
    rules: &[Rule],
) -> Result<ItemList<KnownRefex>, NoMemory>
    requires { AllByRecursion IsSoundRule rules.now }
    ensures { IfOk result (λ refexes. refexes ≡ refexes_of_rules rules.now) }
{
    let mut refexes = ItemList::new(alloc);
    for rule in rules {
        refexes.push(patterns.known_refex(alloc, &rule.refex)?)?;
    }
    Ok(refexes)
}

// The index of the words of the rules.
fn index_of(
    alloc: Global,
    salt: Salt,
    patterns: &PatternTable,
    rules: &[Rule],
) -> Result<WordIndex, NoMemory>
    requires { AllByRecursion IsSoundRule rules.now }
    ensures { IfOk result (λ index. Indexes index (words_of_rules rules.now)) }
{
    let mut index = WordIndex::new(alloc, salt);
    for rule in rules {
        index = index.with_next(alloc, patterns, &rule.repo)?;
    }
    Ok(index)
}

// What the option lines say of `deny-rules`.
fn deny_of(
    alloc: Global,
    salt: Salt,
    patterns: &PatternTable,
    options: &[OptionLine],
) -> Result<OptionWords, NoMemory>
    requires { AllByRecursion IsSoundOption options.now }
    ensures { IfOk result (λ deny. IsOption deny (option_words (codes "deny-rules") options.now)) }
{
    let mut deny = OptionWords::new(alloc, salt);
    for line in options {
        deny = with_deny_line(alloc, patterns, deny, line)?;
    }
    Ok(deny)
}

// With the words of a line, where it sets `deny-rules`.
fn with_deny_line(
    alloc: Global,
    patterns: &PatternTable,
    deny: OptionWords,
    line: &OptionLine,
) -> Result<OptionWords, NoMemory>
    requires { IsSoundOption line.now }
    ensures { (words : List OptionWord) → IsOption deny words → IfOk result (λ more. IsOption more (words ++ option_words_of (codes "deny-rules") line.now)) }
{
    if line.key.bytes() != b"deny-rules".as_slice() {
        return Ok(deny);
    }
    deny.with_line(alloc, patterns, line)
}

// What the option lines say of roles.
fn roles_of(
    alloc: Global,
    salt: Salt,
    patterns: &PatternTable,
    options: &[OptionLine],
) -> Result<RoleOptions, NoMemory>
    requires { AllByRecursion IsSoundOption options.now }
    ensures { IfOk result (λ roles. AreRoles roles options.now) }
{
    let mut roles = RoleOptions::new(alloc, salt);
    for line in options {
        roles = roles.with_line(alloc, patterns, line)?;
    }
    Ok(roles)
}

/// The rules of a conf that was spliced.
fn compile_placed(alloc: Global, placed: &PlacedList) -> Result<Draft, PolicyFault>
    ensures gives { (ps : Patterns) → AreTrue ps → GivesDraft result (compiled_all ps placed.now) }
    ensures sound { IfOk result (λ draft. IsSound (flat_of draft)) }
{
    // This law is called for its clause that some patterns are true, so that `read_lines` says something.
    some_patterns_are_true();
    let Ok(groups) = read_groups(alloc, placed) else {
        return Err(no_memory(alloc));
    };
    let unread = Conf {
        placed,
        groups: &groups,
        shared: &SharedMembers::new(alloc),
    };
    let Ok(shared) = share_members(alloc, &unread) else {
        return Err(no_memory(alloc));
    };
    let conf = Conf {
        placed,
        groups: &groups,
        shared: &shared,
    };
    read_lines(alloc, &conf)
}

/// The members of the groups that the lines ask for.
fn share_members(alloc: Global, conf: &Conf<'_>) -> Result<SharedMembers, NoMemory>
    ensures { IfOk result (λ shared. AreShared shared conf.now.placed.now) }
{
    let mut shared = SharedMembers::new(alloc);
    for placed in conf.placed.as_slice() {
        shared = shared.with_placed(alloc, conf, placed)?;
    }
    Ok(shared)
}

fn read_lines(alloc: Global, conf: &Conf<'_>) -> Result<Draft, PolicyFault>
    ensures { (ps : Patterns) → AreTrue ps → GivesDraft result (compiled_all ps conf.now.placed.now) }
{
    let mut draft = Draft::new(alloc);
    for (place, placed) in conf.placed.as_slice().iter().enumerate() {
        match read_placed(alloc, draft, conf, place, placed) {
            Ok(next) => draft = next,
            Err(fault) => return Err(fault),
        }
    }
    Ok(draft)
}

fn read_placed(
    alloc: Global,
    draft: Draft,
    conf: &Conf<'_>,
    place: usize,
    placed: &Placed,
) -> Result<Draft, PolicyFault>
    ensures { (ps : Patterns) → AreTrue ps → PlacedSteps result (placed_step ps conf.now.placed.now place placed.now (state_of draft)) }
{
    let Placed::Line(line) = placed else {
        return Ok(draft.close_block());
    };
    match draft.read_line(alloc, conf, place, line) {
        Ok(draft) => Ok(draft),
        Err(stop) => Err(fault_at(alloc, line, stop)),
    }
}

fn fault_at(alloc: Global, line: &PlacedLine, stop: Stop) -> PolicyFault
    ensures { StopsAt line.now stop result }
{
    match stop {
        Stop::Refused(kind) => match line.file.clone() {
            Ok(file) => PolicyFault::Rules(RuleFault {
                kind,
                file,
                line: line.line,
            }),
            Err(_) => no_memory(alloc),
        },
        Stop::OutOfMemory => no_memory(alloc),
    }
}

fn no_memory(alloc: Global) -> PolicyFault
    ensures { IsNoMemory result }
{
    PolicyFault::Splicing(ConfFault {
        kind: ConfKind::NoMemory,
        file: Text::from(Vec::new(alloc)),
        line: 0,
    })
}
