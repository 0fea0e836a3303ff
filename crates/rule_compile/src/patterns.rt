// Patterns, each read once.
ghost use Rattle.std.specs.Prelude.{◌≡◌, [], length, IfOk, Ok};
ghost use Rattle.conf_groups.specs.Groups.{with_item};
ghost use Rattle.refex.specs.Program.{pattern_of};
ghost use Rattle.refex.specs.Refex.{IsRefex};
ghost use Rattle.rule_compile.specs.Answers.{GivesPattern, GivesStep, IsOfText, StopsBy};
ghost use Rattle.rule_compile.specs.Flat.{unless_bad};
ghost use Rattle.rule_compile.specs.Patterns.{AreTrue, Patterns};
ghost use Rattle.rule_compile.specs.Sound.{IsRefexText};
ghost use Rattle.rule_compile.specs.Tables.{AreNamed, Tells};

use crate::known::{KnownPattern, KnownRefex};
use crate::stop::Stop;
use crate::{MAX_PATTERNS, RuleKind};
use base_types::{NameMap, NoMemory, Text};
use conf_lex::TextList;
use refex::{Hole, Refex, RefexFault};
use std::alloc::Global;
use std::marker::Model;

/// The texts of patterns, each once, and the patterns by their texts: refexes, and patterns for repositories.
#[derive(Drop)]
pub(crate) struct PatternTable {
    texts: TextList,
    names: NameMap<bool>,
    refexes: NameMap<KnownRefex>,
    repos: NameMap<KnownPattern>,
}

impl Model for PatternTable {
    ghost use Rattle.std.specs.Prelude.{List, ℕ};
    ghost use Rattle.rule_compile.specs.Tables.{AreNamed, Tells};

    ghost Value = { List (List ℕ) };

    ghost view = { λ t. t.texts };

    ghost invariant = { λ t. Tells t.names t.texts × AreNamed t.refexes × AreNamed t.repos };
}

/// The pattern that a text is.
pub(crate) fn read_pattern(alloc: Global, hole: Hole, text: &Text) -> Result<Refex, Stop>
    ensures fault { (ps : Patterns) → AreTrue ps → GivesPattern result (ps.fault hole text.now) text.now }
    ensures pattern { IfOk result (λ r. IsRefex hole text.now (pattern_of r)) }
{
    match Refex::parse(alloc, text.bytes(), hole) {
        Ok(refex) => Ok(refex),
        Err(fault) => Err(stop_by(text, fault)),
    }
}

/// What a fault of a text stops by.
fn stop_by(text: &Text, fault: RefexFault) -> Stop
    ensures { StopsBy fault text.now result }
{
    match fault {
        RefexFault::Syntax(at) => refused(text, RefexFault::Syntax(at)),
        RefexFault::TooManyPositions(count) => refused(text, RefexFault::TooManyPositions(count)),
        RefexFault::Unsupported(at) => refused(text, RefexFault::Unsupported(at)),
        RefexFault::NoMemory => Stop::OutOfMemory,
    }
}

fn refused(text: &Text, fault: RefexFault) -> Stop
    requires { IsOfText fault }
    ensures { StopsBy fault text.now result }
{
    match text.clone() {
        Ok(text) => Stop::Refused(RuleKind::BadRefex(text, fault)),
        Err(_) => Stop::OutOfMemory,
    }
}

impl PatternTable {
    pub(crate) fn new(alloc: Global) -> PatternTable
        ensures { result ≡ [] }
    {
        PatternTable {
            texts: TextList::new(alloc),
            names: NameMap::new(alloc),
            refexes: NameMap::new(alloc),
            repos: NameMap::new(alloc),
        }
    }

    pub(crate) fn len(&self) -> usize
        ensures { result ≡ length self.now }
    {
        self.texts.len()
    }

    /// With one text more, unless it is there.
    #[tactic(auto, using(crate::proofs::PatternLemmas::tells_with))]
    fn with_text(self, text: &Text) -> Result<PatternTable, NoMemory>
        ensures { IfOk result (λ t. t ≡ with_item self text.now) }
    {
        let PatternTable {
            mut texts,
            mut names,
            refexes,
            repos,
        } = self;
        if names.get(text).is_some() {
            return Ok(PatternTable {
                texts,
                names,
                refexes,
                repos,
            });
        }
        names.insert(text.clone()?, true)?;
        texts.push(text.clone()?)?;
        Ok(PatternTable {
            texts,
            names,
            refexes,
            repos,
        })
    }

    fn keep_refex(self, text: &Text, refex: KnownRefex) -> Result<PatternTable, NoMemory>
        requires { refex ≡ text.now }
        ensures { IfOk result (λ t. t ≡ self) }
    {
        let PatternTable {
            texts,
            names,
            mut refexes,
            repos,
        } = self;
        refexes.insert(text.clone()?, refex)?;
        Ok(PatternTable {
            texts,
            names,
            refexes,
            repos,
        })
    }

    fn keep_repo(self, text: &Text, pattern: KnownPattern) -> Result<PatternTable, NoMemory>
        requires { pattern ≡ text.now }
        ensures { IfOk result (λ t. t ≡ self) }
    {
        let PatternTable {
            texts,
            names,
            refexes,
            mut repos,
        } = self;
        repos.insert(text.clone()?, pattern)?;
        Ok(PatternTable {
            texts,
            names,
            refexes,
            repos,
        })
    }

    /// The refex of a text. It is read where it isn't kept.
    pub(crate) fn refex(&self, alloc: Global, text: &Text) -> Result<KnownRefex, Stop>
        ensures fault { (ps : Patterns) → AreTrue ps → GivesPattern result (ps.fault Hole.User text.now) text.now }
        ensures refex { IfOk result (λ r. r ≡ text.now) }
    {
        if let Some(refex) = self.refexes.get(text) {
            // `text` is called for its clause that the text is a refex.
            let _text = refex.text();
            return Ok(refex.clone()?);
        }
        read_refex(alloc, text)
    }

    /// The pattern of a text for repositories. It is read where it isn't kept.
    pub(crate) fn pattern(&self, alloc: Global, text: &Text) -> Result<KnownPattern, Stop>
        ensures fault { (ps : Patterns) → AreTrue ps → GivesPattern result (ps.fault Hole.Creator text.now) text.now }
        ensures pattern { IfOk result (λ p. p ≡ text.now) }
    {
        if let Some(pattern) = self.repos.get(text) {
            // `text` is called for its clause that the text is a pattern.
            let _text = pattern.text();
            return Ok(pattern.clone()?);
        }
        read_repo_pattern(alloc, text)
    }

    /// The refex of a text that is one.
    pub(crate) fn known_refex(&self, alloc: Global, text: &Text) -> Result<KnownRefex, NoMemory>
        requires { IsRefexText Hole.User text.now }
        ensures { IfOk result (λ r. r ≡ text.now) }
    {
        if let Some(refex) = self.refexes.get(text) {
            return Ok(refex.clone()?);
        }
        let refex = read_sound(alloc, Hole::User, text)?;
        KnownRefex::of(alloc, text.clone()?, refex)
    }

    /// The pattern of a text that is one for repositories.
    pub(crate) fn known_pattern(&self, alloc: Global, text: &Text) -> Result<KnownPattern, NoMemory>
        requires { IsRefexText Hole.Creator text.now }
        ensures { IfOk result (λ p. p ≡ text.now) }
    {
        if let Some(pattern) = self.repos.get(text) {
            return Ok(pattern.clone()?);
        }
        let pattern = read_sound(alloc, Hole::Creator, text)?;
        KnownPattern::of(alloc, text.clone()?, pattern)
    }

    /// With a refex. It is kept where there are few enough.
    pub(crate) fn with_refex(self, alloc: Global, text: &Text) -> Result<PatternTable, Stop>
        ensures { (ps : Patterns) → AreTrue ps → GivesStep result (unless_bad text.now (ps.fault Hole.User text.now) (Ok (with_item self text.now))) }
    {
        let refex = match self.refex(alloc, text) {
            Ok(refex) => refex,
            Err(stop) => return Err(stop),
        };
        if self.texts.len() >= MAX_PATTERNS {
            return Ok(self.with_text(text)?);
        }
        let kept = self.keep_refex(text, refex)?;
        Ok(kept.with_text(text)?)
    }

    /// With a pattern for repositories, in the same way.
    pub(crate) fn with_repo(self, alloc: Global, text: &Text) -> Result<PatternTable, Stop>
        ensures { (ps : Patterns) → AreTrue ps → GivesStep result (unless_bad text.now (ps.fault Hole.Creator text.now) (Ok (with_item self text.now))) }
    {
        let pattern = match self.pattern(alloc, text) {
            Ok(pattern) => pattern,
            Err(stop) => return Err(stop),
        };
        if self.texts.len() >= MAX_PATTERNS {
            return Ok(self.with_text(text)?);
        }
        let kept = self.keep_repo(text, pattern)?;
        Ok(kept.with_text(text)?)
    }
}

/// The pattern that a text is which is one.
fn read_sound(alloc: Global, hole: Hole, text: &Text) -> Result<Refex, NoMemory>
    requires { IsRefexText hole text.now }
    ensures { IfOk result (λ r. IsRefex hole text.now (pattern_of r)) }
{
    match Refex::parse(alloc, text.bytes(), hole) {
        Ok(refex) => Ok(refex),
        Err(RefexFault::NoMemory) => Err(NoMemory),
        Err(_) => unreachable!(),
    }
}

fn read_refex(alloc: Global, text: &Text) -> Result<KnownRefex, Stop>
    ensures fault { (ps : Patterns) → AreTrue ps → GivesPattern result (ps.fault Hole.User text.now) text.now }
    ensures refex { IfOk result (λ r. r ≡ text.now) }
{
    match read_pattern(alloc, Hole::User, text) {
        Ok(refex) => Ok(KnownRefex::of(alloc, text.clone()?, refex)?),
        Err(stop) => Err(stop),
    }
}

fn read_repo_pattern(alloc: Global, text: &Text) -> Result<KnownPattern, Stop>
    ensures fault { (ps : Patterns) → AreTrue ps → GivesPattern result (ps.fault Hole.Creator text.now) text.now }
    ensures pattern { IfOk result (λ p. p ≡ text.now) }
{
    match read_pattern(alloc, Hole::Creator, text) {
        Ok(refex) => Ok(KnownPattern::of(alloc, text.clone()?, refex)?),
        Err(stop) => Err(stop),
    }
}

/// Whether the text is a pattern that, without a creator, matches the whole of the name.
pub(crate) fn takes_name(alloc: Global, text: &[u8], name: &[u8]) -> Result<bool, NoMemory>
    ensures { (ps : Patterns) → AreTrue ps → IfOk result (λ takes. takes ≡ ps.takes text.now [] name.now) }
{
    match Refex::parse(alloc, text, Hole::Creator) {
        Ok(refex) => Ok(refex.whole(name, b"")),
        Err(RefexFault::NoMemory) => Err(NoMemory),
        Err(_) => Ok(false),
    }
}
