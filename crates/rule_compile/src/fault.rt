// Why a conf is refused.
ghost use Rattle.std.specs.Prelude.{◌≡◌, ◌++◌, IfOk, OnOk};
ghost use Rattle.std.specs.Fmt.{decimal};
ghost use Rattle.rule_compile.specs.Faults.{place_text, policy_text, pattern_text, rule_kind_text, rule_text};

use base_types::{NoMemory, Text};
use conf_groups::{ConfFault, FileName};
use refex::RefexFault;
use std::alloc::{AllocError, Global};

/// Why the rules of a conf are refused.
#[derive(Drop)]
pub enum RuleKind {
    /// A rule or an option is in no block.
    RuleBeforeRepo,
    /// A group without members is used.
    UnknownGroup(Text),
    /// There is no virtual ref of this kind.
    UnknownVref(Text),
    /// The text is no pattern. It never holds the fault of memory.
    BadRefex(Text, RefexFault),
    /// There are too many rules, or too many patterns.
    TooManyRules,
}

/// What is wrong with the rules, and in which line of which file.
#[derive(Drop)]
pub struct RuleFault {
    pub kind: RuleKind,
    pub file: FileName,
    pub line: u32,
}

/// What is wrong with a conf: with its files and lines, which is found first, or with its rules.
///
/// Out of memory is a kind of the first.
#[derive(Drop)]
pub enum PolicyFault {
    Splicing(ConfFault),
    Rules(RuleFault),
}

impl Clone for RuleKind {
    ghost is_clone = { λ kind copy. copy ≡ kind };

    fn clone(&self) -> Result<RuleKind, AllocError> {
        match self {
            RuleKind::RuleBeforeRepo => Ok(RuleKind::RuleBeforeRepo),
            RuleKind::UnknownGroup(name) => Ok(RuleKind::UnknownGroup(name.clone()?)),
            RuleKind::UnknownVref(text) => Ok(RuleKind::UnknownVref(text.clone()?)),
            RuleKind::BadRefex(text, fault) => Ok(RuleKind::BadRefex(text.clone()?, *fault)),
            RuleKind::TooManyRules => Ok(RuleKind::TooManyRules),
        }
    }
}

impl Clone for RuleFault {
    ghost is_clone = { λ fault copy. copy ≡ fault };

    fn clone(&self) -> Result<RuleFault, AllocError> {
        Ok(RuleFault {
            kind: self.kind.clone()?,
            file: self.file.clone()?,
            line: self.line,
        })
    }
}

impl Clone for PolicyFault {
    ghost is_clone = { λ fault copy. copy ≡ fault };

    fn clone(&self) -> Result<PolicyFault, AllocError> {
        match self {
            PolicyFault::Splicing(fault) => Ok(PolicyFault::Splicing(fault.clone()?)),
            PolicyFault::Rules(fault) => Ok(PolicyFault::Rules(fault.clone()?)),
        }
    }
}

impl RuleFault {
    /// The fault's text, as `gitolite.conf line 1: rule before repo`. It has the bytes of words as they are.
    pub fn text(&self, alloc: Global) -> Result<Text, NoMemory>
        ensures { IfOk result (λ text. text ≡ rule_text self.now) }
    {
        let mut text = place_text(alloc, &self.file, self.line)?;
        push_kind(alloc, &mut text, &self.kind)?;
        Ok(Text::from(text))
    }
}

impl PolicyFault {
    /// The fault's text: that of the one or of the other.
    pub fn text(&self, alloc: Global) -> Result<Text, NoMemory>
        ensures { IfOk result (λ text. text ≡ policy_text self.now) }
    {
        match self {
            PolicyFault::Splicing(fault) => fault.text(alloc),
            PolicyFault::Rules(fault) => fault.text(alloc),
        }
    }
}

/// The place at the front of a text.
pub(crate) fn place_text(alloc: Global, file: &FileName, line: u32) -> Result<Vec<u8>, NoMemory>
    ensures { IfOk result (λ text. text.items ≡ place_text file.now line) }
{
    let mut text = file.bytes().to_vec(alloc)?;
    text.extend_from_slice(b" line ")?;
    text.extend_from_slice(format!(in alloc; "{line}")?.as_bytes())?;
    text.extend_from_slice(b": ")?;
    Ok(text)
}

/// Two texts, one after the other.
fn push_two(text: &mut Vec<u8>, first: &[u8], second: &[u8]) -> Result<(), NoMemory>
    ensures { OnOk result (text.new.items ≡ text.old.items ++ (first.now ++ second.now)) }
{
    text.extend_from_slice(first)?;
    text.extend_from_slice(second)?;
    Ok(())
}

fn push_kind(alloc: Global, text: &mut Vec<u8>, kind: &RuleKind) -> Result<(), NoMemory>
    ensures { OnOk result (text.new.items ≡ text.old.items ++ rule_kind_text kind.now) }
{
    match kind {
        RuleKind::RuleBeforeRepo => text.extend_from_slice(b"rule before repo")?,
        RuleKind::UnknownGroup(name) => push_two(text, b"unknown group ", name.bytes())?,
        RuleKind::UnknownVref(word) => push_two(text, b"unknown vref ", word.bytes())?,
        RuleKind::BadRefex(word, fault) => push_pattern(alloc, text, word.bytes(), *fault)?,
        RuleKind::TooManyRules => text.extend_from_slice(b"too many rules")?,
    }
    Ok(())
}

/// A pattern with what is wrong with it.
fn push_pattern(
    alloc: Global,
    text: &mut Vec<u8>,
    word: &[u8],
    fault: RefexFault,
) -> Result<(), NoMemory>
    ensures { OnOk result (text.new.items ≡ text.old.items ++ pattern_text word.now fault) }
{
    match fault {
        RefexFault::Syntax(at) => push_placed(alloc, text, b"bad pattern ", word, b" at ", at),
        RefexFault::TooManyPositions(count) => {
            push_placed(alloc, text, b"pattern ", word, b" has ", u64::from(count))?;
            text.extend_from_slice(b" positions")?;
            Ok(())
        }
        RefexFault::Unsupported(at) => {
            push_placed(alloc, text, b"pattern ", word, b" not supported at ", at)
        }
        RefexFault::NoMemory => {
            push_two(text, b"pattern ", word)?;
            text.extend_from_slice(b": out of memory")?;
            Ok(())
        }
    }
}

/// A word and a number, each after a text.
fn push_placed(
    alloc: Global,
    text: &mut Vec<u8>,
    first: &[u8],
    word: &[u8],
    before: &[u8],
    number: u64,
) -> Result<(), NoMemory>
    ensures { OnOk result (text.new.items ≡ text.old.items ++ ((first.now ++ word.now) ++ (before.now ++ decimal number))) }
{
    push_two(text, first, word)?;
    push_number(alloc, text, before, number)
}

/// A number after a text.
fn push_number(
    alloc: Global,
    text: &mut Vec<u8>,
    before: &[u8],
    number: u64,
) -> Result<(), NoMemory>
    ensures { OnOk result (text.new.items ≡ text.old.items ++ (before.now ++ decimal number)) }
{
    push_two(text, before, format!(in alloc; "{number}")?.as_bytes())
}
