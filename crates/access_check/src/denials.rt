// The text of a denial.
ghost use Rattle.std.specs.Prelude.{◌≡◌, ◌++◌, codes, IfOk, map, OnOk};
ghost use Rattle.std.specs.Option.{option_copied};
ghost use Rattle.access_check.specs.Denials.{cause_text, denial_text, printed, printed_byte, request_text};

use crate::{Letter, Want};
use base_types::{NoMemory, Text};
use conf_lex::{RepoName, UserName};
use rule_compile::Rule;
use std::alloc::{AllocError, Global};

/// What was denied.
#[derive(Clone, Copy, Debug)]
pub enum Request<'a> {
    /// An opening of the repository.
    Open(Want),
    /// A change of a ref or of a virtual ref, with the letter that it needs.
    Change(Letter, &'a [u8]),
}

/// The text of a denial, as `W refs/heads/x site cal DENIED by refs/heads/x (gitolite.conf line 11)`.
///
/// Without a rule it ends in `fallthru`. Bytes of the ref's name below 32, and 127, are printed as `?`.
pub fn denial_text(
    alloc: Global,
    request: &Request<'_>,
    repo: &RepoName,
    user: &UserName,
    rule: Option<&Rule>,
) -> Result<Text, NoMemory>
    ensures { IfOk result (λ text. text ≡ denial_text request.now repo.now user.now (option_copied rule.entry)) }
{
    let mut text = request_text(alloc, request)?;
    push_word(&mut text, repo.bytes())?;
    push_word(&mut text, user.bytes())?;
    text.extend_from_slice(b" DENIED by ")?;
    push_cause(alloc, &mut text, rule)?;
    Ok(Text::from(text))
}

// The letter, and the name or `any`.
fn request_text(alloc: Global, request: &Request<'_>) -> Result<Vec<u8>, NoMemory>
    ensures { IfOk result (λ text. text.items ≡ request_text request.now) }
{
    match request {
        Request::Open(Want::Read) => Ok(b"R any".to_vec(alloc)?),
        Request::Open(Want::Write) => Ok(b"W any".to_vec(alloc)?),
        Request::Change(letter, name) => {
            let mut text = letter.text().to_vec(alloc)?;
            push_word(&mut text, printed(alloc, name)?.as_slice())?;
            Ok(text)
        }
    }
}

// A space and a word.
fn push_word(text: &mut Vec<u8>, word: &[u8]) -> Result<(), NoMemory>
    ensures { OnOk result (text.new.items ≡ text.old.items ++ (codes " " ++ word.now)) }
{
    text.extend_from_slice(b" ")?;
    text.extend_from_slice(word)?;
    Ok(())
}

// The refex with its place, or the fallthrough.
fn push_cause(alloc: Global, text: &mut Vec<u8>, rule: Option<&Rule>) -> Result<(), NoMemory>
    ensures { OnOk result (text.new.items ≡ text.old.items ++ cause_text (option_copied rule.entry)) }
{
    let Some(rule) = rule else {
        text.extend_from_slice(b"fallthru")?;
        return Ok(());
    };
    text.extend_from_slice(rule.refex.bytes())?;
    text.extend_from_slice(b" (")?;
    text.extend_from_slice(rule.file.bytes())?;
    text.extend_from_slice(b" line ")?;
    text.extend_from_slice(format!(in alloc; "{}", rule.line)?.as_bytes())?;
    text.extend_from_slice(b")")?;
    Ok(())
}

// A name as it is printed.
fn printed(alloc: Global, name: &[u8]) -> Result<Vec<u8>, AllocError>
    ensures { IfOk result (λ text. text.items ≡ printed name.now) }
{
    name.iter().map(|byte| printed_byte(*byte)).collect(alloc)
}

fn printed_byte(byte: u8) -> u8
    ensures { result ≡ printed_byte byte }
{
    if byte < 32 || byte == 127 {
        return b'?';
    }
    byte
}
