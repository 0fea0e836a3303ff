// The first packet.
ghost use Rattle.std.specs.Prelude.{◌≡◌, ◌==◌, IfOk};
ghost use Rattle.std.specs.Option.{option_copied, option_map};
ghost use Rattle.std.specs.List.{list_all};
ghost use Rattle.session_core.specs.FirstPacket.{behind_user, changing, first_line, granting, inside_quotes, is_role_byte, is_role_word, listing, looking, permitting, receiving, repo_named, revoking, role_and_user, role_change, service, unquoted, uploading, user_word, without_slash};

use base_types::{NoMemory, Text};
use conf_lex::{RepoName, UserName, repo_word};
use git_object::{literal, up_to};
use hub::PermChange;
use std::alloc::Global;

// How many bytes the text of a role has at most.
const MAX_ROLE_TEXT: usize = 65_516;

/// What is asked of the server.
#[derive(Drop)]
pub enum Service {
    /// `git-receive-pack`: a push into this repository.
    Receive(RepoName),
    /// `git-upload-pack`: a fetch from this repository.
    Upload(RepoName),
    /// `perms`: roles of this repository are changed or listed.
    Permit(RepoName, PermChange),
    /// `info`: what the user may see is listed.
    Look,
}

/// What a session's first packet asks for.
#[derive(Drop)]
pub struct Asked {
    pub user: UserName,
    pub service: Service,
}

/// What a first line says.
#[derive(Drop)]
pub enum FirstLine {
    Asks(Asked),
    /// Behind the user's name stands nothing that can be asked for.
    BadCommand,
    /// The first word is no user's name.
    BadUser,
}

/// What a first line says.
#[tactic(auto, unfolding(crate::specs::FirstPacket::first_line))]
pub fn first_line(alloc: Global, line: &[u8]) -> Result<FirstLine, NoMemory>
    ensures { IfOk result (λ said. said ≡ first_line line.now) }
{
    let Some(user) = UserName::parse(alloc, user_word(line))? else {
        return Ok(FirstLine::BadUser);
    };
    let Some(words) = behind_user(line) else {
        return Ok(FirstLine::BadCommand);
    };
    let Some(service) = service_of(alloc, words)? else {
        return Ok(FirstLine::BadCommand);
    };
    Ok(FirstLine::Asks(Asked { user, service }))
}

// The bytes up to the first space, or all where there is none.
fn user_word(line: &[u8]) -> &[u8]
    ensures { result.now ≡ user_word line.now }
{
    match up_to(line, b' ') {
        Some((word, _)) => word,
        None => line,
    }
}

// The bytes behind the first space.
fn behind_user(line: &[u8]) -> Option<&[u8]>
    ensures { option_copied result ≡ behind_user line.now }
{
    match up_to(line, b' ') {
        Some((_, words)) => Some(words),
        None => None,
    }
}

// What words behind a user's name ask for.
#[tactic(auto, unfolding(crate::specs::FirstPacket::service))]
fn service_of(alloc: Global, words: &[u8]) -> Result<Option<Service>, NoMemory>
    ensures { IfOk result (λ o. o ≡ service words.now) }
{
    if let Some(word) = literal(words, b"git-receive-pack ") {
        return receiving(alloc, word);
    }
    if let Some(word) = literal(words, b"git-upload-pack ") {
        return uploading(alloc, word);
    }
    if let Some(rest) = literal(words, b"perms ") {
        return permitting(alloc, rest);
    }
    Ok(looking(words))
}

fn looking(words: &[u8]) -> Option<Service>
    ensures { result ≡ looking words.now }
{
    if words == b"info".as_slice() {
        return Some(Service::Look);
    }
    None
}

fn receiving(alloc: Global, word: &[u8]) -> Result<Option<Service>, NoMemory>
    ensures { IfOk result (λ o. o ≡ receiving word.now) }
{
    match repo_named(alloc, word)? {
        Some(repo) => Ok(Some(Service::Receive(repo))),
        None => Ok(None),
    }
}

fn uploading(alloc: Global, word: &[u8]) -> Result<Option<Service>, NoMemory>
    ensures { IfOk result (λ o. o ≡ uploading word.now) }
{
    match repo_named(alloc, word)? {
        Some(repo) => Ok(Some(Service::Upload(repo))),
        None => Ok(None),
    }
}

fn permitting(alloc: Global, words: &[u8]) -> Result<Option<Service>, NoMemory>
    ensures { IfOk result (λ o. o ≡ permitting words.now) }
{
    match literal(words, b"-l ") {
        Some(word) => listing(alloc, word),
        None => changing(alloc, words),
    }
}

fn listing(alloc: Global, word: &[u8]) -> Result<Option<Service>, NoMemory>
    ensures { IfOk result (λ o. o ≡ listing word.now) }
{
    match repo_named(alloc, word)? {
        Some(repo) => Ok(Some(Service::Permit(repo, PermChange::List))),
        None => Ok(None),
    }
}

#[tactic(auto, unfolding(crate::specs::FirstPacket::changing))]
fn changing(alloc: Global, words: &[u8]) -> Result<Option<Service>, NoMemory>
    ensures { IfOk result (λ o. o ≡ changing words.now) }
{
    let Some((word, rest)) = up_to(words, b' ') else {
        return Ok(None);
    };
    let Some(repo) = repo_named(alloc, word)? else {
        return Ok(None);
    };
    match role_change(alloc, rest)? {
        Some(change) => Ok(Some(Service::Permit(repo, change))),
        None => Ok(None),
    }
}

// The repository that a word names.
#[tactic(auto, unfolding(crate::specs::FirstPacket::repo_named))]
fn repo_named(alloc: Global, word: &[u8]) -> Result<Option<RepoName>, NoMemory>
    ensures { IfOk result (λ o. o ≡ repo_named word.now) }
{
    RepoName::parse(alloc, repo_word(without_slash(unquoted(word))))
}

fn unquoted(word: &[u8]) -> &[u8]
    ensures { result.now ≡ unquoted word.now }
{
    match inside_quotes(word) {
        Some(text) => text,
        None => word,
    }
}

// What stands between two single quotes, where a word begins and ends with one.
fn inside_quotes(word: &[u8]) -> Option<&[u8]>
    ensures { option_copied result ≡ inside_quotes word.now }
{
    let text = literal(word, b"'")?;
    let (inside, behind) = up_to(text, b'\'')?;
    if behind.is_empty() {
        Some(inside)
    } else {
        None
    }
}

fn without_slash(word: &[u8]) -> &[u8]
    ensures { result.now ≡ without_slash word.now }
{
    match literal(word, b"/") {
        Some(rest) => rest,
        None => word,
    }
}

// A change of a role, behind its repository.
#[tactic(auto, unfolding(crate::specs::FirstPacket::role_change))]
fn role_change(alloc: Global, words: &[u8]) -> Result<Option<PermChange>, NoMemory>
    ensures { IfOk result (λ o. o ≡ role_change words.now) }
{
    if let Some(rest) = literal(words, b"+ ") {
        return granting(alloc, rest);
    }
    match literal(words, b"- ") {
        Some(rest) => revoking(alloc, rest),
        None => Ok(None),
    }
}

fn granting(alloc: Global, words: &[u8]) -> Result<Option<PermChange>, NoMemory>
    ensures { IfOk result (λ o. o ≡ granting words.now) }
{
    match role_and_user(alloc, words)? {
        Some((role, user)) => Ok(Some(PermChange::Grant { role, user })),
        None => Ok(None),
    }
}

fn revoking(alloc: Global, words: &[u8]) -> Result<Option<PermChange>, NoMemory>
    ensures { IfOk result (λ o. o ≡ revoking words.now) }
{
    match role_and_user(alloc, words)? {
        Some((role, user)) => Ok(Some(PermChange::Revoke { role, user })),
        None => Ok(None),
    }
}

// A role and a user.
#[tactic(auto, unfolding(crate::specs::FirstPacket::role_and_user))]
fn role_and_user(alloc: Global, words: &[u8]) -> Result<Option<(Text, UserName)>, NoMemory>
    ensures { IfOk result (λ o. o ≡ role_and_user words.now) }
{
    let Some((role, user)) = up_to(words, b' ') else {
        return Ok(None);
    };
    if !is_role_word(role) {
        return Ok(None);
    }
    match UserName::parse(alloc, user)? {
        Some(user) => Ok(Some((Text::of(alloc, role)?, user))),
        None => Ok(None),
    }
}

fn is_role_word(role: &[u8]) -> bool
    ensures { result ≡ is_role_word role.now }
{
    !role.is_empty() && role.len() <= MAX_ROLE_TEXT && all_role_bytes(role)
}

fn all_role_bytes(role: &[u8]) -> bool
    ensures { result ≡ list_all is_role_byte role.now }
{
    role.iter().all(|c| is_role_byte(*c))
}

fn is_role_byte(c: u8) -> bool
    ensures { result ≡ is_role_byte c }
{
    c.is_ascii_alphanumeric() || c == b'-' || c == b'_'
}
