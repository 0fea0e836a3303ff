// The conf of the generated installation.
ghost use Rattle.std.specs.Prelude.{◌≡◌, ◌++◌, ◌+◌, ◌*◌, ◌≤◌, IfOk, OnOk, codes, decimal, length};
ghost use Rattle.installation.specs.Draws.{drawn, drawn_behind};
ghost use Rattle.installation.specs.Conf.{block, block_behind, conf_text, repo_name, user_name};

use crate::draws::Draws;
use base_types::NoMemory;
use conf_lex::RepoName;
use itoa::Buffer;
use std::alloc::Global;

// How many users there are beside the admin.
pub(crate) const USERS: u32 = 10;

// A letter and a number.
fn numbered(alloc: Global, letter: &[u8], number: u32) -> Result<Vec<u8>, NoMemory>
    ensures name { IfOk result (λ name. name.items ≡ letter.now ++ decimal number) }
    ensures short { IfOk result (λ name. length name.items ≤ length letter.now + 40) }
{
    let mut name = letter.to_vec(alloc)?;
    name.extend_from_slice(Buffer::new().format(number).as_bytes())?;
    Ok(name)
}

/// The name of a user, by a number below ten.
pub(crate) fn user_name(alloc: Global, user: u32) -> Result<Vec<u8>, NoMemory>
    ensures name { IfOk result (λ name. name.items ≡ user_name user) }
    ensures short { IfOk result (λ name. length name.items ≤ 41) }
{
    numbered(alloc, b"u", user)
}

// The same as bytes.
pub(crate) fn repo_bytes(alloc: Global, repo: u32) -> Result<Vec<u8>, NoMemory>
    ensures name { IfOk result (λ name. name.items ≡ repo_name repo) }
    ensures short { IfOk result (λ name. length name.items ≤ 41) }
{
    numbered(alloc, b"r", repo)
}

/// The name of a repository, by its number.
pub fn repo_name(alloc: Global, repo: u32) -> Result<RepoName, NoMemory>
    ensures { IfOk result (λ name. name ≡ repo_name repo) }
{
    let bytes = repo_bytes(alloc, repo)?;
    let Some(name) = RepoName::parse(alloc, &bytes)? else {
        unreachable!()
    };
    Ok(name)
}

// Adds words and a number.
fn add_numbered(text: &mut Vec<u8>, words: &[u8], number: u32) -> Result<(), NoMemory>
    ensures text { OnOk result (text.new.items ≡ text.old.items ++ (words.now ++ decimal number)) }
    ensures short { OnOk result (length text.new.items ≤ length text.old.items + length words.now + 40) }
{
    text.extend_from_slice(words)?;
    text.extend_from_slice(Buffer::new().format(number).as_bytes())?;
    Ok(())
}

// Adds a repository with its owner and its writer.
#[tactic(auto, unfolding(crate::specs::Conf::block))]
fn add_block(text: &mut Vec<u8>, repo: u32, owner: u32, writer: u32) -> Result<(), NoMemory>
    ensures text { OnOk result (text.new.items ≡ text.old.items ++ block repo owner writer) }
    ensures short { OnOk result (length text.new.items ≤ length text.old.items + 200) }
{
    add_numbered(text, b"repo r", repo)?;
    add_numbered(text, b"\n    RW+ = u", owner)?;
    add_numbered(text, b"\n    RW master$ = u", writer)?;
    text.extend_from_slice(b"\n    R = @all\n")?;
    Ok(())
}

/// The conf of so many repositories. Two numbers are drawn for each.
#[tactic(auto, unfolding(crate::specs::Conf::conf_text))]
pub fn conf_text(
    alloc: Global,
    count: u32,
    start: u32,
    draws: &mut Draws,
) -> Result<Vec<u8>, NoMemory>
    requires { draws.old.last ≡ drawn start 0 }
    ensures text { IfOk result (λ text. text.items ≡ conf_text count start) }
    ensures short { IfOk result (λ text. length text.items ≤ 100 + 200 * count) }
    ensures draws { OnOk result (draws.new.last ≡ drawn start (2 * count)) }
{
    let mut text = b"repo gitolite-admin\n    RW+ = admin\n".to_vec(alloc)?;
    for repo in 0..count {
        let owner = draws.next() % USERS;
        let writer = draws.next() % USERS;
        add_block(&mut text, repo, owner, writer)?;
    }
    Ok(text)
}
