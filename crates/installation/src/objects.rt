// The objects of the generated installation.
ghost use Rattle.std.specs.Prelude.{◌≡◌, ◌≤◌, ◌+◌, ◌++◌, IfOk, codes, length};
ghost use Rattle.git_object.specs.Object.{object_name};
ghost use Rattle.git_object.specs.Spelling.{spelled_entry, spelled_line};
ghost use Rattle.installation.specs.Objects.{numbered_lines};

use base_types::NoMemory;
use git_object::{Kind, ObjectId};
use itoa::Buffer;
use sha1::Sha1;
use std::alloc::Global;

/// The name of an object.
pub(crate) fn name_of(kind: Kind, body: &[u8]) -> ObjectId
    ensures { result ≡ object_name (record { kind = kind; body = body.now }) }
{
    let mut digits = Buffer::new();
    let mut hasher = Sha1::new();
    hasher.update(kind.word());
    hasher.update(b" ");
    hasher.update(digits.format(body.len()).as_bytes());
    hasher.update(&[0]);
    hasher.update(body);
    ObjectId {
        bytes: hasher.finalize(),
    }
}

/// The body of a tree of one entry.
pub(crate) fn tree_body(
    alloc: Global,
    mode: &[u8],
    name: &[u8],
    id: ObjectId,
) -> Result<Vec<u8>, NoMemory>
    ensures body { IfOk result (λ body. body.items ≡ spelled_entry (record { mode = mode.now; name = name.now; id = id })) }
    ensures short { IfOk result (λ body. length body.items ≤ length mode.now + length name.now + 22) }
{
    let mut body = mode.to_vec(alloc)?;
    body.push(b' ')?;
    body.extend_from_slice(name)?;
    body.push(0)?;
    body.extend_from_slice(&id.bytes)?;
    Ok(body)
}

/// The body of a commit of a tree, with lines behind the tree's.
pub(crate) fn commit_body(alloc: Global, tree: ObjectId, lines: &[u8]) -> Result<Vec<u8>, NoMemory>
    ensures body { IfOk result (λ body. body.items ≡ spelled_line (codes "tree ") tree ++ lines.now) }
    ensures short { IfOk result (λ body. length body.items ≤ length lines.now + 46) }
{
    let mut body = b"tree ".to_vec(alloc)?;
    body.extend_from_slice(&tree.hex())?;
    body.push(b'\n')?;
    body.extend_from_slice(lines)?;
    Ok(body)
}

/// The lines of a session's commit.
pub(crate) fn author_lines(alloc: Global, number: u32) -> Result<Vec<u8>, NoMemory>
    ensures lines { IfOk result (λ lines. lines.items ≡ numbered_lines number) }
    ensures short { IfOk result (λ lines. length lines.items ≤ 53) }
{
    let mut lines = b"author load ".to_vec(alloc)?;
    lines.extend_from_slice(Buffer::new().format(number).as_bytes())?;
    lines.push(b'\n')?;
    Ok(lines)
}
