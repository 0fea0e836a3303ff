// Bytes in the place of others.
ghost use Rattle.std.specs.Prelude.{◌≡◌, ◌<◌, ◌≤◌, ◌+◌, ◌^◌, length, vec_capacity, OnOk, IsOk};
ghost use Rattle.record_file.specs.Disks.{overwritten};

use std::alloc::AllocError;

// Puts a piece at a place, over what was there.
pub(crate) fn overwrite(buffer: &mut [u8], at: usize, piece: &[u8])
    requires { at + length piece.now ≤ length buffer.old }
    ensures { buffer.new ≡ overwritten buffer.old at piece.now }
{
    let (_front, behind) = buffer.split_at_mut(at);
    let (part, _rest) = behind.split_at_mut(piece.len());
    part.copy_from_slice(piece);
}

// Puts a piece at a place of a file: over what is there, and past its end.
pub(crate) fn put(content: &mut Vec<u8>, at: usize, piece: &[u8]) -> Result<(), AllocError>
    requires { at + length piece.now < 2 ^ 64 }
    ensures content { OnOk result (content.new.items ≡ overwritten content.old.items at piece.now) }
    ensures succeeds { at + length piece.now ≤ vec_capacity content.old → IsOk result }
    ensures capacity { vec_capacity content.old ≤ vec_capacity content.new }
{
    let end = at + piece.len();
    if end <= content.len() {
        overwrite(content, at, piece);
        return Ok(());
    }
    content.truncate(at);
    content.extend_from_slice(piece)?;
    Ok(())
}

// The same, where there is room for it.
pub(crate) fn put_within(content: &mut Vec<u8>, at: usize, piece: &[u8])
    requires fits { at + length piece.now < 2 ^ 64 }
    requires room { at + length piece.now ≤ vec_capacity content.old }
    ensures content { content.new.items ≡ overwritten content.old.items at piece.now }
    ensures capacity { vec_capacity content.old ≤ vec_capacity content.new }
{
    let Ok(()) = put(content, at, piece) else {
        unreachable!()
    };
}
