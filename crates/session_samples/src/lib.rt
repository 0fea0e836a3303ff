//! What sessions of several crates of tests read and write, and what is looked for in their logs.
#![tactic(auto)]

use hub::{EnterKept, EntryList, Event, NoMemory, Outcome};
use std::alloc::Global;

/// The first packet of a push.
pub const OPENING: &[u8] = b"0024carol git-receive-pack 'testing'";

const COMMAND: &[u8] =
    b"00750000000000000000000000000000000000000000 1c73cda3964d5dd51bdaad94efd235c910cf59de refs/heads/master\0report-status0000";

const COMMIT: &[u8] =
    b"tree 4b825dc642cb6eb9a060e54bf8d69288fbee4904\nauthor Carol <carol@example.com> 1700000000 +0000\ncommitter Carol <carol@example.com> 1700000000 +0000\n\nfirst\n";

const TRAILER: [u8; 20] = [
    0x64, 0xe5, 0x6d, 0xb6, 0x5e, 0x40, 0xed, 0x16, 0x0b, 0x3b, 0xd3, 0x40, 0x52, 0x5a, 0xb6, 0x1e,
    0x82, 0x69, 0xdb, 0xdb,
];

/// The advertisement of a repository without refs.
pub const EMPTY: &[u8] =
    b"00660000000000000000000000000000000000000000 capabilities^{}\0report-status delete-refs no-thin atomic\n0000";

/// That of one which the first push has left.
pub const MASTER: &[u8] =
    b"00681c73cda3964d5dd51bdaad94efd235c910cf59de refs/heads/master\0report-status delete-refs no-thin atomic\n0000";

/// The report of that push.
pub const DONE: &[u8] = b"000eunpack ok\n0019ok refs/heads/master\n0000";

/// An opening, a create of a branch, and its pack: 348 bytes.
pub fn first_push(alloc: Global) -> Result<Vec<u8>, NoMemory> {
    let mut input = OPENING.to_vec(alloc)?;
    input.extend_from_slice(COMMAND)?;
    input.extend_from_slice(b"PACK\0\0\0\x02\0\0\0\x02\x9c\x09")?;
    input.extend_from_slice(COMMIT)?;
    input.extend_from_slice(b"\x20")?;
    input.extend_from_slice(&TRAILER)?;
    Ok(input)
}

// The old value, the new value and a space, of a create at the commit of the first push.
const CREATE: &[u8] =
    b"0000000000000000000000000000000000000000 1c73cda3964d5dd51bdaad94efd235c910cf59de ";

/// A packet of a create, whose length is given in its four digits.
pub fn add_create(input: &mut Vec<u8>, size: &[u8], name: &[u8]) -> Result<(), NoMemory> {
    input.extend_from_slice(size)?;
    input.extend_from_slice(CREATE)?;
    input.extend_from_slice(name)?;
    Ok(())
}

/// An opening, these creates, a flush, and a pack. A create has the four digits of its length, and the ref
/// with the words behind it.
pub fn push_of(
    alloc: Global,
    creates: &[(&[u8], &[u8])],
    pack: &[u8],
) -> Result<Vec<u8>, NoMemory> {
    let mut input = OPENING.to_vec(alloc)?;
    for (size, name) in creates {
        add_create(&mut input, size, name)?;
    }
    input.extend_from_slice(b"0000")?;
    input.extend_from_slice(pack)?;
    Ok(input)
}

/// The pack of the first push.
pub fn first_pack(alloc: Global) -> Result<Vec<u8>, NoMemory> {
    let input = first_push(alloc)?;
    match input.split_at_checked(157) {
        Some((_, pack)) => Ok(pack.to_vec(alloc)?),
        None => Ok(input),
    }
}

/// Whether an opening at a place of the log was answered so.
pub fn is_answered(log: &EntryList, place: usize, due: EnterKept) -> bool {
    let Some(entry) = log.get(place) else {
        return false;
    };
    match &entry.event {
        Event::Entered { answer, .. } => *answer == due,
        _ => false,
    }
}

/// Whether it was granted.
pub fn is_granted(log: &EntryList, place: usize) -> bool {
    is_answered(log, place, EnterKept::Granted)
}

/// What the first command of the push at a place of the log was told.
pub fn told(log: &EntryList, place: usize) -> Option<&Outcome> {
    let entry = log.get(place)?;
    match &entry.event {
        Event::Pushed { outcomes, .. } => outcomes.get(0),
        _ => None,
    }
}
