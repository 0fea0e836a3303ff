// Fetches up to their limits, and fetches that are cut off. The shipped script has the rows of what each is
// told.
use crate::git_session_tests::{new_desk, serve};
use git_session::session;
use hub::{LoneDesk, NoMemory};
use pktline_core::MemoryLink;
use session_core::{OpenGate, PacketBuffer, SessionEnd};
use session_samples::first_push;
use std::alloc::Global;
use std::test::Fail;

const OPENING: &[u8] = b"0023carol git-upload-pack 'testing'";

// What the first push has put at its branch.
const WANT: &[u8] = b"0032want 1c73cda3964d5dd51bdaad94efd235c910cf59de\n";

const FLUSH: &[u8] = b"0000";

// No object has this name.
const HAVE: &[u8] = b"0032have 1111111111111111111111111111111111111111\n";

const DONE: &[u8] = b"0009done\n";

// An opening, so many wants, so many flushes, of which the first ends the wants, so many haves, and `done`.
fn fetch_of(alloc: Global, wants: u32, flushes: u32, haves: u32) -> Result<Vec<u8>, NoMemory> {
    let mut input = OPENING.to_vec(alloc)?;
    for _ in 0..wants {
        input.extend_from_slice(WANT)?;
    }
    for _ in 0..flushes {
        input.extend_from_slice(FLUSH)?;
    }
    for _ in 0..haves {
        input.extend_from_slice(HAVE)?;
    }
    input.extend_from_slice(DONE)?;
    Ok(input)
}

// The last bytes of the pack of the first push.
const TRAILER: [u8; 4] = [0x82, 0x69, 0xdb, 0xdb];

// How many wants, flushes and haves a fetch has, how it ends, and how many bytes are due: the advertisement
// of 147, a `NAK` of 8 for each flush behind the first one and for `done`, and the pack of 191, or the
// refusal of 16.
const LIMITS: [(u32, u32, u32, SessionEnd, usize); 6] = [
    (10_000, 1, 0, SessionEnd::Served, 346),
    (10_001, 1, 0, SessionEnd::TooLong(10_001), 163),
    (1, 100_001, 0, SessionEnd::Served, 800_346),
    (1, 100_002, 0, SessionEnd::TooLong(100_001), 800_163),
    (1, 1, 100_000, SessionEnd::Served, 346),
    (1, 1, 100_001, SessionEnd::TooLong(100_001), 163),
];

#[test]
fn as_many_wants_and_flushes_are_taken_as_there_may_be(rt: HostRuntime) -> Result<(), Fail> {
    let alloc = rt.alloc();
    let mut desk = new_desk(alloc)?;
    let (end, _) = serve(alloc, &mut desk, &first_push(alloc)?, 65_520)?;
    assert!(rt; end == SessionEnd::Served);
    for (wants, flushes, haves, due, length) in LIMITS {
        let input = fetch_of(alloc, wants, flushes, haves)?;
        let (end, written) = serve(alloc, &mut desk, &input, 65_520)?;
        let text = if end == SessionEnd::Served {
            TRAILER.as_slice()
        } else {
            b"0010ERR too long"
        };
        assert!(rt; end == due && written.len() == length && written.ends_with(text));
    }
    Ok(())
}

// A desk at a hub with the first push.
fn pushed_desk(alloc: Global) -> Result<LoneDesk, NoMemory> {
    let mut desk = new_desk(alloc)?;
    let (_, _) = serve(alloc, &mut desk, &first_push(alloc)?, 65_520)?;
    Ok(desk)
}

// How many bytes are due of a fetch of one want and two flushes, of which so many bytes were read: the first
// packet has 35 and leads to the advertisement, of 147; the second flush, up to byte 93, to a `NAK`, of 8;
// and `done`, up to byte 102, to another and the pack, of 191.
fn due_of(read: u64) -> usize {
    match read {
        0..35 => 0,
        35..93 => 147,
        93..102 => 155,
        _ => 354,
    }
}

// The end of that fetch over a link that moves a byte a call and fails at these, and how many bytes were
// written.
fn fetch_failing(
    alloc: Global,
    desk: &mut LoneDesk,
    takes: &[u64],
    puts: &[u64],
) -> Result<(SessionEnd, usize), NoMemory> {
    let input = fetch_of(alloc, 1, 2, 0)?;
    let mut link = MemoryLink::new(input, 1, takes.to_vec(alloc)?, puts.to_vec(alloc)?);
    let end = session(
        alloc,
        &mut link,
        desk,
        &mut OpenGate,
        &mut PacketBuffer::new(),
    );
    Ok((end, link.written().len()))
}

#[test]
fn a_fetch_whose_input_ends_early_has_its_end(rt: HostRuntime) -> Result<(), Fail> {
    let alloc = rt.alloc();
    let mut desk = pushed_desk(alloc)?;
    let input = fetch_of(alloc, 1, 2, 0)?;
    assert_eq!(rt; input.len(), 102);
    for size in 0..103u64 {
        let part = input.split_at((size as usize).min(input.len())).0;
        let (end, written) = serve(alloc, &mut desk, part, 1)?;
        let due = if size < 102 {
            SessionEnd::Truncated
        } else {
            SessionEnd::Served
        };
        assert!(rt; end == due && written.len() == due_of(size), "{size}");
    }
    assert_eq!(rt; desk.into_hub().into_log().len(), 2 + 68);
    Ok(())
}

#[test]
fn each_read_that_fails_ends_a_fetch(rt: HostRuntime) -> Result<(), Fail> {
    let alloc = rt.alloc();
    let mut desk = pushed_desk(alloc)?;
    for call in 0..102u64 {
        let due = (SessionEnd::ReadFault, due_of(call));
        assert!(rt;
            fetch_failing(alloc, &mut desk, &[call], &[])? == due,
            "take {call}"
        );
    }
    let served = fetch_failing(alloc, &mut desk, &[102], &[354])?;
    assert!(rt; served == (SessionEnd::Served, 354));
    assert_eq!(rt; desk.into_hub().into_log().len(), 2 + 68);
    Ok(())
}

#[test]
fn each_write_that_fails_ends_a_fetch(rt: HostRuntime) -> Result<(), Fail> {
    let alloc = rt.alloc();
    let mut desk = pushed_desk(alloc)?;
    for call in 0..354u64 {
        let due = (SessionEnd::WriteFault, call as usize);
        assert!(rt;
            fetch_failing(alloc, &mut desk, &[], &[call])? == due,
            "put {call}"
        );
    }
    assert_eq!(rt; desk.into_hub().into_log().len(), 2 + 354);
    Ok(())
}
