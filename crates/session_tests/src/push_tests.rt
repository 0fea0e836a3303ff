// Sessions that push several commands, or a pack that is refused. The shipped script has the rows of what
// each is told.
ghost use Rattle.std.specs.Prelude.{◌≤◌};

use crate::git_session_tests::{new_desk, serve};
use hub::NoMemory;
use raw_pack::PackFault;
use session_core::SessionEnd;
use session_samples::{OPENING, add_create, first_pack, first_push};
use std::alloc::Global;
use std::test::Fail;

// The first packet has 36 bytes, the commands up to their flush 121, and the two entries of the pack 170 and
// 1.
#[test]
fn an_input_that_ends_early_has_its_end(rt: HostRuntime) -> Result<(), Fail> {
    let alloc = rt.alloc();
    let input = first_push(alloc)?;
    for size in 0..348usize {
        let mut desk = new_desk(alloc)?;
        let part = input.split_at(size.min(input.len())).0;
        let (end, written) = serve(alloc, &mut desk, part, 65_520)?;
        let (due, bytes, entries) = match size {
            0..36 => (SessionEnd::Truncated, 0, 0),
            36..157 => (SessionEnd::Truncated, 106, 1),
            157..327 => (SessionEnd::BadPack(PackFault::Truncated(0)), 182, 1),
            327 => (SessionEnd::BadPack(PackFault::Truncated(1)), 182, 1),
            _ => (SessionEnd::BadPack(PackFault::Truncated(2)), 182, 1),
        };
        assert!(rt; end == due && written.len() == bytes, "{size}");
        assert_eq!(rt; desk.into_hub().into_log().len(), entries);
    }
    Ok(())
}

// An opening, a create of `refs/heads/a`, so many further ones of other refs, a flush, and a pack.
fn many_creates(alloc: Global, further: u32) -> Result<Vec<u8>, NoMemory>
    requires { further ≤ 10000 }
{
    let mut input = OPENING.to_vec(alloc)?;
    add_create(&mut input, b"0070", b"refs/heads/a\0report-status")?;
    for number in 10_000..10_000 + further {
        add_create(&mut input, b"0066", b"refs/heads/")?;
        input.extend_from_slice(number.to_string(alloc)?.as_bytes())?;
    }
    input.extend_from_slice(b"0000")?;
    input.extend_from_slice(&first_pack(alloc)?)?;
    Ok(input)
}

#[test]
fn ten_thousand_commands_are_pushed_and_one_more_is_too_long(rt: HostRuntime) -> Result<(), Fail> {
    let alloc = rt.alloc();
    let last = b"0018ok refs/heads/19998\n0000".as_slice();
    for (further, due, text, entries) in [
        (9_999, SessionEnd::Served, last, 2),
        (10_000, SessionEnd::TooLong(10_001), b"0010ERR too long", 1),
    ] {
        let mut desk = new_desk(alloc)?;
        let (end, written) = serve(alloc, &mut desk, &many_creates(alloc, further)?, 65_520)?;
        assert!(rt; end == due && written.ends_with(text));
        assert_eq!(rt; desk.into_hub().into_log().len(), entries);
    }
    Ok(())
}
