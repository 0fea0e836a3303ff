use pktline_core::MemoryLink;
use script_frames::{FrameFault, read_frame, scripts_differ};
use std::alloc::Global;
use std::test::Fail;

// A source of these bytes, of which a call gives so many at most, and whose calls of these numbers fail.
fn source_of(
    alloc: Global,
    input: &[u8],
    most: usize,
    failing: &[u64],
) -> Result<MemoryLink, Fail> {
    Ok(MemoryLink::new(
        input.to_vec(alloc)?,
        most.max(1),
        failing.to_vec(alloc)?,
        Vec::new(alloc),
    ))
}

// Whether the next frame has this body, and takes so many bytes.
fn next_is(alloc: Global, source: &mut MemoryLink, body: &[u8], taken: u64) -> bool {
    match read_frame(alloc, b"session ", source) {
        Ok(Some(frame)) => frame.body.as_slice() == body && frame.taken == taken,
        _ => false,
    }
}

#[test]
fn a_frame_is_read_up_to_its_last_line_feed(rt: HostRuntime) -> Result<(), Fail> {
    let alloc = rt.alloc();
    scripts_differ();
    for most in [1, 7, 65_536] {
        let mut source = source_of(alloc, b"session 12\nhello, world\nsession 0\n\n", most, &[])?;
        assert!(rt; next_is(alloc, &mut source, b"hello, world", 24));
        assert_eq!(rt; source.left(), b"session 0\n\n".as_slice());
        assert!(rt; next_is(alloc, &mut source, b"", 11));
        assert!(rt; matches!(read_frame(alloc, b"session ", &mut source), Ok(None)));
    }
    Ok(())
}

// Whether the next frame is answered by this fault.
fn stops(alloc: Global, source: &mut MemoryLink, fault: FrameFault) -> bool {
    match read_frame(alloc, b"session ", source) {
        Ok(_) => false,
        Err(found) => found == fault,
    }
}

// Inputs that begin with no frame, and how many of their bytes are left behind the answer.
const BAD: [(&[u8], usize); 15] = [
    (b"session 5\nabc", 0),
    (b"session 5\nabcde", 0),
    (b"session 5\nabcdefg", 1),
    (b"session 05\nabcde\n", 6),
    (b"session +5\nabcde\n", 6),
    (b"session \n\n", 1),
    (b"session 300000001\n", 0),
    (b"session 4294967301\nabcde\n", 7),
    (b"Session 5\nabcde\n", 6),
    (b"conf 5\nabcde\n", 6),
    (b"session 5", 0),
    (b"session", 0),
    (b"\nx", 1),
    (b"seventeen letters\n", 0),
    (b"eighteen letters..\n", 1),
];

#[test]
fn what_is_no_frame_is_bad(rt: HostRuntime) -> Result<(), Fail> {
    let alloc = rt.alloc();
    for (input, left) in BAD {
        let mut source = source_of(alloc, input, 7, &[])?;
        assert!(rt; stops(alloc, &mut source, FrameFault::Bad), "{input:?}");
        assert_eq!(rt; source.left().len(), left, "{input:?}");
    }
    Ok(())
}

const FRAME: &[u8] = b"session 2\nab\n";

// A source that gives one byte a call fails at each place of a frame, and before it.
#[test]
fn each_failing_read_is_told(rt: HostRuntime) -> Result<(), Fail> {
    let alloc = rt.alloc();
    for call in 0..13u64 {
        let mut source = source_of(alloc, FRAME, 1, &[call])?;
        assert!(rt;
            stops(alloc, &mut source, FrameFault::ReadFault),
            "take {call}"
        );
        assert_eq!(rt;
            source.left().len(),
            13usize.saturating_sub(call as usize),
            "take {call}"
        );
    }
    let mut source = source_of(alloc, FRAME, 1, &[13])?;
    assert!(rt; next_is(alloc, &mut source, b"ab", 13));
    assert!(rt; stops(alloc, &mut source, FrameFault::ReadFault));
    Ok(())
}
