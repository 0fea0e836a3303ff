// Sessions over a link of memory and the only desk of a new hub.
use conf_lex::UserName;
use git_session::session;
use hub::{EnterKept, Hub, LoneDesk, NoMemory, Verdict};
use pktline_core::{Link, MemoryLink};
use session_core::{Gate, OpenGate, PacketBuffer, SessionEnd};
use session_samples::{OPENING, first_push, is_answered};
use std::alloc::Global;
use std::test::Fail;

pub fn new_desk(alloc: Global) -> Result<LoneDesk, NoMemory> {
    let Some(admin) = UserName::parse(alloc, b"admin")? else {
        unreachable!()
    };
    Ok(LoneDesk::new(Hub::start(alloc, &admin)?))
}

// The end of a session over such an input, and what was written.
pub fn serve(
    alloc: Global,
    desk: &mut LoneDesk,
    input: &[u8],
    most: usize,
) -> Result<(SessionEnd, Vec<u8>), NoMemory> {
    let input = input.to_vec(alloc)?;
    let mut link = MemoryLink::new(input, most.max(1), Vec::new(alloc), Vec::new(alloc));
    let end = session(
        alloc,
        &mut link,
        desk,
        &mut OpenGate,
        &mut PacketBuffer::new(),
    );
    let written = link.written().to_vec(alloc)?;
    Ok((end, written))
}

// A gate that tells how often it was called, and the place of the last opening.
#[derive(Drop)]
struct LastPlace {
    calls: u64,
    place: Option<u64>,
}

impl Gate for LastPlace {
    ghost use Rattle.std.specs.Prelude.{None};

    ghost calls = { λ _. None };

    fn between<L: Link>(&mut self, place: u64, _link: &L) {
        self.calls = self.calls.saturating_add(1);
        self.place = Some(place);
    }
}

// The end of the first push over a link that moves a byte a call and fails at these, how many bytes were
// written, and how many entries made.
fn serve_failing(
    alloc: Global,
    takes: &[u64],
    puts: &[u64],
) -> Result<(SessionEnd, usize, usize), NoMemory> {
    let mut desk = new_desk(alloc)?;
    let input = first_push(alloc)?;
    let mut link = MemoryLink::new(input, 1, takes.to_vec(alloc)?, puts.to_vec(alloc)?);
    let end = session(
        alloc,
        &mut link,
        &mut desk,
        &mut OpenGate,
        &mut PacketBuffer::new(),
    );
    let written = link.written().len();
    Ok((end, written, desk.into_hub().into_log().len()))
}

// The opening is made once the first packet is read, and the push once all is.
#[test]
fn each_read_that_fails_ends_a_session(rt: HostRuntime) -> Result<(), Fail> {
    for call in 0..348u64 {
        let (written, entries) = if call < 36 { (0, 0) } else { (106, 1) };
        let due = (SessionEnd::ReadFault, written, entries);
        assert!(rt;
            serve_failing(rt.alloc(), &[call], &[])? == due,
            "take {call}"
        );
    }
    let served = serve_failing(rt.alloc(), &[348], &[149])?;
    assert!(rt; served == (SessionEnd::Served, 149, 2));
    Ok(())
}

#[test]
fn each_write_that_fails_ends_a_session(rt: HostRuntime) -> Result<(), Fail> {
    for call in 0..149u64 {
        let entries = if call < 106 { 1 } else { 2 };
        let due = (SessionEnd::WriteFault, call as usize, entries);
        assert!(rt;
            serve_failing(rt.alloc(), &[], &[call])? == due,
            "put {call}"
        );
    }
    Ok(())
}

// A session without a good user leaves nothing in the log, and a denied one its denial.
#[test]
fn a_denial_is_in_the_log(rt: HostRuntime) -> Result<(), Fail> {
    let alloc = rt.alloc();
    let mut desk = new_desk(alloc)?;
    for (input, due) in [
        (b"0003".as_slice(), SessionEnd::Malformed(0)),
        (b"000acarol!", SessionEnd::BadUser),
        (
            b"002bcarol git-receive-pack 'gitolite-admin'",
            SessionEnd::Denied,
        ),
    ] {
        let (end, _) = serve(alloc, &mut desk, input, 65_520)?;
        assert!(rt; end == due);
    }
    let log = desk.into_hub().into_log();
    assert_eq!(rt; log.len(), 1);
    assert!(rt; is_answered(&log, 0, EnterKept::Denied(Verdict::Fallthru)));
    Ok(())
}

// Where the first write fails nothing of the session is written, and the gate was called before.
#[test]
fn the_gate_stands_between_an_opening_and_what_is_written(rt: HostRuntime) -> Result<(), Fail> {
    let alloc = rt.alloc();
    let mut desk = new_desk(alloc)?;
    let mut buffer = PacketBuffer::new();
    let mut gate = LastPlace {
        calls: 0,
        place: None,
    };
    let denied = b"002bcarol git-receive-pack 'gitolite-admin'".as_slice();
    let fetch = b"0023carol git-upload-pack 'testing'0000".as_slice();
    for (input, failing, due, calls, place) in [
        (denied, 99, SessionEnd::Denied, 0, None),
        (OPENING, 99, SessionEnd::Truncated, 1, Some(1)),
        (OPENING, 0, SessionEnd::WriteFault, 2, Some(2)),
        (fetch, 99, SessionEnd::Served, 3, Some(3)),
        (fetch, 0, SessionEnd::WriteFault, 4, Some(4)),
        (
            b"001acarol perms -l testing",
            99,
            SessionEnd::Served,
            4,
            Some(4),
        ),
        (
            b"0024carol git-receive-pack 'testing'0003",
            99,
            SessionEnd::Malformed(36),
            5,
            Some(6),
        ),
    ] {
        let mut puts = Vec::new(alloc);
        puts.push(failing)?;
        let mut link = MemoryLink::new(input.to_vec(alloc)?, 3, Vec::new(alloc), puts);
        assert_eq!(rt;
            session(alloc, &mut link, &mut desk, &mut gate, &mut buffer),
            due
        );
        assert!(rt; gate.calls == calls && gate.place == place);
        assert!(rt; link.written().is_empty() == (failing == 0));
    }
    Ok(())
}
