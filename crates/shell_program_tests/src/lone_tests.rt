// Want of memory in the program run by one caller. `front/tests` has rows of its words, streams and statuses.
use base_types::NoMemory;
use hub::Outcome;
use pktline_core::MemoryLink;
use record_file::MemoryDisk;
use session_samples::{DONE, EMPTY, first_pack, first_push, is_granted, push_of, told};
use shell_program::{Ended, lone_main};
use std::alloc::Global;
use std::test::Fail;

// A link over these bytes, of which a call moves seven at most.
pub fn link(alloc: Global, input: &[u8]) -> Result<MemoryLink, Fail> {
    Ok(MemoryLink::new(input.to_vec(alloc)?, 7, Vec::new(alloc), Vec::new(alloc)))
}

pub fn words(alloc: Global, given: &[&str]) -> Result<Vec<String>, Fail> {
    let mut words = Vec::new(alloc);
    for word in given {
        words.push(word.to_string(alloc)?)?;
    }
    Ok(words)
}

pub const USAGE: &[u8] =
    b"usage: gitolite_shell script --admin NAME | serve --admin NAME --workers K --sessions N | http --admin NAME --workers K --sessions N | check | load N START | keep --admin NAME | access\n";

// A frame of a session with this input.
fn frame(alloc: Global, body: &[u8]) -> Result<Vec<u8>, NoMemory> {
    let mut text = Vec::from_slice(alloc, b"session ")?;
    text.extend_from_slice(body.len().to_string(alloc)?.as_bytes())?;
    text.extend_from_slice(b"\n")?;
    text.extend_from_slice(body)?;
    text.extend_from_slice(b"\n")?;
    Ok(text)
}

// A disk over memory with an empty file, whose calls don't fail up to this many.
pub fn empty_disk(alloc: Global, calls: u64) -> Result<MemoryDisk, NoMemory> {
    MemoryDisk::new(alloc, Vec::new(alloc), calls, Vec::new(alloc))
}

// A script of these frames, run whole by the command over a disk: what is printed, and the end.
fn run_over(
    alloc: Global,
    command: &str,
    script: Vec<u8>,
    disk: &mut MemoryDisk,
) -> Result<(Vec<u8>, Ended), NoMemory> {
    let mut words = Vec::new(alloc);
    for word in [command, "--admin", "admin"] {
        words.push(word.to_string(alloc)?)?;
    }
    let mut source = MemoryLink::new(script, 65_536, Vec::new(alloc), Vec::new(alloc));
    let mut sink = MemoryLink::new(Vec::new(alloc), 65_536, Vec::new(alloc), Vec::new(alloc));
    let ended = lone_main(alloc, &words, &mut source, &mut sink, disk);
    Ok((sink.written().to_vec(alloc)?, ended))
}

fn run(alloc: Global, script: Vec<u8>) -> Result<(Vec<u8>, Ended), NoMemory> {
    run_over(alloc, "script", script, &mut empty_disk(alloc, 0)?)
}

// What the first push of a new hub prints: its line, the advertisement of no refs, and its report.
fn reply(alloc: Global, line: &[u8], report: &[u8]) -> Result<Vec<u8>, NoMemory> {
    let mut text = Vec::from_slice(alloc, line)?;
    text.extend_from_slice(EMPTY)?;
    text.extend_from_slice(report)?;
    text.extend_from_slice(b"\n")?;
    Ok(text)
}

const FIRST_LINE: &[u8] = b"session 1 served 149\n";

// Whether a first push, whose first command is done, is printed and logged whole or, for want of memory, a
// beginning of both.
fn is_begun(alloc: Global, body: &[u8], due: &[u8]) -> Result<bool, NoMemory> {
    let (printed, Ended { status, log }) = run(alloc, frame(alloc, body)?)?;
    if log.len() > 0 && !is_granted(&log, 0) {
        return Ok(false);
    }
    if log.len() > 1 && !matches!(told(&log, 1), Some(Outcome::Done)) {
        return Ok(false);
    }
    match status {
        0 => Ok(printed.as_slice() == due && log.len() == 2),
        4 => Ok(due.starts_with(&printed) && log.len() <= 2),
        _ => Ok(false),
    }
}

fn first_is_begun(alloc: Global) -> Result<bool, NoMemory> {
    is_begun(alloc, &first_push(alloc)?, &reply(alloc, FIRST_LINE, DONE)?)
}

const THREE: &[u8] =
    b"000eunpack ok\n0014ok refs/heads/a\n0032ng refs/heads/a/b conflicts with refs/heads/a\n0014ok refs/heads/c\n0000";

fn three_are_begun(alloc: Global) -> Result<bool, NoMemory> {
    let creates: [(&[u8], &[u8]); 3] = [
        (b"0070", b"refs/heads/a\0report-status"),
        (b"0064", b"refs/heads/a/b"),
        (b"0062", b"refs/heads/c"),
    ];
    let body = push_of(alloc, &creates, &first_pack(alloc)?)?;
    is_begun(
        alloc,
        &body,
        &reply(alloc, b"session 1 served 214\n", THREE)?,
    )
}

// With a number of `rt try --fail-alloc` they say of each place what want of memory leaves; without, nothing
// wants.
#[test]
fn want_of_memory_leaves_a_beginning(rt: HostRuntime) -> Result<(), Fail> {
    match first_is_begun(rt.alloc()) {
        Ok(begun) => assert!(rt; begun),
        Err(NoMemory) => {}
    }
    Ok(())
}

#[test]
fn want_of_memory_leaves_a_beginning_of_three_creates(rt: HostRuntime) -> Result<(), Fail> {
    match three_are_begun(rt.alloc()) {
        Ok(begun) => assert!(rt; begun),
        Err(NoMemory) => {}
    }
    Ok(())
}

// The second run on a disk finds what the first one logged: the same create is refused, since the ref is
// there.
#[test]
fn a_log_is_kept(rt: HostRuntime) -> Result<(), Fail> {
    let alloc = rt.alloc();
    let mut disk = empty_disk(alloc, 100_000)?;
    for (logged, done) in [(2, true), (4, false)] {
        let script = frame(alloc, &first_push(alloc)?)?;
        let (_, ended) = run_over(alloc, "keep", script, &mut disk)?;
        assert!(rt; ended.status == 0);
        assert!(rt; ended.log.len() == logged);
        assert!(rt; is_granted(&ended.log, logged - 2));
        assert!(rt; matches!(told(&ended.log, logged - 1), Some(Outcome::Done)) == done);
    }
    Ok(())
}
