use pktline_core::{
    MAX_PAYLOAD, MemoryLink, NoMemory, Pkt, PktFault, PktReader, Put, Sink, Source, TakeFault,
    Taken, WriteFault, hold_laws, write_flush, write_pkt,
};
use std::alloc::Global;
use std::test::Fail;

fn link_over(
    alloc: Global,
    input: &[u8],
    most: usize,
    failing_takes: &[u64],
    failing_puts: &[u64],
) -> Result<MemoryLink, Fail> {
    Ok(MemoryLink::new(
        input.to_vec(alloc)?,
        most.max(1),
        failing_takes.to_vec(alloc)?,
        failing_puts.to_vec(alloc)?,
    ))
}

// The input, what is read from its front, and how many bytes that takes.
const ROWS: [(&[u8], Result<Pkt<'static>, PktFault>, usize); 19] = [
    (b"0004", Ok(Pkt::Line(b"")), 4),
    (b"0009hello", Ok(Pkt::Line(b"hello")), 9),
    (b"000ahello\nmore", Ok(Pkt::Line(b"hello\n")), 10),
    (b"000Ahello\n", Ok(Pkt::Line(b"hello\n")), 10),
    (b"0000", Ok(Pkt::Flush), 4),
    (b"00000004", Ok(Pkt::Flush), 4),
    (b"0001", Err(PktFault::BadLength), 4),
    (b"0002", Err(PktFault::BadLength), 4),
    (b"0003more", Err(PktFault::BadLength), 4),
    (b"fff1", Err(PktFault::BadLength), 4),
    (b"FFFF", Err(PktFault::BadLength), 4),
    (b"000g", Err(PktFault::BadLength), 4),
    (b"+004", Err(PktFault::BadLength), 4),
    (b" 004", Err(PktFault::BadLength), 4),
    (b"00@4", Err(PktFault::BadLength), 4),
    (b"fff0", Err(PktFault::Truncated), 4),
    (b"0009hel", Err(PktFault::Truncated), 7),
    (b"xyz", Err(PktFault::Truncated), 3),
    (b"", Err(PktFault::Truncated), 0),
];

#[test]
fn the_front_of_an_input_is_read(rt: HostRuntime) -> Result<(), Fail> {
    let alloc = rt.alloc();
    // one reader, whose buffer has what the rows before left
    let mut reader = PktReader::new(alloc)?;
    for (input, answer, used) in ROWS {
        for most in [1, 3, 65_520] {
            let mut link = link_over(alloc, input, most, &[], &[])?;
            reader.restart();
            assert!(rt; reader.next(&mut link) == answer, "{input:?}");
            assert_eq!(rt;
                link.left().len(),
                input.len().saturating_sub(used),
                "{input:?}"
            );
            let whole = if answer.is_ok() { used as u64 } else { 0 };
            assert_eq!(rt; reader.offset(), whole, "{input:?}");
        }
    }
    Ok(())
}

#[test]
fn the_longest_line_is_written_and_read(rt: HostRuntime) -> Result<(), Fail> {
    let alloc = rt.alloc();
    let payload = vec![in alloc; b'x'; MAX_PAYLOAD]?;
    let mut link = link_over(alloc, b"", 10_000, &[], &[])?;
    write_pkt(&mut link, &payload)?;
    write_flush(&mut link)?;
    assert_eq!(rt; link.written().len(), 65_524);
    assert!(rt; link.written().starts_with(b"fff0xx") && link.written().ends_with(b"xx0000"));
    let mut link = link_over(alloc, link.written(), 10_000, &[], &[])?;
    let mut reader = PktReader::new(alloc)?;
    assert!(rt; reader.next(&mut link) == Ok(Pkt::Line(&payload)));
    assert!(rt; reader.next(&mut link) == Ok(Pkt::Flush));
    assert_eq!(rt; reader.offset(), 65_524);
    assert!(rt; reader.next(&mut link) == Err(PktFault::Truncated));
    hold_laws();
    Ok(())
}

const STREAM: &[u8] = b"0009hello0000";

fn write_stream(link: &mut MemoryLink) -> Result<(), WriteFault> {
    write_pkt(link, b"hello")?;
    write_flush(link)
}

#[test]
fn each_failing_call_ends_it_there(rt: HostRuntime) -> Result<(), Fail> {
    let alloc = rt.alloc();
    for call in 0..13u64 {
        let at = call as usize;
        let mut link = link_over(alloc, STREAM, 1, &[call], &[call])?;
        assert!(rt;
            write_stream(&mut link) == Err(WriteFault::Failed),
            "put {call}"
        );
        assert!(rt; link.written().len() == at && STREAM.starts_with(link.written()));
        let mut reader = PktReader::new(alloc)?;
        let first = if call < 9 {
            Err(PktFault::ReadFault)
        } else {
            Ok(Pkt::Line(b"hello"))
        };
        assert!(rt; reader.next(&mut link) == first, "take {call}");
        if call >= 9 {
            assert!(rt;
                reader.next(&mut link) == Err(PktFault::ReadFault),
                "take {call}"
            );
            assert_eq!(rt; reader.offset(), 9);
        }
        assert_eq!(rt;
            link.left().len(),
            13usize.saturating_sub(at),
            "take {call}"
        );
    }
    let mut link = link_over(alloc, STREAM, 1, &[13], &[13])?;
    assert!(rt; write_stream(&mut link) == Ok(()) && link.written() == STREAM);
    Ok(())
}

#[test]
fn a_memory_link_fails_at_the_listed_calls_alone(rt: HostRuntime) -> Result<(), Fail> {
    let alloc = rt.alloc();
    let mut link = link_over(alloc, b"abcde", 2, &[1, 4], &[0])?;
    let mut room = [0; 8];
    for (answer, left) in [
        (Taken::Got(2), 3),
        (Taken::Failed, 3),
        (Taken::Got(2), 1),
        (Taken::Got(1), 0),
        (Taken::Failed, 0),
        (Taken::End, 0),
    ] {
        assert!(rt; link.take(&mut room) == answer);
        assert_eq!(rt; link.left().len(), left);
    }
    for (answer, written) in [
        (Put::Failed, ""),
        (Put::Took(2), "xy"),
        (Put::Took(2), "xyxy"),
    ] {
        assert!(rt; link.put(b"xyz") == answer);
        assert_eq!(rt; link.written(), written.as_bytes());
    }
    Ok(())
}

#[test]
fn faults_have_their_numbers(rt: HostRuntime) -> Result<(), Fail> {
    for (fault, number) in [
        (PktFault::Truncated, 1),
        (PktFault::BadLength, 2),
        (PktFault::ReadFault, 3),
    ] {
        assert_eq!(rt; fault as u8, number);
    }
    assert!(rt; TakeFault::Ended as u8 == 1 && TakeFault::Failed as u8 == 2);
    assert!(rt; WriteFault::Failed as u8 == 1 && WriteFault::NoMemory as u8 == 2);
    Ok(())
}

fn crosses_threads<T: Send + Sync + Drop>(_value: T) {}

#[test]
fn links_and_readers_cross_threads(rt: HostRuntime) -> Result<(), Fail> {
    crosses_threads(link_over(rt.alloc(), b"0000", 4, &[], &[])?);
    crosses_threads(PktReader::new(rt.alloc())?);
    Ok(())
}

#[test]
fn faults_have_texts(rt: HostRuntime) -> Result<(), Fail> {
    let text = format!(in rt.alloc();
        "{}, {}, {}, {}, {}",
        NoMemory,
        TakeFault::Ended,
        WriteFault::Failed,
        PktFault::Truncated,
        PktFault::BadLength
    )?;
    assert_eq!(rt;
        text.as_str(),
        "out of memory, the input ended, write failed, packet cut off, bad packet length"
    );
    Ok(())
}
