// One test of each edge, over the system, and of the door over memory, through its bound.
use edge_links::{Door, FileDisk, MemoryDoor, Next, StdSink, StdSource, TcpDoor, TcpLink};
use pktline_core::{Link, MemoryLink, Put, Sink, Source, Taken};
use record_file::{Disk, DiskFault};
use std::alloc::Global;
use std::fs::{File, remove_file};
use std::io::{ErrorKind, Read, Write};
use std::net::{Shutdown, TcpListener, TcpStream};
use std::process::Abort;
use std::sync::atomic::AtomicU64;
use std::sync::atomic::Ordering::SeqCst;
use std::time::Duration;
use std::{io, process};

fn link_over(rt: &impl Abort, alloc: Global, input: &[u8]) -> MemoryLink {
    MemoryLink::new(
        input.to_vec(alloc).expect(rt, "memory for the input"),
        65_536,
        Vec::new(alloc),
        Vec::new(alloc),
    )
}

fn door_over(
    rt: &impl Abort,
    alloc: Global,
    inputs: &[&[u8]],
    failing: &[u64],
) -> MemoryDoor<MemoryLink> {
    let mut links = Vec::new(alloc);
    for input in inputs {
        let link = link_over(rt, alloc, input);
        links.push(link).expect(rt, "memory for a link");
    }
    let failing = failing.to_vec(alloc).expect(rt, "memory for a few numbers");
    MemoryDoor::new(alloc, links, failing).expect(rt, "memory for a door")
}

// Takes a link and gives it back.
fn serve_next<L: Link, D: Door<L>>(door: &mut D) -> u8 {
    match door.next() {
        Next::Link(link) => {
            door.done(link);
            b'l'
        }
        Next::Closed => b'c',
        Next::Failed => b'f',
    }
}

// What goes to another thread.
fn sent<T: Send>(it: T) -> T {
    it
}

#[test]
fn a_memory_door_serves_its_links_in_order(rt: HostRuntime) {
    let inputs: [&[u8]; 2] = [b"first", b"second"];
    let mut door = sent(door_over(&rt, rt.alloc(), &inputs, &[0, 2, 4]));
    for answer in b"flflfcc" {
        assert_eq!(rt; serve_next(&mut door), *answer);
    }
    let served = door.served();
    assert_eq!(rt; served.len(), 2);
    assert_eq!(rt; served[0].left(), b"first".as_slice());
    assert_eq!(rt; served[1].left(), b"second".as_slice());
}

#[test]
fn what_a_pipe_gives_is_taken_up_to_its_end(rt: HostRuntime) {
    let (reader, mut writer) = io::pipe(&rt).expect(&rt, "a pipe");
    let mut source = StdSource::new(reader);
    let mut room = [0u8; 4];
    send(&rt, &mut writer, b"hello");
    drop(writer);
    assert!(rt; source.take(&mut room) == Taken::Got(4));
    assert_eq!(rt; room, *b"hell");
    assert!(rt; source.take(&mut room) == Taken::Got(1));
    assert_eq!(rt; room[0], b'o');
    assert!(rt; source.take(&mut room) == Taken::End);
    let mut folder = StdSource::new(File::open(&rt, "/").expect(&rt, "a folder"));
    assert!(rt; folder.take(&mut room) == Taken::Failed);
}

#[test]
fn what_is_put_into_a_pipe_is_in_it_at_once(rt: HostRuntime) {
    let (reader, writer) = io::pipe(&rt).expect(&rt, "a pipe");
    let mut sink = StdSink::new(writer);
    let mut source = StdSource::new(reader);
    let mut room = [0u8; 5];
    assert!(rt; sink.put(b"hello") == Put::Took(5));
    assert!(rt; source.take(&mut room) == Taken::Got(5));
    assert_eq!(rt; room, *b"hello");
    drop(source);
    assert!(rt; sink.put(b"hello") == Put::Failed);
}

// A stream that fails at its first call, counts its calls, and then moves a byte with each.
#[derive(Drop)]
struct FailsOnce<'a> {
    calls: &'a AtomicU64,
}

impl FailsOnce<'_> {
    fn is_first(&self) -> bool {
        self.calls.fetch_add(1, SeqCst) == 0
    }
}

impl Read for FailsOnce<'_> {
    fn read(&mut self, buf: &mut [u8]) -> io::Result<usize> {
        if self.is_first() {
            return Err(io::Error::from(ErrorKind::Interrupted));
        }
        match buf.first_mut() {
            Some(first) => {
                *first = b'x';
                Ok(1)
            }
            None => Ok(0),
        }
    }
}

impl Write for FailsOnce<'_> {
    fn write(&mut self, buf: &[u8]) -> io::Result<usize> {
        if self.is_first() {
            return Err(io::Error::from(ErrorKind::Interrupted));
        }
        Ok(buf.len().min(1))
    }

    fn flush(&mut self) -> io::Result<()> {
        Ok(())
    }
}

// Each call of a source or sink is one of its stream: a failed one is told and not made again.
#[test]
fn a_failed_call_is_told_at_once(rt: HostRuntime) {
    let reads = AtomicU64::new(0);
    let mut source = StdSource::new(FailsOnce { calls: &reads });
    let mut room = [0u8; 4];
    assert!(rt; source.take(&mut room) == Taken::Failed);
    assert_eq!(rt; reads.load(SeqCst), 1);
    assert!(rt; source.take(&mut room) == Taken::Got(1));
    assert_eq!(rt; reads.load(SeqCst), 2);
    assert_eq!(rt; room, [b'x', 0, 0, 0]);
    let writes = AtomicU64::new(0);
    let mut sink = StdSink::new(FailsOnce { calls: &writes });
    assert!(rt; sink.put(b"hello") == Put::Failed);
    assert_eq!(rt; writes.load(SeqCst), 1);
    assert!(rt; sink.put(b"hello") == Put::Took(1));
    assert_eq!(rt; writes.load(SeqCst), 2);
}

// A listener, and a client that waits to be accepted.
fn client_of(rt: &HostRuntime) -> Option<(TcpListener, TcpStream)> {
    let listener = TcpListener::bind(rt, "127.0.0.1:0").ok()?;
    let address = listener.local_addr().ok()?;
    let client = TcpStream::connect(rt, address).ok()?;
    Some((listener, client))
}

// The other end of the client that waits.
fn accepted(rt: &impl Abort, listener: &TcpListener) -> TcpStream {
    let (stream, _) = listener.accept().expect(rt, "a client");
    stream
}

fn again(rt: &impl Abort, stream: &TcpStream) -> TcpStream {
    stream.try_clone().expect(rt, "another handle")
}

fn linked(rt: &impl Abort, alloc: Global, stream: TcpStream) -> TcpLink {
    TcpLink::new(alloc, stream).expect(rt, "memory for a link")
}

fn send(rt: &impl Abort, to: &mut impl Write, bytes: &[u8]) {
    to.write_all(bytes).expect(rt, "an open stream");
}

// How many bytes are there.
fn read_once(rt: &impl Abort, from: &mut impl Read, room: &mut [u8]) -> usize {
    from.read(room).expect(rt, "an open stream")
}

fn shut(rt: &impl Abort, stream: &TcpStream, side: Shutdown) {
    stream.shutdown(side).expect(rt, "an open stream");
}

// Whether a read would have to wait.
fn is_empty(rt: &impl Abort, stream: &mut TcpStream) -> bool {
    stream.set_nonblocking(true).expect(rt, "an open stream");
    let mut room = [0u8; 8];
    let early = stream.read(&mut room).map_err(|error| error.kind());
    stream.set_nonblocking(false).expect(rt, "an open stream");
    early == Err(ErrorKind::WouldBlock)
}

#[test]
fn a_tcp_link_gathers_what_is_put_until_it_is_read(rt: HostRuntime) {
    let (listener, mut client) = client_of(&rt).expect(&rt, "a client");
    let stream = accepted(&rt, &listener);
    let near = again(&rt, &stream);
    let mut link = sent(linked(&rt, rt.alloc(), stream));
    let mut room = [0u8; 8];
    assert!(rt; near.nodelay().expect(&rt, "an open stream"));
    assert!(rt; link.put(b"0009") == Put::Took(4));
    assert!(rt; link.put(b"hello") == Put::Took(5));
    assert!(rt; is_empty(&rt, &mut client));
    send(&rt, &mut client, b"0000more");
    assert!(rt; link.take(room.split_at_mut(4).0) == Taken::Got(4));
    assert_eq!(rt; room, *b"0000\0\0\0\0");
    assert_eq!(rt; read_once(&rt, &mut client, &mut room), 8);
    assert_eq!(rt; room, *b"0009hell");
    // what is gathered can't be sent any more
    assert!(rt; link.put(b"lost") == Put::Took(4));
    shut(&rt, &near, Shutdown::Both);
    assert!(rt; link.take(&mut room) == Taken::Failed);
    assert!(rt; link.put(b"lost") == Put::Failed);
}

#[test]
fn a_tcp_link_reads_on_behind_the_last_reply(rt: HostRuntime) {
    let (listener, mut client) = client_of(&rt).expect(&rt, "a client");
    let stream = accepted(&rt, &listener);
    let mut near = again(&rt, &stream);
    let mut link = linked(&rt, rt.alloc(), stream);
    let mut room = [0u8; 4];
    send(&rt, &mut client, &[b'x'; 100_000]);
    shut(&rt, &client, Shutdown::Write);
    assert!(rt; link.take(&mut room) == Taken::Got(4));
    assert!(rt; link.put(b"refused") == Put::Took(7));
    link.close();
    // nothing is left unread, and the reply has its end, though another handle of the connection is open
    assert_eq!(rt; read_once(&rt, &mut near, &mut room), 0);
    let limit = client.set_read_timeout(Some(Duration::from_secs(5)));
    limit.expect(&rt, "an open stream");
    let mut reply = Vec::new(rt.alloc());
    let read = client.read_to_end(&mut reply);
    assert_eq!(rt; read.expect(&rt, "an open stream"), 7);
    assert_eq!(rt; reply.as_slice(), b"refused".as_slice());
}

#[test]
fn a_tcp_door_gives_the_connections_of_its_listener(rt: HostRuntime) {
    let (listener, mut client) = client_of(&rt).expect(&rt, "a client");
    shut(&rt, &client, Shutdown::Write);
    let mut door = sent(TcpDoor::new(rt.alloc(), Some(&listener)));
    assert_eq!(rt; serve_next(&mut door), b'l');
    let mut room = [0u8; 4];
    assert_eq!(rt; read_once(&rt, &mut client, &mut room), 0);
    assert_eq!(rt; door.unsent(), 0);
    let mut unbound = TcpDoor::new(rt.alloc(), None);
    assert_eq!(rt; serve_next(&mut unbound), b'f');
    assert_eq!(rt; serve_next(&mut unbound), b'f');
}

// Serves the next link of a door, whose client then goes: what is sent first is answered by a reset, so that
// what is left at the end can't be sent.
fn serve_one_that_goes(rt: &impl Abort, door: &mut TcpDoor<'_>, client: TcpStream) {
    match door.next() {
        Next::Link(mut link) => {
            drop(client);
            write_to_none(rt, &mut link);
            door.done(link);
        }
        Next::Closed | Next::Failed => panic!(rt; "no link"),
    }
}

fn write_to_none(rt: &impl Abort, link: &mut TcpLink) {
    let mut room = [0u8; 4];
    assert!(rt; link.put(b"early") == Put::Took(5));
    assert!(rt; link.take(&mut room) == Taken::End);
    assert!(rt; link.put(b"late") == Put::Took(4));
}

#[test]
fn a_tcp_door_counts_a_reply_that_could_not_be_sent(rt: HostRuntime) {
    let (listener, client) = client_of(&rt).expect(&rt, "a client");
    let mut door = TcpDoor::new(rt.alloc(), Some(&listener));
    serve_one_that_goes(&rt, &mut door, client);
    assert_eq!(rt; door.unsent(), 1);
}

// What is done on a disk with an empty file: four bytes are written and one more, one is cut off, and the
// rest is read.
fn write_cut_and_read(disk: &mut impl Disk) -> Result<[u8; 4], DiskFault> {
    disk.write_at(0, b"abcd")?;
    disk.write_at(4, b"e")?;
    disk.sync()?;
    disk.cut(4)?;
    let mut room = [0u8; 4];
    disk.read(0, &mut room)?;
    Ok(room)
}

#[test]
fn a_file_disk_keeps_its_file_for_itself(rt: HostRuntime) {
    let name = format!(in rt.alloc(); "/tmp/file-disk-{}", process::id(rt.process()));
    let name = name.expect(&rt, "memory for a name");
    let path = name.as_str();
    let mut disk = FileDisk::open(&rt, path).expect(&rt, "a new file");
    assert!(rt; disk.len() == Ok(0));
    assert!(rt; write_cut_and_read(&mut disk) == Ok(*b"abcd"));
    let second = FileDisk::open(&rt, path).err().map(|error| error.kind());
    assert!(rt; second == Some(ErrorKind::WouldBlock));
    drop(disk);
    let mut again = FileDisk::open(&rt, path).expect(&rt, "the file");
    assert!(rt; again.len() == Ok(4));
    assert!(rt; write_cut_and_read(&mut FileDisk::missing()) == Err(DiskFault));
    remove_file(&rt, path).expect(&rt, "the file");
}
