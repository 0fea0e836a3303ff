use super::*;
use conf_lex::UserName;
use edge_links::MemoryDoor;
use hub_journal::recover;
use pktline_core::MemoryLink;
use record_file::MemoryDisk;
use session_core::OpenGate;
use session_workers::Post;
use shell_program::ServerProtocol;
use std::alloc::Global;
use std::process::Abort;
use std::sync::Wait;
use std::thread::Threads;
use stored_hub::StoredHub;

// An opening, a create of a branch, and its pack of a commit and an empty tree.
const OPENING: &[u8] = b"0024carol git-receive-pack 'testing'";

const COMMAND: &[u8] =
    b"00750000000000000000000000000000000000000000 1c73cda3964d5dd51bdaad94efd235c910cf59de refs/heads/master\0report-status0000";

const COMMIT: &[u8] =
    b"tree 4b825dc642cb6eb9a060e54bf8d69288fbee4904\nauthor Carol <carol@example.com> 1700000000 +0000\ncommitter Carol <carol@example.com> 1700000000 +0000\n\nfirst\n";

const TRAILER: [u8; 20] = [
    0x64, 0xe5, 0x6d, 0xb6, 0x5e, 0x40, 0xed, 0x16, 0x0b, 0x3b, 0xd3, 0x40, 0x52, 0x5a, 0xb6, 0x1e,
    0x82, 0x69, 0xdb, 0xdb,
];

// How many links each of the two doors has.
const LINKS: usize = 2;

type MemoryPost = Post<MemoryDoor<MemoryLink>, OpenGate, StoredHub<MemoryDisk>, ServerProtocol>;

// What came of a run, and how many events are found again.
#[derive(Drop)]
struct Outcome {
    status: u8,
    logged: usize,
    stored: u64,
    printed: Vec<u8>,
    found: usize,
}

fn admin(rt: &impl Abort, alloc: Global) -> UserName {
    let name = UserName::parse(alloc, b"admin").expect(rt, "memory for a name");
    name.expect(rt, "a user's name")
}

fn push_input(alloc: Global) -> Result<Vec<u8>, NoMemory> {
    let mut input = OPENING.to_vec(alloc)?;
    input.extend_from_slice(COMMAND)?;
    input.extend_from_slice(b"PACK\0\0\0\x02\0\0\0\x02\x9c\x09")?;
    input.extend_from_slice(COMMIT)?;
    input.extend_from_slice(b"\x20")?;
    input.extend_from_slice(&TRAILER)?;
    Ok(input)
}

fn memory_link(alloc: Global, input: Vec<u8>) -> MemoryLink {
    MemoryLink::new(input, 7, Vec::new(alloc), Vec::new(alloc))
}

// Two posts, each with links on which the client writes this.
fn posts_of(alloc: Global, input: &[u8]) -> Result<Vec<MemoryPost>, NoMemory> {
    let mut posts = Vec::new(alloc);
    for _ in 0..2 {
        let mut links = Vec::new(alloc);
        for _ in 0..LINKS {
            links.push(memory_link(alloc, input.to_vec(alloc)?))?;
        }
        let door = MemoryDoor::new(alloc, links, Vec::new(alloc))?;
        posts.push(Post::new(door, OpenGate, ServerProtocol::Git))?;
    }
    Ok(posts)
}

// Two workers, whose clients write this, at a new disk, which fails at these of its calls.
fn run_host<R: Abort + Threads + Wait + Sync>(
    rt: &R,
    alloc: Global,
    input: &[u8],
    failing: Vec<u64>,
) -> Outcome {
    let admin = admin(rt, alloc);
    let disk = MemoryDisk::new(alloc, Vec::new(alloc), 4000, failing);
    let disk = disk.expect(rt, "memory for a disk");
    let mut posts = posts_of(alloc, input).expect(rt, "memory for posts");
    assert!(rt; posts.len() == 2);
    let mut output = memory_link(alloc, Vec::new(alloc));
    let ended = host_main(rt, alloc, &admin, &mut output, &mut posts, 5, disk);
    let disk = ended.disk.expect(rt, "memory to share a hub");
    let mut left = disk.stopped(64, 255).expect(rt, "memory for a disk");
    let found = match recover(alloc, &mut left, &admin) {
        Ok(recovered) => recovered.into_hub().log().len(),
        Err(_) => panic!(rt; "no journal"),
    };
    Outcome {
        status: ended.status,
        logged: ended.log.len(),
        stored: ended.stored,
        printed: output
            .written()
            .to_vec(alloc)
            .expect(rt, "memory for a line"),
        found,
    }
}

// Four openings, and the push that is done: stored are the openings before it, one or two, and the push. The
// three other pushes are refused.
#[test]
fn two_workers_store_what_changes(rt: HostRuntime) {
    let alloc = rt.alloc();
    let input = push_input(alloc).expect(&rt, "memory for a push");
    let failing = vec![in alloc; 10].expect(&rt, "memory for a number");
    let outcome = run_host(&rt, alloc, &input, failing);
    assert!(rt;
        outcome.status == 0
            && outcome.printed.as_slice() == b"served 4 sessions, 8 events\n".as_slice()
    );
    assert!(rt; outcome.logged == 8 && outcome.stored == 8);
    assert!(rt; outcome.found == 2 || outcome.found == 3);
}

// What a client asks that changes nothing: an opening for reading, one that is denied, and a look. Opening
// makes six calls of the disk, and none follows: a disk that would fail at the next one isn't asked.
#[test]
fn readers_ask_no_disk(rt: HostRuntime) {
    let alloc = rt.alloc();
    for input in [
        b"0023carol git-upload-pack 'testing'0000".as_slice(),
        b"002acarol git-upload-pack 'gitolite-admin'".as_slice(),
        b"000ecarol info".as_slice(),
    ] {
        let failing = vec![in alloc; 6].expect(&rt, "memory for a number");
        let outcome = run_host(&rt, alloc, input, failing);
        assert!(rt; outcome.status == 0 && outcome.logged == 4 && outcome.found == 0);
    }
}

// The call that fails: all that had to be stored is found, or nothing. Opening makes six calls, and the first
// push four. Before it one or two openings are answered; each worker ends behind the session that isn't.
#[test]
fn a_call_fails(rt: HostRuntime) {
    let alloc = rt.alloc();
    let input = push_input(alloc).expect(&rt, "memory for a push");
    for (number, is_found) in [(6, false), (8, false), (9, true)] {
        let failing = vec![in alloc; number].expect(&rt, "memory for a number");
        let outcome = run_host(&rt, alloc, &input, failing);
        assert!(rt;
            outcome.status == 8 && outcome.logged as u64 == outcome.stored.saturating_add(1)
        );
        assert!(rt; outcome.logged == 2 || outcome.logged == 3);
        let found = if is_found { outcome.logged } else { 0 };
        assert!(rt; outcome.found == found);
    }
}

// The session of `push_input` that creates a branch whose name ends with this byte.
fn push_of_branch(alloc: Global, last: u8) -> Result<Vec<u8>, NoMemory> {
    let mut input = push_input(alloc)?;
    if let Some(byte) = input.get_mut(OPENING.len() + 102) {
        *byte = last;
    }
    Ok(input)
}

// Four workers, each with a client who creates a branch: what a crash after each call of the disk leaves,
// whatever is in the bytes that aren't fixed. Opening makes six calls, and each push four. All eight events
// are found at last, and a later crash loses nothing that an earlier one left.
#[test]
fn stopped_after_each_call(rt: HostRuntime) {
    let alloc = rt.alloc();
    let admin = admin(&rt, alloc);
    let disk = MemoryDisk::new(alloc, Vec::new(alloc), 4000, Vec::new(alloc));
    let disk = disk.expect(&rt, "memory for a disk");
    let mut posts: Vec<MemoryPost> = Vec::new(alloc);
    for last in b"1234" {
        let mut links = Vec::new(alloc);
        let input = push_of_branch(alloc, *last).expect(&rt, "memory for a push");
        let pushed = links.push(memory_link(alloc, input));
        pushed.expect(&rt, "memory for a link");
        let door = MemoryDoor::new(alloc, links, Vec::new(alloc)).expect(&rt, "memory for a door");
        let pushed = posts.push(Post::new(door, OpenGate, ServerProtocol::Git));
        pushed.expect(&rt, "memory for a post");
    }
    assert!(rt; posts.len() == 4);
    let mut output = memory_link(alloc, Vec::new(alloc));
    let ended = host_main(&rt, alloc, &admin, &mut output, &mut posts, 1, disk);
    assert!(rt; ended.status == 0 && ended.log.len() == 8 && ended.stored == 8);
    let disk = ended.disk.expect(&rt, "memory to share a hub");
    for filler in [0, 255] {
        let mut found = 0;
        for calls in 6..24 {
            let mut left = disk.stopped(calls, filler).expect(&rt, "memory for a disk");
            let now = match recover(alloc, &mut left, &admin) {
                Ok(recovered) => recovered.into_hub().log().len(),
                Err(_) => panic!(rt; "no journal"),
            };
            assert!(rt; found <= now);
            found = now;
        }
        assert!(rt; found == 8);
    }
}

// What is said where the file isn't this admin's journal: by this admin's name, of a file with these bytes.
fn refused<R: Abort + Threads + Wait + Sync>(
    rt: &R,
    alloc: Global,
    name: &[u8],
    bytes: &[u8],
) -> Vec<u8> {
    let name = UserName::parse(alloc, name).expect(rt, "memory for a name");
    let name = name.expect(rt, "a user's name");
    let bytes = bytes.to_vec(alloc).expect(rt, "memory for bytes");
    let disk = MemoryDisk::new(alloc, bytes, 90, Vec::new(alloc));
    let disk = disk.expect(rt, "memory for a disk");
    let mut posts = posts_of(alloc, OPENING).expect(rt, "memory for posts");
    assert!(rt; posts.len() == 2);
    let mut output = memory_link(alloc, Vec::new(alloc));
    let ended = host_main(rt, alloc, &name, &mut output, &mut posts, 5, disk);
    assert!(rt; ended.status == 9 && ended.log.is_empty() && ended.disk.is_some());
    output
        .written()
        .to_vec(alloc)
        .expect(rt, "memory for a line")
}

// A file that is no journal, and one of another admin.
#[test]
fn a_refused_file(rt: HostRuntime) {
    let alloc = rt.alloc();
    let said = refused(&rt, alloc, b"admin", b"no journal");
    assert!(rt; said.as_slice() == b"not a journal\n".as_slice());
    let said = refused(&rt, alloc, b"carol", b"GITOLOG1\x05admin\0");
    assert!(rt; said.as_slice() == b"other admin\n".as_slice());
}

// A disk that has room for the head alone: the first push finds none, and the server ends.
#[test]
fn a_full_disk(rt: HostRuntime) {
    let alloc = rt.alloc();
    let admin = admin(&rt, alloc);
    let disk = MemoryDisk::new(alloc, Vec::new(alloc), 60, Vec::new(alloc));
    let disk = disk.expect(&rt, "memory for a disk");
    let input = push_input(alloc).expect(&rt, "memory for a push");
    let mut posts = posts_of(alloc, input.as_slice()).expect(&rt, "memory for posts");
    assert!(rt; posts.len() == 2);
    let mut output = memory_link(alloc, Vec::new(alloc));
    let ended = host_main(&rt, alloc, &admin, &mut output, &mut posts, 5, disk);
    assert!(rt; ended.status == 8 && ended.log.len() as u64 == ended.stored.saturating_add(1));
    let disk = ended.disk.expect(&rt, "memory to share a hub");
    let mut left = disk.stopped(60, 255).expect(&rt, "memory for a disk");
    let found = match recover(alloc, &mut left, &admin) {
        Ok(recovered) => recovered.into_hub().log().len(),
        Err(_) => panic!(rt; "no journal"),
    };
    assert!(rt; found == 0);
}

// A request for the refs of the repository of `push_input`.
const REQUEST: &[u8] =
    b"GET /testing/info/refs?service=git-upload-pack HTTP/1.1\r\nHost: a\r\nX-Git-User: carol\r\n\r\n";

// What one post is told whose client writes this, by this protocol at this disk, and the disk behind it.
fn told<R: Abort + Threads + Wait + Sync>(
    rt: &R,
    alloc: Global,
    protocol: ServerProtocol,
    input: &[u8],
    disk: MemoryDisk,
) -> (Vec<u8>, MemoryDisk) {
    let admin = admin(rt, alloc);
    let input = input.to_vec(alloc).expect(rt, "memory for an input");
    let links = vec![in alloc; memory_link(alloc, input)].expect(rt, "memory for a link");
    let door = MemoryDoor::new(alloc, links, Vec::new(alloc)).expect(rt, "memory for a door");
    let mut posts: Vec<MemoryPost> = Vec::new(alloc);
    let pushed = posts.push(Post::new(door, OpenGate, protocol));
    pushed.expect(rt, "memory for a post");
    assert!(rt; posts.len() == 1);
    let mut output = memory_link(alloc, Vec::new(alloc));
    let ended = host_main(rt, alloc, &admin, &mut output, &mut posts, 1, disk);
    assert!(rt; ended.status == 0);
    let link = posts[0]
        .door
        .served()
        .get(0)
        .expect(rt, "a link that was given back");
    let written = link
        .written()
        .to_vec(alloc)
        .expect(rt, "memory for a reply");
    (written, ended.disk.expect(rt, "memory to share a hub"))
}

// A request is told what a session pushed before the server was started again.
#[test]
fn a_request_is_told_what_a_session_pushed(rt: HostRuntime) {
    let alloc = rt.alloc();
    let disk = MemoryDisk::new(alloc, Vec::new(alloc), 4000, Vec::new(alloc));
    let disk = disk.expect(&rt, "memory for a disk");
    let input = push_input(alloc).expect(&rt, "memory for a push");
    let (report, disk) = told(&rt, alloc, ServerProtocol::Git, &input, disk);
    assert!(rt; report.ends_with(b"000eunpack ok\n0019ok refs/heads/master\n0000"));
    let (response, _) = told(&rt, alloc, ServerProtocol::Http, REQUEST, disk);
    assert!(rt; response.starts_with(b"HTTP/1.1 200 OK\r\n"));
    assert!(rt;
        response.ends_with(b"003f1c73cda3964d5dd51bdaad94efd235c910cf59de refs/heads/master\n0000")
    );
}

// The words of a call, its name first, and what they come to: workers, ports, sessions; of `report` zeros.
fn words(rt: &impl Abort, alloc: Global, words: &[&str]) -> Option<(usize, u16, Option<u16>, u64)> {
    let mut given = Vec::new(alloc);
    for word in words {
        let word = String::from_str(alloc, word).expect(rt, "memory for a word");
        given.push(word).expect(rt, "memory for words");
    }
    match read_words(alloc, given.as_slice()) {
        Ok(ProgramWords::Host(words)) => {
            Some((words.workers, words.port, words.http_port, words.sessions))
        },
        Ok(ProgramWords::Report) => Some((0, 0, None, 0)),
        Err(_) => None,
    }
}

#[test]
fn words_of_host(rt: HostRuntime) {
    let alloc = rt.alloc();
    let few = words(&rt, alloc, &["cerolimau", "host", "--admin", "root"]);
    assert!(rt; few == Some((8, 9418, None, 1_000_000_000_000_000)));
    let all = [
        "cerolimau",
        "host",
        "--admin=root",
        "--workers",
        "2",
        "--port",
        "80",
        "--http-port=81",
        "--sessions",
        "7",
    ];
    assert!(rt; words(&rt, alloc, &all) == Some((2, 80, Some(81), 7)));
    let far = ["cerolimau", "host", "--admin=root", "--http-port=65536"];
    assert!(rt; words(&rt, alloc, &far) == None);
    assert!(rt; words(&rt, alloc, &["cerolimau", "host"]) == None);
    assert!(rt; words(&rt, alloc, &["cerolimau", "--help"]) == None);
    assert!(rt; words(&rt, alloc, &["cerolimau", "report"]) == Some((0, 0, None, 0)));
    assert!(rt; words(&rt, alloc, &["cerolimau", "report", "a"]) == None);
}
