// `serve` and `http` over memory doors.
use crate::lone_tests::{USAGE, empty_disk, link, words};
use base_types::NoMemory;
use edge_links::MemoryDoor;
use hub::Hub;
use pktline_core::MemoryLink;
use session_core::OpenGate;
use session_samples::{DONE, EMPTY, MASTER, first_pack, first_push, push_of};
use session_workers::Post;
use shell_program::{ServerProtocol, shell_main};
use std::alloc::Global;
use std::sync::Wait;
use std::test::Fail;
use std::thread::Threads;

type MemoryPost = Post<MemoryDoor<MemoryLink>, OpenGate, Hub, ServerProtocol>;

// A post with one link, over which this input comes, and whose door fails at this call. It would serve
// requests if nobody said that it should serve anything else.
fn post(alloc: Global, input: Vec<u8>, failing: u64) -> Result<MemoryPost, NoMemory> {
    let mut links = Vec::new(alloc);
    links.push(MemoryLink::new(input, 7, Vec::new(alloc), Vec::new(alloc)))?;
    let mut calls = Vec::new(alloc);
    calls.push(failing)?;
    let door = MemoryDoor::new(alloc, links, calls)?;
    Ok(Post::new(door, OpenGate, ServerProtocol::Http))
}

// The first push of another branch.
fn topic_push(alloc: Global) -> Result<Vec<u8>, NoMemory> {
    let create = (
        b"0074".as_slice(),
        b"refs/heads/topic\0report-status".as_slice(),
    );
    push_of(alloc, &[create], &first_pack(alloc)?)
}

// Two posts; the second's door fails at this call.
fn two_posts(alloc: Global, failing: u64) -> Result<Vec<MemoryPost>, NoMemory> {
    let mut posts = Vec::new(alloc);
    posts.push(post(alloc, first_push(alloc)?, 9)?)?;
    posts.push(post(alloc, topic_push(alloc)?, failing)?)?;
    Ok(posts)
}

// The status and the output of `serve`, or `http`, with so many workers, of one link each.
fn served<R: Threads + Wait + Sync>(
    rt: &R,
    alloc: Global,
    command: &str,
    workers: &str,
    posts: &mut [MemoryPost],
) -> Result<(u8, Vec<u8>), Fail> {
    let given = [
        command,
        "--admin",
        "admin",
        "--workers",
        workers,
        "--sessions=1",
    ];
    let mut source = link(alloc, b"")?;
    let mut sink = link(alloc, b"")?;
    let ended = shell_main(
        rt,
        alloc,
        &words(alloc, &given)?,
        &mut source,
        &mut sink,
        posts,
        &mut empty_disk(alloc, 0)?,
    );
    Ok((ended.status, sink.written().to_vec(alloc)?))
}

#[test]
fn what_was_served_is_told_in_a_line(rt: HostRuntime) -> Result<(), Fail> {
    for (workers, failing, status, line) in [
        ("2", 9, 0, b"served 2 sessions, 4 events\n".as_slice()),
        ("2", 0, 5, b"served 1 sessions, 2 events\n".as_slice()),
        ("1", 0, 0, b"served 1 sessions, 2 events\n".as_slice()),
        ("3", 9, 1, USAGE),
    ] {
        let mut posts = two_posts(rt.alloc(), failing)?;
        let (ended, written) = served(&rt, rt.alloc(), "serve", workers, &mut posts)?;
        assert!(rt; ended == status && written.as_slice() == line);
    }
    Ok(())
}

const TOPIC: &[u8] =
    b"00671c73cda3964d5dd51bdaad94efd235c910cf59de refs/heads/topic\0report-status delete-refs no-thin atomic\n0000";

const TOPIC_DONE: &[u8] = b"000eunpack ok\n0018ok refs/heads/topic\n0000";

// Whether this advertisement and this report are what was written over the link that a post gave back.
fn is_told(post: Option<&MemoryPost>, refs: &[u8], report: &[u8]) -> bool {
    let Some(post) = post else {
        return false;
    };
    let Some(link) = post.door.served().get(0) else {
        return false;
    };
    link.written().strip_prefix(refs) == Some(report)
}

// Of two pushes at once the one whose opening comes behind the other push is told its branch. Where both
// openings come before either push, neither is.
#[test]
fn two_workers_write_what_some_order_has(rt: HostRuntime) -> Result<(), Fail> {
    let mut posts = two_posts(rt.alloc(), 9)?;
    let (status, _) = served(&rt, rt.alloc(), "serve", "2", &mut posts)?;
    let master_first = is_told(posts.get(0), EMPTY, DONE);
    let topic_first = is_told(posts.get(1), EMPTY, TOPIC_DONE);
    let topic_behind = is_told(posts.get(1), MASTER, TOPIC_DONE);
    let master_behind = is_told(posts.get(0), TOPIC, DONE);
    assert_eq!(rt; status, 0);
    assert!(rt; (master_first || master_behind) && (topic_first || topic_behind));
    assert!(rt; master_first || topic_first);
    Ok(())
}

// A request for the refs of a repository that nobody has pushed to.
const REQUEST: &[u8] =
    b"GET /testing.git/info/refs?service=git-upload-pack HTTP/1.1\r\nHost: a\r\nX-Git-User: carol\r\n\r\n";

const RESPONSE: &[u8] =
    b"HTTP/1.1 200 OK\r\nContent-Type: application/x-git-upload-pack-advertisement\r\nCache-Control: no-cache\r\nConnection: close\r\n\r\n001e# service=git-upload-pack\n0000";

// The same request is answered by `http`, and is no packet for `serve`; whatever the post served before.
#[test]
fn http_serves_requests_and_serve_sessions(rt: HostRuntime) -> Result<(), Fail> {
    for (command, protocol, line, written) in [
        (
            "http",
            ServerProtocol::Git,
            b"served 1 sessions, 1 events\n".as_slice(),
            RESPONSE,
        ),
        (
            "http",
            ServerProtocol::Http,
            b"served 1 sessions, 1 events\n".as_slice(),
            RESPONSE,
        ),
        (
            "serve",
            ServerProtocol::Http,
            b"served 1 sessions, 0 events\n".as_slice(),
            b"0017ERR malformed input".as_slice(),
        ),
    ] {
        let mut posts = Vec::new(rt.alloc());
        let mut post = post(rt.alloc(), REQUEST.to_vec(rt.alloc())?, 9)?;
        post.protocol = protocol;
        posts.push(post)?;
        let (status, printed) = served(&rt, rt.alloc(), command, "1", &mut posts)?;
        assert_eq!(rt; status, 0);
        assert!(rt; printed.as_slice() == line);
        let link = posts[0]
            .door
            .served()
            .get(0)
            .ok_or("a link that was given back")?;
        assert!(rt; link.written().starts_with(written));
    }
    Ok(())
}
