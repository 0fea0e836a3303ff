// What heads say. The rows with 200 are heads as Git 2.39.5 sends them, with the user's field added.
use http::StatusCode;
use pktline_core::MemoryLink;
use request_head::{
    HeadFault, HttpFault, Media, read_head, read_request, refuse, write_response_head,
};
use std::alloc::Global;
use std::process::Abort;

fn link_over(rt: &impl Abort, alloc: Global, input: &[u8]) -> MemoryLink {
    MemoryLink::new(
        input.to_vec(alloc).expect(rt, "memory"),
        7,
        Vec::new(alloc),
        Vec::new(alloc),
    )
}

// The status that a request gets, 0 where its input ends before its head does.
fn status(rt: &impl Abort, alloc: Global, input: &[u8]) -> u16 {
    let mut link = link_over(rt, alloc, input);
    match read_head(alloc, &mut link) {
        Ok(head) => match read_request(alloc, &head).expect(rt, "memory") {
            Ok(_) => 200,
            Err(fault) => fault.status().as_u16(),
        },
        Err(HeadFault::TooLong) => HttpFault::HeadTooLong.status().as_u16(),
        Err(_) => 0,
    }
}

static ROWS: [(u16, &[u8]); 24] = [
    (
        200,
        b"GET /testing/info/refs?service=git-receive-pack HTTP/1.1\r\nX-Git-User: carol\r\n\r\n",
    ),
    (
        200,
        b"GET /testing.git/info/refs?service=git-upload-pack HTTP/1.1\nhost: h\nx-git-USER:carol\n\nrest",
    ),
    (
        200,
        b"\r\nGET /testing/info/refs?service=git-receive-pack HTTP/1.0\r\nX-Git-User: carol\r\n\r\n",
    ),
    (
        200,
        b"POST /a/b/git-receive-pack HTTP/1.1\r\nX-Git-User: carol\r\nContent-Type: application/x-git-receive-pack-request\r\nContent-Length: 312\r\n\r\n",
    ),
    (
        200,
        b"POST /a/git-upload-pack HTTP/1.1\r\nX-Git-User: carol\r\nContent-Type: application/x-git-upload-pack-request\r\nContent-Length: 000000000\r\n\r\n",
    ),
    (0, b""),
    (0, b"GET / HTTP/1.1\r\n\r"),
    (400, b"\n\nGET / HTTP/1.1\r\n\r\n"),
    (400, b"\n\r\n"),
    (400, b"GET / HTTP/2.0\r\n\r\n"),
    (404, b"GET / HTTP/1.1\r\n\r\n"),
    (
        404,
        b"GET /testing/info/refs HTTP/1.1\r\nX-Git-User: carol\r\n\r\n",
    ),
    (
        404,
        b"GET /../info/refs?service=git-upload-pack HTTP/1.1\r\nX-Git-User: carol\r\n\r\n",
    ),
    (
        405,
        b"HEAD /testing/info/refs?service=git-upload-pack HTTP/1.1\r\n\r\n",
    ),
    (
        405,
        b"get /testing/info/refs?service=git-upload-pack HTTP/1.1\r\n\r\n",
    ),
    (
        400,
        b"GET /testing/info/refs?service=git-upload-pack HTTP/1.1\r\n\r\n",
    ),
    (
        400,
        b"GET /testing/info/refs?service=git-upload-pack HTTP/1.1\r\nX-Git-User: a\r\nX-Git-User: a\r\n\r\n",
    ),
    (
        411,
        b"POST /a/git-upload-pack HTTP/1.1\r\nX-Git-User: carol\r\n\r\n",
    ),
    (
        411,
        b"POST /a/git-upload-pack HTTP/1.1\r\nX-Git-User: carol\r\nTransfer-Encoding: chunked\r\nContent-Length: 1\r\n\r\n",
    ),
    (
        400,
        b"POST /a/git-upload-pack HTTP/1.1\r\nX-Git-User: carol\r\nContent-Length: 1\r\nContent-Length: 1\r\n\r\n",
    ),
    (
        400,
        b"POST /a/git-upload-pack HTTP/1.1\r\nX-Git-User: carol\r\nContent-Length: 300000001\r\n\r\n",
    ),
    (
        400,
        b"POST /a/git-upload-pack HTTP/1.1\r\nX-Git-User: carol\r\nContent-Length: 0000000001\r\n\r\n",
    ),
    (
        415,
        b"POST /a/git-upload-pack HTTP/1.1\r\nX-Git-User: carol\r\nContent-Length: 300000000\r\n\r\n",
    ),
    (
        415,
        b"POST /a/git-upload-pack HTTP/1.1\r\nX-Git-User: carol\r\nContent-Length: 1\r\nContent-Type: application/x-git-receive-pack-request\r\n\r\n",
    ),
];

#[test]
fn heads_say_their_status(rt: HostRuntime) {
    let alloc = rt.alloc();
    for (wanted, input) in &ROWS {
        assert_eq!(rt; status(&rt, alloc, input), *wanted);
    }
}

#[test]
fn a_head_may_be_too_long(rt: HostRuntime) {
    let alloc = rt.alloc();
    let long = Vec::from_elem(alloc, b'a', 16_384).expect(&rt, "memory");
    assert_eq!(rt; status(&rt, alloc, &long), 431);
    assert_eq!(rt; status(&rt, alloc, long.split_at(16_383).0), 0);
}

#[test]
fn responses_are_written(rt: HostRuntime) {
    let alloc = rt.alloc();
    let mut link = link_over(&rt, alloc, b"");
    assert!(rt; refuse(&mut link, HttpFault::BadUser).is_ok());
    assert!(rt; write_response_head(&mut link, StatusCode::OK, Media::Text).is_ok());
    let wanted =
        b"HTTP/1.1 400 Bad Request\r\nContent-Type: text/plain\r\nCache-Control: no-cache\r\nConnection: close\r\n\r\nbad user\nHTTP/1.1 200 OK\r\nContent-Type: text/plain\r\nCache-Control: no-cache\r\nConnection: close\r\n\r\n";
    assert_eq!(rt; link.written(), wanted.as_slice());
}
