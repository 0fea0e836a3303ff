// Requests of Git's smart HTTP over a link of memory and the only desk of a new hub.
use crate::git_session_tests::new_desk;
use hub::{EnterKept, LoneDesk, NoMemory, Verdict};
use pktline_core::MemoryLink;
use request_head::HttpFault;
use session_core::{PacketBuffer, SessionEnd};
use session_samples::{DONE, EMPTY, MASTER, first_push, is_answered};
use smart_http::{HttpEnd, serve_http};
use std::alloc::Global;
use std::test::Fail;

const GET: &[u8] =
    b"GET /testing/info/refs?service=git-receive-pack HTTP/1.1\r\nX-Git-User: carol\r\n\r\n";

const POST: &[u8] =
    b"POST /testing/git-receive-pack HTTP/1.1\r\nX-Git-User: carol\r\nContent-Type: application/x-git-receive-pack-request\r\nContent-Length: 312\r\n\r\n";

// A call whose body is a flush, and bytes behind it.
const FLUSH: &[u8] =
    b"POST /testing/git-upload-pack HTTP/1.1\r\nX-Git-User: carol\r\nContent-Type: application/x-git-upload-pack-request\r\nContent-Length: 4\r\n\r\n0000behind";

const RECEIVED: &[u8] =
    b"HTTP/1.1 200 OK\r\nContent-Type: application/x-git-receive-pack-result\r\nCache-Control: no-cache\r\nConnection: close\r\n\r\n";

const UPLOADED: &[u8] =
    b"HTTP/1.1 200 OK\r\nContent-Type: application/x-git-upload-pack-result\r\nCache-Control: no-cache\r\nConnection: close\r\n\r\n";

const ADVERTISED: &[u8] =
    b"HTTP/1.1 200 OK\r\nContent-Type: application/x-git-receive-pack-advertisement\r\nCache-Control: no-cache\r\nConnection: close\r\n\r\n001f# service=git-receive-pack\n0000";

// The request that pushes: the head, and what is behind the first packet of a session that does.
fn push_request(alloc: Global) -> Result<Vec<u8>, NoMemory> {
    let mut input = POST.to_vec(alloc)?;
    let push = first_push(alloc)?;
    if let Some((_, body)) = push.split_at_checked(36) {
        input.extend_from_slice(body)?;
    }
    Ok(input)
}

fn joined(alloc: Global, front: &[u8], back: &[u8]) -> Result<Vec<u8>, NoMemory> {
    let mut all = front.to_vec(alloc)?;
    all.extend_from_slice(back)?;
    Ok(all)
}

// The end of a request over such an input, and what was written, over a link that moves so many bytes a call
// and fails at these.
fn serve(
    alloc: Global,
    desk: &mut LoneDesk,
    input: &[u8],
    most: usize,
    takes: &[u64],
    puts: &[u64],
) -> Result<(HttpEnd, Vec<u8>), NoMemory> {
    let mut link = MemoryLink::new(
        input.to_vec(alloc)?,
        most.max(1),
        takes.to_vec(alloc)?,
        puts.to_vec(alloc)?,
    );
    let end = serve_http(alloc, &mut link, desk, &mut PacketBuffer::new());
    let written = link.written().to_vec(alloc)?;
    Ok((end, written))
}

// Whether a request ends so, and just these two parts are written.
fn is_served(
    alloc: Global,
    desk: &mut LoneDesk,
    input: &[u8],
    due: HttpEnd,
    front: &[u8],
    back: &[u8],
) -> Result<bool, NoMemory> {
    let (end, written) = serve(alloc, desk, input, 65_520, &[], &[])?;
    let all = joined(alloc, front, back)?;
    Ok(end == due && written.as_slice() == all.as_slice())
}

#[test]
fn requests_are_answered_to_the_byte(rt: HostRuntime) -> Result<(), Fail> {
    let alloc = rt.alloc();
    let mut desk = new_desk(alloc)?;
    let push = push_request(alloc)?;
    assert!(rt;
        is_served(
            alloc,
            &mut desk,
            GET,
            HttpEnd::Advertised,
            ADVERTISED,
            EMPTY
        )?
    );
    let received = HttpEnd::Received(SessionEnd::Served);
    assert!(rt; is_served(alloc, &mut desk, &push, received, RECEIVED, DONE)?);
    assert!(rt;
        is_served(
            alloc,
            &mut desk,
            GET,
            HttpEnd::Advertised,
            ADVERTISED,
            MASTER
        )?
    );
    let uploaded = HttpEnd::Uploaded(SessionEnd::Served);
    assert!(rt; is_served(alloc, &mut desk, FLUSH, uploaded, UPLOADED, b"")?);
    let log = desk.into_hub().into_log();
    // an opening for each, and the push
    assert_eq!(rt; log.len(), 5);
    Ok(())
}

// Only a denial leaves an entry.
#[test]
fn refusals_are_answered_to_the_byte(rt: HostRuntime) -> Result<(), Fail> {
    let alloc = rt.alloc();
    let mut desk = new_desk(alloc)?;
    for (input, end, status, text) in [
        (
            b"GET /gitolite-admin/info/refs?service=git-receive-pack HTTP/1.1\r\nX-Git-User: carol\r\n\r\n".as_slice(),
            HttpEnd::Denied,
            b"403 Forbidden".as_slice(),
            b"W any gitolite-admin carol DENIED by fallthru\n".as_slice(),
        ),
        (
            b"GET /testing/info/refs?service=git-receive-pack HTTP/1.1\r\n\r\n",
            HttpEnd::Refused(HttpFault::BadUser),
            b"400 Bad Request",
            b"bad user\n",
        ),
        (
            b"POST /testing/git-receive-pack HTTP/1.1\r\nX-Git-User: carol\r\nTransfer-Encoding: chunked\r\n\r\n0\r\n\r\n",
            HttpEnd::Refused(HttpFault::NoLength),
            b"411 Length Required",
            b"no length\n",
        ),
        (
            b"\n\n",
            HttpEnd::Refused(HttpFault::BadHead),
            b"400 Bad Request",
            b"bad head\n",
        ),
    ] {
        let mut front = b"HTTP/1.1 ".to_vec(alloc)?;
        front.extend_from_slice(status)?;
        front.extend_from_slice(
            b"\r\nContent-Type: text/plain\r\nCache-Control: no-cache\r\nConnection: close\r\n\r\n",
        )?;
        assert!(rt; is_served(alloc, &mut desk, input, end, &front, text)?);
    }
    let log = desk.into_hub().into_log();
    assert_eq!(rt; log.len(), 1);
    assert!(rt; is_answered(&log, 0, EnterKept::Denied(Verdict::Fallthru)));
    Ok(())
}

// Wherever a push is cut off: inside the head nothing is entered or written, behind it the head of the
// response is there, and the ref isn't.
#[test]
fn a_request_is_cut_at_every_byte(rt: HostRuntime) -> Result<(), Fail> {
    let alloc = rt.alloc();
    let push = push_request(alloc)?;
    for cut in 0..push.len() {
        let mut desk = new_desk(alloc)?;
        let Some((input, _)) = push.split_at_checked(cut) else {
            unreachable!()
        };
        let (end, written) = serve(alloc, &mut desk, input, 7, &[], &[])?;
        let entries = desk.into_hub().into_log().len();
        if cut < POST.len() {
            assert!(rt;
                end == HttpEnd::Truncated && written.is_empty() && entries == 0,
                "cut {cut}"
            );
        } else {
            assert!(rt; end != HttpEnd::Received(SessionEnd::Served), "cut {cut}");
            assert!(rt; written.starts_with(RECEIVED) && entries == 1, "cut {cut}");
        }
    }
    Ok(())
}

#[test]
fn each_read_that_fails_ends_a_request(rt: HostRuntime) -> Result<(), Fail> {
    let alloc = rt.alloc();
    let push = push_request(alloc)?;
    for call in 0..push.len() {
        let mut desk = new_desk(alloc)?;
        let (end, written) = serve(alloc, &mut desk, &push, 1, &[call as u64], &[])?;
        let entries = desk.into_hub().into_log().len();
        let (due, size, made) = if call < POST.len() {
            (HttpEnd::ReadFault, 0, 0)
        } else {
            (HttpEnd::Received(SessionEnd::ReadFault), RECEIVED.len(), 1)
        };
        assert!(rt;
            (end, written.len(), entries) == (due, size, made),
            "take {call}"
        );
    }
    // behind the last byte nothing is read
    let mut desk = new_desk(alloc)?;
    let (end, _) = serve(alloc, &mut desk, &push, 1, &[push.len() as u64], &[])?;
    assert!(rt; end == HttpEnd::Received(SessionEnd::Served));
    Ok(())
}

#[test]
fn each_write_that_fails_ends_a_request(rt: HostRuntime) -> Result<(), Fail> {
    let alloc = rt.alloc();
    let push = push_request(alloc)?;
    for call in 0..RECEIVED.len().saturating_add(DONE.len()) {
        let mut desk = new_desk(alloc)?;
        let (end, written) = serve(alloc, &mut desk, &push, 1, &[], &[call as u64])?;
        let (due, made) = if call < RECEIVED.len() {
            (HttpEnd::WriteFault, 1)
        } else {
            (HttpEnd::Received(SessionEnd::WriteFault), 2)
        };
        assert!(rt;
            (end, written.len(), desk.into_hub().into_log().len()) == (due, call, made),
            "put {call}"
        );
    }
    Ok(())
}
