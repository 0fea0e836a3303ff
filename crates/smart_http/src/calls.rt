// The rest of a session, as the body of a request.
ghost use Rattle.std.specs.Prelude.{◌≡◌, Err, false, true};
ghost use Rattle.hub.specs.Desk.{DeskView};
ghost use Rattle.hub_history.specs.History.{Stands};
ghost use Rattle.interaction_tree.specs.Interaction.{limits};
ghost use Rattle.session_core.specs.Opening.{StandsSomewhere};
ghost use Rattle.smart_http.specs.End.{TellsRequest, http_halt, received_end, uploaded_end};
ghost use Rattle.smart_http.specs.Requests.{body_of, calling, receiving, uploading, want_of};
ghost use Rattle.smart_http.specs.Running.{RunsPart};

use crate::end::HttpEnd;
use crate::responses::{end_before, write_head};
use hub::{Desk, Pin};
use pktline_core::{Link, PktReader};
use receive_pack::receive_commands;
use request_head::{Limited, Media, Service};
use session_core::{PacketBuffer, SessionEnd};
use std::alloc::Global;
use upload_pack::{FetchEnd, upload_wants};

// How a push ends its request. Where all of the body was given no read can have failed.
fn received(served: Result<(), SessionEnd>, spent: bool) -> HttpEnd
    ensures { result ≡ received_end served spent }
{
    match served {
        Ok(()) => HttpEnd::Received(SessionEnd::Served),
        Err(SessionEnd::ReadFault) if spent => HttpEnd::NoMemory,
        Err(end) => HttpEnd::Received(end),
    }
}

// How a fetch ends its request.
fn uploaded(served: Result<FetchEnd, SessionEnd>, spent: bool) -> HttpEnd
    ensures { result ≡ uploaded_end served spent }
{
    match served {
        Ok(FetchEnd::Served) => HttpEnd::Uploaded(SessionEnd::Served),
        Ok(FetchEnd::NotOurRef(id)) => HttpEnd::Uploaded(SessionEnd::NotOurRef(id)),
        Err(SessionEnd::ReadFault) if spent => HttpEnd::NoMemory,
        Err(end) => HttpEnd::Uploaded(end),
    }
}

// A push, in the first so many bytes.
fn receive_body<L: Link, K: Desk>(
    alloc: Global,
    link: &mut L,
    desk: &mut K,
    reader: &mut PktReader,
    length: u64,
    pin: Pin,
) -> HttpEnd
    requires begins { reader.old.offset ≡ 0 }
    requires ready { reader.old.failed ≡ false }
    requires stands { Stands pin (K.view desk.old).admin (K.view desk.old).seen }
    requires write { pin.pinned.want ≡ want_of Service.ReceivePack }
    ensures runs { RunsPart (L.state link.old) (L.state link.new) (K.view desk.old) (K.view desk.new) (λ book. limits length (receiving book pin)) (http_halt result) }
    ensures tells { TellsRequest (L.state link.old) (L.state link.new) result }
    ensures goes { K.goes_on desk.old desk.new }
{
    let mut body = Limited::new(link, length);
    let served = receive_commands(alloc, &mut body, desk, reader, pin);
    let spent = body.is_spent();
    received(served, spent)
}

// A fetch, in the first so many bytes.
fn upload_body<L: Link>(
    alloc: Global,
    link: &mut L,
    reader: &mut PktReader,
    length: u64,
    pin: &Pin,
) -> HttpEnd
    requires begins { reader.old.offset ≡ 0 }
    requires ready { reader.old.failed ≡ false }
    ensures runs { (desk : DeskView) → RunsPart (L.state link.old) (L.state link.new) desk desk (λ book. limits length (uploading pin.now)) (http_halt result) }
    ensures tells { TellsRequest (L.state link.old) (L.state link.new) result }
{
    let mut body = Limited::new(link, length);
    let served = upload_wants(alloc, &mut body, reader, pin);
    let spent = body.is_spent();
    uploaded(served, spent)
}

// The rest of the session, by its service.
fn read_body<L: Link, K: Desk>(
    alloc: Global,
    link: &mut L,
    desk: &mut K,
    reader: &mut PktReader,
    service: Service,
    length: u64,
    pin: Pin,
) -> HttpEnd
    requires begins { reader.old.offset ≡ 0 }
    requires ready { reader.old.failed ≡ false }
    requires stands { Stands pin (K.view desk.old).admin (K.view desk.old).seen }
    requires want { pin.pinned.want ≡ want_of service }
    ensures runs { RunsPart (L.state link.old) (L.state link.new) (K.view desk.old) (K.view desk.new) (λ book. limits length (body_of book service pin)) (http_halt result) }
    ensures tells { TellsRequest (L.state link.old) (L.state link.new) result }
    ensures goes { K.goes_on desk.old desk.new }
{
    match service {
        Service::ReceivePack => receive_body(alloc, link, desk, reader, length, pin),
        Service::UploadPack => upload_body(alloc, link, reader, length, &pin),
    }
}

// The rest of the session.
fn take_body<L: Link, K: Desk>(
    alloc: Global,
    link: &mut L,
    desk: &mut K,
    buffer: &mut PacketBuffer,
    service: Service,
    length: u64,
    pin: Pin,
) -> HttpEnd
    requires stands { Stands pin (K.view desk.old).admin (K.view desk.old).seen }
    requires want { pin.pinned.want ≡ want_of service }
    ensures runs { RunsPart (L.state link.old) (L.state link.new) (K.view desk.old) (K.view desk.new) (λ book. limits length (body_of book service pin)) (http_halt result) }
    ensures tells { TellsRequest (L.state link.old) (L.state link.new) result }
    ensures goes { K.goes_on desk.old desk.new }
{
    let Ok(mut reader) = buffer.take_reader(alloc) else {
        return HttpEnd::NoMemory;
    };
    let end = read_body(alloc, link, desk, &mut reader, service, length, pin);
    buffer.put_back(reader);
    end
}

/// Answers with the rest of a session, whose input is the first so many bytes behind the head.
pub fn call<L: Link, K: Desk>(
    alloc: Global,
    link: &mut L,
    desk: &mut K,
    buffer: &mut PacketBuffer,
    service: Service,
    length: u64,
    pin: Pin,
) -> HttpEnd
    requires stands { Stands pin (K.view desk.old).admin (K.view desk.old).seen }
    requires want { pin.pinned.want ≡ want_of service }
    ensures runs { RunsPart (L.state link.old) (L.state link.new) (K.view desk.old) (K.view desk.new) (λ book. calling book service pin length) (http_halt result) }
    ensures tells { TellsRequest (L.state link.old) (L.state link.new) result }
    ensures goes { K.goes_on desk.old desk.new }
{
    match write_head(link, Media::Answer(service)) {
        Ok(()) => take_body(alloc, link, desk, buffer, service, length, pin),
        Err(end) => end_before(end),
    }
}
