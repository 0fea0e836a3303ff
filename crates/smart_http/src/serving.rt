// A request.
ghost use Rattle.std.specs.Prelude.{◌≡◌, Err};
ghost use Rattle.pktline_core.specs.Links.{IsLater};
ghost use Rattle.hub.specs.Desk.{IsSound};
ghost use Rattle.hub_history.specs.History.{Stands};
ghost use Rattle.interaction_tree.specs.Growth.{GrowsBy, own_since};
ghost use Rattle.session_core.specs.End.{HaltHasCause, HaltIsSure};
ghost use Rattle.session_core.specs.Opening.{StandsSomewhere};
ghost use Rattle.session_core.specs.Rulebook.{ByRulebook};
ghost use Rattle.smart_http.specs.End.{TellsRequest, http_halt};
ghost use Rattle.smart_http.specs.Requests.{by_answer, entering, responding, want_of};
ghost use Rattle.smart_http.specs.Running.{IsSteady, RunsPart, RunsRequest, TakesRequest};

use crate::calls::call;
use crate::end::HttpEnd;
use crate::responses::{advertise, refuse_denied, refuse_head, refuse_with};
use access_check::Want;
use base_types::NoMemory;
use http::StatusCode;
use hub::{Desk, Entered, Pin};
use hub_history::hold_laws;
use pktline_core::Link;
use request_head::{HeadFault, HttpFault, HttpRequest, Service, read_head, read_request};
use session_core::PacketBuffer;
use std::alloc::Global;

// What a service wants of the repository.
fn want_of(service: Service) -> Want
    ensures { result ≡ want_of service }
{
    match service {
        Service::ReceivePack => Want::Write,
        Service::UploadPack => Want::Read,
    }
}

// What follows an opening: the refs or, by the length of a body, the rest of a session.
fn respond<L: Link, K: Desk>(
    alloc: Global,
    link: &mut L,
    desk: &mut K,
    buffer: &mut PacketBuffer,
    service: Service,
    body: Option<u64>,
    pin: Pin,
) -> HttpEnd
    requires stands { Stands pin (K.view desk.old).admin (K.view desk.old).seen }
    requires somewhere { StandsSomewhere pin }
    requires want { pin.pinned.want ≡ want_of service }
    ensures runs { RunsPart (L.state link.old) (L.state link.new) (K.view desk.old) (K.view desk.new) (λ book. responding book service pin body) (http_halt result) }
    ensures tells { TellsRequest (L.state link.old) (L.state link.new) result }
    ensures goes { K.goes_on desk.old desk.new }
{
    match body {
        None => advertise(alloc, link, service, &pin),
        Some(length) => call(alloc, link, desk, buffer, service, length, pin),
    }
}

// The opening, and the response.
fn serve_request<L: Link, K: Desk>(
    alloc: Global,
    link: &mut L,
    desk: &mut K,
    buffer: &mut PacketBuffer,
    request: HttpRequest,
) -> HttpEnd
    ensures runs { RunsPart (L.state link.old) (L.state link.new) (K.view desk.old) (K.view desk.new) (λ book. entering book ((K.view desk.old).admin) request) (http_halt result) }
    ensures tells { TellsRequest (L.state link.old) (L.state link.new) result }
    ensures goes { K.goes_on desk.old desk.new }
{
    // called for its clauses that the names of refs stay short, and that there is one list of rules in force
    hold_laws();
    let HttpRequest {
        user,
        repo,
        service,
        body,
    } = request;
    let want = want_of(service);
    match desk.enter(alloc, &user, &repo, want) {
        Entered::Granted(pin) => respond(alloc, link, desk, buffer, service, body, pin),
        Entered::Created(pin) => respond(alloc, link, desk, buffer, service, body, pin),
        Entered::Denied(verdict, conf) => {
            refuse_denied(alloc, link, &user, &repo, want, verdict.rule(conf.policy()))
        }
        Entered::NoRepo => refuse_with(
            link,
            StatusCode::NOT_FOUND,
            b"no such repository\n",
            HttpEnd::NoRepo,
        ),
        Entered::NoMemory => HttpEnd::NoMemory,
    }
}

// What a head says.
fn serve_answer<L: Link, K: Desk>(
    alloc: Global,
    link: &mut L,
    desk: &mut K,
    buffer: &mut PacketBuffer,
    answer: Result<HttpRequest, HttpFault>,
) -> HttpEnd
    ensures runs { RunsPart (L.state link.old) (L.state link.new) (K.view desk.old) (K.view desk.new) (λ book. by_answer answer book ((K.view desk.old).admin)) (http_halt result) }
    ensures tells { TellsRequest (L.state link.old) (L.state link.new) result }
    ensures goes { K.goes_on desk.old desk.new }
{
    match answer {
        Ok(request) => serve_request(alloc, link, desk, buffer, request),
        Err(fault) => refuse_head(link, fault),
    }
}

// A request.
fn serve<L: Link, K: Desk>(
    alloc: Global,
    link: &mut L,
    desk: &mut K,
    buffer: &mut PacketBuffer,
) -> HttpEnd
    ensures runs { RunsRequest (L.state link.old) (L.state link.new) (K.view desk.old) (K.view desk.new) result }
    ensures tells { TellsRequest (L.state link.old) (L.state link.new) result }
    ensures goes { K.goes_on desk.old desk.new }
{
    let head = match read_head(alloc, link) {
        Ok(head) => head,
        Err(HeadFault::TooLong) => return refuse_head(link, HttpFault::HeadTooLong),
        Err(HeadFault::Truncated) => return HttpEnd::Truncated,
        Err(HeadFault::ReadFault) => return HttpEnd::ReadFault,
        Err(HeadFault::NoMemory) => return HttpEnd::NoMemory,
    };
    match read_request(alloc, &head) {
        Ok(answer) => serve_answer(alloc, link, desk, buffer, answer),
        Err(NoMemory) => HttpEnd::NoMemory,
    }
}

/// Serves one request, up to its end.
pub fn serve_http<L: Link, K: Desk>(
    alloc: Global,
    link: &mut L,
    desk: &mut K,
    buffer: &mut PacketBuffer,
) -> HttpEnd
    ensures turn { ByRulebook (K.view desk.old).admin (K.view desk.new).seen (λ book. IsSteady (L.state link.old) → TakesRequest book ((K.view desk.old).admin) (L.state link.old) (L.state link.new) (own_since (K.view desk.old) (K.view desk.new)) result) }
    ensures tells { TellsRequest (L.state link.old) (L.state link.new) result }
    ensures grows { GrowsBy (K.view desk.old) (K.view desk.new) (own_since (K.view desk.old) (K.view desk.new)) }
    ensures sound { IsSound (K.view desk.new) }
    ensures goes { K.goes_on desk.old desk.new }
    ensures causes { HaltHasCause (L.state link.old) (L.state link.new) (http_halt result) }
    ensures sure { HaltIsSure (L.state link.old) (L.state link.new) (http_halt result) }
    ensures later { IsLater (L.state link.old) (L.state link.new) }
{
    // called for its clause that what was seen is legal
    desk.sound();
    serve(alloc, link, desk, buffer)
}
