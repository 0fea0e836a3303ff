// Responses without the rest of a session.
ghost use Rattle.std.specs.Prelude.{◌≡◌, ◌≤◌, ◌++◌, IfOk, Ok, codes, length};
ghost use Rattle.std.specs.Option.{option_copied};
ghost use Rattle.pktline_core.specs.Links.{IsLater, KeepsReading, TellsWriting, Writes};
ghost use Rattle.interaction_tree.specs.Interaction.{write};
ghost use Rattle.interaction_tree.specs.Traces.{Ended, halt_as};
ghost use Rattle.request_head.specs.Responses.{refusal, response_head};
ghost use Rattle.session_core.specs.Denials.{denial, open_text};
ghost use Rattle.session_core.specs.End.{TellsHalt, TellsLink, halt_of};
ghost use Rattle.session_core.specs.Opening.{StandsSomewhere};
ghost use Rattle.session_core.specs.Parts.{RunsLink};
ghost use Rattle.smart_http.specs.End.{TellsRequest, halt_behind, http_halt};
ghost use Rattle.smart_http.specs.Requests.{advertising, answering, refs_of, refusing, service_line, writing_advertisement, writing_line, writing_refs};
ghost use Rattle.smart_http.specs.Running.{EndsLink};

use crate::end::HttpEnd;
use access_check::{Request, Rule, Want};
use base_types::NoMemory;
use conf_lex::{RepoName, UserName};
use http::StatusCode;
use hub::Pin;
use pktline_core::{Link, Sink, WriteFault, write_all};
use receive_pack::advertise_receive;
use request_head::{HttpFault, Media, Service, refuse, write_response_head};
use session_core::{SessionEnd, push_denial, say, say_flush};
use std::alloc::Global;
use upload_pack::advertise_upload;

// The end behind a response, where it was written.
fn end_behind(written: Result<(), WriteFault>, end: HttpEnd) -> HttpEnd
    requires { http_halt end ≡ Ended end }
    ensures { http_halt result ≡ halt_behind end written }
{
    match written {
        Ok(()) => end,
        Err(WriteFault::Failed) => HttpEnd::WriteFault,
        Err(WriteFault::NoMemory) => HttpEnd::NoMemory,
    }
}

/// Refuses a request for what its head says.
pub fn refuse_head<L: Link>(link: &mut L, fault: HttpFault) -> HttpEnd
    ensures runs { EndsLink (L.state link.old) (L.state link.new) (refusing fault) result }
    ensures tells { TellsRequest (L.state link.old) (L.state link.new) result }
{
    let written = refuse(link, fault);
    end_behind(written, HttpEnd::Refused(fault))
}

// Writes a refusal with this text.
fn write_refusal<S: Sink>(sink: &mut S, status: StatusCode, text: &[u8]) -> Result<(), WriteFault>
    ensures writes { Writes (S.state sink.old) (S.state sink.new) (refusal status text.now) result }
    ensures tells { TellsWriting (S.state sink.old) (S.state sink.new) result }
    ensures reading { KeepsReading (S.state sink.old) (S.state sink.new) }
    ensures later { IsLater (S.state sink.old) (S.state sink.new) }
{
    write_response_head(sink, status, Media::Text)?;
    write_all(sink, text)
}

/// Refuses a request with this text.
pub fn refuse_with<L: Link>(link: &mut L, status: StatusCode, text: &[u8], end: HttpEnd) -> HttpEnd
    requires { http_halt end ≡ Ended end }
    ensures runs { EndsLink (L.state link.old) (L.state link.new) (answering (refusal status text.now) end) result }
    ensures tells { TellsRequest (L.state link.old) (L.state link.new) result }
{
    let written = write_refusal(link, status, text);
    end_behind(written, end)
}

// The text of a denied opening.
fn denied_text(
    alloc: Global,
    user: &UserName,
    repo: &RepoName,
    want: Want,
    rule: Option<&Rule>,
) -> Result<Vec<u8>, NoMemory>
    ensures { IfOk result (λ v. v.items ≡ denial (open_text want) repo.now user.now (option_copied rule.entry) ++ codes "\n") }
{
    let mut text = Vec::new(alloc);
    push_denial(alloc, &mut text, &Request::Open(want), repo, user, rule)?;
    text.extend_from_slice(b"\n")?;
    Ok(text)
}

/// Refuses a request whose opening was denied by this rule or, without one, by the fallthrough.
pub fn refuse_denied<L: Link>(
    alloc: Global,
    link: &mut L,
    user: &UserName,
    repo: &RepoName,
    want: Want,
    rule: Option<&Rule>,
) -> HttpEnd
    ensures runs { EndsLink (L.state link.old) (L.state link.new) (answering (refusal 403 (denial (open_text want) repo.now user.now (option_copied rule.entry) ++ codes "\n")) HttpEnd.Denied) result }
    ensures tells { TellsRequest (L.state link.old) (L.state link.new) result }
{
    match denied_text(alloc, user, repo, want, rule) {
        Ok(text) => refuse_with(link, StatusCode::FORBIDDEN, &text, HttpEnd::Denied),
        Err(NoMemory) => HttpEnd::NoMemory,
    }
}

// The line in front of the refs.
fn service_line(service: Service) -> &'static [u8]
    ensures line { result.now ≡ service_line service }
    ensures short { length result.now ≤ 65516 }
{
    match service {
        Service::ReceivePack => b"# service=git-receive-pack\n",
        Service::UploadPack => b"# service=git-upload-pack\n",
    }
}

// The refs of what was pinned.
fn write_refs<L: Link>(
    alloc: Global,
    link: &mut L,
    service: Service,
    pin: &Pin,
) -> Result<(), SessionEnd>
    requires stands { StandsSomewhere pin.now }
    ensures runs { RunsLink (L.state link.old) (L.state link.new) (write (refs_of service pin.now)) result }
    ensures tells { TellsLink (L.state link.old) (L.state link.new) result }
{
    match service {
        Service::ReceivePack => advertise_receive(alloc, link, pin),
        Service::UploadPack => advertise_upload(alloc, link, pin),
    }
}

fn write_flush_and_refs<L: Link>(
    alloc: Global,
    link: &mut L,
    service: Service,
    pin: &Pin,
) -> Result<(), SessionEnd>
    requires stands { StandsSomewhere pin.now }
    ensures runs { RunsLink (L.state link.old) (L.state link.new) (writing_refs service pin.now) result }
    ensures tells { TellsLink (L.state link.old) (L.state link.new) result }
{
    say_flush(link)?;
    write_refs(alloc, link, service, pin)
}

fn write_line_and_refs<L: Link>(
    alloc: Global,
    link: &mut L,
    service: Service,
    pin: &Pin,
) -> Result<(), SessionEnd>
    requires stands { StandsSomewhere pin.now }
    ensures runs { RunsLink (L.state link.old) (L.state link.new) (writing_line service pin.now) result }
    ensures tells { TellsLink (L.state link.old) (L.state link.new) result }
{
    say(link, service_line(service))?;
    write_flush_and_refs(alloc, link, service, pin)
}

// The head of a response that isn't refused.
pub fn write_head<L: Link>(link: &mut L, media: Media) -> Result<(), SessionEnd>
    ensures runs { RunsLink (L.state link.old) (L.state link.new) (write (response_head 200 media)) result }
    ensures tells { TellsLink (L.state link.old) (L.state link.new) result }
{
    write_response_head(link, StatusCode::OK, media)?;
    Ok(())
}

fn write_advertisement<L: Link>(
    alloc: Global,
    link: &mut L,
    service: Service,
    pin: &Pin,
) -> Result<(), SessionEnd>
    requires stands { StandsSomewhere pin.now }
    ensures runs { RunsLink (L.state link.old) (L.state link.new) (writing_advertisement service pin.now) result }
    ensures tells { TellsLink (L.state link.old) (L.state link.new) result }
{
    write_head(link, Media::Advertisement(service))?;
    write_line_and_refs(alloc, link, service, pin)
}

/// How a request ends that was left so before the rest of a session began.
pub fn end_before(end: SessionEnd) -> HttpEnd
    ensures { http_halt result ≡ halt_as HttpEnd.Received (halt_of end) }
{
    match end {
        SessionEnd::ReadFault => HttpEnd::ReadFault,
        SessionEnd::WriteFault => HttpEnd::WriteFault,
        SessionEnd::NoMemory => HttpEnd::NoMemory,
        other => HttpEnd::Received(other),
    }
}

/// Answers with the refs of what was pinned.
pub fn advertise<L: Link>(alloc: Global, link: &mut L, service: Service, pin: &Pin) -> HttpEnd
    requires stands { StandsSomewhere pin.now }
    ensures runs { EndsLink (L.state link.old) (L.state link.new) (advertising service pin.now) result }
    ensures tells { TellsRequest (L.state link.old) (L.state link.new) result }
{
    match write_advertisement(alloc, link, service, pin) {
        Ok(()) => HttpEnd::Advertised,
        Err(end) => end_before(end),
    }
}
