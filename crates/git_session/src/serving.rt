// One session.
ghost use Rattle.std.specs.Prelude.{◌≡◌};
ghost use Rattle.pktline_core.specs.Links.{IsLater};
ghost use Rattle.hub.specs.Desk.{IsSound};
ghost use Rattle.interaction_tree.specs.Endings.{TakesTurn};
ghost use Rattle.interaction_tree.specs.Growth.{GrowsBy, own_since};
ghost use Rattle.session_core.specs.End.{HasCause, IsSure, TellsEnd, TellsLink, halt_of, outcome_of};
ghost use Rattle.session_core.specs.FirstPacket.{HasShortChange};
ghost use Rattle.session_core.specs.Gate.{CallsGate, IsCalled, gate_calls};
ghost use Rattle.session_core.specs.Readers.{IsReady};
ghost use Rattle.session_core.specs.Rulebook.{ByRulebook, RunsByRulebook};
ghost use Rattle.git_session.specs.Session.{fetched_outcome, fetching_from, pushing_into, served, serving, session};

use crate::info::look;
use crate::perms::permit;
use conf_lex::{RepoName, UserName};
use hub::{Desk, Want};
use pktline_core::{Link, PktReader};
use receive_pack::receive;
use session_core::{Asked, Gate, PacketBuffer, Service, SessionEnd, ask, enter};
use std::alloc::Global;
use upload_pack::{FetchEnd, upload};

// The opening, and the push behind it.
fn push_into<L: Link, K: Desk, G: Gate>(
    alloc: Global,
    link: &mut L,
    desk: &mut K,
    gate: &mut G,
    reader: &mut PktReader,
    user: &UserName,
    repo: &RepoName,
) -> Result<(), SessionEnd>
    requires ready { IsReady reader.old (L.state link.old) }
    ensures runs { RunsByRulebook (L.state link.old) (L.state link.new) (K.view desk.old) (K.view desk.new) (λ book. pushing_into book ((K.view desk.old).admin) user.now repo.now reader.old.offset) (outcome_of result) }
    ensures tells { TellsLink (L.state link.old) (L.state link.new) result }
    ensures goes { K.goes_on desk.old desk.new }
    ensures gates { CallsGate (K.view desk.old) (K.view desk.new) (G.calls gate.old) (G.calls gate.new) (L.state link.old).written }
{
    let pin = enter(alloc, link, desk, user, repo, Want::Write)?;
    gate.between(pin.place(), link);
    receive(alloc, link, desk, reader, pin)
}

// The opening, and the fetch behind it.
fn fetch_from<L: Link, K: Desk, G: Gate>(
    alloc: Global,
    link: &mut L,
    desk: &mut K,
    gate: &mut G,
    reader: &mut PktReader,
    user: &UserName,
    repo: &RepoName,
) -> Result<(), SessionEnd>
    requires ready { IsReady reader.old (L.state link.old) }
    ensures runs { RunsByRulebook (L.state link.old) (L.state link.new) (K.view desk.old) (K.view desk.new) (λ book. fetching_from book ((K.view desk.old).admin) user.now repo.now reader.old.offset) (outcome_of result) }
    ensures tells { TellsLink (L.state link.old) (L.state link.new) result }
    ensures goes { K.goes_on desk.old desk.new }
    ensures gates { CallsGate (K.view desk.old) (K.view desk.new) (G.calls gate.old) (G.calls gate.new) (L.state link.old).written }
{
    let pin = enter(alloc, link, desk, user, repo, Want::Read)?;
    gate.between(pin.place(), link);
    let end = upload(alloc, link, reader, &pin)?;
    fetched(end)
}

// How a fetch ends the session, where it does.
fn fetched(end: FetchEnd) -> Result<(), SessionEnd>
    ensures { outcome_of result ≡ fetched_outcome end }
{
    match end {
        FetchEnd::Served => Ok(()),
        FetchEnd::NotOurRef(id) => Err(SessionEnd::NotOurRef(id)),
    }
}

// What is asked for.
fn serve_asked<L: Link, K: Desk, G: Gate>(
    alloc: Global,
    link: &mut L,
    desk: &mut K,
    gate: &mut G,
    reader: &mut PktReader,
    asked: Asked,
) -> Result<(), SessionEnd>
    requires ready { IsReady reader.old (L.state link.old) }
    requires short { HasShortChange asked.service }
    ensures runs { RunsByRulebook (L.state link.old) (L.state link.new) (K.view desk.old) (K.view desk.new) (λ book. serving book ((K.view desk.old).admin) asked.user asked.service reader.old.offset) (outcome_of result) }
    ensures tells { TellsLink (L.state link.old) (L.state link.new) result }
    ensures goes { K.goes_on desk.old desk.new }
    ensures gates { CallsGate (K.view desk.old) (K.view desk.new) (G.calls gate.old) (G.calls gate.new) (L.state link.old).written }
{
    let Asked { user, service } = asked;
    match service {
        Service::Receive(repo) => push_into(alloc, link, desk, gate, reader, &user, &repo),
        Service::Upload(repo) => fetch_from(alloc, link, desk, gate, reader, &user, &repo),
        Service::Permit(repo, change) => permit(alloc, link, desk, &user, &repo, change),
        Service::Look => look(alloc, link, desk, &user),
    }
}

// A session up to where it is served.
fn serve<L: Link, K: Desk, G: Gate>(
    alloc: Global,
    link: &mut L,
    desk: &mut K,
    gate: &mut G,
    reader: &mut PktReader,
) -> Result<(), SessionEnd>
    requires ready { IsReady reader.old (L.state link.old) }
    ensures runs { RunsByRulebook (L.state link.old) (L.state link.new) (K.view desk.old) (K.view desk.new) (λ book. served book ((K.view desk.old).admin) reader.old.offset) (outcome_of result) }
    ensures tells { TellsLink (L.state link.old) (L.state link.new) result }
    ensures goes { K.goes_on desk.old desk.new }
    ensures gates { CallsGate (K.view desk.old) (K.view desk.new) (G.calls gate.old) (G.calls gate.new) (L.state link.old).written }
{
    let asked = ask(alloc, link, reader)?;
    serve_asked(alloc, link, desk, gate, reader, asked)
}

/// Serves one connection, up to its session's end.
pub fn session<L: Link, K: Desk, G: Gate>(
    alloc: Global,
    link: &mut L,
    desk: &mut K,
    gate: &mut G,
    buffer: &mut PacketBuffer,
) -> SessionEnd
    ensures turn { ByRulebook (K.view desk.old).admin (K.view desk.new).seen (λ book. TakesTurn (L.state link.old) (L.state link.new) (own_since (K.view desk.old) (K.view desk.new)) (session book ((K.view desk.old).admin)) (halt_of result)) }
    ensures tells { TellsEnd (L.state link.old) (L.state link.new) result }
    ensures grows { GrowsBy (K.view desk.old) (K.view desk.new) (own_since (K.view desk.old) (K.view desk.new)) }
    ensures sound { IsSound (K.view desk.new) }
    ensures goes { K.goes_on desk.old desk.new }
    ensures gates { IsCalled (G.calls gate.old) (G.calls gate.new) (gate_calls (L.state link.old).written (own_since (K.view desk.old) (K.view desk.new))) }
    ensures causes { HasCause (L.state link.old) (L.state link.new) result }
    ensures sure { IsSure (L.state link.old) (L.state link.new) result }
    ensures later { IsLater (L.state link.old) (L.state link.new) }
{
    // called for its clause that what was seen is legal
    desk.sound();
    let Ok(mut reader) = buffer.take_reader(alloc) else {
        return SessionEnd::NoMemory;
    };
    let served = serve(alloc, link, desk, gate, &mut reader);
    buffer.put_back(reader);
    match served {
        Ok(()) => SessionEnd::Served,
        Err(end) => end,
    }
}
