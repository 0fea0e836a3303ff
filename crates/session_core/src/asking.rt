// What a session asks for.
ghost use Rattle.std.specs.Prelude.{◌≡◌, IfOk, OnOk};
ghost use Rattle.pktline_core.specs.Links.{KeepsWriting};
ghost use Rattle.pktline_core.specs.Reading.{packet_of};
ghost use Rattle.session_core.specs.Asking.{asked_in, asked_in_line, asking, bad_command};
ghost use Rattle.session_core.specs.End.{TellsEnd, TellsLink};
ghost use Rattle.session_core.specs.FirstPacket.{HasShortChange, first_line};
ghost use Rattle.session_core.specs.Parts.{EndsLink, RunsLink, RunsLinkAt};
ghost use Rattle.session_core.specs.Readers.{IsReady};

use crate::end::SessionEnd;
use crate::first_packet::{Asked, FirstLine, first_line};
use crate::lines::without_feed;
use crate::packets::{end_by, refuse};
use pktline_core::{Link, Pkt, PktReader};
use std::alloc::Global;

fn bad_command<L: Link>(link: &mut L) -> SessionEnd
    ensures runs { EndsLink (L.state link.old) (L.state link.new) bad_command result }
    ensures tells { TellsEnd (L.state link.old) (L.state link.new) result }
{
    refuse(link, b"ERR bad command", SessionEnd::BadCommand)
}

// What a first line asks for.
fn asked_in_line<L: Link>(alloc: Global, link: &mut L, line: &[u8]) -> Result<Asked, SessionEnd>
    ensures runs { RunsLink (L.state link.old) (L.state link.new) (asked_in_line (first_line line.now)) result }
    ensures tells { TellsLink (L.state link.old) (L.state link.new) result }
    ensures same { OnOk result (L.state link.new ≡ L.state link.old) }
    ensures short { IfOk result (λ asked. HasShortChange asked.service) }
{
    match first_line(alloc, line)? {
        FirstLine::Asks(asked) => Ok(asked),
        FirstLine::BadCommand => Err(bad_command(link)),
        FirstLine::BadUser => Err(refuse(link, b"ERR bad user", SessionEnd::BadUser)),
    }
}

fn asked_in<L: Link>(alloc: Global, link: &mut L, packet: Pkt<'_>) -> Result<Asked, SessionEnd>
    ensures runs { RunsLink (L.state link.old) (L.state link.new) (asked_in (packet_of packet.entry)) result }
    ensures tells { TellsLink (L.state link.old) (L.state link.new) result }
    ensures same { OnOk result (L.state link.new ≡ L.state link.old) }
    ensures short { IfOk result (λ asked. HasShortChange asked.service) }
{
    match packet {
        Pkt::Line(line) => asked_in_line(alloc, link, without_feed(line)),
        Pkt::Flush => Err(bad_command(link)),
    }
}

/// Reads the first packet, and gives what it asks for.
pub fn ask<L: Link>(
    alloc: Global,
    link: &mut L,
    reader: &mut PktReader,
) -> Result<Asked, SessionEnd>
    requires ready { IsReady reader.old (L.state link.old) }
    ensures runs { RunsLinkAt (L.state link.old) (L.state link.new) (asking reader.old.offset) result reader.new.offset }
    ensures tells { TellsLink (L.state link.old) (L.state link.new) result }
    ensures ready { OnOk result (IsReady reader.new (L.state link.new)) }
    ensures writing { OnOk result (KeepsWriting (L.state link.old) (L.state link.new)) }
    ensures short { IfOk result (λ asked. HasShortChange asked.service) }
{
    let offset = reader.offset();
    match reader.next(link) {
        Ok(packet) => asked_in(alloc, link, packet),
        Err(fault) => Err(end_by(link, offset, fault)),
    }
}
