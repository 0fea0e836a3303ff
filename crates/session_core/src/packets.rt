// What a session writes and reads, packet by packet.
ghost use Rattle.std.specs.Prelude.{◌≡◌, ◌≤◌, length};
ghost use Rattle.pktline_core.specs.Links.{KeepsReading};
ghost use Rattle.pktline_core.specs.Packets.{spelling, Flush};
ghost use Rattle.interaction_tree.specs.Interaction.{write};
ghost use Rattle.interaction_tree.specs.Traces.{Ended};
ghost use Rattle.session_core.specs.End.{TellsEnd, TellsLink, halt_of};
ghost use Rattle.session_core.specs.Packets.{EndsBy, malformed, packet, refuse};
ghost use Rattle.session_core.specs.Parts.{EndsLink, RunsLink};

use crate::end::SessionEnd;
use pktline_core::{Link, PktFault, write_flush, write_pkt};

/// Writes a packet of a line.
pub fn say<L: Link>(link: &mut L, payload: &[u8]) -> Result<(), SessionEnd>
    requires { length payload.now ≤ 65516 }
    ensures runs { RunsLink (L.state link.old) (L.state link.new) (write (packet payload.now)) result }
    ensures tells { TellsLink (L.state link.old) (L.state link.new) result }
    ensures reading { KeepsReading (L.state link.old) (L.state link.new) }
{
    write_pkt(link, payload)?;
    Ok(())
}

/// Writes a flush.
pub fn say_flush<L: Link>(link: &mut L) -> Result<(), SessionEnd>
    ensures runs { RunsLink (L.state link.old) (L.state link.new) (write (spelling Flush)) result }
    ensures tells { TellsLink (L.state link.old) (L.state link.new) result }
    ensures reading { KeepsReading (L.state link.old) (L.state link.new) }
{
    write_flush(link)?;
    Ok(())
}

/// Writes the last packet, and says how the session ends.
pub fn refuse<L: Link>(link: &mut L, text: &[u8], end: SessionEnd) -> SessionEnd
    requires small { length text.now ≤ 65516 }
    requires of_form { halt_of end ≡ Ended end }
    ensures runs { EndsLink {A = Unit {0}} (L.state link.old) (L.state link.new) (refuse text.now end) result }
    ensures tells { TellsEnd (L.state link.old) (L.state link.new) result }
    ensures reading { KeepsReading (L.state link.old) (L.state link.new) }
{
    match say(link, text) {
        Ok(()) => end,
        Err(fault) => fault,
    }
}

/// Answers that the packet at this offset leaves the form.
pub fn malformed<L: Link>(link: &mut L, offset: u64) -> SessionEnd
    ensures runs { EndsLink {A = Unit {0}} (L.state link.old) (L.state link.new) (malformed offset) result }
    ensures tells { TellsEnd (L.state link.old) (L.state link.new) result }
    ensures reading { KeepsReading (L.state link.old) (L.state link.new) }
{
    refuse(link, b"ERR malformed input", SessionEnd::Malformed(offset))
}

/// Ends a session whose packet at this offset has a fault.
pub fn end_by<L: Link>(link: &mut L, offset: u64, fault: PktFault) -> SessionEnd
    ensures ends { EndsBy fault offset (L.state link.old) (L.state link.new) result }
    ensures tells { TellsEnd (L.state link.old) (L.state link.new) result }
    ensures reading { KeepsReading (L.state link.old) (L.state link.new) }
{
    match fault {
        PktFault::BadLength => malformed(link, offset),
        PktFault::Truncated => SessionEnd::Truncated,
        PktFault::ReadFault => SessionEnd::ReadFault,
    }
}
