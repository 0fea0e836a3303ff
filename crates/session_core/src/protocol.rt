// What a worker serves over a link.
ghost use Rattle.std.specs.Prelude.{◌≡◌};
ghost use Rattle.pktline_core.specs.Links.{IsLater};
ghost use Rattle.hub.specs.Desk.{IsSound};
ghost use Rattle.interaction_tree.specs.Growth.{GrowsBy, own_since};
ghost use Rattle.session_core.specs.End.{HaltHasCause, HaltIsSure};
ghost use Rattle.session_core.specs.Protocol.{Meaning};
ghost use Rattle.session_core.specs.Rulebook.{ByRulebook};

use crate::buffer::PacketBuffer;
use crate::gate::Gate;
use hub::Desk;
use pktline_core::Link;
use std::alloc::Global;

/// What a worker serves over each of its links, one after the other. It is a value, so that one program may
/// serve several protocols, and a worker's place say which.
pub trait Protocol: Copy {
    /// How serving a link ends.
    type End: Copy;

    /// What the protocol says of a link that was served.
    ghost meaning: { Self → Meaning Self.End };

    /// Whether a link was served no further because memory ran out.
    fn is_out_of_memory(self, end: Self::End) -> bool
        ensures { result ≡ (meaning self).lacks end };

    /// Serves one link, up to its end. Packets are read into the buffer.
    fn serve<L: Link, K: Desk, G: Gate>(
        self,
        alloc: Global,
        link: &mut L,
        desk: &mut K,
        gate: &mut G,
        buffer: &mut PacketBuffer,
    ) -> Self::End
        ensures turn { ByRulebook (K.view desk.old).admin (K.view desk.new).seen (λ book. (meaning self).takes book (K.view desk.old).admin (L.state link.old) (L.state link.new) (own_since (K.view desk.old) (K.view desk.new)) result) }
        ensures tells { (meaning self).tells (L.state link.old) (L.state link.new) result }
        ensures grows { GrowsBy (K.view desk.old) (K.view desk.new) (own_since (K.view desk.old) (K.view desk.new)) }
        ensures sound { IsSound (K.view desk.new) }
        ensures goes { K.goes_on desk.old desk.new }
        ensures causes { HaltHasCause (L.state link.old) (L.state link.new) ((meaning self).halt result) }
        ensures sure { HaltIsSure (L.state link.old) (L.state link.new) ((meaning self).halt result) }
        ensures later { IsLater (L.state link.old) (L.state link.new) };
}
