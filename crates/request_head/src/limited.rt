// A link whose input ends after so many bytes.
ghost use Rattle.std.specs.Prelude.{◌≡◌, ◌^◌, ◌<◌, nat_eq};
ghost use Rattle.pktline_core.specs.Links.{IsLater};
ghost use Rattle.request_head.specs.Limits.{TakesOf, first_told, limited};

use pktline_core::{Endpoint, Link, Put, Sink, Source, TakeFault, Taken, take_all};

/// A link whose input ends after so many bytes. All else is the inner link's.
#[derive(Drop)]
pub struct Limited<'a, L> {
    link: &'a mut L,
    most: u64,
}

impl<'a, L: Link> Limited<'a, L> {
    ghost use Rattle.request_head.specs.Limits.{limited};

    /// The same link, with at most so many of the bytes that it has left.
    pub fn new(link: &'a mut L, most: u64) -> Limited<'a, L>
        ensures same_link { result.link.ghost_name ≡ link.entry.ghost_name }
        ensures state { ⟦<Limited<'a, L> as Endpoint>⟧.state result ≡ limited link.entry.ghost_name most (L.state link.old) }
    {
        Limited { link, most }
    }

    /// Whether all of these bytes were given.
    pub fn is_spent(&self) -> bool
        ensures { result ≡ nat_eq self.now.most 0 }
    {
        self.most == 0
    }
}

impl<'a, L: Link> Endpoint for Limited<'a, L> {
    ghost state = { λ m. limited m.link.ghost_name m.most (L.state m.link.now) };

    ghost telling = { λ m tells. first_told m.most ((L.state m.link.now).left) (L.telling m.link.now tells) };
}

impl<'a, L: Link> Source for Limited<'a, L> {
    fn take(&mut self, room: &mut [u8]) -> Taken {
        if self.most == 0 {
            return Taken::End;
        }
        let count = room.len().min(self.most as usize);
        match self.link.take(room.split_at_mut(count).0) {
            Taken::Got(got) => {
                self.most -= got as u64;
                Taken::Got(got)
            }
            answer => answer,
        }
    }

    ghost given_below = { λ m. L.given_below m.link.now };
}

impl<'a, L: Link> Sink for Limited<'a, L> {
    fn put(&mut self, piece: &[u8]) -> Put {
        self.link.put(piece)
    }
}

impl<'a, L: Link> Link for Limited<'a, L> {}

/// Fills a room from the first bytes of a link's input: an example of a call over a limited link, of which
/// the caller learns what became of the link.
pub fn take_limited<L: Link>(link: &mut L, most: u64, room: &mut [u8]) -> Result<(), TakeFault>
    ensures taken { TakesOf (L.state link.old) (L.state link.new) room.new }
    ensures later { IsLater (L.state link.old) (L.state link.new) }
{
    let mut limited = Limited::new(link, most);
    take_all(&mut limited, room)
}
