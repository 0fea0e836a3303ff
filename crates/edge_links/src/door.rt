// A door, through which links come and go.
ghost use Rattle.std.specs.Prelude.{IsTrue};
ghost use Rattle.edge_links.specs.Door.{DoorState, Answers, TakesBack};

use pktline_core::Link;

/// What one call of `next` gave.
#[derive(Drop)]
pub enum Next<L> {
    /// A link, which is out until `done` takes one back.
    Link(L),
    /// No link is left, and none will come.
    Closed,
    /// No link came; a later call may give one.
    Failed,
}

/// Where links come from, and where they go once they are served.
pub trait Door<L: Link> {
    ghost state: { Self → DoorState L };

    /// Gives the next link, which is then out. It may wait for one.
    fn next(&mut self) -> Next<L>
        ensures answers { Answers (state self.old) (state self.new) result };

    /// Takes a link back that was served.
    fn done(&mut self, link: L)
        requires { IsTrue (state self.old).out }
        ensures taken { TakesBack (state self.old) (state self.new) link };
}
