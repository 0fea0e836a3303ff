// A door over memory.
ghost use Rattle.std.specs.Prelude.{◌≡◌, ◌+◌, ◌≤◌, length, vec_capacity, IfOk, IsTrue};
ghost use Rattle.edge_links.specs.Door.{Answers, TakesBack};
ghost use Rattle.edge_links.specs.MemoryDoors.{new_door, door_state, next_answer, after_next, after_done};

use crate::door::{Door, Next};
use base_types::NoMemory;
use pktline_core::Link;
use std::alloc::Global;
use std::collections::VecDeque;

/// A door over memory, for tests and for links that are at hand.
#[derive(Drop)]
pub struct MemoryDoor<L> {
    waiting: VecDeque<L>,
    served: Vec<L>,
    out: usize,
    calls: u64,
    failing: Vec<u64>,
    faults: u64,
    closed: bool,
    ghost room: { length served.items + (out + length waiting.items) ≤ vec_capacity served },
}

impl<L: Drop> MemoryDoor<L> {
    ghost use Rattle.edge_links.specs.MemoryDoorViews.{door_of};

    /// A door that gives these links in their order, and then is closed. It fails at the calls of `next`
    /// whose numbers, from 0, are listed. The room for the links that are served is taken here, and no call
    /// takes more. `NoMemory` says that this room wasn't given.
    pub fn new(alloc: Global, links: Vec<L>, failing: Vec<u64>) -> Result<MemoryDoor<L>, NoMemory>
        ensures { IfOk result (λ door. door_of door ≡ new_door links.items failing.items) }
    {
        let served = Vec::with_capacity(alloc, links.len())?;
        Ok(MemoryDoor {
            waiting: VecDeque::from(links),
            served,
            out: 0,
            calls: 0,
            failing,
            faults: 0,
            closed: false,
        })
    }
}

impl<L> MemoryDoor<L> {
    ghost use Rattle.edge_links.specs.MemoryDoorViews.{door_of};

    /// The links that were served, in the order of their `done`.
    pub fn served(&self) -> &[L]
        ensures { result.now ≡ (door_of self.now).served }
    {
        &self.served
    }
}

impl<L: Link + Drop> Door<L> for MemoryDoor<L> {
    ghost use Rattle.edge_links.specs.MemoryDoorViews.{door_of};

    ghost state = { λ m. door_state (door_of m) };

    fn next(&mut self) -> Next<L>
        ensures answers { Answers (door_state (door_of self.old)) (door_state (door_of self.new)) result }
        ensures answer { result ≡ next_answer (door_of self.old) }
        ensures after { door_of self.new ≡ after_next (door_of self.old) result }
    {
        let call = self.calls;
        self.calls = self.calls.saturating_add(1);
        if self.failing.contains(&call) {
            self.faults = self.faults.saturating_add(1);
            return Next::Failed;
        }
        match self.waiting.pop_front() {
            Some(link) => {
                self.out += 1;
                Next::Link(link)
            }
            None => {
                self.closed = true;
                Next::Closed
            }
        }
    }

    fn done(&mut self, link: L)
        requires { IsTrue (door_state (door_of self.old)).out }
        ensures taken { TakesBack (door_state (door_of self.old)) (door_state (door_of self.new)) link }
        ensures after { door_of self.new ≡ after_done (door_of self.old) link }
    {
        self.out -= 1;
        let Ok(()) = self.served.push(link) else {
            unreachable!()
        };
    }
}
