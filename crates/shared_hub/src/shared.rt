// The lock over a hub.
ghost use Rattle.std.specs.Prelude.{◌≡◌, ◌≢◌, ◌+◌, ◌++◌, ◌<◌, ◌^◌, ℕ, List, All, Contains, IfOk, OnErr, length};
ghost use Rattle.turn_lock.specs.Lock.{GrowsByOthers, HasJoinedAll, first_pass, joined, next_pass};
ghost use Rattle.hub_history.specs.declared.entry.Entry.{Entry};
ghost use Rattle.hub.specs.Desk.{entries_of, known};
ghost use Rattle.shared_hub.specs.Desk.{desk_of};
ghost use Rattle.shared_hub.specs.Shared.{IsHubPass, entries_seen, log_at_new, log_seen};
ghost use Rattle.shared_hub.specs.Kept.{Began, listed};

use crate::event_hub::EventHub;
use crate::kept::KeptHub;
use base_types::NoMemory;
use std::alloc::Global;
use std::marker::Model;
use turn_lock::{Pass, TurnLock};

/// A caller's right to turns at a shared hub, and what it knows of the log.
pub type SharedPass<H> = Pass<KeptHub<H>>;

/// A hub that callers on several threads share. Contracts see it as the name of its lock.
#[derive(Drop)]
pub struct SharedHub<H: EventHub> {
    pub(crate) lock: TurnLock<KeptHub<H>>,
}

impl<H: EventHub> Model for SharedHub<H> {
    ghost use Rattle.atomic_table.specs.Seated.{TableId};

    ghost Value = { TableId };

    ghost view = { λ h. h.lock };
}

impl<H: EventHub> SharedHub<H> {
    /// A shared hub, and the first pass, whose number is 0. Where there is no memory the hub is dropped.
    pub fn new(alloc: Global, hub: H) -> Result<(SharedHub<H>, SharedPass<H>), NoMemory>
    where
        H: Drop,
        ensures first { IfOk result (λ made. made.1 ≡ first_pass made.0 (listed hub (H.view hub))) }
        ensures began { IfOk result (λ made. Began made.1.at_new hub) }
        ensures pass { IfOk result (λ made. IsHubPass made.1) }
        ensures desk { IfOk result (λ made. known (desk_of made.1) ≡ H.view hub) }
    {
        // called for its clause that the log is legal
        hub.sound();
        let (lock, pass) = TurnLock::new(alloc, KeptHub::new(hub))?;
        Ok((SharedHub { lock }, pass))
    }

    /// A pass of the next number, which has seen what the first pass has. It takes no memory as yet.
    pub fn split(&self, alloc: Global, pass: &mut SharedPass<H>) -> Result<SharedPass<H>, NoMemory>
        requires of_hub { pass.old.lock ≡ self.now }
        requires first { pass.old.caller ≡ 0 }
        requires few { pass.old.passes < 2 ^ 32 }
        ensures next { IfOk result (λ next. next ≡ next_pass pass.old) }
        ensures counted { IfOk result (λ _. pass.new ≡ record pass.old { passes = pass.old.passes + 1 }) }
        ensures refused { OnErr result (pass.new ≡ pass.old) }
        ensures pass { IsHubPass pass.old → IsHubPass pass.new }
        ensures next_pass { IfOk result (λ next. IsHubPass pass.old → IsHubPass next) }
    {
        self.lock.split(alloc, pass)
    }

    /// `into` has then seen what both had, and knows all entries of the numbers of both.
    pub fn join(&self, into: &mut SharedPass<H>, other: SharedPass<H>)
        requires of_hub { (into.old.lock ≡ self.now) × (other.lock ≡ self.now) }
        requires later { other.caller ≢ 0 }
        ensures joined { into.new ≡ joined into.old other }
        ensures one_start { other.at_new ≡ into.old.at_new }
        ensures pass { IsHubPass into.old → IsHubPass other → IsHubPass into.new }
        ensures grows { GrowsByOthers (λ e. e.caller) into.old.numbers (log_seen into.old) (log_seen into.new) }
        ensures other_grows { GrowsByOthers (λ e. e.caller) other.numbers (log_seen other) (log_seen into.new) }
        ensures keeps { (n : ℕ) → Contains into.old.numbers n → entries_seen n into.new ≡ entries_seen n into.old }
        ensures other_keeps { (n : ℕ) → Contains other.numbers n → entries_seen n into.new ≡ entries_seen n other }
    {
        self.lock.join(into, other);
    }

    /// The hub, whose log the first pass has then seen whole. It takes no memory.
    pub fn close(self, pass: SharedPass<H>) -> H
        requires of_hub { pass.lock ≡ self }
        requires first { pass.caller ≡ 0 }
        requires all { HasJoinedAll pass }
        requires hub { IsHubPass pass }
        ensures seen { H.view result ≡ known (desk_of pass) }
        ensures begins { (more : List Entry) × (log_at_new pass ++ more ≡ (H.view result).log) × All (λ e. e.caller < pass.passes) more }
        ensures kept { (n : ℕ) → entries_of n (length (log_at_new pass)) (H.view result).log ≡ entries_seen n pass }
        ensures goes { (first : H) → Began pass.at_new first → H.goes_on first result }
    {
        let kept = self.lock.close(pass);
        kept.into_hub()
    }
}
