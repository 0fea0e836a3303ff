//! The lock, its passes, and a turn.
ghost use Rattle.std.specs.Prelude.{◌≡◌, ◌≢◌, ◌==◌, ◌+◌, ◌<◌, ◌^◌, ℕ, All, Contains, IfOk, OnErr, drop, filter, length};
ghost use mathlib.Core.List.{IsPrefix};

use crate::kept::{Kept, Step};
use crate::rule::{Board, BothInOne, OneMore, Place, Tell};
use crate::turn::{release, take};
use atomic_table::Table;
use base_types::NoMemory;
use std::alloc::Global;
use std::marker::Model;
use std::snapshot::Snapshot;
use std::sync::Wait;

/// A lock over a value. Contracts see it as its name, which no other lock has.
#[derive(Drop)]
pub struct TurnLock<T: Kept> {
    table: Board<T>,
}

impl<T: Kept> Model for TurnLock<T> {
    ghost use Rattle.std.specs.Prelude.{◌≡◌};
    ghost use Rattle.atomic_table.specs.Seated.{TableId};

    ghost Value = { TableId };

    ghost view = { λ l. l.table.shared.table_id };

    ghost invariant = { λ l. (l.table.shared.table_id.words ≡ 1) × (l.table.shared.table_id.slots ≡ 1) };
}

/// A caller's right to turns at one lock, and what it knows of the lock's list.
#[derive(Drop)]
pub struct Pass<T: Kept> {
    seat: Place<T>,
    caller: u64,
    passes: u64,
}

impl<T: Kept> Model for Pass<T> {
    ghost use Rattle.turn_lock.specs.Lock.{PassState};

    ghost Value = { PassState T.Entry };

    ghost use Rattle.turn_lock.specs.Rule.{state_of, IsAtRest};

    ghost view = { λ p. state_of p.seat.table_id p.seat.me.0 };

    ghost invariant = { λ p. IsAtRest p.seat.me p.caller p.passes };
}

impl<T: Kept> Pass<T> {
    /// The number that entries made with this pass bear. The first pass has 0.
    pub fn caller(&self) -> u64
        ensures number { result ≡ self.now.caller }
        ensures own { Contains self.now.numbers self.now.caller }
    {
        self.caller
    }
}

impl<T: Kept> TurnLock<T> {
    ghost use Rattle.turn_lock.specs.Lock.{GrowsByOthers, HasJoinedAll, IsSamePass, Turned, first_pass, joined, kept, next_pass, seen};

    /// A lock over a value, and the first pass. Where there is no memory the value is dropped.
    pub fn new(alloc: Global, held: T) -> Result<(TurnLock<T>, Pass<T>), NoMemory>
    where
        T: Drop,
        ensures { IfOk result (λ made. made.1 ≡ first_pass made.0 (T.entries held)) }
    {
        let about = Snapshot::of(&held);
        let mut slots = Vec::new(alloc);
        slots.push(Some(held))?;
        let Ok((table, seat)) = Table::new(alloc, &[0], slots, &about) else {
            return Err(NoMemory);
        };
        let first = Pass {
            seat,
            caller: 0,
            passes: 1,
        };
        Ok((TurnLock { table }, first))
    }

    /// A pass of the next number. It takes no memory as yet.
    pub fn split(&self, _alloc: Global, pass: &mut Pass<T>) -> Result<Pass<T>, NoMemory>
        requires of_lock { pass.old.lock ≡ self.now }
        requires first { pass.old.caller ≡ 0 }
        requires few { pass.old.passes < 2 ^ 32 }
        ensures next { IfOk result (λ next. next ≡ next_pass pass.old) }
        ensures counted { IfOk result (λ _. pass.new ≡ record pass.old { passes = pass.old.passes + 1 }) }
        ensures refused { OnErr result (pass.new ≡ pass.old) }
    {
        let Pass {
            seat,
            caller: _,
            passes,
        } = pass;
        let caller = *passes;
        *passes = caller + 1;
        Ok(Pass {
            seat: self.table.shared.split_seat::<OneMore>(seat),
            caller,
            passes: 0,
        })
    }

    /// Waits for the turn, runs the step, and gives the turn back. The step can be used again.
    pub fn with_turn<R: Wait, S: Step<T>>(
        &self,
        rt: &R,
        pass: &mut Pass<T>,
        step: &mut S,
    ) -> S::Answer
        requires of_lock { pass.old.lock ≡ self.now }
        requires caller { S.caller step.old ≡ pass.old.caller }
        requires knows { IsPrefix (S.knows step.old) (seen pass.old) }
        ensures turned { Turned T.caller (λ before after. S.relates step.old before after result) pass.old pass.new }
        ensures same_pass { IsSamePass pass.old pass.new }
        ensures same_step { (S.knows step.new ≡ S.knows step.old) × (S.caller step.new ≡ S.caller step.old) }
        ensures again { IsPrefix (S.knows step.new) (seen pass.new) }
    {
        let Pass {
            seat,
            caller: _,
            passes: _,
        } = pass;
        take(rt, &self.table.shared, seat);
        let found = self.table.shared.exchange(seat, 0, None);
        let Some(mut held) = found else {
            unreachable!()
        };
        let answer = step.run(&mut held);
        let emptied = self.table.shared.exchange(seat, 0, Some(held));
        let None = emptied else { unreachable!() };
        release(&self.table.shared, seat);
        answer
    }

    /// `into` has then seen what both had, and owns the numbers of both.
    pub fn join(&self, into: &mut Pass<T>, other: Pass<T>)
        requires of_lock { (into.old.lock ≡ self.now) × (other.lock ≡ self.now) }
        requires later { other.caller ≢ 0 }
        ensures joined { into.new ≡ joined into.old other }
        ensures one_start { other.at_new ≡ into.old.at_new }
        ensures grows { GrowsByOthers T.caller into.old.numbers (seen into.old) (seen into.new) }
        ensures other_grows { GrowsByOthers T.caller other.numbers (seen other) (seen into.new) }
        ensures keeps { (n : ℕ) → Contains into.old.numbers n → kept T.caller into.new n ≡ kept T.caller into.old n }
        ensures other_keeps { (n : ℕ) → Contains other.numbers n → kept T.caller into.new n ≡ kept T.caller other n }
    {
        let Pass {
            seat,
            caller: _,
            passes: _,
        } = into;
        let Pass {
            seat: other_seat,
            caller: _,
            passes: _,
        } = other;
        self.table.shared.join_seat::<BothInOne>(seat, other_seat);
        self.table.shared.load::<Tell<T>>(seat, 0);
    }

    /// The value, whose list the first pass has then seen whole.
    pub fn close(self, pass: Pass<T>) -> T
        requires of_lock { pass.lock ≡ self }
        requires first { pass.caller ≡ 0 }
        requires all { HasJoinedAll pass }
        ensures list { T.entries result ≡ seen pass }
        ensures callers { All (λ e. T.caller e < pass.passes) pass.since }
        ensures kept { (n : ℕ) → filter (λ e. T.caller e == n) (drop (length pass.at_new) (T.entries result)) ≡ kept T.caller pass n }
    {
        let TurnLock { table } = self;
        let Pass {
            seat,
            caller: _,
            passes: _,
        } = pass;
        let mut closed = table.close_with(seat);
        let value = closed.take(0);
        closed.free();
        let Some(held) = value else { unreachable!() };
        held
    }
}
