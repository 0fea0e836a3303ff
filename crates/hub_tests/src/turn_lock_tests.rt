//! A log under the lock, and threads that write into it.
ghost use Rattle.std.specs.Prelude.{◌≡◌, ◌<◌, ◌++◌, ◌∷◌, [], List, All, IfOk, MatchResult, OnErr, OnOk};
ghost use Rattle.turn_lock.specs.Lock.{AreOthers, IsSamePass, kept, seen};

use std::alloc::Global;
use std::marker::Model;
use std::snapshot::Snapshot;
use std::sync::Wait;
use std::test::Fail;
use std::thread::{Threads, join};
use turn_lock::{Kept, NoMemory, Pass, Step, TurnLock};

#[derive(Clone, Copy, Drop)]
struct Entry {
    caller: u64,
    value: u64,
}

#[derive(Drop)]
struct Log {
    entries: Vec<Entry>,
}

impl Model for Log {
    ghost use Rattle.std.specs.Prelude.{List};
    ghost use Rattle.hub_tests.specs.declared.turn_lock_tests.Entry.{Entry};

    ghost Value = { List Entry };

    ghost view = { λ l. l.entries.items };
}

impl Kept for Log {
    type Entry = Entry;

    ghost entries = { λ l. l };

    ghost caller = { λ e. e.caller };
}

/// Appends an entry, and knows what a pass had seen.
#[derive(Drop)]
struct Append {
    entry: Entry,
    known: Snapshot<Pass<Log>>,
}

impl Step<Log> for Append {
    type Answer = Result<(), NoMemory>;

    ghost knows = { λ s. seen s.known.value };

    ghost caller = { λ s. s.entry.caller };

    ghost relates = { λ s before after answer. MatchResult answer (λ _. after ≡ before ++ s.entry ∷ []) (λ _. after ≡ before) };

    fn run(&mut self, held: &mut Log) -> Result<(), NoMemory> {
        held.entries.push(self.entry)?;
        Ok(())
    }
}

/// Appends one entry. What the pass had seen goes on with entries of others, and then with this one, which is
/// one more of its own.
fn append_one<R: Wait>(
    rt: &R,
    lock: &TurnLock<Log>,
    pass: &mut Pass<Log>,
    value: u64,
) -> Result<(), NoMemory>
    requires { pass.old.lock ≡ lock.now }
    ensures same { IsSamePass pass.old pass.new }
    ensures seen { OnOk result ((between : List Entry) × AreOthers (λ e. e.caller) pass.old.numbers between
        × (seen pass.new ≡ (seen pass.old ++ between) ++ record { caller = pass.old.caller; value = value } ∷ [])) }
    ensures own { OnOk result (kept (λ e. e.caller) pass.new pass.old.caller
        ≡ kept (λ e. e.caller) pass.old pass.old.caller ++ record { caller = pass.old.caller; value = value } ∷ []) }
    ensures refused { OnErr result (pass.new ≡ pass.old) }
{
    let entry = Entry {
        caller: pass.caller(),
        value,
    };
    let mut step = Append {
        entry,
        known: Snapshot::of(pass),
    };
    lock.with_turn(rt, pass, &mut step)
}

/// Appends the numbers below `steps`, in their order.
fn work<R: Wait>(rt: &R, lock: &TurnLock<Log>, mut pass: Pass<Log>, steps: u64) -> Pass<Log>
    requires { pass.lock ≡ lock.now }
    ensures { IsSamePass pass result }
{
    for value in 0..steps {
        let _answer = append_one(rt, lock, &mut pass, value);
    }
    pass
}

/// Two threads, each with its pass and its number of steps.
fn both<R: Threads + Wait + Sync>(
    rt: &R,
    lock: &TurnLock<Log>,
    one: (Pass<Log>, u64),
    other: (Pass<Log>, u64),
) -> (Pass<Log>, Pass<Log>)
    requires of_lock { (one.0.lock ≡ lock.now) × (other.0.lock ≡ lock.now) }
    ensures same { IsSamePass one.0 result.0 × IsSamePass other.0 result.1 }
{
    let (left, left_steps) = one;
    let (right, right_steps) = other;
    join(
        rt,
        move ||
            requires { left.lock ≡ lock.now }
            ensures { IsSamePass left result }
        { work(rt, lock, left, left_steps) },
        move ||
            requires { right.lock ≡ lock.now }
            ensures { IsSamePass right result }
        { work(rt, lock, right, right_steps) },
    )
}

/// What two threads leave: the log, and then entries of theirs.
fn race<R: Threads + Wait + Sync>(
    rt: &R,
    alloc: Global,
    log: Log,
    steps: u64,
) -> Result<Log, NoMemory>
    ensures { IfOk result (λ after. (more : List Entry) × (log ++ more ≡ after) × All (λ e. e.caller < 2) more) }
{
    let (lock, mut first) = TurnLock::new(alloc, log)?;
    let second = lock.split(alloc, &mut first)?;
    let (mut first, second) = both(rt, &lock, (first, steps), (second, steps));
    lock.join(&mut first, second);
    Ok(lock.close(first))
}

/// Whether the entries of a caller are the numbers below `steps`, in their order.
fn has_in_order(entries: &[Entry], caller: u64, steps: u64) -> bool {
    let mut next: u64 = 0;
    for entry in entries {
        if entry.caller == caller {
            if entry.value != next {
                return false;
            }
            next = next.wrapping_add(1);
        }
    }
    next == steps
}

#[test]
fn two_threads_make_a_thousand_steps_each(rt: HostRuntime) -> Result<(), Fail> {
    let empty = Log {
        entries: Vec::new(rt.alloc()),
    };
    let Ok(log) = race(&rt, rt.alloc(), empty, 1_000) else {
        panic!(rt; "memory")
    };
    let entries = log.entries.as_slice();
    assert!(rt; entries.len() == 2_000);
    assert!(rt; has_in_order(entries, 0, 1_000) && has_in_order(entries, 1, 1_000));
    Ok(())
}

/// What four threads leave, two at a time, of which the third makes no step. The fourth pass is joined into
/// the third.
fn relay<R: Threads + Wait + Sync>(
    rt: &R,
    alloc: Global,
    log: Log,
    steps: u64,
) -> Result<Log, NoMemory>
    ensures { IfOk result (λ after. (more : List Entry) × (log ++ more ≡ after) × All (λ e. e.caller < 4) more) }
{
    let (lock, mut first) = TurnLock::new(alloc, log)?;
    let second = lock.split(alloc, &mut first)?;
    let third = lock.split(alloc, &mut first)?;
    let fourth = lock.split(alloc, &mut first)?;
    let (mut first, second) = both(rt, &lock, (first, steps), (second, steps));
    let (mut third, fourth) = both(rt, &lock, (third, 0), (fourth, steps));
    lock.join(&mut third, fourth);
    lock.join(&mut first, second);
    lock.join(&mut first, third);
    Ok(lock.close(first))
}

#[test]
fn of_four_passes_one_makes_no_step(rt: HostRuntime) -> Result<(), Fail> {
    let mut entries = Vec::new(rt.alloc());
    entries.push(Entry {
        caller: 2,
        value: 77,
    })?;
    let Ok(log) = relay(&rt, rt.alloc(), Log { entries }, 300) else {
        panic!(rt; "memory")
    };
    let (old, more) = log.entries.as_slice().split_at(1);
    assert!(rt; old[0].caller == 2 && old[0].value == 77);
    assert!(rt; more.len() == 900 && has_in_order(more, 2, 0));
    assert!(rt;
        has_in_order(more, 0, 300) && has_in_order(more, 1, 300) && has_in_order(more, 3, 300)
    );
    Ok(())
}
