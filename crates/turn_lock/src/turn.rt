//! How the turn is taken, waited for and given back.
ghost use Rattle.std.specs.Prelude.{◌≡◌, [], Contains, false, if◌then◌else◌};
ghost use Rattle.turn_lock.specs.Rule.{Tries, Releases, MayRelease};

use crate::kept::Kept;
use crate::rule::{Place, Release, Try, Words};
use std::hint::spin_loop;
use std::sync::Wait;
use std::thread::yield_now;
use std::time::Duration;

pub fn try_take<T: Kept>(words: &Words<T>, seat: &mut Place<T>) -> bool
    requires table { seat.old.table_id ≡ words.now.table_id }
    requires words { words.now.table_id.words ≡ 1 }
    requires rests { (seat.old.me.1 ≡ []) × (seat.old.me.0.holds ≡ false) }
    requires own { Contains seat.old.me.0.knowledge.numbers.value seat.old.me.0.caller }
    ensures table { (seat.new.table_id ≡ seat.old.table_id) × (seat.new.id ≡ seat.old.id) }
    ensures tries { Tries T.entries T.caller seat.old.me (if result then 0 else 1) seat.new.me }
{
    words.compare_exchange::<Try<T>>(seat, 0, 0, 1) == 0
}

pub fn release<T: Kept>(words: &Words<T>, seat: &mut Place<T>)
    requires table { seat.old.table_id ≡ words.now.table_id }
    requires words { words.now.table_id.words ≡ 1 }
    requires may { MayRelease T.entries T.caller seat.old.me }
    ensures table { (seat.new.table_id ≡ seat.old.table_id) × (seat.new.id ≡ seat.old.id) }
    ensures releases { Releases T.entries T.caller seat.old.me seat.new.me }
{
    words.swap::<Release<T>>(seat, 0, 0);
}

/// The rounds in which a thread that waits only looks, then those in which it lets another thread run, then
/// naps.
const LOOKS: u32 = 100;

const YIELDS: u32 = 10;

/// Nobody wakes a thread that naps, so that a release makes no call of the system.
const NAP_MICROSECONDS: u64 = 100;

fn pause<T: Kept, R: Wait>(rt: &R, words: &Words<T>, round: u32)
    requires { words.now.table_id.words ≡ 1 }
{
    if round < LOOKS {
        spin_loop();
    } else if round - LOOKS < YIELDS {
        yield_now();
    } else {
        // It returns at once where the turn is free.
        words.park_timeout(rt, 0, 1, Duration::from_micros(NAP_MICROSECONDS));
    }
}

/// Waits for the turn.
pub fn take<T: Kept, R: Wait>(rt: &R, words: &Words<T>, seat: &mut Place<T>)
    requires table { seat.old.table_id ≡ words.now.table_id }
    requires words { words.now.table_id.words ≡ 1 }
    requires rests { (seat.old.me.1 ≡ []) × (seat.old.me.0.holds ≡ false) }
    requires own { Contains seat.old.me.0.knowledge.numbers.value seat.old.me.0.caller }
    ensures table { (seat.new.table_id ≡ seat.old.table_id) × (seat.new.id ≡ seat.old.id) }
    ensures tries { Tries T.entries T.caller seat.old.me 0 seat.new.me }
{
    let mut round: u32 = 0;
    for _ in rt.forever() {
        // A look costs other threads less than a try that fails.
        if (round == 0 || words.peek(0) == 0) && try_take(words, seat) {
            return;
        }
        pause(rt, words, round);
        round = round.saturating_add(1);
    }
    unreachable!()
}
