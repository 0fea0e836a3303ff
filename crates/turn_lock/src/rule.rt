//! The table of the lock: word 0 is 0 while the turn is free and 1 while it is held, and slot 0 has the
//! value.
use crate::kept::Kept;
use atomic_table::{Join, Play, Seat, Shared, Split, Table, TableRule};
use std::alloc::Global;
use std::marker::PhantomData;
use std::snapshot::Snapshot;

/// What is known of the list, and whose entries are all known. No value of it is made, and a clause sees an
/// array as a list of any length.
pub struct Knowledge<E> {
    pub at_new: Snapshot<[E; 0]>,
    pub since: Snapshot<[E; 0]>,
    pub numbers: Snapshot<[u64; 0]>,
}

/// What a seat at the table knows. No value of it is made.
pub struct View<E> {
    pub caller: u64,
    /// How many passes were made, which the first one knows.
    pub passes: u64,
    pub holds: bool,
    pub knowledge: Knowledge<E>,
    /// While the seat holds the turn, what it took past the list at `new`.
    pub taken: Snapshot<[E; 0]>,
    /// What the last join put together.
    pub left: Knowledge<E>,
    pub right: Knowledge<E>,
}

pub type Place<T> = Seat<Option<T>, View<<T as Kept>::Entry>>;

pub type Words<T> = Shared<Option<T>, View<<T as Kept>::Entry>, Snapshot<T>, TurnRule<T>>;

pub type Board<T> = Table<Option<T>, View<<T as Kept>::Entry>, Snapshot<T>, TurnRule<T>, Global>;

pub struct TurnRule<T> {
    held: PhantomData<T>,
}

impl<T: Kept> TableRule<Option<T>, View<T::Entry>, Snapshot<T>> for TurnRule<T> {
    ghost use Rattle.turn_lock.specs.Rule.{KeepsRule, first_view};

    ghost holds = { λ _ s. KeepsRule T.entries T.caller s };

    ghost first = { λ key. first_view (T.entries key.value) };
}

/// The turn is taken, or it was held.
pub struct Try<T> {
    held: PhantomData<T>,
}

impl<T: Kept> Play<Option<T>, View<T::Entry>> for Try<T> {
    ghost use Rattle.turn_lock.specs.Rule.{Tries};

    ghost then = { λ _ me found after. Tries T.entries T.caller me found after };
}

/// The turn is given back.
pub struct Release<T> {
    held: PhantomData<T>,
}

impl<T: Kept> Play<Option<T>, View<T::Entry>> for Release<T> {
    ghost use Rattle.turn_lock.specs.Rule.{Releases};

    ghost then = { λ _ me _ after. Releases T.entries T.caller me after };
}

/// Nothing changes, and the rule tells of the last join.
pub struct Tell<T> {
    held: PhantomData<T>,
}

impl<T: Kept> Play<Option<T>, View<T::Entry>> for Tell<T> {
    ghost use Rattle.turn_lock.specs.Rule.{TellsOfJoin};

    ghost then = { λ _ me _ after. TellsOfJoin T.caller me after };
}

/// One pass more.
pub struct OneMore;

impl<E> Split<View<E>> for OneMore {
    ghost use Rattle.turn_lock.specs.Rule.{counted_view, next_view};

    ghost left = { counted_view };

    ghost right = { next_view };
}

/// Two passes become one.
pub struct BothInOne;

impl<E> Join<View<E>> for BothInOne {
    ghost use Rattle.turn_lock.specs.Rule.{joined_view, spent_view};

    ghost both = { joined_view };

    ghost spent = { spent_view };
}
