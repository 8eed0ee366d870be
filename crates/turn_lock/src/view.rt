//! What a seat of the table knows, and the rule that the table keeps.
ghost use Rattle.std.specs.Prelude.{ℕ, List};

use atomic_table::{Seat, Table, TableRule};
use std::alloc::Global;
use std::collections::LinkedList;
use std::snapshot::Snapshot;

/// A value that stores a list, to which each turn may add.
///
/// Beneath a lock a value is known by this list alone, and by what its type says of itself.
pub trait Grows {
    /// What the list is of.
    type Item;

    /// The list that a value stores.
    ghost list: { Self → List Self.Item };
}

/// Where a seat stands between its turns.
pub enum Stage<E> {
    /// It has no turn.
    Idle,
    /// It drew this turn, which isn't served yet.
    Waits(u64),
    /// Its turn is served: the turn, and the list that it found.
    Holds(u64, LinkedList<E>),
}

/// What a seat knows. No value of this type is made: it exists in proofs alone.
pub struct View<E> {
    /// For how many parts of the lock the seat stands. None is ever lost.
    pub parts: u64,
    /// Where it stands between its turns.
    pub stage: Stage<E>,
    /// The list that it has seen.
    pub seen: LinkedList<E>,
    /// What it was told that others had seen.
    pub told: LinkedList<LinkedList<E>>,
    /// The places of the list that it gave.
    pub given: LinkedList<u64>,
}

/// What the lock was made with.
#[derive(Drop)]
pub struct Opening<V> {
    /// The value, for proofs alone.
    pub value: Snapshot<V>,
    /// How many passes it was made with, and so how many parts it has.
    pub seats: usize,
}

/// The rule of the table: a ticket lock over two words and a slot.
pub struct Turns;

impl<V: Grows> TableRule<Option<V>, View<V::Item>, Opening<V>> for Turns {
    ghost use Rattle.turn_lock.specs.Turns.{KeepsTurns, opening_view};

    ghost holds = { λ key. KeepsTurns V.list (V.list key.value.value) key.seats };

    ghost first = { λ key. opening_view key.seats (V.list key.value.value) };
}

/// The table behind a lock: two words, and one slot for the value.
pub type TurnTable<V> = Table<Option<V>, View<<V as Grows>::Item>, Opening<V>, Turns, Global>;

/// A seat at that table.
pub type TurnSeat<V> = Seat<Option<V>, View<<V as Grows>::Item>>;
