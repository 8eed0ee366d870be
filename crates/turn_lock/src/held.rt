//! The right to take turns, the value while one has it, and what one pass tells another.
ghost use Rattle.std.specs.Prelude.{◌≡◌, ℕ, ◌<◌, [], ◌∷◌, None};
ghost use Rattle.turn_lock.specs.declared.view.Stage.TheVariants.{Idle, Holds};
ghost use Rattle.turn_lock.specs.Turns.{found_of, number_of};

use crate::view::{Grows, TurnSeat};

/// The right to take turns at one lock. It has no bytes.
///
/// It stands for one part of the lock or more, and takes one turn at a time whatever their number.
/// `TurnLock::split` makes two passes of one, and `TurnLock::join` makes one of two.
/// It keeps what its owner knows: the list that it has seen, and which places of the list it gave.
/// A pass may be dropped, but then its lock can't be closed any more.
#[derive(Drop)]
pub struct Pass<V: Grows> {
    pub(crate) seat: TurnSeat<V>,
    ghost idle: { seat.me.0.stage ≡ Idle },
    ghost bare: { seat.me.1 ≡ [] },
    ghost some: { 0 < seat.me.0.parts },
}

/// The value, with the pass whose turn is served.
///
/// It can't be dropped: `TurnLock::give` takes it back, or every later turn would wait for good.
pub struct Held<V: Grows> {
    /// The value, which the holder may change in place.
    pub value: V,
    pub(crate) seat: TurnSeat<V>,
    ghost served: { seat.me.0.stage ≡ Holds (number_of seat.me.0.stage) (found_of seat.me.0.stage) },
    ghost bare: { seat.me.1 ≡ (0, None) ∷ [] },
    ghost some: { 0 < seat.me.0.parts },
}

/// What a pass had seen when this was split off, to be told to another pass of the lock.
/// It has no bytes, gives no right to a turn, and may be dropped.
#[derive(Drop)]
pub struct Seen<V: Grows> {
    pub(crate) seat: TurnSeat<V>,
    ghost idle: { seat.me.0.stage ≡ Idle },
    ghost bare: { seat.me.1 ≡ [] },
    ghost none: { seat.me.0.parts ≡ 0 },
    ghost nothing: { seat.me.0.given ≡ [] },
}
