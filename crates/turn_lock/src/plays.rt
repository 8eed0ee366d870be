//! The kinds of step on the table that change a view, and what each tells.
ghost use Rattle.turn_lock.specs.Turns.{Draws, Looks, Advances, keeping, portion, joined, spent_view};

use crate::view::{Grows, View};
use atomic_table::{Join, Play, Split};

/// Draws the next turn.
pub(crate) struct Draw;

impl<V: Grows> Play<Option<V>, View<V::Item>> for Draw {
    ghost then = { Draws };
}

/// Looks whether the turn is served, and if so takes the slot.
pub(crate) struct Look;

impl<V: Grows> Play<Option<V>, View<V::Item>> for Look {
    ghost then = { Looks V.list };
}

/// Gives the slot back, and serves the next turn.
pub(crate) struct Advance;

impl<V: Grows> Play<Option<V>, View<V::Item>> for Advance {
    ghost then = { Advances V.list };
}

/// Splits one part off, for a new pass.
pub(crate) struct Cut;

impl<E> Split<View<E>> for Cut {
    ghost left = { λ v. keeping v 1 };

    ghost right = { λ v. portion v 1 };
}

/// Splits off what the seat knows, and no part.
pub(crate) struct Tell;

impl<E> Split<View<E>> for Tell {
    ghost left = { λ v. keeping v 0 };

    ghost right = { λ v. portion v 0 };
}

/// Takes another seat in.
pub(crate) struct Glue;

impl<E> Join<View<E>> for Glue {
    ghost both = { joined };

    ghost spent = { spent_view };
}
