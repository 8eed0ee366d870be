//! A clock that stands still.

use outside::Clock;
use tier_base::Moment;

/// A clock that stands at a moment, from which those of a script are counted.
#[derive(Clone, Copy, PartialEq, Eq)]
pub struct FixedClock(pub Moment);

impl Clock for FixedClock {
    ghost use Rattle.std.specs.Prelude.{Some};

    ghost coming = { λ clock n. Some clock.0.0 };

    fn now(&mut self) -> Moment {
        self.0
    }
}
