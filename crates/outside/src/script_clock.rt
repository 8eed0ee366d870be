//! A clock of given answers.

ghost use Rattle.std.specs.Prelude.{◌≡◌, ◌+◌, ℕ, Some};
ghost use Rattle.outside.specs.Clocks.{answer_at};

use crate::clock::Clock;
use tier_base::Moment;

/// A clock that gives the moments of a list, and then the last of them again and again; 0 where there is none.
pub struct ScriptClock {
    moments: Vec<Moment>,
    place: usize,
}

impl Drop for ScriptClock {
    fn drop(self) {
        let Self {
            moments: _,
            place: _,
        } = self;
    }
}

impl ScriptClock {
    /// A clock that will give these moments.
    pub fn new(moments: Vec<Moment>) -> ScriptClock
        ensures { (n : ℕ) → ⟦<ScriptClock as Clock>⟧.coming result n ≡ Some (answer_at moments.items n) }
    {
        ScriptClock { moments, place: 0 }
    }
}

impl Clock for ScriptClock {
    ghost coming = { λ clock n. Some (answer_at clock.moments.items (clock.place + n)) };

    fn now(&mut self) -> Moment {
        if self.place < self.moments.len() {
            let moment = self.moments[self.place];
            self.place += 1;
            moment
        } else {
            match self.moments.last() {
                None => Moment(0),
                Some(moment) => *moment,
            }
        }
    }
}
