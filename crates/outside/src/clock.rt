//! The clock.

ghost use Rattle.std.specs.Prelude.{◌≡◌, ◌+◌, ℕ, IfSome};

use tier_base::Moment;

/// A clock. It can't fail: a real one repeats its last answer where the system has none.
pub trait Clock {
    ghost use Rattle.std.specs.Prelude.{Option, ℕ};

    /// What the clock will answer, by the number of answers before, where it tells.
    ghost coming: { Self → ℕ → Option ℕ };

    /// The present moment, in milliseconds since 1970-01-01 00:00:00.
    fn now(&mut self) -> Moment
        ensures told { IfSome (coming self.old 0) (λ moment. result.0 ≡ moment) }
        ensures rest { (n : ℕ) → coming self.new n ≡ coming self.old (n + 1) };
}
