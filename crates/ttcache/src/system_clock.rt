//! The system's clock.

use outside::Clock;
use std::rt;
use std::time::SystemTime;
use tier_base::Moment;

/// The system's clock, which repeats its last answer where the system has none. It doesn't tell what it will answer.
pub struct SystemClock<R> {
    runtime: R,
    last: Moment,
}

impl<R: Drop> Drop for SystemClock<R> {
    fn drop(self) {
        let Self {
            runtime: _,
            last: _,
        } = self;
    }
}

impl<R> SystemClock<R> {
    /// The clock of a runtime. Before its first answer it stands at 1970-01-01 00:00:00.
    pub fn new(runtime: R) -> Self {
        SystemClock {
            runtime,
            last: Moment(0),
        }
    }
}

impl<R: rt::Clock> Clock for SystemClock<R> {
    ghost use Rattle.std.specs.Prelude.{None};

    ghost coming = { λ _ _. None };

    fn now(&mut self) -> Moment {
        if let Ok(time) = SystemTime::now(&self.runtime)
            && let Ok(since) = time.duration_since(SystemTime::UNIX_EPOCH)
        {
            let seconds = since.as_secs().saturating_mul(1000);
            self.last = Moment(seconds.saturating_add(u64::from(since.subsec_millis())));
        }
        self.last
    }
}
