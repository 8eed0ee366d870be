//! Where requests come from.

ghost use Rattle.std.specs.Prelude.{◌<◌, ◌≤◌, IfOk, length};
ghost use Rattle.std.specs.Io.KnownBytes.{ReadConsumes};
ghost use Rattle.outside.specs.Faults.{HasCause};

use crate::fault::Failed;

/// A stream of bytes to read.
pub trait Source {
    ghost use Rattle.std.specs.Prelude.{List, Option, ℕ};

    /// The bytes that are still to come, where the source tells them.
    ghost left: { Self → Option (List ℕ) };

    /// How often the source has failed. The count never falls, and stays at 2^64 - 1.
    ghost faults: { Self → ℕ };

    /// Takes some bytes, from the buffer's begin on; none only at the end. A condition is that there is room.
    ///
    /// `Failed`, with nothing taken, only where the count of faults rose in this call.
    fn take(&mut self, buf: &mut [u8]) -> Result<usize, Failed>
        requires { 0 < length buf.old }
        ensures bound { IfOk result (λ n. n ≤ length buf.new) }
        ensures bytes { ReadConsumes (left self.old) (left self.new) result buf.new }
        ensures cause { HasCause (faults self.old) (faults self.new) result };
}
