//! Where replies go.

ghost use Rattle.std.specs.Prelude.{◌≤◌, IfOk, length};
ghost use Rattle.std.specs.Io.KnownBytes.{WriteAppends};
ghost use Rattle.outside.specs.Faults.{PutHasCause};

use crate::fault::Failed;

/// A stream of bytes to write.
pub trait Sink {
    ghost use Rattle.std.specs.Prelude.{List, Option, ℕ};

    /// The bytes written so far, where the sink tells them.
    ghost written: { Self → Option (List ℕ) };

    /// How often the sink has failed. The count never falls, and stays at 2^64 - 1.
    ghost faults: { Self → ℕ };

    /// Writes a front of the bytes, and says how many. To take nothing of something is a fault.
    ///
    /// `Failed`, with nothing written, only where the count of faults rose in this call.
    fn put(&mut self, bytes: &[u8]) -> Result<usize, Failed>
        ensures bound { IfOk result (λ n. n ≤ length bytes.now) }
        ensures bytes { WriteAppends (written self.old) (written self.new) result bytes.now }
        ensures cause { PutHasCause (faults self.old) (faults self.new) (length bytes.now) result };
}
