//! Where the report goes.
ghost use Rattle.std.specs.Prelude.{◌≡◌, ◌≤◌, ◌<◌, List, ℕ, Option, IfOk, length};
ghost use Rattle.std.specs.Io.KnownBytes.{WriteAppends};
ghost use Rattle.ix_outside.specs.Causes.{HasCause};

use crate::source::Failed;

/// A stream that bytes are written to.
pub trait Sink {
    /// The bytes that were written, where the stream tells them.
    ghost written: { Self → Option (List ℕ) };

    /// How many calls have failed.
    ghost fault_count: { Self → ℕ };

    /// Writes a prefix of the bytes, and returns how many bytes it has: at least one, unless there
    /// were none. After an error no byte was written.
    fn write(&mut self, bytes: &[u8]) -> Result<usize, Failed>
        ensures bound { IfOk result (λ n. n ≤ length bytes.now) }
        ensures some { IfOk result (λ n. 0 < length bytes.now → 0 < n) }
        ensures bytes { WriteAppends (written self.old) (written self.new) result bytes.now }
        ensures cause { HasCause (fault_count self.old) (fault_count self.new) result };

    /// How many calls have failed.
    fn faults(&self) -> u64
        ensures { result ≡ fault_count self.now };
}
