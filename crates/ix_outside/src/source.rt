//! Where the input comes from.
ghost use Rattle.std.specs.Prelude.{◌≡◌, List, ℕ, Option};
ghost use Rattle.std.specs.Io.{ReadsAtMost};
ghost use Rattle.std.specs.Io.KnownBytes.{ReadConsumes};
ghost use Rattle.ix_outside.specs.Causes.{HasCause};

/// A call failed, and its object's count of faults rose.
#[derive(Clone, Copy, Debug, PartialEq, Eq)]
pub struct Failed;

/// A stream that bytes are read from.
pub trait Source {
    /// The bytes that are left, where the stream tells them.
    ghost left: { Self → Option (List ℕ) };

    /// How many calls have failed.
    ghost fault_count: { Self → ℕ };

    /// Reads bytes into a prefix of the buffer, and returns how many. 0 for a buffer that isn't empty
    /// is the end of the stream. After an error no byte was read.
    fn read(&mut self, buffer: &mut [u8]) -> Result<usize, Failed>
        ensures bound { ReadsAtMost result buffer.new }
        ensures bytes { ReadConsumes (left self.old) (left self.new) result buffer.new }
        ensures cause { HasCause (fault_count self.old) (fault_count self.new) result };

    /// How many calls have failed.
    fn faults(&self) -> u64
        ensures { result ≡ fault_count self.now };
}
