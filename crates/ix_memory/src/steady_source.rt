//! A source in memory that never fails.
ghost use Rattle.std.specs.Prelude.{◌≡◌, ◌≤◌, ◌<◌, ◌++◌, [], Some, length, min, take};

use ix_outside::{Failed, Source};
use std::marker::Model;

/// A source of bytes in memory, which are read from the first on. No call fails.
#[derive(Drop)]
pub struct SteadySource {
    bytes: Vec<u8>,
    at: usize,
}

impl Model for SteadySource {
    ghost use Rattle.std.specs.Prelude.{List, ℕ, ◌≤◌, length, drop};

    ghost Value = { List ℕ };

    ghost view = { λ source. drop source.at source.bytes.items };

    ghost invariant = { λ source. source.at ≤ length source.bytes.items };
}

impl SteadySource {
    /// The source that has these bytes left. Contracts see it as the bytes that are left.
    pub fn new(bytes: Vec<u8>) -> Self
        ensures { result ≡ bytes.items }
    {
        SteadySource { bytes, at: 0 }
    }

    /// Reads as many of the next bytes as there are and fit the buffer, and returns how many.
    fn take_prefix(&mut self, buffer: &mut [u8]) -> usize
        ensures bound { result ≤ length buffer.new }
        ensures bytes { self.old ≡ take result buffer.new ++ self.new }
        ensures end { result ≡ 0 → 0 < length buffer.new → self.new ≡ [] }
    {
        let (_, rest) = self.bytes.split_at(self.at);
        let count = copy_prefix(rest, buffer);
        self.at += count;
        count
    }
}

/// Copies a prefix of the bytes into a prefix of the buffer, as long as both allow, and returns its
/// length in bytes.
fn copy_prefix(bytes: &[u8], buffer: &mut [u8]) -> usize
    ensures count { result ≡ min (length bytes.now) (length buffer.new) }
    ensures copied { take result buffer.new ≡ take result bytes.now }
{
    let count = bytes.len().min(buffer.len());
    buffer[..count].copy_from_slice(&bytes[..count]);
    count
}

impl Source for SteadySource {
    ghost left = { λ source. Some source };

    ghost fault_count = { λ _. 0 };

    fn read(&mut self, buffer: &mut [u8]) -> Result<usize, Failed> {
        Ok(self.take_prefix(buffer))
    }

    fn faults(&self) -> u64 {
        0
    }
}
