//! A source in memory some of whose calls fail.
ghost use Rattle.std.specs.Prelude.{◌≡◌, [], Some};

use crate::failing_calls::FailingCalls;
use crate::steady_source::SteadySource;
use ix_outside::{Failed, Source};
use std::alloc::Global;

/// A source of bytes in memory, which are read from the first on. Reads of chosen numbers fail.
#[derive(Drop)]
pub struct MemorySource {
    source: SteadySource,
    calls: FailingCalls,
}

impl MemorySource {
    /// The source that has these bytes left, none of whose calls fails. It takes no memory.
    pub fn new(alloc: Global, bytes: Vec<u8>) -> Self
        ensures left { ⟦<MemorySource as Source>⟧.left result ≡ Some bytes.items }
        ensures faults { ⟦<MemorySource as Source>⟧.fault_count result ≡ 0 }
        ensures never { result.calls.numbers.items ≡ [] }
    {
        MemorySource::failing(bytes, Vec::new(alloc))
    }

    /// The source that has these bytes left, and whose reads of these numbers, counted from 1,
    /// fail.
    pub fn failing(bytes: Vec<u8>, calls: Vec<u64>) -> Self
        ensures left { ⟦<MemorySource as Source>⟧.left result ≡ Some bytes.items }
        ensures faults { ⟦<MemorySource as Source>⟧.fault_count result ≡ 0 }
        ensures numbers { result.calls.numbers ≡ calls }
        ensures made { result.calls.made ≡ 0 }
    {
        MemorySource {
            source: SteadySource::new(bytes),
            calls: FailingCalls::new(calls),
        }
    }
}

impl Source for MemorySource {
    ghost left = { λ memory. Some memory.source };

    ghost fault_count = { λ memory. memory.calls.faults };

    ghost use Rattle.std.specs.Prelude.{◌↔◌, IsErr};
    ghost use Rattle.std.specs.Io.{ReadsAtMost};
    ghost use Rattle.std.specs.Io.KnownBytes.{ReadConsumes};
    ghost use Rattle.ix_outside.specs.Causes.{HasCause};
    ghost use Rattle.ix_memory.specs.Failing.{Counts, NextFails};

    fn read(&mut self, buffer: &mut [u8]) -> Result<usize, Failed>
        ensures bound { ReadsAtMost result buffer.new }
        ensures bytes { ReadConsumes (Some self.old.source)
            (Some self.new.source) result buffer.new }
        ensures cause { HasCause self.old.calls.faults self.new.calls.faults result }
        ensures fails { IsErr result ↔ NextFails self.old.calls }
        ensures counted { Counts self.old.calls self.new.calls }
    {
        if self.calls.next_fails() {
            return Err(Failed);
        }
        self.source.read(buffer)
    }

    fn faults(&self) -> u64 {
        self.calls.faults()
    }
}
