//! A sink in memory.
ghost use Rattle.std.specs.Prelude.{◌≡◌, ◌-◌, ◌++◌, [], Some, length, min, take, IfOk, vec_capacity, vec_len};

use crate::failing_calls::FailingCalls;
use ix_base::NoMemory;
use ix_outside::{Failed, Sink};
use std::alloc::Global;

/// A sink in memory, which takes bytes as long as it has room. Writes of chosen numbers fail, and so
/// does a write that finds no room left.
#[derive(Drop)]
pub struct MemorySink {
    bytes: Vec<u8>,
    calls: FailingCalls,
}

impl MemorySink {
    /// An empty sink with room for this many bytes, whose memory it takes now. None of its writes is
    /// to fail.
    pub fn new(alloc: Global, room: usize) -> Result<Self, NoMemory>
        ensures written { IfOk result (λ sink. ⟦<MemorySink as Sink>⟧.written sink ≡ Some []) }
        ensures faults { IfOk result (λ sink. ⟦<MemorySink as Sink>⟧.fault_count sink ≡ 0) }
        ensures room { IfOk result (λ sink. vec_capacity sink.bytes ≡ room) }
        ensures never { IfOk result (λ sink. sink.calls.numbers.items ≡ []) }
    {
        MemorySink::failing(alloc, room, Vec::new(alloc))
    }

    /// An empty sink with room for this many bytes, whose memory it takes now. Its writes of these
    /// numbers, counted from 1, fail.
    pub fn failing(alloc: Global, room: usize, calls: Vec<u64>) -> Result<Self, NoMemory>
        ensures written { IfOk result (λ sink. ⟦<MemorySink as Sink>⟧.written sink ≡ Some []) }
        ensures faults { IfOk result (λ sink. ⟦<MemorySink as Sink>⟧.fault_count sink ≡ 0) }
        ensures room { IfOk result (λ sink. vec_capacity sink.bytes ≡ room) }
        ensures numbers { IfOk result (λ sink. sink.calls.numbers ≡ calls) }
        ensures made { IfOk result (λ sink. sink.calls.made ≡ 0) }
    {
        Ok(MemorySink {
            bytes: Vec::with_capacity(alloc, room)?,
            calls: FailingCalls::new(calls),
        })
    }

    /// The bytes that were written.
    pub fn as_slice(&self) -> &[u8]
        ensures { ⟦<MemorySink as Sink>⟧.written self.now ≡ Some result.now }
    {
        self.bytes.as_slice()
    }

    /// The bytes that were written.
    pub fn into_bytes(self) -> Vec<u8>
        ensures { ⟦<MemorySink as Sink>⟧.written self ≡ Some result.items }
    {
        let MemorySink { bytes, calls: _ } = self;
        bytes
    }
}

impl Sink for MemorySink {
    ghost written = { λ sink. Some sink.bytes.items };

    ghost fault_count = { λ sink. sink.calls.faults };

    ghost use Rattle.std.specs.Prelude.{◌≤◌, ◌<◌, ◌⊎◌, ◌↔◌, IsErr};
    ghost use Rattle.std.specs.Io.KnownBytes.{WriteAppends};
    ghost use Rattle.ix_outside.specs.Causes.{HasCause};
    ghost use Rattle.ix_memory.specs.Failing.{Counts, NextFails};

    fn write(&mut self, bytes: &[u8]) -> Result<usize, Failed>
        ensures bound { IfOk result (λ n. n ≤ length bytes.now) }
        ensures some { IfOk result (λ n. 0 < length bytes.now → 0 < n) }
        ensures bytes { WriteAppends (Some self.old.bytes.items)
            (Some self.new.bytes.items) result bytes.now }
        ensures cause { HasCause self.old.calls.faults self.new.calls.faults result }
        ensures fails { IsErr result ↔ (NextFails self.old.calls
            ⊎ ((vec_capacity self.old.bytes ≤ vec_len self.old.bytes) × (0 < length bytes.now))) }
        ensures count { IfOk result (λ n.
            n ≡ min (vec_capacity self.old.bytes - vec_len self.old.bytes) (length bytes.now)) }
        ensures counted { Counts self.old.calls self.new.calls }
    {
        if self.calls.next_fails() {
            return Err(Failed);
        }
        let count = take_prefix(&mut self.bytes, bytes);
        if count == 0 && bytes.len() > 0 {
            self.calls.fail();
            return Err(Failed);
        }
        Ok(count)
    }

    fn faults(&self) -> u64 {
        self.calls.faults()
    }
}

/// Takes a prefix of the bytes, as long as there is room for, and returns its length in bytes.
fn take_prefix(taken: &mut Vec<u8>, bytes: &[u8]) -> usize
    ensures count { result ≡ min (vec_capacity taken.old - vec_len taken.old) (length bytes.now) }
    ensures taken { taken.new.items ≡ taken.old.items ++ take result bytes.now }
{
    let room = taken.capacity() - taken.len();
    let count = room.min(bytes.len());
    match taken.extend_from_slice(&bytes[..count]) {
        Ok(()) => count,
        Err(_) => 0,
    }
}
