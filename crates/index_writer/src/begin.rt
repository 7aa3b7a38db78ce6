//! The beginning of a round.
ghost use Rattle.std.specs.Prelude.{◌≡◌, ◌↔◌, ◌≤◌, ◌<◌, ◌^◌, length, IfOk, OnOk, OnErr, Err, IsTrue, true, false};
ghost use Rattle.delete_queue.specs.Making.{AreNewFrom};
ghost use Rattle.delete_queue.specs.Seats.{base_of, seats_of};
ghost use Rattle.index_writer.specs.Rounds.{AreBegunFrom, IsBegun};
ghost use Rattle.index_writer.specs.Ready.{IsSound};

use crate::fault::WriterFault;
use crate::round::Round;
use crate::writer::IndexWriter;
use delete_queue::{DeleteQueue, Reserve, Seat};
use ix_base::NoMemory;
use std::alloc::Global;
use thread_writer::ThreadWriter;

impl<S> IndexWriter<S> {
    /// Begins a round of 1 to 16 writers: a queue whose first entry gets the number after that of the
    /// last operation, and a writer for each of its seats. It asks that no round is out, and for
    /// numbers and ids that leave room. `Closed` comes exactly where the writer is closed; the only
    /// other error is out of memory. After an error all is as before.
    pub fn begin_round(&mut self, n: u32) -> Result<Round, WriterFault>
        requires sound { IsSound self.old.state }
        requires seats { (1 ≤ n) × (n ≤ 16) }
        requires out { self.old.state.out ≡ false }
        requires upto { self.old.state.published.upto ≤ 2 ^ 62 }
        requires ids { self.old.state.published.next_id ≤ 2 ^ 63 }
        ensures begun { IfOk result (IsBegun n self.old.state) }
        ensures sound { IsSound self.new.state }
        ensures ok { OnOk result (self.new
            ≡ record self.old { state = record self.old.state { out = true } }) }
        ensures err { OnErr result (self.new ≡ self.old) }
        ensures closed { (result ≡ Err WriterFault.Closed) ↔ IsTrue self.old.state.closed }
        ensures outside { result ≡ Err WriterFault.Store → ⊥ }
    {
        if self.state.closed {
            return Err(WriterFault::Closed);
        }
        let upto = self.state.published.upto;
        let round = new_round(self.alloc, upto, n, self.state.buffer, &mut self.reserve)?;
        self.state.out = true;
        Ok(round)
    }
}

/// A new queue of this base, and a writer for each of its seats.
fn new_round(
    alloc: Global,
    base: u64,
    n: u32,
    buffer: u32,
    reserve: &mut Reserve,
) -> Result<Round, NoMemory>
    requires base { base ≤ 2 ^ 62 }
    requires seats { (1 ≤ n) × (n ≤ 16) }
    requires buffer { (1 ≤ buffer) × (buffer ≤ 65536) }
    ensures base { IfOk result (λ round. base_of round.queue ≡ base) }
    ensures seats { IfOk result (λ round. seats_of round.queue ≡ n) }
    ensures all { IfOk result (λ round. length round.writers.items ≡ n) }
    ensures writers { IfOk result (λ round. AreBegunFrom round.queue buffer 0 round.writers.items) }
{
    let (queue, seats) = DeleteQueue::make(alloc, base, n, reserve)?;
    let writers = writers_of(alloc, &queue, seats, buffer)?;
    Ok(Round { queue, writers })
}

/// A writer for each of a new queue's seats.
fn writers_of(
    alloc: Global,
    queue: &DeleteQueue,
    seats: Vec<Seat>,
    buffer: u32,
) -> Result<Vec<ThreadWriter>, NoMemory>
    requires seats { AreNewFrom queue.now 0 seats.items }
    requires buffer { (1 ≤ buffer) × (buffer ≤ 65536) }
    ensures all { IfOk result (λ writers. length writers.items ≡ length seats.items) }
    ensures writers { IfOk result (λ writers. AreBegunFrom queue.now buffer 0 writers.items) }
{
    let mut writers = Vec::new(alloc);
    for seat in seats {
        writers.push(ThreadWriter::make(alloc, seat, buffer))?;
    }
    Ok(writers)
}
