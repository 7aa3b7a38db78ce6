//! Giving a full buffer off.
ghost use Rattle.std.specs.Prelude.{◌≡◌, ◌↔◌, ◌≤◌, ◌<◌, [], length, IfOk, OnOk, OnErr, IfSome, IfNone, IsSome};
ghost use Rattle.delete_queue.specs.Seats.{Grows, own_of, seen_of};
ghost use Rattle.delete_slice.specs.Taken.{TakesSlice};
ghost use Rattle.frozen_packet.specs.Updates.{as_operations};
ghost use Rattle.thread_writer.specs.Lines.{Reads};
ghost use Rattle.thread_writer.specs.Writing.{IsWriter, Gives, Stays};

use crate::piece::Piece;
use crate::writer::ThreadWriter;
use delete_queue::DeleteQueue;
use delete_slice::{Slice, numbers_end_at_last, slices_stay};
use frozen_packet::Updates;
use ix_base::NoMemory;

impl ThreadWriter {
    /// Gives the buffer off as a piece where it is full: where it holds as many documents as its size,
    /// void ones among them, or up to 63 more after a block. The piece has the buffer's rows, with all
    /// documents of each operation that added some, the deletes and settings of the queue from the
    /// beginning of the buffer to the queue's end, and the number up to which they go. The writer then
    /// has an empty buffer, which begins there.
    ///
    /// The only error is out of memory: nothing was given off. After it, and where the buffer isn't
    /// full, the writer is as before, but that its seat may have seen more.
    pub fn take_pieces(&mut self, queue: &DeleteQueue) -> Result<Option<Piece>, NoMemory>
        requires writer { IsWriter queue.now self.old }
        ensures writer { IsWriter queue.now self.new }
        ensures size { self.new.size ≡ self.old.size }
        ensures grows { Grows self.old.seat self.new.seat }
        ensures own { own_of self.new.seat ≡ own_of self.old.seat }
        ensures full { IfOk result (λ given. IsSome given
            ↔ (self.old.size ≤ length self.old.rows)) }
        ensures room { OnOk result (length self.new.rows < self.new.size) }
        ensures gives { IfOk result (λ given. IfSome given
            (λ piece. Gives queue.now piece self.old self.new)) }
        ensures none { IfOk result (λ given. IfNone given (self.new ≡ self.old)) }
        ensures stays { OnErr result (Stays queue.now self.old self.new) }
    {
        if self.rows.rows() < self.size {
            return Ok(None);
        }
        Ok(Some(self.give(queue)?))
    }

    /// Moves the slice on to the queue's end, and takes its entries into the updates, which have none.
    fn read_slice(&mut self, queue: &DeleteQueue, updates: &mut Updates) -> Result<(), NoMemory>
        requires writer { IsWriter queue.now self.old }
        requires updates { as_operations updates.old ≡ [] }
        ensures reads { Reads queue.now self.old self.new }
        ensures to { self.new.slice.to.at ≡ seen_of self.new.seat }
        ensures ok { OnOk result
            (TakesSlice queue.now self.new.seat self.new.slice updates.old updates.new) }
    {
        slices_stay();
        self.slice.advance(queue, &mut self.seat);
        self.slice.apply(self.alloc, queue, &mut self.seat, updates)
    }

    /// Gives the buffer off, whatever it holds.
    fn give(&mut self, queue: &DeleteQueue) -> Result<Piece, NoMemory>
        requires writer { IsWriter queue.now self.old }
        ensures writer { IsWriter queue.now self.new }
        ensures size { self.new.size ≡ self.old.size }
        ensures grows { Grows self.old.seat self.new.seat }
        ensures own { own_of self.new.seat ≡ own_of self.old.seat }
        ensures ok { IfOk result (λ piece. Gives queue.now piece self.old self.new) }
        ensures err { OnErr result (Stays queue.now self.old self.new) }
    {
        numbers_end_at_last();
        let mut updates = Updates::new(self.alloc);
        self.read_slice(queue, &mut updates)?;
        let frozen = self.rows.take_frozen()?;
        let cut = queue.last_number(&self.seat);
        self.slice = Slice::start(&self.seat);
        Ok(Piece {
            worker: self.seat.number(),
            frozen,
            updates,
            cut,
        })
    }
}
