//! The writer.
ghost use Rattle.std.specs.Prelude.{◌≡◌, ◌≤◌, ◌<◌, [], length};
ghost use Rattle.ix_base.specs.Entry.{turn};
ghost use Rattle.ix_base.specs.Words.{entry_words};
ghost use Rattle.delete_queue.specs.declared.queue.DeleteQueue.{DeleteQueue};
ghost use Rattle.delete_queue.specs.Answers.{IfAt, IfClosed, IfFull};
ghost use Rattle.delete_queue.specs.Seats.{IsSeat, IsSeatOf, FindsClosed, Grows, Links, own_of, seen_of};
ghost use Rattle.ram_postings.specs.Buffer.{born_rows};
ghost use Rattle.thread_writer.specs.Writing.{IsWriter, Did, Turns, parts_of};

use crate::piece::HandedBack;
use delete_queue::{Closing, DeleteQueue, Linked, Seat};
use delete_slice::{Slice, slices_stay};
use ram_postings::RamPostings;
use std::alloc::Global;

/// The private writer of one caller. It has a seat of the queue, a buffer of documents, and the
/// slice of the queue since the buffer was begun. It goes where its caller's thread goes.
#[derive(Drop)]
pub struct ThreadWriter {
    pub(crate) alloc: Global,
    pub(crate) seat: Seat,
    pub(crate) rows: RamPostings,
    pub(crate) slice: Slice,
    /// How many documents the buffer holds when it is full, void ones among them. A block may come on
    /// top of one less.
    pub(crate) size: u32,
}

impl ThreadWriter {
    /// The writer of a seat that has linked nothing. Its buffer is full at 1 to 65,536 documents. It
    /// takes no memory.
    pub fn make(alloc: Global, seat: Seat, buffer: u32) -> ThreadWriter
        requires seat { IsSeat seat }
        requires own { own_of seat ≡ [] }
        requires buffer { (1 ≤ buffer) × (buffer ≤ 65536) }
        ensures ready { (q : DeleteQueue) → IsSeatOf q seat → IsWriter q result
            × Did q (parts_of result) [] [] }
        ensures parts { (result.seat ≡ seat) × (result.size ≡ buffer) × (result.rows ≡ []) }
        ensures slice { result.slice.from.at ≡ seen_of seat }
    {
        let slice = Slice::start(&seat);
        ThreadWriter {
            alloc,
            seat,
            rows: RamPostings::new(alloc),
            slice,
            size: buffer,
        }
    }

    /// Links a turn, which closes the queue without a sequence number. It returns what
    /// `DeleteQueue::close` returns: the number of the last numbered entry before, or `Closed`, which
    /// comes only where the last entry that the seat has seen closes the queue already; nothing was
    /// linked then. `Full` never comes. The buffer is as before. It asks that the seat has linked an
    /// entry. It takes no memory.
    pub fn turn(&mut self, queue: &DeleteQueue) -> Linked
        requires writer { IsWriter queue.now self.old }
        requires own { 0 < length (own_of self.old.seat) }
        ensures writer { IsWriter queue.now self.new }
        ensures history { Turns queue.now self.old self.new }
        ensures buffer { (self.new.rows ≡ self.old.rows) × (self.new.size ≡ self.old.size) }
        ensures grows { Grows self.old.seat self.new.seat }
        ensures at { IfAt result (λ n. Links self.old.seat self.new.seat (entry_words turn) n) }
        ensures closed { IfClosed result (FindsClosed self.old.seat self.new.seat) }
        ensures full { IfFull result ⊥ }
    {
        slices_stay();
        queue.close(&mut self.seat, Closing::Turn)
    }

    /// How many documents its buffer holds, void ones among them.
    pub fn buffered(&self) -> u32
        ensures { result ≡ length self.now.rows }
    {
        self.rows.rows()
    }

    /// Ends the writer and gives its parts back. It takes no memory.
    pub fn hand_back(self) -> HandedBack
        ensures { result ≡ parts_of self }
    {
        HandedBack {
            seat: self.seat,
            rest: self.rows,
            slice: self.slice,
        }
    }
}
