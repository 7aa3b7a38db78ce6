// Finishing a queue.
ghost use Rattle.std.specs.Prelude.{◌≡◌, ℕ, ◌<◌, ◌≤◌, [], length, IfOk, IfErr, IfSome, IfNone};
ghost use Rattle.queue_rule.specs.Lists.{Each};
ghost use Rattle.delete_queue.specs.Seats.{IsSeatOf, seats_of};
ghost use Rattle.delete_queue.specs.Copying.{HasSpace};
ghost use Rattle.delete_queue.specs.Log.{TakesIn, IsLogOf};

use crate::log::QueueLog;
use crate::queue::DeleteQueue;
use crate::reserve::Reserve;
use crate::seat::Seat;

/// Out of memory for the log. The queue and its seats are given back as they were.
#[derive(Drop)]
pub struct FinishRefused {
    /// The queue.
    pub queue: DeleteQueue,
    /// The seats that were to be finished with it.
    pub seats: Vec<Seat>,
}

impl DeleteQueue {
    // One of the seats takes the others over. `None` where there is no seat.
    fn meet_all(&self, seats: Vec<Seat>) -> Option<Seat>
        requires seats { Each (IsSeatOf self.now) seats.items }
        ensures some { IfNone result (seats.items ≡ []) }
        ensures seat { IfSome result (λ r. IsSeatOf self.now r) }
        ensures taken { IfSome result (λ r. Each (TakesIn r) seats.items) }
    {
        let mut seats = seats;
        let mut first = seats.pop()?;
        loop {
            let Some(other) = seats.pop() else {
                return Some(first);
            };
            self.meet(&mut first, other);
        }
    }

    /// Ends the queue, and returns the log of all its entries. It asks for seats of the queue: at
    /// least one, and each whose own entries and known words are to be found in the log.
    ///
    /// The log is the whole list: each seat's entries in it are those that it linked, at their
    /// places; what a seat knows of an entry's words is what the log has; nothing follows an entry
    /// that closes the queue. Memory that an earlier log left in the reserve is used again. The only
    /// error is out of memory: the queue and the seats are then given back as they were.
    pub fn finish(self, seats: Vec<Seat>, reserve: &mut Reserve) -> Result<QueueLog, FinishRefused>
        requires some { 0 < length seats.items }
        requires seats { Each (IsSeatOf self) seats.items }
        ensures log { IfOk result (λ log. IsLogOf self seats.items log) }
        ensures refused { IfErr result (λ r. (r.queue ≡ self) × (r.seats ≡ seats)) }
    {
        let Ok(mut room) = reserve.room(self.alloc, self.seats) else {
            return Err(FinishRefused { queue: self, seats });
        };
        let Some(mut seat) = self.meet_all(seats) else {
            unreachable!()
        };
        self.copy_all(&mut seat, &mut room);
        Ok(QueueLog {
            base: self.base,
            ends: room.ends,
            words: room.words,
        })
    }
}
