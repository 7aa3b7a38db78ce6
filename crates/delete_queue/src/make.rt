// A new queue.
ghost use Rattle.std.specs.Prelude.{◌≡◌, ◌≤◌, ◌<◌, ◌^◌, ◌*◌, ◌+◌, ◌-◌, [], ◌∷◌, ◌++◌, length, IfOk, replicate};
ghost use Rattle.queue_rule.specs.Chain.{start};
ghost use Rattle.queue_rule.specs.Views.{newcomer, view_of};
ghost use Rattle.delete_queue.specs.Seats.{base_of, seats_of};
ghost use Rattle.delete_queue.specs.Making.{AreNew, AreNewFrom, IsNew};
ghost use Rattle.delete_queue.specs.Ties.{IsLiveOf, view};

use crate::queue::DeleteQueue;
use crate::reserve::{Reserve, grow};
use crate::seat::{Progress, Seat};
use atomic_table::{Seat as TableSeat, Table};
use ix_base::NoMemory;
use queue_rule::{View, stretch_start};
use std::alloc::Global;

// A table for so many seats, and its first seat.
fn new_table(
    alloc: Global,
    base: u64,
    seats: u64,
    reserve: &mut Reserve,
) -> Result<(DeleteQueue, TableSeat<(), View>), NoMemory>
    requires { (base ≤ 2 ^ 62) × (0 < seats) × (seats ≤ 32) }
    ensures queue { IfOk result (λ r. (base_of r.0 ≡ base) × (seats_of r.0 ≡ seats)) }
    ensures seat { IfOk result (λ r. IsLiveOf r.0 r.1 × (view r.1 ≡ newcomer seats)) }
{
    let count = stretch_start(seats) as usize;
    grow(alloc, &mut reserve.zeros, count)?;
    let (table, seat) = Table::of_words(alloc, &reserve.zeros[..count], &seats)?;
    let queue = DeleteQueue {
        table,
        base,
        seats,
        alloc,
    };
    Ok((queue, seat))
}

impl DeleteQueue {
    // A seat that has linked and seen nothing.
    fn new_seat(&self, inner: TableSeat<(), View>, number: u64) -> Seat
        requires { IsLiveOf self.now inner × (view inner ≡ view_of (seats_of self.now) number [] [])
            × (number < seats_of self.now) }
        ensures { IsNew self.now number result }
    {
        Seat {
            inner,
            base: self.base,
            progress: Progress {
                number,
                used: 0,
                count: 0,
                last: 0,
                head: 0,
            },
        }
    }

    /// A queue whose first entry gets the sequence number base + 1, and its seats, in the order of
    /// their seat numbers, which begin at 0. It asks for a base of at most 2^62 and for 1 to 32 seats.
    /// Memory that an earlier queue left in the reserve is used again. The only error is out of memory.
    pub fn make(
        alloc: Global,
        base: u64,
        seats: u32,
        reserve: &mut Reserve,
    ) -> Result<(DeleteQueue, Vec<Seat>), NoMemory>
        requires base { base ≤ 2 ^ 62 }
        requires seats { (0 < seats) × (seats ≤ 32) }
        ensures queue { IfOk result (λ r. (base_of r.0 ≡ base) × (seats_of r.0 ≡ seats)) }
        ensures seats { IfOk result (λ r. AreNew r.0 r.1.items) }
    {
        let (queue, mut first) = new_table(alloc, base, seats as u64, reserve)?;
        let mut row = Vec::with_capacity(alloc, seats as usize)?;
        for number in 1..seats as u64 {
            let inner = queue.split(&mut first);
            row.push_reserved(queue.new_seat(inner, number));
        }
        row.insert(0, queue.new_seat(first, 0))?;
        Ok((queue, row))
    }
}
