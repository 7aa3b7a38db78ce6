//! New queues.
ghost use Rattle.std.specs.Prelude.{◌≡◌, ◌≤◌, ◌<◌, ◌^◌, IfOk};
ghost use Rattle.delete_queue.specs.Making.{AreNew};
ghost use Rattle.delete_queue.specs.Seats.{base_of, seats_of};

use delete_queue::{DeleteQueue, Reserve, Seat};
use ix_base::NoMemory;
use std::alloc::Global;

/// A queue whose first entry gets the sequence number base + 1, and its seats, with memory of its
/// own.
pub fn new_queue(alloc: Global, base: u64, seats: u32) -> Result<(DeleteQueue, Vec<Seat>), NoMemory>
    requires base { base ≤ 2 ^ 62 }
    requires seats { (0 < seats) × (seats ≤ 32) }
    ensures queue { IfOk result (λ r. (base_of r.0 ≡ base) × (seats_of r.0 ≡ seats)) }
    ensures seats { IfOk result (λ r. AreNew r.0 r.1.items) }
{
    let mut reserve = Reserve::new(alloc);
    DeleteQueue::make(alloc, base, seats, &mut reserve)
}
