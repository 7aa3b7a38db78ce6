//! Where a slice begins and ends.
ghost use Rattle.std.specs.Prelude.{◌≡◌};
ghost use Rattle.delete_queue.specs.Seats.{IsSeat, IsSeatOf, Learns, seen_of};
ghost use Rattle.delete_slice.specs.Slices.{IsSliceOf, LooksToEnd};

use delete_queue::{DeleteQueue, Look, Place, Seat};

/// A part of the queue's list: the entries after `from`, up to and with `to`. It belongs to one
/// thread, as its seat does.
#[derive(Clone, Copy, Debug, PartialEq, Eq)]
pub struct Slice {
    /// The place of the last entry before the slice, (0, 0) where there is none.
    pub from: Place,
    /// The place of the slice's last entry; `from` where the slice is empty.
    pub to: Place,
}

impl Slice {
    /// The empty slice after the last entry that the seat has seen. It takes no memory.
    pub fn start(seat: &Seat) -> Slice
        requires { IsSeat seat.now }
        ensures slice { IsSliceOf seat.now result }
        ensures from { result.from.at ≡ seen_of seat.now }
        ensures empty { result.to ≡ result.from }
    {
        let last = seat.last();
        Slice {
            from: last,
            to: last,
        }
    }

    /// Moves the slice's end to the end of the list: the last entry that the seat has seen, after
    /// a `look` of this call has answered `End`. It takes no memory and never waits.
    pub fn advance(&mut self, queue: &DeleteQueue, seat: &mut Seat)
        requires seat { IsSeatOf queue.now seat.old }
        requires slice { IsSliceOf seat.old self.old }
        ensures seat { IsSeatOf queue.now seat.new }
        ensures learns { Learns seat.old seat.new }
        ensures slice { IsSliceOf seat.new self.new }
        ensures from { self.new.from ≡ self.old.from }
        ensures to { self.new.to.at ≡ seen_of seat.new }
        ensures end { LooksToEnd seat.old seat.new }
    {
        look_to_end(queue, seat);
        self.to = seat.last();
    }
}

/// Looks for further entries until there is none.
fn look_to_end(queue: &DeleteQueue, seat: &mut Seat)
    requires { IsSeatOf queue.now seat.old }
    ensures seat { IsSeatOf queue.now seat.new }
    ensures learns { Learns seat.old seat.new }
    ensures end { LooksToEnd seat.old seat.new }
{
    loop {
        match queue.look(seat) {
            Look::Entry(_) => {}
            Look::End => return,
        }
    }
}
