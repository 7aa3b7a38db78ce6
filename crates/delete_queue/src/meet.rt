// One seat takes another over.
ghost use Rattle.std.specs.Prelude.{◌≡◌, ◌<◌, ◌≤◌, nat_lt, if◌then◌else◌};
ghost use Rattle.queue_rule.specs.Views.{joined};
ghost use Rattle.delete_queue.specs.Seats.{IsSeatOf, the_view, Meets};
ghost use Rattle.delete_queue.specs.Linking.{IsTaken, gone_on};

use crate::queue::DeleteQueue;
use crate::seat::{Progress, Seat};

// How far a seat has come once it has taken over another: as far as the one that has seen more.
fn further(mine: Progress, theirs: Progress) -> Progress
    ensures { result ≡ (if nat_lt mine.count theirs.count then gone_on mine theirs else mine) }
{
    if mine.count < theirs.count {
        Progress {
            number: mine.number,
            used: mine.used,
            count: theirs.count,
            last: theirs.last,
            head: theirs.head,
        }
    } else {
        mine
    }
}

impl DeleteQueue {
    // Takes a seat over. What the rule tells of both comes with the next step.
    fn take_over(&self, seat: &mut Seat, other: Seat)
        requires seat { IsSeatOf self.now seat.old }
        requires other { IsSeatOf self.now other }
        ensures taken { IsTaken self.now seat.new }
        ensures view { the_view seat.new ≡ joined (the_view seat.old) (the_view other) }
    {
        let Seat {
            inner,
            base: _,
            progress,
        } = other;
        self.join(&mut seat.inner, inner);
        seat.progress = further(seat.progress, progress);
    }

    /// The first seat takes over what the second has seen, knows and has linked. Both had seen
    /// prefixes of one list. It takes no memory and never waits.
    pub fn meet(&self, seat: &mut Seat, other: Seat)
        requires seat { IsSeatOf self.now seat.old }
        requires other { IsSeatOf self.now other }
        ensures seat { IsSeatOf self.now seat.new }
        ensures meets { Meets seat.old other seat.new }
    {
        self.take_over(seat, other);
        if seat.progress.count > 0 {
            self.load_linked(&mut seat.inner, 0);
        }
    }
}
