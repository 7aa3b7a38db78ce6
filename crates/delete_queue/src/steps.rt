// The six kinds of atomic step. The queue's table moves through these functions alone.
ghost use Rattle.std.specs.Prelude.{◌≡◌, ◌<◌, [], length};
ghost use Rattle.queue_rule.specs.Lists.{last_or};
ghost use Rattle.queue_rule.specs.Chain.{start};
ghost use Rattle.queue_rule.specs.Views.{draft_start, knows, kept_back, split_off, joined};
ghost use Rattle.queue_rule.specs.Told.{MayRead};
ghost use Rattle.delete_queue.specs.Ties.{IsTold, IsLiveOf, view};
ghost use Rattle.delete_queue.specs.Linking.{drafted, DraftsAt, MayLink, Exchanged, Looked};

use crate::queue::DeleteQueue;
use atomic_table::Seat;
use queue_rule::{LinkDraft, LoadLinked, LoadNext, SeatNumbers, StoreDraft, View};

impl DeleteQueue {
    /// A store of a draft word, after the seat's own entries.
    pub(crate) fn store_draft(&self, seat: &mut Seat<(), View>, at: usize, word: u64)
        requires seat { IsTold self.now seat.old }
        requires place { DraftsAt (view seat.old) at }
        ensures seat { IsTold self.now seat.new }
        ensures view { view seat.new ≡ drafted (view seat.old) at word }
    {
        self.table.shared.store::<StoreDraft>(seat, at, word)
    }

    /// A compare-exchange on the next word of the last entry seen. Returns 0 where the draft was
    /// linked, and else the address of an entry that the seat had not seen.
    pub(crate) fn try_link(&self, seat: &mut Seat<(), View>, last: usize, at: u64) -> u64
        requires seat { IsTold self.now seat.old }
        requires place { (last ≡ last_or 0 (view seat.old).seen)
            × (at ≡ draft_start (view seat.old)) }
        requires entry { MayLink (view seat.old) }
        ensures seat { IsTold self.now seat.new }
        ensures view { Exchanged (view seat.old) (view seat.new) result }
    {
        self.table
            .shared
            .compare_exchange::<LinkDraft>(seat, last, 0, at)
    }

    /// A load of the next word of the last entry seen.
    pub(crate) fn load_next(&self, seat: &mut Seat<(), View>, last: usize) -> u64
        requires seat { IsTold self.now seat.old }
        requires place { last ≡ last_or 0 (view seat.old).seen }
        ensures seat { IsTold self.now seat.new }
        ensures view { Looked (view seat.old) (view seat.new) last result }
    {
        self.table.shared.load::<LoadNext>(seat, last)
    }

    /// A load of a linked word, which stays what it is.
    pub(crate) fn load_linked(&self, seat: &mut Seat<(), View>, at: usize) -> u64
        requires seat { IsLiveOf self.now seat.old }
        requires place { MayRead (view seat.old) at × (at < start (view seat.old).seats) }
        ensures seat { IsTold self.now seat.new }
        ensures view { view seat.new ≡ knows (view seat.old) at result }
    {
        self.table.shared.load::<LoadLinked>(seat, at)
    }

    /// Splits off a seat with the next seat number.
    pub(crate) fn split(&self, seat: &mut Seat<(), View>) -> Seat<(), View>
        requires seat { IsLiveOf self.now seat.old }
        requires spares { 0 < length (view seat.old).spares }
        ensures seat { IsLiveOf self.now seat.new × (view seat.new ≡ kept_back (view seat.old)) }
        ensures other { IsLiveOf self.now result × (view result ≡ split_off (view seat.old)) }
    {
        self.table.shared.split_seat::<SeatNumbers>(seat)
    }

    /// A seat takes over another.
    pub(crate) fn join(&self, seat: &mut Seat<(), View>, other: Seat<(), View>)
        requires seat { IsLiveOf self.now seat.old }
        requires other { IsLiveOf self.now other × ((view other).spares ≡ []) }
        ensures seat { IsLiveOf self.now seat.new }
        ensures view { view seat.new ≡ joined (view seat.old) (view other) }
    {
        self.table.shared.join_seat::<SeatNumbers>(seat, other)
    }
}
