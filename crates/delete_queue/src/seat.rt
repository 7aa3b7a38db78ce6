// A seat, and what the calls return.
use atomic_table::Seat as TableSeat;
use queue_rule::View;

/// What one thread links and reads with. It belongs to one queue, and goes where its thread goes.
/// What it has linked, seen and read it keeps.
#[derive(Drop)]
pub struct Seat {
    pub(crate) inner: TableSeat<(), View>,
    pub(crate) base: u64,
    pub(crate) progress: Progress,
}

/// How far a seat has come.
#[derive(Clone, Copy)]
pub(crate) struct Progress {
    /// The seat number, from 0.
    pub(crate) number: u64,
    /// How many words its own entries take.
    pub(crate) used: u64,
    /// How many entries it has seen.
    pub(crate) count: u64,
    /// The address of the last entry seen, or 0 where it has seen none.
    pub(crate) last: u64,
    /// The head of the last entry seen, or 0 where it has seen none.
    pub(crate) head: u64,
}

// A seat holds nothing beside its seat at the table and six numbers, and so no lock.
const _: () = prove!(size_of::<Seat>() == size_of::<TableSeat<(), View>>() + 48);

/// A place in the list: which entry, from 1, and its address. (0, 0) stands before the first.
#[derive(Clone, Copy, Debug, PartialEq, Eq)]
pub struct Place {
    /// The place in the list, from 1.
    pub at: u64,
    /// The address of the entry's next word.
    pub word: u64,
}

/// An entry that was found.
#[derive(Clone, Copy, Debug, PartialEq, Eq)]
pub struct Found {
    /// Its place.
    pub place: Place,
    /// Its sequence number; of a turn, that of the numbered entry before it.
    pub number: u64,
    /// Its kind, 1 to 7.
    pub kind: u64,
    /// How many words it has.
    pub words: u64,
}

/// What `look` returns.
#[derive(Clone, Copy, Debug, PartialEq, Eq)]
pub enum Look {
    /// The next entry that the seat had not seen.
    Entry(Found),
    /// There was none when this call looked.
    End,
}

/// What `link` and `close` return.
#[derive(Clone, Copy, Debug, PartialEq, Eq)]
pub enum Linked {
    /// The entry was linked and has this sequence number; of a turn, that of the numbered entry before
    /// it.
    At(u64),
    /// The list ends in an entry that closes the queue. Nothing was linked.
    Closed,
    /// The seat has no room for the entry. Nothing was linked.
    Full {
        /// How many words the entry takes: one more than it has.
        need: u64,
        /// How many are left to the seat, without the two that are kept back for `close`.
        left: u64,
    },
}

/// What closes a queue.
#[derive(Clone, Copy, Debug, PartialEq, Eq)]
pub enum Closing {
    /// A commit, which has a sequence number of its own.
    Commit,
    /// A turn: a round ends because a seat is full. It has no sequence number of its own.
    Turn,
}
