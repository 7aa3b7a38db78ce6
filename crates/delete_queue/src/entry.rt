// Reading a log.
ghost use Rattle.std.specs.Prelude.{◌≡◌, ℕ, take, drop, ◌-◌, ◌^◌, ◌+◌, ◌<◌, ◌≤◌, ◌∷◌, length, slice_index};
ghost use mathlib.Core.Option.{some};
ghost use lib.ListN.{get_elem?};
ghost use Rattle.ix_base.specs.Words.{head_kind};
ghost use Rattle.delete_queue.specs.Seats.{number_at};
ghost use Rattle.delete_queue.specs.Log.{entries_of};

use crate::link::number_of_entry;
use crate::log::QueueLog;
use queue_rule::kind_of;

impl QueueLog {
    /// How many entries the log has, an entry that closed the queue included.
    pub fn len(&self) -> u64
        ensures { result ≡ length (entries_of self.now) }
    {
        self.ends.len() as u64
    }

    /// Where the entry with this index begins among the words.
    fn begin(&self, index: usize) -> usize
        requires { index ≤ length self.now.ends.items }
        ensures { result ≡ slice_index (0 ∷ self.now.ends.items) index }
    {
        if index == 0 { 0 } else { self.ends[index - 1] }
    }

    /// Where the entry with this index begins and ends among the words.
    fn bounds(&self, i: u64) -> (usize, usize)
        requires { i < length (entries_of self.now) }
        ensures order { result.0 < result.1 }
        ensures inside { result.1 ≤ length self.now.words.items }
        ensures index { i < 2 ^ 61 }
        ensures piece { get_elem? (entries_of self.now) i
            ≡ some (take (result.1 - result.0) (drop result.0 self.now.words.items)) }
    {
        let index = i as usize;
        (self.begin(index), self.ends[index])
    }

    /// The sequence number, the kind, 1 to 7, and the words of the entry with this index, from 0. The
    /// sequence number is the base plus the entry's place in the list, from 1. A turn has that of the
    /// entry before it.
    pub fn entry(&self, i: u64) -> (u64, u64, &[u64])
        requires { i < length (entries_of self.now) }
        ensures words { get_elem? (entries_of self.now) i ≡ some result.2.now }
        ensures kind { result.1 ≡ head_kind (slice_index result.2.now 0) }
        ensures number { result.0 ≡ number_at self.now.base (i + 1) (slice_index result.2.now 0) }
    {
        let (begin, end) = self.bounds(i);
        let words = &self.words[begin..end];
        let head = words[0];
        (
            number_of_entry(self.base, i + 1, head),
            kind_of(head),
            words,
        )
    }
}
