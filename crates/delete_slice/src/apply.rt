//! Taking a slice's entries into updates.
ghost use Rattle.std.specs.Prelude.{◌≡◌, ◌+◌, ◌<◌, ◌≤◌, length, OnOk, OnErr, IfOk};
ghost use Rattle.ix_base.specs.Words.{IsEntryWords};
ghost use Rattle.delete_queue.specs.Seats.{IsSeatOf, HasSeen, Learns, base_of, seen_of};
ghost use Rattle.delete_queue.specs.Log.{entries_of};
ghost use Rattle.delete_slice.specs.Slices.{IsSliceOf};
ghost use Rattle.delete_slice.specs.Taken.{HaveUpTo, TakesSlice, TakesSome, TakesLogged, TakesSomeLogged, TakesNext, TakesNextLogged, TakesWords};
ghost use Rattle.delete_slice.specs.Laws.{IsInGrammar};

use crate::slice::Slice;
use delete_queue::{DeleteQueue, Place, QueueLog, Seat};
use frozen_packet::Updates;
use ix_base::NoMemory;
use node_words::{Entry, decode};
use std::alloc::Global;

impl Slice {
    /// Takes the slice's entries into the updates, in order: the updates then make of every row
    /// what they made of it before, followed by the slice's deletes and settings. Of the settings of
    /// one name in the documents of one term the last alone is kept. The seat then knows the words
    /// of these entries. No sequence number in the updates may be above the base of
    /// the queue plus the place `from`.
    ///
    /// The only error is out of memory. After it the updates have taken a prefix of these entries,
    /// and the seat may know more words than before. In any case the seat has seen no more entries.
    pub fn apply(
        &self,
        alloc: Global,
        queue: &DeleteQueue,
        seat: &mut Seat,
        updates: &mut Updates,
    ) -> Result<(), NoMemory>
        requires seat { IsSeatOf queue.now seat.old }
        requires slice { IsSliceOf seat.old self.now }
        requires updates { HaveUpTo (base_of queue.now + self.now.from.at) updates.old }
        ensures seat { IsSeatOf queue.now seat.new }
        ensures learns { Learns seat.old seat.new }
        ensures seen { seen_of seat.new ≡ seen_of seat.old }
        ensures ok { OnOk result (TakesSlice queue.now seat.new self.now updates.old updates.new) }
        ensures err { OnErr result (TakesSome queue.now seat.new self.now updates.old updates.new) }
    {
        let mut words = Vec::new(alloc);
        let mut place = self.from;
        while place.at < self.to.at {
            place = take_next(alloc, queue, seat, place, &mut words, updates)?;
        }
        updates.gather(alloc)
    }

    /// Takes the slice's entries into the updates, as `apply` does, from the log of the finished
    /// queue. `to` is a place in the log.
    ///
    /// The only error is out of memory. After it the updates have taken a prefix of these entries.
    pub fn apply_log(
        &self,
        alloc: Global,
        log: &QueueLog,
        updates: &mut Updates,
    ) -> Result<(), NoMemory>
        requires order { self.now.from.at ≤ self.now.to.at }
        requires inside { self.now.to.at ≤ length (entries_of log.now) }
        requires grammar { IsInGrammar log.now }
        requires updates { HaveUpTo (log.now.base + self.now.from.at) updates.old }
        ensures ok { OnOk result (TakesLogged log.now self.now updates.old updates.new) }
        ensures err { OnErr result (TakesSomeLogged log.now self.now updates.old updates.new) }
    {
        for index in self.from.at..self.to.at {
            take_logged(alloc, log, index, updates)?;
        }
        updates.gather(alloc)
    }
}

/// Takes the entry after a place that the seat has seen, and returns the place of that entry. `words`
/// is room for the entry's words, whatever it holds. After an error the updates are unchanged.
fn take_next(
    alloc: Global,
    queue: &DeleteQueue,
    seat: &mut Seat,
    place: Place,
    words: &mut Vec<u64>,
    updates: &mut Updates,
) -> Result<Place, NoMemory>
    requires seat { IsSeatOf queue.now seat.old }
    requires place { HasSeen seat.old place × (place.at < seen_of seat.old) }
    requires updates { HaveUpTo (base_of queue.now + place.at) updates.old }
    ensures seat { IsSeatOf queue.now seat.new }
    ensures learns { Learns seat.old seat.new }
    ensures seen { seen_of seat.new ≡ seen_of seat.old }
    ensures next { IfOk result (λ next. HasSeen seat.new next × (next.at ≡ place.at + 1)) }
    ensures taken { OnOk result (TakesNext queue.now seat.new place.at updates.old updates.new) }
    ensures err { OnErr result (updates.new ≡ updates.old) }
{
    let found = queue.after(seat, place);
    words.resize(found.words as usize, 0)?;
    queue.read(seat, found.place, words.as_mut_slice());
    take_words(alloc, found.number, words.as_slice(), updates)?;
    Ok(found.place)
}

/// Takes the entry of the log with this index, from 0. After an error the updates are unchanged.
fn take_logged(
    alloc: Global,
    log: &QueueLog,
    index: u64,
    updates: &mut Updates,
) -> Result<(), NoMemory>
    requires inside { index < length (entries_of log.now) }
    requires grammar { IsInGrammar log.now }
    requires updates { HaveUpTo (log.now.base + index) updates.old }
    ensures taken { OnOk result (TakesNextLogged log.now index updates.old updates.new) }
    ensures err { OnErr result (updates.new ≡ updates.old) }
{
    let (number, _, words) = log.entry(index);
    take_words(alloc, number, words, updates)
}

/// Takes the entry that these words spell, with this sequence number. After an error the updates are
/// unchanged.
fn take_words(
    alloc: Global,
    number: u64,
    words: &[u64],
    updates: &mut Updates,
) -> Result<(), NoMemory>
    requires grammar { IsEntryWords words.now }
    requires updates { HaveUpTo number updates.old }
    ensures taken { OnOk result (TakesWords number words.now updates.old updates.new) }
    ensures err { OnErr result (updates.new ≡ updates.old) }
{
    let Some(entry) = decode(alloc, words)? else {
        unreachable!()
    };
    // A turn has no sequence number of its own and changes nothing.
    if let Entry::Turn = entry {
        return Ok(());
    }
    updates.take(number, entry)
}
