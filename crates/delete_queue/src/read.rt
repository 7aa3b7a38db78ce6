// Looking for entries, and reading their words.
ghost use Rattle.std.specs.Prelude.{◌≡◌, ℕ, ◌+◌, ◌-◌, ◌*◌, ◌/◌, ◌%◌, ◌^◌, ◌<◌, ◌≤◌, ◌==◌, ◌⊎◌, ◌∷◌, [], ◌++◌, length, slice_index, if◌then◌else◌};
ghost use Rattle.ix_base.specs.Words.{head_kind, word_count};
ghost use Rattle.delete_queue.specs.Seats.{IsSeat, IsSeatOf, the_view, number_of, seen_of, number_at, last_of, HasSeen, HasSize, Knows, Learns, Loads, IsFound};
ghost use Rattle.delete_queue.specs.Answers.{FindsNext, FindsEnd, IfEntry, IfEnd};

use crate::link::number_of_entry;
use crate::queue::DeleteQueue;
use crate::seat::{Found, Look, Place, Seat};
use queue_rule::{kind_of, words_of};

// What the head of the entry at a place says of it.
fn found_at(base: u64, place: Place, head: u64) -> Found
    requires range { (base ≤ 2 ^ 62) × (place.at ≤ 2 ^ 62) × (0 < place.at) }
    ensures place { result.place ≡ place }
    ensures number { result.number ≡ number_at base place.at head }
    ensures kind { result.kind ≡ head_kind head }
    ensures words { result.words ≡ word_count head }
{
    Found {
        place,
        number: number_of_entry(base, place.at, head),
        kind: kind_of(head),
        words: words_of(head),
    }
}

impl Seat {
    /// The place of the last entry that the seat has seen, or (0, 0) where it has seen none.
    pub fn last(&self) -> Place
        requires { IsSeat self.now }
        ensures seen { HasSeen self.now result }
        ensures last { result.at ≡ seen_of self.now }
    {
        Place {
            at: self.progress.count,
            word: self.progress.last,
        }
    }

    /// The seat number, from 0: the queue's seats have the numbers below their count.
    pub fn number(&self) -> u64
        requires { IsSeat self.now }
        ensures { result ≡ number_of self.now }
    {
        self.progress.number
    }

    /// How many entries the seat has seen.
    pub fn seen(&self) -> u64
        requires { IsSeat self.now }
        ensures { result ≡ seen_of self.now }
    {
        self.progress.count
    }
}

impl DeleteQueue {
    // What the head of the last entry seen says of it.
    fn last_found(&self, seat: &Seat) -> Found
        requires { IsSeatOf self.now seat.now × (0 < seen_of seat.now) }
        ensures found { IsFound seat.now result }
        ensures last { result.place.at ≡ seen_of seat.now }
    {
        found_at(seat.base, seat.last(), seat.progress.head)
    }

    /// Looks for the next entry, which the seat has not seen: one load of the next word of the
    /// last entry that it has seen. `End` comes exactly where that load read 0; the seat has then
    /// seen all entries that there were at that moment. It takes no memory and never waits.
    pub fn look(&self, seat: &mut Seat) -> Look
        requires seat { IsSeatOf self.now seat.old }
        ensures seat { IsSeatOf self.now seat.new }
        ensures learns { Learns seat.old seat.new }
        ensures load { Loads seat.old seat.new }
        ensures entry { IfEntry result (λ found. FindsNext seat.old seat.new found) }
        ensures end { IfEnd result (FindsEnd seat.old seat.new) }
    {
        let last = seat.progress.last as usize;
        let found = self.load_next(&mut seat.inner, last);
        if found == 0 {
            return Look::End;
        }
        self.go_on(seat, found);
        Look::Entry(self.last_found(seat))
    }

    /// The entry after a place that the seat has seen and that isn't the last one seen. The first
    /// entry comes after (0, 0). It takes no memory and never waits.
    pub fn after(&self, seat: &mut Seat, place: Place) -> Found
        requires seat { IsSeatOf self.now seat.old }
        requires place { HasSeen seat.old place × (place.at < seen_of seat.old) }
        ensures seat { IsSeatOf self.now seat.new }
        ensures learns { Learns seat.old seat.new × (seen_of seat.new ≡ seen_of seat.old) }
        ensures found { IsFound seat.new result }
        ensures next { result.place.at ≡ place.at + 1 }
    {
        let word = self.load_linked(&mut seat.inner, place.word as usize);
        let head = self.load_linked(&mut seat.inner, (word + 1) as usize);
        let next = Place {
            at: place.at + 1,
            word,
        };
        found_at(seat.base, next, head)
    }

    /// Reads the words of the entry at a place that the seat has seen into `words`, which must be as
    /// long as the entry. It takes no memory and never waits.
    pub fn read(&self, seat: &mut Seat, place: Place, words: &mut [u64])
        requires seat { IsSeatOf self.now seat.old }
        requires words { HasSize seat.old place (length words.old) }
        ensures seat { IsSeatOf self.now seat.new }
        ensures learns { Learns seat.old seat.new × (seen_of seat.new ≡ seen_of seat.old) }
        ensures words { Knows seat.new place.at words.new }
        ensures size { length words.new ≡ length words.old }
    {
        let first = place.word as usize + 1;
        for i in 0..words.len() {
            words[i] = self.load_linked(&mut seat.inner, first + i);
        }
    }
}
