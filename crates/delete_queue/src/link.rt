// Linking an entry, and closing the queue.
ghost use Rattle.std.specs.Prelude.{◌≡◌, ℕ, ◌+◌, ◌-◌, ◌*◌, ◌^◌, ◌<◌, ◌≤◌, ◌==◌, ◌⊎◌, ◌∷◌, [], ◌++◌, length, MatchBool, slice_index, if◌then◌else◌};
ghost use Rattle.ix_base.specs.Words.{IsEntryWords, head_kind};
ghost use Rattle.queue_rule.specs.Lists.{Starts};
ghost use Rattle.queue_rule.specs.Chain.{filled, own};
ghost use Rattle.queue_rule.specs.Views.{with_draft, draft_start, knows};
ghost use Rattle.queue_rule.specs.Told.{SawOpen};
ghost use Rattle.delete_queue.specs.Seats.{IsSeatOf, the_view, own_of, seen_of, used_of, left_of, number_at, last_of, SawClosed, Grows, Links, FindsClosed};
ghost use Rattle.delete_queue.specs.Answers.{IsOperation, IfTurn, IfAt, IfClosed, IfFull, FullExactly, closing_words};
ghost use Rattle.delete_queue.specs.Linking.{Follows, GoesOn, Came, HasRoom, Puts};

use crate::queue::DeleteQueue;
use crate::seat::{Closing, Linked, Seat};
use queue_rule::{FIRST_CLOSING_KIND, TURN_KIND, closes, kind_of, stretch_start, words_left};

/// The sequence number of the entry at a place, from 1. A turn has that of the entry before it.
pub(crate) fn number_of_entry(base: u64, place: u64, head: u64) -> u64
    requires range { (base ≤ 2 ^ 62) × (place ≤ 2 ^ 62) }
    requires turn { 7 ≤ head_kind head → 0 < place }
    ensures { result ≡ number_at base place head }
{
    if kind_of(head) == TURN_KIND {
        base + place - 1
    } else {
        base + place
    }
}

// The head of an entry that closes the queue. It has no further words.
fn closing_head(closing: Closing) -> u64
    ensures { result ∷ [] ≡ closing_words closing }
{
    match closing {
        Closing::Commit => FIRST_CLOSING_KIND << 32,
        Closing::Turn => TURN_KIND << 32,
    }
}

impl DeleteQueue {
    /// The sequence number of the last numbered entry that the seat has seen, or the base where it has
    /// seen none.
    pub fn last_number(&self, seat: &Seat) -> u64
        requires { IsSeatOf self.now seat.now }
        ensures { result ≡ last_of seat.now }
    {
        number_of_entry(seat.base, seat.progress.count, seat.progress.head)
    }

    // Whether the last entry seen closes the queue.
    fn saw_close(&self, seat: &Seat) -> bool
        requires { IsSeatOf self.now seat.now }
        ensures { MatchBool result (SawClosed (the_view seat.now)) (SawOpen (the_view seat.now)
            × (used_of seat.now ≤ 16640)) }
    {
        closes(seat.progress.head)
    }

    // The address behind the seat's own entries, where its draft begins.
    fn draft_start(&self, seat: &Seat) -> u64
        requires { IsSeatOf self.now seat.now }
        ensures { result ≡ draft_start (the_view seat.now) }
    {
        stretch_start(seat.progress.number) + seat.progress.used
    }

    // Writes a next word 0 and then the words as the seat's draft, after its own entries.
    fn lay(&self, seat: &mut Seat, words: &[u64])
        requires seat { IsSeatOf self.now seat.old }
        requires room { used_of seat.old + length words.now + 1 ≤ 16642 }
        ensures seat { IsSeatOf self.now seat.new }
        ensures view { the_view seat.new ≡ with_draft (the_view seat.old) (0 ∷ words.now) }
    {
        let draft_start = self.draft_start(seat) as usize;
        self.store_draft(&mut seat.inner, draft_start, 0);
        for i in 0..words.len() {
            self.store_draft(&mut seat.inner, draft_start + 1 + i, words[i]);
        }
    }

    // Goes on to the entry that was found after the last one seen, and reads its head.
    pub(crate) fn go_on(&self, seat: &mut Seat, found: u64)
        requires seat { GoesOn self.now seat.old found }
        ensures seat { IsSeatOf self.now seat.new }
        ensures view { the_view seat.new
            ≡ knows (the_view seat.old) (found + 1) seat.new.progress.head }
    {
        seat.progress.count += 1;
        seat.progress.last = found;
        seat.progress.head = self.load_linked(&mut seat.inner, (found + 1) as usize);
    }

    // The draft was linked at `draft_start`. It is the last entry seen.
    fn came(&self, seat: &mut Seat, draft_start: u64, words: &[u64])
        requires seat { Came self.now seat.old draft_start words.now }
        ensures seat { IsSeatOf self.now seat.new × (seat.new.inner ≡ seat.old.inner) }
        ensures head { seat.new.progress.head ≡ slice_index words.now 0 }
    {
        seat.progress.used += words.len() as u64 + 1;
        seat.progress.count += 1;
        seat.progress.last = draft_start;
        seat.progress.head = words[0];
    }

    // Links an entry with these words after all that are there, unless the queue is closed. Returns
    // whether it was linked.
    fn put(&self, seat: &mut Seat, words: &[u64]) -> bool
        requires seat { IsSeatOf self.now seat.old }
        requires words { IsEntryWords words.now }
        requires room { HasRoom (used_of seat.old) words.now }
        ensures seat { IsSeatOf self.now seat.new }
        ensures follows { Follows (the_view seat.old) (the_view seat.new) }
        ensures put { MatchBool result (Puts seat.old seat.new words.now)
            (FindsClosed seat.old seat.new) }
    {
        self.lay(seat, words);
        let draft_start = self.draft_start(seat);
        loop {
            if self.saw_close(seat) {
                return false;
            }
            let last = seat.progress.last as usize;
            let found = self.try_link(&mut seat.inner, last, draft_start);
            if found == 0 {
                self.came(seat, draft_start, words);
                return true;
            }
            self.go_on(seat, found);
        }
    }

    /// Links an entry with these words after all that are there, and returns its sequence number,
    /// which is the base plus its place in the list. It takes no memory and never waits.
    ///
    /// `Full` comes, before any shared word is touched and with the seat as it was, exactly where
    /// the entry takes more words than are left to the seat; two of its 16,642 words are kept back
    /// for `close`. `Closed` comes only where the last entry that the seat has seen closes the
    /// queue. After either, the seat's own entries are as before; after `Closed` it may have seen
    /// and known more.
    pub fn link(&self, seat: &mut Seat, words: &[u64]) -> Linked
        requires seat { IsSeatOf self.now seat.old }
        requires words { IsOperation words.now }
        ensures seat { IsSeatOf self.now seat.new }
        ensures grows { Grows seat.old seat.new }
        ensures at { IfAt result (λ n. Links seat.old seat.new words.now n) }
        ensures closed { IfClosed result (FindsClosed seat.old seat.new) }
        ensures full { FullExactly result (length words.now + 1) (left_of seat.old) }
        ensures unchanged { IfFull result (seat.new ≡ seat.old) }
    {
        let need = words.len() as u64 + 1;
        let left = words_left(seat.progress.used);
        if need > left {
            return Linked::Full { need, left };
        }
        if self.put(seat, words) {
            Linked::At(self.last_number(seat))
        } else {
            Linked::Closed
        }
    }

    /// Links an entry that closes the queue: a commit, whose sequence number it returns, or a turn,
    /// for which it returns the sequence number of the last numbered entry before it. A turn asks that
    /// the seat has linked an entry. It takes no memory and never waits.
    ///
    /// `Closed` comes only where the last entry that the seat has seen closes the queue already;
    /// the seat's own entries are then as before. `Full` never comes.
    pub fn close(&self, seat: &mut Seat, closing: Closing) -> Linked
        requires seat { IsSeatOf self.now seat.old }
        requires turn { IfTurn closing (0 < length (own_of seat.old)) }
        ensures seat { IsSeatOf self.now seat.new }
        ensures grows { Grows seat.old seat.new }
        ensures at { IfAt result (λ n. Links seat.old seat.new (closing_words closing) n) }
        ensures closed { IfClosed result (FindsClosed seat.old seat.new) }
        ensures full { IfFull result ⊥ }
    {
        if self.saw_close(seat) {
            return Linked::Closed;
        }
        if self.put(seat, &[closing_head(closing)]) {
            Linked::At(self.last_number(seat))
        } else {
            Linked::Closed
        }
    }
}
