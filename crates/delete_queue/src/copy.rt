// Copying the list into the room of a log.
ghost use Rattle.std.specs.Prelude.{◌≡◌, ℕ, ◌+◌, ◌-◌, ◌*◌, ◌<◌, ◌≤◌, ◌∷◌, [], length, vec_len, vec_capacity, IfSome, IfNone};
ghost use Rattle.queue_rule.specs.Told.{Whole};
ghost use Rattle.delete_queue.specs.Seats.{IsSeatOf, the_view, seen_of, seats_of, HasSeen, Learns, IsFound};
ghost use Rattle.delete_queue.specs.Copying.{HasSpace, Adds, Copied, CopiedAll};

use crate::queue::DeleteQueue;
use crate::seat::{Found, Look, Place, Seat};

/// The room of a log: where its entries end, and their words.
#[derive(Drop)]
pub(crate) struct Room {
    pub(crate) ends: Vec<usize>,
    pub(crate) words: Vec<u64>,
}

impl DeleteQueue {
    // The entry after a place that was seen, or `None` where a load has just shown that there is none.
    fn next(&self, seat: &mut Seat, place: Place) -> Option<Found>
        requires seat { IsSeatOf self.now seat.old }
        requires place { HasSeen seat.old place × (place.at ≤ seen_of seat.old) }
        ensures seat { IsSeatOf self.now seat.new }
        ensures learns { Learns seat.old seat.new }
        ensures found { IfSome result (λ f. IsFound seat.new f × (f.place.at ≡ place.at + 1)
            × (f.place.at ≤ seen_of seat.new)) }
        ensures end { IfNone result ((place.at ≡ seen_of seat.new) × Whole (the_view seat.new)) }
    {
        if place.at < seat.seen() {
            return Some(self.after(seat, place));
        }
        match self.look(seat) {
            Look::Entry(found) => Some(found),
            Look::End => None,
        }
    }

    // Copies the words of an entry that was found.
    fn copy_words(&self, seat: &mut Seat, found: Found, words: &mut Vec<u64>)
        requires seat { IsSeatOf self.now seat.old }
        requires found { IsFound seat.old found }
        requires room { vec_len words.old + found.words ≤ vec_capacity words.old }
        ensures seat { IsSeatOf self.now seat.new }
        ensures learns { Learns seat.old seat.new × (seen_of seat.new ≡ seen_of seat.old) }
        ensures words { Adds seat.new found.place.at words.old.items words.new.items }
        ensures capacity { vec_capacity words.new ≡ vec_capacity words.old }
    {
        let first = found.place.word as usize + 1;
        for i in 0..found.words as usize {
            words.push_reserved(self.load_linked(&mut seat.inner, first + i));
        }
    }

    // Copies an entry that was found to the end of the room.
    fn copy(&self, seat: &mut Seat, found: Found, room: &mut Room)
        requires seat { IsSeatOf self.now seat.old }
        requires found { IsFound seat.old found }
        requires copied { Copied seat.old (found.place.at - 1) room.old }
        requires space { HasSpace room.old (seats_of self.now) }
        ensures seat { IsSeatOf self.now seat.new }
        ensures learns { Learns seat.old seat.new × (seen_of seat.new ≡ seen_of seat.old) }
        ensures copied { Copied seat.new found.place.at room.new }
        ensures space { HasSpace room.new (seats_of self.now) }
    {
        self.copy_words(seat, found, &mut room.words);
        room.ends.push_reserved(room.words.len());
    }

    // Copies the list, from its first entry to its end.
    pub(crate) fn copy_all(&self, seat: &mut Seat, room: &mut Room)
        requires seat { IsSeatOf self.now seat.old }
        requires empty { (room.old.ends.items ≡ []) × (room.old.words.items ≡ []) }
        requires space { HasSpace room.old (seats_of self.now) }
        ensures seat { IsSeatOf self.now seat.new }
        ensures learns { Learns seat.old seat.new }
        ensures copied { CopiedAll seat.new room.new }
    {
        let mut place = Place { at: 0, word: 0 };
        loop {
            let Some(found) = self.next(seat, place) else {
                return;
            };
            self.copy(seat, found, room);
            place = found.place;
        }
    }
}
