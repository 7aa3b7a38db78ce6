//! A caller of these tests.
ghost use Rattle.std.specs.Prelude.{◌≡◌, ◌<◌, ◌+◌, [], true, false};
ghost use Rattle.std.specs.Arc.{arc_value};
ghost use Rattle.door_pool.specs.Passes.{IsPassOf, table_of, view_of};

use crate::notes::Notes;
use crossbeam_channel::Receiver;
use door_pool::{Doors, Enter, Pass};
use std::alloc::Global;
use std::sync::{Arc, Wait};

/// Doors, and a pass of them that is out.
#[derive(Drop)]
pub struct Next {
    doors: Arc<Doors<Notes>, Global>,
    pass: Pass<Notes>,
    ghost table: { pass.seat.table_id ≡ table_of (arc_value doors) },
    ghost words: { pass.door + 2 < (table_of (arc_value doors)).words },
    ghost few: { pass.door < 16 },
    ghost is_pass: { (view_of pass).is_pass ≡ true },
    ghost no_keeper: { (view_of pass).is_keeper ≡ false },
    ghost door: { (view_of pass).door ≡ pass.door },
    ghost outside: { (view_of pass).inside ≡ false },
    ghost empty: { pass.seat.me.1 ≡ [] },
}

impl Next {
    /// A pass of these doors that is out.
    pub fn new(doors: Arc<Doors<Notes>, Global>, pass: Pass<Notes>) -> Next
        requires pass { IsPassOf (arc_value doors) pass }
        requires outside { (view_of pass).inside ≡ false }
    {
        Next { doors, pass }
    }

    /// The doors and the pass.
    pub fn into_parts(self) -> (Arc<Doors<Notes>, Global>, Pass<Notes>)
        ensures pass { IsPassOf (arc_value result.0) result.1 }
        ensures outside { (view_of result.1).inside ≡ false }
    {
        let Next { doors, pass } = self;
        (doors, pass)
    }
}

/// Tells the hand behind the pass's door so many lines, each in a turn of its own, and then counts the
/// caller as ended. It stops where the door is shut.
pub fn work(doors: &Doors<Notes>, pass: &mut Pass<Notes>, lines: u64)
    requires pass { IsPassOf doors.now pass.old }
    requires outside { (view_of pass.old).inside ≡ false }
{
    for line in 0..lines {
        let Enter::In(hand) = doors.enter(pass) else {
            return;
        };
        let mut hand = hand;
        hand.tell(line);
        doors.leave(pass, hand);
    }
    doors.done(pass);
}

/// Works a thousand lines at each of the doors that come, until the channel ends.
pub fn caller<R: Wait>(rt: &R, inbox: Receiver<Next>) {
    for next in inbox.into_iter(rt) {
        let (doors, pass) = next.into_parts();
        let mut pass = pass;
        work(&doors, &mut pass, 1000);
    }
}
