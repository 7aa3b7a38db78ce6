//! The keeper at the doors.
ghost use Rattle.std.specs.Prelude.{◌≡◌, ◌<◌, ◌+◌, Some, length, true, false};
ghost use Rattle.door_pool.specs.Passes.{IsKeeperOf, IfOut, IfBusy, keeper_view, known_doors};
ghost use Rattle.door_pool.specs.Views.{after_take, after_found, deed_at, taken_at};
ghost use Rattle.door_pool.specs.Steps.{Takes};

use crate::doors::{Doors, Keeper};
use crate::held::Held;
use crate::steps::{BellOrCount, TakeDoor};

/// What `take` answers.
#[derive(Drop)]
pub enum Take<H: Drop> {
    /// The hand that lay behind the door. The door is taken from now on.
    Out(H),
    /// The door's pass is in. The door isn't taken.
    Busy {
        /// The door's word that this call found: 1.
        word: u64,
    },
}

impl<H: Held + Drop> Doors<H> {
    /// Takes a door for good, and gives the hand that lies behind it, with the deed that the
    /// keeper knows of this door. The only other answer is that the door's pass is in, which this
    /// call's own exchange found. Doors are counted from 0.
    pub fn take(&self, keeper: &mut Keeper<H>, door: usize) -> Take<H>
        requires keeper { IsKeeperOf self.now keeper.old }
        requires door { door < length (known_doors keeper.old) }
        requires free { taken_at (known_doors keeper.old) door ≡ false }
        ensures keeper { IsKeeperOf self.now keeper.new }

        ensures deed { IfOut result (λ h. Some (H.deed h) ≡ deed_at (known_doors keeper.old) door) }
        ensures taken { IfOut result (λ _.
            keeper_view keeper.new ≡ after_take (keeper_view keeper.old) door) }

        ensures busy { IfBusy result (λ word. word ≡ 1) }
        ensures found { IfBusy result (λ word.
            keeper_view keeper.new ≡ after_found (keeper_view keeper.old) word) }
    {
        let found = self.try_take(keeper, door);
        if found == 0 {
            match self.table.shared.exchange(&mut keeper.seat, door, None) {
                Some(hand) => Take::Out(hand),
                None => unreachable!(),
            }
        } else {
            Take::Busy { word: found }
        }
    }

    /// Tries a door, and returns the word found there. At 0 the door is taken, and the slot with
    /// the hand is out with the keeper.
    fn try_take(&self, keeper: &mut Keeper<H>, door: usize) -> u64
        requires keeper { IsKeeperOf self.now keeper.old }
        requires door { door < length (known_doors keeper.old) }
        requires free { taken_at (known_doors keeper.old) door ≡ false }
        ensures table { keeper.new.seat.table_id ≡ keeper.old.seat.table_id }
        ensures tried { Takes H.deed (door + 2) keeper.old.seat.me result keeper.new.seat.me }
    {
        self.table
            .shared
            .compare_exchange::<TakeDoor<H>>(&mut keeper.seat, door + 2, 0, 2)
    }

    /// Whether the bell was rung. No clause says when.
    pub fn rung(&self, keeper: &mut Keeper<H>) -> bool
        requires keeper { IsKeeperOf self.now keeper.old }
        ensures keeper { IsKeeperOf self.now keeper.new }
        ensures same { keeper_view keeper.new ≡ keeper_view keeper.old }
    {
        self.table.shared.load::<BellOrCount>(&mut keeper.seat, 0) != 0
    }

    /// How many callers have ended: how often `done` was called. No clause says so.
    pub fn ended(&self, keeper: &mut Keeper<H>) -> u64
        requires keeper { IsKeeperOf self.now keeper.old }
        ensures keeper { IsKeeperOf self.now keeper.new }
        ensures same { keeper_view keeper.new ≡ keeper_view keeper.old }
    {
        self.table.shared.load::<BellOrCount>(&mut keeper.seat, 1)
    }
}
