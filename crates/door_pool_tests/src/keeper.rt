//! The keeper of these tests.
ghost use Rattle.std.specs.Prelude.{◌≡◌, ◌<◌, ◌≤◌, IfSome, length, true, false};
ghost use Rattle.door_pool.specs.Passes.{IsKeeperOf, NoneTaken, known_doors};
ghost use Rattle.door_pool.specs.Views.{taken_at, with_taken};

use crate::notes::Notes;
use door_pool::{Doors, Keeper, Take};
use std::thread;

/// How often the keeper looks before it gives up.
const TURNS: u64 = 4_000_000;

/// Waits until so many callers have ended, and returns whether they did.
pub fn wait_for(doors: &Doors<Notes>, keeper: &mut Keeper<Notes>, count: u64) -> bool
    requires keeper { IsKeeperOf doors.now keeper.old }
    ensures keeper { IsKeeperOf doors.now keeper.new }
    ensures same { known_doors keeper.new ≡ known_doors keeper.old }
{
    for _ in 0..TURNS {
        if doors.ended(keeper) == count {
            return true;
        }
        thread::yield_now();
    }
    false
}

/// Takes a door, and waits while its caller is in.
pub fn take_soon(doors: &Doors<Notes>, keeper: &mut Keeper<Notes>, door: usize) -> Option<Notes>
    requires keeper { IsKeeperOf doors.now keeper.old }
    requires door { door < length (known_doors keeper.old) }
    requires free { taken_at (known_doors keeper.old) door ≡ false }
    ensures keeper { IsKeeperOf doors.now keeper.new }
    ensures taken { IfSome result (λ _.
        known_doors keeper.new ≡ with_taken (known_doors keeper.old) door) }
{
    for _ in 0..TURNS {
        match doors.take(keeper, door) {
            Take::Out(hand) => return Some(hand),
            Take::Busy { .. } => thread::yield_now(),
        }
    }
    None
}

/// Waits until both callers have ended, and takes both doors.
pub fn take_both(doors: &Doors<Notes>, keeper: &mut Keeper<Notes>) -> Option<(Notes, Notes)>
    requires keeper { IsKeeperOf doors.now keeper.old }
    requires two { length (known_doors keeper.old) ≡ 2 }
    requires free { NoneTaken (known_doors keeper.old) }
{
    if !wait_for(doors, keeper, 2) {
        return None;
    }
    let first = take_soon(doors, keeper, 0)?;
    let second = take_soon(doors, keeper, 1)?;
    Some((first, second))
}
