//! Doors are made.
ghost use Rattle.std.specs.Prelude.{◌≡◌, ◌≤◌, ◌+◌, [], All, length, map, IfOk, IfErr, List, Some, true, false, vec_capacity};
ghost use Rattle.door_pool.specs.Views.{keeper_of, doors_of, doors_in};
ghost use Rattle.door_pool.specs.Passes.{AreNewPasses, ArePassesAt, AreFresh, IsKeeperAt, IsKeeperOf, NoneTaken, known_doors};

use crate::doors::{Doors, Keeper, MOST_DOORS, Pass};
use crate::held::Held;
use crate::rule::{DoorRule, Hands, NextPass};
use crate::view::View;
use atomic_table::{Seat, Table};
use std::alloc::{AllocError, Global};
use std::snapshot::Snapshot;

/// New doors, with the rights to them.
#[derive(Drop)]
pub struct Made<H: Held + Drop> {
    /// The doors, with the hands behind them in their order.
    pub doors: Doors<H>,
    /// The keeper's right.
    pub keeper: Keeper<H>,
    /// The pass of each door, in the order of the doors. Each is out.
    pub passes: Vec<Pass<H>>,
}

/// Out of memory for doors. The hands are given back in their order.
#[derive(Drop)]
pub struct DoorsRefused<H: Drop> {
    /// The hands.
    pub hands: Vec<H>,
}

/// Room for what is made of so many hands.
struct Room<H: Held> {
    slots: Vec<Option<H>>,
    back: Vec<H>,
    passes: Vec<Pass<H>>,
}

impl<H: Held + Drop> Doors<H> {
    /// Makes doors behind which these hands lie, and a pass for each. It asks for 1 to 16 hands
    /// that were told nothing yet. The only error is out of memory.
    pub fn make(alloc: Global, hands: Vec<H>) -> Result<Made<H>, DoorsRefused<H>>
        requires some { 1 ≤ length hands.items }
        requires few { length hands.items ≤ 16 }
        requires fresh { All (λ hand. H.told hand ≡ []) hands.items }

        ensures keeper { IfOk result (λ m. IsKeeperOf m.doors m.keeper) }
        ensures doors { IfOk result (λ m. known_doors m.keeper ≡ doors_of H.deed hands.items) }
        ensures free { IfOk result (λ m. NoneTaken (known_doors m.keeper)) }
        ensures count { IfOk result (λ m. length m.passes.items ≡ length hands.items) }
        ensures passes { IfOk result (λ m. AreNewPasses m.doors m.keeper m.passes.items) }

        ensures err { IfErr result (λ refused. refused.hands.items ≡ hands.items) }
    {
        let room = match make_room(alloc, hands.len()) {
            Ok(room) => room,
            Err(_) => return Err(DoorsRefused { hands }),
        };
        let Room {
            slots,
            back,
            passes,
        } = room;
        let count = hands.len();
        let slots = wrap(hands, slots);
        match new_table(alloc, slots) {
            Ok((table, seat)) => {
                let (seat, passes) = split_all(&table, seat, count, passes);
                Ok(Made {
                    doors: Doors { table },
                    keeper: Keeper { seat },
                    passes,
                })
            }
            Err(slots) => Err(DoorsRefused {
                hands: unwrap(slots, back),
            }),
        }
    }
}

/// Takes all memory that is needed beside the table.
fn make_room<H: Held + Drop>(alloc: Global, count: usize) -> Result<Room<H>, AllocError>
    ensures slots { IfOk result (λ r. (r.slots.items ≡ []) × (count ≤ vec_capacity r.slots)) }
    ensures back { IfOk result (λ r. (r.back.items ≡ []) × (count ≤ vec_capacity r.back)) }
    ensures passes { IfOk result (λ r. (r.passes.items ≡ []) × (count ≤ vec_capacity r.passes)) }
{
    Ok(Room {
        slots: Vec::with_capacity(alloc, count)?,
        back: Vec::with_capacity(alloc, count)?,
        passes: Vec::with_capacity(alloc, count)?,
    })
}

/// Puts each hand into a slot, in order.
fn wrap<H: Drop>(hands: Vec<H>, slots: Vec<Option<H>>) -> Vec<Option<H>>
    requires room { (slots.items ≡ []) × (length hands.items ≤ vec_capacity slots) }
    ensures { result.items ≡ map Some hands.items }
{
    let mut slots = slots;
    for hand in hands {
        slots.push_reserved(Some(hand));
    }
    slots
}

/// Takes the hands out of these slots, in order.
fn unwrap<H: Drop>(slots: Vec<Option<H>>, back: Vec<H>) -> Vec<H>
    requires room { (back.items ≡ []) × (length slots.items ≤ vec_capacity back) }
    ensures { (hands : List H) → slots.items ≡ map Some hands → result.items ≡ hands }
{
    let mut back = back;
    for slot in slots {
        match slot {
            Some(hand) => back.push_reserved(hand),
            None => {}
        }
    }
    back
}

type DoorTable<H> = Table<
    Option<H>,
    View<<H as Held>::Deed, <H as Held>::Told>,
    Hands<H>,
    DoorRule<H>,
    Global,
>;

type DoorSeat<H> = Seat<Option<H>, View<<H as Held>::Deed, <H as Held>::Told>>;

/// Makes a table of these slots, with a word 0 for each and two more. Where there is no memory for
/// it, the slots come back.
fn new_table<H: Held + Drop>(
    alloc: Global,
    slots: Vec<Option<H>>,
) -> Result<(DoorTable<H>, DoorSeat<H>), Vec<Option<H>>>
    requires few { length slots.items ≤ 16 }
    requires fresh { AreFresh H.told slots.items }
    ensures table { IfOk result (λ t. (t.0.shared.table_id.words ≡ length slots.items + 2)
        × (t.1.table_id ≡ t.0.shared.table_id)) }
    ensures seat { IfOk result (λ t. t.1.me ≡ (keeper_of H.deed slots.items, [])) }
    ensures err { IfErr result (λ back. back.items ≡ slots.items) }
{
    let zeros = [0u64; MOST_DOORS + 2];
    let about = Snapshot::of(&slots);
    match Table::new(alloc, &zeros[..slots.len() + 2], slots, &about) {
        Ok(made) => Ok(made),
        Err(refused) => Err(refused.slots),
    }
}

/// Splits a pass for each door from the keeper's seat.
fn split_all<H: Held + Drop>(
    table: &DoorTable<H>,
    seat: DoorSeat<H>,
    count: usize,
    passes: Vec<Pass<H>>,
) -> (DoorSeat<H>, Vec<Pass<H>>)
    requires table { seat.table_id ≡ table.now.shared.table_id }
    requires words { table.now.shared.table_id.words ≡ count + 2 }
    requires keeper { (seat.me.0.is_keeper ≡ true) × (seat.me.0.is_pass ≡ false) }
    requires none { seat.me.0.made ≡ 0 }
    requires count { (length seat.me.0.doors ≡ count) × (count ≤ 16) }
    requires room { (passes.items ≡ []) × (count ≤ vec_capacity passes) }
    ensures keeper { IsKeeperAt table.now.shared.table_id result.0 }
    ensures doors { result.0.me.0.doors ≡ seat.me.0.doors }
    ensures count { length result.1.items ≡ count }
    ensures passes { ArePassesAt table.now.shared.table_id seat.me.0.doors result.1.items }
{
    let mut seat = seat;
    let mut passes = passes;
    for door in 0..count {
        passes.push_reserved(Pass {
            seat: table.shared.split_seat::<NextPass>(&mut seat),
            door,
        });
    }
    (seat, passes)
}
