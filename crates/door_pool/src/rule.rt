//! The rule of the doors.
use crate::held::Held;
use crate::view::View;
use atomic_table::{Split, TableRule};
use std::marker::PhantomData;
use std::snapshot::Snapshot;

/// The slots that a table of doors was made with, as proofs know them. It has no bytes.
pub type Hands<H> = Snapshot<Vec<Option<H>>>;

/// The rule of the doors, for hands of one type. It holds between any two steps on the table's
/// words.
pub struct DoorRule<H> {
    hand: PhantomData<H>,
}

impl<H: Held> TableRule<Option<H>, View<H::Deed, H::Told>, Hands<H>> for DoorRule<H> {
    ghost use Rattle.std.specs.Prelude.{length};
    ghost use Rattle.door_pool.specs.Rule.{Kept};
    ghost use Rattle.door_pool.specs.Views.{keeper_of};

    ghost holds = { λ hands. Kept H.deed H.told (length hands.value.items) };

    ghost first = { λ hands. keeper_of H.deed hands.value.items };
}

/// A split of the keeper's seat, which gives the pass of the next door.
pub struct NextPass;

impl<D, T> Split<View<D, T>> for NextPass {
    ghost use Rattle.door_pool.specs.Views.{after_split, next_pass};

    ghost left = { after_split };

    ghost right = { next_pass };
}
