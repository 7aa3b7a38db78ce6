//! The doors, a caller's pass and the keeper's right.
use crate::held::Held;
use crate::rule::{DoorRule, Hands};
use crate::view::View;
use atomic_table::{Seat, Table};
use std::alloc::Global;

/// The most doors that are made at once.
pub const MOST_DOORS: usize = 16;

/// Doors with hands behind them, a bell, and a count of the callers that have ended. Threads share
/// them by `&`. Hands that lie behind doors are dropped with the doors.
#[derive(Drop)]
pub struct Doors<H: Held + Drop> {
    pub(crate) table: Table<Option<H>, View<H::Deed, H::Told>, Hands<H>, DoorRule<H>, Global>,
}

/// A caller's right to go in at one door and out again. It goes where its caller's thread goes, and
/// is good for the doors that it was made with. A pass that is dropped while it is in leaves its
/// door busy.
#[derive(Drop)]
pub struct Pass<H: Held> {
    pub(crate) seat: Seat<Option<H>, View<H::Deed, H::Told>>,
    pub(crate) door: usize,
}

/// The right to take each door once, for good, and to read the bell and the count.
#[derive(Drop)]
pub struct Keeper<H: Held> {
    pub(crate) seat: Seat<Option<H>, View<H::Deed, H::Told>>,
}
