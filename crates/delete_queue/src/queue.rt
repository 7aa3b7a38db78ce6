// The queue: a table of words, and the sequence number before that of its first entry.
ghost use Rattle.std.specs.Prelude.{◌≡◌, ◌≤◌, ◌<◌, ◌^◌};
ghost use Rattle.queue_rule.specs.Chain.{start};

use atomic_table::Table;
use queue_rule::{QueueRule, View};
use std::alloc::Global;

/// A list of entries that several threads share: each links entries after all that are there,
/// and all see one order. No call on it waits for another.
///
/// The entry at place p of the list, from 1, has the sequence number base + p. An entry of kind 6 (a
/// commit) or 7 (a turn) closes the queue: nothing is linked after it. A turn has no sequence number
/// of its own, but that of the numbered entry before it.
#[derive(Drop)]
pub struct DeleteQueue {
    pub(crate) table: Table<(), View, u64, QueueRule, Global>,
    pub(crate) base: u64,
    pub(crate) seats: u64,
    pub(crate) alloc: Global,
    ghost low: { base ≤ 2 ^ 62 },
    ghost few: { (0 < seats) × (seats ≤ 32) },
    ghost many: { seats ≡ table.shared.key },
    ghost wide: { table.shared.table_id.words ≡ start table.shared.key },
}

// The queue holds nothing beside its table, two numbers and the allocator, and so no lock.
const _: () = prove!(
    size_of::<DeleteQueue>() == size_of::<Table<(), View, u64, QueueRule, Global>>() + 16
);
