//! What a round of a test has of its operations.

use frozen_packet::Updates;
use ix_base::Row;

/// What a round has of the operations that it was told: the rows that they add, what else they do, and
/// the numbers of the last one, and of the one before the first.
#[derive(Drop)]
pub struct Told {
    pub rows: Vec<Row>,
    pub updates: Updates,
    pub last: u64,
    pub base: u64,
}
