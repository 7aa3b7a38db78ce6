// The log of a finished queue.
ghost use Rattle.std.specs.Prelude.{◌≡◌, ℕ, ◌+◌, ◌<◌, ◌≤◌, ◌^◌, ◌∷◌, length, vec_len, slice_index};
ghost use Rattle.delete_queue.specs.Cuts.{IsCut};

/// All entries of a finished queue, in the order of the list.
#[derive(Drop)]
pub struct QueueLog {
    pub(crate) base: u64,
    pub(crate) ends: Vec<usize>,
    pub(crate) words: Vec<u64>,
    ghost low: { base ≤ 2 ^ 62 },
    ghost few: { vec_len ends ≤ 2 ^ 61 },
    ghost cut: { IsCut ends.items (length words.items) },
}
