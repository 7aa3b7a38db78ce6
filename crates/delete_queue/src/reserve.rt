// Memory that one queue after another uses.
ghost use Rattle.std.specs.Prelude.{◌≡◌, ◌≤◌, [], length, slice_index, vec_capacity, IfOk, OnOk};
ghost use Rattle.delete_queue.specs.Copying.{HasSpace};

use crate::copy::Room;
use crate::log::QueueLog;
use ix_base::NoMemory;
use queue_rule::STRETCH_WORDS;
use std::alloc::Global;
use std::marker::Model;
use std::mem;

/// The memory that one queue after another uses: the zero words that each begins with, and the room
/// of its log. It grows to what the largest of them needs. Contracts see nothing of it.
#[derive(Drop)]
pub struct Reserve {
    pub(crate) zeros: Vec<u64>,
    ends: Vec<usize>,
    words: Vec<u64>,
}

impl Model for Reserve {
    ghost Value = { Unit {0} };

    ghost view = { λ _. tt };

    ghost invariant = { λ reserve. slice_index reserve.zeros.items 0 ≡ 0 };
}

impl Reserve {
    /// Nothing yet. It takes no memory.
    pub fn new(alloc: Global) -> Reserve {
        Reserve {
            zeros: Vec::new(alloc),
            ends: Vec::new(alloc),
            words: Vec::new(alloc),
        }
    }

    /// Keeps the memory of a log that was read, for the next one. It takes no memory.
    pub fn keep(&mut self, log: QueueLog) {
        let QueueLog { ends, words, .. } = log;
        self.ends = ends;
        self.words = words;
    }

    // Room for a log of all that a table for so many seats can hold.
    pub(crate) fn room(&mut self, alloc: Global, seats: u64) -> Result<Room, NoMemory>
        requires { seats ≤ 32 }
        ensures empty { IfOk result (λ r. (r.ends.items ≡ []) × (r.words.items ≡ [])) }
        ensures space { IfOk result (λ r. HasSpace r seats) }
    {
        let count = (STRETCH_WORDS * seats) as usize;
        let ends = mem::replace(&mut self.ends, Vec::new(alloc));
        let words = mem::replace(&mut self.words, Vec::new(alloc));
        Ok(Room {
            // An entry takes two words at least: its next word and its head.
            ends: emptied(alloc, ends, count / 2)?,
            words: emptied(alloc, words, count)?,
        })
    }
}

// An empty list with room for so many: this one, where it has that.
fn emptied<T: Drop>(alloc: Global, items: Vec<T>, count: usize) -> Result<Vec<T>, NoMemory>
    ensures empty { IfOk result (λ r. r.items ≡ []) }
    ensures room { IfOk result (λ r. count ≤ vec_capacity r) }
{
    let mut items = items;
    items.clear();
    if items.capacity() < count {
        return Ok(Vec::with_capacity(alloc, count)?);
    }
    Ok(items)
}

/// Makes the zero words so many where there are fewer. After an error they are as before.
pub(crate) fn grow(alloc: Global, zeros: &mut Vec<u64>, count: usize) -> Result<(), NoMemory>
    requires first { slice_index zeros.old.items 0 ≡ 0 }
    ensures first { slice_index zeros.new.items 0 ≡ 0 }
    ensures long { OnOk result (count ≤ length zeros.new.items) }
{
    if zeros.len() < count {
        *zeros = Vec::from_elem(alloc, 0u64, count)?;
    }
    Ok(())
}
