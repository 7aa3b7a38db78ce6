//! The hand of these tests.
ghost use mathlib.Core.List.{IsPrefix};
ghost use Rattle.std.specs.Prelude.{◌≡◌, []};

use door_pool::Held;
use std::alloc::Global;

/// A number that stays, and the lines that were told.
#[derive(Drop)]
pub struct Notes {
    /// The number.
    pub number: u64,
    /// The lines.
    pub lines: Vec<u64>,
}

impl Held for Notes {
    type Deed = u64;

    type Told = u64;

    ghost deed = { λ notes. notes.number };

    ghost told = { λ notes. notes.lines.items };
}

impl Notes {
    /// Notes that were told nothing.
    pub fn new(alloc: Global, number: u64) -> Notes
        ensures number { result.number ≡ number }
        ensures lines { result.lines.items ≡ [] }
    {
        Notes {
            number,
            lines: Vec::new(alloc),
        }
    }

    /// Tells a line. Where there is no memory for it, none is told.
    pub fn tell(&mut self, line: u64)
        ensures number { self.new.number ≡ self.old.number }
        ensures lines { IsPrefix self.old.lines.items self.new.lines.items }
    {
        if self.lines.reserve(1).is_ok() {
            self.lines.push_reserved(line);
        }
    }
}
