//! Numbers of rows, which rise.
ghost use Rattle.std.specs.Prelude.{◌≡◌};
ghost use Rattle.merge_postings.specs.Renumbering.{NumbersRise};

use std::alloc::Global;
use std::marker::Model;
use std::test::Fail;

/// The numbers of some rows. Those that are given rise.
#[derive(Drop)]
pub(crate) struct Rising {
    numbers: Vec<Option<u32>>,
    /// It is above each number that was given.
    next: u64,
}

impl Model for Rising {
    ghost use Rattle.std.specs.Prelude.{List, Option, ℕ};
    ghost use Rattle.merge_postings_tests.specs.Rising.{IsRising};

    ghost Value = { List (Option ℕ) };

    ghost view = { λ rising. rising.numbers.items };

    ghost invariant = { λ rising. IsRising rising.next rising.numbers.items };
}

impl Rising {
    /// No row.
    pub(crate) fn new(alloc: Global) -> Rising {
        Rising {
            numbers: Vec::new(alloc),
            next: 0,
        }
    }

    /// One more row, which gets no number.
    fn pass(&mut self) -> Result<(), Fail> {
        self.numbers.push(None)?;
        Ok(())
    }

    /// One more row, which gets this number. It fails where an earlier one got as high a number.
    fn give(&mut self, number: u32) -> Result<(), Fail> {
        if u64::from(number) < self.next {
            Err("numbers don't rise")?;
        }
        self.numbers.push(Some(number))?;
        self.next = u64::from(number) + 1;
        Ok(())
    }

    /// One more row, with the number that it gets.
    pub(crate) fn add(&mut self, number: Option<u32>) -> Result<(), Fail> {
        match number {
            Some(number) => self.give(number),
            None => self.pass(),
        }
    }

    /// The numbers, which rise.
    pub(crate) fn as_slice(&self) -> &[Option<u32>]
        ensures same { result.now ≡ self.now }
        ensures rise { NumbersRise result.now }
    {
        self.numbers.as_slice()
    }
}
