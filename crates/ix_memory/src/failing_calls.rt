//! Which calls of an object in memory are to fail.
ghost use Rattle.std.specs.Prelude.{◌≡◌, ◌+◌, ◌-◌, ◌^◌, ◌≤◌, ◌↔◌, min, IsTrue};
ghost use Rattle.std.specs.Bool.{OnTrue, OnFalse};
ghost use Rattle.ix_outside.specs.Causes.{Rose};
ghost use Rattle.ix_memory.specs.Failing.{Counts, NextFails};

/// The numbers of the calls that are to fail, counted from 1; how many calls were made, and how many
/// have failed.
#[derive(Drop)]
pub struct FailingCalls {
    numbers: Vec<u64>,
    made: u64,
    faults: u64,
}

impl FailingCalls {
    /// The calls of these numbers will fail. None has failed yet.
    pub fn new(numbers: Vec<u64>) -> Self
        ensures numbers { result.numbers ≡ numbers }
        ensures made { result.made ≡ 0 }
        ensures none_yet { result.faults ≡ 0 }
    {
        FailingCalls {
            numbers,
            made: 0,
            faults: 0,
        }
    }

    /// Counts one more call, and returns whether it is one of those that are to fail. If so, the count
    /// of faults has risen. Either count stays at `u64::MAX` once it is there.
    pub fn next_fails(&mut self) -> bool
        ensures fails { IsTrue result ↔ NextFails self.old }
        ensures counted { Counts self.old self.new }
        ensures same { OnFalse result (self.new.faults ≡ self.old.faults) }
        ensures risen { OnTrue result (self.new.faults ≡ min (self.old.faults + 1) (2 ^ 64 - 1)) }
        ensures rose { OnTrue result (Rose self.old.faults self.new.faults) }
        ensures later { self.old.faults ≤ self.new.faults }
    {
        self.made = self.made.saturating_add(1);
        let fails = self.numbers.contains(&self.made);
        if fails {
            self.fail();
        }
        fails
    }

    /// Raises the count of faults by one. It stays at `u64::MAX` once it is there.
    pub fn fail(&mut self)
        ensures risen { self.new.faults ≡ min (self.old.faults + 1) (2 ^ 64 - 1) }
        ensures rose { Rose self.old.faults self.new.faults }
        ensures later { self.old.faults ≤ self.new.faults }
        ensures made { self.new.made ≡ self.old.made }
        ensures numbers { self.new.numbers ≡ self.old.numbers }
    {
        self.faults = self.faults.saturating_add(1);
    }

    /// How many calls have failed.
    pub fn faults(&self) -> u64
        ensures { result ≡ self.now.faults }
    {
        self.faults
    }
}
