//! How many calls of an object of the system have failed.
ghost use Rattle.std.specs.Prelude.{◌≡◌, ◌+◌, ◌-◌, ◌^◌, ◌≤◌, min};
ghost use Rattle.ix_outside.specs.Causes.{Rose};

/// A count of faults, which stays at `u64::MAX` once it is there.
#[derive(Drop)]
pub struct FaultCount {
    count: u64,
}

impl FaultCount {
    /// No fault yet.
    pub fn new() -> Self
        ensures { result.count ≡ 0 }
    {
        FaultCount { count: 0 }
    }

    /// One fault more.
    pub fn raise(&mut self)
        ensures risen { self.new.count ≡ min (self.old.count + 1) (2 ^ 64 - 1) }
        ensures rose { Rose self.old.count self.new.count }
        ensures later { self.old.count ≤ self.new.count }
    {
        self.count = self.count.saturating_add(1);
    }

    /// How many faults there were.
    pub fn get(&self) -> u64
        ensures { result ≡ self.now.count }
    {
        self.count
    }
}
