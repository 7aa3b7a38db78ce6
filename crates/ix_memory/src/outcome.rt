//! What a crash leaves of what isn't yet on the disk.

/// Which renames and deletes that no `sync_all` followed are there after a crash.
#[derive(Clone, Copy, Debug, PartialEq, Eq)]
pub enum StepsLeft {
    /// Every one.
    Every,
    /// Not one.
    Nothing,
    /// Those with an even number of steps before them.
    Even,
    /// Those with an odd number of steps before them.
    Odd,
}

impl StepsLeft {
    ghost use Rattle.std.specs.Prelude.{◌≡◌};
    ghost use Rattle.ix_memory.specs.History.{leaves_step, steps_of};

    /// One of the four, by `choice % 4`.
    pub fn of_choice(choice: u32) -> Self
        ensures { result ≡ steps_of choice }
    {
        match choice % 4 {
            0 => StepsLeft::Every,
            1 => StepsLeft::Nothing,
            2 => StepsLeft::Even,
            _ => StepsLeft::Odd,
        }
    }

    /// Whether a rename or delete with so many steps before it is there.
    pub fn leaves(self, before: usize) -> bool
        ensures { result ≡ leaves_step self before }
    {
        match self {
            StepsLeft::Every => true,
            StepsLeft::Nothing => false,
            StepsLeft::Even => before % 2 == 0,
            StepsLeft::Odd => before % 2 == 1,
        }
    }
}

/// What is left of a file that was written and not yet synced.
#[derive(Clone, Copy, Debug, PartialEq, Eq)]
pub enum BytesLeft {
    /// All of its bytes.
    Whole,
    /// No file.
    Absent,
    /// A file without bytes.
    Empty,
    /// The first half of its bytes.
    Half,
}

impl BytesLeft {
    ghost use Rattle.std.specs.Prelude.{◌≡◌};
    ghost use Rattle.ix_memory.specs.History.{bytes_of};

    /// One of the four, by `choice % 4`.
    pub fn of_choice(choice: u32) -> Self
        ensures { result ≡ bytes_of choice }
    {
        match choice % 4 {
            0 => BytesLeft::Whole,
            1 => BytesLeft::Absent,
            2 => BytesLeft::Empty,
            _ => BytesLeft::Half,
        }
    }
}
