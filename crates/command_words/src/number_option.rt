//! The options of the subcommands: each has one number.
ghost use Rattle.std.specs.Prelude.{◌≡◌};
ghost use Rattle.command_words.specs.Options.{name_of, low_of, high_of};

/// An option of a subcommand.
#[derive(Debug, Clone, Copy, PartialEq)]
pub enum NumberOption {
    Threads,
    Buffer,
    Merge,
    Keep,
    Commit,
    Seed,
    Lines,
    Callers,
}

impl NumberOption {
    /// The name, without its two hyphens.
    pub fn name<'a>(self) -> &'a str
        ensures { result.now ≡ name_of self }
    {
        match self {
            NumberOption::Threads => "threads",
            NumberOption::Buffer => "buffer",
            NumberOption::Merge => "merge",
            NumberOption::Keep => "keep",
            NumberOption::Commit => "commit",
            NumberOption::Seed => "seed",
            NumberOption::Lines => "lines",
            NumberOption::Callers => "callers",
        }
    }

    /// The least number.
    pub fn low(self) -> u64
        ensures { result ≡ low_of self }
    {
        match self {
            NumberOption::Merge => 2,
            NumberOption::Commit | NumberOption::Seed => 0,
            _ => 1,
        }
    }

    /// The greatest number.
    pub fn high(self) -> u64
        ensures { result ≡ high_of self }
    {
        match self {
            NumberOption::Threads => 16,
            NumberOption::Buffer => 65536,
            NumberOption::Merge => 64,
            NumberOption::Keep => 1000,
            NumberOption::Commit => 9223372036854775807,
            NumberOption::Seed => 2147483647,
            NumberOption::Lines => 1000000,
            NumberOption::Callers => 256,
        }
    }
}
