//! What the words of a command line ask for.

/// A subcommand with the numbers of its options.
#[derive(Debug, Clone, Copy, PartialEq)]
pub enum Command {
    /// Runs a script.
    Run {
        /// How many threads write, from 1 to 16.
        threads: u32,
        /// How many documents a writer keeps in memory, from 1 to 65,536.
        buffer: u32,
        /// How many segments are merged into one, from 2 to 64.
        merge: u32,
        /// How many of the last commits are kept, from 1 to 1,000, or none for all.
        keep: Option<u32>,
    },
    /// Searches a commit.
    Ask {
        /// The number of that commit, at most 2^63 - 1, or none for the last one.
        commit: Option<u64>,
    },
    /// Lists the commits.
    List,
    /// Checks all commits.
    Check,
    /// Writes a generated script.
    Make {
        /// The seed of its random numbers, below 2^31.
        seed: u32,
        /// How many lines it has, from 1 to 1,000,000.
        lines: u32,
        /// How many callers take part, from 1 to 256.
        callers: u32,
    },
}

/// Why there is no command.
#[derive(Debug, Clone, Copy, PartialEq)]
pub enum WordsFault {
    /// The words are not accepted. Words that ask for help are among these.
    Words,
    /// Out of memory.
    NoMemory,
}
