//! What a run came to.
ghost use Rattle.std.specs.Prelude.{◌≡◌, ◌<◌, ◌^◌, ℕ, pos};
ghost use Rattle.report_text.specs.Sums.{n_of, nearest, sum_of};
ghost use Rattle.report_text.specs.Summaries.{summary_of};

use ix_base::Hit;

/// What a run came to.
#[derive(Clone, Copy, Debug, PartialEq, Eq)]
pub struct Summary {
    /// How many commits the run made.
    pub commits: u64,
    /// How many rows of the run are live in its last commit.
    pub docs: u64,
    /// How many lines got a number.
    pub lines: u64,
    /// The sum of these rows' numbers `n`.
    pub sum: u64,
}

impl Summary {
    /// What a run came to that made so many commits and gave so many lines a number, and of whose rows
    /// these hits show those that are live in its last commit. A row without a number `n` adds 0 to
    /// the sum. Where the sum is not a `u64`, it is the nearest one: 0, or the largest.
    pub fn of_run(commits: u64, lines: u64, hits: &[Hit]) -> Summary
        ensures summary { result ≡ summary_of commits lines hits.now }
        // A sum that fits is exact.
        ensures sum { (n : ℕ) → n < 2 ^ 64 → sum_of hits.now ≡ pos n → result.sum ≡ n }
    {
        Summary {
            commits,
            docs: hits.len() as u64,
            lines,
            sum: nearest(sum_of(hits)),
        }
    }
}

/// The number `n` of a hit, 0 where it has none.
fn n_of(hit: &Hit) -> i64
    ensures { result ≡ n_of hit.now.num }
{
    for (name, value) in hit.num.as_slice() {
        if name.as_str() == "n" {
            return *value;
        }
    }
    0
}

/// The sum of the numbers `n` of hits. It fits, since there are fewer than 2^63 hits.
fn sum_of(hits: &[Hit]) -> i128
    ensures { result ≡ sum_of hits.now }
{
    let mut sum = 0i128;
    for hit in hits {
        sum += i128::from(n_of(hit));
    }
    sum
}

/// The nearest `u64`.
fn nearest(number: i128) -> u64
    ensures { result ≡ nearest number }
{
    if number < 0 {
        return 0;
    }
    if number > i128::from(u64::MAX) {
        return u64::MAX;
    }
    number as u64
}
