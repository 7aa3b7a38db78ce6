// How the table is laid out: word 0, and a stretch of words for each seat.
ghost use Rattle.std.specs.Prelude.{◌≡◌, ◌≤◌, ◌<◌, ◌-◌, MatchBool};
ghost use Rattle.ix_base.specs.Words.{head_kind, word_count};
ghost use Rattle.queue_rule.specs.Chain.{start};

/// How many words of the table belong to one seat.
pub const STRETCH_WORDS: u64 = 16_642;
/// How many words of a stretch are kept for an entry that closes the queue.
pub const CLOSING_WORDS: u64 = 2;
/// The most seats that a table is for.
pub const MOST_SEATS: u64 = 32;
/// The kinds from this one on close the queue: 6 is a commit, 7 a turn.
pub const FIRST_CLOSING_KIND: u64 = 6;
/// The kind of a turn, which has no sequence number of its own.
pub const TURN_KIND: u64 = 7;

/// The address of the first word of a seat's stretch; seat numbers count from 0. For a count of
/// seats it is also how many words their table has: word 0, and one stretch for each.
pub fn stretch_start(seat: u64) -> u64
    requires { seat ≤ 32 }
    ensures { result ≡ start seat }
{
    STRETCH_WORDS * seat + 1
}

/// How many words an entry that doesn't close the queue may still take, its next word included, in
/// a stretch of which this many words are used. Two words are kept for an entry that closes it.
pub fn words_left(used: u64) -> u64
    requires { used ≤ 16642 }
    ensures { result ≡ 16640 - used }
{
    (STRETCH_WORDS - used).saturating_sub(CLOSING_WORDS)
}

/// The kind of an entry whose first word is `head`.
pub fn kind_of(head: u64) -> u64
    ensures { result ≡ head_kind head }
{
    head >> 32
}

/// How many words spell an entry whose first word is `head`, the head included.
pub fn words_of(head: u64) -> u64
    ensures { result ≡ word_count head }
{
    (head % (1 << 32)).div_ceil(8) + 1
}

/// Whether an entry whose first word is `head` closes the queue, as commits and turns do.
pub fn closes(head: u64) -> bool
    ensures { MatchBool result (6 ≤ head_kind head) (head_kind head < 6) }
{
    kind_of(head) >= FIRST_CLOSING_KIND
}
