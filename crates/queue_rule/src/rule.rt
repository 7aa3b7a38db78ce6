// The rule over a table of words, and what each kind of step tells its seat.
use crate::view::View;
use atomic_table::{Join, Play, Split, TableRule};

/// The rule of the linked queue. It holds between any two steps on the table's words.
pub struct QueueRule;

impl TableRule<(), View, u64> for QueueRule {
    ghost use Rattle.queue_rule.specs.Rule.{Kept};
    ghost use Rattle.queue_rule.specs.Views.{newcomer};

    ghost holds = { Kept };

    ghost first = { newcomer };
}

/// A store of a draft word, after the seat's own entries.
pub struct StoreDraft;

impl Play<(), View> for StoreDraft {
    ghost use Rattle.queue_rule.specs.Steps.{Drafted};
    ghost use Rattle.queue_rule.specs.Told.{Sound};

    ghost then = { λ st m found m'. Drafted st m found m' × Sound m'.0 };
}

/// A compare-exchange on the next word of the last entry seen, from 0 to the draft's address.
pub struct LinkDraft;

impl Play<(), View> for LinkDraft {
    ghost use Rattle.queue_rule.specs.Steps.{Tried};
    ghost use Rattle.queue_rule.specs.Told.{Sound};

    ghost then = { λ st m found m'. Tried st m found m' × Sound m'.0 };
}

/// A load of the next word of the last entry seen.
pub struct LoadNext;

impl Play<(), View> for LoadNext {
    ghost use Rattle.queue_rule.specs.Steps.{Looked};
    ghost use Rattle.queue_rule.specs.Told.{Sound};

    ghost then = { λ st m found m'. Looked st m found m' × Sound m'.0 };
}

/// A load of a linked word.
pub struct LoadLinked;

impl Play<(), View> for LoadLinked {
    ghost use Rattle.queue_rule.specs.Steps.{HasRead};
    ghost use Rattle.queue_rule.specs.Told.{Sound};

    ghost then = { λ st m found m'. HasRead st m found m' × Sound m'.0 };
}

/// A split of a seat, which gives a new seat the first seat number that is left, and a join of two
/// seats.
pub struct SeatNumbers;

impl Split<View> for SeatNumbers {
    ghost use Rattle.queue_rule.specs.Views.{kept_back, split_off};

    ghost left = { kept_back };

    ghost right = { split_off };
}

impl Join<View> for SeatNumbers {
    ghost use Rattle.queue_rule.specs.Views.{joined, spent};

    ghost both = { joined };

    ghost spent = { spent };
}
