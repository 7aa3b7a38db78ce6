//! The rule of the queue, and its steps.
ghost use Rattle.std.specs.Prelude.{◌≡◌, []};

use crate::view::Hand;
use crossbeam_queue::protocol::{Join, Lesson, Outcome, Protocol, Split};
use thread_writer::Piece;

/// Of each worker, what was taken and then what the queue holds is what it sent, in order.
pub struct InOrder;

impl Protocol<Piece, Hand> for InOrder {
    ghost use Rattle.piece_queue.specs.Rule.{Kept};
    ghost use Rattle.piece_queue.specs.Views.{keeper};

    ghost holds = { Kept };

    ghost first = { keeper 0 [] [] };
}

/// A sender for the next worker, and taking one back.
pub struct Workers;

impl Split<Hand> for Workers {
    ghost use Rattle.piece_queue.specs.Views.{one_more, worker};

    ghost left = { one_more };

    ghost right = { λ v. worker v.made [] };
}

impl Join<Hand> for Workers {
    ghost use Rattle.piece_queue.specs.Views.{idle, took_back};

    ghost both = { took_back };

    ghost spent = { idle };
}

/// A push.
pub struct Puts;

impl Outcome<Piece, Hand> for Puts {
    ghost use Rattle.piece_queue.specs.Views.{sends};

    ghost then = { λ v x w. w ≡ sends v x };
}

/// A pop.
pub struct Takes;

impl Outcome<Piece, Hand> for Takes {
    ghost use Rattle.piece_queue.specs.Views.{takes_on};

    ghost then = { λ v x w. w ≡ takes_on v x };
}

/// A pop that finds nothing learns that all has come of the workers that have ended.
impl Lesson<Piece, Hand> for Takes {
    ghost use Rattle.piece_queue.specs.Rule.{Came};

    ghost fact = { Came };
}
