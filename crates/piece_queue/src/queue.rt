//! The queue itself.
ghost use Rattle.std.specs.Prelude.{◌≡◌, [], IfOk};
ghost use Rattle.piece_queue.specs.Passes.{IsReceiver, ended_with, made_by, taken_by};

use crate::receiver::Receiver;
use crate::rule::InOrder;
use crate::view::Hand;
use crossbeam_queue::RuledSegQueue;
use ix_base::NoMemory;
use std::alloc::Global;
use thread_writer::Piece;

/// The queue of the pieces of a round. It ends with all that it holds where it is let go.
pub struct PieceQueue {
    pub(crate) pieces: RuledSegQueue<Piece, Hand, InOrder>,
}

impl Drop for PieceQueue {
    fn drop(self) {
        let PieceQueue { pieces } = self;
        pieces.destroy();
    }
}

impl PieceQueue {
    /// A queue without a piece, and its receiver. The only error is out of memory.
    pub fn make(alloc: Global) -> Result<(PieceQueue, Receiver), NoMemory>
        ensures receiver { IfOk result (λ q. IsReceiver q.0 q.1) }
        ensures made { IfOk result (λ q. made_by q.1 ≡ 0) }
        ensures empty { IfOk result (λ q. (taken_by q.1 ≡ []) × (ended_with q.1 ≡ [])) }
    {
        let (pieces, pass) = RuledSegQueue::with_rule(alloc)?;
        let taken = Vec::new(alloc);
        Ok((PieceQueue { pieces }, Receiver { pass, taken }))
    }
}
