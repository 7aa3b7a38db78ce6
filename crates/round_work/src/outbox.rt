//! Where a worker's pieces go.
ghost use Rattle.std.specs.Prelude.{◌≡◌, ◌++◌, ◌∷◌, [], None, OnOk};
ghost use Rattle.round_work.specs.Outboxes.{gave_by};
ghost use Rattle.piece_queue.specs.Passes.{IsSender, number_of};

use ix_base::NoMemory;
use piece_queue::{PieceQueue, Sender};
use std::sync::Wait;
use thread_writer::Piece;

/// A worker's sender, and the piece that couldn't be sent, if there is one.
#[derive(Drop)]
pub(crate) struct Outbox {
    pub sender: Sender,
    pub held: Option<Piece>,
}

impl Outbox {
    /// Sends a piece. Where there is no memory for that it is held.
    pub(crate) fn send<R: Wait>(
        &mut self,
        rt: &R,
        pieces: &PieceQueue,
        piece: Piece,
    ) -> Result<(), NoMemory>
        requires sender { IsSender pieces.now self.old.sender }
        requires worker { piece.worker ≡ number_of self.old.sender }
        requires empty { self.old.held ≡ None }
        ensures sender { IsSender pieces.now self.new.sender }
        ensures number { number_of self.new.sender ≡ number_of self.old.sender }
        ensures gave { gave_by self.new ≡ gave_by self.old ++ piece ∷ [] }
        ensures sent { OnOk result (self.new.held ≡ None) }
    {
        match self.sender.send(rt, pieces, piece) {
            Ok(()) => Ok(()),
            Err(back) => {
                self.held = Some(back);
                Err(NoMemory)
            }
        }
    }
}
