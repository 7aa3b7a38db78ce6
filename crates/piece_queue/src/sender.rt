//! What a worker has of the queue.
ghost use Rattle.std.specs.Prelude.{◌≡◌, ◌∷◌, ◌++◌, [], MatchResult};
ghost use Rattle.piece_queue.specs.Passes.{IsSender, number_of, sent_by};

use crate::queue::PieceQueue;
use crate::rule::Puts;
use crate::view::Hand;
use crossbeam_queue::SegPass;
use std::sync::Wait;
use thread_writer::Piece;

/// The right to send the pieces of one worker. It has no bytes.
#[derive(Drop)]
pub struct Sender {
    pub(crate) pass: SegPass<Piece, Hand>,
}

impl Sender {
    /// Sends a piece of the worker. Where there is no memory for it the piece is given back, and nothing
    /// was sent.
    pub fn send<R: Wait>(&mut self, rt: &R, pieces: &PieceQueue, piece: Piece) -> Result<(), Piece>
        requires sender { IsSender pieces.now self.old }
        requires worker { piece.worker ≡ number_of self.old }
        ensures sender { IsSender pieces.now self.new }
        ensures number { number_of self.new ≡ number_of self.old }
        ensures sent { MatchResult result
            (λ _. sent_by self.new ≡ sent_by self.old ++ piece ∷ [])
            (λ back. (back ≡ piece) × (sent_by self.new ≡ sent_by self.old)) }
    {
        pieces.pieces.push_as::<Puts, R>(rt, &mut self.pass, piece)
    }
}
