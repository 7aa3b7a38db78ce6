//! What the keeper has of the queue.
ghost use Rattle.std.specs.Prelude.{◌≡◌, ◌+◌, ◌<◌, ◌++◌, ◌∷◌, [], List, length, map, IfOk, OnOk, false};
ghost use Rattle.thread_writer.specs.declared.piece.Piece.{Piece};
ghost use Rattle.piece_queue.specs.Passes.{IsReceiver, IsSender, ended_with, has_come, made_by, number_of, sent_by, taken_by};
ghost use Rattle.piece_queue.specs.Views.{AreBelow, one_sent, parcels_of};

use crate::queue::PieceQueue;
use crate::rule::{Takes, Workers};
use crate::sender::Sender;
use crate::view::Hand;
use crossbeam_queue::SegPass;
use ix_base::NoMemory;
use std::alloc::Global;
use std::sync::Wait;
use thread_writer::Piece;

/// The right to take pieces, with those that were taken, in the order in which they came.
#[derive(Drop)]
pub struct Receiver {
    pub(crate) pass: SegPass<Piece, Hand>,
    pub(crate) taken: Vec<Piece>,
}

impl Receiver {
    /// The sender of the next worker: the first is that of worker 0. It takes no memory.
    pub fn make_sender(&mut self, pieces: &PieceQueue) -> Sender
        requires receiver { IsReceiver pieces.now self.old }
        ensures receiver { IsReceiver pieces.now self.new }
        ensures taken { taken_by self.new ≡ taken_by self.old }
        ensures ended { ended_with self.new ≡ ended_with self.old }
        ensures made { made_by self.new ≡ made_by self.old + 1 }
        ensures sender { IsSender pieces.now result }
        ensures number { number_of result ≡ made_by self.old }
        ensures fresh { sent_by result ≡ [] }
    {
        Sender {
            pass: pieces.pieces.another::<Workers>(&mut self.pass),
        }
    }

    /// Takes the next piece, and says whether there was one. Where there was none, all has come that the
    /// workers sent whose senders came back. The only error is out of memory: nothing was taken.
    fn take<R: Wait>(&mut self, rt: &R, pieces: &PieceQueue) -> Result<bool, NoMemory>
        requires receiver { IsReceiver pieces.now self.old }
        ensures receiver { IsReceiver pieces.now self.new }
        ensures made { made_by self.new ≡ made_by self.old }
        ensures ended { ended_with self.new ≡ ended_with self.old }
        ensures came { IfOk result (λ more. more ≡ false → has_come self.new) }
    {
        self.taken.reserve(1)?;
        match pieces.pieces.pop_as::<Takes, R>(rt, &mut self.pass) {
            Some(piece) => {
                self.taken.push_reserved(piece);
                Ok(true)
            }
            None => Ok(false),
        }
    }

    /// Takes pieces until there is none. The only error is out of memory: some were taken, and pieces may
    /// be left.
    pub fn empty<R: Wait>(&mut self, rt: &R, pieces: &PieceQueue) -> Result<(), NoMemory>
        requires receiver { IsReceiver pieces.now self.old }
        ensures receiver { IsReceiver pieces.now self.new }
        ensures made { made_by self.new ≡ made_by self.old }
        ensures ended { ended_with self.new ≡ ended_with self.old }
        ensures came { OnOk result (has_come self.new) }
    {
        for _ in rt.forever() {
            if !self.take(rt, pieces)? {
                return Ok(());
            }
        }
        unreachable!()
    }

    /// Takes the sender back of a worker that has ended. It takes no memory.
    pub fn take_back(&mut self, pieces: &PieceQueue, sender: Sender)
        requires receiver { IsReceiver pieces.now self.old }
        requires sender { IsSender pieces.now sender }
        ensures receiver { IsReceiver pieces.now self.new }
        ensures made { made_by self.new ≡ made_by self.old }
        ensures taken { taken_by self.new ≡ taken_by self.old }
        ensures ended { ended_with self.new
            ≡ ended_with self.old ++ one_sent (number_of sender) (sent_by sender) ∷ [] }
    {
        pieces.pieces.absorb::<Workers>(&mut self.pass, sender.pass);
    }

    /// What was taken: of each of so many workers its pieces, in order. The only error is out of memory.
    pub fn into_parcels(self, alloc: Global, count: usize) -> Result<Vec<Vec<Piece>>, NoMemory>
        requires below { AreBelow count (taken_by self) }
        requires taken { self.taken.items ≡ taken_by self }
        ensures parcels { IfOk result (λ all.
            map (λ p. p.items) all.items ≡ parcels_of 0 count (taken_by self)) }
        ensures count { IfOk result (λ all. length all.items ≡ count) }
    {
        let mut all = no_parcels(alloc, count)?;
        for piece in self.taken {
            add_to(&mut all, piece)?;
        }
        Ok(all)
    }
}

/// So many lists without a piece.
fn no_parcels(alloc: Global, count: usize) -> Result<Vec<Vec<Piece>>, NoMemory>
    ensures none { IfOk result (λ all. map (λ p. p.items) all.items ≡ parcels_of 0 count []) }
    ensures count { IfOk result (λ all. length all.items ≡ count) }
{
    let mut all = Vec::with_capacity(alloc, count)?;
    for _ in 0..count {
        all.push(Vec::new(alloc))?;
    }
    Ok(all)
}

/// Puts a piece behind the others of its worker.
fn add_to(all: &mut Vec<Vec<Piece>>, piece: Piece) -> Result<(), NoMemory>
    requires inside { piece.worker < length all.old.items }
    ensures added { (taken : List Piece)
        → map (λ p. p.items) all.old.items ≡ parcels_of 0 (length all.old.items) taken
        → OnOk result (map (λ p. p.items) all.new.items
        ≡ parcels_of 0 (length all.old.items) (taken ++ piece ∷ [])) }
    ensures count { length all.new.items ≡ length all.old.items }
{
    all[piece.worker as usize].push(piece)?;
    Ok(())
}
