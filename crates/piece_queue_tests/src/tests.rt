//! Pieces of two workers, on one thread and on two.
ghost use Rattle.std.specs.Prelude.{◌≡◌, ◌<◌, [], IfOk};
ghost use Rattle.piece_queue.specs.Passes.{IsReceiver, IsSender, ended_with, made_by, number_of};

use frozen_packet::Updates;
use ix_base::NoMemory;
use piece_queue::{PieceQueue, Receiver, Sender};
use ram_postings::RamPostings;
use std::alloc::Global;
use std::sync::Wait;
use std::test::*;
use std::thread;
use std::thread::Threads;
use thread_writer::Piece;

/// A piece of this worker without a row, whose cut is its place among the worker's pieces.
fn piece_of(alloc: Global, worker: u64, place: u64) -> Result<Piece, NoMemory>
    ensures { IfOk result (λ piece. piece.worker ≡ worker) }
{
    Ok(Piece {
        worker,
        frozen: RamPostings::new(alloc).take_frozen()?,
        updates: Updates::new(alloc),
        cut: place,
    })
}

/// Sends so many pieces of a worker, from this place on.
fn send_some<R: Wait>(
    rt: &R,
    alloc: Global,
    pieces: &PieceQueue,
    sender: Sender,
    worker: u64,
    places: (u64, u64),
) -> Result<Sender, NoMemory>
    requires sender { IsSender pieces.now sender }
    requires worker { number_of sender ≡ worker }
    ensures sender { IfOk result (λ sender. IsSender pieces.now sender) }
    ensures worker { IfOk result (λ sender. number_of sender ≡ worker) }
{
    let mut sender = sender;
    for place in places.0..places.1 {
        if sender
            .send(rt, pieces, piece_of(alloc, worker, place)?)
            .is_err()
        {
            return Err(NoMemory);
        }
    }
    Ok(sender)
}

/// Whether these are so many pieces of the worker, in order.
fn are_all_of(pieces: &[Piece], worker: u64, count: usize) -> bool {
    for (place, piece) in pieces.iter().enumerate() {
        if piece.worker != worker || piece.cut != place as u64 {
            return false;
        }
    }
    pieces.len() == count
}

/// Takes both senders back, and then what is left: whether of each worker so many pieces came, in order.
fn all_came<R: Wait>(
    rt: &R,
    alloc: Global,
    pieces: &PieceQueue,
    receiver: Receiver,
    senders: (Sender, Sender),
    count: usize,
) -> Result<bool, NoMemory>
    requires receiver { IsReceiver pieces.now receiver }
    requires made { made_by receiver ≡ 2 }
    requires first { IsSender pieces.now senders.0 }
    requires second { IsSender pieces.now senders.1 }
{
    let mut receiver = receiver;
    receiver.take_back(pieces, senders.0);
    receiver.take_back(pieces, senders.1);
    receiver.empty(rt, pieces)?;
    let all = receiver.into_parcels(alloc, 2)?;
    let mut came = all.len() == 2;
    for (worker, parcel) in all.iter().enumerate() {
        came = came && are_all_of(parcel.as_slice(), worker as u64, count);
    }
    Ok(came)
}

/// On one thread: the keeper takes pieces now and then, also from an empty queue.
fn on_one_thread<R: Wait>(rt: &R, alloc: Global) -> Result<bool, NoMemory> {
    let (pieces, mut receiver) = PieceQueue::make(alloc)?;
    receiver.empty(rt, &pieces)?;
    let mut first = receiver.make_sender(&pieces);
    let mut second = receiver.make_sender(&pieces);
    first = send_some(rt, alloc, &pieces, first, 0, (0, 100))?;
    second = send_some(rt, alloc, &pieces, second, 1, (0, 1))?;
    receiver.empty(rt, &pieces)?;
    second = send_some(rt, alloc, &pieces, second, 1, (1, 2000))?;
    first = send_some(rt, alloc, &pieces, first, 0, (100, 2000))?;
    all_came(rt, alloc, &pieces, receiver, (first, second), 2000)
}

#[test]
fn pieces_of_two_workers(rt: HostRuntime) -> Result<(), Fail> {
    assert!(rt; on_one_thread(&rt, rt.alloc())?);
    Ok(())
}

/// Sends so many pieces of a worker, and takes what is there after each.
fn send_and_take<R: Wait>(
    rt: &R,
    alloc: Global,
    pieces: &PieceQueue,
    sender: Sender,
    receiver: Receiver,
    count: u64,
) -> Result<(Sender, Receiver), NoMemory>
    requires sender { IsSender pieces.now sender }
    requires worker { number_of sender ≡ 1 }
    requires receiver { IsReceiver pieces.now receiver }
    requires made { made_by receiver ≡ 2 }
    ensures sender { IfOk result (λ r. IsSender pieces.now r.0) }
    ensures receiver { IfOk result (λ r. IsReceiver pieces.now r.1) }
    ensures made { IfOk result (λ r. made_by r.1 ≡ 2) }
{
    let mut sender = sender;
    let mut receiver = receiver;
    for place in 0..count {
        if sender.send(rt, pieces, piece_of(alloc, 1, place)?).is_err() {
            return Err(NoMemory);
        }
        receiver.empty(rt, pieces)?;
    }
    Ok((sender, receiver))
}

/// On two threads: one sends, while the other sends and takes.
fn on_two_threads<R: Threads + Wait + Sync>(rt: &R, alloc: Global) -> Result<bool, NoMemory> {
    let (pieces, mut receiver) = PieceQueue::make(alloc)?;
    let first = receiver.make_sender(&pieces);
    let second = receiver.make_sender(&pieces);
    let pieces = &pieces;
    let (first, second) = thread::join(
        rt,
        move || -> Result<Sender, NoMemory>
            requires { IsSender pieces.now first × (number_of first ≡ 0) }
            ensures { IfOk result (λ sender. IsSender pieces.entry.now sender) }
        { send_some(rt, alloc, pieces, first, 0, (0, 3000)) },
        move || -> Result<(Sender, Receiver), NoMemory>
            requires sender { IsSender pieces.now second × (number_of second ≡ 1) }
            requires receiver { IsReceiver pieces.now receiver × (made_by receiver ≡ 2) }
            ensures { IfOk result (λ r. IsSender pieces.entry.now r.0
                × IsReceiver pieces.entry.now r.1 × (made_by r.1 ≡ 2)) }
        { send_and_take(rt, alloc, pieces, second, receiver, 3000) },
    );
    let (second, receiver) = second?;
    all_came(rt, alloc, pieces, receiver, (first?, second), 3000)
}

#[test]
fn pieces_of_two_threads(rt: HostRuntime) -> Result<(), Fail> {
    assert!(rt; on_two_threads(&rt, rt.alloc())?);
    Ok(())
}
