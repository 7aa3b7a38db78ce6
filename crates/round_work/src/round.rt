//! A round: its workers, each in a thread of its own, and the keeper beside them.
ghost use Rattle.std.specs.Prelude.{◌≡◌, [], ℕ, List, length, IfOk};
ghost use Rattle.delete_queue.specs.declared.queue.DeleteQueue.{DeleteQueue};
ghost use Rattle.piece_queue.specs.Passes.{IsReceiver, ended_with, made_by};
ghost use Rattle.round_work.specs.Rounds.{AreStopped, IsRoom};
ghost use Rattle.round_work.specs.Working.{AreAtWork, AreWorked};

use crate::gathering::gather;
use crate::starting::{Started, come_all, make_senders, start_all};
use crate::worked::{Stopped, Worked};
use delete_queue::DeleteQueue;
use ix_base::NoMemory;
use ix_outside::Gate;
use piece_queue::{PieceQueue, Receiver, Sender};
use std::alloc::Global;
use std::sync::Wait;
use std::thread;
use std::thread::Threads;
use thread_writer::ThreadWriter;
use worker_tasks::Share;

/// Does the shares of a round, each by its writer in a thread of its own, and calls `beside` in the
/// caller's thread once they were started. Then it waits for all, and returns what `beside` returned and,
/// in the order of the workers, what each of them did, with the pieces that its writer gave off. It asks
/// for as many shares as writers, which have the numbers from 0 on and have given nothing off.
///
/// A worker whose share is done needs no thread. A worker whose thread can't be started is done by the
/// caller, once the others were started and before `beside` is called.
///
/// The only error is out of memory: no worker was begun, or what the workers did is let go with their
/// writers, shares and pieces. `beside` was called in any case, once.
///
/// A round takes memory for its lists of workers and for a queue of pieces: three blocks of it, each with
/// 32 words and with room for 31 pieces, and a further one where these are full.
pub fn run_round<R: Threads + Wait + Sync, G: Gate, T, F: FnOnce() -> T>(
    rt: &R,
    alloc: Global,
    queue: &DeleteQueue,
    writers: Vec<ThreadWriter>,
    shares: Vec<Share>,
    gate: &G,
    beside: F,
) -> (T, Result<Vec<Worked>, NoMemory>)
    requires workers { AreAtWork queue.now 0 writers.items shares.items }
    requires beside { F.IsAlwaysCallable beside }
    ensures beside { F.post beside result.0 }
    ensures works { IfOk result.1 (λ all.
        AreWorked queue.now writers.items shares.items all.items) }
{
    let count = writers.len();
    let (pieces, receiver, room) = match prepare(alloc, count) {
        Ok(prepared) => prepared,
        Err(error) => return (beside(), Err(error)),
    };
    run_in_scope(
        rt, alloc, queue, &pieces, receiver, writers, shares, gate, beside, room,
    )
}

/// Room for what the workers of a round become.
#[derive(Drop)]
pub(crate) struct Room {
    senders: Vec<Sender>,
    started: Vec<Started>,
    stopped: Vec<Stopped>,
}

/// What a round of so many workers needs. The only error is out of memory.
fn prepare(alloc: Global, count: usize) -> Result<(PieceQueue, Receiver, Room), NoMemory>
    ensures receiver { IfOk result (λ p. IsReceiver p.0 p.1) }
    ensures made { IfOk result (λ p. made_by p.1 ≡ 0) }
    ensures ended { IfOk result (λ p. ended_with p.1 ≡ []) }
    ensures senders { IfOk result (λ p. IsRoom count p.2.senders) }
    ensures started { IfOk result (λ p. IsRoom count p.2.started) }
    ensures stopped { IfOk result (λ p. IsRoom count p.2.stopped) }
{
    let room = Room {
        senders: Vec::with_capacity(alloc, count)?,
        started: Vec::with_capacity(alloc, count)?,
        stopped: Vec::with_capacity(alloc, count)?,
    };
    let (pieces, receiver) = PieceQueue::make(alloc)?;
    Ok((pieces, receiver, room))
}

/// Starts the workers, calls `beside`, waits for the workers and gathers what they did.
fn run_in_scope<R: Threads + Wait + Sync, G: Gate, T, F: FnOnce() -> T>(
    rt: &R,
    alloc: Global,
    queue: &DeleteQueue,
    pieces: &PieceQueue,
    receiver: Receiver,
    writers: Vec<ThreadWriter>,
    shares: Vec<Share>,
    gate: &G,
    beside: F,
    room: Room,
) -> (T, Result<Vec<Worked>, NoMemory>)
    requires receiver { IsReceiver pieces.now receiver }
    requires fresh { (made_by receiver ≡ 0) × (ended_with receiver ≡ []) }
    requires workers { AreAtWork queue.now 0 writers.items shares.items }
    requires beside { F.IsAlwaysCallable beside }
    requires senders { IsRoom (length writers.items) room.senders }
    requires started { IsRoom (length writers.items) room.started }
    requires stopped { IsRoom (length writers.items) room.stopped }
    ensures beside { F.post beside result.0 }
    ensures works { IfOk result.1 (λ all.
        AreWorked queue.now writers.items shares.items all.items) }
{
    let Room {
        senders,
        started,
        stopped,
    } = room;
    let (done, stopped, receiver) = thread::scope(
        thread::scope_env(),
        rt,
        move |scope| -> (T, Vec<Stopped>, Receiver)
            requires receiver { IsReceiver pieces.now receiver }
            requires fresh { (made_by receiver ≡ 0) × (ended_with receiver ≡ []) }
            requires workers { AreAtWork queue.now 0 writers.items shares.items }
            requires beside { F.IsAlwaysCallable beside }
            requires senders { IsRoom (length writers.items) senders }
            requires started { IsRoom (length writers.items) started }
            requires stopped { IsRoom (length writers.items) stopped }
            ensures beside { F.post beside result.0 }
            ensures receiver { IsReceiver pieces.entry.now result.2 }
            ensures ended { ended_with result.2 ≡ [] }
            ensures made { made_by result.2 ≡ length writers.items }
            ensures stopped { AreStopped queue.entry.now pieces.entry.now 0
                writers.items shares.items result.1.items }
        {
            let mut receiver = receiver;
            let senders = make_senders(pieces, &mut receiver, writers.len(), senders);
            let started = start_all(
                rt, scope, queue, pieces, writers, shares, senders, gate, started,
            );
            let done = beside();
            let stopped = come_all(rt, pieces, &mut receiver, started, stopped);
            (done, stopped, receiver)
        },
    );
    (done, gather(rt, alloc, pieces, receiver, stopped))
}
