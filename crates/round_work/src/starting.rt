//! Starting the workers of a round, and waiting for them.
ghost use Rattle.std.specs.Prelude.{◌≡◌, ◌≤◌, [], ℕ, List, length, vec_capacity};
ghost use Rattle.std.specs.List.{AllZip};
ghost use Rattle.delete_queue.specs.declared.queue.DeleteQueue.{DeleteQueue};
ghost use Rattle.piece_queue.specs.Passes.{IsReceiver, ended_with, made_by, number_of};
ghost use Rattle.round_work.specs.Outboxes.{IsFresh};
ghost use Rattle.round_work.specs.Rounds.{AreFresh, AreStarted, ComesBack, IsRoom, Stops};
ghost use Rattle.round_work.specs.Working.{AreAtWork, IsAtWork};

use crate::worked::Stopped;
use crate::working::work;
use delete_queue::DeleteQueue;
use ix_outside::Gate;
use piece_queue::{PieceQueue, Receiver, Sender};
use std::snapshot::Snapshot;
use std::sync::Wait;
use std::thread::{Promise, PromisedHandle, Scope, Threads};
use thread_writer::ThreadWriter;
use worker_tasks::Share;

/// What a worker that was started will have done: what `work` promises of what it was given.
#[derive(Drop)]
pub(crate) struct WorkPromise {
    queue: Snapshot<DeleteQueue>,
    pieces: Snapshot<PieceQueue>,
    writer: Snapshot<ThreadWriter>,
    share: Snapshot<Share>,
    sender: Snapshot<Sender>,
}

impl Promise<Stopped> for WorkPromise {
    ghost use Rattle.piece_queue.specs.Passes.{number_of};
    ghost use Rattle.round_work.specs.Rounds.{Stops};

    ghost kept_by = { λ p stopped. Stops p.queue.value p.pieces.value
        (number_of p.sender.value) p.writer.value p.share.value stopped };
}

/// A worker that was started in a thread, or one that was done here.
#[derive(Drop)]
pub(crate) enum Started {
    Thread(PromisedHandle<Stopped, WorkPromise>),
    Here(Stopped),
}

/// The senders of so many workers, from the first on.
pub(crate) fn make_senders(
    pieces: &PieceQueue,
    receiver: &mut Receiver,
    count: usize,
    mut senders: Vec<Sender>,
) -> Vec<Sender>
    requires receiver { IsReceiver pieces.now receiver.old }
    requires made { made_by receiver.old ≡ 0 }
    requires room { IsRoom count senders }
    ensures receiver { IsReceiver pieces.now receiver.new }
    ensures made { made_by receiver.new ≡ count }
    ensures ended { ended_with receiver.new ≡ ended_with receiver.old }
    ensures senders { AreFresh pieces.now 0 result.items }
    ensures count { length result.items ≡ count }
{
    for _ in 0..count {
        senders.push_reserved(receiver.make_sender(pieces));
    }
    senders
}

/// Starts each worker in a thread, the last of them first. A worker whose share is done, and one
/// whose thread can't be started, is done here once the workers before it were started.
pub(crate) fn start_all<'s, E, R: Wait + Sync, G: Gate>(
    rt: &'s R,
    scope: &Scope<'s, E>,
    queue: &'s DeleteQueue,
    pieces: &'s PieceQueue,
    mut writers: Vec<ThreadWriter>,
    mut shares: Vec<Share>,
    mut senders: Vec<Sender>,
    gate: &'s G,
    started: Vec<Started>,
) -> Vec<Started>
    requires workers { AreAtWork queue.now 0 writers.items shares.items }
    requires senders { AreFresh pieces.now 0 senders.items }
    requires count { length senders.items ≡ length writers.items }
    requires room { IsRoom (length writers.items) started }
    ensures started { AreStarted queue.now pieces.now 0 writers.items shares.items result.items }
    ensures room { vec_capacity result ≡ vec_capacity started }
{
    let Some(writer) = writers.pop() else {
        return started;
    };
    let Some(share) = shares.pop() else {
        unreachable!()
    };
    let Some(sender) = senders.pop() else {
        unreachable!()
    };
    if share.is_done() {
        let mut started = start_all(
            rt, scope, queue, pieces, writers, shares, senders, gate, started,
        );
        let stopped = work(rt, queue, pieces, writer, share, sender, gate);
        started.push_reserved(Started::Here(stopped));
        return started;
    }
    let promise = WorkPromise {
        queue: Snapshot::of(queue),
        pieces: Snapshot::of(pieces),
        writer: Snapshot::of(&writer),
        share: Snapshot::of(&share),
        sender: Snapshot::of(&sender),
    };
    let child = scope.spawn_with(
        promise,
        move || -> Stopped
            requires sender { IsFresh pieces.now (number_of sender) sender }
            requires worker { IsAtWork queue.now (number_of sender) writer share }
            ensures { Stops queue.entry.now pieces.entry.now (number_of sender) writer share result }
        { work(rt, queue, pieces, writer, share, sender, gate) },
    );
    let mut started = start_all(
        rt, scope, queue, pieces, writers, shares, senders, gate, started,
    );
    started.push_reserved(match child {
        Ok(child) => Started::Thread(child),
        Err(refused) => Started::Here((refused.value)()),
    });
    started
}

/// Waits for each worker, in order. The pieces that came are taken before; where memory for that runs
/// out they stay in the queue, and are taken later.
pub(crate) fn come_all<R: Threads + Wait>(
    rt: &R,
    pieces: &PieceQueue,
    receiver: &mut Receiver,
    started: Vec<Started>,
    mut stopped: Vec<Stopped>,
) -> Vec<Stopped>
    requires receiver { IsReceiver pieces.now receiver.old }
    requires room { IsRoom (length started.items) stopped }
    ensures receiver { IsReceiver pieces.now receiver.new }
    ensures made { made_by receiver.new ≡ made_by receiver.old }
    ensures ended { ended_with receiver.new ≡ ended_with receiver.old }
    ensures back { AllZip ComesBack started.items result.items }
{
    for one in started {
        let _ = receiver.empty(rt, pieces);
        stopped.push_reserved(come_back(rt, one));
    }
    stopped
}

/// Waits for a worker.
fn come_back<R: Threads>(rt: &R, started: Started) -> Stopped
    ensures { ComesBack started result }
{
    match started {
        Started::Thread(child) => child.join(rt),
        Started::Here(stopped) => stopped,
    }
}
