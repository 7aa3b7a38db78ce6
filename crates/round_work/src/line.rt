//! One try of an operation, by a writer that gives its full buffer off before.
ghost use Rattle.std.specs.Prelude.{◌≡◌, ◌<◌, [], None, length, IfOk, OnOk, Err, true};
ghost use Rattle.delete_queue.specs.Seats.{SawClosed, number_of, own_of, the_view};
ghost use Rattle.thread_writer.specs.Writing.{IsWriter};
ghost use Rattle.round_order.specs.Order.{is_commit};
ghost use Rattle.round_work.specs.declared.line.Halt.TheVariants as halt;
ghost use Rattle.round_work.specs.Lines.{Closes, TurnsFor, reply_for, told_for};
ghost use Rattle.round_work.specs.Outboxes.{IsOutbox, gave_by};
ghost use Rattle.round_work.specs.Working.{WorksOn};
ghost use Rattle.worker_tasks.specs.Replies.{IsReplyTo};

use crate::outbox::Outbox;
use delete_queue::DeleteQueue;
use ix_base::{NoMemory, Operation, Refusal};
use piece_queue::PieceQueue;
use std::alloc::AllocError;
use std::sync::Wait;
use thread_writer::{ThreadWriter, Told};
use worker_tasks::Reply;

/// Why a task was told nothing.
#[derive(Clone, Copy, Debug, PartialEq, Eq)]
pub enum Halt {
    /// The queue takes no more.
    Closed,
    /// Out of memory.
    NoMemory,
}

impl From<NoMemory> for Halt {
    ghost use Rattle.round_work.specs.declared.line.Halt.TheVariants as halt;

    ghost from_gives = { λ _ halted. halted ≡ halt.NoMemory };

    fn from(_error: NoMemory) -> Halt {
        Halt::NoMemory
    }
}

impl From<AllocError> for Halt {
    ghost use Rattle.round_work.specs.declared.line.Halt.TheVariants as halt;

    ghost from_gives = { λ _ halted. halted ≡ halt.NoMemory };

    fn from(_error: AllocError) -> Halt {
        Halt::NoMemory
    }
}

/// Gives a writer's buffer off where it is full, and sends it at once. The only error is out of memory:
/// then nothing was given off, or the outbox holds what was.
fn give_off<R: Wait>(
    rt: &R,
    queue: &DeleteQueue,
    pieces: &PieceQueue,
    writer: &mut ThreadWriter,
    outbox: &mut Outbox,
) -> Result<(), NoMemory>
    requires writer { IsWriter queue.now writer.old }
    requires outbox { IsOutbox pieces.now (number_of writer.old.seat) outbox.old }
    requires empty { outbox.old.held ≡ None }
    ensures works { WorksOn queue.now [] writer.old (gave_by outbox.old)
        writer.new (gave_by outbox.new) }
    ensures outbox { IsOutbox pieces.now (number_of writer.new.seat) outbox.new }
    ensures sent { OnOk result (outbox.new.held ≡ None) }
    ensures own { own_of writer.new.seat ≡ own_of writer.old.seat }
    ensures room { OnOk result (length writer.new.rows < writer.new.size) }
{
    match writer.take_pieces(queue)? {
        Some(piece) => outbox.send(rt, pieces, piece),
        None => Ok(()),
    }
}

/// What a task is told for what the writer answered, if anything.
fn reply(told: Told) -> Result<Reply, Halt>
    ensures { result ≡ reply_for told }
{
    match told {
        Told::Numbered(number) => Ok(Reply::Numbered(number)),
        Told::RefusedTerm { size } => Ok(Reply::Refused(Refusal::Term { size })),
        Told::RefusedQuery { size } => Ok(Reply::Refused(Refusal::Query { size })),
        Told::Closed | Told::Full { .. } => Err(Halt::Closed),
        Told::NoMemory => Err(Halt::NoMemory),
    }
}

/// Tries an operation, by a writer whose pieces go into this outbox, and returns what it is told.
/// `Closed` comes only where the seat has seen that the queue is closed: where its own part of the
/// queue has no room for the operation, the writer closes the queue by a turn. After an error nothing
/// was told; what was given off was sent, or is held where memory ran out.
pub fn do_line<R: Wait>(
    rt: &R,
    queue: &DeleteQueue,
    pieces: &PieceQueue,
    writer: &mut ThreadWriter,
    outbox: &mut Outbox,
    operation: &Operation,
) -> Result<Reply, Halt>
    requires writer { IsWriter queue.now writer.old }
    requires outbox { IsOutbox pieces.now (number_of writer.old.seat) outbox.old }
    requires empty { outbox.old.held ≡ None }
    ensures works { WorksOn queue.now (told_for result operation.now)
        writer.old (gave_by outbox.old) writer.new (gave_by outbox.new) }
    ensures outbox { IsOutbox pieces.now (number_of writer.new.seat) outbox.new }
    ensures sent { (result ≡ Err halt.NoMemory → ⊥) → outbox.new.held ≡ None }
    ensures reply { IfOk result (λ reply. IsReplyTo operation.now reply) }
    ensures closed { result ≡ Err halt.Closed → SawClosed (the_view writer.new.seat) }
    ensures commit { is_commit operation.now ≡ true
        → OnOk result (Closes queue.now writer.old (gave_by outbox.old) writer.new) }
    ensures turned { TurnsFor result operation.now writer.old writer.new }
{
    give_off(rt, queue, pieces, writer, outbox)?;
    let told = writer.do_line(queue, operation);
    if let Told::Full { .. } = told {
        let _ = writer.turn(queue);
    }
    reply(told)
}
