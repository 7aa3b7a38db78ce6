//! What came back of a round, put together: the pieces of all its writers, and the packet of all its
//! operations.
ghost use Rattle.std.specs.Prelude.{◌≡◌, ◌↔◌, ◌≤◌, List, map, length, IfOk, OnOk};
ghost use Rattle.std.specs.List.{AllByRecursion};
ghost use Rattle.ix_base.specs.Words.{head_kind};
ghost use Rattle.delete_queue.specs.Log.{entries_of, last_head_or, last_number};
ghost use Rattle.delete_slice.specs.Laws.{IsInGrammar};
ghost use Rattle.row_fates.specs.Fate.{Numbered};
ghost use Rattle.thread_writer.specs.Writing.{parts_of};
ghost use Rattle.flush_control.specs.Logs.{IsLast, IsPacketOf, TakesAll};
ghost use Rattle.index_writer.specs.Rounds.{ArePartsOf};
ghost use Rattle.index_writer.specs.Ending.{AreEnded, CanEnd, IsGathered, rests_of};
ghost use Rattle.index_writer.specs.Working.{IsStuck, SomeTurned};

use crate::round::RoundParts;
use delete_queue::{Place, QueueLog, Reserve, Seat};
use delete_slice::{Slice, logs_are_in_grammar};
use flush_control::{last_heads, rounds_are_ordered};
use frozen_packet::{Packet, Updates};
use ix_base::NoMemory;
use ram_postings::RamPostings;
use std::alloc::Global;
use thread_writer::{HandedBack, Piece, ThreadWriter};

/// What a writer that ended leaves besides its seat.
#[derive(Drop)]
pub struct Rest {
    /// The seat number, from 0.
    pub worker: u64,
    /// The rows that are in no piece yet.
    pub rows: RamPostings,
    /// The pieces that it gave off, in their order.
    pub gave: Vec<Piece>,
}

/// What a round comes to.
#[derive(Drop)]
pub struct Gathered {
    /// The pieces of all writers, one writer after another.
    pub pieces: Vec<Piece>,
    /// All operations of the round.
    pub packet: Packet,
    /// The kind of the last entry of the queue; 0 where there is none.
    pub kind: u64,
}

/// Ends the queue, whose first entry has the number after `base`, and puts together what its writers
/// did: each writer's pieces, of which the last one is made of its rest, and the packet of the whole
/// queue.
pub fn gather(
    alloc: Global,
    base: u64,
    reserve: &mut Reserve,
    parts: RoundParts,
) -> Result<Gathered, NoMemory>
    requires parts { (told : List (List Numbered)) × ArePartsOf base told parts }
    ensures gathered { (told : List (List Numbered)) → ArePartsOf base told parts
        → IfOk result (IsGathered base told) }
    ensures open { OnOk result (IsStuck parts → ⊥) }
    ensures turned { IfOk result (λ g. (g.kind ≡ 7) ↔ SomeTurned parts) }
{
    rounds_are_ordered();
    logs_are_in_grammar();
    let RoundParts {
        queue,
        writers,
        pieces,
    } = parts;
    let (seats, rests) = handed_back(alloc, writers, pieces)?;
    let Ok(log) = queue.finish(seats, reserve) else {
        return Err(NoMemory);
    };
    let (upto, kind) = last_of(&log, base);
    let pieces = pieces_of(alloc, base, rests)?;
    let packet = packet_of(alloc, &log, base, upto)?;
    reserve.keep(log);
    Ok(Gathered {
        pieces,
        packet,
        kind,
    })
}

/// The seats of the writers, and what else they leave.
fn handed_back(
    alloc: Global,
    writers: Vec<ThreadWriter>,
    pieces: Vec<Vec<Piece>>,
) -> Result<(Vec<Seat>, Vec<Rest>), NoMemory>
    requires count { length writers.items ≡ length pieces.items }
    ensures seats { IfOk result (λ r. r.0.items ≡ map (λ w. (parts_of w).seat) writers.items) }
    ensures rests { IfOk result (λ r. r.1.items ≡ rests_of 0 writers.items pieces.items) }
{
    let mut seats = Vec::new(alloc);
    let mut rests = Vec::new(alloc);
    let mut pieces = pieces.into_iter();
    for writer in writers {
        let Some(gave) = pieces.next() else {
            continue;
        };
        let worker = rests.len() as u64;
        let HandedBack { seat, rest, .. } = writer.hand_back();
        seats.push(seat)?;
        rests.push(Rest {
            worker,
            rows: rest,
            gave,
        })?;
    }
    Ok((seats, rests))
}

/// The sequence number of the last numbered entry of a log, which is the base where there is none, and
/// the kind of its last entry, which is 0 where there is none.
fn last_of(log: &QueueLog, base: u64) -> (u64, u64)
    requires { base ≡ log.now.base }
    ensures number { result.0 ≡ last_number log.now.base (entries_of log.now) }
    ensures kind { result.1 ≡ head_kind (last_head_or 0 (entries_of log.now)) }
{
    last_heads();
    let count = log.len();
    if count == 0 {
        return (base, 0);
    }
    let (number, kind, _words) = log.entry(count - 1);
    (number, kind)
}

/// The last piece of a writer, which is made of its rest, in a round whose first operation has the
/// number after `base`. None of the round's operations is in it: the packet has them all, and brings
/// them to its rows. So a rest of which the round deletes every row takes an id and becomes a segment
/// without a live row. No commit lists that, and it stays until a merge takes it.
fn last_piece(
    alloc: Global,
    base: u64,
    worker: u64,
    mut rows: RamPostings,
) -> Result<Piece, NoMemory>
    requires few { length rows ≤ 65599 }
    ensures { IfOk result (IsLast base rows) }
{
    let frozen = rows.take_frozen()?;
    Ok(Piece {
        worker,
        frozen,
        updates: Updates::new(alloc),
        cut: base,
    })
}

/// The pieces of all writers, one writer after another, with the last one of each.
fn pieces_of(alloc: Global, base: u64, rests: Vec<Rest>) -> Result<Vec<Piece>, NoMemory>
    requires can { AllByRecursion CanEnd rests.items }
    ensures { IfOk result (λ pieces. AreEnded base rests.items pieces.items) }
{
    let mut pieces = Vec::new(alloc);
    for rest in rests {
        let Rest { worker, rows, gave } = rest;
        let last = last_piece(alloc, base, worker, rows)?;
        let mut gave = gave;
        pieces.append(&mut gave)?;
        pieces.push(last)?;
    }
    Ok(pieces)
}

/// The updates of all entries of a log.
fn updates_of(alloc: Global, log: &QueueLog) -> Result<Updates, NoMemory>
    requires grammar { IsInGrammar log.now }
    ensures { IfOk result (TakesAll log.now) }
{
    let mut updates = Updates::new(alloc);
    let from = Place { at: 0, word: 0 };
    let to = Place {
        at: log.len(),
        word: 0,
    };
    Slice { from, to }.apply_log(alloc, log, &mut updates)?;
    Ok(updates)
}

/// The packet of a whole log.
fn packet_of(alloc: Global, log: &QueueLog, after: u64, upto: u64) -> Result<Packet, NoMemory>
    requires grammar { IsInGrammar log.now }
    requires after { after ≡ log.now.base }
    requires upto { upto ≡ last_number log.now.base (entries_of log.now) }
    ensures { IfOk result (IsPacketOf log.now) }
{
    Ok(Packet {
        after,
        upto,
        updates: updates_of(alloc, log)?,
    })
}
