//! Rounds of pieces and their packets, against what was worked out by hand.
ghost use Rattle.std.specs.Prelude.{◌≡◌, true, All, IfOk};
ghost use Rattle.std.specs.List.{AllByRecursion};
ghost use Rattle.segment_core.specs.LiveRows.{CanBuild};
ghost use Rattle.packet_apply.specs.Packets.{Meets};
ghost use Rattle.flush_control.specs.Published.{HasInversion};

use crate::round::{Act, delete_of, fresh, setting_of};
use analysis::invert;
use flush_control::Published;
use frozen_packet::{Packet, Updates};
use node_words::Entry;
use ram_postings::Frozen;
use segment_core::LiveSegment;
use std::alloc::Global;
use std::fmt::Write;
use std::test::*;
use std::thread::Threads;
use test_segments::show_live_row;
use test_values::row_of;
use thread_writer::Piece;

/// Entries by number, and what each does to the rows with a key.
type Entries<'a> = &'a [(u64, Act, &'a str)];

/// A piece: its rows by the number of the operation that adds it, with a key each, its entries, and its cut.
#[derive(Clone, Copy)]
struct Given<'a> {
    rows: &'a [(u64, &'a str)],
    entries: Entries<'a>,
    cut: u64,
}

fn entry_of(alloc: Global, act: Act, key: &str) -> Result<Entry, Fail> {
    match act {
        Act::Add => Ok(Entry::Add),
        Act::Delete => delete_of(alloc, key),
        Act::Set(value) => setting_of(alloc, key, value),
    }
}

fn updates_of(alloc: Global, entries: &[(u64, Act, &str)]) -> Result<Updates, Fail> {
    let mut updates = Updates::new(alloc);
    let mut last = 0;
    for (number, act, key) in entries {
        if *number < last {
            Err("numbers don't rise")?;
        }
        last = *number;
        updates.take(last, entry_of(alloc, *act, key)?)?;
    }
    Ok(updates)
}

fn frozen_of(alloc: Global, given: &[(u64, &str)]) -> Result<Frozen, Fail>
    ensures { IfOk result (λ frozen. CanBuild frozen.rows.items frozen.postings) }
{
    let mut rows = Vec::new(alloc);
    for (number, key) in given {
        rows.push(row_of(alloc, *number, key)?)?;
    }
    if rows.len() > 8 {
        Err("many rows")?;
    }
    let postings = invert(alloc, rows.as_slice())?;
    Ok(Frozen { rows, postings })
}

fn piece_of(alloc: Global, given: Given) -> Result<Piece, Fail>
    ensures { IfOk result HasInversion }
{
    Ok(Piece {
        worker: 0,
        frozen: frozen_of(alloc, given.rows)?,
        updates: updates_of(alloc, given.entries)?,
        cut: given.cut,
    })
}

fn pieces_of(alloc: Global, given: &[Given]) -> Result<Vec<Piece>, Fail>
    ensures { IfOk result (λ pieces. AllByRecursion HasInversion pieces.items) }
{
    let mut pieces = Vec::new(alloc);
    for piece in given {
        pieces.push(piece_of(alloc, *piece)?)?;
    }
    Ok(pieces)
}

/// Whether the packet meets all segments.
fn meets(segments: &[LiveSegment], packet: &Packet) -> bool
    ensures { result ≡ true → All (Meets packet.now) segments.now }
{
    for segment in segments {
        let applied = segment.live().applied();
        if applied < packet.after || packet.upto < applied {
            return false;
        }
    }
    true
}

/// Takes the pieces, and applies a packet of these entries, which goes up to this number.
fn do_round<R: Threads + Sync>(
    rt: &R,
    alloc: Global,
    index: &mut Published,
    pieces: Vec<Piece>,
    entries: Entries,
    upto: u64,
) -> Result<(), Fail>
    requires { AllByRecursion HasInversion pieces.items }
{
    let after = index.upto;
    let updates = updates_of(alloc, entries)?;
    if index.next_id > 5000 || pieces.len() > 5000 {
        Err("many segments")?;
    }
    index.take_round(alloc, pieces)?;
    let packet = Packet {
        after,
        upto,
        updates,
    };
    if !meets(index.segments.as_slice(), &packet) {
        Err("the packet doesn't meet the segments")?;
    }
    Ok(index.apply_up(rt, alloc, &packet)?)
}

/// The number up to which operations are in the index and the next id; then each segment's id, how
/// many rows it has, the number up to which operations are in it, and its live rows.
pub(crate) fn shown(alloc: Global, index: &Published) -> Result<String, Fail> {
    let mut out = String::new(alloc);
    write!(out, "{} {}", index.upto, index.next_id)?;
    for segment in index.segments.as_slice() {
        let rows = segment.segment().rows.len();
        let applied = segment.live().applied();
        write!(out, "; {}:{rows}@{applied}", segment.segment().id)?;
        for at in 0..8 {
            show_live_row(alloc, &mut out, segment, at)?;
        }
    }
    Ok(out)
}

/// The index after a round of these pieces, whose packet has these entries and goes up to this number.
fn after_round<R: Threads + Sync>(
    rt: &R,
    alloc: Global,
    index: &mut Published,
    given: &[Given],
    entries: Entries,
    upto: u64,
) -> Result<String, Fail> {
    let pieces = pieces_of(alloc, given)?;
    do_round(rt, alloc, index, pieces, entries, upto)?;
    shown(alloc, index)
}

/// Of the second piece no row is live at its cut, and the row of the third is deleted by an operation
/// after its cut.
const THREE_PIECES: [Given; 3] = [
    Given {
        rows: &[(1, "a"), (3, "b")],
        entries: &[(2, Act::Set(7), "a")],
        cut: 3,
    },
    Given {
        rows: &[(4, "c")],
        entries: &[(5, Act::Delete, "c")],
        cut: 5,
    },
    Given {
        rows: &[(6, "d")],
        entries: &[],
        cut: 6,
    },
];

/// What the packet of the three pieces does.
const OF_THREE: [(u64, Act, &str); 4] = [
    (2, Act::Set(7), "a"),
    (5, Act::Delete, "c"),
    (7, Act::Delete, "d"),
    (8, Act::Set(4), "b"),
];

/// A round of three pieces. Then a round without a piece.
#[test]
fn two_rounds(rt: HostRuntime) -> Result<(), Fail> {
    let alloc = rt.alloc();
    let mut index = fresh(alloc, 0);
    let first = after_round(&rt, alloc, &mut index, &THREE_PIECES, &OF_THREE, 9)?;
    assert!(rt; first.as_str() == "9 3; 1:2@9 a1=7 b3=4; 2:1@9");
    let entries = [(10, Act::Delete, "a")];
    let second = after_round(&rt, alloc, &mut index, &[], &entries, 10)?;
    assert!(rt; second.as_str() == "10 3; 1:2@10 b3=4; 2:1@10");
    Ok(())
}

/// Pieces with no operations in them. Of the first the row that was born before a delete is gone. The
/// second has no row, and takes no id. The row of the third is deleted by the packet: it is a segment
/// without a live row.
const LAST_PIECES: [Given; 3] = [
    Given {
        rows: &[(5, "a"), (7, "a"), (9, "b")],
        entries: &[],
        cut: 4,
    },
    Given {
        rows: &[],
        entries: &[],
        cut: 4,
    },
    Given {
        rows: &[(8, "c")],
        entries: &[],
        cut: 4,
    },
];

/// What the packet of the last pieces does.
const OF_LAST: [(u64, Act, &str); 3] = [
    (6, Act::Delete, "a"),
    (10, Act::Set(3), "b"),
    (11, Act::Delete, "c"),
];

/// Last pieces, whose cut is before the round's first number.
#[test]
fn last_pieces(rt: HostRuntime) -> Result<(), Fail> {
    let alloc = rt.alloc();
    let mut index = fresh(alloc, 4);
    let told = after_round(&rt, alloc, &mut index, &LAST_PIECES, &OF_LAST, 11)?;
    assert!(rt; told.as_str() == "11 3; 1:3@11 a7 b9=3; 2:1@11");
    Ok(())
}

/// 2,000 pieces of a row each, and in each the same delete, which came after half of the rows.
fn many_of(alloc: Global) -> Result<Vec<Piece>, Fail>
    ensures { IfOk result (λ pieces. AllByRecursion HasInversion pieces.items) }
{
    let mut pieces = Vec::new(alloc);
    for number in 1..2001 {
        let given = Given {
            rows: &[(number, "a")],
            entries: &[(1001, Act::Delete, "a")],
            cut: 2000,
        };
        pieces.push(piece_of(alloc, given)?)?;
    }
    Ok(pieces)
}

/// The number up to which operations are in the index, the next id, how many segments there are, and
/// the counts of their live rows, one or the other.
fn sizes(index: &Published) -> (u64, u64, usize, u32) {
    let mut counts = 0;
    for segment in index.segments.as_slice() {
        counts |= segment.live().live_count();
    }
    (index.upto, index.next_id, index.segments.len(), counts)
}

/// Of half of the pieces no row is live, and they take no id.
#[test]
fn many_pieces(rt: HostRuntime) -> Result<(), Fail> {
    let alloc = rt.alloc();
    let mut index = fresh(alloc, 0);
    let pieces = many_of(alloc)?;
    let entries = [(1001, Act::Delete, "a")];
    do_round(&rt, alloc, &mut index, pieces, &entries, 2000)?;
    assert!(rt; sizes(&index) == (2000, 1001, 1000, 1));
    Ok(())
}
