//! Rounds of one piece each, for tests of what comes between rounds: after each of them the segments
//! can be listed.
ghost use Rattle.std.specs.Prelude.{◌<◌, List as ListOf, IfOk, OnOk};
ghost use Rattle.flush_control.specs.Published.{IsPublished};
ghost use Rattle.flush_control.specs.Rounds.{IsRound};
ghost use Rattle.row_fates.specs.Fate.{Numbered};
ghost use Rattle.flush_control_tests.specs.Told.{AddsNone, IsPieceOf, IsTold};

use crate::told::Told;
use analysis::invert;
use flush_control::{Published, Released, rounds_meet, rounds_stand};
use frozen_packet::{Packet, Updates, taking_stands};
use ix_base::{Birth, List, Row};
use node_words::Entry;
use ram_postings::Frozen;
use std::alloc::Global;
use std::test::*;
use std::thread::Threads;
use test_values::{document_of, key_term, name_of};
use thread_writer::{Piece, pieces_are_few};

/// An operation: it adds a row with its key, deletes the rows with it, or sets the number `n` in them.
#[derive(Clone, Copy)]
pub(crate) enum Act {
    Add,
    Delete,
    Set(i64),
}

/// An index without segments, with operations up to this number in it.
pub(crate) fn fresh(alloc: Global, upto: u64) -> Published
    ensures { IsPublished result }
{
    Published {
        segments: List::new(alloc),
        next_id: 1,
        upto,
        merge: None,
        gone: Released::none(alloc),
    }
}

/// Nothing was told yet.
pub(crate) fn untold(alloc: Global, base: u64) -> Told
    ensures { IsTold result }
{
    Told {
        rows: Vec::new(alloc),
        updates: Updates::new(alloc),
        last: base,
        base,
    }
}

/// The rows with the key are deleted.
pub(crate) fn delete_of(alloc: Global, key: &str) -> Result<Entry, Fail>
    ensures { IfOk result AddsNone }
{
    let term = key_term(alloc, key)?;
    Ok(Entry::DeleteTerm(term))
}

/// The number `n` is set in the rows with the key.
pub(crate) fn setting_of(alloc: Global, key: &str, value: i64) -> Result<Entry, Fail>
    ensures { IfOk result AddsNone }
{
    let term = key_term(alloc, key)?;
    let num = name_of(alloc, "n")?;
    Ok(Entry::SetNumber { term, num, value })
}

/// A row with the key is added.
fn tell_row(alloc: Global, told: &mut Told, number: u64, key: &str) -> Result<(), Fail>
    requires told { IsTold told.old }
    requires number { told.old.last < number }
    ensures { OnOk result (IsTold told.new) }
{
    taking_stands();
    let doc = document_of(alloc, key)?;
    let birth = Birth::first(number);
    told.rows.push(Row { birth, doc })?;
    told.last = number;
    Ok(())
}

/// Something else is done.
fn tell_entry(told: &mut Told, number: u64, entry: Entry) -> Result<(), Fail>
    requires told { IsTold told.old }
    requires number { told.old.last < number }
    requires entry { AddsNone entry }
    ensures { OnOk result (IsTold told.new) }
{
    taking_stands();
    told.updates.take(number, entry)?;
    told.last = number;
    Ok(())
}

/// One more operation, after all others.
pub(crate) fn tell(
    alloc: Global,
    told: &mut Told,
    number: u64,
    act: Act,
    key: &str,
) -> Result<(), Fail>
    requires { IsTold told.old }
    ensures { OnOk result (IsTold told.new) }
{
    if number <= told.last {
        return Err(Fail::from("numbers don't rise"));
    }
    match act {
        Act::Add => tell_row(alloc, told, number, key),
        Act::Delete => tell_entry(told, number, delete_of(alloc, key)?),
        Act::Set(value) => tell_entry(told, number, setting_of(alloc, key, value)?),
    }
}

/// The rows as a piece, with nothing else in it.
fn piece_of(alloc: Global, rows: Vec<Row>, cut: u64) -> Result<Vec<Piece>, Fail>
    ensures { IfOk result (λ pieces. IsPieceOf rows.items cut pieces.items) }
{
    if rows.len() > 5000 {
        return Err(Fail::from("many rows"));
    }
    let postings = invert(alloc, rows.as_slice())?;
    let piece = Piece {
        worker: 0,
        frozen: Frozen { rows, postings },
        updates: Updates::new(alloc),
        cut,
    };
    Ok(vec![in alloc; piece]?)
}

/// Takes the pieces of a round, and applies its packet.
fn end_round<R: Threads + Sync>(
    rt: &R,
    alloc: Global,
    index: &mut Published,
    pieces: Vec<Piece>,
    packet: &Packet,
) -> Result<(), Fail>
    requires published { IsPublished index.old }
    requires round { (ops : ListOf Numbered) × IsRound index.old.upto ops pieces.items packet.now }
    ensures { OnOk result (IsPublished index.new) }
{
    rounds_meet();
    rounds_stand();
    if index.next_id > 5000 || pieces.len() > 5000 {
        return Err(Fail::from("many segments"));
    }
    index.take_round(alloc, pieces)?;
    index.apply_up(rt, alloc, packet)?;
    Ok(())
}

/// A round of these operations: the rows that they add are a piece.
pub(crate) fn do_round<R: Threads + Sync>(
    rt: &R,
    alloc: Global,
    index: &mut Published,
    told: Told,
) -> Result<(), Fail>
    requires published { IsPublished index.old }
    requires told { IsTold told }
    ensures { OnOk result (IsPublished index.new) }
{
    pieces_are_few();
    let Told {
        rows,
        updates,
        last,
        base,
    } = told;
    if base != index.upto {
        return Err(Fail::from("not behind the last round"));
    }
    let pieces = piece_of(alloc, rows, base)?;
    let packet = Packet {
        after: base,
        upto: last,
        updates,
    };
    end_round(rt, alloc, index, pieces, &packet)
}

/// What a round has of these operations, which come after those with numbers up to `base`.
pub(crate) fn told_of(alloc: Global, base: u64, acts: &[(u64, Act, &str)]) -> Result<Told, Fail>
    ensures { IfOk result IsTold }
{
    let mut told = untold(alloc, base);
    for (number, act, key) in acts {
        tell(alloc, &mut told, *number, *act, key)?;
    }
    Ok(told)
}
