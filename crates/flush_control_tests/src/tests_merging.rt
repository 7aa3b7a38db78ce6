//! Merges that take their steps between rounds, against what was worked out by hand.
ghost use Rattle.std.specs.Prelude.{◌≤◌, IfOk, OnOk};
ghost use Rattle.flush_control.specs.Published.{IsPublished};
ghost use Rattle.flush_control_tests.specs.Told.{IsTold};

use crate::round::Act::{Add, Delete, Set};
use crate::round::{Act, do_round, fresh, tell, told_of, untold};
use crate::tests::shown;
use crate::told::Told;
use flush_control::{MergeTurn, Published, merges_stand};
use std::alloc::Global;
use std::fmt::Write;
use std::test::*;
use std::thread::Threads;

/// What is done to an index: a round of these operations, or a merge turn.
#[derive(Clone, Copy)]
enum Deed<'a> {
    Round(&'a [(u64, Act, &'a str)]),
    Turn,
}

/// What is done, how many rows a turn reads, and what is shown then.
#[derive(Clone, Copy)]
struct Case<'a> {
    deeds: &'a [Deed<'a>],
    rows: u32,
    shown: &'a str,
}

/// Takes a turn of a merge of two segments, which reads so many rows.
fn turn(alloc: Global, index: &mut Published, rows: u32) -> Result<MergeTurn, Fail>
    requires rows { 1 ≤ rows }
    requires published { IsPublished index.old }
    ensures { OnOk result (IsPublished index.new) }
{
    merges_stand();
    if index.next_id > 5000 {
        Err("many segments")?;
    }
    let turn = index.merge_turn(alloc, 2, rows)?;
    Ok(turn)
}

/// Takes a turn, and appends `I` where nothing was done, `S` where the merge runs on, and `M` where it
/// ended.
fn show_turn(alloc: Global, index: &mut Published, rows: u32, out: &mut String) -> Result<(), Fail>
    requires rows { 1 ≤ rows }
    requires published { IsPublished index.old }
    ensures { OnOk result (IsPublished index.new) }
{
    let sign = match turn(alloc, index, rows)? {
        MergeTurn::Idle => "I",
        MergeTurn::Stepped => "S",
        MergeTurn::Merged => "M",
    };
    Ok(out.push_str(sign)?)
}

fn do_deed<R: Threads + Sync>(
    rt: &R,
    alloc: Global,
    index: &mut Published,
    deed: Deed,
    rows: u32,
    out: &mut String,
) -> Result<(), Fail>
    requires rows { 1 ≤ rows }
    requires published { IsPublished index.old }
    ensures { OnOk result (IsPublished index.new) }
{
    match deed {
        Deed::Round(acts) => do_round(rt, alloc, index, told_of(alloc, index.upto, acts)?),
        Deed::Turn => show_turn(alloc, index, rows, out),
    }
}

/// What the turns did, and the index after all deeds.
fn done<R: Threads + Sync>(rt: &R, alloc: Global, case: Case) -> Result<String, Fail> {
    let mut index = fresh(alloc, 0);
    let mut out = String::new(alloc);
    if case.rows == 0 {
        Err("no rows")?;
    }
    for deed in case.deeds {
        do_deed(rt, alloc, &mut index, *deed, case.rows, &mut out)?;
    }
    let after = shown(alloc, &index)?;
    write!(out, " {after}")?;
    Ok(out)
}

fn is_right<R: Threads + Sync>(rt: &R, alloc: Global, case: Case) -> Result<bool, Fail> {
    Ok(done(rt, alloc, case)?.as_str() == case.shown)
}

/// Three rows for each of two segments.
const THREE: Deed = Deed::Round(&[(1, Add, "a"), (2, Add, "b"), (3, Add, "c")]);

const MORE: Deed = Deed::Round(&[(4, Add, "d"), (5, Add, "e"), (6, Add, "f")]);

/// A merge of three steps over two rounds, each of which adds a segment: rows that were read, and rows
/// that weren't, are deleted, and numbers are set in them.
const BETWEEN: Case = Case {
    deeds: &[
        THREE,
        MORE,
        Deed::Turn,
        Deed::Round(&[
            (7, Delete, "a"),
            (8, Delete, "f"),
            (9, Set(5), "b"),
            (10, Set(6), "e"),
            (11, Add, "g"),
        ]),
        Deed::Turn,
        Deed::Round(&[
            (12, Delete, "c"),
            (13, Set(7), "d"),
            (14, Set(8), "e"),
            (15, Add, "h"),
        ]),
        Deed::Turn,
    ],
    rows: 2,
    shown: "SSM 15 6; 3:1@15 g11; 4:1@15 h15; 5:6@15 b2=5 d4=7 e5=8",
};

/// Nothing is merged of no segment, and of one.
const IDLE: Case = Case {
    deeds: &[Deed::Turn, THREE, Deed::Turn],
    rows: 2,
    shown: "II 3 2; 1:3@3 a1 b2 c3",
};

/// Smaller segments come while a merge runs: they are merged once it has ended.
const ONE_AT_A_TIME: Case = Case {
    deeds: &[
        THREE,
        MORE,
        Deed::Turn,
        Deed::Round(&[(7, Add, "x")]),
        Deed::Round(&[(8, Add, "y")]),
        Deed::Turn,
        Deed::Turn,
        Deed::Turn,
    ],
    rows: 2,
    shown: "SSMM 8 7; 5:6@8 a1 b2 c3 d4 e5 f6; 6:2@8 x7 y8",
};

/// All rows of the sources are dead at the end, those that were read among them.
const ALL_DEAD: Case = Case {
    deeds: &[
        Deed::Round(&[(1, Add, "a"), (2, Add, "b")]),
        Deed::Round(&[(3, Add, "c")]),
        Deed::Turn,
        Deed::Round(&[(4, Delete, "a"), (5, Delete, "b"), (6, Delete, "c")]),
        Deed::Turn,
        Deed::Turn,
    ],
    rows: 2,
    shown: "SMI 6 3",
};

#[test]
fn merges_between_rounds(rt: HostRuntime) -> Result<(), Fail> {
    for case in [BETWEEN, IDLE, ONE_AT_A_TIME, ALL_DEAD] {
        assert!(rt; is_right(&rt, rt.alloc(), case)?);
    }
    Ok(())
}

/// So many rows, of the numbers after `base`: those with odd numbers have the key `a`, the others `b`.
fn many_rows(alloc: Global, base: u64, count: u64) -> Result<Told, Fail>
    ensures { IfOk result IsTold }
{
    if base > 5000 || count > 5000 {
        Err("many rows")?;
    }
    let mut told = untold(alloc, base);
    for at in 0..count {
        let number = base + 1 + at;
        let key = if number % 2 == 1 { "a" } else { "b" };
        tell(alloc, &mut told, number, Add, key)?;
    }
    Ok(told)
}

/// Takes so many turns, each of 100 rows.
fn turns(alloc: Global, index: &mut Published, count: u32, out: &mut String) -> Result<(), Fail>
    requires { IsPublished index.old }
    ensures { OnOk result (IsPublished index.new) }
{
    for _ in 0..count {
        show_turn(alloc, index, 100, out)?;
    }
    Ok(())
}

/// Segments of 1,500 rows each are merged in 30 turns; between them half of the rows, read or not, are
/// deleted.
fn large_merge<R: Threads + Sync>(
    rt: &R,
    alloc: Global,
    index: &mut Published,
    out: &mut String,
) -> Result<(), Fail>
    requires { IsPublished index.old }
{
    do_round(rt, alloc, index, many_rows(alloc, 0, 1500)?)?;
    do_round(rt, alloc, index, many_rows(alloc, 1500, 1500)?)?;
    turns(alloc, index, 15, out)?;
    let deletes = told_of(alloc, 3000, &[(3001, Delete, "a")])?;
    do_round(rt, alloc, index, deletes)?;
    turns(alloc, index, 15, out)
}

/// The next id; then each segment's id, how many rows it has, and how many of them are live.
fn show_sizes(index: &Published, out: &mut String) -> Result<(), Fail> {
    write!(out, " {}", index.next_id)?;
    for segment in index.segments.as_slice() {
        let rows = segment.segment().rows.len();
        let live = segment.live().live_count();
        write!(out, "; {}:{rows} {live}", segment.segment().id)?;
    }
    Ok(())
}

fn large_shown<R: Threads + Sync>(rt: &R, alloc: Global) -> Result<String, Fail> {
    let mut index = fresh(alloc, 0);
    let mut out = String::new(alloc);
    large_merge(rt, alloc, &mut index, &mut out)?;
    show_sizes(&index, &mut out)?;
    Ok(out)
}

/// The rows that died since the merge was started are in the merged segment, as dead ones.
#[test]
fn many_rows_in_steps(rt: HostRuntime) -> Result<(), Fail> {
    let shown = large_shown(&rt, rt.alloc())?;
    assert!(rt; shown.as_str() == "SSSSSSSSSSSSSSSSSSSSSSSSSSSSSM 4; 3:3000 1500");
    Ok(())
}

/// Takes so many turns of 100 rows, and appends how many rows of what was replaced are left then.
fn turns_and_left(
    alloc: Global,
    index: &mut Published,
    count: u32,
    out: &mut String,
) -> Result<(), Fail>
    requires { IsPublished index.old }
    ensures { OnOk result (IsPublished index.new) }
{
    turns(alloc, index, count, out)?;
    Ok(write!(out, " {} ", index.gone.rows())?)
}

fn left_shown<R: Threads + Sync>(rt: &R, alloc: Global) -> Result<String, Fail> {
    let mut index = fresh(alloc, 0);
    do_round(rt, alloc, &mut index, many_rows(alloc, 0, 300)?)?;
    do_round(rt, alloc, &mut index, many_rows(alloc, 300, 700)?)?;
    let mut out = String::new(alloc);
    turns_and_left(alloc, &mut index, 10, &mut out)?;
    turns_and_left(alloc, &mut index, 1, &mut out)?;
    turns_and_left(alloc, &mut index, 3, &mut out)?;
    turns_and_left(alloc, &mut index, 1, &mut out)?;
    Ok(out)
}

/// The rows of the segments that a merge replaced are let go in the turns that follow, twice as many in
/// each as it may read.
#[test]
fn replaced_rows_are_let_go(rt: HostRuntime) -> Result<(), Fail> {
    let shown = left_shown(&rt, rt.alloc())?;
    assert!(rt; shown.as_str() == "SSSSSSSSSM 1000 I 800 III 200 I 0 ");
    Ok(())
}
