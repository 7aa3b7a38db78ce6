//! A packet applied to segments, worked out by hand.
ghost use Rattle.std.specs.Prelude.{◌≡◌, All, IfOk, OnOk};
ghost use Rattle.frozen_packet.specs.Updates.{as_operations, NumberedUpTo};
ghost use Rattle.segment_core.specs.LiveRows.{CanBuild};
ghost use Rattle.packet_apply.specs.Packets.{Meets};

use analysis::invert;
use frozen_packet::{Packet, Updates};
use ix_base::Query;
use live_docs::LiveDocs;
use node_words::Entry;
use packet_apply::{apply, apply_all};
use ram_postings::Frozen;
use segment_core::{LiveSegment, build};
use std::alloc::Global;
use std::fmt::Write;
use std::test::*;
use test_segments::show_mark;
use test_values::{key_term, name_of, row_of};

/// Two rows of the operation `born`, with the keys `a` and `b`.
fn two_rows(alloc: Global, born: u64) -> Result<Frozen, Fail>
    ensures { IfOk result (λ frozen. CanBuild frozen.rows.items frozen.postings) }
{
    let mut rows = Vec::new(alloc);
    rows.push(row_of(alloc, born, "a")?)?;
    rows.push(row_of(alloc, born, "b")?)?;
    let postings = invert(alloc, rows.as_slice())?;
    Ok(Frozen { rows, postings })
}

/// The segment of the two rows, with all in it up to 7, which this packet meets.
fn segment_of(alloc: Global, born: u64, packet: &Packet) -> Result<LiveSegment, Fail>
    requires { (packet.now.after ≡ 5) × (packet.now.upto ≡ 9) }
    ensures { IfOk result (Meets packet.now) }
{
    let frozen = two_rows(alloc, born)?;
    match build(alloc, born, frozen, &Updates::new(alloc), 7)? {
        Some(segment) => Ok(segment),
        None => Err("no row is live")?,
    }
}

/// Takes one more entry, under the same number as those before it.
fn take_more(updates: &mut Updates, number: u64, entry: Entry) -> Result<(), Fail>
    requires { NumberedUpTo number (as_operations updates.old) }
    ensures { OnOk result (NumberedUpTo number (as_operations updates.new)) }
{
    updates.take(number, entry)?;
    Ok(())
}

/// A number that is set in the row `b`.
fn setting(alloc: Global) -> Result<Entry, Fail> {
    let term = key_term(alloc, "b")?;
    let num = name_of(alloc, "n")?;
    let value = 4;
    Ok(Entry::SetNumber { term, num, value })
}

/// Two operations of one number: the row `a` is deleted, and a number is set in the row `b`.
fn two_updates(alloc: Global, number: u64) -> Result<Updates, Fail> {
    let mut updates = Updates::new(alloc);
    let deleted = Entry::DeleteTerm(key_term(alloc, "a")?);
    take_more(&mut updates, number, deleted)?;
    take_more(&mut updates, number, setting(alloc)?)?;
    Ok(updates)
}

/// A packet of all after 5 up to 9, in which one number has two operations.
fn packet_of(alloc: Global, number: u64) -> Result<Packet, Fail>
    ensures { IfOk result (λ packet. (packet.after ≡ 5) × (packet.upto ≡ 9)) }
{
    Ok(Packet {
        after: 5,
        upto: 9,
        updates: two_updates(alloc, number)?,
    })
}

/// Up to which number operations are in the segment, and of each row whether it is live, `+` or `-`,
/// and the number that was set.
fn shown(alloc: Global, segment: &LiveSegment) -> Result<String, Fail> {
    let mut out = String::new(alloc);
    write!(out, "{}", segment.live().applied())?;
    for row in 0..4 {
        show_mark(alloc, &mut out, segment, row)?;
    }
    Ok(out)
}

/// A segment with rows of the operation `born`, after the packet of this number.
fn shown_after(alloc: Global, born: u64, number: u64) -> Result<String, Fail> {
    let packet = packet_of(alloc, number)?;
    let mut segment = segment_of(alloc, born, &packet)?;
    let made = apply(alloc, &segment, &packet)?;
    segment.set_live(made);
    shown(alloc, &segment)
}

/// Only what is numbered above 7 counts, and that only for rows that were born before it.
#[test]
fn packets_at_each_number(rt: HostRuntime) -> Result<(), Fail> {
    let alloc = rt.alloc();
    assert!(rt; shown_after(alloc, 1, 6)?.as_str() == "9+0+0");
    assert!(rt; shown_after(alloc, 1, 7)?.as_str() == "9+0+0");
    assert!(rt; shown_after(alloc, 1, 8)?.as_str() == "9-0+4");
    assert!(rt; shown_after(alloc, 8, 8)?.as_str() == "9+0+0");
    Ok(())
}

/// Two segments, of rows born by the operations 1 and 8, which this packet meets.
fn two_segments(alloc: Global, packet: &Packet) -> Result<Vec<LiveSegment>, Fail>
    requires { (packet.now.after ≡ 5) × (packet.now.upto ≡ 9) }
    ensures { IfOk result (λ all. All (Meets packet.now) all.items) }
{
    let mut segments = Vec::new(alloc);
    segments.push(segment_of(alloc, 1, packet)?)?;
    segments.push(segment_of(alloc, 8, packet)?)?;
    Ok(segments)
}

/// How many rows live, of each segment.
fn counts(alloc: Global, all: &[LiveDocs]) -> Result<String, Fail> {
    let mut counts = String::new(alloc);
    for live in all {
        write!(counts, "{},", live.live_count())?;
    }
    Ok(counts)
}

/// Live docs of two segments come in their order: only the first has rows that were born before 8.
#[test]
fn all_segments_in_order(rt: HostRuntime) -> Result<(), Fail> {
    let alloc = rt.alloc();
    let packet = packet_of(alloc, 8)?;
    let segments = two_segments(alloc, &packet)?;
    let all = apply_all(&rt, alloc, segments.as_slice(), &packet)?;
    assert!(rt; counts(alloc, all.as_slice())?.as_str() == "1,2,");
    Ok(())
}

/// 12,000 rows, each second one with the key `a`.
fn many_rows(alloc: Global) -> Result<Frozen, Fail>
    ensures { IfOk result (λ frozen. CanBuild frozen.rows.items frozen.postings) }
{
    let mut rows = Vec::new(alloc);
    for at in 0..12000 {
        let key = if at % 2 == 0 { "a" } else { "b" };
        rows.push(row_of(alloc, 1, key)?)?;
    }
    if rows.len() > 12000 {
        Err("many rows")?;
    }
    let postings = invert(alloc, rows.as_slice())?;
    Ok(Frozen { rows, postings })
}

/// The segment of these rows, with all in it up to 7, which this packet meets.
fn large_segment(alloc: Global, packet: &Packet) -> Result<LiveSegment, Fail>
    requires { (packet.now.after ≡ 5) × (packet.now.upto ≡ 9) }
    ensures { IfOk result (Meets packet.now) }
{
    match build(alloc, 1, many_rows(alloc)?, &Updates::new(alloc), 7)? {
        Some(segment) => Ok(segment),
        None => Err("no row is live")?,
    }
}

/// How many rows are live and in how many a number was set, after the packet was applied once and
/// once more.
fn applied_twice(alloc: Global) -> Result<[usize; 4], Fail> {
    let packet = packet_of(alloc, 8)?;
    let mut segment = large_segment(alloc, &packet)?;
    let made = apply(alloc, &segment, &packet)?;
    let first = (made.live_count(), made.numbered_rows(alloc)?.len());
    segment.set_live(made);
    let again = apply(alloc, &segment, &packet)?;
    let second = (again.live_count(), again.numbered_rows(alloc)?.len());
    Ok([first.0 as usize, first.1, second.0 as usize, second.1])
}

/// A packet that kills 6,000 rows and sets a number in as many, and once more where the first are
/// dead.
#[test]
fn thousands_of_rows(rt: HostRuntime) -> Result<(), Fail> {
    assert!(rt; applied_twice(rt.alloc())? == [6000, 6000, 6000, 6000]);
    Ok(())
}

/// A delete by a query of this key.
fn query_delete(alloc: Global, key: &str) -> Result<Entry, Fail> {
    Ok(Entry::DeleteQuery(Query::Term(key_term(alloc, key)?)))
}

/// Three hundred deletes by query, of which the last alone finds a row, `a`.
fn delete_often(alloc: Global, updates: &mut Updates) -> Result<(), Fail>
    requires { NumberedUpTo 8 (as_operations updates.old) }
    ensures { OnOk result (NumberedUpTo 8 (as_operations updates.new)) }
{
    for at in 0..300 {
        let key = if at == 299 { "a" } else { "x" };
        take_more(updates, 8, query_delete(alloc, key)?)?;
    }
    Ok(())
}

/// One of many numbers that are set in the row `b`.
fn setting_at(alloc: Global, at: u32) -> Result<Entry, Fail> {
    let mut text = String::new(alloc);
    write!(text, "n{at}")?;
    let term = key_term(alloc, "b")?;
    let num = name_of(alloc, text.as_str())?;
    let value = 4;
    Ok(Entry::SetNumber { term, num, value })
}

/// Forty numbers that are set in the row `b`.
fn set_forty(alloc: Global, updates: &mut Updates) -> Result<(), Fail>
    requires { NumberedUpTo 8 (as_operations updates.old) }
    ensures { OnOk result (NumberedUpTo 8 (as_operations updates.new)) }
{
    for at in 0..40 {
        take_more(updates, 8, setting_at(alloc, at)?)?;
    }
    Ok(())
}

/// A packet of all these, and how many numbers were set in the row `b` by it, if `a` alone is dead.
fn numbers_after_many(alloc: Global) -> Result<Option<usize>, Fail> {
    let mut updates = Updates::new(alloc);
    delete_often(alloc, &mut updates)?;
    set_forty(alloc, &mut updates)?;
    let packet = Packet {
        after: 5,
        upto: 9,
        updates,
    };
    let mut segment = segment_of(alloc, 1, &packet)?;
    let made = apply(alloc, &segment, &packet)?;
    segment.set_live(made);
    if segment.segment().rows.len() != 2 {
        return Ok(None);
    }
    let live = segment.live();
    if live.is_live(0) || !live.is_live(1) {
        return Ok(None);
    }
    Ok(Some(live.values(1).len()))
}

#[test]
fn many_updates_of_one_packet(rt: HostRuntime) -> Result<(), Fail> {
    assert!(rt; numbers_after_many(rt.alloc())? == Some(40));
    Ok(())
}

/// 150 segments, of rows born by the operation 1.
fn many_segments(alloc: Global, packet: &Packet) -> Result<Vec<LiveSegment>, Fail>
    requires { (packet.now.after ≡ 5) × (packet.now.upto ≡ 9) }
    ensures { IfOk result (λ all. All (Meets packet.now) all.items) }
{
    let mut segments = Vec::new(alloc);
    for _ in 0..150 {
        segments.push(segment_of(alloc, 1, packet)?)?;
    }
    Ok(segments)
}

/// Each of many segments gets the packet.
#[test]
fn many_segments_at_once(rt: HostRuntime) -> Result<(), Fail> {
    let alloc = rt.alloc();
    let packet = packet_of(alloc, 8)?;
    let segments = many_segments(alloc, &packet)?;
    let all = apply_all(&rt, alloc, segments.as_slice(), &packet)?;
    let wanted = "1,".repeat(alloc, 150)?;
    assert!(rt; counts(alloc, all.as_slice())?.as_str() == wanted.as_str());
    Ok(())
}
