ghost use Rattle.std.specs.Prelude.{◌≡◌, length, IfOk};

use ix_base::codec::{put_i64, put_name, put_u32, put_u64};
use ix_base::{FileFault, Name, NoMemory};
use live_docs::LiveDocs;
use live_files::{decode_liv, decode_val, encode_liv, encode_val, live_docs_of};
use std::alloc::Global;
use std::test::*;
use test_values::name_of;

// The live bits of the segment 1 of one row, which is live, written with the commit 2.
const LIVE: [u8; 29] = [
    0x49, 0x58, 0x4c, 0x49, 0x56, 0x30, 0x30, 0x31, 0, 0, 0, 0, 0, 0, 0, 1, 0, 0, 0, 0, 0, 0, 0, 2,
    0, 0, 0, 1, 1,
];

// The set numbers of the same segment: none.
const VALUES: [u8; 36] = [
    0x49, 0x58, 0x56, 0x41, 0x4c, 0x30, 0x30, 0x31, 0, 0, 0, 0, 0, 0, 0, 1, 0, 0, 0, 0, 0, 0, 0, 2,
    0, 0, 0, 1, 0, 0, 0, 0, 0, 0, 0, 0,
];

// Where the fields of both begin.
const FIELDS: [u64; 5] = [0, 8, 16, 24, 28];

// The last field that begins at this length or before it.
fn field_at(fields: &[u64], len: u64) -> Option<u64> {
    let mut last = None;
    for field in fields {
        if *field <= len {
            last = Some(*field);
        }
    }
    last
}

// The bytes with one of them changed.
fn changed(alloc: Global, bytes: &[u8], at: usize, to: u8) -> Result<Vec<u8>, Fail> {
    let mut copy = Vec::from_slice(alloc, bytes)?;
    if let Some(byte) = copy.get_mut(at) {
        *byte = to;
    }
    Ok(copy)
}

fn live_place(alloc: Global, bytes: &[u8], n: u32) -> Option<u64> {
    match decode_liv(alloc, bytes, 1, 2, n) {
        Err(FileFault::Damaged(damaged)) => Some(damaged.at),
        _ => None,
    }
}

fn values_place(alloc: Global, bytes: &[u8], n: u32) -> Option<u64> {
    match decode_val(alloc, bytes, 1, 2, n) {
        Err(FileFault::Damaged(damaged)) => Some(damaged.at),
        _ => None,
    }
}

// What a file with this mark begins with, of the segment 1 of this many rows.
fn file_of(alloc: Global, mark: &[u8], n: u32) -> Result<Vec<u8>, Fail> {
    let mut out = Vec::from_slice(alloc, mark)?;
    put_u64(&mut out, 1)?;
    put_u64(&mut out, 2)?;
    put_u32(&mut out, n)?;
    Ok(out)
}

// Appends a number that was set in a row.
fn put_set(alloc: Global, out: &mut Vec<u8>, set: (u32, &str, i64)) -> Result<(), Fail> {
    let (row, name, value) = set;
    put_u32(out, row)?;
    put_name(out, &name_of(alloc, name)?)?;
    put_i64(out, value)?;
    Ok(())
}

// The bytes with one more at the end.
fn longer(alloc: Global, bytes: &[u8]) -> Result<Vec<u8>, Fail> {
    let mut copy = Vec::from_slice(alloc, bytes)?;
    copy.push(0)?;
    Ok(copy)
}

fn live_bits_of_one_row(alloc: Global) -> Result<Vec<u8>, Fail> {
    let docs = LiveDocs::new(alloc, 1, 0).ok().ok_or("memory")?;
    Ok(encode_liv(alloc, 1, 2, 1, &docs).ok().ok_or("memory")?)
}

fn values_of_one_row(alloc: Global) -> Result<Vec<u8>, Fail> {
    let docs = LiveDocs::new(alloc, 1, 0).ok().ok_or("memory")?;
    Ok(encode_val(alloc, 1, 2, 1, &docs).ok().ok_or("memory")?)
}

#[test]
fn spells_one_live_row(rt: HostRuntime) -> Result<(), Fail> {
    assert!(rt; live_bits_of_one_row(rt.alloc())?.as_slice() == LIVE.as_slice());
    assert!(rt; values_of_one_row(rt.alloc())?.as_slice() == VALUES.as_slice());
    Ok(())
}

#[test]
fn reads_one_live_row(rt: HostRuntime) -> Result<(), Fail> {
    let live = decode_liv(rt.alloc(), &LIVE, 1, 2, 1)
        .ok()
        .ok_or("the bytes are live bits")?;
    assert!(rt; live.as_slice() == [true].as_slice());
    Ok(())
}

#[test]
fn reads_no_set_number(rt: HostRuntime) -> Result<(), Fail> {
    let values = decode_val(rt.alloc(), &VALUES, 1, 2, 1)
        .ok()
        .ok_or("the bytes are set numbers")?;
    assert!(rt; values.len() == 0);
    Ok(())
}

#[test]
fn cut_files_name_the_field(rt: HostRuntime) {
    let alloc = rt.alloc();
    for len in 0..29 {
        assert!(rt; live_place(alloc, &LIVE[..len], 1) == field_at(&FIELDS, len as u64));
    }
    for len in 0..36 {
        assert!(rt; values_place(alloc, &VALUES[..len], 1) == field_at(&FIELDS, len as u64));
    }
}

#[test]
fn changed_live_bits_name_the_field(rt: HostRuntime) -> Result<(), Fail> {
    let alloc = rt.alloc();
    // another mark, id, commit and count of rows, no live row, a bit past the last row, and both
    let cases = [
        (7, 0x32, 0),
        (15, 2, 8),
        (23, 3, 16),
        (27, 2, 24),
        (28, 0, 28),
        (28, 3, 28),
        (28, 2, 28),
    ];
    for (at, to, place) in cases {
        assert!(rt; live_place(alloc, &changed(alloc, &LIVE, at, to)?, 1) == Some(place));
    }
    assert!(rt; live_place(alloc, &LIVE, 2) == Some(24));
    assert!(rt; live_place(alloc, &longer(alloc, &LIVE)?, 1) == Some(29));
    Ok(())
}

#[test]
fn changed_values_name_the_field(rt: HostRuntime) -> Result<(), Fail> {
    let alloc = rt.alloc();
    // another mark, id, commit and count of rows, one number more, and very many
    let cases = [
        (7, 0x32, 0),
        (15, 2, 8),
        (23, 3, 16),
        (27, 2, 24),
        (35, 1, 36),
        (28, 0xff, 36),
    ];
    for (at, to, place) in cases {
        assert!(rt; values_place(alloc, &changed(alloc, &VALUES, at, to)?, 1) == Some(place));
    }
    assert!(rt; values_place(alloc, &VALUES, 2) == Some(24));
    assert!(rt; values_place(alloc, &longer(alloc, &VALUES)?, 1) == Some(36));
    Ok(())
}

// The live bits of 19 rows.
fn bits_of(alloc: Global, bits: [u8; 3]) -> Result<Vec<u8>, Fail> {
    let mut file = file_of(alloc, b"IXLIV001", 19)?;
    file.extend_from_slice(&bits)?;
    Ok(file)
}

// Where such a file is broken, cut at this length.
fn bits_place(alloc: Global, bits: [u8; 3], length: usize) -> Result<Option<u64>, Fail> {
    let mut file = bits_of(alloc, bits)?;
    file.truncate(length);
    Ok(live_place(alloc, &file, 19))
}

#[test]
fn bits_of_19_rows(rt: HostRuntime) -> Result<(), Fail> {
    let cases = [
        ([0x7d, 0xfe, 0x05], None),
        ([0, 0, 0x04], None),
        ([0, 0, 0], Some(28)),
        ([0xff, 0xff, 0x08], Some(30)),
        ([0, 0, 0x80], Some(30)),
    ];
    for (bits, place) in cases {
        assert!(rt; bits_place(rt.alloc(), bits, 31)? == place);
        assert!(rt; bits_place(rt.alloc(), bits, 30)? == Some(30));
    }
    Ok(())
}

// The set numbers of so many rows.
fn values_file(alloc: Global, n: u32, sets: &[(u32, &str, i64)]) -> Result<Vec<u8>, Fail> {
    let mut file = file_of(alloc, b"IXVAL001", n)?;
    put_u64(&mut file, sets.len() as u64)?;
    for set in sets {
        put_set(alloc, &mut file, *set)?;
    }
    Ok(file)
}

// Where a file of these two numbers is broken.
fn place_of_two(
    alloc: Global,
    first: (u32, &str),
    second: (u32, &str),
) -> Result<Option<u64>, Fail> {
    let sets = [(first.0, first.1, 1), (second.0, second.1, 2)];
    Ok(values_place(alloc, &values_file(alloc, 2, &sets)?, 2))
}

#[test]
fn values_rise(rt: HostRuntime) -> Result<(), Fail> {
    let cases = [
        ((0, "a"), (0, "b"), None),
        ((0, "b"), (1, "a"), None),
        ((0, "a"), (0, "a"), Some(53)),
        ((0, "b"), (0, "a"), Some(53)),
        ((1, "a"), (0, "b"), Some(53)),
        ((0, "a"), (2, "a"), Some(53)),
        ((2, "a"), (1, "b"), Some(36)),
    ];
    for (first, second, place) in cases {
        assert!(rt; place_of_two(rt.alloc(), first, second)? == place);
    }
    Ok(())
}

// 19 rows, of which four are no longer live, with numbers in three of them, one of which is dead.
fn rows_by(alloc: Global, first: &Name, second: &Name) -> Result<LiveDocs, NoMemory>
    ensures { IfOk result (λ docs. 19 ≡ length docs.marks) }
{
    let mut docs = LiveDocs::new(alloc, 19, 0)?;
    docs.kill(1);
    docs.kill(7);
    docs.kill(8);
    docs.kill(17);
    docs.set_value(alloc, 18, first, i64::MIN)?;
    docs.set_value(alloc, 8, second, 5)?;
    docs.set_value(alloc, 8, first, -1)?;
    docs.set_value(alloc, 0, second, 7)?;
    Ok(docs)
}

// The same, by the names `a` and `b`.
fn many_rows(alloc: Global) -> Result<LiveDocs, Fail>
    ensures { IfOk result (λ docs. 19 ≡ length docs.marks) }
{
    let first = name_of(alloc, "a")?;
    let second = name_of(alloc, "b")?;
    Ok(rows_by(alloc, &first, &second)?)
}

// The live bits of these rows.
const MANY_BITS: [u8; 3] = [0x7d, 0xfe, 0x05];

// The numbers that are set in them.
const MANY_SETS: [(u32, &str, i64); 4] = [
    (0, "b", 7),
    (8, "a", -1),
    (8, "b", 5),
    (18, "a", i64::MIN),
];

fn written_bits(alloc: Global) -> Result<Vec<u8>, Fail> {
    let docs = many_rows(alloc)?;
    if docs.live_count() != 15 {
        Err("another count of live rows")?;
    }
    Ok(encode_liv(alloc, 1, 2, 19, &docs).ok().ok_or("memory")?)
}

fn written_values(alloc: Global) -> Result<Vec<u8>, Fail> {
    let docs = many_rows(alloc)?;
    Ok(encode_val(alloc, 1, 2, 19, &docs).ok().ok_or("memory")?)
}

#[test]
fn many_rows_are_written(rt: HostRuntime) -> Result<(), Fail> {
    let written = written_bits(rt.alloc())?;
    assert!(rt; written.as_slice() == bits_of(rt.alloc(), MANY_BITS)?.as_slice());
    Ok(())
}

#[test]
fn many_values_are_written(rt: HostRuntime) -> Result<(), Fail> {
    let written = written_values(rt.alloc())?;
    let file = values_file(rt.alloc(), 19, &MANY_SETS)?;
    assert!(rt; written.as_slice() == file.as_slice());
    Ok(())
}

// Whether 19 rows but four are live.
fn are_many(live: &[bool]) -> bool {
    for (row, is_live) in live.iter().enumerate() {
        let is_dead = row == 1 || row == 7 || row == 8 || row == 17;
        if *is_live == is_dead {
            return false;
        }
    }
    live.len() == 19
}

fn read_bits(alloc: Global) -> Result<Vec<bool>, Fail> {
    let file = bits_of(alloc, MANY_BITS)?;
    let live = decode_liv(alloc, &file, 1, 2, 19);
    Ok(live.ok().ok_or("the bytes are live bits")?)
}

// Whether these numbers are set.
fn are_set(values: &[(u32, Name, i64)]) -> bool {
    for (found, wanted) in values.iter().zip(MANY_SETS.iter()) {
        if (found.0, found.2) != (wanted.0, wanted.2) || found.1.as_str() != wanted.1 {
            return false;
        }
    }
    values.len() == 4
}

fn read_values(alloc: Global) -> Result<Vec<(u32, Name, i64)>, Fail> {
    let file = values_file(alloc, 19, &MANY_SETS)?;
    let values = decode_val(alloc, &file, 1, 2, 19);
    Ok(values.ok().ok_or("the bytes are set numbers")?)
}

#[test]
fn many_rows_are_read(rt: HostRuntime) -> Result<(), Fail> {
    assert!(rt; are_many(read_bits(rt.alloc())?.as_slice()));
    Ok(())
}

#[test]
fn many_values_are_read(rt: HostRuntime) -> Result<(), Fail> {
    assert!(rt; are_set(read_values(rt.alloc())?.as_slice()));
    Ok(())
}

// The live docs of 19 rows that files with these bytes spell.
fn live_docs_in(alloc: Global, live: &[u8], values: &[u8]) -> Result<LiveDocs, Fail> {
    let bits = decode_liv(alloc, live, 1, 2, 19);
    let bits = bits.ok().ok_or("the bytes are live bits")?;
    let numbers = decode_val(alloc, values, 1, 2, 19);
    let numbers = numbers.ok().ok_or("the bytes are set numbers")?;
    let docs = live_docs_of(alloc, 5, &bits, &numbers);
    Ok(docs.ok().ok_or("memory")?)
}

fn read_back(alloc: Global) -> Result<LiveDocs, Fail> {
    let live = written_bits(alloc)?;
    let values = written_values(alloc)?;
    live_docs_in(alloc, &live, &values)
}

#[test]
fn live_docs_both_ways(rt: HostRuntime) -> Result<(), Fail> {
    let back = read_back(rt.alloc())?;
    assert!(rt; (back.applied(), back.live_count()) == (5, 15));
    assert!(rt; back.same_marks(&many_rows(rt.alloc())?));
    Ok(())
}
