//! Postings that are read, and large ones that go both ways.
use crate::tests::{POSTS, bytes_of};
use ix_base::codec::put_u32;
use segment_files::{decode_pst, encode_pst};
use std::alloc::Global;
use std::test::Fail;

// Whether these bytes are read, and the same ones are written of what was read, in as much memory.
fn goes_both_ways(alloc: Global, bytes: &[u8], id: u64, n: u32) -> Result<bool, Fail> {
    let postings = decode_pst(alloc, bytes, id, n)
        .ok()
        .ok_or("the bytes are postings")?;
    let written = encode_pst(alloc, id, n, &postings).ok().ok_or("memory")?;
    Ok(written.as_slice() == bytes && written.capacity() == bytes.len())
}

#[test]
fn one_key(rt: HostRuntime) -> Result<(), Fail> {
    let alloc = rt.alloc();
    let bytes = bytes_of(alloc, POSTS)?;
    let postings = decode_pst(alloc, &bytes, 1, 1)?;
    assert!(rt; postings.terms.len() == 1);
    for entry in postings.terms.as_slice() {
        assert!(rt; entry.term.field.as_str() == "key");
        assert!(rt; entry.term.bytes.as_str() == "a1");
        let places = entry.rows.as_slice();
        assert!(rt; places.len() == 1);
        assert!(rt; (places[0].row, places[0].position) == (0, 0));
    }
    assert!(rt; goes_both_ways(alloc, &bytes, 1, 1)?);
    Ok(())
}

// Appends these numbers.
fn put_all(out: &mut Vec<u8>, numbers: &[u32]) -> Result<(), Fail> {
    for number in numbers {
        put_u32(out, *number)?;
    }
    Ok(())
}

// Appends a term of one byte in a field of one byte, and then these numbers, which are those of its rows.
fn put_term(out: &mut Vec<u8>, field: u8, byte: u8, rows: &[u32]) -> Result<(), Fail> {
    out.extend_from_slice(&[0, 0, 0, 1, field, 0, 0, 0, 1, byte])?;
    put_all(out, rows)
}

/// Fields, terms, rows (of one position and of two) and positions, of each more than one.
#[test]
fn many_terms_both_ways(rt: HostRuntime) -> Result<(), Fail> {
    let alloc = rt.alloc();
    let rows = [4, 0, 1, 0, 1, 2, 0, 1, 5, 2, 3, 0xffff_ffff, 99, 1, 7];
    let mut file = bytes_of(
        alloc,
        "4958505354303031 0000000000000001 00000064 0000000000000258",
    )?;
    for field in 97..117u8 {
        for byte in 65..95u8 {
            put_term(&mut file, field, byte, &rows)?;
        }
    }
    assert!(rt; goes_both_ways(alloc, &file, 1, 100)?);
    Ok(())
}

/// A term in 300,000 rows, and one 300,000 times in a row: a file of some megabytes.
#[test]
fn many_places_both_ways(rt: HostRuntime) -> Result<(), Fail> {
    let alloc = rt.alloc();
    let mut file = bytes_of(
        alloc,
        "4958505354303031 0000000000000001 000493e0 0000000000000002",
    )?;
    put_term(&mut file, b'a', b'a', &[300_000])?;
    for row in 0..300_000 {
        put_all(&mut file, &[row, 1, 0])?;
    }
    put_term(&mut file, b'a', b'b', &[1, 5, 300_000])?;
    for position in 0..300_000 {
        put_u32(&mut file, position)?;
    }
    assert!(rt; goes_both_ways(alloc, &file, 1, 300_000)?);
    Ok(())
}
