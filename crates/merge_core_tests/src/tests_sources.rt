//! Segments to which the documents of blocks were dealt in turn, merged: worked out by hand. That the postings of what is merged are
//! the inversion of its rows is a clause of `Merge::finish`.
ghost use Rattle.std.specs.Prelude.{◌≤◌};

use crate::reading::{finished, read, read_all, start, terms_before_the_end};
use crate::sources::three_sources;
use segment_core::LiveSegment;
use std::alloc::Global;
use std::fmt::Write;
use std::test::*;

/// The segment that is made of three, read in steps of so many rows.
fn merged(alloc: Global, count: u64, rows: u32) -> Result<LiveSegment, Fail>
    requires { count ≤ 10000 }
{
    let segments = three_sources(alloc, count)?;
    let mut merge = start(alloc, segments.as_slice())?;
    read_all(&mut merge, segments.as_slice(), rows)?;
    Ok(finished(merge, segments.as_slice())?.ok_or("nothing merged")?)
}

/// The births of the rows: each the operation's number, and the place among its documents.
fn births(alloc: Global, segment: &LiveSegment) -> Result<String, Fail> {
    let mut out = String::new(alloc);
    for row in segment.segment().rows.as_slice() {
        write!(out, "{}.{} ", row.birth.number(), row.birth.place())?;
    }
    Ok(out)
}

/// Whatever the steps, the same rows are merged, by number and then by place. Those of the third and the
/// tenth document are dead.
#[test]
fn steps_of_all_sizes(rt: HostRuntime) -> Result<(), Fail> {
    for rows in [1, 2, 3, 4, 9, 10, 100] {
        let made = merged(rt.alloc(), 4, rows)?;
        assert!(rt; births(rt.alloc(), &made)?.as_str() == "1.0 1.1 1.3 2.0 2.1 2.2 2.3 3.2 ");
    }
    Ok(())
}

/// Of 3,750 rows those die that a word of every seventh names.
#[test]
fn many_rows(rt: HostRuntime) -> Result<(), Fail> {
    let made = merged(rt.alloc(), 1500, 1000)?;
    assert!(rt; made.segment().rows.len() == 3214);
    Ok(())
}

/// How many terms are merged after the first step of a hundred rows, and before the last one.
fn terms_of_steps(alloc: Global) -> Result<(usize, usize), Fail> {
    let segments = three_sources(alloc, 400)?;
    let mut merge = start(alloc, segments.as_slice())?;
    let before = terms_before_the_end(&mut merge, segments.as_slice(), 100)?;
    let mut again = start(alloc, segments.as_slice())?;
    read(&mut again, segments.as_slice(), 100)?;
    Ok((again.terms(), before))
}

/// Of 1,000 rows, which have 866 terms, each step of a hundred merges a part of the terms: the first one
/// some of them, and those before the last one nine tenths at least.
#[test]
fn terms_go_with_the_rows(rt: HostRuntime) -> Result<(), Fail> {
    let (first, before) = terms_of_steps(rt.alloc())?;
    assert!(rt; first >= 80 && first < 400);
    assert!(rt; before >= 780);
    Ok(())
}

/// What is made of no segments.
fn made_of_none(alloc: Global) -> Result<Option<LiveSegment>, Fail> {
    let segments = Vec::new(alloc);
    let mut merge = start(alloc, segments.as_slice())?;
    read_all(&mut merge, segments.as_slice(), 1)?;
    finished(merge, segments.as_slice())
}

/// Of no segments none is made.
#[test]
fn no_sources(rt: HostRuntime) -> Result<(), Fail> {
    assert!(rt; made_of_none(rt.alloc())?.is_none());
    Ok(())
}
