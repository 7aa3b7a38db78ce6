//! Damaged files and bad inputs: each is told with its place or its reason, and nothing is changed.
use crate::tests::{ADD_A1, EVERYTHING, Outside, ended, one_document, run};
use ix_memory::MemoryStore;
use ix_outside::Store;
use std::test::*;
use test_faults::{Damage, bad_scripts, changes, counts, cut_scripts, cuts, long_input};

/// A question and a run both tell where each of these stores is damaged.
fn are_told<R: Outside>(rt: &R, stores: Vec<Damage>) -> Result<(), Fail> {
    for Damage { store, told } in stores {
        let done = run(rt, "ask", EVERYTHING.as_bytes(), store)?;
        let store = ended(rt, done, 8, told.as_str());
        let done = run(rt, "run --threads 1", ADD_A1.as_bytes(), store)?;
        let _store = ended(rt, done, 8, told.as_str());
    }
    Ok(())
}

/// Each file of a commit, cut to each shorter length; files with one field changed, with a byte more, and
/// that are gone; and files with counts and lengths that are far too high.
#[test]
fn changed_files(rt: HostRuntime) -> Result<(), Fail> {
    let whole = one_document(&rt)?;
    let stores = cuts(rt.alloc(), &whole)?;
    assert!(rt; stores.len() == 64 + 54 + 57 + 29 + 36);
    are_told(&rt, stores)?;
    are_told(&rt, changes(rt.alloc(), &whole)?)?;
    are_told(&rt, counts(rt.alloc(), &whole)?)
}

/// Scripts of one bad line, a good line that is cut, and a script of a byte more than an input may have:
/// over an empty store each is told, and makes no file.
#[test]
fn bad_lines(rt: HostRuntime) -> Result<(), Fail> {
    let mut inputs = bad_scripts(rt.alloc())?;
    inputs.append(&mut cut_scripts(rt.alloc(), ADD_A1)?)?;
    inputs.push(long_input(rt.alloc())?)?;
    assert!(rt; inputs.len() == 13 + 36 + 1);
    for input in inputs {
        let empty = MemoryStore::new(rt.alloc());
        let done = run(&rt, "run", input.bytes.as_slice(), empty)?;
        let mut store = ended(&rt, done, 3, input.told.as_str());
        assert!(rt; store.list(rt.alloc())?.is_empty());
    }
    Ok(())
}
