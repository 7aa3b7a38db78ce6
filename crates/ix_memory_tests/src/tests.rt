//! What no clause says: which calls fail, and which outcomes a crash has.
use ix_base::FileName;
use ix_memory::{FuseStore, MemorySink, MemorySource, MemoryStore, SteadySource, SteadyStore};
use ix_outside::{Failed, Sink, Source, Store, StoreFault};
use std::alloc::Global;

#[test]
fn reads_fail_by_number(rt: HostRuntime) {
    let bytes = b"abcdef".to_vec(rt.alloc()).expect(&rt, "memory");
    let calls = vec![in rt.alloc(); 2u64].expect(&rt, "memory");
    let mut source = MemorySource::failing(bytes, calls);
    let mut buffer = [0u8; 4];
    assert!(rt; source.read(&mut buffer) == Ok(4));
    assert!(rt; &buffer == b"abcd");
    assert!(rt; source.read(&mut buffer) == Err(Failed));
    assert!(rt; source.read(&mut buffer) == Ok(2));
    assert!(rt; &buffer == b"efcd");
    assert!(rt; source.read(&mut buffer) == Ok(0));
    assert!(rt; source.faults() == 1);
}

#[test]
fn steady_reads(rt: HostRuntime) {
    let bytes = b"abc".to_vec(rt.alloc()).expect(&rt, "memory");
    let mut source = SteadySource::new(bytes);
    let mut buffer = [0u8; 2];
    assert!(rt; source.read(&mut buffer) == Ok(2));
    assert!(rt; source.read(&mut buffer) == Ok(1));
    assert!(rt; source.read(&mut buffer) == Ok(0));
    assert!(rt; source.faults() == 0);
    let whole = b"xyz".to_vec(rt.alloc()).expect(&rt, "memory");
    let mut other = MemorySource::new(rt.alloc(), whole);
    assert!(rt; other.read(&mut buffer) == Ok(2));
}

#[test]
fn writes_fail_by_number_and_without_room(rt: HostRuntime) {
    let calls = vec![in rt.alloc(); 2u64].expect(&rt, "memory");
    let Ok(mut sink) = MemorySink::failing(rt.alloc(), 5, calls) else {
        panic!(rt; "memory");
    };
    assert!(rt; sink.write(b"abc") == Ok(3));
    assert!(rt; sink.write(b"d") == Err(Failed));
    assert!(rt; sink.write(b"xyz") == Ok(2));
    assert!(rt; sink.write(b"") == Ok(0));
    assert!(rt; sink.write(b"q") == Err(Failed));
    assert!(rt; sink.faults() == 2);
    assert!(rt; sink.into_bytes().as_slice() == b"abcxy".as_slice());
}

/// Whether the file has these bytes.
fn has<S: Store>(alloc: Global, store: &mut S, name: FileName, want: &[u8]) -> bool {
    match store.read(alloc, name) {
        Ok(Some(bytes)) => bytes.as_slice() == want,
        _ => false,
    }
}

/// Whether there is no such file.
fn lacks<S: Store>(alloc: Global, store: &mut S, name: FileName) -> bool {
    matches!(store.read(alloc, name), Ok(None))
}

#[test]
fn store_calls_fail_by_number(rt: HostRuntime) {
    let calls = vec![in rt.alloc(); 2u64, 3].expect(&rt, "memory");
    let mut store = MemoryStore::new(rt.alloc()).failing(calls);
    assert!(rt; store.write(FileName::Rows(1), b"rows") == Ok(()));
    assert!(rt; store.delete(FileName::Rows(1)) == Err(StoreFault::Failed));
    assert!(rt; store.sync_all() == Err(StoreFault::Failed));
    assert!(rt; has(rt.alloc(), &mut store, FileName::Rows(1), b"rows"));
    assert!(rt; store.rename(FileName::Rows(2), FileName::Rows(3)) == Err(StoreFault::Failed));
    assert!(rt; store.sync(FileName::Rows(2)) == Err(StoreFault::Failed));
    assert!(rt; store.delete(FileName::Rows(2)) == Ok(()));
    assert!(rt; store.faults() == 4);
}

#[test]
fn lists_each_name_once(rt: HostRuntime) {
    let bytes = b"new".to_vec(rt.alloc()).expect(&rt, "memory");
    let files = vec![in rt.alloc(); (FileName::Commit(1), bytes)].expect(&rt, "memory");
    let Ok(mut store) = MemoryStore::with_files(rt.alloc(), files) else {
        panic!(rt; "memory");
    };
    assert!(rt; store.write(FileName::Pending(2), b"two") == Ok(()));
    assert!(rt; store.write(FileName::Commit(2), b"old") == Ok(()));
    assert!(rt; store.rename(FileName::Pending(2), FileName::Commit(2)) == Ok(()));
    let names = store.list(rt.alloc()).unwrap_or(Vec::new(rt.alloc()));
    assert!(rt; names.as_slice() == [FileName::Commit(1), FileName::Commit(2)].as_slice());
    assert!(rt; has(rt.alloc(), &mut store, FileName::Commit(2), b"two"));
}

/// A store with a synced commit that was renamed since, and rows that weren't synced.
fn half_done(alloc: Global) -> Result<MemoryStore, StoreFault> {
    let mut store = MemoryStore::new(alloc);
    store.write(FileName::Pending(1), b"one")?;
    store.sync(FileName::Pending(1))?;
    store.sync_all()?;
    store.write(FileName::Rows(1), b"rows")?;
    store.rename(FileName::Pending(1), FileName::Commit(1))?;
    Ok(store)
}

#[test]
fn crash_leaves_what_was_chosen(rt: HostRuntime) {
    let Ok(store) = half_done(rt.alloc()) else {
        panic!(rt; "memory");
    };
    let rows: [Option<&[u8]>; 4] = [Some(b"rows"), None, Some(b""), Some(b"ro")];
    for choice in 0..16u32 {
        let Ok(mut left) = store.crash(rt.alloc(), choice) else {
            panic!(rt; "memory");
        };
        let renamed = choice % 4 == 0 || choice % 4 == 2;
        let (there, gone) = if renamed {
            (FileName::Commit(1), FileName::Pending(1))
        } else {
            (FileName::Pending(1), FileName::Commit(1))
        };
        assert!(rt; has(rt.alloc(), &mut left, there, b"one"), "at {choice}");
        assert!(rt; lacks(rt.alloc(), &mut left, gone), "at {choice}");
        match rows[(choice / 4) as usize] {
            Some(bytes) => {
                assert!(rt;
                    has(rt.alloc(), &mut left, FileName::Rows(1), bytes),
                    "at {choice}"
                )
            }
            None => assert!(rt;
                lacks(rt.alloc(), &mut left, FileName::Rows(1)),
                "at {choice}"
            ),
        }
        assert!(rt; left.faults() == 0);
    }
}

#[test]
fn steady_calls(rt: HostRuntime) {
    let bytes = b"old".to_vec(rt.alloc()).expect(&rt, "memory");
    let files = vec![in rt.alloc(); (FileName::Commit(1), bytes)].expect(&rt, "memory");
    let Ok(mut store) = SteadyStore::with_files(rt.alloc(), files) else {
        panic!(rt; "memory");
    };
    assert!(rt; store.delete(FileName::Commit(1)) == Ok(()));
    let Ok(mut left) = store.crash(rt.alloc(), 1) else {
        panic!(rt; "memory");
    };
    assert!(rt; has(rt.alloc(), &mut left, FileName::Commit(1), b"old"));
    assert!(rt; store.sync_all() == Ok(()));
    let Ok(mut left) = store.crash(rt.alloc(), 1) else {
        panic!(rt; "memory");
    };
    assert!(rt; lacks(rt.alloc(), &mut left, FileName::Commit(1)));
    let mut empty = SteadyStore::new(rt.alloc());
    assert!(rt; empty.rename(FileName::Rows(1), FileName::Rows(2)) == Ok(()));
    assert!(rt; lacks(rt.alloc(), &mut empty, FileName::Rows(2)));
}

#[test]
fn fuse_burns(rt: HostRuntime) {
    let mut store = FuseStore::new(MemoryStore::new(rt.alloc()), 1);
    assert!(rt; store.write(FileName::Posts(1), b"posts") == Ok(()));
    assert!(rt; store.delete(FileName::Posts(1)) == Err(StoreFault::Failed));
    assert!(rt; store.sync_all() == Err(StoreFault::Failed));
    assert!(rt; store.faults() == 2);
    let mut inner = store.into_inner();
    assert!(rt; inner.faults() == 0);
    assert!(rt; has(rt.alloc(), &mut inner, FileName::Posts(1), b"posts"));
}

/// Whether the store takes a file of 100,000 bytes, lists it, and returns its bytes.
fn keeps_large<S: Store>(alloc: Global, store: &mut S, bytes: &[u8]) -> Result<bool, StoreFault> {
    store.write(FileName::Rows(1), bytes)?;
    store.sync(FileName::Rows(1))?;
    store.sync_all()?;
    let names = store.list(alloc)?;
    Ok(
        names.as_slice() == [FileName::Rows(1)].as_slice()
            && has(alloc, store, FileName::Rows(1), bytes),
    )
}

#[test]
fn stores_keep_a_large_file(rt: HostRuntime) {
    let alloc = rt.alloc();
    let bytes = Vec::from_elem(alloc, 7u8, 100_000).expect(&rt, "memory");
    let mut memory = MemoryStore::new(alloc);
    assert!(rt; keeps_large(alloc, &mut memory, bytes.as_slice()) == Ok(true));
    let Ok(mut left) = memory.crash(alloc, 1) else {
        panic!(rt; "memory");
    };
    assert!(rt; has(alloc, &mut left, FileName::Rows(1), bytes.as_slice()));
    let mut steady = SteadyStore::new(alloc);
    assert!(rt; keeps_large(alloc, &mut steady, bytes.as_slice()) == Ok(true));
    let Ok(mut left) = steady.crash(alloc, 1) else {
        panic!(rt; "memory");
    };
    assert!(rt; has(alloc, &mut left, FileName::Rows(1), bytes.as_slice()));
    let mut fuse = FuseStore::new(MemoryStore::new(alloc), 100);
    assert!(rt; keeps_large(alloc, &mut fuse, bytes.as_slice()) == Ok(true));
}
