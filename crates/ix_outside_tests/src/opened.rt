//! Stores of directories.
use crate::recorded_system::{Journal, RecordedSystem};
use ix_outside::DirStore;
use std::test::Fail;

/// The store of the directory at this path.
pub fn store_at(rt: &HostRuntime, path: &str) -> Result<DirStore<HostRuntime>, Fail> {
    let path = String::from_str(rt.alloc(), path)?;
    Ok(DirStore::new(rt.clone()?, path))
}

/// The same, with what it asks of the system in the journal.
pub fn recorded_at<'a>(
    rt: &HostRuntime,
    path: &str,
    journal: &'a Journal,
) -> Result<DirStore<RecordedSystem<'a>>, Fail> {
    let path = String::from_str(rt.alloc(), path)?;
    let system = rt.clone()?;
    Ok(DirStore::new(RecordedSystem { system, journal }, path))
}

/// The same with a journal, but a store that only reads.
pub fn reader_at<'a>(
    rt: &HostRuntime,
    path: &str,
    journal: &'a Journal,
) -> Result<DirStore<RecordedSystem<'a>>, Fail> {
    let path = String::from_str(rt.alloc(), path)?;
    let system = rt.clone()?;
    Ok(DirStore::read_only(RecordedSystem { system, journal }, path))
}
