//! The steps that make a store what it is.
use ix_base::{FileName, List};

/// What a call did to a store.
#[derive(Drop)]
pub enum Step {
    /// The file has these bytes now.
    Wrote(FileName, List<u8>),
    /// The file's bytes were put on the disk.
    Synced(FileName),
    /// The file of the first name has the second one now.
    Renamed(FileName, FileName),
    /// The file is gone.
    Deleted(FileName),
    /// All renames and deletes were put on the disk.
    Settled,
    /// A write or a sync failed, and reads of the file return this now.
    Spoilt(FileName, Option<List<u8>>),
    /// A rename failed. Reads find the old name, and after a crash the file may have the new one.
    HalfRenamed(FileName, FileName),
    /// A delete failed. Reads find the file, and after a crash it may be gone.
    HalfDeleted(FileName),
}
