//! Where the files are.
ghost use Rattle.std.specs.Prelude.{◌≡◌, ◌≢◌, ℕ, Option, IfOk, IfSome, All, option_map};
ghost use Rattle.ix_base.specs.FileNames.{IsFileName};
ghost use Rattle.ix_outside.specs.Files.{Lists, Reads};
ghost use Rattle.ix_outside.specs.Disk.{Disk, Takes, told_files};
ghost use Rattle.ix_outside.specs.Causes.{HasStoreCause};

use ix_base::{FileName, NoMemory};
use std::alloc::{AllocError, AllocFailed, Global};

/// Why a call of a store returned an error.
#[derive(Clone, Copy, Debug, PartialEq, Eq)]
pub enum StoreFault {
    /// The store failed, and its count of faults rose.
    Failed,
    /// Out of memory. Nothing changed, and the count of faults did not rise.
    NoMemory,
}

impl From<NoMemory> for StoreFault {
    ghost use Rattle.ix_outside.specs.declared.store.StoreFault.TheVariants.{NoMemory as OutOfMemory};

    ghost from_gives = { λ _ fault. fault ≡ OutOfMemory };

    fn from(_error: NoMemory) -> StoreFault {
        StoreFault::NoMemory
    }
}

impl From<AllocError> for StoreFault {
    ghost use Rattle.ix_outside.specs.declared.store.StoreFault.TheVariants.{NoMemory as OutOfMemory};

    ghost from_gives = { λ _ fault. fault ≡ OutOfMemory };

    fn from(_error: AllocError) -> StoreFault {
        StoreFault::NoMemory
    }
}

impl<T: Drop> From<AllocFailed<T>> for StoreFault {
    ghost use Rattle.ix_outside.specs.declared.store.StoreFault.TheVariants.{NoMemory as OutOfMemory};

    ghost from_gives = { λ _ fault. fault ≡ OutOfMemory };

    fn from(_error: AllocFailed<T>) -> StoreFault {
        StoreFault::NoMemory
    }
}

/// A directory of files, each of which is read and written as a whole. Where a store tells what it
/// holds, contracts see it as its *disk*: the list of the steps that made it from an empty directory,
/// the newest first. What reads return and what a crash may leave are functions of that list. A call
/// that changes something adds its step as the newest one:
///
/// - A file that was written and then synced stays with its bytes. One that was written and not yet
///   synced is absent or holds any bytes.
/// - A rename or a delete is there wholly or not at all until `sync_all` succeeds; then it stays.
/// - Other files stay.
///
/// A call that returned `Failed` has taken no step, or a part of its own. A call that was out of
/// memory has changed nothing.
///
/// Every store can be dropped, and so can what owns one.
pub trait Store: Drop {
    ghost use Rattle.ix_outside.specs.declared.step.Step.TheVariants.{Wrote, Synced, Renamed, Deleted, Settled};

    /// The steps that made the store, the newest first, where it tells them.
    ghost disk: { Self → Option Disk };

    /// How many calls have failed.
    ghost fault_count: { Self → ℕ };

    /// The names of the files, each once. Entries whose names are no `FileName` are left out.
    fn list(&mut self, alloc: Global) -> Result<Vec<FileName>, StoreFault>
        ensures names { IfOk result (λ names. IfSome (told_files (disk self.old))
            (λ here. Lists here names.items)) }
        ensures real { IfOk result (λ names. All IsFileName names.items) }
        ensures disk { disk self.new ≡ disk self.old }
        ensures cause { HasStoreCause (fault_count self.old) (fault_count self.new) result };

    /// All bytes of a file, or `None` where there is no such file.
    fn read(&mut self, alloc: Global, name: FileName) -> Result<Option<Vec<u8>>, StoreFault>
        ensures bytes { IfOk result (λ found. Reads (told_files (disk self.old)) name
            (option_map (λ bytes. bytes.items) found)) }
        ensures disk { disk self.new ≡ disk self.old }
        ensures cause { HasStoreCause (fault_count self.old) (fault_count self.new) result };

    /// Makes the file with these bytes, or replaces all that it had. After `Failed` it may hold
    /// anything, or be absent. A store whose files have a largest size fails at more bytes than that,
    /// and then it has changed nothing: what it acknowledges it can read.
    fn write(&mut self, name: FileName, bytes: &[u8]) -> Result<(), StoreFault>
        requires { IsFileName name }
        ensures disk { Takes (Wrote name bytes.now) (disk self.old) (disk self.new) result }
        ensures cause { HasStoreCause (fault_count self.old) (fault_count self.new) result };

    /// Puts the file's bytes on the disk, so that a crash leaves them. After `Failed` it may hold
    /// anything, or be absent.
    fn sync(&mut self, name: FileName) -> Result<(), StoreFault>
        ensures disk { Takes (Synced name) (disk self.old) (disk self.new) result }
        ensures cause { HasStoreCause (fault_count self.old) (fault_count self.new) result };

    /// Gives the file another name, and replaces a file that has that name. After `Failed` it may
    /// have either name.
    fn rename(&mut self, from: FileName, to: FileName) -> Result<(), StoreFault>
        requires name { IsFileName to }
        requires apart { from ≢ to }
        ensures disk { Takes (Renamed from to) (disk self.old) (disk self.new) result }
        ensures cause { HasStoreCause (fault_count self.old) (fault_count self.new) result };

    /// Removes the file. Where there is none it does nothing and returns Ok. After `Failed` the file
    /// may be there or not.
    fn delete(&mut self, name: FileName) -> Result<(), StoreFault>
        ensures disk { Takes (Deleted name) (disk self.old) (disk self.new) result }
        ensures cause { HasStoreCause (fault_count self.old) (fault_count self.new) result };

    /// Puts all renames and deletes on the disk. It syncs no file's bytes.
    fn sync_all(&mut self) -> Result<(), StoreFault>
        ensures disk { Takes Settled (disk self.old) (disk self.new) result }
        ensures cause { HasStoreCause (fault_count self.old) (fault_count self.new) result };

    /// How many calls have failed.
    fn faults(&self) -> u64
        ensures { result ≡ fault_count self.now };
}
