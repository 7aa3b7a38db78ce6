//! The commit files of commits that stay.
ghost use Rattle.std.specs.Prelude.{◌≡◌, ◌≤◌, Some, None, Err, IfOk};
ghost use Rattle.ix_base.specs.FileReading.{placed};
ghost use Rattle.ix_base.specs.declared.damaged.Damaged.{Damaged};
ghost use Rattle.ix_base.specs.declared.file_name.FileName.TheVariants.{Commit};
ghost use Rattle.ix_outside.specs.Causes.{Rose};
ghost use Rattle.ix_outside.specs.Disk.{told_files};
ghost use Rattle.ix_outside.specs.Files.{Files, Reads};
ghost use Rattle.commit_point.specs.Fits.{HeadFits};
ghost use Rattle.commit_point.specs.Holds.{HasHead};
ghost use Rattle.commit_point.specs.Reading.{head_in};
ghost use Rattle.commit_point.specs.Spelling.{commit_file};
ghost use Rattle.commit_pruning.specs.Pruning.{IsBrokenCommit};

use crate::fault::PruningFault;
use commit_point::{Head, decode_commit};
use ix_base::{Damaged, FileFault, FileName};
use ix_outside::{Store, StoreFault};
use std::alloc::Global;

/// The bytes of the commit file of this number. An absent one is damaged at 0.
fn commit_bytes<S: Store>(
    alloc: Global,
    store: &mut S,
    number: u64,
) -> Result<Vec<u8>, PruningFault>
    ensures bytes { IfOk result (λ bytes.
        Reads (told_files (S.disk store.old)) (Commit number) (Some bytes.items)) }
    ensures absent { (damaged : Damaged) → result ≡ Err (PruningFault.Damaged damaged)
        → (damaged ≡ record { file = Commit number; at = 0 })
        × Reads (told_files (S.disk store.old)) (Commit number) None }
    ensures reads { S.disk store.new ≡ S.disk store.old }
    ensures later { S.fault_count store.old ≤ S.fault_count store.new }
    ensures failed { result ≡ Err PruningFault.Store
        → Rose (S.fault_count store.old) (S.fault_count store.new) }
{
    let name = FileName::Commit(number);
    match store.read(alloc, name) {
        Ok(Some(bytes)) => Ok(bytes),
        Ok(None) => Err(PruningFault::Damaged(Damaged { file: name, at: 0 })),
        Err(StoreFault::Failed) => Err(PruningFault::Store),
        Err(StoreFault::NoMemory) => Err(PruningFault::NoMemory),
    }
}

/// What the bytes of a commit file of this number say.
fn decoded(alloc: Global, bytes: &[u8], number: u64) -> Result<Head, PruningFault>
    ensures found { IfOk result (λ head. (head.number ≡ number) × HeadFits head
        × (bytes.now ≡ commit_file head)) }
    ensures damaged { (damaged : Damaged) → result ≡ Err (PruningFault.Damaged damaged)
        → placed (Commit number) bytes.now (head_in number bytes.now) ≡ Err damaged }
    ensures failed { result ≡ Err PruningFault.Store → ⊥ }
{
    match decode_commit(alloc, bytes, number) {
        Ok(head) => Ok(head),
        Err(FileFault::Damaged(damaged)) => Err(PruningFault::Damaged(damaged)),
        Err(FileFault::NoMemory) => Err(PruningFault::NoMemory),
    }
}

/// What the commit file of this number says. One that is absent is damaged at 0.
pub(crate) fn head_of<S: Store>(
    alloc: Global,
    store: &mut S,
    number: u64,
) -> Result<Head, PruningFault>
    ensures found { (files : Files) → told_files (S.disk store.old) ≡ Some files
        → IfOk result (HasHead files number) }
    ensures damaged { (damaged : Damaged) → result ≡ Err (PruningFault.Damaged damaged)
        → IsBrokenCommit (told_files (S.disk store.old)) number damaged }
    ensures reads { S.disk store.new ≡ S.disk store.old }
    ensures later { S.fault_count store.old ≤ S.fault_count store.new }
    ensures failed { result ≡ Err PruningFault.Store
        → Rose (S.fault_count store.old) (S.fault_count store.new) }
{
    match commit_bytes(alloc, store, number) {
        Ok(bytes) => decoded(alloc, bytes.as_slice(), number),
        Err(fault) => Err(fault),
    }
}
