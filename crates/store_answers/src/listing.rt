//! The commits of a store, listed from their commit files.
ghost use Rattle.std.specs.Prelude.{◌≡◌, ◌≤◌, ◌⊎◌, ℕ, List as ListOf, Err, IfErr, IfOk, IsErrAnd, None, Ok, Some};
ghost use Rattle.std.specs.List.{flat_map};
ghost use Rattle.std.specs.List.{AllZip};
ghost use Rattle.ix_base.specs.FileReading.{placed};
ghost use Rattle.ix_base.specs.declared.damaged.Damaged.{Damaged};
ghost use Rattle.ix_base.specs.declared.file_name.FileName.TheVariants.{Commit};
ghost use Rattle.ix_outside.specs.Causes.{Rose};
ghost use Rattle.ix_outside.specs.Disk.{told_files};
ghost use Rattle.ix_outside.specs.Files.{Files, Reads};
ghost use Rattle.commit_point.specs.Fits.{HeadFits};
ghost use Rattle.commit_point.specs.Holds.{HasHead};
ghost use Rattle.commit_point.specs.Reading.{head_in};
ghost use Rattle.commit_point.specs.Spelling.{commit_file};
ghost use Rattle.commit_point.specs.declared.heads.Head.{Head};
ghost use Rattle.store_answers.specs.Listing.{AreListed, BreaksAmong, IsBrokenCommit, IsFirstBroken};
ghost use Rattle.store_answers.specs.Listing.{IsOutside, line_text};

use commit_point::{Head, decode_commit, list_commits};
use ix_base::{Damaged, FileFault, FileName, NoMemory};
use ix_outside::{Store, StoreFault};
use report_text::listed_text;
use std::alloc::{AllocError, Global};

/// Why the commits were not listed.
#[derive(Clone, Copy, Debug, PartialEq, Eq)]
pub enum ListFault {
    /// The store failed, and its count of faults rose.
    Store,
    /// A commit file is not in the grammar, or absent.
    Damaged(Damaged),
    /// Memory ran out.
    NoMemory,
}

impl From<AllocError> for ListFault {
    ghost use Rattle.std.specs.Prelude.{◌≡◌};
    ghost use Rattle.store_answers.specs.declared.listing.ListFault.TheVariants.{NoMemory as OutOfMemory};

    ghost from_gives = { λ _ fault. fault ≡ OutOfMemory };

    fn from(_error: AllocError) -> ListFault {
        ListFault::NoMemory
    }
}

/// What the bytes of the commit file of this number say.
fn decoded(alloc: Global, bytes: &[u8], number: u64) -> Result<Head, ListFault>
    ensures found { IfOk result (λ head. (head.number ≡ number) × HeadFits head
        × (bytes.now ≡ commit_file head)) }
    ensures damaged { (damaged : Damaged) → result ≡ Err (ListFault.Damaged damaged)
        → placed (Commit number) bytes.now (head_in number bytes.now) ≡ Err damaged }
    ensures others { (result ≡ Err ListFault.Store) → ⊥ }
{
    match decode_commit(alloc, bytes, number) {
        Ok(head) => Ok(head),
        Err(FileFault::Damaged(damaged)) => Err(ListFault::Damaged(damaged)),
        Err(FileFault::NoMemory) => Err(ListFault::NoMemory),
    }
}

/// The bytes of the commit file of this number. An absent one is damaged at 0.
fn commit_bytes<S: Store>(alloc: Global, store: &mut S, number: u64) -> Result<Vec<u8>, ListFault>
    ensures bytes { IfOk result (λ bytes.
        Reads (told_files (S.disk store.old)) (Commit number) (Some bytes.items)) }
    ensures absent { (damaged : Damaged) → result ≡ Err (ListFault.Damaged damaged)
        → (damaged ≡ record { file = Commit number; at = 0 })
        × Reads (told_files (S.disk store.old)) (Commit number) None }
    ensures reads { S.disk store.new ≡ S.disk store.old }
    ensures later { S.fault_count store.old ≤ S.fault_count store.new }
    ensures failed { result ≡ Err ListFault.Store
        → Rose (S.fault_count store.old) (S.fault_count store.new) }
{
    let file = FileName::Commit(number);
    match store.read(alloc, file) {
        Ok(Some(bytes)) => Ok(bytes),
        Ok(None) => Err(ListFault::Damaged(Damaged { file, at: 0 })),
        Err(StoreFault::Failed) => Err(ListFault::Store),
        Err(StoreFault::NoMemory) => Err(ListFault::NoMemory),
    }
}

/// Reads the commit file of this number, which a list has shown. One that is gone since then is
/// damaged at 0.
fn listed_head<S: Store>(alloc: Global, store: &mut S, number: u64) -> Result<Head, ListFault>
    ensures found { IfOk result (λ head. (files : Files)
        → told_files (S.disk store.old) ≡ Some files → HasHead files number head) }
    ensures damaged { (damaged : Damaged) → result ≡ Err (ListFault.Damaged damaged)
        → IsBrokenCommit (told_files (S.disk store.old)) number damaged }
    ensures reads { S.disk store.new ≡ S.disk store.old }
    ensures later { S.fault_count store.old ≤ S.fault_count store.new }
    ensures failed { result ≡ Err ListFault.Store
        → Rose (S.fault_count store.old) (S.fault_count store.new) }
{
    match commit_bytes(alloc, store, number) {
        Ok(bytes) => decoded(alloc, bytes.as_slice(), number),
        Err(fault) => Err(fault),
    }
}

fn or_no_memory(text: Result<Vec<u8>, NoMemory>) -> Result<Vec<u8>, ListFault>
    ensures ok { IfOk result (λ bytes. text ≡ Ok bytes) }
    ensures err { IfErr result (λ fault. fault ≡ ListFault.NoMemory) }
{
    match text {
        Ok(bytes) => Ok(bytes),
        Err(NoMemory) => Err(ListFault::NoMemory),
    }
}

/// The line of the commit of this number.
fn line_of<S: Store>(alloc: Global, store: &mut S, number: u64) -> Result<Vec<u8>, ListFault>
    ensures text { (files : Files) → told_files (S.disk store.old) ≡ Some files
        → IfOk result (λ text. (head : Head) × HasHead files number head
        × (text.items ≡ line_text head)) }
    ensures damaged { (damaged : Damaged) → result ≡ Err (ListFault.Damaged damaged)
        → IsBrokenCommit (told_files (S.disk store.old)) number damaged }
    ensures reads { S.disk store.new ≡ S.disk store.old }
    ensures later { S.fault_count store.old ≤ S.fault_count store.new }
    ensures failed { result ≡ Err ListFault.Store
        → Rose (S.fault_count store.old) (S.fault_count store.new) }
{
    match listed_head(alloc, store, number) {
        Ok(head) => or_no_memory(listed_text(alloc, head.number, &head.pairs, head.docs)),
        Err(fault) => Err(fault),
    }
}

/// The lines of the commits of these numbers, in their order.
fn lines_of<S: Store>(alloc: Global, store: &mut S, numbers: &[u64]) -> Result<Vec<u8>, ListFault>
    ensures text { (files : Files) → told_files (S.disk store.old) ≡ Some files
        → IfOk result (λ text. (heads : ListOf Head) × AllZip (HasHead files) numbers.now heads
        × (text.items ≡ flat_map line_text heads)) }
    ensures damaged { (damaged : Damaged) → result ≡ Err (ListFault.Damaged damaged)
        → BreaksAmong (told_files (S.disk store.old)) numbers.now damaged }
    ensures reads { S.disk store.new ≡ S.disk store.old }
    ensures later { S.fault_count store.old ≤ S.fault_count store.new }
    ensures failed { result ≡ Err ListFault.Store
        → Rose (S.fault_count store.old) (S.fault_count store.new) }
{
    let mut text = Vec::new(alloc);
    for number in numbers {
        match line_of(alloc, store, *number) {
            Ok(line) => text.extend_from_slice(line.as_slice())?,
            Err(fault) => return Err(fault),
        }
    }
    Ok(text)
}

/// Lists the store's commits, from their commit files alone: a line for each, by rising number, with
/// the pairs, if it has some, and the number of documents that its commit file tells. Without a commit
/// there is no line. The store is as before, whatever is returned.
///
/// - `Damaged` names the first broken place of the first commit file that has one. A commit file that
///   is gone since it was listed is damaged at 0.
/// - `Store` comes only where the store's count of faults rose.
pub fn list<S: Store>(alloc: Global, store: &mut S) -> Result<Vec<u8>, ListFault>
    // The lines are those of all commits, and each commit file is in the grammar.
    ensures text { (files : Files) → told_files (S.disk store.old) ≡ Some files
        → IfOk result (λ text. (heads : ListOf Head) × AreListed files heads
        × (text.items ≡ flat_map line_text heads)) }
    // A damaged commit file is said to be, by its first broken place, and no other is.
    ensures damaged { (damaged : Damaged) → result ≡ Err (ListFault.Damaged damaged)
        → (s : ℕ) × IsBrokenCommit (told_files (S.disk store.old)) s damaged }
    ensures first { (files : Files) (damaged : Damaged)
        → told_files (S.disk store.old) ≡ Some files → result ≡ Err (ListFault.Damaged damaged)
        → (s : ℕ) × IsFirstBroken files s damaged }
    ensures broken { (files : Files) (s : ℕ) (damaged : Damaged)
        → told_files (S.disk store.old) ≡ Some files → IsFirstBroken files s damaged
        → IsErrAnd result (λ fault. (fault ≡ ListFault.Damaged damaged) ⊎ IsOutside fault) }
    ensures whole { (files : Files) (heads : ListOf Head)
        → told_files (S.disk store.old) ≡ Some files → AreListed files heads
        → IfErr result IsOutside }
    ensures reads { S.disk store.new ≡ S.disk store.old }
    ensures later { S.fault_count store.old ≤ S.fault_count store.new }
    ensures failed { result ≡ Err ListFault.Store
        → Rose (S.fault_count store.old) (S.fault_count store.new) }
{
    match list_commits(alloc, store) {
        Ok(numbers) => lines_of(alloc, store, numbers.as_slice()),
        Err(StoreFault::Failed) => Err(ListFault::Store),
        Err(StoreFault::NoMemory) => Err(ListFault::NoMemory),
    }
}
