//! Files that are there whole, or not at all.
ghost use Rattle.std.specs.Prelude.{◌≡◌, ◌≢◌, ◌∷◌, ◌++◌, [], All, IfErr, false};
ghost use Rattle.ix_base.specs.FileNames.{IsFileName};
ghost use Rattle.ix_outside.specs.Causes.{Blames};
ghost use Rattle.ix_outside.specs.Disk.{Told, Does};
ghost use Rattle.ix_outside.specs.declared.step.Step.TheVariants.{Renamed as RenamedStep, Settled as SettledStep};
ghost use Rattle.commit_point.specs.Publishing.{puts, puts_all, writes_all, syncs_all, publishes, Refuses, BlamesRefusal};

use crate::fault::CommitRefused;
use ix_base::{FileName, List};
use ix_outside::{Store, StoreFault};

/// Writes a file, and puts its bytes on the disk.
fn put_file<S: Store>(store: &mut S, name: FileName, bytes: &[u8]) -> Result<(), StoreFault>
    requires { IsFileName name }
    ensures disk { Does (puts name bytes.now) (S.disk store.old) (S.disk store.new) result }
    ensures cause { Blames (S.fault_count store.old) (S.fault_count store.new) result }
{
    store.write(name, bytes)?;
    store.sync(name)
}

/// Writes each file.
fn write_files<S: Store>(store: &mut S, files: &[(FileName, List<u8>)]) -> Result<(), StoreFault>
    requires { All (λ file. IsFileName file.0) files.now }
    ensures disk { Does (writes_all files.now) (S.disk store.old) (S.disk store.new) result }
    ensures cause { Blames (S.fault_count store.old) (S.fault_count store.new) result }
{
    for file in files {
        match store.write(file.0, file.1.as_slice()) {
            Ok(()) => (),
            Err(fault) => return Err(fault),
        }
    }
    Ok(())
}

/// Puts the bytes of each file on the disk.
fn sync_files<S: Store>(store: &mut S, files: &[(FileName, List<u8>)]) -> Result<(), StoreFault>
    requires { All (λ file. IsFileName file.0) files.now }
    ensures disk { Does (syncs_all files.now) (S.disk store.old) (S.disk store.new) result }
    ensures cause { Blames (S.fault_count store.old) (S.fault_count store.new) result }
{
    for file in files {
        match store.sync(file.0) {
            Ok(()) => (),
            Err(fault) => return Err(fault),
        }
    }
    Ok(())
}

/// Writes all files, and then puts their bytes on the disk, so that the names of all come there at
/// once.
fn put_files<S: Store>(store: &mut S, files: &[(FileName, List<u8>)]) -> Result<(), StoreFault>
    requires { All (λ file. IsFileName file.0) files.now }
    ensures disk { Does (puts_all files.now) (S.disk store.old) (S.disk store.new) result }
    ensures cause { Blames (S.fault_count store.old) (S.fault_count store.new) result }
{
    match write_files(store, files) {
        Ok(()) => sync_files(store, files),
        Err(fault) => Err(fault),
    }
}

/// The refusal for a fault that came before the rename.
pub(crate) fn not_renamed(fault: StoreFault) -> CommitRefused
    ensures { result ≡ record { fault = fault; renamed = false } }
{
    CommitRefused {
        fault,
        renamed: false,
    }
}

/// Gives the pending file its name, and puts that on the disk.
fn name_file<S: Store>(
    store: &mut S,
    pending: FileName,
    last: FileName,
) -> Result<(), CommitRefused>
    requires name { IsFileName last }
    requires apart { pending ≢ last }
    ensures disk { Does (RenamedStep pending last ∷ SettledStep ∷ []) (S.disk store.old)
        (S.disk store.new) result }
    ensures renamed { IfErr result (λ refused.
        Told (λ old new. Refuses []
        (RenamedStep pending last) refused.fault refused.renamed old new) (S.disk store.old)
        (S.disk store.new)) }
    ensures cause { BlamesRefusal (S.fault_count store.old) (S.fault_count store.new) result }
{
    if let Err(fault) = store.rename(pending, last) {
        return Err(not_renamed(fault));
    }
    match store.sync_all() {
        Ok(()) => Ok(()),
        Err(fault) => Err(CommitRefused {
            fault,
            renamed: true,
        }),
    }
}

/// Writes the last file under a pending name, and gives it its own.
fn put_last<S: Store>(
    store: &mut S,
    pending: FileName,
    last: FileName,
    bytes: &[u8],
) -> Result<(), CommitRefused>
    requires names { IsFileName pending × IsFileName last }
    requires apart { pending ≢ last }
    ensures disk { Does (puts pending bytes.now ++ (RenamedStep pending last ∷ SettledStep ∷ []))
        (S.disk store.old) (S.disk store.new) result }
    ensures renamed { IfErr result (λ refused.
        Told (λ old new. Refuses (puts pending bytes.now)
        (RenamedStep pending last) refused.fault refused.renamed old new) (S.disk store.old)
        (S.disk store.new)) }
    ensures cause { BlamesRefusal (S.fault_count store.old) (S.fault_count store.new) result }
{
    match put_file(store, pending, bytes) {
        Ok(()) => name_file(store, pending, last),
        Err(fault) => Err(not_renamed(fault)),
    }
}

/// Writes all files and syncs them, then writes and syncs the last one under a pending name, which is
/// then renamed; last the directory is synced.
pub(crate) fn publish<S: Store>(
    store: &mut S,
    list: &[(FileName, List<u8>)],
    pending: FileName,
    last: FileName,
    bytes: &[u8],
) -> Result<(), CommitRefused>
    requires names { All (λ file. IsFileName file.0) list.now × IsFileName pending
        × IsFileName last }
    requires apart { pending ≢ last }
    ensures disk { Does (publishes list.now pending last bytes.now) (S.disk store.old)
        (S.disk store.new) result }
    ensures renamed { IfErr result (λ refused.
        Told (λ old new. Refuses (puts_all list.now ++ puts pending bytes.now)
        (RenamedStep pending last) refused.fault refused.renamed old new) (S.disk store.old)
        (S.disk store.new)) }
    ensures cause { BlamesRefusal (S.fault_count store.old) (S.fault_count store.new) result }
{
    match put_files(store, list) {
        Ok(()) => put_last(store, pending, last, bytes),
        Err(fault) => Err(not_renamed(fault)),
    }
}
