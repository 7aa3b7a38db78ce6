//! Files that are deleted.
ghost use Rattle.std.specs.Prelude.{◌≡◌, map};
ghost use Rattle.ix_outside.specs.Causes.{Blames};
ghost use Rattle.ix_outside.specs.Disk.{Told};
ghost use Rattle.ix_outside.specs.declared.step.Step.TheVariants.{Deleted};
ghost use Rattle.commit_pruning.specs.Deleting.{Halts, delete_steps, prune_steps};

use ix_base::FileName;
use ix_outside::{Store, StoreFault};

/// Deletes each of the files.
fn delete_each<S: Store>(store: &mut S, names: &[FileName]) -> Result<(), StoreFault>
    ensures disk { Told (λ old new. Halts (map Deleted names.now) old new result)
        (S.disk store.old) (S.disk store.new) }
    ensures cause { Blames (S.fault_count store.old) (S.fault_count store.new) result }
{
    for name in names {
        match store.delete(*name) {
            Ok(()) => (),
            Err(fault) => return Err(fault),
        }
    }
    Ok(())
}

/// Deletes each of the files, and puts that on the disk.
fn delete_all<S: Store>(store: &mut S, names: &[FileName]) -> Result<(), StoreFault>
    ensures disk { Told (λ old new. Halts (delete_steps names.now) old new result)
        (S.disk store.old) (S.disk store.new) }
    ensures cause { Blames (S.fault_count store.old) (S.fault_count store.new) result }
{
    match delete_each(store, names) {
        Ok(()) => store.sync_all(),
        Err(fault) => Err(fault),
    }
}

/// Deletes the commit files that are given up, and then the other files, and puts each time that on
/// the disk. It takes no memory of its own.
pub(crate) fn prune_files<S: Store>(
    store: &mut S,
    gone: &[FileName],
    rest: &[FileName],
) -> Result<(), StoreFault>
    ensures disk { Told (λ old new. Halts (prune_steps gone.now rest.now) old new result)
        (S.disk store.old) (S.disk store.new) }
    ensures cause { Blames (S.fault_count store.old) (S.fault_count store.new) result }
{
    match delete_all(store, gone) {
        Ok(()) => delete_all(store, rest),
        Err(fault) => Err(fault),
    }
}
