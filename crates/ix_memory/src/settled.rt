//! Histories whose files are all on the disk.
ghost use Rattle.std.specs.Prelude.{◌≡◌, All, IfOk, OnOk};
ghost use Rattle.ix_base.specs.FileNames.{IsFileName};
ghost use Rattle.ix_outside.specs.Disk.{with_at, is_unsynced, files as files_of};
ghost use Rattle.ix_outside.specs.Crash.{IsImage};
ghost use Rattle.ix_memory.specs.Settled.{AreDurable, AllSynced, no_files, with_pairs};

use crate::history::History;
use ix_base::{FileName, NoMemory};
use ix_outside::Step;
use std::alloc::Global;

/// Adds a write of the file and its sync.
pub fn put(history: &mut History, name: FileName, bytes: &[u8]) -> Result<(), NoMemory>
    requires { IsFileName name }
    ensures files { OnOk result (files_of history.new
        ≡ with_at name (Some bytes.now) (files_of history.old)) }
    ensures synced { OnOk result (AllSynced history.old → AllSynced history.new) }
{
    let copy = history.copy_of(bytes)?;
    history.push(Step::Wrote(name, copy))?;
    history.push(Step::Synced(name))
}

/// Adds a write of the file, a pair of name and bytes, and its sync.
fn put_file(history: &mut History, file: &(FileName, Vec<u8>)) -> Result<(), NoMemory>
    requires { IsFileName file.now.0 }
    ensures files { OnOk result (files_of history.new
        ≡ with_at file.now.0 (Some file.now.1.items) (files_of history.old)) }
    ensures synced { OnOk result (AllSynced history.old → AllSynced history.new) }
{
    put(history, file.0, file.1.as_slice())
}

/// Adds a delete of the file.
pub fn take_out(history: &mut History, name: FileName) -> Result<(), NoMemory>
    ensures files { OnOk result (files_of history.new ≡ with_at name None (files_of history.old)) }
    ensures synced { OnOk result (AllSynced history.old → AllSynced history.new) }
{
    history.push(Step::Deleted(name))
}

/// Adds a sync of all renames and deletes.
pub fn settle(history: &mut History) -> Result<(), NoMemory>
    ensures files { OnOk result (files_of history.new ≡ files_of history.old) }
    ensures durable { OnOk result (AllSynced history.old
        → AreDurable (files_of history.new) history.new) }
{
    history.push(Step::Settled)
}

/// The history of a store with these files, all of them on the disk. Of files with one name the last
/// counts.
pub fn settled_files(alloc: Global, files: Vec<(FileName, Vec<u8>)>) -> Result<History, NoMemory>
    requires { All (λ file. IsFileName file.0) files.items }
    ensures files { IfOk result (λ history. files_of history ≡ with_pairs files.items no_files) }
    ensures durable { IfOk result (λ history. AreDurable (files_of history) history) }
{
    let mut history = History::new(alloc);
    for file in &files {
        put_file(&mut history, file)?;
    }
    settle(&mut history)?;
    Ok(history)
}
