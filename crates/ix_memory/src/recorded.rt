//! The calls of a store in memory, on the list of its steps.
ghost use Rattle.std.specs.Prelude.{◌≡◌, All, IfOk, IsErrOf, option_map};
ghost use Rattle.ix_base.specs.FileNames.{IsFileName};
ghost use Rattle.ix_outside.specs.Files.{Lists};
ghost use Rattle.ix_outside.specs.Disk.{files as files_of};
ghost use Rattle.ix_memory.specs.Names.{NamesFile};
ghost use Rattle.ix_memory.specs.Recording.{Records};

use crate::history::History;
use ix_base::FileName;
use ix_outside::{Step, StoreFault};
use std::alloc::Global;

/// Adds a step, the newest. The only error is out of memory, and after it the history is as it was.
pub fn record(history: &mut History, step: Step) -> Result<(), StoreFault>
    requires { NamesFile step }
    ensures { Records step history.old history.new result }
{
    match history.push(step) {
        Ok(()) => Ok(()),
        Err(_) => Err(StoreFault::NoMemory),
    }
}

/// Adds the step of a write of the whole file. The only error is out of memory, and after it the
/// history is as it was.
pub fn record_write(history: &mut History, name: FileName, bytes: &[u8]) -> Result<(), StoreFault>
    requires { IsFileName name }
    ensures { Records (Step.Wrote name bytes.now) history.old history.new result }
{
    match history.copy_of(bytes) {
        Ok(copy) => record(history, Step::Wrote(name, copy)),
        Err(_) => Err(StoreFault::NoMemory),
    }
}

/// The names of the files, each once. The only error is out of memory.
pub fn list_names(history: &History, alloc: Global) -> Result<Vec<FileName>, StoreFault>
    ensures names { IfOk result (λ names. Lists (files_of history.now) names.items) }
    ensures real { IfOk result (λ names. All IsFileName names.items) }
    ensures never { IsErrOf result StoreFault.Failed → ⊥ }
{
    match history.names(alloc) {
        Ok(names) => Ok(names),
        Err(_) => Err(StoreFault::NoMemory),
    }
}

/// All bytes of the file, or `None` where there is no such file. The only error is out of memory.
pub fn read_bytes(
    history: &History,
    alloc: Global,
    name: FileName,
) -> Result<Option<Vec<u8>>, StoreFault>
    ensures bytes { IfOk result (λ found.
        option_map (λ bytes. bytes.items) found ≡ files_of history.now name) }
    ensures never { IsErrOf result StoreFault.Failed → ⊥ }
{
    match history.read(name) {
        None => Ok(None),
        Some(bytes) => match bytes.to_vec(alloc) {
            Ok(bytes) => Ok(Some(bytes)),
            Err(_) => Err(StoreFault::NoMemory),
        },
    }
}
