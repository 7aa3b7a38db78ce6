//! A store in memory that never fails.
ghost use Rattle.std.specs.Prelude.{◌≡◌};

use crate::history::History;
use crate::outcome::{BytesLeft, StepsLeft};
use crate::recorded::{list_names, read_bytes, record, record_write};
use crate::settled::settled_files;
use ix_base::{FileName, NoMemory};
use ix_outside::{Step, Store, StoreFault};
use std::alloc::Global;

/// A store in memory, none of whose calls fails. A rename of an absent file removes the file of the
/// new name, and after a sync of an absent file a crash leaves it absent.
#[derive(Drop)]
pub struct SteadyStore {
    history: History,
}

impl SteadyStore {
    ghost use Rattle.std.specs.Prelude.{◌/◌, All, IfOk, IfSome};
    ghost use Rattle.ix_outside.specs.Disk.{Tells, told_files};
    ghost use Rattle.ix_outside.specs.Crash.{IsImage};
    ghost use Rattle.ix_base.specs.FileNames.{IsFileName};
    ghost use Rattle.ix_memory.specs.History.{bytes_of, files_left, steps_of};
    ghost use Rattle.ix_memory.specs.Settled.{AreDurable, no_files, with_pairs};

    /// The store without a file. It takes no memory.
    pub fn new(alloc: Global) -> Self
        ensures { Tells (AreDurable no_files) (⟦<SteadyStore as Store>⟧.disk result) }
    {
        SteadyStore {
            history: History::new(alloc),
        }
    }

    /// The store of these files, all of them on the disk. Of files with one name the last counts.
    pub fn with_files(alloc: Global, files: Vec<(FileName, Vec<u8>)>) -> Result<Self, NoMemory>
        requires { All (λ file. IsFileName file.0) files.items }
        ensures { IfOk result (λ store.
            Tells (AreDurable (with_pairs files.items no_files))
            (⟦<SteadyStore as Store>⟧.disk store)) }
    {
        Ok(SteadyStore {
            history: settled_files(alloc, files)?,
        })
    }

    /// A store with the files that a crash now may leave, all of them on the disk. The choice says
    /// which of the possible outcomes, as at `MemoryStore::crash`.
    pub fn crash(&self, alloc: Global, choice: u32) -> Result<SteadyStore, NoMemory>
        ensures image { IfOk result (λ left.
            IfSome (told_files (⟦<SteadyStore as Store>⟧.disk left)) (IsImage self.now.history)) }
        ensures chosen { IfOk result (λ left.
            Tells (AreDurable
            (files_left (steps_of choice) (bytes_of (choice / 4)) self.now.history))
            (⟦<SteadyStore as Store>⟧.disk left)) }
        ensures all_left { choice ≡ 0 → IfOk result (λ left.
            told_files (⟦<SteadyStore as Store>⟧.disk left)
            ≡ told_files (⟦<SteadyStore as Store>⟧.disk self.now)) }
    {
        let steps = StepsLeft::of_choice(choice);
        let bytes = BytesLeft::of_choice(choice / 4);
        Ok(SteadyStore {
            history: self.history.crash(alloc, steps, bytes)?,
        })
    }
}

impl Store for SteadyStore {
    ghost use Rattle.std.specs.Prelude.{Some};

    ghost disk = { λ store. Some store.history };

    ghost fault_count = { λ _. 0 };

    fn list(&mut self, alloc: Global) -> Result<Vec<FileName>, StoreFault> {
        list_names(&self.history, alloc)
    }

    fn read(&mut self, alloc: Global, name: FileName) -> Result<Option<Vec<u8>>, StoreFault> {
        read_bytes(&self.history, alloc, name)
    }

    fn write(&mut self, name: FileName, bytes: &[u8]) -> Result<(), StoreFault> {
        record_write(&mut self.history, name, bytes)
    }

    fn sync(&mut self, name: FileName) -> Result<(), StoreFault> {
        record(&mut self.history, Step::Synced(name))
    }

    fn rename(&mut self, from: FileName, to: FileName) -> Result<(), StoreFault> {
        record(&mut self.history, Step::Renamed(from, to))
    }

    fn delete(&mut self, name: FileName) -> Result<(), StoreFault> {
        record(&mut self.history, Step::Deleted(name))
    }

    fn sync_all(&mut self) -> Result<(), StoreFault> {
        record(&mut self.history, Step::Settled)
    }

    fn faults(&self) -> u64 {
        0
    }
}
