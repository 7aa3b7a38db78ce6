//! A store in memory some of whose calls fail.
ghost use Rattle.std.specs.Prelude.{◌≡◌};

use crate::failing_calls::FailingCalls;
use crate::history::History;
use crate::names::is_same;
use crate::outcome::{BytesLeft, StepsLeft};
use crate::recorded::{list_names, read_bytes, record, record_write};
use crate::settled::settled_files;
use ix_base::{FileName, NoMemory};
use ix_outside::{Step, Store, StoreFault};
use std::alloc::Global;

/// A store in memory. Calls of chosen numbers fail; a call that fails changes only the count of
/// faults. A sync or a rename of an absent file fails too, and so does a rename of a file to its own
/// name.
#[derive(Drop)]
pub struct MemoryStore {
    history: History,
    calls: FailingCalls,
}

impl MemoryStore {
    ghost use Rattle.std.specs.Prelude.{◌/◌, [], All, IfOk, IfSome};
    ghost use Rattle.ix_base.specs.FileNames.{IsFileName};
    ghost use Rattle.ix_outside.specs.Disk.{Tells, told_files};
    ghost use Rattle.ix_outside.specs.Crash.{IsImage};
    ghost use Rattle.ix_memory.specs.History.{bytes_of, files_left, steps_of};
    ghost use Rattle.ix_memory.specs.Settled.{AreDurable, no_files, with_pairs};

    /// The store without a file. None of its calls is to fail. It takes no memory.
    pub fn new(alloc: Global) -> Self
        ensures files { Tells (AreDurable no_files) (⟦<MemoryStore as Store>⟧.disk result) }
        ensures faults { ⟦<MemoryStore as Store>⟧.fault_count result ≡ 0 }
        ensures never { result.calls.numbers.items ≡ [] }
    {
        MemoryStore::of_history(alloc, History::new(alloc))
    }

    /// The store of these files, all of them on the disk. Of files with one name the last counts.
    /// None of its calls is to fail.
    pub fn with_files(alloc: Global, files: Vec<(FileName, Vec<u8>)>) -> Result<Self, NoMemory>
        requires { All (λ file. IsFileName file.0) files.items }
        ensures files { IfOk result (λ store.
            Tells (AreDurable (with_pairs files.items no_files))
            (⟦<MemoryStore as Store>⟧.disk store)) }
        ensures faults { IfOk result (λ store. ⟦<MemoryStore as Store>⟧.fault_count store ≡ 0) }
        ensures never { IfOk result (λ store. store.calls.numbers.items ≡ []) }
    {
        Ok(MemoryStore::of_history(alloc, settled_files(alloc, files)?))
    }

    /// The same store, but its calls of these numbers, counted from 1 at its next call, fail, and its
    /// count of faults is 0.
    pub fn failing(self, calls: Vec<u64>) -> Self
        ensures disk { ⟦<MemoryStore as Store>⟧.disk result ≡ ⟦<MemoryStore as Store>⟧.disk self }
        ensures faults { ⟦<MemoryStore as Store>⟧.fault_count result ≡ 0 }
        ensures history { result.history ≡ self.history }
        ensures numbers { result.calls.numbers ≡ calls }
        ensures made { result.calls.made ≡ 0 }
    {
        let MemoryStore { history, calls: _ } = self;
        MemoryStore {
            history,
            calls: FailingCalls::new(calls),
        }
    }

    /// A store with the files that a crash now may leave, all of them on the disk. None of its calls
    /// is to fail. The choice, from 0 to 15, says which of the possible outcomes. `choice % 4` says
    /// which renames and deletes that no `sync_all` followed are there: all, none, those with an even
    /// number of steps before them, or those with an odd one. `choice / 4` says what a file that was
    /// written and not yet synced is: it has all of its bytes, is absent, is empty, or has the first
    /// half of its bytes. Any other choice is as `choice % 16`.
    pub fn crash(&self, alloc: Global, choice: u32) -> Result<MemoryStore, NoMemory>
        ensures image { IfOk result (λ left.
            IfSome (told_files (⟦<MemoryStore as Store>⟧.disk left)) (IsImage self.now.history)) }
        ensures chosen { IfOk result (λ left.
            Tells (AreDurable
            (files_left (steps_of choice) (bytes_of (choice / 4)) self.now.history))
            (⟦<MemoryStore as Store>⟧.disk left)) }
        ensures all_left { choice ≡ 0 → IfOk result (λ left.
            told_files (⟦<MemoryStore as Store>⟧.disk left)
            ≡ told_files (⟦<MemoryStore as Store>⟧.disk self.now)) }
        ensures faults { IfOk result (λ left. ⟦<MemoryStore as Store>⟧.fault_count left ≡ 0) }
        ensures never { IfOk result (λ left. left.calls.numbers.items ≡ []) }
    {
        let steps = StepsLeft::of_choice(choice);
        let bytes = BytesLeft::of_choice(choice / 4);
        Ok(MemoryStore::of_history(alloc, self.history.crash(alloc, steps, bytes)?))
    }

    /// The store that these steps made. None of its calls is to fail.
    fn of_history(alloc: Global, history: History) -> Self
        ensures history { result.history ≡ history }
        ensures faults { result.calls.faults ≡ 0 }
        ensures never { result.calls.numbers.items ≡ [] }
    {
        MemoryStore {
            history,
            calls: FailingCalls::new(Vec::new(alloc)),
        }
    }
}

impl Store for MemoryStore {
    ghost use Rattle.std.specs.Prelude.{Some};

    ghost disk = { λ store. Some store.history };

    ghost fault_count = { λ store. store.calls.faults };

    ghost use Rattle.std.specs.Prelude.{◌≡◌, ◌≢◌, ◌⊎◌, ◌↔◌, None, IfOk, IfSome, All, IsErrOf, option_map};
    ghost use Rattle.ix_base.specs.FileNames.{IsFileName};
    ghost use Rattle.ix_outside.specs.Files.{Lists, Reads};
    ghost use Rattle.ix_outside.specs.Disk.{Takes, told_files, files};
    ghost use Rattle.ix_outside.specs.Causes.{HasStoreCause};
    ghost use Rattle.ix_outside.specs.declared.step.Step.TheVariants.{Wrote, Synced, Renamed, Deleted, Settled};
    ghost use Rattle.ix_memory.specs.Failing.{Counts, NextFails};

    fn list(&mut self, alloc: Global) -> Result<Vec<FileName>, StoreFault>
        ensures names { IfOk result (λ names.
            IfSome (told_files (Some self.old.history)) (λ here. Lists here names.items)) }
        ensures real { IfOk result (λ names. All IsFileName names.items) }
        ensures disk { Some self.new.history ≡ Some self.old.history }
        ensures cause { HasStoreCause self.old.calls.faults self.new.calls.faults result }
        ensures fails { IsErrOf result StoreFault.Failed ↔ NextFails self.old.calls }
        ensures counted { Counts self.old.calls self.new.calls }
    {
        if self.calls.next_fails() {
            return Err(StoreFault::Failed);
        }
        list_names(&self.history, alloc)
    }

    fn read(&mut self, alloc: Global, name: FileName) -> Result<Option<Vec<u8>>, StoreFault>
        ensures bytes { IfOk result (λ found.
            Reads (told_files (Some self.old.history)) name
            (option_map (λ bytes. bytes.items) found)) }
        ensures disk { Some self.new.history ≡ Some self.old.history }
        ensures cause { HasStoreCause self.old.calls.faults self.new.calls.faults result }
        ensures fails { IsErrOf result StoreFault.Failed ↔ NextFails self.old.calls }
        ensures counted { Counts self.old.calls self.new.calls }
    {
        if self.calls.next_fails() {
            return Err(StoreFault::Failed);
        }
        read_bytes(&self.history, alloc, name)
    }

    fn write(&mut self, name: FileName, bytes: &[u8]) -> Result<(), StoreFault>
        requires { IsFileName name }
        ensures disk { Takes (Wrote name bytes.now) (Some self.old.history)
            (Some self.new.history) result }
        ensures cause { HasStoreCause self.old.calls.faults self.new.calls.faults result }
        ensures fails { IsErrOf result StoreFault.Failed ↔ NextFails self.old.calls }
        ensures counted { Counts self.old.calls self.new.calls }
    {
        if self.calls.next_fails() {
            return Err(StoreFault::Failed);
        }
        record_write(&mut self.history, name, bytes)
    }

    fn sync(&mut self, name: FileName) -> Result<(), StoreFault>
        ensures disk { Takes (Synced name) (Some self.old.history) (Some self.new.history) result }
        ensures cause { HasStoreCause self.old.calls.faults self.new.calls.faults result }
        ensures fails { IsErrOf result StoreFault.Failed
            ↔ (NextFails self.old.calls ⊎ (files self.old.history name ≡ None)) }
        ensures counted { Counts self.old.calls self.new.calls }
    {
        if self.calls.next_fails() {
            return Err(StoreFault::Failed);
        }
        if self.history.read(name).is_none() {
            self.calls.fail();
            return Err(StoreFault::Failed);
        }
        record(&mut self.history, Step::Synced(name))
    }

    fn rename(&mut self, from: FileName, to: FileName) -> Result<(), StoreFault>
        requires name { IsFileName to }
        requires apart { from ≢ to }
        ensures disk { Takes (Renamed from to) (Some self.old.history)
            (Some self.new.history) result }
        ensures cause { HasStoreCause self.old.calls.faults self.new.calls.faults result }
        ensures fails { IsErrOf result StoreFault.Failed
            ↔ (NextFails self.old.calls ⊎ (files self.old.history from ≡ None)) }
        ensures counted { Counts self.old.calls self.new.calls }
    {
        if self.calls.next_fails() {
            return Err(StoreFault::Failed);
        }
        if is_same(from, to) || self.history.read(from).is_none() {
            self.calls.fail();
            return Err(StoreFault::Failed);
        }
        record(&mut self.history, Step::Renamed(from, to))
    }

    fn delete(&mut self, name: FileName) -> Result<(), StoreFault>
        ensures disk { Takes (Deleted name) (Some self.old.history) (Some self.new.history) result }
        ensures cause { HasStoreCause self.old.calls.faults self.new.calls.faults result }
        ensures fails { IsErrOf result StoreFault.Failed ↔ NextFails self.old.calls }
        ensures counted { Counts self.old.calls self.new.calls }
    {
        if self.calls.next_fails() {
            return Err(StoreFault::Failed);
        }
        record(&mut self.history, Step::Deleted(name))
    }

    fn sync_all(&mut self) -> Result<(), StoreFault>
        ensures disk { Takes Settled (Some self.old.history) (Some self.new.history) result }
        ensures cause { HasStoreCause self.old.calls.faults self.new.calls.faults result }
        ensures fails { IsErrOf result StoreFault.Failed ↔ NextFails self.old.calls }
        ensures counted { Counts self.old.calls self.new.calls }
    {
        if self.calls.next_fails() {
            return Err(StoreFault::Failed);
        }
        record(&mut self.history, Step::Settled)
    }

    fn faults(&self) -> u64 {
        self.calls.faults()
    }
}
