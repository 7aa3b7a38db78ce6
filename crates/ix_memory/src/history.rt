//! The steps that made a store in memory.
ghost use Rattle.std.specs.Prelude.{◌≡◌, ◌∷◌, [], All, IfOk, OnOk, OnErr};

use crate::left::left_of;
use crate::names::go_on;
use crate::outcome::{BytesLeft, StepsLeft};
use crate::settled::{put, settle, take_out};
use ix_base::{FileName, List, NoMemory};
use ix_outside::Step;
use std::alloc::Global;
use std::marker::Model;

/// The steps that made a store from an empty one. Contracts see them as a list, the newest first.
#[derive(Drop)]
pub struct History {
    alloc: Global,
    steps: Vec<Step>,
}

impl Model for History {
    ghost use Rattle.std.specs.Prelude.{List, reverse};
    ghost use Rattle.ix_outside.specs.declared.step.Step.{Step};

    ghost Value = { List Step };

    ghost view = { λ history. reverse history.steps.items };

    ghost use Rattle.std.specs.Prelude.{All};
    ghost use Rattle.ix_memory.specs.Names.{NamesFile};

    ghost invariant = { λ history. All NamesFile history.steps.items };
}

impl History {
    ghost use Rattle.std.specs.Option.{option_copied};
    ghost use Rattle.ix_base.specs.FileNames.{IsFileName};
    ghost use Rattle.ix_outside.specs.Files.{Lists};
    ghost use Rattle.ix_outside.specs.Disk.{with_at, is_unsynced, files as files_of};
    ghost use Rattle.ix_outside.specs.Crash.{IsImage};
    ghost use Rattle.ix_memory.specs.History.{files_left};
    ghost use Rattle.ix_memory.specs.Settled.{AreDurable, AllSynced, taken_at, file_made};
    ghost use Rattle.ix_memory.specs.Names.{NamesFile};

    /// No step. It takes no memory.
    pub fn new(alloc: Global) -> Self
        ensures { result ≡ [] }
    {
        History {
            alloc,
            steps: Vec::new(alloc),
        }
    }

    /// Adds a step, the newest. After an error the history is as it was.
    pub fn push(&mut self, step: Step) -> Result<(), NoMemory>
        requires { NamesFile step }
        ensures ok { OnOk result (self.new ≡ step ∷ self.old) }
        ensures err { OnErr result (self.new ≡ self.old) }
    {
        self.steps.push(step)?;
        Ok(())
    }

    /// A copy of these bytes, in memory of the history's allocator.
    pub fn copy_of(&self, bytes: &[u8]) -> Result<List<u8>, NoMemory>
        ensures { IfOk result (λ copy. copy ≡ bytes.now) }
    {
        Ok(List::from_vec(bytes.to_vec(self.alloc)?))
    }

    /// The names of the files, each once.
    pub fn names(&self, alloc: Global) -> Result<Vec<FileName>, NoMemory>
        ensures names { IfOk result (λ names. Lists (files_of self.now) names.items) }
        ensures real { IfOk result (λ names. All IsFileName names.items) }
    {
        let mut names = Vec::new(alloc);
        for step in &self.steps {
            go_on(&mut names, step)?;
        }
        Ok(names)
    }

    /// The bytes of the file that a crash of this outcome leaves, or `None` where it leaves no such
    /// file.
    pub fn left(&self, steps: StepsLeft, bytes: BytesLeft, name: FileName) -> Option<&[u8]>
        ensures { option_copied result ≡ files_left steps bytes self.now name }
    {
        left_of(&self.steps, steps, bytes, name)
    }

    /// All bytes of the file, or `None` where there is no such file.
    pub fn read(&self, name: FileName) -> Option<&[u8]>
        ensures { option_copied result ≡ files_of self.now name }
    {
        self.left(StepsLeft::Every, BytesLeft::Whole, name)
    }

    /// The files that a crash of this outcome leaves, as the steps that make them on the disk.
    pub fn crash(
        &self,
        alloc: Global,
        steps: StepsLeft,
        bytes: BytesLeft,
    ) -> Result<History, NoMemory>
        ensures files { IfOk result (λ left. files_of left ≡ files_left steps bytes self.now) }
        ensures durable { IfOk result (λ left. AreDurable (files_of left) left) }
    {
        let mut left = History::new(alloc);
        for step in &self.steps {
            self.leave(&mut left, steps, bytes, step)?;
        }
        settle(&mut left)?;
        Ok(left)
    }

    /// Puts the file that this step made, as a crash of this outcome leaves it, into `left`.
    fn leave(
        &self,
        left: &mut History,
        steps: StepsLeft,
        bytes: BytesLeft,
        step: &Step,
    ) -> Result<(), NoMemory>
        requires { NamesFile step.now }
        ensures files { OnOk result (files_of left.new
            ≡ taken_at (file_made step.now) (files_left steps bytes self.now) (files_of left.old)) }
        ensures synced { OnOk result (AllSynced left.old → AllSynced left.new) }
    {
        match step {
            Step::Wrote(name, _) => self.leave_file(left, steps, bytes, *name),
            Step::Renamed(_, name) => self.leave_file(left, steps, bytes, *name),
            Step::Spoilt(name, _) => self.leave_file(left, steps, bytes, *name),
            Step::Synced(_)
            | Step::Deleted(_)
            | Step::Settled
            | Step::HalfRenamed(_, _)
            | Step::HalfDeleted(_) => Ok(()),
        }
    }

    /// Puts this file, as a crash of this outcome leaves it, into `left`, or takes it out of `left`
    /// where the crash leaves no such file.
    fn leave_file(
        &self,
        left: &mut History,
        steps: StepsLeft,
        bytes: BytesLeft,
        name: FileName,
    ) -> Result<(), NoMemory>
        requires { IsFileName name }
        ensures files { OnOk result (files_of left.new
            ≡ with_at name (files_left steps bytes self.now name) (files_of left.old)) }
        ensures synced { OnOk result (AllSynced left.old → AllSynced left.new) }
    {
        match self.left(steps, bytes, name) {
            None => take_out(left, name),
            Some(bytes) => put(left, name, bytes),
        }
    }
}
