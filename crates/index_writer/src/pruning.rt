//! Old commits: given up, and opened beside the writer.
ghost use Rattle.std.specs.Prelude.{◌≡◌, ◌≤◌, ◌↔◌, ◌⊎◌, ℕ, List as ListOf, IsSome, IsTrue, None, Some, IfOk, IfErr, OnOk, Err};
ghost use Rattle.ix_base.specs.declared.damaged.Damaged.{Damaged};
ghost use Rattle.ix_base.specs.declared.file_name.FileName.TheVariants.{Commit};
ghost use Rattle.ix_outside.specs.Calls.{LeavesOnly};
ghost use Rattle.ix_outside.specs.Causes.{Rose};
ghost use Rattle.ix_outside.specs.Crash.{MayHold};
ghost use Rattle.ix_outside.specs.Disk.{Told, told_files};
ghost use Rattle.ix_outside.specs.Files.{Files, Was};
ghost use Rattle.segment_core.specs.LiveRows.{Lived};
ghost use Rattle.commit_point.specs.declared.heads.HeadSegment.{HeadSegment};
ghost use Rattle.commit_point.specs.Holds.{AreKept, HasSegments};
ghost use Rattle.commit_point.specs.Loading.{IsOutside, TellsNone};
ghost use Rattle.commit_point.specs.Reading.{reading};
ghost use Rattle.commit_pruning.specs.Pruning.{AreKeptBut, AreWhole, BreaksStaying, IsBrokenCommit, IsGivenUp, IsGoneFrom, IsKeptIn, IsPruned, IsWholeOrGivenUp, MayBePruned, OnlyDeletes};
ghost use Rattle.index_writer.specs.Ready.{IsSound};
ghost use Rattle.index_writer.specs.Standing.{StandsOnLast};
ghost use Rattle.index_writer.specs.Storing.{GoesOn};

use crate::fault::PruneFault;
use crate::writer::IndexWriter;
use commit_point::{OpenFault, Opened, open_commit};
use commit_pruning::{PruningFault, prune};
use ix_outside::Store;

impl<S: Store> IndexWriter<S> {
    /// Gives up all commits on the store but so many of the latest, at least one, and returns how many
    /// it gave up. It deletes their commit files, and then each pending file and each file of a segment
    /// that no commit left lists, also those that a stopped run has left. Segments, rows and numbers
    /// stay, and so does what is on the store of the segments.
    ///
    /// `Closed` comes exactly where the writer is closed; nothing changes then. After `Store` it is
    /// closed. After `Damaged`, which names a commit file that stays, nothing was deleted. After
    /// `NoMemory` some of the files may be deleted, and the writer goes on.
    pub fn prune(&mut self, keep: u32) -> Result<u64, PruneFault>
        requires sound { IsSound self.old.state }
        requires some { 1 ≤ keep }
        ensures sound { IsSound self.new.state }
        ensures state { self.new.state ≡ record self.old.state { closed = self.new.state.closed } }
        ensures pruned { (files : Files) (now : Files)
            → told_files (S.disk self.old.store) ≡ Some files
            → told_files (S.disk self.new.store) ≡ Some now
            → IfOk result (λ count. IsPruned keep count files now) }
        // What reads give, success and error alike.
        ensures left { (files : Files) (now : Files)
            → told_files (S.disk self.old.store) ≡ Some files
            → told_files (S.disk self.new.store) ≡ Some now → MayBePruned keep files now }
        // Nothing is written or renamed.
        ensures only { Told OnlyDeletes (S.disk self.old.store) (S.disk self.new.store) }
        // What a crash leaves at any moment of the call.
        ensures crash { (files : Files) → told_files (S.disk self.old.store) ≡ Some files
            → AreKept files (MayHold (S.disk self.old.store))
            → LeavesOnly (S.disk self.old.store) (S.disk self.new.store) (MayBePruned keep files) }
        // Once it is acknowledged no image has a commit that was given up.
        ensures kept { (files : Files) (now : Files)
            → told_files (S.disk self.old.store) ≡ Some files
            → told_files (S.disk self.new.store) ≡ Some now
            → AreKept files (MayHold (S.disk self.old.store))
            → OnOk result (AreKept now (MayHold (S.disk self.new.store))) }
        // Where memory ran out an image may still have some of them.
        ensures paused { (files : Files) (now : Files)
            → told_files (S.disk self.old.store) ≡ Some files
            → told_files (S.disk self.new.store) ≡ Some now
            → AreKept files (MayHold (S.disk self.old.store)) → result ≡ Err PruneFault.NoMemory
            → AreKeptBut keep files now (MayHold (S.disk self.new.store)) }
        // A commit by itself, whatever became of the others: what reads give of it, and, where it is
        // kept, what a crash leaves of it at any moment of the call.
        ensures found { (files : Files) (now : Files) (s : ℕ)
            → told_files (S.disk self.old.store) ≡ Some files
            → told_files (S.disk self.new.store) ≡ Some now
            → IsSome (files (Commit s)) → IsWholeOrGivenUp keep s files now }
        ensures each { (files : Files) (s : ℕ) → told_files (S.disk self.old.store) ≡ Some files
            → IsSome (files (Commit s)) → IsKeptIn s files (MayHold (S.disk self.old.store))
            → LeavesOnly (S.disk self.old.store) (S.disk self.new.store)
            (IsWholeOrGivenUp keep s files) }
        // Once it is acknowledged no image has one that was given up, and none that is gone comes back.
        ensures gone { (files : Files) (s : ℕ) → told_files (S.disk self.old.store) ≡ Some files
            → IsSome (files (Commit s)) → IsGivenUp keep files s
            → OnOk result (IsGoneFrom s (MayHold (S.disk self.new.store))) }
        ensures none { (s : ℕ) → IsGoneFrom s (MayHold (S.disk self.old.store))
            → LeavesOnly (S.disk self.old.store) (S.disk self.new.store) (λ d. d (Commit s) ≡ None) }
        // The writer can go on from what is left, after an error too.
        ensures goes_on { (files : Files) (now : Files)
            → told_files (S.disk self.old.store) ≡ Some files
            → told_files (S.disk self.new.store) ≡ Some now
            → GoesOn files self.old.state → StandsOnLast files self.old.state
            → GoesOn now self.new.state × StandsOnLast now self.new.state }
        ensures damaged { (damaged : Damaged) → result ≡ Err (PruneFault.Damaged damaged)
            → (s : ℕ) × IsBrokenCommit (told_files (S.disk self.old.store)) s damaged }
        ensures staying { (files : Files) (damaged : Damaged)
            → told_files (S.disk self.old.store) ≡ Some files
            → result ≡ Err (PruneFault.Damaged damaged) → BreaksStaying keep files damaged }
        ensures untouched { (damaged : Damaged) → result ≡ Err (PruneFault.Damaged damaged)
            → S.disk self.new.store ≡ S.disk self.old.store }
        ensures whole { (files : Files) (damaged : Damaged)
            → told_files (S.disk self.old.store) ≡ Some files → AreWhole keep files
            → result ≡ Err (PruneFault.Damaged damaged) → ⊥ }
        ensures closed { (result ≡ Err PruneFault.Closed) ↔ IsTrue self.old.state.closed }
        ensures same { IsTrue self.old.state.closed → self.new ≡ self.old }
        ensures closes { IsTrue self.new.state.closed
            ↔ (IsTrue self.old.state.closed ⊎ (result ≡ Err PruneFault.Store)) }
        ensures later { S.fault_count self.old.store ≤ S.fault_count self.new.store }
        ensures failed { result ≡ Err PruneFault.Store
            → Rose (S.fault_count self.old.store) (S.fault_count self.new.store) }
    {
        if self.state.closed {
            return Err(PruneFault::Closed);
        }
        match prune(self.alloc, &mut self.store, keep) {
            Ok(count) => Ok(count),
            Err(PruningFault::Store) => {
                self.state.closed = true;
                Err(PruneFault::Store)
            }
            Err(PruningFault::Damaged(damaged)) => Err(PruneFault::Damaged(damaged)),
            Err(PruningFault::NoMemory) => Err(PruneFault::NoMemory),
        }
    }

    /// Reads a commit of the writer's store. The writer and the store stay as they are, whatever is
    /// returned. It returns `NoSuch` where the store's list lacks the number.
    pub fn opened(&mut self, number: u64) -> Result<Opened, OpenFault>
        ensures state { self.new.state ≡ self.old.state }
        ensures number { IfOk result (λ opened. opened.number ≡ number) }
        // What is read is what the files spell.
        ensures found { IfOk result (λ opened. (files : Files)
            × Was (told_files (S.disk self.old.store)) files
            × HasSegments files number opened.next_id opened.entries opened.segments) }
        // What the files spell is read, unless the store fails or memory runs out.
        ensures only { (files : Files) (next : ℕ) (entries : ListOf HeadSegment)
            (segments : ListOf Lived) → told_files (S.disk self.old.store) ≡ Some files
            → HasSegments files number next entries segments
            → IfOk result (λ opened.
            opened ≡ record {
              number = number;
              next_id = next;
              entries = entries;
              segments = segments;
            }) }
        ensures whole { (files : Files) (next : ℕ) (entries : ListOf HeadSegment)
            (segments : ListOf Lived) → told_files (S.disk self.old.store) ≡ Some files
            → HasSegments files number next entries segments → IfErr result IsOutside }
        // Which place is the first broken one.
        ensures damaged { (damaged : Damaged) → result ≡ Err (OpenFault.Damaged damaged)
            → (files : Files) × Was (told_files (S.disk self.old.store)) files
            × (reading files number ≡ Err damaged) }
        // Where there is no such commit, this is said, and nowhere else.
        ensures no_such { TellsNone (told_files (S.disk self.old.store)) number result }
        ensures reads { S.disk self.new.store ≡ S.disk self.old.store }
        ensures later { S.fault_count self.old.store ≤ S.fault_count self.new.store }
        ensures failed { result ≡ Err OpenFault.Store
            → Rose (S.fault_count self.old.store) (S.fault_count self.new.store) }
    {
        open_commit(self.alloc, &mut self.store, number)
    }
}
