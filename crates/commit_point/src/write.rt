//! Writing a commit.
ghost use Rattle.std.specs.Prelude.{◌≡◌, ◌≤◌, ◌^◌, ◌↔◌, IsTrue, IsSome, OnOk, OnErr, IfOk, IfErr, Some, None};
ghost use Rattle.std.specs.List.{AllByRecursion};
ghost use Rattle.ix_base.specs.declared.file_name.FileName.TheVariants.{Commit};
ghost use Rattle.ix_outside.specs.Calls.{LeavesOnly};
ghost use Rattle.ix_outside.specs.Crash.{MayHold};
ghost use Rattle.ix_outside.specs.Disk.{Does, Told, told_files};
ghost use Rattle.ix_outside.specs.Files.{Files, Changes};
ghost use Rattle.ix_outside.specs.Images.{Follows, IsDurable, Reaches};
ghost use Rattle.commit_point.specs.Publishing.{BlamesRefusal};
ghost use Rattle.commit_point.specs.Settling.{Settles};
ghost use Rattle.commit_point.specs.Steps.{KeepsMade, OnlyCommits};
ghost use Rattle.commit_point.specs.Writing.{ComesAfter, Commits, MayCommit, SameElsewhere, IsOldId, CanCommit, commit_files, commit_steps, new_head};

use crate::fault::CommitRefused;
use crate::heads::Head;
use crate::prepare::{Prepared, prepare};
use crate::publishing::{not_renamed, publish};
use crate::written::Written;
use ix_base::{Fields, FileName};
use ix_outside::{Store, StoreFault};
use segment_core::LiveSegment;
use std::alloc::Global;

/// Writes these segments as the commit of this number, whose next id this is, and returns what its
/// commit file says: among that, how many live rows it has (`u64::MAX` where there are more) and the commit with which the live docs
/// of each segment were written. The caller's pairs of a name and a text stand in the commit file.
///
/// `written` says of each segment, at the same place, what is on the store of it: `None` where the
/// segment is new. Segments without a live row are left out. For each other one, by rising id, rows
/// and postings are written where it is new, and live bits and set numbers where they differ from
/// those written last. Then the commit file is written under its pending name and renamed. Each file
/// is synced before the next is written, and last the directory.
///
/// After an error every file is as before but those that this commit writes, and the commit isn't
/// there or, where `renamed` is set, is there whole.
pub fn write_commit<S: Store>(
    alloc: Global,
    store: &mut S,
    number: u64,
    next_id: u64,
    pairs: &Fields,
    segments: &[LiveSegment],
    written: &[Option<Written>],
) -> Result<Head, CommitRefused>
    requires some { 1 ≤ number }
    requires some_id { 1 ≤ next_id }
    requires can { CanCommit number next_id segments.now written.now }

    ensures head { IfOk result (λ head.
        head ≡ new_head number next_id pairs.now segments.now written.now) }
    // What the call does, success, error and crash alike. The clauses below read it out.
    ensures steps { Does (commit_steps number next_id pairs.now segments.now written.now)
        (S.disk store.old) (S.disk store.new) result }
    // Each step is one by which commits are made: none deletes. Where the commit comes after those
    // that are there, each commit that stands at some moment of the call stands from then on.
    ensures only { Told OnlyCommits (S.disk store.old) (S.disk store.new) }
    ensures standing { (files : Files) → told_files (S.disk store.old) ≡ Some files
        → ComesAfter files number segments.now written.now
        → Told KeepsMade (S.disk store.old) (S.disk store.new) }
    ensures ok { OnOk result (next_id ≤ 2 ^ 62
        → Changes (Commits number next_id pairs.now segments.now written.now)
        (told_files (S.disk store.old)) (told_files (S.disk store.new))) }
    ensures err { OnErr result (Changes (SameElsewhere number (IsOldId segments.now written.now))
        (told_files (S.disk store.old)) (told_files (S.disk store.new))) }
    // After an error the files have the commit whole, or its commit file is as before.
    ensures left { next_id ≤ 2 ^ 62 → OnErr result
        (Changes (MayCommit number next_id pairs.now segments.now written.now)
        (told_files (S.disk store.old)) (told_files (S.disk store.new))) }

    // Once it is acknowledged, what a crash leaves is what one before the call might have left, with this commit whole.
    ensures acknowledged { next_id ≤ 2 ^ 62 → OnOk result
        (Follows (Commits number next_id pairs.now segments.now written.now)
        (MayHold (S.disk store.old)) (MayHold (S.disk store.new))) }
    // Its files stand as reads give them.
    ensures durable { OnOk result
        (IsDurable (Commit number) (MayHold (S.disk store.new)) (told_files (S.disk store.new))) }
    ensures durable_files { OnOk result (AllByRecursion
        (λ file. IsDurable file.0 (MayHold (S.disk store.new)) (told_files (S.disk store.new)))
        (commit_files number segments.now written.now)) }
    // Commits that were kept before, and this one, are kept in every image.
    ensures settled { next_id ≤ 2 ^ 62 → OnOk result
        (Settles number segments.now written.now (S.disk store.old) (S.disk store.new)) }

    // A crash at any moment of the call leaves the files that it might have left before, with this
    // commit whole or not at all.
    ensures crash { next_id ≤ 2 ^ 62 → LeavesOnly (S.disk store.old) (S.disk store.new)
        (Reaches (MayCommit number next_id pairs.now segments.now written.now)
        (MayHold (S.disk store.old))) }

    // What a crash after the call leaves is what a crash before it might have left, but this commit's own files.
    ensures images { Follows (SameElsewhere number (IsOldId segments.now written.now))
        (MayHold (S.disk store.old)) (MayHold (S.disk store.new)) }

    // Whether the commit is there after memory ran out.
    ensures renamed { (files : Files) (now : Files)
        → told_files (S.disk store.old) ≡ Some files → files (Commit number) ≡ None
        → told_files (S.disk store.new) ≡ Some now
        → IfErr result (λ refused. refused.fault ≡ StoreFault.NoMemory
        → (IsTrue refused.renamed ↔ IsSome (now (Commit number)))) }

    ensures cause { BlamesRefusal (S.fault_count store.old) (S.fault_count store.new) result }
{
    let Prepared { head, bytes, files } = match prepare(
        alloc, number, next_id, pairs, segments, written,
    ) {
        Ok(commit) => commit,
        Err(_) => return Err(not_renamed(StoreFault::NoMemory)),
    };
    let pending = FileName::Pending(number);
    let last = FileName::Commit(number);
    match publish(store, files.as_slice(), pending, last, bytes.as_slice()) {
        Ok(()) => Ok(head),
        Err(refused) => Err(refused),
    }
}
