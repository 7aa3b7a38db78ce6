//! A searcher: the segments of one commit.
ghost use Rattle.std.specs.Prelude.{◌≡◌, ◌≤◌, ℕ, List, [], Some, Err, IfOk, IfErr};
ghost use Rattle.ix_base.specs.Hits.{hits};
ghost use Rattle.ix_base.specs.declared.damaged.Damaged.{Damaged};
ghost use Rattle.ix_base.specs.declared.document.Row.{Row};
ghost use Rattle.ix_outside.specs.Causes.{Rose};
ghost use Rattle.ix_outside.specs.Disk.{told_files};
ghost use Rattle.ix_outside.specs.Files.{Files};
ghost use Rattle.commit_point.specs.Holds.{HasSegments, Holds, HoldsInverted};
ghost use Rattle.commit_point.specs.Loading.{IsOutside, TellsNone};
ghost use Rattle.searcher.specs.Searching.{Searches, IsDamagedIn};

use crate::found::{found_in, hits_by_birth};
use commit_point::{OpenFault, Opened, open_commit, read_commit};
use ix_base::{Hit, List, NoMemory, Query};
use ix_outside::Store;
use segment_core::LiveSegment;
use std::alloc::Global;
use std::mem;

/// The segments of a commit, to be searched any number of times.
#[derive(Drop)]
pub struct Searcher {
    pub segments: List<LiveSegment>,
}

fn prepare_all(alloc: Global, segments: &mut [LiveSegment], query: &Query) -> Result<(), NoMemory>
    ensures { segments.new ≡ segments.old }
{
    for at in 0..segments.len() {
        segments[at].prepare(alloc, query)?;
    }
    Ok(())
}

impl Searcher {
    /// A searcher of no commit, which finds nothing. It takes no memory.
    pub fn none(alloc: Global) -> Searcher
        ensures { Searches result.segments [] }
    {
        Searcher {
            segments: List::new(alloc),
        }
    }

    /// The searcher of a commit that was read. It takes no memory.
    pub fn of(opened: Opened) -> Searcher
        // Where files spell these segments, and hold these rows, they are searched.
        ensures rows { (files : Files) (number : ℕ) (next : ℕ) (rows : List Row)
            → HoldsInverted files number next rows
            → HasSegments files number opened.next_id opened.entries opened.segments
            → Searches result.segments rows }
        ensures segments { result.segments ≡ opened.segments }
    {
        Searcher {
            segments: opened.segments,
        }
    }

    /// Opens the commit of this number. It returns `NoSuch` exactly where the store's list lacks the
    /// number. The store is as before, whatever is returned.
    pub fn open<S: Store>(alloc: Global, store: &mut S, number: u64) -> Result<Searcher, OpenFault>
        ensures rows { (files : Files) (next : ℕ) (rows : List Row)
            → told_files (S.disk store.old) ≡ Some files → HoldsInverted files number next rows
            → IfOk result (λ searcher. Searches searcher.segments rows) }
        ensures whole { (files : Files) (next : ℕ) (rows : List Row)
            → told_files (S.disk store.old) ≡ Some files → Holds files number next rows
            → IfErr result IsOutside }
        // Which place is the first broken one.
        ensures damaged { (damaged : Damaged) → result ≡ Err (OpenFault.Damaged damaged)
            → IsDamagedIn (told_files (S.disk store.old)) number damaged }
        // Where there is no such commit, this is said, and nowhere else.
        ensures no_such { TellsNone (told_files (S.disk store.old)) number result }
        ensures reads { S.disk store.new ≡ S.disk store.old }
        ensures later { S.fault_count store.old ≤ S.fault_count store.new }
        ensures failed { result ≡ Err OpenFault.Store
            → Rose (S.fault_count store.old) (S.fault_count store.new) }
    {
        match open_commit(alloc, store, number) {
            Ok(opened) => Ok(Searcher::of(opened)),
            Err(fault) => Err(fault),
        }
    }

    /// Opens the commit of this number, which a list has shown. A commit file that is gone since then
    /// is damaged at 0. The store is as before, whatever is returned.
    pub fn open_listed<S: Store>(
        alloc: Global,
        store: &mut S,
        number: u64,
    ) -> Result<Searcher, OpenFault>
        ensures rows { (files : Files) (next : ℕ) (rows : List Row)
            → told_files (S.disk store.old) ≡ Some files → HoldsInverted files number next rows
            → IfOk result (λ searcher. Searches searcher.segments rows) }
        ensures whole { (files : Files) (next : ℕ) (rows : List Row)
            → told_files (S.disk store.old) ≡ Some files → Holds files number next rows
            → IfErr result IsOutside }
        // Which place is the first broken one.
        ensures damaged { (damaged : Damaged) → result ≡ Err (OpenFault.Damaged damaged)
            → IsDamagedIn (told_files (S.disk store.old)) number damaged }
        ensures listed { (other : ℕ) → result ≡ Err (OpenFault.NoSuch other) → ⊥ }
        ensures reads { S.disk store.new ≡ S.disk store.old }
        ensures later { S.fault_count store.old ≤ S.fault_count store.new }
        ensures failed { result ≡ Err OpenFault.Store
            → Rose (S.fault_count store.old) (S.fault_count store.new) }
    {
        match read_commit(alloc, store, number) {
            Ok(opened) => Ok(Searcher::of(opened)),
            Err(fault) => Err(fault),
        }
    }

    /// Makes ready for a query with ranges: the numbers of the rows are gathered, by each name of which
    /// it has one, and serve all queries to come. Without this a range looks at each row. The searcher
    /// finds the same as before, whatever is returned.
    pub fn prepare(&mut self, alloc: Global, query: &Query) -> Result<(), NoMemory>
        ensures { self.new ≡ self.old }
    {
        if !query.has_range() {
            return Ok(());
        }
        let mut segments = mem::replace(&mut self.segments, List::new(alloc)).into_vec();
        let prepared = prepare_all(alloc, segments.as_mut_slice(), query);
        self.segments = List::from_vec(segments);
        prepared
    }

    /// What matches a query, in order of birth: of each such row its key and its numbers. Where each
    /// segment's postings are the inversion of its rows, these are the hits among the commit's rows.
    pub fn hits(&self, alloc: Global, query: &Query) -> Result<Vec<Hit>, NoMemory>
        ensures { IfOk result (λ found. (rows : List Row) → Searches self.now.segments rows
            → found.items ≡ hits query.now rows) }
    {
        hits_by_birth(alloc, found_in(alloc, query, self.segments.as_slice())?)
    }
}
