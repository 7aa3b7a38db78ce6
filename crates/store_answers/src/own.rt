//! The hits of a commit's rows that were born after an earlier commit.
ghost use Rattle.std.specs.Prelude.{◌≡◌, ◌≤◌, ◌<◌, ◌-◌, ◌^◌, ℕ, List, drop, length, map, min, Err, IfErr, IfOk, Some};
ghost use Rattle.ix_base.specs.Hits.{hit_of};
ghost use Rattle.ix_base.specs.declared.damaged.Damaged.{Damaged};
ghost use Rattle.ix_base.specs.declared.document.Row.{Row};
ghost use Rattle.ix_outside.specs.Causes.{Rose};
ghost use Rattle.ix_outside.specs.Disk.{told_files};
ghost use Rattle.ix_outside.specs.Files.{Files};
ghost use Rattle.segment_core.specs.LiveRows.{all_live, live};
ghost use Rattle.commit_point.specs.Holds.{Holds, HoldsInverted};
ghost use Rattle.commit_point.specs.Loading.{IsOutside};
ghost use Rattle.report_text.specs.Born.{born_after};
ghost use Rattle.searcher.specs.Searching.{IsDamagedIn, Searches};
ghost use Rattle.store_answers.specs.Own.{born_up_to};

use commit_point::OpenFault;
use ix_base::{Hit, NoMemory, Query};
use ix_outside::Store;
use searcher::Searcher;
use segment_core::LiveSegment;
use std::alloc::Global;

/// How many live rows of a segment were added by operations numbered up to this one.
fn earlier_in(segment: &LiveSegment, base: u64) -> usize
    ensures { result ≡ born_up_to base (live segment.now) }
{
    let live = segment.live();
    let rows = segment.segment().rows.as_slice();
    let mut count = 0;
    for (place, row) in rows.iter().enumerate() {
        if row.birth.number() <= base && live.is_live(place as u32) {
            count += 1;
        }
    }
    count
}

/// How many live rows of segments were added by operations numbered up to this one, or 2^64 - 1 where
/// they are more.
fn earlier(segments: &[LiveSegment], base: u64) -> usize
    ensures { result ≡ min (born_up_to base (all_live segments.now)) (2 ^ 64 - 1) }
{
    let mut count = 0usize;
    for segment in segments {
        count = count.saturating_add(earlier_in(segment, base));
    }
    count
}

/// The hits behind so many first ones.
fn behind(mut hits: Vec<Hit>, count: usize) -> Result<Vec<Hit>, NoMemory>
    ensures left { IfOk result (λ left. left.items ≡ drop count hits.items) }
    ensures few { length hits.items < 2 ^ 64 }
{
    let first = count.min(hits.len());
    Ok(hits.split_off(first)?)
}

/// The hits of the rows that operations numbered above this one added, by birth.
fn later_hits(alloc: Global, searcher: &Searcher, base: u64) -> Result<Vec<Hit>, NoMemory>
    ensures { IfOk result (λ hits. (rows : List Row) → Searches searcher.now.segments rows
        → hits.items ≡ map hit_of (born_after base rows)) }
{
    let hits = searcher.hits(alloc, &Query::All)?;
    let count = earlier(searcher.segments.as_slice(), base);
    behind(hits, count)
}

/// The hits of the commit's rows that operations numbered above this one added, by birth: where it is
/// the number of an earlier commit, of the rows that were added since then. The commit is one that a
/// list has shown. The store is as before, whatever is returned.
///
/// - `Damaged` names the first broken place of the commit. A commit file that is gone since it was
///   listed is damaged at 0.
/// - `Store` comes only where the store's count of faults rose.
pub fn own_hits<S: Store>(
    alloc: Global,
    store: &mut S,
    commit: u64,
    base: u64,
) -> Result<Vec<Hit>, OpenFault>
    ensures hits { (files : Files) (next : ℕ) (rows : List Row)
        → told_files (S.disk store.old) ≡ Some files → HoldsInverted files commit next rows
        → IfOk result (λ hits. hits.items ≡ map hit_of (born_after base rows)) }
    ensures whole { (files : Files) (next : ℕ) (rows : List Row)
        → told_files (S.disk store.old) ≡ Some files → Holds files commit next rows
        → IfErr result IsOutside }
    // A damaged commit is said to be, by its first broken place.
    ensures damaged { (damaged : Damaged) → result ≡ Err (OpenFault.Damaged damaged)
        → IsDamagedIn (told_files (S.disk store.old)) commit damaged }
    ensures listed { (other : ℕ) → result ≡ Err (OpenFault.NoSuch other) → ⊥ }
    ensures reads { S.disk store.new ≡ S.disk store.old }
    ensures later { S.fault_count store.old ≤ S.fault_count store.new }
    ensures failed { result ≡ Err OpenFault.Store
        → Rose (S.fault_count store.old) (S.fault_count store.new) }
{
    match Searcher::open_listed(alloc, store, commit) {
        Ok(searcher) => match later_hits(alloc, &searcher, base) {
            Ok(hits) => Ok(hits),
            Err(NoMemory) => Err(OpenFault::NoMemory),
        },
        Err(fault) => Err(fault),
    }
}
