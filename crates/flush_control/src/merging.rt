//! Merges of the segments of an index, in steps.
ghost use Rattle.std.specs.Prelude.{◌≡◌, ◌<◌, ◌≤◌, ◌^◌, ℕ, [], List as ListOf, None, Some, length};
ghost use Rattle.std.specs.Prelude.{IfOk, IfSome, MatchOption, OnErr, vec_capacity};
ghost use Rattle.segment_core.specs.LiveRows.{Lived};
ghost use Rattle.merge_core.specs.Merging.{row_count};
ghost use Rattle.merge_core.specs.Picking.{HasNoPick};
ghost use Rattle.flush_control.specs.Merging.{Advanced, IsBegunBy, IsEnd, IsTaken, PicksStart, Runs};
ghost use Rattle.flush_control.specs.Merging.{SameSegments, StillRuns, Turns, replaced, without};
ghost use Rattle.flush_control.specs.Published.{IsPublished};

use crate::published::Published;
use crate::released::Released;
use ix_base::{List, NoMemory};
use merge_core::{Merge, Step, is_one_of, pick};
use segment_core::LiveSegment;
use std::alloc::Global;
use std::mem;

/// For each row that a step reads, so many rows of the segments that merges replaced are let go.
const LET_GO: usize = 2;

/// What a merge turn did.
#[derive(Clone, Copy, Debug, PartialEq, Eq)]
pub enum MergeTurn {
    /// Nothing: no merge runs, and there are fewer segments than are to be merged, too many rows of
    /// them are live, or one file has no room for the rows, or for the postings, of all of them.
    Idle,
    /// A merge runs on: more rows of its sources were read, and some are left.
    Stepped,
    /// Segments were replaced by the one that they are merged into.
    Merged,
}

/// A merge of the m segments with the fewest live rows, of which nothing was read yet: `None`
/// exactly where there is no such merge.
fn started(alloc: Global, segments: &[LiveSegment], m: u32) -> Result<Option<Merge>, NoMemory>
    requires m { m ≤ 64 }
    requires can { PicksStart m segments.now }
    ensures { IfOk result (λ found. MatchOption found (HasNoPick m segments.now)
        (λ merge. IsBegunBy m segments.now merge)) }
{
    let Some(ids) = pick(alloc, segments, m)? else {
        return Ok(None);
    };
    let merge = Merge::start(alloc, segments, ids)?;
    Ok(Some(merge))
}

impl Published {
    /// Takes a step of the merge that runs: it reads `rows` more rows of its sources, or all that
    /// are left. Where none runs, one of the m segments with the fewest live rows is begun, ties by
    /// smaller id, m being 2 to 64. Once all rows were read, the segment that the sources are merged
    /// into takes the next id and stands last, in their place; where no row of them is live there is
    /// none, and no id is taken. `Idle` comes exactly where no merge runs and there are fewer than m
    /// segments, those have 2^31 live rows or more together, or one file has no room for the rows,
    /// or for the postings, of all of them; nothing changes then. After an error the segments are as
    /// before; a merge that ran still runs, and has read at most `rows` rows more. The memory of the
    /// segments that were replaced is given back in the turns that follow, twice as many rows in each
    /// as it may read.
    pub fn merge_turn(&mut self, alloc: Global, m: u32, rows: u32) -> Result<MergeTurn, NoMemory>
        requires m { (2 ≤ m) × (m ≤ 64) }
        requires rows { 1 ≤ rows }
        requires published { IsPublished self.old }
        requires room { self.old.next_id ≤ 2 ^ 63 }
        ensures turn { IfOk result (λ turn. Turns m rows self.old turn self.new) }
        ensures err { OnErr result (SameSegments self.old self.new) }
        ensures kept { OnErr result
            (IfSome self.old.merge (λ run. StillRuns rows self.old run self.new)) }
    {
        self.gone.let_go(LET_GO * rows as usize);
        self.turn(alloc, m, rows)
    }

    /// Takes a step of the merge that runs, or of one that is begun.
    fn turn(&mut self, alloc: Global, m: u32, rows: u32) -> Result<MergeTurn, NoMemory>
        requires m { (2 ≤ m) × (m ≤ 64) }
        requires rows { 1 ≤ rows }
        requires published { IsPublished self.old }
        requires room { self.old.next_id ≤ 2 ^ 63 }
        ensures turn { IfOk result (λ turn. Turns m rows self.old turn self.new) }
        ensures err { OnErr result (SameSegments self.old self.new) }
        ensures kept { OnErr result
            (IfSome self.old.merge (λ run. StillRuns rows self.old run self.new)) }
    {
        match self.begin(alloc, m)? {
            None => Ok(MergeTurn::Idle),
            Some(merge) => {
                let turn = self.advance(alloc, merge, rows)?;
                Ok(turn)
            }
        }
    }

    /// Takes the merge that runs out, or begins one: `None` exactly where none runs and there is
    /// none to begin. After an error all is as before.
    fn begin(&mut self, alloc: Global, m: u32) -> Result<Option<Merge>, NoMemory>
        requires m { m ≤ 64 }
        requires published { IsPublished self.old }
        ensures out { self.new ≡ record self.old { merge = None } }
        ensures taken { IfOk result (λ found. MatchOption found
            ((self.old.merge ≡ None) × HasNoPick m self.old.segments) (IsTaken m self.old)) }
        ensures err { OnErr result (self.new ≡ self.old) }
    {
        match mem::replace(&mut self.merge, None) {
            Some(merge) => Ok(Some(merge)),
            None => started(alloc, self.segments.as_slice(), m),
        }
    }

    /// Takes a step of a merge, which then runs on, or ends it.
    fn advance(&mut self, alloc: Global, merge: Merge, rows: u32) -> Result<MergeTurn, NoMemory>
        requires published { IsPublished self.old }
        requires none { self.old.merge ≡ None }
        requires room { self.old.next_id ≤ 2 ^ 63 }
        requires runs { (sources : ListOf Lived) × (count : ℕ) × Runs self.old merge sources count }
        ensures turn { (sources : ListOf Lived) (count : ℕ) → Runs self.old merge sources count
            → IfOk result (λ turn. Advanced rows self.old merge sources count turn self.new) }
        ensures err { OnErr result (SameSegments self.old self.new) }
        ensures kept { OnErr result (StillRuns rows self.old merge self.new) }
    {
        let mut run = merge;
        match run.step(self.segments.as_slice(), rows) {
            Ok(Step::Ready) => {
                let turn = self.end(alloc, run)?;
                Ok(turn)
            }
            Ok(Step::More) => {
                self.merge = Some(run);
                Ok(MergeTurn::Stepped)
            }
            Err(error) => {
                self.merge = Some(run);
                Err(error)
            }
        }
    }

    /// Ends a merge that has read all rows of its sources: the segment that they are merged into, if
    /// there is one, takes their place. After an error the merge runs on as it is.
    fn end(&mut self, alloc: Global, merge: Merge) -> Result<MergeTurn, NoMemory>
        requires published { IsPublished self.old }
        requires none { self.old.merge ≡ None }
        requires room { self.old.next_id ≤ 2 ^ 63 }
        requires runs { (sources : ListOf Lived) × Runs self.old merge sources (row_count sources) }
        ensures turn { (sources : ListOf Lived) → Runs self.old merge sources (row_count sources)
            → IfOk result (λ turn. (turn ≡ MergeTurn.Merged)
            × IsEnd self.old merge.ids.items sources self.new) }
        ensures err { OnErr result (SameSegments self.old self.new) }
        ensures kept { OnErr result (self.new.merge ≡ Some merge) }
    {
        let Ok(ids) = Vec::from_slice(alloc, merge.ids()) else {
            self.merge = Some(merge);
            return Err(NoMemory);
        };
        let Ok(room) = Vec::with_capacity(alloc, self.segments.as_slice().len() + 1) else {
            self.merge = Some(merge);
            return Err(NoMemory);
        };
        match merge.finish(self.segments.as_slice(), self.next_id) {
            Ok(merged) => {
                let items = mem::replace(&mut self.segments, List::new(alloc)).into_vec();
                self.replace(room, items, ids.as_slice(), merged);
                Ok(MergeTurn::Merged)
            }
            Err(refused) => {
                self.merge = Some(refused.merge);
                Err(NoMemory)
            }
        }
    }

    /// Puts these segments in the place of the published ones, without those with these ids, which are
    /// released; the merged one, if there is one, takes the next id and stands last. There is room for
    /// them.
    fn replace(
        &mut self,
        room: Vec<LiveSegment>,
        items: Vec<LiveSegment>,
        ids: &[u64],
        merged: Option<LiveSegment>,
    )
        requires empty { room.items ≡ [] }
        requires room { length items.items < vec_capacity room }
        requires next_id { self.old.next_id ≤ 2 ^ 63 }
        requires none { self.old.merge ≡ None }
        ensures { self.new ≡ replaced ids.now merged (record self.old { segments = items.items }) }
    {
        let mut left = parted(room, items, ids, &mut self.gone);
        let Some(merged) = merged else {
            self.segments = List::from_vec(left);
            return;
        };
        left.push_reserved(merged);
        self.segments = List::from_vec(left);
        self.next_id += 1;
    }
}

/// Moves the segments that have none of these ids into a list that has room for one more than there are.
/// The others are released.
fn parted(
    mut room: Vec<LiveSegment>,
    items: Vec<LiveSegment>,
    ids: &[u64],
    gone: &mut Released,
) -> Vec<LiveSegment>
    requires empty { room.items ≡ [] }
    requires room { length items.items < vec_capacity room }
    ensures left { result.items ≡ without ids.now items.items }
    ensures more { length result.items < vec_capacity result }
{
    for segment in items {
        if is_one_of(ids, &segment) {
            gone.take(segment);
        } else {
            room.push_reserved(segment);
        }
    }
    room
}
