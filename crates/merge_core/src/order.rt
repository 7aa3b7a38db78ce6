//! The live rows of sources, by birth.
ghost use Rattle.std.specs.Prelude.{◌≡◌, ◌+◌, ◌<◌, ℕ, [], All, length, replicate, set, slice_get, slice_index, IfOk, OnOk};
ghost use Rattle.std.specs.List.{filter_map};
ghost use Rattle.std.specs.Option.{option_map};
ghost use Rattle.merge_core.specs.Merging.{CanMerge};
ghost use Rattle.merge_core.specs.Reading.{AreLive, HasSeen};
ghost use Rattle.merge_core.specs.Carrying.{CanTake, TakesNext, ReadOne};
ghost use Rattle.merge_core.specs.Choosing.{AreBirths};

use crate::next_row::{birth_at, first_births, next_source, source_at};
use crate::origin::Origin;
use ix_base::{Birth, NoMemory};
use segment_core::LiveSegment;
use std::alloc::Global;

/// The rows of sources that were found to be live, by birth, and which row of each source comes next.
#[derive(Drop)]
pub(crate) struct Order {
    next: Vec<u32>,
    /// The birth of that row, if one is left.
    births: Vec<Option<Birth>>,
    origins: Vec<Origin>,
}

impl Order {
    /// No row of sources whose first rows have these births was looked at yet.
    fn start(alloc: Global, births: Vec<Option<Birth>>) -> Result<Order, NoMemory>
        ensures next { IfOk result (λ order. order.next.items ≡ replicate (length births.items) 0) }
        ensures births { IfOk result (λ order. order.births.items ≡ births.items) }
        ensures origins { IfOk result (λ order. order.origins.items ≡ []) }
    {
        let next = vec![in alloc; 0; births.len()]?;
        Ok(Order {
            next,
            births,
            origins: Vec::new(alloc),
        })
    }

    /// Looks at the next row of the source at this place, which is this segment.
    fn take_row(&mut self, segment: &LiveSegment, source: usize) -> Result<(), NoMemory>
        requires take { CanTake self.old segment.now source }
        requires births { length self.old.births.items ≡ length self.old.next.items }
        ensures takes { OnOk result (TakesNext self.old self.new segment.now source) }
        ensures births { let row = slice_index self.old.next.items source + 1 in
            let birth = option_map (λ r. r.birth) (slice_get segment.now.segment.rows row) in
            OnOk result (self.new.births.items ≡ set self.old.births.items source birth) }
    {
        let row = self.next[source];
        if segment.live().is_live(row) {
            self.origins.push(Origin { source, row })?;
        }
        self.next[source] = row + 1;
        self.births[source] = birth_at(segment, row + 1);
        Ok(())
    }

    /// Looks at the row that is next by birth, and returns whether there was one.
    fn take_next(&mut self, segments: &[LiveSegment], places: &[usize]) -> Result<bool, NoMemory>
        requires places { All (λ place. place < length segments.now) places.now }
        requires seen { let sources = filter_map (slice_get segments.now) places.now in
            (count : ℕ) × HasSeen self.old sources count }
        requires births { let sources = filter_map (slice_get segments.now) places.now in
            AreBirths sources self.old.next.items self.old.births.items }
        ensures one { let sources = filter_map (slice_get segments.now) places.now in (count : ℕ)
            → HasSeen self.old sources count → IfOk result (ReadOne self.new sources count) }
        ensures births { let sources = filter_map (slice_get segments.now) places.now in
            OnOk result (AreBirths sources self.new.next.items self.new.births.items) }
    {
        match next_source(self.births.as_slice()) {
            None => Ok(false),
            Some(source) => {
                self.take_row(source_at(segments, places, source), source)?;
                Ok(true)
            }
        }
    }
}

/// Where the live rows of the sources stand, by birth.
pub(crate) fn live_origins(
    alloc: Global,
    segments: &[LiveSegment],
    places: &[usize],
) -> Result<Vec<Origin>, NoMemory>
    requires places { All (λ place. place < length segments.now) places.now }
    requires can { CanMerge (filter_map (slice_get segments.now) places.now) }
    ensures { let sources = filter_map (slice_get segments.now) places.now in
        IfOk result (λ origins. AreLive origins.items sources) }
{
    let births = first_births(alloc, segments, places)?;
    let mut order = Order::start(alloc, births)?;
    'rows: loop {
        if !order.take_next(segments, places)? {
            let Order { origins, .. } = order;
            return Ok(origins);
        }
    }
}
