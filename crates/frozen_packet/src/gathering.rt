//! Settings gathered: of those of one name in the documents of one term the last alone is kept, where
//! no delete by a query with a range came between.
ghost use Rattle.std.specs.Prelude.{◌≡◌, ◌≤◌, [], false, length, replicate, IfOk, IsTrue, vec_capacity};
ghost use Rattle.frozen_packet.specs.Gathered.{Replaces, SetsOver, AreReplaced, unmarked};

use crate::updates::{Change, Setting};
use ix_base::NoMemory;
use std::alloc::Global;
use std::collections::HashMap;

/// Whether the later of two settings sets anew whatever the earlier one sets.
fn replaces(later: &Setting, earlier: &Setting) -> bool
    ensures { IsTrue result → Replaces later.now earlier.now }
{
    earlier.number <= later.number
        && later.term.field.as_str() == earlier.term.field.as_str()
        && later.term.bytes.as_str() == earlier.term.bytes.as_str()
        && later.num.as_str() == earlier.num.as_str()
}

/// Whether the later of two changes is a setting that sets anew whatever the earlier one, a setting
/// too, sets.
fn sets_over(later: &Change, earlier: &Change) -> bool
    ensures { IsTrue result → SetsOver later.now earlier.now }
{
    match later {
        Change::Set(later) => match earlier {
            Change::Set(earlier) => replaces(later, earlier),
            Change::Delete(_) => false,
        },
        Change::Delete(_) => false,
    }
}

/// A mark for each change, which says whether it is a setting that one of those behind it replaces.
pub(crate) fn replaced(alloc: Global, changes: &[Change]) -> Result<Vec<bool>, NoMemory>
    ensures long { IfOk result (λ marks. length marks.items ≡ length changes.now) }
    ensures replaced { IfOk result (λ marks. AreReplaced changes.now marks.items) }
{
    let mut marks = Vec::new(alloc);
    marks.resize(changes.len(), false)?;
    let mut last: HashMap<(&str, &str, &str), usize> = HashMap::new(alloc);
    // The place behind the last delete.
    let mut since = 0;
    for place in 0..changes.len() {
        let Change::Set(setting) = &changes[place] else {
            since = place + 1;
            continue;
        };
        let key = (
            setting.term.field.as_str(),
            setting.term.bytes.as_str(),
            setting.num.as_str(),
        );
        if let Some(before) = last.insert(key, place)? {
            if since <= before && before < place && sets_over(&changes[place], &changes[before]) {
                marks[before] = true;
            }
        }
    }
    Ok(marks)
}

/// The changes without a mark, moved into a list that has room for all. It takes no memory.
pub(crate) fn without_marked(
    mut room: Vec<Change>,
    changes: Vec<Change>,
    marks: &[bool],
) -> Vec<Change>
    requires empty { room.items ≡ [] }
    requires room { length changes.items ≤ vec_capacity room }
    requires marks { length marks.now ≡ length changes.items }
    ensures { result.items ≡ unmarked changes.items marks.now }
{
    let mut at = 0;
    for change in changes {
        if !marks[at] {
            room.push_reserved(change);
        }
        at += 1;
    }
    room
}
