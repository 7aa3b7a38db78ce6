//! What a crash leaves of a file, by the list of steps.
ghost use Rattle.std.specs.Prelude.{◌≡◌, ◌∷◌, ◌/◌, List as ListOf, ℕ, Option, None, Some, length, reverse, take, option_and_then};
ghost use Rattle.std.specs.Option.{option_copied};
ghost use Rattle.ix_outside.specs.Disk.{moved};
ghost use Rattle.ix_memory.specs.History.{bytes_left, files_left};
ghost use Rattle.ix_memory.specs.Left.{Goes};
ghost use Rattle.ix_outside.specs.declared.step.Step.{Step as StepOf};

use crate::names::is_same;
use crate::outcome::{BytesLeft, StepsLeft};
use ix_base::{FileName, List};
use ix_outside::Step;

/// Where the search for a file's bytes goes from a step.
pub enum Found<'a> {
    /// These are its bytes.
    Bytes(&'a [u8]),
    /// There is no such file.
    Absent,
    /// As the steps before have left the file of this name, with this outcome.
    Before(StepsLeft, BytesLeft, FileName),
}

/// The bytes of the file that a crash of this outcome leaves after these steps, of which the newest
/// comes last, or `None` where it leaves no such file.
pub fn left_of(
    made: &[Step],
    mut steps: StepsLeft,
    mut bytes: BytesLeft,
    mut name: FileName,
) -> Option<&[u8]>
    ensures { option_copied result ≡ files_left steps bytes (reverse made.now) name }
{
    let mut count = made.len();
    while count > 0 {
        count -= 1;
        match look(&made[count], count, steps, bytes, name) {
            Found::Bytes(found) => return Some(found),
            Found::Absent => return None,
            Found::Before(next_steps, next_bytes, next_name) => {
                steps = next_steps;
                bytes = next_bytes;
                name = next_name;
            }
        }
    }
    None
}

/// Looks at one step, with so many steps before it.
fn look(step: &Step, before: usize, steps: StepsLeft, bytes: BytesLeft, name: FileName) -> Found<'_>
    ensures { (older : ListOf StepOf) → length older ≡ before
        → Goes older (files_left steps bytes (step.now ∷ older) name) result }
{
    match step {
        Step::Wrote(at, written) if is_same(name, *at) => look_written(written.as_slice(), bytes),
        Step::Synced(at) if is_same(name, *at) => {
            Found::Before(StepsLeft::Every, BytesLeft::Whole, name)
        }
        Step::Renamed(from, to) if steps.leaves(before) => {
            look_renamed(*from, *to, steps, bytes, name)
        }
        Step::Deleted(at) if steps.leaves(before) && is_same(name, *at) => Found::Absent,
        Step::Settled => Found::Before(StepsLeft::Every, bytes, name),
        Step::Spoilt(at, found) if is_same(name, *at) => look_spoilt(found, bytes),
        _ => Found::Before(steps, bytes, name),
    }
}

/// What is left of bytes that were written.
fn look_written(written: &[u8], bytes: BytesLeft) -> Found<'_>
    ensures { (older : ListOf StepOf) → Goes older (bytes_left bytes written.now) result }
{
    match bytes {
        BytesLeft::Whole => Found::Bytes(written),
        BytesLeft::Absent => Found::Absent,
        BytesLeft::Empty => Found::Bytes(&[]),
        BytesLeft::Half => Found::Bytes(&written[..written.len() / 2]),
    }
}

/// What is left of a file that a failed call left like this.
fn look_spoilt(found: &Option<List<u8>>, bytes: BytesLeft) -> Found<'_>
    ensures { (older : ListOf StepOf)
        → Goes older (option_and_then (bytes_left bytes) found.now) result }
{
    match found {
        Some(written) => look_written(written.as_slice(), bytes),
        None => Found::Absent,
    }
}

/// Where the search goes from a rename.
fn look_renamed<'a>(
    from: FileName,
    to: FileName,
    steps: StepsLeft,
    bytes: BytesLeft,
    name: FileName,
) -> Found<'a>
    ensures { (older : ListOf StepOf)
        → Goes older (moved from to None (files_left steps bytes older) name) result }
{
    if is_same(from, to) {
        Found::Before(steps, bytes, name)
    } else if is_same(name, from) {
        Found::Absent
    } else if is_same(name, to) {
        Found::Before(steps, bytes, from)
    } else {
        Found::Before(steps, bytes, name)
    }
}
