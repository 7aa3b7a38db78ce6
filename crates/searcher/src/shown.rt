//! The rows of a segment as a search shows them: with the numbers that were set in them.
ghost use Rattle.std.specs.Prelude.{◌≡◌, length, IfOk};
ghost use Rattle.std.specs.Option.{option_map};
ghost use Rattle.searcher.specs.Finding.{found_of, live_at};

use crate::numbers::numbers_with;
use ix_base::{Birth, Hit, NoMemory, Row};
use live_docs::LiveDocs;
use std::alloc::Global;

/// A hit, with the birth of its row.
#[derive(Drop)]
pub struct Found {
    pub birth: Birth,
    pub hit: Hit,
}

/// The row of this number as a search shows it, where it is live.
pub fn shown(
    alloc: Global,
    rows: &[Row],
    live: &LiveDocs,
    number: u32,
) -> Result<Option<Found>, NoMemory>
    requires { length live.now.marks ≡ length rows.now }
    ensures { IfOk result (λ found.
        found ≡ option_map found_of (live_at rows.now live.now.marks number)) }
{
    let Some(row) = rows.get(number as usize) else {
        return Ok(None);
    };
    if !live.is_live(number) {
        return Ok(None);
    }
    let num = numbers_with(alloc, &row.doc.num, live.values(number))?;
    let key = row.doc.key.clone_in(alloc)?;
    Ok(Some(Found {
        birth: row.birth,
        hit: Hit { key, num },
    }))
}
