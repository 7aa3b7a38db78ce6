//! Which files no commit lists.
ghost use Rattle.std.specs.Prelude.{◌≡◌, List, IfOk};
ghost use Rattle.commit_point.specs.declared.heads.HeadSegment.{HeadSegment};
ghost use Rattle.commit_pruning.specs.Choosing.{is_listed, unlisted};
ghost use Rattle.commit_pruning.specs.Naming.{IsNamed};

use crate::named::Named;
use commit_point::HeadSegment;
use ix_base::{FileName, NoMemory};
use std::alloc::Global;

/// Whether the file is one of a segment that is named, or a commit file.
fn is_listed(named: &Named, name: FileName) -> bool
    ensures { (entries : List HeadSegment) → IsNamed entries named.now
        → result ≡ is_listed entries name }
{
    match name {
        FileName::Commit(_) => true,
        FileName::Pending(_) => false,
        FileName::Rows(id) | FileName::Posts(id) => named.has_id(id),
        FileName::Live(id, v) | FileName::Values(id, v) => named.has_written(id, v),
    }
}

/// The pending files and the segment files that no entry names.
pub(crate) fn unlisted(
    alloc: Global,
    entries: &[HeadSegment],
    names: &[FileName],
) -> Result<Vec<FileName>, NoMemory>
    ensures { IfOk result (λ rest. rest.items ≡ unlisted entries.now names.now) }
{
    let named = Named::of(alloc, entries)?;
    let mut rest = Vec::new(alloc);
    for name in names {
        if !is_listed(&named, *name) {
            rest.push(*name)?;
        }
    }
    Ok(rest)
}
