//! Documents staged one after another.
ghost use Rattle.std.specs.Prelude.{◌≡◌, ◌≤◌, ◌<◌, ◌+◌, ◌∷◌, ◌++◌, [], length, map, None};
ghost use Rattle.std.specs.Prelude.{IfOk, IfErr, OnOk};
ghost use Rattle.ix_base.specs.Inversion.{IsInversion};
ghost use Rattle.ix_base.specs.Refusals.{document_refusal, block_refusal};
ghost use Rattle.ram_postings.specs.Buffer.{waiting, born_rows};
ghost use Rattle.thread_writer.specs.Answers.{RefusedExactly, told_for};

use analysis::analyse;
use ix_base::{Analysed, Document, Refused};
use ram_postings::{RamPostings, RowId};
use std::alloc::Global;

/// A document with the inversion of it alone, as `analyse` returns it.
fn analysed(alloc: Global, doc: &Document) -> Result<Analysed, Refused>
    ensures doc { IfOk result (λ analysed. analysed.doc ≡ doc.now) }
    ensures inversion { IfOk result (λ analysed. IsInversion (doc.now ∷ []) analysed.postings) }
    ensures fits { IfOk result (λ _. document_refusal doc.now ≡ None) }
    ensures refusal { IfErr result (λ refused. RefusedExactly (told_for refused)
        (document_refusal doc.now)) }
{
    analyse(alloc, doc.clone_in(alloc)?)
}

/// Stages documents, in order, which then wait for their births, and returns the place of the first
/// one. The first one that has a term too long is the refusal. After an error some may be staged, and
/// wait for good.
pub fn stage_all(alloc: Global, rows: &mut RamPostings, docs: &[Document]) -> Result<RowId, Refused>
    requires room { length rows.old + length docs.now < 2147483648 }
    ensures first { IfOk result (λ id. id.0 ≡ length rows.old) }
    ensures ok { OnOk result (rows.new ≡ rows.old ++ map waiting docs.now) }
    ensures fits { OnOk result (block_refusal docs.now ≡ None) }
    ensures refusal { IfErr result (λ refused. RefusedExactly (told_for refused)
        (block_refusal docs.now)) }
    ensures same { born_rows rows.new ≡ born_rows rows.old }
    ensures count { length rows.new ≤ length rows.old + length docs.now }
{
    let first = RowId(rows.rows());
    for doc in docs {
        rows.stage(analysed(alloc, doc)?)?;
    }
    Ok(first)
}
