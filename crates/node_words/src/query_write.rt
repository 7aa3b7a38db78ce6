//! A query as bytes.
ghost use Rattle.std.specs.Prelude.{◌≡◌, ◌≤◌, ◌++◌, length, OnOk};
ghost use Rattle.ix_base.specs.Entry.{most_query_bytes};
ghost use Rattle.ix_base.specs.Query.{tree_of};
ghost use Rattle.ix_base.specs.QueryBytes.{query_bytes, list_bytes, IsQuery, IsQueryList};

use crate::write::put_term;
use ix_base::codec::{put_i64, put_name, put_text, put_u32};
use ix_base::{NoMemory, Queries, Query};

/// Appends a query.
#[cycle(put_query)]
pub(crate) fn put_query(out: &mut Vec<u8>, query: &Query) -> Result<(), NoMemory>
    requires { length (query_bytes (tree_of query.now)) ≤ most_query_bytes }
    ensures bytes { OnOk result (out.new.items ≡ out.old.items ++ query_bytes (tree_of query.now)) }
    ensures query { OnOk result (IsQuery (tree_of query.now)) }
{
    match query {
        Query::All => out.push(0)?,
        Query::Term(term) => {
            out.push(1)?;
            put_term(out, term)?;
        }
        Query::Phrase(field, text) => {
            out.push(2)?;
            put_name(out, field)?;
            put_text(out, text.as_text().as_str())?;
        }
        Query::Range(name, low, high) => {
            out.push(4)?;
            put_name(out, name)?;
            put_i64(out, *low)?;
            put_i64(out, *high)?;
        }
        Query::Bool {
            must,
            should,
            must_not,
        } => {
            out.push(3)?;
            put_list(out, must)?;
            put_list(out, should)?;
            put_list(out, must_not)?;
        }
    }
    Ok(())
}

/// Appends a list of queries: their count as four bytes, and each query.
#[cycle(put_query)]
fn put_list(out: &mut Vec<u8>, queries: &Queries) -> Result<(), NoMemory>
    requires { length (list_bytes queries.now) ≤ most_query_bytes }
    ensures bytes { OnOk result (out.new.items ≡ out.old.items ++ list_bytes queries.now) }
    ensures queries { OnOk result (IsQueryList queries.now) }
{
    let items = queries.as_slice();
    put_u32(out, items.len() as u32)?;
    for query in items {
        put_query(out, query)?;
    }
    Ok(())
}
