//! Bytes as a query.
ghost use Rattle.std.specs.Prelude.{◌≤◌, length};
ghost use Rattle.ix_base.specs.Entry.{most_query_bytes};
ghost use Rattle.ix_base.specs.Query.{tree_of};
ghost use Rattle.ix_base.specs.QueryBytes.{query_bytes, list_bytes, IsQuery, IsQueryList};
ghost use Rattle.node_words.specs.Reads.{ReadsAtStart, ReadsAll};

use crate::fault::ReadError;
use crate::parts::{name_from, phrase_from, term_from};
use crate::query_check::check_query;
use crate::reader::Reader;
use ix_base::{Queries, Query};
use std::alloc::Global;

/// The query that the bytes, all of them, spell. They are tested before any memory is taken.
pub(crate) fn read_whole_query(alloc: Global, bytes: &[u8]) -> Result<Query, ReadError>
    requires { length bytes.now ≤ most_query_bytes }
    ensures { ReadsAll tree_of IsQuery query_bytes bytes.now result }
{
    check_query(bytes)?;
    let mut reader = Reader::new(bytes);
    match read_query(alloc, &mut reader) {
        Ok(query) => Ok(query),
        Err(ReadError::Memory) => Err(ReadError::Memory),
        Err(ReadError::Foreign) => unreachable!(),
    }
}

/// The query at the start of the bytes that are left. A query within a query has fewer bytes than it,
/// so the number of bytes bounds how deep the calls go.
#[cycle(read_query)]
fn read_query(alloc: Global, reader: &mut Reader<'_>) -> Result<Query, ReadError>
    requires { length reader.old ≤ most_query_bytes }
    ensures { ReadsAtStart tree_of IsQuery query_bytes reader.old reader.new result }
{
    match reader.byte()? {
        0 => Ok(Query::All),
        1 => {
            let pair = reader.pair()?;
            Ok(Query::Term(term_from(alloc, pair)?))
        }
        2 => {
            let pair = reader.pair()?;
            let (field, text) = phrase_from(alloc, pair)?;
            Ok(Query::Phrase(field, text))
        }
        3 => {
            let must = read_list(alloc, reader)?;
            let should = read_list(alloc, reader)?;
            let must_not = read_list(alloc, reader)?;
            Ok(Query::Bool {
                must,
                should,
                must_not,
            })
        }
        4 => {
            let parts = reader.range()?;
            let name = name_from(alloc, parts.name)?;
            Ok(Query::Range(name, parts.low, parts.high))
        }
        _ => Err(ReadError::Foreign),
    }
}

/// The list of queries at the start of the bytes that are left.
#[cycle(read_query)]
fn read_list(alloc: Global, reader: &mut Reader<'_>) -> Result<Queries, ReadError>
    requires { length reader.old ≤ most_query_bytes }
    ensures { ReadsAtStart (λ found. found) IsQueryList list_bytes reader.old reader.new result }
{
    let count = reader.number()?;
    let mut items = Vec::new(alloc);
    for _ in 0..count {
        items.push(read_query(alloc, reader)?)?;
    }
    Ok(Queries::from_vec(items))
}
