//! How many bytes a query has.
ghost use Rattle.std.specs.Prelude.{◌≡◌, ◌+◌, ◌-◌, ◌^◌, ◌<◌, min, length};
ghost use Rattle.ix_base.specs.Query.{tree_of};
ghost use Rattle.ix_base.specs.QueryBytes.{list_bytes};
ghost use Rattle.ix_base.specs.Refusals.{query_size};

use ix_base::{Name, Queries, Query};

/// The number of bytes of an encoded query, or `u64::MAX` where it is more. No memory is taken.
#[cycle(query_size)]
pub(crate) fn query_size(query: &Query) -> u64
    ensures { result ≡ query_size (tree_of query.now) }
{
    match query {
        Query::All => 1,
        Query::Term(term) => pair_size(&term.field, term.bytes.as_str()),
        Query::Phrase(field, text) => pair_size(field, text.as_text().as_str()),
        Query::Range(name, _, _) => range_size(name),
        Query::Bool {
            must,
            should,
            must_not,
        } => list_size(must)
            .saturating_add(list_size(should))
            .saturating_add(list_size(must_not))
            .saturating_add(1),
    }
}

/// The number of bytes of a byte, a name and a text.
fn pair_size(field: &Name, text: &str) -> u64
    requires { length text.now < 2 ^ 32 }
    ensures { result ≡ 9 + length field.now + length text.now }
{
    9 + field.as_str().len() as u64 + text.len() as u64
}

/// The number of bytes of a byte, a name and two bounds.
fn range_size(name: &Name) -> u64
    ensures { result ≡ 21 + length name.now }
{
    21 + name.as_str().len() as u64
}

/// The number of bytes of a list of queries, or `u64::MAX` where it is more.
#[cycle(query_size)]
fn list_size(queries: &Queries) -> u64
    ensures { result ≡ min (length (list_bytes queries.now)) (2 ^ 64 - 1) }
{
    let mut size = 4u64;
    for query in queries.as_slice() {
        size = size.saturating_add(query_size(query));
    }
    size
}
