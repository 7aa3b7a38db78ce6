//! Queries as texts.
use ix_base::{Query, Term};
use std::fmt::Write;
use std::test::Fail;

/// Appends a term: `body:fox`.
pub fn show_term(out: &mut String, term: &Term) -> Result<(), Fail> {
    let field = term.field.as_str();
    let bytes = term.bytes.as_str();
    write!(out, "{field}:{bytes}")?;
    Ok(())
}

/// Appends a query that is nested at most so deep, and fails where it is nested deeper: `all`, a term,
/// `body~a b` for a phrase, `n:1..9` for a range, and of a `bool` the queries of each of its three
/// lists, behind `+`, `|` and `-`.
pub fn show_query(out: &mut String, query: &Query, depth: u32) -> Result<(), Fail> {
    match query {
        Query::All => out.push_str("all")?,
        Query::Term(term) => show_term(out, term)?,
        Query::Phrase(field, text) => {
            let field = field.as_str();
            let text = text.as_text().as_str();
            write!(out, "{field}~{text}")?;
        }
        Query::Range(name, low, high) => {
            let name = name.as_str();
            write!(out, "{name}:{low}..{high}")?;
        }
        Query::Bool {
            must,
            should,
            must_not,
        } => {
            let depth = depth.checked_sub(1).ok_or("too deep")?;
            for (mark, queries) in [("+", must), ("|", should), ("-", must_not)] {
                out.push_str(mark)?;
                for query in queries.as_slice() {
                    out.push_str("(")?;
                    show_query(out, query, depth)?;
                    out.push_str(")")?;
                }
            }
        }
    }
    Ok(())
}
