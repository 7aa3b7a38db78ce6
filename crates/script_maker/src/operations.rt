//! The operations of a made script.
ghost use Rattle.std.specs.Prelude.{◌≡◌, codes, pos, IfOk};
ghost use Rattle.script_maker.specs.Operations.{query_of, tag_term, drawn_operation};

use crate::documents::{document_of, key_term, tag_term};
use crate::texts::name_of;
use ix_base::{NoMemory, Operation, Queries, Query};
use std::alloc::Global;

/// The operation of a caller at a draw. The lowest three bits of the draw choose its kind: half of
/// all draws add a document, one in eight each updates, deletes by a term, sets a number or deletes
/// by a query. The bits above them are the number that chooses keys, tags and values.
pub fn drawn_operation(alloc: Global, caller: u8, draw: u32) -> Result<Operation, NoMemory>
    ensures { IfOk result (λ operation. operation ≡ drawn_operation caller draw) }
{
    let number = draw / 8;
    match draw % 8 {
        0..=3 => Ok(Operation::Add(document_of(alloc, caller, number)?)),
        4 => Ok(Operation::Update(
            key_term(alloc, caller, number)?,
            document_of(alloc, caller, number)?,
        )),
        5 => Ok(Operation::DeleteTerm(tag_term(alloc, caller, number)?)),
        6 => set_number(alloc, caller, number),
        _ => Ok(Operation::DeleteQuery(query_of(alloc, caller, number)?)),
    }
}

/// Gives the number `n` this value in the documents that have the tag that it chooses.
fn set_number(alloc: Global, caller: u8, number: u32) -> Result<Operation, NoMemory>
    ensures { IfOk result (λ operation. operation
        ≡ Operation.SetNumber (tag_term caller number) (codes "n") (pos number)) }
{
    let term = tag_term(alloc, caller, number)?;
    let num = name_of(alloc, "n")?;
    let value = i64::from(number);
    Ok(Operation::SetNumber { term, num, value })
}

/// The documents that have the tag and not the key that a number chooses.
fn query_of(alloc: Global, caller: u8, number: u32) -> Result<Query, NoMemory>
    ensures { IfOk result (λ query. query ≡ query_of caller number) }
{
    let tag = Query::Term(tag_term(alloc, caller, number)?);
    let key = Query::Term(key_term(alloc, caller, number)?);
    Ok(Query::Bool {
        must: Queries::from_vec(vec![in alloc; tag]?),
        should: Queries::from_vec(Vec::new(alloc)),
        must_not: Queries::from_vec(vec![in alloc; key]?),
    })
}
