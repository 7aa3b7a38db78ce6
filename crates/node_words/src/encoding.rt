//! An operation as words.
ghost use Rattle.std.specs.Prelude.{◌≡◌, ◌++◌, IfOk, OnOk, None, MatchResult};
ghost use Rattle.ix_base.specs.Entry.{entry_of, kind_of, entry_bytes, IsEntry};
ghost use Rattle.ix_base.specs.Refusals.{own_refusal, term_refusal, Refuses};
ghost use Rattle.ix_base.specs.Words.{Spells};

use crate::pack::pack;
use crate::query_size::query_size;
use crate::query_write::put_query;
use crate::write::put_term;
use crate::{MOST_QUERY_BYTES, MOST_TERM_BYTES};
use ix_base::codec::{put_i64, put_name};
use ix_base::{NoMemory, Operation, Refusal, Refused, Term};
use std::alloc::Global;

/// The words that spell the operation, without its documents: one head word and the bytes of its
/// fields. A block has the words of the same operation with one document. The operation is refused
/// for `Refusal::Term` exactly where its own term has more than 32,766 bytes, and for
/// `Refusal::Query` exactly where it deletes by a query of more than 131,072 bytes; no memory is
/// taken then. `NoMemory` is returned only where it is not refused.
pub fn encode(alloc: Global, operation: &Operation) -> Result<Vec<u64>, Refused>
    ensures words { IfOk result (λ words. Spells words.items (entry_of operation.now)) }
    ensures refusal { MatchResult result (λ _. own_refusal operation.now ≡ None)
        (λ refused. Refuses refused (own_refusal operation.now)) }
{
    if let Some(refusal) = refusal(operation) {
        return Err(Refused::For(refusal));
    }
    Ok(words_of(alloc, operation)?)
}

/// The words of an operation that is not refused.
fn words_of(alloc: Global, operation: &Operation) -> Result<Vec<u64>, NoMemory>
    requires { own_refusal operation.now ≡ None }
    ensures { IfOk result (λ words. Spells words.items (entry_of operation.now)) }
{
    let mut bytes = Vec::new(alloc);
    put_operation(&mut bytes, operation)?;
    let head = kind_of(operation) * (1 << 32) + bytes.len() as u64;
    pack(alloc, head, &bytes)
}

/// Why the operation is refused for the size of its own term or of its query.
fn refusal(operation: &Operation) -> Option<Refusal>
    ensures { result ≡ own_refusal operation.now }
{
    match operation {
        Operation::Add(_) | Operation::AddBlock(_) | Operation::Commit(_) => None,
        Operation::Update(term, _)
        | Operation::UpdateBlock(term, _)
        | Operation::DeleteTerm(term) => term_refusal(term),
        Operation::SetNumber { term, .. } => term_refusal(term),
        Operation::DeleteQuery(query) => {
            let size = query_size(query);
            (size > MOST_QUERY_BYTES as u64).then_some(Refusal::Query { size })
        }
    }
}

/// Why an operation with this term as its own is refused.
fn term_refusal(term: &Term) -> Option<Refusal>
    ensures { result ≡ term_refusal term.now }
{
    let size = term.bytes.as_str().len();
    (size > MOST_TERM_BYTES).then_some(Refusal::Term { size: size as u64 })
}

/// The kind, as the head word has it.
fn kind_of(operation: &Operation) -> u64
    ensures { result ≡ kind_of (entry_of operation.now) }
{
    match operation {
        Operation::Add(_) | Operation::AddBlock(_) => 1,
        Operation::Update(..) | Operation::UpdateBlock(..) => 2,
        Operation::DeleteTerm(_) => 3,
        Operation::DeleteQuery(_) => 4,
        Operation::SetNumber { .. } => 5,
        Operation::Commit(_) => 6,
    }
}

/// Appends the bytes of the operation's fields, without its documents.
fn put_operation(out: &mut Vec<u8>, operation: &Operation) -> Result<(), NoMemory>
    requires { own_refusal operation.now ≡ None }
    ensures bytes { OnOk result (out.new.items
        ≡ out.old.items ++ entry_bytes (entry_of operation.now)) }
    ensures entry { OnOk result (IsEntry (entry_of operation.now)) }
{
    match operation {
        Operation::Add(_) | Operation::AddBlock(_) | Operation::Commit(_) => Ok(()),
        Operation::Update(term, _)
        | Operation::UpdateBlock(term, _)
        | Operation::DeleteTerm(term) => put_term(out, term),
        Operation::DeleteQuery(query) => put_query(out, query),
        Operation::SetNumber { term, num, value } => {
            put_term(out, term)?;
            put_name(out, num)?;
            put_i64(out, *value)
        }
    }
}
