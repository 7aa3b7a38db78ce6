//! Blocks of documents in values: testing them, which takes no memory, and copying them.
ghost use Rattle.std.specs.Prelude.{◌≡◌, ◌≤◌, ◌↔◌, IfOk, IsTrue, Some, true, is_some};
ghost use Rattle.serde_json.specs.View.{view, items_view};
ghost use Rattle.op_script.specs.Documents.{block_of, documents_of};

use crate::document_check::is_document;
use crate::documents::document_from;
use ix_base::{Block, Document, NoMemory};
use serde_json::Value;
use std::alloc::Global;

/// Whether a value is a list of 1 to 64 documents.
pub fn is_block(value: &Value) -> bool
    ensures { result ≡ is_some (block_of (view value.now)) }
{
    let Some(items) = value.as_array() else {
        return false;
    };
    are_few(items.len()) && are_documents(items)
}

/// Whether a block may have so many documents.
fn are_few(count: usize) -> bool
    ensures { IsTrue result ↔ ((1 ≤ count) × (count ≤ 64)) }
{
    0 < count && count <= Block::MOST
}

fn are_documents(items: &Vec<Value>) -> bool
    ensures { result ≡ is_some (documents_of (items_view items.now.items)) }
{
    for item in items {
        if !is_document(item) {
            return false;
        }
    }
    true
}

/// The block that a value is.
pub fn block_from(alloc: Global, value: &Value) -> Result<Block, NoMemory>
    requires { is_some (block_of (view value.now)) ≡ true }
    ensures { IfOk result (λ docs. block_of (view value.now) ≡ Some docs) }
{
    let Some(items) = value.as_array() else {
        unreachable!();
    };
    match Block::new(documents_from(alloc, items)?) {
        Some(block) => Ok(block),
        None => unreachable!(),
    }
}

fn documents_from(alloc: Global, items: &Vec<Value>) -> Result<Vec<Document>, NoMemory>
    requires { is_some (documents_of (items_view items.now.items)) ≡ true }
    ensures { IfOk result (λ docs. documents_of (items_view items.now.items) ≡ Some docs.items) }
{
    let mut docs = Vec::with_capacity(alloc, items.len())?;
    for item in items {
        docs.push(document_from(alloc, item)?)?;
    }
    Ok(docs)
}
