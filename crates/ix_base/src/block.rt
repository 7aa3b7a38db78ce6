//! Blocks of documents.
ghost use Rattle.std.specs.Prelude.{◌≡◌, ◌≤◌, ◌↔◌, length, IfOk, IfSome, IsSome};

use crate::document::Document;
use crate::memory::NoMemory;
use std::alloc::Global;
use std::marker::Model;

/// 1 to 64 documents that one operation adds together, in order: all of them or none.
#[derive(Drop)]
pub struct Block {
    docs: Vec<Document>,
}

impl Model for Block {
    ghost use Rattle.std.specs.Prelude.{List, length, ◌≤◌};
    ghost use Rattle.ix_base.specs.Documents.{Document};

    ghost Value = { List Document };

    ghost view = { λ block. block.docs.items };

    ghost invariant = { λ block. (1 ≤ length block.docs.items) × (length block.docs.items ≤ 64) };
}

impl Block {
    /// How many documents a block has at most.
    pub const MOST: usize = 64;

    /// The block of these documents: `Some` exactly where there are 1 to 64. It takes no memory.
    pub fn new(docs: Vec<Document>) -> Option<Block>
        ensures some { IsSome result ↔ ((1 ≤ length docs.items) × (length docs.items ≤ 64)) }
        ensures docs { IfSome result (λ block. block ≡ docs.items) }
    {
        if docs.is_empty() || docs.len() > Block::MOST {
            return None;
        }
        Some(Block { docs })
    }

    /// The documents, in order.
    pub fn as_slice(&self) -> &[Document]
        ensures docs { result.now ≡ self.now }
        ensures some { 1 ≤ length self.now }
        ensures few { length self.now ≤ 64 }
    {
        self.docs.as_slice()
    }

    /// A copy of this block.
    pub fn clone_in(&self, alloc: Global) -> Result<Block, NoMemory>
        ensures { IfOk result (λ block. block ≡ self.now) }
    {
        let mut docs = Vec::with_capacity(alloc, self.docs.len())?;
        for doc in self.docs.as_slice() {
            docs.push(doc.clone_in(alloc)?)?;
        }
        Ok(Block { docs })
    }
}
