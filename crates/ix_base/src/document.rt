//! Documents, the rows of an index, and the operations on it.
ghost use Rattle.std.specs.Prelude.{◌≡◌, ◌↔◌, [], map, IfOk, IfSome, IsSome, IsTrue};
ghost use Rattle.ix_base.specs.Documents.{is_apart};
ghost use Rattle.ix_base.specs.Hits.{hit_of};
ghost use Rattle.ix_base.specs.Limits.{share_name};

use crate::birth::Birth;
use crate::block::Block;
use crate::fields::{Fields, Numbers};
use crate::memory::NoMemory;
use crate::query::Query;
use crate::text::{Name, Text};
use std::alloc::Global;
use std::marker::Model;

/// A term: a whole text of a field, or one word of it.
#[derive(Drop)]
pub struct Term {
    pub field: Name,
    pub bytes: Text,
}

/// A document. Its key is found as a term of the field `key`, each text of `exact` as one term,
/// each text of `text` by its folded words; `num` holds its numbers. No name of `text` or `exact`
/// is `key`, and none stands in both.
pub struct Document {
    pub key: Text,
    pub text: Fields,
    pub exact: Fields,
    pub num: Numbers,
}

impl Model for Document {
    ghost use Rattle.std.specs.Prelude.{◌≡◌, true};
    ghost use Rattle.ix_base.specs.Documents.{Document, is_apart};

    ghost Value = { Document };

    ghost view = { λ doc. record { key = doc.key; text = doc.text; exact = doc.exact; num = doc.num } };

    ghost invariant = { λ doc. is_apart (record { key = doc.key; text = doc.text; exact = doc.exact; num = doc.num }) ≡ true };
}

/// A document in an index, with its birth.
#[derive(Drop)]
pub struct Row {
    pub birth: Birth,
    pub doc: Document,
}

/// What a search tells of a row that matches: its key and its numbers.
#[derive(Drop)]
pub struct Hit {
    pub key: Text,
    pub num: Numbers,
}

/// An operation on an index.
pub enum Operation {
    /// Adds the document.
    Add(Document),
    /// Adds the documents of the block, in order.
    AddBlock(Block),
    /// Deletes the documents that hold the term, and adds the document.
    Update(Term, Document),
    /// Deletes the documents that hold the term, and adds those of the block, in order.
    UpdateBlock(Term, Block),
    /// Deletes the documents that hold the term.
    DeleteTerm(Term),
    /// Deletes the documents that match.
    DeleteQuery(Query),
    /// Gives the number this value in the documents that hold the term.
    SetNumber { term: Term, num: Name, value: i64 },
    /// Makes a commit of the operations numbered up to its own, with these pairs of a name and a text.
    Commit(Fields),
}

impl Drop for Document {
    fn drop(self) {
        let Document {
            key: _key,
            text: _text,
            exact: _exact,
            num: _num,
        } = self;
    }
}

impl Drop for Operation {
    fn drop(self) {
        match self {
            Operation::Add(_doc) => {}
            Operation::AddBlock(_docs) => {}
            Operation::Update(_term, _doc) => {}
            Operation::UpdateBlock(_term, _docs) => {}
            Operation::DeleteTerm(_term) => {}
            Operation::DeleteQuery(_query) => {}
            Operation::SetNumber {
                term: _term,
                num: _num,
                value: _,
            } => {}
            Operation::Commit(_pairs) => {}
        }
    }
}

impl Term {
    /// A copy of this term.
    pub fn clone_in(&self, alloc: Global) -> Result<Term, NoMemory>
        ensures { IfOk result (λ term. term ≡ self.now) }
    {
        Ok(Term {
            field: self.field.clone_in(alloc)?,
            bytes: self.bytes.clone_in(alloc)?,
        })
    }
}

impl Document {
    /// A document with a key and nothing else. It takes no memory.
    pub fn of_key(alloc: Global, key: Text) -> Document
        ensures { result ≡ record { key = key; text = []; exact = []; num = [] } }
    {
        Document {
            key,
            text: Fields::none(alloc),
            exact: Fields::none(alloc),
            num: Numbers::none(alloc),
        }
    }

    /// A document of these parts: `Some` exactly where no name of `text` or `exact` is `key` and
    /// none stands in both. It takes no memory.
    pub fn new(key: Text, text: Fields, exact: Fields, num: Numbers) -> Option<Document>
        ensures apart { IsSome result
            ↔ IsTrue (is_apart (record { key = key; text = text; exact = exact; num = num })) }
        ensures doc { IfSome result (λ doc. doc
            ≡ record { key = key; text = text; exact = exact; num = num }) }
    {
        if text.has_name("key") || exact.has_name("key") || share_name(&text, &exact) {
            return None;
        }
        Some(Document {
            key,
            text,
            exact,
            num,
        })
    }

    /// A copy of this document.
    pub fn clone_in(&self, alloc: Global) -> Result<Document, NoMemory>
        ensures { IfOk result (λ doc. doc ≡ self.now) }
    {
        Ok(Document {
            key: self.key.clone_in(alloc)?,
            text: self.text.clone_in(alloc)?,
            exact: self.exact.clone_in(alloc)?,
            num: self.num.clone_in(alloc)?,
        })
    }
}

impl Hit {
    /// What a search tells of a row.
    pub fn of_row(alloc: Global, row: &Row) -> Result<Hit, NoMemory>
        ensures { IfOk result (λ hit. hit ≡ hit_of row.now) }
    {
        Ok(Hit {
            key: row.doc.key.clone_in(alloc)?,
            num: row.doc.num.clone_in(alloc)?,
        })
    }
}

/// Whether some name stands in both of these.
fn share_name(text: &Fields, exact: &Fields) -> bool
    ensures { result ≡ share_name (map (λ pair. pair.0) text.now) (map (λ pair. pair.0) exact.now) }
{
    for pair in text.as_slice() {
        if exact.has_name(pair.0.as_str()) {
            return true;
        }
    }
    false
}

impl Row {
    /// A copy of this row.
    pub fn clone_in(&self, alloc: Global) -> Result<Row, NoMemory>
        ensures { IfOk result (λ row. row ≡ self.now) }
    {
        Ok(Row {
            birth: self.birth,
            doc: self.doc.clone_in(alloc)?,
        })
    }
}

impl Operation {
    /// A copy of this operation.
    pub fn clone_in(&self, alloc: Global) -> Result<Operation, NoMemory>
        ensures { IfOk result (λ operation. operation ≡ self.now) }
    {
        match self {
            Operation::Add(doc) => Ok(Operation::Add(doc.clone_in(alloc)?)),
            Operation::AddBlock(docs) => Ok(Operation::AddBlock(docs.clone_in(alloc)?)),
            Operation::Update(term, doc) => {
                Ok(Operation::Update(term.clone_in(alloc)?, doc.clone_in(alloc)?))
            }
            Operation::UpdateBlock(term, docs) => {
                Ok(Operation::UpdateBlock(term.clone_in(alloc)?, docs.clone_in(alloc)?))
            }
            Operation::DeleteTerm(term) => Ok(Operation::DeleteTerm(term.clone_in(alloc)?)),
            Operation::DeleteQuery(query) => Ok(Operation::DeleteQuery(query.clone_in(alloc)?)),
            Operation::SetNumber { term, num, value } => Ok(Operation::SetNumber {
                term: term.clone_in(alloc)?,
                num: num.clone_in(alloc)?,
                value: *value,
            }),
            Operation::Commit(pairs) => Ok(Operation::Commit(pairs.clone_in(alloc)?)),
        }
    }
}
