//! One line: an operation that is linked, with its documents staged before.
ghost use Rattle.std.specs.Prelude.{◌≡◌, ◌≤◌, ◌<◌, [], length, None, IsTrue};
ghost use Rattle.ix_base.specs.Entry.{entry_of, commit};
ghost use Rattle.ix_base.specs.Refusals.{refusal, block_refusal};
ghost use Rattle.ix_base.specs.Words.{Spells, entry_words};
ghost use Rattle.delete_queue.specs.Answers.{IsOperation};
ghost use Rattle.delete_queue.specs.Seats.{Grows, Links, SawClosed, the_view};
ghost use Rattle.row_fates.specs.Fate.{adds};
ghost use Rattle.thread_writer.specs.Writing.{IsWriter, Numbers, Stays, added_documents};
ghost use Rattle.thread_writer.specs.Answers.{IfNumbered, IfNotNumbered, IfClosed, IfFull};
ghost use Rattle.thread_writer.specs.Answers.{FullFor, RefusedExactly, told_for};
ghost use Rattle.thread_writer.specs.Lines.{Does};

use crate::staging::stage_all;
use crate::told::Told;
use crate::writer::ThreadWriter;
use delete_queue::{Closing, DeleteQueue, Linked};
use delete_slice::slices_stay;
use ix_base::{Document, Operation, Refusal, Refused};
use node_words::encode;
use std::slice;

/// What is told of a refusal, or for want of memory.
fn told_of(refused: Refused) -> Told
    ensures { result ≡ told_for refused }
{
    match refused {
        Refused::For(Refusal::Term { size }) => Told::RefusedTerm { size },
        Refused::For(Refusal::Query { size }) => Told::RefusedQuery { size },
        Refused::NoMemory => Told::NoMemory,
    }
}

/// The documents that an operation adds, in order: 64 at most.
fn documents_of(operation: &Operation) -> &[Document]
    ensures docs { result.now ≡ added_documents operation.now }
    ensures few { length result.now ≤ 64 }
{
    match operation {
        Operation::Add(doc) | Operation::Update(_, doc) => slice::from_ref(doc),
        Operation::AddBlock(docs) | Operation::UpdateBlock(_, docs) => docs.as_slice(),
        _ => &[],
    }
}

impl ThreadWriter {
    /// Links an entry that adds no document.
    fn link_alone(&mut self, queue: &DeleteQueue, words: &[u64]) -> Told
        requires writer { IsWriter queue.now self.old }
        requires words { IsOperation words.now }
        ensures does { Does queue.now words.now [] result self.old self.new }
        ensures refusal { RefusedExactly result None }
        ensures closed { IfClosed result (SawClosed (the_view self.new.seat)) }
        ensures full { FullFor words.now result self.old self.new }
    {
        match queue.link(&mut self.seat, words) {
            Linked::At(number) => Told::Numbered(number),
            Linked::Closed => Told::Closed,
            Linked::Full { need, left } => Told::Full { need, left },
        }
    }

    /// Links a commit.
    fn link_commit(&mut self, queue: &DeleteQueue) -> Told
        requires writer { IsWriter queue.now self.old }
        ensures does { Does queue.now (entry_words commit) [] result self.old self.new }
        ensures refusal { RefusedExactly result None }
        ensures closed { IfClosed result (SawClosed (the_view self.new.seat)) }
        ensures full { IfFull result (λ need left. ⊥) }
    {
        match queue.close(&mut self.seat, Closing::Commit) {
            Linked::At(number) => Told::Numbered(number),
            Linked::Closed => Told::Closed,
            Linked::Full { need, left } => Told::Full { need, left },
        }
    }

    /// Stages documents, links the entry that adds them, and gives them their births. It stages all
    /// before it links. Documents whose entry isn't linked are left without a birth.
    fn add(&mut self, queue: &DeleteQueue, docs: &[Document], words: &[u64]) -> Told
        requires writer { IsWriter queue.now self.old }
        requires docs { (1 ≤ length docs.now) × (length docs.now ≤ 64) }
        requires words { IsOperation words.now }
        ensures does { Does queue.now words.now docs.now result self.old self.new }
        ensures refusal { RefusedExactly result (block_refusal docs.now) }
        ensures closed { IfClosed result (SawClosed (the_view self.new.seat)) }
        ensures full { FullFor words.now result self.old self.new }
    {
        let first = match stage_all(self.alloc, &mut self.rows, docs) {
            Ok(first) => first,
            Err(refused) => return told_of(refused),
        };
        match queue.link(&mut self.seat, words) {
            Linked::At(number) => {
                self.rows.born_block(first, docs.len() as u32, number);
                Told::Numbered(number)
            }
            Linked::Closed => Told::Closed,
            Linked::Full { need, left } => Told::Full { need, left },
        }
    }

    /// Links an entry that adds these documents, if there are some, or refuses it for them.
    fn link_words(&mut self, queue: &DeleteQueue, docs: &[Document], words: &[u64]) -> Told
        requires writer { IsWriter queue.now self.old }
        requires few { length docs.now ≤ 64 }
        requires words { IsOperation words.now }
        ensures does { Does queue.now words.now docs.now result self.old self.new }
        ensures refusal { RefusedExactly result (block_refusal docs.now) }
        ensures closed { IfClosed result (SawClosed (the_view self.new.seat)) }
        ensures full { FullFor words.now result self.old self.new }
    {
        if docs.is_empty() {
            self.link_alone(queue, words)
        } else {
            self.add(queue, docs, words)
        }
    }

    /// Links an operation that adds these documents, or refuses it: first for its own term or its
    /// query.
    fn link_operation(
        &mut self,
        queue: &DeleteQueue,
        operation: &Operation,
        docs: &[Document],
    ) -> Told
        requires writer { IsWriter queue.now self.old }
        requires docs { docs.now ≡ added_documents operation.now }
        requires few { length docs.now ≤ 64 }
        ensures does { Does queue.now (entry_words (entry_of operation.now)) docs.now
            result self.old self.new }
        ensures spelled { IfNumbered result (λ n. Spells
            (entry_words (entry_of operation.now)) (entry_of operation.now)) }
        ensures refusal { RefusedExactly result (refusal operation.now) }
        ensures closed { IfClosed result (SawClosed (the_view self.new.seat)) }
        ensures full { FullFor (entry_words (entry_of operation.now)) result self.old self.new }
    {
        if let Operation::Commit(_) = operation {
            return self.link_commit(queue);
        }
        match encode(self.alloc, operation) {
            Ok(words) => self.link_words(queue, docs, words.as_slice()),
            Err(refused) => told_of(refused),
        }
    }

    /// Links an operation as an entry of the queue, and returns its sequence number. The documents that
    /// it adds are in the buffer then, all of them, in order and next to one another: one, or the 1 to
    /// 64 of a block, which have one number and each its place. An operation that adds some asks for
    /// room in the buffer for one; those of a block may go up to 63 beyond.
    ///
    /// It is refused exactly where its own term or its query is too long, or else a term of one of its
    /// documents, for the first such term of the first such document. `Closed` comes only where the
    /// last entry that the seat has seen closes the queue, `Full` only where the entry takes more words
    /// than are left to the seat, which then has linked one before. All memory is taken before the
    /// entry is linked.
    ///
    /// With a number the entry of the operation was linked, and nothing else. After any other answer
    /// nothing was linked: the writer is as before, but that its seat may have seen more, and
    /// documents, some of a block or all, may take places in the buffer for good, in no row.
    pub fn do_line(&mut self, queue: &DeleteQueue, operation: &Operation) -> Told
        requires writer { IsWriter queue.now self.old }
        requires room { IsTrue (adds operation.now) → length self.old.rows < self.old.size }
        ensures writer { IsWriter queue.now self.new }
        ensures size { self.new.size ≡ self.old.size }
        ensures grows { Grows self.old.seat self.new.seat }
        ensures numbered { IfNumbered result
            (λ n. Numbers queue.now operation.now n self.old self.new) }
        ensures stays { IfNotNumbered result (Stays queue.now self.old self.new) }
        ensures refusal { RefusedExactly result (refusal operation.now) }
        ensures closed { IfClosed result (SawClosed (the_view self.new.seat)) }
        ensures full { FullFor (entry_words (entry_of operation.now)) result self.old self.new }
        ensures links { IfNumbered result (λ n. Links
            self.old.seat self.new.seat (entry_words (entry_of operation.now)) n) }
        ensures spelled { IfNumbered result (λ n. Spells
            (entry_words (entry_of operation.now)) (entry_of operation.now)) }
    {
        slices_stay();
        self.link_operation(queue, operation, documents_of(operation))
    }
}
