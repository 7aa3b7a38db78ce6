//! The rule of the linked delete queue: how entries stand in a table of words that several seats
//! share, what a seat knows of it, and what each kind of step keeps and tells.
//!
//! Word 0 of the table is the first next word. After it each seat has a stretch of 16,642 words. An
//! entry is a next word and the words that spell it, in the stretch of the seat that linked it. Its
//! address is that of its next word, and a next word 0 says that no entry follows. The entries that
//! next words lead to from word 0 on are the chain. Its order is the order in which operations take
//! effect: the k-th entry has the sequence number base + k, where base is the number before the
//! queue's first one. A turn, which can only be the last entry, has that of the entry before it.
//!
//! The rule (`specs/Rule.antt`) holds between any two steps: the chain ends in a next word 0 and in
//! no other; the entries of each seat fill its stretch from its first word on without holes, each in the
//! grammar of an entry's words; only the last may close the queue; what a seat has seen is a
//! prefix of the chain; the words that it knows stay as they are; its own list has the entries of
//! its seat number; each seat number is held by one seat.
//!
//! The laws stand in `specs/Laws.antt`, and `steps_keep_the_rule` has them as its clauses:
//!
//! | Law | Proved by, for a crate that makes the step |
//! |---|---|
//! | a new table meets the rule | `proofs.Seating.opens` |
//! | a store of a draft word | `proofs.Telling.may_draft` |
//! | a compare-exchange on a next word | `proofs.Telling.may_try` |
//! | a load of a next word | `proofs.Telling.may_look` |
//! | a load of a linked word | `proofs.Telling.may_read` |
//! | a split of a seat | `proofs.Seating.splits` |
//! | a join of two seats | `proofs.Seating.joins` |
//! | a seat that has made no step | `proofs.Telling.fresh_sound` |
#![tactic(auto)]

mod law;
mod layout;
mod rule;
mod view;

pub use law::steps_keep_the_rule;
pub use layout::{
    CLOSING_WORDS, FIRST_CLOSING_KIND, MOST_SEATS, STRETCH_WORDS, TURN_KIND, closes, kind_of,
    stretch_start, words_left, words_of,
};
pub use rule::{LinkDraft, LoadLinked, LoadNext, QueueRule, SeatNumbers, StoreDraft};
pub use view::{Known, Loaded, Old, Own, View};
