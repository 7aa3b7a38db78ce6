//! The words of one field, each with its places.
ghost use Rattle.std.specs.Prelude.{◌≡◌, ◌<◌, ◌++◌, ◌∷◌, [], map, length, bytes_eq, IfOk, OnOk, IsPermutation, IsSortedByKey};
ghost use Rattle.std.specs.Cmp.Lexicographic.{slice_cmp};
ghost use Rattle.std.specs.HashMap.{keys};
ghost use Rattle.std.specs.List.{IsDistinct};
ghost use Rattle.std.specs.Ordering.{nat_cmp};
ghost use Rattle.ix_base.specs.Terms.{folded_words};
ghost use Rattle.analysis.specs.Kept.{IsWordBefore, AreWordsBelow, AddsWord, AddsWords, AreTermsOf, cut_words, term_of};

use crate::word_key::WordKey;
use crate::words::fold_into;
use indexmap::IndexMap;
use ix_base::{Name, NoMemory, Spots, Term, TermPostings, Text};
use std::alloc::Global;
use std::cmp::Ordering;
use std::marker::Model;
use unicode_segmentation::UnicodeSegmentation;

/// The most words for which room is made at once.
const MOST_ROOM: usize = 256;

/// How a text is cut into terms.
#[derive(Clone, Copy, Drop)]
pub enum Cut {
    /// The whole text is one term.
    Whole,
    /// Each word, folded, is a term.
    Words,
}

/// Words, each with its places, in the order in which they came.
#[derive(Drop)]
pub struct WordLists {
    lists: IndexMap<WordKey, Spots>,
}

impl Model for WordLists {
    ghost use Rattle.std.specs.Prelude.{List, ℕ, All, map};
    ghost use Rattle.std.specs.HashMap.{values};
    ghost use Rattle.ix_base.specs.declared.postings.Posting.{Posting};
    ghost use Rattle.analysis.specs.Kept.{IsWordList};

    ghost Value = { List (List ℕ × List Posting) };

    ghost view = { λ words. map (λ e. (e.0, e.1)) words.lists.entries };

    ghost invariant = { λ words. All IsWordList (values words.lists) };
}

/// The words as terms of a field, in the order in which they came.
fn terms_of(
    alloc: Global,
    field: &Name,
    lists: IndexMap<WordKey, Spots>,
) -> Result<Vec<TermPostings>, NoMemory>
    ensures apart { IsDistinct bytes_eq (keys lists) }
    ensures terms { IfOk result (λ terms. terms.items
        ≡ map (λ e. term_of field.now (e.0, e.1)) lists.entries) }
{
    let mut terms = Vec::with_capacity(alloc, lists.len())?;
    for (word, rows) in lists {
        let bytes = word.into_text();
        let field = field.clone_in(alloc)?;
        terms.push(TermPostings {
            term: Term { field, bytes },
            rows,
        })?;
    }
    Ok(terms)
}

/// Sorts terms of one field by their bytes.
fn sort_by_bytes(terms: &mut Vec<TermPostings>)
    ensures same { IsPermutation terms.old.items terms.new.items }
    ensures sorted { IsSortedByKey (λ entry. entry.term.bytes) (slice_cmp nat_cmp) terms.new.items }
{
    terms.sort_unstable_by(
        |left: &TermPostings, right: &TermPostings| -> Ordering
            ensures { result ≡ slice_cmp nat_cmp left.now.term.bytes right.now.term.bytes }
        { left.term.bytes.as_str().cmp(right.term.bytes.as_str()) },
    );
}

impl WordLists {
    /// No word. It takes no memory.
    pub fn new(alloc: Global) -> WordLists
        ensures { result ≡ [] }
    {
        WordLists {
            lists: IndexMap::new(alloc),
        }
    }

    /// Adds a place of a word, which is after those that the word has. A word is copied only when
    /// it is new.
    fn add(&mut self, alloc: Global, word: &str, row: u32, position: u32) -> Result<(), NoMemory>
        requires { IsWordBefore row position word.now self.old }
        ensures { OnOk result (AddsWord row position word.now self.old self.new) }
    {
        if let Some(list) = self.lists.get_mut(word) {
            return list.push(row, position);
        }
        let mut list = Spots::new(alloc);
        list.push(row, position)?;
        self.lists.insert(WordKey::copy_of(alloc, word)?, list)?;
        Ok(())
    }

    /// Makes room for the first text's words, of which each eight bytes may bring a new one.
    fn make_room(&mut self, text: &Text) -> Result<(), NoMemory>
        ensures { self.new ≡ self.old }
    {
        if self.lists.is_empty() {
            let words = text.as_str().len() / 8;
            self.lists.reserve(words.min(MOST_ROOM))?;
        }
        Ok(())
    }

    /// Adds the places of a text's folded words in a row that is after those that are there.
    fn add_words(
        &mut self,
        alloc: Global,
        scratch: &mut String,
        row: u32,
        text: &Text,
    ) -> Result<(), NoMemory>
        requires { AreWordsBelow row self.old }
        ensures { OnOk result (AddsWords row (folded_words text.now) self.old self.new) }
    {
        self.make_room(text)?;
        let mut position = 0;
        for word in text.as_str().unicode_words() {
            fold_into(scratch, word)?;
            self.add(alloc, scratch.as_str(), row, position)?;
            position += 1;
        }
        Ok(())
    }

    /// Adds the places of a text's terms in a row that is after those that are there.
    pub fn add_text(
        &mut self,
        alloc: Global,
        scratch: &mut String,
        row: u32,
        cut: Cut,
        text: &Text,
    ) -> Result<(), NoMemory>
        requires { AreWordsBelow row self.old }
        ensures { OnOk result (AddsWords row (cut_words cut text.now) self.old self.new) }
    {
        match cut {
            Cut::Whole => self.add(alloc, text.as_str(), row, 0),
            Cut::Words => self.add_words(alloc, scratch, row, text),
        }
    }

    /// The words as terms of a field, rising by bytes.
    pub fn into_terms(self, alloc: Global, field: &Name) -> Result<Vec<TermPostings>, NoMemory>
        ensures { IfOk result (λ terms. AreTermsOf field.now self terms.items) }
    {
        let WordLists { lists } = self;
        let mut terms = terms_of(alloc, field, lists)?;
        sort_by_bytes(&mut terms);
        Ok(terms)
    }
}
