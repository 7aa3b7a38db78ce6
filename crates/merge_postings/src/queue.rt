//! Sources that wait, of which the one whose next term is the least is known: they play against one another in
//! a tree.
ghost use Rattle.std.specs.Prelude.{◌≡◌, ◌≢◌, ◌↔◌, ◌⊎◌, [], List, ℕ, true, false, IfNone, IfOk, IfSome, IsTrue};
ghost use Rattle.std.specs.List.{AllByRecursion};
ghost use Rattle.merge_postings.specs.Keys.{KeysTerm};
ghost use Rattle.merge_postings.specs.Renumbering.{CanMove};
ghost use Rattle.merge_postings.specs.Steps.{AreResumed};
ghost use Rattle.merge_postings.specs.Tree.{IsFirst, Queued};
ghost use Rattle.merge_postings.specs.Walk.{IsPassed, Waiting};

use crate::head::Head;
use crate::key::{Key, highest_key, is_highest, order_by_keys};
use crate::keyed::{keys_beside, keys_of};
use crate::source::Source;
use crate::tree::{first_places, keep_places, play_above, play_all};
use analysis::compare_terms;
use ix_base::{NoMemory, Term};
use std::alloc::Global;
use std::cmp::Ordering;
use std::marker::Model;

/// Sources that wait. Each has a place, from 0. The nodes of a tree are numbered from 1: node x stands above
/// the nodes 2x and 2x + 1, and the nodes from the number of the sources on are these themselves. At each
/// node above others the two play that are taken first of those below its two, and the place of the one that isn't
/// taken first stands there.
#[derive(Drop)]
pub(crate) struct Queue<'a> {
    heads: Vec<Head<'a>>,
    /// The key of each one's next term, beside the field.
    keys: Vec<Key>,
    /// Where all play anew, the place of the source that is taken first at each node.
    wins: Vec<usize>,
    /// At each node above others the place of the source that lost there.
    losers: Vec<usize>,
    /// The place of the source that is taken first of all.
    place: usize,
    /// A field that isn't behind that of any next term.
    field: &'a str,
}

impl<'a> Model for Queue<'a> {
    ghost use Rattle.std.specs.Prelude.{◌≡◌, length};
    ghost use Rattle.merge_postings.specs.Tree.{HavePlayed, IsKeyed, Queued};

    ghost Value = { Queued };

    ghost view = { λ q. record {
      waiting = q.heads.items;
      place = q.place;
      field = q.field.now;
    } };

    ghost invariant = { λ q. HavePlayed q.heads.items q.losers.items q.place
        × (length q.wins.items ≡ length q.heads.items)
        × IsKeyed q.field.now q.heads.items q.keys.items };
}

/// The guess at a place; 0 where there is none.
fn guess_at(guesses: &[usize], place: usize) -> usize {
    match guesses.get(place) {
        Some(guess) => *guess,
        None => 0,
    }
}

/// What waits of the sources behind the term that was reached, with a guess of how many entries of each that are.
fn heads_beyond<'a>(
    alloc: Global,
    sources: &[Source<'a>],
    upto: &Option<Term>,
    guesses: &[usize],
) -> Result<Vec<Head<'a>>, NoMemory>
    requires { AllByRecursion CanMove sources.now }
    ensures { IfOk result (λ heads. AreResumed upto.now sources.now heads.items) }
{
    let mut heads = Vec::with_capacity(alloc, sources.len())?;
    for place in 0..sources.len() {
        let guess = guess_at(guesses, place);
        if let Some(head) = sources[place].beyond(place, upto, guess) {
            heads.push(head)?;
        }
    }
    Ok(heads)
}

/// Whether the terms are one, by their texts.
#[cold]
#[inline(never)]
fn is_term(one: &Term, other: &Term) -> bool
    ensures { IsTrue result ↔ (one.now ≡ other.now) }
{
    match compare_terms(one, other) {
        Ordering::Equal => true,
        _ => false,
    }
}

/// Whether the source's next term, whose key is the first one, is the term of the second one.
#[inline]
fn has_term(head: &Head<'_>, own: Key, term: &Term, key: Key) -> bool
    requires { (field : List ℕ) × KeysTerm field own head.now.first.term × KeysTerm field key term.now }
    ensures same { result ≡ true → head.now.first.term ≡ term.now }
    ensures other { result ≡ false → head.now.first.term ≢ term.now }
{
    match order_by_keys(own, key) {
        Some(Ordering::Less) => false,
        Some(Ordering::Equal) => true,
        Some(Ordering::Greater) => false,
        None => is_term(head.term(), term),
    }
}

impl<'a> Queue<'a> {
    /// The sources that have an entry beyond the term that was reached, with a guess of how many entries of each that
    /// are not.
    pub(crate) fn beyond(
        alloc: Global,
        sources: &[Source<'a>],
        upto: &Option<Term>,
        guesses: &[usize],
    ) -> Result<Queue<'a>, NoMemory>
        requires { AllByRecursion CanMove sources.now }
        ensures { IfOk result (λ queue. AreResumed upto.now sources.now queue.waiting) }
    {
        let heads = heads_beyond(alloc, sources, upto, guesses)?;
        let mut keys = vec![in alloc; highest_key(); heads.len()]?;
        let mut wins = first_places(alloc, heads.len())?;
        let field = keys_of(heads.as_slice(), &mut keys);
        let mut losers = first_places(alloc, heads.len())?;
        let place = play_all(heads.as_slice(), keys.as_slice(), &mut wins, &mut losers);
        Ok(Queue {
            heads,
            keys,
            wins,
            losers,
            place,
            field,
        })
    }

    /// Of each source how many of its entries were passed, those of the sources that have none left too: at their places
    /// stands how many they have.
    pub(crate) fn passed(&self, counts: &mut Vec<usize>) {
        for head in &self.heads {
            if let Some(count) = counts.get_mut(head.place()) {
                *count = count.saturating_sub(head.len());
            }
        }
    }

    /// The place of the source whose next term is the least, where one waits.
    #[inline]
    fn place(&self) -> usize
        ensures { result ≡ self.now.place }
    {
        self.place
    }

    /// The source whose next term is the least; `None` where none waits.
    pub(crate) fn first(&self) -> Option<&Head<'a>>
        ensures some { IfSome result (λ head. IsFirst self.now head.now) }
        ensures none { IfNone result (self.now.waiting ≡ []) }
    {
        let place = self.place();
        if place < self.heads.len() {
            Some(&self.heads[place])
        } else {
            None
        }
    }

    /// Takes the field of the least next term for that beside which all have their keys, if that one's key doesn't
    /// tell its text.
    pub(crate) fn settle(&mut self)
        ensures { self.new ≡ record self.old { field = self.new.field } }
    {
        let place = self.place();
        if place >= self.heads.len() {
            return;
        }
        if is_highest(self.keys[place]) {
            let field = self.heads[place].term().field.as_str();
            keys_beside(field, self.heads.as_slice(), &mut self.keys);
            self.field = field;
        }
    }

    /// The key of the least next term, where a source waits.
    #[inline]
    pub(crate) fn first_key(&self) -> Key
        ensures { (w : Waiting) → IsFirst self.now w
            → KeysTerm self.now.field result w.first.term }
    {
        let place = self.place();
        if place < self.heads.len() {
            self.keys[place]
        } else {
            highest_key()
        }
    }

    /// The source whose next term is the least, if that term is this one, whose key this is.
    pub(crate) fn first_of_term(&self, term: &Term, key: Key) -> Option<&Head<'a>>
        requires { KeysTerm self.now.field key term.now }
        ensures some { IfSome result (λ head.
            IsFirst self.now head.now × (head.now.first.term ≡ term.now)) }
        ensures none { IfNone result ((self.now.waiting ≡ [])
            ⊎ ((w : Waiting) × IsFirst self.now w × (w.first.term ≢ term.now))) }
    {
        let place = self.place();
        if place >= self.heads.len() {
            return None;
        }
        let head = &self.heads[place];
        if has_term(head, self.keys[place], term, key) {
            Some(head)
        } else {
            None
        }
    }

    /// The source whose next term is the least passes its next entry. Where that is its last, it waits no
    /// more.
    pub(crate) fn pass(&mut self)
        ensures passed { (w : Waiting) → IsFirst self.old w
            → IsPassed w self.old.waiting self.new.waiting }
        ensures field { self.new.field ≡ self.old.field }
    {
        let place = self.place();
        if place >= self.heads.len() {
            return;
        }
        let mut key = self.keys[place];
        if self.heads[place].pass(&mut key) {
            self.keys[place] = key;
            let heads = self.heads.as_slice();
            self.place = play_above(
                heads,
                self.keys.as_slice(),
                self.losers.as_mut_slice(),
                place,
            );
        } else {
            self.heads.remove(place);
            self.keys.remove(place);
            let count = self.heads.len();
            keep_places(&mut self.wins, count);
            keep_places(&mut self.losers, count);
            let heads = self.heads.as_slice();
            self.place = play_all(
                heads,
                self.keys.as_slice(),
                &mut self.wins,
                &mut self.losers,
            );
        }
    }
}
