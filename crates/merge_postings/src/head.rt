//! Entries of sources that come next.
ghost use Rattle.std.specs.Prelude.{◌≡◌, ◌<◌, ◌∷◌, ℕ, List, true, false, None, Some};
ghost use Rattle.ix_base.specs.Inversion.{IsPostings};
ghost use Rattle.ix_base.specs.declared.document.Term.{Term as TermOf};
ghost use Rattle.merge_postings.specs.Keys.{IsHighest, KeysTerm};
ghost use Rattle.merge_postings.specs.Renumbering.{NumbersRise};
ghost use Rattle.merge_postings.specs.Walk.{waiting, AreAlike, IsBelow, IsLater};

use crate::key::{Key, highest_key, key_alike};
use crate::part::Part;
use ix_base::{Term, TermPostings};
use std::marker::Model;

/// How many entries further on a field is looked at, to see whether it is still the same.
const AHEAD: usize = 32;

/// A source that wasn't walked to its end: its next entry, and those behind it.
#[derive(Drop)]
pub(crate) struct Head<'a> {
    first: &'a TermPostings,
    rest: &'a [TermPostings],
    numbers: &'a [Option<u32>],
    /// The place of the source among all.
    place: usize,
    /// How many of those behind it are known to have its field.
    alike: usize,
}

impl<'a> Model for Head<'a> {
    ghost use Rattle.merge_postings.specs.Walk.{AreAlike, CanWait, Waiting};

    ghost Value = { Waiting };

    ghost view = { λ h. record { first = h.first.now; rest = h.rest.now; numbers = h.numbers.now } };

    ghost invariant = { λ h.
        CanWait (record { first = h.first.now; rest = h.rest.now; numbers = h.numbers.now })
        × AreAlike h.alike h.first.now h.rest.now };
}

/// Whether the last of so many entries behind the first one is there and has its field.
fn reaches(first: &TermPostings, rest: &[TermPostings], count: usize) -> bool
    requires { IsPostings (first.now ∷ rest.now) }
    ensures alike { result ≡ true → AreAlike count first.now rest.now }
    ensures some { result ≡ true → 0 < count }
    ensures none { result ≡ false → count ≡ 1 → IsLater first.now rest.now }
{
    if count == 0 || rest.len() < count {
        return false;
    }
    let last = count - 1;
    rest[last].term.field.as_str() == first.term.field.as_str()
}

/// How many of the entries behind the first one are seen to have its field: one at least, if the next one has it.
fn alike(first: &TermPostings, rest: &[TermPostings]) -> usize
    requires { IsPostings (first.now ∷ rest.now) }
    ensures alike { AreAlike result first.now rest.now }
    ensures none { result ≡ 0 → IsLater first.now rest.now }
{
    let far = rest.len().min(AHEAD);
    if reaches(first, rest, far) {
        return far;
    }
    if reaches(first, rest, 1) { 1 } else { 0 }
}

/// The key of a term, by that of the one before it, and by whether so many at least have that one's field.
#[inline]
fn key_behind(key: Key, alike: usize, next: &Term) -> Key
    ensures alike { 0 < alike → (field : List ℕ) (other : TermOf) → KeysTerm field key other
        → other.field ≡ next.now.field → KeysTerm field result next.now }
    ensures later { alike ≡ 0 → IsHighest result }
{
    if alike > 0 {
        key_alike(key, next)
    } else {
        highest_key()
    }
}

impl<'a> Head<'a> {
    /// What waits of a source with these entries; `None` where there is none.
    pub(crate) fn new(
        terms: &'a [TermPostings],
        numbers: &'a [Option<u32>],
        place: usize,
    ) -> Option<Head<'a>>
        requires ordered { IsPostings terms.now }
        requires rise { NumbersRise numbers.now }
        ensures { result ≡ waiting terms.now numbers.now }
    {
        let (first, rest) = terms.split_first()?;
        Some(Head {
            first,
            rest,
            numbers,
            place,
            alike: 0,
        })
    }

    /// The same once more.
    pub(crate) fn same(&self) -> Head<'a>
        ensures { result ≡ self.now }
    {
        Head {
            first: self.first,
            rest: self.rest,
            numbers: self.numbers,
            place: self.place,
            alike: self.alike,
        }
    }

    /// The place of the source among all.
    pub(crate) fn place(&self) -> usize {
        self.place
    }

    /// How many entries it has, the next one too.
    pub(crate) fn len(&self) -> usize {
        self.rest.len().saturating_add(1)
    }

    /// The term of the next entry.
    #[inline]
    pub(crate) fn term(&self) -> &'a Term
        ensures { result.now ≡ self.now.first.term }
    {
        &self.first.term
    }

    /// How many of the entries behind the next one are known, or seen, to have its field.
    #[inline]
    fn known_alike(&self) -> usize
        ensures alike { AreAlike result self.now.first self.now.rest }
        ensures none { result ≡ 0 → IsLater self.now.first self.now.rest }
    {
        if self.alike > 0 {
            self.alike
        } else {
            alike(self.first, self.rest)
        }
    }

    /// Passes its next entry, unless that is the last: then the answer is `false`, and all is as before. The key is
    /// that of its next term, beside any field beside which it was.
    pub(crate) fn pass(&mut self, key: &mut Key) -> bool
        ensures next { result ≡ true → waiting self.old.rest self.old.numbers ≡ Some self.new }
        ensures last { result ≡ false → waiting self.old.rest self.old.numbers ≡ None }
        ensures rises { result ≡ true → IsBelow self.old.first.term self.new.first.term }
        ensures key { result ≡ true → (field : List ℕ)
            → KeysTerm field key.old self.old.first.term → KeysTerm field key.new self.new.first.term }
    {
        let Some((first, rest)) = self.rest.split_first() else {
            return false;
        };
        let known = self.known_alike();
        *key = key_behind(*key, known, &first.term);
        self.alike = known.saturating_sub(1);
        self.first = first;
        self.rest = rest;
        true
    }

    /// The places of the next entry.
    #[inline]
    pub(crate) fn part(&self) -> Part<'a>
        ensures { result ≡ record { rows = self.now.first.rows; numbers = self.now.numbers } }
    {
        Part::new(&self.first.rows, self.numbers)
    }
}
