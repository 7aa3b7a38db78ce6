//! A tree in which sources that wait play against one another.
ghost use Rattle.std.specs.Prelude.{◌≡◌, ◌+◌, ◌*◌, ◌/◌, ◌^◌, ◌<◌, ◌≤◌, List, ℕ, length, IfOk};
ghost use Rattle.merge_postings.specs.Tree.{HadPlayed, HavePlayed, IsFirstOf, IsKeyed, IsWithin};
ghost use Rattle.merge_postings.specs.Tree.{Plays, PutsLoser, winner_of};

use crate::head::Head;
use crate::key::{Key, order_by_keys};
use analysis::compare_terms;
use ix_base::NoMemory;
use std::alloc::Global;
use std::cmp::Ordering;

/// The place of the source that stands at a node, among so many.
#[inline]
pub(crate) fn winner_at(wins: &[usize], count: usize, node: usize) -> usize
    requires wins { length wins.now ≡ count }
    ensures { result ≡ winner_of wins.now count node }
{
    if node < count {
        wins[node]
    } else {
        node - count
    }
}

/// The one of two sources that is taken first, by the texts of their next terms.
#[cold]
#[inline(never)]
fn first_by_texts(heads: &[Head<'_>], one: usize, other: usize) -> usize
    requires one { one < length heads.now }
    requires other { other < length heads.now }
    ensures { IsFirstOf heads.now one other result }
{
    match compare_terms(heads[one].term(), heads[other].term()) {
        Ordering::Less => one,
        Ordering::Equal => one.min(other),
        Ordering::Greater => other,
    }
}

/// The one of two sources that is taken first: of two whose next terms are one, that of the lower place.
#[inline(always)]
fn first_of(heads: &[Head<'_>], keys: &[Key], one: usize, other: usize) -> usize
    requires one { one < length heads.now }
    requires other { other < length heads.now }
    requires keyed { (field : List ℕ) × IsKeyed field heads.now keys.now }
    ensures { IsFirstOf heads.now one other result }
{
    match order_by_keys(keys[one], keys[other]) {
        Some(Ordering::Less) => one,
        Some(Ordering::Equal) => one.min(other),
        Some(Ordering::Greater) => other,
        None => first_by_texts(heads, one, other),
    }
}

/// The two below a node play: the one that is taken first stands there in the first list, and the other one in the
/// second.
fn play(
    heads: &[Head<'_>],
    keys: &[Key],
    wins: &mut Vec<usize>,
    losers: &mut Vec<usize>,
    node: usize,
)
    requires above { 1 ≤ node }
    requires within { node < length heads.now }
    requires wins { IsWithin (length heads.now) wins.old.items }
    requires losers { length losers.old.items ≡ length heads.now }
    requires keyed { (field : List ℕ) × IsKeyed field heads.now keys.now }
    ensures wins { Plays heads.now wins.old.items node wins.new.items }
    ensures losers { PutsLoser (length heads.now) losers.old.items node wins.new.items losers.new.items }
{
    let count = heads.len();
    let left = winner_at(wins.as_slice(), count, 2 * node);
    let right = winner_at(wins.as_slice(), count, 2 * node + 1);
    let first = first_of(heads, keys, left, right);
    let loser = if first == left { right } else { left };
    wins[node] = first;
    losers[node] = loser;
}

/// The source at this place, which isn't as it was, plays against all that lost to it on the way up. The result is the
/// place of the one that is taken first of all.
pub(crate) fn play_above(
    heads: &[Head<'_>],
    keys: &[Key],
    losers: &mut [usize],
    place: usize,
) -> usize
    requires place { place < length heads.now }
    requires played { HadPlayed heads.now losers.old place }
    requires keyed { (field : List ℕ) × IsKeyed field heads.now keys.now }
    ensures { HavePlayed heads.now losers.new result }
{
    let mut node = (heads.len() + place) / 2;
    let mut first = place;
    'nodes: while node > 0 {
        let other = losers[node];
        let taken = first_of(heads, keys, first, other);
        if taken != first {
            losers[node] = first;
            first = taken;
        }
        node = node / 2;
    }
    first
}

/// All play. The result is the place of the one that is taken first of all.
pub(crate) fn play_all(
    heads: &[Head<'_>],
    keys: &[Key],
    wins: &mut Vec<usize>,
    losers: &mut Vec<usize>,
) -> usize
    requires wins { IsWithin (length heads.now) wins.old.items }
    requires losers { length losers.old.items ≡ length heads.now }
    requires keyed { (field : List ℕ) × IsKeyed field heads.now keys.now }
    ensures played { HavePlayed heads.now losers.new.items result }
    ensures wins { length wins.new.items ≡ length heads.now }
{
    let mut node = heads.len();
    'nodes: while node > 1 {
        node = node - 1;
        play(heads, keys, wins, losers, node);
    }
    winner_at(wins.as_slice(), heads.len(), 1)
}

/// So many times the place 0.
pub(crate) fn first_places(alloc: Global, count: usize) -> Result<Vec<usize>, NoMemory>
    ensures { IfOk result (λ places. IsWithin count places.items) }
{
    let mut places = Vec::with_capacity(alloc, count)?;
    for _ in 0..count {
        places.push(0)?;
    }
    Ok(places)
}

/// Keeps so many of the places, each as 0.
pub(crate) fn keep_places(places: &mut Vec<usize>, count: usize)
    requires { count ≤ length places.old.items }
    ensures { IsWithin count places.new.items }
{
    places.truncate(count);
    for at in 0..count {
        places[at] = 0;
    }
}
