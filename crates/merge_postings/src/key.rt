//! Terms compared by the first fifteen bytes of their texts and the lengths of these.
ghost use Rattle.std.specs.Prelude.{◌≡◌, ◌≢◌, ◌↔◌, ◌+◌, ◌*◌, ◌<◌, ◌^◌, [], ◌∷◌, ℕ, List, drop, slice_index, IfSome, IsTrue};
ghost use Rattle.std.specs.Cmp.Lexicographic.{slice_cmp};
ghost use Rattle.std.specs.Ordering.{nat_cmp};
ghost use Rattle.ix_base.specs.Inversion.{term_cmp};
ghost use Rattle.ix_base.specs.declared.document.Term.{Term as TermOf};
ghost use Rattle.std.specs.declared.cmp.Ordering.TheVariants.{Less, Equal, Greater};
ghost use Rattle.merge_postings.specs.Keys.{HasKey, IsHighest, KeysTerm, key};

use ix_base::Term;
use std::cmp::Ordering;

/// The first fifteen bytes of a text as a number, the first one the highest, and its length behind them: 16
/// where it is longer. The number's high and low words.
#[derive(Clone, Copy, Drop)]
pub(crate) struct Key {
    high: u64,
    low: u64,
}

/// Seven bytes as a number, the first one the highest.
fn seven_of(a: u8, b: u8, c: u8, d: u8, e: u8, f: u8, g: u8) -> u64
    ensures value { result ≡ key 7 (a ∷ b ∷ c ∷ d ∷ e ∷ f ∷ g ∷ []) }
    ensures below { result < 2 ^ 56 }
{
    let four = ((u64::from(a) * 256 + u64::from(b)) * 256 + u64::from(c)) * 256 + u64::from(d);
    ((four * 256 + u64::from(e)) * 256 + u64::from(f)) * 256 + u64::from(g)
}

/// The first seven bytes as a number, the first one the highest; 0 stands for each that isn't there.
fn first_seven(bytes: &[u8]) -> u64
    ensures value { result ≡ key 7 bytes.now }
    ensures below { result < 2 ^ 56 }
{
    match bytes {
        [a, b, c, d, e, f, g, ..] => seven_of(*a, *b, *c, *d, *e, *f, *g),
        [a, b, c, d, e, f] => seven_of(*a, *b, *c, *d, *e, *f, 0),
        [a, b, c, d, e] => seven_of(*a, *b, *c, *d, *e, 0, 0),
        [a, b, c, d] => seven_of(*a, *b, *c, *d, 0, 0, 0),
        [a, b, c] => seven_of(*a, *b, *c, 0, 0, 0, 0),
        [a, b] => seven_of(*a, *b, 0, 0, 0, 0, 0),
        [a] => seven_of(*a, 0, 0, 0, 0, 0, 0),
        [] => seven_of(0, 0, 0, 0, 0, 0, 0),
    }
}

/// The first eight bytes as a number, the first one the highest; 0 stands for each that isn't there.
fn first_eight(bytes: &[u8]) -> u64
    ensures { result ≡ key 8 bytes.now }
{
    match bytes {
        [a, b, c, d, e, f, g, h, ..] => seven_of(*a, *b, *c, *d, *e, *f, *g) * 256 + u64::from(*h),
        _ => first_seven(bytes) * 256,
    }
}

/// The seven bytes behind the eighth as a number, the first one the highest; 0 stands for each that isn't
/// there.
fn next_seven(bytes: &[u8]) -> u64
    ensures value { result ≡ key 7 (drop 8 bytes.now) }
    ensures below { result < 2 ^ 56 }
{
    if bytes.len() > 8 {
        first_seven(&bytes[8..])
    } else {
        0
    }
}

/// The key of a text.
pub(crate) fn key_of(text: &str) -> Key
    ensures { HasKey result text.now }
{
    let bytes = text.as_bytes();
    let high = first_eight(bytes);
    let next = next_seven(bytes);
    if bytes.len() < 16 {
        Key {
            high,
            low: next * 256 + bytes.len() as u64,
        }
    } else {
        Key {
            high,
            low: next * 256 + 16,
        }
    }
}

/// The key of no text, above all others.
#[inline]
pub(crate) fn highest_key() -> Key
    ensures { IsHighest result }
{
    Key {
        high: u64::MAX,
        low: u64::MAX,
    }
}

/// Whether it is the key of no text.
#[inline]
pub(crate) fn is_highest(key: Key) -> bool
    ensures { IsTrue result ↔ IsHighest key }
{
    key.high == u64::MAX && key.low == u64::MAX
}

/// The key of a term, beside a field that isn't behind its own.
pub(crate) fn key_beside(field: &str, term: &Term) -> Key
    requires { slice_cmp nat_cmp term.now.field field.now ≢ Less }
    ensures { KeysTerm field.now result term.now }
{
    if term.field.as_str() == field {
        key_of(term.bytes.as_str())
    } else {
        highest_key()
    }
}

/// The key of a term, by that of another one with its field.
#[inline]
pub(crate) fn key_alike(key: Key, term: &Term) -> Key
    ensures { (field : List ℕ) (other : TermOf) → KeysTerm field key other → other.field ≡ term.now.field
        → KeysTerm field result term.now }
{
    if is_highest(key) {
        key
    } else {
        key_of(term.bytes.as_str())
    }
}

/// How two words are ordered that aren't one.
#[inline]
fn order_by_word(left: u64, right: u64) -> Ordering
    requires { left ≢ right }
    ensures less { result ≡ Less → left < right }
    ensures greater { result ≡ Greater → right < left }
    ensures other { result ≢ Equal }
{
    if left < right {
        Ordering::Less
    } else {
        Ordering::Greater
    }
}

/// How all terms with these keys are ordered; `None` where the keys are one and don't tell: their texts have
/// more than fifteen bytes, or their fields are behind the one beside which they have the keys.
#[inline]
pub(crate) fn order_by_keys(left: Key, right: Key) -> Option<Ordering>
    ensures { (field : List ℕ) (a b : TermOf) → KeysTerm field left a → KeysTerm field right b
        → IfSome result (λ order. order ≡ term_cmp a b) }
{
    if left.high != right.high {
        return Some(order_by_word(left.high, right.high));
    }
    if left.low != right.low {
        return Some(order_by_word(left.low, right.low));
    }
    if right.low % 256 < 16 {
        return Some(Ordering::Equal);
    }
    None
}
