//! The keys of the next terms of sources that wait, in one list.
ghost use Rattle.std.specs.Prelude.{◌≡◌, ◌≢◌, ◌<◌, All, length};
ghost use Rattle.std.specs.Cmp.Lexicographic.{slice_cmp};
ghost use Rattle.std.specs.Ordering.{nat_cmp};
ghost use Rattle.std.specs.declared.cmp.Ordering.TheVariants.{Less};
ghost use Rattle.merge_postings.specs.Tree.{IsKeyed, IsLeast};

use crate::head::Head;
use crate::key::{Key, key_beside};
use analysis::compare_terms;
use std::cmp::Ordering;

/// Puts the key of each source's next term at its place, beside a field that isn't behind that of any.
pub(crate) fn keys_beside(field: &str, heads: &[Head<'_>], keys: &mut Vec<Key>)
    requires long { length keys.old.items ≡ length heads.now }
    requires from { All (λ w. slice_cmp nat_cmp w.first.term.field field.now ≢ Less) heads.now }
    ensures { IsKeyed field.now heads.now keys.new.items }
{
    for place in 0..heads.len() {
        keys[place] = key_beside(field, heads[place].term());
    }
}

/// The place of a source whose next term is the least, by their texts.
fn least_of(heads: &[Head<'_>]) -> usize
    requires { 0 < length heads.now }
    ensures { IsLeast heads.now (length heads.now) result }
{
    let mut least = 0;
    for place in 0..heads.len() {
        match compare_terms(heads[place].term(), heads[least].term()) {
            Ordering::Less => least = place,
            _ => {}
        }
    }
    least
}

/// Puts the key of each source's next term at its place, beside the least field, which is the result; nothing where
/// there is no source.
pub(crate) fn keys_of<'a>(heads: &[Head<'a>], keys: &mut Vec<Key>) -> &'a str
    requires { length keys.old.items ≡ length heads.now }
    ensures { IsKeyed result.now heads.now keys.new.items }
{
    if heads.is_empty() {
        return "";
    }
    let least = least_of(heads);
    let field = heads[least].term().field.as_str();
    keys_beside(field, heads, keys);
    field
}
