//! Bytes in words.
ghost use Rattle.std.specs.Prelude.{◌≡◌, ◌∷◌, IfOk, drop, slice_index};
ghost use Rattle.ix_base.specs.Words.{first_word, packed};

use ix_base::NoMemory;
use std::alloc::Global;

/// A head word and these bytes, eight in a word, the last word filled with zero bytes.
pub(crate) fn pack(alloc: Global, head: u64, bytes: &[u8]) -> Result<Vec<u64>, NoMemory>
    ensures { IfOk result (λ words. words.items ≡ head ∷ packed bytes.now) }
{
    let mut words = Vec::new(alloc);
    words.push(head)?;
    let mut rest = bytes;
    while !rest.is_empty() {
        words.push(first_word(rest))?;
        rest = after_word(rest);
    }
    Ok(words)
}

/// The first eight bytes as a word, the first byte highest; bytes past the end are 0.
#[tactic(auto, unfolding(ix_base::specs::Words::first_word))]
fn first_word(bytes: &[u8]) -> u64
    ensures { result ≡ first_word bytes.now }
{
    u64::from_be_bytes([
        byte_at(bytes, 0),
        byte_at(bytes, 1),
        byte_at(bytes, 2),
        byte_at(bytes, 3),
        byte_at(bytes, 4),
        byte_at(bytes, 5),
        byte_at(bytes, 6),
        byte_at(bytes, 7),
    ])
}

/// What follows the first eight bytes.
fn after_word(bytes: &[u8]) -> &[u8]
    ensures { result.now ≡ drop 8 bytes.now }
{
    if bytes.len() < 8 {
        &[]
    } else {
        bytes.split_at(8).1
    }
}

/// The byte at this place, or 0 past the end.
fn byte_at(bytes: &[u8], at: usize) -> u8
    ensures { result ≡ slice_index bytes.now at }
{
    if at < bytes.len() { bytes[at] } else { 0 }
}
