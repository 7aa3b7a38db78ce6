//! Words as a kind and bytes.
ghost use Rattle.std.specs.Prelude.{◌≡◌, ◌↔◌, ◌≤◌, IfOk, IsTrue, drop, length, slice_index, EachIndex};
ghost use Rattle.std.specs.List.{flat_map};
ghost use Rattle.ix_base.specs.Spelling.{be64};
ghost use Rattle.ix_base.specs.Words.{words_for};
ghost use Rattle.node_words.specs.Packed.{FindsBytes, bytes_in};

use crate::MOST_QUERY_BYTES;
use crate::fault::WrongForm;
use ix_base::NoMemory;
use ix_base::codec::put_u64;
use std::alloc::Global;

/// The kind and the bytes that words hold, the bytes still packed.
#[derive(Clone, Copy)]
pub(crate) struct Held<'a> {
    pub(crate) kind: u64,
    pub(crate) len: usize,
    words: &'a [u64],
}

/// The kind and the bytes that the words hold: the head word counts the bytes, and zero bytes fill
/// the last word. No memory is taken.
pub(crate) fn held_in(words: &[u64]) -> Result<Held<'_>, WrongForm>
    ensures { FindsBytes words.now result }
{
    let [head, rest @ ..] = words else {
        return Err(WrongForm);
    };
    let kind = *head / (1 << 32);
    let len = (*head % (1 << 32)) as usize;
    if len > MOST_QUERY_BYTES || rest.len() != (len + 7) / 8 {
        return Err(WrongForm);
    }
    if !is_filled(rest, len) {
        return Err(WrongForm);
    }
    Ok(Held {
        kind,
        len,
        words: rest,
    })
}

/// Whether each byte behind so many is 0. These stand in the last of the words.
fn is_filled(words: &[u64], len: usize) -> bool
    requires { length words.now ≡ words_for len }
    ensures { IsTrue result ↔ EachIndex (drop len (flat_map be64 words.now))
        (λ k. slice_index (drop len (flat_map be64 words.now)) k ≡ 0) }
{
    match words {
        [] => true,
        [front @ .., last] => is_zero_from(&last.to_be_bytes(), len - front.len() * 8),
    }
}

/// Whether each byte from this place on is 0.
fn is_zero_from(bytes: &[u8], at: usize) -> bool
    requires { at ≤ length bytes.now }
    ensures { IsTrue result
        ↔ EachIndex (drop at bytes.now) (λ k. slice_index (drop at bytes.now) k ≡ 0) }
{
    let (_, rest) = bytes.split_at(at);
    rest.iter().all(|byte| *byte == 0)
}

/// The bytes, taken out of their words.
pub(crate) fn unpack(alloc: Global, held: Held<'_>) -> Result<Vec<u8>, NoMemory>
    ensures { IfOk result (λ bytes. bytes.items ≡ bytes_in held.entry) }
{
    let mut bytes = Vec::with_capacity(alloc, held.words.len().saturating_mul(8))?;
    for word in held.words {
        put_u64(&mut bytes, *word)?;
    }
    bytes.truncate(held.len);
    Ok(bytes)
}
