//! Numbers, texts and names as bytes: each is written behind other bytes, and found again at the
//! start of bytes. A number stands in a fixed count of bytes, the highest first; a text, and so a
//! name, is its length in four bytes and its bytes of UTF-8.
//!
//! A writer that returns an error may have appended a prefix of the field's bytes; what stood in
//! the list before stays. A reader takes no memory. It returns the value and the bytes after it.
ghost use Rattle.std.specs.Prelude.{◌≡◌, ◌<◌, ◌^◌, ◌++◌, length, true, false, MatchOption, OnOk, FitsSigned};
ghost use Rattle.std.specs.Int.{w32, w64};
ghost use Rattle.std.specs.Str.{is_utf8};
ghost use Rattle.ix_base.specs.Codec.{GivesExactly, byte_at, number_at, signed_at, text_at, name_at};
ghost use Rattle.ix_base.specs.FileReading.{mark_at};
ghost use Rattle.ix_base.specs.Limits.{is_name};
ghost use Rattle.ix_base.specs.Spelling.{be32, be64, signed64, text_bytes, IsText, IsName};

pub use crate::broken::Broken;
use crate::memory::NoMemory;
use crate::text::Name;
use std::str;

/// A field that is cut short or breaks a rule: how many bytes are left, from its first byte on.
#[derive(Clone, Copy, Debug, PartialEq, Eq)]
pub struct BrokenField {
    pub left: usize,
}

/// Appends a number as four bytes.
#[tactic(auto, unfolding(crate::specs::Spelling::be32))]
pub fn put_u32(out: &mut Vec<u8>, n: u32) -> Result<(), NoMemory>
    ensures { OnOk result (out.new.items ≡ out.old.items ++ be32 n) }
{
    out.extend_from_slice(&n.to_be_bytes())?;
    Ok(())
}

/// Appends a number as eight bytes.
#[tactic(auto, unfolding(crate::specs::Spelling::be64))]
pub fn put_u64(out: &mut Vec<u8>, n: u64) -> Result<(), NoMemory>
    ensures { OnOk result (out.new.items ≡ out.old.items ++ be64 n) }
{
    out.extend_from_slice(&n.to_be_bytes())?;
    Ok(())
}

/// Appends a signed number as eight bytes, in two's complement.
#[tactic(auto, unfolding(crate::specs::Spelling::signed64))]
pub fn put_i64(out: &mut Vec<u8>, n: i64) -> Result<(), NoMemory>
    ensures bytes { OnOk result (out.new.items ≡ out.old.items ++ signed64 n) }
    ensures fits { FitsSigned w64 n }
{
    out.extend_from_slice(&n.to_be_bytes())?;
    Ok(())
}

/// Appends a text: its length as four bytes, and its bytes.
pub fn put_text(out: &mut Vec<u8>, text: &str) -> Result<(), NoMemory>
    requires { length text.now < 2 ^ 32 }
    ensures bytes { OnOk result (out.new.items ≡ out.old.items ++ text_bytes text.now) }
    ensures text { IsText text.now }
{
    put_u32(out, text.len() as u32)?;
    out.extend_from_slice(text.as_bytes())?;
    Ok(())
}

/// Appends a name as the text that it is.
pub fn put_name(out: &mut Vec<u8>, name: &Name) -> Result<(), NoMemory>
    ensures bytes { OnOk result (out.new.items ≡ out.old.items ++ text_bytes name.now) }
    ensures name { IsName name.now }
{
    put_text(out, name.as_str())
}

/// The bytes after a mark: the eight bytes that each kind of file begins with.
pub fn after_mark<'a>(mark: &[u8], bytes: &'a [u8]) -> Result<&'a [u8], BrokenField>
    requires { length mark.now ≡ 8 }
    ensures { GivesExactly (λ rest. rest.now) result (mark_at mark.now bytes.now) }
{
    let left = bytes.len();
    match bytes.strip_prefix(mark) {
        Some(rest) => Ok(rest),
        None => Err(BrokenField { left }),
    }
}

/// The first byte.
pub fn byte_at(bytes: &[u8]) -> Result<(u8, &[u8]), BrokenField>
    ensures { GivesExactly (λ x. (x.0, x.1.now)) result (byte_at bytes.now) }
{
    if bytes.is_empty() {
        return Err(BrokenField { left: 0 });
    }
    let (first, rest) = bytes.split_at(1);
    Ok((first[0], rest))
}

/// The number in the first four bytes.
pub fn u32_at(bytes: &[u8]) -> Result<(u32, &[u8]), BrokenField>
    ensures { GivesExactly (λ x. (x.0, x.1.now)) result (number_at w32 bytes.now) }
{
    if bytes.len() < 4 {
        return Err(BrokenField { left: bytes.len() });
    }
    let (first, rest) = bytes.split_at(4);
    let number = u32::from_be_bytes([first[0], first[1], first[2], first[3]]);
    Ok((number, rest))
}

/// The number in the first eight bytes.
pub fn u64_at(bytes: &[u8]) -> Result<(u64, &[u8]), BrokenField>
    ensures { GivesExactly (λ x. (x.0, x.1.now)) result (number_at w64 bytes.now) }
{
    if bytes.len() < 8 {
        return Err(BrokenField { left: bytes.len() });
    }
    let (first, rest) = bytes.split_at(8);
    let number = u64::from_be_bytes([
        first[0], first[1], first[2], first[3], first[4], first[5], first[6], first[7],
    ]);
    Ok((number, rest))
}

/// The signed number in the first eight bytes.
#[tactic(auto, unfolding(crate::specs::Codec::signed_at))]
pub fn i64_at(bytes: &[u8]) -> Result<(i64, &[u8]), BrokenField>
    ensures { GivesExactly (λ x. (x.0, x.1.now)) result (signed_at bytes.now) }
{
    let (number, rest) = u64_at(bytes)?;
    Ok((number.cast_signed(), rest))
}

/// The bytes as a text, where they are UTF-8.
#[tactic(auto, using(crate::proofs::CodecLaws::not_utf8, crate::proofs::CodecLaws::utf8_found))]
fn str_of(bytes: &[u8]) -> Option<&str>
    ensures { MatchOption result (is_utf8 bytes.now ≡ false) (λ text. (is_utf8 bytes.now ≡ true)
        × (text.now ≡ bytes.now)) }
{
    match str::from_utf8(bytes) {
        Ok(text) => Some(text),
        Err(_) => None,
    }
}

/// The text at the start of the bytes.
#[tactic(auto, unfolding(crate::specs::Codec::text_at))]
pub fn text_at(bytes: &[u8]) -> Result<(&str, &[u8]), BrokenField>
    ensures { GivesExactly (λ x. (x.0.now, x.1.now)) result (text_at bytes.now) }
{
    let (len, rest) = u32_at(bytes)?;
    if rest.len() < len as usize {
        return Err(BrokenField { left: bytes.len() });
    }
    let (text, rest) = rest.split_at(len as usize);
    match str_of(text) {
        Some(text) => Ok((text, rest)),
        None => Err(BrokenField { left: bytes.len() }),
    }
}

/// Whether a text is a name: it has 1 to 255 bytes.
fn is_name(text: &str) -> bool
    ensures { result ≡ is_name text.now }
{
    0 < text.len() && text.len() < 256
}

/// The name at the start of the bytes: a text of 1 to 255 bytes.
#[tactic(auto, unfolding(crate::specs::Codec::name_at))]
pub fn name_at(bytes: &[u8]) -> Result<(&str, &[u8]), BrokenField>
    ensures { GivesExactly (λ x. (x.0.now, x.1.now)) result (name_at bytes.now) }
{
    let (text, rest) = text_at(bytes)?;
    if is_name(text) {
        Ok((text, rest))
    } else {
        Err(BrokenField { left: bytes.len() })
    }
}
