//! Numbers, texts and terms found at the start of bytes. No memory is taken.
ghost use Rattle.std.specs.Prelude.{◌≡◌, ◌<◌, ◌^◌, length, IfOk, IfErr, FitsSigned};
ghost use Rattle.std.specs.Int.{w64};
ghost use Rattle.ix_base.specs.Entry.{term_bytes, IsOwnTerm};
ghost use Rattle.ix_base.specs.Spelling.{be32, signed64, text_bytes, IsText, IsName};
ghost use Rattle.node_words.specs.Reads.{Finds, byte_alone, pair_in, term_in, range_in, IsPair, IsRange, pair_bytes, range_bytes};

use crate::MOST_TERM_BYTES;
use crate::fault::WrongForm;
use crate::parts::{RangeParts, TextPair};
use ix_base::codec;
use std::marker::Model;

/// A cursor over bytes. Contracts see it as the bytes that are left. Which are left after an error is
/// not specified.
#[derive(Drop)]
pub(crate) struct Reader<'a> {
    rest: &'a [u8],
}

impl<'a> Model for Reader<'a> {
    ghost use Rattle.std.specs.Prelude.{List, ℕ};
    ghost use Rattle.ix_base.specs.Spelling.{AreBytes};

    ghost Value = { List ℕ };

    ghost view = { λ reader. reader.rest.now };

    ghost invariant = { λ reader. AreBytes reader.rest.now };
}

impl<'a> Reader<'a> {
    pub(crate) fn new(bytes: &'a [u8]) -> Reader<'a>
        ensures { result ≡ bytes.now }
    {
        Reader { rest: bytes }
    }

    /// `Ok` where no bytes are left.
    pub(crate) fn end(&self) -> Result<(), WrongForm>
        ensures none { IfOk result (λ _. length self.now ≡ 0) }
        ensures some { IfErr result (λ _. 0 < length self.now) }
    {
        if self.rest.is_empty() {
            Ok(())
        } else {
            Err(WrongForm)
        }
    }

    pub(crate) fn byte(&mut self) -> Result<u8, WrongForm>
        ensures { Finds (λ found. found) (λ b. b < 256) byte_alone self.old self.new result }
    {
        let (byte, rest) = codec::byte_at(self.rest)?;
        self.rest = rest;
        Ok(byte)
    }

    pub(crate) fn number(&mut self) -> Result<u32, WrongForm>
        ensures { Finds (λ found. found) (λ n. n < 2 ^ 32) be32 self.old self.new result }
    {
        let (number, rest) = codec::u32_at(self.rest)?;
        self.rest = rest;
        Ok(number)
    }

    pub(crate) fn signed(&mut self) -> Result<i64, WrongForm>
        ensures { Finds (λ found. found) (FitsSigned w64) signed64 self.old self.new result }
    {
        let (number, rest) = codec::i64_at(self.rest)?;
        self.rest = rest;
        Ok(number)
    }

    pub(crate) fn text(&mut self) -> Result<&'a str, WrongForm>
        ensures { Finds (λ found. found.now) IsText text_bytes self.old self.new result }
    {
        let (text, rest) = codec::text_at(self.rest)?;
        self.rest = rest;
        Ok(text)
    }

    pub(crate) fn name(&mut self) -> Result<&'a str, WrongForm>
        ensures { Finds (λ found. found.now) IsName text_bytes self.old self.new result }
    {
        let (name, rest) = codec::name_at(self.rest)?;
        self.rest = rest;
        Ok(name)
    }

    /// A name, and a text after it.
    pub(crate) fn pair(&mut self) -> Result<TextPair<'a>, WrongForm>
        ensures { Finds pair_in IsPair pair_bytes self.old self.new result }
    {
        let name = self.name()?;
        let text = self.text()?;
        Ok(TextPair { name, text })
    }

    /// A name, and the two bounds of a range after it.
    pub(crate) fn range(&mut self) -> Result<RangeParts<'a>, WrongForm>
        ensures { Finds range_in IsRange range_bytes self.old self.new result }
    {
        let name = self.name()?;
        let low = self.signed()?;
        let high = self.signed()?;
        Ok(RangeParts { name, low, high })
    }

    /// A term that is short enough to be an operation's own.
    pub(crate) fn own_term(&mut self) -> Result<TextPair<'a>, WrongForm>
        ensures { Finds term_in IsOwnTerm term_bytes self.old self.new result }
    {
        let term = self.pair()?;
        if term.text.len() > MOST_TERM_BYTES {
            return Err(WrongForm);
        }
        Ok(term)
    }
}
