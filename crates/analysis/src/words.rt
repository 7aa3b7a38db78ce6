//! The folded words of texts.
ghost use Rattle.std.specs.Prelude.{◌≡◌, string_bytes, IfOk, OnOk};
ghost use Rattle.ix_base.specs.Terms.{folded, folded_words};

use caseless::Caseless;
use ix_base::{NoMemory, PhraseText, Text};
use std::alloc::Global;
use unicode_segmentation::UnicodeSegmentation;

/// A word folded, as a text. A folded word of 2^32 bytes or more is refused as want of memory.
fn fold_word(alloc: Global, word: &str) -> Result<Text, NoMemory>
    ensures { IfOk result (λ text. text ≡ folded word.now) }
{
    let string = caseless::default_case_fold_str(alloc, word)?;
    match Text::new(string) {
        Some(text) => Ok(text),
        None => Err(NoMemory),
    }
}

/// Makes a string of a folded word. A word of ASCII characters alone needs no table.
pub fn fold_into(scratch: &mut String, word: &str) -> Result<(), NoMemory>
    ensures { OnOk result (string_bytes scratch.new ≡ folded word.now) }
{
    scratch.clear();
    if word.is_ascii() {
        scratch.push_str(word)?;
        scratch.make_ascii_lowercase();
        return Ok(());
    }
    scratch.extend(word.chars().default_case_fold())?;
    Ok(())
}

/// The folded words of a phrase, in order. It refuses for memory only.
pub fn phrase_terms(alloc: Global, text: &PhraseText) -> Result<Vec<Text>, NoMemory>
    ensures { IfOk result (λ words. words.items ≡ folded_words text.now) }
{
    let mut words = Vec::new(alloc);
    for word in text.as_text().as_str().unicode_words() {
        words.push(fold_word(alloc, word)?)?;
    }
    Ok(words)
}
