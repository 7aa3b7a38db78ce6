use ix_base::{
    Block, Document, Name, NoMemory, Operation, PhraseText, Query, Refusal, Refused, Term, Text,
};
use node_words::{Entry, decode, encode};
use std::alloc::Global;
use std::fmt::Write;
use std::test::*;

fn text_of(string: String) -> Result<Text, NoMemory> {
    Text::new(string).ok_or(NoMemory)
}

fn text(alloc: Global, string: &str) -> Result<Text, NoMemory> {
    text_of(String::from_str(alloc, string)?)
}

fn name(alloc: Global, string: &str) -> Result<Name, NoMemory> {
    Name::new(text(alloc, string)?).ok_or(NoMemory)
}

/// A text of so many letters.
fn letters(alloc: Global, count: usize) -> Result<Text, NoMemory> {
    let mut string = String::new(alloc);
    for _ in 0..count {
        string.push('a')?;
    }
    text_of(string)
}

/// A delete by the term of so many letters.
fn delete_term(alloc: Global, count: usize) -> Result<Operation, NoMemory> {
    let field = name(alloc, "body")?;
    let bytes = letters(alloc, count)?;
    Ok(Operation::DeleteTerm(Term { field, bytes }))
}

/// A delete by the phrase of so many letters.
fn delete_phrase(alloc: Global, count: usize) -> Result<Operation, NoMemory> {
    let field = name(alloc, "body")?;
    let phrase = PhraseText::new(letters(alloc, count)?).ok_or(NoMemory)?;
    Ok(Operation::DeleteQuery(Query::Phrase(field, phrase)))
}

/// The number of words, or the size of what was refused.
pub(crate) fn outcome(words: Result<Vec<u64>, Refused>) -> (u64, u64) {
    match words {
        Ok(words) => (words.len() as u64, 0),
        Err(Refused::For(Refusal::Term { size })) => (1, size),
        Err(Refused::For(Refusal::Query { size })) => (2, size),
        Err(Refused::NoMemory) => (3, 0),
    }
}

fn term_outcome(alloc: Global, count: usize) -> Result<(u64, u64), NoMemory> {
    let delete = delete_term(alloc, count)?;
    Ok(outcome(encode(alloc, &delete)))
}

fn phrase_outcome(alloc: Global, count: usize) -> Result<(u64, u64), NoMemory> {
    let delete = delete_phrase(alloc, count)?;
    Ok(outcome(encode(alloc, &delete)))
}

#[test]
fn term_limit(rt: HostRuntime) {
    for (count, want) in [(32766, (4099, 0)), (32767, (1, 32767))] {
        assert!(rt; term_outcome(rt.alloc(), count) == Ok(want));
    }
}

#[test]
fn query_limit(rt: HostRuntime) {
    for (count, want) in [(131_059, (16385, 0)), (131_060, (2, 131_073))] {
        assert!(rt; phrase_outcome(rt.alloc(), count) == Ok(want));
    }
}

fn put_term(out: &mut String, start: &str, term: &Term) -> Result<(), NoMemory> {
    out.push_str(start)?;
    out.push_str(term.field.as_str())?;
    out.push(' ')?;
    out.push_str(term.bytes.as_str())?;
    Ok(())
}

fn put_setting(out: &mut String, num: &Name, value: i64) -> Result<(), NoMemory> {
    let num = num.as_str();
    match write!(out, " {num} {value}") {
        Ok(()) => Ok(()),
        Err(_) => Err(NoMemory),
    }
}

/// Shows what an entry asks for, a query left out, or `none` where there is none.
fn show(out: &mut String, entry: Option<&Entry>) -> Result<(), NoMemory> {
    match entry {
        Some(Entry::Add) => Ok(out.push_str("add")?),
        Some(Entry::Update(term)) => put_term(out, "update ", term),
        Some(Entry::DeleteTerm(term)) => put_term(out, "delete ", term),
        Some(Entry::DeleteQuery(_)) => Ok(out.push_str("query")?),
        Some(Entry::SetNumber { term, num, value }) => {
            put_term(out, "set ", term)?;
            put_setting(out, num, *value)
        }
        Some(Entry::Commit) => Ok(out.push_str("commit")?),
        Some(Entry::Turn) => Ok(out.push_str("turn")?),
        None => Ok(out.push_str("none")?),
    }
}

/// Shows what the words spell, or `none`.
fn show_words(alloc: Global, out: &mut String, words: &[u64]) -> Result<(), NoMemory> {
    let entry = decode(alloc, words)?;
    show(out, entry.as_ref())
}

/// The word that is written so. A test never has other digits.
fn word_of(digits: &str) -> Result<u64, NoMemory> {
    match u64::from_str_radix(digits, 16) {
        Ok(word) => Ok(word),
        Err(_) => Err(NoMemory),
    }
}

/// The words that are written so, each of sixteen digits.
pub(crate) fn words_in(alloc: Global, text: &str) -> Result<Vec<u64>, NoMemory> {
    let mut words = Vec::new(alloc);
    for word in text.split(' ') {
        if !word.is_empty() {
            words.push(word_of(word)?)?;
        }
    }
    Ok(words)
}

/// What the words spell that are written so, or `none`.
fn answer(alloc: Global, text: &str) -> Result<String, NoMemory> {
    let mut out = String::new(alloc);
    show_text(alloc, &mut out, text)?;
    Ok(out)
}

fn show_text(alloc: Global, out: &mut String, text: &str) -> Result<(), NoMemory> {
    let words = words_in(alloc, text)?;
    show_words(alloc, out, words.as_slice())
}

/// An entry of each kind, written by hand, and then words that are one step from a spelling.
const SPELLED: &str = "\
0000000100000000 = add
000000020000000d 000000036b657900 0000026131000000 = update key a1
000000030000000d 000000036b657900 0000026131000000 = delete key a1
0000000400000025 0300000001010000 0001660000000161 0000000000000001 0200000001660000 0003622063000000 = query
0000000400000016 04000000016effff fffffffffffe0000 0000000000090000 = query
000000050000001a 000000036b657900 0000026131000000 016effffffffffff fffe000000000000 = set key a1 n -2
0000000600000000 = commit
0000000700000000 = turn
 = none
0000000000000000 = none
0000000800000000 = none
0000000100000000 0000000000000000 = none
0000000700000001 0000000000000000 = none
0000000400000001 0500000000000000 = none
0000000400000015 04000000006effff fffffffffffe0000 0000000000000000 = none
000000030000000d 000000036b657900 = none
000000030000000d 000000036b657900 0000026131000001 = none
000000030000000e 000000036b657900 0000026131000000 = none
000000030000000d 00000003ff657900 0000026131000000 = none";

#[test]
fn words_by_hand(rt: HostRuntime) -> Result<(), Fail> {
    for line in SPELLED.lines() {
        let (text, wanted) = line.split_once(" = ").ok_or("no answer")?;
        assert!(rt; answer(rt.alloc(), text)?.as_str() == wanted, "{line}");
    }
    Ok(())
}

/// The term `a1` of the field `key`.
fn key_term(alloc: Global) -> Result<Term, NoMemory> {
    let field = name(alloc, "key")?;
    let bytes = text(alloc, "a1")?;
    Ok(Term { field, bytes })
}

/// A block of two documents, with the keys `p1` and `p2`.
fn two_documents(alloc: Global) -> Result<Block, NoMemory> {
    let mut docs = Vec::new(alloc);
    for key in ["p1", "p2"] {
        docs.push(Document::of_key(alloc, text(alloc, key)?))?;
    }
    Block::new(docs).ok_or(NoMemory)
}

/// Whether the words of the operation are those that are written so.
fn has_words(alloc: Global, operation: &Operation, text: &str) -> Result<bool, NoMemory> {
    let want = words_in(alloc, text)?;
    match encode(alloc, operation) {
        Ok(words) => Ok(words.as_slice() == want.as_slice()),
        Err(_) => Ok(false),
    }
}

/// A delete, and two blocks, which have the words of an add and of an update by their term.
#[test]
fn words_of_operations(rt: HostRuntime) -> Result<(), Fail> {
    let alloc = rt.alloc();
    let cases = [
        (
            Operation::DeleteTerm(key_term(alloc)?),
            "000000030000000d 000000036b657900 0000026131000000",
        ),
        (
            Operation::AddBlock(two_documents(alloc)?),
            "0000000100000000",
        ),
        (
            Operation::UpdateBlock(key_term(alloc)?, two_documents(alloc)?),
            "000000020000000d 000000036b657900 0000026131000000",
        ),
    ];
    for (operation, text) in &cases {
        assert!(rt; has_words(alloc, operation, text)?, "{text}");
    }
    Ok(())
}

/// Whether the words spell an entry.
fn spells(alloc: Global, words: &[u64]) -> Result<bool, NoMemory> {
    let mut out = String::new(alloc);
    show_words(alloc, &mut out, words)?;
    Ok(out.as_str() != "none")
}

/// A head word and these bytes, eight in a word, the first byte highest, the last word filled with zero
/// bytes.
fn packed(alloc: Global, head: u64, bytes: &[u8]) -> Result<Vec<u64>, NoMemory> {
    let mut words = vec![in alloc; head]?;
    for (place, byte) in bytes.iter().enumerate() {
        if place % 8 == 0 {
            words.push(0)?;
        }
        if let Some(last) = words.last_mut() {
            *last |= u64::from(*byte) << (56 - place % 8 * 8);
        }
    }
    Ok(words)
}

/// Whether these bytes are those of an entry of this kind.
fn is_entry(alloc: Global, kind: u8, bytes: &[u8]) -> Result<bool, NoMemory> {
    let head = kind as u64 * (1 << 32) + bytes.len() as u64;
    let words = packed(alloc, head, bytes)?;
    spells(alloc, &words)
}

/// Whether no prefix of the bytes is an entry of this kind, except all of them.
fn is_no_sooner(alloc: Global, kind: u8, bytes: &[u8]) -> Result<bool, NoMemory> {
    let mut part = Vec::new(alloc);
    for byte in bytes {
        if is_entry(alloc, kind, &part)? {
            return Ok(false);
        }
        part.push(*byte)?;
    }
    is_entry(alloc, kind, &part)
}

/// Whether the bytes with a zero byte after them are an entry of this kind.
fn is_longer(alloc: Global, kind: u8, bytes: &[u8]) -> Result<bool, NoMemory> {
    let mut longer = Vec::new(alloc);
    longer.extend_from_slice(bytes)?;
    longer.push(0)?;
    is_entry(alloc, kind, &longer)
}

/// The bytes of an entry of each kind that has some, behind the kind's digit.
const ENTRIES: [&str; 6] = [
    "2\0\0\0\x03key\0\0\0\x02a1",
    "4\x01\0\0\0\x01f\0\0\0\x01a",
    "4\x02\0\0\0\x01f\0\0\0\x03b c",
    "4\x04\0\0\0\x01n\0\0\0\0\0\0\0\x05\0\0\0\0\0\0\0\x09",
    "4\x03\0\0\0\0\0\0\0\x01\0\0\0\0\x01\0",
    "5\0\0\0\x03key\0\0\0\x02a1\0\0\0\x01n\0\0\0\0\0\0\0\x07",
];

/// Whether the bytes of an entry are one, and no cut of them is, nor they with a byte more.
fn is_whole(alloc: Global, entry: &str) -> Result<bool, NoMemory> {
    let Some((digit, bytes)) = entry.as_bytes().split_first() else {
        return Ok(false);
    };
    let kind = digit & 7;
    Ok(is_no_sooner(alloc, kind, bytes)? && !is_longer(alloc, kind, bytes)?)
}

#[test]
fn foreign_cuts(rt: HostRuntime) {
    for entry in ENTRIES {
        assert!(rt; is_whole(rt.alloc(), entry) == Ok(true));
    }
}

fn put_letters(out: &mut Vec<u8>, count: u32) -> Result<(), NoMemory> {
    out.extend_from_slice(&count.to_be_bytes())?;
    for _ in 0..count {
        out.push(b'a')?;
    }
    Ok(())
}

/// Whether a delete by a name and a text of so many letters is read: by a term at kind 3, by a
/// phrase at kind 4.
fn is_read(alloc: Global, kind: u8, name: u32, text: u32) -> Result<bool, NoMemory> {
    let mut bytes = Vec::new(alloc);
    if kind == 4 {
        bytes.push(2)?;
    }
    put_letters(&mut bytes, name)?;
    put_letters(&mut bytes, text)?;
    is_entry(alloc, kind, &bytes)
}

/// Terms and phrases by the bytes of the name and of the text, at their limits.
const LIMITS: &str = "\
3 1 0 true
3 0 1 false
3 255 32766 true
3 256 1 false
3 1 32767 false
4 255 32767 true
4 0 1 false
4 256 1 false
4 4 131059 true
4 4 131060 false";

/// Whether what is read at a limit is as the line says.
fn is_right(alloc: Global, line: &str) -> Result<bool, Fail> {
    let (kind, rest) = line.split_once(' ').ok_or("no kind")?;
    let (name, rest) = rest.split_once(' ').ok_or("no name")?;
    let (text, wanted) = rest.split_once(' ').ok_or("no text")?;
    let read = is_read(
        alloc,
        kind.parse::<u8>()?,
        name.parse::<u32>()?,
        text.parse::<u32>()?,
    )?;
    Ok(read == (wanted == "true"))
}

#[test]
fn read_limits(rt: HostRuntime) -> Result<(), Fail> {
    for line in LIMITS.lines() {
        assert!(rt; is_right(rt.alloc(), line)?, "{line}");
    }
    Ok(())
}
