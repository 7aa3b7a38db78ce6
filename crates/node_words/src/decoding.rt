//! Words as an entry.
ghost use Rattle.std.specs.Prelude.{◌≡◌, ◌≤◌, ◌↔◌, [], length, Some, IfOk, IfErr, IfSome, IsSome, option_map};
ghost use Rattle.ix_base.specs.Entry.{Entry as Value, entry_bytes, term_bytes, most_query_bytes, IsOwnTerm};
ghost use Rattle.ix_base.specs.Words.{Spells, IsEntryWords};
ghost use Rattle.node_words.specs.Entry.{value_of};
ghost use Rattle.node_words.specs.Packed.{ReadsEntry, HoldsFields};
ghost use Rattle.node_words.specs.Reads.{FindsAll, ReadsAll, IsOfKind, term_in, setting_in, IsSetting, setting_bytes};

use crate::entry::Entry;
use crate::fault::{ReadError, WrongForm};
use crate::parts::{SetParts, TextPair, name_from, term_from};
use crate::query_read::read_whole_query;
use crate::reader::Reader;
use crate::unpack::{held_in, unpack};
use ix_base::{NoMemory, Term};
use std::alloc::Global;

/// The entry that the words spell: `None` exactly where they spell none. Memory is taken for the
/// bytes, at most 131,072, and then for the entry. `NoMemory` is returned only where the words hold
/// bytes of a kind that has fields, rightly counted and filled; so never for an add, a commit or a
/// turn. Each level of a query takes a nested call, and a query has 10,082 levels at most, so a
/// thread that decodes any words needs some MB of stack.
pub fn decode(alloc: Global, words: &[u64]) -> Result<Option<Entry>, NoMemory>
    // What is read is spelled so.
    ensures found { IfOk result (λ found. IfSome found
        (λ entry. Spells words.now (value_of entry))) }
    // What is spelled so is read.
    ensures only { (e : Value) → Spells words.now e
        → IfOk result (λ found. option_map value_of found ≡ Some e) }
    ensures some { IfOk result (λ found. IsSome found ↔ IsEntryWords words.now) }
    // Memory is taken only where a head word, its count and the filling are those of an entry with
    // fields.
    ensures memory { IfErr result (λ _. HoldsFields words.now) }
{
    match read_words(alloc, words) {
        Ok(entry) => Ok(Some(entry)),
        Err(ReadError::Foreign) => Ok(None),
        Err(ReadError::Memory) => Err(NoMemory),
    }
}

/// The entry that the words spell.
fn read_words(alloc: Global, words: &[u64]) -> Result<Entry, ReadError>
    ensures { ReadsEntry words.now result }
{
    let held = held_in(words)?;
    if held.len == 0 {
        return Ok(plain_entry(held.kind)?);
    }
    if held.kind < 2 || held.kind > 5 {
        return Err(ReadError::Foreign);
    }
    let bytes = unpack(alloc, held)?;
    read_fields(alloc, held.kind, &bytes)
}

/// The entry of this kind without fields.
#[tactic(auto, using(crate::proofs::Entries::empty_fails))]
fn plain_entry(kind: u64) -> Result<Entry, WrongForm>
    ensures { FindsAll value_of (IsOfKind kind) entry_bytes [] result }
{
    match kind {
        1 => Ok(Entry::Add),
        6 => Ok(Entry::Commit),
        7 => Ok(Entry::Turn),
        _ => Err(WrongForm),
    }
}

/// The entry of this kind whose fields have these bytes, all of them. Memory runs out only where
/// they spell one.
fn read_fields(alloc: Global, kind: u64, bytes: &[u8]) -> Result<Entry, ReadError>
    requires from_update { 2 ≤ kind }
    requires to_set_number { kind ≤ 5 }
    requires short { length bytes.now ≤ most_query_bytes }
    ensures { ReadsAll value_of (IsOfKind kind) entry_bytes bytes.now result }
{
    match kind {
        2 => Ok(Entry::Update(read_own_term(alloc, bytes)?)),
        3 => Ok(Entry::DeleteTerm(read_own_term(alloc, bytes)?)),
        4 => Ok(Entry::DeleteQuery(read_whole_query(alloc, bytes)?)),
        _ => read_set_number(alloc, bytes),
    }
}

/// The term that the bytes, all of them, spell.
fn read_own_term(alloc: Global, bytes: &[u8]) -> Result<Term, ReadError>
    ensures { ReadsAll (λ found. found) IsOwnTerm term_bytes bytes.now result }
{
    let pair = own_term_in(bytes)?;
    Ok(term_from(alloc, pair)?)
}

/// Where the parts of the term that the bytes, all of them, spell stand.
fn own_term_in(bytes: &[u8]) -> Result<TextPair<'_>, WrongForm>
    ensures { FindsAll term_in IsOwnTerm term_bytes bytes.now result }
{
    let mut reader = Reader::new(bytes);
    let pair = reader.own_term()?;
    reader.end()?;
    Ok(pair)
}

/// The entry that sets a number whose bytes are these, all of them.
fn read_set_number(alloc: Global, bytes: &[u8]) -> Result<Entry, ReadError>
    ensures { ReadsAll value_of (IsOfKind 5) entry_bytes bytes.now result }
{
    let parts = set_parts_in(bytes)?;
    let term = term_from(alloc, parts.term)?;
    let num = name_from(alloc, parts.num)?;
    let value = parts.value;
    Ok(Entry::SetNumber { term, num, value })
}

/// Where the fields of an entry that sets a number, whose bytes are these, stand.
fn set_parts_in(bytes: &[u8]) -> Result<SetParts<'_>, WrongForm>
    ensures { FindsAll setting_in IsSetting setting_bytes bytes.now result }
{
    let mut reader = Reader::new(bytes);
    let term = reader.own_term()?;
    let num = reader.name()?;
    let value = reader.signed()?;
    reader.end()?;
    Ok(SetParts { term, num, value })
}
