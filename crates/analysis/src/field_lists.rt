//! The words of all fields of documents that are read one after another.
ghost use Rattle.std.specs.Prelude.{◌≡◌, map, true, IfOk, OnOk, codes};
ghost use Rattle.std.specs.List.{flat_map};
ghost use Rattle.ix_base.specs.Limits.{names_rise};
ghost use Rattle.ix_base.specs.Terms.{terms};
ghost use Rattle.analysis.specs.Kept.{IsFieldBelow, AreNamedBelow, AreFieldsBelow, AddsPlaces, AreAllTerms, cut_places};

use crate::name_key::NameKey;
use crate::word_lists::{Cut, WordLists};
use ix_base::{Document, Name, NoMemory, TermPostings, Text};
use std::alloc::Global;
use std::collections::BTreeMap;

/// Fields by name, each with its words.
pub type FieldLists = BTreeMap<NameKey, WordLists>;

/// Adds the places of a field's terms in a row that is after those that the field has.
fn add_field(
    alloc: Global,
    fields: &mut FieldLists,
    scratch: &mut String,
    row: u32,
    cut: Cut,
    name: &Name,
    text: &Text,
) -> Result<(), NoMemory>
    requires { IsFieldBelow row name.now fields.old.entries }
    ensures { OnOk result (AddsPlaces row
        (cut_places cut (name.now, text.now)) fields.old.entries fields.new.entries) }
{
    let key = NameKey::new(name.clone_in(alloc)?);
    if let Some(words) = fields.get_mut(&key) {
        return words.add_text(alloc, scratch, row, cut, text);
    }
    let mut words = WordLists::new(alloc);
    words.add_text(alloc, scratch, row, cut, text)?;
    fields.insert(key, words)?;
    Ok(())
}

/// Adds the places of the terms of fields in a row that is after those that these fields have.
fn add_fields(
    alloc: Global,
    fields: &mut FieldLists,
    scratch: &mut String,
    row: u32,
    cut: Cut,
    pairs: &[(Name, Text)],
) -> Result<(), NoMemory>
    requires rise { names_rise (map (λ pair. pair.0) pairs.now) ≡ true }
    requires below { AreNamedBelow row pairs.now fields.old.entries }
    ensures { OnOk result (AddsPlaces row
        (flat_map (cut_places cut) pairs.now) fields.old.entries fields.new.entries) }
{
    for (name, text) in pairs {
        add_field(alloc, fields, scratch, row, cut, name, text)?;
    }
    Ok(())
}

fn key_name(alloc: Global) -> Result<Name, NoMemory>
    ensures { IfOk result (λ name. name ≡ codes "key") }
{
    match Name::new(Text::copy_of(alloc, "key")?) {
        Some(name) => Ok(name),
        None => Err(NoMemory),
    }
}

/// Adds the places of a document's terms in a row that is after those that are there.
pub fn add_document(
    alloc: Global,
    fields: &mut FieldLists,
    scratch: &mut String,
    row: u32,
    doc: &Document,
) -> Result<(), NoMemory>
    requires { AreFieldsBelow row fields.old.entries }
    ensures { OnOk result (AddsPlaces row (terms doc.now) fields.old.entries fields.new.entries) }
{
    let key = key_name(alloc)?;
    add_field(alloc, fields, scratch, row, Cut::Whole, &key, &doc.key)?;
    add_fields(
        alloc,
        fields,
        scratch,
        row,
        Cut::Whole,
        doc.exact.as_slice(),
    )?;
    add_fields(alloc, fields, scratch, row, Cut::Words, doc.text.as_slice())
}

/// The words of all fields as terms, rising by field and then by bytes.
pub fn all_terms(alloc: Global, fields: FieldLists) -> Result<Vec<TermPostings>, NoMemory>
    ensures { IfOk result (λ terms. AreAllTerms fields.entries terms.items) }
{
    let mut terms = Vec::new(alloc);
    for (key, words) in fields {
        let mut made = words.into_terms(alloc, key.name())?;
        terms.append(&mut made)?;
    }
    Ok(terms)
}
