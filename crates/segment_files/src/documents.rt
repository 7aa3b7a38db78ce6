//! Documents and rows as bytes. What is written is in the grammar, as the types of its parts say.
//! After an error a prefix of it may stand behind the bytes that were there.
ghost use Rattle.std.specs.Prelude.{◌≡◌, ◌<◌, ◌^◌, ◌++◌, length, map, true, OnOk};
ghost use Rattle.std.specs.List.{AllByRecursion};
ghost use Rattle.ix_base.specs.Limits.{names_rise};
ghost use Rattle.segment_files.specs.Spelling.{field, fields, number_bytes, numbers_bytes, document, row};
ghost use Rattle.segment_files.specs.Fits.{FieldFits, NumberFits, DocumentFits};

use ix_base::codec::{put_i64, put_name, put_text, put_u32, put_u64};
use ix_base::{Document, Fields, Name, NoMemory, Numbers, Row, Text};

fn put_field(out: &mut Vec<u8>, pair: &(Name, Text)) -> Result<(), NoMemory>
    ensures bytes { OnOk result (out.new.items ≡ out.old.items ++ field pair.now) }
    ensures fits { OnOk result (FieldFits pair.now) }
{
    put_name(out, &pair.0)?;
    put_text(out, pair.1.as_str())?;
    Ok(())
}

/// Appends how many pairs there are, and then each of them: its name and its text. After an error a
/// prefix of that may stand there.
pub fn put_fields(out: &mut Vec<u8>, pairs: &Fields) -> Result<(), NoMemory>
    ensures bytes { OnOk result (out.new.items ≡ out.old.items ++ fields pairs.now) }
    ensures fits { OnOk result (AllByRecursion FieldFits pairs.now) }
    ensures count { length pairs.now < 2 ^ 32 }
    ensures rise { names_rise (map (λ pair. pair.0) pairs.now) ≡ true }
{
    let pairs = pairs.as_slice();
    put_u32(out, pairs.len() as u32)?;
    for pair in pairs {
        put_field(out, pair)?;
    }
    Ok(())
}

fn put_number(out: &mut Vec<u8>, pair: &(Name, i64)) -> Result<(), NoMemory>
    ensures bytes { OnOk result (out.new.items ≡ out.old.items ++ number_bytes pair.now) }
    ensures fits { OnOk result (NumberFits pair.now) }
{
    put_name(out, &pair.0)?;
    put_i64(out, pair.1)?;
    Ok(())
}

fn put_numbers(out: &mut Vec<u8>, pairs: &Numbers) -> Result<(), NoMemory>
    ensures bytes { OnOk result (out.new.items ≡ out.old.items ++ numbers_bytes pairs.now) }
    ensures fits { OnOk result (AllByRecursion NumberFits pairs.now) }
    ensures count { OnOk result (length pairs.now < 2 ^ 64) }
    ensures rise { names_rise (map (λ pair. pair.0) pairs.now) ≡ true }
{
    let pairs = pairs.as_slice();
    put_u64(out, pairs.len() as u64)?;
    for pair in pairs {
        put_number(out, pair)?;
    }
    Ok(())
}

fn put_document(out: &mut Vec<u8>, doc: &Document) -> Result<(), NoMemory>
    ensures bytes { OnOk result (out.new.items ≡ out.old.items ++ document doc.now) }
    ensures fits { OnOk result (DocumentFits doc.now) }
{
    put_text(out, doc.key.as_str())?;
    put_fields(out, &doc.text)?;
    put_fields(out, &doc.exact)?;
    put_numbers(out, &doc.num)?;
    Ok(())
}

/// Appends a row: the number and the place of its birth, and its document.
pub(crate) fn put_row(out: &mut Vec<u8>, item: &Row) -> Result<(), NoMemory>
    ensures bytes { OnOk result (out.new.items ≡ out.old.items ++ row item.now) }
    ensures fits { OnOk result (DocumentFits item.now.doc) }
{
    put_u64(out, item.birth.number())?;
    put_u32(out, item.birth.place())?;
    put_document(out, &item.doc)?;
    Ok(())
}
