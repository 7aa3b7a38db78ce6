//! A term as bytes.
ghost use Rattle.std.specs.Prelude.{◌≡◌, ◌++◌, OnOk};
ghost use Rattle.ix_base.specs.Spelling.{IsText, IsName};
ghost use Rattle.ix_base.specs.Entry.{term_bytes};

use ix_base::codec::{put_name, put_text};
use ix_base::{NoMemory, Term};

/// Appends a term: its field as a name, and its bytes as a text.
pub(crate) fn put_term(out: &mut Vec<u8>, term: &Term) -> Result<(), NoMemory>
    ensures bytes { OnOk result (out.new.items ≡ out.old.items ++ term_bytes term.now) }
    ensures field { OnOk result (IsName term.now.field) }
    ensures text { OnOk result (IsText term.now.bytes) }
{
    put_name(out, &term.field)?;
    put_text(out, term.bytes.as_str())?;
    Ok(())
}
