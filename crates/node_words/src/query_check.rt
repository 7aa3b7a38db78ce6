//! Whether bytes are a query. No memory is taken.
ghost use Rattle.ix_base.specs.QueryBytes.{query_bytes, list_bytes, IsQuery, IsQueryList};
ghost use Rattle.node_words.specs.Reads.{Skips, ChecksAll};

use crate::fault::WrongForm;
use crate::reader::Reader;

/// `Ok` where the bytes, all of them, spell a query.
pub(crate) fn check_query(bytes: &[u8]) -> Result<(), WrongForm>
    ensures { ChecksAll IsQuery query_bytes bytes.now result }
{
    let mut reader = Reader::new(bytes);
    skip_query(&mut reader)?;
    reader.end()?;
    Ok(())
}

/// Passes over the query at the start of the bytes that are left. A query within a query has fewer
/// bytes than it, so the number of bytes bounds how deep the calls go.
#[cycle(skip_query)]
fn skip_query(reader: &mut Reader<'_>) -> Result<(), WrongForm>
    ensures { Skips IsQuery query_bytes reader.old reader.new result }
{
    match reader.byte()? {
        0 => Ok(()),
        1 => {
            reader.pair()?;
            Ok(())
        }
        2 => {
            reader.pair()?;
            Ok(())
        }
        3 => {
            skip_list(reader)?;
            skip_list(reader)?;
            skip_list(reader)?;
            Ok(())
        }
        4 => {
            reader.range()?;
            Ok(())
        }
        _ => Err(WrongForm),
    }
}

/// Passes over the list of queries at the start of the bytes that are left.
#[cycle(skip_query)]
fn skip_list(reader: &mut Reader<'_>) -> Result<(), WrongForm>
    ensures { Skips IsQueryList list_bytes reader.old reader.new result }
{
    let count = reader.number()?;
    for _ in 0..count {
        skip_query(reader)?;
    }
    Ok(())
}
