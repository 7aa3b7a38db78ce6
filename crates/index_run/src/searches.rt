//! A script's search lines, answered from memory where the round has ended that their commit line ended.
ghost use Rattle.std.specs.Prelude.{◌≡◌, [], length, IfOk, OnOk};
ghost use Rattle.std.specs.List.{AllByRecursion};
ghost use Rattle.index_run.specs.Answered.{AllAnswerBehind, AnswersBehind, IsTextBy};

use index_writer::IndexWriter;
use ix_base::{List, NoMemory};
use line_shares::Ask;
use report_text::search_text;
use std::alloc::Global;

/// The texts of the search lines of each of so many callers, of which none is answered. The only error is
/// out of memory.
pub fn no_texts(alloc: Global, callers: usize) -> Result<Vec<Vec<List<u8>>>, NoMemory>
    ensures count { IfOk result (λ texts. length texts.items ≡ callers) }
    ensures none { IfOk result (λ texts. AllByRecursion (λ own. own.items ≡ []) texts.items) }
{
    let mut texts = Vec::with_capacity(alloc, callers)?;
    for _ in 0..callers {
        texts.push(Vec::new(alloc))?;
    }
    Ok(texts)
}

/// The text of a search line, by the rows of all operations that the writer's segments have. The only
/// error is out of memory.
fn found_text<S>(
    alloc: Global,
    writer: &mut IndexWriter<S>,
    ask: &Ask,
) -> Result<List<u8>, NoMemory>
    ensures text { IfOk result (λ text. IsTextBy writer.old.state ask.now text) }
    ensures state { writer.new.state ≡ writer.old.state }
    ensures store { writer.new.store ≡ writer.old.store }
{
    let hits = writer.hits(&ask.query)?;
    let text = search_text(alloc, writer.upto(), hits.as_slice(), ask.line)?;
    Ok(List::from_vec(text))
}

/// Answers the next search lines of a caller, as far as they stand behind the commit line at this place.
/// The only error is out of memory.
fn answer_caller<S>(
    alloc: Global,
    writer: &mut IndexWriter<S>,
    place: u32,
    asks: &[Ask],
    texts: &mut Vec<List<u8>>,
) -> Result<(), NoMemory>
    ensures answers { OnOk result
        (AnswersBehind writer.old.state place asks.now texts.old.items texts.new.items) }
    ensures state { writer.new.state ≡ writer.old.state }
    ensures store { writer.new.store ≡ writer.old.store }
{
    for at in texts.len()..asks.len() {
        let ask = &asks[at];
        if ask.behind != place {
            return Ok(());
        }
        let text = found_text(alloc, writer, ask)?;
        texts.push(text)?;
    }
    Ok(())
}

/// Answers the search lines of all callers that stand behind the commit line at this place, or, at the place
/// 0, behind none, from memory: the writer's segments have the rows of that commit. The only error is
/// out of memory.
pub fn answer_behind<S>(
    alloc: Global,
    writer: &mut IndexWriter<S>,
    place: u32,
    asks: &[Vec<Ask>],
    texts: &mut [Vec<List<u8>>],
) -> Result<(), NoMemory>
    requires count { length texts.old ≡ length asks.now }
    ensures answers { OnOk result (AllAnswerBehind writer.old.state place asks.now texts.old texts.new) }
    ensures state { writer.new.state ≡ writer.old.state }
    ensures store { writer.new.store ≡ writer.old.store }
{
    for caller in 0..asks.len() {
        answer_caller(
            alloc,
            writer,
            place,
            asks[caller].as_slice(),
            &mut texts[caller],
        )?;
    }
    Ok(())
}
