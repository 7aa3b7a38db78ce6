//! The report: one text for each line, in the order of the script.
ghost use Rattle.std.specs.Prelude.{◌≡◌, ◌++◌, IfOk, OnOk};
ghost use Rattle.run_report.specs.Texts.{outcome_text, texts};

use crate::outcome::{Answer, Outcome};
use ix_base::NoMemory;
use report_text::{commit_text, refused_text, write_text};
use std::alloc::Global;

/// The whole report: one text for each line of the script, in its order. The only error is out of memory.
pub fn report(alloc: Global, outcomes: &[Outcome]) -> Result<Vec<u8>, NoMemory>
    ensures { IfOk result (λ bytes. bytes.items ≡ texts outcomes.now) }
{
    let mut bytes = Vec::new(alloc);
    for outcome in outcomes {
        add_text(alloc, &mut bytes, outcome)?;
    }
    Ok(bytes)
}

/// Puts the text of a line at the end.
fn add_text(alloc: Global, bytes: &mut Vec<u8>, outcome: &Outcome) -> Result<(), NoMemory>
    ensures { OnOk result (bytes.new.items ≡ bytes.old.items ++ outcome_text outcome.now) }
{
    let line = outcome.line;
    match &outcome.answer {
        Answer::Found(text) => bytes.extend_from_slice(text.as_slice())?,
        Answer::Numbered(number) => {
            bytes.extend_from_slice(write_text(alloc, line, *number)?.as_slice())?;
        }
        Answer::Committed(number, docs) => {
            bytes.extend_from_slice(commit_text(alloc, *docs, line, *number)?.as_slice())?;
        }
        Answer::Refused(refusal) => {
            bytes.extend_from_slice(refused_text(alloc, line, *refusal)?.as_slice())?;
        }
    }
    Ok(())
}
