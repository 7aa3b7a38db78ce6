//! The report of lines of each kind: numbered, committed, refused, and searches whose text was made before.
use ix_base::{List, NoMemory, Refusal};
use run_report::{Answer, Outcome, report};
use std::alloc::Global;
use std::test::Fail;

/// What a search line found, as a text.
fn found(alloc: Global, text: &str) -> Result<Answer, NoMemory> {
    let mut bytes = Vec::new(alloc);
    bytes.extend_from_slice(text.as_bytes())?;
    Ok(Answer::Found(List::from_vec(bytes)))
}

/// Outcomes of six lines, of which two searched.
fn six_outcomes(alloc: Global) -> Result<Vec<Outcome>, NoMemory> {
    let mut outcomes = Vec::new(alloc);
    let answers = [
        (1, Answer::Numbered(1)),
        (2, found(alloc, "{\"commit\":0,\"hits\":[],\"line\":2}\n")?),
        (3, Answer::Refused(Refusal::Term { size: 32_767 })),
        (4, Answer::Committed(2, 1)),
        (5, Answer::Refused(Refusal::Query { size: 131_073 })),
        (6, found(alloc, "{\"commit\":2,\"hits\":[],\"line\":6}\n")?),
    ];
    for (line, answer) in answers {
        outcomes.push(Outcome { line, answer })?;
    }
    Ok(outcomes)
}

#[test]
fn texts_stand_in_the_order_of_the_lines(rt: HostRuntime) -> Result<(), Fail> {
    let alloc = rt.alloc();
    let outcomes = six_outcomes(alloc)?;
    let bytes = report(alloc, outcomes.as_slice())?;
    let wanted =
        "{\"line\":1,\"seq\":1}\n{\"commit\":0,\"hits\":[],\"line\":2}\n{\"line\":3,\"refused\":\"term\",\"size\":32767}\n{\"docs\":1,\"line\":4,\"seq\":2}\n{\"line\":5,\"refused\":\"query\",\"size\":131073}\n{\"commit\":2,\"hits\":[],\"line\":6}\n";
    assert!(rt; bytes.as_slice() == wanted.as_bytes());
    Ok(())
}

/// The report of no line.
#[test]
fn a_report_of_no_line_is_empty(rt: HostRuntime) -> Result<(), Fail> {
    assert!(rt; report(rt.alloc(), &[])?.as_slice() == "".as_bytes());
    Ok(())
}

/// So many search lines, each with the same text.
fn searches(alloc: Global, text: &str, count: u32) -> Result<Vec<Outcome>, NoMemory> {
    let mut outcomes = Vec::new(alloc);
    for line in 1..=count {
        outcomes.push(Outcome {
            line,
            answer: found(alloc, text)?,
        })?;
    }
    Ok(outcomes)
}

#[test]
fn a_thousand_searches_are_all_told(rt: HostRuntime) -> Result<(), Fail> {
    let alloc = rt.alloc();
    let outcomes = searches(alloc, "{\"commit\":1000,\"hits\":[],\"line\":1}\n", 1000)?;
    let bytes = report(alloc, outcomes.as_slice())?;
    assert!(rt; bytes.len() == 35_000);
    Ok(())
}
