//! The commits that a run makes one after another, and what is told of the first of them.
use ix_base::NoMemory;
use std::alloc::Global;
use std::fmt::Write;

/// A commit of a run: its number, how many documents it has, and what a search for all of them shows.
#[derive(Clone, Copy)]
pub struct Stage {
    pub number: u64,
    pub docs: u64,
    pub hits: &'static str,
}

/// What `list` writes where these commits are there.
fn listed(alloc: Global, stages: &[Stage]) -> Result<String, NoMemory> {
    let mut text = String::new(alloc);
    for stage in stages {
        let (number, docs) = (stage.number, stage.docs);
        write!(text, "{{\"commit\":{number},\"docs\":{docs}}}\n")?;
    }
    Ok(text)
}

/// How many of the commits are there, by what `list` has written: the first one at least, and then each
/// up to some. `None` where it has written something else.
pub fn how_many(
    alloc: Global,
    stages: &[Stage],
    written: &[u8],
) -> Result<Option<usize>, NoMemory> {
    for count in 1..=stages.len() {
        if listed(alloc, &stages[..count])?.as_bytes() == written {
            return Ok(Some(count));
        }
    }
    Ok(None)
}

/// How `ask` ends and what it writes, of a commit where the question is for all documents.
#[derive(Drop)]
pub struct Told {
    pub status: u8,
    pub text: String,
}

/// What is told of a commit that is there, or isn't.
pub fn told_of(alloc: Global, stage: Stage, is_there: bool) -> Result<Told, NoMemory> {
    let (number, hits) = (stage.number, stage.hits);
    if is_there {
        let text = format!(in alloc; "{{\"commit\":{number},\"hits\":[{hits}],\"line\":1}}\n")?;
        return Ok(Told { status: 0, text });
    }
    let text = format!(in alloc; "{{\"commit\":{number},\"status\":9}}\n")?;
    Ok(Told { status: 9, text })
}

/// A script that adds a document, commits and searches.
pub fn add_and_commit() -> &'static str {
    "{\"c\":0,\"op\":\"add\",\"doc\":{\"key\":\"z\"}}\n{\"c\":0,\"op\":\"commit\"}\n{\"c\":0,\"op\":\"search\",\"query\":\"all\"}\n"
}

/// Its report where this commit is the last.
pub fn report_on(alloc: Global, stage: Stage) -> Result<String, NoMemory> {
    let first = stage.number.saturating_add(1);
    let (second, docs) = (first.saturating_add(1), stage.docs.saturating_add(1));
    let hits = stage.hits;
    Ok(format!(in alloc;
        "{{\"line\":1,\"seq\":{first}}}\n{{\"docs\":{docs},\"line\":2,\"seq\":{second}}}\n{{\"commit\":{second},\"hits\":[{hits},{{\"key\":\"z\",\"num\":{{}}}}],\"line\":3}}\n"
    )?)
}
