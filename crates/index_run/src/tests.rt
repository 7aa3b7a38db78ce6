//! Calls of the program over objects in memory: what the tests of whole runs share.
use crate::call::top;
use ix_base::NoMemory;
use ix_memory::{MemorySink, MemorySource, MemoryStore};
use ix_outside::{EmptyGate, Gate, Store};
use std::alloc::Global;
use std::process::Abort;
use std::sync::Wait;
use std::test::*;
use std::thread::Threads;

pub(crate) const ADD_A1: &str = r#"{"c":0,"op":"add","doc":{"key":"a1"}}
"#;

pub(crate) const ALL: &str = r#"{"c":0,"op":"search","query":"all"}
"#;

/// A document, a commit and a search.
pub(crate) const FIRST: &str = r#"{"c":0,"op":"add","doc":{"key":"a1"}}
{"c":0,"op":"commit"}
{"c":0,"op":"search","query":"all"}
"#;

pub(crate) const FIRST_REPORT: &str = r#"{"line":1,"seq":1}
{"docs":1,"line":2,"seq":2}
{"commit":2,"hits":[{"key":"a1","num":{}}],"line":3}
"#;

/// Another document, a commit and a search.
pub(crate) const SECOND: &str = r#"{"c":0,"op":"add","doc":{"key":"a2"}}
{"c":0,"op":"commit"}
{"c":0,"op":"search","query":"all"}
"#;

/// A question that all documents answer.
pub(crate) const EVERYTHING: &str = "\"all\"\n";

/// Its answer after the first run.
pub(crate) const ONE_HIT: &str = r#"{"commit":2,"hits":[{"key":"a1","num":{}}],"line":1}
"#;

/// What a call writes whose store failed.
pub(crate) const NO_STORE: &str = "{\"status\":7,\"why\":\"store\"}\n";

/// What a call of the program, and a test of one, needs.
pub(crate) trait Outside: Threads + Wait + Sync + Abort + AllocGlobal {}

impl<R: Threads + Wait + Sync + Abort + AllocGlobal> Outside for R {}

/// How a call ended, and what it wrote.
#[derive(Drop)]
pub(crate) struct Done<S> {
    pub(crate) status: u8,
    pub(crate) written: Vec<u8>,
    pub(crate) store: S,
}

/// The words of the text, which are parted by spaces.
pub(crate) fn words_of(alloc: Global, text: &str) -> Result<Vec<String>, NoMemory> {
    let mut words = Vec::new(alloc);
    for word in text.split_ascii_whitespace() {
        words.push(String::from_str(alloc, word)?)?;
    }
    Ok(words)
}

/// A call of the program with these words, over these streams and this store, watched by this gate.
pub(crate) fn run_top<R: Outside, S: Store, G: Gate>(
    rt: &R,
    words: &str,
    mut input: MemorySource,
    mut out: MemorySink,
    store: S,
    gate: &G,
) -> Result<Done<S>, NoMemory> {
    let alloc = rt.alloc();
    let words = words_of(alloc, words)?;
    let ended = top(
        rt,
        alloc,
        words.as_slice(),
        &mut input,
        &mut out,
        store,
        gate,
    );
    Ok(Done {
        status: ended.status,
        written: out.into_bytes(),
        store: ended.store,
    })
}

/// A call with these words and this input over the store, which this gate watches. Nothing fails but the
/// store.
pub(crate) fn run_watched<R: Outside, S: Store, G: Gate>(
    rt: &R,
    words: &str,
    input: &[u8],
    store: S,
    gate: &G,
) -> Result<Done<S>, NoMemory> {
    let input = MemorySource::new(rt.alloc(), input.to_vec(rt.alloc())?);
    let out = MemorySink::new(rt.alloc(), 1_048_576)?;
    run_top(rt, words, input, out, store, gate)
}

/// A call with these words and this input over the store. Nothing fails but the store.
pub(crate) fn run<R: Outside, S: Store>(
    rt: &R,
    words: &str,
    input: &[u8],
    store: S,
) -> Result<Done<S>, NoMemory> {
    run_watched(rt, words, input, store, &EmptyGate)
}

/// Compares how a call ended and what it wrote with this, and returns its store.
pub(crate) fn ended<R: Outside, S: Drop>(rt: &R, done: Done<S>, status: u8, written: &str) -> S {
    let is_written = done.written.as_slice() == written.as_bytes();
    assert!(*rt; done.status == status && is_written, "{written}");
    done.store
}

/// The store of a run that added a document and committed: it has the commit 2.
pub(crate) fn one_document<R: Outside>(rt: &R) -> Result<MemoryStore, Fail> {
    let done = run(rt, "run", FIRST.as_bytes(), MemoryStore::new(rt.alloc()))?;
    Ok(ended(rt, done, 0, FIRST_REPORT))
}
