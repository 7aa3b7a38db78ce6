//! Each byte of a store's files is changed, one at a time: to one more and, where it isn't free, with its highest bit
//! turned too. The check finds each change, or each commit answers all questions as before, or the byte is free.
use crate::files::FILES;
use crate::spelled::{Spelling, spelled};
use index_check::{CheckFault, check};
use ix_base::FileName;
use ix_memory::MemoryStore;
use ix_outside::Store;
use op_script::{Question, Questions, read_queries};
use std::alloc::Global;
use std::process::Abort;
use std::test::*;
use store_answers::ask;

/// The commits of the store.
const COMMITS: [u64; 4] = [3, 6, 8, 11];

/// What each commit is asked.
const QUESTIONS: &str = r#""all"
{"term":["key","a"]}
{"term":["t","b"]}
{"term":["k","x"]}
{"phrase":["t","a b"]}
{"range":["n",-1,7]}
{"range":["p",9,9]}
{"bool":{"must":["all"],"not":[{"term":["t","a"]}]}}
"#;

/// What a change comes to.
#[derive(Clone, Copy, PartialEq, Eq)]
enum Seen {
    /// A check finds it.
    Found,
    /// No check finds it, and all is answered as before.
    Harmless,
    /// No check finds it, and something is answered otherwise.
    Unseen,
}

/// How many changes came to what.
#[derive(Clone, Copy, Debug, PartialEq, Eq)]
struct Counts {
    found: u32,
    harmless: u32,
    unseen: u32,
}

impl Counts {
    /// Counts one more.
    fn add(&mut self, seen: Seen) {
        match seen {
            Seen::Found => self.found = self.found.saturating_add(1),
            Seen::Harmless => self.harmless = self.harmless.saturating_add(1),
            Seen::Unseen => self.unseen = self.unseen.saturating_add(1),
        }
    }
}

/// So many changes were found, harmless and unseen.
fn told(found: u32, harmless: u32, unseen: u32) -> Counts {
    Counts {
        found,
        harmless,
        unseen,
    }
}

/// A store, the questions of its commits, and what these answer.
#[derive(Drop)]
struct Whole {
    store: MemoryStore,
    questions: Questions,
    answers: Vec<u8>,
}

impl Whole {
    /// The store of the files, whose answers aren't known yet.
    fn new(alloc: Global) -> Result<Whole, Fail> {
        Ok(Whole {
            store: MemoryStore::new(alloc),
            questions: read_queries(alloc, QUESTIONS.as_bytes())?,
            answers: Vec::new(alloc),
        })
    }

    /// Writes the files, and asks.
    fn fill(&mut self, alloc: Global) -> Result<(), Fail> {
        for (name, text) in FILES {
            let name = FileName::parse(name).ok_or("no name of a file")?;
            self.store
                .write(name, spelled(alloc, text)?.bytes.as_slice())?;
        }
        let questions = self.questions.lines.as_slice();
        put_answers(alloc, &mut self.store, questions, &mut self.answers)
    }

    /// What comes of it where the file has these bytes.
    fn seen(&self, alloc: Global, name: &str, bytes: &[u8]) -> Result<Seen, Fail> {
        let name = FileName::parse(name).ok_or("no name of a file")?;
        let mut store = self.store.crash(alloc, 0)?;
        store.write(name, bytes)?;
        if is_found(alloc, &mut store)? {
            return Ok(Seen::Found);
        }
        self.compared(alloc, &mut store)
    }

    /// What comes of it where a check finds nothing in this store.
    fn compared(&self, alloc: Global, store: &mut MemoryStore) -> Result<Seen, Fail> {
        let mut answers = Vec::new(alloc);
        put_answers(alloc, store, self.questions.lines.as_slice(), &mut answers)?;
        if answers.as_slice() == self.answers.as_slice() {
            Ok(Seen::Harmless)
        } else {
            Ok(Seen::Unseen)
        }
    }
}

/// Whether a check finds that the store is damaged, or differs from what it has to be.
fn is_found(alloc: Global, store: &mut MemoryStore) -> Result<bool, Fail> {
    match check(alloc, store) {
        Ok(_) => Ok(false),
        Err(CheckFault::Damaged(_) | CheckFault::Differs(_)) => Ok(true),
        Err(CheckFault::Store | CheckFault::NoMemory) => Err("the check stopped")?,
    }
}

/// Adds what the commits of a store answer. One that can't be read answers with a 0, which no text has.
fn put_answers(
    alloc: Global,
    store: &mut MemoryStore,
    questions: &[Question],
    out: &mut Vec<u8>,
) -> Result<(), Fail> {
    for commit in COMMITS {
        match ask(alloc, store, Some(commit), questions) {
            Ok(answered) => out.extend_from_slice(answered.text.as_slice())?,
            Err(_) => out.push(0)?,
        }
    }
    Ok(())
}

/// What comes of a change of the byte at this place of the file. It fails where the change is unseen and the
/// byte isn't free.
fn change<R: Abort + AllocGlobal>(
    rt: &R,
    whole: &Whole,
    name: &str,
    file: &Spelling,
    (at, value): (usize, u8),
) -> Result<Seen, Fail> {
    let bytes = file.changed(rt.alloc(), at, value)?;
    let seen = whole.seen(rt.alloc(), name, bytes.as_slice())?;
    let may_be = seen != Seen::Unseen || file.is_free(at);
    assert!(*rt; may_be, "{name}: {value} at {at} is unseen");
    Ok(seen)
}

/// Changes each byte of the file, and counts what comes of it.
fn change_each<R: Abort + AllocGlobal>(
    rt: &R,
    whole: &Whole,
    name: &str,
    text: &str,
    counts: &mut Counts,
) -> Result<(), Fail> {
    let file = spelled(rt.alloc(), text)?;
    for (at, byte) in file.bytes.iter().enumerate() {
        counts.add(change(rt, whole, name, &file, (at, byte.wrapping_add(1)))?);
        if !file.is_free(at) {
            counts.add(change(rt, whole, name, &file, (at, *byte ^ 0x80))?);
        }
    }
    Ok(())
}

/// Changes each byte of the files in whose names this text stands, and compares what comes of it.
fn hold<R: Abort + AllocGlobal>(rt: &R, part: &str, wanted: Counts) -> Result<(), Fail> {
    let mut whole = Whole::new(rt.alloc())?;
    whole.fill(rt.alloc())?;
    let mut found = told(0, 0, 0);
    for (name, text) in FILES {
        if name.contains(part) {
            change_each(rt, &whole, name, text, &mut found)?;
        }
    }
    assert!(*rt; found == wanted, "{part}: {found:?}");
    Ok(())
}

/// A next id may be greater, and no question asks for data.
#[test]
fn each_byte_of_commits(rt: HostRuntime) -> Result<(), Fail> {
    hold(&rt, "segments_", told(450, 66, 0))
}

/// A row may be born later, and a space may be another sign that parts words.
#[test]
fn each_byte_of_rows(rt: HostRuntime) -> Result<(), Fail> {
    hold(&rt, ".row", told(702, 16, 45))
}

/// All of it is compared.
#[test]
fn each_byte_of_postings(rt: HostRuntime) -> Result<(), Fail> {
    hold(&rt, ".pst", told(1024, 0, 0))
}

/// A live row and a dead one may be exchanged.
#[test]
fn each_byte_of_live_bits(rt: HostRuntime) -> Result<(), Fail> {
    hold(&rt, ".liv", told(284, 0, 1))
}

/// The numbers of a dead row aren't shown.
#[test]
fn each_byte_of_set_numbers(rt: HostRuntime) -> Result<(), Fail> {
    hold(&rt, ".val", told(453, 9, 66))
}
