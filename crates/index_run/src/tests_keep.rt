//! Runs that keep only their last commits: what they report, and what they, or a crash in them, leave.
use crate::tests::{EVERYTHING, Outside, ended, one_document, run};
use crate::tests_calls::hold;
use ix_base::FileName;
use ix_memory::{FuseStore, MemoryStore};
use ix_outside::{Store, StoreFault};
use std::alloc::Global;
use std::test::*;

/// Runs that keep a commit.
const KEEPING: &str =
    r#"# The files of segments are those of the last commit, whose segments are those of both.
$ run --threads 1
< {"c":0,"op":"add","doc":{"key":"a1"}}
< {"c":0,"op":"commit"}
> {"line":1,"seq":1}
> {"docs":1,"line":2,"seq":2}
= 0
$ run --threads 1 --keep 1
< {"c":0,"op":"add","doc":{"key":"a2"}}
< {"c":0,"op":"commit"}
> {"line":1,"seq":3}
> {"docs":2,"line":2,"seq":4}
= 0
files 9
has seg_1.row 4958524f57303032..
has seg_1.pst 4958505354303031..
has seg_1_2.liv 49584c4956303031..
has seg_1_2.val 495856414c303031..
has seg_2.row 4958524f57303032..
has seg_2.pst 4958505354303031..
has seg_2_4.liv 49584c4956303031..
has seg_2_4.val 495856414c303031..
$ list
> {"commit":4,"docs":2}
= 0
$ ask --commit 2
< "all"
> {"commit":2,"status":9}
= 9

# A search tells of its caller's last commit before it, also where that is given up.
$ run --threads 1 --keep 1
< {"c":0,"op":"add","doc":{"key":"a1"}}
< {"c":0,"op":"commit"}
< {"c":0,"op":"search","query":"all"}
< {"c":0,"op":"add","doc":{"key":"a2"}}
< {"c":0,"op":"commit"}
< {"c":0,"op":"search","query":"all"}
> {"line":1,"seq":1}
> {"docs":1,"line":2,"seq":2}
> {"commit":2,"hits":[{"key":"a1","num":{}}],"line":3}
> {"line":4,"seq":3}
> {"docs":2,"line":5,"seq":4}
> {"commit":4,"hits":[{"key":"a1","num":{}},{"key":"a2","num":{}}],"line":6}
= 0
$ list
> {"commit":4,"docs":2}
= 0

# Without a commit line nothing is given up, also of more commits than are to be kept. A later run gives up all
# but three, of which the oldest is one that was there.
$ run --threads 1
< {"c":0,"op":"commit"}
< {"c":0,"op":"commit"}
> {"docs":0,"line":1,"seq":1}
> {"docs":0,"line":2,"seq":2}
= 0
$ run --threads 1 --keep 1
< {"c":0,"op":"add","doc":{"key":"a1"}}
> {"line":1,"seq":3}
= 0
$ list
> {"commit":1,"docs":0}
> {"commit":2,"docs":0}
= 0
$ run --threads 1 --keep 3
< {"c":0,"op":"commit"}
< {"c":0,"op":"commit"}
> {"docs":0,"line":1,"seq":3}
> {"docs":0,"line":2,"seq":4}
= 0
$ list
> {"commit":2,"docs":0}
> {"commit":3,"docs":0}
> {"commit":4,"docs":0}
= 0

# A commit file that stays is broken: the run's commit is there, and nothing was given up.
$ run --threads 1
< {"c":0,"op":"commit"}
< {"c":0,"op":"commit"}
> {"docs":0,"line":1,"seq":1}
> {"docs":0,"line":2,"seq":2}
= 0
write segments_1 00
$ run --threads 1 --keep 3
< {"c":0,"op":"commit"}
> {"at":0,"file":"segments_1","status":8}
= 8
files 3
$ run --threads 1 --keep 2
< {"c":0,"op":"commit"}
> {"docs":0,"line":1,"seq":4}
= 0
$ list
> {"commit":3,"docs":0}
> {"commit":4,"docs":0}
= 0
"#;

#[test]
fn the_last_commits_are_left(rt: HostRuntime) -> Result<(), Fail> {
    hold(&rt, KEEPING)
}

/// A second run, which adds a document and commits.
const SECOND: &str = r#"{"c":0,"op":"add","doc":{"key":"a2"}}
{"c":0,"op":"commit"}
"#;

const BOTH: &str = "{\"commit\":2,\"docs\":1}\n{\"commit\":4,\"docs\":2}\n";

const LAST: &str = "{\"commit\":4,\"docs\":2}\n";

/// What the commits 2 and 4 hold.
const HELD: [(&str, &str); 2] = [
    (
        "ask --commit 2",
        "{\"commit\":2,\"hits\":[{\"key\":\"a1\",\"num\":{}}],\"line\":1}\n",
    ),
    (
        "ask --commit 4",
        "{\"commit\":4,\"hits\":[{\"key\":\"a1\",\"num\":{}},{\"key\":\"a2\",\"num\":{}}],\"line\":1}\n",
    ),
];

/// How many calls of the store come before the one that deletes a commit file: a run that keeps all makes
/// eighteen, and then the directory is listed and the commit file that stays is read.
const BEFORE: u64 = 20;

/// How many calls there are in all: a delete and two syncs of the directory come.
const ALL_CALLS: u64 = BEFORE + 3;

/// Whether the first of the two commits is there; each that is there holds its documents.
fn has_both<R: Outside>(rt: &R, image: MemoryStore) -> Result<bool, Fail> {
    let list = run(rt, "list", b"", image)?;
    let has_both = list.written.as_slice() == BOTH.as_bytes();
    let text = if has_both { BOTH } else { LAST };
    let mut image = ended(rt, list, 0, text);
    let first = if has_both { 0 } else { 1 };
    for (words, held) in HELD.iter().skip(first) {
        let done = run(rt, *words, EVERYTHING.as_bytes(), image)?;
        image = ended(rt, done, 0, *held);
    }
    Ok(has_both)
}

/// What the images have that a crash leaves, once the store failed each call behind the first ones, so many:
/// whether one has the first commit, and whether one hasn't.
fn stopped<R: Outside>(rt: &R, passes: u64) -> Result<(bool, bool), Fail> {
    let fuse = FuseStore::new(one_document(rt)?, passes);
    let done = run(rt, "run --threads 1 --keep 1", SECOND.as_bytes(), fuse)?;
    assert!(*rt; done.status == if passes < ALL_CALLS { 7 } else { 0 });
    let store = done.store.into_inner();
    let (mut with, mut without) = (false, false);
    for choice in 0..8u32 {
        let has_both = has_both(rt, store.crash(rt.alloc(), choice)?)?;
        with |= has_both;
        without |= !has_both;
    }
    Ok((with, without))
}

/// The store fails a call that gives a commit up, or the next one: each image that a crash leaves has the
/// commit that stays, and the other one whole or not at all.
#[test]
fn crashes_while_commits_go(rt: HostRuntime) -> Result<(), Fail> {
    for passes in BEFORE - 2..=ALL_CALLS {
        let wanted = (passes <= BEFORE + 1, passes > BEFORE);
        assert!(rt; stopped(&rt, passes)? == wanted, "{passes}");
    }
    Ok(())
}

/// A store that counts the commit files that it holds, and the most that it held at some moment. It tells
/// nothing of what it holds.
#[derive(Drop)]
struct CountingStore {
    inner: MemoryStore,
    held: u64,
    most: u64,
}

impl Store for CountingStore {
    ghost use Rattle.std.specs.Prelude.{None};

    ghost disk = { λ _. None };

    ghost fault_count = { λ store. ⟦<MemoryStore as Store>⟧.fault_count store.inner };

    fn list(&mut self, alloc: Global) -> Result<Vec<FileName>, StoreFault> {
        self.inner.list(alloc)
    }

    fn read(&mut self, alloc: Global, name: FileName) -> Result<Option<Vec<u8>>, StoreFault> {
        self.inner.read(alloc, name)
    }

    fn write(&mut self, name: FileName, bytes: &[u8]) -> Result<(), StoreFault> {
        self.inner.write(name, bytes)
    }

    fn sync(&mut self, name: FileName) -> Result<(), StoreFault> {
        self.inner.sync(name)
    }

    fn rename(&mut self, from: FileName, to: FileName) -> Result<(), StoreFault> {
        if let FileName::Commit(_) = to {
            self.held = self.held.saturating_add(1);
            self.most = self.most.max(self.held);
        }
        self.inner.rename(from, to)
    }

    fn delete(&mut self, name: FileName) -> Result<(), StoreFault> {
        if let FileName::Commit(_) = name {
            self.held = self.held.saturating_sub(1);
        }
        self.inner.delete(name)
    }

    fn sync_all(&mut self) -> Result<(), StoreFault> {
        self.inner.sync_all()
    }

    fn faults(&self) -> u64 {
        self.inner.faults()
    }
}

/// A store without a file, of which commits are counted.
fn counting<R: Outside>(rt: &R) -> CountingStore {
    CountingStore {
        inner: MemoryStore::new(rt.alloc()),
        held: 0,
        most: 0,
    }
}

/// How many commits a run of `count` commits, a document before each, leaves with these words, and the most
/// that its store held at some moment.
fn commits_held<R: Outside>(rt: &R, words: &str, count: u64) -> Result<(u64, u64), Fail> {
    let mut script = String::new(rt.alloc());
    for _ in 0..count {
        script.push_str(SECOND)?;
    }
    let done = run(rt, words, script.as_bytes(), counting(rt))?;
    assert!(*rt; done.status == 0);
    Ok((done.store.held, done.store.most))
}

/// Old commits go as the run goes on, behind every commit where one is kept, and behind every second where two are: the
/// store never holds more than twice as many.
#[test]
fn old_commits_go_beside_the_rounds(rt: HostRuntime) -> Result<(), Fail> {
    assert!(rt; commits_held(&rt, "run --threads 1 --keep 2", 10)? == (2, 4));
    assert!(rt; commits_held(&rt, "run --threads 1 --keep 1", 10)? == (1, 2));
    assert!(rt; commits_held(&rt, "run --threads 1", 10)? == (10, 10));
    Ok(())
}

/// Three documents, each committed and then searched for by its caller, and two searches of a caller that never
/// commits, which finds what was there before.
const SEARCHED: &str = r#"{"c":0,"op":"add","doc":{"key":"a"}}
{"c":0,"op":"commit"}
{"c":0,"op":"search","query":"all"}
{"c":1,"op":"search","query":"all"}
{"c":0,"op":"add","doc":{"key":"b"}}
{"c":0,"op":"commit"}
{"c":0,"op":"search","query":"all"}
{"c":0,"op":"add","doc":{"key":"c"}}
{"c":0,"op":"commit"}
{"c":0,"op":"search","query":"all"}
{"c":1,"op":"search","query":"all"}
"#;

/// What is told of it.
const FOUND: &str = r#"{"line":1,"seq":1}
{"docs":1,"line":2,"seq":2}
{"commit":2,"hits":[{"key":"a","num":{}}],"line":3}
{"commit":0,"hits":[],"line":4}
{"line":5,"seq":3}
{"docs":2,"line":6,"seq":4}
{"commit":4,"hits":[{"key":"a","num":{}},{"key":"b","num":{}}],"line":7}
{"line":8,"seq":5}
{"docs":3,"line":9,"seq":6}
{"commit":6,"hits":[{"key":"a","num":{}},{"key":"b","num":{}},{"key":"c","num":{}}],"line":10}
{"commit":0,"hits":[],"line":11}
"#;

/// Old commits go as the run goes on, also where lines search them: each is answered from memory.
#[test]
fn searched_commits_go_beside_the_rounds(rt: HostRuntime) -> Result<(), Fail> {
    for words in ["run --threads 1 --keep 1", "run --threads 2 --keep 1"] {
        let done = run(&rt, words, SEARCHED.as_bytes(), counting(&rt))?;
        assert!(rt; done.status == 0);
        assert!(rt; done.written.as_slice() == FOUND.as_bytes());
        assert!(rt; (done.store.held, done.store.most) == (1, 2), "{words}");
    }
    Ok(())
}
