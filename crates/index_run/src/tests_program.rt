//! The program over real directories: its statuses, and who may use a directory beside whom.
use crate::program::run_program;
use crate::tests::{FIRST, Outside, words_of};
use crate::tests_calls::Call;
use ix_base::NoMemory;
use ix_memory::{MemorySink, MemorySource};
use ix_outside::{DirStore, LockFile, Store};
use std::io::{Eprint, Error, ErrorKind};
use std::process::{ExitCode, Termination};
use std::rt::Files;
use std::test::*;
use std::{fs, io};

/// How the program with these words and this input ends, and what it has written.
fn ends<R: Outside + Files + Clone + Drop + Eprint>(
    rt: &R,
    words: io::Result<Vec<String>>,
    input: &[u8],
) -> Result<(ExitCode, Vec<u8>), NoMemory>
where
    R::File: LockFile,
{
    let mut source = MemorySource::new(rt.alloc(), input.to_vec(rt.alloc())?);
    let mut sink = MemorySink::new(rt.alloc(), 10_000)?;
    let end = run_program(rt, words, &mut source, &mut sink);
    Ok((end.report(rt), sink.into_bytes()))
}

/// Calls the program as the text says, which has the marks of `tests_calls` that only a call's lines have, and `=`.
fn hold<R: Outside + Files + Clone + Drop + Eprint>(rt: &R, text: &str) -> Result<(), Fail>
where
    R::File: LockFile,
{
    let mut call = Call::new(rt.alloc());
    for line in text.lines() {
        let (mark, rest) = line.split_once(' ').unwrap_or((line, ""));
        if call.read(mark, rest)? {
            continue;
        }
        let status = rest.parse::<u8>().ok().ok_or("another mark")?;
        let words = words_of(rt.alloc(), call.words.as_str())?;
        let (code, written) = ends(rt, Ok(words), call.input.as_slice())?;
        assert!(*rt; code == ExitCode::from(status), "not {line}");
        assert!(*rt; written.as_slice() == call.written.as_bytes(), "{line}");
    }
    Ok(())
}

/// The words of a command, the status of which each call ends with, over a directory that is empty.
const STATUSES: &str = r#"# No word, no command, and another one.
$
= 2
$ index_run_program
< {"c":0,"op":"add","doc":{"key":"a1"}}
< {"c":0,"op":"commit"}
< {"c":0,"op":"search","query":"all"}
> {"status":2,"why":"words"}
= 2
$ index_run_program rum
< {"c":0,"op":"add","doc":{"key":"a1"}}
< {"c":0,"op":"commit"}
< {"c":0,"op":"search","query":"all"}
> {"status":2,"why":"words"}
= 2
# A bad line, and a good script.
$ index_run_program run
< {
> {"line":1,"status":3,"why":"json"}
= 3
$ index_run_program run
< {"c":0,"op":"add","doc":{"key":"a1"}}
< {"c":0,"op":"commit"}
< {"c":0,"op":"search","query":"all"}
> {"line":1,"seq":1}
> {"docs":1,"line":2,"seq":2}
> {"commit":2,"hits":[{"key":"a1","num":{}}],"line":3}
= 0
# Questions about the last commit, and about one that isn't there; and a list.
$ index_run_program ask
< "all"
> {"commit":2,"hits":[{"key":"a1","num":{}}],"line":1}
= 0
$ index_run_program ask --commit 77
< "all"
> {"commit":77,"status":9}
= 9
$ index_run_program list
> {"commit":2,"docs":1}
= 0
# A directory that isn't there.
$ index_run_nowhere run
< {"c":0,"op":"add","doc":{"key":"a1"}}
< {"c":0,"op":"commit"}
< {"c":0,"op":"search","query":"all"}
> {"status":7,"why":"store"}
= 7
"#;

#[test]
fn statuses_of_the_program(rt: HostRuntime) -> Result<(), Fail> {
    let _ = fs::remove_dir_all(&rt, "index_run_program");
    fs::create_dir(&rt, "index_run_program")?;
    hold(&rt, STATUSES)?;
    assert!(rt; fs::exists(&rt, "index_run_program/segments_2")?);
    Ok(fs::remove_dir_all(&rt, "index_run_program")?)
}

/// A run, after which another process uses the directory.
const BEFORE: &str = r#"$ index_run_locked run
< {"c":0,"op":"add","doc":{"key":"a1"}}
< {"c":0,"op":"commit"}
< {"c":0,"op":"search","query":"all"}
> {"line":1,"seq":1}
> {"docs":1,"line":2,"seq":2}
> {"commit":2,"hits":[{"key":"a1","num":{}}],"line":3}
= 0
"#;

/// Calls meanwhile: words and lines are refused as ever, what writes finds no store, and what only reads
/// answers.
const MEANWHILE: &str = r#"$ index_run_locked rum
> {"status":2,"why":"words"}
= 2
$ index_run_locked run
< {
> {"line":1,"status":3,"why":"json"}
= 3
$ index_run_locked run
< {"c":0,"op":"add","doc":{"key":"a1"}}
< {"c":0,"op":"commit"}
< {"c":0,"op":"search","query":"all"}
> {"status":7,"why":"store"}
= 7
$ index_run_locked make --seed 1 --lines 2 --callers 1
> {"status":7,"why":"store"}
= 7
$ index_run_locked ask
< "all"
> {"commit":2,"hits":[{"key":"a1","num":{}}],"line":1}
= 0
$ index_run_locked list
> {"commit":2,"docs":1}
= 0
"#;

/// A run once it uses it no more.
const AFTER: &str = r#"$ index_run_locked run
< {"c":0,"op":"add","doc":{"key":"a1"}}
> {"line":1,"seq":3}
= 0
"#;

#[test]
fn a_directory_that_another_run_uses(rt: HostRuntime) -> Result<(), Fail> {
    let _ = fs::remove_dir_all(&rt, "index_run_locked");
    fs::create_dir(&rt, "index_run_locked")?;
    hold(&rt, BEFORE)?;
    let mut other = DirStore::new(
        rt.clone()?,
        String::from_str(rt.alloc(), "index_run_locked")?,
    );
    assert!(rt; other.list(rt.alloc()).is_ok());
    hold(&rt, MEANWHILE)?;
    drop(other);
    hold(&rt, AFTER)?;
    Ok(fs::remove_dir_all(&rt, "index_run_locked")?)
}

#[test]
fn words_that_cannot_be_read(rt: HostRuntime) -> Result<(), Fail> {
    for (kind, status) in [
        (ErrorKind::OutOfMemory, 4),
        (ErrorKind::InvalidData, 2),
        (ErrorKind::Other, 2),
    ] {
        let (code, written) = ends(&rt, Err(Error::from(kind)), FIRST.as_bytes())?;
        assert!(rt; code == ExitCode::from(status) && written.is_empty());
    }
    Ok(())
}
