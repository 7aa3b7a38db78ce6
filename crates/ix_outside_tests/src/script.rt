//! Scripts of calls. A script has cases with an empty line between them. A case has a title behind `# `,
//! and then a line for each call and what comes of it, as `write seg_1.row one: ok`, `sync_all: failed`,
//! `read seg_1.row: = one`, `list: seg_1.row seg_2.row` (in the order of `FileName`) or `faults: 1`. After
//! `watch VERB` the calls of the system that the store makes for it stand below, each on a line of its own
//! behind two spaces: those of this verb, or all after `watch`.
//!
//! A case has a new, empty directory, and a store of it. The calls that prepare something:
//! - `store` and `reader` open another store of the directory, a reader one that only reads, which is asked
//!   from then on; `other` turns to the one before it, and `close` lets go of the one that is asked;
//! - `directory NAME`, `file NAME TEXT`, `link NAME TARGET` and `long NAME` (2^31 + 1 bytes) make an entry
//!   without a store, `look NAME` reads one, and `remove` removes the directory;
//! - after `fail KIND VERB` calls of the system fail so, and after `length NUMBER` each open file says that
//!   it is so long;
//! - `fill` writes the files `seg_1.row` to `seg_64.row`.
use crate::opened::{reader_at, recorded_at};
use crate::recorded_system::{Journal, RecordedSystem};
use ix_base::FileName;
use ix_outside::{DirStore, Store, StoreFault};
use std::alloc::Global;
use std::fmt::Write;
use std::fs::OpenFile;
use std::io::ErrorKind;
use std::os::unix::fs::symlink;
use std::test::Fail;
use std::{fs, str};

/// A case under way.
#[derive(Drop)]
struct Case<'a> {
    rt: &'a HostRuntime,
    /// Its directory.
    path: &'static str,
    journal: &'a Journal,
    /// The last one is asked.
    stores: Vec<DirStore<RecordedSystem<'a>>>,
    /// The calls of the system that are told have lines that begin so.
    watched: &'static str,
    /// The lines of the case so far, with what comes of the calls now.
    told: String,
}

/// Fails where the calls of a case, made in this directory, come to something else than what it says, and
/// names the case.
pub fn compare(rt: &HostRuntime, path: &'static str, script: &'static str) -> Result<(), Fail> {
    for case in script.split("\n\n") {
        if told(rt, path, case)?.as_str().trim_end() != case.trim_end() {
            return Err(Fail::new(format_args!("{case}")));
        }
    }
    Ok(())
}

/// The lines of the case, with what comes of its calls now, in this directory.
fn told(rt: &HostRuntime, path: &'static str, case: &'static str) -> Result<String, Fail> {
    let _ = fs::remove_dir_all(rt, path);
    fs::create_dir(rt, path)?;
    let journal = Journal::new(rt.alloc());
    let mut now = Case::new(rt, path, &journal)?;
    now.tell_all(case)?;
    let _ = fs::remove_dir_all(rt, path);
    Ok(now.told)
}

impl<'a> Case<'a> {
    /// A case with a store of this directory, of which nothing is told yet.
    fn new(rt: &'a HostRuntime, path: &'static str, journal: &'a Journal) -> Result<Self, Fail> {
        let store = recorded_at(rt, path, journal)?;
        Ok(Case {
            rt,
            path,
            journal,
            stores: vec![in rt.alloc(); store]?,
            watched: "none",
            told: String::new(rt.alloc()),
        })
    }

    /// Makes the calls of the case.
    fn tell_all(&mut self, case: &'static str) -> Result<(), Fail> {
        for line in case.lines() {
            if line.starts_with('#') {
                writeln!(self.told, "{line}")?;
            } else if let Some((call, _)) = line.split_once(':') {
                self.tell(call)?;
            }
        }
        Ok(())
    }

    /// Makes a call, and tells what comes of it.
    fn tell(&mut self, call: &'static str) -> Result<(), Fail> {
        let alloc = self.rt.alloc();
        let (verb, words) = call.split_once(' ').unwrap_or((call, ""));
        write!(self.told, "{call}:")?;
        if !self.prepares(verb, words)? {
            let store = self.stores.last_mut().ok_or("no store")?;
            put_answer(alloc, &mut self.told, store, verb, words)?;
        }
        self.told.push('\n')?;
        for line in self.journal.take_lines(alloc).as_str().lines() {
            if line.starts_with(self.watched) {
                writeln!(self.told, "  {line}")?;
            }
        }
        Ok(())
    }

    /// Whether the call is one that prepares something, which is done.
    fn prepares(&mut self, verb: &str, words: &'static str) -> Result<bool, Fail> {
        let rt = self.rt;
        let (name, rest) = words.split_once(' ').unwrap_or((words, ""));
        match verb {
            "store" => self.stores.push(recorded_at(rt, self.path, self.journal)?)?,
            "reader" => self.stores.push(reader_at(rt, self.path, self.journal)?)?,
            "other" => self.stores.reverse(),
            "close" => drop(self.stores.pop()),
            "remove" => fs::remove_dir_all(rt, self.path)?,
            "length" => self.journal.length.set(u64::from_str_radix(name, 10)?),
            "watch" => self.watched = name,
            "fail" => {
                self.journal.failing.set(rest);
                self.journal.kind.set(kind_of(name));
            }
            _ => return self.prepares_entry(verb, name, rest),
        }
        Ok(true)
    }

    /// The same of a call that prepares an entry of the directory.
    fn prepares_entry(&mut self, verb: &str, name: &str, rest: &str) -> Result<bool, Fail> {
        let path = format!(in self.rt.alloc(); "{}/{name}", self.path)?;
        prepares_at(self.rt, &mut self.told, path.as_str(), verb, rest)
    }
}

/// The same of the entry at this path.
fn prepares_at(
    rt: &HostRuntime,
    out: &mut String,
    path: &str,
    verb: &str,
    rest: &str,
) -> Result<bool, Fail> {
    match verb {
        "directory" => fs::create_dir(rt, path)?,
        "file" => fs::write(rt, path, rest.as_bytes())?,
        "link" => symlink(rt, rest, path)?,
        "long" => fs::create(rt, path)?.set_len(2_147_483_649)?,
        "look" => put_entry(rt, out, path)?,
        _ => return Ok(false),
    }
    Ok(true)
}

/// The error of this name.
fn kind_of(name: &str) -> ErrorKind {
    match name {
        "PermissionDenied" => ErrorKind::PermissionDenied,
        "NotADirectory" => ErrorKind::NotADirectory,
        "NotFound" => ErrorKind::NotFound,
        "OutOfMemory" => ErrorKind::OutOfMemory,
        "Unsupported" => ErrorKind::Unsupported,
        _ => ErrorKind::Other,
    }
}

/// What is at this path, without a store.
fn put_entry(rt: &HostRuntime, out: &mut String, path: &str) -> Result<(), Fail> {
    match fs::read(rt, path) {
        Ok(bytes) => write!(out, " = {}", str::from_utf8(&bytes)?)?,
        Err(_) if fs::exists(rt, path)? => out.push_str(" no file")?,
        Err(_) => out.push_str(" absent")?,
    }
    Ok(())
}

/// Puts what comes of a call of the store.
fn put_answer<S: Store>(
    alloc: Global,
    out: &mut String,
    store: &mut S,
    verb: &str,
    words: &str,
) -> Result<(), Fail> {
    let answer = match verb {
        "faults" => return Ok(write!(out, " {}", store.faults())?),
        "list" => match store.list(alloc) {
            Ok(names) => return put_names(out, names),
            Err(fault) => Err(fault),
        },
        "read" => match store.read(alloc, FileName::parse(words).ok_or("no name")?) {
            Ok(bytes) => return put_bytes(out, bytes),
            Err(fault) => Err(fault),
        },
        "sync_all" => store.sync_all(),
        "fill" => fill(store),
        _ => changed(store, verb, words)?,
    };
    out.push_str(match answer {
        Ok(()) => " ok",
        Err(StoreFault::Failed) => " failed",
        Err(StoreFault::NoMemory) => " no memory",
    })?;
    Ok(())
}

/// Puts the bytes of a file, if there is one.
fn put_bytes(out: &mut String, bytes: Option<Vec<u8>>) -> Result<(), Fail> {
    match bytes {
        Some(bytes) => write!(out, " = {}", str::from_utf8(&bytes)?)?,
        None => out.push_str(" absent")?,
    }
    Ok(())
}

fn put_names(out: &mut String, mut names: Vec<FileName>) -> Result<(), Fail> {
    names.sort_unstable();
    for name in &names {
        write!(out, " {}", name.text().as_str())?;
    }
    Ok(())
}

/// Writes 64 files.
fn fill<S: Store>(store: &mut S) -> Result<(), StoreFault> {
    for id in 1..65u64 {
        store.write(FileName::Rows(id), b"x")?;
    }
    Ok(())
}

/// What comes of a call that changes a file: its verb, and the name of the file with what follows it.
fn changed<S: Store>(
    store: &mut S,
    verb: &str,
    words: &str,
) -> Result<Result<(), StoreFault>, Fail> {
    let (name, rest) = words.split_once(' ').unwrap_or((words, ""));
    let Some(name) = FileName::parse(name) else {
        return Err("no name")?;
    };
    match verb {
        "write" => Ok(store.write(name, rest.as_bytes())),
        "sync" => Ok(store.sync(name)),
        "delete" => Ok(store.delete(name)),
        "rename" => renamed(store, name, rest),
        _ => Err("no such call")?,
    }
}

fn renamed<S: Store>(
    store: &mut S,
    from: FileName,
    to: &str,
) -> Result<Result<(), StoreFault>, Fail> {
    let Some(to) = FileName::parse(to) else {
        return Err("no name")?;
    };
    if from == to {
        return Err("no other name")?;
    }
    Ok(store.rename(from, to))
}
