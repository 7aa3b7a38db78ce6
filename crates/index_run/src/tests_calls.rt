//! Calls of the program as a text, whose lines begin with marks:
//!
//! | Mark | What it stands before |
//! |---|---|
//! | `#` | what is shown next, over an empty store |
//! | `$` | the words of a call, which has no input yet and is to write nothing |
//! | `&` | other words for it |
//! | `<` | a line of its input; of one with `<<` the line's end is left out, and `<\r` has one of CR and LF |
//! | `*` | how often the next line of the input is there |
//! | `>` | a line that the call is to write |
//! | `..` | nothing: what it writes is only to end with its lines |
//! | `=` | the status with which it is to end: the call is made over the store |
//! | `stops` | a number: with so many calls of the store the call ends with 0, and with fewer with 7 |
//! | `fail` | the number of a call of the store that fails, counted from here |
//! | `files` | how many files the store has |
//! | `has` | a file's name and its bytes, in hexadecimal digits; only the first ones where `..` ends them |
//! | `write` | a file's name and the bytes that it gets |
//! | `delete` | the name of a file that is deleted |
//!
//! Lines that are empty or begin with a space say nothing to the program. A call that was made is made once
//! more by a further `=`, with the same input and the same lines to write, or those between the two.
ghost use Rattle.ix_base.specs.FileNames.{IsFileName};

use crate::tests::{Done, NO_STORE, Outside, ended, run};
use ix_base::FileName;
use ix_memory::{FuseStore, MemoryStore};
use ix_outside::Store;
use std::alloc::Global;
use std::mem;
use std::test::*;

/// A call of the program, how it is to end, and the store that it is made over.
#[derive(Drop)]
pub(crate) struct Call {
    alloc: Global,
    pub(crate) words: String,
    pub(crate) input: Vec<u8>,
    /// How often the next line of the input is there.
    times: usize,
    pub(crate) written: String,
    /// Whether the call is only to end with what it is to write.
    is_end: bool,
    /// Whether it was made.
    is_made: bool,
    store: MemoryStore,
}

impl Call {
    /// A call without words, over an empty store.
    pub(crate) fn new(alloc: Global) -> Call {
        Call {
            alloc,
            words: String::new(alloc),
            input: Vec::new(alloc),
            times: 1,
            written: String::new(alloc),
            is_end: false,
            is_made: false,
            store: MemoryStore::new(alloc),
        }
    }

    /// Reads a line that nothing is done for but to note what it says. Returns whether it is one.
    pub(crate) fn read(&mut self, mark: &str, rest: &str) -> Result<bool, Fail> {
        match mark {
            "" => Ok(true),
            ".." => {
                self.is_end = true;
                Ok(true)
            }
            "#" => Ok(self.empty()),
            "$" => self.begin(rest),
            "&" => self.rename(rest),
            "*" => self.repeat(rest),
            "<" => self.add(rest, "\n"),
            "<<" => self.add(rest, ""),
            "<\\r" => self.add(rest, "\r\n"),
            ">" => self.expect(rest),
            _ => Ok(false),
        }
    }

    /// Takes an empty store.
    fn empty(&mut self) -> bool {
        self.store = MemoryStore::new(self.alloc);
        true
    }

    /// Takes other words.
    fn rename(&mut self, words: &str) -> Result<bool, Fail> {
        self.words.clear();
        self.words.push_str(words)?;
        Ok(true)
    }

    /// Takes how often the next line is there.
    fn repeat(&mut self, times: &str) -> Result<bool, Fail> {
        self.times = times.parse::<usize>()?;
        Ok(true)
    }

    /// Begins a call with these words.
    fn begin(&mut self, words: &str) -> Result<bool, Fail> {
        self.input.clear();
        self.written.clear();
        self.is_end = false;
        self.is_made = false;
        self.rename(words)
    }

    /// Adds a line with this end to the input.
    fn add(&mut self, line: &str, end: &str) -> Result<bool, Fail> {
        for _ in 0..self.times {
            self.input.extend_from_slice(line.as_bytes())?;
            self.input.extend_from_slice(end.as_bytes())?;
        }
        self.times = 1;
        Ok(true)
    }

    /// Adds a line to what the call is to write.
    fn expect(&mut self, line: &str) -> Result<bool, Fail> {
        if self.is_made {
            self.written.clear();
            self.is_made = false;
        }
        self.written.push_str(line)?;
        self.written.push('\n')?;
        Ok(true)
    }

    /// Makes the call, or does else what the number is for.
    fn act<R: Outside>(&mut self, rt: &R, mark: &str, number: u64) -> Result<(), Fail> {
        match mark {
            "=" => self.make(rt, number),
            "stops" => self.stops(rt, number),
            "fail" => self.fail(number),
            "files" => self.count(rt, number),
            _ => Err("another mark")?,
        }
    }

    /// The store, in whose place an empty one stands then.
    fn take_store(&mut self) -> MemoryStore {
        mem::replace(&mut self.store, MemoryStore::new(self.alloc))
    }

    /// Has a call of the store fail.
    fn fail(&mut self, number: u64) -> Result<(), Fail> {
        let calls = vec![in self.alloc; number]?;
        self.store = self.take_store().failing(calls);
        Ok(())
    }

    /// Compares how many files there are.
    fn count<R: Outside>(&mut self, rt: &R, number: u64) -> Result<(), Fail> {
        let names = self.store.list(self.alloc)?;
        assert!(*rt; names.len() as u64 == number, "another number of files");
        Ok(())
    }

    /// Makes the call, and compares how it ends.
    fn make<R: Outside>(&mut self, rt: &R, status: u64) -> Result<(), Fail> {
        let store = self.take_store();
        let done = run(rt, self.words.as_str(), self.input.as_slice(), store)?;
        self.is_made = true;
        self.store = self.compared(rt, done, status);
        Ok(())
    }

    /// Compares how a call ended and what it wrote with what it is to write, and returns its store.
    fn compared<R: Outside>(&self, rt: &R, done: Done<MemoryStore>, status: u64) -> MemoryStore {
        let Done {
            status: found,
            written,
            store,
        } = done;
        let (wanted, written) = (self.written.as_bytes(), written.as_slice());
        let is_written = written == wanted || self.is_end && written.ends_with(wanted);
        assert!(*rt;
            u64::from(found) == status && is_written,
            "{}",
            self.written.as_str()
        );
        store
    }

    /// Makes the call over a copy of the store, which passes each lower number of calls on and then so many.
    fn stops<R: Outside>(&self, rt: &R, calls: u64) -> Result<(), Fail> {
        for passes in 0..calls {
            self.stops_at(rt, passes)?;
        }
        assert!(*rt; self.passes(rt, calls)?.status == 0, "calls {calls}");
        Ok(())
    }

    /// Makes the call over a copy of the store that passes so many calls on, too few.
    fn stops_at<R: Outside>(&self, rt: &R, passes: u64) -> Result<(), Fail> {
        let done = self.passes(rt, passes)?;
        let _store = ended(rt, done, 7, NO_STORE);
        Ok(())
    }

    /// Makes the call over a copy of the store that passes so many calls on.
    fn passes<R: Outside>(
        &self,
        rt: &R,
        passes: u64,
    ) -> Result<Done<FuseStore<MemoryStore>>, Fail> {
        let fuse = FuseStore::new(self.store.crash(self.alloc, 0)?, passes);
        Ok(run(rt, self.words.as_str(), self.input.as_slice(), fuse)?)
    }

    /// Changes a file of the store, or compares its bytes.
    fn act_on<R: Outside>(&mut self, rt: &R, mark: &str, rest: &str) -> Result<(), Fail> {
        let (name, fields) = rest.split_once(' ').unwrap_or((rest, ""));
        let name = FileName::parse(name).ok_or("no name of a file")?;
        match mark {
            "delete" => Ok(self.store.delete(name)?),
            "write" => self.write(name, fields),
            "has" => {
                assert!(*rt; self.has(name, fields)?, "{rest}");
                Ok(())
            }
            _ => Err("another mark")?,
        }
    }

    /// Writes the bytes of these fields to a file.
    fn write(&mut self, name: FileName, fields: &str) -> Result<(), Fail>
        requires { IsFileName name }
    {
        let bytes = bytes_of(self.alloc, fields)?;
        Ok(self.store.write(name, bytes.as_slice())?)
    }

    /// Whether a file has the bytes of these fields.
    fn has(&mut self, name: FileName, fields: &str) -> Result<bool, Fail> {
        match self.store.read(self.alloc, name)? {
            Some(found) => has(self.alloc, found.as_slice(), fields),
            None => Err("an absent file")?,
        }
    }
}

/// The byte that two hexadecimal digits are.
fn byte_of(digits: &[u8]) -> Result<u8, Fail> {
    let digits = str::from_utf8(digits).ok().ok_or("no digits")?;
    Ok(u8::from_str_radix(digits, 16).ok().ok_or("no digits")?)
}

/// Appends the bytes that a field is, in hexadecimal digits.
fn put_field(bytes: &mut Vec<u8>, field: &str) -> Result<(), Fail> {
    for digits in field.as_bytes().chunks(2) {
        bytes.push(byte_of(digits)?)?;
    }
    Ok(())
}

/// The bytes that these fields are, in hexadecimal digits.
fn bytes_of(alloc: Global, fields: &str) -> Result<Vec<u8>, Fail> {
    let mut bytes = Vec::new(alloc);
    for field in fields.split_ascii_whitespace() {
        put_field(&mut bytes, field)?;
    }
    Ok(bytes)
}

/// Whether the bytes are those of the fields, or begin with them where `..` ends these.
fn has(alloc: Global, bytes: &[u8], fields: &str) -> Result<bool, Fail> {
    match fields.strip_suffix("..") {
        Some(front) => Ok(bytes.starts_with(bytes_of(alloc, front)?.as_slice())),
        None => Ok(bytes == bytes_of(alloc, fields)?.as_slice()),
    }
}

/// Does what a line says.
fn do_line<R: Outside>(rt: &R, call: &mut Call, line: &str) -> Result<(), Fail> {
    let (mark, rest) = line.split_once(' ').unwrap_or((line, ""));
    if call.read(mark, rest)? {
        return Ok(());
    }
    match rest.parse::<u64>() {
        Ok(number) => call.act(rt, mark, number),
        Err(_) => call.act_on(rt, mark, rest),
    }
}

/// Does what the lines of the text say.
pub(crate) fn hold<R: Outside>(rt: &R, text: &str) -> Result<(), Fail> {
    let mut call = Call::new(rt.alloc());
    for line in text.lines() {
        do_line(rt, &mut call, line)?;
    }
    Ok(())
}
