//! The system of tests, which writes down what is asked of it, and fails where it is told to.
ghost use Rattle.std.specs.Prelude.{◌≤◌, length, IfOk};

use ix_outside::LockFile;
use std::alloc::{AllocError, Allocator, Global};
use std::cell::{Cell, RefCell};
use std::fs::{File, Metadata, OpenFile, OpenOptions};
use std::io;
use std::io::{Error, ErrorKind, Read, Seek, SeekFrom, Write};
use std::rt::Files;

/// The calls that open, lock, read or change something, each as a line `VERB NAME`, and what is to go
/// wrong.
#[derive(Drop)]
pub struct Journal {
    lines: RefCell<String>,
    /// Calls of this verb fail, or of this verb and name. The verb `look` is that of a look at an entry,
    /// which isn't written down.
    pub failing: Cell<&'static str>,
    /// The error that they give.
    pub kind: Cell<ErrorKind>,
    /// How long an open file says that it is: 0 says the truth.
    pub length: Cell<u64>,
}

impl Journal {
    /// No call yet, and none fails.
    pub fn new(alloc: Global) -> Self {
        Journal {
            lines: RefCell::new(String::new(alloc)),
            failing: Cell::new(""),
            kind: Cell::new(ErrorKind::Other),
            length: Cell::new(0),
        }
    }

    /// The lines so far, which it forgets.
    pub fn take_lines(&self, alloc: Global) -> String {
        self.lines
            .try_replace(String::new(alloc))
            .unwrap_or(String::new(alloc))
    }

    fn note(&self, verb: &'static str, name: &str) -> io::Result<()> {
        if let Ok(mut lines) = self.lines.try_borrow_mut() {
            lines.push_str(verb)?;
            lines.push(' ')?;
            lines.push_str(name)?;
            lines.push('\n')?;
        }
        self.pass(verb, name)
    }

    /// The error that a call of this verb and name is to have.
    fn pass(&self, verb: &'static str, name: &str) -> io::Result<()> {
        let fails = match self.failing.get().split_once(' ') {
            Some((failing, at)) => failing == verb && at == name,
            None => self.failing.get() == verb,
        };
        if fails {
            return Err(Error::from(self.kind.get()));
        }
        Ok(())
    }
}

/// The last name of the path.
fn last_name(path: &str) -> &str {
    match path.rsplit_once('/') {
        Some((_, name)) => name,
        None => path,
    }
}

/// The entries of a directory. In their names a byte of no UTF-8 stands for each `~`.
#[derive(Drop)]
pub struct Entries {
    entries: <HostRuntime as Files>::Dir,
}

impl Read for Entries {
    fn read(&mut self, buffer: &mut [u8]) -> io::Result<usize> {
        let count = self.entries.read(buffer)?;
        for byte in buffer.iter_mut() {
            if *byte == b'~' {
                *byte = 0xff;
            }
        }
        Ok(count)
    }
}

/// A file whose reads and writes take at most 1,000 bytes, each one interrupted once before.
#[derive(Drop)]
pub struct RecordedFile<'a> {
    file: File,
    name: String,
    journal: &'a Journal,
    calls: u64,
}

impl RecordedFile<'_> {
    /// Notes the first read or write, and interrupts every second one.
    fn begin(&mut self, verb: &'static str) -> io::Result<()> {
        if self.calls == 0 {
            self.journal.note(verb, self.name.as_str())?;
        }
        self.calls = self.calls.saturating_add(1);
        if self.calls % 2 == 1 {
            return Err(Error::from(ErrorKind::Interrupted));
        }
        Ok(())
    }
}

impl LockFile for RecordedFile<'_> {
    fn lock_at_once(&self) -> io::Result<()> {
        self.journal.note("lock", self.name.as_str())?;
        self.file.lock_at_once()
    }
}

impl Read for RecordedFile<'_> {
    fn read(&mut self, buffer: &mut [u8]) -> io::Result<usize> {
        self.begin("read")?;
        let most = buffer.len().min(1000);
        let count = self.file.read(&mut buffer[..most])?;
        Ok(count)
    }
}

impl Write for RecordedFile<'_> {
    fn write(&mut self, bytes: &[u8]) -> io::Result<usize> {
        self.begin("write")?;
        let most = bytes.len().min(1000);
        let count = self.file.write(&bytes[..most])?;
        Ok(count)
    }

    fn flush(&mut self) -> io::Result<()> {
        self.file.flush()
    }
}

impl Seek for RecordedFile<'_> {
    fn seek(&mut self, to: SeekFrom) -> io::Result<u64> {
        self.file.seek(to)
    }
}

impl OpenFile for RecordedFile<'_> {
    fn metadata(&self) -> io::Result<Metadata> {
        match self.journal.length.get() {
            0 => self.file.metadata(),
            length => Ok(Metadata::of_file(length)),
        }
    }

    fn set_len(&self, size: u64) -> io::Result<()> {
        self.file.set_len(size)
    }

    fn sync_all(&self) -> io::Result<()> {
        self.journal.note("sync", self.name.as_str())?;
        self.file.sync_all()
    }

    fn sync_data(&self) -> io::Result<()> {
        self.file.sync_data()
    }
}

/// The system, which writes what is asked of it into a journal.
#[derive(Clone, Drop)]
pub struct RecordedSystem<'a> {
    pub system: HostRuntime,
    pub journal: &'a Journal,
}

impl Alloc for RecordedSystem<'_> {
    type A = Global;

    fn alloc(&self) -> Global {
        self.system.alloc()
    }
}

impl<'a> Files for RecordedSystem<'a> {
    type File = RecordedFile<'a>;

    type Dir = Entries;

    fn open_file(&self, how: &OpenOptions, path: &str) -> io::Result<RecordedFile<'a>> {
        let verb = if how.asks_create_new() {
            "make"
        } else if how.asks_write() {
            "overwrite"
        } else {
            "open"
        };
        self.journal.note(verb, last_name(path))?;
        Ok(RecordedFile {
            file: self.system.open_file(how, path)?,
            name: String::from_str(self.system.alloc(), last_name(path))?,
            journal: self.journal,
            calls: 0,
        })
    }

    fn open_dir(&self, path: &str) -> io::Result<Entries> {
        Ok(Entries {
            entries: self.system.open_dir(path)?,
        })
    }

    fn metadata(&self, path: &str) -> io::Result<Metadata> {
        self.system.metadata(path)
    }

    fn symlink_metadata(&self, path: &str) -> io::Result<Metadata> {
        self.journal.pass("look", last_name(path))?;
        self.system.symlink_metadata(path)
    }

    fn copy(&self, from: &str, to: &str) -> io::Result<u64> {
        self.system.copy(from, to)
    }

    fn rename(&self, from: &str, to: &str) -> io::Result<()> {
        self.journal.note("rename", last_name(from))?;
        self.system.rename(from, to)
    }

    fn remove_file(&self, path: &str) -> io::Result<()> {
        self.journal.note("remove", last_name(path))?;
        self.system.remove_file(path)
    }

    fn create_dir(&self, path: &str) -> io::Result<()> {
        self.system.create_dir(path)
    }

    fn remove_dir(&self, path: &str) -> io::Result<()> {
        self.system.remove_dir(path)
    }

    fn remove_dir_all<B: Allocator>(&self, alloc: B, path: &str) -> io::Result<()> {
        self.system.remove_dir_all(alloc, path)
    }
}
