//! The lock of a directory.
ghost use Rattle.std.specs.Prelude.{◌↔◌, IsTrue};
ghost use Rattle.ix_outside.specs.Locks.{IsLocked, LacksLock, OnlyReads};

use std::fs::File;
use std::io;

/// An open file or directory of the system that can be locked as a whole.
pub trait LockFile {
    /// Takes the lock. It doesn't wait: where another opening of the file holds the lock it is an
    /// error. The system takes the lock back when the file is closed, also where its process is
    /// ended.
    fn lock_at_once(&self) -> io::Result<()>;
}

impl LockFile for File {
    fn lock_at_once(&self) -> io::Result<()> {
        self.try_lock()?;
        Ok(())
    }
}

/// What a directory is opened for, and whether its lock is held.
#[derive(Drop)]
pub enum Access<F> {
    /// To read its files beside others that may change them. No lock is taken.
    OnlyReading,
    /// To read and change its files, once the lock is held.
    Unlocked,
    /// To read and change its files. The lock is held as long as this is open.
    Locked(F),
}

impl<F> Access<F> {
    /// Whether the lock is to be taken before anything else.
    pub fn lacks_lock(&self) -> bool
        ensures { IsTrue result ↔ LacksLock self.now }
    {
        matches!(self, Access::Unlocked)
    }

    /// Whether files are only read.
    pub fn only_reads(&self) -> bool
        ensures { IsTrue result ↔ OnlyReads self.now }
    {
        matches!(self, Access::OnlyReading)
    }
}
