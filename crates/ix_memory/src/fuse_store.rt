//! A store all of whose calls fail after a chosen number of calls.
ghost use Rattle.std.specs.Prelude.{◌≡◌, ◌+◌, ◌-◌, ◌^◌, ◌↔◌, min, IsTrue};
ghost use Rattle.std.specs.Bool.{OnTrue, OnFalse};

use ix_base::FileName;
use ix_outside::{Store, StoreFault};
use std::alloc::Global;

/// A store that passes a chosen number of calls on to the store inside. Each later call fails: it
/// raises the count of faults and changes nothing else.
#[derive(Drop)]
pub struct FuseStore<S> {
    inner: S,
    fuse: Fuse,
}

/// How many calls will still pass, and how many have failed because none passes.
#[derive(Drop)]
struct Fuse {
    passes: u64,
    faults: u64,
}

impl<S: Store> FuseStore<S> {
    /// The store that passes this many calls on to the store inside.
    pub fn new(inner: S, passes: u64) -> Self
        ensures inner { result.inner ≡ inner }
        ensures passes { result.fuse.passes ≡ passes }
        ensures faults { result.fuse.faults ≡ 0 }
    {
        FuseStore {
            inner,
            fuse: Fuse { passes, faults: 0 },
        }
    }

    /// The store inside.
    pub fn into_inner(self) -> S
        ensures { result ≡ self.inner }
    {
        let FuseStore { inner, fuse: _ } = self;
        inner
    }
}

impl Fuse {
    /// Whether this call fails: exactly where no more calls pass. A call that passes lowers the number
    /// of those that still pass by one; one that fails raises the count of faults, which stays at
    /// `u64::MAX` once it is there.
    fn next_fails(&mut self) -> bool
        ensures fails { IsTrue result ↔ (self.old.passes ≡ 0) }
        ensures passes { self.new.passes ≡ self.old.passes - 1 }
        ensures same { OnFalse result (self.new.faults ≡ self.old.faults) }
        ensures risen { OnTrue result (self.new.faults ≡ min (self.old.faults + 1) (2 ^ 64 - 1)) }
    {
        if self.passes == 0 {
            self.faults = self.faults.saturating_add(1);
            true
        } else {
            self.passes -= 1;
            false
        }
    }
}

impl<S: Store> Store for FuseStore<S> {
    ghost use Rattle.std.specs.Prelude.{◌+◌, ◌-◌, ◌^◌, min};

    ghost disk = { λ store. S.disk store.inner };

    ghost fault_count = { λ store. min (S.fault_count store.inner + store.fuse.faults)
        (2 ^ 64 - 1) };

    ghost use Rattle.std.specs.Prelude.{◌≡◌, ◌≢◌, ◌<◌, Err, IfOk, IfSome, All, option_map};
    ghost use Rattle.ix_base.specs.FileNames.{IsFileName};
    ghost use Rattle.ix_outside.specs.Files.{Lists, Reads};
    ghost use Rattle.ix_outside.specs.Disk.{Takes, told_files};
    ghost use Rattle.ix_outside.specs.Causes.{HasStoreCause};
    ghost use Rattle.ix_outside.specs.declared.step.Step.TheVariants.{Wrote, Synced, Renamed, Deleted, Settled};

    fn list(&mut self, alloc: Global) -> Result<Vec<FileName>, StoreFault>
        ensures names { IfOk result (λ names.
            IfSome (told_files (S.disk self.old.inner)) (λ here. Lists here names.items)) }
        ensures real { IfOk result (λ names. All IsFileName names.items) }
        ensures disk { S.disk self.new.inner ≡ S.disk self.old.inner }
        ensures cause { HasStoreCause (min (S.fault_count self.old.inner + self.old.fuse.faults)
            (2 ^ 64 - 1)) (min (S.fault_count self.new.inner + self.new.fuse.faults)
            (2 ^ 64 - 1)) result }
        ensures burnt { self.old.fuse.passes ≡ 0 → result ≡ Err StoreFault.Failed }
        ensures kept { self.old.fuse.passes ≡ 0 → self.new.inner ≡ self.old.inner }
        ensures spared { 0 < self.old.fuse.passes → self.new.fuse.faults ≡ self.old.fuse.faults }
        ensures passes { self.new.fuse.passes ≡ self.old.fuse.passes - 1 }
    {
        if self.fuse.next_fails() {
            return Err(StoreFault::Failed);
        }
        self.inner.list(alloc)
    }

    fn read(&mut self, alloc: Global, name: FileName) -> Result<Option<Vec<u8>>, StoreFault>
        ensures bytes { IfOk result (λ found.
            Reads (told_files (S.disk self.old.inner)) name
            (option_map (λ bytes. bytes.items) found)) }
        ensures disk { S.disk self.new.inner ≡ S.disk self.old.inner }
        ensures cause { HasStoreCause (min (S.fault_count self.old.inner + self.old.fuse.faults)
            (2 ^ 64 - 1)) (min (S.fault_count self.new.inner + self.new.fuse.faults)
            (2 ^ 64 - 1)) result }
        ensures burnt { self.old.fuse.passes ≡ 0 → result ≡ Err StoreFault.Failed }
        ensures kept { self.old.fuse.passes ≡ 0 → self.new.inner ≡ self.old.inner }
        ensures spared { 0 < self.old.fuse.passes → self.new.fuse.faults ≡ self.old.fuse.faults }
        ensures passes { self.new.fuse.passes ≡ self.old.fuse.passes - 1 }
    {
        if self.fuse.next_fails() {
            return Err(StoreFault::Failed);
        }
        self.inner.read(alloc, name)
    }

    fn write(&mut self, name: FileName, bytes: &[u8]) -> Result<(), StoreFault>
        requires { IsFileName name }
        ensures disk { Takes (Wrote name bytes.now) (S.disk self.old.inner)
            (S.disk self.new.inner) result }
        ensures cause { HasStoreCause (min (S.fault_count self.old.inner + self.old.fuse.faults)
            (2 ^ 64 - 1)) (min (S.fault_count self.new.inner + self.new.fuse.faults)
            (2 ^ 64 - 1)) result }
        ensures burnt { self.old.fuse.passes ≡ 0 → result ≡ Err StoreFault.Failed }
        ensures kept { self.old.fuse.passes ≡ 0 → self.new.inner ≡ self.old.inner }
        ensures spared { 0 < self.old.fuse.passes → self.new.fuse.faults ≡ self.old.fuse.faults }
        ensures passes { self.new.fuse.passes ≡ self.old.fuse.passes - 1 }
    {
        if self.fuse.next_fails() {
            return Err(StoreFault::Failed);
        }
        self.inner.write(name, bytes)
    }

    fn sync(&mut self, name: FileName) -> Result<(), StoreFault>
        ensures disk { Takes (Synced name) (S.disk self.old.inner) (S.disk self.new.inner) result }
        ensures cause { HasStoreCause (min (S.fault_count self.old.inner + self.old.fuse.faults)
            (2 ^ 64 - 1)) (min (S.fault_count self.new.inner + self.new.fuse.faults)
            (2 ^ 64 - 1)) result }
        ensures burnt { self.old.fuse.passes ≡ 0 → result ≡ Err StoreFault.Failed }
        ensures kept { self.old.fuse.passes ≡ 0 → self.new.inner ≡ self.old.inner }
        ensures spared { 0 < self.old.fuse.passes → self.new.fuse.faults ≡ self.old.fuse.faults }
        ensures passes { self.new.fuse.passes ≡ self.old.fuse.passes - 1 }
    {
        if self.fuse.next_fails() {
            return Err(StoreFault::Failed);
        }
        self.inner.sync(name)
    }

    fn rename(&mut self, from: FileName, to: FileName) -> Result<(), StoreFault>
        requires name { IsFileName to }
        requires apart { from ≢ to }
        ensures disk { Takes (Renamed from to) (S.disk self.old.inner)
            (S.disk self.new.inner) result }
        ensures cause { HasStoreCause (min (S.fault_count self.old.inner + self.old.fuse.faults)
            (2 ^ 64 - 1)) (min (S.fault_count self.new.inner + self.new.fuse.faults)
            (2 ^ 64 - 1)) result }
        ensures burnt { self.old.fuse.passes ≡ 0 → result ≡ Err StoreFault.Failed }
        ensures kept { self.old.fuse.passes ≡ 0 → self.new.inner ≡ self.old.inner }
        ensures spared { 0 < self.old.fuse.passes → self.new.fuse.faults ≡ self.old.fuse.faults }
        ensures passes { self.new.fuse.passes ≡ self.old.fuse.passes - 1 }
    {
        if self.fuse.next_fails() {
            return Err(StoreFault::Failed);
        }
        self.inner.rename(from, to)
    }

    fn delete(&mut self, name: FileName) -> Result<(), StoreFault>
        ensures disk { Takes (Deleted name) (S.disk self.old.inner) (S.disk self.new.inner) result }
        ensures cause { HasStoreCause (min (S.fault_count self.old.inner + self.old.fuse.faults)
            (2 ^ 64 - 1)) (min (S.fault_count self.new.inner + self.new.fuse.faults)
            (2 ^ 64 - 1)) result }
        ensures burnt { self.old.fuse.passes ≡ 0 → result ≡ Err StoreFault.Failed }
        ensures kept { self.old.fuse.passes ≡ 0 → self.new.inner ≡ self.old.inner }
        ensures spared { 0 < self.old.fuse.passes → self.new.fuse.faults ≡ self.old.fuse.faults }
        ensures passes { self.new.fuse.passes ≡ self.old.fuse.passes - 1 }
    {
        if self.fuse.next_fails() {
            return Err(StoreFault::Failed);
        }
        self.inner.delete(name)
    }

    fn sync_all(&mut self) -> Result<(), StoreFault>
        ensures disk { Takes Settled (S.disk self.old.inner) (S.disk self.new.inner) result }
        ensures cause { HasStoreCause (min (S.fault_count self.old.inner + self.old.fuse.faults)
            (2 ^ 64 - 1)) (min (S.fault_count self.new.inner + self.new.fuse.faults)
            (2 ^ 64 - 1)) result }
        ensures burnt { self.old.fuse.passes ≡ 0 → result ≡ Err StoreFault.Failed }
        ensures kept { self.old.fuse.passes ≡ 0 → self.new.inner ≡ self.old.inner }
        ensures spared { 0 < self.old.fuse.passes → self.new.fuse.faults ≡ self.old.fuse.faults }
        ensures passes { self.new.fuse.passes ≡ self.old.fuse.passes - 1 }
    {
        if self.fuse.next_fails() {
            return Err(StoreFault::Failed);
        }
        self.inner.sync_all()
    }

    fn faults(&self) -> u64 {
        self.inner.faults().saturating_add(self.fuse.faults)
    }
}
