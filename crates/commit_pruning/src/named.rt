//! The segments that entries name, by their ids and versions, so that a file's entry is found without
//! going over all of them.
ghost use Rattle.std.specs.Prelude.{◌≡◌, ◌||◌, ◌&&◌, ◌==◌, ℕ, List, IfOk, OnOk};
ghost use Rattle.std.specs.BTreeSet.{contains};
ghost use Rattle.std.specs.Cmp.{partial_order_from_own_ties};
ghost use Rattle.std.specs.Cmp.Rules.{comparing};
ghost use Rattle.std.specs.Ordering.{as_partial_cmp, nat_cmp};
ghost use Rattle.std.proofs.Common.{rules};
ghost use Rattle.commit_point.specs.declared.heads.HeadSegment.{HeadSegment};
ghost use Rattle.commit_pruning.specs.Choosing.{has_id, has_written};
ghost use Rattle.commit_pruning.specs.Naming.{IsNamed, by_version};

use commit_point::HeadSegment;
use ix_base::NoMemory;
use std::alloc::Global;
use std::cmp::Ordering;
use std::collections::BTreeSet;

/// A segment's id, and the commit that wrote its live bits and set numbers.
#[derive(Clone, Copy, PartialEq, Eq)]
pub(crate) struct Version {
    id: u64,
    written: u64,
}

impl Ord for Version {
    ghost cmp = { by_version };

    ghost total = { Prim.search (comparing, rules) };

    ghost matches_partial_cmp = { Prim.search (comparing, rules) };

    ghost matches_eq = { Prim.search (comparing, rules) };

    fn cmp(&self, other: &Version) -> Ordering {
        self.id
            .cmp(&other.id)
            .then(self.written.cmp(&other.written))
    }
}

impl PartialOrd for Version {
    ghost partial_cmp = { as_partial_cmp by_version };

    ghost laws = { partial_order_from_own_ties (Prim.search (comparing, rules)) (Prim.search (comparing, rules)) };

    fn partial_cmp(&self, other: &Version) -> Option<Ordering> {
        Some(self.cmp(other))
    }
}

/// The segments that some entries name.
#[derive(Drop)]
pub(crate) struct Named {
    ids: BTreeSet<u64>,
    versions: BTreeSet<Version>,
}

/// Adds the id that an entry names.
fn add_id(ids: &mut BTreeSet<u64>, entry: &HeadSegment) -> Result<(), NoMemory>
    ensures { OnOk result ((id : ℕ) → contains nat_cmp ids.new id
        ≡ (contains nat_cmp ids.old id || (entry.now.id == id))) }
{
    ids.insert(entry.id)?;
    Ok(())
}

/// Adds the version that an entry names.
fn add_version(versions: &mut BTreeSet<Version>, entry: &HeadSegment) -> Result<(), NoMemory>
    ensures { OnOk result ((id v : ℕ)
        → contains by_version versions.new (record { id = id; written = v })
        ≡ (contains by_version versions.old (record { id = id; written = v })
        || ((entry.now.id == id) && (entry.now.written == v)))) }
{
    versions.insert(Version {
        id: entry.id,
        written: entry.written,
    })?;
    Ok(())
}

/// The ids that entries name.
fn ids_of(alloc: Global, entries: &[HeadSegment]) -> Result<BTreeSet<u64>, NoMemory>
    ensures { IfOk result (λ ids. (id : ℕ) → contains nat_cmp ids id ≡ has_id entries.now id) }
{
    let mut ids = BTreeSet::new(alloc);
    for entry in entries {
        add_id(&mut ids, entry)?;
    }
    Ok(ids)
}

/// The versions that entries name.
fn versions_of(alloc: Global, entries: &[HeadSegment]) -> Result<BTreeSet<Version>, NoMemory>
    ensures { IfOk result (λ versions. (id v : ℕ)
        → contains by_version versions (record { id = id; written = v })
        ≡ has_written entries.now id v) }
{
    let mut versions = BTreeSet::new(alloc);
    for entry in entries {
        add_version(&mut versions, entry)?;
    }
    Ok(versions)
}

impl Named {
    /// The segments that these entries name.
    pub fn of(alloc: Global, entries: &[HeadSegment]) -> Result<Named, NoMemory>
        ensures { IfOk result (IsNamed entries.now) }
    {
        let ids = ids_of(alloc, entries)?;
        let versions = versions_of(alloc, entries)?;
        Ok(Named { ids, versions })
    }

    /// Whether an entry names a segment of this id.
    pub fn has_id(&self, id: u64) -> bool
        ensures { (entries : List HeadSegment) → IsNamed entries self.now
            → result ≡ has_id entries id }
    {
        self.ids.contains(&id)
    }

    /// Whether an entry names a segment of this id that was written with this commit.
    pub fn has_written(&self, id: u64, written: u64) -> bool
        ensures { (entries : List HeadSegment) → IsNamed entries self.now
            → result ≡ has_written entries id written }
    {
        self.versions.contains(&Version { id, written })
    }
}
