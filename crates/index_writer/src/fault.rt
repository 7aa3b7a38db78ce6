//! Why a call of the writer did nothing.
ghost use Rattle.std.specs.Prelude.{◌≡◌};

use crate::round::RoundParts;
use ix_base::Damaged;

/// Why a call of the writer did not succeed.
#[derive(Clone, Copy, Debug, PartialEq, Eq)]
pub enum WriterFault {
    /// The store failed, and its count of faults rose. The writer is closed.
    Store,
    /// The writer is closed. Nothing changed.
    Closed,
    /// Out of memory.
    NoMemory,
}

impl From<ix_base::NoMemory> for WriterFault {
    ghost use Rattle.index_writer.specs.declared.fault.WriterFault.TheVariants.{NoMemory};

    ghost from_gives = { λ _ fault. fault ≡ NoMemory };

    fn from(_error: ix_base::NoMemory) -> WriterFault {
        WriterFault::NoMemory
    }
}

/// Why old commits were not given up, or not all of them.
#[derive(Clone, Copy, Debug, PartialEq, Eq)]
pub enum PruneFault {
    /// The store failed, and its count of faults rose. The writer is closed.
    Store,
    /// The writer is closed. Nothing changed.
    Closed,
    /// The commit file of a commit that stays is not in the grammar, or absent. Nothing was deleted.
    Damaged(Damaged),
    /// Out of memory. Some files may be deleted, and the writer goes on.
    NoMemory,
}

/// A round that was not ended.
#[derive(Drop)]
pub struct EndRefused {
    /// The round, where the writer was closed before; `None` where memory ran out.
    pub parts: Option<RoundParts>,
    pub fault: WriterFault,
}

/// Out of memory for a writer. The store is given back as it was.
#[derive(Drop)]
pub struct OpenRefused<S> {
    pub store: S,
}
