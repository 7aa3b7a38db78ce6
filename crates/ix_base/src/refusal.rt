//! Why an operation is refused.
ghost use Rattle.std.specs.Prelude.{◌≡◌};
ghost use Rattle.ix_base.specs.declared.refusal.Refused.TheVariants as refused;

use crate::memory::NoMemory;
use std::alloc::AllocError;

/// Why an operation gets no number. Sizes are in bytes.
#[derive(Clone, Copy, Debug, PartialEq, Eq)]
pub enum Refusal {
    /// Its own term, or else the first such term of its document, has more than 32,766 bytes.
    Term { size: u64 },
    /// The encoded query that it deletes by has more than 131,072 bytes; `u64::MAX` stands for all
    /// larger sizes too.
    Query { size: u64 },
}

/// Why a call has not done what was asked of it: the operation is refused, or memory ran out.
#[derive(Clone, Copy, Debug, PartialEq, Eq)]
pub enum Refused {
    /// The operation, or the document, is refused.
    For(Refusal),
    /// Memory ran out.
    NoMemory,
}

impl From<Refusal> for Refused {
    ghost from_gives = { λ refusal error. error ≡ refused.For refusal };

    fn from(refusal: Refusal) -> Refused {
        Refused::For(refusal)
    }
}

impl From<NoMemory> for Refused {
    ghost from_gives = { λ _ error. error ≡ refused.NoMemory };

    fn from(_error: NoMemory) -> Refused {
        Refused::NoMemory
    }
}

impl From<AllocError> for Refused {
    ghost from_gives = { λ _ error. error ≡ refused.NoMemory };

    fn from(_error: AllocError) -> Refused {
        Refused::NoMemory
    }
}
