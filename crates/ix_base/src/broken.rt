//! Why a field was not read, where reading it takes memory.
ghost use Rattle.std.specs.Prelude.{◌≡◌};
ghost use Rattle.ix_base.specs.declared.broken.Broken.TheVariants.{NoMemory, At};

use crate::codec::BrokenField;
use crate::memory::NoMemory as OutOfMemory;
use std::alloc::{AllocError, AllocFailed};

/// Why a field was not read, where reading it takes memory.
#[derive(Clone, Copy, Debug, PartialEq, Eq)]
pub enum Broken {
    /// Memory ran out.
    NoMemory,
    /// A field is cut short or breaks a rule: how many bytes are left from its first byte on.
    At(usize),
}

impl From<BrokenField> for Broken {
    ghost from_gives = { λ field e. e ≡ At field.left };

    fn from(field: BrokenField) -> Broken {
        Broken::At(field.left)
    }
}

impl From<OutOfMemory> for Broken {
    ghost from_gives = { λ _ e. e ≡ NoMemory };

    fn from(_error: OutOfMemory) -> Broken {
        Broken::NoMemory
    }
}

impl From<AllocError> for Broken {
    ghost from_gives = { λ _ e. e ≡ NoMemory };

    fn from(_error: AllocError) -> Broken {
        Broken::NoMemory
    }
}

impl<T: Drop> From<AllocFailed<T>> for Broken {
    ghost from_gives = { λ _ e. e ≡ NoMemory };

    fn from(_error: AllocFailed<T>) -> Broken {
        Broken::NoMemory
    }
}
