//! Errors of reading.
ghost use Rattle.std.specs.Prelude.{◌≡◌, ⊤};
ghost use Rattle.node_words.specs.declared.fault.ReadError.TheVariants.{Memory, Foreign};

use ix_base::NoMemory;
use ix_base::codec::BrokenField;
use std::alloc::AllocFailed;

/// The bytes or words are not of the wanted form. Functions that take no memory return no other error.
#[derive(Clone, Copy, Debug, PartialEq, Eq)]
pub(crate) struct WrongForm;

/// Why nothing was read: memory ran out, or the bytes or words are not of the wanted form.
#[derive(Drop)]
pub(crate) enum ReadError {
    Memory,
    Foreign,
}

impl From<BrokenField> for WrongForm {
    ghost from_gives = { λ _ _. ⊤ };

    fn from(_error: BrokenField) -> WrongForm {
        WrongForm
    }
}

impl From<WrongForm> for ReadError {
    ghost from_gives = { λ _ e. e ≡ Foreign };

    fn from(_error: WrongForm) -> ReadError {
        ReadError::Foreign
    }
}

impl From<NoMemory> for ReadError {
    ghost from_gives = { λ _ e. e ≡ Memory };

    fn from(_error: NoMemory) -> ReadError {
        ReadError::Memory
    }
}

impl<T: Drop> From<AllocFailed<T>> for ReadError {
    ghost from_gives = { λ _ e. e ≡ Memory };

    fn from(_error: AllocFailed<T>) -> ReadError {
        ReadError::Memory
    }
}
