//! The first broken place of a file, and why a file is not read.
ghost use Rattle.std.specs.Prelude.{◌≡◌, ◌-◌, ℕ};

use crate::broken::Broken;
use crate::file_name::FileName;

/// A file whose bytes are not in the grammar, and the first broken place: the offset of the first
/// byte of the first field that is cut short or breaks a rule. An absent file is broken at 0.
#[derive(Clone, Copy, Debug, PartialEq, Eq)]
pub struct Damaged {
    pub file: FileName,
    pub at: u64,
}

/// Why a file's bytes were not read.
#[derive(Clone, Copy, Debug, PartialEq, Eq)]
pub enum FileFault {
    /// The bytes are not in the grammar.
    Damaged(Damaged),
    /// Memory ran out.
    NoMemory,
}

impl FileFault {
    /// Why a file of this length was not read, where reading its fields ended so.
    pub fn of_field(broken: Broken, file: FileName, len: usize) -> FileFault
        ensures memory { broken ≡ Broken.NoMemory → result ≡ FileFault.NoMemory }
        ensures place { (left : ℕ) → broken ≡ Broken.At left
            → result ≡ FileFault.Damaged (record { file = file; at = len - left }) }
    {
        match broken {
            Broken::NoMemory => FileFault::NoMemory,
            Broken::At(left) => FileFault::Damaged(Damaged {
                file,
                at: len.saturating_sub(left) as u64,
            }),
        }
    }
}
