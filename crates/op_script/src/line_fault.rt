//! Why a line isn't read.
ghost use Rattle.op_script.specs.declared.line_fault.LineFault.{LineFault};
ghost use Rattle.op_script.specs.declared.line_fault.LineFault.TheVariants as fault;
ghost use Rattle.std.specs.Prelude.{◌≡◌};

use crate::script::Why;
use ix_base::NoMemory;

/// Why a line isn't read.
#[derive(Clone, Copy, Debug, PartialEq, Eq)]
pub enum LineFault {
    /// The line is bad.
    Bad(Why),
    /// Memory ran out.
    NoMemory,
}

impl From<Why> for LineFault {
    ghost from_gives = { λ why f. f ≡ fault.Bad why };

    fn from(why: Why) -> LineFault {
        LineFault::Bad(why)
    }
}

impl From<NoMemory> for LineFault {
    ghost from_gives = { λ _ f. f ≡ fault.NoMemory };

    fn from(_error: NoMemory) -> LineFault {
        LineFault::NoMemory
    }
}
