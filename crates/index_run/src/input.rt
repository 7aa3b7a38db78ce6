//! Reading the input.
ghost use Rattle.std.specs.Prelude.{◌≡◌, ◌≤◌, ◌<◌, ◌+◌, ◌⊎◌, ◌++◌, ℕ, List, length, IfOk, IfErr, Err};
ghost use Rattle.std.specs.Io.KnownBytes.{Consumes, IsAtEnd};
ghost use Rattle.ix_outside.specs.Causes.{Rose};
ghost use Rattle.op_script.specs.Language.{most_bytes};
ghost use Rattle.index_run.specs.Causes.{TakesUpTo};

use crate::stop::Stop;
use ix_base::NoMemory;
use ix_outside::Source;
use op_script::MOST_BYTES;
use report_text::Fault;
use std::alloc::Global;

/// The most that a turn of reading asks for: 64 KiB.
const MOST_IN_TURN: usize = 65_536;

/// So many bytes that are 0.
fn zeros(alloc: Global, count: usize) -> Result<Vec<u8>, NoMemory>
    ensures { IfOk result (λ bytes. length bytes.items ≡ count) }
{
    Ok(vec![in alloc; 0u8; count]?)
}

/// Reads the input to its end, or one byte past the most bytes that a script may have, and no
/// further. Each turn takes at least one byte, so there are at most 67,108,865 turns and the one
/// that finds the end.
pub fn read_input<I: Source>(alloc: Global, input: &mut I) -> Result<Vec<u8>, Stop>
    ensures bytes { IfOk result (λ bytes.
        Consumes (I.left input.old) (I.left input.new) bytes.items) }
    ensures end { IfOk result (λ bytes. (IsAtEnd (I.left input.new))
        ⊎ (MOST_BYTES < length bytes.items)) }
    ensures bound { TakesUpTo (most_bytes + 1) (I.left input.old) (I.left input.new) }
    ensures source { result ≡ Err (Stop.Fault Fault.Source)
        → Rose (I.fault_count input.old) (I.fault_count input.new) }
    ensures others { IfErr result (λ stop. (stop ≡ Stop.Fault Fault.Source)
        ⊎ (stop ≡ Stop.NoMemory)) }
    ensures later { I.fault_count input.old ≤ I.fault_count input.new }
{
    let mut bytes = Vec::new(alloc);
    let mut buffer = zeros(alloc, MOST_IN_TURN)?;
    while bytes.len() <= MOST_BYTES {
        buffer.truncate(MOST_BYTES + 1 - bytes.len());
        let Ok(count) = input.read(buffer.as_mut_slice()) else {
            return Err(Stop::Fault(Fault::Source));
        };
        if count == 0 {
            return Ok(bytes);
        }
        bytes.extend_from_slice(&buffer[..count])?;
    }
    Ok(bytes)
}
