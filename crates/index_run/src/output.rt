//! Writing a text to the sink.
ghost use Rattle.std.specs.Prelude.{◌≡◌, length, take, OnOk, OnErr};
ghost use Rattle.std.specs.Io.KnownBytes.{Appends};
ghost use Rattle.ix_outside.specs.Causes.{HasCause};
ghost use Rattle.index_run.specs.Causes.{WritesFront};

use ix_outside::{Failed, Sink};

/// Writes all of the bytes, or a prefix of them where the sink fails.
pub fn write_all<O: Sink>(out: &mut O, bytes: &[u8]) -> Result<(), Failed>
    ensures ok { OnOk result (Appends (O.written out.old) (O.written out.new) bytes.now) }
    ensures front { WritesFront (O.written out.old) (O.written out.new) (O.fault_count out.old)
        (O.fault_count out.new) bytes.now }
    ensures cause { HasCause (O.fault_count out.old) (O.fault_count out.new) result }
{
    let mut done = 0;
    while done < bytes.len() {
        done += out.write(&bytes[done..])?;
    }
    Ok(())
}
