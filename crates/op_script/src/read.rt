//! Reading a script.
ghost use Rattle.std.specs.Prelude.{◌≡◌, ◌<◌, ◌≤◌, false, ℕ, List, length, Result, IfOk, OnOk, Ok, Err};
ghost use Rattle.op_script.specs.Language.{script, lines_from, line_at, and_then, onto};
ghost use Rattle.op_script.specs.Lines.{lines_of, is_blank, HasAsked};
ghost use Rattle.op_script.specs.Shape.{AreScriptLines};
ghost use Rattle.op_script.specs.declared.script.BadLine.{BadLine};
ghost use Rattle.op_script.specs.declared.script.Line.{Line};

use crate::input_lines::cut_line;
use crate::requests::read_line;
use crate::script::{BadLine, Line, Script, ScriptFault, Why};
use ix_base::List;
use std::alloc::Global;

/// No input has more bytes than this.
pub const MOST_BYTES: usize = 67_108_864;

/// Reads the lines of a script. `Bad` comes exactly where the input has a bad line, and names the
/// first one with its first reason; an input of more than 67,108,864 bytes is bad at line 0. Memory
/// is taken only where a line isn't passed over.
pub fn read_script(alloc: Global, bytes: &[u8]) -> Result<Script, ScriptFault>
    ensures lines { IfOk result (λ s. script bytes.now ≡ Ok s.lines) }
    ensures bad { (bad : BadLine) → result ≡ Err (ScriptFault.Bad bad)
        → script bytes.now ≡ Err bad }
    ensures shape { IfOk result (λ s. AreScriptLines s.lines) }
    ensures memory { result ≡ Err ScriptFault.NoMemory → HasAsked bytes.now }
    // An input that is too long is bad whatever else it holds.
    ensures long { (input : List ℕ) → MOST_BYTES < length input
        → script input ≡ Err (record { line = 0; why = Why.Long }) }
{
    if bytes.len() > MOST_BYTES {
        return Err(ScriptFault::Bad(BadLine {
            line: 0,
            why: Why::Long,
        }));
    }
    let lines = read_lines(alloc, bytes)?;
    Ok(Script {
        lines: List::from_vec(lines),
    })
}

fn read_lines(alloc: Global, bytes: &[u8]) -> Result<Vec<Line>, ScriptFault>
    requires { length bytes.now ≤ MOST_BYTES }
    ensures ok { IfOk result (λ lines. lines_from 1 (lines_of bytes.now) ≡ Ok lines.items) }
    ensures bad { (bad : BadLine) → result ≡ Err (ScriptFault.Bad bad)
        → lines_from 1 (lines_of bytes.now) ≡ Err bad }
    ensures memory { result ≡ Err ScriptFault.NoMemory → HasAsked bytes.now }
{
    let mut lines = Vec::new(alloc);
    let mut rest = bytes;
    let mut at = 1;
    while let Some((text, left)) = cut_line(rest) {
        add_line(alloc, at, text, &mut lines)?;
        rest = left;
        at += 1;
    }
    add_line(alloc, at, rest, &mut lines)?;
    Ok(lines)
}

/// Adds the line of this number, unless it is passed over.
fn add_line(alloc: Global, at: u32, text: &[u8], lines: &mut Vec<Line>) -> Result<(), ScriptFault>
    ensures ok { OnOk result ((rest : Result (List Line) BadLine)
        → onto lines.old.items (and_then (line_at at text.now) rest) ≡ onto lines.new.items rest) }
    ensures bad { (bad : BadLine) → result ≡ Err (ScriptFault.Bad bad)
        → line_at at text.now ≡ Err bad }
    ensures memory { result ≡ Err ScriptFault.NoMemory → is_blank text.now ≡ false }
{
    if let Some(line) = read_line(alloc, at, text)? {
        lines.push(line)?;
    }
    Ok(())
}
