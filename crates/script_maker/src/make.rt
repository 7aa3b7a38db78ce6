//! Making a script.
ghost use Rattle.std.specs.Prelude.{◌≡◌, ◌+◌, ◌<◌, ◌≤◌, ◌^◌, ◌++◌, map, IfOk, OnOk};
ghost use Rattle.std.specs.List.{range_with_len};
ghost use Rattle.op_script.specs.Shape.{AreScriptLines};
ghost use Rattle.script_maker.specs.Made.{made_script, made_line, made_act, last_commit};

use crate::draws::next_number;
use crate::operations::drawn_operation;
use ix_base::{Fields, List, NoMemory, Operation};
use op_script::{Act, Line, Script};
use std::alloc::Global;

/// The script of so many drawn lines, numbered from 1, and a commit of each caller behind them. The
/// callers take turns, and each 64th line is a commit. The seed is below 2^31, the lines are 1 to
/// 1,000,000 and the callers 1 to 256. `NoMemory` is all that an error means.
pub fn make_script(alloc: Global, seed: u32, lines: u32, callers: u32) -> Result<Script, NoMemory>
    requires seed { seed < 2 ^ 31 }
    requires lines { (1 ≤ lines) × (lines ≤ 1000000) }
    requires callers { (1 ≤ callers) × (callers ≤ 256) }
    ensures lines { IfOk result (λ script. script.lines ≡ made_script seed lines callers) }
    ensures shape { IfOk result (λ script. AreScriptLines script.lines) }
{
    let mut made = drawn_lines(alloc, seed, lines, callers)?;
    add_commits(alloc, lines, callers, &mut made)?;
    Ok(Script {
        lines: List::from_vec(made),
    })
}

/// The lines that are drawn.
fn drawn_lines(alloc: Global, seed: u32, lines: u32, callers: u32) -> Result<Vec<Line>, NoMemory>
    requires seed { seed < 2 ^ 31 }
    requires callers { (1 ≤ callers) × (callers ≤ 256) }
    ensures { IfOk result (λ made. made.items
        ≡ map (made_line seed callers) (range_with_len 1 lines)) }
{
    let mut made = Vec::new(alloc);
    let mut number = seed;
    for before in 0..lines {
        number = next_number(number);
        let caller = (before % callers) as u8;
        let act = made_act(alloc, before + 1, caller, number / 65_536)?;
        made.push(Line {
            line: before + 1,
            caller,
            act,
        })?;
    }
    Ok(made)
}

/// What the line at this place asks for, of this caller and at this draw.
fn made_act(alloc: Global, at: u32, caller: u8, draw: u32) -> Result<Act, NoMemory>
    ensures { IfOk result (λ act. act ≡ made_act at caller draw) }
{
    if at % 64 == 0 {
        return Ok(Act::Do(Operation::Commit(Fields::none(alloc))));
    }
    Ok(Act::Do(drawn_operation(alloc, caller, draw)?))
}

/// Puts a commit of each caller behind so many lines.
fn add_commits(
    alloc: Global,
    lines: u32,
    callers: u32,
    made: &mut Vec<Line>,
) -> Result<(), NoMemory>
    requires lines { lines ≤ 1000000 }
    requires callers { callers ≤ 256 }
    ensures { OnOk result (made.new.items
        ≡ made.old.items ++ map (last_commit lines) (range_with_len 0 callers)) }
{
    for caller in 0..callers {
        made.push(Line {
            line: lines + 1 + caller,
            caller: caller as u8,
            act: Act::Do(Operation::Commit(Fields::none(alloc))),
        })?;
    }
    Ok(())
}
