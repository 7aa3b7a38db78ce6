//! The input of a command: the script of a run, or questions.
ghost use Rattle.std.specs.Prelude.{◌≡◌, ◌≤◌, ◌+◌, ◌∷◌, [], ℕ, List, OnOk, IfOk, IfErr, IsErrAnd, Ok, Err, Some};
ghost use Rattle.std.specs.Io.KnownBytes.{IsAtEnd};
ghost use Rattle.ix_outside.specs.Causes.{Rose};
ghost use Rattle.ix_outside.specs.Files.{Was};
ghost use Rattle.op_script.specs.Language.{most_bytes, script};
ghost use Rattle.op_script.specs.Questions.{questions};
ghost use Rattle.op_script.specs.Shape.{AreScriptLines};
ghost use Rattle.op_script.specs.declared.questions.Question.{Question};
ghost use Rattle.op_script.specs.declared.script.BadLine.{BadLine};
ghost use Rattle.op_script.specs.declared.script.Line.{Line};
ghost use Rattle.index_run.specs.Causes.{IsOneOf, TakesUpTo, stop_status};

use crate::input::read_input;
use crate::stop::Stop;
use ix_base::List;
use ix_outside::Source;
use op_script::{Line, Question, ScriptFault, read_queries, read_script};
use report_text::Fault;
use std::alloc::Global;

/// Reads the script that the input is, to its end.
pub fn read_lines<I: Source>(alloc: Global, input: &mut I) -> Result<List<Line>, Stop>
    ensures shape { IfOk result AreScriptLines }
    ensures lines { (bytes : List ℕ) → I.left input.old ≡ Some bytes
        → IfOk result (λ lines. script bytes ≡ Ok lines) }
    ensures script { IfOk result (λ lines. (bytes : List ℕ) × Was (I.left input.old) bytes
        × (script bytes ≡ Ok lines)) }
    ensures end { OnOk result (IsAtEnd (I.left input.new)) }
    ensures bound { TakesUpTo (most_bytes + 1) (I.left input.old) (I.left input.new) }
    ensures bad { (bad : BadLine) → result ≡ Err (Stop.Fault (Fault.BadLine bad))
        → (bytes : List ℕ) × Was (I.left input.old) bytes × (script bytes ≡ Err bad) }
    ensures bad_line { (bytes : List ℕ) (bad : BadLine) → I.left input.old ≡ Some bytes
        → script bytes ≡ Err bad
        → IsErrAnd result (λ stop. IsOneOf (stop_status stop) (3 ∷ 4 ∷ 5 ∷ [])) }
    ensures whole { (bytes : List ℕ) (lines : List Line) → I.left input.old ≡ Some bytes
        → script bytes ≡ Ok lines
        → IfErr result (λ stop. IsOneOf (stop_status stop) (4 ∷ 5 ∷ [])) }
    ensures failed { result ≡ Err (Stop.Fault Fault.Source)
        → Rose (I.fault_count input.old) (I.fault_count input.new) }
    ensures others { IfErr result (λ stop. IsOneOf (stop_status stop) (3 ∷ 4 ∷ 5 ∷ [])) }
{
    let bytes = match read_input(alloc, input) {
        Ok(bytes) => bytes,
        Err(stop) => return Err(stop),
    };
    match read_script(alloc, bytes.as_slice()) {
        Ok(script) => Ok(script.lines),
        Err(ScriptFault::Bad(bad)) => Err(Stop::Fault(Fault::BadLine(bad))),
        Err(ScriptFault::NoMemory) => Err(Stop::NoMemory),
    }
}

/// Reads the questions that the input is, to its end.
pub fn read_questions<I: Source>(alloc: Global, input: &mut I) -> Result<List<Question>, Stop>
    ensures questions { (bytes : List ℕ) → I.left input.old ≡ Some bytes
        → IfOk result (λ asked. questions bytes ≡ Ok asked) }
    ensures end { OnOk result (IsAtEnd (I.left input.new)) }
    ensures bound { TakesUpTo (most_bytes + 1) (I.left input.old) (I.left input.new) }
    ensures bad { (bad : BadLine) → result ≡ Err (Stop.Fault (Fault.BadLine bad))
        → (bytes : List ℕ) × Was (I.left input.old) bytes × (questions bytes ≡ Err bad) }
    ensures bad_line { (bytes : List ℕ) (bad : BadLine) → I.left input.old ≡ Some bytes
        → questions bytes ≡ Err bad
        → IsErrAnd result (λ stop. IsOneOf (stop_status stop) (3 ∷ 4 ∷ 5 ∷ [])) }
    ensures whole { (bytes : List ℕ) (asked : List Question) → I.left input.old ≡ Some bytes
        → questions bytes ≡ Ok asked
        → IfErr result (λ stop. IsOneOf (stop_status stop) (4 ∷ 5 ∷ [])) }
    ensures failed { result ≡ Err (Stop.Fault Fault.Source)
        → Rose (I.fault_count input.old) (I.fault_count input.new) }
    ensures others { IfErr result (λ stop. IsOneOf (stop_status stop) (3 ∷ 4 ∷ 5 ∷ [])) }
{
    let bytes = match read_input(alloc, input) {
        Ok(bytes) => bytes,
        Err(stop) => return Err(stop),
    };
    match read_queries(alloc, bytes.as_slice()) {
        Ok(read) => Ok(read.lines),
        Err(ScriptFault::Bad(bad)) => Err(Stop::Fault(Fault::BadLine(bad))),
        Err(ScriptFault::NoMemory) => Err(Stop::NoMemory),
    }
}
