//! Reading questions.
ghost use Rattle.std.specs.Prelude.{◌≡◌, ◌<◌, ◌≤◌, true, false, ℕ, List, length, is_some, ok_or};
ghost use Rattle.std.specs.Prelude.{Result, IfOk, OnOk, Ok, Err};
ghost use Rattle.serde_json.specs.View.{view};
ghost use Rattle.op_script.specs.Lines.{lines_of, is_blank, HasAsked};
ghost use Rattle.op_script.specs.Queries.{query_of};
ghost use Rattle.op_script.specs.Questions.{questions, questions_from, question_at, query_in};
ghost use Rattle.op_script.specs.Questions.{and_then, onto, AreQuestions};
ghost use Rattle.op_script.specs.declared.questions.Question.{Question};
ghost use Rattle.op_script.specs.declared.script.BadLine.{BadLine};
ghost use Rattle.op_script.specs.declared.script.Why.{Why};

use crate::input_lines::{cut_line, is_blank};
use crate::line_fault::LineFault;
use crate::members::read_value;
use crate::queries::query_from;
use crate::query_check::is_query;
use crate::questions::{Question, Questions};
use crate::read::MOST_BYTES;
use crate::script::{BadLine, ScriptFault, Why};
use ix_base::{List, Query};
use serde_json::Value;
use std::alloc::Global;

/// Reads the questions of an input: one query in JSON on each line that isn't passed over. `Bad`
/// comes exactly where the input has a bad line, and names the first one: with `Json` where it
/// isn't a JSON value, else with `Query`. An input of more than 67,108,864 bytes is bad at line 0.
/// Memory is taken only where a line isn't passed over.
pub fn read_queries(alloc: Global, bytes: &[u8]) -> Result<Questions, ScriptFault>
    ensures lines { IfOk result (λ read. questions bytes.now ≡ Ok read.lines) }
    ensures bad { (bad : BadLine) → result ≡ Err (ScriptFault.Bad bad)
        → questions bytes.now ≡ Err bad }
    ensures shape { IfOk result (λ read. AreQuestions read.lines) }
    ensures memory { result ≡ Err ScriptFault.NoMemory → HasAsked bytes.now }
    // An input that is too long is bad whatever else it holds.
    ensures long { (input : List ℕ) → MOST_BYTES < length input
        → questions input ≡ Err (record { line = 0; why = Why.Long }) }
{
    if bytes.len() > MOST_BYTES {
        return Err(ScriptFault::Bad(BadLine {
            line: 0,
            why: Why::Long,
        }));
    }
    let questions = read_questions(alloc, bytes)?;
    Ok(Questions {
        lines: List::from_vec(questions),
    })
}

fn read_questions(alloc: Global, bytes: &[u8]) -> Result<Vec<Question>, ScriptFault>
    requires { length bytes.now ≤ MOST_BYTES }
    ensures ok { IfOk result (λ read. questions_from 1 (lines_of bytes.now) ≡ Ok read.items) }
    ensures bad { (bad : BadLine) → result ≡ Err (ScriptFault.Bad bad)
        → questions_from 1 (lines_of bytes.now) ≡ Err bad }
    ensures memory { result ≡ Err ScriptFault.NoMemory → HasAsked bytes.now }
{
    let mut questions = Vec::new(alloc);
    let mut rest = bytes;
    let mut at = 1;
    while let Some((text, left)) = cut_line(rest) {
        add_question(alloc, at, text, &mut questions)?;
        rest = left;
        at += 1;
    }
    add_question(alloc, at, rest, &mut questions)?;
    Ok(questions)
}

/// Adds the question on the line of this number, unless the line is passed over.
fn add_question(
    alloc: Global,
    at: u32,
    text: &[u8],
    questions: &mut Vec<Question>,
) -> Result<(), ScriptFault>
    ensures ok { OnOk result ((rest : Result (List Question) BadLine)
        → onto questions.old.items (and_then at text.now rest) ≡ onto questions.new.items rest) }
    ensures bad { (bad : BadLine) → result ≡ Err (ScriptFault.Bad bad)
        → (rest : Result (List Question) BadLine) → and_then at text.now rest ≡ Err bad }
    ensures memory { result ≡ Err ScriptFault.NoMemory → is_blank text.now ≡ false }
{
    if is_blank(text) {
        return Ok(());
    }
    questions.push(read_question(alloc, at, text)?)?;
    Ok(())
}

/// The question on the line of this number.
fn read_question(alloc: Global, at: u32, text: &[u8]) -> Result<Question, ScriptFault>
    ensures ok { IfOk result (λ question. question_at at text.now ≡ Ok question) }
    ensures bad { (bad : BadLine) → result ≡ Err (ScriptFault.Bad bad)
        → question_at at text.now ≡ Err bad }
{
    match read_query(alloc, text) {
        Ok(query) => Ok(Question { line: at, query }),
        Err(LineFault::Bad(why)) => Err(ScriptFault::Bad(BadLine { line: at, why })),
        Err(LineFault::NoMemory) => Err(ScriptFault::NoMemory),
    }
}

/// The query that a line is.
fn read_query(alloc: Global, text: &[u8]) -> Result<Query, LineFault>
    ensures ok { IfOk result (λ query. query_in text.now ≡ Ok query) }
    ensures bad { (why : Why) → result ≡ Err (LineFault.Bad why) → query_in text.now ≡ Err why }
{
    match read_value(alloc, text) {
        Ok(Some(value)) => tested_query(alloc, &value),
        Ok(None) => Err(LineFault::Bad(Why::Json)),
        Err(_) => Err(LineFault::NoMemory),
    }
}

/// The query that a value is. It is tested before it is copied.
fn tested_query(alloc: Global, value: &Value) -> Result<Query, LineFault>
    ensures ok { IfOk result (λ query. ok_or (query_of (view value.now)) Why.Query ≡ Ok query) }
    ensures bad { (why : Why) → result ≡ Err (LineFault.Bad why)
        → ok_or (query_of (view value.now)) Why.Query ≡ Err why }
    // Memory runs out only where the value is a query.
    ensures memory { result ≡ Err LineFault.NoMemory → is_some (query_of (view value.now)) ≡ true }
{
    if !is_query(value) {
        return Err(LineFault::Bad(Why::Query));
    }
    let query = query_from(alloc, value)?;
    Ok(query)
}
