//! Rounds of two writers and their commits, against what was worked out by hand.
ghost use Rattle.std.specs.Prelude.{◌≡◌, ◌≤◌, ℕ, IfOk, OnOk};
ghost use Rattle.index_writer_tests.specs.Trials.{IsUnderWay};

use crate::script_lines::{Act, Script};
use crate::stories::{Step, Story, begun, ended, is_right, told};
use crate::working::Answer;
use index_writer::{IndexWriter, RoundEnd, RoundParts};
use ix_base::{Birth, Refusal};
use ix_memory::MemoryStore;
use std::alloc::Global;
use std::fmt::Write;
use std::test::*;
use test_values::show_told;
use thread_writer::Piece;

/// Two writers, deletes across them, and a commit; then a round that isn't closed, and one whose
/// commit has the rows of all three. The buffers hold two documents each.
const THREE_ROUNDS: Story = Story {
    buffer: 2,
    merge: 8,
    steps: &[
        Step::Round(&[
            (0, Act::Add, "a"),
            (1, Act::Add, "b"),
            (1, Act::Delete, "a"),
            (0, Act::Add, "c"),
            (0, Act::Add, "d"),
            (1, Act::Commit, ""),
            (0, Act::Add, "e"),
        ]),
        Step::Commit,
        Step::Round(&[(1, Act::Add, "f"), (0, Act::Delete, "d")]),
        Step::Round(&[(0, Act::Delete, "f"), (1, Act::Commit, "")]),
        Step::Commit,
    ],
    commits: &[6, 10],
    told: "committed 6, 6 pending; 3 rows in 6; ran; committed 10, 10 pending; 2 rows in 10; 10, last commit 10, next id 5 / 4: 1 c4 2 d5 3 b2 / 5: 1 c4 3 b2",
};

#[test]
fn rounds_and_commits(rt: HostRuntime) -> Result<(), Fail> {
    assert!(rt; is_right(&rt, rt.alloc(), &THREE_ROUNDS)?);
    Ok(())
}

/// Shows what a line is told.
fn show_answer(out: &mut String, answer: Answer) -> Result<(), Fail> {
    match answer {
        Answer::Numbered(number) => show_told(out, "", &[number]),
        Answer::Refused(Refusal::Term { size }) => show_told(out, " term", &[size]),
        Answer::Refused(Refusal::Query { size }) => show_told(out, " query", &[size]),
        Answer::Closed => show_told(out, " closed", &[]),
        Answer::NoMemory => show_told(out, " memory", &[]),
    }
}

/// A birth: its number, and behind a point its place where that isn't 0.
fn show_birth(out: &mut String, birth: Birth) -> Result<(), Fail> {
    write!(out, "{}", birth.number())?;
    if birth.place() > 0 {
        write!(out, ".{}", birth.place())?;
    }
    Ok(())
}

/// A piece that a writer gave off: its rows with their births.
fn show_piece(out: &mut String, piece: &Piece) -> Result<(), Fail> {
    write!(out, " [{}:", piece.worker)?;
    for row in piece.frozen.rows.as_slice() {
        write!(out, " {}", row.doc.key.as_str())?;
        show_birth(out, row.birth)?;
    }
    out.push_str("]")?;
    Ok(())
}

/// What a writer gave off.
pub(crate) fn show_pieces(out: &mut String, pieces: &[Piece]) -> Result<(), Fail> {
    out.push_str(";")?;
    for piece in pieces {
        show_piece(out, piece)?;
    }
    Ok(())
}

/// What the lines of a script are told, and what each writer gave off.
pub(crate) fn shown_work(
    alloc: Global,
    parts: &mut RoundParts,
    script: Script,
) -> Result<String, Fail>
    requires { (base : ℕ) × IsUnderWay base parts.old }
{
    let mut out = String::new(alloc);
    for line in script {
        show_answer(&mut out, told(alloc, parts, *line)?)?;
    }
    for pieces in parts.pieces.as_slice() {
        show_pieces(&mut out, pieces.as_slice())?;
    }
    Ok(out)
}

/// A round of a writer without a commit, whose thread writers have buffers of this size.
pub(crate) fn first_round(alloc: Global, writers: u32, buffer: u32) -> Result<RoundParts, Fail>
    requires writers { (1 ≤ writers) × (writers ≤ 16) }
    requires buffer { (1 ≤ buffer) × (buffer ≤ 65536) }
    ensures { IfOk result (λ parts. (base : ℕ) × IsUnderWay base parts) }
{
    let mut writer = IndexWriter::none(alloc, MemoryStore::new(alloc), buffer, 8);
    begun(alloc, &mut writer, writers)
}

/// Numbers, a refused document, full buffers that are given off, and a commit that closes the round,
/// with buffers of this many documents.
fn lines_with(alloc: Global, buffer: u32) -> Result<String, Fail>
    requires { (1 ≤ buffer) × (buffer ≤ 65536) }
{
    use Act::*;
    let long = "k".repeat(alloc, 32_767)?;
    let script = [
        (0, Add, "a"),
        (0, Add, "b"),
        (1, Add, "c"),
        (0, Add, long.as_str()),
        (0, Delete, "a"),
        (1, Add, "d"),
        (1, Add, "e"),
        (1, Commit, ""),
        (0, Add, "f"),
        (1, Delete, "a"),
    ];
    let mut parts = first_round(alloc, 2, buffer)?;
    shown_work(alloc, &mut parts, &script)
}

#[test]
fn lines_of_a_round(rt: HostRuntime) -> Result<(), Fail> {
    let told = lines_with(rt.alloc(), 1)?;
    assert!(rt;
        told.as_str()
            == " 1 2 3 term 32767 4 5 6 7 closed closed; [0: a1] [0: b2]; [1: c3] [1: d5] [1: e6]"
    );
    Ok(())
}

#[test]
fn lines_of_a_round_with_larger_buffers(rt: HostRuntime) -> Result<(), Fail> {
    let told = lines_with(rt.alloc(), 2)?;
    assert!(rt; told.as_str() == " 1 2 3 term 32767 4 5 6 7 closed closed; [0: a1 b2]; [1: c3 d5]");
    Ok(())
}

/// Deletes by the first writer, which are to have the numbers from 1: each of three words with its
/// next word. Returns whether each has its number.
fn fill(alloc: Global, parts: &mut RoundParts, count: u64) -> Result<bool, Fail>
    requires { (base : ℕ) × IsUnderWay base parts.old }
    ensures { OnOk result ((base : ℕ) → IsUnderWay base parts.old → IsUnderWay base parts.new) }
{
    let mut right = true;
    for number in 1..=count {
        let told = told(alloc, parts, (0, Act::Delete, "abcde"))?;
        right = right && told == Answer::Numbered(number);
    }
    Ok(right)
}

/// Fills the first writer's part of the queue by 4,159 deletes. Returns whether each has its number,
/// and both writers are told of the end of the round then.
fn fills_up(alloc: Global, parts: &mut RoundParts) -> Result<bool, Fail>
    requires { (base : ℕ) × IsUnderWay base parts.old }
    ensures { OnOk result ((base : ℕ) → IsUnderWay base parts.old → IsUnderWay base parts.new) }
{
    let filled = fill(alloc, parts, 4159)?;
    let first = told(alloc, parts, (0, Act::Delete, "abcdef"))?;
    let second = told(alloc, parts, (1, Act::Add, "a"))?;
    Ok(filled && first == Answer::Closed && second == Answer::Closed)
}

/// A writer whose part of the queue is full ends the round by a turn, without a number.
#[test]
fn turned(rt: HostRuntime) -> Result<(), Fail> {
    let alloc = rt.alloc();
    let mut writer = IndexWriter::none(alloc, MemoryStore::new(alloc), 2, 8);
    let mut parts = begun(alloc, &mut writer, 2)?;
    assert!(rt; fills_up(alloc, &mut parts)?);
    let end = ended(&rt, &mut writer, parts)?;
    assert!(rt; end == RoundEnd::Turned);
    assert!(rt; (writer.upto(), writer.next_id()) == (4159, 1));
    assert!(rt; writer.pending_commit() == None);
    Ok(())
}
