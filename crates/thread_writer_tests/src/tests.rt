//! Writers of a small queue, against what was worked out by hand.
ghost use Rattle.std.specs.Prelude.{◌<◌, ◌≤◌, IfOk, OnOk, length};
ghost use Rattle.thread_writer.specs.Writing.{IsWriter};

use delete_queue::{DeleteQueue, Linked, Reserve};
use frozen_packet::{Change, Updates};
use ix_base::{Block, Document, Fields, Operation, Query, Row, Term};
use std::alloc::Global;
use std::fmt::Write;
use std::test::*;
use test_values::{document_of, key_term, name_of};
use thread_writer::{Piece, ThreadWriter, Told};

/// The text of a key: as it is, or so many letters where it is their count behind a `*`.
fn key_in(alloc: Global, key: &str) -> Result<String, Fail> {
    match key.strip_prefix('*') {
        Some(letters) => Ok("a".repeat(alloc, letters.parse::<usize>()?)?),
        None => Ok(String::from_str(alloc, key)?),
    }
}

fn term_in(alloc: Global, key: &str) -> Result<Term, Fail> {
    key_term(alloc, key_in(alloc, key)?.as_str())
}

fn document_in(alloc: Global, key: &str) -> Result<Document, Fail> {
    document_of(alloc, key_in(alloc, key)?.as_str())
}

/// The block of documents of these keys; a key may have a count behind a `#`.
fn block_in(alloc: Global, keys: &str) -> Result<Block, Fail> {
    let mut docs = Vec::new(alloc);
    for key in keys.split(' ') {
        let (key, count) = key.split_once('#').unwrap_or((key, "1"));
        for _ in 0..count.parse::<u32>()? {
            docs.push(document_in(alloc, key)?)?;
        }
    }
    Ok(Block::new(docs).ok_or("no block")?)
}

fn setting_in(alloc: Global, key: &str) -> Result<Operation, Fail> {
    let term = term_in(alloc, key)?;
    let num = name_of(alloc, "n")?;
    let value = 4;
    Ok(Operation::SetNumber { term, num, value })
}

/// The update that deletes the first key, and adds the document of it.
fn update_in(alloc: Global, key: &str) -> Result<Operation, Fail> {
    let term = term_in(alloc, key)?;
    Ok(Operation::Update(term, document_in(alloc, key)?))
}

/// The update that deletes the first key, and adds the documents of the others.
fn update_block_in(alloc: Global, keys: &str) -> Result<Operation, Fail> {
    let (key, docs) = keys.split_once(' ').ok_or("no documents")?;
    let term = term_in(alloc, key)?;
    Ok(Operation::UpdateBlock(term, block_in(alloc, docs)?))
}

fn operation_in(alloc: Global, verb: &str, key: &str) -> Result<Operation, Fail> {
    match verb {
        "add" => Ok(Operation::Add(document_in(alloc, key)?)),
        "add_block" => Ok(Operation::AddBlock(block_in(alloc, key)?)),
        "update" => update_in(alloc, key),
        "update_block" => update_block_in(alloc, key),
        "delete" | "turn" => Ok(Operation::DeleteTerm(term_in(alloc, key)?)),
        "query" => Ok(Operation::DeleteQuery(Query::Term(term_in(alloc, key)?))),
        "set" => setting_in(alloc, key),
        "commit" => Ok(Operation::Commit(Fields::none(alloc))),
        _ => Err("no such operation")?,
    }
}

/// A queue of two seats, and their writers, whose buffers are of this size.
fn two_writers(
    alloc: Global,
    buffer: u32,
) -> Result<(DeleteQueue, ThreadWriter, ThreadWriter), Fail>
    requires { (1 ≤ buffer) × (buffer ≤ 65536) }
    ensures first { IfOk result (λ r. IsWriter r.0 r.1) }
    ensures second { IfOk result (λ r. IsWriter r.0 r.2) }
{
    let (queue, mut seats) = DeleteQueue::make(alloc, 0, 2, &mut Reserve::new(alloc))?;
    let second = ThreadWriter::make(alloc, seats.pop().ok_or("a seat")?, buffer);
    let first = ThreadWriter::make(alloc, seats.pop().ok_or("a seat")?, buffer);
    Ok((queue, first, second))
}

fn show_told(out: &mut String, told: Told) -> Result<(), Fail> {
    match told {
        Told::Numbered(number) => Ok(write!(out, " {number}")?),
        Told::RefusedTerm { size } => Ok(write!(out, " term {size}")?),
        Told::RefusedQuery { size } => Ok(write!(out, " query {size}")?),
        Told::Closed => Ok(out.push_str(" closed")?),
        Told::Full { need, left } => Ok(write!(out, " full {need} {left}")?),
        Told::NoMemory => Ok(out.push_str(" memory")?),
    }
}

fn show_turn(out: &mut String, linked: Linked) -> Result<(), Fail> {
    match linked {
        Linked::At(number) => Ok(write!(out, " turn {number}")?),
        _ => Ok(out.push_str(" no turn")?),
    }
}

fn show_change(out: &mut String, change: &Change) -> Result<(), Fail> {
    match change {
        Change::Set(setting) => Ok(write!(out, " {}{}", setting.num.as_str(), setting.number)?),
        Change::Delete(delete) => Ok(write!(out, " ?{}", delete.number)?),
    }
}

fn show_updates(out: &mut String, updates: &Updates) -> Result<(), Fail> {
    for (key, number) in updates.deletes().as_map() {
        write!(out, " -{}{number}", key.term().bytes.as_str())?;
    }
    for query in updates.queries() {
        write!(out, " ?{}", query.number)?;
    }
    for change in updates.changes() {
        show_change(out, change)?;
    }
    Ok(())
}

/// A row: its key and its birth; a place that is 0 isn't shown.
fn show_row(out: &mut String, row: &Row) -> Result<(), Fail> {
    write!(out, " {}{}", row.doc.key.as_str(), row.birth.number())?;
    if row.birth.place() > 0 {
        write!(out, ".{}", row.birth.place())?;
    }
    Ok(())
}

/// A few rows, or of many their count and the last one.
fn show_rows(out: &mut String, rows: &[Row]) -> Result<(), Fail> {
    if rows.len() > 9 {
        write!(out, " {} rows to", rows.len())?;
        return show_row(out, rows.last().ok_or("a row")?);
    }
    for row in rows {
        show_row(out, row)?;
    }
    Ok(())
}

/// A piece: its worker, its rows with their births, its deletes, those by query and its settings
/// with their numbers, and the cut.
fn show_piece(out: &mut String, piece: &Piece) -> Result<(), Fail> {
    write!(out, " [{}:", piece.worker)?;
    show_rows(out, piece.frozen.rows.as_slice())?;
    out.push(';')?;
    show_updates(out, &piece.updates)?;
    Ok(write!(out, "; {}]", piece.cut)?)
}

/// Shows the piece that a writer gives off, if there is one.
fn take(queue: &DeleteQueue, writer: &mut ThreadWriter, out: &mut String) -> Result<(), Fail>
    requires { IsWriter queue.now writer.old }
    ensures writer { OnOk result (IsWriter queue.now writer.new) }
    ensures room { OnOk result (length writer.new.rows < writer.new.size) }
{
    match writer.take_pieces(queue)? {
        Some(piece) => show_piece(out, &piece),
        None => Ok(()),
    }
}

/// Does an operation, and shows what it is told. Where `turn` finds no room in the seat, a turn follows.
fn do_line(
    alloc: Global,
    queue: &DeleteQueue,
    writer: &mut ThreadWriter,
    verb: &str,
    key: &str,
    out: &mut String,
) -> Result<(), Fail>
    requires writer { IsWriter queue.now writer.old }
    requires room { length writer.old.rows < writer.old.size }
    ensures { OnOk result (IsWriter queue.now writer.new) }
{
    let operation = operation_in(alloc, verb, key)?;
    let told = writer.do_line(queue, &operation);
    show_told(out, told)?;
    match told {
        Told::Full { .. } if verb == "turn" => show_turn(out, writer.turn(queue)),
        _ => Ok(()),
    }
}

/// Does a line by a writer: what it does, and a key. A full buffer is given off after it, and shown; so none
/// is full before.
fn step(
    alloc: Global,
    queue: &DeleteQueue,
    writer: &mut ThreadWriter,
    words: &str,
    out: &mut String,
) -> Result<(), Fail>
    requires { IsWriter queue.now writer.old }
    ensures { OnOk result (IsWriter queue.now writer.new) }
{
    let (verb, key) = words.split_once(' ').unwrap_or((words, ""));
    take(queue, writer, out)?;
    do_line(alloc, queue, writer, verb, key, out)?;
    take(queue, writer, out)
}

/// Does a line by one of two writers: `0` stands before the lines of the first one.
fn step_of(
    alloc: Global,
    queue: &DeleteQueue,
    first: &mut ThreadWriter,
    second: &mut ThreadWriter,
    line: &str,
    out: &mut String,
) -> Result<(), Fail>
    requires first { IsWriter queue.now first.old }
    requires second { IsWriter queue.now second.old }
    ensures first { OnOk result (IsWriter queue.now first.new) }
    ensures second { OnOk result (IsWriter queue.now second.new) }
{
    match line.split_once(' ') {
        Some(("0", words)) => step(alloc, queue, first, words, out),
        Some((_, words)) => step(alloc, queue, second, words, out),
        None => Err("no writer")?,
    }
}

/// Does the lines of two writers.
fn steps(
    alloc: Global,
    queue: &DeleteQueue,
    first: &mut ThreadWriter,
    second: &mut ThreadWriter,
    lines: &str,
    out: &mut String,
) -> Result<(), Fail>
    requires first { IsWriter queue.now first.old }
    requires second { IsWriter queue.now second.old }
{
    for line in lines.split(", ") {
        step_of(alloc, queue, first, second, line, out)?;
    }
    Ok(())
}

/// Shows what two writers of a new queue, with buffers of this size, are told and give off, and how many
/// documents are in the first one's buffer at the end.
fn run(alloc: Global, buffer: u32, lines: &str, out: &mut String) -> Result<(), Fail>
    requires { (1 ≤ buffer) × (buffer ≤ 65536) }
{
    let (queue, mut first, mut second) = two_writers(alloc, buffer)?;
    steps(alloc, &queue, &mut first, &mut second, lines, out)?;
    let rest = first.hand_back().rest.rows();
    Ok(write!(out, " rest {rest}")?)
}

/// The size of the buffers, lines of two writers, and what they are told and give off.
const CASES: &str = "\
# A buffer of two documents is given off when it is full, with the deletes since it was begun.
2: 0 add a, 0 add b, 0 add c, 0 delete a, 0 add d, 0 update c = 1 2 [0: a1 b2;; 2] 3 4 5 [0: c3 d5; -a4; 5] 6 rest 1

# Each of two writers' pieces has what both linked since its buffer was begun.
2: 0 add k, 1 delete k, 0 add m, 1 update m, 0 set k, 0 query k, 1 add x \
    = 1 2 3 [0: k1 m3; -k2; 3] 4 5 6 7 [1: m4 x7; -k2 -m4 ?6 n5; 7] rest 0

# A document that was staged when the queue was closed takes a place, and is in no row.
2: 0 add a, 1 commit, 0 delete b, 0 add b, 0 commit = 1 2 closed closed [0: a1;; 2] closed rest 0

# An operation of each kind at its limit, and one letter beyond.
2: 0 add *32766 = 1 rest 1
2: 0 update *32766 = 1 rest 1
2: 0 delete *32766 = 1 rest 0
2: 0 set *32766 = 1 rest 0
2: 0 query *131060 = 1 rest 0
2: 0 commit = 1 rest 0
2: 0 add *32767 = term 32767 rest 0
2: 0 update *32767 = term 32767 rest 0
2: 0 delete *32767 = term 32767 rest 0
2: 0 set *32767 = term 32767 rest 0
2: 0 query *131061 = query 131073 rest 0

# All documents of a block are in one piece, each with its place, however small the buffer.
1: 0 add_block a b c = 1 [0: a1 b1.1 c1.2;; 1] rest 0

# A block of 64 comes on top of one document less than the buffer's size.
2: 0 add a, 0 add_block n#64, 0 add b = 1 2 [0: 65 rows to n2.63;; 2] 3 rest 1

# An update with a block deletes what came before it.
3: 0 add a, 0 update_block a a b, 1 add c, 0 delete b = 1 2 [0: a1 a2 b2.1; -a2; 2] 3 4 rest 0

# A block that isn't done gets no number. Its documents may take places, and are in no row.
2: 0 add_block a *32767 c, 0 add b = term 32767 1 [0: b1;; 1] rest 0
2: 0 add a, 1 commit, 0 add_block b c = 1 2 closed [0: a1;; 2] rest 0

# Its own term is looked at first, and then its documents in order.
2: 0 update_block *32767 *32768 = term 32767 rest 0
2: 0 update_block a *32768 *32767 = term 32768 rest 0
2: 0 add_block *32766 *32768 *32767 = term 32768 rest 1
";

/// Runs the lines behind the size of the buffers.
fn run_case(alloc: Global, asked: &str, out: &mut String) -> Result<(), Fail> {
    let (buffer, lines) = asked.split_once(": ").ok_or("no size")?;
    let buffer = buffer.parse::<u32>()?;
    if buffer < 1 || 9 < buffer {
        Err("no such size")?;
    }
    run(alloc, buffer, lines, out)
}

#[test]
fn writers_of_a_queue(rt: HostRuntime) -> Result<(), Fail> {
    let mut told = String::new(rt.alloc());
    for case in CASES.lines() {
        if let Some((asked, wanted)) = case.split_once(" =") {
            told.clear();
            run_case(rt.alloc(), asked, &mut told)?;
            assert!(rt; told.as_str() == wanted, "{}", case);
        }
    }
    Ok(())
}

/// What a seat is told that is filled by 4,159 deletes, each of four words with its next word.
fn full_seat(alloc: Global, told: &mut String) -> Result<(), Fail> {
    let mut lines = "0 delete abcde, ".repeat(alloc, 4159)?;
    lines.push_str("0 update abcdef, 0 turn abcdef, 0 add a")?;
    run(alloc, 2, lines.as_str(), told)
}

/// What the deletes are told, and then what a seat without room tells, the turn that ends it, and two
/// documents that are in no row.
fn told_when_full(alloc: Global) -> Result<String, Fail> {
    let mut told = String::new(alloc);
    for number in 1..4160 {
        write!(told, " {number}")?;
    }
    told.push_str(" full 5 4 full 5 4 turn 4159 closed [0:; -abcde4159; 4159] rest 0")?;
    Ok(told)
}

#[test]
fn seat_without_room(rt: HostRuntime) -> Result<(), Fail> {
    let mut told = String::new(rt.alloc());
    full_seat(rt.alloc(), &mut told)?;
    assert!(rt; told.as_str() == told_when_full(rt.alloc())?.as_str());
    Ok(())
}
