//! Searches of segments whose births interleave, and of a commit in a store. A text has a line for each
//! segment and each search, and behind a search what it finds: of each hit its key and its numbers.
ghost use Rattle.std.specs.Prelude.{◌≡◌, length, IfOk};

use analysis::invert;
use commit_point::OpenFault;
use ix_base::{Birth, Document, Fields, FileName, List, PhraseText, Queries, Query, Row};
use ix_memory::MemoryStore;
use ix_outside::Store;
use live_docs::LiveDocs;
use searcher::Searcher;
use segment_core::{LiveSegment, Segment};
use std::alloc::Global;
use std::fmt::Write;
use std::test::*;
use test_values::{field_of, name_of, number_of, term_of, text_of};

/// A row with a key, a text `body` and a number `pages`.
fn row_of(alloc: Global, birth: Birth, key: &str, pages: i64, body: &str) -> Result<Row, Fail> {
    let text = field_of(alloc, "body", body)?;
    let num = number_of(alloc, "pages", pages)?;
    let doc = Document::new(text_of(alloc, key)?, text, Fields::none(alloc), num);
    let doc = doc.ok_or("names aren't apart")?;
    Ok(Row { birth, doc })
}

/// A birth: the number of an operation, and behind a point the place among its documents where it isn't 0.
fn birth_of(text: &str) -> Result<Birth, Fail> {
    let (number, place) = text.split_once('.').unwrap_or((text, "0"));
    let (number, place) = (number.parse::<u64>()?, place.parse::<u32>()?);
    if place < 64 {
        Ok(Birth::new(number, place))
    } else {
        Err("no place")?
    }
}

/// A row as `4 d -40 red blue`, or `4.1 e 50 red blue` of the second document of a block.
fn row_in(alloc: Global, words: &str) -> Result<Row, Fail> {
    let (birth, words) = words.split_once(' ').ok_or("no key")?;
    let (key, words) = words.split_once(' ').ok_or("no number")?;
    let (pages, body) = words.split_once(' ').ok_or("no text")?;
    row_of(alloc, birth_of(birth)?, key, pages.parse::<i64>()?, body)
}

fn rows_in(alloc: Global, text: &str) -> Result<Vec<Row>, Fail> {
    let mut rows = Vec::new(alloc);
    for words in text.split(", ") {
        rows.push(row_in(alloc, words)?)?;
    }
    Ok(rows)
}

/// The live docs of two rows, the first dead, the second with numbers, as `pages 41`.
fn second_lives(alloc: Global, numbers: &str) -> Result<LiveDocs, Fail>
    ensures { IfOk result (λ live. length live.marks ≡ 2) }
{
    let mut live = LiveDocs::new(alloc, 2, 4)?;
    live.kill(0);
    for number in numbers.split(", ") {
        let (name, value) = number.split_once(' ').ok_or("no value")?;
        live.set_value(alloc, 1, &name_of(alloc, name)?, value.parse::<i64>()?)?;
    }
    Ok(live)
}

/// A segment of these rows, which are all live.
fn segment_of(alloc: Global, id: u64, rows: Vec<Row>) -> Result<LiveSegment, Fail> {
    if rows.len() < 1 << 32 {
        let postings = invert(alloc, rows.as_slice())?;
        let live = LiveDocs::new(alloc, rows.len() as u32, 4)?;
        let segment = Segment {
            id,
            rows: List::from_vec(rows),
            postings,
        };
        Ok(LiveSegment::new(segment, live))
    } else {
        Err("many")?
    }
}

/// A segment of rows: all of them are live; or, where numbers stand before the rows, the first is dead, and
/// they are set in the second.
fn segment_in(alloc: Global, id: u64, words: &str) -> Result<LiveSegment, Fail> {
    let (numbers, rows) = words.split_once(": ").unwrap_or(("", words));
    let mut segment = segment_of(alloc, id, rows_in(alloc, rows)?)?;
    if !numbers.is_empty() && segment.segment().rows.len() == 2 {
        segment.set_live(second_lives(alloc, numbers)?);
    }
    Ok(segment)
}

fn add_segment(alloc: Global, searcher: &mut Searcher, words: &str) -> Result<(), Fail> {
    let id = searcher.segments.len() as u64;
    let segment = segment_in(alloc, id.wrapping_add(1), words)?;
    Ok(searcher.segments.push(segment)?)
}

/// A list of the query for one word.
fn one_word(alloc: Global, word: &str) -> Result<Queries, Fail> {
    let query = Query::Term(term_of(alloc, "body", word)?);
    Ok(Queries::from_vec(vec![in alloc; query]?))
}

/// The query for the one word, but not the other.
fn word_but_not(alloc: Global, word: &str, other: &str) -> Result<Query, Fail> {
    let must = one_word(alloc, word)?;
    let must_not = one_word(alloc, other)?;
    Ok(Query::Bool {
        must,
        should: Queries::from_vec(Vec::new(alloc)),
        must_not,
    })
}

fn phrase(alloc: Global, field: &str, text: &str) -> Result<Query, Fail> {
    let text = PhraseText::new(text_of(alloc, text)?).ok_or("long")?;
    Ok(Query::Phrase(name_of(alloc, field)?, text))
}

fn range(alloc: Global, name: &str, bounds: &str) -> Result<Query, Fail> {
    let (low, high) = bounds.split_once(' ').ok_or("no bounds")?;
    let (low, high) = (low.parse::<i64>()?, high.parse::<i64>()?);
    Ok(Query::Range(name_of(alloc, name)?, low, high))
}

/// The query of these words: a term or a phrase in a field, a word without another one, or a range of a
/// number.
fn query_of(alloc: Global, verb: &str, words: &str) -> Result<Query, Fail> {
    let (first, rest) = words.split_once(' ').unwrap_or((words, ""));
    match verb {
        "all" => Ok(Query::All),
        "term" => Ok(Query::Term(term_of(alloc, first, rest)?)),
        "phrase" => phrase(alloc, first, rest),
        "word" => word_but_not(alloc, first, rest),
        "range" => range(alloc, first, rest),
        _ => Err("no such query")?,
    }
}

/// What a query finds.
fn show_hits(
    alloc: Global,
    searcher: &Searcher,
    query: &Query,
    out: &mut String,
) -> Result<(), Fail> {
    let hits = searcher.hits(alloc, query)?;
    out.push('=')?;
    for hit in &hits {
        write!(out, " {}", hit.key.as_str())?;
        for number in hit.num.as_slice() {
            write!(out, " {} {}", number.0.as_str(), number.1)?;
        }
        out.push(';')?;
    }
    Ok(out.push('\n')?)
}

/// Does a line: it begins anew, adds a segment, or searches.
fn do_line(
    alloc: Global,
    searcher: &mut Searcher,
    line: &str,
    out: &mut String,
) -> Result<(), Fail> {
    let (verb, words) = line.split_once(' ').unwrap_or((line, ""));
    match verb {
        "none" => *searcher = Searcher::none(alloc),
        "segment" => add_segment(alloc, searcher, words)?,
        _ => show_hits(alloc, searcher, &query_of(alloc, verb, words)?, out)?,
    }
    Ok(())
}

/// The lines of a text but those that begin with `=`, and behind each search what this searcher finds.
fn told(alloc: Global, searcher: Searcher, text: &str) -> Result<String, Fail> {
    let mut searcher = searcher;
    let mut out = String::new(alloc);
    for line in text.lines() {
        if !line.starts_with('=') {
            write!(out, "{line}\n")?;
            do_line(alloc, &mut searcher, line, &mut out)?;
        }
    }
    Ok(out)
}

/// No segment, and no hit. Then segments with the births 1 and 4, and 2 and 3: hits come by birth, and ranges
/// find rows by their own numbers where none was set. Then the first of them alone, whose first row is dead:
/// the numbers that were set in the second are shown, and a range finds it by those that were set last.
const SEARCHES: &str = "\
none
all
=
segment 1 a 10 red fox, 4 d -40 red blue
segment 2 b 20 blue fox, 3 c 30 fox red
all
= a pages 10; b pages 20; c pages 30; d pages -40;
term body red
= a pages 10; c pages 30; d pages -40;
term key d
= d pages -40;
term body white
=
phrase body Fox red
= c pages 30;
word fox blue
= a pages 10; c pages 30;
range pages 20 30
= b pages 20; c pages 30;
range pages -40 -40
= d pages -40;
range pages 30 20
=
range copies -100 100
=
none
segment pages 41, copies 2: 1 a 10 red fox, 4 d -40 red blue
all
= d copies 2 pages 41;
term body fox
=
range pages -40 -40
=
range pages 41 41
= d copies 2 pages 41;
range copies 2 2
= d copies 2 pages 41;
";

/// Whether a text is told by a searcher that has no segment yet.
fn is_told(alloc: Global, text: &str) -> Result<bool, Fail> {
    Ok(told(alloc, Searcher::none(alloc), text)?.as_str() == text)
}

#[test]
fn hits_of_queries(rt: HostRuntime) -> Result<(), Fail> {
    assert!(rt; is_told(rt.alloc(), SEARCHES)?);
    Ok(())
}

/// The documents of the blocks 1 and 2 in two segments, whose births interleave: a block's hits come by place,
/// as a number, and behind those of the operations before.
const BLOCKS: &str = "\
segment 1.63 b 2 word, 2.1 d 4 word, 2.10 f 6 word
segment 1 a 1 word, 2 c 3 word, 2.9 e 5 word, 3 g 7 word
term body word
= a pages 1; b pages 2; c pages 3; d pages 4; e pages 5; f pages 6; g pages 7;
range pages 4 6
= d pages 4; e pages 5; f pages 6;
";

#[test]
fn hits_of_blocks(rt: HostRuntime) -> Result<(), Fail> {
    assert!(rt; is_told(rt.alloc(), BLOCKS)?);
    Ok(())
}

/// The even or the odd ones of the numbers 10 to 59, with their names.
fn put_every_other(out: &mut String, letter: &str, from: u32) -> Result<(), Fail> {
    for at in 0..25u32 {
        let number = from.wrapping_add(2 * at);
        write!(out, " {letter}{number} {number}")?;
    }
    Ok(())
}

/// A second row with these 50 numbers: the names of half of them stand before `pages`, the others behind it.
fn with_many_numbers(alloc: Global) -> Result<String, Fail> {
    let mut text = String::from_str(alloc, "segment")?;
    for number in 10..60u32 {
        let letter = if number % 2 == 0 { "a" } else { "z" };
        let end = if number == 59 { ':' } else { ',' };
        write!(text, " {letter}{number} {number}{end}")?;
    }
    text.push_str(" 1 a 10 red fox, 4 d -40 red blue\nall\n= d")?;
    put_every_other(&mut text, "a", 10)?;
    text.push_str(" pages -40")?;
    put_every_other(&mut text, "z", 11)?;
    text.push_str(";\n")?;
    Ok(text)
}

/// Fifty numbers that were set in a row stand by name among its own.
#[test]
fn many_set_numbers_are_shown(rt: HostRuntime) -> Result<(), Fail> {
    let text = with_many_numbers(rt.alloc())?;
    assert!(rt; is_told(rt.alloc(), text.as_str())?);
    Ok(())
}

/// The search for the word of all rows, and what it finds: those with the births from 1 to this one, whose
/// numbers are their births.
fn put_hits_up_to(out: &mut String, last: u32) -> Result<(), Fail> {
    out.push_str("\nterm body word\n=")?;
    for birth in 1..=last {
        write!(out, " k pages {birth};")?;
    }
    Ok(out.push('\n')?)
}

/// A segment of 1,500 rows with every other birth from this one on.
fn put_rows(out: &mut String, from: u32) -> Result<(), Fail> {
    write!(out, "segment {from} k {from} word")?;
    for at in 1..1500u32 {
        let birth = from.wrapping_add(2 * at);
        write!(out, ", {birth} k {birth} word")?;
    }
    Ok(())
}

fn two_of_many_rows(alloc: Global) -> Result<String, Fail> {
    let mut text = String::new(alloc);
    put_rows(&mut text, 2)?;
    text.push('\n')?;
    put_rows(&mut text, 1)?;
    put_hits_up_to(&mut text, 3000)?;
    Ok(text)
}

#[test]
fn three_thousand_hits(rt: HostRuntime) -> Result<(), Fail> {
    let text = two_of_many_rows(rt.alloc())?;
    assert!(rt; is_told(rt.alloc(), text.as_str())?);
    Ok(())
}

/// 300 segments of one row each: the first has the last birth.
fn many_segments(alloc: Global) -> Result<String, Fail> {
    let mut text = String::from_str(alloc, "none")?;
    for at in 0..300u32 {
        let birth = 300 - at;
        write!(text, "\nsegment {birth} k {birth} word")?;
    }
    put_hits_up_to(&mut text, 300)?;
    Ok(text)
}

#[test]
fn hits_of_many_segments(rt: HostRuntime) -> Result<(), Fail> {
    let text = many_segments(rt.alloc())?;
    assert!(rt; is_told(rt.alloc(), text.as_str())?);
    Ok(())
}

/// The files of commit 4: four rows, the next id 3, and the segments 1 and 2 of two rows each, which that
/// commit wrote. Their births are 1 and 4, and 2 and 3. All rows are live, and no number was set.
const FILES: &str = "\
seg_1.row 4958524f57303031 0000000000000001 00000002 \
    0000000000000001 0000000161 00000000 00000000 0000000000000000 \
    0000000000000004 0000000164 00000000 00000000 0000000000000000
seg_1.pst 4958505354303031 0000000000000001 00000002 0000000000000002 \
    000000036b6579 0000000161 00000001 00000000 00000001 00000000 \
    000000036b6579 0000000164 00000001 00000001 00000001 00000000
seg_1_4.liv 49584c4956303031 0000000000000001 0000000000000004 00000002 03
seg_1_4.val 495856414c303031 0000000000000001 0000000000000004 00000002 0000000000000000
seg_2.row 4958524f57303031 0000000000000002 00000002 \
    0000000000000002 0000000162 00000000 00000000 0000000000000000 \
    0000000000000003 0000000163 00000000 00000000 0000000000000000
seg_2.pst 4958505354303031 0000000000000002 00000002 0000000000000002 \
    000000036b6579 0000000162 00000001 00000000 00000001 00000000 \
    000000036b6579 0000000163 00000001 00000001 00000001 00000000
seg_2_4.liv 49584c4956303031 0000000000000002 0000000000000004 00000002 03
seg_2_4.val 495856414c303031 0000000000000002 0000000000000004 00000002 0000000000000000
segments_4 4958434f4d303031 0000000000000004 0000000000000004 0000000000000003 0000000000000002 \
    0000000000000001 00000002 0000000000000004 0000000000000002 00000002 0000000000000004
";

/// The value of a hexadecimal digit.
fn digit_of(digit: u8) -> u8 {
    if digit.is_ascii_digit() {
        digit.wrapping_sub(b'0')
    } else {
        digit.wrapping_sub(b'a').wrapping_add(10)
    }
}

/// The bytes that the fields spell.
fn bytes_of(alloc: Global, fields: &str) -> Result<Vec<u8>, Fail> {
    let mut bytes = Vec::new(alloc);
    let mut high = None;
    for digit in fields.as_bytes() {
        if *digit == b' ' {
            continue;
        }
        let value = digit_of(*digit);
        match high {
            None => high = Some(value),
            Some(first) => {
                bytes.push(u8::wrapping_mul(first, 16).wrapping_add(value))?;
                high = None;
            }
        }
    }
    Ok(bytes)
}

/// Writes a file: its name, and the fields that it has.
fn put(alloc: Global, store: &mut MemoryStore, line: &str) -> Result<(), Fail> {
    let (name, fields) = line.split_once(' ').ok_or("no fields")?;
    let Some(name) = FileName::parse(name) else {
        return Err(Fail::from("no name"));
    };
    Ok(store.write(name, bytes_of(alloc, fields)?.as_slice())?)
}

/// A store of these files.
fn store_of_four(alloc: Global) -> Result<MemoryStore, Fail> {
    let mut store = MemoryStore::new(alloc);
    for line in FILES.lines() {
        put(alloc, &mut store, line)?;
    }
    Ok(store)
}

fn opened(alloc: Global) -> Result<Searcher, Fail> {
    let mut store = store_of_four(alloc)?;
    Ok(Searcher::open(alloc, &mut store, 4)?)
}

fn opened_listed(alloc: Global) -> Result<Searcher, Fail> {
    let mut store = store_of_four(alloc)?;
    Ok(Searcher::open_listed(alloc, &mut store, 4)?)
}

/// A commit that is opened finds its rows, and one that is opened as it is listed does.
#[test]
fn opens_a_commit_and_finds(rt: HostRuntime) -> Result<(), Fail> {
    let all = told(rt.alloc(), opened(rt.alloc())?, "all")?;
    assert!(rt; all.as_str() == "all\n= a; b; c; d;\n");
    let one = told(rt.alloc(), opened_listed(rt.alloc())?, "term key c")?;
    assert!(rt; one.as_str() == "term key c\n= c;\n");
    Ok(())
}

#[test]
fn tells_that_there_is_no_such_commit(rt: HostRuntime) -> Result<(), Fail> {
    let mut store = store_of_four(rt.alloc())?;
    let fault = Searcher::open(rt.alloc(), &mut store, 3).err();
    assert!(rt; fault == Some(OpenFault::NoSuch { number: 3 }));
    Ok(())
}
