//! What no clause says: that each call which may want memory succeeds where there is enough, and
//! which names of files are read.
use ix_base::codec::{
    BrokenField, byte_at, i64_at, name_at, put_i64, put_name, put_text, put_u32, put_u64, text_at,
    u32_at, u64_at,
};
use ix_base::{
    Analysed, Birth, Block, Document, Fields, FileName, List, Name, Numbers, Operation, PhraseText,
    Postings, Queries, Query, Row, Spots, Term, TermPostings, Text,
};
use std::alloc::Global;
use std::cmp::Ordering;
use std::fmt::Write;
use std::test::Fail;
use test_texts::{show_query, show_term, shown_postings};
use test_values::{block_of, document_of, field_of, name_of, number_of, term_of, text_of};

fn phrase_of(alloc: Global, phrase: &str) -> Result<PhraseText, Fail> {
    Ok(PhraseText::new(text_of(alloc, phrase)?).ok_or("long")?)
}

/// A document with each part filled.
fn letter(alloc: Global) -> Result<Document, Fail> {
    let doc = Document::new(
        text_of(alloc, "a1")?,
        field_of(alloc, "body", "Quick FOX")?,
        field_of(alloc, "tag", "x")?,
        number_of(alloc, "price", -7)?,
    );
    Ok(doc.ok_or("names aren't apart")?)
}

/// The term `key:a1` in row 3 at the positions 0 and 2.
fn key_postings(alloc: Global) -> Result<TermPostings, Fail> {
    let mut rows = Spots::new(alloc);
    rows.push(3, 0)?;
    rows.add(3, 2)?;
    rows.add(3, 2)?;
    Ok(TermPostings {
        term: term_of(alloc, "key", "a1")?,
        rows,
    })
}

/// A list of one query.
fn alone(alloc: Global, query: Query) -> Result<Queries, Fail> {
    Ok(Queries::from_vec(vec![in alloc; query]?))
}

fn phrase_query(alloc: Global) -> Result<Query, Fail> {
    Ok(Query::Phrase(name_of(alloc, "body")?, phrase_of(alloc, "a b")?))
}

/// A query with a list of none, and two of one.
fn inner(alloc: Global) -> Result<Query, Fail> {
    let must_not = alone(alloc, phrase_query(alloc)?)?;
    Ok(Query::Bool {
        must: Queries::from_vec(Vec::new(alloc)),
        should: alone(alloc, Query::All)?,
        must_not,
    })
}

fn two_of_all(alloc: Global) -> Result<Queries, Fail> {
    let inner = inner(alloc)?;
    Ok(Queries::from_vec(vec![in alloc; Query::Term(term_of(alloc, "key", "a1")?), inner]?))
}

/// A query in a query.
fn nested(alloc: Global) -> Result<Query, Fail> {
    let must = two_of_all(alloc)?;
    Ok(Query::Bool {
        must,
        should: alone(alloc, Query::All)?,
        must_not: Queries::from_vec(Vec::new(alloc)),
    })
}

fn show_fields(out: &mut String, fields: &Fields) -> Result<(), Fail> {
    for (name, text) in fields.as_slice() {
        let name = name.as_str();
        let text = text.as_str();
        write!(out, " {name}={text}")?;
    }
    Ok(())
}

fn show_numbers(out: &mut String, numbers: &Numbers) -> Result<(), Fail> {
    for (name, value) in numbers.as_slice() {
        let name = name.as_str();
        write!(out, " {name}={value}")?;
    }
    Ok(())
}

fn show_document(out: &mut String, doc: &Document) -> Result<(), Fail> {
    out.push_str(doc.key.as_str())?;
    out.push_str(" text")?;
    show_fields(out, &doc.text)?;
    out.push_str(" exact")?;
    show_fields(out, &doc.exact)?;
    out.push_str(" num")?;
    show_numbers(out, &doc.num)
}

fn show_block(out: &mut String, docs: &Block) -> Result<(), Fail> {
    for doc in docs.as_slice() {
        out.push_str("+")?;
        show_document(out, doc)?;
    }
    Ok(())
}

fn show_operation(out: &mut String, operation: &Operation) -> Result<(), Fail> {
    match operation {
        Operation::Add(doc) => show_document(out, doc),
        Operation::AddBlock(docs) => show_block(out, docs),
        Operation::Update(term, doc) => {
            show_term(out, term)?;
            out.push_str(" by ")?;
            show_document(out, doc)
        }
        Operation::UpdateBlock(term, docs) => {
            show_term(out, term)?;
            out.push_str(" by ")?;
            show_block(out, docs)
        }
        Operation::DeleteTerm(term) => show_term(out, term),
        Operation::DeleteQuery(query) => show_query(out, query, 2),
        Operation::SetNumber { term, num, value } => {
            show_term(out, term)?;
            let num = num.as_str();
            write!(out, " {num}={value}")?;
            Ok(())
        }
        Operation::Commit(pairs) => {
            out.push_str("commit")?;
            show_fields(out, pairs)
        }
    }
}

fn copied_name(alloc: Global, name: &str) -> Result<Name, Fail> {
    Ok(name_of(alloc, name)?.clone_in(alloc)?)
}

fn copied_phrase(alloc: Global, phrase: &str) -> Result<PhraseText, Fail> {
    Ok(phrase_of(alloc, phrase)?.clone_in(alloc)?)
}

#[test]
fn copies_of_texts(rt: HostRuntime) -> Result<(), Fail> {
    let text = text_of(rt.alloc(), "Stra\u{DF}e")?.clone_in(rt.alloc())?;
    assert!(rt; text.as_str() == "Stra\u{DF}e");
    Ok(())
}

#[test]
fn copies_of_names(rt: HostRuntime) -> Result<(), Fail> {
    assert!(rt; copied_name(rt.alloc(), "body")?.as_str() == "body");
    assert!(rt; copied_phrase(rt.alloc(), "quick fox")?.as_text().as_str() == "quick fox");
    Ok(())
}

fn letters(alloc: Global, count: usize) -> Result<Text, Fail> {
    let text = "a".repeat(alloc, count)?;
    text_of(alloc, text.as_str())
}

/// Whether so many letters are a name.
fn is_name(alloc: Global, count: usize) -> Result<bool, Fail> {
    Ok(Name::new(letters(alloc, count)?).is_some())
}

#[test]
fn names_have_1_to_255_bytes(rt: HostRuntime) -> Result<(), Fail> {
    for count in [0, 1, 255, 256] {
        assert!(rt;
            is_name(rt.alloc(), count)? == (0 < count && count < 256),
            "{count}"
        );
    }
    Ok(())
}

/// Shows what a copy of the document has.
fn show_copied(alloc: Global, out: &mut String, doc: &Document) -> Result<(), Fail> {
    let copy = doc.clone_in(alloc)?;
    show_document(out, &copy)
}

/// Shows what a copy of a row has: its document and its birth.
fn show_row(alloc: Global, out: &mut String, row: &Row) -> Result<(), Fail> {
    let copy = row.clone_in(alloc)?;
    show_document(out, &copy.doc)?;
    let (number, place) = (copy.birth.number(), copy.birth.place());
    Ok(write!(out, " birth {number}.{place}")?)
}

fn show_letter(alloc: Global, out: &mut String) -> Result<(), Fail> {
    let doc = letter(alloc)?;
    show_copied(alloc, out, &doc)
}

fn show_short_row(alloc: Global, out: &mut String) -> Result<(), Fail> {
    let doc = document_of(alloc, "a2")?;
    let birth = Birth::new(9, 63);
    show_row(alloc, out, &Row { birth, doc })
}

#[test]
fn copies_of_documents(rt: HostRuntime) -> Result<(), Fail> {
    let mut out = String::new(rt.alloc());
    show_letter(rt.alloc(), &mut out)?;
    show_short_row(rt.alloc(), &mut out)?;
    let want = "a1 text body=Quick FOX exact tag=x num price=-7a2 text exact num birth 9.63";
    assert!(rt; out.as_str() == want);
    Ok(())
}

fn update(alloc: Global) -> Result<Operation, Fail> {
    let doc = document_of(alloc, "a2")?;
    Ok(Operation::Update(term_of(alloc, "tag", "x")?, doc))
}

fn update_block(alloc: Global) -> Result<Operation, Fail> {
    let docs = block_of(alloc, &["a2"])?;
    Ok(Operation::UpdateBlock(term_of(alloc, "tag", "x")?, docs))
}

fn setting(alloc: Global) -> Result<Operation, Fail> {
    let term = term_of(alloc, "tag", "x")?;
    let num = name_of(alloc, "n")?;
    let value = i64::MIN;
    Ok(Operation::SetNumber { term, num, value })
}

/// An operation of each kind, from 0 to 7.
fn operation_of(alloc: Global, kind: u32) -> Result<Operation, Fail> {
    match kind {
        0 => Ok(Operation::Add(letter(alloc)?)),
        1 => update(alloc),
        2 => Ok(Operation::DeleteTerm(term_of(alloc, "key", "a1")?)),
        3 => Ok(Operation::DeleteQuery(nested(alloc)?)),
        4 => setting(alloc),
        5 => Ok(Operation::AddBlock(block_of(alloc, &["a2", "a1"])?)),
        6 => update_block(alloc),
        _ => Ok(Operation::Commit(field_of(alloc, "body", "Quick FOX")?)),
    }
}

fn copy_of(alloc: Global, kind: u32) -> Result<Operation, Fail> {
    let operation = operation_of(alloc, kind)?;
    Ok(operation.clone_in(alloc)?)
}

/// Shows what a copy of the operation of this kind has.
fn show_copy(alloc: Global, out: &mut String, kind: u32) -> Result<(), Fail> {
    let copy = copy_of(alloc, kind)?;
    show_operation(out, &copy)?;
    Ok(out.push('\n')?)
}

/// What copies of operations have, one of each kind.
const OPERATIONS: &str = "\
a1 text body=Quick FOX exact tag=x num price=-7
tag:x by a2 text exact num
key:a1
+(key:a1)(+|(all)-(body~a b))|(all)-
tag:x n=-9223372036854775808
+a2 text exact num+a1 text exact num
tag:x by +a2 text exact num
commit body=Quick FOX
";

#[test]
fn copies_of_operations(rt: HostRuntime) -> Result<(), Fail> {
    let mut out = String::new(rt.alloc());
    for kind in 0..8 {
        show_copy(rt.alloc(), &mut out, kind)?;
    }
    assert!(rt; out.as_str() == OPERATIONS, "{}", out.as_str());
    Ok(())
}

/// Births by their number, and then by their place.
#[test]
fn births_in_order(rt: HostRuntime) {
    let cases = [
        (Birth::first(3), Birth::new(3, 0), Ordering::Equal),
        (Birth::new(3, 0), Birth::new(3, 1), Ordering::Less),
        (Birth::new(3, 63), Birth::new(4, 0), Ordering::Less),
        (Birth::new(4, 0), Birth::new(3, 9), Ordering::Greater),
        (
            Birth::new(u64::MAX, 63),
            Birth::new(u64::MAX, 62),
            Ordering::Greater,
        ),
    ];
    for (left, right, want) in cases {
        assert!(rt; left.cmp(&right) == want);
        assert!(rt; (left == right) == (want == Ordering::Equal));
    }
}

#[test]
fn births_before_an_operation(rt: HostRuntime) {
    let last = Birth::new(3, 63);
    assert!(rt; !last.is_before(2) && !last.is_before(3) && last.is_before(4));
}

/// Whether so many documents are a block of as many.
fn is_block(alloc: Global, count: usize) -> Result<bool, Fail> {
    let mut docs = Vec::new(alloc);
    for _ in 0..count {
        docs.push(document_of(alloc, "a1")?)?;
    }
    Ok(match Block::new(docs) {
        Some(block) => block.as_slice().len() == count,
        None => false,
    })
}

#[test]
fn blocks_have_1_to_64_documents(rt: HostRuntime) -> Result<(), Fail> {
    for (count, want) in [(0, false), (1, true), (64, true), (65, false)] {
        assert!(rt; is_block(rt.alloc(), count)? == want, "{count}");
    }
    Ok(())
}

fn two_queries(alloc: Global) -> Result<Queries, Fail> {
    let nested = nested(alloc)?;
    Ok(Queries::from_vec(vec![in alloc; Query::All, nested]?))
}

fn copied_queries(alloc: Global) -> Result<Queries, Fail> {
    Ok(two_queries(alloc)?.clone_in(alloc)?)
}

fn show_queries(alloc: Global, out: &mut String) -> Result<(), Fail> {
    let queries = copied_queries(alloc)?;
    for query in queries.as_slice() {
        show_query(out, query, 2)?;
        out.push_str(" ")?;
    }
    Ok(())
}

#[test]
fn copies_of_queries(rt: HostRuntime) -> Result<(), Fail> {
    let mut out = String::new(rt.alloc());
    show_queries(rt.alloc(), &mut out)?;
    assert!(rt; out.as_str() == "all +(key:a1)(+|(all)-(body~a b))|(all)- ");
    Ok(())
}

/// Queries of 12,000 keys, which are numbers.
fn many_queries(alloc: Global) -> Result<Queries, Fail> {
    let mut items = Vec::new(alloc);
    for number in 0..12_000u32 {
        let key = format!(in alloc; "{number}")?;
        items.push(Query::Term(term_of(alloc, "key", key.as_str())?))?;
    }
    Ok(Queries::from_vec(items))
}

/// Whether a query is one for the key of this number.
fn is_of_key(alloc: Global, query: &Query, number: usize) -> Result<bool, Fail> {
    let key = format!(in alloc; "{number}")?;
    Ok(match query {
        Query::Term(term) => term.bytes.as_str() == key.as_str(),
        _ => false,
    })
}

/// How many queries of their copy stand in their place.
fn copied(alloc: Global) -> Result<usize, Fail> {
    let copy = many_queries(alloc)?.clone_in(alloc)?;
    let mut same = 0usize;
    for (number, query) in copy.as_slice().iter().enumerate() {
        if is_of_key(alloc, query, number)? {
            same = same.wrapping_add(1);
        }
    }
    Ok(same)
}

#[test]
fn a_copy_of_many_queries(rt: HostRuntime) -> Result<(), Fail> {
    assert!(rt; copied(rt.alloc())? == 12_000);
    Ok(())
}

/// A document beside postings, which needn't be its own here.
fn analysed_letter(alloc: Global) -> Result<Analysed, Fail> {
    let postings = key_postings(alloc)?;
    let terms = List::from_vec(vec![in alloc; postings]?);
    let postings = Postings { terms };
    let doc = letter(alloc)?;
    Ok(Analysed { doc, postings })
}

fn copied_analysed(alloc: Global) -> Result<Analysed, Fail> {
    Ok(analysed_letter(alloc)?.clone_in(alloc)?)
}

fn show_postings(alloc: Global, out: &mut String, postings: &Postings) -> Result<(), Fail> {
    Ok(out.push_str(shown_postings(alloc, postings)?.as_str())?)
}

/// Shows what a copy of postings and a document has.
fn show_analysed(alloc: Global, out: &mut String) -> Result<(), Fail> {
    let copy = copied_analysed(alloc)?;
    show_postings(alloc, out, &copy.postings)?;
    show_document(out, &copy.doc)
}

#[test]
fn copies_of_postings(rt: HostRuntime) -> Result<(), Fail> {
    let mut out = String::new(rt.alloc());
    show_analysed(rt.alloc(), &mut out)?;
    let want = "key:a1 3@0,2,;a1 text body=Quick FOX exact tag=x num price=-7";
    assert!(rt; out.as_str() == want);
    Ok(())
}

#[test]
fn lists_of_numbers(rt: HostRuntime) -> Result<(), Fail> {
    let alloc = rt.alloc();
    let mut list = List::<u32>::new(alloc);
    list.push(7)?;
    list.push(5)?;
    assert!(rt; list.len() == 2);
    assert!(rt; list.as_slice() == [7, 5].as_slice());
    assert!(rt; list.into_vec().as_slice() == [7, 5].as_slice());
    Ok(())
}

/// Each kind of name is shown and read again.
#[test]
fn names_of_files(rt: HostRuntime) {
    let cases = [
        (FileName::Commit(2), "segments_2"),
        (FileName::Pending(10), "pending_segments_10"),
        (FileName::Rows(1), "seg_1.row"),
        (FileName::Posts(1), "seg_1.pst"),
        (FileName::Live(1, 2), "seg_1_2.liv"),
        (
            FileName::Values(u64::MAX, u64::MAX),
            "seg_18446744073709551615_18446744073709551615.val",
        ),
    ];
    for (name, text) in cases {
        assert!(rt; name.text().as_str() == text);
        assert!(rt; FileName::parse(text) == Some(name));
    }
}

#[test]
fn foreign_names(rt: HostRuntime) {
    let cases = [
        "",
        "segments_",
        "segments_0",
        "segments_02",
        "segments_+2",
        "segments_2 ",
        "segments_18446744073709551616",
        "Segments_2",
        "pending_segments_0",
        "pending_segments_2.tmp",
        "seg_1",
        "seg_0.row",
        "seg_1.ROW",
        "seg_1_2.row",
        "seg_1.liv",
        "seg_1_0.liv",
        "seg_01_2.val",
        "seg_1_2_3.val",
    ];
    for text in cases {
        assert!(rt; FileName::parse(text) == None, "{text}");
    }
}

#[test]
fn written_numbers(rt: HostRuntime) -> Result<(), Fail> {
    let mut out = Vec::new(rt.alloc());
    put_u32(&mut out, 258)?;
    put_u64(&mut out, 258)?;
    put_i64(&mut out, -2)?;
    let want = b"\0\0\x01\x02\0\0\0\0\0\0\x01\x02\xff\xff\xff\xff\xff\xff\xff\xfe";
    assert!(rt; out.as_slice() == want.as_slice());
    Ok(())
}

#[test]
fn written_texts(rt: HostRuntime) -> Result<(), Fail> {
    let alloc = rt.alloc();
    let mut out = Vec::new(alloc);
    put_text(&mut out, "a b")?;
    put_name(&mut out, &name_of(alloc, "n")?)?;
    assert!(rt; out.as_slice() == b"\0\0\0\x03a b\0\0\0\x01n".as_slice());
    Ok(())
}

#[test]
fn numbers_that_are_read(rt: HostRuntime) {
    let bytes = b"\xff\xff\xff\xff\xff\xff\xff\xfe!";
    assert!(rt; byte_at(bytes) == Ok((255, &bytes[1..])));
    assert!(rt; u32_at(bytes) == Ok((4294967295, &bytes[4..])));
    assert!(rt; u64_at(bytes) == Ok((18446744073709551614, &bytes[8..])));
    assert!(rt; i64_at(bytes) == Ok((-2, &bytes[8..])));
}

#[test]
fn numbers_cut_short(rt: HostRuntime) {
    let bytes = b"\0\0\0";
    assert!(rt; byte_at(b"") == Err(BrokenField { left: 0 }));
    assert!(rt; u32_at(bytes) == Err(BrokenField { left: 3 }));
    assert!(rt; u64_at(bytes) == Err(BrokenField { left: 3 }));
    assert!(rt; i64_at(bytes) == Err(BrokenField { left: 3 }));
}

/// The last name is empty: a text that is no name.
#[test]
fn texts_that_are_read(rt: HostRuntime) {
    let bytes = b"\0\0\0\x03a b!";
    assert!(rt; text_at(bytes) == Ok(("a b", &bytes[7..])));
    assert!(rt; name_at(bytes) == Ok(("a b", &bytes[7..])));
    assert!(rt; text_at(&bytes[..6]) == Err(BrokenField { left: 6 }));
    assert!(rt; text_at(b"\0\0\0\x01\xff") == Err(BrokenField { left: 5 }));
    assert!(rt; name_at(b"\0\0\0\0!") == Err(BrokenField { left: 5 }));
}

fn range(alloc: Global) -> Result<Query, Fail> {
    Ok(Query::Range(name_of(alloc, "price")?, -2, i64::MAX))
}

fn copied_range(alloc: Global) -> Result<Query, Fail> {
    Ok(range(alloc)?.clone_in(alloc)?)
}

fn show_range(alloc: Global, out: &mut String) -> Result<(), Fail> {
    let copy = copied_range(alloc)?;
    show_query(out, &copy, 0)
}

#[test]
fn copies_of_ranges(rt: HostRuntime) -> Result<(), Fail> {
    let mut out = String::new(rt.alloc());
    show_range(rt.alloc(), &mut out)?;
    assert!(rt; out.as_str() == "price:-2..9223372036854775807");
    Ok(())
}

fn range_has_range(alloc: Global) -> Result<bool, Fail> {
    Ok(copied_range(alloc)?.has_range())
}

fn list_has_range(alloc: Global) -> Result<bool, Fail> {
    Ok(alone(alloc, range(alloc)?)?.any_range())
}

fn nested_has_range(alloc: Global) -> Result<bool, Fail> {
    Ok(nested(alloc)?.has_range())
}

#[test]
fn ranges_that_are_found(rt: HostRuntime) -> Result<(), Fail> {
    assert!(rt; range_has_range(rt.alloc())? && list_has_range(rt.alloc())?);
    assert!(rt; !nested_has_range(rt.alloc())?);
    Ok(())
}
