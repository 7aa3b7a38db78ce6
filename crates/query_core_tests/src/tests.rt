use analysis::invert;
use ix_base::{Birth, Document, Fields, List, Numbers, PhraseText, Queries, Query, Row};
use query_core::{Inverted, answer};
use segment_core::Segment;
use std::alloc::Global;
use std::fmt::Write;
use std::test::Fail;
use test_values::{field_of, name_of, number_of, term_of, text_of};

fn term(alloc: Global, field: &str, bytes: &str) -> Result<Query, Fail> {
    Ok(Query::Term(term_of(alloc, field, bytes)?))
}

fn phrase(alloc: Global, field: &str, text: &str) -> Result<Query, Fail> {
    let text = PhraseText::new(text_of(alloc, text)?).ok_or("long")?;
    Ok(Query::Phrase(name_of(alloc, field)?, text))
}

fn words(alloc: Global, words: &[&str]) -> Result<Queries, Fail> {
    let mut queries = Vec::new(alloc);
    for word in words {
        queries.push(term(alloc, "body", word)?)?;
    }
    Ok(Queries::from_vec(queries))
}

fn row_of(alloc: Global, key: &str, body: &str, num: Numbers) -> Result<Row, Fail> {
    let text = field_of(alloc, "body", body)?;
    let key = text_of(alloc, key)?;
    let doc = Document::new(key, text, Fields::none(alloc), num);
    let doc = doc.ok_or("names aren't apart")?;
    let birth = Birth::first(1);
    Ok(Row { birth, doc })
}

/// The index of these rows.
fn index_of_rows(alloc: Global, rows: Vec<Row>) -> Result<Segment, Fail> {
    if rows.len() >= 1 << 32 {
        Err("many")?;
    }
    let postings = invert(alloc, rows.as_slice())?;
    Ok(Segment {
        id: 1,
        rows: List::from_vec(rows),
        postings,
    })
}

/// The row of a document with this body, whose key is a number.
fn numbered_row(alloc: Global, number: usize, body: &str) -> Result<Row, Fail> {
    let key = format!(in alloc; "{number}")?;
    row_of(alloc, key.as_str(), body, Numbers::none(alloc))
}

/// The index of documents with these bodies and the keys `0`, `1` and so on.
fn index_of(alloc: Global, bodies: &[&str]) -> Result<Segment, Fail> {
    let mut rows = Vec::new(alloc);
    for body in bodies {
        let row = numbered_row(alloc, rows.len(), body)?;
        rows.push(row)?;
    }
    index_of_rows(alloc, rows)
}

fn shown(alloc: Global, index: &Segment, query: &Query) -> Result<String, Fail> {
    let mut shown = String::new(alloc);
    for row in answer(alloc, query, index)? {
        write!(shown, "{row},")?;
    }
    Ok(shown)
}

/// Whether a query finds these rows.
fn finds(alloc: Global, index: &Segment, query: &Query, want: &str) -> Result<bool, Fail> {
    Ok(shown(alloc, index, query)?.as_str() == want)
}

fn phrase_finds(
    alloc: Global,
    index: &Segment,
    field: &str,
    text: &str,
    want: &str,
) -> Result<bool, Fail> {
    finds(alloc, index, &phrase(alloc, field, text)?, want)
}

fn term_finds(alloc: Global, index: &Segment, bytes: &str, want: &str) -> Result<bool, Fail> {
    finds(alloc, index, &term(alloc, "body", bytes)?, want)
}

/// The words of a phrase stand next to one another, in any case.
#[test]
fn phrases(rt: HostRuntime) -> Result<(), Fail> {
    let index = index_of(rt.alloc(), ["quick brown fox", "Quick FOX"].as_slice())?;
    assert!(rt; index.rows() == 2);
    let cases = [
        ("body", "quick fox", "1,"),
        ("body", "FOX quick", ""),
        ("body", "brown fox", "0,"),
        ("body", "fox", "0,1,"),
        ("key", "quick fox", ""),
        ("key", "1", "1,"),
        ("body", " ", ""),
    ];
    for (field, text, want) in cases {
        assert!(rt; phrase_finds(rt.alloc(), &index, field, text, want)?);
    }
    Ok(())
}

/// Text fields are found by folded words; terms are taken as they are.
#[test]
fn foldings(rt: HostRuntime) -> Result<(), Fail> {
    let index = index_of(rt.alloc(), ["Stra\u{DF}e", "STRASSE"].as_slice())?;
    for (bytes, want) in [("strasse", "0,1,"), ("Strasse", "")] {
        assert!(rt; term_finds(rt.alloc(), &index, bytes, want)?);
    }
    assert!(rt; phrase_finds(rt.alloc(), &index, "body", "stra\u{DF}e", "0,1,")?);
    Ok(())
}

/// Appends what the search for a term finds from this place on. The place is moved.
fn put_found(
    alloc: Global,
    out: &mut String,
    index: &Segment,
    (field, bytes): (&str, &str),
    place: &mut usize,
) -> Result<(), Fail> {
    let term = term_of(alloc, field, bytes)?;
    for row in index.holding_from(alloc, &term, place)? {
        write!(out, "{row},")?;
    }
    Ok(())
}

/// What the searches for these terms find, one after another, of which the first begins at `from`.
fn found_in_turn(
    alloc: Global,
    index: &Segment,
    terms: &[(&str, &str)],
    from: usize,
) -> Result<String, Fail> {
    let mut place = from;
    let mut all = String::new(alloc);
    for term in terms {
        put_found(alloc, &mut all, index, *term, &mut place)?;
        all.push_str(";")?;
    }
    Ok(all)
}

fn colours(alloc: Global) -> Result<Segment, Fail> {
    index_of(alloc, ["red", "red blue", "blue", "green"].as_slice())
}

/// The first of some places such that the searches for these terms, of which the first begins there,
/// find something else than this.
fn first_lost_from(
    alloc: Global,
    index: &Segment,
    terms: &[(&str, &str)],
    want: &str,
) -> Result<Option<usize>, Fail> {
    for from in [0, 1, 3, 6, 7, 8, 1000, usize::MAX] {
        if found_in_turn(alloc, index, terms, from)?.as_str() != want {
            return Ok(Some(from));
        }
    }
    Ok(None)
}

/// A term's rows are found wherever the search begins, one term after another in their order.
#[test]
fn rising_searches_from_any_place(rt: HostRuntime) -> Result<(), Fail> {
    let index = colours(rt.alloc())?;
    let rising = [
        ("body", "azure"),
        ("body", "blue"),
        ("body", "green"),
        ("body", "pink"),
        ("body", "red"),
        ("key", "0"),
        ("key", "3"),
        ("key", "4"),
    ];
    let want = ";1,2,;3,;;0,1,;0,;3,;;";
    assert!(rt; first_lost_from(rt.alloc(), &index, &rising, want)? == None);
    Ok(())
}

/// The same in the opposite order.
#[test]
fn falling_searches_from_any_place(rt: HostRuntime) -> Result<(), Fail> {
    let index = colours(rt.alloc())?;
    let falling = [
        ("key", "4"),
        ("key", "3"),
        ("key", "0"),
        ("body", "red"),
        ("body", "pink"),
        ("body", "green"),
        ("body", "blue"),
        ("body", "azure"),
    ];
    let want = ";3,;0,;0,1,;;3,;1,2,;;";
    assert!(rt; first_lost_from(rt.alloc(), &index, &falling, want)? == None);
    Ok(())
}

/// The word of a row among some thousand.
fn word_at(alloc: Global, at: u32) -> Result<String, Fail> {
    Ok(format!(in alloc; "w{}", at as u64 * 7 % 2000)?)
}

/// The index of that many documents, each with its own word.
fn index_of_words(alloc: Global, count: u32) -> Result<Segment, Fail> {
    let mut rows = Vec::new(alloc);
    for at in 0..count {
        rows.push(row_of_word(alloc, at)?)?;
    }
    index_of_rows(alloc, rows)
}

fn row_of_word(alloc: Global, at: u32) -> Result<Row, Fail> {
    let word = word_at(alloc, at)?;
    numbered_row(alloc, at as usize, word.as_str())
}

/// The first of so many rows that the search for its word, which begins where the one before it
/// ended, doesn't find alone.
fn first_lost(alloc: Global, index: &Segment, count: u32) -> Result<Option<u32>, Fail> {
    let mut place = 0;
    for at in 0..count {
        if !finds_alone(alloc, index, at, &mut place)? {
            return Ok(Some(at));
        }
    }
    Ok(None)
}

/// Whether the search for a row's word, from this place on, finds the row alone.
fn finds_alone(alloc: Global, index: &Segment, at: u32, place: &mut usize) -> Result<bool, Fail> {
    let found = found_word(alloc, index, at, place)?;
    Ok(found.as_str() == format!(in alloc; "{at},")?.as_str())
}

/// What the search for a row's word finds from this place on.
fn found_word(alloc: Global, index: &Segment, at: u32, place: &mut usize) -> Result<String, Fail> {
    let word = word_at(alloc, at)?;
    let mut found = String::new(alloc);
    put_found(alloc, &mut found, index, ("body", word.as_str()), place)?;
    Ok(found)
}

/// Among some thousand terms each is found, from the place where the search for the one before it
/// ended, and from the other end.
#[test]
fn searches_among_many_terms(rt: HostRuntime) -> Result<(), Fail> {
    let index = index_of_words(rt.alloc(), 2000)?;
    assert!(rt; first_lost(rt.alloc(), &index, 2000)? == None);
    Ok(())
}

fn bool_query(
    alloc: Global,
    must: &[&str],
    should: &[&str],
    must_not: &[&str],
) -> Result<Query, Fail> {
    let must = words(alloc, must)?;
    let should = words(alloc, should)?;
    let must_not = words(alloc, must_not)?;
    Ok(Query::Bool {
        must,
        should,
        must_not,
    })
}

/// What words must be there, should be there and must not be there, and which rows are found.
type Case<'a> = (&'a [&'a str], &'a [&'a str], &'a [&'a str], &'a str);

fn bool_finds(alloc: Global, index: &Segment, case: Case<'_>) -> Result<bool, Fail> {
    let (must, should, must_not, want) = case;
    finds(
        alloc,
        index,
        &bool_query(alloc, must, should, must_not)?,
        want,
    )
}

/// `should` counts where `must` is empty, and there alone; without both nothing matches.
#[test]
fn bool_queries(rt: HostRuntime) -> Result<(), Fail> {
    let index = colours(rt.alloc())?;
    let cases: [Case<'static>; 6] = [
        (&[], &["red", "blue"], &[], "0,1,2,"),
        (&["red", "blue"], &[], &[], "1,"),
        (&["red"], &["green"], &[], "0,1,"),
        (&["red"], &[], &["blue"], "0,"),
        (&[], &[], &["white"], ""),
        (&[], &[], &[], ""),
    ];
    for case in cases {
        assert!(rt; bool_finds(rt.alloc(), &index, case)?);
    }
    assert!(rt; finds(rt.alloc(), &index, &Query::All, "0,1,2,3,")?);
    Ok(())
}

/// The index of documents with these texts, each so many times.
fn index_of_repeated(alloc: Global, given: &[(&str, usize)]) -> Result<Segment, Fail> {
    let mut rows = Vec::new(alloc);
    for (text, times) in given {
        let row = repeated_row(alloc, rows.len(), text, *times)?;
        rows.push(row)?;
    }
    index_of_rows(alloc, rows)
}

fn repeated_row(alloc: Global, number: usize, text: &str, times: usize) -> Result<Row, Fail> {
    let body = text.repeat(alloc, times)?;
    numbered_row(alloc, number, body.as_str())
}

/// Whether the phrase of a text, so many times, finds these rows.
fn repeated_finds(
    alloc: Global,
    index: &Segment,
    (text, times): (&str, usize),
    want: &str,
) -> Result<bool, Fail> {
    let text = text.repeat(alloc, times)?;
    phrase_finds(alloc, index, "body", text.as_str(), want)
}

/// Phrases of up to 122 words, of which one or two are different: as many stand one after another in
/// the rows as these have.
#[test]
fn phrases_of_repeated_words(rt: HostRuntime) -> Result<(), Fail> {
    let bodies = [("red blue ", 60), ("red blue ", 50), ("red ", 120)];
    let index = index_of_repeated(rt.alloc(), &bodies)?;
    let cases = [
        (("red blue ", 50), "0,1,"),
        (("red blue ", 51), "0,"),
        (("red blue ", 61), ""),
        (("blue red ", 59), "0,"),
        (("blue red ", 60), ""),
        (("red ", 120), "2,"),
        (("red ", 121), ""),
        (("red red ", 60), "2,"),
    ];
    for (repeated, want) in cases {
        assert!(rt; repeated_finds(rt.alloc(), &index, repeated, want)?);
    }
    Ok(())
}

/// Different words from the one of this number up to that of the last, but for the one of the second
/// number.
fn different_words(alloc: Global, from: u32, but: u32, to: u32) -> Result<String, Fail> {
    let mut words = String::new(alloc);
    for at in from..to {
        if at != but {
            write!(words, "w{at} ")?;
        }
    }
    Ok(words)
}

/// The index of a document that has 100 such words, from 0 on.
fn index_of_different(alloc: Global) -> Result<Segment, Fail> {
    let body = different_words(alloc, 0, 100, 100)?;
    index_of(alloc, [body.as_str()].as_slice())
}

/// Whether the phrase of such words is found there.
fn different_stand(
    alloc: Global,
    index: &Segment,
    (from, but, to): (u32, u32, u32),
) -> Result<bool, Fail> {
    let text = different_words(alloc, from, but, to)?;
    phrase_finds(alloc, index, "body", text.as_str(), "0,")
}

/// A phrase of 70 different words, and the same with a gap.
#[test]
fn phrases_of_many_different_words(rt: HostRuntime) -> Result<(), Fail> {
    let index = index_of_different(rt.alloc())?;
    assert!(rt; different_stand(rt.alloc(), &index, (20, 100, 90))?);
    assert!(rt; !different_stand(rt.alloc(), &index, (20, 60, 90))?);
    Ok(())
}

/// Whether a phrase of two words with so many blanks between them finds these rows.
fn blanks_find(
    alloc: Global,
    index: &Segment,
    (first, blanks, last): (&str, usize, &str),
    want: &str,
) -> Result<bool, Fail> {
    let blanks = " ".repeat(alloc, blanks)?;
    let text = format!(in alloc; "{first}{}{last}", blanks.as_str())?;
    phrase_finds(alloc, index, "body", text.as_str(), want)
}

/// A phrase's text may be long: how long it is doesn't matter.
#[test]
fn phrases_of_long_texts(rt: HostRuntime) -> Result<(), Fail> {
    let index = colours(rt.alloc())?;
    assert!(rt; blanks_find(rt.alloc(), &index, ("red", 150_000, "blue"), "1,")?);
    Ok(())
}

/// The query for a word, so many times.
fn times(alloc: Global, word: &str, count: usize) -> Result<Queries, Fail> {
    let mut queries = Vec::new(alloc);
    for _ in 0..count {
        queries.push(term(alloc, "body", word)?)?;
    }
    Ok(Queries::from_vec(queries))
}

/// Whether these rows are found where `red` must be there so many times, `green` should, and `blue`
/// must not.
fn times_find(
    alloc: Global,
    index: &Segment,
    (must, should, must_not): (usize, usize, usize),
    want: &str,
) -> Result<bool, Fail> {
    let query = Query::Bool {
        must: times(alloc, "red", must)?,
        should: times(alloc, "green", should)?,
        must_not: times(alloc, "blue", must_not)?,
    };
    finds(alloc, index, &query, want)
}

/// Three hundred clauses count as one of them does.
#[test]
fn queries_of_many_clauses(rt: HostRuntime) -> Result<(), Fail> {
    let index = colours(rt.alloc())?;
    let cases = [
        ((300, 0, 0), "0,1,"),
        ((0, 300, 0), "3,"),
        ((300, 0, 300), "0,"),
        ((0, 300, 300), "3,"),
        ((300, 300, 300), "0,"),
    ];
    for (counts, want) in cases {
        assert!(rt; times_find(rt.alloc(), &index, counts, want)?);
    }
    Ok(())
}

/// The words with the numbers below `count`, in turn, as one query that wants one of them.
fn should_of(alloc: Global, count: u64, turns: u64) -> Result<Query, Fail> {
    let mut should = Vec::new(alloc);
    for at in 0..count.saturating_mul(turns) {
        let word = format!(in alloc; "w{}", at.checked_rem(count).unwrap_or(0))?;
        should.push(term(alloc, "body", word.as_str())?)?;
    }
    Ok(Query::Bool {
        must: Queries::from_vec(Vec::new(alloc)),
        should: Queries::from_vec(should),
        must_not: Queries::from_vec(Vec::new(alloc)),
    })
}

/// The rows of 2,000 whose words have numbers below `count`.
fn rows_below(alloc: Global, count: u64) -> Result<String, Fail> {
    let mut rows = String::new(alloc);
    for at in 0..2000u64 {
        if at * 7 % 2000 < count {
            write!(rows, "{at},")?;
        }
    }
    Ok(rows)
}

fn should_finds(alloc: Global, index: &Segment, count: u64, turns: u64) -> Result<bool, Fail> {
    let want = rows_below(alloc, count)?;
    finds(
        alloc,
        index,
        &should_of(alloc, count, turns)?,
        want.as_str(),
    )
}

/// Few and many rows are found by one of many clauses, some more than once, and all rows.
#[test]
fn should_of_many_words(rt: HostRuntime) -> Result<(), Fail> {
    let index = index_of_words(rt.alloc(), 2000)?;
    for (count, turns) in [(3, 1), (3, 30), (1500, 1), (1500, 4), (2000, 3)] {
        assert!(rt; should_finds(rt.alloc(), &index, count, turns)?);
    }
    Ok(())
}

/// The index of documents with these values as their `price`, and one with a number of another name.
fn index_of_prices(alloc: Global, prices: &[i64]) -> Result<Segment, Fail> {
    let mut rows = Vec::new(alloc);
    for price in prices {
        rows.push(row_of(alloc, "a", "red", number_of(alloc, "price", *price)?)?)?;
    }
    rows.push(row_of(alloc, "a", "red", number_of(alloc, "rank", 5)?)?)?;
    index_of_rows(alloc, rows)
}

fn range_finds(
    alloc: Global,
    index: &Segment,
    (low, high): (i64, i64),
    want: &str,
) -> Result<bool, Fail> {
    let query = Query::Range(name_of(alloc, "price")?, low, high);
    finds(alloc, index, &query, want)
}

/// Both bounds are in a range; nothing is in one whose lower bound is above the upper one.
#[test]
fn ranges(rt: HostRuntime) -> Result<(), Fail> {
    let index = index_of_prices(rt.alloc(), &[5, -5, 9, i64::MIN, i64::MAX])?;
    let cases = [
        ((5, 9), "0,2,"),
        ((6, 8), ""),
        ((6, 5), ""),
        ((-5, 5), "0,1,"),
        ((i64::MIN, -6), "3,"),
        ((i64::MIN, i64::MAX), "0,1,2,3,4,"),
    ];
    for (bounds, want) in cases {
        assert!(rt; range_finds(rt.alloc(), &index, bounds, want)?);
    }
    Ok(())
}
