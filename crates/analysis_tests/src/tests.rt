use analysis::{analyse, invert, long_term, phrase_terms};
use ix_base::{Birth, Document, Fields, Numbers, PhraseText, Refusal, Refused, Row, Text};
use std::alloc::Global;
use std::test::Fail;
use test_texts::shown_postings;
use test_values::{name_of, text_of};

fn field_of(alloc: Global, name: &str, text: Text) -> Result<Fields, Fail> {
    let name = name_of(alloc, name)?;
    Ok(Fields::from_vec(vec![in alloc; (name, text)]?))
}

fn document_of(alloc: Global, key: &str, text: Fields, exact: Fields) -> Result<Document, Fail> {
    let doc = Document::new(text_of(alloc, key)?, text, exact, Numbers::none(alloc));
    Ok(doc.ok_or("names aren't apart")?)
}

fn words_of(alloc: Global, text: &str) -> Result<String, Fail> {
    let phrase = PhraseText::new(text_of(alloc, text)?).ok_or("long")?;
    let mut joined = String::new(alloc);
    for word in phrase_terms(alloc, &phrase)? {
        joined.push_str(word.as_str())?;
        joined.push_str("|")?;
    }
    Ok(joined)
}

/// Words by UAX #29 and their full case foldings by CaseFolding.txt.
#[test]
fn words_and_their_foldings(rt: HostRuntime) -> Result<(), Fail> {
    let alloc = rt.alloc();
    let cases = [
        ("", ""),
        (" \t,.!? -- ", ""),
        ("can't don\u{2019}t", "can't|don\u{2019}t|"),
        ("3.14 1,000", "3.14|1,000|"),
        ("quick-brown fox.", "quick|brown|fox|"),
        ("snake_case a_1", "snake_case|a_1|"),
        ("\u{6F22}\u{5B57}\u{6E2C}", "\u{6F22}|\u{5B57}|\u{6E2C}|"),
        (
            "\u{30AB}\u{30BF}\u{30AB}\u{30CA}",
            "\u{30AB}\u{30BF}\u{30AB}\u{30CA}|",
        ),
        ("\u{1F600} \u{2026} \u{2603}", ""),
        ("cafe\u{301} noir", "cafe\u{301}|noir|"),
        ("Stra\u{DF}e STRASSE", "strasse|strasse|"),
        ("\u{130}z", "i\u{307}z|"),
        ("\u{FB01}n", "fin|"),
        (
            "\u{39F}\u{394}\u{39F}\u{3A3} \u{3BF}\u{3B4}\u{3BF}\u{3C2}",
            "\u{3BF}\u{3B4}\u{3BF}\u{3C3}|\u{3BF}\u{3B4}\u{3BF}\u{3C3}|",
        ),
    ];
    for (text, want) in cases {
        let words = words_of(alloc, text)?;
        assert!(rt; words.as_str() == want, "words of {text}");
    }
    Ok(())
}

/// A document with two words twice, and an exact field.
fn quotation(alloc: Global) -> Result<Document, Fail> {
    let body = field_of(alloc, "body", text_of(alloc, "To be, or NOT to Be")?)?;
    let tag = field_of(alloc, "tag", text_of(alloc, "To Be")?)?;
    document_of(alloc, "k1", body, tag)
}

/// A document with one word.
fn remark(alloc: Global) -> Result<Document, Fail> {
    let body = field_of(alloc, "body", text_of(alloc, "be")?)?;
    document_of(alloc, "k1", body, Fields::none(alloc))
}

/// Terms by field and bytes, with positions.
#[test]
fn terms_of_a_document(rt: HostRuntime) -> Result<(), Fail> {
    let alloc = rt.alloc();
    let analysed = analyse(alloc, quotation(alloc)?)?;
    let terms = shown_postings(alloc, &analysed.postings)?;
    let want =
        "body:be 0@1,5,;body:not 0@3,;body:or 0@2,;body:to 0@0,4,;key:k1 0@0,;tag:To Be 0@0,;";
    assert!(rt; terms.as_str() == want);
    assert!(rt; analysed.doc.key.as_str() == "k1");
    Ok(())
}

/// Terms by field and bytes, with rows and positions.
#[test]
fn terms_of_two_rows(rt: HostRuntime) -> Result<(), Fail> {
    let alloc = rt.alloc();
    let first = Row {
        birth: Birth::new(1, 0),
        doc: quotation(alloc)?,
    };
    let second = Row {
        birth: Birth::new(1, 1),
        doc: remark(alloc)?,
    };
    let rows = vec![in alloc; first, second]?;
    let terms = shown_postings(alloc, &invert(alloc, rows.as_slice())?)?;
    let want =
        "body:be 0@1,5, 1@0,;body:not 0@3,;body:or 0@2,;body:to 0@0,4,;key:k1 0@0, 1@0,;tag:To Be 0@0,;";
    assert!(rt; terms.as_str() == want);
    Ok(())
}

/// A document with a text and an exact text of so many repeated letters.
fn long_document(
    alloc: Global,
    word: &str,
    times: usize,
    exact: &str,
    exact_times: usize,
) -> Result<Document, Fail> {
    let body = text_of(alloc, word.repeat(alloc, times)?.as_str())?;
    let tag = text_of(alloc, exact.repeat(alloc, exact_times)?.as_str())?;
    let body = field_of(alloc, "body", body)?;
    let tag = field_of(alloc, "tag", tag)?;
    document_of(alloc, "k", body, tag)
}

/// The size for which a document is refused.
fn refused_size(alloc: Global, doc: Document) -> Option<u64> {
    match analyse(alloc, doc) {
        Ok(_) => None,
        Err(Refused::For(Refusal::Term { size })) => Some(size),
        Err(Refused::For(Refusal::Query { .. }) | Refused::NoMemory) => Some(0),
    }
}

/// A term may have 32,766 bytes; the size of the first that has more is told.
#[test]
fn sizes_of_terms(rt: HostRuntime) -> Result<(), Fail> {
    let alloc = rt.alloc();
    let cases = [
        ("a", 32_766, "b", 32_766, None),
        ("a", 32_767, "b", 32_766, Some(32_767)),
        ("a", 32_768, "b", 32_769, Some(32_769)),
        ("\u{390}", 5_461, "b", 1, None),
        ("\u{390}", 5_462, "b", 1, Some(32_772)),
    ];
    for (word, times, exact, exact_times, want) in cases {
        let doc = long_document(alloc, word, times, exact, exact_times)?;
        assert!(rt; long_term(alloc, &doc)? == want);
        assert!(rt; refused_size(alloc, doc) == want);
    }
    Ok(())
}

/// A document whose text has two words, so many times.
fn repeated_document(alloc: Global, times: usize) -> Result<Document, Fail> {
    let body = "ab cd ".repeat(alloc, times)?;
    let body = field_of(alloc, "body", text_of(alloc, body.as_str())?)?;
    document_of(alloc, "k", body, Fields::none(alloc))
}

/// How many terms such a document has, how often the second stands in it, and where it stands last.
fn second_word(alloc: Global, times: usize) -> Result<(usize, usize, Option<u32>), Fail> {
    let analysed = analyse(alloc, repeated_document(alloc, times)?)?;
    let terms = analysed.postings.terms.as_slice();
    let second = terms.get(1).ok_or("one term")?;
    let positions = second.rows.positions(alloc, 0)?;
    let last = positions.as_slice().last().copied();
    Ok((terms.len(), positions.len(), last))
}

/// A text of 300,000 bytes with 100,000 words, by turns `ab` and `cd`; the third term is the key.
#[test]
fn a_long_text(rt: HostRuntime) -> Result<(), Fail> {
    let told = second_word(rt.alloc(), 50_000)?;
    assert!(rt; told == (3, 50_000, Some(99_999)));
    Ok(())
}

/// The words of a phrase whose text has so many blanks.
fn words_apart(alloc: Global, blanks: usize) -> Result<String, Fail> {
    let blanks = " ".repeat(alloc, blanks)?;
    let text = format!(in alloc; "ab{}cd", blanks.as_str())?;
    words_of(alloc, text.as_str())
}

/// A phrase whose text has 200,004 bytes.
#[test]
fn a_long_phrase(rt: HostRuntime) -> Result<(), Fail> {
    let words = words_apart(rt.alloc(), 200_000)?;
    assert!(rt; words.as_str() == "ab|cd|");
    Ok(())
}
