//! Scripts of many documents and operations, each with what two runs report: one of the script over an
//! empty store, and then one that adds the document `a1`, makes a commit and searches it for everything.
use std::alloc::Global;
use std::fmt::Write;
use std::test::Fail;

/// A script, the reports of both runs, and the answer to a question for all documents after them.
#[derive(Drop)]
pub struct TwoRuns {
    pub script: String,
    pub first: String,
    pub second: String,
    pub answer: String,
}

/// The lines of a script and of its report, while they are written.
#[derive(Drop)]
struct Writing {
    script: String,
    report: String,
    line: u32,
}

impl Writing {
    fn new(alloc: Global) -> Writing {
        Writing {
            script: String::new(alloc),
            report: String::new(alloc),
            line: 1,
        }
    }

    /// Adds an operation, which gets its line's number.
    fn numbered(&mut self, operation: &str) -> Result<(), Fail> {
        let line = self.line;
        writeln!(self.script, "{{\"c\":0,{operation}}}")?;
        writeln!(self.report, "{{\"line\":{line},\"seq\":{line}}}")?;
        self.line = line.wrapping_add(1);
        Ok(())
    }

    /// Adds a commit, which gets its line's number, of so many documents.
    fn commit(&mut self, docs: u32) -> Result<(), Fail> {
        let line = self.line;
        writeln!(self.script, "{{\"c\":0,\"op\":\"commit\"}}")?;
        writeln!(
            self.report,
            "{{\"docs\":{docs},\"line\":{line},\"seq\":{line}}}"
        )?;
        self.line = line.wrapping_add(1);
        Ok(())
    }

    /// Adds a search of this commit, with these hits.
    fn search(&mut self, query: &str, commit: u32, hits: &str) -> Result<(), Fail> {
        let line = self.line;
        writeln!(
            self.script,
            "{{\"c\":0,\"op\":\"search\",\"query\":{query}}}"
        )?;
        writeln!(
            self.report,
            "{{\"commit\":{commit},\"hits\":[{hits}],\"line\":{line}}}"
        )?;
        self.line = line.wrapping_add(1);
        Ok(())
    }

    /// Both runs, where the commit of this number is the first one's last, and these are the hits of
    /// its documents, of which there are so many.
    fn into_runs(self, alloc: Global, commit: u32, docs: u32, hits: &str) -> Result<TwoRuns, Fail> {
        let Writing {
            script,
            report,
            line: _,
        } = self;
        let second = second_report(alloc, commit, docs, hits)?;
        Ok(TwoRuns {
            script,
            first: report,
            second,
            answer: last_answer(alloc, commit, hits)?,
        })
    }
}

/// Appends what a search for everything shows in the second run, at this line, where the commit of this
/// number is the first run's last, and these are the hits of its documents.
fn put_all(out: &mut String, commit: u32, hits: &str, line: u32) -> Result<(), Fail> {
    let last = commit.wrapping_add(2);
    writeln!(
        out,
        "{{\"commit\":{last},\"hits\":[{hits},{{\"key\":\"a1\",\"num\":{{}}}}],\"line\":{line}}}"
    )?;
    Ok(())
}

/// The report of the second run.
fn second_report(alloc: Global, commit: u32, docs: u32, hits: &str) -> Result<String, Fail> {
    let (add, last) = (commit.wrapping_add(1), commit.wrapping_add(2));
    let docs = docs.wrapping_add(1);
    let mut report = String::new(alloc);
    writeln!(report, "{{\"line\":1,\"seq\":{add}}}")?;
    writeln!(report, "{{\"docs\":{docs},\"line\":2,\"seq\":{last}}}")?;
    put_all(&mut report, commit, hits, 3)?;
    Ok(report)
}

/// The answer to a question for everything after both runs.
fn last_answer(alloc: Global, commit: u32, hits: &str) -> Result<String, Fail> {
    let mut answer = String::new(alloc);
    put_all(&mut answer, commit, hits, 1)?;
    Ok(answer)
}

/// The hits of 300 documents of a key alone.
fn three_hundred_hits(alloc: Global) -> Result<String, Fail> {
    let mut hits = String::new(alloc);
    for number in 0..300 {
        if number > 0 {
            hits.push_str(",")?;
        }
        write!(hits, "{{\"key\":\"k{number}\",\"num\":{{}}}}")?;
    }
    Ok(hits)
}

/// Adds 300 documents of a key alone, and a commit.
fn add_three_hundred(alloc: Global, writing: &mut Writing) -> Result<(), Fail> {
    for number in 0..300 {
        writing.numbered(&format!(in alloc; "\"op\":\"add\",\"doc\":{{\"key\":\"k{number}\"}}")?)?;
    }
    writing.commit(300)
}

/// 300 documents of a key alone, and a commit.
pub fn three_hundred(alloc: Global) -> Result<TwoRuns, Fail> {
    let hits = three_hundred_hits(alloc)?;
    let mut writing = Writing::new(alloc);
    add_three_hundred(alloc, &mut writing)?;
    writing.into_runs(alloc, 301, 300, &hits)
}

/// So many words from the one of this number on, from 1,000 to 9,999. Each has 69 letters and digits, and
/// a space behind it.
fn words(alloc: Global, first: u32, count: u32) -> Result<String, Fail> {
    let front = "v".repeat(alloc, 65)?;
    let mut words = String::new(alloc);
    for number in 0..count {
        write!(words, "{front}{} ", first.wrapping_add(number))?;
    }
    Ok(words)
}

/// Adds 10,000 documents whose words are `see` and one of 1,000, a document `long` of 4,300 words, which
/// are 301,000 bytes, and a document `numbers` of one number. All but the long one have the tag `x`.
fn add_documents(alloc: Global, writing: &mut Writing) -> Result<(), Fail> {
    for number in 0..10_000u32 {
        let word = number % 1_000;
        writing.numbered(&format!(in alloc;
            "\"op\":\"add\",\"doc\":{{\"key\":\"k{number}\",\"text\":{{\"body\":\"See w{word}\"}},\"exact\":{{\"tag\":\"x\"}}}}"
        )?)?;
    }
    let body = words(alloc, 1_000, 4_300)?;
    writing.numbered(&format!(in alloc;
        "\"op\":\"add\",\"doc\":{{\"key\":\"long\",\"text\":{{\"body\":\"{body}\"}}}}"
    )?)?;
    writing.numbered(
        "\"op\":\"add\",\"doc\":{\"key\":\"numbers\",\"exact\":{\"tag\":\"x\"},\"num\":{\"m\":1}}",
    )
}

/// Deletes by 300 queries, each of which matches ten documents.
fn delete_by_queries(alloc: Global, writing: &mut Writing) -> Result<(), Fail> {
    for word in 0..300u32 {
        let query = match word % 2 {
            0 => format!(in alloc; "{{\"term\":[\"body\",\"w{word}\"]}}")?,
            _ => format!(in alloc; "{{\"phrase\":[\"body\",\"SEE w{word}\"]}}")?,
        };
        writing.numbered(&format!(in alloc; "\"op\":\"delete_query\",\"query\":{query}")?)?;
    }
    Ok(())
}

/// Sets a number in all that have the tag, and forty numbers in the document `numbers`.
fn set_numbers(alloc: Global, writing: &mut Writing) -> Result<(), Fail> {
    writing.numbered("\"op\":\"set\",\"field\":\"tag\",\"term\":\"x\",\"num\":\"s\",\"value\":-5")?;
    for number in 10..50u32 {
        writing.numbered(&format!(in alloc;
            "\"op\":\"set\",\"field\":\"key\",\"term\":\"numbers\",\"num\":\"n{number}\",\"value\":{number}"
        )?)?;
    }
    Ok(())
}

/// The hits of what is left: of each thousand the last 700, the long document without a number, and the
/// one of 42 numbers.
fn hits_left(alloc: Global) -> Result<String, Fail> {
    let mut hits = String::new(alloc);
    for number in 0..10_000u32 {
        if number % 1_000 >= 300 {
            write!(hits, "{{\"key\":\"k{number}\",\"num\":{{\"s\":-5}}}},")?;
        }
    }
    hits.push_str("{\"key\":\"long\",\"num\":{}},{\"key\":\"numbers\",\"num\":{\"m\":1,")?;
    for number in 10..50u32 {
        write!(hits, "\"n{number}\":{number},")?;
    }
    hits.push_str("\"s\":-5}}")?;
    Ok(hits)
}

/// 10,002 documents and a commit; 300 deletes by a query, a number set in all documents but one, forty
/// set in one, and a second commit; and searches of it for everything, for a phrase of 2,900 words, which
/// are 203,000 bytes, and for one of 200 words that don't stand one after another.
pub fn ten_thousand(alloc: Global) -> Result<TwoRuns, Fail> {
    let hits = hits_left(alloc)?;
    let mut writing = Writing::new(alloc);
    write_ten_thousand(alloc, &mut writing)?;
    writing.search("\"all\"", 10_345, &hits)?;
    search_long(alloc, &mut writing)?;
    search_apart(alloc, &mut writing)?;
    writing.into_runs(alloc, 10_345, 7_002, &hits)
}

/// The documents and both commits.
fn write_ten_thousand(alloc: Global, writing: &mut Writing) -> Result<(), Fail> {
    add_documents(alloc, writing)?;
    writing.commit(10_002)?;
    delete_by_queries(alloc, writing)?;
    set_numbers(alloc, writing)?;
    writing.commit(7_002)
}

/// The search for a phrase of 2,900 words.
fn search_long(alloc: Global, writing: &mut Writing) -> Result<(), Fail> {
    let phrase = words(alloc, 1_200, 2_900)?;
    search_phrase(
        alloc,
        writing,
        phrase.as_str(),
        "{\"key\":\"long\",\"num\":{}}",
    )
}

/// The search for 200 words that don't stand one after another.
fn search_apart(alloc: Global, writing: &mut Writing) -> Result<(), Fail> {
    let mut phrase = words(alloc, 2_000, 100)?;
    phrase.push_str(words(alloc, 2_101, 100)?.as_str())?;
    search_phrase(alloc, writing, phrase.as_str(), "")
}

/// Searches the second commit for a phrase of these words, with these hits.
fn search_phrase(
    alloc: Global,
    writing: &mut Writing,
    phrase: &str,
    hits: &str,
) -> Result<(), Fail> {
    let query = format!(in alloc; "{{\"phrase\":[\"body\",\"{phrase}\"]}}")?;
    writing.search(&query, 10_345, hits)
}
