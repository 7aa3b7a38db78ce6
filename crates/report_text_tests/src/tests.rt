use ix_base::{Damaged, FileName, Hit, Numbers, Operation, Refusal, Text};
use op_script::{Act, BadLine, Why, read_script};
use report_text::{
    Fault, Summary, commit_text, listed_text, refused_text, search_text, summary_text, write_text,
};
use std::alloc::Global;
use std::fmt::Write;
use std::test::*;

const MAILS: &str =
    "{\"c\":0,\"op\":\"add\",\"doc\":{\"key\":\"ann/1\",\"num\":{\"date\":20240301,\"size\":412}}}\n\
     {\"c\":1,\"op\":\"add\",\"doc\":{\"key\":\"bob/1\",\"num\":{\"size\":298,\"date\":20240301}}}\n\
     {\"c\":0,\"op\":\"add\",\"doc\":{\"key\":\"say \\\"\\u00e9\\n\\\"\",\"num\":{\"n\":-7}}}\n";

/// The hits of the documents that a script's lines add.
fn hits_of(alloc: Global, script: &str) -> Result<Vec<Hit>, Fail> {
    let read = read_script(alloc, script.as_bytes()).ok().ok_or("memory")?;
    let mut hits = Vec::new(alloc);
    for line in read.lines.as_slice() {
        if let Act::Do(Operation::Add(doc)) = &line.act {
            hits.push(Hit {
                key: doc.key.clone_in(alloc).ok().ok_or("memory")?,
                num: doc.num.clone_in(alloc).ok().ok_or("memory")?,
            })?;
        }
    }
    Ok(hits)
}

#[test]
fn faults(rt: HostRuntime) {
    let most = u64::MAX;
    let cases = [
        (Fault::Words, 2, "{\"status\":2,\"why\":\"words\"}\n"),
        (Fault::Source, 5, "{\"status\":5,\"why\":\"source\"}\n"),
        (Fault::Store, 7, "{\"status\":7,\"why\":\"store\"}\n"),
        (
            Fault::Damaged(Damaged {
                file: FileName::Commit(4),
                at: 8,
            }),
            8,
            "{\"at\":8,\"file\":\"segments_4\",\"status\":8}\n",
        ),
        (
            Fault::Damaged(Damaged {
                file: FileName::Values(most, most),
                at: most,
            }),
            8,
            "{\"at\":18446744073709551615,\"file\":\"seg_18446744073709551615_18446744073709551615.val\",\"status\":8}\n",
        ),
        (
            Fault::Differs {
                file: FileName::Posts(1),
                at: 56,
                found: 1,
                wanted: 0,
            },
            11,
            "{\"at\":56,\"file\":\"seg_1.pst\",\"found\":1,\"status\":11,\"wanted\":0}\n",
        ),
        (
            Fault::Differs {
                file: FileName::Values(most, most),
                at: most,
                found: most,
                wanted: most,
            },
            11,
            "{\"at\":18446744073709551615,\"file\":\"seg_18446744073709551615_18446744073709551615.val\",\"found\":18446744073709551615,\"status\":11,\"wanted\":18446744073709551615}\n",
        ),
        (Fault::NoSuch(99), 9, "{\"commit\":99,\"status\":9}\n"),
        (Fault::NoSuch(0), 9, "{\"commit\":0,\"status\":9}\n"),
        (
            Fault::Base(2_305_843_009_213_693_953),
            10,
            "{\"base\":2305843009213693953,\"status\":10}\n",
        ),
    ];
    for (fault, status, line) in cases {
        assert!(rt; fault.status() == status);
        assert!(rt; fault.text().as_str() == line);
    }
}

#[test]
fn bad_lines(rt: HostRuntime) {
    let cases = [
        (0, Why::Long, "{\"line\":0,\"status\":3,\"why\":\"long\"}\n"),
        (1, Why::Json, "{\"line\":1,\"status\":3,\"why\":\"json\"}\n"),
        (
            3,
            Why::Caller,
            "{\"line\":3,\"status\":3,\"why\":\"caller\"}\n",
        ),
        (4, Why::Op, "{\"line\":4,\"status\":3,\"why\":\"op\"}\n"),
        (
            5,
            Why::Members,
            "{\"line\":5,\"status\":3,\"why\":\"members\"}\n",
        ),
        (6, Why::Name, "{\"line\":6,\"status\":3,\"why\":\"name\"}\n"),
        (7, Why::Text, "{\"line\":7,\"status\":3,\"why\":\"text\"}\n"),
        (
            8,
            Why::Number,
            "{\"line\":8,\"status\":3,\"why\":\"number\"}\n",
        ),
        (
            9,
            Why::Query,
            "{\"line\":9,\"status\":3,\"why\":\"query\"}\n",
        ),
        (
            u32::MAX,
            Why::Doc,
            "{\"line\":4294967295,\"status\":3,\"why\":\"doc\"}\n",
        ),
    ];
    for (line, why, text) in cases {
        let fault = Fault::BadLine(BadLine { line, why });
        assert!(rt; fault.status() == 3);
        assert!(rt; fault.text().as_str() == text);
    }
}

#[test]
fn numbered_and_refused(rt: HostRuntime) -> Result<(), Fail> {
    let alloc = rt.alloc();
    let write = write_text(alloc, 1, 3).ok().ok_or("memory")?;
    assert!(rt; write.as_slice() == b"{\"line\":1,\"seq\":3}\n".as_slice());
    let commit = commit_text(alloc, 1, 2, 4).ok().ok_or("memory")?;
    assert!(rt; commit.as_slice() == b"{\"docs\":1,\"line\":2,\"seq\":4}\n".as_slice());
    let term = refused_text(alloc, 2, Refusal::Term { size: 32767 })
        .ok()
        .ok_or("memory")?;
    assert!(rt;
        term.as_slice() == b"{\"line\":2,\"refused\":\"term\",\"size\":32767}\n".as_slice()
    );
    let query = refused_text(alloc, 7, Refusal::Query { size: 65536 })
        .ok()
        .ok_or("memory")?;
    assert!(rt;
        query.as_slice() == b"{\"line\":7,\"refused\":\"query\",\"size\":65536}\n".as_slice()
    );
    Ok(())
}

/// The line of a list for the commit of this number that a commit line with this data made.
fn listed(alloc: Global, commit: u64, data: &str, docs: u64) -> Result<Vec<u8>, Fail> {
    let script = format!(in alloc; "{{\"c\":0,\"op\":\"commit\",\"data\":{data}}}\n")?;
    let read = read_script(alloc, script.as_bytes()).ok().ok_or("memory")?;
    let line = read.lines.as_slice().first().ok_or("no line")?;
    match &line.act {
        Act::Do(Operation::Commit(pairs)) => Ok(
            listed_text(alloc, commit, pairs, docs)
                .ok()
                .ok_or("memory")?,
        ),
        _ => Err("no commit")?,
    }
}

#[test]
fn listed_commits(rt: HostRuntime) -> Result<(), Fail> {
    let alloc = rt.alloc();
    let plain = listed(alloc, 2, "{}", 1)?;
    assert!(rt; plain.as_slice() == b"{\"commit\":2,\"docs\":1}\n".as_slice());
    let most = listed(alloc, u64::MAX, "{}", 0)?;
    assert!(rt; most.as_slice() == b"{\"commit\":18446744073709551615,\"docs\":0}\n".as_slice());
    Ok(())
}

#[test]
fn listed_data(rt: HostRuntime) -> Result<(), Fail> {
    let alloc = rt.alloc();
    let one = listed(alloc, 1, "{\"src\":\"x\"}", 0)?;
    assert!(rt;
        one.as_slice() == b"{\"commit\":1,\"data\":{\"src\":\"x\"},\"docs\":0}\n".as_slice()
    );
    let two = listed(alloc, 3, "{\"b\":\"\",\"a\":\"say \\\"\\u00e9\\n\\\"\"}", 2)?;
    let wanted =
        "{\"commit\":3,\"data\":{\"a\":\"say \\\"\u{e9}\\n\\\"\",\"b\":\"\"},\"docs\":2}\n";
    assert!(rt; two.as_slice() == wanted.as_bytes());
    Ok(())
}

#[test]
fn summaries(rt: HostRuntime) -> Result<(), Fail> {
    let alloc = rt.alloc();
    let summary = Summary {
        commits: 1,
        docs: 7,
        lines: 11,
        sum: 12_350,
    };
    let text = summary_text(alloc, summary).ok().ok_or("memory")?;
    assert!(rt;
        text.as_slice() == b"{\"commits\":1,\"docs\":7,\"lines\":11,\"sum\":12350}\n".as_slice()
    );
    Ok(())
}

/// What a run came to whose rows have these numbers `n`, but for one that has none.
fn summary_of(alloc: Global, numbers: &[i64]) -> Result<Summary, Fail> {
    let mut script = String::new(alloc);
    for number in numbers {
        let num = format!(in alloc; "\"m\":9,\"n\":{number},\"o\":9")?;
        write!(
            script,
            "{{\"c\":0,\"op\":\"add\",\"doc\":{{\"key\":\"a\",\"num\":{{{num}}}}}}}\n"
        )?;
    }
    script.push_str("{\"c\":0,\"op\":\"add\",\"doc\":{\"key\":\"n\",\"num\":{\"m\":9}}}")?;
    let hits = hits_of(alloc, script.as_str())?;
    Ok(Summary::of_run(2, 12, hits.as_slice()))
}

/// Numbers, and the sum that is told of them: 0 below 0, and the largest number above that.
const SUMS: [(&[i64], u64); 6] = [
    (&[], 0),
    (&[7, -3], 4),
    (&[-1], 0),
    (&[i64::MAX, i64::MAX, 1], u64::MAX),
    (&[i64::MAX, i64::MAX, 2], u64::MAX),
    (
        &[i64::MAX, i64::MAX, i64::MAX, i64::MIN, i64::MIN],
        9_223_372_036_854_775_805,
    ),
];

#[test]
fn sums_of_runs(rt: HostRuntime) -> Result<(), Fail> {
    for (numbers, wanted) in SUMS {
        assert!(rt; summary_of(rt.alloc(), numbers)?.sum == wanted);
    }
    Ok(())
}

#[test]
fn summaries_of_runs(rt: HostRuntime) -> Result<(), Fail> {
    let seven = [1264, 2189, 3881, 703, 2876, 927, 510];
    let wanted = Summary {
        commits: 2,
        docs: 8,
        lines: 12,
        sum: 12_350,
    };
    assert!(rt; summary_of(rt.alloc(), &seven)? == wanted);
    assert!(rt; Summary::of_run(3, 5, &[]).docs == 0);
    Ok(())
}

#[test]
fn searches(rt: HostRuntime) -> Result<(), Fail> {
    let alloc = rt.alloc();
    let none = search_text(alloc, 0, &[], 4).ok().ok_or("memory")?;
    assert!(rt; none.as_slice() == b"{\"commit\":0,\"hits\":[],\"line\":4}\n".as_slice());
    let mut hits = hits_of(alloc, MAILS)?;
    if hits.len() != 3 {
        panic!(rt; "hits");
    }
    let one = search_text(alloc, 5, &hits.as_slice()[1..2], 8)
        .ok()
        .ok_or("memory")?;
    assert!(rt;
        one.as_slice()
            == "{\"commit\":5,\"hits\":[{\"key\":\"bob/1\",\"num\":{\"date\":20240301,\"size\":298}}],\"line\":8}\n".as_bytes()
    );
    hits.reverse();
    let two = search_text(alloc, 5, hits.as_slice(), 9)
        .ok()
        .ok_or("memory")?;
    assert!(rt;
        two.as_slice()
            == "{\"commit\":5,\"hits\":[{\"key\":\"say \\\"\u{e9}\\n\\\"\",\"num\":{\"n\":-7}},{\"key\":\"bob/1\",\"num\":{\"date\":20240301,\"size\":298}},{\"key\":\"ann/1\",\"num\":{\"date\":20240301,\"size\":412}}],\"line\":9}\n".as_bytes()
    );
    Ok(())
}

/// So many hits of documents that have the key `a` and nothing else.
fn hits_of_one_key(alloc: Global, count: usize) -> Result<Vec<Hit>, Fail> {
    let mut hits = Vec::new(alloc);
    for _ in 0..count {
        hits.push(Hit {
            key: Text::copy_of(alloc, "a").ok().ok_or("memory")?,
            num: Numbers::none(alloc),
        })?;
    }
    Ok(hits)
}

/// Whether the line of a search tells so many such hits and one more.
fn tells_hits(alloc: Global, count: usize) -> Result<bool, Fail> {
    let hits = hits_of_one_key(alloc, count.saturating_add(1))?;
    let line = search_text(alloc, 1, hits.as_slice(), 2)
        .ok()
        .ok_or("memory")?;
    let most = "{\"key\":\"a\",\"num\":{}},".repeat(alloc, count)?;
    let last = "{\"key\":\"a\",\"num\":{}}";
    let want = format!(in alloc;
        "{{\"commit\":1,\"hits\":[{}{last}],\"line\":2}}\n",
        most.as_str()
    )?;
    Ok(line.as_slice() == want.as_str().as_bytes())
}

/// A line may tell of some thousand hits.
#[test]
fn searches_with_many_hits(rt: HostRuntime) -> Result<(), Fail> {
    assert!(rt; tells_hits(rt.alloc(), 5000)?);
    Ok(())
}
