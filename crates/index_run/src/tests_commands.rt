//! The commands, and the words that they take: texts of calls.
use crate::tests::{ended, run};
use crate::tests_calls::hold;
use ix_memory::MemoryStore;
use plain_fold::plain_sum;
use std::test::*;

/// Questions and lists.
const QUESTIONS: &str =
    r#"# Questions about commits that aren't there, and words and queries that are refused.
$ run --threads 1
< {"c":0,"op":"add","doc":{"key":"a1"}}
< {"c":0,"op":"commit"}
> {"line":1,"seq":1}
> {"docs":1,"line":2,"seq":2}
= 0
$ ask --commit 99
< "all"
> {"commit":99,"status":9}
= 9
$ ask --commit 0
< "all"
> {"commit":0,"status":9}
= 9
$ ask --commit 99
< "all"
< {"term":["key"]}
< nothing
> {"line":2,"status":3,"why":"query"}
= 3
$ ask --commit 2 2
< "all"
> {"status":2,"why":"words"}
= 2

# No question, one that all documents answer, and some that nothing answers.
$ run --threads 1
< {"c":0,"op":"add","doc":{"key":"a1"}}
< {"c":0,"op":"commit"}
> {"line":1,"seq":1}
> {"docs":1,"line":2,"seq":2}
= 0
$ ask
= 0
$ ask
< "all"
> {"commit":2,"hits":[{"key":"a1","num":{}}],"line":1}
= 0
$ ask
< {"bool":{"not":[{"term":["key","zz"]}]}}
<
< {"bool":{}}
<< {"phrase":["body"," "]}
> {"commit":2,"hits":[],"line":1}
> {"commit":2,"hits":[],"line":3}
> {"commit":2,"hits":[],"line":4}
= 0

# Questions about the last commit and about the one before it.
$ run --threads 1
< {"c":0,"op":"add","doc":{"key":"a1"}}
< {"c":0,"op":"commit"}
> {"line":1,"seq":1}
> {"docs":1,"line":2,"seq":2}
= 0
$ run
< {"c":0,"op":"add","doc":{"key":"a2"}}
< {"c":0,"op":"commit"}
> {"line":1,"seq":3}
> {"docs":2,"line":2,"seq":4}
= 0
$ ask
< "all"
> {"commit":4,"hits":[{"key":"a1","num":{}},{"key":"a2","num":{}}],"line":1}
= 0
$ ask --commit 2
< "all"
> {"commit":2,"hits":[{"key":"a1","num":{}}],"line":1}
= 0
$ ask --commit=4
< "all"
> {"commit":4,"hits":[{"key":"a1","num":{}},{"key":"a2","num":{}}],"line":1}
= 0

# A commit is listed from its commit file alone, and asked for only whole: its postings are cut.
$ run --threads 1
< {"c":0,"op":"add","doc":{"key":"a1"}}
< {"c":0,"op":"commit"}
> {"line":1,"seq":1}
> {"docs":1,"line":2,"seq":2}
= 0
write seg_1.pst 4958505354303031 0000000000000001 00000001 0000000000000001 000000036b6579 000000026131 00000001 00000000 000000
$ ask
< "all"
> {"at":49,"file":"seg_1.pst","status":8}
= 8
$ list
> {"commit":2,"docs":1}
= 0

# A store without a commit lists none, and answers nothing.
$ list
= 0
$ ask
> {"commit":0,"status":9}
= 9

# A write of a second run fails. It has listed the store, read the five files of its commit, and written three more.
$ run --threads 1
< {"c":0,"op":"add","doc":{"key":"a1"}}
< {"c":0,"op":"commit"}
> {"line":1,"seq":1}
> {"docs":1,"line":2,"seq":2}
= 0
fail 10
$ run
< {"c":0,"op":"add","doc":{"key":"a2"}}
< {"c":0,"op":"commit"}
> {"status":7,"why":"store"}
= 7
$ list
< no query
> {"commit":2,"docs":1}
= 0
$ run
< {"c":0,"op":"add","doc":{"key":"a2"}}
< {"c":0,"op":"commit"}
> {"line":1,"seq":3}
> {"docs":2,"line":2,"seq":4}
= 0
$ list
> {"commit":2,"docs":1}
> {"commit":4,"docs":2}
= 0
"#;

/// Checks of commits: of sound ones, and of such as have files that were changed.
const CHECKS: &str = r#"# A store without a commit.
$ check
= 0

# One commit, and no input is read; then two.
$ run --threads 1
< {"c":0,"op":"add","doc":{"key":"a1"}}
< {"c":0,"op":"commit"}
> {"line":1,"seq":1}
> {"docs":1,"line":2,"seq":2}
= 0
$ check
< no input is read
> {"commit":2,"docs":1}
= 0
$ run
< {"c":0,"op":"add","doc":{"key":"a2"}}
< {"c":0,"op":"commit"}
> {"line":1,"seq":3}
> {"docs":2,"line":2,"seq":4}
= 0
$ check
> {"commit":2,"docs":1}
> {"commit":4,"docs":2}
= 0

# Postings that are in the grammar, but not those of the document: they have another position.
$ run --threads 1
< {"c":0,"op":"add","doc":{"key":"a1"}}
< {"c":0,"op":"commit"}
> {"line":1,"seq":1}
> {"docs":1,"line":2,"seq":2}
= 0
write seg_1.pst 4958505354303031 0000000000000001 00000001 0000000000000001 000000036b6579 000000026131 00000001 00000000 00000001 00000001
$ check
> {"at":56,"file":"seg_1.pst","found":1,"status":11,"wanted":0}
= 11
$ ask
< "all"
> {"commit":2,"hits":[{"key":"a1","num":{}}],"line":1}
= 0
$ list
> {"commit":2,"docs":1}
= 0

# They have another term.
$ run --threads 1
< {"c":0,"op":"add","doc":{"key":"a1"}}
< {"c":0,"op":"commit"}
> {"line":1,"seq":1}
> {"docs":1,"line":2,"seq":2}
= 0
write seg_1.pst 4958505354303031 0000000000000001 00000001 0000000000000001 000000036b6579 000000026132 00000001 00000000 00000001 00000000
$ check
> {"at":40,"file":"seg_1.pst","found":50,"status":11,"wanted":49}
= 11
$ ask
< "all"
> {"commit":2,"hits":[{"key":"a1","num":{}}],"line":1}
= 0
$ list
> {"commit":2,"docs":1}
= 0

# A next id that leaves no room; then a file that is cut, and a list that fails.
$ run --threads 1
< {"c":0,"op":"add","doc":{"key":"a1"}}
< {"c":0,"op":"commit"}
> {"line":1,"seq":1}
> {"docs":1,"line":2,"seq":2}
= 0
write segments_2 4958434f4d303032 0000000000000002 0000000000000001 2000000000000001 0000000000000001 0000000000000001 00000001 0000000000000002 00000000
$ check
> {"at":24,"file":"segments_2","found":2305843009213693953,"status":11,"wanted":2305843009213693952}
= 11
write seg_1.row 4958524f57
$ check
> {"at":0,"file":"seg_1.row","status":8}
= 8
fail 1
$ check
> {"status":7,"why":"store"}
= 7
"#;

/// Runs with buffers of several sizes, and one with two workers.
const BUFFERS: &str =
    r#"# A caller without a commit of its own searches the one that the run began on.
$ run --threads 2
< {"c":0,"op":"add","doc":{"key":"a1"}}
< {"c":0,"op":"commit"}
< {"c":1,"op":"search","query":"all"}
> {"line":1,"seq":1}
> {"docs":1,"line":2,"seq":2}
> {"commit":0,"hits":[],"line":3}
= 0

# Buffers of one document: each added document is given off by itself, and a later delete meets it.
$ run --threads 1 --buffer 1
< {"c":0,"op":"add","doc":{"key":"a1"}}
< {"c":0,"op":"add","doc":{"key":"a2"}}
< {"c":0,"op":"commit"}
< {"c":0,"op":"delete","field":"key","term":"a1"}
< {"c":0,"op":"commit"}
< {"c":0,"op":"search","query":"all"}
> {"line":1,"seq":1}
> {"line":2,"seq":2}
> {"docs":2,"line":3,"seq":3}
> {"line":4,"seq":4}
> {"docs":1,"line":5,"seq":5}
> {"commit":5,"hits":[{"key":"a2","num":{}}],"line":6}
= 0

# Two segments of one document each are merged in steps of one row: the first commit lists both, since one row is
  left to read then, and the second one the merged segment alone, without the row that was deleted between the steps.
& run --threads 1 --buffer 1 --merge 2
= 0
has segments_3 4958434f4d303032 0000000000000003 0000000000000002 0000000000000003 0000000000000002 0000000000000001 ..
has segments_5 4958434f4d303032 0000000000000005 0000000000000001 0000000000000004 0000000000000001 0000000000000003 ..

# Updates, deletes and settings of three callers in one round: the report is the same whatever a buffer holds.
$ run --threads 1 --buffer 65536
< {"c":0,"op":"add","doc":{"key":"a1","exact":{"tag":"x"}}}
< {"c":1,"op":"set","field":"tag","term":"x","num":"price","value":5}
< {"c":2,"op":"update","field":"key","term":"b1","doc":{"key":"b1","exact":{"tag":"x"}}}
< {"c":0,"op":"set","field":"key","term":"a1","num":"price","value":7}
< {"c":1,"op":"add","doc":{"key":"c1","exact":{"tag":"y"}}}
< {"c":2,"op":"delete","field":"tag","term":"y"}
< {"c":1,"op":"update","field":"key","term":"b1","doc":{"key":"b2","num":{"n":1}}}
< {"c":0,"op":"commit"}
< {"c":0,"op":"search","query":"all"}
> {"line":1,"seq":1}
> {"line":2,"seq":2}
> {"line":3,"seq":3}
> {"line":4,"seq":4}
> {"line":5,"seq":5}
> {"line":6,"seq":6}
> {"line":7,"seq":7}
> {"docs":2,"line":8,"seq":8}
> {"commit":8,"hits":[{"key":"a1","num":{"price":7}},{"key":"b2","num":{"n":1}}],"line":9}
= 0
# Buffers of one document.
& run --buffer 1 --threads 1
= 0
# Buffers of two.
& run --threads=1 --buffer=2
= 0
# As many as there are without a word of them.
& run --threads 1
= 0
"#;

/// Words that are no command: the input and the store are left alone.
const REFUSED: &str = r#"# No word.
$
< {"c":0,"op":"add","doc":{"key":"a1"}}
< {"c":0,"op":"commit"}
> {"status":2,"why":"words"}
= 2
files 0
# No command.
& walk
= 2
files 0
# A word too many.
& run run
= 2
files 0
# Too few threads.
& run --threads 0
= 2
files 0
# Too many.
& run --threads 17
= 2
files 0
# No number.
& run --threads two
= 2
files 0
# Buffers of no document.
& run --buffer 0
= 2
files 0
# Too large ones.
& run --buffer 65537
= 2
files 0
# An option twice.
& run --threads 2 --threads 2
= 2
files 0
"#;

/// Made scripts, with summaries that were worked out by hand.
const MADE: &str =
    r#"# One caller; no input is read. Then the same over a store that has such documents already.
$ make --seed 1 --lines 10 --callers 1
<< no script
> {"commits":1,"docs":7,"lines":11,"sum":12350}
= 0
$ make --seed 1 --lines 10 --callers 1
> {"commits":1,"docs":7,"lines":11,"sum":12350}
= 0

# Two callers.
$ make --seed 1 --lines 10 --callers 2
<< no script
> {"commits":2,"docs":7,"lines":12,"sum":13866}
= 0
$ make --seed 1 --lines 10 --callers 2
> {"commits":2,"docs":7,"lines":12,"sum":13866}
= 0

# One line.
$ make --callers=1 --seed=1 --lines=1
<< no script
> {"commits":1,"docs":0,"lines":2,"sum":0}
= 0
$ make --callers=1 --seed=1 --lines=1
> {"commits":1,"docs":0,"lines":2,"sum":0}
= 0
"#;

/// Each call ends as its text says.
#[test]
fn commands(rt: HostRuntime) -> Result<(), Fail> {
    for text in [QUESTIONS, CHECKS, BUFFERS, REFUSED, MADE] {
        hold(&rt, text)?;
    }
    Ok(())
}

/// A made script of 20,000 lines against a plain list of documents.
#[test]
fn made_and_folded(rt: HostRuntime) -> Result<(), Fail> {
    let alloc = rt.alloc();
    let (docs, sum) = plain_sum(alloc).ok().ok_or("memory")?;
    let summary = format!(in alloc;
        "{{\"commits\":320,\"docs\":{docs},\"lines\":20008,\"sum\":{sum}}}\n"
    )?;
    let words = "make --seed 7 --lines 20000 --callers 8";
    let done = run(&rt, words, b"", MemoryStore::new(alloc))?;
    let _store = ended(&rt, done, 0, summary.as_str());
    Ok(())
}
