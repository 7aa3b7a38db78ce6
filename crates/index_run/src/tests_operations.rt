//! Whole runs against reports that were worked out by hand, as texts of calls.
use crate::tests_calls::hold;
use std::test::*;

/// Adds, commits and searches.
const SEARCHES: &str = r#"# An empty script.
$ run --threads 1
= 0

# A line that is cut short.
$ run --threads 1
<< {"c":0
> {"line":1,"status":3,"why":"json"}
= 3

# A document, a commit and a search.
$ run --threads 1
< {"c":0,"op":"add","doc":{"key":"a1"}}
< {"c":0,"op":"commit"}
< {"c":0,"op":"search","query":"all"}
> {"line":1,"seq":1}
> {"docs":1,"line":2,"seq":2}
> {"commit":2,"hits":[{"key":"a1","num":{}}],"line":3}
= 0

# A commit without a document.
$ run --threads 1
< {"c":0,"op":"commit"}
< {"c":0,"op":"search","query":"all"}
> {"docs":0,"line":1,"seq":1}
> {"commit":1,"hits":[],"line":2}
= 0

# A search without a commit.
$ run --threads 1
< {"c":0,"op":"search","query":"all"}
> {"commit":0,"hits":[],"line":1}
= 0

# A caller that there can't be: nothing is done.
$ run --threads 1
< {"c":0,"op":"add","doc":{"key":"a1"}}
< {"c":0,"op":"commit"}
<< {"c":256,"op":"commit"}
> {"line":3,"status":3,"why":"caller"}
= 3

# Lines that end in CR and LF, and an empty one.
$ run --threads 1
<\r {"c":0,"op":"add","doc":{"key":"a1"}}
<
<\r {"c":0,"op":"commit"}
<\r {"c":0,"op":"search","query":"all"}
> {"line":1,"seq":1}
> {"docs":1,"line":3,"seq":2}
> {"commit":2,"hits":[{"key":"a1","num":{}}],"line":4}
= 0

# A phrase: words are compared without regard to case, and stand one after another.
$ run --threads 1
< {"c":0,"op":"add","doc":{"key":"a1","text":{"body":"quick brown fox"}}}
< {"c":0,"op":"add","doc":{"key":"a2","text":{"body":"Quick FOX"}}}
< {"c":0,"op":"commit"}
< {"c":0,"op":"search","query":{"phrase":["body","quick fox"]}}
> {"line":1,"seq":1}
> {"line":2,"seq":2}
> {"docs":2,"line":3,"seq":3}
> {"commit":3,"hits":[{"key":"a2","num":{}}],"line":4}
= 0

# A search sees the last commit of its caller, and shows numbers.
$ run --threads 1
< {"c":0,"op":"add","doc":{"key":"a1","exact":{"tag":"x"},"num":{"n":-7}}}
< {"c":1,"op":"add","doc":{"key":"b1"}}
< {"c":0,"op":"commit"}
< {"c":1,"op":"search","query":"all"}
<< {"c":0,"op":"search","query":{"term":["tag","x"]}}
> {"line":1,"seq":1}
> {"line":2,"seq":2}
> {"docs":2,"line":3,"seq":3}
> {"commit":0,"hits":[],"line":4}
> {"commit":3,"hits":[{"key":"a1","num":{"n":-7}}],"line":5}
= 0

# Words are folded, and a term is searched for as it is.
$ run --threads 1
< {"c":0,"op":"add","doc":{"key":"a1","text":{"body":"Straße"}}}
< {"c":0,"op":"add","doc":{"key":"a2","text":{"body":"STRASSE"}}}
< {"c":0,"op":"commit"}
< {"c":0,"op":"search","query":{"term":["body","strasse"]}}
< {"c":0,"op":"search","query":{"term":["body","Strasse"]}}
< {"c":0,"op":"search","query":{"phrase":["body","straße"]}}
> {"line":1,"seq":1}
> {"line":2,"seq":2}
> {"docs":2,"line":3,"seq":3}
> {"commit":3,"hits":[{"key":"a1","num":{}},{"key":"a2","num":{}}],"line":4}
> {"commit":3,"hits":[],"line":5}
> {"commit":3,"hits":[{"key":"a1","num":{}},{"key":"a2","num":{}}],"line":6}
= 0

# Searches that nothing matches.
$ run --threads 1
< {"c":0,"op":"add","doc":{"key":"a1"}}
< {"c":0,"op":"commit"}
< {"c":0,"op":"search","query":{"bool":{"not":[{"term":["key","zz"]}]}}}
< {"c":0,"op":"search","query":{"bool":{}}}
< {"c":0,"op":"search","query":{"phrase":["body"," "]}}
> {"line":1,"seq":1}
> {"docs":1,"line":2,"seq":2}
> {"commit":2,"hits":[],"line":3}
> {"commit":2,"hits":[],"line":4}
> {"commit":2,"hits":[],"line":5}
= 0
"#;

/// Runs that begin on what an earlier one left, which was changed in between.
const DAMAGED: &str =
    r#"# A second run goes on from the commit of the first. Then the commit of the second is cut.
$ run --threads 1
< {"c":0,"op":"add","doc":{"key":"a1"}}
< {"c":0,"op":"commit"}
> {"line":1,"seq":1}
> {"docs":1,"line":2,"seq":2}
= 0
$ run --threads 1
< {"c":0,"op":"add","doc":{"key":"a2"}}
< {"c":0,"op":"commit"}
< {"c":0,"op":"search","query":"all"}
> {"line":1,"seq":3}
> {"docs":2,"line":2,"seq":4}
> {"commit":4,"hits":[{"key":"a1","num":{}},{"key":"a2","num":{}}],"line":3}
= 0
write segments_4 4958434f4d303031
$ run --threads 1
< {"c":0,"op":"search","query":"all"}
> {"at":8,"file":"segments_4","status":8}
= 8

# No run goes on from a commit whose number is above 2^61, though one below it is whole.
$ run --threads 1
< {"c":0,"op":"add","doc":{"key":"a1"}}
< {"c":0,"op":"commit"}
> {"line":1,"seq":1}
> {"docs":1,"line":2,"seq":2}
= 0
write segments_2305843009213693953
$ run --threads 1
> {"base":2305843009213693953,"status":10}
= 10

# A segment's postings that are gone are damaged at 0, when a run begins on their commit.
$ run --threads 1
< {"c":0,"op":"add","doc":{"key":"a1"}}
< {"c":0,"op":"commit"}
> {"line":1,"seq":1}
> {"docs":1,"line":2,"seq":2}
= 0
delete seg_1.pst
$ run --threads 1
< {"c":0,"op":"add","doc":{"key":"a2"}}
> {"at":0,"file":"seg_1.pst","status":8}
= 8
"#;

/// Deletes, settings and updates.
const OPERATIONS: &str = r#"# A delete takes all that hold its term.
$ run --threads 1
< {"c":0,"op":"add","doc":{"key":"a1"}}
< {"c":0,"op":"add","doc":{"key":"a1"}}
< {"c":0,"op":"delete","field":"key","term":"a1"}
< {"c":0,"op":"commit"}
> {"line":1,"seq":1}
> {"line":2,"seq":2}
> {"line":3,"seq":3}
> {"docs":0,"line":4,"seq":4}
= 0

# A delete before an add takes nothing.
$ run --threads 1
< {"c":0,"op":"delete","field":"key","term":"a1"}
< {"c":0,"op":"add","doc":{"key":"a1"}}
< {"c":0,"op":"commit"}
> {"line":1,"seq":1}
> {"line":2,"seq":2}
> {"docs":1,"line":3,"seq":3}
= 0

# A delete by an exact field, before and after.
$ run --threads 1
< {"c":0,"op":"delete","field":"tag","term":"t"}
< {"c":0,"op":"add","doc":{"key":"d","exact":{"tag":"t"}}}
< {"c":0,"op":"delete","field":"tag","term":"t"}
< {"c":0,"op":"commit"}
> {"line":1,"seq":1}
> {"line":2,"seq":2}
> {"line":3,"seq":3}
> {"docs":0,"line":4,"seq":4}
= 0

# The later set wins.
$ run --threads 1
< {"c":0,"op":"add","doc":{"key":"a1","exact":{"tag":"x"}}}
< {"c":0,"op":"set","field":"tag","term":"x","num":"price","value":5}
< {"c":0,"op":"set","field":"key","term":"a1","num":"price","value":7}
< {"c":0,"op":"commit"}
< {"c":0,"op":"search","query":"all"}
> {"line":1,"seq":1}
> {"line":2,"seq":2}
> {"line":3,"seq":3}
> {"docs":1,"line":4,"seq":4}
> {"commit":4,"hits":[{"key":"a1","num":{"price":7}}],"line":5}
= 0

# The later set wins, exchanged.
$ run --threads 1
< {"c":0,"op":"add","doc":{"key":"a1","exact":{"tag":"x"}}}
< {"c":0,"op":"set","field":"key","term":"a1","num":"price","value":7}
< {"c":0,"op":"set","field":"tag","term":"x","num":"price","value":5}
< {"c":0,"op":"commit"}
< {"c":0,"op":"search","query":"all"}
> {"line":1,"seq":1}
> {"line":2,"seq":2}
> {"line":3,"seq":3}
> {"docs":1,"line":4,"seq":4}
> {"commit":4,"hits":[{"key":"a1","num":{"price":5}}],"line":5}
= 0

# A set takes its place by name.
$ run --threads 1
< {"c":0,"op":"add","doc":{"key":"a1","num":{"a":1,"z":2}}}
< {"c":0,"op":"set","field":"key","term":"a1","num":"price","value":7}
< {"c":0,"op":"commit"}
< {"c":0,"op":"search","query":"all"}
> {"line":1,"seq":1}
> {"line":2,"seq":2}
> {"docs":1,"line":3,"seq":3}
> {"commit":3,"hits":[{"key":"a1","num":{"a":1,"price":7,"z":2}}],"line":4}
= 0

# A delete by a query keeps what doesn't match.
$ run --threads 1
< {"c":0,"op":"add","doc":{"key":"a1"}}
< {"c":0,"op":"add","doc":{"key":"b1","text":{"body":"Red fox"}}}
< {"c":0,"op":"delete_query","query":{"phrase":["body","RED FOX"]}}
< {"c":0,"op":"commit"}
< {"c":0,"op":"search","query":"all"}
> {"line":1,"seq":1}
> {"line":2,"seq":2}
> {"line":3,"seq":3}
> {"docs":1,"line":4,"seq":4}
> {"commit":4,"hits":[{"key":"a1","num":{}}],"line":5}
= 0

# A delete by an empty bool query takes nothing, one by `all` takes everything.
$ run --threads 1
< {"c":0,"op":"add","doc":{"key":"a1"}}
< {"c":0,"op":"delete_query","query":{"bool":{}}}
< {"c":0,"op":"commit"}
< {"c":0,"op":"delete_query","query":"all"}
< {"c":0,"op":"commit"}
> {"line":1,"seq":1}
> {"line":2,"seq":2}
> {"docs":1,"line":3,"seq":3}
> {"line":4,"seq":4}
> {"docs":0,"line":5,"seq":5}
= 0

# An update replaces the document, of which the later row, with the birth 2, is live.
$ run --threads 1
< {"c":0,"op":"add","doc":{"key":"a1"}}
< {"c":0,"op":"update","field":"key","term":"a1","doc":{"key":"a1","num":{"price":7}}}
< {"c":0,"op":"commit"}
< {"c":0,"op":"search","query":"all"}
> {"line":1,"seq":1}
> {"line":2,"seq":2}
> {"docs":1,"line":3,"seq":3}
> {"commit":3,"hits":[{"key":"a1","num":{"price":7}}],"line":4}
= 0
has seg_1.row 4958524f57303032 0000000000000001 00000002 0000000000000001 00000000 000000026131 00000000 00000000 0000000000000000 0000000000000002 00000000 000000026131 00000000 00000000 0000000000000001 000000057072696365 0000000000000007
has seg_1_3.liv 49584c4956303031 0000000000000001 0000000000000003 00000002 02
"#;

/// Terms and queries that are just too long, and that just aren't.
const LONG: &str = r#"# A document with a term of 32,767 bytes is refused, and gets no number.
$ run --threads 1
< {"c":0,"op":"add","doc":{"key":"a1"}}
<< {"c":0,"op":"add","doc":{"key":"a1","text":{"body":"
* 32767
<< a
< "}}}
< {"c":0,"op":"commit"}
> {"line":1,"seq":1}
> {"line":2,"refused":"term","size":32767}
> {"docs":1,"line":3,"seq":2}
= 0

# One with a byte less isn't.
$ run --threads 1
< {"c":0,"op":"add","doc":{"key":"a1"}}
<< {"c":0,"op":"add","doc":{"key":"a1","text":{"body":"
* 32766
<< a
< "}}}
< {"c":0,"op":"commit"}
> {"line":1,"seq":1}
> {"line":2,"seq":2}
> {"docs":2,"line":3,"seq":3}
= 0

# A refused update leaves the old document, with its birth 1, and gets no number.
$ run --threads 1
< {"c":0,"op":"add","doc":{"key":"a1"}}
<< {"c":0,"op":"update","field":"key","term":"a1","doc":{"key":"a1","text":{"body":"
* 32767
<< a
< "}}}
< {"c":0,"op":"commit"}
< {"c":0,"op":"search","query":"all"}
> {"line":1,"seq":1}
> {"line":2,"refused":"term","size":32767}
> {"docs":1,"line":3,"seq":2}
> {"commit":2,"hits":[{"key":"a1","num":{}}],"line":4}
= 0
has seg_1.row 4958524f57303032 0000000000000001 00000001 0000000000000001 00000000 000000026131 00000000 00000000 0000000000000000

# With a letter less the update takes effect: its row, with the birth 2, is live.
$ run --threads 1
< {"c":0,"op":"add","doc":{"key":"a1"}}
<< {"c":0,"op":"update","field":"key","term":"a1","doc":{"key":"a1","text":{"body":"
* 32766
<< a
< "}}}
< {"c":0,"op":"commit"}
< {"c":0,"op":"search","query":"all"}
> {"line":1,"seq":1}
> {"line":2,"seq":2}
> {"docs":1,"line":3,"seq":3}
> {"commit":3,"hits":[{"key":"a1","num":{}}],"line":4}
= 0
has seg_1.row 4958524f57303032 0000000000000001 00000002 0000000000000001 00000000 000000026131 00000000 00000000 0000000000000000 0000000000000002 00000000 000000026131 00000001 ..
has seg_1_3.liv 49584c4956303031 0000000000000001 0000000000000003 00000002 02

# The query's encoded bytes decide: 131,073 are refused.
$ run --threads 1
<< {"c":0,"op":"delete_query","query":{"phrase":["body","
* 131060
<< a
< "]}}
> {"line":1,"refused":"query","size":131073}
= 0

# 131,072 aren't.
$ run --threads 1
<< {"c":0,"op":"delete_query","query":{"phrase":["body","
* 131059
<< a
< "]}}
> {"line":1,"seq":1}
= 0
"#;

/// A delete by a range reads the number that stands when its turn comes, in a segment that a commit has as
/// in one that the round makes; a search reads that of its commit. Each document is a segment of its own.
const RANGES: &str = r#"# The number was set to another one before.
$ run --threads 1 --buffer 1
< {"c":0,"op":"add","doc":{"key":"a1","num":{"price":5}}}
< {"c":0,"op":"commit"}
< {"c":0,"op":"set","field":"key","term":"a1","num":"price","value":9}
< {"c":0,"op":"delete_query","query":{"range":["price",5,5]}}
< {"c":0,"op":"commit"}
< {"c":0,"op":"search","query":{"range":["price",9,9]}}
< {"c":0,"op":"search","query":{"range":["price",5,5]}}
> {"line":1,"seq":1}
> {"docs":1,"line":2,"seq":2}
> {"line":3,"seq":3}
> {"line":4,"seq":4}
> {"docs":1,"line":5,"seq":5}
> {"commit":5,"hits":[{"key":"a1","num":{"price":9}}],"line":6}
> {"commit":5,"hits":[],"line":7}
= 0

# It is set after.
$ run --threads 1 --buffer 1
< {"c":0,"op":"add","doc":{"key":"a1","num":{"price":5}}}
< {"c":0,"op":"commit"}
< {"c":0,"op":"delete_query","query":{"range":["price",5,5]}}
< {"c":0,"op":"set","field":"key","term":"a1","num":"price","value":9}
< {"c":0,"op":"commit"}
> {"line":1,"seq":1}
> {"docs":1,"line":2,"seq":2}
> {"line":3,"seq":3}
> {"line":4,"seq":4}
> {"docs":0,"line":5,"seq":5}
= 0

# It was the number for a while.
$ run --threads 1 --buffer 1
< {"c":0,"op":"add","doc":{"key":"a1","num":{"price":5}}}
< {"c":0,"op":"set","field":"key","term":"a1","num":"price","value":9}
< {"c":0,"op":"delete_query","query":{"range":["price",9,9]}}
< {"c":0,"op":"set","field":"key","term":"a1","num":"price","value":5}
< {"c":0,"op":"commit"}
> {"line":1,"seq":1}
> {"line":2,"seq":2}
> {"line":3,"seq":3}
> {"line":4,"seq":4}
> {"docs":0,"line":5,"seq":5}
= 0

# The document comes after.
$ run --threads 1 --buffer 1
< {"c":0,"op":"delete_query","query":{"range":["price",5,5]}}
< {"c":0,"op":"add","doc":{"key":"a1","num":{"price":5}}}
< {"c":0,"op":"commit"}
> {"line":1,"seq":1}
> {"line":2,"seq":2}
> {"docs":1,"line":3,"seq":3}
= 0

# The lower bound is above the upper one.
$ run --threads 1 --buffer 1
< {"c":0,"op":"add","doc":{"key":"a1","num":{"price":5}}}
< {"c":0,"op":"commit"}
< {"c":0,"op":"search","query":{"range":["price",5,5]}}
< {"c":0,"op":"search","query":{"range":["price",6,5]}}
> {"line":1,"seq":1}
> {"docs":1,"line":2,"seq":2}
> {"commit":2,"hits":[{"key":"a1","num":{"price":5}}],"line":3}
> {"commit":2,"hits":[],"line":4}
= 0

# A later process asks for the number that was set, and for the one that it replaced.
$ run --threads 1 --buffer 1
< {"c":0,"op":"add","doc":{"key":"a1","num":{"price":5}}}
< {"c":0,"op":"set","field":"key","term":"a1","num":"price","value":9}
< {"c":0,"op":"commit"}
> {"line":1,"seq":1}
> {"line":2,"seq":2}
> {"docs":1,"line":3,"seq":3}
= 0
$ ask
< {"range":["price",9,9]}
< {"bool":{"must":["all"],"not":[{"range":["price",0,8]}]}}
< {"range":["price",5,5]}
> {"commit":3,"hits":[{"key":"a1","num":{"price":9}}],"line":1}
> {"commit":3,"hits":[{"key":"a1","num":{"price":9}}],"line":2}
> {"commit":3,"hits":[],"line":3}
= 0
"#;

/// Each call ends as its text says.
#[test]
fn reports(rt: HostRuntime) -> Result<(), Fail> {
    for text in [SEARCHES, DAMAGED, OPERATIONS, LONG, RANGES] {
        hold(&rt, text)?;
    }
    Ok(())
}
