//! What whole runs leave in the store, and how they end where it fails: texts of calls.
use crate::tests_calls::hold;
use std::test::*;

/// The files that runs leave, and how a later call reads them.
const FILES: &str = r#"# Each byte of the files of a commit, field by field.
$ run --threads 1
< {"c":0,"op":"add","doc":{"key":"a1"}}
< {"c":0,"op":"commit"}
< {"c":0,"op":"search","query":"all"}
> {"line":1,"seq":1}
> {"docs":1,"line":2,"seq":2}
> {"commit":2,"hits":[{"key":"a1","num":{}}],"line":3}
= 0
has segments_2 4958434f4d303032 0000000000000002 0000000000000001 0000000000000002 0000000000000001 0000000000000001 00000001 0000000000000002 00000000
has seg_1.row 4958524f57303032 0000000000000001 00000001 0000000000000001 00000000 000000026131 00000000 00000000 0000000000000000
has seg_1.pst 4958505354303031 0000000000000001 00000001 0000000000000001 000000036b6579 000000026131 00000001 00000000 00000001 00000000
has seg_1_2.liv 49584c4956303031 0000000000000001 0000000000000002 00000001 01
has seg_1_2.val 495856414c303031 0000000000000001 0000000000000002 00000001 0000000000000000

# The same of the example in `docs/FORMATS.md`.
$ run --threads 1
< {"c":0,"op":"add","doc":{"key":"m1","text":{"body":"Hi you"},"exact":{"box":"in"},"num":{"size":-2}}}
< {"c":0,"op":"commit"}
> {"line":1,"seq":1}
> {"docs":1,"line":2,"seq":2}
= 0
has segments_2 4958434f4d303032 0000000000000002 0000000000000001 0000000000000002 0000000000000001 0000000000000001 00000001 0000000000000002 00000000
has seg_1.row 4958524f57303032 0000000000000001 00000001 0000000000000001 00000000 00000002 6d31 00000001 00000004 626f6479 00000006 486920796f75 00000001 00000003 626f78 00000002 696e 0000000000000001 00000004 73697a65 fffffffffffffffe
has seg_1.pst 4958505354303031 0000000000000001 00000001 0000000000000004 00000004 626f6479 00000002 6869 00000001 00000000 00000001 00000000 00000004 626f6479 00000003 796f75 00000001 00000000 00000001 00000001 00000003 626f78 00000002 696e 00000001 00000000 00000001 00000000 00000003 6b6579 00000002 6d31 00000001 00000000 00000001 00000000

# The commits of two runs over one store are read back. The next id of each is that of the next run's segment.
$ run --threads 1
< {"c":0,"op":"add","doc":{"key":"a1"}}
< {"c":0,"op":"commit"}
< {"c":0,"op":"search","query":"all"}
> {"line":1,"seq":1}
> {"docs":1,"line":2,"seq":2}
> {"commit":2,"hits":[{"key":"a1","num":{}}],"line":3}
= 0
$ run --threads 1
< {"c":0,"op":"add","doc":{"key":"m1","text":{"body":"Hi you"},"exact":{"box":"in"},"num":{"size":-2}}}
< {"c":0,"op":"commit"}
> {"line":1,"seq":3}
> {"docs":2,"line":2,"seq":4}
= 0
$ list
> {"commit":2,"docs":1}
> {"commit":4,"docs":2}
= 0
has segments_2 4958434f4d303032 0000000000000002 0000000000000001 0000000000000002 ..
has segments_4 4958434f4d303032 0000000000000004 0000000000000002 0000000000000003 ..
$ ask --commit 2
< "all"
> {"commit":2,"hits":[{"key":"a1","num":{}}],"line":1}
= 0
$ ask --commit 4
< "all"
> {"commit":4,"hits":[{"key":"a1","num":{}},{"key":"m1","num":{"size":-2}}],"line":1}
= 0
$ ask --commit 3
< "all"
> {"commit":3,"status":9}
= 9
$ run --threads 1
< {"c":0,"op":"add","doc":{"key":"a2"}}
< {"c":0,"op":"commit"}
> {"line":1,"seq":5}
> {"docs":3,"line":2,"seq":6}
= 0
has seg_3.row 4958524f57303032 0000000000000003 00000001 0000000000000005 00000000 ..

# A run of no line leaves no file.
$ run --threads 1
= 0
files 0
# Nor does one without a commit.
$ run --threads 1
< {"c":0,"op":"add","doc":{"key":"a1"}}
> {"line":1,"seq":1}
= 0
files 0
# A commit without a row leaves one.
$ run --threads 1
< {"c":0,"op":"commit"}
> {"docs":0,"line":1,"seq":1}
= 0
files 1
# A commit with rows leaves five.
$ run --threads 1
< {"c":0,"op":"add","doc":{"key":"a1"}}
< {"c":0,"op":"commit"}
> {"line":1,"seq":1}
> {"docs":1,"line":2,"seq":2}
= 0
files 5
# A script with a bad line leaves none.
$ run --threads 1
< {"c":0,"op":"commit"}
<< {"c":256,"op":"commit"}
> {"line":2,"status":3,"why":"caller"}
= 3
files 0

# 300 commits; the next run begins on the last of them.
$ run --threads 1
< {"c":0,"op":"add","doc":{"key":"m"}}
* 300
< {"c":0,"op":"commit"}
> {"docs":1,"line":301,"seq":301}
..
= 0
$ run --threads 1
< {"c":0,"op":"search","query":"all"}
> {"commit":301,"hits":[{"key":"m","num":{}}],"line":1}
= 0
"#;

#[test]
fn files_of_runs(rt: HostRuntime) -> Result<(), Fail> {
    hold(&rt, FILES)
}

/// Whichever call of the store fails, it is told as the store's fault, and a commit is read where a run begins on it,
/// and for no search line: there are the list of the files, twelve calls of a commit that has a new segment and
/// four of one that has not, and the reads of a commit file and of the four files of each of its segments.
const STOPPED: &str =
    r#"# The list of the files, and the twelve calls of a commit with a new segment; its search makes none.
$ run --threads 1
< {"c":0,"op":"add","doc":{"key":"a1"}}
< {"c":0,"op":"commit"}
< {"c":0,"op":"search","query":"all"}
stops 13

# Nor do four.
$ run --threads 1
< {"c":0,"op":"add","doc":{"key":"a1"}}
< {"c":0,"op":"commit"}
< {"c":0,"op":"search","query":"all"}
< {"c":0,"op":"search","query":"all"}
< {"c":0,"op":"search","query":"all"}
< {"c":0,"op":"search","query":"all"}
stops 13

# The list, the five reads of a commit, the twelve calls of one, and the four of one without a new segment.
$ run --threads 1
< {"c":0,"op":"add","doc":{"key":"a1"}}
< {"c":0,"op":"commit"}
> {"line":1,"seq":1}
> {"docs":1,"line":2,"seq":2}
= 0
$ run --threads 1
< {"c":0,"op":"add","doc":{"key":"a2"}}
< {"c":0,"op":"commit"}
< {"c":1,"op":"commit"}
< {"c":0,"op":"search","query":"all"}
< {"c":1,"op":"search","query":"all"}
< {"c":0,"op":"search","query":"all"}
< {"c":1,"op":"search","query":"all"}
stops 22

# A commit that is searched is read at the beginning alone, where a commit without a row follows.
$ run --threads 1
< {"c":0,"op":"add","doc":{"key":"a1"}}
< {"c":0,"op":"commit"}
> {"line":1,"seq":1}
> {"docs":1,"line":2,"seq":2}
= 0
$ run --threads 1
< {"c":0,"op":"search","query":"all"}
< {"c":0,"op":"search","query":"all"}
< {"c":0,"op":"commit"}
stops 10

# And where one with a new segment follows.
$ run --threads 1
< {"c":0,"op":"add","doc":{"key":"a1"}}
< {"c":0,"op":"commit"}
> {"line":1,"seq":1}
> {"docs":1,"line":2,"seq":2}
= 0
$ run --threads 1
< {"c":0,"op":"search","query":"all"}
< {"c":0,"op":"search","query":"all"}
< {"c":0,"op":"add","doc":{"key":"a2"}}
< {"c":0,"op":"commit"}
stops 18

# A made script's commit is read for the summary.
$ make --seed 1 --lines 10 --callers 1
stops 18

# Two questions take the list and the five reads of the commit.
$ run --threads 1
< {"c":0,"op":"add","doc":{"key":"a1"}}
< {"c":0,"op":"commit"}
> {"line":1,"seq":1}
> {"docs":1,"line":2,"seq":2}
= 0
$ ask
< "all"
< "all"
stops 6

# A list takes that of the files and the read of the commit file.
$ run --threads 1
< {"c":0,"op":"add","doc":{"key":"a1"}}
< {"c":0,"op":"commit"}
> {"line":1,"seq":1}
> {"docs":1,"line":2,"seq":2}
= 0
$ list
stops 2

# The second sync of a second run fails: it ends with the store's fault, and the first run's commit stays alone. The
  list, five reads, the writes of the segment's four files and the sync of its rows come before.
$ run --threads 1
< {"c":0,"op":"add","doc":{"key":"a1"}}
< {"c":0,"op":"commit"}
> {"line":1,"seq":1}
> {"docs":1,"line":2,"seq":2}
= 0
fail 12
$ run --threads 1
< {"c":0,"op":"add","doc":{"key":"a2"}}
< {"c":0,"op":"commit"}
> {"status":7,"why":"store"}
= 7
$ list
> {"commit":2,"docs":1}
= 0

# The same where a line behind the commit is told meanwhile.
$ run --threads 1
< {"c":0,"op":"add","doc":{"key":"a1"}}
< {"c":0,"op":"commit"}
> {"line":1,"seq":1}
> {"docs":1,"line":2,"seq":2}
= 0
fail 12
$ run --threads 1
< {"c":0,"op":"add","doc":{"key":"a2"}}
< {"c":0,"op":"commit"}
< {"c":0,"op":"add","doc":{"key":"a1"}}
> {"status":7,"why":"store"}
= 7
$ list
> {"commit":2,"docs":1}
= 0
"#;

#[test]
fn each_store_call_fails(rt: HostRuntime) -> Result<(), Fail> {
    hold(&rt, STOPPED)
}
