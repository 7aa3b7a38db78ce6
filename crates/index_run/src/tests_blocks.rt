//! Blocks of documents, through whole runs: texts of calls.
use crate::tests_calls::hold;
use std::test::*;

/// Blocks that are added, replaced and refused.
const BLOCKS: &str = r#"# The documents of a block have one number, and stand in their order.
$ run --threads 1
< {"c":0,"op":"add_block","docs":[{"key":"p1"},{"key":"p2"}]}
< {"c":0,"op":"commit"}
< {"c":0,"op":"search","query":"all"}
> {"line":1,"seq":1}
> {"docs":2,"line":2,"seq":2}
> {"commit":2,"hits":[{"key":"p1","num":{}},{"key":"p2","num":{}}],"line":3}
= 0
has seg_1.row 4958524f57303032 0000000000000001 00000002 0000000000000001 00000000 000000027031 00000000 00000000 0000000000000000 0000000000000001 00000001 000000027032 00000000 00000000 0000000000000000
$ check
> {"commit":2,"docs":2}
= 0

# An update by a block removes each document that holds the term, and adds its own at the end.
$ run --threads 1
< {"c":0,"op":"add_block","docs":[{"key":"p1"},{"key":"p2"}]}
< {"c":0,"op":"update_block","field":"key","term":"p1","docs":[{"key":"p1"}]}
< {"c":0,"op":"commit"}
< {"c":0,"op":"search","query":"all"}
> {"line":1,"seq":1}
> {"line":2,"seq":2}
> {"docs":2,"line":3,"seq":3}
> {"commit":3,"hits":[{"key":"p2","num":{}},{"key":"p1","num":{}}],"line":4}
= 0

# An update by a block doesn't remove its own documents.
$ run --threads 1
< {"c":0,"op":"update_block","field":"t","term":"x","docs":[{"key":"p1","exact":{"t":"x"}},{"key":"p2","exact":{"t":"x"}}]}
< {"c":0,"op":"set","field":"key","term":"p2","num":"n","value":3}
< {"c":0,"op":"commit"}
< {"c":0,"op":"update_block","field":"t","term":"x","docs":[{"key":"p3","exact":{"t":"x"}}]}
< {"c":0,"op":"add","doc":{"key":"p4"}}
< {"c":0,"op":"delete","field":"key","term":"p3"}
< {"c":0,"op":"commit"}
> {"line":1,"seq":1}
> {"line":2,"seq":2}
> {"docs":2,"line":3,"seq":3}
> {"line":4,"seq":4}
> {"line":5,"seq":5}
> {"line":6,"seq":6}
> {"docs":1,"line":7,"seq":7}
= 0
$ ask --commit 3
< "all"
> {"commit":3,"hits":[{"key":"p1","num":{}},{"key":"p2","num":{"n":3}}],"line":1}
= 0

# A block is refused for its first document with a term that is too long: none of it is added.
$ run --threads 1
<< {"c":0,"op":"add_block","docs":[{"key":"p1"},{"key":"p2","text":{"body":"
* 32767
<< a
< "}}]}
< {"c":0,"op":"commit"}
> {"line":1,"refused":"term","size":32767}
> {"docs":0,"line":2,"seq":1}
= 0
files 1

# Nor is anything removed.
$ run --threads 1
< {"c":0,"op":"add","doc":{"key":"p1"}}
<< {"c":0,"op":"update_block","field":"key","term":"p1","docs":[{"key":"p2"},{"key":"p3","text":{"body":"
* 32767
<< a
< "}}]}
< {"c":0,"op":"commit"}
< {"c":0,"op":"search","query":"all"}
> {"line":1,"seq":1}
> {"line":2,"refused":"term","size":32767}
> {"docs":1,"line":3,"seq":2}
> {"commit":2,"hits":[{"key":"p1","num":{}}],"line":4}
= 0

# A block stands in one buffer, and so in one segment, however few documents a buffer has room for.
$ run --threads 1 --buffer 1
< {"c":0,"op":"add_block","docs":[{"key":"p1"},{"key":"p2"},{"key":"p3"}]}
< {"c":0,"op":"commit"}
> {"line":1,"seq":1}
> {"docs":3,"line":2,"seq":2}
= 0
has segments_2 4958434f4d303032 0000000000000002 0000000000000003 0000000000000002 0000000000000001 0000000000000001 00000003 0000000000000002 00000000
files 5

# Lists of documents that are none.
$ run
< {"c":0,"op":"add_block","docs":[]}
> {"line":1,"status":3,"why":"doc"}
= 3
$ run
< {"c":0,"op":"add_block","docs":[{"key":"p1"},{}]}
> {"line":1,"status":3,"why":"doc"}
= 3
$ run
< {"c":0,"op":"update_block","docs":[{"key":"p1"}]}
> {"line":1,"status":3,"why":"members"}
= 3
"#;

/// A store whose files are of the first forms.
const BEFORE: &str = r#"# It is read.
write segments_2 4958434f4d303031 0000000000000002 0000000000000001 0000000000000002 0000000000000001 0000000000000001 00000001 0000000000000002
write seg_1.row 4958524f57303031 0000000000000001 00000001 0000000000000001 000000026131 00000000 00000000 0000000000000000
write seg_1.pst 4958505354303031 0000000000000001 00000001 0000000000000001 000000036b6579 000000026131 00000001 00000000 00000001 00000000
write seg_1_2.liv 49584c4956303031 0000000000000001 0000000000000002 00000001 01
write seg_1_2.val 495856414c303031 0000000000000001 0000000000000002 00000001 0000000000000000
$ ask
< "all"
> {"commit":2,"hits":[{"key":"a1","num":{}}],"line":1}
= 0
$ check
> {"commit":2,"docs":1}
= 0
  It is written on: the segment keeps its files.
$ run --threads 1
< {"c":0,"op":"add","doc":{"key":"a2"}}
< {"c":0,"op":"commit"}
< {"c":0,"op":"search","query":"all"}
> {"line":1,"seq":3}
> {"docs":2,"line":2,"seq":4}
> {"commit":4,"hits":[{"key":"a1","num":{}},{"key":"a2","num":{}}],"line":3}
= 0
has seg_1.row 4958524f57303031..
has seg_2.row 4958524f57303032..
  It is merged with a new one: the merged segment is of the second form.
$ run --threads 1 --merge 2
< {"c":0,"op":"add_block","docs":[{"key":"a3"},{"key":"a4"}]}
< {"c":0,"op":"commit"}
< {"c":0,"op":"search","query":"all"}
> {"line":1,"seq":5}
> {"docs":4,"line":2,"seq":6}
> {"commit":6,"hits":[{"key":"a1","num":{}},{"key":"a2","num":{}},{"key":"a3","num":{}},{"key":"a4","num":{}}],"line":3}
= 0
has seg_4.row 4958524f57303032 0000000000000004 00000002 0000000000000001 00000000 000000026131 00000000 00000000 0000000000000000 0000000000000003 00000000 000000026132 00000000 00000000 0000000000000000
$ ask --commit 2
< "all"
> {"commit":2,"hits":[{"key":"a1","num":{}}],"line":1}
= 0
$ check
> {"commit":2,"docs":1}
> {"commit":4,"docs":2}
> {"commit":6,"docs":4}
= 0
  Its commits are given up.
$ run --threads 1 --keep 1
< {"c":0,"op":"commit"}
> {"docs":4,"line":1,"seq":7}
= 0
files 9
$ check
> {"commit":7,"docs":4}
= 0

# A file of the first form that is cut is told as it was.
write segments_2 4958434f4d303031 0000000000000002 0000000000000001 0000000000000002 0000000000000001 0000000000000001 00000001 0000000000000002
write seg_1.row 4958524f57303031 0000000000000001 00000001 0000000000000001 0000000261
$ ask
< "all"
> {"at":28,"file":"seg_1.row","status":8}
= 8
"#;

/// Blocks through runs of one writer.
#[test]
fn blocks_are_added_and_replaced(rt: HostRuntime) -> Result<(), Fail> {
    hold(&rt, BLOCKS)
}

/// A store that was written before blocks is read, written on, merged and pruned.
#[test]
fn stores_of_before(rt: HostRuntime) -> Result<(), Fail> {
    hold(&rt, BEFORE)
}
