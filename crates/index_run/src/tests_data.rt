//! Runs whose commit lines have data: what their commit files hold, and what is listed.
use crate::tests_calls::hold;
use std::test::*;

const DATA: &str = r#"# The data of a commit stands in its commit file.
$ run --threads 1
< {"c":0,"op":"commit","data":{"src":"x"}}
> {"docs":0,"line":1,"seq":1}
= 0
files 1
has segments_1 4958434f4d303032000000000000000100000000000000000000000000000001000000000000000000000001000000037372630000000178
$ list
> {"commit":1,"data":{"src":"x"},"docs":0}
= 0
$ check
> {"commit":1,"data":{"src":"x"},"docs":0}
= 0

# Each commit has its own line's data, or none, by the names' bytes, also where its caller's writer isn't the first.
$ run --threads 4 --merge 2
< {"c":2,"op":"add","doc":{"key":"a1"}}
< {"c":2,"op":"commit","data":{"b":"say \"1\"\n","a":""}}
< {"c":2,"op":"commit"}
< {"c":2,"op":"add","doc":{"key":"a2"}}
< {"c":2,"op":"commit","data":{}}
< {"c":2,"op":"commit","data":{"key":"4","":"no","":"5"}}
> {"line":6,"status":3,"why":"data"}
= 3
$ run --threads 4 --merge 2
< {"c":2,"op":"add","doc":{"key":"a1"}}
< {"c":2,"op":"commit","data":{"b":"say \"1\"\n","a":""}}
< {"c":2,"op":"commit"}
< {"c":2,"op":"add","doc":{"key":"a2"}}
< {"c":2,"op":"commit","data":{}}
< {"c":2,"op":"commit","data":{"key":"4"}}
> {"line":1,"seq":1}
> {"docs":1,"line":2,"seq":2}
> {"docs":1,"line":3,"seq":3}
> {"line":4,"seq":4}
> {"docs":2,"line":5,"seq":5}
> {"docs":2,"line":6,"seq":6}
= 0
$ list
> {"commit":2,"data":{"a":"","b":"say \"1\"\n"},"docs":1}
> {"commit":3,"docs":1}
> {"commit":5,"docs":2}
> {"commit":6,"data":{"key":"4"},"docs":2}
= 0

# A commit that is kept has its data, and one that follows a commit of the first form.
$ run --threads 1
< {"c":0,"op":"commit"}
> {"docs":0,"line":1,"seq":1}
= 0
write segments_1 4958434f4d3030310000000000000001000000000000000000000000000000010000000000000000
$ run --threads 1 --keep 2
< {"c":0,"op":"commit","data":{"at":"1"}}
< {"c":0,"op":"commit","data":{"at":"2"}}
< {"c":0,"op":"commit","data":{"at":"3"}}
> {"docs":0,"line":1,"seq":2}
> {"docs":0,"line":2,"seq":3}
> {"docs":0,"line":3,"seq":4}
= 0
$ list
> {"commit":3,"data":{"at":"2"},"docs":0}
> {"commit":4,"data":{"at":"3"},"docs":0}
= 0
"#;

#[test]
fn commits_have_their_data(rt: HostRuntime) -> Result<(), Fail> {
    hold(&rt, DATA)
}
