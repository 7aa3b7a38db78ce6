//! Questions, and what is said of them: the queries with their lines, or the bad line and its reason.
use crate::tests::text_of;
use op_script::{ScriptFault, read_queries};
use std::alloc::Global;
use std::fmt::Write;
use std::test::Fail;
use test_texts::show_query;

/// The questions with their lines, or the bad line and its reason.
fn answer(alloc: Global, bytes: &[u8]) -> Result<String, Fail> {
    let mut text = String::new(alloc);
    match read_queries(alloc, bytes) {
        Ok(questions) => {
            for question in questions.lines.as_slice() {
                let line = question.line;
                write!(text, "{line} ")?;
                show_query(&mut text, &question.query, 42)?;
                text.push_str(";")?;
            }
        }
        Err(ScriptFault::Bad(bad)) => {
            let line = bad.line;
            let why = bad.why;
            write!(text, "{line} {why:?}")?;
        }
        Err(ScriptFault::NoMemory) => text.push_str("no memory")?,
    }
    Ok(text)
}

/// Inputs, each with what is to be said of it. A query may hold another 42 deep, since each `bool` is three
/// JSON values deep.
const QUESTIONS: &str = r#"
 => 
 <1 tab><1 cr><1 lf><1 cr><1 lf><1 lf> => 
"all" => 1 all;
"all"<1 lf> => 1 all;
<1 cr><1 lf> <1 tab><1 lf> "all" <1 cr><1 lf><1 lf>{"term":["key","a1"]} => 3 all;5 key:a1;
{"bool":{"not":[{"term":["key","zz"]}]}}<1 lf>{"bool":{}}<1 lf>{"phrase":["body"," "]} => 1 +|-(key:zz);2 +|-;3 body~ ;
{"bool":{"should":["all"],"must":[{"phrase":["body","quick fox"]},"all"]}} => 1 +(body~quick fox)(all)|(all)-;
{"term":["a","b"],"term":["c",""]} => 1 c:;
{ => 1 Json
"all => 1 Json
all => 1 Json
"all" "all" => 1 Json
"\ud800" => 1 Json
"All" => 1 Query
null => 1 Query
7 => 1 Query
["all"] => 1 Query
{} => 1 Query
{"query":"all"} => 1 Query
{"c":0,"op":"search","query":"all"} => 1 Query
{"c":0,"op":"commit"} => 1 Query
{"term":["a","b"],"phrase":["c","d"]} => 1 Query
{"term":["","a"]} => 1 Query
{"range":["price",-5,9]}<1 lf>{"range":["price",6,5]} => 1 price:-5..9;2 price:6..5;
{"range":["n",-9223372036854775808,9223372036854775807]} => 1 n:-9223372036854775808..9223372036854775807;
{"range":["n",0,9223372036854775808]} => 1 Query
{"range":["n",5]} => 1 Query
{"range":["n",5,6,7]} => 1 Query
{"range":["n",1.0,5]} => 1 Query
{"range":["n",1,"5"]} => 1 Query
{"range":["",1,5]} => 1 Query
{"range":[1,1,5]} => 1 Query
"all"<1 lf><1 lf>{}<1 lf>{ => 3 Query
"all"<1 lf>{<1 lf>{} => 2 Json
<1 lf>"all"<1 lf> <1 lf>7 => 4 Query
<42 {"bool":{"must":[>"all"<42 ]}}> => 1 <42 +(>all<42 )|->;
<43 {"bool":{"must":[>"all"<43 ]}}> => 1 Json
"#;

#[test]
fn questions(rt: HostRuntime) -> Result<(), Fail> {
    let alloc = rt.alloc();
    for line in QUESTIONS.lines() {
        if let Some((text, want)) = line.rsplit_once(" => ") {
            let said = answer(alloc, text_of(alloc, text)?.as_bytes())?;
            assert!(rt; said.as_str() == text_of(alloc, want)?.as_str(), "{line}");
        }
    }
    assert!(rt; answer(alloc, b"\"all\"\n\"\xff\"")?.as_str() == "2 Json");
    Ok(())
}

/// Thousands of questions, each after a blank line.
#[test]
fn many_questions(rt: HostRuntime) -> Result<(), Fail> {
    let alloc = rt.alloc();
    let mut text = String::new(alloc);
    let mut want = String::new(alloc);
    for number in 1..=20_000u32 {
        write!(text, "\n{{\"term\":[\"key\",\"k{number}\"]}}\n")?;
        let line = 2 * number;
        write!(want, "{line} key:k{number};")?;
    }
    assert!(rt; answer(alloc, text.as_bytes())?.as_str() == want.as_str());
    Ok(())
}

/// The longest input, whose first line is bad, and one of a byte more, which is bad as a whole.
#[test]
fn longest_input_of_questions(rt: HostRuntime) -> Result<(), Fail> {
    let alloc = rt.alloc();
    let mut text = vec![in alloc; b'\n'; 67_108_864]?;
    text[0] = b'{';
    assert!(rt; answer(alloc, text.as_slice())?.as_str() == "1 Json");
    text.push(b'\n')?;
    assert!(rt; answer(alloc, text.as_slice())?.as_str() == "0 Long");
    Ok(())
}
