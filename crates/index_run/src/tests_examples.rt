//! The examples, as they stand in `examples/`, with the reports and answers that `examples/README.md`
//! gives. The scripts of the mailbox and of the catalogue are those that the two programs beside them make
//! of their samples.
use crate::tests_calls::hold;
use std::test::*;

/// Each example script, run twice over one store.
const SCRIPTS: &str = r#"# `first.script`.
$ run --threads 1
< {"c":0,"op":"add","doc":{"key":"note-1","text":{"body":"The quick brown fox"}}}
< {"c":0,"op":"add","doc":{"key":"note-2","text":{"body":"A Quick Fox"}}}
< {"c":0,"op":"commit"}
< {"c":0,"op":"search","query":{"phrase":["body","quick fox"]}}
< {"c":0,"op":"commit"}
> {"line":1,"seq":1}
> {"line":2,"seq":2}
> {"docs":2,"line":3,"seq":3}
> {"commit":3,"hits":[{"key":"note-2","num":{}}],"line":4}
> {"docs":2,"line":5,"seq":4}
= 0
> {"line":1,"seq":5}
> {"line":2,"seq":6}
> {"docs":4,"line":3,"seq":7}
> {"commit":7,"hits":[{"key":"note-2","num":{}},{"key":"note-2","num":{}}],"line":4}
> {"docs":4,"line":5,"seq":8}
= 0

# `mail.script`.
$ run --threads 1
< {"c":0,"op":"add","doc":{"key":"ann/1","text":{"subject":"Lunch on Friday?","body":"Shall we meet at noon?"},"exact":{"box":"inbox","from":"bob@example.org"},"num":{"date":20240301,"size":412}}}
< {"c":1,"op":"add","doc":{"key":"bob/1","text":{"subject":"RE: Lunch on Friday","body":"Noon is fine."},"exact":{"box":"inbox","from":"ann@example.org"},"num":{"date":20240301,"size":298}}}
< {"c":0,"op":"commit"}
< {"c":1,"op":"search","query":"all"}
<
< {"c":0,"op":"add","doc":{"key":"ann/2","text":{"subject":"Invoice 17","body":"Due on Friday."},"exact":{"box":"inbox","from":"shop@example.org"},"num":{"date":20240302,"size":1290}}}
< {"c":1,"op":"commit"}
< {"c":0,"op":"search","query":{"bool":{"must":[{"term":["box","inbox"]}],"not":[{"term":["from","bob@example.org"]}]}}}
< {"c":1,"op":"search","query":{"bool":{"should":[{"term":["subject","friday"]},{"term":["body","friday"]}]}}}
< {"c":1,"op":"search","query":{"phrase":["subject","lunch on friday"]}}
< {"c":1,"op":"search","query":{"term":["from","Shop@example.org"]}}
> {"line":1,"seq":1}
> {"line":2,"seq":2}
> {"docs":2,"line":3,"seq":3}
> {"commit":0,"hits":[],"line":4}
> {"line":6,"seq":4}
> {"docs":3,"line":7,"seq":5}
> {"commit":3,"hits":[{"key":"bob/1","num":{"date":20240301,"size":298}}],"line":8}
> {"commit":5,"hits":[{"key":"ann/1","num":{"date":20240301,"size":412}},{"key":"bob/1","num":{"date":20240301,"size":298}},{"key":"ann/2","num":{"date":20240302,"size":1290}}],"line":9}
> {"commit":5,"hits":[{"key":"ann/1","num":{"date":20240301,"size":412}},{"key":"bob/1","num":{"date":20240301,"size":298}}],"line":10}
> {"commit":5,"hits":[],"line":11}
= 0
> {"line":1,"seq":6}
> {"line":2,"seq":7}
> {"docs":5,"line":3,"seq":8}
> {"commit":5,"hits":[{"key":"ann/1","num":{"date":20240301,"size":412}},{"key":"bob/1","num":{"date":20240301,"size":298}},{"key":"ann/2","num":{"date":20240302,"size":1290}}],"line":4}
> {"line":6,"seq":9}
> {"docs":6,"line":7,"seq":10}
> {"commit":8,"hits":[{"key":"bob/1","num":{"date":20240301,"size":298}},{"key":"ann/2","num":{"date":20240302,"size":1290}},{"key":"bob/1","num":{"date":20240301,"size":298}}],"line":8}
> {"commit":10,"hits":[{"key":"ann/1","num":{"date":20240301,"size":412}},{"key":"bob/1","num":{"date":20240301,"size":298}},{"key":"ann/2","num":{"date":20240302,"size":1290}},{"key":"ann/1","num":{"date":20240301,"size":412}},{"key":"bob/1","num":{"date":20240301,"size":298}},{"key":"ann/2","num":{"date":20240302,"size":1290}}],"line":9}
> {"commit":10,"hits":[{"key":"ann/1","num":{"date":20240301,"size":412}},{"key":"bob/1","num":{"date":20240301,"size":298}},{"key":"ann/1","num":{"date":20240301,"size":412}},{"key":"bob/1","num":{"date":20240301,"size":298}}],"line":10}
> {"commit":10,"hits":[],"line":11}
= 0
"#;

/// A mailbox is taken in twice, and asked after each time.
const LETTERS: &str =
    r#"# What `from_mailbox.py` makes of `letters.mbox`, and three questions on the letters.
$ run --threads 1
< {"c": 0, "op": "update", "field": "key", "term": "lunch-1@example.org", "doc": {"key": "lunch-1@example.org", "text": {"subject": "Lunch on Friday?", "body": "Shall we meet at noon? The place by the river has tables outside again.\n"}, "exact": {"to:bob@example.org": "yes", "label:private": "yes", "from": "ann@example.org"}, "num": {"read": 0, "date": 20240301}}}
< {"c": 0, "op": "set", "field": "key", "term": "lunch-1@example.org", "num": "read", "value": 1}
< {"c": 0, "op": "update", "field": "key", "term": "lunch-2@example.org", "doc": {"key": "lunch-2@example.org", "text": {"subject": "RE: Lunch on Friday? Caf\u00e9 or river?", "body": "Noon is fine. Shall we take the caf\u00e9 in the Schlossstra\u00dfe, if it rains?\n"}, "exact": {"to:ann@example.org": "yes", "to:zoe@example.org": "yes", "label:private": "yes", "label:friends": "yes", "from": "bob@example.org"}, "num": {"read": 0, "date": 20240301}}}
< {"c": 0, "op": "update", "field": "key", "term": "invoice-17@example.com", "doc": {"key": "invoice-17@example.com", "text": {"subject": "Invoice 17", "body": "Three boxes of pens and a bottle of ink, due on Friday in two weeks."}, "exact": {"to:ann@example.org": "yes", "label:bills": "yes", "from": "shop@example.com"}, "num": {"read": 0, "date": 20240302}}}
< {"c": 0, "op": "set", "field": "key", "term": "invoice-17@example.com", "num": "read", "value": 1}
< {"c": 0, "op": "delete", "field": "key", "term": "prize@example.net"}
< {"c": 0, "op": "update", "field": "key", "term": "boat-1@example.org", "doc": {"key": "boat-1@example.org", "text": {"subject": "The boat", "body": "The old boat lies at the river again, painted green. Who comes along on Friday?\n"}, "exact": {"to:ann@example.org": "yes", "to:bob@example.org": "yes", "label:friends": "yes", "from": "zoe@example.org"}, "num": {"read": 0, "date": 20240304}}}
< {"c": 0, "op": "commit"}
> {"line":1,"seq":1}
> {"line":2,"seq":2}
> {"line":3,"seq":3}
> {"line":4,"seq":4}
> {"line":5,"seq":5}
> {"line":6,"seq":6}
> {"line":7,"seq":7}
> {"docs":4,"line":8,"seq":8}
= 0
$ ask
< {"term":["body","river"]}
< {"phrase":["body","schlossSTRASSE"]}
< {"bool":{"must":[{"term":["label:friends","yes"]}],"not":[{"term":["from","zoe@example.org"]}]}}
> {"commit":8,"hits":[{"key":"lunch-1@example.org","num":{"date":20240301,"read":1}},{"key":"boat-1@example.org","num":{"date":20240304,"read":0}}],"line":1}
> {"commit":8,"hits":[{"key":"lunch-2@example.org","num":{"date":20240301,"read":0}}],"line":2}
> {"commit":8,"hits":[{"key":"lunch-2@example.org","num":{"date":20240301,"read":0}}],"line":3}
= 0
  The second run leaves each letter once.
$ run --threads 1
< {"c": 0, "op": "update", "field": "key", "term": "lunch-1@example.org", "doc": {"key": "lunch-1@example.org", "text": {"subject": "Lunch on Friday?", "body": "Shall we meet at noon? The place by the river has tables outside again.\n"}, "exact": {"to:bob@example.org": "yes", "label:private": "yes", "from": "ann@example.org"}, "num": {"read": 0, "date": 20240301}}}
< {"c": 0, "op": "set", "field": "key", "term": "lunch-1@example.org", "num": "read", "value": 1}
< {"c": 0, "op": "update", "field": "key", "term": "lunch-2@example.org", "doc": {"key": "lunch-2@example.org", "text": {"subject": "RE: Lunch on Friday? Caf\u00e9 or river?", "body": "Noon is fine. Shall we take the caf\u00e9 in the Schlossstra\u00dfe, if it rains?\n"}, "exact": {"to:ann@example.org": "yes", "to:zoe@example.org": "yes", "label:private": "yes", "label:friends": "yes", "from": "bob@example.org"}, "num": {"read": 0, "date": 20240301}}}
< {"c": 0, "op": "update", "field": "key", "term": "invoice-17@example.com", "doc": {"key": "invoice-17@example.com", "text": {"subject": "Invoice 17", "body": "Three boxes of pens and a bottle of ink, due on Friday in two weeks."}, "exact": {"to:ann@example.org": "yes", "label:bills": "yes", "from": "shop@example.com"}, "num": {"read": 0, "date": 20240302}}}
< {"c": 0, "op": "set", "field": "key", "term": "invoice-17@example.com", "num": "read", "value": 1}
< {"c": 0, "op": "delete", "field": "key", "term": "prize@example.net"}
< {"c": 0, "op": "update", "field": "key", "term": "boat-1@example.org", "doc": {"key": "boat-1@example.org", "text": {"subject": "The boat", "body": "The old boat lies at the river again, painted green. Who comes along on Friday?\n"}, "exact": {"to:ann@example.org": "yes", "to:bob@example.org": "yes", "label:friends": "yes", "from": "zoe@example.org"}, "num": {"read": 0, "date": 20240304}}}
< {"c": 0, "op": "commit"}
> {"line":1,"seq":9}
> {"line":2,"seq":10}
> {"line":3,"seq":11}
> {"line":4,"seq":12}
> {"line":5,"seq":13}
> {"line":6,"seq":14}
> {"line":7,"seq":15}
> {"docs":4,"line":8,"seq":16}
= 0
$ ask
< {"term":["body","river"]}
< {"phrase":["body","schlossSTRASSE"]}
< {"bool":{"must":[{"term":["label:friends","yes"]}],"not":[{"term":["from","zoe@example.org"]}]}}
> {"commit":16,"hits":[{"key":"lunch-1@example.org","num":{"date":20240301,"read":1}},{"key":"boat-1@example.org","num":{"date":20240304,"read":0}}],"line":1}
> {"commit":16,"hits":[{"key":"lunch-2@example.org","num":{"date":20240301,"read":0}}],"line":2}
> {"commit":16,"hits":[{"key":"lunch-2@example.org","num":{"date":20240301,"read":0}}],"line":3}
= 0
"#;

/// A catalogue is brought from its earlier to its later state. Then its prices are cut.
const CATALOGUE: &str = r#"# What `from_catalogue.py` makes of `catalogue.csv`.
$ run --threads 1
< {"c": 0, "op": "add", "doc": {"key": "p-01", "text": {"title": "Sheets A4", "description": "500 sheets, white, 80 g"}, "exact": {"category": "sheets"}, "num": {"price": 490, "stock": 120}}}
< {"c": 0, "op": "add", "doc": {"key": "p-02", "text": {"title": "Sheets A4 recycled", "description": "500 sheets, grey, 80 g, from old sheets"}, "exact": {"category": "sheets"}, "num": {"price": 420, "stock": 80}}}
< {"c": 0, "op": "add", "doc": {"key": "p-03", "text": {"title": "Drawing pad", "description": "50 sheets, 120 g"}, "exact": {"category": "sheets"}, "num": {"price": 750, "stock": 15}}}
< {"c": 0, "op": "add", "doc": {"key": "p-04", "text": {"title": "Ink black", "description": "A bottle of 30 ml, for fountain pens"}, "exact": {"category": "ink"}, "num": {"price": 680, "stock": 40}}}
< {"c": 0, "op": "add", "doc": {"key": "p-05", "text": {"title": "Ink green", "description": "A bottle of 30 ml, for fountain pens"}, "exact": {"category": "ink"}, "num": {"price": 680, "stock": 12}}}
< {"c": 0, "op": "add", "doc": {"key": "p-06", "text": {"title": "Fountain pen", "description": "Brass, with a fine nib"}, "exact": {"category": "pens"}, "num": {"price": 3900, "stock": 6}}}
< {"c": 0, "op": "add", "doc": {"key": "p-07", "text": {"title": "Ballpoint pen", "description": "Blue, can be refilled"}, "exact": {"category": "pens"}, "num": {"price": 210, "stock": 300}}}
< {"c": 0, "op": "add", "doc": {"key": "p-08", "text": {"title": "Pencil HB", "description": "Cedar wood"}, "exact": {"category": "pens"}, "num": {"price": 90, "stock": 500}}}
< {"c": 0, "op": "add", "doc": {"key": "p-09", "text": {"title": "Rubber", "description": "For pencils, white"}, "exact": {"category": "desk"}, "num": {"price": 80, "stock": 90}}}
< {"c": 0, "op": "add", "doc": {"key": "p-10", "text": {"title": "Ruler", "description": "Steel, 30 cm"}, "exact": {"category": "desk"}, "num": {"price": 540, "stock": 25}}}
< {"c": 0, "op": "add", "doc": {"key": "p-11", "text": {"title": "Stra\u00dfe und Haus", "description": "A colouring book with crayons"}, "exact": {"category": "books"}, "num": {"price": 800, "stock": 10}}}
< {"c": 0, "op": "add", "doc": {"key": "p-12", "text": {"title": "Notebook", "description": "Lined, 96 pages"}, "exact": {"category": "books"}, "num": {"price": 330, "stock": 60}}}
< {"c": 0, "op": "commit"}
> {"line":1,"seq":1}
> {"line":2,"seq":2}
> {"line":3,"seq":3}
> {"line":4,"seq":4}
> {"line":5,"seq":5}
> {"line":6,"seq":6}
> {"line":7,"seq":7}
> {"line":8,"seq":8}
> {"line":9,"seq":9}
> {"line":10,"seq":10}
> {"line":11,"seq":11}
> {"line":12,"seq":12}
> {"docs":12,"line":13,"seq":13}
= 0
  What it makes of `catalogue-later.csv`, where `catalogue.csv` was before. Both commits can be asked.
$ run --threads 1
< {"c": 0, "op": "set", "field": "key", "term": "p-01", "num": "price", "value": 520}
< {"c": 0, "op": "set", "field": "key", "term": "p-01", "num": "stock", "value": 95}
< {"c": 0, "op": "update", "field": "key", "term": "p-03", "doc": {"key": "p-03", "text": {"title": "Drawing pad", "description": "50 sheets, 150 g, rough"}, "exact": {"category": "sheets"}, "num": {"price": 820, "stock": 30}}}
< {"c": 0, "op": "set", "field": "key", "term": "p-04", "num": "stock", "value": 38}
< {"c": 0, "op": "set", "field": "key", "term": "p-06", "num": "stock", "value": 5}
< {"c": 0, "op": "set", "field": "key", "term": "p-08", "num": "stock", "value": 440}
< {"c": 0, "op": "add", "doc": {"key": "p-13", "text": {"title": "Ink blue", "description": "A bottle of 30 ml, for fountain pens"}, "exact": {"category": "ink"}, "num": {"price": 680, "stock": 24}}}
< {"c": 0, "op": "delete", "field": "key", "term": "p-05"}
< {"c": 0, "op": "commit"}
> {"line":1,"seq":14}
> {"line":2,"seq":15}
> {"line":3,"seq":16}
> {"line":4,"seq":17}
> {"line":5,"seq":18}
> {"line":6,"seq":19}
> {"line":7,"seq":20}
> {"line":8,"seq":21}
> {"docs":12,"line":9,"seq":22}
= 0
$ ask
< {"term":["description","pens"]}
> {"commit":22,"hits":[{"key":"p-04","num":{"price":680,"stock":38}},{"key":"p-13","num":{"price":680,"stock":24}}],"line":1}
= 0
$ ask --commit 13
< {"term":["description","pens"]}
> {"commit":13,"hits":[{"key":"p-04","num":{"price":680,"stock":40}},{"key":"p-05","num":{"price":680,"stock":12}}],"line":1}
= 0
  What `from_catalogue.py --cut 50 --least 85` makes of the later catalogue: two of the twelve cost too little then,
  and two less than twice as much.
$ run --threads 1
< {"c": 0, "op": "set", "field": "key", "term": "p-01", "num": "price", "value": 260}
< {"c": 0, "op": "set", "field": "key", "term": "p-02", "num": "price", "value": 210}
< {"c": 0, "op": "set", "field": "key", "term": "p-03", "num": "price", "value": 410}
< {"c": 0, "op": "set", "field": "key", "term": "p-04", "num": "price", "value": 340}
< {"c": 0, "op": "set", "field": "key", "term": "p-06", "num": "price", "value": 1950}
< {"c": 0, "op": "set", "field": "key", "term": "p-07", "num": "price", "value": 105}
< {"c": 0, "op": "set", "field": "key", "term": "p-08", "num": "price", "value": 45}
< {"c": 0, "op": "set", "field": "key", "term": "p-09", "num": "price", "value": 40}
< {"c": 0, "op": "set", "field": "key", "term": "p-10", "num": "price", "value": 270}
< {"c": 0, "op": "set", "field": "key", "term": "p-11", "num": "price", "value": 400}
< {"c": 0, "op": "set", "field": "key", "term": "p-12", "num": "price", "value": 165}
< {"c": 0, "op": "set", "field": "key", "term": "p-13", "num": "price", "value": 340}
< {"c": 0, "op": "delete_query", "query": {"range": ["price", 0, 84]}}
< {"c": 0, "op": "commit"}
< {"c": 0, "op": "search", "query": {"range": ["price", 85, 170]}}
> {"line":1,"seq":23}
> {"line":2,"seq":24}
> {"line":3,"seq":25}
> {"line":4,"seq":26}
> {"line":5,"seq":27}
> {"line":6,"seq":28}
> {"line":7,"seq":29}
> {"line":8,"seq":30}
> {"line":9,"seq":31}
> {"line":10,"seq":32}
> {"line":11,"seq":33}
> {"line":12,"seq":34}
> {"line":13,"seq":35}
> {"docs":10,"line":14,"seq":36}
> {"commit":36,"hits":[{"key":"p-07","num":{"price":105,"stock":300}},{"key":"p-12","num":{"price":165,"stock":60}}],"line":15}
= 0
"#;

/// Each example ends as its text says.
#[test]
fn examples_twice(rt: HostRuntime) -> Result<(), Fail> {
    for text in [SCRIPTS, LETTERS, CATALOGUE] {
        hold(&rt, text)?;
    }
    Ok(())
}
