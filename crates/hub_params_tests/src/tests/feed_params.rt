//! The parameters of feeds. The outcomes are worked out from the rules by hand.

use crate::tests::asked::Asked;
use hub_transcript::replay;
use std::test::Fail;

const FEEDS: &str = r#"
# parameters together
> read since=3&limit=0&style=all_docs&x=1
since: Plain(3)
limit: Some(1)
style: AllDocs
> read feed=continuous&since=now&limit=25&descending=false&style=all_docs&include_docs=true&filter=_design&heartbeat=1000&timeout=10
FeedParams { mode: Continuous
since: Now
limit: Some(25)
style: AllDocs
include_docs: true
filter: Design
heartbeat: Some(1000)
timeout: 10 }
> whole feed=continuous&since=now&limit=25&descending=false&style=all_docs&include_docs=true&filter=_design&heartbeat=1000&timeout=10
FeedParams { mode: Continuous, since: Now, limit: Some(25), descending: false, style: AllDocs, include_docs: true, filter: Design, heartbeat: Some(1000), timeout: 10 }
> body not read
> read timeout=10&heartbeat=1000&filter=_design&include_docs=true&style=all_docs&descending=false&limit=25&since=now&feed=continuous
FeedParams { mode: Continuous
since: Now
limit: Some(25)
style: AllDocs
include_docs: true
filter: Design
heartbeat: Some(1000)
timeout: 10 }

# limits
> read limit=0
limit: Some(1)
> read limit=000
limit: Some(1)
> read limit=1
limit: Some(1)
> read limit=2
limit: Some(2)
> read limit=007
limit: Some(7)
> read limit=18446744073709551615
limit: Some(18446744073709551615)
> read limit=x&limit=4
limit: Some(4)
> read Limit=4
> read limit=
bad limit
> read limit=x
bad limit
> read limit=-1
bad limit
> read limit=%2B1
bad limit
> read limit=now
bad limit
> read limit=18446744073709551616
bad limit
> read limit=4&limit=x
bad limit

# styles
> read style=main_only
> read style=all_docs
style: AllDocs
> read style=all%5Fdocs
style: AllDocs
> read style=all_docs&style=main_only
> read style=
bad style
> read style=all
bad style
> read style=All_docs
bad style
> read style=all_docs+
bad style
> read style=true
bad style

# modes
> read feed=normal
> read feed=longpoll
FeedParams { mode: Longpoll
> read feed=continuous
FeedParams { mode: Continuous
> read feed=continuous&feed=longpoll
FeedParams { mode: Longpoll
> read feed=
bad feed
> read feed=eventsource
bad feed
> read feed=Normal
bad feed
> read feed=long+poll
bad feed

# heartbeats and timeouts
> read heartbeat=1
heartbeat: Some(1)
> read heartbeat=0001
heartbeat: Some(1)
> read heartbeat=60001
heartbeat: Some(60001)
> read heartbeat=18446744073709551615
heartbeat: Some(18446744073709551615)
> read heartbeat=true
heartbeat: Some(60000)
> read heartbeat=false
> read heartbeat=5&heartbeat=false
> read heartbeat=0&heartbeat=5
heartbeat: Some(5)
> read timeout=0
timeout: 0 }
> read timeout=1
timeout: 1 }
> read timeout=0059999
timeout: 59999 }
> read timeout=60000
> read timeout=60001
> read timeout=18446744073709551615
> read timeout=5&timeout=6
timeout: 6 }

# bad heartbeats and timeouts
> read heartbeat=
bad heartbeat
> read heartbeat=0
bad heartbeat
> read heartbeat=000
bad heartbeat
> read heartbeat=-1
bad heartbeat
> read heartbeat=True
bad heartbeat
> read heartbeat=18446744073709551616
bad heartbeat
> read timeout=
bad heartbeat
> read timeout=true
bad heartbeat
> read timeout=false
bad heartbeat
> read timeout=-1
bad heartbeat
> read timeout=18446744073709551616
bad heartbeat
> read heartbeat=1&timeout=x
bad heartbeat
> read heartbeat=x&timeout=1
bad heartbeat

# flags
> read descending=true
descending: true
> read descending=false
> read descending=tru%65&feed=normal
descending: true
> read descending=true&descending=false
> read include_docs=true
include_docs: true
> read include_docs=false
> read descending=true&include_docs=true
descending: true
include_docs: true
> read include_docs=x&include_docs=true
include_docs: true
> read descending=
bad flag
> read descending=1
bad flag
> read descending=True
bad flag
> read descending=x&feed=longpoll
bad flag
> read include_docs=
bad flag
> read include_docs=yes
bad flag
> read include_docs
bad flag
> read descending=false&include_docs=x&feed=continuous
bad flag

# descending feeds that last
> read descending=true&feed=longpoll
descending needs feed=normal
> read descending=true&feed=continuous
descending needs feed=normal
> read descending=true&include_docs=x&feed=longpoll
descending needs feed=normal
> read descending=x&descending=true&feed=continuous
descending needs feed=normal

# filters without ids
> read filter=_design
filter: Design
> shows filter=_design
_design/a
> body not read
> read filter=_design
filter: Design
> shows filter=_design
_design/a
> body
> read filter=_design&doc_ids=x
filter: Design
> shows filter=_design&doc_ids=x
_design/a
> read doc_ids=x
> shows doc_ids=x

a
b
c
A
é
a b
_design/a
_design
> body not read
> read
> shows

a
b
c
A
é
a b
_design/a
_design

# bad filters
> read filter=
bad filter
> read filter=_view
bad filter
> read filter=_doc_id
bad filter
> read filter=app/important
bad filter
> read filter=_design/
bad filter

# ids in the query
> read filter=_doc_ids&doc_ids=[]
filter: DocIds(DocIds { sorted: [] })
> shows filter=_doc_ids&doc_ids=[]
> read filter=_doc_ids&doc_ids=["a"]
filter: DocIds(DocIds { sorted: ["a"] })
> shows filter=_doc_ids&doc_ids=["a"]
a
> read filter=_doc_ids&doc_ids=%5B%22b%22,+%22a%22%5D
filter: DocIds(DocIds { sorted: ["a"
"b"] })
> shows filter=_doc_ids&doc_ids=%5B%22b%22,+%22a%22%5D
a
b
> read filter=_doc_ids&doc_ids=["c","a","c","_design/a"]
filter: DocIds(DocIds { sorted: ["_design/a"
"a"
"c"
"c"] })
> shows filter=_doc_ids&doc_ids=["c","a","c","_design/a"]
a
c
_design/a
> read filter=_doc_ids&doc_ids=["%C3%A9",""]
filter: DocIds(DocIds { sorted: [""
"é"] })
> shows filter=_doc_ids&doc_ids=["%C3%A9",""]

é
> read filter=_doc_ids&doc_ids=["a+b"]
filter: DocIds(DocIds { sorted: ["a b"] })
> shows filter=_doc_ids&doc_ids=["a+b"]
a b
> read doc_ids=["a"]&filter=_doc_ids&doc_ids=["b"]
filter: DocIds(DocIds { sorted: ["b"] })
> shows doc_ids=["a"]&filter=_doc_ids&doc_ids=["b"]
b
> read filter=x&filter=_doc_ids&doc_ids=["c"]
filter: DocIds(DocIds { sorted: ["c"] })
> shows filter=x&filter=_doc_ids&doc_ids=["c"]
c

# ids in the body
> body {"doc_ids":["a","b"]}
> read filter=_doc_ids
filter: DocIds(DocIds { sorted: ["a"
"b"] })
> shows filter=_doc_ids
a
b
> body {"x":1,"doc_ids":[]}
> read filter=_doc_ids
filter: DocIds(DocIds { sorted: [] })
> shows filter=_doc_ids
> body {"doc_ids":["a"]}
> read filter=_doc_ids&doc_ids=["c"]
filter: DocIds(DocIds { sorted: ["a"] })
> shows filter=_doc_ids&doc_ids=["c"]
a
> read filter=_doc_ids&doc_ids=x
filter: DocIds(DocIds { sorted: ["a"] })
> shows filter=_doc_ids&doc_ids=x
a
> body {}
> read filter=_doc_ids&doc_ids=["c"]
filter: DocIds(DocIds { sorted: ["c"] })
> shows filter=_doc_ids&doc_ids=["c"]
c
> body  {"ids":["a"]}
> byte 32
> read filter=_doc_ids&doc_ids=["c"]
filter: DocIds(DocIds { sorted: ["c"] })
> shows filter=_doc_ids&doc_ids=["c"]
c

# bad ids in the query
> read filter=_doc_ids
bad doc_ids
> read filter=_doc_ids&doc_ids=
bad doc_ids
> read filter=_doc_ids&doc_ids=a
bad doc_ids
> read filter=_doc_ids&doc_ids="a"
bad doc_ids
> read filter=_doc_ids&doc_ids={}
bad doc_ids
> read filter=_doc_ids&doc_ids=[1]
bad doc_ids
> read filter=_doc_ids&doc_ids=["a",null]
bad doc_ids
> read filter=_doc_ids&doc_ids=["a"
bad doc_ids

# bad ids in the body
> body {}
> read filter=_doc_ids
bad doc_ids
> body {"ids":["a"]}
> read filter=_doc_ids
bad doc_ids
> body {}
> read filter=_doc_ids&doc_ids=x
bad doc_ids
> body x
> read filter=_doc_ids&doc_ids=["a"]
bad doc_ids
> body
> byte 32
> read filter=_doc_ids&doc_ids=["a"]
bad doc_ids
> body ["a"]
> read filter=_doc_ids&doc_ids=["a"]
bad doc_ids
> body null
> read filter=_doc_ids&doc_ids=["a"]
bad doc_ids
> body {"doc_ids":"a"}
> read filter=_doc_ids&doc_ids=["a"]
bad doc_ids
> body {"doc_ids":null}
> read filter=_doc_ids&doc_ids=["a"]
bad doc_ids
> body {"doc_ids":["a",1]}
> read filter=_doc_ids&doc_ids=["a"]
bad doc_ids
> body {"doc_ids":[["a"]]}
> read filter=_doc_ids&doc_ids=["a"]
bad doc_ids

# a body that is no text
> byte 255
> read filter=_doc_ids&doc_ids=["a"]
bad doc_ids

# the first fault is answered, wherever its parameter stands
> read since=x
bad since
> read limit=x&since=x
bad since
> read style=x&since=x
bad since
> read feed=x&since=x
bad since
> read filter=x&since=x
bad since
> read filter=_doc_ids&since=x
bad since
> read heartbeat=x&since=x
bad since
> read timeout=x&since=x
bad since
> read feed=longpoll&descending=true&since=x
bad since
> read include_docs=x&since=x
bad since
> read limit=x
bad limit
> read style=x&limit=x
bad limit
> read feed=x&limit=x
bad limit
> read filter=x&limit=x
bad limit
> read filter=_doc_ids&limit=x
bad limit
> read heartbeat=x&limit=x
bad limit
> read timeout=x&limit=x
bad limit
> read feed=longpoll&descending=true&limit=x
bad limit
> read include_docs=x&limit=x
bad limit
> read style=x
bad style
> read feed=x&style=x
bad style
> read filter=x&style=x
bad style
> read filter=_doc_ids&style=x
bad style
> read heartbeat=x&style=x
bad style
> read timeout=x&style=x
bad style
> read feed=longpoll&descending=true&style=x
bad style
> read include_docs=x&style=x
bad style
> read feed=x
bad feed
> read filter=x&feed=x
bad feed
> read filter=_doc_ids&feed=x
bad feed
> read heartbeat=x&feed=x
bad feed
> read timeout=x&feed=x
bad feed
> read include_docs=x&feed=x
bad feed
> read filter=x
bad filter
> read heartbeat=x&filter=x
bad filter
> read timeout=x&filter=x
bad filter
> read feed=longpoll&descending=true&filter=x
bad filter
> read include_docs=x&filter=x
bad filter
> read filter=_doc_ids
bad doc_ids
> read heartbeat=x&filter=_doc_ids
bad doc_ids
> read timeout=x&filter=_doc_ids
bad doc_ids
> read feed=longpoll&descending=true&filter=_doc_ids
bad doc_ids
> read include_docs=x&filter=_doc_ids
bad doc_ids
> read heartbeat=x
bad heartbeat
> read timeout=x&heartbeat=x
bad heartbeat
> read feed=longpoll&descending=true&heartbeat=x
bad heartbeat
> read include_docs=x&heartbeat=x
bad heartbeat
> read timeout=x
bad heartbeat
> read feed=longpoll&descending=true&timeout=x
bad heartbeat
> read include_docs=x&timeout=x
bad heartbeat
> read feed=longpoll&descending=true
descending needs feed=normal
> read include_docs=x&feed=longpoll&descending=true
descending needs feed=normal
> read include_docs=x
bad flag
"#;

#[test]
fn parameters_of_feeds(rt: HostRuntime) -> Result<(), Fail> {
    replay::<Asked, _>(&rt, rt.alloc(), FEEDS)
}
