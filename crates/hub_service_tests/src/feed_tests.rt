//! The hub over bytes: feeds of changes, one at a time.

/// The rows of feeds: from which sequence on, of which documents, in which order, and their contents.
pub(crate) const FEEDS: &str = r#"
# a feed begins above `since`, which counts as 0 where it is of another life, and never above the update sequence
> allow one feed
> PUT /d
HTTP/1.1 201 Created, JSON of 12:
{"ok":true}\n
> GET /d/_changes
HTTP/1.1 200 OK, JSON in chunks:
d
{"results":[\n
22
\n],\n"last_seq":"0-1","pending":0}\n
last chunk
> POST /d/_bulk_docs {"docs":[{"_id":"a","_rev":"1-a"},{"_id":"b","_rev":"1-b"},{"_id":"a","_revisions":{"start":2,"ids":["c","a"]}}],"new_edits":false}
HTTP/1.1 201 Created, JSON of 3:
[]\n
> GET /d/_changes -
HTTP/1.1 200 OK, JSON in chunks:
d
{"results":[\n
30
{"seq":"2-1","id":"b","changes":[{"rev":"1-b"}]}
32
,\n{"seq":"3-1","id":"a","changes":[{"rev":"2-c"}]}
22
\n],\n"last_seq":"3-1","pending":0}\n
last chunk
> GET /d/_changes?since=2 -
HTTP/1.1 200 OK, JSON in chunks:
d
{"results":[\n
30
{"seq":"3-1","id":"a","changes":[{"rev":"2-c"}]}
22
\n],\n"last_seq":"3-1","pending":0}\n
last chunk
> GET /d/_changes?since=2-1 -
HTTP/1.1 200 OK, JSON in chunks:
d
{"results":[\n
30
{"seq":"3-1","id":"a","changes":[{"rev":"2-c"}]}
22
\n],\n"last_seq":"3-1","pending":0}\n
last chunk
> GET /d/_changes?since="2-1"
HTTP/1.1 200 OK, JSON in chunks:
d
{"results":[\n
30
{"seq":"3-1","id":"a","changes":[{"rev":"2-c"}]}
22
\n],\n"last_seq":"3-1","pending":0}\n
last chunk
> GET /d/_changes?since=%222-1%22 -
HTTP/1.1 200 OK, JSON in chunks:
d
{"results":[\n
30
{"seq":"3-1","id":"a","changes":[{"rev":"2-c"}]}
22
\n],\n"last_seq":"3-1","pending":0}\n
last chunk
> GET /d/_changes?since=2-7 -
HTTP/1.1 200 OK, JSON in chunks:
d
{"results":[\n
30
{"seq":"2-1","id":"b","changes":[{"rev":"1-b"}]}
32
,\n{"seq":"3-1","id":"a","changes":[{"rev":"2-c"}]}
22
\n],\n"last_seq":"3-1","pending":0}\n
last chunk
> GET /d/_changes?since=3 -
HTTP/1.1 200 OK, JSON in chunks:
d
{"results":[\n
22
\n],\n"last_seq":"3-1","pending":0}\n
last chunk
> GET /d/_changes?since=99 -
HTTP/1.1 200 OK, JSON in chunks:
d
{"results":[\n
22
\n],\n"last_seq":"3-1","pending":0}\n
last chunk
> GET /d/_changes?since=now -
HTTP/1.1 200 OK, JSON in chunks:
d
{"results":[\n
22
\n],\n"last_seq":"3-1","pending":0}\n
last chunk
> POST /d/_changes?since=1 {}
HTTP/1.1 200 OK, JSON in chunks:
d
{"results":[\n
30
{"seq":"2-1","id":"b","changes":[{"rev":"1-b"}]}
32
,\n{"seq":"3-1","id":"a","changes":[{"rev":"2-c"}]}
22
\n],\n"last_seq":"3-1","pending":0}\n
last chunk
> GET /d
HTTP/1.1 200 OK, JSON of 93:
{"db_name":"d","doc_count":2,"doc_del_count":0,"update_seq":"3-1","instance_start_time":"0"}\n
# a row lists the winner, or every leaf, best first
> allow one feed
> PUT /d
HTTP/1.1 201 Created, JSON of 12:
{"ok":true}\n
> POST /d/_bulk_docs {"docs":[{"_id":"x","_deleted":true,"_revisions":{"start":2,"ids":["b","q"]}},{"_id":"x","_revisions":{"start":2,"ids":["a","q"]}},{"_id":"x","_rev":"1-z"}],"new_edits":false}
HTTP/1.1 201 Created, JSON of 3:
[]\n
> GET /d/_changes?style=main_only -
HTTP/1.1 200 OK, JSON in chunks:
d
{"results":[\n
30
{"seq":"3-1","id":"x","changes":[{"rev":"2-a"}]}
22
\n],\n"last_seq":"3-1","pending":0}\n
last chunk
> GET /d/_changes?style=all_docs -
HTTP/1.1 200 OK, JSON in chunks:
d
{"results":[\n
4c
{"seq":"3-1","id":"x","changes":[{"rev":"2-a"},{"rev":"1-z"},{"rev":"2-b"}]}
22
\n],\n"last_seq":"3-1","pending":0}\n
last chunk
> GET /d/_changes?style=all_docs&descending=true -
HTTP/1.1 200 OK, JSON in chunks:
d
{"results":[\n
4c
{"seq":"3-1","id":"x","changes":[{"rev":"2-a"},{"rev":"1-z"},{"rev":"2-b"}]}
22
\n],\n"last_seq":"3-1","pending":0}\n
last chunk
# the limit counts the rows that pass the filter, 0 acts as 1, and the rows above the last one that is shown are pending
> allow one feed
> PUT /d
HTTP/1.1 201 Created, JSON of 12:
{"ok":true}\n
> POST /d/_bulk_docs {"docs":[{"_id":"a","_rev":"1-a"},{"_id":"b","_rev":"1-b"},{"_id":"c","_rev":"1-c"},{"_id":"_design/v","_rev":"1-v"}],"new_edits":false}
HTTP/1.1 201 Created, JSON of 3:
[]\n
> GET /d/_changes?filter=_doc_ids&doc_ids=%5B%22c%22,%22b%22%5D&limit=1 -
HTTP/1.1 200 OK, JSON in chunks:
d
{"results":[\n
30
{"seq":"2-1","id":"b","changes":[{"rev":"1-b"}]}
22
\n],\n"last_seq":"2-1","pending":2}\n
last chunk
> GET /d/_changes?filter=_doc_ids&doc_ids=%5B%22c%22,%22b%22%5D&limit=0 -
HTTP/1.1 200 OK, JSON in chunks:
d
{"results":[\n
30
{"seq":"2-1","id":"b","changes":[{"rev":"1-b"}]}
22
\n],\n"last_seq":"2-1","pending":2}\n
last chunk
> POST /d/_changes?filter=_doc_ids&limit=1 {"doc_ids":["c","b"]}
HTTP/1.1 200 OK, JSON in chunks:
d
{"results":[\n
30
{"seq":"2-1","id":"b","changes":[{"rev":"1-b"}]}
22
\n],\n"last_seq":"2-1","pending":2}\n
last chunk
> POST /d/_changes?filter=_doc_ids {"doc_ids":["c","b","c"]}
HTTP/1.1 200 OK, JSON in chunks:
d
{"results":[\n
30
{"seq":"2-1","id":"b","changes":[{"rev":"1-b"}]}
32
,\n{"seq":"3-1","id":"c","changes":[{"rev":"1-c"}]}
22
\n],\n"last_seq":"4-1","pending":0}\n
last chunk
> GET /d/_changes?filter=_design -
HTTP/1.1 200 OK, JSON in chunks:
d
{"results":[\n
38
{"seq":"4-1","id":"_design/v","changes":[{"rev":"1-v"}]}
22
\n],\n"last_seq":"4-1","pending":0}\n
last chunk
> GET /d/_changes?limit=2 -
HTTP/1.1 200 OK, JSON in chunks:
d
{"results":[\n
30
{"seq":"1-1","id":"a","changes":[{"rev":"1-a"}]}
32
,\n{"seq":"2-1","id":"b","changes":[{"rev":"1-b"}]}
22
\n],\n"last_seq":"2-1","pending":2}\n
last chunk
> GET /d/_changes?limit=0&since=0&style=all_docs&x=1 -
HTTP/1.1 200 OK, JSON in chunks:
d
{"results":[\n
30
{"seq":"1-1","id":"a","changes":[{"rev":"1-a"}]}
22
\n],\n"last_seq":"1-1","pending":3}\n
last chunk
> GET /d/_changes?limit=5 -
HTTP/1.1 200 OK, JSON in chunks:
d
{"results":[\n
30
{"seq":"1-1","id":"a","changes":[{"rev":"1-a"}]}
32
,\n{"seq":"2-1","id":"b","changes":[{"rev":"1-b"}]}
32
,\n{"seq":"3-1","id":"c","changes":[{"rev":"1-c"}]}
3a
,\n{"seq":"4-1","id":"_design/v","changes":[{"rev":"1-v"}]}
22
\n],\n"last_seq":"4-1","pending":0}\n
last chunk
> GET /d/_changes?filter=_design&descending=true -
HTTP/1.1 200 OK, JSON in chunks:
d
{"results":[\n
38
{"seq":"4-1","id":"_design/v","changes":[{"rev":"1-v"}]}
22
\n],\n"last_seq":"4-1","pending":3}\n
last chunk
# a feed that goes downwards shows the newest first, and ends at the lowest row shown
> allow one feed
> PUT /d
HTTP/1.1 201 Created, JSON of 12:
{"ok":true}\n
> POST /d/_bulk_docs {"docs":[{"_id":"a","_rev":"1-a"},{"_id":"b","_rev":"1-b"},{"_id":"c","_rev":"1-c"},{"_id":"a","_revisions":{"start":2,"ids":["d","a"]}},{"_id":"a","_revisions":{"start":3,"ids":["e","d","a"]}}],"new_edits":false}
HTTP/1.1 201 Created, JSON of 3:
[]\n
> GET /d/_changes?descending=true&since=2 -
HTTP/1.1 200 OK, JSON in chunks:
d
{"results":[\n
30
{"seq":"5-1","id":"a","changes":[{"rev":"3-e"}]}
32
,\n{"seq":"3-1","id":"c","changes":[{"rev":"1-c"}]}
22
\n],\n"last_seq":"3-1","pending":0}\n
last chunk
> GET /d/_changes?descending=true -
HTTP/1.1 200 OK, JSON in chunks:
d
{"results":[\n
30
{"seq":"5-1","id":"a","changes":[{"rev":"3-e"}]}
32
,\n{"seq":"3-1","id":"c","changes":[{"rev":"1-c"}]}
32
,\n{"seq":"2-1","id":"b","changes":[{"rev":"1-b"}]}
22
\n],\n"last_seq":"2-1","pending":0}\n
last chunk
> GET /d/_changes?descending=true&limit=1 -
HTTP/1.1 200 OK, JSON in chunks:
d
{"results":[\n
30
{"seq":"5-1","id":"a","changes":[{"rev":"3-e"}]}
22
\n],\n"last_seq":"5-1","pending":2}\n
last chunk
> GET /d/_changes?descending=true&since=9 -
HTTP/1.1 200 OK, JSON in chunks:
d
{"results":[\n
22
\n],\n"last_seq":"5-1","pending":0}\n
last chunk
> GET /d/_changes?descending=false&limit=1 -
HTTP/1.1 200 OK, JSON in chunks:
d
{"results":[\n
30
{"seq":"2-1","id":"b","changes":[{"rev":"1-b"}]}
22
\n],\n"last_seq":"2-1","pending":2}\n
last chunk
# with `include_docs` a row brings the winner's document, also a deleted one's
> allow one feed
> PUT /d
HTTP/1.1 201 Created, JSON of 12:
{"ok":true}\n
> POST /d/_bulk_docs {"docs":[{"_id":"a","_rev":"1-a","v":7,"k":[true]},{"_id":"b","_rev":"1-b","_deleted":true}],"new_edits":false}
HTTP/1.1 201 Created, JSON of 3:
[]\n
> GET /d/_changes?include_docs=true -
HTTP/1.1 200 OK, JSON in chunks:
d
{"results":[\n
60
{"seq":"1-1","id":"a","changes":[{"rev":"1-a"}],"doc":{"_id":"a","_rev":"1-a","k":[true],"v":7}}
70
,\n{"seq":"2-1","id":"b","changes":[{"rev":"1-b"}],"deleted":true,"doc":{"_id":"b","_rev":"1-b","_deleted":true}}
22
\n],\n"last_seq":"2-1","pending":0}\n
last chunk
> GET /d/_changes?include_docs=false -
HTTP/1.1 200 OK, JSON in chunks:
d
{"results":[\n
30
{"seq":"1-1","id":"a","changes":[{"rev":"1-a"}]}
41
,\n{"seq":"2-1","id":"b","changes":[{"rev":"1-b"}],"deleted":true}
22
\n],\n"last_seq":"2-1","pending":0}\n
last chunk
> GET /d/_changes?include_docs=true&style=all_docs -
HTTP/1.1 200 OK, JSON in chunks:
d
{"results":[\n
60
{"seq":"1-1","id":"a","changes":[{"rev":"1-a"}],"doc":{"_id":"a","_rev":"1-a","k":[true],"v":7}}
70
,\n{"seq":"2-1","id":"b","changes":[{"rev":"1-b"}],"deleted":true,"doc":{"_id":"b","_rev":"1-b","_deleted":true}}
22
\n],\n"last_seq":"2-1","pending":0}\n
last chunk
> GET /d/_changes?include_docs=true&descending=true -
HTTP/1.1 200 OK, JSON in chunks:
d
{"results":[\n
6e
{"seq":"2-1","id":"b","changes":[{"rev":"1-b"}],"deleted":true,"doc":{"_id":"b","_rev":"1-b","_deleted":true}}
62
,\n{"seq":"1-1","id":"a","changes":[{"rev":"1-a"}],"doc":{"_id":"a","_rev":"1-a","k":[true],"v":7}}
22
\n],\n"last_seq":"1-1","pending":0}\n
last chunk
# HEAD is no method of a feed, and holds none open: with one feed at a time the next is shown
> allow one feed
> PUT /d
HTTP/1.1 201 Created, JSON of 12:
{"ok":true}\n
> POST /d/_bulk_docs {"docs":[],"new_edits":false}
HTTP/1.1 201 Created, JSON of 3:
[]\n
> HEAD /d/_changes -
HTTP/1.1 405 Method Not Allowed, JSON of 61:
> HEAD /d/_changes?descending=true -
HTTP/1.1 405 Method Not Allowed, JSON of 61:
> HEAD /d/_changes -
HTTP/1.1 405 Method Not Allowed, JSON of 61:
> GET /d/_changes -
HTTP/1.1 200 OK, JSON in chunks:
d
{"results":[\n
22
\n],\n"last_seq":"0-1","pending":0}\n
last chunk
"#;

/// A feed is not held open wherever its writing breaks: with one feed at a time, the next feed is shown.
pub(crate) const BROKEN: &str = r#"
# wherever the writing of a feed breaks, it is not held open: with one feed at a time the next is shown
> allow one feed
> PUT /d
HTTP/1.1 201 Created, JSON of 12:
{"ok":true}\n
> tear GET /d/_changes
HTTP/1.1 200 OK, JSON in chunks:
d
{"results":[\n
22
\n],\n"last_seq":"0-1","pending":0}\n
last chunk
"#;
