//! Questions to a database over bytes: its documents, their leaves and missing revisions, rows downwards, and
//! local documents.

/// The answers of a database about documents with several leaves, and about local documents.
pub(crate) const QUESTIONS: &str = r#"
# questions about a document with two leaves and a deleted one above them, and about a deleted document
> PUT /d
HTTP/1.1 201 Created, JSON of 12:
{"ok":true}\n
> POST /d/_bulk_docs {"docs":[{"_id":"a","_rev":"1-a","v":1},{"_id":"a","_revisions":{"start":2,"ids":["c","a"]},"v":2},{"_id":"a","_deleted":true,"_revisions":{"start":3,"ids":["f","e","a"]}},{"_id":"a","_revisions":{"start":2,"ids":["d","a"]},"v":[4,"x",null]},{"_id":"b","_deleted":true,"_rev":"1-b"}],"new_edits":false}
HTTP/1.1 201 Created, JSON of 3:
[]\n
> GET /d
HTTP/1.1 200 OK, JSON of 93:
{"db_name":"d","doc_count":1,"doc_del_count":1,"update_seq":"5-1","instance_start_time":"0"}\n
> GET /d/a
HTTP/1.1 200 OK, JSON of 42:
{"_id":"a","_rev":"2-d","v":[4,"x",null]}\n
> GET /d/a?revs=true
HTTP/1.1 200 OK, JSON of 83:
{"_id":"a","_rev":"2-d","_revisions":{"start":2,"ids":["d","a"]},"v":[4,"x",null]}\n
> GET /d/b
HTTP/1.1 404 Not Found, JSON of 41:
{"error":"not_found","reason":"deleted"}\n
> GET /d/b?revs=true
HTTP/1.1 404 Not Found, JSON of 41:
{"error":"not_found","reason":"deleted"}\n
> GET /d/z?revs=true
HTTP/1.1 404 Not Found, JSON of 41:
{"error":"not_found","reason":"missing"}\n
> GET /d/a?open_revs=all
HTTP/1.1 200 OK, JSON of 137:
[{"ok":{"_id":"a","_rev":"2-d","v":[4,"x",null]}},{"ok":{"_id":"a","_rev":"2-c","v":2}},{"ok":{"_id":"a","_rev":"3-f","_deleted":true}}]\n
> GET /d/z?open_revs=all
HTTP/1.1 404 Not Found, JSON of 41:
{"error":"not_found","reason":"missing"}\n
> GET /d/a?open_revs=%5B%229-z%22,%222-e%22,%222-c%22%5D&revs=true
HTTP/1.1 200 OK, JSON of 117:
[{"missing":"9-z"},{"missing":"2-e"},{"ok":{"_id":"a","_rev":"2-c","_revisions":{"start":2,"ids":["c","a"]},"v":2}}]\n
> POST /d/_revs_diff {"a":["2-c","3-x"]}
HTTP/1.1 200 OK, JSON of 61:
{"a":{"missing":["3-x"],"possible_ancestors":["2-d","2-c"]}}\n
> POST /d/_revs_diff {"b":["1-b"]}
HTTP/1.1 200 OK, JSON of 3:
{}\n
> GET /d/_changes?descending=true
HTTP/1.1 200 OK, JSON in chunks:
d
{"results":[\n
3f
{"seq":"5-1","id":"b","changes":[{"rev":"1-b"}],"deleted":true}
32
,\n{"seq":"4-1","id":"a","changes":[{"rev":"2-d"}]}
22
\n],\n"last_seq":"4-1","pending":0}\n
last chunk
> GET /d/_changes?descending=true&limit=1
HTTP/1.1 200 OK, JSON in chunks:
d
{"results":[\n
3f
{"seq":"5-1","id":"b","changes":[{"rev":"1-b"}],"deleted":true}
22
\n],\n"last_seq":"5-1","pending":1}\n
last chunk
> GET /d/_changes?descending=true&since=4
HTTP/1.1 200 OK, JSON in chunks:
d
{"results":[\n
3f
{"seq":"5-1","id":"b","changes":[{"rev":"1-b"}],"deleted":true}
22
\n],\n"last_seq":"5-1","pending":0}\n
last chunk
> GET /d/_changes?descending=true&since=4-1
HTTP/1.1 200 OK, JSON in chunks:
d
{"results":[\n
3f
{"seq":"5-1","id":"b","changes":[{"rev":"1-b"}],"deleted":true}
22
\n],\n"last_seq":"5-1","pending":0}\n
last chunk
> GET /d/_changes?descending=true&since=4-7
HTTP/1.1 200 OK, JSON in chunks:
d
{"results":[\n
3f
{"seq":"5-1","id":"b","changes":[{"rev":"1-b"}],"deleted":true}
32
,\n{"seq":"4-1","id":"a","changes":[{"rev":"2-d"}]}
22
\n],\n"last_seq":"4-1","pending":0}\n
last chunk
> GET /d/_changes?descending=true&since=now
HTTP/1.1 200 OK, JSON in chunks:
d
{"results":[\n
22
\n],\n"last_seq":"5-1","pending":0}\n
last chunk
# local documents are counted, and are no edits
> PUT /d
HTTP/1.1 201 Created, JSON of 12:
{"ok":true}\n
> GET /d/_local/x
HTTP/1.1 404 Not Found, JSON of 41:
{"error":"not_found","reason":"missing"}\n
> PUT /d/_local/x {"v":{"w":[1,2]},"x":"y"}
HTTP/1.1 201 Created, JSON of 40:
{"ok":true,"id":"_local/x","rev":"0-1"}\n
> PUT /d/_local/x {"v":{"w":[1,2]},"x":"y"}
HTTP/1.1 201 Created, JSON of 40:
{"ok":true,"id":"_local/x","rev":"0-2"}\n
> GET /d/_local/x
HTTP/1.1 200 OK, JSON of 56:
{"_id":"_local/x","_rev":"0-2","v":{"w":[1,2]},"x":"y"}\n
> GET /d
HTTP/1.1 200 OK, JSON of 93:
{"db_name":"d","doc_count":0,"doc_del_count":0,"update_seq":"0-1","instance_start_time":"0"}\n
"#;
