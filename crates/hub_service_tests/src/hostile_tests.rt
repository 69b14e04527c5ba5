//! The hub over hostile bytes: input that is cut, deep texts, bad histories, and histories that part.

/// Bodies that are refused, and a revision that is known already, whatever parent its history has.
pub(crate) const REFUSED: &str = r#"
# a body that nests too deep is refused as a whole, and each bad history by itself; nothing is stored
> PUT /d
HTTP/1.1 201 Created, JSON of 12:
{"ok":true}\n
> POST /d/_bulk_docs [[[[[[[[[[[[[[[[[[[[[[[[[[[[[[[[[[[[[[[[[[[[[[[[[[[[[[[[[[[[[[[[[[[[[[[[[[[[[[[[[[[[[[[[[[[[[[[[[[[[[[[[[[[[[[[[[[[[[[[[[[[[[[[[[[[[[[[[[[[[[[[[[[[[[[[[[[[[[[[[[[[[[[[[[[[[[[[[[[[[[[[[[[[[[[[[[[[[[[[[]]]]]]]]]]]]]]]]]]]]]]]]]]]]]]]]]]]]]]]]]]]]]]]]]]]]]]]]]]]]]]]]]]]]]]]]]]]]]]]]]]]]]]]]]]]]]]]]]]]]]]]]]]]]]]]]]]]]]]]]]]]]]]]]]]]]]]]]]]]]]]]]]]]]]]]]]]]]]]]]]]]]]]]]]]]]]]]]]]]]]]]]]]]]]]]]]]]]]]]]
HTTP/1.1 400 Bad Request, JSON of 44:
{"error":"bad_request","reason":"not JSON"}\n
> POST /d/_bulk_docs {"docs":[{"_id":"a","_revisions":{"start":65536,"ids":["a"]}},{"_id":"b","_revisions":{"start":2,"ids":["b","aaaaaaaaaaaaaaaaaaaaaaaaaaaaaaaaaaaaaaaaaaaaaaaaaaaaaaaaaaaaaaaaa"]}},{"_id":"c","_rev":"1-a","_revisions":{"start":2,"ids":["b","a"]}}],"new_edits":false}
HTTP/1.1 201 Created, JSON of 179:
[{"id":"a","error":"bad_request","reason":"bad _revisions"},{"id":"b","error":"bad_request","reason":"bad _revisions"},{"id":"c","error":"bad_request","reason":"bad _revisions"}]\n
> GET /d
HTTP/1.1 200 OK, JSON of 93:
{"db_name":"d","doc_count":0,"doc_del_count":0,"update_seq":"0-1","instance_start_time":"0"}\n
> POST /d/_bulk_docs {"docs":[{"_id":"a","_revisions":{"start":2,"ids":["y","x"]}}],"new_edits":false}
HTTP/1.1 201 Created, JSON of 3:
[]\n
> POST /d/_bulk_docs {"docs":[{"_id":"a","_revisions":{"start":2,"ids":["y","q"]}}],"new_edits":false}
HTTP/1.1 201 Created, JSON of 3:
[]\n
> GET /d
HTTP/1.1 200 OK, JSON of 93:
{"db_name":"d","doc_count":1,"doc_del_count":0,"update_seq":"1-1","instance_start_time":"0"}\n
"#;

/// Wherever the input ends, the requests before its end are answered, and nothing else.
pub(crate) const CUT_INPUT: &str = r#"
# wherever the input ends, the requests before are answered and nothing else
> cut PUT /d
0: the input ended after a request
1: the input ended in the middle of a request
> PUT /d
HTTP/1.1 201 Created, JSON of 12:
{"ok":true}\n
> cut POST /d/_bulk_docs {"docs":[{"_id":"a","_rev":"1-a"},{"_id":"b","_rev":"1-b"}],"new_edits":false}
0: the input ended after a request
1: the input ended in the middle of a request
> POST /d/_bulk_docs {"docs":[{"_id":"a","_rev":"1-a"},{"_id":"b","_rev":"1-b"}],"new_edits":false}
HTTP/1.1 201 Created, JSON of 3:
[]\n
> cut GET /d/_changes
0: the input ended after a request
1: the input ended in the middle of a request
> GET /d/_changes
HTTP/1.1 200 OK, JSON in chunks:
d
{"results":[\n
30
{"seq":"1-1","id":"a","changes":[{"rev":"1-a"}]}
32
,\n{"seq":"2-1","id":"b","changes":[{"rev":"1-b"}]}
22
\n],\n"last_seq":"2-1","pending":0}\n
last chunk
"#;
