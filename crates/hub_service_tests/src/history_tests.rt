//! Histories that end above the first generation, over bytes.

/// A revision alone, its parent that comes later, and the last generation alone.
pub(crate) const HISTORIES: &str = r#"
# a revision alone, the same with a parent, an edit on both, one that contradicts it, and bad histories
> PUT /d
HTTP/1.1 201 Created, JSON of 12:
{"ok":true}\n
> POST /d/_bulk_docs {"docs":[{"_id":"a","_rev":"5-e"}],"new_edits":false}
HTTP/1.1 201 Created, JSON of 3:
[]\n
> GET /d/a?open_revs=all&revs=true
HTTP/1.1 200 OK, JSON of 71:
[{"ok":{"_id":"a","_rev":"5-e","_revisions":{"start":5,"ids":["e"]}}}]\n
> POST /d/_bulk_docs {"docs":[{"_id":"a","_revisions":{"start":5,"ids":["e","d"]}}],"new_edits":false}
HTTP/1.1 201 Created, JSON of 3:
[]\n
> GET /d
HTTP/1.1 200 OK, JSON of 93:
{"db_name":"d","doc_count":1,"doc_del_count":0,"update_seq":"1-1","instance_start_time":"0"}\n
> GET /d/a?open_revs=all&revs=true
HTTP/1.1 200 OK, JSON of 71:
[{"ok":{"_id":"a","_rev":"5-e","_revisions":{"start":5,"ids":["e"]}}}]\n
> POST /d/_bulk_docs {"docs":[{"_id":"a","_revisions":{"start":6,"ids":["f","e","d"]}}],"new_edits":false}
HTTP/1.1 201 Created, JSON of 3:
[]\n
> GET /d/a?open_revs=all&revs=true
HTTP/1.1 200 OK, JSON of 79:
[{"ok":{"_id":"a","_rev":"6-f","_revisions":{"start":6,"ids":["f","e","d"]}}}]\n
> POST /d/_bulk_docs {"docs":[{"_id":"a","_revisions":{"start":6,"ids":["h","e","q"]}},{"_id":"b","_revisions":{"start":2,"ids":["a","b","c"]}},{"_id":"c","_revisions":{"start":2,"ids":[]}}],"new_edits":false}
HTTP/1.1 201 Created, JSON of 186:
[{"id":"a","error":"bad_request","reason":"contradicting history"},{"id":"b","error":"bad_request","reason":"bad _revisions"},{"id":"c","error":"bad_request","reason":"bad _revisions"}]\n
> GET /d/_changes?style=all_docs
HTTP/1.1 200 OK, JSON in chunks:
d
{"results":[\n
30
{"seq":"2-1","id":"a","changes":[{"rev":"6-f"}]}
22
\n],\n"last_seq":"2-1","pending":0}\n
last chunk
# a revision of the last generation may come alone, and is not extended
> PUT /d
HTTP/1.1 201 Created, JSON of 12:
{"ok":true}\n
> POST /d/_bulk_docs {"docs":[{"_id":"a","_rev":"65535-a"}],"new_edits":false}
HTTP/1.1 201 Created, JSON of 3:
[]\n
> PUT /d/a?rev=65535-a {}
HTTP/1.1 400 Bad Request, JSON of 52:
{"error":"bad_request","reason":"generation limit"}\n
> GET /d/a?revs=true
HTTP/1.1 200 OK, JSON of 70:
{"_id":"a","_rev":"65535-a","_revisions":{"start":65535,"ids":["a"]}}\n
# two revisions are both leaves until a later edit tells that one is the other's parent
> PUT /d
HTTP/1.1 201 Created, JSON of 12:
{"ok":true}\n
> POST /d/_bulk_docs {"docs":[{"_id":"x","_rev":"2-b"},{"_id":"x","_rev":"3-c"}],"new_edits":false}
HTTP/1.1 201 Created, JSON of 3:
[]\n
> POST /d/_bulk_docs {"docs":[{"_id":"x","_revisions":{"start":3,"ids":["c","b"]}}],"new_edits":false}
HTTP/1.1 201 Created, JSON of 3:
[]\n
> GET /d/_changes?style=all_docs
HTTP/1.1 200 OK, JSON in chunks:
d
{"results":[\n
3e
{"seq":"2-1","id":"x","changes":[{"rev":"3-c"},{"rev":"2-b"}]}
22
\n],\n"last_seq":"2-1","pending":0}\n
last chunk
> POST /d/_revs_diff {"x":["4-d","3-c","2-b"]}
HTTP/1.1 200 OK, JSON of 61:
{"x":{"missing":["4-d"],"possible_ancestors":["3-c","2-b"]}}\n
> POST /d/_bulk_docs {"docs":[{"_id":"x","_revisions":{"start":4,"ids":["d","c","b"]}}],"new_edits":false}
HTTP/1.1 201 Created, JSON of 3:
[]\n
> GET /d/_changes?style=all_docs
HTTP/1.1 200 OK, JSON in chunks:
d
{"results":[\n
30
{"seq":"3-1","id":"x","changes":[{"rev":"4-d"}]}
22
\n],\n"last_seq":"3-1","pending":0}\n
last chunk
> GET /d/x?open_revs=%5B%223-c%22,%222-b%22%5D&revs=true
HTTP/1.1 200 OK, JSON of 144:
[{"ok":{"_id":"x","_rev":"3-c","_revisions":{"start":3,"ids":["c","b"]}}},{"ok":{"_id":"x","_rev":"2-b","_revisions":{"start":2,"ids":["b"]}}}]\n
"#;
