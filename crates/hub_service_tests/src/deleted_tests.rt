//! A database with documents that is deleted, and whose name still stands.

/// A deleted database takes nothing and shows nothing of its documents.
pub(crate) const DELETED: &str = r#"
# a deleted database takes nothing: each document of a batch is refused, and a batch of none has nothing to refuse
> PUT /d
HTTP/1.1 201 Created, JSON of 12:
{"ok":true}\n
> POST /d/_bulk_docs {"docs":[{"_id":"a","_rev":"1-a","v":1},{"_id":"b","_rev":"1-b"},{"_id":"c","_rev":"1-c"}],"new_edits":false}
HTTP/1.1 201 Created, JSON of 3:
[]\n
> GET /d
HTTP/1.1 200 OK, JSON of 93:
{"db_name":"d","doc_count":3,"doc_del_count":0,"update_seq":"3-1","instance_start_time":"0"}\n
> delete d
deleted
> own POST /d/_bulk_docs {"docs":[{"_id":"a","_rev":"1-a","v":1},{"_id":"b","_rev":"1-b"}],"new_edits":false}
HTTP/1.1 201 Created, JSON of 136:
[{"id":"a","error":"not_found","reason":"Database does not exist."},{"id":"b","error":"not_found","reason":"Database does not exist."}]\n
> own POST /d/_bulk_docs {"docs":[],"new_edits":false}
HTTP/1.1 201 Created, JSON of 3:
[]\n
> own POST /d/_bulk_docs {"docs":[{"_id":"a","_rev":"1-a","v":1},{"_id":"b","_rev":"1-b"}]}
HTTP/1.1 201 Created, JSON of 136:
[{"id":"a","error":"not_found","reason":"Database does not exist."},{"id":"b","error":"not_found","reason":"Database does not exist."}]\n
> own POST /d/_bulk_docs {"docs":[]}
HTTP/1.1 201 Created, JSON of 3:
[]\n
> own PUT /d/e {}
HTTP/1.1 404 Not Found, JSON of 58:
{"error":"not_found","reason":"Database does not exist."}\n
> own PUT /d/_local/x {}
HTTP/1.1 404 Not Found, JSON of 58:
{"error":"not_found","reason":"Database does not exist."}\n
> own GET /d/_changes
HTTP/1.1 404 Not Found, JSON of 58:
{"error":"not_found","reason":"Database does not exist."}\n
> delete d
deleted before
# a deleted database shows nothing
> PUT /d
HTTP/1.1 201 Created, JSON of 12:
{"ok":true}\n
> POST /d/_bulk_docs {"docs":[{"_id":"a","_rev":"1-a","v":1},{"_id":"b","_rev":"1-b"},{"_id":"c","_rev":"1-c"}],"new_edits":false}
HTTP/1.1 201 Created, JSON of 3:
[]\n
> GET /d
HTTP/1.1 200 OK, JSON of 93:
{"db_name":"d","doc_count":3,"doc_del_count":0,"update_seq":"3-1","instance_start_time":"0"}\n
> PUT /d/_local/x {}
HTTP/1.1 201 Created, JSON of 40:
{"ok":true,"id":"_local/x","rev":"0-1"}\n
> delete d
deleted
> own GET /d/_local/x
HTTP/1.1 404 Not Found, JSON of 58:
{"error":"not_found","reason":"Database does not exist."}\n
> own GET /d/_local/y
HTTP/1.1 404 Not Found, JSON of 58:
{"error":"not_found","reason":"Database does not exist."}\n
> own GET /d
HTTP/1.1 404 Not Found, JSON of 58:
{"error":"not_found","reason":"Database does not exist."}\n
> own GET /d/a
HTTP/1.1 404 Not Found, JSON of 58:
{"error":"not_found","reason":"Database does not exist."}\n
> own GET /d/a?open_revs=all&revs=true
HTTP/1.1 404 Not Found, JSON of 58:
{"error":"not_found","reason":"Database does not exist."}\n
> own GET /d/z
HTTP/1.1 404 Not Found, JSON of 58:
{"error":"not_found","reason":"Database does not exist."}\n
> own GET /d/z?open_revs=all&revs=true
HTTP/1.1 404 Not Found, JSON of 58:
{"error":"not_found","reason":"Database does not exist."}\n
> own GET /d/z?open_revs=["1-a"]
HTTP/1.1 404 Not Found, JSON of 58:
{"error":"not_found","reason":"Database does not exist."}\n
> own POST /d/_revs_diff {}
HTTP/1.1 404 Not Found, JSON of 58:
{"error":"not_found","reason":"Database does not exist."}\n
> own POST /d/_revs_diff {"a":["1-a","2-z"]}
HTTP/1.1 404 Not Found, JSON of 58:
{"error":"not_found","reason":"Database does not exist."}\n
> own GET /d/_changes?descending=true
HTTP/1.1 404 Not Found, JSON of 58:
{"error":"not_found","reason":"Database does not exist."}\n
> own GET /d/_changes?feed=continuous
HTTP/1.1 404 Not Found, JSON of 58:
{"error":"not_found","reason":"Database does not exist."}\n
"#;
