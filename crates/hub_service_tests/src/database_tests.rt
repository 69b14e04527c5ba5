//! Calls on a database that was deleted, and whose name still stands.

/// A deleted database refuses each call, and a batch document by document. Before, it does not.
pub(crate) const DELETED: &str = r#"
# a deleted database refuses each call, and a batch document by document, while its name stands; before it refuses none so
> PUT /d
HTTP/1.1 201 Created, JSON of 12:
{"ok":true}\n
> GET /d {}
HTTP/1.1 200 OK, JSON of 93:
{"db_name":"d","doc_count":0,"doc_del_count":0,"update_seq":"0-1","instance_start_time":"0"}\n
> GET /d/_changes {}
HTTP/1.1 200 OK, JSON in chunks:
d
{"results":[\n
22
\n],\n"last_seq":"0-1","pending":0}\n
last chunk
> POST /d/_revs_diff {}
HTTP/1.1 200 OK, JSON of 3:
{}\n
> GET /d/a {}
HTTP/1.1 404 Not Found, JSON of 41:
{"error":"not_found","reason":"missing"}\n
> PUT /d/a {}
HTTP/1.1 201 Created, JSON of 64:
{"ok":true,"id":"a","rev":"1-dfddbf319adb018d1e5ac3465b83542c"}\n
> DELETE /d/a {}
HTTP/1.1 409 Conflict, JSON of 58:
{"error":"conflict","reason":"Document update conflict."}\n
> GET /d/_local/a {}
HTTP/1.1 404 Not Found, JSON of 41:
{"error":"not_found","reason":"missing"}\n
> PUT /d/_local/a {}
HTTP/1.1 201 Created, JSON of 40:
{"ok":true,"id":"_local/a","rev":"0-1"}\n
> delete d
deleted
> own GET /d {}
HTTP/1.1 404 Not Found, JSON of 58:
{"error":"not_found","reason":"Database does not exist."}\n
> own GET /d/_changes {}
HTTP/1.1 404 Not Found, JSON of 58:
{"error":"not_found","reason":"Database does not exist."}\n
> own POST /d/_revs_diff {}
HTTP/1.1 404 Not Found, JSON of 58:
{"error":"not_found","reason":"Database does not exist."}\n
> own GET /d/a {}
HTTP/1.1 404 Not Found, JSON of 58:
{"error":"not_found","reason":"Database does not exist."}\n
> own PUT /d/a {}
HTTP/1.1 404 Not Found, JSON of 58:
{"error":"not_found","reason":"Database does not exist."}\n
> own DELETE /d/a {}
HTTP/1.1 404 Not Found, JSON of 58:
{"error":"not_found","reason":"Database does not exist."}\n
> own GET /d/_local/a {}
HTTP/1.1 404 Not Found, JSON of 58:
{"error":"not_found","reason":"Database does not exist."}\n
> own PUT /d/_local/a {}
HTTP/1.1 404 Not Found, JSON of 58:
{"error":"not_found","reason":"Database does not exist."}\n
> own POST /d/_bulk_docs {"docs":[{"_id":"b"}]}
HTTP/1.1 201 Created, JSON of 69:
[{"id":"b","error":"not_found","reason":"Database does not exist."}]\n
> own GET /_all_dbs
HTTP/1.1 200 OK, JSON of 6:
["d"]\n
> delete d
deleted before
"#;
