//! The rows of feeds of the log of updates, and of feeds of a database that is made again.

/// The log has a row for each database and kind. Parameters about documents change nothing in its feeds.
pub(crate) const ROWS: &str = r#"
# the log has a row for each kind
> PUT /d
HTTP/1.1 201 Created, JSON of 12:
{"ok":true}\n
> POST /d/_bulk_docs {"docs":[{"_id":"a","_rev":"1-a"}],"new_edits":false}
HTTP/1.1 201 Created, JSON of 3:
[]\n
> DELETE /d
HTTP/1.1 200 OK, JSON of 12:
{"ok":true}\n
> GET /_db_updates
HTTP/1.1 200 OK, JSON in chunks:
d
{"results":[\n
2c
{"db_name":"d","type":"created","seq":"1-0"}
2e
,\n{"db_name":"d","type":"updated","seq":"2-0"}
2e
,\n{"db_name":"d","type":"deleted","seq":"3-0"}
16
\n],\n"last_seq":"3-0"}\n
last chunk
> PUT /d
HTTP/1.1 201 Created, JSON of 12:
{"ok":true}\n
> GET /_db_updates
HTTP/1.1 200 OK, JSON in chunks:
d
{"results":[\n
2c
{"db_name":"d","type":"updated","seq":"2-0"}
2e
,\n{"db_name":"d","type":"deleted","seq":"3-0"}
2e
,\n{"db_name":"d","type":"created","seq":"4-0"}
16
\n],\n"last_seq":"4-0"}\n
last chunk
# what was stored already is no edit, and is not noted
> PUT /d
HTTP/1.1 201 Created, JSON of 12:
{"ok":true}\n
> POST /d/_bulk_docs {"docs":[{"_id":"a","_rev":"1-a"}],"new_edits":false}
HTTP/1.1 201 Created, JSON of 3:
[]\n
> POST /d/_bulk_docs {"docs":[{"_id":"a","_rev":"1-a"}],"new_edits":false}
HTTP/1.1 201 Created, JSON of 3:
[]\n
> GET /_db_updates
HTTP/1.1 200 OK, JSON in chunks:
d
{"results":[\n
2c
{"db_name":"d","type":"created","seq":"1-0"}
2e
,\n{"db_name":"d","type":"updated","seq":"2-0"}
16
\n],\n"last_seq":"2-0"}\n
last chunk
# a feed of the log shows every database, and parameters that mean something only of documents change nothing
> PUT /d
HTTP/1.1 201 Created, JSON of 12:
{"ok":true}\n
> POST /d/_bulk_docs {"docs":[{"_id":"a","_rev":"1-a"}],"new_edits":false}
HTTP/1.1 201 Created, JSON of 3:
[]\n
> PUT /e
HTTP/1.1 201 Created, JSON of 12:
{"ok":true}\n
> GET /_db_updates
HTTP/1.1 200 OK, JSON in chunks:
d
{"results":[\n
2c
{"db_name":"d","type":"created","seq":"1-0"}
2e
,\n{"db_name":"d","type":"updated","seq":"2-0"}
2e
,\n{"db_name":"e","type":"created","seq":"3-0"}
16
\n],\n"last_seq":"3-0"}\n
last chunk
> GET /_db_updates?filter=_design
HTTP/1.1 200 OK, JSON in chunks:
d
{"results":[\n
2c
{"db_name":"d","type":"created","seq":"1-0"}
2e
,\n{"db_name":"d","type":"updated","seq":"2-0"}
2e
,\n{"db_name":"e","type":"created","seq":"3-0"}
16
\n],\n"last_seq":"3-0"}\n
last chunk
> GET /_db_updates?filter=_doc_ids&doc_ids=%5B%22a%22%5D
HTTP/1.1 200 OK, JSON in chunks:
d
{"results":[\n
2c
{"db_name":"d","type":"created","seq":"1-0"}
2e
,\n{"db_name":"d","type":"updated","seq":"2-0"}
2e
,\n{"db_name":"e","type":"created","seq":"3-0"}
16
\n],\n"last_seq":"3-0"}\n
last chunk
> GET /_db_updates?style=all_docs&include_docs=true&descending=true
HTTP/1.1 200 OK, JSON in chunks:
d
{"results":[\n
2c
{"db_name":"d","type":"created","seq":"1-0"}
2e
,\n{"db_name":"d","type":"updated","seq":"2-0"}
2e
,\n{"db_name":"e","type":"created","seq":"3-0"}
16
\n],\n"last_seq":"3-0"}\n
last chunk
> GET /_db_updates?since=1&limit=1
HTTP/1.1 200 OK, JSON in chunks:
d
{"results":[\n
2c
{"db_name":"d","type":"updated","seq":"2-0"}
16
\n],\n"last_seq":"2-0"}\n
last chunk
# the log is of life 0, which no database has: a since of another one is the beginning
> PUT /d
HTTP/1.1 201 Created, JSON of 12:
{"ok":true}\n
> POST /d/_bulk_docs {"docs":[{"_id":"a","_rev":"1-a"}],"new_edits":false}
HTTP/1.1 201 Created, JSON of 3:
[]\n
> GET /_db_updates
HTTP/1.1 200 OK, JSON in chunks:
d
{"results":[\n
2c
{"db_name":"d","type":"created","seq":"1-0"}
2e
,\n{"db_name":"d","type":"updated","seq":"2-0"}
16
\n],\n"last_seq":"2-0"}\n
last chunk
> GET /_db_updates?since=1-0
HTTP/1.1 200 OK, JSON in chunks:
d
{"results":[\n
2c
{"db_name":"d","type":"updated","seq":"2-0"}
16
\n],\n"last_seq":"2-0"}\n
last chunk
> GET /_db_updates?since=1-1
HTTP/1.1 200 OK, JSON in chunks:
d
{"results":[\n
2c
{"db_name":"d","type":"created","seq":"1-0"}
2e
,\n{"db_name":"d","type":"updated","seq":"2-0"}
16
\n],\n"last_seq":"2-0"}\n
last chunk
"#;

/// A sequence of an earlier life of a name is no sequence of the database that has the name now.
pub(crate) const AGAIN: &str = r#"
# a sequence of an earlier life of a name is the beginning in the database that has the name now
> PUT /d
HTTP/1.1 201 Created, JSON of 12:
{"ok":true}\n
> POST /d/_bulk_docs {"docs":[{"_id":"a","_rev":"1-a"}],"new_edits":false}
HTTP/1.1 201 Created, JSON of 3:
[]\n
> GET /d/_changes?since=1-1
HTTP/1.1 200 OK, JSON in chunks:
d
{"results":[\n
22
\n],\n"last_seq":"1-1","pending":0}\n
last chunk
> DELETE /d
HTTP/1.1 200 OK, JSON of 12:
{"ok":true}\n
> PUT /d
HTTP/1.1 201 Created, JSON of 12:
{"ok":true}\n
> POST /d/_bulk_docs {"docs":[{"_id":"a","_rev":"1-a"}],"new_edits":false}
HTTP/1.1 201 Created, JSON of 3:
[]\n
> GET /d/_changes?since=1-1
HTTP/1.1 200 OK, JSON in chunks:
d
{"results":[\n
30
{"seq":"1-2","id":"a","changes":[{"rev":"1-a"}]}
22
\n],\n"last_seq":"1-2","pending":0}\n
last chunk
> GET /d/_changes?since=1-2
HTTP/1.1 200 OK, JSON in chunks:
d
{"results":[\n
22
\n],\n"last_seq":"1-2","pending":0}\n
last chunk
> GET /d/_changes?since=1
HTTP/1.1 200 OK, JSON in chunks:
d
{"results":[\n
22
\n],\n"last_seq":"1-2","pending":0}\n
last chunk
"#;

/// Edits whose revisions are made in the hub, one at a time.
pub(crate) const EDITS: &str = r#"
# an edit is noted where it is stored, and not where it is refused
> PUT /d
HTTP/1.1 201 Created, JSON of 12:
{"ok":true}\n
> PUT /d/a {}
HTTP/1.1 201 Created, JSON of 64:
{"ok":true,"id":"a","rev":"1-dfddbf319adb018d1e5ac3465b83542c"}\n
> PUT /d/a {}
HTTP/1.1 409 Conflict, JSON of 58:
{"error":"conflict","reason":"Document update conflict."}\n
> GET /d
HTTP/1.1 200 OK, JSON of 93:
{"db_name":"d","doc_count":1,"doc_del_count":0,"update_seq":"1-1","instance_start_time":"0"}\n
> GET /_db_updates
HTTP/1.1 200 OK, JSON in chunks:
d
{"results":[\n
2c
{"db_name":"d","type":"created","seq":"1-0"}
2e
,\n{"db_name":"d","type":"updated","seq":"2-0"}
16
\n],\n"last_seq":"2-0"}\n
last chunk
# there is room for one edit, and for one note, which the making of the database takes
> allow one edit
> PUT /d
HTTP/1.1 201 Created, JSON of 12:
{"ok":true}\n
> PUT /d/a {}
HTTP/1.1 503 Service Unavailable, JSON of 51:
{"error":"sequence_full","reason":"sequence full"}\n
> GET /d
HTTP/1.1 200 OK, JSON of 93:
{"db_name":"d","doc_count":1,"doc_del_count":0,"update_seq":"1-1","instance_start_time":"0"}\n
> PUT /d/b {}
HTTP/1.1 503 Service Unavailable, JSON of 51:
{"error":"sequence_full","reason":"sequence full"}\n
> GET /d
HTTP/1.1 200 OK, JSON of 93:
{"db_name":"d","doc_count":1,"doc_del_count":0,"update_seq":"1-1","instance_start_time":"0"}\n
> PUT /d/a {}
HTTP/1.1 409 Conflict, JSON of 58:
{"error":"conflict","reason":"Document update conflict."}\n
> GET /d
HTTP/1.1 200 OK, JSON of 93:
{"db_name":"d","doc_count":1,"doc_del_count":0,"update_seq":"1-1","instance_start_time":"0"}\n
# that a database was deleted is told before anything else
> PUT /d
HTTP/1.1 201 Created, JSON of 12:
{"ok":true}\n
> PUT /d/a {}
HTTP/1.1 201 Created, JSON of 64:
{"ok":true,"id":"a","rev":"1-dfddbf319adb018d1e5ac3465b83542c"}\n
> delete d
deleted
> own PUT /d/a {}
HTTP/1.1 404 Not Found, JSON of 58:
{"error":"not_found","reason":"Database does not exist."}\n
> own PUT /d/b {}
HTTP/1.1 404 Not Found, JSON of 58:
{"error":"not_found","reason":"Database does not exist."}\n
"#;
