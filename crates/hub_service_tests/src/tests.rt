//! The hub over bytes: refusals by limits, the last generation, and the closing of connections.

/// The refusals by limits: of databases, of edits, and of notes.
pub(crate) const LIMITS: &str = r#"
# with one database allowed a second is refused, and with two edits a third document
> allow one database
> allow two edits
> PUT /d
HTTP/1.1 201 Created, JSON of 12:
{"ok":true}\n
> PUT /e
HTTP/1.1 503 Service Unavailable, JSON of 61:
{"error":"too_many_databases","reason":"too many databases"}\n
> POST /d/_bulk_docs {"docs":[{"_id":"a","_rev":"1-a"},{"_id":"b","_rev":"1-b"}],"new_edits":false}
HTTP/1.1 201 Created, JSON of 3:
[]\n
> POST /d/_bulk_docs {"docs":[{"_id":"c","_rev":"1-c"}],"new_edits":false}
HTTP/1.1 201 Created, JSON of 62:
[{"id":"c","error":"sequence_full","reason":"sequence full"}]\n
> GET /d/_changes?since=1
HTTP/1.1 200 OK, JSON in chunks:
d
{"results":[\n
30
{"seq":"2-1","id":"b","changes":[{"rev":"1-b"}]}
22
\n],\n"last_seq":"2-1","pending":0}\n
last chunk
# where the log of updates is full a write is told so, and stands; a known document writes nothing, and no database is removed
> allow one edit
> PUT /d
HTTP/1.1 201 Created, JSON of 12:
{"ok":true}\n
> POST /d/_bulk_docs {"docs":[{"_id":"a","_rev":"1-a"}],"new_edits":false}
HTTP/1.1 503 Service Unavailable, JSON of 51:
{"error":"sequence_full","reason":"sequence full"}\n
> GET /d/_changes
HTTP/1.1 200 OK, JSON in chunks:
d
{"results":[\n
30
{"seq":"1-1","id":"a","changes":[{"rev":"1-a"}]}
22
\n],\n"last_seq":"1-1","pending":0}\n
last chunk
> POST /d/_bulk_docs {"docs":[{"_id":"a","_rev":"1-a"}],"new_edits":false}
HTTP/1.1 201 Created, JSON of 3:
[]\n
> DELETE /d
HTTP/1.1 503 Service Unavailable, JSON of 51:
{"error":"sequence_full","reason":"sequence full"}\n
> GET /_all_dbs
HTTP/1.1 200 OK, JSON of 6:
["d"]\n
# the notes of two databases fill the log: a PUT and a DELETE of a document are told so, and stand; an edit that is refused is told as that
> allow two edits
> PUT /d
HTTP/1.1 201 Created, JSON of 12:
{"ok":true}\n
> PUT /e
HTTP/1.1 201 Created, JSON of 12:
{"ok":true}\n
> PUT /d/a {"v":7}
HTTP/1.1 503 Service Unavailable, JSON of 51:
{"error":"sequence_full","reason":"sequence full"}\n
> GET /d/a
HTTP/1.1 200 OK, JSON of 62:
{"_id":"a","_rev":"1-91e3da135d1d0593e6703385cf55957a","v":7}\n
> PUT /d/a?rev=1-x {}
HTTP/1.1 409 Conflict, JSON of 58:
{"error":"conflict","reason":"Document update conflict."}\n
> DELETE /d/a?rev=1-91e3da135d1d0593e6703385cf55957a
HTTP/1.1 503 Service Unavailable, JSON of 51:
{"error":"sequence_full","reason":"sequence full"}\n
> GET /d/a
HTTP/1.1 404 Not Found, JSON of 41:
{"error":"not_found","reason":"deleted"}\n
> GET /d
HTTP/1.1 200 OK, JSON of 93:
{"db_name":"d","doc_count":0,"doc_del_count":1,"update_seq":"2-1","instance_start_time":"0"}\n
"#;

/// A leaf of the last generation is not extended.
pub(crate) const LAST_GENERATION: &str = r#"
# a leaf of the last generation is not extended
> PUT /d
HTTP/1.1 201 Created, JSON of 12:
{"ok":true}\n
> history 65535
HTTP/1.1 201 Created, JSON of 3:
[]\n
> PUT /d/x?rev=65535-a {}
HTTP/1.1 400 Bad Request, JSON of 52:
{"error":"bad_request","reason":"generation limit"}\n
"#;

/// After `Connection: close` nothing more is answered.
pub(crate) const CLOSING: &str = r#"
# after `Connection: close` nothing more is answered
> send bytes PUT /d HTTP/1.1\r\nConnection: keep-alive, Close\r\n\r\nPUT /e HTTP/1.1\r\n\r\n
HTTP/1.1 201 Created, JSON of 12
Connection: close:
{"ok":true}\n
closed: the last request asked to close
"#;

/// A head's fault is answered, and closes.
pub(crate) const HEAD_FAULTS: &str = r#"
# a fault of a head is answered, and closes: nothing is answered behind it
> send bytes GET / HTTP/1.0\r\n\r\nPUT /d HTTP/1.1\r\n\r\n
HTTP/1.1 505 HTTP Version Not Supported, JSON of 50
Connection: close:
{"error":"http_version","reason":"HTTP/1.1 only"}\n
closed: HTTP/1.1 only
> send bytes GET / HTTP/1.1\r\nTransfer-Encoding: chunked\r\n\r\nPUT /d HTTP/1.1\r\n\r\n
HTTP/1.1 501 Not Implemented, JSON of 58
Connection: close:
{"error":"not_implemented","reason":"no transfer coding"}\n
closed: no transfer coding
> send bytes GET / HTTP/1.1\r\nContent-Length: 8388609\r\n\r\nPUT /d HTTP/1.1\r\n\r\n
HTTP/1.1 413 Payload Too Large, JSON of 47
Connection: close:
{"error":"too_large","reason":"body too long"}\n
closed: body too long
> send bytes GET / HTTP/1.1\r\nContent-Length: +1\r\n\r\nPUT /d HTTP/1.1\r\n\r\n
HTTP/1.1 400 Bad Request, JSON of 44
Connection: close:
{"error":"bad_request","reason":"bad head"}\n
closed: bad head
> send bytes GET * HTTP/1.1\r\n\r\nPUT /d HTTP/1.1\r\n\r\n
HTTP/1.1 400 Bad Request, JSON of 44
Connection: close:
{"error":"bad_request","reason":"bad head"}\n
closed: bad head
"#;

/// An end in the middle of a request has no reply.
pub(crate) const CUT_REQUESTS: &str = r#"
# an end in the middle of a request has no reply
> send bytes PUT /d HTTP/1.1\r\n

closed: the input ended in the middle of a request
"#;
