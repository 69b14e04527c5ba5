//! Edits over bytes: those that come with their revisions, those whose revisions are made here, and local
//! documents. The digests are those of `md5sum`.

/// Documents that another database made: known ones, refused ones, and a full journal.
pub(crate) const COME: &str = r#"
# the rows follow the latest edits, and known edits get no new sequence
> PUT /d
HTTP/1.1 201 Created, JSON of 12:
{"ok":true}\n
> POST /d/_bulk_docs {"docs":[{"_id":"a","_rev":"1-a"},{"_id":"b","_rev":"1-b"}],"new_edits":false}
HTTP/1.1 201 Created, JSON of 3:
[]\n
> GET /d/_changes
HTTP/1.1 200 OK, JSON in chunks:
d
{"results":[\n
30
{"seq":"1-1","id":"a","changes":[{"rev":"1-a"}]}
32
,\n{"seq":"2-1","id":"b","changes":[{"rev":"1-b"}]}
22
\n],\n"last_seq":"2-1","pending":0}\n
last chunk
> POST /d/_bulk_docs {"docs":[{"_id":"a","_revisions":{"start":2,"ids":["c","a"]}}],"new_edits":false}
HTTP/1.1 201 Created, JSON of 3:
[]\n
> GET /d/_changes
HTTP/1.1 200 OK, JSON in chunks:
d
{"results":[\n
30
{"seq":"2-1","id":"b","changes":[{"rev":"1-b"}]}
32
,\n{"seq":"3-1","id":"a","changes":[{"rev":"2-c"}]}
22
\n],\n"last_seq":"3-1","pending":0}\n
last chunk
> POST /d/_bulk_docs {"docs":[{"_id":"a","_rev":"1-a"},{"_id":"b","_rev":"1-b"}],"new_edits":false}
HTTP/1.1 201 Created, JSON of 3:
[]\n
> POST /d/_bulk_docs {"docs":[{"_id":"a","_revisions":{"start":2,"ids":["c","a"]}},{"_id":"a","_rev":"1-a"}],"new_edits":false}
HTTP/1.1 201 Created, JSON of 3:
[]\n
> GET /d
HTTP/1.1 200 OK, JSON of 93:
{"db_name":"d","doc_count":2,"doc_del_count":0,"update_seq":"3-1","instance_start_time":"0"}\n
> GET /d/_changes
HTTP/1.1 200 OK, JSON in chunks:
d
{"results":[\n
30
{"seq":"2-1","id":"b","changes":[{"rev":"1-b"}]}
32
,\n{"seq":"3-1","id":"a","changes":[{"rev":"2-c"}]}
22
\n],\n"last_seq":"3-1","pending":0}\n
last chunk
# a refused document stops no others
> PUT /d
HTTP/1.1 201 Created, JSON of 12:
{"ok":true}\n
> POST /d/_bulk_docs {"docs":[{"_id":"b","_revisions":{"start":2,"ids":["y","x"]}}],"new_edits":false}
HTTP/1.1 201 Created, JSON of 3:
[]\n
> GET /d
HTTP/1.1 200 OK, JSON of 93:
{"db_name":"d","doc_count":1,"doc_del_count":0,"update_seq":"1-1","instance_start_time":"0"}\n
> POST /d/_bulk_docs {"docs":[{"_id":"a","_rev":"1-a"},{"_id":"b","_revisions":{"start":3,"ids":["w","y","q"]}},{"_id":"a","_revisions":{"start":2,"ids":["c","a"]}}],"new_edits":false}
HTTP/1.1 201 Created, JSON of 68:
[{"id":"b","error":"bad_request","reason":"contradicting history"}]\n
> GET /d
HTTP/1.1 200 OK, JSON of 93:
{"db_name":"d","doc_count":2,"doc_del_count":0,"update_seq":"3-1","instance_start_time":"0"}\n
> GET /d/_changes?style=all_docs
HTTP/1.1 200 OK, JSON in chunks:
d
{"results":[\n
30
{"seq":"1-1","id":"b","changes":[{"rev":"2-y"}]}
32
,\n{"seq":"3-1","id":"a","changes":[{"rev":"2-c"}]}
22
\n],\n"last_seq":"3-1","pending":0}\n
last chunk
# a full journal takes no more, and knows what it has
> allow two edits
> PUT /d
HTTP/1.1 201 Created, JSON of 12:
{"ok":true}\n
> send POST /d/_bulk_docs {"docs":[{"_id":"a","_rev":"1-a"},{"_id":"b","_rev":"1-b"},{"_id":"c","_rev":"1-c"}],"new_edits":false}
HTTP/1.1 201 Created, JSON of 62:
[{"id":"c","error":"sequence_full","reason":"sequence full"}]\n
> POST /d/_bulk_docs {"docs":[{"_id":"a","_rev":"1-a"},{"_id":"b","_rev":"1-b"}],"new_edits":false}
HTTP/1.1 201 Created, JSON of 3:
[]\n
> POST /d/_bulk_docs {"docs":[{"_id":"a","_revisions":{"start":2,"ids":["c","a"]}},{"_id":"a","_rev":"1-a"}],"new_edits":false}
HTTP/1.1 201 Created, JSON of 62:
[{"id":"a","error":"sequence_full","reason":"sequence full"}]\n
> GET /d
HTTP/1.1 200 OK, JSON of 93:
{"db_name":"d","doc_count":2,"doc_del_count":0,"update_seq":"2-1","instance_start_time":"0"}\n
"#;

/// Edits whose revisions are made here, and the counts after them.
pub(crate) const MADE: &str = r#"
# a document is made, deleted and made again
> PUT /d
HTTP/1.1 201 Created, JSON of 12:
{"ok":true}\n
> GET /d
HTTP/1.1 200 OK, JSON of 93:
{"db_name":"d","doc_count":0,"doc_del_count":0,"update_seq":"0-1","instance_start_time":"0"}\n
> PUT /d/a {}
HTTP/1.1 201 Created, JSON of 64:
{"ok":true,"id":"a","rev":"1-dfddbf319adb018d1e5ac3465b83542c"}\n
> GET /d
HTTP/1.1 200 OK, JSON of 93:
{"db_name":"d","doc_count":1,"doc_del_count":0,"update_seq":"1-1","instance_start_time":"0"}\n
> PUT /d/a {}
HTTP/1.1 409 Conflict, JSON of 58:
{"error":"conflict","reason":"Document update conflict."}\n
> GET /d
HTTP/1.1 200 OK, JSON of 93:
{"db_name":"d","doc_count":1,"doc_del_count":0,"update_seq":"1-1","instance_start_time":"0"}\n
> PUT /d/a {"_rev":"1-dfddbf319adb018d1e5ac3465b83542c","_deleted":true}
HTTP/1.1 201 Created, JSON of 64:
{"ok":true,"id":"a","rev":"2-870d76c302165a079d4197c8440353e5"}\n
> GET /d
HTTP/1.1 200 OK, JSON of 93:
{"db_name":"d","doc_count":0,"doc_del_count":1,"update_seq":"2-1","instance_start_time":"0"}\n
> PUT /d/a {}
HTTP/1.1 201 Created, JSON of 64:
{"ok":true,"id":"a","rev":"3-4c5ef0d207f3957b7fd603081c6ea42d"}\n
> GET /d
HTTP/1.1 200 OK, JSON of 93:
{"db_name":"d","doc_count":1,"doc_del_count":0,"update_seq":"3-1","instance_start_time":"0"}\n
# only a leaf is extended
> PUT /d
HTTP/1.1 201 Created, JSON of 12:
{"ok":true}\n
> PUT /d/b {"_rev":"1-1285e04b3042a31dee48aaa22a8253db","v":2}
HTTP/1.1 409 Conflict, JSON of 58:
{"error":"conflict","reason":"Document update conflict."}\n
> GET /d
HTTP/1.1 200 OK, JSON of 93:
{"db_name":"d","doc_count":0,"doc_del_count":0,"update_seq":"0-1","instance_start_time":"0"}\n
> PUT /d/b {"v":1}
HTTP/1.1 201 Created, JSON of 64:
{"ok":true,"id":"b","rev":"1-1285e04b3042a31dee48aaa22a8253db"}\n
> PUT /d/b {"_rev":"1-1285e04b3042a31dee48aaa22a8253db","v":2}
HTTP/1.1 201 Created, JSON of 64:
{"ok":true,"id":"b","rev":"2-ef9706f00d5204d4b73e97b9394cf4b1"}\n
> PUT /d/b {"_rev":"1-1285e04b3042a31dee48aaa22a8253db","v":2}
HTTP/1.1 409 Conflict, JSON of 58:
{"error":"conflict","reason":"Document update conflict."}\n
> GET /d
HTTP/1.1 200 OK, JSON of 93:
{"db_name":"d","doc_count":1,"doc_del_count":0,"update_seq":"2-1","instance_start_time":"0"}\n
# a conflict stops no others
> PUT /d
HTTP/1.1 201 Created, JSON of 12:
{"ok":true}\n
> PUT /d/a {}
HTTP/1.1 201 Created, JSON of 64:
{"ok":true,"id":"a","rev":"1-dfddbf319adb018d1e5ac3465b83542c"}\n
> send bytes POST /d/_bulk_docs HTTP/1.1\r\nContent-Length: 52\r\n\r\n{"docs":[{"_id":"b","v":1},{"_id":"a"},{"_id":"c"}]}GET /d HTTP/1.1\r\n\r\n
HTTP/1.1 201 Created, JSON of 197:
[{"ok":true,"id":"b","rev":"1-1285e04b3042a31dee48aaa22a8253db"},{"id":"a","error":"conflict","reason":"Document update conflict."},{"ok":true,"id":"c","rev":"1-fb9ac373006d562c3ba1cd99e8474820"}]\nHTTP/1.1 200 OK, JSON of 93:
{"db_name":"d","doc_count":3,"doc_del_count":0,"update_seq":"3-1","instance_start_time":"0"}\n
# a made revision that is known is a conflict: the second edit's is the one that would be made behind the first
> PUT /d
HTTP/1.1 201 Created, JSON of 12:
{"ok":true}\n
> POST /d/_bulk_docs {"docs":[{"_id":"a","_rev":"1-a"}],"new_edits":false}
HTTP/1.1 201 Created, JSON of 3:
[]\n
> POST /d/_bulk_docs {"docs":[{"_id":"a","_revisions":{"start":2,"ids":["5b422ec71a54e904129dfa7cff6017b4","b"]}}],"new_edits":false}
HTTP/1.1 201 Created, JSON of 3:
[]\n
> GET /d
HTTP/1.1 200 OK, JSON of 93:
{"db_name":"d","doc_count":1,"doc_del_count":0,"update_seq":"2-1","instance_start_time":"0"}\n
> PUT /d/a?rev=1-a {}
HTTP/1.1 409 Conflict, JSON of 58:
{"error":"conflict","reason":"Document update conflict."}\n
> PUT /d/a {"_rev":"1-a","_deleted":true}
HTTP/1.1 201 Created, JSON of 64:
{"ok":true,"id":"a","rev":"2-5bffa76456a463a52635906fedc1dd54"}\n
> GET /d
HTTP/1.1 200 OK, JSON of 93:
{"db_name":"d","doc_count":1,"doc_del_count":0,"update_seq":"3-1","instance_start_time":"0"}\n
# a leaf of the last generation is not extended, and nothing is stored
> PUT /d
HTTP/1.1 201 Created, JSON of 12:
{"ok":true}\n
> POST /d/_bulk_docs {"docs":[{"_id":"a","_rev":"65535-a"}],"new_edits":false}
HTTP/1.1 201 Created, JSON of 3:
[]\n
> PUT /d/a {"_rev":"65535-a"}
HTTP/1.1 400 Bad Request, JSON of 52:
{"error":"bad_request","reason":"generation limit"}\n
> GET /d
HTTP/1.1 200 OK, JSON of 93:
{"db_name":"d","doc_count":1,"doc_del_count":0,"update_seq":"1-1","instance_start_time":"0"}\n
> history 65535
HTTP/1.1 201 Created, JSON of 3:
[]\n
> PUT /d/x {"_rev":"65535-a"}
HTTP/1.1 400 Bad Request, JSON of 52:
{"error":"bad_request","reason":"generation limit"}\n
> GET /d
HTTP/1.1 200 OK, JSON of 93:
{"db_name":"d","doc_count":2,"doc_del_count":0,"update_seq":"2-1","instance_start_time":"0"}\n
# a full journal takes no made edit, and a conflict is told before
> allow two edits
> PUT /d
HTTP/1.1 201 Created, JSON of 12:
{"ok":true}\n
> POST /d/_bulk_docs {"docs":[{"_id":"a","_rev":"1-a"},{"_id":"b","_rev":"1-b"}],"new_edits":false}
HTTP/1.1 201 Created, JSON of 3:
[]\n
> PUT /d/c {"v":1}
HTTP/1.1 503 Service Unavailable, JSON of 51:
{"error":"sequence_full","reason":"sequence full"}\n
> PUT /d/a {"_rev":"1-a","_deleted":true}
HTTP/1.1 503 Service Unavailable, JSON of 51:
{"error":"sequence_full","reason":"sequence full"}\n
> PUT /d/a {}
HTTP/1.1 409 Conflict, JSON of 58:
{"error":"conflict","reason":"Document update conflict."}\n
> GET /d
HTTP/1.1 200 OK, JSON of 93:
{"db_name":"d","doc_count":2,"doc_del_count":0,"update_seq":"2-1","instance_start_time":"0"}\n
> GET /d/_changes
HTTP/1.1 200 OK, JSON in chunks:
d
{"results":[\n
30
{"seq":"1-1","id":"a","changes":[{"rev":"1-a"}]}
32
,\n{"seq":"2-1","id":"b","changes":[{"rev":"1-b"}]}
22
\n],\n"last_seq":"2-1","pending":0}\n
last chunk
# the counts follow the winners: two leaves of a document are deleted, the winner's first
> PUT /d
HTTP/1.1 201 Created, JSON of 12:
{"ok":true}\n
> POST /d/_bulk_docs {"docs":[{"_id":"a","_revisions":{"start":2,"ids":["x","a"]}}],"new_edits":false}
HTTP/1.1 201 Created, JSON of 3:
[]\n
> GET /d
HTTP/1.1 200 OK, JSON of 93:
{"db_name":"d","doc_count":1,"doc_del_count":0,"update_seq":"1-1","instance_start_time":"0"}\n
> POST /d/_bulk_docs {"docs":[{"_id":"a","_revisions":{"start":2,"ids":["y","a"]}}],"new_edits":false}
HTTP/1.1 201 Created, JSON of 3:
[]\n
> GET /d
HTTP/1.1 200 OK, JSON of 93:
{"db_name":"d","doc_count":1,"doc_del_count":0,"update_seq":"2-1","instance_start_time":"0"}\n
> PUT /d/a {"_rev":"2-y","_deleted":true}
HTTP/1.1 201 Created, JSON of 64:
{"ok":true,"id":"a","rev":"3-e1af6878896b48760d8d82bc14804b59"}\n
> GET /d
HTTP/1.1 200 OK, JSON of 93:
{"db_name":"d","doc_count":1,"doc_del_count":0,"update_seq":"3-1","instance_start_time":"0"}\n
> PUT /d/a {"_rev":"2-x","_deleted":true}
HTTP/1.1 201 Created, JSON of 64:
{"ok":true,"id":"a","rev":"3-55e177f153a8a4da2eda5908a10772f9"}\n
> GET /d
HTTP/1.1 200 OK, JSON of 93:
{"db_name":"d","doc_count":0,"doc_del_count":1,"update_seq":"4-1","instance_start_time":"0"}\n
> POST /d/_bulk_docs {"docs":[{"_id":"b","_revisions":{"start":2,"ids":["d","c"]},"_deleted":true}],"new_edits":false}
HTTP/1.1 201 Created, JSON of 3:
[]\n
> GET /d
HTTP/1.1 200 OK, JSON of 93:
{"db_name":"d","doc_count":0,"doc_del_count":2,"update_seq":"5-1","instance_start_time":"0"}\n
> POST /d/_bulk_docs {"docs":[{"_id":"b","_revisions":{"start":3,"ids":["e","d","c"]}}],"new_edits":false}
HTTP/1.1 201 Created, JSON of 3:
[]\n
> GET /d
HTTP/1.1 200 OK, JSON of 93:
{"db_name":"d","doc_count":1,"doc_del_count":1,"update_seq":"6-1","instance_start_time":"0"}\n
"#;

/// Local documents, and how often they were written.
pub(crate) const LOCAL: &str = r#"
# local documents are counted one by one, and are no edits
> PUT /d
HTTP/1.1 201 Created, JSON of 12:
{"ok":true}\n
> GET /d/_local/x
HTTP/1.1 404 Not Found, JSON of 41:
{"error":"not_found","reason":"missing"}\n
> PUT /d/_local/x {"v":1}
HTTP/1.1 201 Created, JSON of 40:
{"ok":true,"id":"_local/x","rev":"0-1"}\n
> GET /d/_local/x
HTTP/1.1 200 OK, JSON of 38:
{"_id":"_local/x","_rev":"0-1","v":1}\n
> GET /d/_local/y
HTTP/1.1 404 Not Found, JSON of 41:
{"error":"not_found","reason":"missing"}\n
> PUT /d/_local/x {"v":2}
HTTP/1.1 201 Created, JSON of 40:
{"ok":true,"id":"_local/x","rev":"0-2"}\n
> PUT /d/_local/a {}
HTTP/1.1 201 Created, JSON of 40:
{"ok":true,"id":"_local/a","rev":"0-1"}\n
> GET /d/_local/x
HTTP/1.1 200 OK, JSON of 38:
{"_id":"_local/x","_rev":"0-2","v":2}\n
> GET /d/_local/a
HTTP/1.1 200 OK, JSON of 32:
{"_id":"_local/a","_rev":"0-1"}\n
> GET /d
HTTP/1.1 200 OK, JSON of 93:
{"db_name":"d","doc_count":0,"doc_del_count":0,"update_seq":"0-1","instance_start_time":"0"}\n
> GET /d/_changes
HTTP/1.1 200 OK, JSON in chunks:
d
{"results":[\n
22
\n],\n"last_seq":"0-1","pending":0}\n
last chunk
"#;
