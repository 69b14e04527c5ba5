//! Feeds of changes over bytes, and where they begin for a sequence of this life or of another life.

/// The rows of feeds after edits that came one after another.
pub(crate) const ROWS: &str = r#"
# a feed shows the rows with their documents, and an end
> PUT /d
HTTP/1.1 201 Created, JSON of 12:
{"ok":true}\n
> POST /d/_bulk_docs {"docs":[{"_id":"a","_rev":"1-a","v":1},{"_id":"b","_rev":"1-b"},{"_id":"a","_revisions":{"start":2,"ids":["b","a"]},"v":2}],"new_edits":false}
HTTP/1.1 201 Created, JSON of 3:
[]\n
> GET /d/_changes?include_docs=true
HTTP/1.1 200 OK, JSON in chunks:
d
{"results":[\n
4f
{"seq":"2-1","id":"b","changes":[{"rev":"1-b"}],"doc":{"_id":"b","_rev":"1-b"}}
57
,\n{"seq":"3-1","id":"a","changes":[{"rev":"2-b"}],"doc":{"_id":"a","_rev":"2-b","v":2}}
22
\n],\n"last_seq":"3-1","pending":0}\n
last chunk
# styles list the winner or all leaves: three of one document, the best of them in the middle
> PUT /d
HTTP/1.1 201 Created, JSON of 12:
{"ok":true}\n
> POST /d/_bulk_docs {"docs":[{"_id":"a","_rev":"1-z","v":"z"},{"_id":"a","_revisions":{"start":2,"ids":["a","x"]},"v":"a"},{"_id":"a","_revisions":{"start":2,"ids":["b","x"]},"v":"b","_deleted":true}],"new_edits":false}
HTTP/1.1 201 Created, JSON of 3:
[]\n
> GET /d/_changes?style=main_only&include_docs=true
HTTP/1.1 200 OK, JSON in chunks:
d
{"results":[\n
57
{"seq":"3-1","id":"a","changes":[{"rev":"2-a"}],"doc":{"_id":"a","_rev":"2-a","v":"a"}}
22
\n],\n"last_seq":"3-1","pending":0}\n
last chunk
> GET /d/_changes?style=all_docs
HTTP/1.1 200 OK, JSON in chunks:
d
{"results":[\n
4c
{"seq":"3-1","id":"a","changes":[{"rev":"2-a"},{"rev":"1-z"},{"rev":"2-b"}]}
22
\n],\n"last_seq":"3-1","pending":0}\n
last chunk
# listed documents are found far behind others, once each
> PUT /d
HTTP/1.1 201 Created, JSON of 12:
{"ok":true}\n
> POST /d/_bulk_docs {"docs":[{"_id":"1","_rev":"1-a"},{"_id":"2","_rev":"1-a"},{"_id":"3","_rev":"1-a"},{"_id":"4","_rev":"1-a"},{"_id":"5","_rev":"1-a"},{"_id":"6","_rev":"1-a"},{"_id":"7","_rev":"1-a"},{"_id":"8","_rev":"1-a"}],"new_edits":false}
HTTP/1.1 201 Created, JSON of 3:
[]\n
> GET /d
HTTP/1.1 200 OK, JSON of 93:
{"db_name":"d","doc_count":8,"doc_del_count":0,"update_seq":"8-1","instance_start_time":"0"}\n
> GET /d/_changes?filter=_doc_ids&doc_ids=%5B%228%22,%228%22,%221%22,%22x%22%5D
HTTP/1.1 200 OK, JSON in chunks:
d
{"results":[\n
30
{"seq":"1-1","id":"1","changes":[{"rev":"1-a"}]}
32
,\n{"seq":"8-1","id":"8","changes":[{"rev":"1-a"}]}
22
\n],\n"last_seq":"8-1","pending":0}\n
last chunk
> GET /d/_changes?filter=_doc_ids&doc_ids=%5B%228%22%5D
HTTP/1.1 200 OK, JSON in chunks:
d
{"results":[\n
30
{"seq":"8-1","id":"8","changes":[{"rev":"1-a"}]}
22
\n],\n"last_seq":"8-1","pending":0}\n
last chunk
# descending answers begin at the last row
> PUT /d
HTTP/1.1 201 Created, JSON of 12:
{"ok":true}\n
> POST /d/_bulk_docs {"docs":[{"_id":"a","_rev":"1-a","v":1},{"_id":"b","_rev":"1-b"},{"_id":"c","_rev":"1-c"},{"_id":"a","_revisions":{"start":2,"ids":["b","a"]},"v":2},{"_id":"a","_revisions":{"start":3,"ids":["c","b","a"]},"v":3}],"new_edits":false}
HTTP/1.1 201 Created, JSON of 3:
[]\n
> GET /d/_changes?descending=true&since=2
HTTP/1.1 200 OK, JSON in chunks:
d
{"results":[\n
30
{"seq":"5-1","id":"a","changes":[{"rev":"3-c"}]}
32
,\n{"seq":"3-1","id":"c","changes":[{"rev":"1-c"}]}
22
\n],\n"last_seq":"3-1","pending":0}\n
last chunk
> GET /d/_changes?descending=true&since=2&limit=1
HTTP/1.1 200 OK, JSON in chunks:
d
{"results":[\n
30
{"seq":"5-1","id":"a","changes":[{"rev":"3-c"}]}
22
\n],\n"last_seq":"5-1","pending":1}\n
last chunk
"#;

/// Feeds begin in the life of their database.
pub(crate) const LIVES: &str = r#"
# a sequence of another life is none, and a number alone is of whichever life
> PUT /d
HTTP/1.1 201 Created, JSON of 12:
{"ok":true}\n
> POST /d/_bulk_docs {"docs":[{"_id":"a","_rev":"1-a"},{"_id":"b","_rev":"1-b"},{"_id":"c","_rev":"1-c"},{"_id":"a","_revisions":{"start":2,"ids":["b","a"]}}],"new_edits":false}
HTTP/1.1 201 Created, JSON of 3:
[]\n
> GET /d/_changes?since=2
HTTP/1.1 200 OK, JSON in chunks:
d
{"results":[\n
30
{"seq":"3-1","id":"c","changes":[{"rev":"1-c"}]}
32
,\n{"seq":"4-1","id":"a","changes":[{"rev":"2-b"}]}
22
\n],\n"last_seq":"4-1","pending":0}\n
last chunk
> GET /d/_changes?since=2-1
HTTP/1.1 200 OK, JSON in chunks:
d
{"results":[\n
30
{"seq":"3-1","id":"c","changes":[{"rev":"1-c"}]}
32
,\n{"seq":"4-1","id":"a","changes":[{"rev":"2-b"}]}
22
\n],\n"last_seq":"4-1","pending":0}\n
last chunk
> GET /d/_changes?since=2-7
HTTP/1.1 200 OK, JSON in chunks:
d
{"results":[\n
30
{"seq":"2-1","id":"b","changes":[{"rev":"1-b"}]}
32
,\n{"seq":"3-1","id":"c","changes":[{"rev":"1-c"}]}
32
,\n{"seq":"4-1","id":"a","changes":[{"rev":"2-b"}]}
22
\n],\n"last_seq":"4-1","pending":0}\n
last chunk
> GET /d/_changes?since=%223-0%22
HTTP/1.1 200 OK, JSON in chunks:
d
{"results":[\n
30
{"seq":"2-1","id":"b","changes":[{"rev":"1-b"}]}
32
,\n{"seq":"3-1","id":"c","changes":[{"rev":"1-c"}]}
32
,\n{"seq":"4-1","id":"a","changes":[{"rev":"2-b"}]}
22
\n],\n"last_seq":"4-1","pending":0}\n
last chunk
> GET /d/_changes?since=now
HTTP/1.1 200 OK, JSON in chunks:
d
{"results":[\n
22
\n],\n"last_seq":"4-1","pending":0}\n
last chunk
# a sequence above the last edit: of its life a feed has nothing to show, of another life everything
> PUT /d
HTTP/1.1 201 Created, JSON of 12:
{"ok":true}\n
> POST /d/_bulk_docs {"docs":[{"_id":"a","_rev":"1-a"},{"_id":"b","_rev":"1-b"},{"_id":"c","_rev":"1-c"},{"_id":"a","_revisions":{"start":2,"ids":["b","a"]}}],"new_edits":false}
HTTP/1.1 201 Created, JSON of 3:
[]\n
> GET /d/_changes?since=9
HTTP/1.1 200 OK, JSON in chunks:
d
{"results":[\n
22
\n],\n"last_seq":"4-1","pending":0}\n
last chunk
> GET /d/_changes?since=9-1
HTTP/1.1 200 OK, JSON in chunks:
d
{"results":[\n
22
\n],\n"last_seq":"4-1","pending":0}\n
last chunk
> GET /d/_changes?since=9-5&limit=1
HTTP/1.1 200 OK, JSON in chunks:
d
{"results":[\n
30
{"seq":"2-1","id":"b","changes":[{"rev":"1-b"}]}
22
\n],\n"last_seq":"2-1","pending":2}\n
last chunk
> GET /d/_changes?since=18446744073709551615-18446744073709551615&limit=1
HTTP/1.1 200 OK, JSON in chunks:
d
{"results":[\n
30
{"seq":"2-1","id":"b","changes":[{"rev":"1-b"}]}
22
\n],\n"last_seq":"2-1","pending":2}\n
last chunk
# feeds that wait begin in their life
> PUT /d
HTTP/1.1 201 Created, JSON of 12:
{"ok":true}\n
> POST /d/_bulk_docs {"docs":[{"_id":"a","_rev":"1-a"},{"_id":"b","_rev":"1-b"},{"_id":"c","_rev":"1-c"},{"_id":"a","_revisions":{"start":2,"ids":["b","a"]}}],"new_edits":false}
HTTP/1.1 201 Created, JSON of 3:
[]\n
> GET /d/_changes?feed=longpoll&since=4-1
HTTP/1.1 200 OK, JSON in chunks:
d
{"results":[\n
22
\n],\n"last_seq":"4-1","pending":0}\n
last chunk
> GET /d/_changes?feed=longpoll&since=4-7
HTTP/1.1 200 OK, JSON in chunks:
d
{"results":[\n
30
{"seq":"2-1","id":"b","changes":[{"rev":"1-b"}]}
32
,\n{"seq":"3-1","id":"c","changes":[{"rev":"1-c"}]}
32
,\n{"seq":"4-1","id":"a","changes":[{"rev":"2-b"}]}
22
\n],\n"last_seq":"4-1","pending":0}\n
last chunk
> GET /d/_changes?feed=continuous&since=3-1
HTTP/1.1 200 OK, JSON in chunks:
31
{"seq":"4-1","id":"a","changes":[{"rev":"2-b"}]}\n
1f
{"last_seq":"4-1","pending":0}\n
last chunk
> GET /d/_changes?feed=continuous&since=3-7
HTTP/1.1 200 OK, JSON in chunks:
31
{"seq":"2-1","id":"b","changes":[{"rev":"1-b"}]}\n
31
{"seq":"3-1","id":"c","changes":[{"rev":"1-c"}]}\n
31
{"seq":"4-1","id":"a","changes":[{"rev":"2-b"}]}\n
1f
{"last_seq":"4-1","pending":0}\n
last chunk
# descending answers begin in their life
> PUT /d
HTTP/1.1 201 Created, JSON of 12:
{"ok":true}\n
> POST /d/_bulk_docs {"docs":[{"_id":"a","_rev":"1-a"},{"_id":"b","_rev":"1-b"},{"_id":"c","_rev":"1-c"},{"_id":"a","_revisions":{"start":2,"ids":["b","a"]}}],"new_edits":false}
HTTP/1.1 201 Created, JSON of 3:
[]\n
> GET /d/_changes?descending=true
HTTP/1.1 200 OK, JSON in chunks:
d
{"results":[\n
30
{"seq":"4-1","id":"a","changes":[{"rev":"2-b"}]}
32
,\n{"seq":"3-1","id":"c","changes":[{"rev":"1-c"}]}
32
,\n{"seq":"2-1","id":"b","changes":[{"rev":"1-b"}]}
22
\n],\n"last_seq":"2-1","pending":0}\n
last chunk
> GET /d/_changes?descending=true&since=2-1
HTTP/1.1 200 OK, JSON in chunks:
d
{"results":[\n
30
{"seq":"4-1","id":"a","changes":[{"rev":"2-b"}]}
32
,\n{"seq":"3-1","id":"c","changes":[{"rev":"1-c"}]}
22
\n],\n"last_seq":"3-1","pending":0}\n
last chunk
> GET /d/_changes?descending=true&since=2-7
HTTP/1.1 200 OK, JSON in chunks:
d
{"results":[\n
30
{"seq":"4-1","id":"a","changes":[{"rev":"2-b"}]}
32
,\n{"seq":"3-1","id":"c","changes":[{"rev":"1-c"}]}
32
,\n{"seq":"2-1","id":"b","changes":[{"rev":"1-b"}]}
22
\n],\n"last_seq":"2-1","pending":0}\n
last chunk
> GET /d/_changes?descending=true&since=9-1
HTTP/1.1 200 OK, JSON in chunks:
d
{"results":[\n
22
\n],\n"last_seq":"4-1","pending":0}\n
last chunk
> GET /d/_changes?descending=true&since=9-7&limit=1
HTTP/1.1 200 OK, JSON in chunks:
d
{"results":[\n
30
{"seq":"4-1","id":"a","changes":[{"rev":"2-b"}]}
22
\n],\n"last_seq":"4-1","pending":2}\n
last chunk
> GET /d/_changes?descending=true&since=now
HTTP/1.1 200 OK, JSON in chunks:
d
{"results":[\n
22
\n],\n"last_seq":"4-1","pending":0}\n
last chunk
# a database that is made again tells its life, and its feeds and answers end in it
> PUT /e
HTTP/1.1 201 Created, JSON of 12:
{"ok":true}\n
> PUT /d
HTTP/1.1 201 Created, JSON of 12:
{"ok":true}\n
> GET /d
HTTP/1.1 200 OK, JSON of 93:
{"db_name":"d","doc_count":0,"doc_del_count":0,"update_seq":"0-2","instance_start_time":"0"}\n
> POST /d/_bulk_docs {"docs":[{"_id":"a","_rev":"1-a"},{"_id":"b","_rev":"1-b"},{"_id":"c","_rev":"1-c"},{"_id":"a","_revisions":{"start":2,"ids":["b","a"]}}],"new_edits":false}
HTTP/1.1 201 Created, JSON of 3:
[]\n
> GET /d
HTTP/1.1 200 OK, JSON of 93:
{"db_name":"d","doc_count":3,"doc_del_count":0,"update_seq":"4-2","instance_start_time":"0"}\n
> GET /d/_changes?since=3-2
HTTP/1.1 200 OK, JSON in chunks:
d
{"results":[\n
30
{"seq":"4-2","id":"a","changes":[{"rev":"2-b"}]}
22
\n],\n"last_seq":"4-2","pending":0}\n
last chunk
> GET /d/_changes?since=3-1
HTTP/1.1 200 OK, JSON in chunks:
d
{"results":[\n
30
{"seq":"2-2","id":"b","changes":[{"rev":"1-b"}]}
32
,\n{"seq":"3-2","id":"c","changes":[{"rev":"1-c"}]}
32
,\n{"seq":"4-2","id":"a","changes":[{"rev":"2-b"}]}
22
\n],\n"last_seq":"4-2","pending":0}\n
last chunk
> GET /d/_changes?descending=true&since=3-2
HTTP/1.1 200 OK, JSON in chunks:
d
{"results":[\n
30
{"seq":"4-2","id":"a","changes":[{"rev":"2-b"}]}
22
\n],\n"last_seq":"4-2","pending":0}\n
last chunk
> DELETE /d
HTTP/1.1 200 OK, JSON of 12:
{"ok":true}\n
> GET /d
HTTP/1.1 404 Not Found, JSON of 58:
{"error":"not_found","reason":"Database does not exist."}\n
> PUT /d
HTTP/1.1 201 Created, JSON of 12:
{"ok":true}\n
> GET /d
HTTP/1.1 200 OK, JSON of 93:
{"db_name":"d","doc_count":0,"doc_del_count":0,"update_seq":"0-3","instance_start_time":"0"}\n
> POST /d/_bulk_docs {"docs":[{"_id":"a","_rev":"1-a"}],"new_edits":false}
HTTP/1.1 201 Created, JSON of 3:
[]\n
> GET /d/_changes?since=3-2
HTTP/1.1 200 OK, JSON in chunks:
d
{"results":[\n
30
{"seq":"1-3","id":"a","changes":[{"rev":"1-a"}]}
22
\n],\n"last_seq":"1-3","pending":0}\n
last chunk
"#;
