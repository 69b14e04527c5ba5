//! The hub over readers and writers as networks have them: of one byte a call, cut, broken, interrupted.

/// Wherever a writer breaks, its bytes are a front of the whole answer.
pub(crate) const WRITERS: &str = r#"
# wherever a writer breaks, what it took is a front
> break PUT /d
a front of it, wherever the writer breaks
> PUT /d
HTTP/1.1 201 Created, JSON of 12:
{"ok":true}\n
> break POST /d/_bulk_docs {"docs":[{"_id":"a","_rev":"1-a"},{"_id":"b","_rev":"1-b"}],"new_edits":false}
a front of it, wherever the writer breaks
> POST /d/_bulk_docs {"docs":[{"_id":"a","_rev":"1-a"},{"_id":"b","_rev":"1-b"}],"new_edits":false}
HTTP/1.1 201 Created, JSON of 3:
[]\n
> break GET /d/_changes
a front of it, wherever the writer breaks
> GET /d/_changes
HTTP/1.1 200 OK, JSON in chunks:
d
{"results":[\n
30
{"seq":"1-1","id":"a","changes":[{"rev":"1-a"}]}
32
,\n{"seq":"2-1","id":"b","changes":[{"rev":"1-b"}]}
22
\n],\n"last_seq":"2-1","pending":0}\n
last chunk
"#;

/// Wherever a reader fails or a head ends, the requests before that are answered, and nothing else.
pub(crate) const READERS: &str = r#"
# wherever a reader fails, the requests before are answered and nothing else; interruptions change nothing
> fail PUT /d
0: the input can't be read
> PUT /d
HTTP/1.1 201 Created, JSON of 12:
{"ok":true}\n
> fail POST /d/_bulk_docs {"docs":[{"_id":"a","_rev":"1-a"},{"_id":"b","_rev":"1-b"}],"new_edits":false}
0: the input can't be read
> POST /d/_bulk_docs {"docs":[{"_id":"a","_rev":"1-a"},{"_id":"b","_rev":"1-b"}],"new_edits":false}
HTTP/1.1 201 Created, JSON of 3:
[]\n
> fail GET /d/_changes
0: the input can't be read
> GET /d/_changes
HTTP/1.1 200 OK, JSON in chunks:
d
{"results":[\n
30
{"seq":"1-1","id":"a","changes":[{"rev":"1-a"}]}
32
,\n{"seq":"2-1","id":"b","changes":[{"rev":"1-b"}]}
22
\n],\n"last_seq":"2-1","pending":0}\n
last chunk
# a head that ends behind any of its bytes but the last has no answer; before its first byte there is no request
> cut bytes PUT /d HTTP/1.1\r\nHost: h\r\n\r\n
0: the input ended after a request
1: the input ended in the middle of a request
"#;

/// A feed whose client asks to close is sent to its end.
pub(crate) const CLOSING_FEED: &str = r#"
# a feed whose client asks to close is sent to its end, and nothing is answered behind it
> PUT /d
HTTP/1.1 201 Created, JSON of 12:
{"ok":true}\n
> send bytes GET /d/_changes?feed=continuous HTTP/1.1\r\nConnection: CLOSE\r\n\r\nPUT /e HTTP/1.1\r\n\r\n
HTTP/1.1 200 OK, JSON in chunks
Connection: close:
1f
{"last_seq":"0-1","pending":0}\n
last chunk
closed: the last request asked to close
"#;
