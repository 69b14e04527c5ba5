//! Sessions over readers and writers: exchanges, closings, interruptions, and requests that cannot be read.

use crate::holding::Holding;
use hub_transcript::replay;
use std::test::Fail;

// Two normal and two continuous feeds of updates are sent. The end of such a feed names no pending rows.
const WHOLE: &str = r#"
# a session, whatever the cuts of its input and of its output
> ask PUT /d HTTP/1.1\r\nHost: h\r\ncontent-length: 2\r\n\r\n{}
> ask GET /normal HTTP/1.1\r\n\r\n
> ask HEAD /normal HTTP/1.1\r\n\r\n
> ask HEAD /x HTTP/1.1\r\n\r\n
> ask GET /longpoll HTTP/1.1\r\n\r\n
> ask GET /continuous HTTP/1.1\r\n\r\n
> ask PUT /d HTTP/1.1\r\n\r\n
> read_by 1
> serve
Finished
> output
HTTP/1.1 201 Created\r\n
Content-Type: application/json\r\n
Content-Length: 12\r\n
\r\n
{"ok":true}\n
HTTP/1.1 200 OK\r\n
Content-Type: application/json\r\n
Transfer-Encoding: chunked\r\n
\r\n
d\r\n
{"results":[\n
\r\n
30\r\n
{"seq":"1-1","id":"a","changes":[{"rev":"1-a"}]}\r\n
41\r\n
,\n
{"seq":"2-1","id":"b","changes":[{"rev":"2-b"}],"deleted":true}\r\n
22\r\n
\n
],\n
"last_seq":"2-1","pending":0}\n
\r\n
0\r\n
\r\n
HTTP/1.1 200 OK\r\n
Content-Type: application/json\r\n
Transfer-Encoding: chunked\r\n
\r\n
HTTP/1.1 404 Not Found\r\n
Content-Type: application/json\r\n
Content-Length: 41\r\n
\r\n
HTTP/1.1 200 OK\r\n
Content-Type: application/json\r\n
Transfer-Encoding: chunked\r\n
\r\n
d\r\n
{"results":[\n
\r\n
1\r\n
\n
\r\n
30\r\n
{"seq":"1-1","id":"a","changes":[{"rev":"1-a"}]}\r\n
22\r\n
\n
],\n
"last_seq":"2-1","pending":0}\n
\r\n
0\r\n
\r\n
HTTP/1.1 200 OK\r\n
Content-Type: application/json\r\n
Transfer-Encoding: chunked\r\n
\r\n
31\r\n
{"seq":"1-1","id":"a","changes":[{"rev":"1-a"}]}\n
\r\n
40\r\n
{"seq":"2-1","id":"b","changes":[{"rev":"2-b"}],"deleted":true}\n
\r\n
1\r\n
\n
\r\n
1f\r\n
{"last_seq":"2-1","pending":0}\n
\r\n
0\r\n
\r\n
HTTP/1.1 201 Created\r\n
Content-Type: application/json\r\n
Content-Length: 12\r\n
\r\n
{"ok":true}\n
> ample
> fails
> serve
Fault(IoFault)
> output
as before
> ample
> write_by 1
> serve
Finished
> output
as before
> writes
1054
> faults
0
> ample
> read_by 1
> write_by 1
> interrupted 0
> serve
Finished
> output
as before
> ample
> read_by 1
> write_by 1
> interrupted 1
> serve
Finished
> output
as before
> ample
> read_by 1
> write_by 1
> interrupted 2
> serve
Finished
> output
as before
> ample
> read_by 1
> write_by 1
> interrupted 3
> serve
Finished
> output
as before

# the last of two requests closes
> ask PUT /d HTTP/1.1\r\n\r\n
> ask PUT /d HTTP/1.1\r\nConnection: CLOSE\r\n\r\nPUT /d HTTP/1.1\r\n\r\n
> read_by 1
> serve
Requested
> output
HTTP/1.1 201 Created\r\n
Content-Type: application/json\r\n
Content-Length: 12\r\n
\r\n
{"ok":true}\n
HTTP/1.1 201 Created\r\n
Content-Type: application/json\r\n
Content-Length: 12\r\n
Connection: close\r\n
\r\n
{"ok":true}\n

# a head that closes
> ask HEAD /normal HTTP/1.1\r\nConnection: close\r\n\r\nPUT /d HTTP/1.1\r\n\r\n
> read_by 1
> serve
Requested
> output
HTTP/1.1 200 OK\r\n
Content-Type: application/json\r\n
Transfer-Encoding: chunked\r\n
Connection: close\r\n
\r\n

# a stopped stream
> ask GET /normal HTTP/1.1\r\n\r\nPUT /d HTTP/1.1\r\n\r\n
> read_by 1
> stops
> serve
Cut
> output
HTTP/1.1 200 OK\r\n
Content-Type: application/json\r\n
Transfer-Encoding: chunked\r\n
\r\n
d\r\n
{"results":[\n
\r\n
30\r\n
{"seq":"1-1","id":"a","changes":[{"rev":"1-a"}]}\r\n
41\r\n
,\n
{"seq":"2-1","id":"b","changes":[{"rev":"2-b"}],"deleted":true}\r\n

# one request alone is served
> ask PUT /d HTTP/1.1\r\n\r\nPUT /d HTTP/1.1\r\n\r\n
> serve_one
goes on
> output
HTTP/1.1 201 Created\r\n
Content-Type: application/json\r\n
Content-Length: 12\r\n
\r\n
{"ok":true}\n

# a stream is sent without the head of its answer
> stream
goes on
> output
d\r\n
{"results":[\n
\r\n
30\r\n
{"seq":"1-1","id":"a","changes":[{"rev":"1-a"}]}\r\n
41\r\n
,\n
{"seq":"2-1","id":"b","changes":[{"rev":"2-b"}],"deleted":true}\r\n
22\r\n
\n
],\n
"last_seq":"2-1","pending":0}\n
\r\n
0\r\n
\r\n

# requests that ended are not answered
> ask GET / HTTP/1.0\r\n\r\nPUT /d HTTP/1.1\r\n\r\n
> serve
Fault(Version)
> output
HTTP/1.1 505 HTTP Version Not Supported\r\n
Content-Type: application/json\r\n
Content-Length: 50\r\n
Connection: close\r\n
\r\n
{"error":"http_version","reason":"HTTP/1.1 only"}\n
> serve_again
Fault(Ended)
> output
as before
> faults
0

# a head that is none
> ask GET / HTTP/1.1\r\nHost h\r\n\r\n
> read_by 1
> serve
Fault(BadHead)
> output
HTTP/1.1 400 Bad Request\r\n
Content-Type: application/json\r\n
Content-Length: 44\r\n
Connection: close\r\n
\r\n
{"error":"bad_request","reason":"bad head"}\n

# a body that is too long
> ask GET / HTTP/1.1\r\nContent-Length: 8388609\r\n\r\n
> read_by 1
> serve
Fault(BodyTooLong)
> output
HTTP/1.1 413 Payload Too Large\r\n
Content-Type: application/json\r\n
Content-Length: 47\r\n
Connection: close\r\n
\r\n
{"error":"too_large","reason":"body too long"}\n

# another version
> ask GET / HTTP/1.0\r\n\r\nPUT /d HTTP/1.1\r\n\r\n
> read_by 1
> serve
Fault(Version)
> output
HTTP/1.1 505 HTTP Version Not Supported\r\n
Content-Type: application/json\r\n
Content-Length: 50\r\n
Connection: close\r\n
\r\n
{"error":"http_version","reason":"HTTP/1.1 only"}\n

# a transfer coding
> ask GET / HTTP/1.1\r\nTransfer-Encoding: chunked\r\n\r\n
> read_by 1
> serve
Fault(Coding)
> output
HTTP/1.1 501 Not Implemented\r\n
Content-Type: application/json\r\n
Content-Length: 58\r\n
Connection: close\r\n
\r\n
{"error":"not_implemented","reason":"no transfer coding"}\n

# a head that ends
> ask GET / HTTP/1.1\r\n
> read_by 1
> serve
Fault(Ended)
> output
as before

# updates
> ask GET /updates HTTP/1.1\r\n\r\n
> ask GET /updates HTTP/1.1\r\n\r\n
> serve
Finished
> output
HTTP/1.1 200 OK\r\n
Content-Type: application/json\r\n
Transfer-Encoding: chunked\r\n
\r\n
d\r\n
{"results":[\n
\r\n
2c\r\n
{"db_name":"d","type":"created","seq":"1-0"}\r\n
2e\r\n
,\n
{"db_name":"d","type":"updated","seq":"2-0"}\r\n
2e\r\n
,\n
{"db_name":"d","type":"deleted","seq":"3-0"}\r\n
16\r\n
\n
],\n
"last_seq":"3-0"}\n
\r\n
0\r\n
\r\n
HTTP/1.1 200 OK\r\n
Content-Type: application/json\r\n
Transfer-Encoding: chunked\r\n
\r\n
d\r\n
{"results":[\n
\r\n
2c\r\n
{"db_name":"d","type":"created","seq":"1-0"}\r\n
2e\r\n
,\n
{"db_name":"d","type":"updated","seq":"2-0"}\r\n
2e\r\n
,\n
{"db_name":"d","type":"deleted","seq":"3-0"}\r\n
16\r\n
\n
],\n
"last_seq":"3-0"}\n
\r\n
0\r\n
\r\n

# continuous updates
> ask GET /updates/continuous HTTP/1.1\r\n\r\n
> ask GET /updates/continuous HTTP/1.1\r\n\r\n
> serve
Finished
> output
HTTP/1.1 200 OK\r\n
Content-Type: application/json\r\n
Transfer-Encoding: chunked\r\n
\r\n
2d\r\n
{"db_name":"d","type":"created","seq":"1-0"}\n
\r\n
2d\r\n
{"db_name":"d","type":"updated","seq":"2-0"}\n
\r\n
2d\r\n
{"db_name":"d","type":"deleted","seq":"3-0"}\n
\r\n
13\r\n
{"last_seq":"3-0"}\n
\r\n
0\r\n
\r\n
HTTP/1.1 200 OK\r\n
Content-Type: application/json\r\n
Transfer-Encoding: chunked\r\n
\r\n
2d\r\n
{"db_name":"d","type":"created","seq":"1-0"}\n
\r\n
2d\r\n
{"db_name":"d","type":"updated","seq":"2-0"}\n
\r\n
2d\r\n
{"db_name":"d","type":"deleted","seq":"3-0"}\n
\r\n
13\r\n
{"last_seq":"3-0"}\n
\r\n
0\r\n
\r\n
"#;

#[test]
fn sessions(rt: HostRuntime) -> Result<(), Fail> {
    replay::<Holding, _>(&rt, rt.alloc(), WHOLE)
}
