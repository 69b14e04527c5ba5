//! Sessions that are stepped.

use crate::holding::Holding;
use hub_transcript::replay;
use std::test::Fail;

// A session waits once for each of its ten items. Where there is no memory for bytes that come, the client
// gets a refusal after the earlier answers.
const STEPPED: &str = r#"
# a session, whatever the cuts of its input and of its output
> ask PUT /d HTTP/1.1\r\nHost: h\r\ncontent-length: 2\r\n\r\n{}
> ask GET /normal HTTP/1.1\r\n\r\n
> ask HEAD /normal HTTP/1.1\r\n\r\n
> ask HEAD /x HTTP/1.1\r\n\r\n
> ask GET /longpoll HTTP/1.1\r\n\r\n
> ask GET /continuous HTTP/1.1\r\n\r\n
> ask PUT /d HTTP/1.1\r\n\r\n
> drive
Finished
> output
HTTP/1.1 201 Created\r\n
Content-Type: application/json\r\n
Content-Length: 12\r\n
\r\n
{"ok":true}\n
HTTP/1.1 200 OK\r\n
Content-Type: application/json\r\n
Transfer-Encoding: chunked\r\n
\r\n
d\r\n
{"results":[\n
\r\n
30\r\n
{"seq":"1-1","id":"a","changes":[{"rev":"1-a"}]}\r\n
41\r\n
,\n
{"seq":"2-1","id":"b","changes":[{"rev":"2-b"}],"deleted":true}\r\n
22\r\n
\n
],\n
"last_seq":"2-1","pending":0}\n
\r\n
0\r\n
\r\n
HTTP/1.1 200 OK\r\n
Content-Type: application/json\r\n
Transfer-Encoding: chunked\r\n
\r\n
HTTP/1.1 404 Not Found\r\n
Content-Type: application/json\r\n
Content-Length: 41\r\n
\r\n
HTTP/1.1 200 OK\r\n
Content-Type: application/json\r\n
Transfer-Encoding: chunked\r\n
\r\n
d\r\n
{"results":[\n
\r\n
1\r\n
\n
\r\n
30\r\n
{"seq":"1-1","id":"a","changes":[{"rev":"1-a"}]}\r\n
22\r\n
\n
],\n
"last_seq":"2-1","pending":0}\n
\r\n
0\r\n
\r\n
HTTP/1.1 200 OK\r\n
Content-Type: application/json\r\n
Transfer-Encoding: chunked\r\n
\r\n
31\r\n
{"seq":"1-1","id":"a","changes":[{"rev":"1-a"}]}\n
\r\n
40\r\n
{"seq":"2-1","id":"b","changes":[{"rev":"2-b"}],"deleted":true}\n
\r\n
1\r\n
\n
\r\n
1f\r\n
{"last_seq":"2-1","pending":0}\n
\r\n
0\r\n
\r\n
HTTP/1.1 201 Created\r\n
Content-Type: application/json\r\n
Content-Length: 12\r\n
\r\n
{"ok":true}\n
> waits
10
> ample
> read_by 1
> write_by 1
> drive
Finished
> output
as before
> waits
10
> ample
> read_by 1
> drive
Finished
> output
as before
> waits
10
> ample
> read_by 7
> write_by 3
> drive
Finished
> output
as before
> waits
10
> ample
> write_by 1
> drive
Finished
> output
as before
> waits
10

# behind the answer that closes no request is answered
> ask PUT /d HTTP/1.1\r\n\r\n
> ask GET / HTTP/1.0\r\n\r\nPUT /d HTTP/1.1\r\n\r\n
> write_by 2
> drive
Fault(Version)
> output
HTTP/1.1 201 Created\r\n
Content-Type: application/json\r\n
Content-Length: 12\r\n
\r\n
{"ok":true}\n
HTTP/1.1 505 HTTP Version Not Supported\r\n
Content-Type: application/json\r\n
Content-Length: 50\r\n
Connection: close\r\n
\r\n
{"error":"http_version","reason":"HTTP/1.1 only"}\n
> waits
0
> ample
> read_by 1
> write_by 2
> drive
Fault(Version)
> output
as before
> waits
0

# no memory behind nothing
> lose
Fault(NoMemory)
> output
HTTP/1.1 503 Service Unavailable\r\n
Content-Type: application/json\r\n
Content-Length: 51\r\n
Connection: close\r\n
\r\n
{"error":"out_of_memory","reason":"out of memory"}\n

# no memory in a head
> ask GET /nor
> lose
Fault(NoMemory)
> output
HTTP/1.1 503 Service Unavailable\r\n
Content-Type: application/json\r\n
Content-Length: 51\r\n
Connection: close\r\n
\r\n
{"error":"out_of_memory","reason":"out of memory"}\n

# no memory behind requests
> ask PUT /d HTTP/1.1\r\n\r\n
> ask GET /normal HTTP/1.1\r\n\r\n
> lose
Fault(NoMemory)
> output
HTTP/1.1 201 Created\r\n
Content-Type: application/json\r\n
Content-Length: 12\r\n
\r\n
{"ok":true}\n
HTTP/1.1 200 OK\r\n
Content-Type: application/json\r\n
Transfer-Encoding: chunked\r\n
\r\n
d\r\n
{"results":[\n
\r\n
30\r\n
{"seq":"1-1","id":"a","changes":[{"rev":"1-a"}]}\r\n
41\r\n
,\n
{"seq":"2-1","id":"b","changes":[{"rev":"2-b"}],"deleted":true}\r\n
22\r\n
\n
],\n
"last_seq":"2-1","pending":0}\n
\r\n
0\r\n
\r\n
HTTP/1.1 503 Service Unavailable\r\n
Content-Type: application/json\r\n
Content-Length: 51\r\n
Connection: close\r\n
\r\n
{"error":"out_of_memory","reason":"out of memory"}\n
"#;

#[test]
fn sessions_that_are_stepped(rt: HostRuntime) -> Result<(), Fail> {
    replay::<Holding, _>(&rt, rt.alloc(), STEPPED)
}
