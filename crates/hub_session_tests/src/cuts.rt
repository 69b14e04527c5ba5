//! Sessions whose input or output ends anywhere.

use crate::holding::Holding;
use hub_transcript::replay;
use std::test::Fail;

// Wherever an input ends, or its reader fails, the requests before that are answered, and nothing else. A
// whole request is answered before the next read.
const CUTS: &str = r#"
# a reader that fails, or ends
> ask PUT /d HTTP/1.1\r\nHost: h\r\ncontent-length: 2\r\n\r\n{}
> ask GET /normal HTTP/1.1\r\n\r\n
> ask HEAD /normal HTTP/1.1\r\n\r\n
> ask HEAD /x HTTP/1.1\r\n\r\n
> ask GET /longpoll HTTP/1.1\r\n\r\n
> ask GET /continuous HTTP/1.1\r\n\r\n
> ask PUT /d HTTP/1.1\r\n\r\n
> serve
Finished
> output
HTTP/1.1 201 Created\r\n
Content-Type: application/json\r\n
Content-Length: 12\r\n
\r\n
{"ok":true}\n
HTTP/1.1 200 OK\r\n
Content-Type: application/json\r\n
Transfer-Encoding: chunked\r\n
\r\n
d\r\n
{"results":[\n
\r\n
30\r\n
{"seq":"1-1","id":"a","changes":[{"rev":"1-a"}]}\r\n
41\r\n
,\n
{"seq":"2-1","id":"b","changes":[{"rev":"2-b"}],"deleted":true}\r\n
22\r\n
\n
],\n
"last_seq":"2-1","pending":0}\n
\r\n
0\r\n
\r\n
HTTP/1.1 200 OK\r\n
Content-Type: application/json\r\n
Transfer-Encoding: chunked\r\n
\r\n
HTTP/1.1 404 Not Found\r\n
Content-Type: application/json\r\n
Content-Length: 41\r\n
\r\n
HTTP/1.1 200 OK\r\n
Content-Type: application/json\r\n
Transfer-Encoding: chunked\r\n
\r\n
d\r\n
{"results":[\n
\r\n
1\r\n
\n
\r\n
30\r\n
{"seq":"1-1","id":"a","changes":[{"rev":"1-a"}]}\r\n
22\r\n
\n
],\n
"last_seq":"2-1","pending":0}\n
\r\n
0\r\n
\r\n
HTTP/1.1 200 OK\r\n
Content-Type: application/json\r\n
Transfer-Encoding: chunked\r\n
\r\n
31\r\n
{"seq":"1-1","id":"a","changes":[{"rev":"1-a"}]}\n
\r\n
40\r\n
{"seq":"2-1","id":"b","changes":[{"rev":"2-b"}],"deleted":true}\n
\r\n
1\r\n
\n
\r\n
1f\r\n
{"last_seq":"2-1","pending":0}\n
\r\n
0\r\n
\r\n
HTTP/1.1 201 Created\r\n
Content-Type: application/json\r\n
Content-Length: 12\r\n
\r\n
{"ok":true}\n
> read_by 1
> fails
> cuts serve
from 0
Fault(IoFault)
0 bytes, a front true
0 faults, 0 waits
from 49
Fault(IoFault)
88 bytes, a front true
0 faults, 0 waits
from 73
Fault(IoFault)
355 bytes, a front true
0 faults, 0 waits
from 98
Fault(IoFault)
434 bytes, a front true
0 faults, 0 waits
from 118
Fault(IoFault)
512 bytes, a front true
0 faults, 0 waits
from 144
Fault(IoFault)
714 bytes, a front true
0 faults, 0 waits
from 172
Fault(IoFault)
966 bytes, a front true
0 faults, 0 waits
> ample
> read_by 1
> cuts serve
from 0
Finished
0 bytes, a front true
0 faults, 0 waits
from 1
Fault(Ended)
0 bytes, a front true
0 faults, 0 waits
from 49
Finished
88 bytes, a front true
0 faults, 0 waits
from 50
Fault(Ended)
88 bytes, a front true
0 faults, 0 waits
from 73
Finished
355 bytes, a front true
0 faults, 0 waits
from 74
Fault(Ended)
355 bytes, a front true
0 faults, 0 waits
from 98
Finished
434 bytes, a front true
0 faults, 0 waits
from 99
Fault(Ended)
434 bytes, a front true
0 faults, 0 waits
from 118
Finished
512 bytes, a front true
0 faults, 0 waits
from 119
Fault(Ended)
512 bytes, a front true
0 faults, 0 waits
from 144
Finished
714 bytes, a front true
0 faults, 0 waits
from 145
Fault(Ended)
714 bytes, a front true
0 faults, 0 waits
from 172
Finished
966 bytes, a front true
0 faults, 0 waits
from 173
Fault(Ended)
966 bytes, a front true
0 faults, 0 waits

# a stepped session whose input ends
> ask PUT /d HTTP/1.1\r\nHost: h\r\ncontent-length: 2\r\n\r\n{}
> ask GET /normal HTTP/1.1\r\n\r\n
> serve
Finished
> output
HTTP/1.1 201 Created\r\n
Content-Type: application/json\r\n
Content-Length: 12\r\n
\r\n
{"ok":true}\n
HTTP/1.1 200 OK\r\n
Content-Type: application/json\r\n
Transfer-Encoding: chunked\r\n
\r\n
d\r\n
{"results":[\n
\r\n
30\r\n
{"seq":"1-1","id":"a","changes":[{"rev":"1-a"}]}\r\n
41\r\n
,\n
{"seq":"2-1","id":"b","changes":[{"rev":"2-b"}],"deleted":true}\r\n
22\r\n
\n
],\n
"last_seq":"2-1","pending":0}\n
\r\n
0\r\n
\r\n
> read_by 5
> cuts drive
from 0
Finished
0 bytes, a front true
0 faults, 0 waits
from 1
Fault(Ended)
0 bytes, a front true
0 faults, 0 waits
from 49
Finished
88 bytes, a front true
0 faults, 0 waits
from 50
Fault(Ended)
88 bytes, a front true
0 faults, 0 waits
"#;

#[test]
fn cut_inputs(rt: HostRuntime) -> Result<(), Fail> {
    replay::<Holding, _>(&rt, rt.alloc(), CUTS)
}

// A writer holds the front of the answers for which it has room.
const BREAKS: &str = r#"
# a writer that breaks
> ask PUT /d HTTP/1.1\r\nHost: h\r\ncontent-length: 2\r\n\r\n{}
> ask GET /normal HTTP/1.1\r\n\r\n
> ask HEAD /normal HTTP/1.1\r\n\r\n
> ask HEAD /x HTTP/1.1\r\n\r\n
> ask GET /longpoll HTTP/1.1\r\n\r\n
> ask GET /continuous HTTP/1.1\r\n\r\n
> ask PUT /d HTTP/1.1\r\n\r\n
> ask GET / HTTP/1.0\r\n\r\n
> serve
Fault(Version)
> output
HTTP/1.1 201 Created\r\n
Content-Type: application/json\r\n
Content-Length: 12\r\n
\r\n
{"ok":true}\n
HTTP/1.1 200 OK\r\n
Content-Type: application/json\r\n
Transfer-Encoding: chunked\r\n
\r\n
d\r\n
{"results":[\n
\r\n
30\r\n
{"seq":"1-1","id":"a","changes":[{"rev":"1-a"}]}\r\n
41\r\n
,\n
{"seq":"2-1","id":"b","changes":[{"rev":"2-b"}],"deleted":true}\r\n
22\r\n
\n
],\n
"last_seq":"2-1","pending":0}\n
\r\n
0\r\n
\r\n
HTTP/1.1 200 OK\r\n
Content-Type: application/json\r\n
Transfer-Encoding: chunked\r\n
\r\n
HTTP/1.1 404 Not Found\r\n
Content-Type: application/json\r\n
Content-Length: 41\r\n
\r\n
HTTP/1.1 200 OK\r\n
Content-Type: application/json\r\n
Transfer-Encoding: chunked\r\n
\r\n
d\r\n
{"results":[\n
\r\n
1\r\n
\n
\r\n
30\r\n
{"seq":"1-1","id":"a","changes":[{"rev":"1-a"}]}\r\n
22\r\n
\n
],\n
"last_seq":"2-1","pending":0}\n
\r\n
0\r\n
\r\n
HTTP/1.1 200 OK\r\n
Content-Type: application/json\r\n
Transfer-Encoding: chunked\r\n
\r\n
31\r\n
{"seq":"1-1","id":"a","changes":[{"rev":"1-a"}]}\n
\r\n
40\r\n
{"seq":"2-1","id":"b","changes":[{"rev":"2-b"}],"deleted":true}\n
\r\n
1\r\n
\n
\r\n
1f\r\n
{"last_seq":"2-1","pending":0}\n
\r\n
0\r\n
\r\n
HTTP/1.1 201 Created\r\n
Content-Type: application/json\r\n
Content-Length: 12\r\n
\r\n
{"ok":true}\n
HTTP/1.1 505 HTTP Version Not Supported\r\n
Content-Type: application/json\r\n
Content-Length: 50\r\n
Connection: close\r\n
\r\n
{"error":"http_version","reason":"HTTP/1.1 only"}\n
> breaks serve
from 0
Broken
0 bytes, a front true
1 faults, 0 waits
"#;

#[test]
fn broken_writers(rt: HostRuntime) -> Result<(), Fail> {
    replay::<Holding, _>(&rt, rt.alloc(), BREAKS)
}
