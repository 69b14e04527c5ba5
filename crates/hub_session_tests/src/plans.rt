//! Where sessions flush, and which streams they give back.
//!
//! The head of a stream has 79 bytes, and a chunk of n bytes has n, its digits and 4. So the first chunk of
//! the feed of two rows has 18, its rows have 54 and 71, and its End begins at 222.

use crate::holding::Holding;
use hub_transcript::replay;
use std::test::Fail;

// Whole answers are flushed, each after its last byte, and so is the reply to a fault. A stream is flushed
// before an item that is not ready, at its end, and where it stops.
const FLUSHES: &str = r#"
# two answers are flushed
> ask PUT /d HTTP/1.1\r\n\r\n
> ask PUT /d HTTP/1.1\r\n\r\n
> serve
Finished
> output
HTTP/1.1 201 Created\r\n
Content-Type: application/json\r\n
Content-Length: 12\r\n
\r\n
{"ok":true}\n
HTTP/1.1 201 Created\r\n
Content-Type: application/json\r\n
Content-Length: 12\r\n
\r\n
{"ok":true}\n
> writes
2
> flushes
[88, 176]

# a refusal is flushed
> ask GET /x HTTP/1.1\r\n\r\n
> serve
Finished
> output
HTTP/1.1 404 Not Found\r\n
Content-Type: application/json\r\n
Content-Length: 41\r\n
\r\n
{"error":"not_found","reason":"missing"}\n
> writes
1
> flushes
[119]

# a head is flushed
> ask HEAD /d HTTP/1.1\r\n\r\n
> serve
Finished
> output
HTTP/1.1 201 Created\r\n
Content-Type: application/json\r\n
Content-Length: 12\r\n
\r\n
> writes
1
> flushes
[76]

# the head of a feed is flushed
> ask HEAD /normal HTTP/1.1\r\n\r\n
> serve
Finished
> output
HTTP/1.1 200 OK\r\n
Content-Type: application/json\r\n
Transfer-Encoding: chunked\r\n
\r\n
> writes
1
> flushes
[79]

# the reply to a fault is flushed
> ask GET / HTTP/1.0\r\n\r\n
> serve
Fault(Version)
> output
HTTP/1.1 505 HTTP Version Not Supported\r\n
Content-Type: application/json\r\n
Content-Length: 50\r\n
Connection: close\r\n
\r\n
{"error":"http_version","reason":"HTTP/1.1 only"}\n
> writes
1
> flushes
[164]

# a feed is flushed at its end, and before each row and End that is not ready
> ask GET /normal HTTP/1.1\r\n\r\n
> serve
Finished
> output
HTTP/1.1 200 OK\r\n
Content-Type: application/json\r\n
Transfer-Encoding: chunked\r\n
\r\n
d\r\n
{"results":[\n
\r\n
30\r\n
{"seq":"1-1","id":"a","changes":[{"rev":"1-a"}]}\r\n
41\r\n
,\n
{"seq":"2-1","id":"b","changes":[{"rev":"2-b"}],"deleted":true}\r\n
22\r\n
\n
],\n
"last_seq":"2-1","pending":0}\n
\r\n
0\r\n
\r\n
> writes
6
> flushes
[267]
> late 0
> late 2
> serve
Finished
> output
as before
> writes
6
> flushes
[97, 222, 267]

# a longpoll feed is flushed before its row, and before each item
> ask GET /longpoll HTTP/1.1\r\n\r\n
> late 1
> serve
Finished
> output
HTTP/1.1 200 OK\r\n
Content-Type: application/json\r\n
Transfer-Encoding: chunked\r\n
\r\n
d\r\n
{"results":[\n
\r\n
1\r\n
\n
\r\n
30\r\n
{"seq":"1-1","id":"a","changes":[{"rev":"1-a"}]}\r\n
22\r\n
\n
],\n
"last_seq":"2-1","pending":0}\n
\r\n
0\r\n
\r\n
> writes
6
> flushes
[103, 202]
> late 0
> late 2
> late 3
> serve
Finished
> output
as before
> writes
6
> flushes
[97, 103, 157, 202]

# a continuous feed is flushed before its End, and before each item
> ask GET /continuous HTTP/1.1\r\n\r\n
> late 3
> serve
Finished
> output
HTTP/1.1 200 OK\r\n
Content-Type: application/json\r\n
Transfer-Encoding: chunked\r\n
\r\n
31\r\n
{"seq":"1-1","id":"a","changes":[{"rev":"1-a"}]}\n
\r\n
40\r\n
{"seq":"2-1","id":"b","changes":[{"rev":"2-b"}],"deleted":true}\n
\r\n
1\r\n
\n
\r\n
1f\r\n
{"last_seq":"2-1","pending":0}\n
\r\n
0\r\n
\r\n
> writes
6
> flushes
[210, 252]
> late 0
> late 1
> late 2
> late 4
> serve
Finished
> output
as before
> writes
6
> flushes
[79, 134, 204, 210, 252]

# a stopped stream is flushed
> ask GET /normal HTTP/1.1\r\n\r\n
> stops
> serve
Cut
> output
HTTP/1.1 200 OK\r\n
Content-Type: application/json\r\n
Transfer-Encoding: chunked\r\n
\r\n
d\r\n
{"results":[\n
\r\n
30\r\n
{"seq":"1-1","id":"a","changes":[{"rev":"1-a"}]}\r\n
41\r\n
,\n
{"seq":"2-1","id":"b","changes":[{"rev":"2-b"}],"deleted":true}\r\n
> flushes
[222]
"#;

#[test]
fn sessions_flush_where_they_should(rt: HostRuntime) -> Result<(), Fail> {
    replay::<Holding, _>(&rt, rt.alloc(), FLUSHES)
}

// A stream that is not sent to its End is given back, once. After its End there is nothing to give back,
// and a whole answer gives nothing back.
const GIVEN_BACK: &str = r#"
# a whole feed
> ask GET /normal HTTP/1.1\r\n\r\n
> room 267
> serve
Finished
> output
HTTP/1.1 200 OK\r\n
Content-Type: application/json\r\n
Transfer-Encoding: chunked\r\n
\r\n
d\r\n
{"results":[\n
\r\n
30\r\n
{"seq":"1-1","id":"a","changes":[{"rev":"1-a"}]}\r\n
41\r\n
,\n
{"seq":"2-1","id":"b","changes":[{"rev":"2-b"}],"deleted":true}\r\n
22\r\n
\n
],\n
"last_seq":"2-1","pending":0}\n
\r\n
0\r\n
\r\n
> given_back
0

# a feed that stops
> ask GET /normal HTTP/1.1\r\n\r\n
> room 267
> stops
> serve
Cut
> output
HTTP/1.1 200 OK\r\n
Content-Type: application/json\r\n
Transfer-Encoding: chunked\r\n
\r\n
d\r\n
{"results":[\n
\r\n
30\r\n
{"seq":"1-1","id":"a","changes":[{"rev":"1-a"}]}\r\n
41\r\n
,\n
{"seq":"2-1","id":"b","changes":[{"rev":"2-b"}],"deleted":true}\r\n
> given_back
1

# a feed broken in its head
> ask GET /normal HTTP/1.1\r\n\r\n
> room 20
> serve
Broken
> output
HTTP/1.1 200 OK\r\n
Con
> given_back
1

# a feed broken in its first chunk
> ask GET /normal HTTP/1.1\r\n\r\n
> room 85
> serve
Broken
> output
HTTP/1.1 200 OK\r\n
Content-Type: application/json\r\n
Transfer-Encoding: chunked\r\n
\r\n
d\r\n
{"r
> given_back
1

# a feed broken in its first row
> ask GET /normal HTTP/1.1\r\n\r\n
> room 120
> serve
Broken
> output
HTTP/1.1 200 OK\r\n
Content-Type: application/json\r\n
Transfer-Encoding: chunked\r\n
\r\n
d\r\n
{"results":[\n
\r\n
30\r\n
{"seq":"1-1","id":"
> given_back
1

# a feed broken in its last chunk
> ask GET /normal HTTP/1.1\r\n\r\n
> room 266
> serve
Broken
> output
HTTP/1.1 200 OK\r\n
Content-Type: application/json\r\n
Transfer-Encoding: chunked\r\n
\r\n
d\r\n
{"results":[\n
\r\n
30\r\n
{"seq":"1-1","id":"a","changes":[{"rev":"1-a"}]}\r\n
41\r\n
,\n
{"seq":"2-1","id":"b","changes":[{"rev":"2-b"}],"deleted":true}\r\n
22\r\n
\n
],\n
"last_seq":"2-1","pending":0}\n
\r\n
0\r\n
\r
> given_back
0

# a head of a feed
> ask HEAD /normal HTTP/1.1\r\n\r\n
> room 267
> serve
Finished
> output
HTTP/1.1 200 OK\r\n
Content-Type: application/json\r\n
Transfer-Encoding: chunked\r\n
\r\n
> given_back
1

# a broken head of a feed
> ask HEAD /normal HTTP/1.1\r\n\r\n
> room 20
> serve
Broken
> output
HTTP/1.1 200 OK\r\n
Con
> given_back
1

# a broken answer
> ask PUT /d HTTP/1.1\r\n\r\n
> room 20
> serve
Broken
> output
HTTP/1.1 201 Created
> given_back
0

# a stepped session that is given up while it sends a stream
> ask GET /normal HTTP/1.1\r\n\r\n
> give_up
Broken
> given_back
1
"#;

#[test]
fn a_stream_is_given_back_once(rt: HostRuntime) -> Result<(), Fail> {
    replay::<Holding, _>(&rt, rt.alloc(), GIVEN_BACK)
}
