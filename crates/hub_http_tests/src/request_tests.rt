//! Requests of texts that are read at once.

use crate::reading::Reading;
use hub_transcript::replay;
use std::test::Fail;

const TEXTS: &str = r"
# whole requests, cut ones, and several
> read PUT /d HTTP/1.1\r\nHost: h\r\ncontent-length: 3\r\n\r\nabc
PUT /d, length: abc
end
> read
end
> read \r\n
Ended
> read \r\nGET / HTTP/1.1\r\n\r\n
GET /
end
> read PUT /d HTTP/1.1\r\nHost: h\r\ncontent-length: 3\r\n\r\nabcGET /d/_changes HTTP/1.1\r\nConnection: Close\r\n\r\nGET / HTTP/1.0\r\n\r\n
PUT /d, length: abc
GET /d/_changes, close
Version

# faults of heads
> read GET / HTTP/1.0\r\n\r\n
Version
> read GET / HTTP/2.0\r\n\r\n
BadHead
> read GET / HTTP/1.0\r\nTransfer-Encoding: chunked\r\n\r\n
Version
> read GET / HTTP/1.1\r\nTransfer-Encoding: chunked\r\n\r\n
Coding
> read GET * HTTP/1.1\r\ntransfer-encoding: x\r\n\r\n
Coding
> read OPTIONS * HTTP/1.1\r\n\r\n
BadHead
> read GET / HTTP/1.1\r\nHost h\r\n\r\n
BadHead
> read GET / HTTP/1.1\r\nContent-Length: +1\r\n\r\na
BadHead
> read GET / HTTP/1.1\r\nContent-Length:\r\n\r\n
BadHead
> read GET / HTTP/1.1\r\nContent-Length: 5, 5\r\n\r\nabcde
BadHead
> read GET / HTTP/1.1\r\nContent-Length: 5\r\nContent-Length: 6\r\n\r\nabcdef
BadHead
> read GET / HTTP/1.1\r\nContent-Length: 5\r\nContent-Length: 05\r\n\r\nabcde
BadHead
> read GET * HTTP/1.1\r\nContent-Length: 8388609\r\n\r\n
BadHead
> read GET / HTTP/1.1\r\nContent-Length: 8388609\r\n\r\n
BodyTooLong
> read GET / HTTP/1.1\r\nContent-Length: 99999999999999999999999\r\n\r\n
BodyTooLong

# lengths
> read GET / HTTP/1.1\r\nContent-Length: 5\r\ncontent-length: 5\r\n\r\nabcdeGET /
GET /, length: abcde
Ended
> read GET / HTTP/1.1\r\nContent-Length: 000000000000000000000002\r\n\r\nab
GET /, length: ab
end
> read GET / HTTP/1.1\r\nContent-Length: 8388608\r\n\r\nab
Ended

# options of the connection
> read GET / HTTP/1.1\r\n\r\n
GET /
end
> read GET / HTTP/1.1\r\nConnection: keep-alive, Close\r\n\r\n
GET /, close
end
> read GET / HTTP/1.1\r\nConnection: keep-alive ,\tclose\t ,x\r\n\r\n
GET /, close
end
> read GET / HTTP/1.1\r\nconnection: closed\r\n\r\n
GET /
end
> read GET / HTTP/1.1\r\nconnection: keep-alive close\r\n\r\n
GET /
end
> read GET / HTTP/1.1\r\nConnection: x\r\nConnection: CLOSE\r\n\r\n
GET /, close
end
> read GET / HTTP/1.1\r\nX-Connection: close\r\n\r\n
GET /
end

# a request that is cut at any byte has ended too early
> fronts PUT /d HTTP/1.1\r\nHost: h\r\ncontent-length: 3\r\n\r\nabc
from 0
end
end
from 1
Ended
Ended
from 50
PUT /d, length: abc
end
end

# a head has at most 64 fields
> add 1 GET / HTTP/1.1\r\n
> add 16 x: v\r\n
> add 1 \r\n
> all
GET /
end
> add 1 GET / HTTP/1.1\r\n
> add 17 x: v\r\n
> add 1 \r\n
> all
GET /
end
> add 1 GET / HTTP/1.1\r\n
> add 64 x: v\r\n
> add 1 \r\n
> all
GET /
end
> add 1 GET / HTTP/1.1\r\n
> add 65 x: v\r\n
> add 1 \r\n
> all
HeadTooLong

# a head has at most 16,384 bytes, of which the last four end it
> add 1 GET / HTTP/1.1\r\nx: v
> add 16360 v
> add 1 \r\n\r\n
> all
GET /
end
> add 1 GET / HTTP/1.1\r\nx: v
> add 16361 v
> add 1 \r\n\r\n
> all
HeadTooLong
> add 1 GET / HTTP/1.1\r\nx: v
> add 16363 v
> all
Ended
> add 1 GET / HTTP/1.1\r\nx: v
> add 16364 v
> all
HeadTooLong
> add 1 GET / HTTP/1.1\r\nx: v
> add 19980 v
> all
HeadTooLong

# long bodies, and a request behind each
> add 1 PUT / HTTP/1.1\r\nContent-Length: 4095\r\n\r\n
> add 4095
> add 1 PUT /d HTTP/1.1\r\nHost: h\r\ncontent-length: 3\r\n\r\nabc
> all
PUT /, length: 4095 counted bytes
PUT /d, length: abc
end
> add 1 PUT / HTTP/1.1\r\nContent-Length: 4096\r\n\r\n
> add 4096
> add 1 PUT /d HTTP/1.1\r\nHost: h\r\ncontent-length: 3\r\n\r\nabc
> all
PUT /, length: 4096 counted bytes
PUT /d, length: abc
end
> add 1 PUT / HTTP/1.1\r\nContent-Length: 4097\r\n\r\n
> add 4097
> add 1 PUT /d HTTP/1.1\r\nHost: h\r\ncontent-length: 3\r\n\r\nabc
> all
PUT /, length: 4097 counted bytes
PUT /d, length: abc
end
> add 1 PUT / HTTP/1.1\r\nContent-Length: 10000\r\n\r\n
> add 10000
> add 1 PUT /d HTTP/1.1\r\nHost: h\r\ncontent-length: 3\r\n\r\nabc
> all
PUT /, length: 10000 counted bytes
PUT /d, length: abc
end

# bodies that are cut
> add 1 PUT / HTTP/1.1\r\nContent-Length: 8388608\r\n\r\n
> add 3
> all
Ended
> add 1 PUT / HTTP/1.1\r\nContent-Length: 8388608\r\n\r\n
> add 65537
> all
Ended
> add 1 PUT / HTTP/1.1\r\nContent-Length: 8388608\r\n\r\n
> add 100000
> all
Ended
> add 1 PUT / HTTP/1.1\r\nContent-Length: 100000\r\n\r\n
> add 70000
> all
Ended
> add 1 PUT / HTTP/1.1\r\nContent-Length: 5000\r\n\r\n
> add 1
> all
Ended
";

#[test]
fn texts(rt: HostRuntime) -> Result<(), Fail> {
    replay::<Reading, _>(&rt, rt.alloc(), TEXTS)
}

// The head of the first request has 42 bytes, the head of the second 40.
const ROOM: &str = r"
# a long body that came whole
> add 1 PUT / HTTP/1.1\r\nContent-Length: 100000\r\n\r\n
> add 100000
> all
PUT /, length: 100000 counted bytes
end
> room
100042
> add 1 PUT / HTTP/1.1\r\nContent-Length: 5000\r\n\r\n
> add 5000
> all
PUT /, length: 5000 counted bytes
end
> room
5040
";

/// A long body keeps the room into which its request came, so the head counts too.
#[test]
fn room_for_what_came(rt: HostRuntime) -> Result<(), Fail> {
    replay::<Reading, _>(&rt, rt.alloc(), ROOM)
}
