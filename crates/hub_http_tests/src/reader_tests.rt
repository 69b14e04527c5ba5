//! Requests that are read byte by byte, from readers that are interrupted or fail.

use crate::reading::Reading;
use hub_transcript::replay;
use std::test::Fail;

// The text of two requests has 60 bytes. So 61 reads, beside the interrupted ones, take it and see its end.
// The request whose body is too long has a head of 43 bytes.
const READERS: &str = r"
# requests that come together
> slow 0 0 PUT /d HTTP/1.1\r\nHost: h\r\ncontent-length: 3\r\n\r\nabcGET /d/_changes HTTP/1.1\r\nConnection: Close\r\n\r\nGET / HTTP/1.0\r\n\r\n
> next
PUT /d, length: abc
> next
GET /d/_changes, close
> next
Version
> next
Ended

# each read is interrupted once
> slow 1 1 PUT /d HTTP/1.1\r\nContent-Length: 3\r\n\r\nabcGET /e HTTP/1.1\r\n\r\n
> next
PUT /d, length: abc
> next
GET /e
> next
end
> counts
122 reads, 61 faults

# each read is interrupted three times
> slow 3 3 PUT /d HTTP/1.1\r\nContent-Length: 3\r\n\r\nabcGET /e HTTP/1.1\r\n\r\n
> next
PUT /d, length: abc
> next
GET /e
> next
end
> counts
244 reads, 183 faults

# a read is interrupted just not too often
> slow 999999 0 PUT /d HTTP/1.1\r\nContent-Length: 3\r\n\r\nabcGET /e HTTP/1.1\r\n\r\n
> next
PUT /d, length: abc

# a read is interrupted too often
> slow 1000000 0 PUT /d HTTP/1.1\r\nContent-Length: 3\r\n\r\nabcGET /e HTTP/1.1\r\n\r\n
> next
IoFault
> next
Ended
> counts
1000000 reads, 1000000 faults

# a body that is too long is not waited for
> slow 0 0 PUT / HTTP/1.1\r\nContent-Length: 8388609\r\n\r\nabc
> next
BodyTooLong
> next
Ended
> counts
43 reads, 0 faults

# a reader that fails is found to, once, and is not read again
> failing PUT /d HTTP/1.1\r\nHost: h\r\ncontent-length: 3\r\n\r\nabc
from 0
IoFault
Ended
1 reads, 1 faults
from 50
PUT /d, length: abc
IoFault
Ended
1 reads, 1 faults

# memory is read
> memory abc
ab
c

3 reads, 0 faults
";

#[test]
fn readers_that_are_slow_and_fail(rt: HostRuntime) -> Result<(), Fail> {
    replay::<Reading, _>(&rt, rt.alloc(), READERS)
}
