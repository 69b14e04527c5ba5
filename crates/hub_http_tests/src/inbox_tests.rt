//! Requests of bytes that are offered.

use crate::offers::Offers;
use hub_transcript::replay;
use std::test::Fail;

// Of the two requests whose fronts are offered, the first has 41 bytes, and the second ends at 60.
const OFFERS: &str = r"
# requests come whole, one byte an offer
> offer 1 1 PUT /d HTTP/1.1\r\nContent-Length: 3\r\n\r\nabc
not yet, 41 times
> next
PUT /d, length: abc
> offer 1 1 GET /e HTTP/1.1\r\n\r\n
not yet, 19 times
> next
GET /e
> next
not yet

# an input ends between two requests, or in the middle of one
> fronts PUT /d HTTP/1.1\r\nContent-Length: 3\r\n\r\nabcGET /e HTTP/1.1\r\n\r\n
from 0
not yet
end
end
from 1
not yet
Ended
Ended
from 41
PUT /d, length: abc
not yet
end
end
from 42
PUT /d, length: abc
not yet
Ended
Ended
from 60
PUT /d, length: abc
GET /e
not yet
end
end

# another version is told as soon as its bytes are there
> put 1 GET / HTTP/1.0\r\n\r\n
> next
Version

# a target that is none
> put 1 GET x HTTP/1.1\r\n\r\n
> next
BadHead

# no head
> put 1 {}
> next
BadHead

# a body that is too long
> put 1 PUT /d HTTP/1.1\r\nContent-Length: 8388609\r\n\r\n
> next
BodyTooLong

# a transfer coding
> put 1 PUT /d HTTP/1.1\r\nTransfer-Encoding: chunked\r\n\r\n
> next
Coding

# a head that is not too long yet
> put 16383 a
> next
not yet

# a head that is too long
> put 16384 a
> next
HeadTooLong

# a long body comes in parts, with a request behind it
> put 1 PUT /d HTTP/1.1\r\nContent-Length: 70000\r\n\r\n
> offer 4096 70000
not yet, 18 times
> put 1 GET /e HTTP/1.1\r\n\r\n
> next
PUT /d, length: 70000 counted bytes
> next
GET /e
> next
not yet
> over
> next
end
";

#[test]
fn offers(rt: HostRuntime) -> Result<(), Fail> {
    replay::<Offers, _>(&rt, rt.alloc(), OFFERS)
}
