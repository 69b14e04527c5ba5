//! A large request beside small ones.

use crate::tests::running::plays;
use std::test::Fail;

/// The large request has 1,250 documents, each but the first with 4,000 bytes of text. It is sent in two
/// halves. Small clients are answered between them, and after them before the large answer is read.
const BESIDE: &str = r##"
# a request of five million bytes holds up no small one
> server 33
> large connects
> large PUT /d
201 Created
{"ok":true}\n
> large PUT /e
201 Created
{"ok":true}\n
> each 32: small# connects
32 times
> large sends POST /d/_bulk_docs HTTP/1.1\r\nContent-Length: 5026411\r\n\r\n{"docs":[{"_id":"first"}
> large repeats 624 ,{"_id":"#","text":"<4000>"}
> large sends ,{"_id":"half","text":"<2000>
> each 32: small# gets PUT /e/1-# {}; small# gets GET /e/1-#
32 times
201 Created
200 OK
> large sends <2000>"}
> large repeats 624 ,{"_id":"b#","text":"<4000>"}
> large sends ]}
> each 32: small# gets PUT /e/2-# {}; small# gets GET /e/2-#
32 times
201 Created
200 OK
> large counts "ok":true
201 Created
1250 of "ok":true
> large GET /d
200 OK
{"db_name":"d","doc_count":1250,"doc_del_count":0,"update_seq":"1250-1","instance_start_time":"0"}\n
"##;

#[test]
fn a_large_request_beside_small_ones(rt: HostRuntime) -> Result<(), Fail> {
    plays(&rt, rt.alloc(), BESIDE)
}
