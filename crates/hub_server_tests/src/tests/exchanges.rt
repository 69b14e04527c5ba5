//! Requests and their answers.

use crate::tests::running::plays;
use std::test::Fail;

/// The beginning of the program's stored run.
const STORED_RUN: &str = r#"
# the beginning of the stored run
> server 1
> client connects
> client sends PUT /d HTTP/1.1\r\nHost: h\r\n\r\nPOST /d/_bulk_docs HTTP/1.1\r\nHost: h\r\nContent-Length: 78\r\n\r\n{"docs":[{"_id":"a","_rev":"1-a"},{"_id":"b","_rev":"1-b"}],"new_edits":false}GET /d/_changes HTTP/1.1\r\nHost: h\r\n\r\n
> client half-closes
> client rest
HTTP/1.1 201 Created\r\n
Content-Type: application/json\r\n
Content-Length: 12\r\n
\r\n
{"ok":true}\n
HTTP/1.1 201 Created\r\n
Content-Type: application/json\r\n
Content-Length: 3\r\n
\r\n
[]\n
HTTP/1.1 200 OK\r\n
Content-Type: application/json\r\n
Transfer-Encoding: chunked\r\n
\r\n
d\r\n
{"results":[\n
\r\n
30\r\n
{"seq":"1-1","id":"a","changes":[{"rev":"1-a"}]}\r\n
32\r\n
,\n
{"seq":"2-1","id":"b","changes":[{"rev":"1-b"}]}\r\n
22\r\n
\n
],\n
"last_seq":"2-1","pending":0}\n
\r\n
0\r\n
\r\n
the end
"#;

const PUT: &str = r#"
# a document that is put is shown by the feed, and found
> server 1
> client connects
> client PUT /d
201 Created
{"ok":true}\n
> client PUT /d/a {"v":7}
201 Created
{"ok":true,"id":"a","rev":"1-91e3da135d1d0593e6703385cf55957a"}\n
> client GET /d/_changes?include_docs=true
200 OK
{"results":[\n
{"seq":"1-1","id":"a","changes":[{"rev":"1-91e3da135d1d0593e6703385cf55957a"}],"doc":{"_id":"a","_rev":"1-91e3da135d1d0593e6703385cf55957a","v":7}}\n
],\n
"last_seq":"1-1","pending":0}\n
> client GET /d/a
200 OK
{"_id":"a","_rev":"1-91e3da135d1d0593e6703385cf55957a","v":7}\n
"#;

const BEHIND: &str = r#"
# requests may come before earlier ones are answered
> server 1
> client connects
> client sends PUT /d HTTP/1.1\r\n\r\n
> client repeats 50 PUT /d/# HTTP/1.1\r\nContent-Length: 2\r\n\r\n{}
> each 51: client status
51 times
201 Created
> client GET /d
200 OK
{"db_name":"d","doc_count":50,"doc_del_count":0,"update_seq":"50-1","instance_start_time":"0"}\n
"#;

const CLOSED: &str = r#"
# a connection that asks to be closed is, and the others go on
> server 2
> first connects
> second connects
> first sends PUT /d HTTP/1.1\r\nConnection: close\r\n\r\nPUT /e HTTP/1.1\r\n\r\n
> first answer
201 Created
{"ok":true}\n
> first rest
the end
> second GET /_all_dbs
200 OK
["d"]\n
"#;

const TOO_LONG: &str = r#"
# a body that is too long is refused before it was read, and the client that sends it reads the refusal
> server 1
> client connects
> client sends PUT /d/a HTTP/1.1\r\nContent-Length: 8388609\r\n\r\n
> each 1024: client sends <8190>..
1024 times
> client answer
413 Payload Too Large
{"error":"too_large","reason":"body too long"}\n
> client rest
the end
"#;

const TOO_LONG_SLOWLY: &str = r#"
# a client that goes on sending a body which was refused reads the refusal behind it
> server 1
> client connects
> client sends PUT /d/a HTTP/1.1\r\nContent-Length: 8388609\r\n\r\n
> each 15: pause 100; client sends {"text":
15 times
> client answer
413 Payload Too Large
{"error":"too_large","reason":"body too long"}\n
"#;

#[test]
fn transcripts(rt: HostRuntime) -> Result<(), Fail> {
    for transcript in [STORED_RUN, PUT, BEHIND, CLOSED, TOO_LONG, TOO_LONG_SLOWLY] {
        plays(&rt, rt.alloc(), transcript)?;
    }
    Ok(())
}
