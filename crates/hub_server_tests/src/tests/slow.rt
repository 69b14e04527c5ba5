//! Slow clients beside fast ones. The slow client does a little before each answer to a fast one.

use crate::tests::running::plays;
use std::test::Fail;

/// A client that sends a byte now and then holds up no other client, and is answered.
const SENDS: &str = r#"
# a client sends slowly
> server 65
> slow connects
> slow PUT /d
201 Created
{"ok":true}\n
> each 64: fast# connects
64 times
> each 64: slow types # PUT /d/slow HTTP/1.1\r\nHost: h\r\nContent-Length: 7\r\n\r\n{"v":7}; fast# gets PUT /d/f# {}; fast# gets GET /d/f#
64 times
201 Created
200 OK
> slow answer
201 Created
{"ok":true,"id":"slow","rev":"1-aaa1e3e67340ea5001b4c28c26b9f855"}\n
> slow GET /d/slow
200 OK
{"_id":"slow","_rev":"1-aaa1e3e67340ea5001b4c28c26b9f855","v":7}\n
"#;

/// A client takes a byte now and then of an answer that is longer than the room of the sockets. It holds up
/// no other client, and gets all its bytes.
const READS: &str = r##"
# a client ends what it sends, and reads slowly what another reads at once
> server 67
> writer connects
> writer PUT /d
201 Created
{"ok":true}\n
> writer PUT /large
201 Created
{"ok":true}\n
> each 6: writer gets POST /large/_bulk_docs {"new_edits":false,"docs":[{"_id":"#","_rev":"1-a","text":"<1000000>"}]}
6 times
201 Created
> each 64: fast# connects
64 times
> slow connects
> other connects
> other sends GET /large/_changes?include_docs=true HTTP/1.1\r\nConnection: close\r\n\r\n
> other rest
HTTP/1.1 200 OK\r\n
Content-Type: application/json\r\n
Transfer-Encoding: chunked\r\n
Connection: close\r\n
\r\n
d\r\n
{"results":[\n
\r\n
f4299\r\n
{"seq":"1-2","id":"1","changes":[{"rev":"1-a"}],"doc":{"_id":"1","_rev":"1-a","text":"<1000000>"}}\r\n
f429b\r\n
,\n
{"seq":"2-2","id":"2","changes":[{"rev":"1-a"}],"doc":{"_id":"2","_rev":"1-a","text":"<1000000>"}}\r\n
f429b\r\n
,\n
{"seq":"3-2","id":"3","changes":[{"rev":"1-a"}],"doc":{"_id":"3","_rev":"1-a","text":"<1000000>"}}\r\n
f429b\r\n
,\n
{"seq":"4-2","id":"4","changes":[{"rev":"1-a"}],"doc":{"_id":"4","_rev":"1-a","text":"<1000000>"}}\r\n
f429b\r\n
,\n
{"seq":"5-2","id":"5","changes":[{"rev":"1-a"}],"doc":{"_id":"5","_rev":"1-a","text":"<1000000>"}}\r\n
f429b\r\n
,\n
{"seq":"6-2","id":"6","changes":[{"rev":"1-a"}],"doc":{"_id":"6","_rev":"1-a","text":"<1000000>"}}\r\n
22\r\n
\n
],\n
"last_seq":"6-2","pending":0}\n
\r\n
0\r\n
\r\n
the end
> slow sends GET /large/_changes?include_docs=true HTTP/1.1\r\nConnection: close\r\n\r\n
> slow half-closes
> each 64: slow byte; fast# gets PUT /d/f# {}; fast# gets GET /d/f#
64 times
201 Created
200 OK
> slow rest
HTTP/1.1 200 OK\r\n
Content-Type: application/json\r\n
Transfer-Encoding: chunked\r\n
Connection: close\r\n
\r\n
d\r\n
{"results":[\n
\r\n
f4299\r\n
{"seq":"1-2","id":"1","changes":[{"rev":"1-a"}],"doc":{"_id":"1","_rev":"1-a","text":"<1000000>"}}\r\n
f429b\r\n
,\n
{"seq":"2-2","id":"2","changes":[{"rev":"1-a"}],"doc":{"_id":"2","_rev":"1-a","text":"<1000000>"}}\r\n
f429b\r\n
,\n
{"seq":"3-2","id":"3","changes":[{"rev":"1-a"}],"doc":{"_id":"3","_rev":"1-a","text":"<1000000>"}}\r\n
f429b\r\n
,\n
{"seq":"4-2","id":"4","changes":[{"rev":"1-a"}],"doc":{"_id":"4","_rev":"1-a","text":"<1000000>"}}\r\n
f429b\r\n
,\n
{"seq":"5-2","id":"5","changes":[{"rev":"1-a"}],"doc":{"_id":"5","_rev":"1-a","text":"<1000000>"}}\r\n
f429b\r\n
,\n
{"seq":"6-2","id":"6","changes":[{"rev":"1-a"}],"doc":{"_id":"6","_rev":"1-a","text":"<1000000>"}}\r\n
22\r\n
\n
],\n
"last_seq":"6-2","pending":0}\n
\r\n
0\r\n
\r\n
the end
"##;

#[test]
fn transcripts(rt: HostRuntime) -> Result<(), Fail> {
    for transcript in [SENDS, READS] {
        plays(&rt, rt.alloc(), transcript)?;
    }
    Ok(())
}
