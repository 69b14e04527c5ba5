//! Clients that go.

use crate::tests::running::plays;
use std::test::Fail;

const THAT_CLOSE: &str = r#"
# the feeds of clients that closed are gone behind three writes and a heartbeat: as many as there may be can be opened again
> server 401 feeds 200
> writer connects
> writer PUT /d
201 Created
{"ok":true}\n
> each 200: feed# connects; feed# follows GET /d/_changes?feed=continuous&heartbeat=200
200 times
200 OK
chunks
> writer GET /d/_changes
503 Service Unavailable
{"error":"too_many_feeds","reason":"too many feeds"}\n
> each 200: feed# closes
200 times
> each 3: writer gets PUT /d/# {}
3 times
201 Created
> each 200: feed# connects; feed# follows GET /d/_changes?feed=continuous&heartbeat=200
200 times
200 OK
chunks
> writer GET /d/_changes
503 Service Unavailable
{"error":"too_many_feeds","reason":"too many feeds"}\n
> each 200: feed# closes
200 times
"#;

const IN_THE_MIDDLE: &str = r##"
# clients that go in the middle of a head, of a body and of a chunk leave the others as they are, and nothing of what they began
> server 5 feeds 1
> writer connects
> writer PUT /d
201 Created
{"ok":true}\n
> each 8: writer POST /d/_bulk_docs {"new_edits":false,"docs":[{"_id":"#","_rev":"1-a","text":"<1000000>"}]}
8 times
201 Created
[]\n
> head connects
> head sends PUT /e HTTP/1.1\r\nHo
> head closes
> body connects
> body sends PUT /d/a HTTP/1.1\r\nContent-Length: 7\r\n\r\n{"v":
> body closes
> reader connects
> reader follows GET /d/_changes?include_docs=true
200 OK
chunks
> reader takes 18
d\r\n
{"results":[\n
\r\n
> reader skips 982
> reader closes
> next connects
> next follows GET /d/_changes?feed=continuous&heartbeat=200
200 OK
chunks
> next closes
> writer GET /d
200 OK
{"db_name":"d","doc_count":8,"doc_del_count":0,"update_seq":"8-1","instance_start_time":"0"}\n
> writer GET /_all_dbs
200 OK
["d"]\n
"##;

const SAYS_NOTHING: &str = "
# a client that says nothing and goes is served too: the server ends behind it
> server 1
> client connects
> client closes
";

const WITHOUT_CLIENTS: &str = "
# a server of no connections ends
> server 0
";

#[test]
fn transcripts(rt: HostRuntime) -> Result<(), Fail> {
    for transcript in [THAT_CLOSE, IN_THE_MIDDLE, SAYS_NOTHING, WITHOUT_CLIENTS] {
        plays(&rt, rt.alloc(), transcript)?;
    }
    Ok(())
}
