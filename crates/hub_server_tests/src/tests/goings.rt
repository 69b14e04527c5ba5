//! A thousand clients that go, at each point of a request and of a feed.

use crate::tests::running::plays;
use std::test::Fail;

/// At each point 125 clients go, all of them open at once. The document is longer than one read of a
/// client. After them as many feeds as the limit allows can be opened, and no other feed beside those.
const THOUSAND: &str = r#"
# a thousand clients that go leave the server as it was, and none of their feeds
> server 1126 feeds 125
> writer connects
> writer PUT /d
201 Created
{"ok":true}\n
> writer gets PUT /d/a {"text":"<12000>"}
201 Created
> each 125: silent# connects
125 times
> each 125: silent# closes
125 times
> each 125: head# connects; head# sends PUT /e HTTP/1.1\r\nHo
125 times
> each 125: head# closes
125 times
> each 125: behind-head# connects; behind-head# sends PUT /d/b HTTP/1.1\r\nContent-Length: 7\r\n\r\n
125 times
> each 125: behind-head# closes
125 times
> each 125: body# connects; body# sends PUT /d/b HTTP/1.1\r\nContent-Length: 7\r\n\r\n{"v":
125 times
> each 125: body# closes
125 times
> each 125: unread# connects; unread# sends GET /d/a HTTP/1.1\r\n\r\nGET /d HTTP/1.1\r\n\r\n
125 times
> each 125: unread# closes
125 times
> each 125: feed-head# connects; feed-head# barely GET /d/_changes?feed=continuous&include_docs=true&heartbeat=100
125 times
200
> each 125: feed-head# closes
125 times
> each 125: chunk# connects; chunk# follows GET /d/_changes?feed=continuous&include_docs=true&heartbeat=100; chunk# skips 1000
125 times
200 OK
chunks
> each 125: chunk# closes
125 times
> each 125: feed# connects; feed# follows GET /d/_changes?feed=continuous&include_docs=true&heartbeat=100; feed# chunk
125 times
200 OK
chunks
{"seq":"1-1","id":"a","changes":[{"rev":"1-534e609fe14c3568e965fbeb62309198"}],"doc":{"_id":"a","_rev":"1-534e609fe14c3568e965fbeb62309198","text":"<12000>"}}\n
> each 125: feed# closes
125 times
> writer GET /d
200 OK
{"db_name":"d","doc_count":1,"doc_del_count":0,"update_seq":"1-1","instance_start_time":"0"}\n
> writer GET /_all_dbs
200 OK
["d"]\n
> each 125: feed# connects; feed# follows GET /d/_changes?feed=continuous&include_docs=true&heartbeat=100; feed# chunk
125 times
200 OK
chunks
{"seq":"1-1","id":"a","changes":[{"rev":"1-534e609fe14c3568e965fbeb62309198"}],"doc":{"_id":"a","_rev":"1-534e609fe14c3568e965fbeb62309198","text":"<12000>"}}\n
> writer GET /d/_changes
503 Service Unavailable
{"error":"too_many_feeds","reason":"too many feeds"}\n
"#;

/// A client goes, and does not read the bytes that were sent. Its feed is gone, though nothing is written
/// and no heartbeat is due: the client's system tells the server.
const BEFORE_IT_READ: &str = r#"
# a client goes before it read
> server 5 feeds 1
> writer connects
> writer PUT /d
201 Created
{"ok":true}\n
> writer gets PUT /d/a {"text":"<12000>"}
201 Created
> each 4: client connects; client begins GET /d/_changes?feed=continuous&include_docs=true&heartbeat=600000; client skips 1000; client closes
4 times
200 OK
"#;

#[test]
fn transcripts(rt: HostRuntime) -> Result<(), Fail> {
    for transcript in [THOUSAND, BEFORE_IT_READ] {
        plays(&rt, rt.alloc(), transcript)?;
    }
    Ok(())
}
