//! Requests that are sent before earlier ones are answered, and clients that half-close.

use crate::tests::running::plays;
use std::test::Fail;

/// Three feeds wait, with a request after each. The last of these requests asks to close. The request after
/// it is not answered.
const BEHIND_FEEDS: &str = r#"
# requests may come behind feeds that wait, of one database and of another
> server 2
> writer connects
> reader connects
> writer PUT /d
201 Created
{"ok":true}\n
> writer PUT /e
201 Created
{"ok":true}\n
> reader sends GET /d/_changes?feed=longpoll HTTP/1.1\r\n\r\nGET /d/a HTTP/1.1\r\n\r\nGET /d/_changes?feed=longpoll&since=1-1 HTTP/1.1\r\n\r\nGET /d/b HTTP/1.1\r\n\r\nGET /e/_changes?feed=longpoll HTTP/1.1\r\n\r\nGET /e/c HTTP/1.1\r\nConnection: close\r\n\r\nPUT /f HTTP/1.1\r\n\r\n
> writer POST /d/_bulk_docs {"docs":[{"_id":"a","_rev":"1-a"}],"new_edits":false}
201 Created
[]\n
> reader answer
200 OK
{"results":[\n
{"seq":"1-1","id":"a","changes":[{"rev":"1-a"}]}\n
],\n
"last_seq":"1-1","pending":0}\n
> reader answer
200 OK
{"_id":"a","_rev":"1-a"}\n
> writer POST /d/_bulk_docs {"docs":[{"_id":"b","_rev":"1-b"}],"new_edits":false}
201 Created
[]\n
> reader answer
200 OK
{"results":[\n
{"seq":"2-1","id":"b","changes":[{"rev":"1-b"}]}\n
],\n
"last_seq":"2-1","pending":0}\n
> reader answer
200 OK
{"_id":"b","_rev":"1-b"}\n
> writer POST /e/_bulk_docs {"docs":[{"_id":"c","_rev":"1-c"}],"new_edits":false}
201 Created
[]\n
> reader answer
200 OK
{"results":[\n
{"seq":"1-2","id":"c","changes":[{"rev":"1-c"}]}\n
],\n
"last_seq":"1-2","pending":0}\n
> reader answer
200 OK
{"_id":"c","_rev":"1-c"}\n
> reader rest
the end
> writer GET /_all_dbs
200 OK
["d","e"]\n
"#;

const ENDED: &str = r#"
# a client that ended what it sends in a feed gets the feed to its end, the removal of its database
> server 2
> writer connects
> reader connects
> writer PUT /d
201 Created
{"ok":true}\n
> reader follows GET /d/_changes?feed=continuous
200 OK
chunks
> reader half-closes
> writer PUT /d/a {}
201 Created
{"ok":true,"id":"a","rev":"1-dfddbf319adb018d1e5ac3465b83542c"}\n
> reader chunk
{"seq":"1-1","id":"a","changes":[{"rev":"1-dfddbf319adb018d1e5ac3465b83542c"}]}\n
> writer DELETE /d
200 OK
{"ok":true}\n
> reader chunks
{"last_seq":"1-1","pending":0}\n
> reader rest
the end
"#;

#[test]
fn transcripts(rt: HostRuntime) -> Result<(), Fail> {
    for transcript in [BEHIND_FEEDS, ENDED] {
        plays(&rt, rt.alloc(), transcript)?;
    }
    Ok(())
}
