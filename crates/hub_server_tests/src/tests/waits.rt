//! Feeds that wait.

use crate::tests::running::plays;
use std::test::Fail;

const LONGPOLL: &str = r#"
# a longpoll is answered by the write of another connection, though its client has nothing more to send
> server 2
> writer connects
> writer PUT /d
201 Created
{"ok":true}\n
> reader connects
> reader follows GET /d/_changes?feed=longpoll
200 OK
chunks
> reader half-closes
> writer PUT /d/a {}
201 Created
{"ok":true,"id":"a","rev":"1-dfddbf319adb018d1e5ac3465b83542c"}\n
> reader chunks
{"results":[\n
{"seq":"1-1","id":"a","changes":[{"rev":"1-dfddbf319adb018d1e5ac3465b83542c"}]}\n
],\n
"last_seq":"1-1","pending":0}\n
> reader rest
the end
"#;

const CONTINUOUS: &str = r#"
# a continuous feed beats while nothing is written, goes on behind its rows, and ends with its database
> server 2
> writer connects
> writer PUT /d
201 Created
{"ok":true}\n
> reader connects
> reader follows GET /d/_changes?feed=continuous&heartbeat=20
200 OK
chunks
> each 3: reader chunk
3 times
\n
> writer PUT /d/a {}
201 Created
{"ok":true,"id":"a","rev":"1-dfddbf319adb018d1e5ac3465b83542c"}\n
> reader row
{"seq":"1-1","id":"a","changes":[{"rev":"1-dfddbf319adb018d1e5ac3465b83542c"}]}\n
> each 3: reader chunk
3 times
\n
> writer DELETE /d
200 OK
{"ok":true}\n
> reader row
{"last_seq":"1-1","pending":0}\n
> reader chunk
the last
"#;

const UPDATES: &str = r#"
# a feed of the log of updates tells what another connection does, and ends with its time
> server 2
> reader connects
> reader follows GET /_db_updates?feed=continuous&timeout=1500
200 OK
chunks
> writer connects
> writer PUT /d
201 Created
{"ok":true}\n
> reader chunk
{"db_name":"d","type":"created","seq":"1-0"}\n
> reader chunk
{"last_seq":"1-0"}\n
> reader chunk
the last
"#;

#[test]
fn transcripts(rt: HostRuntime) -> Result<(), Fail> {
    for transcript in [LONGPOLL, CONTINUOUS, UPDATES] {
        plays(&rt, rt.alloc(), transcript)?;
    }
    Ok(())
}
