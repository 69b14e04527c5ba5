//! Many connections at once, and slow ones.

use crate::tests::running::plays;
use std::test::Fail;

/// Two feeds show the writes of fifty connections, each row once and in order, as the database has it. All
/// writes are sent before an answer is read. The feeds are read while the writes are made.
const WRITERS: &str = r#"
# fifty writers beside two feeds
> server 53
> control connects
> control PUT /d
201 Created
{"ok":true}\n
> each 2: reader# connects; reader# follows GET /d/_changes?feed=continuous&heartbeat=500
2 times
200 OK
chunks
> each 50: writer# connects
50 times
> each 50 20: writer# asks PUT /d/w#-@ {"v":1}
1000 times
> reader1 rows 1000
1000 rows
> reader2 rows 1000
the same 1000 rows
> each 50 20: writer# status
1000 times
201 Created
> control lines GET /d/_changes
the same 1000 rows
"#;

/// The documents are more than the sockets, the lane, and the items that wait for the lane can hold. No
/// heartbeat is due in the slow client's feed, so only its rows make it go on. The feeds end with their
/// database. A client that goes in a feed is seen only when the next bytes are sent to it.
const SLOW: &str = r##"
# a client that does not read holds no writer and no other reader, and gets every row in the end
> server 3 lane 8
> writer connects
> slow connects
> fast connects
> writer PUT /d
201 Created
{"ok":true}\n
> slow follows GET /d/_changes?feed=continuous&include_docs=true&heartbeat=600000
200 OK
chunks
> fast follows GET /d/_changes?feed=continuous&include_docs=true&heartbeat=500
200 OK
chunks
> each 100: writer gets POST /d/_bulk_docs {"new_edits":false,"docs":[{"_id":"#","_rev":"1-a","text":"<64000>"}]}; fast row {"seq":"#-1","id":"#","changes":[{"rev":"1-a"}],"doc":{"_id":"#","_rev":"1-a","text":"<64000>"}}\n
100 times
201 Created
yes
> each 100: slow row {"seq":"#-1","id":"#","changes":[{"rev":"1-a"}],"doc":{"_id":"#","_rev":"1-a","text":"<64000>"}}\n
100 times
yes
> writer DELETE /d
200 OK
{"ok":true}\n
"##;

#[test]
fn transcripts(rt: HostRuntime) -> Result<(), Fail> {
    for transcript in [WRITERS, SLOW] {
        plays(&rt, rt.alloc(), transcript)?;
    }
    Ok(())
}
