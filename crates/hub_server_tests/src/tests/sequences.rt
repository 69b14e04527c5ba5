//! Sequences as clients send them back.

use crate::tests::running::plays;
use std::test::Fail;

/// The sequences of a feed, of a descending feed, of a database and of the log of updates.
const TAKEN_BACK: &str = r#"
# since takes each printed sequence back, with its quotes or without them, percent-encoded or not
> server 1
> client connects
> client PUT /d
201 Created
{"ok":true}\n
> client POST /d/_bulk_docs {"docs":[{"_id":"a","_rev":"1-a"},{"_id":"b","_rev":"1-b"}],"new_edits":false}
201 Created
[]\n
> client GET /d/_changes
200 OK
{"results":[\n
{"seq":"1-1","id":"a","changes":[{"rev":"1-a"}]},\n
{"seq":"2-1","id":"b","changes":[{"rev":"1-b"}]}\n
],\n
"last_seq":"2-1","pending":0}\n
> client GET /d/_changes?since=1-1
200 OK
{"results":[\n
{"seq":"2-1","id":"b","changes":[{"rev":"1-b"}]}\n
],\n
"last_seq":"2-1","pending":0}\n
> client GET /d/_changes?since="1-1"
200 OK
{"results":[\n
{"seq":"2-1","id":"b","changes":[{"rev":"1-b"}]}\n
],\n
"last_seq":"2-1","pending":0}\n
> client GET /d/_changes?since=%221-1%22
200 OK
{"results":[\n
{"seq":"2-1","id":"b","changes":[{"rev":"1-b"}]}\n
],\n
"last_seq":"2-1","pending":0}\n
> client GET /d/_changes?since=%221%2D1%22
200 OK
{"results":[\n
{"seq":"2-1","id":"b","changes":[{"rev":"1-b"}]}\n
],\n
"last_seq":"2-1","pending":0}\n
> client GET /d/_changes?since=1%2d1
200 OK
{"results":[\n
{"seq":"2-1","id":"b","changes":[{"rev":"1-b"}]}\n
],\n
"last_seq":"2-1","pending":0}\n
> client GET /d/_changes?since=2-1
200 OK
{"results":[\n
\n
],\n
"last_seq":"2-1","pending":0}\n
> client GET /d/_changes?since="2-1"
200 OK
{"results":[\n
\n
],\n
"last_seq":"2-1","pending":0}\n
> client GET /d/_changes?since=%222-1%22
200 OK
{"results":[\n
\n
],\n
"last_seq":"2-1","pending":0}\n
> client GET /d/_changes?since=%222%2D1%22
200 OK
{"results":[\n
\n
],\n
"last_seq":"2-1","pending":0}\n
> client GET /d/_changes?since=2%2d1
200 OK
{"results":[\n
\n
],\n
"last_seq":"2-1","pending":0}\n
> client GET /d/_changes?descending=true&since=1
200 OK
{"results":[\n
{"seq":"2-1","id":"b","changes":[{"rev":"1-b"}]}\n
],\n
"last_seq":"2-1","pending":0}\n
> client GET /d/_changes?since=2-1
200 OK
{"results":[\n
\n
],\n
"last_seq":"2-1","pending":0}\n
> client GET /d/_changes?since="2-1"
200 OK
{"results":[\n
\n
],\n
"last_seq":"2-1","pending":0}\n
> client GET /d/_changes?since=%222-1%22
200 OK
{"results":[\n
\n
],\n
"last_seq":"2-1","pending":0}\n
> client GET /d/_changes?since=%222%2D1%22
200 OK
{"results":[\n
\n
],\n
"last_seq":"2-1","pending":0}\n
> client GET /d/_changes?since=2%2d1
200 OK
{"results":[\n
\n
],\n
"last_seq":"2-1","pending":0}\n
> client GET /d
200 OK
{"db_name":"d","doc_count":2,"doc_del_count":0,"update_seq":"2-1","instance_start_time":"0"}\n
> client GET /d/_changes?since=2-1
200 OK
{"results":[\n
\n
],\n
"last_seq":"2-1","pending":0}\n
> client GET /d/_changes?since="2-1"
200 OK
{"results":[\n
\n
],\n
"last_seq":"2-1","pending":0}\n
> client GET /d/_changes?since=%222-1%22
200 OK
{"results":[\n
\n
],\n
"last_seq":"2-1","pending":0}\n
> client GET /d/_changes?since=%222%2D1%22
200 OK
{"results":[\n
\n
],\n
"last_seq":"2-1","pending":0}\n
> client GET /d/_changes?since=2%2d1
200 OK
{"results":[\n
\n
],\n
"last_seq":"2-1","pending":0}\n
> client GET /_db_updates
200 OK
{"results":[\n
{"db_name":"d","type":"created","seq":"1-0"},\n
{"db_name":"d","type":"updated","seq":"2-0"}\n
],\n
"last_seq":"2-0"}\n
> client GET /_db_updates?since=1-0
200 OK
{"results":[\n
{"db_name":"d","type":"updated","seq":"2-0"}\n
],\n
"last_seq":"2-0"}\n
> client GET /_db_updates?since="1-0"
200 OK
{"results":[\n
{"db_name":"d","type":"updated","seq":"2-0"}\n
],\n
"last_seq":"2-0"}\n
> client GET /_db_updates?since=%221-0%22
200 OK
{"results":[\n
{"db_name":"d","type":"updated","seq":"2-0"}\n
],\n
"last_seq":"2-0"}\n
> client GET /_db_updates?since=%221%2D0%22
200 OK
{"results":[\n
{"db_name":"d","type":"updated","seq":"2-0"}\n
],\n
"last_seq":"2-0"}\n
> client GET /_db_updates?since=1%2d0
200 OK
{"results":[\n
{"db_name":"d","type":"updated","seq":"2-0"}\n
],\n
"last_seq":"2-0"}\n
> client GET /_db_updates?since=2-0
200 OK
{"results":[\n
\n
],\n
"last_seq":"2-0"}\n
> client GET /_db_updates?since="2-0"
200 OK
{"results":[\n
\n
],\n
"last_seq":"2-0"}\n
> client GET /_db_updates?since=%222-0%22
200 OK
{"results":[\n
\n
],\n
"last_seq":"2-0"}\n
> client GET /_db_updates?since=%222%2D0%22
200 OK
{"results":[\n
\n
],\n
"last_seq":"2-0"}\n
> client GET /_db_updates?since=2%2d0
200 OK
{"results":[\n
\n
],\n
"last_seq":"2-0"}\n
"#;

const REMOVED: &str = r#"
# a database that is made in place of one that was removed shows everything behind a sequence of that one
> server 1
> client connects
> client PUT /d
201 Created
{"ok":true}\n
> client POST /d/_bulk_docs {"docs":[{"_id":"a","_rev":"1-a"},{"_id":"b","_rev":"1-b"}],"new_edits":false}
201 Created
[]\n
> client GET /d/_changes
200 OK
{"results":[\n
{"seq":"1-1","id":"a","changes":[{"rev":"1-a"}]},\n
{"seq":"2-1","id":"b","changes":[{"rev":"1-b"}]}\n
],\n
"last_seq":"2-1","pending":0}\n
> client DELETE /d
200 OK
{"ok":true}\n
> client PUT /d
201 Created
{"ok":true}\n
> client POST /d/_bulk_docs {"docs":[{"_id":"a","_rev":"1-a"},{"_id":"b","_rev":"1-b"}],"new_edits":false}
201 Created
[]\n
> client GET /d/_changes?since=2-1
200 OK
{"results":[\n
{"seq":"1-2","id":"a","changes":[{"rev":"1-a"}]},\n
{"seq":"2-2","id":"b","changes":[{"rev":"1-b"}]}\n
],\n
"last_seq":"2-2","pending":0}\n
> client GET /d/_changes?since="2-1"
200 OK
{"results":[\n
{"seq":"1-2","id":"a","changes":[{"rev":"1-a"}]},\n
{"seq":"2-2","id":"b","changes":[{"rev":"1-b"}]}\n
],\n
"last_seq":"2-2","pending":0}\n
> client GET /d/_changes?since=%222-1%22
200 OK
{"results":[\n
{"seq":"1-2","id":"a","changes":[{"rev":"1-a"}]},\n
{"seq":"2-2","id":"b","changes":[{"rev":"1-b"}]}\n
],\n
"last_seq":"2-2","pending":0}\n
> client GET /d/_changes?since=%222%2D1%22
200 OK
{"results":[\n
{"seq":"1-2","id":"a","changes":[{"rev":"1-a"}]},\n
{"seq":"2-2","id":"b","changes":[{"rev":"1-b"}]}\n
],\n
"last_seq":"2-2","pending":0}\n
> client GET /d/_changes?since=2%2d1
200 OK
{"results":[\n
{"seq":"1-2","id":"a","changes":[{"rev":"1-a"}]},\n
{"seq":"2-2","id":"b","changes":[{"rev":"1-b"}]}\n
],\n
"last_seq":"2-2","pending":0}\n
"#;

/// Values that are no sequence: a part is missing, is no number or is past 64 bits, there are three parts, or
/// quotes stand alone or twice.
const NO_SEQUENCE: &str = r#"
# values that are no sequence
> server 1
> client connects
> client PUT /d
201 Created
{"ok":true}\n
> client POST /d/_bulk_docs {"docs":[{"_id":"a","_rev":"1-a"},{"_id":"b","_rev":"1-b"}],"new_edits":false}
201 Created
[]\n
> client GET /d/_changes?since=
400 Bad Request
{"error":"bad_request","reason":"bad since"}\n
> client GET /_db_updates?since=
400 Bad Request
{"error":"bad_request","reason":"bad since"}\n
> client GET /d/_changes?since="
400 Bad Request
{"error":"bad_request","reason":"bad since"}\n
> client GET /_db_updates?since="
400 Bad Request
{"error":"bad_request","reason":"bad since"}\n
> client GET /d/_changes?since=""
400 Bad Request
{"error":"bad_request","reason":"bad since"}\n
> client GET /_db_updates?since=""
400 Bad Request
{"error":"bad_request","reason":"bad since"}\n
> client GET /d/_changes?since=%222
400 Bad Request
{"error":"bad_request","reason":"bad since"}\n
> client GET /_db_updates?since=%222
400 Bad Request
{"error":"bad_request","reason":"bad since"}\n
> client GET /d/_changes?since=2%22
400 Bad Request
{"error":"bad_request","reason":"bad since"}\n
> client GET /_db_updates?since=2%22
400 Bad Request
{"error":"bad_request","reason":"bad since"}\n
> client GET /d/_changes?since=%22%222-1%22%22
400 Bad Request
{"error":"bad_request","reason":"bad since"}\n
> client GET /_db_updates?since=%22%222-1%22%22
400 Bad Request
{"error":"bad_request","reason":"bad since"}\n
> client GET /d/_changes?since=-1
400 Bad Request
{"error":"bad_request","reason":"bad since"}\n
> client GET /_db_updates?since=-1
400 Bad Request
{"error":"bad_request","reason":"bad since"}\n
> client GET /d/_changes?since=2-
400 Bad Request
{"error":"bad_request","reason":"bad since"}\n
> client GET /_db_updates?since=2-
400 Bad Request
{"error":"bad_request","reason":"bad since"}\n
> client GET /d/_changes?since=2--1
400 Bad Request
{"error":"bad_request","reason":"bad since"}\n
> client GET /_db_updates?since=2--1
400 Bad Request
{"error":"bad_request","reason":"bad since"}\n
> client GET /d/_changes?since=2-1-1
400 Bad Request
{"error":"bad_request","reason":"bad since"}\n
> client GET /_db_updates?since=2-1-1
400 Bad Request
{"error":"bad_request","reason":"bad since"}\n
> client GET /d/_changes?since=2-now
400 Bad Request
{"error":"bad_request","reason":"bad since"}\n
> client GET /_db_updates?since=2-now
400 Bad Request
{"error":"bad_request","reason":"bad since"}\n
> client GET /d/_changes?since=now-1
400 Bad Request
{"error":"bad_request","reason":"bad since"}\n
> client GET /_db_updates?since=now-1
400 Bad Request
{"error":"bad_request","reason":"bad since"}\n
> client GET /d/_changes?since=%2B2
400 Bad Request
{"error":"bad_request","reason":"bad since"}\n
> client GET /_db_updates?since=%2B2
400 Bad Request
{"error":"bad_request","reason":"bad since"}\n
> client GET /d/_changes?since=2-+1
400 Bad Request
{"error":"bad_request","reason":"bad since"}\n
> client GET /_db_updates?since=2-+1
400 Bad Request
{"error":"bad_request","reason":"bad since"}\n
> client GET /d/_changes?since=2.0
400 Bad Request
{"error":"bad_request","reason":"bad since"}\n
> client GET /_db_updates?since=2.0
400 Bad Request
{"error":"bad_request","reason":"bad since"}\n
> client GET /d/_changes?since=%5B2,%222-1%22%5D
400 Bad Request
{"error":"bad_request","reason":"bad since"}\n
> client GET /_db_updates?since=%5B2,%222-1%22%5D
400 Bad Request
{"error":"bad_request","reason":"bad since"}\n
> client GET /d/_changes?since=18446744073709551616
400 Bad Request
{"error":"bad_request","reason":"bad since"}\n
> client GET /_db_updates?since=18446744073709551616
400 Bad Request
{"error":"bad_request","reason":"bad since"}\n
> client GET /d/_changes?since=1-18446744073709551616
400 Bad Request
{"error":"bad_request","reason":"bad since"}\n
> client GET /_db_updates?since=1-18446744073709551616
400 Bad Request
{"error":"bad_request","reason":"bad since"}\n
"#;

#[test]
fn transcripts(rt: HostRuntime) -> Result<(), Fail> {
    for transcript in [TAKEN_BACK, REMOVED, NO_SEQUENCE] {
        plays(&rt, rt.alloc(), transcript)?;
    }
    Ok(())
}
