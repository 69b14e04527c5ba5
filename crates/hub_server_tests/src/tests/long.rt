//! Answers that are longer than the room of the sockets.

use crate::tests::running::plays;
use std::test::Fail;

/// All requests are answered, though their answers together are longer than the room of the sockets.
const FILLED: &str = r#"
# answers fill the socket
> server 1
> client connects
> client PUT /d
201 Created
{"ok":true}\n
> client gets PUT /d/a {"text":"<4000>"}
201 Created
> client GET /d/a
200 OK
{"_id":"a","_rev":"1-595b577f00833f3286f24543198997bb","text":"<4000>"}\n
> client repeats 1500 GET /d/a HTTP/1.1\r\n\r\n
> each 1500: client answer
1500 times
200 OK
{"_id":"a","_rev":"1-595b577f00833f3286f24543198997bb","text":"<4000>"}\n
"#;

/// Clients go while a long answer is sent to them, and nothing of it stays. After them, as many feeds as
/// the limit allows can be opened.
const THAT_GO: &str = r##"
# clients go in long answers
> server 13 feeds 4
> writer connects
> writer PUT /d
201 Created
{"ok":true}\n
> each 6: writer gets POST /d/_bulk_docs {"new_edits":false,"docs":[{"_id":"#","_rev":"1-a","text":"<1000000>"}]}
6 times
201 Created
> each 4: client# connects; client# sends GET /d/1 HTTP/1.1\r\n\r\nGET /d/2 HTTP/1.1\r\n\r\nGET /d/3 HTTP/1.1\r\n\r\nGET /d/4 HTTP/1.1\r\n\r\nGET /d/5 HTTP/1.1\r\n\r\nGET /d/6 HTTP/1.1\r\n\r\n; client# skips 1000
4 times
> each 4: client# closes
4 times
> each 4: client# connects; client# begins GET /d/_changes?include_docs=true; client# skips 1000
4 times
200 OK
> each 4: client# closes
4 times
> each 4: client# connects; client# begins GET /d/_changes?include_docs=true; client# skips 1000
4 times
200 OK
> each 4: client# closes
4 times
"##;

#[test]
fn transcripts(rt: HostRuntime) -> Result<(), Fail> {
    for transcript in [FILLED, THAT_GO] {
        plays(&rt, rt.alloc(), transcript)?;
    }
    Ok(())
}
