//! Connections that are held, beside more connections than there are workers.

use crate::tests::running::plays;
use std::test::Fail;

/// A held request holds up no request of another connection, whichever worker has that connection. The
/// server comes to its end after the held request, also where its client goes.
const REQUEST: &str = r#"
# a request is held beside many, and its client waits
> server 66 request 1
> first connects
> maker connects
> maker PUT /x
201 Created
{"ok":true}\n
> maker PUT /y
201 Created
{"ok":true}\n
> each 64: other# connects
64 times
> first asks PUT /y/held {}
> gate holds
yes
> each 64: other# gets PUT /y/# {}; other# gets GET /y/#
64 times
201 Created
200 OK
> gate opens
yes
> first answer
201 Created
{"ok":true,"id":"held","rev":"1-4e1586cea917d587557c98a09756d41d"}\n
"#;

/// The client of the held request goes meanwhile.
const GOES: &str = r#"
# a request is held beside many, and its client goes
> server 66 request 1
> first connects
> maker connects
> maker PUT /x
201 Created
{"ok":true}\n
> maker PUT /y
201 Created
{"ok":true}\n
> each 64: other# connects
64 times
> first asks PUT /y/held {}
> first closes
> gate holds
yes
> each 64: other# gets PUT /y/# {}; other# gets GET /y/#
64 times
201 Created
200 OK
> gate opens
yes
"#;

/// A held lock holds up no call on another database, though more calls wait for the lock than there are
/// workers. The writes come to the lock in the pause.
const LOCK: &str = r#"
# a lock is held beside many
> server 81 pump
> follower connects
> follower PUT /x
201 Created
{"ok":true}\n
> follower PUT /y
201 Created
{"ok":true}\n
> each 16: writer# connects
16 times
> each 64: other# connects
64 times
> follower asks GET /x/_changes
> gate holds
yes
> each 16: writer# asks PUT /x/# {}
16 times
> pause 200
> each 64: other# gets PUT /y/# {}; other# gets GET /y/#
64 times
201 Created
200 OK
> gate opens
yes
> follower status
200 OK
> each 16: writer# status
16 times
201 Created
"#;

#[test]
fn transcripts(rt: HostRuntime) -> Result<(), Fail> {
    for transcript in [REQUEST, GOES, LOCK] {
        plays(&rt, rt.alloc(), transcript)?;
    }
    Ok(())
}
