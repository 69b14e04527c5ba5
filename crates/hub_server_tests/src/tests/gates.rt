//! A connection that is held does not hold the others, nor does a held database.

use crate::tests::running::plays;
use std::test::Fail;

const WRITER: &str = r#"
# a writer that is held holds no other
> server 2 request 1
> first connects
> second connects
> second PUT /d
201 Created
{"ok":true}\n
> first asks PUT /d/a {}
> gate holds
yes
> second PUT /d/b {}
201 Created
{"ok":true,"id":"b","rev":"1-0c80c32cd7709ec4939abd63894262cc"}\n
> gate opens
yes
> first answer
201 Created
{"ok":true,"id":"a","rev":"1-dfddbf319adb018d1e5ac3465b83542c"}\n
"#;

/// A pump is held inside the lock of `x`. A write to `x` comes to that lock in the pause, and waits.
/// Meanwhile `y` is read, and `z` is made, which needs the names alone.
const DATABASE: &str = r#"
# a database that is held holds no other
> server 3 pump
> reader connects
> follower connects
> writer connects
> reader PUT /x
201 Created
{"ok":true}\n
> reader PUT /y
201 Created
{"ok":true}\n
> follower asks GET /x/_changes
> gate holds
yes
> writer asks PUT /x/a {}
> pause 200
> reader GET /y
200 OK
{"db_name":"y","doc_count":0,"doc_del_count":0,"update_seq":"0-2","instance_start_time":"0"}\n
> reader PUT /z
201 Created
{"ok":true}\n
> gate opens
yes
> writer answer
201 Created
{"ok":true,"id":"a","rev":"1-dfddbf319adb018d1e5ac3465b83542c"}\n
"#;

#[test]
fn transcripts(rt: HostRuntime) -> Result<(), Fail> {
    for transcript in [WRITER, DATABASE] {
        plays(&rt, rt.alloc(), transcript)?;
    }
    Ok(())
}
