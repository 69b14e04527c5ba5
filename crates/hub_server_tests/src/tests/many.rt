//! Many feeds that wait, and writes that reach each of them once.

use crate::tests::running::plays;
use std::test::Fail;

/// Each feed takes two of the 1,024 descriptors that a process may have by default. `bench/feeds.py` has a
/// thousand feeds. The sequences of the database that was made second end in `-2`.
const FEEDS: &str = r#"
# a write to each of twenty databases reaches all twenty feeds of it, each once
> server 401
> writer connects
> each 20: writer gets PUT /d#
20 times
201 Created
> each 20 20: feed@-# connects; feed@-# follows GET /d#/_changes?feed=continuous
400 times
200 OK
chunks
> each 20: writer gets POST /d#/_bulk_docs {"new_edits":false,"docs":[{"_id":"1","_rev":"1-a"}]}
20 times
201 Created
> each 20 20: feed@-# chunk {"seq":"1-#","id":"1","changes":[{"rev":"1-a"}]}\n
400 times
yes
> each 20: writer gets POST /d#/_bulk_docs {"new_edits":false,"docs":[{"_id":"2","_rev":"1-a"}]}
20 times
201 Created
> each 20 20: feed@-# chunk {"seq":"2-#","id":"2","changes":[{"rev":"1-a"}]}\n
400 times
yes
> each 20: writer gets POST /d#/_bulk_docs {"new_edits":false,"docs":[{"_id":"3","_rev":"1-a"}]}
20 times
201 Created
> each 20 20: feed@-# chunk {"seq":"3-#","id":"3","changes":[{"rev":"1-a"}]}\n
400 times
yes
> each 20: writer gets DELETE /d#
20 times
200 OK
> each 20 20: feed@-# chunks {"last_seq":"3-#","pending":0}\n
400 times
yes
"#;

#[test]
fn four_hundred_feeds_over_twenty_databases(rt: HostRuntime) -> Result<(), Fail> {
    plays(&rt, rt.alloc(), FEEDS)
}
