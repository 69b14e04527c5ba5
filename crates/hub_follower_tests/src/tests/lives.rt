//! Sources that are deleted and made again, and logs of an earlier life.

use crate::tests::copier::Copier;
use hub_transcript::replay;
use std::test::Fail;

// The second round begins at 0 of the new life. With numbers alone the second round goes on after 2, and
// leaves out the first two documents of the new source for good.
const MADE_AGAIN: &str = r#"
# a source that is made again is copied anew
> make source 1
> make target 2
> put {"_id":"a","_rev":"1-a"} {"_id":"b","_rev":"1-b"}
source 2
> session S1
at 0
> round
moved at 2-1
> count
target 2
> delete source
> delete target
> make source 3
> make target 4
> put {"_id":"a","_rev":"1-z"} {"_id":"c","_rev":"1-c"} {"_id":"d","_rev":"1-d"}
source 3
> round
moved at 3-3
> count
target 3
> leaves a
source {"_id":"a","_rev":"1-z","_revisions":{"start":1,"ids":["z"]}}
target {"_id":"a","_rev":"1-z","_revisions":{"start":1,"ids":["z"]}}
> leaves b
source
target
> leaves c
source {"_id":"c","_rev":"1-c","_revisions":{"start":1,"ids":["c"]}}
target {"_id":"c","_rev":"1-c","_revisions":{"start":1,"ids":["c"]}}
> leaves d
source {"_id":"d","_rev":"1-d","_revisions":{"start":1,"ids":["d"]}}
target {"_id":"d","_rev":"1-d","_revisions":{"start":1,"ids":["d"]}}
# numbers alone leave out what the new source has
> make source 1
> make target 2
> put {"_id":"a","_rev":"1-a"} {"_id":"b","_rev":"1-b"}
source 2
> session S1 numbers
at 0
> round
moved at 2-1
> count
target 2
> delete source
> delete target
> make source 3
> make target 4
> put {"_id":"a","_rev":"1-z"} {"_id":"c","_rev":"1-c"} {"_id":"d","_rev":"1-d"}
source 3
> round
moved at 3-3
> count
target 1
> leaves a
source {"_id":"a","_rev":"1-z","_revisions":{"start":1,"ids":["z"]}}
target
> leaves d
source {"_id":"d","_rev":"1-d","_revisions":{"start":1,"ids":["d"]}}
target {"_id":"d","_rev":"1-d","_revisions":{"start":1,"ids":["d"]}}
"#;

// Without a source a round fails, and the place stays. With an empty new source a round is idle, and the
// place becomes 0 of the new life. Then the place follows the new source.
const EMPTY_AT_FIRST: &str = r#"
# a source that is made again is empty at first
> make source 1
> make target 2
> put {"_id":"a","_rev":"1-a"} {"_id":"b","_rev":"1-b"}
source 2
> session S1
at 0
> round
moved at 2-1
> count
target 2
> delete source
> round
a peer failed at 2-1
> make source 3
> round
idle at 0-3
> count
target 2
> put {"_id":"a","_rev":"1-z"} {"_id":"c","_rev":"1-c"} {"_id":"d","_rev":"1-d"}
source 3
> round
moved at 3-3
> count
target 5
> checkpoint
logs 3-3 3-3
"#;

#[test]
fn a_source_that_is_made_again_is_copied_anew(rt: HostRuntime) -> Result<(), Fail> {
    let handle = &rt;
    replay::<Copier<'_, HostRuntime>, _>(&handle, rt.alloc(), MADE_AGAIN)?;
    replay::<Copier<'_, HostRuntime>, _>(&handle, rt.alloc(), EMPTY_AT_FIRST)
}

// A source of life 1 with two documents is asked for changes above sequences, each a number alone or with a
// life. Each answer tells how many rows there are.
const CHANGES: &str = r#"
# changes begin in the life of the source
> put {"_id":"a","_rev":"1-a"} {"_id":"b","_rev":"1-b"}
source 2
> changes 0
2 rows up to 2-1
> changes 1
1 rows up to 2-1
> changes 9
0 rows up to 2-1
> changes 1-1
1 rows up to 2-1
> changes 9-1
0 rows up to 2-1
> changes 1-2
2 rows up to 2-1
> changes 9-0
2 rows up to 2-1
> changes 18446744073709551615-18446744073709551615
2 rows up to 2-1
"#;

#[test]
fn changes_begin_in_the_life_of_the_source(rt: HostRuntime) -> Result<(), Fail> {
    let handle = &rt;
    replay::<Copier<'_, HostRuntime>, _>(&handle, rt.alloc(), CHANGES)
}

// A source of life 2 with three documents, an empty target, and logs of one session. Each case tells where a
// session begins, and how many documents it copies. A sequence of life 1 counts as 0 in life 2. In the last
// case a session goes on from whole numbers: its entry has texts, and the older entry stays.
const RECORDED: &str = r#"
# the logs record 2 and 2
> make source 2
> make target 3
> put {"_id":"a","_rev":"1-z"} {"_id":"c","_rev":"1-c"} {"_id":"d","_rev":"1-d"}
source 3
> keep source S0:2/S0:2
> keep target S0:2/S0:2
> session S1
at 2
> copy
idle at 3-2
> count
target 1
> checkpoint
logs 3-2 3-2
# the logs record 2 and 1
> make source 2
> make target 3
> put {"_id":"a","_rev":"1-z"} {"_id":"c","_rev":"1-c"} {"_id":"d","_rev":"1-d"}
source 3
> keep source S0:2/S0:2
> keep target S0:1/S0:1
> session S1
at 1
> copy
idle at 3-2
> count
target 2
> checkpoint
logs 3-2 3-2
# the logs record "2-2" and "2-2"
> make source 2
> make target 3
> put {"_id":"a","_rev":"1-z"} {"_id":"c","_rev":"1-c"} {"_id":"d","_rev":"1-d"}
source 3
> keep source S0:2-2/S0:2-2
> keep target S0:2-2/S0:2-2
> session S1
at 2-2
> copy
idle at 3-2
> count
target 1
> checkpoint
logs 3-2 3-2
# the logs record 2 and "2-2"
> make source 2
> make target 3
> put {"_id":"a","_rev":"1-z"} {"_id":"c","_rev":"1-c"} {"_id":"d","_rev":"1-d"}
source 3
> keep source S0:2/S0:2
> keep target S0:2-2/S0:2-2
> session S1
at 2-2
> copy
idle at 3-2
> count
target 1
> checkpoint
logs 3-2 3-2
# the logs record "2-2" and 1
> make source 2
> make target 3
> put {"_id":"a","_rev":"1-z"} {"_id":"c","_rev":"1-c"} {"_id":"d","_rev":"1-d"}
source 3
> keep source S0:2-2/S0:2-2
> keep target S0:1/S0:1
> session S1
at 1-2
> copy
idle at 3-2
> count
target 2
> checkpoint
logs 3-2 3-2
# the logs record "2-1" and "2-1"
> make source 2
> make target 3
> put {"_id":"a","_rev":"1-z"} {"_id":"c","_rev":"1-c"} {"_id":"d","_rev":"1-d"}
source 3
> keep source S0:2-1/S0:2-1
> keep target S0:2-1/S0:2-1
> session S1
at 2-1
> copy
idle at 3-2
> count
target 3
> checkpoint
logs 3-2 3-2
# the logs record "9-1" and 2
> make source 2
> make target 3
> put {"_id":"a","_rev":"1-z"} {"_id":"c","_rev":"1-c"} {"_id":"d","_rev":"1-d"}
source 3
> keep source S0:9-1/S0:9-1
> keep target S0:2/S0:2
> session S1
at 2-1
> copy
idle at 3-2
> count
target 3
> checkpoint
logs 3-2 3-2
# the logs record 2 and "7-1"
> make source 2
> make target 3
> put {"_id":"a","_rev":"1-z"} {"_id":"c","_rev":"1-c"} {"_id":"d","_rev":"1-d"}
source 3
> keep source S0:2/S0:2
> keep target S0:7-1/S0:7-1
> session S1
at 2-1
> copy
idle at 3-2
> count
target 3
> checkpoint
logs 3-2 3-2
# the logs record "2-2" and "2-1"
> make source 2
> make target 3
> put {"_id":"a","_rev":"1-z"} {"_id":"c","_rev":"1-c"} {"_id":"d","_rev":"1-d"}
source 3
> keep source S0:2-2/S0:2-2
> keep target S0:2-1/S0:2-1
> session S1
at 0
> copy
idle at 3-2
> count
target 3
> checkpoint
logs 3-2 3-2
# logs of whole numbers go on with texts
> make source 2
> make target 3
> put {"_id":"a","_rev":"1-z"} {"_id":"c","_rev":"1-c"} {"_id":"d","_rev":"1-d"}
source 3
> keep source S0:2/S0:2
> keep target S0:2/S0:2
> session S1
at 2
> round
moved at 3-2
> count
target 1
> checkpoint
logs 3-2 3-2
> log source
{"history":[{"end_last_seq":"3-2","recorded_seq":"3-2","session_id":"S1","start_last_seq":2},{"end_last_seq":2,"recorded_seq":2,"session_id":"S0","start_last_seq":0}],"replication_id_version":3,"session_id":"S1","source_last_seq":"3-2"}
> log target
{"history":[{"end_last_seq":"3-2","recorded_seq":"3-2","session_id":"S1","start_last_seq":2},{"end_last_seq":2,"recorded_seq":2,"session_id":"S0","start_last_seq":0}],"replication_id_version":3,"session_id":"S1","source_last_seq":"3-2"}
"#;

#[test]
fn a_session_goes_on_from_logs_of_its_life(rt: HostRuntime) -> Result<(), Fail> {
    let handle = &rt;
    replay::<Copier<'_, HostRuntime>, _>(&handle, rt.alloc(), RECORDED)
}
