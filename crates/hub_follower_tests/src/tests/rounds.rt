//! Rounds, and why they fail.

use crate::tests::copier::Copier;
use hub_transcript::replay;
use std::test::Fail;

// A round asks for a hundred rows, and finishes its feed. A failed start tells the faults that its source and
// its target counted.
const ROUNDS: &str = r#"
# a round copies and the next is idle
> put {"_id":"a","_rev":"1-a"} {"_id":"b","_rev":"1-b"}
source 2
> session S1
at 0
> round
moved at 2-1
> count
target 2
> leaves b
source {"_id":"b","_rev":"1-b","_revisions":{"start":1,"ids":["b"]}}
target {"_id":"b","_rev":"1-b","_revisions":{"start":1,"ids":["b"]}}
> round
idle at 2-1
> count
target 2
> log target
none
# rounds go on behind a hundred rows
> fill 150
source 150
> session S1
at 0
> round
moved at 100-1
> count
target 100
> round
moved at 150-1
> count
target 150
> round
idle at 150-1
> count
target 150
# a round finishes its feed: the source has room for one
> make source 1 feed
> put {"_id":"a","_rev":"1-a"} {"_id":"b","_rev":"1-b"}
source 2
> session S1
at 0
> round
moved at 2-1
> count
target 2
> round
idle at 2-1
> count
target 2
# a full target refuses and the place stays
> put {"_id":"a","_rev":"1-a"} {"_id":"b","_rev":"1-b"}
source 2
> make target 1 edit
> session S1
at 0
> round
SequenceFull of b 1-b at 0
> count
target 1
# a deleted source is a counted fault
> session S1
at 0
> delete source
> round
a peer failed at 0
> count
target 0
> end
faults 1 0, of databases 1 0
# a deleted target begins no session
> delete target
> session S1
a peer failed, faults 0 1, of databases 0 1
# a bad log id begins no session
> logs follower
> session S1
no local document may have the id of the replication logs, faults 0 0, of databases 0 0
> logs _local/
> session S1
no local document may have the id of the replication logs, faults 0 0, of databases 0 0
> logs
> session S1
no local document may have the id of the replication logs, faults 0 0, of databases 0 0
> logs _design/x
> session S1
no local document may have the id of the replication logs, faults 0 0, of databases 0 0
"#;

#[test]
fn rounds_and_why_they_fail(rt: HostRuntime) -> Result<(), Fail> {
    let handle = &rt;
    replay::<Copier<'_, HostRuntime>, _>(&handle, rt.alloc(), ROUNDS)
}
