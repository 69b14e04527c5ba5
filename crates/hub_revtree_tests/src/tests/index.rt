//! A tree with so many edits that it has an index.
//!
//! In the first case there are edits for the numbers 0, 1, 50, 300, 600 and 650, and none for 900 and 1250.
//! In the second case there are edits for the numbers from 0 to 399.

use crate::tests::session::Session;
use hub_transcript::replay;
use std::test::Fail;

const INDEX: &str = r#"
# revisions among many
> same 600
> times 700 merge {"_id":"a","_revisions":{"start":2,"ids":["%0;","00000000000000000000000000000000"]}}
added
> times 700 knows 2-%0; & knows 2-%700;
known
unknown
> sizes
700 edits 701 revisions 700 leaves
> rev 1-00000000000000000000000000000000
known path 1-00000000000000000000000000000000
> rev 1-00000000000000010000000000000001
unknown
> rev 2-000000000000012c0000000000000384
unknown
> rev 2-000000000000003200000000000004e2
unknown
> rev 2-ffffffffffffffffffffffffffffffff
unknown
> rev 2-a
unknown
> rev 2-0000000000000032000000000000028a
known live {} path 2-0000000000000032000000000000028a 1-00000000000000000000000000000000
> rev 2-000000000000012c000000000000012c
known live {} path 2-000000000000012c000000000000012c 1-00000000000000000000000000000000
> rev 2-000000000000012c0000000000000384
unknown
> rev 1-00000000000000000000000000000000
known path 1-00000000000000000000000000000000
> rev 2-ffffffffffffffffffffffffffffffff
unknown
> rev 2-00000000000000000000000000000258
known live {} path 2-00000000000000000000000000000258 1-00000000000000000000000000000000
> merge {"_id":"a","_revisions":{"start":2,"ids":["000000000000012c000000000000012c","00000000000000000000000000000000"]}}
known
> merge {"_id":"a","_revisions":{"start":3,"ids":["00000000000000010000000000000001","000000000000012c000000000000012c","b"]}}
contradicts
> merge {"_id":"a","_deleted":true,"_revisions":{"start":3,"ids":["00000000000000010000000000000001","000000000000012c000000000000012c","00000000000000000000000000000000"]}}
added
> rev 3-00000000000000010000000000000001
known deleted {} path 3-00000000000000010000000000000001 2-000000000000012c000000000000012c 1-00000000000000000000000000000000
> rev 2-00000000000000010000000000000001
known live {} path 2-00000000000000010000000000000001 1-00000000000000000000000000000000
> missing 2-00000000000000010000000000000001 3-00000000000000010000000000000001 4-00000000000000010000000000000001
missing 4-00000000000000010000000000000001
# revisions that are no digests
> times 400 merge {"_id":"a","_rev":"2-x%n;"}
added
> times 400 merge {"_id":"a","_revisions":{"start":3,"ids":["y%n;","x%n;","z%n;"]}}
added
> sizes
800 edits 1200 revisions 400 leaves
> rev 2-x0
known live {} path 2-x0 1-z0
> rev 2-x399
known live {} path 2-x399 1-z399
> rev 3-y7
known live {} path 3-y7 2-x7 1-z7
> rev 1-z300
known path 1-z300
> rev 2-x400
unknown
> rev 1-x5
unknown
> rev 2-00000000000000000000000000000000
unknown
> rev 2-x0
known live {} path 2-x0 1-z0
> rev 3-y399
known live {} path 3-y399 2-x399 1-z399
> rev 1-z7
known path 1-z7
> rev 3-y400
unknown
> rev 2-x7
known live {} path 2-x7 1-z7
> rev 3-y300
known live {} path 3-y300 2-x300 1-z300
> merge {"_id":"a","_revisions":{"start":2,"ids":["x5","z5"]}}
known
> merge {"_id":"a","_revisions":{"start":3,"ids":["w","x5","q"]}}
contradicts
> merge {"_id":"a","_revisions":{"start":3,"ids":["w","x5","z5"]}}
added
> rev 3-w
known live {} path 3-w 2-x5 1-z5
> missing 2-x5 2-x400 1-z399 3-w
missing 2-x400"#;

#[test]
fn trees_with_an_index(rt: HostRuntime) -> Result<(), Fail> {
    replay::<Session, _>(&rt, rt.alloc(), INDEX)
}
