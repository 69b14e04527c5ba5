//! Calls and answers that are lost, at every call of a session.

use crate::tests::copier::Copier;
use hub_transcript::replay;
use std::test::Fail;

// The calls of the source: its log, the changes, three documents, the changes again, and keeping its log. The
// calls of the target: its log, the missing revisions, storing, and keeping its log.
const ALL: &str = r#"
# peers come back from a failed start
> loses source 1 before
> session S1
a peer failed, faults 1 0, of databases 0 0
# a session of five edits of three documents, of which x has three leaves
> then {"_id":"a","_revisions":{"start":2,"ids":["c","a"]}} {"_id":"b","_rev":"1-b"} {"_id":"x","_revisions":{"start":2,"ids":["b","q"]},"_deleted":true} {"_id":"x","_revisions":{"start":2,"ids":["a","q"]}} {"_id":"x","_rev":"1-z"}
> ids a b x
> lose source 1 before
a peer failed, target 0; then from 0 to 5
> lose source 2 before
a peer failed, target 0; then from 0 to 5
> lose source 3 before
a peer failed, target 0; then from 0 to 5
> lose source 4 before
a peer failed, target 0; then from 0 to 5
> lose source 5 before
a peer failed, target 0; then from 0 to 5
> lose source 6 before
a peer failed, target 5; then from 0 to 5
> lose source 7 before
a peer failed, target 5; then from 0 to 5
> lose source 8 before
copied, target 5; then from 5-1 to 5
> lose target 1 before
a peer failed, target 0; then from 0 to 5
> lose target 2 before
a peer failed, target 0; then from 0 to 5
> lose target 3 before
a peer failed, target 0; then from 0 to 5
> lose target 4 before
a peer failed, target 5; then from 0 to 5
> lose target 5 before
copied, target 5; then from 5-1 to 5
> lose source 1 after
a peer failed, target 0; then from 0 to 5
> lose source 2 after
a peer failed, target 0; then from 0 to 5
> lose source 3 after
a peer failed, target 0; then from 0 to 5
> lose source 4 after
a peer failed, target 0; then from 0 to 5
> lose source 5 after
a peer failed, target 0; then from 0 to 5
> lose source 6 after
a peer failed, target 5; then from 0 to 5
> lose source 7 after
a peer failed, target 5; then from 0 to 5
> lose source 8 after
copied, target 5; then from 5-1 to 5
> lose target 1 after
a peer failed, target 0; then from 0 to 5
> lose target 2 after
a peer failed, target 0; then from 0 to 5
> lose target 3 after
a peer failed, target 5; then from 0 to 5
> lose target 4 after
a peer failed, target 5; then from 5-1 to 5
> lose target 5 after
copied, target 5; then from 5-1 to 5
"#;

// A first session copies revisions without ancestors, of which one is deleted. Later edits tell the parents:
// under a known head, which changes nothing, and under new heads. The three later edits of z lengthen the
// line of 7-g down to 4-d, to 2-b and to 1-a.
const PARENTS: &str = r#"
# a session of parents that come behind a first copy
> first {"_id":"x","_rev":"2-b"} {"_id":"x","_rev":"3-c","_deleted":true} {"_id":"y","_rev":"5-e"} {"_id":"z","_rev":"7-g"} {"_id":"z","_revisions":{"start":5,"ids":["e","d"]}} {"_id":"z","_rev":"2-b"}
> then {"_id":"x","_revisions":{"start":3,"ids":["c","b"]}} {"_id":"x","_revisions":{"start":4,"ids":["d","c","b"]}} {"_id":"y","_revisions":{"start":6,"ids":["f","e","d"]},"_deleted":true} {"_id":"z","_revisions":{"start":8,"ids":["h","g","f","e"]}} {"_id":"z","_revisions":{"start":6,"ids":["k","e","d","c","b"]}} {"_id":"z","_revisions":{"start":3,"ids":["m","b","a"]}}
> ids x y z
> lose source 1 before
a peer failed, target 6; then from 6-1 to 11
> lose source 2 before
a peer failed, target 6; then from 6-1 to 11
> lose source 3 before
a peer failed, target 6; then from 6-1 to 11
> lose source 4 before
a peer failed, target 6; then from 6-1 to 11
> lose source 5 before
a peer failed, target 6; then from 6-1 to 11
> lose source 6 before
a peer failed, target 11; then from 6-1 to 11
> lose source 7 before
a peer failed, target 11; then from 6-1 to 11
> lose source 8 before
copied, target 11; then from 11-1 to 11
> lose target 1 before
a peer failed, target 6; then from 6-1 to 11
> lose target 2 before
a peer failed, target 6; then from 6-1 to 11
> lose target 3 before
a peer failed, target 6; then from 6-1 to 11
> lose target 4 before
a peer failed, target 11; then from 6-1 to 11
> lose target 5 before
copied, target 11; then from 11-1 to 11
> lose source 1 after
a peer failed, target 6; then from 6-1 to 11
> lose source 2 after
a peer failed, target 6; then from 6-1 to 11
> lose source 3 after
a peer failed, target 6; then from 6-1 to 11
> lose source 4 after
a peer failed, target 6; then from 6-1 to 11
> lose source 5 after
a peer failed, target 6; then from 6-1 to 11
> lose source 6 after
a peer failed, target 11; then from 6-1 to 11
> lose source 7 after
a peer failed, target 11; then from 6-1 to 11
> lose source 8 after
copied, target 11; then from 11-1 to 11
> lose target 1 after
a peer failed, target 6; then from 6-1 to 11
> lose target 2 after
a peer failed, target 6; then from 6-1 to 11
> lose target 3 after
a peer failed, target 11; then from 6-1 to 11
> lose target 4 after
a peer failed, target 11; then from 11-1 to 11
> lose target 5 after
copied, target 11; then from 11-1 to 11
"#;

#[test]
fn whatever_is_lost_all_is_copied(rt: HostRuntime) -> Result<(), Fail> {
    let handle = &rt;
    replay::<Copier<'_, HostRuntime>, _>(&handle, rt.alloc(), ALL)
}

// Histories end above the first generation. Leaves, winners and their ancestors are copied.
#[test]
fn whatever_is_lost_parents_are_copied(rt: HostRuntime) -> Result<(), Fail> {
    let handle = &rt;
    replay::<Copier<'_, HostRuntime>, _>(&handle, rt.alloc(), PARENTS)
}
