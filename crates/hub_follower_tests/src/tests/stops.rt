//! Followers that stop after an earlier checkpoint.

use crate::tests::copier::Copier;
use hub_transcript::replay;
use std::test::Fail;

// The target is a copy of the source up to 2, which both logs record. The source has one document more. Its
// calls: its log, the changes, the document, the changes again, and keeping its log.
const SOURCE_CALLS: &str = r#"
# a follower that stopped at a call of its source
> first {"_id":"a","_rev":"1-a"} {"_id":"b","_rev":"1-b"}
> then {"_id":"c","_rev":"1-c"}
> ids a b c
> lose source 1 before
a peer failed, target 2; then from 2-1 to 3
> lose source 2 before
a peer failed, target 2; then from 2-1 to 3
> lose source 3 before
a peer failed, target 2; then from 2-1 to 3
> lose source 4 before
a peer failed, target 3; then from 2-1 to 3
> lose source 5 before
a peer failed, target 3; then from 2-1 to 3
> lose source 6 before
copied, target 3; then from 3-1 to 3
> lose source 1 after
a peer failed, target 2; then from 2-1 to 3
> lose source 2 after
a peer failed, target 2; then from 2-1 to 3
> lose source 3 after
a peer failed, target 2; then from 2-1 to 3
> lose source 4 after
a peer failed, target 3; then from 2-1 to 3
> lose source 5 after
a peer failed, target 3; then from 2-1 to 3
> lose source 6 after
copied, target 3; then from 3-1 to 3
"#;

// The calls of the target: its log, the missing revisions, storing, and keeping its log.
const TARGET_CALLS: &str = r#"
# a follower that stopped at a call of its target
> first {"_id":"a","_rev":"1-a"} {"_id":"b","_rev":"1-b"}
> then {"_id":"c","_rev":"1-c"}
> ids a b c
> lose target 1 before
a peer failed, target 2; then from 2-1 to 3
> lose target 2 before
a peer failed, target 2; then from 2-1 to 3
> lose target 3 before
a peer failed, target 2; then from 2-1 to 3
> lose target 4 before
a peer failed, target 3; then from 2-1 to 3
> lose target 5 before
copied, target 3; then from 3-1 to 3
> lose target 1 after
a peer failed, target 2; then from 2-1 to 3
> lose target 2 after
a peer failed, target 2; then from 2-1 to 3
> lose target 3 after
a peer failed, target 3; then from 2-1 to 3
> lose target 4 after
a peer failed, target 3; then from 3-1 to 3
> lose target 5 after
copied, target 3; then from 3-1 to 3
"#;

// The follower stops after the merge and before the checkpoint. The next session begins at the old
// checkpoint, the target misses nothing, and nothing is stored again.
const BEFORE_CHECKPOINT: &str = r#"
# a follower that stopped before its checkpoint
> put {"_id":"a","_rev":"1-a"} {"_id":"b","_rev":"1-b"}
source 2
> session S1
at 0
> copy
idle at 2-1
> count
target 2
> checkpoint
logs 2-1 2-1
> put {"_id":"c","_rev":"1-c"}
source 3
> session S2
at 2-1
> missing 2-1
c
1 missing
> round
moved at 3-1
> count
target 3
> missing 2-1
0 missing
> session S3
at 2-1
> round
moved at 3-1
> count
target 3
"#;

#[test]
fn a_follower_that_stopped_at_a_call_of_its_source(rt: HostRuntime) -> Result<(), Fail> {
    let handle = &rt;
    replay::<Copier<'_, HostRuntime>, _>(&handle, rt.alloc(), SOURCE_CALLS)
}

#[test]
fn a_follower_that_stopped_at_a_call_of_its_target(rt: HostRuntime) -> Result<(), Fail> {
    let handle = &rt;
    replay::<Copier<'_, HostRuntime>, _>(&handle, rt.alloc(), TARGET_CALLS)
}

#[test]
fn a_follower_that_stopped_before_its_checkpoint(rt: HostRuntime) -> Result<(), Fail> {
    let handle = &rt;
    replay::<Copier<'_, HostRuntime>, _>(&handle, rt.alloc(), BEFORE_CHECKPOINT)
}
